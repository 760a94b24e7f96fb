//! Texts in UTF-16. A code unit is a `u16`.

ghost use Rattle.std.specs.Prelude.{◌≡◌, ℕ, ◌+◌, ◌-◌, ◌<◌, ◌≤◌, ◌^◌, length, get_or, [], true, IsTrue, ◌↔◌, MatchOption, IfSome};
ghost use Rattle.std.specs.List.{list_all};
ghost use Rattle.std.specs.Iterator.{YieldsFirst, YieldsLast, item_count};
ghost use Rattle.bidi_base.specs.Texts.{utf16};
ghost use Rattle.bidi_base.specs.Text.{char_indices_from, indices_lengths_from};
ghost use Rattle.bidi_base.specs.Utf16.{is_character, is_pair as is_pair_of, splits_pair as splits_pair_of, pair_char, lone_char, utf16_text, utf16_len, IsFirst, IsLast};

use super::{TextSource, char_of_code};
use std::fmt;
use std::ops::Range;
use std::simd::prelude::*;

/// A text in UTF-16.
///
/// A high surrogate directly followed by a low one is one character, two code units long. Any other code
/// unit is a character of its own: a lone surrogate counts as U+FFFD.
#[derive(Clone, Copy, PartialEq)]
pub struct Utf16Text<'t> {
    units: &'t [u16],
}

// Prints the code units.
impl fmt::Debug for Utf16Text<'_> {
    fn fmt<W: fmt::Write>(&self, f: &mut fmt::Formatter<W>) -> fmt::Result {
        fmt::Debug::fmt(self.units, f)
    }
}

impl<'t> Utf16Text<'t> {
    /// Creates the text of these code units, which may have lone surrogates.
    pub fn new(units: &'t [u16]) -> Utf16Text<'t>
        ensures { result.units.now ≡ units.now }
    {
        Utf16Text { units }
    }

    /// Returns the code units passed to `new`.
    pub fn units(self) -> &'t [u16]
        ensures { result.now ≡ self.entry.units.now }
    {
        self.units
    }
}

// Returns whether a code unit is a surrogate.
fn is_surrogate(unit: u16) -> bool
    ensures { IsTrue result ↔ ((0xD800 ≤ unit) × (unit < 0xE000)) }
{
    0xD800 <= unit && unit < 0xE000
}

/// Returns whether no code unit is a surrogate, so that each is a character.
///
/// Takes time linear in the number of code units, whatever they are.
pub fn are_characters(units: &[u16]) -> bool
    ensures { result ≡ list_all is_character units.now }
{
    // How far a code unit is above 0xD800. Units below 0xD800 wrap around to the largest numbers. A loop
    // without a branch finds the minimum of many units at once.
    let mut least = u16::MAX;
    for unit in units {
        least = least.min(unit.wrapping_sub(0xD800));
    }
    least >= 0x800
}

// Returns whether two code units are a high surrogate and a low one.
fn is_pair(high: u16, low: u16) -> bool
    ensures { result ≡ is_pair_of high low }
{
    (0xD800 <= high && high < 0xDC00) && (0xDC00 <= low && low < 0xE000)
}

// Returns whether an index is between the two code units of a pair.
fn splits_pair(units: &[u16], index: usize) -> bool
    requires { index < length units.now }
    ensures { result ≡ splits_pair_of units.now index }
{
    index > 0 && is_pair(units[index - 1], units[index])
}

// Returns the sixteen code units from an index on, if there are that many and all are below a limit.
fn block_below(units: &[u16], index: usize, limit: u16) -> Option<[u16; 16]>
    ensures { IfSome result (λ block. (index + 16 ≤ length units.now) × (length block ≡ 16)
        × ((k : ℕ) → k < 16 → (get_or block k 0 ≡ get_or units.now (index + k) 0) × (get_or block k 0 < limit))) }
{
    let rest = units.get(index..)?;
    if rest.len() < 16 {
        return None;
    }
    let block = u16x16::from_slice(rest);
    let others = block.simd_ge(u16x16::splat(limit)).to_bitmask();
    if others == 0 {
        Some(block.to_array())
    } else {
        None
    }
}

// Decodes a surrogate pair.
fn char_of_pair(high: u16, low: u16) -> char
    requires { is_pair_of high low ≡ true }
    ensures { result ≡ pair_char high low }
{
    char_of_code(0x10000 + (u32::from(high - 0xD800) * 0x400 + u32::from(low - 0xDC00)))
}

// Returns the character of a code unit that is in no pair.
fn char_of_unit(unit: u16) -> char
    ensures { result ≡ lone_char unit }
{
    char::from_u32(u32::from(unit)).unwrap_or(char::REPLACEMENT_CHARACTER)
}

// Returns the first character with its length in code units, or `None` if there is no code unit.
fn first_char(units: &[u16]) -> Option<(char, usize)>
    ensures { MatchOption result (units.now ≡ []) (λ p. IsFirst units.now p.0 p.1) }
{
    match units {
        [] => None,
        // Most code units are no surrogates. Then the next one need not be read.
        [unit, ..] if !is_surrogate(*unit) => Some((char_of_unit(*unit), 1)),
        [high, low, ..] if is_pair(*high, *low) => Some((char_of_pair(*high, *low), 2)),
        [unit, ..] => Some((char_of_unit(*unit), 1)),
    }
}

// Returns the last character with its length in code units, or `None` if there is no code unit.
fn last_char(units: &[u16]) -> Option<(char, usize)>
    ensures { MatchOption result (units.now ≡ []) (λ p. IsLast units.now p.0 p.1) }
{
    let last = units.len().checked_sub(1)?;
    if splits_pair(units, last) {
        Some((char_of_pair(units[last - 1], units[last]), 2))
    } else {
        Some((char_of_unit(units[last]), 1))
    }
}

/// Iterates over the characters of UTF-16 code units, in order.
///
/// It can be read from both ends in any mixture. Each character comes once.
#[derive(Debug, Drop)]
pub struct Utf16CharIter<'t> {
    rest: &'t [u16],
}

impl<'t> Utf16CharIter<'t> {
    /// Iterates over the characters of these code units.
    pub fn new(units: &'t [u16]) -> Utf16CharIter<'t>
        ensures { result.rest.now ≡ units.now }
    {
        Utf16CharIter { rest: units }
    }
}

impl<'t> Iterator for Utf16CharIter<'t> {
    type Item = char;

    ghost next_gives = { YieldsFirst (λ s. utf16_text s.rest.now) };

    ghost remaining = { item_count (λ s. utf16_text s.rest.now) };

    fn next(&mut self) -> Option<char> {
        let (first, len) = first_char(self.rest)?;
        self.rest = &self.rest[len..];
        Some(first)
    }
}

impl<'t> DoubleEndedIterator for Utf16CharIter<'t> {
    ghost next_back_gives = { YieldsLast (λ s. utf16_text s.rest.now) };

    fn next_back(&mut self) -> Option<char> {
        let (last, len) = last_char(self.rest)?;
        self.rest = &self.rest[..self.rest.len() - len];
        Some(last)
    }
}

/// Iterates over each character of UTF-16 code units with its index, in order.
#[derive(Debug, Drop)]
pub struct Utf16CharIndexIter<'t> {
    rest: &'t [u16],
    at: usize,
}

impl<'t> Utf16CharIndexIter<'t> {
    /// Starts at the first code unit.
    pub fn new(units: &'t [u16]) -> Utf16CharIndexIter<'t>
        ensures rest { result.rest.now ≡ units.now }
        ensures at { result.at ≡ 0 }
    {
        Utf16CharIndexIter { rest: units, at: 0 }
    }
}

impl<'t> Iterator for Utf16CharIndexIter<'t> {
    type Item = (usize, char);

    ghost can_next = { λ s. s.at + length s.rest.now < 2 ^ 64 };

    ghost next_gives = { YieldsFirst (λ s. char_indices_from utf16_len s.at (utf16_text s.rest.now)) };

    ghost remaining = { item_count (λ s. char_indices_from utf16_len s.at (utf16_text s.rest.now)) };

    fn next(&mut self) -> Option<(usize, char)> {
        let (c, len) = first_char(self.rest)?;
        let at = self.at;
        self.rest = &self.rest[len..];
        self.at = at + len;
        Some((at, c))
    }
}

/// Iterates over the index and the length, in code units, of each character of UTF-16 code units, in order.
#[derive(Debug, Drop)]
pub struct Utf16IndexLenIter<'t> {
    rest: &'t [u16],
    at: usize,
}

impl<'t> Utf16IndexLenIter<'t> {
    /// Starts at the first code unit.
    pub fn new(units: &'t [u16]) -> Utf16IndexLenIter<'t>
        ensures rest { result.rest.now ≡ units.now }
        ensures at { result.at ≡ 0 }
    {
        Utf16IndexLenIter { rest: units, at: 0 }
    }
}

impl<'t> Iterator for Utf16IndexLenIter<'t> {
    type Item = (usize, usize);

    ghost can_next = { λ s. s.at + length s.rest.now < 2 ^ 64 };

    ghost next_gives = { YieldsFirst (λ s. indices_lengths_from utf16_len s.at (utf16_text s.rest.now)) };

    ghost remaining = { item_count (λ s. indices_lengths_from utf16_len s.at (utf16_text s.rest.now)) };

    fn next(&mut self) -> Option<(usize, usize)> {
        let (_, len) = first_char(self.rest)?;
        let at = self.at;
        self.rest = &self.rest[len..];
        self.at = at + len;
        Some((at, len))
    }
}

impl<'t> TextSource for Utf16Text<'t> {
    type CharIter = Utf16CharIter<'t>;

    type CharIndexIter = Utf16CharIndexIter<'t>;

    type IndexLenIter = Utf16IndexLenIter<'t>;

    const READS_IN_PLACE: bool = true;

    ghost encoding = { utf16 };

    ghost text = { λ t. record { chars = utf16_text t.units.now } };

    fn len(&self) -> usize {
        self.units.len()
    }

    fn char_at(&self, index: usize) -> Option<(char, usize)> {
        let units = self.units();
        if index >= units.len() || splits_pair(units, index) {
            return None;
        }
        first_char(&units[index..])
    }

    fn ascii_at(&self, index: usize) -> Option<u8> {
        let unit = *self.units().get(index)?;
        if unit < 0x80 { Some(unit as u8) } else { None }
    }

    fn ascii_block_at(&self, index: usize) -> Option<[u8; 16]> {
        let block = block_below(self.units(), index, 0x80)?;
        Some(u16x16::from_array(block).cast::<u8>().to_array())
    }

    fn low_block_at(&self, index: usize) -> Option<[u16; 16]> {
        block_below(self.units(), index, 0x800)
    }

    fn next_at(&self, index: usize) -> (char, usize) {
        let units = self.units();
        let unit = units[index];
        // Most code units are no surrogates. Then the next one need not be read.
        if let Some(c) = char::from_u32(u32::from(unit)) {
            return (c, 1);
        }
        let next = units[index + 1];
        if is_pair(unit, next) {
            (char_of_pair(unit, next), 2)
        } else {
            (char::REPLACEMENT_CHARACTER, 1)
        }
    }

    fn subrange(self, range: Range<usize>) -> Utf16Text<'t> {
        let units = self.units();
        Utf16Text::new(&units[range])
    }

    fn chars(self) -> Utf16CharIter<'t> {
        Utf16CharIter::new(self.units)
    }

    fn char_indices(self) -> Utf16CharIndexIter<'t> {
        Utf16CharIndexIter::new(self.units)
    }

    fn indices_lengths(self) -> Utf16IndexLenIter<'t> {
        Utf16IndexLenIter::new(self.units)
    }

    fn char_len(c: char) -> usize
        ensures { result ≡ utf16_len c }
    {
        c.len_utf16()
    }
}
