//! Texts in UTF-8. A code unit is a byte.

ghost use Rattle.std.specs.Prelude.{if◌then◌else◌, nat_lt, ◌≡◌, ℕ, ◌+◌, ◌*◌, ◌%◌, ◌<◌, ◌^◌, true, length, get_or};
ghost use Rattle.std.specs.Char.{len_utf8};
ghost use Rattle.std.specs.Str.{chars, IsUtf8};
ghost use Rattle.std.specs.Str.Iter.{char_indices_rest, char_indices_offset};
ghost use Rattle.std.specs.Iterator.{YieldsFirst, item_count};
ghost use Rattle.bidi_base.specs.Texts.{utf8};
ghost use Rattle.bidi_base.specs.Text.{indices_lengths_from};
ghost use lib.Utf8.{scalar};

use super::{TextSource, char_of_code};
use std::fmt;
use std::ops::Range;
use std::simd::prelude::*;
use std::str::{CharIndices, Chars};

/// A text in UTF-8.
///
/// Code units are bytes, so a character is 1 to 4 code units long.
#[derive(Clone, Copy, PartialEq)]
pub struct StrText<'t> {
    text: &'t str,
}

// Prints the string.
impl fmt::Debug for StrText<'_> {
    fn fmt<W: fmt::Write>(&self, f: &mut fmt::Formatter<W>) -> fmt::Result {
        fmt::Debug::fmt(self.text, f)
    }
}

impl<'t> StrText<'t> {
    /// Creates the text of a string.
    pub fn new(text: &'t str) -> StrText<'t>
        ensures { result.text.now ≡ text.now }
    {
        StrText { text }
    }

    /// Returns the string passed to `new`.
    pub fn as_str(self) -> &'t str
        ensures { result.now ≡ self.entry.text.now }
    {
        self.text
    }
}

/// Iterates over the index and the length, both in bytes, of each character of a string, in order.
#[derive(Debug, Drop)]
pub struct Utf8IndexLenIter<'t> {
    iter: CharIndices<'t>,
}

impl<'t> Utf8IndexLenIter<'t> {
    /// Starts at the string's first character.
    pub fn new(text: &'t str) -> Utf8IndexLenIter<'t>
        ensures rest { char_indices_rest result.iter ≡ text.now }
        ensures at { char_indices_offset result.iter ≡ 0 }
    {
        Utf8IndexLenIter {
            iter: text.char_indices(),
        }
    }
}

impl<'t> Iterator for Utf8IndexLenIter<'t> {
    type Item = (usize, usize);

    ghost can_next = { λ s. IsUtf8 (char_indices_rest s.iter)
        × (char_indices_offset s.iter + length (char_indices_rest s.iter) < 2 ^ 64) };

    ghost next_gives = { YieldsFirst (λ s. indices_lengths_from len_utf8 (char_indices_offset s.iter)
        (chars (char_indices_rest s.iter))) };

    ghost remaining = { item_count (λ s. indices_lengths_from len_utf8 (char_indices_offset s.iter)
        (chars (char_indices_rest s.iter))) };

    fn next(&mut self) -> Option<(usize, usize)> {
        match self.iter.next() {
            Some((at, _c)) => {
                let len = self.iter.offset() - at;
                Some((at, len))
            }
            None => None,
        }
    }
}

// The number of bytes of a character, by the upper four bits of its first byte.
const LENGTHS: [u8; 16] = [1, 1, 1, 1, 1, 1, 1, 1, 1, 1, 1, 1, 2, 2, 3, 4];

// Returns the number of bytes of a character, from its first byte. A table takes fewer instructions than
// tests.
fn len_of_first(first: u8) -> usize
    ensures { result ≡ (if nat_lt first 192 then 1 else if nat_lt first 224 then 2 else if nat_lt first 240 then 3 else 4) }
{
    usize::from(LENGTHS[usize::from(first / 16)])
}

// Decodes a character of two bytes.
fn char_of_two(first: u8, second: u8) -> char
    ensures { result ≡ first % 32 * 64 + second % 64 }
{
    char_of_code(u32::from(first) % 32 * 64 + u32::from(second) % 64)
}

// Decodes a character of three bytes.
fn char_of_three(first: u8, second: u8, third: u8) -> char
    requires { scalar (first % 16 * 4096 + second % 64 * 64 + third % 64) ≡ true }
    ensures { result ≡ first % 16 * 4096 + second % 64 * 64 + third % 64 }
{
    let high = u32::from(first) % 16 * 4096;
    let middle = u32::from(second) % 64 * 64;
    char_of_code(high + middle + u32::from(third) % 64)
}

// Decodes a character of four bytes.
fn char_of_four(first: u8, second: u8, third: u8, fourth: u8) -> char
    requires { scalar (first % 8 * 262144 + second % 64 * 4096 + third % 64 * 64 + fourth % 64) ≡ true }
    ensures { result ≡ first % 8 * 262144 + second % 64 * 4096 + third % 64 * 64 + fourth % 64 }
{
    let high = u32::from(first) % 8 * 262144 + u32::from(second) % 64 * 4096;
    let low = u32::from(third) % 64 * 64 + u32::from(fourth) % 64;
    char_of_code(high + low)
}

// Returns true only if all sixteen bytes are ASCII.
fn is_ascii(block: u8x16) -> bool
    requires { length block ≡ 16 }
    ensures { result ≡ true → (k : ℕ) → k < 16 → get_or block k 0 < 128 }
{
    let others = block.simd_ge(u8x16::splat(0x80)).to_bitmask();
    others == 0
}

impl<'t> TextSource for StrText<'t> {
    type CharIter = Chars<'t>;

    type CharIndexIter = CharIndices<'t>;

    type IndexLenIter = Utf8IndexLenIter<'t>;

    const READS_IN_PLACE: bool = true;

    ghost encoding = { utf8 };

    ghost text = { λ t. record { chars = chars t.text.now } };

    fn len(&self) -> usize {
        self.as_str().len()
    }

    // N0 calls this for each character that may be a bracket.
    #[inline(always)]
    fn char_at(&self, index: usize) -> Option<(char, usize)> {
        let text = self.as_str();
        if !text.is_char_boundary(index) {
            return None;
        }
        // Only the last character can have no byte after its first.
        if index + 1 < text.len() {
            return Some(self.next_at(index));
        }
        let rest = &text[index..];
        let mut chars = rest.chars();
        match chars.next() {
            Some(c) => Some((c, rest.len() - chars.as_str().len())),
            None => None,
        }
    }

    // Lines call this for each code unit. It looks at one byte.
    fn is_boundary(&self, index: usize) -> bool {
        self.as_str().is_char_boundary(index)
    }

    fn ascii_at(&self, index: usize) -> Option<u8> {
        let byte = *self.as_str().as_bytes().get(index)?;
        if byte.is_ascii() { Some(byte) } else { None }
    }

    fn ascii_block_at(&self, index: usize) -> Option<[u8; 16]> {
        let bytes = self.as_str().as_bytes();
        if bytes.len().checked_sub(index)? < 16 {
            return None;
        }
        let block = u8x16::from_slice(&bytes[index..]);
        if is_ascii(block) {
            Some(block.to_array())
        } else {
            None
        }
    }

    fn next_at(&self, index: usize) -> (char, usize) {
        let bytes = self.as_str().as_bytes();
        // Branches find the length: a processor predicts most of them, but would have to wait for a computed
        // length.
        let first = bytes[index];
        if first < 0xC0 {
            return (char::from(first), 1);
        }
        let second = bytes[index + 1];
        if first < 0xE0 {
            return (char_of_two(first, second), 2);
        }
        let third = bytes[index + 2];
        if first < 0xF0 {
            return (char_of_three(first, second, third), 3);
        }
        (char_of_four(first, second, third, bytes[index + 3]), 4)
    }

    fn len_at(&self, index: usize) -> usize {
        len_of_first(self.as_str().as_bytes()[index])
    }

    fn subrange(self, range: Range<usize>) -> StrText<'t> {
        let text = self.as_str();
        StrText::new(&text[range])
    }

    fn chars(self) -> Chars<'t> {
        self.as_str().chars()
    }

    fn char_indices(self) -> CharIndices<'t> {
        self.as_str().char_indices()
    }

    fn indices_lengths(self) -> Utf8IndexLenIter<'t> {
        Utf8IndexLenIter::new(self.as_str())
    }

    fn char_len(c: char) -> usize
        ensures { result ≡ len_utf8 c }
    {
        c.len_utf8()
    }
}
