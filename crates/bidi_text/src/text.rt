//! Texts: lists of characters, each one or more code units long.
//!
//! A *code unit*, or *unit*, is the element of an encoding: a byte in UTF-8, a `u16` in UTF-16. The *index*
//! of a character is the number of code units before it. The contract of each method is stated on the
//! text's list of characters.

ghost use Rattle.std.specs.Prelude.{◌≡◌, ℕ, ◌+◌, ◌<◌, ◌↔◌, true, get_or, Some, option_map, IfSome, IsTrue};
ghost use Rattle.std.specs.List.{list_all};
ghost use lib.Utf8.{scalar};
ghost use Rattle.bidi_base.specs.Text.{all_same, Gives};
ghost use Rattle.bidi_base.specs.Texts.{Encoding, Text, text_len, char_indices, indices_lengths, char_at, ascii_at, is_boundary, IsLine, subrange, is_per_char as is_per_char_of};

use std::ops::Range;

mod chars_text;
mod class_text;
mod indexed_text;
mod str_text;
mod utf16_text;

pub use chars_text::{CharsCharIndexIter, CharsCharIter, CharsIndexLenIter, CharsText};
pub use class_text::{BRACKET_OPENS, ClassData, ClassText, bracket_codes_fault};
pub use indexed_text::{
    Indexed, IndexedCharIndexIter, IndexedCharIter, IndexedIndexLenIter, IndexedText,
};
pub use str_text::{StrText, Utf8IndexLenIter};
pub use utf16_text::{
    Utf16CharIndexIter, Utf16CharIter, Utf16IndexLenIter, Utf16Text, are_characters,
};

/// A text: a list of characters, each at least one code unit long.
///
/// All indices, lengths and ranges count code units.
pub trait TextSource: Copy {
    /// The iterator over the characters.
    type CharIter: Iterator<Item = char>;

    /// The iterator over each character with its index.
    type CharIndexIter: Iterator<Item = (usize, char)>;

    /// The iterator over the index and the length of each character.
    type IndexLenIter: Iterator<Item = (usize, usize)>;

    /// Whether `next_at` is as fast as a step of `char_indices`, for example because the code units are in
    /// one slice. If it is true, passes read the text by index whenever that is faster. The results are the same
    /// either way.
    const READS_IN_PLACE: bool = false;

    /// The length of a character in code units, at least one.
    ghost encoding: { Encoding };

    /// The text.
    ghost text: { Self → Text encoding };

    /// Returns the number of code units.
    fn len(&self) -> usize
        ensures { result ≡ text_len (text self.now) };

    /// Returns the character that begins at an index, and its length in code units.
    ///
    /// Returns `None` if no character begins there: the index is inside a character, or it is the text's
    /// length or more.
    fn char_at(&self, index: usize) -> Option<(char, usize)>
        ensures { result ≡ char_at (text self.now) index };

    /// Returns the text of a range of code units.
    ///
    /// Both ends must be boundaries, and the start at most the end: see [`is_line`].
    fn subrange(self, range: Range<usize>) -> Self
        requires { IsLine (text self) range.start range.end }
        ensures { text result ≡ subrange (text self) range.start range.end };

    /// Iterates over the characters in order, each once.
    fn chars(self) -> Self::CharIter
        ensures { Gives Self.CharIter.can_next Self.CharIter.next_gives Self.CharIter.remaining result (text self).chars };

    /// Iterates over each character with its index, in order.
    fn char_indices(self) -> Self::CharIndexIter
        ensures { Gives Self.CharIndexIter.can_next Self.CharIndexIter.next_gives Self.CharIndexIter.remaining result
            (char_indices (text self)) };

    /// Iterates over the index and the length of each character, in order.
    fn indices_lengths(self) -> Self::IndexLenIter
        ensures { Gives Self.IndexLenIter.can_next Self.IndexLenIter.next_gives Self.IndexLenIter.remaining result
            (indices_lengths (text self)) };

    /// Returns the length of a character in code units, at least 1.
    fn char_len(c: char) -> usize
        ensures { result ≡ encoding.len_of c };

    /// Returns whether a character begins at an index, or the index is the text's length.
    fn is_boundary(&self, index: usize) -> bool
        ensures { result ≡ is_boundary (text self.now) index }
    {
        index == self.len() || self.char_at(index).is_some()
    }

    /// Returns the ASCII character that begins at an index, if it is one code unit long.
    ///
    /// Returns `None` if no character or another one begins there.
    fn ascii_at(&self, index: usize) -> Option<u8>
        ensures { result ≡ ascii_at (text self.now) index }
    {
        match self.char_at(index) {
            Some((c, 1)) if c.is_ascii() => Some(c as u8),
            _ => None,
        }
    }

    /// Returns the ASCII characters that begin at an index and at the next fifteen indices, if the text can
    /// read them at once.
    ///
    /// Each of the sixteen is one code unit long. UTF-8 and UTF-16 implement this. The index may be any
    /// number, even the text's length or more. `None` says nothing about the text. A text without a faster
    /// way than `ascii_at` can keep this default.
    fn ascii_block_at(&self, index: usize) -> Option<[u8; 16]>
        ensures { IfSome result (λ block. (k : ℕ) → k < 16
            → Some (get_or block k 0) ≡ ascii_at (text self.now) (index + k)) }
    {
        None
    }

    /// Returns the characters below U+0800 that begin at an index and at the next fifteen indices, if the
    /// text can read them at once.
    ///
    /// Each of the sixteen is one code unit long. UTF-16 implements this. The index may be any number, even
    /// the text's length or more. `None` says nothing about the text. A text without a faster way than
    /// `next_at` can keep this default.
    fn low_block_at(&self, index: usize) -> Option<[u16; 16]>
        ensures low { IfSome result (λ block. (k : ℕ) → k < 16 → get_or block k 0 < 0x800) }
        ensures characters { IfSome result (λ block. (k : ℕ) → k < 16
            → Some (get_or block k 0, 1) ≡ char_at (text self.now) (index + k)) }
    {
        None
    }

    /// Returns the character that begins at an index, and its length in code units.
    ///
    /// A character must begin at the index. It must not begin at the text's last code unit, so that an
    /// implementation can read the next unit too.
    fn next_at(&self, index: usize) -> (char, usize)
        requires begins { IsTrue (is_boundary (text self.now) index) }
        requires before_last { index + 1 < text_len (text self.now) }
        ensures { Some result ≡ char_at (text self.now) index }
    {
        match self.char_at(index) {
            Some(found) => found,
            None => unreachable!(),
        }
    }

    /// Returns the length in code units of the character that begins at an index.
    ///
    /// A character must begin at the index. It must not begin at the text's last code unit. An implementation
    /// that finds the length without the character is faster than `next_at`.
    fn len_at(&self, index: usize) -> usize
        requires begins { IsTrue (is_boundary (text self.now) index) }
        requires before_last { index + 1 < text_len (text self.now) }
        ensures { Some result ≡ option_map (λ found. found.1) (char_at (text self.now) index) }
    {
        let (_, len) = self.next_at(index);
        len
    }
}

/// Returns whether a range of code units is in the text and splits no character.
///
/// This holds if the start is at most the end and both are boundaries.
pub fn is_line<T: TextSource>(text: T, line: &Range<usize>) -> bool
    ensures { IsTrue result ↔ IsLine (T.text text) line.now.start line.now.end }
{
    line.start <= line.end && text.is_boundary(line.start) && text.is_boundary(line.end)
}

/// Returns the range of a whole text. It is a line.
pub fn whole<T: TextSource>(text: T) -> Range<usize>
    ensures start { result.start ≡ 0 }
    ensures end { result.end ≡ text_len (T.text text) }
    ensures is_line { IsLine (T.text text) result.start result.end }
{
    0..text.len()
}

// Returns the character of a code point.
fn char_of_code(code: u32) -> char
    requires { scalar code ≡ true }
    ensures { result ≡ code }
{
    match char::from_u32(code) {
        Some(c) => c,
        None => unreachable!(),
    }
}

// Returns whether all entries equal `one`.
fn all_equal_to<E: Copy + Eq>(entries: &[E], one: E) -> bool
    ensures { result ≡ list_all (λ x. E.eq x one) entries.now }
{
    entries.iter().all(|entry| *entry == one)
}

// Returns whether all entries equal the first one.
fn all_equal<E: Copy + Eq>(entries: &[E]) -> bool
    ensures { result ≡ all_same E.eq entries.now }
{
    match entries {
        [] => true,
        [first, ..] => all_equal_to(entries, *first),
    }
}

/// Returns whether `units` has one entry for each code unit of the text, and equal entries within each
/// character.
///
/// Reads the text up to the first character without equal entries.
pub fn is_per_char<T: TextSource, E: Copy + Eq>(text: T, units: &[E]) -> bool
    ensures { result ≡ is_per_char_of E.eq (T.text text) units.now }
{
    let mut rest = units;
    for c in text.chars() {
        let len = T::char_len(c);
        if rest.len() < len {
            return false;
        }
        let (of_char, others) = rest.split_at(len);
        if !all_equal(of_char) {
            return false;
        }
        rest = others;
    }
    rest.is_empty()
}
