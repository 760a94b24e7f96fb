//! Lists of characters as texts. A code unit is a character.

ghost use Rattle.std.specs.Prelude.{◌≡◌, ◌+◌, ◌<◌, ◌^◌, length};
ghost use Rattle.std.specs.Iterator.{YieldsFirst, item_count};
ghost use Rattle.bidi_base.specs.Texts.{one_each};
ghost use Rattle.bidi_base.specs.Text.{char_indices_from, indices_lengths_from, one_unit};

use super::TextSource;
use std::fmt;
use std::ops::Range;

/// A list of characters as a text.
///
/// Each character is one code unit, so its index in the text is its index in the list.
#[derive(Clone, Copy, PartialEq)]
pub struct CharsText<'t> {
    list: &'t [char],
}

// Prints the characters.
impl fmt::Debug for CharsText<'_> {
    fn fmt<W: fmt::Write>(&self, f: &mut fmt::Formatter<W>) -> fmt::Result {
        fmt::Debug::fmt(self.list, f)
    }
}

impl<'t> CharsText<'t> {
    /// Creates the text of a list of characters.
    pub fn new(list: &'t [char]) -> CharsText<'t>
        ensures { result.list.now ≡ list.now }
    {
        CharsText { list }
    }

    /// Returns the list passed to `new`.
    pub fn list(self) -> &'t [char]
        ensures { result.now ≡ self.entry.list.now }
    {
        self.list
    }
}

/// Iterates over the characters of a list, in order.
#[derive(Debug, Drop)]
pub struct CharsCharIter<'t> {
    rest: &'t [char],
}

impl<'t> CharsCharIter<'t> {
    /// Starts at the list's first character.
    pub fn new(list: &'t [char]) -> CharsCharIter<'t>
        ensures { result.rest.now ≡ list.now }
    {
        CharsCharIter { rest: list }
    }
}

impl<'t> Iterator for CharsCharIter<'t> {
    type Item = char;

    ghost next_gives = { YieldsFirst (λ s. s.rest.now) };

    ghost remaining = { item_count (λ s. s.rest.now) };

    fn next(&mut self) -> Option<char> {
        let (first, rest) = self.rest.split_first()?;
        self.rest = rest;
        Some(*first)
    }
}

/// Iterates over each character of a list with its index, in order.
#[derive(Debug, Drop)]
pub struct CharsCharIndexIter<'t> {
    rest: &'t [char],
    at: usize,
}

impl<'t> CharsCharIndexIter<'t> {
    /// Starts at the list's first character.
    pub fn new(list: &'t [char]) -> CharsCharIndexIter<'t>
        ensures rest { result.rest.now ≡ list.now }
        ensures at { result.at ≡ 0 }
    {
        CharsCharIndexIter { rest: list, at: 0 }
    }
}

impl<'t> Iterator for CharsCharIndexIter<'t> {
    type Item = (usize, char);

    ghost can_next = { λ s. s.at + length s.rest.now < 2 ^ 64 };

    ghost next_gives = { YieldsFirst (λ s. char_indices_from one_unit s.at s.rest.now) };

    ghost remaining = { item_count (λ s. char_indices_from one_unit s.at s.rest.now) };

    fn next(&mut self) -> Option<(usize, char)> {
        let (first, rest) = self.rest.split_first()?;
        let at = self.at;
        self.rest = rest;
        self.at = at + 1;
        Some((at, *first))
    }
}

/// Iterates over the index and the length, 1, of each character of a list, in order.
#[derive(Debug, Drop)]
pub struct CharsIndexLenIter<'t> {
    rest: &'t [char],
    at: usize,
}

impl<'t> CharsIndexLenIter<'t> {
    /// Starts at the list's first character.
    pub fn new(list: &'t [char]) -> CharsIndexLenIter<'t>
        ensures rest { result.rest.now ≡ list.now }
        ensures at { result.at ≡ 0 }
    {
        CharsIndexLenIter { rest: list, at: 0 }
    }
}

impl<'t> Iterator for CharsIndexLenIter<'t> {
    type Item = (usize, usize);

    ghost can_next = { λ s. s.at + length s.rest.now < 2 ^ 64 };

    ghost next_gives = { YieldsFirst (λ s. indices_lengths_from one_unit s.at s.rest.now) };

    ghost remaining = { item_count (λ s. indices_lengths_from one_unit s.at s.rest.now) };

    fn next(&mut self) -> Option<(usize, usize)> {
        let (_, rest) = self.rest.split_first()?;
        let at = self.at;
        self.rest = rest;
        self.at = at + 1;
        Some((at, 1))
    }
}

impl<'t> TextSource for CharsText<'t> {
    type CharIter = CharsCharIter<'t>;

    type CharIndexIter = CharsCharIndexIter<'t>;

    type IndexLenIter = CharsIndexLenIter<'t>;

    const READS_IN_PLACE: bool = true;

    ghost encoding = { one_each };

    ghost text = { λ t. record { chars = t.list.now } };

    fn len(&self) -> usize {
        self.list.len()
    }

    fn char_at(&self, index: usize) -> Option<(char, usize)> {
        match self.list.get(index) {
            Some(c) => Some((*c, 1)),
            None => None,
        }
    }

    fn ascii_at(&self, index: usize) -> Option<u8> {
        let c = *self.list.get(index)?;
        if c.is_ascii() { Some(c as u8) } else { None }
    }

    fn next_at(&self, index: usize) -> (char, usize) {
        (self.list[index], 1)
    }

    fn subrange(self, range: Range<usize>) -> CharsText<'t> {
        let list = self.list();
        CharsText::new(&list[range])
    }

    fn chars(self) -> CharsCharIter<'t> {
        CharsCharIter::new(self.list)
    }

    fn char_indices(self) -> CharsCharIndexIter<'t> {
        CharsCharIndexIter::new(self.list)
    }

    fn indices_lengths(self) -> CharsIndexLenIter<'t> {
        CharsIndexLenIter::new(self.list)
    }

    fn char_len(_c: char) -> usize
        ensures { result ≡ 1 }
    {
        1
    }
}
