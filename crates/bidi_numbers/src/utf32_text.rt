//! Texts in UTF-32, read in place from their numbers. A code unit is the number of a character.
ghost use Rattle.std.specs.Prelude.{◌≡◌, ◌<◌, ◌∷◌, [], true, length, get_or};
ghost use Rattle.std.specs.List.{list_all};
ghost use Rattle.bidi_base.specs.Texts.{one_each};
ghost use Rattle.bidi_numbers.specs.Texts.{is_scalar};

use crate::texts::char_of;
use bidi_lines::line_text::LineText;
use bidi_text::text::{
    Indexed, IndexedCharIndexIter, IndexedCharIter, IndexedIndexLenIter, IndexedText, TextSource,
};
use std::ops::Range;

/// A text in UTF-32. Each number is a scalar value.
#[derive(Clone, Copy, Debug)]
pub struct Utf32Text<'t> {
    numbers: &'t [u32],
    ghost scalars: { list_all is_scalar numbers.now ≡ true },
}

impl<'t> Utf32Text<'t> {
    /// Returns the text of some scalar values.
    pub fn new(numbers: &'t [u32]) -> Utf32Text<'t>
        requires { list_all is_scalar numbers.now ≡ true }
        ensures { result.numbers.now ≡ numbers.now }
    {
        Utf32Text { numbers }
    }

    /// Returns the scalar values.
    pub fn numbers(self) -> &'t [u32]
        ensures { result.now ≡ self.entry.numbers.now }
    {
        self.numbers
    }

    // Returns the character at an index.
    fn at(self, index: usize) -> char
        requires { index < length self.numbers.now }
        ensures { result ≡ get_or self.entry.numbers.now index 0 }
    {
        char_of(self.numbers[index])
    }
}

impl<'t> IndexedText for Utf32Text<'t> {
    ghost encoding = { one_each };

    ghost text = { λ t. record { chars = t.numbers.now } };

    fn len(&self) -> usize {
        self.numbers.len()
    }

    fn char_at(&self, index: usize) -> Option<(char, usize)> {
        if index < self.numbers.len() {
            Some((self.at(index), 1))
        } else {
            None
        }
    }

    fn subrange(self, range: Range<usize>) -> Utf32Text<'t> {
        let numbers = self.numbers();
        Utf32Text::new(&numbers[range])
    }

    fn char_len(_c: char) -> usize
        ensures { result ≡ 1 }
    {
        1
    }
}

impl<'t> TextSource for Utf32Text<'t> {
    type CharIter = IndexedCharIter<Utf32Text<'t>>;

    type CharIndexIter = IndexedCharIndexIter<Utf32Text<'t>>;

    type IndexLenIter = IndexedIndexLenIter<Utf32Text<'t>>;

    const READS_IN_PLACE: bool = true;

    ghost encoding = { one_each };

    ghost text = { λ t. record { chars = t.numbers.now } };

    fn len(&self) -> usize {
        Indexed::new(*self).len()
    }

    fn char_at(&self, index: usize) -> Option<(char, usize)> {
        Indexed::new(*self).char_at(index)
    }

    fn next_at(&self, index: usize) -> (char, usize) {
        (self.at(index), 1)
    }

    fn subrange(self, range: Range<usize>) -> Utf32Text<'t> {
        Indexed::new(self).subrange(range).text()
    }

    fn chars(self) -> IndexedCharIter<Utf32Text<'t>> {
        Indexed::new(self).chars()
    }

    fn char_indices(self) -> IndexedCharIndexIter<Utf32Text<'t>> {
        Indexed::new(self).char_indices()
    }

    fn indices_lengths(self) -> IndexedIndexLenIter<Utf32Text<'t>> {
        Indexed::new(self).indices_lengths()
    }

    fn char_len(_c: char) -> usize
        ensures { result ≡ 1 }
    {
        1
    }
}

impl<'t> LineText for Utf32Text<'t> {
    type Unit = u32;

    ghost units_of = { λ t. t.numbers.now };

    ghost encode = { λ c. c ∷ [] };

    fn copy_run(self, run: Range<usize>, out: &mut [u32]) {
        let numbers = self.numbers();
        out.copy_from_slice(&numbers[run]);
    }

    fn reverse_run(self, run: Range<usize>, out: &mut [u32]) {
        let numbers = self.numbers();
        out.copy_from_slice(&numbers[run]);
        out.reverse();
    }
}
