//! Texts of your own, from four functions that read them by index.

ghost use Rattle.std.specs.Prelude.{◌≡◌};
ghost use Rattle.std.specs.Iterator.{YieldsFirst, item_count};
ghost use Rattle.bidi_base.specs.Texts.{Encoding, Text, text_len, char_at, IsLine, subrange};
ghost use Rattle.bidi_base.specs.Text.{char_indices_from, indices_lengths_from};
ghost use Rattle.bidi_text.specs.IndexedText.{CanReadOn, IsReadAt, chars_from};

use super::TextSource;
use std::ops::Range;

/// A text that is read by index. [`Indexed`] makes a [`TextSource`] of it.
///
/// Implement this for a text of your own, such as a rope, or a list of pieces with the start and the end of the
/// text in them:
///
/// - `text` is the list of its characters, for pieces those between the start and the end. `encoding` says how
///   long each character is, for pieces of UTF-8 its number of bytes.
/// - `len` is the end minus the start.
/// - `char_at` adds the start to the index, finds the piece with it, and reads the character there. From the end on,
///   there is none.
/// - `subrange` keeps the same pieces, with another start and end.
/// - `char_len` says how long a character is. Its `impl` states this again, as `ensures { result ≡ len_utf8 c }`.
///
/// All indices, lengths and ranges count code units.
pub trait IndexedText: Copy {
    /// The length of a character in code units, at least one.
    ghost encoding: { Encoding };

    /// The text.
    ghost text: { Self → Text encoding };

    /// Returns the number of code units.
    fn len(&self) -> usize
        ensures { result ≡ text_len (text self.now) };

    /// Returns the character that begins at an index, and its length in code units.
    ///
    /// Returns `None` if no character begins there: the index is inside a character, or it is the text's
    /// length or more.
    fn char_at(&self, index: usize) -> Option<(char, usize)>
        ensures { result ≡ char_at (text self.now) index };

    /// Returns the text of a range of code units.
    ///
    /// Both ends must be boundaries, and the start at most the end.
    fn subrange(self, range: Range<usize>) -> Self
        requires { IsLine (text self) range.start range.end }
        ensures { text result ≡ subrange (text self) range.start range.end };

    /// Returns the length of a character in code units, at least 1.
    fn char_len(c: char) -> usize
        ensures { result ≡ encoding.len_of c };
}

/// A text that is read by index, as a [`TextSource`].
#[derive(Clone, Copy, PartialEq, Debug)]
pub struct Indexed<T> {
    text: T,
}

impl<T: IndexedText> Indexed<T> {
    /// Creates the text.
    pub fn new(text: T) -> Indexed<T>
        ensures { result.text ≡ text }
    {
        Indexed { text }
    }

    /// Returns the text passed to `new`.
    pub fn text(self) -> T
        ensures { result ≡ self.text }
    {
        self.text
    }
}

// Reads a text from an index on, a character at a time.
#[derive(Debug, Drop)]
struct Reader<T> {
    text: T,
    // Where the next character begins.
    at: usize,
}

impl<T: IndexedText> Reader<T> {
    // Starts at the text's first character.
    fn new(text: T) -> Reader<T>
        ensures text { result.text ≡ text }
        ensures at { result.at ≡ 0 }
        ensures can_read { CanReadOn (T.text text) 0 }
    {
        // The length is a `usize`, so each index is one.
        let _len = text.len();
        Reader { text, at: 0 }
    }

    // Returns the index, the value and the length of the next character, and moves past it.
    fn read(&mut self) -> Option<(usize, char, usize)>
        requires { CanReadOn (T.text self.old.text) self.old.at }
        ensures text { self.new.text ≡ self.old.text }
        ensures found { IsReadAt (T.text self.old.text) self.old.at result self.new.at }
        ensures can_read { CanReadOn (T.text self.new.text) self.new.at }
    {
        let at = self.at;
        let (c, len) = self.text.char_at(at)?;
        self.at = at + len;
        Some((at, c, len))
    }
}

/// Iterates over the characters of a text that is read by index, in order.
#[derive(Debug, Drop)]
pub struct IndexedCharIter<T> {
    reader: Reader<T>,
}

impl<T: IndexedText> IndexedCharIter<T> {
    /// Starts at the text's first character.
    pub fn new(text: T) -> IndexedCharIter<T>
        ensures text { result.reader.text ≡ text }
        ensures at { result.reader.at ≡ 0 }
        ensures can_read { CanReadOn (T.text text) 0 }
    {
        IndexedCharIter {
            reader: Reader::new(text),
        }
    }
}

impl<T: IndexedText> Iterator for IndexedCharIter<T> {
    type Item = char;

    ghost can_next = { λ s. CanReadOn (T.text s.reader.text) s.reader.at };

    ghost next_gives = { YieldsFirst (λ s. chars_from (T.text s.reader.text) s.reader.at) };

    ghost remaining = { item_count (λ s. chars_from (T.text s.reader.text) s.reader.at) };

    fn next(&mut self) -> Option<char> {
        let (_, c, _) = self.reader.read()?;
        Some(c)
    }
}

/// Iterates over each character of a text that is read by index with its index, in order.
#[derive(Debug, Drop)]
pub struct IndexedCharIndexIter<T> {
    reader: Reader<T>,
}

impl<T: IndexedText> IndexedCharIndexIter<T> {
    /// Starts at the text's first character.
    pub fn new(text: T) -> IndexedCharIndexIter<T>
        ensures text { result.reader.text ≡ text }
        ensures at { result.reader.at ≡ 0 }
        ensures can_read { CanReadOn (T.text text) 0 }
    {
        IndexedCharIndexIter {
            reader: Reader::new(text),
        }
    }
}

impl<T: IndexedText> Iterator for IndexedCharIndexIter<T> {
    type Item = (usize, char);

    ghost can_next = { λ s. CanReadOn (T.text s.reader.text) s.reader.at };

    ghost next_gives = { YieldsFirst (λ s. char_indices_from T.encoding.len_of s.reader.at
        (chars_from (T.text s.reader.text) s.reader.at)) };

    ghost remaining = { item_count (λ s. char_indices_from T.encoding.len_of s.reader.at
        (chars_from (T.text s.reader.text) s.reader.at)) };

    fn next(&mut self) -> Option<(usize, char)> {
        let (at, c, _) = self.reader.read()?;
        Some((at, c))
    }
}

/// Iterates over the index and the length of each character of a text that is read by index, in order.
#[derive(Debug, Drop)]
pub struct IndexedIndexLenIter<T> {
    reader: Reader<T>,
}

impl<T: IndexedText> IndexedIndexLenIter<T> {
    /// Starts at the text's first character.
    pub fn new(text: T) -> IndexedIndexLenIter<T>
        ensures text { result.reader.text ≡ text }
        ensures at { result.reader.at ≡ 0 }
        ensures can_read { CanReadOn (T.text text) 0 }
    {
        IndexedIndexLenIter {
            reader: Reader::new(text),
        }
    }
}

impl<T: IndexedText> Iterator for IndexedIndexLenIter<T> {
    type Item = (usize, usize);

    ghost can_next = { λ s. CanReadOn (T.text s.reader.text) s.reader.at };

    ghost next_gives = { YieldsFirst (λ s. indices_lengths_from T.encoding.len_of s.reader.at
        (chars_from (T.text s.reader.text) s.reader.at)) };

    ghost remaining = { item_count (λ s. indices_lengths_from T.encoding.len_of s.reader.at
        (chars_from (T.text s.reader.text) s.reader.at)) };

    fn next(&mut self) -> Option<(usize, usize)> {
        let (at, _, len) = self.reader.read()?;
        Some((at, len))
    }
}

impl<T: IndexedText> TextSource for Indexed<T> {
    type CharIter = IndexedCharIter<T>;

    type CharIndexIter = IndexedCharIndexIter<T>;

    type IndexLenIter = IndexedIndexLenIter<T>;

    ghost encoding = { T.encoding };

    ghost text = { λ t. T.text t.text };

    fn len(&self) -> usize {
        self.text.len()
    }

    fn char_at(&self, index: usize) -> Option<(char, usize)> {
        self.text.char_at(index)
    }

    fn subrange(self, range: Range<usize>) -> Indexed<T> {
        Indexed::new(self.text.subrange(range))
    }

    fn chars(self) -> IndexedCharIter<T> {
        IndexedCharIter::new(self.text)
    }

    fn char_indices(self) -> IndexedCharIndexIter<T> {
        IndexedCharIndexIter::new(self.text)
    }

    fn indices_lengths(self) -> IndexedIndexLenIter<T> {
        IndexedIndexLenIter::new(self.text)
    }

    fn char_len(c: char) -> usize {
        T::char_len(c)
    }
}
