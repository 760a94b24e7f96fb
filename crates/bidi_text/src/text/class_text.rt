//! Texts of classes and brackets alone, without real characters, and the data source that reads them.

ghost use Rattle.std.specs.Prelude.{◌≡◌, ◌<◌, None, length, map};
ghost use Rattle.bidi_base.specs.Classes.{class_number};
ghost use Rattle.bidi_base.specs.Texts.{one_each};
ghost use Rattle.bidi_text.specs.ClassText.{is_bracket_code, bracket_codes_fault, bracket_char, class_char, class_chars, class_brackets, class_source};

use super::{IndexedCharIndexIter, IndexedCharIter, IndexedIndexLenIter, IndexedText, TextSource};
use bidi_base::char_data::BidiClass;
use bidi_base::classes::CLASS_COUNT;
use bidi_base::data_source::{BidiDataSource, BidiMatchedOpeningBracket};
use std::ops::Range;

/// The bracket code of an opening bracket is this much above the code of the bracket that closes the pair.
pub const BRACKET_OPENS: u32 = 0x8000_0000;

// The character of an opening bracket is this much above that of the bracket that closes the pair.
const OPENING_CHARS: u32 = 0x8_0000;

// The characters below this stand for classes alone.
const FIRST_BRACKET: u32 = 0x20;

// The classes, each at the index that is its number.
const CLASSES: [BidiClass; CLASS_COUNT] = [
    BidiClass::L,
    BidiClass::R,
    BidiClass::AL,
    BidiClass::EN,
    BidiClass::ES,
    BidiClass::ET,
    BidiClass::AN,
    BidiClass::CS,
    BidiClass::NSM,
    BidiClass::BN,
    BidiClass::B,
    BidiClass::S,
    BidiClass::WS,
    BidiClass::ON,
    BidiClass::LRE,
    BidiClass::LRO,
    BidiClass::RLE,
    BidiClass::RLO,
    BidiClass::PDF,
    BidiClass::LRI,
    BidiClass::RLI,
    BidiClass::FSI,
    BidiClass::PDI,
];

// Returns whether a number is a bracket code.
fn is_bracket_code(code: u32) -> bool
    ensures { result ≡ is_bracket_code code }
{
    let opening = code % BRACKET_OPENS;
    code == 0
        || (FIRST_BRACKET <= opening
            && opening < OPENING_CHARS
            && char::from_u32(opening).is_some())
}

/// Returns the index of the first number that is no bracket code, if there is one.
///
/// A bracket code is 0 for no bracket. For a bracket it is the opening bracket of its pair, in its normal form,
/// plus [`BRACKET_OPENS`] if the bracket itself opens. The opening bracket is a character from U+0020 to U+7FFFF.
pub fn bracket_codes_fault(codes: &[u32]) -> Option<usize>
    ensures { result ≡ bracket_codes_fault codes.now }
{
    codes.iter().position(|code| !is_bracket_code(*code))
}

// Returns the number of a class, as a character.
fn number_char(class: BidiClass) -> char
    ensures { result ≡ class_number class }
{
    char::from(class as u8)
}

// Returns the character of a bracket code.
fn bracket_char(code: u32) -> char
    ensures { result ≡ bracket_char code }
{
    let above = if code >= BRACKET_OPENS {
        OPENING_CHARS
    } else {
        0
    };
    char::from_u32(code % BRACKET_OPENS + above).unwrap_or(char::REPLACEMENT_CHARACTER)
}

// Returns the character of a class and a bracket code.
fn class_char(class: BidiClass, code: u32) -> char
    ensures { result ≡ class_char class code }
{
    if class == BidiClass::ON && code != 0 {
        bracket_char(code)
    } else {
        number_char(class)
    }
}

/// A text that is known by the classes and the brackets of its characters alone.
///
/// Each character is one code unit. With [`ClassData`] as the data source, the algorithm finds the levels of these
/// classes and brackets. The characters have no other meaning.
#[derive(Clone, Copy, PartialEq, Debug)]
pub struct ClassText<'t> {
    classes: &'t [BidiClass],
    brackets: &'t [u32],
}

impl<'t> ClassText<'t> {
    /// Creates the text of these classes and bracket codes.
    ///
    /// There are no bracket codes, or one for each class: see [`bracket_codes_fault`]. A bracket counts only where
    /// the class is ON.
    pub fn new(classes: &'t [BidiClass], brackets: &'t [u32]) -> ClassText<'t>
        requires lengths { 0 < length brackets.now → length brackets.now ≡ length classes.now }
        requires codes { bracket_codes_fault brackets.now ≡ None }
        ensures chars { class_chars result.classes.now result.brackets.now ≡ class_chars classes.now brackets.now }
        ensures classes { map class_source.class_of (class_chars result.classes.now result.brackets.now) ≡ classes.now }
        ensures brackets { map class_source.bracket_of (class_chars result.classes.now result.brackets.now)
            ≡ class_brackets classes.now brackets.now }
    {
        ClassText { classes, brackets }
    }
}

impl<'t> IndexedText for ClassText<'t> {
    ghost encoding = { one_each };

    ghost text = { λ t. record { chars = class_chars t.classes.now t.brackets.now } };

    fn len(&self) -> usize {
        self.classes.len()
    }

    fn char_at(&self, index: usize) -> Option<(char, usize)> {
        let class = *self.classes.get(index)?;
        let code = self.brackets.get(index).copied().unwrap_or(0);
        Some((class_char(class, code), 1))
    }

    fn subrange(self, range: Range<usize>) -> ClassText<'t> {
        let codes = self.brackets.len();
        ClassText {
            classes: &self.classes[range.start..range.end],
            brackets: &self.brackets[range.start.min(codes)..range.end.min(codes)],
        }
    }

    fn char_len(_c: char) -> usize
        ensures { result ≡ 1 }
    {
        1
    }
}

impl<'t> TextSource for ClassText<'t> {
    type CharIter = IndexedCharIter<ClassText<'t>>;

    type CharIndexIter = IndexedCharIndexIter<ClassText<'t>>;

    type IndexLenIter = IndexedIndexLenIter<ClassText<'t>>;

    const READS_IN_PLACE: bool = true;

    ghost encoding = { one_each };

    ghost text = { λ t. record { chars = class_chars t.classes.now t.brackets.now } };

    fn len(&self) -> usize {
        IndexedText::len(self)
    }

    fn char_at(&self, index: usize) -> Option<(char, usize)> {
        IndexedText::char_at(self, index)
    }

    fn subrange(self, range: Range<usize>) -> ClassText<'t> {
        IndexedText::subrange(self, range)
    }

    fn chars(self) -> IndexedCharIter<ClassText<'t>> {
        IndexedCharIter::new(self)
    }

    fn char_indices(self) -> IndexedCharIndexIter<ClassText<'t>> {
        IndexedCharIndexIter::new(self)
    }

    fn indices_lengths(self) -> IndexedIndexLenIter<ClassText<'t>> {
        IndexedIndexLenIter::new(self)
    }

    fn char_len(_c: char) -> usize
        ensures { result ≡ 1 }
    {
        1
    }
}

/// The data source of the characters of a [`ClassText`].
#[derive(Clone, Copy, Debug, PartialEq)]
pub struct ClassData;

impl BidiDataSource for ClassData {
    ghost source = { λ _. class_source };

    fn bidi_class(&self, c: char) -> BidiClass {
        match CLASSES.get(c as usize) {
            Some(class) => *class,
            None => BidiClass::ON,
        }
    }

    fn bidi_matched_opening_bracket(&self, c: char) -> Option<BidiMatchedOpeningBracket> {
        let code = c as u32;
        if code < FIRST_BRACKET {
            return None;
        }
        let opening = char::from_u32(code % OPENING_CHARS)?;
        Some(BidiMatchedOpeningBracket {
            opening,
            is_open: code >= OPENING_CHARS,
        })
    }
}
