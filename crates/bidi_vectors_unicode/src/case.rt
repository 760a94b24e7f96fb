//! A case: a text, and the expected result.

ghost use Rattle.std.specs.Prelude.{◌≤◌, IfSome};

use crate::fault::Fault;
use bidi_base::data_source::BidiDataSource;
use bidi_base::level::Level;
use bidi_unicode::UnicodeData;
use std::alloc::Global;
use unicode_bidi::prepare::removed_by_x9;

/// A base level.
#[derive(Clone, Copy, Debug, PartialEq)]
pub enum Base {
    Auto,
    Ltr,
    Rtl,
}

/// The base levels, each with its bit in a file of classes.
pub const BASES: [(Base, u32); 3] = [(Base::Auto, 1), (Base::Ltr, 2), (Base::Rtl, 4)];

impl Base {
    /// Returns the level, or `None` for `Auto`.
    pub fn level(self) -> Option<Level>
        ensures { IfSome result (λ level. level ≤ 125) }
    {
        match self {
            Base::Auto => None,
            Base::Ltr => Some(Level::ltr()),
            Base::Rtl => Some(Level::rtl()),
        }
    }

    /// Returns the name of the base level in messages.
    pub fn name(self) -> &'static str {
        match self {
            Base::Auto => "auto",
            Base::Ltr => "ltr",
            Base::Rtl => "rtl",
        }
    }
}

/// A text in each encoding, and which of its characters X9 removes.
#[derive(Drop)]
pub struct Text {
    pub utf8: String,
    pub utf16: Vec<u16>,
    pub chars: Vec<char>,
    pub removed: Vec<bool>,
}

impl Text {
    /// Returns an empty text.
    pub fn new(alloc: Global) -> Text {
        Text {
            utf8: String::new(alloc),
            utf16: Vec::new(alloc),
            chars: Vec::new(alloc),
            removed: Vec::new(alloc),
        }
    }

    /// Removes the text, and keeps its memory.
    pub fn clear(&mut self) {
        self.utf8.clear();
        self.utf16.clear();
        self.chars.clear();
        self.removed.clear();
    }

    /// Appends a character.
    pub fn push(&mut self, c: char) -> Result<(), Fault> {
        self.utf8.push(c)?;
        self.utf16.extend_from_slice(c.encode_utf16(&mut [0; 2]))?;
        self.chars.push(c)?;
        self.removed.push(removed_by_x9(UnicodeData.bidi_class(c)))?;
        Ok(())
    }
}

/// The expected result for a text.
///
/// This is the level of the paragraph, if the file has it, the level of each character after L1, or none for one that
/// X9 removes, and the order of the other characters from left to right.
#[derive(Drop)]
pub struct Wanted {
    pub paragraph: Option<Level>,
    pub levels: Vec<Option<Level>>,
    pub order: Vec<usize>,
}

impl Wanted {
    /// Returns the expected result for an empty text.
    pub fn new(alloc: Global) -> Wanted {
        Wanted {
            paragraph: None,
            levels: Vec::new(alloc),
            order: Vec::new(alloc),
        }
    }
}

/// A case of a file.
#[derive(Clone, Copy)]
pub struct Case<'c> {
    /// The number of its line, counted from 1.
    pub line: usize,
    pub text: &'c Text,
    pub base: Base,
    pub wanted: &'c Wanted,
}
