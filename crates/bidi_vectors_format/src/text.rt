//! The text of a row in each encoding.

use crate::class::character_of;
use crate::fault::{RowFault, Why};
use crate::item::items_of;
use crate::row::{Field, Row};
use std::alloc::Global;

/// A text in UTF-8, in UTF-16, and as a list of characters.
#[derive(Drop)]
pub struct RowText {
    pub utf8: String,
    pub utf16: Vec<u16>,
    pub chars: Vec<char>,
    /// False if there is a lone surrogate. The text is then only in UTF-16.
    pub is_unicode: bool,
}

/// Parses a word as a code point: one ASCII character, or `U+` and hexadecimal digits.
pub fn code_of(word: &str, line: usize) -> Result<u32, RowFault> {
    let code = match (word.strip_prefix("U+"), word.as_bytes()) {
        (Some(digits), _) => u32::from_str_radix(digits, 16).ok(),
        (None, [byte]) => Some(u32::from(*byte)),
        (None, _) => None,
    };
    match code {
        Some(code) if code < 0x11_0000 => Ok(code),
        _ => Err(RowFault::Line(line, Why::Character)),
    }
}

/// Parses a word as a character.
pub fn char_of(word: &str, line: usize) -> Result<char, RowFault> {
    match char::from_u32(code_of(word, line)?) {
        Some(c) => Ok(c),
        None => Err(RowFault::Line(line, Why::Surrogate)),
    }
}

impl RowText {
    fn new(alloc: Global) -> RowText {
        RowText {
            utf8: String::new(alloc),
            utf16: Vec::new(alloc),
            chars: Vec::new(alloc),
            is_unicode: true,
        }
    }

    fn push(&mut self, c: char) -> Result<(), RowFault> {
        self.utf8.push(c)?;
        self.chars.push(c)?;
        self.utf16.extend_from_slice(c.encode_utf16(&mut [0; 2]))?;
        Ok(())
    }

    fn push_code(&mut self, code: u32) -> Result<(), RowFault> {
        match (char::from_u32(code), u16::try_from(code)) {
            (Some(c), _) => self.push(c)?,
            (None, Ok(surrogate)) => {
                self.is_unicode = false;
                self.utf16.push(surrogate)?;
            }
            (None, Err(_)) => {}
        }
        Ok(())
    }

    /// Reads the text of a field, by characters.
    pub fn by_characters(alloc: Global, field: Field<'_>) -> Result<RowText, RowFault> {
        let mut text = RowText::new(alloc);
        for item in items_of(alloc, field)? {
            text.push_code(code_of(item, field.line)?)?;
        }
        Ok(text)
    }

    /// Makes a text whose characters have the classes that a field names, in the sample table.
    pub fn by_classes(alloc: Global, field: Field<'_>) -> Result<RowText, RowFault> {
        let mut text = RowText::new(alloc);
        for item in items_of(alloc, field)? {
            text.push(character_of(item, field.line)?)?;
        }
        Ok(text)
    }

    /// Returns the text of a row, from its field `types` if there is one, otherwise from its field `text`.
    pub fn of_row(alloc: Global, row: &Row<'_>) -> Result<RowText, RowFault> {
        match row.get("types") {
            Some(field) => RowText::by_classes(alloc, field),
            None => RowText::by_characters(alloc, row.field("text")?),
        }
    }
}
