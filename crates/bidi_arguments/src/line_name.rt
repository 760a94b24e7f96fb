//! The name of a line of a file, as a report of `check` has it.
ghost use Rattle.std.specs.Prelude.{◌≡◌, ◌<◌, length, slice_index, IfSome};
ghost use Rattle.bidi_arguments.specs.LineNames.{column_colon, line_in, file_colon};

use bidi_reports::line_number::{is_line_number, line_number};
use std::marker::Model;

// Returns the index of the colon that a number alone follows.
fn column_colon(text: &[u8]) -> Option<usize>
    ensures colon { result ≡ column_colon text.now }
    ensures within { IfSome result (λ colon. colon < length text.now) }
{
    for (index, byte) in text.iter().enumerate() {
        if *byte == b':' && is_line_number(&text[index + 1..]) {
            return Some(index);
        }
    }
    None
}

// Returns LINE of LINE or LINE:COLUMN, or `None` for any other text.
fn line_in(text: &[u8]) -> Option<usize>
    ensures { result ≡ line_in text.now }
{
    match column_colon(text) {
        Some(colon) => line_number(&text[..colon]),
        None => line_number(text),
    }
}

// Returns the index of the colon after FILE of FILE:LINE or FILE:LINE:COLUMN: the first one after which that is possible.
fn file_colon(text: &[u8]) -> Option<usize>
    ensures colon { result ≡ file_colon text.now }
    ensures within { IfSome result (λ colon. colon < length text.now) }
    ensures is { IfSome result (λ colon. slice_index text.now colon ≡ 58) }
{
    for (index, byte) in text.iter().enumerate() {
        if *byte == b':' && line_in(&text[index + 1..]).is_some() {
            return Some(index);
        }
    }
    None
}

/// The name of a line of a file. In clauses it is the name of the file and the number of the line.
#[derive(Drop)]
pub struct LineName<'w> {
    /// The name of the file.
    pub file: &'w str,
    /// The number of the line, counted from 1.
    pub line: usize,
}

impl<'w> Model for LineName<'w> {
    ghost use Rattle.std.specs.Prelude.{ℕ, List};

    ghost Value = { List ℕ × ℕ };

    ghost view = { λ name. (name.file.now, name.line) };
}

impl<'w> LineName<'w> {
    ghost use Rattle.bidi_arguments.specs.LineNames.{line_named};

    /// Returns the line that `FILE:LINE` or `FILE:LINE:COLUMN` names. Returns `None` for any other text.
    ///
    /// LINE and COLUMN have one to nine digits and do not begin with 0. FILE may have colons: of several ways to read the
    /// text, the one with the shortest FILE counts.
    pub fn parse(word: &'w str) -> Option<LineName<'w>>
        ensures { result ≡ line_named word.now }
    {
        let bytes = word.as_bytes();
        let colon = file_colon(bytes)?;
        let line = line_in(&bytes[colon + 1..])?;
        let file = &word[..colon];
        Some(LineName { file, line })
    }
}
