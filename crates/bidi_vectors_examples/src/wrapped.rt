//! Prints a text in lines of at most eight columns of a terminal.

use std::alloc::Global;
use std::io::{self, Write};
use unicode_bidi::BidiInfo;
use unicode_bidi::layout::{CharWidth, lines};
use unicode_width::UnicodeWidthChar;

/// The number of columns that a character takes in a terminal. A control takes none.
struct Columns;

impl CharWidth for Columns {
    ghost use Rattle.std.specs.Prelude.{unwrap_or, false};
    ghost use Rattle.unicode_width.specs.Width.{char_width};

    ghost width_of = { λ _ c. unwrap_or (char_width false c) 0 };

    fn width(&self, c: char) -> usize {
        c.width().unwrap_or(0)
    }
}

/// Writes a text in lines of at most `columns` columns, each from left to right. The text has no line feeds.
pub fn write_wrapped<W: Write>(
    alloc: Global,
    out: &mut W,
    info: &BidiInfo<'_>,
    columns: usize,
) -> io::Result<()> {
    for paragraph in info.paragraphs() {
        for line in lines(alloc, info, paragraph, &Columns, columns)? {
            let shown = info.reorder_line(alloc, paragraph, line)?;
            writeln!(out, "{}", shown.as_str())?;
        }
    }
    Ok(())
}
