//! Prints a text in lines of at most eight columns, as a device without the algorithm displays them.

use bidi_display::displayed_line::DisplayedLine;
use bidi_display::line_breaks::SimpleBreaks;
use bidi_display::options::DisplayOptions;
use bidi_display::width::ClusterColumns;
use bidi_unicode::UnicodeData;
use std::alloc::Global;
use std::io::{self, Write};
use unicode_bidi::BidiInfo;

/// Writes a text in lines of at most `columns` columns, each from left to right. Grapheme clusters are whole, characters
/// are mirrored, and direction controls and the white space at the end of a line are left out.
pub fn write_displayed<W: Write>(
    alloc: Global,
    out: &mut W,
    info: &BidiInfo<'_>,
    columns: usize,
) -> io::Result<()> {
    let widths = ClusterColumns::default();
    let mut line = DisplayedLine::new(alloc, DisplayOptions::default());
    let mut lines = Vec::new(alloc);
    let mut shown = String::new(alloc);
    for paragraph in info.paragraphs() {
        line.show_line(info, paragraph, info.content(paragraph), &widths)?;
        lines.clear();
        line.push_lines(&SimpleBreaks, columns, &mut lines)?;
        if lines.is_empty() {
            writeln!(out)?;
        }
        for range in &lines {
            line.show_line(info, paragraph, range.start..range.end, &widths)?;
            line.show_line(info, paragraph, line.shown_part(), &widths)?;
            shown.clear();
            line.push_text(&UnicodeData, &mut shown)?;
            writeln!(out, "{}", shown.as_str())?;
        }
    }
    Ok(())
}
