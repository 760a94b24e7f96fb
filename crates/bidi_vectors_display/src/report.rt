//! What is printed of a displayed line. Boundaries are counted in characters.

use bidi_display::carets::{Affinity, Caret, Position, Side};
use bidi_display::displayed_line::DisplayedLine;
use bidi_display::line_breaks::SimpleBreaks;
use bidi_unicode::UnicodeData;
use std::alloc::{AllocError, Global};
use std::fmt::Write;
use std::ops::Range;

// Returns the code unit at the boundary before a character, or at the end of the line.
fn unit_at(line: &DisplayedLine, index: usize) -> usize {
    match line.chars().get(index) {
        Some(c) => c.start,
        None => line.range().end,
    }
}

// Returns how many characters are before a code unit.
fn chars_before(line: &DisplayedLine, unit: usize) -> usize {
    let mut count = 0usize;
    for c in line.chars() {
        if c.start < unit {
            count = count.wrapping_add(1);
        }
    }
    count
}

fn push_number(out: &mut String, number: usize) -> Result<(), AllocError> {
    write!(out, " {number}").map_err(|_| AllocError)
}

// Appends the level after L1 and the class of each character.
fn push_levels(out: &mut String, line: &DisplayedLine) -> Result<(), AllocError> {
    out.push_str("levels")?;
    for c in line.chars() {
        let (level, class) = (c.level.number(), c.class);
        write!(out, " {level}{class:?}").map_err(|_| AllocError)?;
    }
    out.push('\n')
}

// Appends the displayed characters.
fn push_text(alloc: Global, out: &mut String, line: &DisplayedLine) -> Result<(), AllocError> {
    let mut text = String::new(alloc);
    line.push_text(&UnicodeData, &mut text)?;
    out.push_str("text")?;
    for c in text.as_str().chars() {
        let code = c as u32;
        write!(out, " {code:04X}").map_err(|_| AllocError)?;
    }
    out.push('\n')
}

// Appends the clusters from left to right: the characters, the level and the columns of each.
fn push_clusters(out: &mut String, line: &DisplayedLine) -> Result<(), AllocError> {
    out.push_str("clusters")?;
    for index in line.order() {
        if let Some(cluster) = line.clusters().get(*index) {
            let (start, end) = (cluster.chars_start, cluster.chars_end);
            let (level, columns) = (cluster.level.number(), line.columns_of(*index));
            write!(out, " {start}-{end}:{level}:{columns:?}").map_err(|_| AllocError)?;
        }
    }
    out.push('\n')
}

fn push_caret(out: &mut String, caret: Option<Caret>) -> Result<(), AllocError> {
    match caret {
        Some(Caret { before, after }) => {
            write!(out, " {before},{after}").map_err(|_| AllocError)
        }
        None => out.push_str(" -"),
    }
}

// Appends the caret at each boundary.
fn push_carets(out: &mut String, line: &DisplayedLine) -> Result<(), AllocError> {
    out.push_str("carets")?;
    for index in 0..=line.chars().len() {
        push_caret(out, line.caret(unit_at(line, index)))?;
    }
    out.push('\n')
}

fn push_position(
    out: &mut String,
    line: &DisplayedLine,
    position: Position,
) -> Result<(), AllocError> {
    push_number(out, chars_before(line, position.unit))?;
    out.push(match position.affinity {
        Affinity::Before => '<',
        Affinity::After => '>',
    })
}

// Appends the position of a click on each half of each column, and beside the line.
fn push_clicks(out: &mut String, line: &DisplayedLine) -> Result<(), AllocError> {
    out.push_str("clicks")?;
    push_position(out, line, line.position_at_end(Side::Left))?;
    for column in 0..line.width() {
        push_position(out, line, line.position_at(column, Side::Left))?;
        push_position(out, line, line.position_at(column, Side::Right))?;
    }
    push_position(out, line, line.position_at(line.width(), Side::Left))?;
    push_position(out, line, line.position_at_end(Side::Right))?;
    out.push('\n')
}

// Appends the columns of a selection.
fn push_selection(
    alloc: Global,
    out: &mut String,
    line: &DisplayedLine,
    chars: Range<usize>,
) -> Result<(), AllocError> {
    let mut columns = Vec::new(alloc);
    let range = unit_at(line, chars.start)..unit_at(line, chars.end);
    line.push_selection(range, &mut columns)?;
    let columns = columns.as_slice();
    write!(out, " {columns:?}").map_err(|_| AllocError)
}

// Appends the selection of each character, and of the characters before each boundary.
fn push_selections(
    alloc: Global,
    out: &mut String,
    line: &DisplayedLine,
) -> Result<(), AllocError> {
    out.push_str("selections")?;
    for index in 0..line.chars().len() {
        push_selection(alloc, out, line, index..index + 1)?;
        push_selection(alloc, out, line, 0..index)?;
    }
    out.push('\n')
}

// Appends the lines that the text is cut into by the simple rule, for some widths.
fn push_lines(alloc: Global, out: &mut String, line: &DisplayedLine) -> Result<(), AllocError> {
    out.push_str("lines")?;
    for limit in [0, 1, 3, 6] {
        let mut lines = Vec::new(alloc);
        line.push_lines(&SimpleBreaks, limit, &mut lines)?;
        for line_range in &lines {
            push_number(out, chars_before(line, line_range.end))?;
        }
        out.push(';')?;
    }
    out.push('\n')
}

/// Appends what is printed of a line.
pub fn push_report(
    alloc: Global,
    out: &mut String,
    line: &DisplayedLine,
) -> Result<(), AllocError> {
    push_levels(out, line)?;
    push_text(alloc, out, line)?;
    push_clusters(out, line)?;
    push_carets(out, line)?;
    push_clicks(out, line)?;
    push_selections(alloc, out, line)?;
    push_lines(alloc, out, line)
}
