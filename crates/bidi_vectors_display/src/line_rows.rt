//! Rows of displayed lines: their clusters, columns, text, carets, clicks and selections, and the lines of a paragraph.

use crate::case::Widths;
use crate::line_words::{
    Shown, caret_words, click_words, cluster_words, levels_of, line_words, part_words,
    selection_words, text_words,
};
use crate::row_options::{options, widths};
use bidi_display::displayed_line::DisplayedLine;
use bidi_display::width::{CharColumns, ClusterColumns};
use bidi_text::text::{CharsText, StrText, TextSource, Utf16Text, is_line};
use bidi_unicode::UnicodeData;
use bidi_vectors_format::answer::{number_words, places_of};
use bidi_vectors_format::base::base_of;
use bidi_vectors_format::fault::{RowFault, Why};
use bidi_vectors_format::item::range_of;
use bidi_vectors_format::row::Row;
use bidi_vectors_format::tally::Tally;
use bidi_vectors_format::text::RowText;
use std::alloc::Global;
use std::ops::Range;
use unicode_bidi::info::ParagraphBidiInfo;

// Returns the code units of a row's line, given the places of the text's characters: its field `line`, or the whole
// text.
fn line_of(row: &Row<'_>, places: &[usize]) -> Result<Range<usize>, RowFault> {
    let (start, end) = match row.get("line") {
        Some(field) => range_of(field.value, field.line)?,
        None => (0, places.len().saturating_sub(1)),
    };
    let fault = RowFault::Line(row.line, Why::TextRange);
    let start = places.get(start).copied().ok_or(fault)?;
    let end = places.get(end).copied().ok_or(fault)?;
    Ok(start..end)
}

// Shows a line of a text that is one paragraph.
fn show<T: TextSource>(
    line: &mut DisplayedLine,
    info: &ParagraphBidiInfo<T>,
    range: Range<usize>,
    widths: Widths,
) -> Result<(), RowFault> {
    if !is_line(info.text_source(), &range) {
        return Err(RowFault::Line(0, Why::Line));
    }
    match widths {
        Widths::Signs => line.show_paragraph_line(info, range, &ClusterColumns::default())?,
        Widths::Cells => line.show_paragraph_line(info, range, &CharColumns::default())?,
    }
    Ok(())
}

// Returns the line of a row in the encoding of a text.
fn shown_in<T: TextSource>(alloc: Global, text: T, row: &Row<'_>) -> Result<Shown, RowFault> {
    let places = places_of(alloc, text)?;
    let range = line_of(row, places.as_slice())?;
    let info = ParagraphBidiInfo::of_text(alloc, &UnicodeData, text, base_of(row)?)?;
    let mut line = DisplayedLine::new(alloc, options(row)?);
    show(&mut line, &info, range, widths(row)?)?;
    Ok(Shown { line, places })
}

// Compares a line with its row.
fn check(alloc: Global, row: &Row<'_>, shown: &Shown, tally: &mut Tally) {
    let line = &shown.line;
    tally.agree(
        row,
        "levels",
        "DisplayedLine::chars",
        levels_of(alloc, line),
    );
    tally.agree(
        row,
        "shown",
        "DisplayedLine::push_text",
        text_words(alloc, line),
    );
    let words = cluster_words(alloc, shown);
    tally.agree(row, "clusters", "DisplayedLine::clusters", words);
    let words = number_words(alloc, &[line.width()]);
    tally.agree(row, "width", "DisplayedLine::width", words);
    let words = caret_words(alloc, shown);
    tally.agree(row, "carets", "DisplayedLine::caret", words);
    let words = click_words(alloc, shown);
    tally.agree(row, "clicks", "DisplayedLine::position_at", words);
    let words = part_words(alloc, shown);
    tally.agree(row, "part", "DisplayedLine::shown_part", words);
    if row.get("selections").is_some() {
        let words = selection_words(alloc, row, shown);
        tally.agree(row, "selections", "DisplayedLine::push_selection", words);
    }
    if row.get("lines").is_some() {
        let words = line_words(alloc, row, shown);
        tally.agree(row, "lines", "DisplayedLine::push_lines", words);
    }
}

// Compares the line of a row in the encoding of a text.
fn check_in<T: TextSource>(
    alloc: Global,
    text: T,
    row: &Row<'_>,
    tally: &mut Tally,
) -> Result<(), RowFault> {
    let shown = shown_in(alloc, text, row)?;
    check(alloc, row, &shown, tally);
    Ok(())
}

/// Runs a row of a displayed line, in each encoding that can have its text.
pub fn run(alloc: Global, row: &Row<'_>, tally: &mut Tally) -> Result<(), RowFault> {
    row.has_only(&[
        "text",
        "base",
        "line",
        "moves",
        "dropped",
        "tab",
        "widths",
        "levels",
        "shown",
        "clusters",
        "width",
        "carets",
        "clicks",
        "part",
        "selected",
        "selections",
        "limit",
        "allowed",
        "forced",
        "lines",
    ])?;
    let text = RowText::of_row(alloc, row)?;
    if text.is_unicode {
        check_in(alloc, StrText::new(text.utf8.as_str()), row, tally)?;
        check_in(alloc, CharsText::new(text.chars.as_slice()), row, tally)?;
    }
    check_in(alloc, Utf16Text::new(text.utf16.as_slice()), row, tally)
}
