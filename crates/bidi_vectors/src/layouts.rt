//! Rows of lines of given width, and of the visual indexes of their characters.

use bidi_base::data_source::TableBidiData;
use bidi_base::level::Level;
use bidi_text::text::{CharsText, StrText, TextSource, Utf16Text, is_line};
use bidi_vectors_format::answer::{number_words, places_of, ranges_in};
use bidi_vectors_format::fault::{RowFault, Why};
use bidi_vectors_format::item::{number, range_of};
use bidi_vectors_format::row::Row;
use bidi_vectors_format::source::Tables;
use bidi_vectors_format::tally::Tally;
use bidi_vectors_format::text::RowText;
use std::alloc::Global;
use std::ops::Range;
use unicode_bidi::layout::{CharWidth, LineMap, lines, lines_of_text};
use unicode_bidi::{BidiInfo, ParagraphInfo};

// A width for U+0301, and one for every other character.
#[derive(Clone, Copy)]
struct Widths {
    letter: usize,
    mark: usize,
}

impl CharWidth for Widths {
    ghost use Rattle.std.specs.Prelude.{◌==◌, if◌then◌else◌};

    ghost width_of = { λ w c. if c == 0x301 then w.mark else w.letter };

    fn width(&self, c: char) -> usize {
        if c == '\u{301}' {
            self.mark
        } else {
            self.letter
        }
    }
}

// Converts a range of characters to code units.
fn units_of<T: TextSource>(
    alloc: Global,
    text: T,
    word: &str,
    line: usize,
) -> Result<Range<usize>, RowFault> {
    let places = places_of(alloc, text)?;
    let (start, end) = range_of(word, line)?;
    let fault = RowFault::Line(line, Why::TextRange);
    let start = places.get(start).copied().ok_or(fault)?;
    let end = places.get(end).copied().ok_or(fault)?;
    Ok(start..end)
}

// Returns the range that a row tests: its field `part`, or the whole text.
fn part_of<T: TextSource>(alloc: Global, row: &Row<'_>, text: T) -> Result<Range<usize>, RowFault> {
    match row.get("part") {
        Some(field) => units_of(alloc, text, field.value, field.line),
        None => Ok(0..text.len()),
    }
}

// Returns the lines of a range of a text.
fn lines_between(
    alloc: Global,
    info: &BidiInfo<'_>,
    range: Range<usize>,
    widths: Widths,
    limit: usize,
) -> Result<Vec<Range<usize>>, RowFault> {
    let Some(para) = ParagraphInfo::new(range, Level::ltr()) else {
        return Err(RowFault::Line(0, Why::Line));
    };
    if !is_line(StrText::new(info.text()), &para.range()) {
        return Err(RowFault::Line(0, Why::Line));
    }
    Ok(lines(alloc, info, &para, &widths, limit)?)
}

// Returns the widths of a row's characters.
fn widths_of(row: &Row<'_>) -> Result<Widths, RowFault> {
    Ok(Widths {
        letter: number(row.field("letter")?)?,
        mark: number(row.field("mark")?)?,
    })
}

// Returns the lines of a row's range as text.
fn words_of_lines(
    alloc: Global,
    source: &TableBidiData<'_>,
    text: &str,
    row: &Row<'_>,
) -> Result<String, RowFault> {
    let (widths, limit) = (widths_of(row)?, number(row.field("limit")?)?);
    let part = part_of(alloc, row, StrText::new(text))?;
    let info = BidiInfo::new_with_data_source(alloc, source, text, None)?;
    let found = lines_between(alloc, &info, part, widths, limit)?;
    ranges_in(alloc, StrText::new(text), found.as_slice())
}

// Returns the lines of a row's range of a text in its encoding, as text.
fn words_in<T: TextSource>(alloc: Global, text: T, row: &Row<'_>) -> Result<String, RowFault> {
    let (widths, limit) = (widths_of(row)?, number(row.field("limit")?)?);
    let part = part_of(alloc, row, text)?;
    if !is_line(text, &part) {
        return Err(RowFault::Line(0, Why::Line));
    }
    let found = lines_of_text(alloc, text, part, &widths, limit)?;
    ranges_in(alloc, text, found.as_slice())
}

/// Runs a row of a text, the widths of its characters, a limit, and the lines of a range of it.
pub fn run_lines(
    alloc: Global,
    tables: &Tables,
    row: &Row<'_>,
    tally: &mut Tally,
) -> Result<(), RowFault> {
    row.has_only(&["text", "source", "letter", "mark", "limit", "part", "lines"])?;
    let source = tables.source(row.line)?;
    let text = RowText::of_row(alloc, row)?;
    let words = words_of_lines(alloc, &source, text.utf8.as_str(), row);
    tally.agree(row, "lines", "layout::lines", words);
    let call = "layout::lines_of_text";
    let words = words_in(alloc, StrText::new(text.utf8.as_str()), row);
    tally.agree(row, "lines", call, words);
    let words = words_in(alloc, Utf16Text::new(text.utf16.as_slice()), row);
    tally.agree(row, "lines", call, words);
    let words = words_in(alloc, CharsText::new(text.chars.as_slice()), row);
    tally.agree(row, "lines", call, words);
    Ok(())
}

// Returns the map of a line of the first paragraph.
fn map_of(alloc: Global, info: &BidiInfo<'_>, line: Range<usize>) -> Result<LineMap, RowFault> {
    let Some(para) = info.paragraphs().first() else {
        return Err(RowFault::Line(0, Why::Paragraph));
    };
    if !is_line(StrText::new(info.text()), &line) {
        return Err(RowFault::Line(0, Why::Line));
    }
    Ok(LineMap::new(alloc, info, para, line)?)
}

// Returns the map of the line that a row tests.
fn map_of_row(
    alloc: Global,
    source: &TableBidiData<'_>,
    text: &str,
    row: &Row<'_>,
) -> Result<LineMap, RowFault> {
    let line = row.field("line")?;
    let range = units_of(alloc, StrText::new(text), line.value, line.line)?;
    let info = BidiInfo::new_with_data_source(alloc, source, text, None)?;
    map_of(alloc, &info, range)
}

// Returns the character at each visual index, up to two after the last, and the visual index of each character.
fn entries_of(alloc: Global, map: &LineMap) -> Result<(Vec<usize>, Vec<usize>), RowFault> {
    let mut order = Vec::new(alloc);
    let mut places = Vec::new(alloc);
    for index in 0..map.len().saturating_add(2) {
        if let Some(logical) = map.visual_to_logical(index) {
            order.push(logical)?;
        }
        if let Some(visual) = map.logical_to_visual(index) {
            places.push(visual)?;
        }
    }
    Ok((order, places))
}

/// Runs a row of a text, a line of it, the character at each visual index, and the visual index of each character.
pub fn run_map(
    alloc: Global,
    tables: &Tables,
    row: &Row<'_>,
    tally: &mut Tally,
) -> Result<(), RowFault> {
    row.has_only(&["text", "source", "line", "order", "places"])?;
    let source = tables.source(row.line)?;
    let text = RowText::of_row(alloc, row)?;
    let map = map_of_row(alloc, &source, text.utf8.as_str(), row)?;
    let (order, places) = entries_of(alloc, &map)?;
    let words = number_words(alloc, order.as_slice());
    tally.agree(row, "order", "LineMap::visual_to_logical", words);
    let words = number_words(alloc, places.as_slice());
    tally.agree(row, "places", "LineMap::logical_to_visual", words);
    Ok(())
}
