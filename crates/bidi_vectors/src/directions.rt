//! Rows of directions: the base direction of a text, and the direction of a paragraph's levels.

use bidi_base::data_source::TableBidiData;
use bidi_text::text::{CharsText, StrText, TextSource, Utf16Text};
use bidi_vectors_format::answer::{direction_word, flag_word};
use bidi_vectors_format::base::base_of;
use bidi_vectors_format::fault::RowFault;
use bidi_vectors_format::row::Row;
use bidi_vectors_format::source::Tables;
use bidi_vectors_format::tally::Tally;
use bidi_vectors_format::text::RowText;
use std::alloc::Global;
use unicode_bidi::{
    ParagraphBidiInfo, get_base_direction_full_with_data_source,
    get_base_direction_with_data_source, utf16,
};

fn check_base<T: TextSource>(
    source: &TableBidiData<'_>,
    text: T,
    row: &Row<'_>,
    tally: &mut Tally,
) {
    let first = get_base_direction_with_data_source(source, text);
    let call = "get_base_direction_with_data_source";
    tally.agree_word(row, "first", call, direction_word(first));
    let full = get_base_direction_full_with_data_source(source, text);
    let call = "get_base_direction_full_with_data_source";
    tally.agree_word(row, "full", call, direction_word(full));
}

/// Runs a row of a text, the direction of its first paragraph, and that of the first paragraph that has one.
pub fn run_base(
    alloc: Global,
    tables: &Tables,
    row: &Row<'_>,
    tally: &mut Tally,
) -> Result<(), RowFault> {
    row.has_only(&["text", "types", "source", "first", "full"])?;
    let source = tables.source(row.line)?;
    let text = RowText::of_row(alloc, row)?;
    check_base(&source, StrText::new(text.utf8.as_str()), row, tally);
    check_base(&source, Utf16Text::new(text.utf16.as_slice()), row, tally);
    check_base(&source, CharsText::new(text.chars.as_slice()), row, tally);
    Ok(())
}

fn check_utf8(
    alloc: Global,
    source: &TableBidiData<'_>,
    text: &str,
    row: &Row<'_>,
    tally: &mut Tally,
) -> Result<(), RowFault> {
    let info = ParagraphBidiInfo::new_with_data_source(alloc, source, text, base_of(row)?)?;
    let call = "ParagraphBidiInfo::is_pure_ltr";
    tally.agree_word(row, "pure ltr", call, flag_word(info.is_pure_ltr()));
    let call = "ParagraphBidiInfo::has_rtl";
    tally.agree_word(row, "has rtl", call, flag_word(info.has_rtl()));
    let call = "ParagraphBidiInfo::direction";
    tally.agree_word(row, "direction", call, direction_word(info.direction()));
    Ok(())
}

// Tests both directions in UTF-16.
fn check_utf16(
    alloc: Global,
    source: &TableBidiData<'_>,
    text: &[u16],
    row: &Row<'_>,
    tally: &mut Tally,
) -> Result<(), RowFault> {
    let info = utf16::ParagraphBidiInfo::new_with_data_source(alloc, source, text, base_of(row)?)?;
    let call = "utf16::ParagraphBidiInfo::is_pure_ltr";
    tally.agree_word(row, "pure ltr", call, flag_word(info.is_pure_ltr()));
    let call = "utf16::ParagraphBidiInfo::has_rtl";
    tally.agree_word(row, "has rtl", call, flag_word(info.has_rtl()));
    let call = "utf16::ParagraphBidiInfo::direction";
    tally.agree_word(row, "direction", call, direction_word(info.direction()));
    Ok(())
}

/// Runs a row of a text that is one paragraph.
///
/// The row says whether no class can change the direction, whether some level is odd, and the direction of the levels.
pub fn run_levels(
    alloc: Global,
    tables: &Tables,
    row: &Row<'_>,
    tally: &mut Tally,
) -> Result<(), RowFault> {
    row.has_only(&["text", "source", "base", "pure ltr", "has rtl", "direction"])?;
    let source = tables.source(row.line)?;
    let text = RowText::of_row(alloc, row)?;
    check_utf8(alloc, &source, text.utf8.as_str(), row, tally)?;
    check_utf16(alloc, &source, text.utf16.as_slice(), row, tally)
}
