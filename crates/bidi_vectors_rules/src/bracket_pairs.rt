//! Rows of bracket pairs (BD16).

use bidi_base::char_data::BidiClass;
use bidi_base::data_source::{BidiDataSource, BidiMatchedOpeningBracket, TableBidiData};
use bidi_plain::plain::pairs;
use bidi_vectors_format::answer::range_words;
use bidi_vectors_format::class::classes_of;
use bidi_vectors_format::conditions::are_left;
use bidi_vectors_format::fault::{RowFault, Why};
use bidi_vectors_format::row::Row;
use bidi_vectors_format::source::Tables;
use bidi_vectors_format::tally::Tally;
use bidi_vectors_format::text::RowText;
use std::alloc::Global;

/// Returns the bracket of each character of a text, if it is one.
pub(crate) fn brackets_of(
    alloc: Global,
    source: &TableBidiData,
    text: &[char],
) -> Result<Vec<Option<BidiMatchedOpeningBracket>>, RowFault> {
    let mut brackets = Vec::new(alloc);
    for c in text {
        brackets.push(source.bidi_matched_opening_bracket(*c))?;
    }
    Ok(brackets)
}

// Returns the bracket pairs of a list.
fn listed_pairs(
    alloc: Global,
    classes: &[BidiClass],
    brackets: &[Option<BidiMatchedOpeningBracket>],
    line: usize,
) -> Result<Vec<(usize, usize)>, RowFault> {
    if brackets.len() != classes.len() || !are_left(classes) {
        return Err(RowFault::Line(line, Why::Classes));
    }
    Ok(pairs(alloc, classes, brackets)?)
}

/// Runs a row of a text, the classes of its characters, and its bracket pairs.
pub fn run_pairs(
    alloc: Global,
    tables: &Tables,
    row: &Row<'_>,
    tally: &mut Tally,
) -> Result<(), RowFault> {
    row.has_only(&["text", "source", "classes", "pairs"])?;
    let source = tables.source(row.line)?;
    let text = RowText::of_row(alloc, row)?;
    let classes = classes_of(alloc, row.field("classes")?)?;
    let brackets = brackets_of(alloc, &source, text.chars.as_slice())?;
    let found = listed_pairs(alloc, classes.as_slice(), brackets.as_slice(), row.line)?;
    let words = range_words(alloc, found.as_slice());
    tally.agree(row, "pairs", "plain::pairs", words);
    Ok(())
}
