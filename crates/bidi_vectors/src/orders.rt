//! Rows of lists of levels: their visual order, and the visual runs of a line of them (L2).

use bidi_base::level::Level;
use bidi_vectors_format::answer::{number_words, run_words};
use bidi_vectors_format::fault::{RowFault, Why};
use bidi_vectors_format::item::{levels, range_of};
use bidi_vectors_format::row::Row;
use bidi_vectors_format::tally::Tally;
use std::alloc::{AllocError, Global};
use std::ops::Range;
use unicode_bidi::deprecated::visual_runs;
use unicode_bidi::{BidiInfo, ParagraphBidiInfo, utf16};

fn check_order(
    alloc: Global,
    row: &Row<'_>,
    tally: &mut Tally,
    call: &'static str,
    order: Result<Vec<usize>, AllocError>,
) {
    match order {
        Ok(order) => tally.agree(row, "order", call, number_words(alloc, order.as_slice())),
        Err(_) => tally.refuse(RowFault::Memory),
    }
}

/// Runs a row of levels, and the index of the level at each visual index.
pub fn run_order(alloc: Global, row: &Row<'_>, tally: &mut Tally) -> Result<(), RowFault> {
    row.has_only(&["levels", "order"])?;
    let levels = levels(alloc, row.field("levels")?)?;
    let levels = levels.as_slice();
    let order = BidiInfo::reorder_visual(alloc, levels);
    check_order(alloc, row, tally, "BidiInfo::reorder_visual", order);
    let order = ParagraphBidiInfo::reorder_visual(alloc, levels);
    let call = "ParagraphBidiInfo::reorder_visual";
    check_order(alloc, row, tally, call, order);
    let order = utf16::BidiInfo::reorder_visual(alloc, levels);
    let call = "utf16::BidiInfo::reorder_visual";
    check_order(alloc, row, tally, call, order);
    let order = utf16::ParagraphBidiInfo::reorder_visual(alloc, levels);
    let call = "utf16::ParagraphBidiInfo::reorder_visual";
    check_order(alloc, row, tally, call, order);
    Ok(())
}

// Returns the visual runs of a line of levels.
fn runs_of(
    alloc: Global,
    levels: &[Level],
    line: Range<usize>,
) -> Result<Vec<Range<usize>>, RowFault> {
    if line.start < line.end && line.end <= levels.len() {
        Ok(visual_runs(alloc, line, levels)?)
    } else {
        Err(RowFault::Line(0, Why::Line))
    }
}

/// Runs a row of levels, a line of them, and its runs from left to right.
pub fn run_runs(alloc: Global, row: &Row<'_>, tally: &mut Tally) -> Result<(), RowFault> {
    row.has_only(&["levels", "line", "runs"])?;
    let levels = levels(alloc, row.field("levels")?)?;
    let line = row.field("line")?;
    let (start, end) = range_of(line.value, line.line)?;
    let runs = runs_of(alloc, levels.as_slice(), start..end)?;
    let words = run_words(alloc, runs.as_slice());
    tally.agree(row, "runs", "deprecated::visual_runs", words);
    Ok(())
}
