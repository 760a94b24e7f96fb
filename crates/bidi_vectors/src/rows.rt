//! The calls of a row, by its kind.

use crate::tables::Sources;
use crate::{characters, directions, layouts, levels, lines, orders, searches, texts, units};
use bidi_vectors_format::fault::{RowFault, Why};
use bidi_vectors_format::files::RowCalls;
use bidi_vectors_format::row::Row;
use bidi_vectors_format::source::Tables;
use bidi_vectors_format::tally::Tally;
use std::alloc::Global;

// Makes the calls of a row of a text, a line, a visual order or a layout over this source. Returns whether the row is
// of such a kind.
fn run_text(
    alloc: Global,
    tables: &Tables,
    row: &Row<'_>,
    tally: &mut Tally,
) -> Result<bool, RowFault> {
    match row.kind {
        "text" => texts::run(alloc, tables, row, tally)?,
        "initial" => texts::run_initial(alloc, tables, row, tally)?,
        "line" => lines::run(alloc, tables, row, tally)?,
        "order" => orders::run_order(alloc, row, tally)?,
        "visual runs" => orders::run_runs(alloc, row, tally)?,
        "lines of a width" => layouts::run_lines(alloc, tables, row, tally)?,
        "line map" => layouts::run_map(alloc, tables, row, tally)?,
        "base direction" => directions::run_base(alloc, tables, row, tally)?,
        "direction" => directions::run_levels(alloc, tables, row, tally)?,
        _ => return Ok(false),
    }
    Ok(true)
}

// Makes the calls of a row of characters, levels, code units or searches. Returns whether the row is of such a kind.
fn run_part(
    alloc: Global,
    tables: &Tables,
    row: &Row<'_>,
    tally: &mut Tally,
) -> Result<bool, RowFault> {
    match row.kind {
        "units" => units::run(alloc, row, tally)?,
        "entries" => units::run_entries(alloc, row, tally)?,
        "level" => levels::run_level(alloc, row, tally)?,
        "level step" => levels::run_step(alloc, row, tally)?,
        "level name" => levels::run_name(row, tally)?,
        "list of levels" => levels::run_list(alloc, row, tally)?,
        "group of classes" => characters::run_group(alloc, row, tally)?,
        "character" => characters::run_character(alloc, tables, row, tally)?,
        "character of Unicode" => characters::run_unicode(alloc, row, tally)?,
        "characters of Unicode" => characters::run_unicode_text(alloc, row, tally)?,
        "format character" => characters::run_format(alloc, tables, row, tally)?,
        "search" => searches::run(alloc, row, tally)?,
        _ => return Ok(false),
    }
    Ok(true)
}

impl RowCalls for Sources {
    fn run_row(&mut self, alloc: Global, row: &Row<'_>, tally: &mut Tally) -> Result<(), RowFault> {
        if self.run(alloc, row, tally)? {
            return Ok(());
        }
        let tables = self.of_row(row)?;
        if run_text(alloc, tables, row, tally)?
            || run_part(alloc, tables, row, tally)?
            || bidi_vectors_rules::run(alloc, tables, row, tally)?
        {
            return Ok(());
        }
        Err(RowFault::Line(row.line, Why::Kind))
    }
}
