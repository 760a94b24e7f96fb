//! Rows of the explicit levels, the sequences, the weak types, the neutrals and the implicit levels (X1 to I2), over
//! lists and in place: makes the calls of each row, and compares their results.
#![tactic(auto)]

mod bracket_pairs;
mod counted_explicit;
mod counted_weak;
mod explicit_levels;
mod explicit_pass;
mod explicit_units;
mod implicit_levels;
mod neutrals;
mod run_sequences;
mod unit_sequences;
mod weak_types;

use bidi_vectors_format::fault::RowFault;
use bidi_vectors_format::row::Row;
use bidi_vectors_format::source::Tables;
use bidi_vectors_format::tally::Tally;
use std::alloc::Global;

/// Makes the calls of a row of the rules over this source. Returns whether the row is of such a kind.
pub fn run(
    alloc: Global,
    tables: &Tables,
    row: &Row<'_>,
    tally: &mut Tally,
) -> Result<bool, RowFault> {
    match row.kind {
        "explicit levels" => explicit_levels::run_list(alloc, row, tally)?,
        "explicit levels in place" => explicit_levels::run_units(alloc, row, tally)?,
        "weak types" => weak_types::run_list(alloc, row, tally)?,
        "weak types in place" => weak_types::run_units(alloc, row, tally)?,
        "pairs" => bracket_pairs::run_pairs(alloc, tables, row, tally)?,
        "neutrals" => neutrals::run_list(alloc, tables, row, tally)?,
        "neutrals in place" => neutrals::run_units(alloc, tables, row, tally)?,
        "levels of a sequence" => neutrals::run_levels(alloc, tables, row, tally)?,
        "implicit levels" => implicit_levels::run(alloc, row, tally)?,
        "sequence" => run_sequences::run_sequence(alloc, row, tally)?,
        "walk over a sequence" => run_sequences::run_walk(alloc, row, tally)?,
        _ => return Ok(false),
    }
    Ok(true)
}
