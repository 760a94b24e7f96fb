//! The calls of a row, by its kind.

use crate::{line_rows, text_rows};
use bidi_vectors_format::fault::{RowFault, Why};
use bidi_vectors_format::files::RowCalls;
use bidi_vectors_format::row::Row;
use bidi_vectors_format::tally::Tally;
use std::alloc::Global;

/// The calls of `bidi_display`.
#[derive(Clone, Copy)]
pub struct DisplayCalls;

impl RowCalls for DisplayCalls {
    fn run_row(&mut self, alloc: Global, row: &Row<'_>, tally: &mut Tally) -> Result<(), RowFault> {
        match row.kind {
            "displayed line" => line_rows::run(alloc, row, tally),
            "displayed text" => text_rows::run(alloc, row, tally),
            _ => Err(RowFault::Line(row.line, Why::Kind)),
        }
    }
}
