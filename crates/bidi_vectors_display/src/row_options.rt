//! How the text of a row is displayed.

use crate::case::{Widths, dropped_of, moves_of, widths_of};
use bidi_display::options::{DisplayOptions, Dropped, Moves};
use bidi_vectors_format::fault::{RowFault, Why};
use bidi_vectors_format::item::number_of;
use bidi_vectors_format::row::Row;

// Returns what a reader of words makes of a field, or `first` without the field.
macro_rules! choice {
    ($row:expr, $key:expr, $read:expr, $first:expr) => {
        match $row.get($key) {
            None => Ok($first),
            Some(field) => $read(field.value).ok_or(RowFault::Line(field.line, Why::Option)),
        }
    };
}

fn moves(row: &Row<'_>) -> Result<Moves, RowFault> {
    choice!(row, "moves", moves_of, Moves::Clusters)
}

fn dropped(row: &Row<'_>) -> Result<Dropped, RowFault> {
    choice!(row, "dropped", dropped_of, Dropped::Controls)
}

fn tab(row: &Row<'_>) -> Result<usize, RowFault> {
    match row.get("tab") {
        None => Ok(8),
        Some(field) => number_of(field.value, field.line),
    }
}

/// Returns whose widths a row counts: its field `widths`, or those of whole clusters.
pub fn widths(row: &Row<'_>) -> Result<Widths, RowFault> {
    choice!(row, "widths", widths_of, Widths::Signs)
}

/// Returns the options of a row: its fields `moves`, `dropped` and `tab`, or those of `DisplayOptions::default`.
pub fn options(row: &Row<'_>) -> Result<DisplayOptions, RowFault> {
    Ok(DisplayOptions {
        moves: moves(row)?,
        dropped: dropped(row)?,
        tab: tab(row)?,
    })
}
