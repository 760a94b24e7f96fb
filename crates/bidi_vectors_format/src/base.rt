//! The base level of a row.

ghost use Rattle.std.specs.Prelude.{◌≤◌, IfOk, IfSome};

use crate::fault::{RowFault, Why};
use crate::item::level_of;
use crate::row::Row;
use bidi_base::level::Level;

/// Returns the base level of a row: none for `auto`, or without such a field.
pub fn base_of(row: &Row<'_>) -> Result<Option<Level>, RowFault>
    ensures { IfOk result (λ base. IfSome base (λ level. level ≤ 125)) }
{
    let Some(field) = row.get("base") else {
        return Ok(None);
    };
    if field.value == "auto" {
        return Ok(None);
    }
    let level = level_of(field.value, field.line)?;
    match Level::new_explicit(level.number()) {
        Ok(level) => Ok(Some(level)),
        Err(_) => Err(RowFault::Line(field.line, Why::ExplicitLevel)),
    }
}
