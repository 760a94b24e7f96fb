//! The width of a terminal.
ghost use Rattle.std.specs.Prelude.{◌≡◌};
ghost use Rattle.bidi.specs.Widths.{columns_of};

use bidi_terminal::parse_number;
use std::env;
use std::rt::Env;

/// The variable of the environment that has the number of columns.
const COLUMNS: &str = "COLUMNS";

/// The number of columns if the environment does not name it.
const USUAL_COLUMNS: u16 = 80;

/// Returns the number of columns that a value of COLUMNS names in one to three digits, or 80.
fn columns_of(value: &str) -> u16
    ensures { result ≡ columns_of value.now }
{
    match parse_number(value) {
        Some(columns) if columns > 0 => columns,
        _ => USUAL_COLUMNS,
    }
}

/// Returns the number of columns of the terminal: that of COLUMNS, or 80.
pub fn terminal_columns(rt: &(impl Env + AllocGlobal)) -> u16 {
    match env::var(rt, COLUMNS) {
        Ok(value) => columns_of(value.as_str()),
        Err(_) => USUAL_COLUMNS,
    }
}
