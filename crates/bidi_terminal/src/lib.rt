//! Shared code of terminal programs: base levels and numbers in arguments, decimal numbers, hexadecimal digits and code
//! points.
//! Also how reports write names and texts: with hidden characters escaped ([`names`]), as strings of JSON
//! ([`json_text`]), and as references of URIs ([`uri`]).
#![tactic(auto)]

mod base;
mod code_point;
pub mod json_text;
pub mod names;
mod number;
pub mod uri;

pub use base::Base;
pub use code_point::push_code_point;
pub use number::{parse_number, push_hex_digit, push_number};
