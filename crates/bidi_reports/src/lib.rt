//! The reports of `bidi check`: lines of text, JSON and SARIF. Allow-lists, read and written.
#![tactic(auto)]

mod allow_index;
pub mod allowance;
pub mod allowed;
mod digest;
mod entry;
pub mod form;
mod glob;
mod json_text;
pub mod kind;
pub mod line_number;
mod notifications;
mod parts;
mod pattern;
pub mod report;
mod text;
mod words;
mod written;
