//! Test vectors as text: the format of a file of rows, and how the results of calls are compared with it. A
//! row is one test vector.
//!
//! `crates/bidi_vectors/data/README.md` describes the files.
#![tactic(auto)]

pub mod answer;
pub mod base;
mod by_rules;
pub mod class;
pub mod conditions;
pub mod fault;
pub mod files;
pub mod item;
pub mod row;
pub mod source;
pub mod tally;
pub mod text;
pub mod units;

pub use by_rules::resolve;
