//! Direction controls that have no match on their line, and lines that are displayed differently from how they read.
//! Both can make source code display differently from how it is compiled.
#![tactic(auto)]

pub mod check;
pub mod control;
mod control_bytes;
pub mod decode;
pub mod differing;
pub mod displayed;
pub mod file_lines;
pub mod file_search;
pub mod finding;
pub mod lines;
mod openers;
mod own_level;
pub mod pieces;
pub mod placeholders;
pub mod report;
mod unmatched;
