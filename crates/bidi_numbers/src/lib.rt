//! What callers in other languages pass: numbers, structs, tables and texts. It tests their values, and has the faults
//! that a call returns.
#![tactic(auto)]

pub mod class_numbers;
pub mod fault;
pub mod numbers;
pub mod structs;
pub mod tables;
pub mod texts;
pub mod utf32_text;
