//! The library's calls over numbers and buffers. Each call tests every condition that the library requires.
//!
//! A call writes its result to the front of the caller's buffers, and leaves the rest unchanged. It returns the first
//! fault in the order of its contract, and then leaves every buffer unchanged. A failed allocation is the fault
//! `NoMemory`, which may come in place of another.
#![tactic(auto)]

pub mod analysis;
pub mod base_numbers;
pub mod buffers;
pub mod by_tables;
pub mod caller_text;
pub mod char_order;
pub mod characters;
pub mod class_lists;
pub mod counted;
pub mod display_buffers;
pub mod display_line;
pub mod display_text;
pub mod first_direction;
mod flags;
pub mod kept;
pub mod line;
pub mod line_order;
pub mod line_text;
pub mod paragraph_search;
pub mod per_char;
pub mod run_structs;
pub mod show;
pub mod shown;
pub mod whole_text;
