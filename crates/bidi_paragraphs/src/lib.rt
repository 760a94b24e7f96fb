//! The paragraphs of a text, their levels, and the levels of their code units.
//!
//! [`first_pass`] is the first pass over a text. It splits the text into paragraphs (P1), finds their levels (P2, P3),
//! and stores the class of each character, with each FSI resolved (X5c). [`paragraph_levels`] finds the levels of each
//! paragraph's code units, by the rules from X1 to I2.
#![tactic(auto)]

mod class_set;
pub mod first_pass;
mod known_levels;
pub mod paragraph_flags;
pub mod paragraph_info;
pub mod paragraph_levels;
