//! X1 to X10 for one paragraph, as passes over its code units.
//!
//! [`explicit`] finds the explicit levels and the level runs (X1 to X8), and writes the class BN for each character
//! that X9 removes. [`prepare`] links the level runs into isolating run sequences (X9, X10). [`leveled_text`] is a text
//! with its stored classes and explicit levels. [`written`], [`run_search`] and [`characters`] are helpers of passes
//! over runs.
#![tactic(auto)]

pub mod characters;
pub mod explicit;
pub mod leveled_text;
pub mod prepare;
pub mod run_search;
pub mod written;
