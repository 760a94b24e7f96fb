//! The classes, levels and data sources that every layer of the bidirectional algorithm uses.
//!
//! The crate also has what the rules over lists share with the passes in place, the search of the
//! passes, and the count of their iterations. Its folder `specs` has the definitions that the
//! contracts of public calls cite, one module per topic.
#![tactic(auto)]

pub mod brackets;
pub mod char_data;
pub mod classes;
pub mod data_source;
pub mod format_chars;
pub mod isolates;
pub mod level;
pub mod neutrals;
pub mod overridden;
pub mod sample;
pub mod search;
pub mod split_rule;
pub mod steps;
