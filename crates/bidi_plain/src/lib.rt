//! The bidirectional algorithm over lists of characters, with one call for each group of rules, written as
//! the annex words them. The contract of each call is its definition in `bidi_base`.
#![tactic(auto)]

pub mod plain;
