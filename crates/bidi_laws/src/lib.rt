//! Laws of the definitions that more than one of the crates above uses.
//!
//! They are about stacks, sequences, stored levels, neutrals and lines. The crate has no functions.
//! Its folder `proofs` has one module per topic.
#![tactic(auto)]
