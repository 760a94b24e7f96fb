//! Explicit levels and directions (X1 to X8), and level runs (BD7), in place over the code units of one
//! paragraph.

pub use bidi_rules::explicit::{compute, compute_counted};
