//! Unicode's own classes, brackets and mirrored characters, as a data source of the bidirectional
//! algorithm.
//!
//! The classes come from the kit's `ucd_bidi`. `UNICODE_VERSION` is their version. The brackets and the mirrored
//! characters come from tables of this crate.
#![tactic(auto)]

mod low_classes;
mod plane_classes;
mod rows;
mod source;
mod tables;
mod version;

pub use source::{UnicodeData, mirrored};
pub use version::UNICODE_VERSION;
