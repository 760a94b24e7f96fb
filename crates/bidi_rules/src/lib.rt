//! The rules of an isolating run sequence as passes in place, over the code units of its runs.
//!
//! [`weak`] resolves the weak types (W1 to W7), and [`neutral`] the bracket pairs and the neutrals (N0 to N2).
//! [`implicit`] has the implicit levels (I1, I2), and the public names of both passes. The crate also re-exports the
//! passes of `bidi_explicit`.
#![tactic(auto)]

pub mod implicit;
mod neutral;
mod weak;

pub use bidi_explicit::{explicit, leveled_text, prepare};
