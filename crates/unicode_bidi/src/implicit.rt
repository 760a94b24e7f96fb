//! The rules within an isolating run sequence (W1 to W7, N0 to N2), and the levels of the characters (I1,
//! I2), in place over the code units of one paragraph.

pub use bidi_rules::implicit::{
    NeutralResolver, resolve_levels, resolve_neutral, resolve_weak, resolve_weak_counted,
};
