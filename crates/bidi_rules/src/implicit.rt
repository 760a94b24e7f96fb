//! The rules within an isolating run sequence (W1 to W7, N0 to N2), and the levels of the characters (I1,
//! I2), in place over the code units of one paragraph.

mod levels;

pub use crate::neutral::{NeutralResolver, resolve_neutral, resolve_up_to_n1};
pub use crate::weak::{resolve_weak, resolve_weak_borrowed_counted, resolve_weak_counted};
pub use levels::resolve_levels;
