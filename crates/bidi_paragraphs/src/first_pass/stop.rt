//! The character at which the pass stops.

use bidi_base::char_data::BidiClass;

/// A character at which a search stops.
#[derive(Clone, Copy)]
pub(super) struct Stop {
    /// The index of its first code unit.
    pub(super) start: usize,
    pub(super) c: char,
    /// The number of its code units.
    pub(super) len: usize,
    pub(super) class: BidiClass,
}
