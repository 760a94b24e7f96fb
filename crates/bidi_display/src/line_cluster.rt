//! The clusters of a displayed line, with their levels and widths.

use bidi_base::level::Level;

/// A cluster of a displayed line: what L2 moves as a whole.
#[derive(Clone, Copy, Debug, PartialEq)]
pub struct LineCluster {
    /// The index of its first code unit in the text.
    pub start: usize,
    /// The index after its last code unit.
    pub end: usize,
    /// The index of its first character in `DisplayedLine::chars`.
    pub chars_start: usize,
    /// The index after its last character.
    pub chars_end: usize,
    /// Its level: that of its first displayed character that X9 keeps, or else that of its first character.
    pub level: Level,
    /// Its width in columns. It is 0 if no character of the cluster is displayed. A tab goes up to the next tab stop.
    pub width: usize,
}
