//! Where a text is cut into paragraphs.

/// Where the paragraphs of a text end (P1).
#[derive(Clone, Copy, PartialEq, Eq, Debug)]
pub enum SplitRule {
    /// After each character of class B.
    EachSeparator,
    /// After each character of class B, but not after a U+000D of class B directly before a U+000A of class
    /// B.
    CrLfTogether,
}
