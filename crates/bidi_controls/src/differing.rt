//! Paragraphs that are displayed differently from how they read.
use crate::finding::Trouble;
use bidi_base::level::Level;

/// Why and where a paragraph of a line is displayed differently from how it reads.
#[derive(Clone, Copy, Debug)]
pub struct Differing {
    /// The kind of its finding: `DisplayedDifferently` or `LettersAlone`.
    pub trouble: Trouble,
    /// The index in the paragraph, in characters, at which it is reported.
    pub place: usize,
    /// The base level with which it differs: 0, or if it does not differ from left to right, that of P2 and P3.
    pub level: Level,
}

/// A paragraph of a line as a device displays it.
#[derive(Drop)]
pub struct DisplayedParagraph {
    /// The column of its finding, counted from 1.
    pub column: usize,
    /// The base level with which it is displayed, 0 or 1.
    pub level: Level,
    /// The index in `chars` of the first printable ASCII character, other than the space, that is not read at its place. If
    /// there is none, the length of `chars`.
    pub moved: usize,
    /// Its characters from left to right (L2), mirrored at odd levels (L4), without direction controls.
    pub chars: Vec<char>,
}
