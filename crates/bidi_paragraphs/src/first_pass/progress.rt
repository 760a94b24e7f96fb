//! How far the pass has come.

use crate::paragraph_flags::ParagraphFlags;

/// How far the pass has come in a paragraph.
#[derive(Clone, Copy)]
pub(super) struct Progress {
    /// The index of the next character.
    pub(super) at: usize,
    /// The flags of the paragraph up to there.
    pub(super) flags: ParagraphFlags,
}
