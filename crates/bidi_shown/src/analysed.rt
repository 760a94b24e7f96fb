//! A paragraph with its analysis.
use unicode_bidi::engine::ParagraphAnalysis;

/// A paragraph without separators, with its classes and levels.
#[derive(Clone, Copy)]
pub struct AnalysedParagraph<'p> {
    /// Its text.
    pub text: &'p str,
    /// What the rules find in it.
    pub analysis: &'p ParagraphAnalysis,
}
