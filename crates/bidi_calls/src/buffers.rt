//! What a caller passes for a result of several parts: the settings of an analysis, and the buffers that a call fills.
use bidi_numbers::structs::{Paragraph, Run};

/// The settings of an analysis, as numbers.
///
/// `base` is a number that [`base_numbered`](crate::base_numbers::base_numbered) takes. `split` is 0 for one paragraph, 1 for
/// `EachSeparator`, or 2 for `CrLfTogether`.
#[derive(Clone, Copy, Debug)]
pub struct Settings {
    pub base: u8,
    pub split: u8,
}

/// The buffers for the classes, levels and paragraphs of a text.
///
/// `classes` and `levels` need an entry for each code unit. `paragraphs` needs one for each paragraph. If it is
/// empty, the paragraphs are only counted.
#[derive(Drop)]
pub struct AnalysisBuffers<'b> {
    pub classes: &'b mut [u8],
    pub levels: &'b mut [u8],
    pub paragraphs: &'b mut [Paragraph],
}

/// The buffers for the classes and the paragraphs of a text.
///
/// `classes` needs an entry for each code unit, and `paragraphs` one for each paragraph. A call leaves out a part if its
/// buffer is empty.
#[derive(Drop)]
pub struct ParagraphBuffers<'b> {
    pub classes: &'b mut [u8],
    pub paragraphs: &'b mut [Paragraph],
}

/// The buffers for all parts of a line: its levels, visual runs, character order, text, and number of characters.
///
/// `levels` and `text` need an entry for each code unit of the line, `runs` one for each run, and `order` one for each
/// character. A call leaves out a part if its buffer is empty.
#[derive(Drop)]
pub struct LineBuffers<'b, U> {
    pub levels: &'b mut [u8],
    pub runs: &'b mut [Run],
    pub order: &'b mut [usize],
    pub text: &'b mut [U],
    pub characters: &'b mut usize,
}
