//! The exports over lists of classes, without a text.
use bidi_calls::buffers::{AnalysisBuffers, Settings};
use bidi_calls::class_lists::analyse_classes;
use bidi_numbers::fault::answer;
use bidi_numbers::structs::Paragraph;
use std::alloc::Global;

#[unsafe(no_mangle)]
pub extern "C" fn unicode_bidi_analyse_classes(
    alloc: Global,
    classes: &[u8],
    brackets: &[u32],
    base: u8,
    split: u8,
    stored: &mut [u8],
    levels: &mut [u8],
    paragraphs: &mut [Paragraph],
) -> i64 {
    let settings = Settings { base, split };
    let mut out = AnalysisBuffers {
        classes: stored,
        levels,
        paragraphs,
    };
    answer(analyse_classes(alloc, classes, brackets, settings, &mut out))
}
