//! One function for texts in every encoding.

use std::alloc::{AllocError, Global};
use unicode_bidi::info::BidiInfo;
use unicode_bidi::text::TextSource;

/// Returns the number of visual runs of a text whose paragraphs are lines, without their separators.
pub fn count_runs<T: TextSource>(alloc: Global, info: &BidiInfo<T>) -> Result<usize, AllocError> {
    let mut count = 0usize;
    for paragraph in info.paragraphs() {
        let runs = info.line_runs(alloc, paragraph, info.content(paragraph))?;
        count = count.saturating_add(runs.len());
    }
    Ok(count)
}
