//! A text as one displayed line.

use crate::case::{Case, Widths};
use bidi_display::displayed_line::DisplayedLine;
use bidi_display::width::{CharColumns, ClusterColumns, ClusterWidth};
use bidi_text::text::TextSource;
use bidi_unicode::UnicodeData;
use std::alloc::{AllocError, Global};
use unicode_bidi::engine::analyse;

// Returns the text of a case as one line with these widths.
fn displayed_by<T: TextSource, W: ClusterWidth>(
    alloc: Global,
    text: T,
    case: &Case,
    widths: &W,
) -> Result<DisplayedLine, AllocError> {
    let level = case.base.level();
    let analysis = analyse(alloc, &UnicodeData, text, Some(level), false)?;
    let mut line = DisplayedLine::new(alloc, case.options);
    let classes = analysis.original_classes();
    line.show(
        text,
        classes,
        analysis.levels(),
        level,
        0..text.len(),
        widths,
    )?;
    Ok(line)
}

/// Returns the text of a case as one line.
pub fn displayed<T: TextSource>(
    alloc: Global,
    text: T,
    case: &Case,
) -> Result<DisplayedLine, AllocError> {
    let wide_ambiguous = false;
    match case.widths {
        Widths::Signs => displayed_by(alloc, text, case, &ClusterColumns { wide_ambiguous }),
        Widths::Cells => displayed_by(alloc, text, case, &CharColumns { wide_ambiguous }),
    }
}
