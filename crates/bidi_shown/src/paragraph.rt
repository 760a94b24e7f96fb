//! The lines of a paragraph from left to right.
ghost use Rattle.std.specs.Prelude.{◌≡◌, ◌++◌, OnOk, string_bytes};
ghost use Rattle.std.specs.Str.{chars};
ghost use Rattle.bidi_shown.specs.Displayed.{shown_paragraph};

use crate::analysed::AnalysedParagraph;
use crate::displayed::push_displayed;
use crate::plain::push_plain;
use crate::view::View;
use bidi_base::data_source::BidiDataSource;
use bidi_text::text::StrText;
use std::alloc::{AllocError, Global};
use unicode_bidi::engine::ParagraphAnalysis;

/// Appends the lines of a paragraph without separators, each from left to right and ended by a line feed.
///
/// Returns an error if an allocation fails. Then `out` may have some of the lines.
pub fn push_paragraph<D: BidiDataSource>(
    alloc: Global,
    out: &mut String,
    analysis: &mut ParagraphAnalysis,
    data_source: &D,
    view: View,
    text: &str,
) -> Result<(), AllocError>
    ensures { OnOk result (string_bytes out.new
        ≡ string_bytes out.old ++ shown_paragraph (D.source data_source.now) view (chars text.now)) }
{
    analysis.find(alloc, data_source, StrText::new(text), view.base.level())?;
    let paragraph = AnalysedParagraph {
        text,
        analysis: &*analysis,
    };
    if view.plain {
        push_plain(alloc, out, data_source, view, &paragraph)
    } else {
        push_displayed(alloc, out, view, &paragraph)
    }
}
