//! The lines of a text from left to right.
ghost use Rattle.std.specs.Prelude.{◌≡◌, ◌++◌, ◌<◌, length, IfOk, OnOk, string_bytes};
ghost use Rattle.std.specs.Str.{chars, IsUtf8};
ghost use Rattle.bidi_unicode.specs.Unicode.{unicode_source};
ghost use Rattle.bidi_shown.specs.Displayed.{shown_text};

use crate::first::first_paragraph;
use crate::paragraph::push_paragraph;
use crate::printable::printable_len;
use crate::view::View;
use bidi_unicode::UnicodeData;
use std::alloc::{AllocError, Global};
use unicode_bidi::engine::ParagraphAnalysis;

// Appends the lines at the start of a text: those that are shown unchanged, or those of the first paragraph. Returns
// the rest of the text.
fn push_first<'t>(
    alloc: Global,
    out: &mut String,
    memory: &mut ParagraphAnalysis,
    view: View,
    text: &'t str,
) -> Result<&'t str, AllocError>
    requires { 0 < length text.now }
    ensures shown { IfOk result (λ rest. string_bytes out.new ++ shown_text unicode_source view (chars rest.now)
        ≡ string_bytes out.old ++ shown_text unicode_source view (chars text.now)) }
    ensures shorter { IfOk result (λ rest. length rest.now < length text.now) }
    ensures utf8 { IfOk result (λ rest. IsUtf8 rest.now) }
{
    let printable = printable_len(view, text);
    if printable > 0 {
        let (lines, rest) = text.split_at(printable);
        out.push_str(lines)?;
        return Ok(rest);
    }
    let first = first_paragraph(&UnicodeData, text);
    push_paragraph(alloc, out, memory, &UnicodeData, view, first.own)?;
    Ok(first.rest)
}

/// Appends the lines of a text, each from left to right and ended by a line feed.
///
/// Each paragraph of the text (P1) begins a new line, and is cut into several lines if the view has a width. Returns an
/// error if an allocation fails. Then `out` may have some of the lines.
pub fn push_text(
    alloc: Global,
    out: &mut String,
    memory: &mut ParagraphAnalysis,
    view: View,
    text: &str,
) -> Result<(), AllocError>
    ensures { OnOk result (string_bytes out.new
        ≡ string_bytes out.old ++ shown_text unicode_source view (chars text.now)) }
{
    let mut rest = text;
    while !rest.is_empty() {
        rest = push_first(alloc, out, memory, view, rest)?;
    }
    Ok(())
}
