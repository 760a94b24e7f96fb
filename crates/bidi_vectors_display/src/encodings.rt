//! The text of a case in its encoding.

use crate::case::{Case, Encoding};
use crate::display::displayed;
use bidi_display::displayed_line::DisplayedLine;
use bidi_text::text::{CharsText, StrText, Utf16Text};
use std::alloc::{AllocError, Global};

fn displayed_utf8(alloc: Global, case: &Case) -> Result<DisplayedLine, AllocError> {
    let mut text = String::new(alloc);
    for c in &case.chars {
        text.push(*c)?;
    }
    displayed(alloc, StrText::new(text.as_str()), case)
}

fn displayed_utf16(alloc: Global, case: &Case) -> Result<DisplayedLine, AllocError> {
    let mut units = Vec::new(alloc);
    for c in &case.chars {
        units.extend_from_slice(c.encode_utf16(&mut [0; 2]))?;
    }
    displayed(alloc, Utf16Text::new(units.as_slice()), case)
}

/// Returns the text of a case as one displayed line.
pub fn displayed_case(alloc: Global, case: &Case) -> Result<DisplayedLine, AllocError> {
    match case.encoding {
        Encoding::Utf8 => displayed_utf8(alloc, case),
        Encoding::Utf16 => displayed_utf16(alloc, case),
        Encoding::Chars => displayed(alloc, CharsText::new(case.chars.as_slice()), case),
    }
}
