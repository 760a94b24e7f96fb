//! The text of a line shown plainly, from left to right.
ghost use Rattle.std.specs.Prelude.{◌≡◌, ◌++◌, ◌==◌, length, OnOk, string_bytes};
ghost use Rattle.std.specs.List.{list_any};
ghost use Rattle.std.specs.Str.{chars};
ghost use Rattle.bidi_shown.specs.Plain.{tabbed_line};

use crate::characters::chars_of;
use crate::show::push_line;
use crate::tabs::SpreadLine;
use bidi_base::level::{Level, has_rtl};
use std::alloc::{AllocError, Global};

// Returns whether a text has a tab.
fn has_tab(text: &str) -> bool
    ensures { result ≡ list_any (λ c. c == 0x09) (chars text.now) }
{
    text.chars().any(|c| c == '\t')
}

// Appends a line with spaces for its tabs, from its characters.
fn push_tabbed(
    alloc: Global,
    out: &mut String,
    chars: &[char],
    levels: &[Level],
) -> Result<(), AllocError>
    requires { length levels.now ≡ length chars.now }
    ensures { OnOk result (string_bytes out.new
        ≡ string_bytes out.old ++ tabbed_line chars.now levels.now) }
{
    let mut line = SpreadLine::new(alloc);
    line.spread(chars, levels)?;
    push_line(alloc, out, line.chars(), line.levels())
}

/// Appends the text of a line from left to right, given one level for each character, that after L1.
///
/// Each character is moved by itself (L2), and none is mirrored. A tab becomes spaces up to the next multiple of eight
/// columns from the side where the line begins. A line with neither a tab nor an odd level is copied. Returns an error
/// if an allocation fails.
pub fn push_text(
    alloc: Global,
    out: &mut String,
    text: &str,
    levels: &[Level],
) -> Result<(), AllocError>
    requires { length levels.now ≡ length (chars text.now) }
    ensures { OnOk result (string_bytes out.new
        ≡ string_bytes out.old ++ tabbed_line (chars text.now) levels.now) }
{
    let tabs = has_tab(text);
    if !tabs && !has_rtl(levels) {
        return out.push_str(text);
    }
    let chars = chars_of(alloc, text)?;
    if tabs {
        return push_tabbed(alloc, out, chars.as_slice(), levels);
    }
    push_line(alloc, out, chars.as_slice(), levels)
}
