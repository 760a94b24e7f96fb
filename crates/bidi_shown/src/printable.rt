//! Lines that are shown unchanged. Most texts have some.
ghost use Rattle.std.specs.Prelude.{◌≡◌, ◌≤◌, ◌++◌, ℕ, take, drop};
ghost use Rattle.std.specs.Str.{chars, IsCharBoundary};
ghost use Rattle.bidi_unicode.specs.Unicode.{unicode_source};
ghost use Rattle.bidi_shown.specs.PrintableLines.{is_printable_ascii as is_printable_byte, ArePrintableLines, CopiesPrintable};
ghost use Rattle.bidi_shown.specs.Displayed.{shown_text};
ghost use Rattle.bidi_shown.specs.declared.view.View.{View};

use crate::view::View;
use bidi_terminal::Base;

// Returns whether a byte is a printable character of ASCII.
fn is_printable_ascii(byte: u8) -> bool
    ensures { result ≡ is_printable_byte byte }
{
    (0x20..=0x7E).contains(&byte)
}

// Returns the number of bytes of the lines at the start of a text that have only printable ASCII, up to the last line
// feed.
fn printable_lines(text: &str) -> usize
    ensures boundary { IsCharBoundary text.now result }
    ensures lines { ArePrintableLines text.now result }
    ensures longest { (len : ℕ) → ArePrintableLines text.now len → len ≤ result }
    ensures shown { (view : View) → CopiesPrintable view → shown_text unicode_source view (chars text.now)
        ≡ take result text.now ++ shown_text unicode_source view (chars (drop result text.now)) }
{
    let bytes = text.as_bytes();
    let mut end = 0;
    for (at, byte) in bytes.iter().enumerate() {
        if *byte == b'\n' {
            end = at + 1;
        } else if !is_printable_ascii(*byte) {
            return end;
        }
    }
    end
}

/// Returns the number of bytes at the start of a text that are shown unchanged, by Unicode's data.
///
/// They are whole lines of printable ASCII, as many as there are before the first other byte. The number is 0 if the
/// view has a width, or base level 1.
pub fn printable_len(view: View, text: &str) -> usize
    ensures boundary { IsCharBoundary text.now result }
    ensures lines { ArePrintableLines text.now result }
    ensures longest { CopiesPrintable view → (len : ℕ) → ArePrintableLines text.now len → len ≤ result }
    ensures none { ¬ (CopiesPrintable view) → result ≡ 0 }
    ensures shown { shown_text unicode_source view (chars text.now)
        ≡ take result text.now ++ shown_text unicode_source view (chars (drop result text.now)) }
{
    if view.width.is_some() || view.base == Base::Rtl {
        return 0;
    }
    printable_lines(text)
}
