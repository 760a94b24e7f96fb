// The text of a shown line of UTF-8.
ghost use Rattle.std.specs.Prelude.{◌≡◌, ℕ, [], OnOk, OnErr, encode_utf8, string_bytes};
ghost use Rattle.std.specs.Char.{len_utf8};
ghost use Rattle.std.specs.declared.ops.Range.{Range as RangeOf};
ghost use Rattle.bidi_base.specs.AnalysedText.{AnalysedText};

use super::ShownLine;
use bidi_text::text::StrText;
use std::alloc::{AllocError, Global};
use std::mem;

impl<'t> ShownLine<StrText<'t>> {
    ghost use Rattle.bidi_lines.specs.ShownLine.{text_of, Shows, AppendsTextOfLine};

    /// Returns a value that shows the empty line of an empty text. Does not allocate.
    pub fn new(alloc: Global) -> ShownLine<StrText<'t>>
        ensures text { (text_of result).text.now ≡ [] }
        ensures shows { (a : AnalysedText) → (level : ℕ) → a.len_of ≡ len_utf8 → a.chars ≡ []
            → Shows result a level (record { start = 0; end = 0 }) }
    {
        ShownLine::of_text(alloc, StrText::new(""))
    }

    /// Appends the text of the line, from left to right (L2), to a string.
    ///
    /// A line that stays in order is appended unchanged. If an allocation fails, the string is unchanged.
    pub fn push_text(&self, out: &mut String) -> Result<(), AllocError>
        ensures text { (a : AnalysedText) → (level : ℕ) → (line : RangeOf ℕ) → Shows self.now a level line
            → OnOk result (AppendsTextOfLine encode_utf8 (text_of self.now).text.now a level line
            (string_bytes out.old) (string_bytes out.new)) }
        ensures unchanged { OnErr result (string_bytes out.new ≡ string_bytes out.old) }
    {
        let text = self.text.as_str();
        if !self.has_rtl {
            return out.push_str(&text[self.start..self.end]);
        }
        let alloc = *out.allocator();
        let mut bytes = mem::replace(out, String::new(alloc)).into_bytes();
        let pushed = self.push_units(&mut bytes, 0);
        // This skips the test for UTF-8: the proof shows that the bytes are UTF-8.
        *out = unsafe { String::from_utf8_unchecked(bytes) };
        pushed
    }
}
