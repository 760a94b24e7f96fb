// The text of a shown line of UTF-16.
ghost use Rattle.std.specs.Prelude.{◌≡◌, ℕ, [], OnOk, OnErr};
ghost use Rattle.std.specs.Char.Escape.{encode_utf16};
ghost use Rattle.std.specs.declared.ops.Range.{Range as RangeOf};
ghost use Rattle.bidi_base.specs.AnalysedText.{AnalysedText};
ghost use Rattle.bidi_base.specs.Utf16.{utf16_len};

use super::ShownLine;
use bidi_text::text::Utf16Text;
use std::alloc::{AllocError, Global};

impl<'t> ShownLine<Utf16Text<'t>> {
    ghost use Rattle.bidi_lines.specs.ShownLine.{text_of, Shows, AppendsTextOfLine};

    /// Returns a value that shows the empty line of an empty text. Does not allocate.
    pub fn new(alloc: Global) -> ShownLine<Utf16Text<'t>>
        ensures text { (text_of result).units.now ≡ [] }
        ensures shows { (a : AnalysedText) → (level : ℕ) → a.len_of ≡ utf16_len → a.chars ≡ []
            → Shows result a level (record { start = 0; end = 0 }) }
    {
        ShownLine::of_text(alloc, Utf16Text::new(&[]))
    }

    /// Appends the text of the line, from left to right (L2), to a list of code units of UTF-16.
    ///
    /// An unpaired surrogate is unchanged at an even level, and 0xFFFD at an odd one. A line that stays in
    /// order is appended unchanged. If an allocation fails, the list is unchanged.
    pub fn push_text(&self, out: &mut Vec<u16>) -> Result<(), AllocError>
        ensures text { (a : AnalysedText) → (level : ℕ) → (line : RangeOf ℕ) → Shows self.now a level line
            → OnOk result (AppendsTextOfLine encode_utf16 (text_of self.now).units.now a level line
            out.old.items out.new.items) }
        ensures unchanged { OnErr result (out.new.items ≡ out.old.items) }
    {
        self.push_units(out, 0)
    }
}
