// The text of a shown line of a list of characters.
ghost use Rattle.std.specs.Prelude.{◌≡◌, ℕ, ◌∷◌, [], OnOk, OnErr};
ghost use Rattle.std.specs.declared.ops.Range.{Range as RangeOf};
ghost use Rattle.bidi_base.specs.AnalysedText.{AnalysedText};
ghost use Rattle.bidi_base.specs.Text.{one_unit};

use super::ShownLine;
use bidi_text::text::CharsText;
use std::alloc::{AllocError, Global};

impl<'t> ShownLine<CharsText<'t>> {
    ghost use Rattle.bidi_lines.specs.ShownLine.{text_of, Shows, AppendsTextOfLine};

    /// Returns a value that shows the empty line of an empty text. Does not allocate.
    pub fn new(alloc: Global) -> ShownLine<CharsText<'t>>
        ensures text { (text_of result).list.now ≡ [] }
        ensures shows { (a : AnalysedText) → (level : ℕ) → a.len_of ≡ one_unit → a.chars ≡ []
            → Shows result a level (record { start = 0; end = 0 }) }
    {
        ShownLine::of_text(alloc, CharsText::new(&[]))
    }

    /// Appends the characters of the line, from left to right (L2), to a list of characters.
    ///
    /// A line that stays in order is appended unchanged. If an allocation fails, the list is unchanged.
    pub fn push_text(&self, out: &mut Vec<char>) -> Result<(), AllocError>
        ensures text { (a : AnalysedText) → (level : ℕ) → (line : RangeOf ℕ) → Shows self.now a level line
            → OnOk result (AppendsTextOfLine (λ c. c ∷ []) (text_of self.now).list.now a level line
            out.old.items out.new.items) }
        ensures unchanged { OnErr result (out.new.items ≡ out.old.items) }
    {
        self.push_units(out, ' ')
    }
}
