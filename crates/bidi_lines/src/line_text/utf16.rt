// The text of a line of UTF-16.
ghost use Rattle.std.specs.Prelude.{◌≡◌, length, reverse, flat_map, IfOk, ◌↔◌};
ghost use Rattle.std.specs.Char.Escape.{encode_utf16};
ghost use Rattle.std.specs.Cow.{cow_slice_items, IsBorrowedSlice};
ghost use Rattle.bidi_base.specs.AnalysedText.{IsLineOf, IsTextOfLine, StaysInOrder};
ghost use Rattle.bidi_base.specs.Utf16.{utf16_text};

use super::LineText;
use super::reversed::write_reversed;
use crate::analysed::Analysed;
use bidi_base::level::Level;
use bidi_text::text::{TextSource, Utf16CharIter, Utf16Text, are_characters};
use std::alloc::{AllocError, Global};
use std::borrow::CowSlice;
use std::ops::Range;

// Writes the characters of some code units in reverse order, one by one. An unpaired surrogate is written as 0xFFFD.
fn write_chars_reversed(units: &[u16], out: &mut [u16])
    requires { length out.old ≡ length units.now }
    ensures { out.new ≡ flat_map encode_utf16 (reverse (utf16_text units.now)) }
{
    let mut at = 0;
    for c in Utf16CharIter::new(units).rev() {
        let end = at + c.len_utf16();
        out[at..end].copy_from_slice(c.encode_utf16(&mut [0; 2]));
        at = end;
    }
}

impl<'t> LineText for Utf16Text<'t> {
    type Unit = u16;

    ghost units_of = { λ t. t.units.now };

    ghost encode = { encode_utf16 };

    fn copy_run(self, run: Range<usize>, out: &mut [u16]) {
        let units = self.units();
        out.copy_from_slice(&units[run]);
    }

    // An unpaired surrogate is written as 0xFFFD.
    fn reverse_run(self, run: Range<usize>, out: &mut [u16]) {
        let units = self.subrange(run).units();
        if are_characters(units) {
            write_reversed(units, out);
        } else {
            write_chars_reversed(units, out);
        }
    }
}

impl<'t> Analysed<Utf16Text<'t>> {
    ghost use Rattle.bidi_lines.specs.Analysed.{analysed, text_of};

    /// Returns the text of a line of UTF-16 from left to right: its characters in the order of L2, by their levels
    /// after L1.
    ///
    /// An unpaired surrogate is unchanged at an even level, and 0xFFFD at an odd one. The result is borrowed exactly if
    /// no level of the line is odd after L1. Takes time linear in the line.
    pub fn reorder_line(
        &self,
        alloc: Global,
        para_level: Level,
        line: Range<usize>,
    ) -> Result<CowSlice<'t, u16>, AllocError>
        requires { IsLineOf (analysed self.now) line }
        ensures text { IfOk result (λ c. IsTextOfLine encode_utf16 (text_of self.now).units.now (analysed self.now)
            para_level line (cow_slice_items c)) }
        ensures borrowed { IfOk result (λ c. IsBorrowedSlice c ↔ StaysInOrder (analysed self.now) para_level line) }
    {
        let text = self.text().units();
        let units = line.start..line.end;
        match self.reversed_line(alloc, para_level, units, 0)? {
            Some(reversed) => Ok(CowSlice::Owned(reversed)),
            None => Ok(CowSlice::Borrowed(&text[line])),
        }
    }
}
