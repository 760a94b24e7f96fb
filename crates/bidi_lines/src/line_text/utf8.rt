// The text of a line of UTF-8.
ghost use Rattle.std.specs.Prelude.{◌≡◌, length, reverse, flat_map, IfOk, ◌↔◌, encode_utf8};
ghost use Rattle.std.specs.Cow.{cow_str_bytes, IsBorrowedStr};
ghost use Rattle.std.specs.Str.{chars};
ghost use Rattle.bidi_base.specs.AnalysedText.{IsLineOf, IsTextOfLine, StaysInOrder};

use super::LineText;
use super::reversed_utf8::{are_short, reverse_text};
use crate::analysed::Analysed;
use bidi_base::level::Level;
use bidi_text::text::{StrText, TextSource};
use std::alloc::{AllocError, Global};
use std::borrow::CowStr;
use std::ops::Range;

// Writes the characters of a text in reverse order, one by one.
fn write_chars_reversed(text: &str, out: &mut [u8])
    requires { length out.old ≡ length text.now }
    ensures { out.new ≡ flat_map encode_utf8 (reverse (chars text.now)) }
{
    let mut at = 0;
    for c in text.chars().rev() {
        let end = at + c.len_utf8();
        out[at..end].copy_from_slice(c.encode_utf8(&mut [0; 4]).as_bytes());
        at = end;
    }
}

impl<'t> LineText for StrText<'t> {
    type Unit = u8;

    ghost units_of = { λ t. t.text.now };

    ghost encode = { encode_utf8 };

    fn copy_run(self, run: Range<usize>, out: &mut [u8]) {
        let bytes = self.as_str().as_bytes();
        out.copy_from_slice(&bytes[run]);
    }

    fn reverse_run(self, run: Range<usize>, out: &mut [u8]) {
        let text = self.subrange(run).as_str();
        let bytes = text.as_bytes();
        if are_short(bytes) {
            reverse_text(bytes, out);
        } else {
            write_chars_reversed(text, out);
        }
    }
}

impl<'t> Analysed<StrText<'t>> {
    ghost use Rattle.bidi_lines.specs.Analysed.{analysed, text_of};

    /// Returns the text of a line of UTF-8 from left to right: its characters in the order of L2, by their levels after
    /// L1.
    ///
    /// The result is borrowed exactly if no level of the line is odd after L1. Takes time linear in the line.
    pub fn reorder_line(
        &self,
        alloc: Global,
        para_level: Level,
        line: Range<usize>,
    ) -> Result<CowStr<'t>, AllocError>
        requires { IsLineOf (analysed self.now) line }
        ensures text { IfOk result (λ c. IsTextOfLine encode_utf8 (text_of self.now).text.now (analysed self.now)
            para_level line (cow_str_bytes c)) }
        ensures borrowed { IfOk result (λ c. IsBorrowedStr c ↔ StaysInOrder (analysed self.now) para_level line) }
    {
        let text = self.text().as_str();
        let units = line.start..line.end;
        match self.reversed_line(alloc, para_level, units, 0)? {
            // This skips the test for UTF-8: the proof shows that the bytes are UTF-8.
            Some(reversed) => Ok(CowStr::Owned(unsafe { String::from_utf8_unchecked(reversed) })),
            None => Ok(CowStr::Borrowed(&text[line])),
        }
    }
}
