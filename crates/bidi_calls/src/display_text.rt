//! Texts whose characters can be appended to a list of code units.
ghost use Rattle.std.specs.Prelude.{◌≡◌, ◌++◌, ◌∷◌, [], IsTrue, encode_utf8, flat_map, OnOk};
ghost use Rattle.std.specs.Char.Escape.{encode_utf16};
ghost use Rattle.std.specs.Str.{chars};
ghost use Rattle.bidi_base.specs.Utf16.{utf16_text};

use crate::caller_text::CallerText;
use bidi_numbers::utf32_text::Utf32Text;
use std::alloc::AllocError;
use unicode_bidi::text::{StrText, Utf16Text, are_characters};

/// A text of a caller, in an encoding in which characters can be appended to a list.
pub trait DisplayText<'t>: CallerText<'t> {
    /// Appends the code units of a character. If an allocation fails, `out` may have some of them.
    fn push_char(c: char, out: &mut Vec<Self::Unit>) -> Result<(), AllocError>
        ensures { OnOk result (out.new.items ≡ out.old.items ++ Self.encode c) };

    /// Returns true only if the text's code units are those of its characters. Takes time at most linear in the text.
    fn is_well_formed(self) -> bool
        ensures { IsTrue result → Self.units_of self ≡ flat_map Self.encode (Self.text self).chars };
}

// Returns true: the bytes of a `str` are those of its characters.
fn is_utf8_of_characters(_text: &str) -> bool
    ensures { IsTrue result → _text.now ≡ flat_map encode_utf8 (chars _text.now) }
{
    true
}

impl<'t> DisplayText<'t> for StrText<'t> {
    fn push_char(c: char, out: &mut Vec<u8>) -> Result<(), AllocError>
        ensures { OnOk result (out.new.items ≡ out.old.items ++ encode_utf8 c) }
    {
        out.extend_from_slice(c.encode_utf8(&mut [0; 4]).as_bytes())
    }

    fn is_well_formed(self) -> bool {
        is_utf8_of_characters(self.as_str())
    }
}

// Returns true only if code units are those of their characters. Few texts have surrogates. So a text with surrogates is
// not read, even if each of them has its partner.
fn are_of_characters(units: &[u16]) -> bool
    ensures { IsTrue result → units.now ≡ flat_map encode_utf16 (utf16_text units.now) }
{
    are_characters(units)
}

impl<'t> DisplayText<'t> for Utf16Text<'t> {
    fn push_char(c: char, out: &mut Vec<u16>) -> Result<(), AllocError>
        ensures { OnOk result (out.new.items ≡ out.old.items ++ encode_utf16 c) }
    {
        out.extend_from_slice(c.encode_utf16(&mut [0; 2]))
    }

    fn is_well_formed(self) -> bool {
        are_of_characters(self.units())
    }
}

impl<'t> DisplayText<'t> for Utf32Text<'t> {
    fn push_char(c: char, out: &mut Vec<u32>) -> Result<(), AllocError>
        ensures { OnOk result (out.new.items ≡ out.old.items ++ (c ∷ [])) }
    {
        out.push(u32::from(c))?;
        Ok(())
    }

    fn is_well_formed(self) -> bool {
        true
    }
}
