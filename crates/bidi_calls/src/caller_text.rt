//! The texts that callers pass, in each encoding.
ghost use Rattle.std.specs.Prelude.{◌≡◌, ℕ, Bool, ◌&&◌, List, Option, None, IsTrue, IfOk, false, length, map};
ghost use Rattle.std.specs.List.{list_all};
ghost use Rattle.std.specs.Result.{result_err};
ghost use Rattle.std.specs.Str.{chars};
ghost use Rattle.bidi_base.specs.contracts.char_data.BidiClassPartialEq.TheImpl.{ghosts as class_test};
ghost use Rattle.bidi_base.specs.contracts.level.LevelPartialEq.TheImpl.{ghosts as level_test};
ghost use Rattle.bidi_base.specs.Texts.{text_len, is_per_char};
ghost use Rattle.bidi_base.specs.Utf16.{utf16_text};
ghost use Rattle.bidi_calls.specs.CallerText.{IsTextOf, utf8_fault, utf32_fault, cuts_utf16};
ghost use Rattle.bidi_numbers.specs.declared.fault.Fault.{Fault};
ghost use Rattle.bidi_numbers.specs.Numbers.{class_numbered, is_class};
ghost use Rattle.bidi_numbers.specs.Texts.{goes_on};

use crate::counted::CountedText;
use crate::per_char::{is_per_char_utf8, is_per_char_utf16};
use bidi_numbers::fault::{Fault, check};
use bidi_numbers::texts::{all_scalar, goes_on, utf8};
use bidi_numbers::utf32_text::Utf32Text;
use unicode_bidi::text::{StrText, TextSource, Utf16Text};

/// A text that is read from the code units that a caller passes.
///
/// These may be any numbers, so they need not be a text. What depends on the encoding of a call's text is here, and each
/// call over texts is written once, over this trait.
pub trait CallerText<'t>: CountedText {
    /// The fault of ill-formed code units.
    ghost fault_of: { List Self.Unit → Option Fault };

    /// The characters of code units that are a text.
    ghost chars_of: { List Self.Unit → List ℕ };

    /// Whether a line that begins or ends at an index cuts a character.
    ghost cuts_at: { List Self.Unit → ℕ → Bool };

    /// Returns the text of some code units, or their fault. Does not allocate.
    fn read(units: &'t [Self::Unit]) -> Result<Self, Fault>
        ensures fault { result_err result ≡ fault_of units.now }
        ensures text { IfOk result (λ text. IsTextOf units.now (chars_of units.now) (Self.text text) (Self.units_of text)) };

    /// Returns whether a line that begins or ends at an index cuts a character of the text.
    fn cuts_at(units: &[Self::Unit], index: usize) -> bool
        ensures { result ≡ cuts_at units.now index };

    /// Returns whether the classes and levels of the text's code units are equal within each character.
    ///
    /// There is one class and one level for each code unit, and each class is a number below 23. Takes time linear in
    /// the text.
    fn is_per_char(self, classes: &[u8], levels: &[u8]) -> bool
        requires classes_same_len { length classes.now ≡ text_len (Self.text self) }
        requires levels_same_len { length levels.now ≡ text_len (Self.text self) }
        requires numbers { IsTrue (list_all is_class classes.now) }
        ensures { result
            ≡ (is_per_char class_test.eq (Self.text self) (map class_numbered classes.now)
            && is_per_char level_test.eq (Self.text self) levels.now) };
}

impl<'t> CallerText<'t> for StrText<'t> {
    ghost fault_of = { utf8_fault };

    ghost chars_of = { chars };

    ghost cuts_at = { goes_on };

    fn read(units: &'t [u8]) -> Result<StrText<'t>, Fault> {
        Ok(StrText::new(utf8(units)?))
    }

    fn cuts_at(units: &[u8], index: usize) -> bool
        ensures { result ≡ goes_on units.now index }
    {
        goes_on(units, index)
    }

    fn is_per_char(self, classes: &[u8], levels: &[u8]) -> bool {
        is_per_char_utf8(self.as_str(), classes, levels)
    }
}

impl<'t> CallerText<'t> for Utf16Text<'t> {
    ghost fault_of = { λ _. None };

    ghost chars_of = { utf16_text };

    ghost cuts_at = { cuts_utf16 };

    fn read(units: &'t [u16]) -> Result<Utf16Text<'t>, Fault> {
        Ok(Utf16Text::new(units))
    }

    fn cuts_at(units: &[u16], index: usize) -> bool
        ensures { result ≡ cuts_utf16 units.now index }
    {
        !Utf16Text::new(units).is_boundary(index)
    }

    fn is_per_char(self, classes: &[u8], levels: &[u8]) -> bool {
        is_per_char_utf16(self.units(), classes, levels)
    }
}

impl<'t> CallerText<'t> for Utf32Text<'t> {
    ghost fault_of = { utf32_fault };

    ghost chars_of = { λ units. units };

    ghost cuts_at = { λ _ _. false };

    fn read(units: &'t [u32]) -> Result<Utf32Text<'t>, Fault> {
        check(all_scalar(units), Fault::NotScalar)?;
        Ok(Utf32Text::new(units))
    }

    // Each code unit is a character.
    fn cuts_at(_units: &[u32], _index: usize) -> bool
        ensures { result ≡ false }
    {
        false
    }

    // Each code unit is a character.
    fn is_per_char(self, _classes: &[u8], _levels: &[u8]) -> bool {
        true
    }
}
