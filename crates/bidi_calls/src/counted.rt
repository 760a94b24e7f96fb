//! Texts that count their characters.
ghost use Rattle.std.specs.Prelude.{◌≡◌, ℕ, ◌≤◌, length, refl};
ghost use Rattle.std.specs.List.{count_by};
ghost use Rattle.std.proofs.lemmas.Str.{length-encode};
ghost use Rattle.std.specs.Str.{chars};
ghost use Rattle.bidi_base.specs.Texts.{text_len};
ghost use Rattle.bidi_base.specs.Utf16.{utf16_text};
ghost use Rattle.bidi_calls.specs.CallerText.{length-encode_utf16};
ghost use Rattle.bidi_calls.specs.LineParts.{begins_character, AreCharsIf};
ghost use Rattle.bidi_calls.specs.declared.counted.TheConstants.{FEW_BYTES};

use bidi_lines::line_text::LineText;
use bidi_numbers::utf32_text::Utf32Text;
use unicode_bidi::text::{StrText, TextSource, Utf16Text, are_characters};

/// A text that can count its characters.
pub trait CountedText: LineText {
    /// Returns how many characters the text has. Takes time at most linear in the text, and does not allocate.
    fn count_characters(self) -> usize
        ensures { result ≡ length (Self.text self).chars };

    /// Returns true only if each code unit is a character. Returns false if the text would have to be read first.
    fn has_one_unit_each(self) -> bool
        ensures { AreCharsIf result Self.encoding.len_of (Self.text self).chars }
    {
        false
    }

    /// A character is encoded with as many code units as it has.
    ghost encoded: { (c : ℕ) → length (Self.encode c) ≡ Self.encoding.len_of c };
}

// Returns whether a byte of UTF-8 begins a character.
fn begins(byte: u8) -> bool
    ensures { result ≡ begins_character byte }
{
    byte < 0x80 || 0xC0 <= byte
}

// The maximum number of bytes that can be counted in a byte.
const FEW_BYTES: usize = 255;

// Returns how many of a few bytes begin a character. The loop has no branch and counts in a byte, so it reads sixteen
// bytes at once.
fn count_few(bytes: &[u8]) -> u8
    requires { length bytes.now ≤ FEW_BYTES }
    ensures { result ≡ count_by begins_character bytes.now }
{
    let mut count = 0;
    for byte in bytes {
        count += u8::from(begins(*byte));
    }
    count
}

// Returns how many characters a text has.
fn count_utf8(text: &str) -> usize
    ensures { result ≡ length (chars text.now) }
{
    let mut rest = text.as_bytes();
    let mut count = 0;
    while rest.len() > FEW_BYTES {
        let (front, back) = rest.split_at(FEW_BYTES);
        count += usize::from(count_few(front));
        rest = back;
    }
    count + usize::from(count_few(rest))
}

impl<'t> CountedText for StrText<'t> {
    fn count_characters(self) -> usize {
        count_utf8(self.as_str())
    }

    ghost encoded = { length-encode };
}

// Returns how many characters a text of `units` code units has. Counts them one by one.
fn count_one_by_one<T: TextSource>(text: T, units: usize) -> usize
    requires { units ≡ text_len (T.text text) }
    ensures { result ≡ length (T.text text).chars }
{
    let mut count = 0;
    for (at, _) in text.indices_lengths() {
        count += 1;
    }
    count
}

// Returns how many characters a text has. Most texts have no surrogates, so each code unit is a character.
fn count_utf16(units: &[u16]) -> usize
    ensures { result ≡ length (utf16_text units.now) }
{
    if are_characters(units) {
        return units.len();
    }
    count_one_by_one(Utf16Text::new(units), units.len())
}

impl<'t> CountedText for Utf16Text<'t> {
    fn count_characters(self) -> usize {
        count_utf16(self.units())
    }

    ghost encoded = { length-encode_utf16 };
}

impl<'t> CountedText for Utf32Text<'t> {
    fn count_characters(self) -> usize {
        self.numbers().len()
    }

    fn has_one_unit_each(self) -> bool {
        true
    }

    ghost encoded = { λ _. refl };
}
