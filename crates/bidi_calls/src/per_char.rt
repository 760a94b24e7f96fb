//! Tests whether the classes and levels of a line's code units are equal within each character.
ghost use Rattle.std.specs.Prelude.{◌≡◌, ◌+◌, ◌-◌, ◌<◌, ◌&&◌, ◌↔◌, IsTrue, length, map};
ghost use Rattle.std.specs.Char.{len_utf8};
ghost use Rattle.std.specs.List.{list_all};
ghost use Rattle.std.specs.Str.{chars};
ghost use Rattle.bidi_base.specs.contracts.char_data.BidiClassPartialEq.TheImpl.{ghosts as class_test};
ghost use Rattle.bidi_base.specs.contracts.level.LevelPartialEq.TheImpl.{ghosts as level_test};
ghost use Rattle.bidi_base.specs.Text.{is_per_char};
ghost use Rattle.bidi_base.specs.Utf16.{is_pair as is_pair_of, splits_pair, utf16_text, utf16_len};
ghost use Rattle.bidi_calls.specs.PerChar.{differs_at, AgreesAt, AgreeBetween};
ghost use Rattle.bidi_numbers.specs.Numbers.{class_numbered, is_class};
ghost use Rattle.bidi_numbers.specs.Texts.{goes_on};

use bidi_base::search::{Tested, first_passing};
use unicode_bidi::text::are_characters;

/// The bytes of a text after the first one, with a test for those that continue a character and have another class or
/// level than the byte before them.
#[derive(Clone, Copy, Debug)]
struct Differing<'t> {
    bytes: &'t [u8],
    classes: &'t [u8],
    levels: &'t [u8],
    ghost class_per_byte: { length classes.now ≡ length bytes.now },
    ghost level_per_byte: { length levels.now ≡ length bytes.now },
}

impl<'t> Tested for Differing<'t> {
    ghost count = { λ text. length text.bytes.now - 1 };

    ghost passes = { λ text index. differs_at (goes_on text.bytes.now (index + 1)) text.classes.now text.levels.now (index + 1) };

    fn len(self) -> usize {
        self.bytes.len().saturating_sub(1)
    }

    fn passes(self, index: usize) -> bool {
        let byte = self.bytes[index + 1];
        let other_class = self.classes[index + 1] != self.classes[index];
        let other_level = self.levels[index + 1] != self.levels[index];
        (0x80 <= byte) & (byte < 0xC0) & (other_class | other_level)
    }
}

/// Returns whether the classes and levels of a text's bytes are equal within each character.
///
/// There is one class and one level for each byte, and each class is a number below 23. Takes time linear in the text:
/// reads sixteen bytes at a time, and decodes none.
pub fn is_per_char_utf8(text: &str, classes: &[u8], levels: &[u8]) -> bool
    requires classes_same_len { length classes.now ≡ length text.now }
    requires levels_same_len { length levels.now ≡ length text.now }
    requires numbers { IsTrue (list_all is_class classes.now) }
    ensures { result
        ≡ (is_per_char class_test.eq len_utf8 (chars text.now) (map class_numbered classes.now)
        && is_per_char level_test.eq len_utf8 (chars text.now) levels.now) }
{
    let differing = Differing {
        bytes: text.as_bytes(),
        classes,
        levels,
    };
    let len = differing.len();
    first_passing(differing, 0, 0, len) == len
}

// Returns whether two code units are a high and a low surrogate.
fn is_pair(high: u16, low: u16) -> bool
    ensures { result ≡ is_pair_of high low }
{
    (0xD800 <= high && high < 0xDC00) && (0xDC00 <= low && low < 0xE000)
}

// Returns whether a code unit that continues a character has the class and the level of the code unit before it.
fn agrees_at(goes_on: bool, classes: &[u8], levels: &[u8], at: usize) -> bool
    requires before { 0 < at }
    requires classes { at < length classes.now }
    requires levels { at < length levels.now }
    ensures { IsTrue result ↔ AgreesAt goes_on classes.now levels.now at }
{
    !goes_on | (classes[at] == classes[at - 1]) & (levels[at] == levels[at - 1])
}

// Returns whether each code unit that ends a surrogate pair has the class and the level of the code unit before it.
fn is_per_char_by_units(units: &[u16], classes: &[u8], levels: &[u8]) -> bool
    requires classes_same_len { length classes.now ≡ length units.now }
    requires levels_same_len { length levels.now ≡ length units.now }
    ensures { IsTrue result ↔ AgreeBetween (splits_pair units.now) classes.now levels.now 1 (length units.now) }
{
    let mut agree = true;
    for at in 1..units.len() {
        agree &= agrees_at(is_pair(units[at - 1], units[at]), classes, levels, at);
    }
    agree
}

/// Returns whether the classes and levels of a UTF-16 text's code units are equal within each character.
///
/// There is one class and one level for each code unit, and each class is a number below 23. Only a low surrogate
/// directly after a high one continues a character. Most texts have no surrogates, so this is tested first. Takes time
/// linear in the text.
pub fn is_per_char_utf16(units: &[u16], classes: &[u8], levels: &[u8]) -> bool
    requires classes_same_len { length classes.now ≡ length units.now }
    requires levels_same_len { length levels.now ≡ length units.now }
    requires numbers { IsTrue (list_all is_class classes.now) }
    ensures { result
        ≡ (is_per_char class_test.eq utf16_len (utf16_text units.now) (map class_numbered classes.now)
        && is_per_char level_test.eq utf16_len (utf16_text units.now) levels.now) }
{
    if are_characters(units) {
        return true;
    }
    is_per_char_by_units(units, classes, levels)
}
