//! The exports over characters by themselves: their classes, their brackets, their mirrored partners, and the base
//! direction of classes.
use crate::mirroring::partner_or_self;
use bidi_calls::characters::{
    Brackets, Classes, base_direction_of_classes, bracket_number_of, class_number_of, numbers,
};
use bidi_numbers::fault::answer;
use bidi_numbers::utf32_text::Utf32Text;
use bidi_unicode::UnicodeData;
use unicode_bidi::text::{StrText, Utf16Text};

#[unsafe(no_mangle)]
pub extern "C" fn unicode_bidi_class_of(character: u32) -> i64 {
    answer(class_number_of(&UnicodeData, character))
}

#[unsafe(no_mangle)]
pub extern "C" fn unicode_bidi_bracket_of(character: u32) -> i64 {
    answer(bracket_number_of(&UnicodeData, character))
}

#[unsafe(no_mangle)]
pub extern "C" fn unicode_bidi_mirrored(character: u32) -> i64 {
    answer(partner_or_self(character))
}

#[unsafe(no_mangle)]
pub extern "C" fn unicode_bidi_classes_utf8(text: &[u8], classes: &mut [u8]) -> i64 {
    answer(numbers::<StrText, _, _>(&UnicodeData, Classes, text, classes))
}

#[unsafe(no_mangle)]
pub extern "C" fn unicode_bidi_classes_utf16(text: &[u16], classes: &mut [u8]) -> i64 {
    answer(numbers::<Utf16Text, _, _>(&UnicodeData, Classes, text, classes))
}

#[unsafe(no_mangle)]
pub extern "C" fn unicode_bidi_classes_utf32(text: &[u32], classes: &mut [u8]) -> i64 {
    answer(numbers::<Utf32Text, _, _>(&UnicodeData, Classes, text, classes))
}

#[unsafe(no_mangle)]
pub extern "C" fn unicode_bidi_brackets_utf8(text: &[u8], brackets: &mut [u32]) -> i64 {
    answer(numbers::<StrText, _, _>(&UnicodeData, Brackets, text, brackets))
}

#[unsafe(no_mangle)]
pub extern "C" fn unicode_bidi_brackets_utf16(text: &[u16], brackets: &mut [u32]) -> i64 {
    answer(numbers::<Utf16Text, _, _>(&UnicodeData, Brackets, text, brackets))
}

#[unsafe(no_mangle)]
pub extern "C" fn unicode_bidi_brackets_utf32(text: &[u32], brackets: &mut [u32]) -> i64 {
    answer(numbers::<Utf32Text, _, _>(&UnicodeData, Brackets, text, brackets))
}

#[unsafe(no_mangle)]
pub extern "C" fn unicode_bidi_base_direction_of_classes(classes: &[u8], full: u8) -> i64 {
    answer(base_direction_of_classes(classes, full != 0))
}
