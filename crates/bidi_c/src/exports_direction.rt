//! The exports that return the base direction of a text, and stop at the character that decides it.
use bidi_calls::analysis::base_direction;
use bidi_calls::first_direction::{first_direction_utf8, first_direction_utf32};
use bidi_numbers::fault::answer;
use bidi_unicode::UnicodeData;
use unicode_bidi::text::Utf16Text;

#[unsafe(no_mangle)]
pub extern "C" fn unicode_bidi_first_direction_utf8(text: &[u8], full: u8) -> i64 {
    answer(first_direction_utf8(&UnicodeData, text, full != 0))
}

// UTF-16 has no faults, so this call too stops at the character that decides.
#[unsafe(no_mangle)]
pub extern "C" fn unicode_bidi_first_direction_utf16(text: &[u16], full: u8) -> i64 {
    answer(base_direction::<Utf16Text, _>(&UnicodeData, text, full != 0))
}

#[unsafe(no_mangle)]
pub extern "C" fn unicode_bidi_first_direction_utf32(text: &[u32], full: u8) -> i64 {
    answer(first_direction_utf32(&UnicodeData, text, full != 0))
}
