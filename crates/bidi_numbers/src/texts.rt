//! Texts as callers in other languages pass them: bytes, code units and numbers of characters.
ghost use Rattle.std.specs.Prelude.{◌≡◌, ◌<◌, IsUtf8, MatchResult, true};
ghost use Rattle.std.specs.List.{list_all};
ghost use Rattle.bidi_numbers.specs.Texts.{is_scalar, goes_on};

use crate::fault::Fault;

/// Returns bytes as a text, or `NotUtf8` if they are not UTF-8. Reads all bytes, and does not allocate.
pub fn utf8(bytes: &[u8]) -> Result<&str, Fault>
    ensures { MatchResult result
        (λ text. (text.now ≡ bytes.now) × IsUtf8 bytes.now)
        (λ fault. (fault ≡ Fault.NotUtf8) × ¬ (IsUtf8 bytes.now)) }
{
    if !simdutf8::is_utf8(bytes) {
        return Err(Fault::NotUtf8);
    }
    // This skips a second test for UTF-8: the proof shows that the bytes are UTF-8. `from_utf8` of `simdutf8` needs no
    // `unsafe`, but it reads fewer than 64 bytes one by one, and lines are often that short.
    Ok(unsafe { std::str::from_utf8_unchecked(bytes) })
}

/// Returns whether the byte at an index continues a character of UTF-8. From the end on there is no byte, and this
/// returns false.
pub fn goes_on(bytes: &[u8], index: usize) -> bool
    ensures { result ≡ goes_on bytes.now index }
{
    index < bytes.len() && 0x80 <= bytes[index] && bytes[index] < 0xC0
}

/// Returns whether a number is a scalar value.
pub fn is_scalar(number: u32) -> bool
    ensures { result ≡ is_scalar number }
{
    number < 0xD800 || 0xE000 <= number && number <= 0x10FFFF
}

/// Returns whether each number is a scalar value. Reads all numbers, so that the loop needs no branch.
pub fn all_scalar(numbers: &[u32]) -> bool
    ensures { result ≡ list_all is_scalar numbers.now }
{
    let mut all = true;
    for number in numbers {
        all &= is_scalar(*number);
    }
    all
}

/// Returns the character with a scalar value.
pub fn char_of(number: u32) -> char
    requires { is_scalar number ≡ true }
    ensures { result ≡ number }
{
    match char::from_u32(number) {
        Some(c) => c,
        None => unreachable!(),
    }
}
