//! The characters that the bytes of a file encode.
ghost use Rattle.std.specs.Prelude.{◌≡◌, ◌≤◌, false, true, length, IfOk, IfSome, MatchOption, string_bytes};
ghost use Rattle.std.specs.Str.{chars};
ghost use Rattle.bidi_controls.specs.Decoded.{unit_of, units_of, utf8_decoded, utf16_decoded, decoded, utf8_fault, prefix_of, is_binary, is_utf16};

use std::alloc::{AllocError, Global};

/// How many bytes of a file decide whether it is binary.
pub const BINARY_PREFIX: usize = 8000;

/// Returns a code unit of UTF-16, from its bytes.
fn unit_of(high_first: bool, first: u8, second: u8) -> u16
    ensures { result ≡ unit_of high_first first second }
{
    let (high, low) = if high_first {
        (first, second)
    } else {
        (second, first)
    };
    u16::from(high) * 256 + u16::from(low)
}

/// Returns the code units of UTF-16 that bytes encode. A byte that is left over is U+FFFD.
fn units_of(alloc: Global, high_first: bool, bytes: &[u8]) -> Result<Vec<u16>, AllocError>
    ensures { IfOk result (λ units. units.items ≡ units_of high_first bytes.now) }
{
    let mut units = Vec::new(alloc);
    let mut rest = bytes;
    while let [first, second, after @ ..] = rest {
        units.push(unit_of(high_first, *first, *second))?;
        rest = after;
    }
    if !rest.is_empty() {
        units.push(0xFFFD)?;
    }
    Ok(units)
}

/// Returns the characters of a text.
fn chars_of(alloc: Global, text: &str) -> Result<Vec<char>, AllocError>
    ensures { IfOk result (λ v. v.items ≡ chars text.now) }
{
    text.chars().collect(alloc)
}

/// Returns the text of UTF-16.
fn text_of_utf16(alloc: Global, high_first: bool, bytes: &[u8]) -> Result<String, AllocError>
    ensures { IfOk result (λ text. chars (string_bytes text) ≡ utf16_decoded high_first bytes.now) }
{
    let units = units_of(alloc, high_first, bytes)?;
    let text = String::from_utf16_lossy(alloc, units.as_slice())?;
    Ok(text)
}

/// Returns the text of a file that begins with a byte order mark of UTF-16. Returns `None` for any other file.
///
/// The text has U+FFFD for each surrogate that has no partner, and for a byte that is left over. The byte order mark is
/// not in the text. Returns an error if an allocation fails.
pub fn utf16_text(alloc: Global, bytes: &[u8]) -> Result<Option<String>, AllocError>
    ensures { IfOk result (λ text. MatchOption text (is_utf16 bytes.now ≡ false)
        (λ text. (is_utf16 bytes.now ≡ true) × (chars (string_bytes text) ≡ decoded bytes.now))) }
{
    match bytes {
        [0xFF, 0xFE, rest @ ..] => Ok(Some(text_of_utf16(alloc, false, rest)?)),
        [0xFE, 0xFF, rest @ ..] => Ok(Some(text_of_utf16(alloc, true, rest)?)),
        _ => Ok(None),
    }
}

/// Returns the characters of UTF-8, with U+FFFD for each sequence of bytes that is not UTF-8.
///
/// The bytes are divided into sequences as `String::from_utf8_lossy` of Rust does. Returns an error if an allocation
/// fails.
pub fn utf8_decoded(alloc: Global, bytes: &[u8]) -> Result<Vec<char>, AllocError>
    ensures { IfOk result (λ v. v.items ≡ utf8_decoded bytes.now) }
{
    let text = String::from_utf8_lossy(alloc, bytes)?;
    chars_of(alloc, text.as_str())
}

/// Returns whether a file begins with a byte order mark of UTF-16.
pub fn is_utf16(bytes: &[u8]) -> bool
    ensures { result ≡ is_utf16 bytes.now }
{
    matches!(bytes, [0xFF, 0xFE, ..] | [0xFE, 0xFF, ..])
}

/// Returns the index of the first byte that is not UTF-8, or `None` if all bytes are UTF-8.
pub fn utf8_fault(bytes: &[u8]) -> Option<usize>
    ensures fault { result ≡ utf8_fault bytes.now }
    ensures within { IfSome result (λ at. at ≤ length bytes.now) }
{
    match simdutf8::compat::from_utf8(bytes) {
        Ok(_) => None,
        Err(error) => Some(error.valid_up_to()),
    }
}

/// Returns the bytes of a file that decide whether it is binary.
fn prefix_of(bytes: &[u8]) -> &[u8]
    ensures { result.now ≡ prefix_of bytes.now }
{
    &bytes[..BINARY_PREFIX.min(bytes.len())]
}

/// Returns whether a file is binary: a NUL is among its first [`BINARY_PREFIX`] bytes, and it is not UTF-16.
pub fn is_binary(bytes: &[u8]) -> bool
    ensures { result ≡ is_binary bytes.now }
{
    !is_utf16(bytes) && prefix_of(bytes).contains(&0)
}
