//! How names and other arguments are written in a report.
ghost use Rattle.std.specs.Prelude.{◌≡◌, ◌++◌, IfOk, OnOk, string_bytes};
ghost use Rattle.std.specs.Str.{chars};
ghost use Rattle.bidi_terminal.specs.Names.{is_hidden, four_hex_digits, code_escape, byte_escape, shown_char, shown_name as shown_name_of, shown_byte, shown_bytes as shown_bytes_of};

use crate::push_hex_digit;
use std::alloc::{AllocError, Global};

/// Returns whether a character is hidden: it could end a line, control a terminal or change the order of a line.
pub fn is_hidden(c: char) -> bool
    ensures { result ≡ is_hidden c }
{
    matches!(
        c,
        '\0'..='\u{1F}'
            | '\u{7F}'..='\u{9F}'
            | '\u{61C}'
            | '\u{200E}'..='\u{200F}'
            | '\u{2028}'..='\u{202E}'
            | '\u{2066}'..='\u{2069}'
    )
}

/// Appends the last four hexadecimal digits of a code point.
#[tactic(auto, unfolding(crate::specs::Names::four_hex_digits))]
pub fn push_hex(out: &mut String, c: char) -> Result<(), AllocError>
    ensures { OnOk result (string_bytes out.new ≡ string_bytes out.old ++ four_hex_digits c) }
{
    let code = u32::from(c);
    push_hex_digit(out, code / 0x1000 % 16)?;
    push_hex_digit(out, code / 0x100 % 16)?;
    push_hex_digit(out, code / 0x10 % 16)?;
    push_hex_digit(out, code % 16)?;
    Ok(())
}

/// Returns the characters of a text.
pub fn chars_of(alloc: Global, text: &str) -> Result<Vec<char>, AllocError>
    ensures { IfOk result (λ v. v.items ≡ chars text.now) }
{
    text.chars().collect(alloc)
}

/// Appends a character by its code point.
fn push_code(out: &mut String, c: char) -> Result<(), AllocError>
    ensures { OnOk result (string_bytes out.new ≡ string_bytes out.old ++ code_escape c) }
{
    out.push_str("\\u{")?;
    push_hex(out, c)?;
    out.push_str("}")
}

/// Appends a byte by its number.
fn push_number_of_byte(out: &mut String, byte: u8) -> Result<(), AllocError>
    ensures { OnOk result (string_bytes out.new ≡ string_bytes out.old ++ byte_escape byte) }
{
    out.push_str("\\x")?;
    push_hex_digit(out, u32::from(byte / 16))?;
    push_hex_digit(out, u32::from(byte % 16))
}

/// Appends a character of a name.
fn push_char(out: &mut String, c: char) -> Result<(), AllocError>
    ensures { OnOk result (string_bytes out.new ≡ string_bytes out.old ++ shown_char c) }
{
    if c == '\\' {
        return out.push_str("\\\\");
    }
    if is_hidden(c) {
        return push_code(out, c);
    }
    out.push(c)
}

/// Appends the characters of a name.
fn push_name(out: &mut String, chars: &[char]) -> Result<(), AllocError>
    ensures { OnOk result (string_bytes out.new ≡ string_bytes out.old ++ shown_name_of chars.now) }
{
    for c in chars {
        push_char(out, *c)?;
    }
    Ok(())
}

/// Returns a name for a report. Each hidden character is written by its code point, as in `\u{202E}`, and each
/// backslash is doubled. Returns an error if an allocation fails.
pub fn shown_name(alloc: Global, name: &str) -> Result<String, AllocError>
    ensures { IfOk result (λ out. string_bytes out ≡ shown_name_of (chars name.now)) }
{
    let chars = chars_of(alloc, name)?;
    let mut out = String::new(alloc);
    push_name(&mut out, chars.as_slice())?;
    Ok(out)
}

/// Appends a byte of a name that is not UTF-8.
fn push_byte(out: &mut String, byte: u8) -> Result<(), AllocError>
    ensures { OnOk result (string_bytes out.new ≡ string_bytes out.old ++ shown_byte byte) }
{
    if byte == b'\\' {
        return out.push_str("\\\\");
    }
    if matches!(byte, 0x20..=0x7E) {
        out.push(char::from(byte))?;
        return Ok(());
    }
    push_number_of_byte(out, byte)
}

/// Returns a name that is not UTF-8, for a report. Each byte that is not a visible character of ASCII or a space is
/// written as in `\xFF`, and each backslash is doubled. Returns an error if an allocation fails.
pub fn shown_bytes(alloc: Global, bytes: &[u8]) -> Result<String, AllocError>
    ensures { IfOk result (λ out. string_bytes out ≡ shown_bytes_of bytes.now) }
{
    let mut out = String::new(alloc);
    for byte in bytes {
        push_byte(&mut out, *byte)?;
    }
    Ok(out)
}
