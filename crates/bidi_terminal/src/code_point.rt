//! Code points, written.
ghost use Rattle.std.specs.Prelude.{◌≡◌, ◌++◌, ◌<◌, OnOk, string_bytes};
ghost use Rattle.bidi_terminal.specs.CodePoints.{leading_digit, code_point};

use crate::push_hex_digit;
use std::alloc::AllocError;

/// Appends the hexadecimal digit of a number at the power `worth` of 16, unless the number is below `worth`.
fn push_leading_digit(out: &mut String, code: u32, worth: u32) -> Result<(), AllocError>
    requires { 0 < worth }
    ensures { OnOk result (string_bytes out.new ≡ string_bytes out.old ++ leading_digit worth code) }
{
    if worth <= code {
        push_hex_digit(out, code / worth % 16)?;
    }
    Ok(())
}

/// Appends the code point of a character in hexadecimal, with at least four digits, as Unicode writes it after `U+`.
/// Returns an error if an allocation fails. Then `out` may have a part of it.
#[tactic(auto, unfolding(crate::specs::CodePoints::code_point))]
pub fn push_code_point(out: &mut String, c: char) -> Result<(), AllocError>
    ensures { OnOk result (string_bytes out.new ≡ string_bytes out.old ++ code_point c) }
{
    let code = u32::from(c);
    push_leading_digit(out, code, 0x10_0000)?;
    push_leading_digit(out, code, 0x1_0000)?;
    push_hex_digit(out, code / 0x1000 % 16)?;
    push_hex_digit(out, code / 0x100 % 16)?;
    push_hex_digit(out, code / 0x10 % 16)?;
    push_hex_digit(out, code % 16)?;
    Ok(())
}
