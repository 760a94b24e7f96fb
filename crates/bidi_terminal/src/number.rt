//! Numbers, read and written.
ghost use Rattle.std.specs.Prelude.{◌≡◌, ◌++◌, decimal, OnOk, string_bytes};
ghost use Rattle.std.specs.Char.{is_ascii_digit};
ghost use Rattle.std.specs.List.{list_all};
ghost use Rattle.bidi_terminal.specs.Numbers.{hex_digit, number_of};

use itoa::Buffer;
use std::alloc::AllocError;

// Returns whether an argument has only digits.
fn is_digits(word: &str) -> bool
    ensures { result ≡ list_all is_ascii_digit word.now }
{
    word.bytes().all(|byte| byte.is_ascii_digit())
}

/// Returns the number of one to three digits, with or without leading zeros. Returns `None` for any other argument.
pub fn parse_number(word: &str) -> Option<u16>
    ensures { result ≡ number_of word.now }
{
    if word.len() <= 3 && is_digits(word) {
        word.parse().ok()
    } else {
        None
    }
}

/// Appends a number in decimal.
pub fn push_number(out: &mut String, number: usize) -> Result<(), AllocError>
    ensures { OnOk result (string_bytes out.new ≡ string_bytes out.old ++ decimal number) }
{
    let mut digits = Buffer::new();
    out.push_str(digits.format(number))
}

/// Appends a number below 16 as a hexadecimal digit.
pub fn push_hex_digit(out: &mut String, digit: u32) -> Result<(), AllocError>
    ensures { OnOk result (string_bytes out.new ≡ string_bytes out.old ++ hex_digit digit) }
{
    out.push_str(match digit {
        0 => "0",
        1 => "1",
        2 => "2",
        3 => "3",
        4 => "4",
        5 => "5",
        6 => "6",
        7 => "7",
        8 => "8",
        9 => "9",
        10 => "A",
        11 => "B",
        12 => "C",
        13 => "D",
        14 => "E",
        _ => "F",
    })?;
    Ok(())
}
