//! Numbers of lines and columns, as in `FILE:LINE:COLUMN` and in the entries of allow-lists.
ghost use Rattle.std.specs.Prelude.{◌≡◌, ◌≤◌, length, true};
ghost use Rattle.std.specs.Char.{is_ascii_digit};
ghost use Rattle.std.specs.List.{list_all};
ghost use Rattle.std.specs.Str.Parse.{digits_value};
ghost use Rattle.bidi_reports.specs.LineNumbers.{is_digits, is_line_number, line_number};

// Returns whether a text has nothing but digits.
fn are_digits(text: &[u8]) -> bool
    ensures { result ≡ list_all is_ascii_digit text.now }
{
    text.iter().all(|byte| byte.is_ascii_digit())
}

/// Returns whether a text has one digit at least, and nothing else.
pub fn is_digits(text: &[u8]) -> bool
    ensures { result ≡ is_digits text.now }
{
    !text.is_empty() && are_digits(text)
}

/// Returns whether a text is the number of a line, counted from 1: one to nine digits, of which the first is not 0. A column
/// is written in the same way.
pub fn is_line_number(text: &[u8]) -> bool
    ensures { result ≡ is_line_number text.now }
{
    !text.is_empty() && text.len() <= 9 && text[0] != b'0' && are_digits(text)
}

// Returns the number that digits write. There are few enough of them that it fits.
fn value_of(digits: &[u8]) -> usize
    requires digits { list_all is_ascii_digit digits.now ≡ true }
    requires short { length digits.now ≤ 9 }
    ensures { result ≡ digits_value 10 digits.now }
{
    let mut number = 0;
    for digit in digits {
        number = number * 10 + usize::from(*digit - b'0');
    }
    number
}

/// Returns the number of a line that a text is, or `None` if it is none.
pub fn line_number(text: &[u8]) -> Option<usize>
    ensures { result ≡ line_number text.now }
{
    if is_line_number(text) {
        Some(value_of(text))
    } else {
        None
    }
}
