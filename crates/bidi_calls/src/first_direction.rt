//! The base direction of a text (P2, P3), read only up to the character that decides it.
ghost use Rattle.std.specs.Prelude.{◌≡◌, ◌≤◌, ℕ, length, take, true, IsUtf8};
ghost use Rattle.std.specs.Str.{chars};
ghost use Rattle.std.specs.Str.Lossy.{utf8_valid_len};
ghost use Rattle.std.specs.List.{list_all};
ghost use Rattle.bidi_calls.specs.FirstDirection.{is_decided, first_direction_utf8, first_direction_utf32};
ghost use Rattle.bidi_numbers.specs.Numbers.{direction_in};
ghost use Rattle.bidi_numbers.specs.Texts.{is_scalar};

use crate::analysis::number_of_direction;
use bidi_numbers::fault::Fault;
use bidi_numbers::texts::{char_of, is_scalar};
use unicode_bidi::direction_search::{DirectionSearch, search_class, search_direction};
use unicode_bidi::text::StrText;
use unicode_bidi::{BidiDataSource, Direction};

// How many bytes are tested for UTF-8, and then searched, at a time.
const PIECE: usize = 64;

// Returns the longest text at the front of some bytes.
fn text_front(bytes: &[u8]) -> &str
    ensures { result.now ≡ take (utf8_valid_len bytes.now) bytes.now }
{
    match bytes.utf8_chunks().next() {
        Some(chunk) => chunk.valid(),
        None => "",
    }
}

/// Returns the number of the base direction of a text of UTF-8 (P2, P3): 0 for left to right, 1 for right to left, 2
/// for mixed.
///
/// Without `full` it is that of the first paragraph, and with `full` that of the first paragraph that has one. Stops at
/// the character that decides, and without `full` also at the end of the first paragraph. Returns `NotUtf8` only if
/// bytes that are not UTF-8 come before that. Tests up to 64 bytes at a time, and does not allocate.
pub fn first_direction_utf8<D: BidiDataSource>(
    data_source: &D,
    text: &[u8],
    full: bool,
) -> Result<usize, Fault>
    ensures direction { result ≡ first_direction_utf8 (D.source data_source.now) full text.now }

    // For valid UTF-8, the result is the base direction.
    ensures valid { IsUtf8 text.now → result ≡ Ok (direction_in (D.source data_source.now) full (chars text.now)) }

    // The bytes after those that decide do not matter.
    ensures decided { let source = D.source data_source.now in
        (n : ℕ) → n ≤ length text.now → IsUtf8 (take n text.now)
        → is_decided source full (chars (take n text.now)) ≡ true
        → result ≡ Ok (direction_in source full (chars (take n text.now))) }
{
    let mut rest = text;
    let mut depth = 0;
    while !rest.is_empty() {
        let front = text_front(&rest[..rest.len().min(PIECE)]);
        if front.is_empty() {
            return Err(Fault::NotUtf8);
        }
        match search_direction(data_source, StrText::new(front), depth, full) {
            DirectionSearch::Found(direction) => return Ok(number_of_direction(direction)),
            DirectionSearch::Open(now) => depth = now,
        }
        rest = &rest[front.len()..];
    }
    Ok(number_of_direction(Direction::Mixed))
}

/// Returns the number of the base direction of a list of characters (P2, P3): 0 for left to right, 1 for right to left,
/// 2 for mixed.
///
/// Without `full` it is that of the first paragraph, and with `full` that of the first paragraph that has one. Stops at
/// the character that decides, and without `full` also at the end of the first paragraph. Returns `NotScalar` only if a
/// number that is not a scalar value comes before that. Does not allocate.
pub fn first_direction_utf32<D: BidiDataSource>(
    data_source: &D,
    text: &[u32],
    full: bool,
) -> Result<usize, Fault>
    ensures direction { result ≡ first_direction_utf32 (D.source data_source.now) full text.now }

    // If all numbers are scalar values, the result is the base direction.
    ensures valid { list_all is_scalar text.now ≡ true
        → result ≡ Ok (direction_in (D.source data_source.now) full text.now) }

    // The characters after those that decide do not matter.
    ensures decided { let source = D.source data_source.now in
        (n : ℕ) → list_all is_scalar (take n text.now) ≡ true → is_decided source full (take n text.now) ≡ true
        → result ≡ Ok (direction_in source full (take n text.now)) }
{
    let mut depth = 0;
    for number in text {
        if !is_scalar(*number) {
            return Err(Fault::NotScalar);
        }
        match search_class(data_source.bidi_class(char_of(*number)), depth, full) {
            DirectionSearch::Found(direction) => return Ok(number_of_direction(direction)),
            DirectionSearch::Open(now) => depth = now,
        }
    }
    Ok(number_of_direction(Direction::Mixed))
}
