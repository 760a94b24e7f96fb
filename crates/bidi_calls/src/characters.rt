//! The calls for single characters and lists of classes: classes, brackets, and the base direction of classes.
//!
//! The number of a bracket is 0 if the character is no bracket. Otherwise it is the opening bracket of its pair in
//! normal form (BD16), plus `OPENING` if the character is an opening bracket.
ghost use Rattle.std.specs.Prelude.{◌≡◌, ℕ, nat_le, if◌then◌else◌, length, replicate};
ghost use Rattle.std.specs.List.{list_all};
ghost use Rattle.std.specs.Option.{option_or};
ghost use Rattle.std.specs.Result.{result_err};
ghost use Rattle.bidi_base.specs.Source.{Source};
ghost use Rattle.bidi_base.specs.Texts.{text_len};
ghost use Rattle.bidi_calls.specs.Characters.{bracket_number, class_number_in, bracket_number_in, if_scalar, numbers_of, numbered_source};
ghost use Rattle.bidi_calls.specs.Buffers.{WritesList};
ghost use Rattle.bidi_numbers.specs.Faults.{fault_unless};
ghost use Rattle.bidi_numbers.specs.Numbers.{is_class, direction_in};

use crate::analysis::number_of_direction;
use crate::caller_text::CallerText;
use bidi_base::data_source::BidiMatchedOpeningBracket;
use bidi_numbers::fault::{Fault, check};
use bidi_numbers::numbers::{check_classes, class_of as class_numbered, number_of};
use bidi_numbers::texts::{char_of, is_scalar};
use unicode_bidi::direction_search::{DirectionSearch, search_class};
use unicode_bidi::text::TextSource;
use unicode_bidi::{BidiDataSource, Direction};

/// The difference between the number of an opening bracket and that of its closing bracket.
pub const OPENING: u32 = 0x8000_0000;

/// A number for each character, by a data source.
pub trait Numbering: Copy {
    /// The type of the numbers.
    type Number: Copy;

    /// The number of a character.
    ghost number: { Source → ℕ → Self.Number };

    /// Returns the number of a character.
    fn number<D: BidiDataSource>(self, data_source: &D, c: char) -> Self::Number
        ensures { result ≡ number (D.source data_source.now) c };
}

/// Numbers a character by its class.
#[derive(Clone, Copy, Debug)]
pub struct Classes;

impl Numbering for Classes {
    type Number = u8;

    ghost number = { class_number_in };

    fn number<D: BidiDataSource>(self, data_source: &D, c: char) -> u8 {
        number_of(data_source.bidi_class(c))
    }
}

// Returns the number of a bracket.
fn bracket_number(bracket: Option<BidiMatchedOpeningBracket>) -> u32
    ensures { result ≡ bracket_number bracket }
{
    match bracket {
        None => 0,
        Some(BidiMatchedOpeningBracket { opening, is_open }) => {
            if is_open {
                opening as u32 + OPENING
            } else {
                opening as u32
            }
        }
    }
}

/// Numbers a character by its bracket.
#[derive(Clone, Copy, Debug)]
pub struct Brackets;

impl Numbering for Brackets {
    type Number = u32;

    ghost number = { bracket_number_in };

    fn number<D: BidiDataSource>(self, data_source: &D, c: char) -> u32 {
        bracket_number(data_source.bidi_matched_opening_bracket(c))
    }
}

/// Returns the number of a character's class, or `NotScalar` if `character` is not a scalar value.
pub fn class_number_of<D: BidiDataSource>(data_source: &D, character: u32) -> Result<usize, Fault>
    ensures { result ≡ if_scalar character (class_number_in (D.source data_source.now) character) }
{
    check(is_scalar(character), Fault::NotScalar)?;
    Ok(usize::from(Classes.number(data_source, char_of(character))))
}

/// Returns the number of a character's bracket, which is 0 if it is no bracket, or `NotScalar` if `character` is not a
/// scalar value.
pub fn bracket_number_of<D: BidiDataSource>(data_source: &D, character: u32) -> Result<usize, Fault>
    ensures { result ≡ if_scalar character (bracket_number_in (D.source data_source.now) character) }
{
    check(is_scalar(character), Fault::NotScalar)?;
    Ok(Brackets.number(data_source, char_of(character)) as usize)
}

// Writes a number to each entry. Most characters have up to three code units, which are written without a loop.
fn fill<N: Copy>(out: &mut [N], number: N)
    ensures { out.new ≡ replicate (length out.old) number }
{
    match out.len() {
        1 => out[0] = number,
        2 => {
            out[0] = number;
            out[1] = number;
        }
        3 => {
            out[0] = number;
            out[1] = number;
            out[2] = number;
        }
        _ => {
            for i in 0..out.len() {
                out[i] = number;
            }
        }
    }
}

// Writes the number of each character to each of its code units.
fn write_each<D: BidiDataSource, T: TextSource, N: Numbering>(
    data_source: &D,
    text: T,
    numbering: N,
    out: &mut [N::Number],
)
    requires { length out.old ≡ text_len (T.text text) }
    ensures { out.new ≡ numbers_of (N.number (D.source data_source.now)) T.encoding.len_of (T.text text).chars }
{
    let mut at = 0;
    for c in text.chars() {
        let end = at + T::char_len(c);
        fill(&mut out[at..end], numbering.number(data_source, c));
        at = end;
    }
}

// Writes the number of each code unit's character, and returns how many code units there are.
fn write_numbers<D: BidiDataSource, T: TextSource, N: Numbering>(
    data_source: &D,
    text: T,
    numbering: N,
    out: &mut [N::Number],
) -> Result<usize, Fault>
    ensures fault { result_err result
        ≡ fault_unless (nat_le (text_len (T.text text)) (length out.old)) Fault.NoRoom }
    ensures writes { WritesList (numbers_of (N.number (D.source data_source.now)) T.encoding.len_of (T.text text).chars)
        result out.old out.new }
{
    let len = text.len();
    check(len <= out.len(), Fault::NoRoom)?;
    write_each(data_source, text, numbering, &mut out[..len]);
    Ok(len)
}

/// Writes the number of each code unit's character, and returns the number of code units.
///
/// Returns the fault of ill-formed code units, or else `NoRoom` if `out` is shorter than the text. Writes nothing
/// after a fault. Does not allocate.
pub fn numbers<'t, T: CallerText<'t>, D: BidiDataSource, N: Numbering>(
    data_source: &D,
    numbering: N,
    text: &'t [T::Unit],
    out: &mut [N::Number],
) -> Result<usize, Fault>
    ensures fault { result_err result
        ≡ option_or (T.fault_of text.now) (fault_unless (nat_le (length text.now) (length out.old)) Fault.NoRoom) }
    ensures writes { WritesList (numbers_of (N.number (D.source data_source.now)) T.encoding.len_of (T.chars_of text.now))
        result out.old out.new }
{
    let text = T::read(text)?;
    write_numbers(data_source, text, numbering, out)
}

/// Returns the number of the base direction of characters with these classes (P2, P3): 0 for left to right, 1 for right
/// to left, 2 for mixed.
///
/// Without `full` it is that of the first paragraph, and with `full` that of the first paragraph that has one. A
/// paragraph ends after each class B. Returns `BadClass` if a number is not that of a class, even after the one that
/// decides. Does not allocate.
pub fn base_direction_of_classes(classes: &[u8], full: bool) -> Result<usize, Fault>
    ensures { result
        ≡ (if list_all is_class classes.now then Ok (direction_in numbered_source full classes.now)
        else Err Fault.BadClass) }
{
    check_classes(classes)?;
    let mut depth = 0;
    for class in classes {
        match search_class(class_numbered(*class), depth, full) {
            DirectionSearch::Found(direction) => return Ok(number_of_direction(direction)),
            DirectionSearch::Open(now) => depth = now,
        }
    }
    Ok(number_of_direction(Direction::Mixed))
}
