//! Patterns of paths.
ghost use Rattle.std.specs.Prelude.{◌≡◌, ◌+◌, ◌<◌, ◌≤◌, IfOk, [], length, ℕ, List, Bool, IfSome, option_map};
ghost use Rattle.bidi_reports.specs.Globs.{takes, repeats, one_then, many_then, part_then, matches as matches_of, is_in_name, Accepts, hex_value, char_of, byte_value, char_named, is_special, is_code_escape, escaped_code, escaped_part, star_part, first_part, parts_of};

use std::alloc::{AllocError, Global};

/// A part of a pattern.
#[derive(Clone, Copy, Debug, PartialEq)]
pub enum Part {
    /// This character.
    Char(char),
    /// One character other than `/`.
    One,
    /// Any number of characters other than `/`.
    InName,
    /// Any number of characters.
    Any,
}

// Returns whether a character can be in the name of a file or a directory.
fn is_in_name(c: char) -> bool
    ensures { result ≡ is_in_name c }
{
    c != '/'
}

impl Part {
    // Returns whether this part takes a character.
    fn takes(self, c: char) -> bool
        ensures { result ≡ takes self c }
    {
        match self {
            Part::Char(own) => own == c,
            Part::One | Part::InName => is_in_name(c),
            Part::Any => true,
        }
    }

    // Returns whether this part takes any number of characters, and not just one.
    fn repeats(self) -> bool
        ensures { result ≡ repeats self }
    {
        matches!(self, Part::InName | Part::Any)
    }
}

// Notes for each index of a text whether one character and then what was noted there before is accepted.
fn take_one(part: Part, chars: &[char], ends: &mut [bool])
    requires { length ends.old ≡ length chars.now + 1 }
    ensures { (rest : List ℕ → Bool) → Accepts rest chars.now ends.old → Accepts (one_then (takes part) rest) chars.now ends.new }
{
    for (index, c) in chars.iter().enumerate() {
        ends[index] = part.takes(*c) && ends[index + 1];
    }
    ends[chars.len()] = false;
}

// Notes for each index of a text whether any number of characters and then what was noted there before is accepted.
fn take_many(part: Part, chars: &[char], ends: &mut [bool])
    requires { length ends.old ≡ length chars.now + 1 }
    ensures { (rest : List ℕ → Bool) → Accepts rest chars.now ends.old → Accepts (many_then (takes part) rest) chars.now ends.new }
{
    let mut index = chars.len();
    while index > 0 {
        index -= 1;
        ends[index] = ends[index] || part.takes(chars[index]) && ends[index + 1];
    }
}

// Notes for each index of a text whether this part and then what was noted there before is accepted.
fn take_part(part: Part, chars: &[char], ends: &mut [bool])
    requires { length ends.old ≡ length chars.now + 1 }
    ensures { (rest : List ℕ → Bool) → Accepts rest chars.now ends.old → Accepts (part_then part rest) chars.now ends.new }
{
    if part.repeats() {
        take_many(part, chars, ends);
    } else {
        take_one(part, chars, ends);
    }
}

// Notes for each index of a text whether the text ends there.
fn ends_of(alloc: Global, chars: &[char]) -> Result<Vec<bool>, AllocError>
    ensures { IfOk result (λ ends. Accepts (matches_of []) chars.now ends.items) }
{
    let mut ends = Vec::new(alloc);
    ends.resize(chars.len(), false)?;
    ends.push(true)?;
    Ok(ends)
}

// Notes for each index of a text whether these parts, one after another, and then the end of the text is accepted.
fn take_parts(parts: &[Part], chars: &[char], ends: &mut [bool])
    requires { Accepts (matches_of []) chars.now ends.old }
    ensures { Accepts (matches_of parts.now) chars.now ends.new }
{
    let mut rest = parts;
    while let [before @ .., part] = rest {
        take_part(*part, chars, ends);
        rest = before;
    }
}

/// Returns whether the parts of a pattern, one after another, match all of a text.
///
/// Takes time in proportion to the number of parts times the length of the text, and memory in proportion to the
/// length of the text. Returns an error if an allocation fails.
pub fn matches(alloc: Global, parts: &[Part], chars: &[char]) -> Result<bool, AllocError>
    ensures { IfOk result (λ found. found ≡ matches_of parts.now chars.now) }
{
    let mut ends = ends_of(alloc, chars)?;
    take_parts(parts, chars, ends.as_mut_slice());
    Ok(ends[0])
}

// Returns the value of a hexadecimal digit.
fn hex_value(digit: char) -> Option<u32>
    ensures value { result ≡ hex_value digit }
    ensures within { IfSome result (λ value. value < 16) }
{
    digit.to_digit(16)
}

// Returns the character of this number, if there is one.
fn char_of(code: u32) -> Option<char>
    requires { code < 0x10000 }
    ensures { result ≡ char_of code }
{
    char::from_u32(code)
}

// Returns the number that two hexadecimal digits write.
fn byte_value(high: char, low: char) -> Option<u32>
    ensures value { result ≡ byte_value high low }
    ensures within { IfSome result (λ value. value < 256) }
{
    let high = hex_value(high)?;
    let low = hex_value(low)?;
    Some(high * 16 + low)
}

// Returns the character whose number four hexadecimal digits write.
fn char_named(a: char, b: char, c: char, d: char) -> Option<char>
    ensures { result ≡ char_named a b c d }
{
    let high = byte_value(a, b)?;
    let low = byte_value(c, d)?;
    char_of(high * 256 + low)
}

/// Returns whether a character has a meaning of its own in a pattern: a backslash, `*` or `?`.
pub fn is_special(c: char) -> bool
    ensures { result ≡ is_special c }
{
    matches!(c, '\\' | '*' | '?')
}

// Returns whether a text begins with an escape that writes the number of a character.
fn is_code_escape(text: &[char]) -> bool
    ensures { result ≡ is_code_escape text.now }
{
    matches!(text, ['\\', 'u', '{', _, _, _, _, '}', ..])
}

// Returns the character that such an escape writes, and the length of the escape.
fn escaped_code(text: &[char]) -> Option<(Part, usize)>
    requires { 8 ≤ length text.now }
    ensures part { result ≡ escaped_code text.now }
    ensures within { IfSome result (λ part. (0 < part.1) × (part.1 ≤ length text.now)) }
{
    let c = char_named(text[3], text[4], text[5], text[6])?;
    Some((Part::Char(c), 8))
}

// Returns the character that an escape at the start of a text writes, and the length of the escape.
fn escaped_part(text: &[char]) -> Option<(Part, usize)>
    ensures part { result ≡ escaped_part text.now }
    ensures within { IfSome result (λ part. (0 < part.1) × (part.1 ≤ length text.now)) }
{
    if is_code_escape(text) {
        return escaped_code(text);
    }
    if text.len() >= 2 && is_special(text[1]) {
        return Some((Part::Char(text[1]), 2));
    }
    None
}

// Returns the part that one or two stars at the start of a text write, and how many they are.
fn star_part(text: &[char]) -> (Part, usize)
    requires { 0 < length text.now }
    ensures part { result ≡ star_part text.now }
    ensures within { (0 < result.1) × (result.1 ≤ length text.now) }
{
    if text.len() >= 2 && text[1] == '*' {
        (Part::Any, 2)
    } else {
        (Part::InName, 1)
    }
}

// Returns the part that a text begins with, and how many of its characters write that part.
fn first_part(text: &[char]) -> Option<(Part, usize)>
    ensures part { result ≡ first_part text.now }
    ensures within { IfSome result (λ part. (0 < part.1) × (part.1 ≤ length text.now)) }
{
    match text {
        [] => None,
        ['\\', ..] => escaped_part(text),
        ['*', ..] => Some(star_part(text)),
        ['?', ..] => Some((Part::One, 1)),
        [c, ..] => Some((Part::Char(*c), 1)),
    }
}

/// Returns the parts that a text writes. Returns `None` if a backslash in it is not part of an escape.
///
/// The escapes are `\\`, `\*`, `\?`, and `\u{202E}` with four hexadecimal digits. Returns an error if an allocation
/// fails.
pub fn parts_of(alloc: Global, text: &[char]) -> Result<Option<Vec<Part>>, AllocError>
    ensures { IfOk result (λ parts. option_map (λ parts. parts.items) parts ≡ parts_of text.now) }
{
    let mut parts = Vec::new(alloc);
    let mut rest = text;
    while !rest.is_empty() {
        let Some((part, len)) = first_part(rest) else {
            return Ok(None);
        };
        parts.push(part)?;
        let (_, after) = rest.split_at(len);
        rest = after;
    }
    Ok(Some(parts))
}
