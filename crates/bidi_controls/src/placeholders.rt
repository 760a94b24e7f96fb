//! Isolates that hold one placeholder or one number, as in the messages of a translation.
ghost use Rattle.std.specs.Prelude.{◌≡◌, ◌∷◌, ◌++◌, ◌&&◌, [], if◌then◌else◌, OnOk};
ghost use Rattle.bidi_base.specs.Classes.{is_pdi as is_pdi_of};
ghost use Rattle.bidi_controls.specs.Displayed.{plain_line};
ghost use Rattle.bidi_controls.specs.Placeholders.{accepts, holds_placeholder as holds_placeholder_of, is_inside_after as is_inside_after_of, is_left as is_left_of, is_letter as is_letter_of, is_letter_or_digit as is_letter_or_digit_of, is_space_or_wide as is_space_or_wide_of, opens_placeholder as opens_placeholder_of, step as step_of};
ghost use Rattle.bidi_controls.specs.declared.placeholders.PlaceholderState.TheVariants.{Before};

use crate::control::is_control_or_mark;
use bidi_base::classes::{is_isolate_initiator, is_pdi};
use bidi_base::data_source::BidiDataSource;
use std::alloc::AllocError;

/// What was read of the content of an isolate that may hold one placeholder, such as `%1$s`, `{name}` or `$(ARG1)`, or one
/// number.
#[derive(Clone, Copy, Debug)]
pub enum PlaceholderState {
    /// Nothing but spaces and characters that are not ASCII.
    Before,
    /// A number, or `$` and a number.
    Number,
    /// `%`.
    Percent,
    /// `%` and digits.
    PercentNumber,
    /// `%`, digits and `$`.
    Position,
    /// `%`, maybe more, and `.`.
    Precision,
    /// `%`, maybe more, and letters.
    Word,
    /// `$`.
    Dollar,
    /// `$` and a name.
    DollarWord,
    /// `{` or `${`, maybe with spaces.
    Brace,
    /// `{` or `${`, and digits.
    BraceNumber,
    /// `{` or `${`, maybe with spaces, and `$` or `-`.
    BraceSign,
    /// `{` and a name.
    BraceName,
    /// `{`, a name and `-`.
    BraceHyphen,
    /// `{`, a name and spaces.
    BraceEnd,
    /// `$(`.
    Parenthesis,
    /// `$(` and a name.
    ParenthesisName,
    /// A whole placeholder, or a number and a space.
    After,
}

/// Returns whether a character is an ASCII letter or `_`.
fn is_letter(c: char) -> bool
    ensures { result ≡ is_letter_of c }
{
    c.is_ascii_alphabetic() || c == '_'
}

/// Returns whether a character is an ASCII letter, an ASCII digit or `_`.
fn is_letter_or_digit(c: char) -> bool
    ensures { result ≡ is_letter_or_digit_of c }
{
    is_letter(c) || c.is_ascii_digit()
}

/// Returns whether a character is a space, or is not ASCII.
fn is_space_or_wide(c: char) -> bool
    ensures { result ≡ is_space_or_wide_of c }
{
    c == ' ' || !c.is_ascii()
}

impl PlaceholderState {
    /// Returns the state after one more character that is neither a control nor a mark. Returns `None` if no placeholder
    /// goes on like that.
    pub fn step(self, c: char) -> Option<PlaceholderState>
        ensures { result ≡ step_of self c }
    {
        match self {
            PlaceholderState::Before => {
                if is_space_or_wide(c) {
                    Some(PlaceholderState::Before)
                } else if c.is_ascii_digit() {
                    Some(PlaceholderState::Number)
                } else if c == '%' {
                    Some(PlaceholderState::Percent)
                } else if c == '$' {
                    Some(PlaceholderState::Dollar)
                } else if c == '{' {
                    Some(PlaceholderState::Brace)
                } else {
                    None
                }
            }
            PlaceholderState::Number => {
                if c.is_ascii_digit() {
                    Some(PlaceholderState::Number)
                } else if is_space_or_wide(c) {
                    Some(PlaceholderState::After)
                } else {
                    None
                }
            }
            PlaceholderState::Percent => {
                if c.is_ascii_digit() {
                    Some(PlaceholderState::PercentNumber)
                } else if c == '.' {
                    Some(PlaceholderState::Precision)
                } else if is_letter(c) {
                    Some(PlaceholderState::Word)
                } else if c == '@' {
                    Some(PlaceholderState::After)
                } else {
                    None
                }
            }
            PlaceholderState::PercentNumber => {
                if c.is_ascii_digit() {
                    Some(PlaceholderState::PercentNumber)
                } else if c == '$' {
                    Some(PlaceholderState::Position)
                } else if c == '.' {
                    Some(PlaceholderState::Precision)
                } else if is_letter(c) {
                    Some(PlaceholderState::Word)
                } else if is_space_or_wide(c) {
                    Some(PlaceholderState::After)
                } else {
                    None
                }
            }
            PlaceholderState::Position => {
                if c.is_ascii_digit() {
                    Some(PlaceholderState::Position)
                } else if c == '.' {
                    Some(PlaceholderState::Precision)
                } else if is_letter(c) {
                    Some(PlaceholderState::Word)
                } else if c == '@' {
                    Some(PlaceholderState::After)
                } else {
                    None
                }
            }
            PlaceholderState::Precision => {
                if c.is_ascii_digit() {
                    Some(PlaceholderState::Precision)
                } else if is_letter(c) {
                    Some(PlaceholderState::Word)
                } else {
                    None
                }
            }
            PlaceholderState::Word => {
                if is_letter_or_digit(c) {
                    Some(PlaceholderState::Word)
                } else if is_space_or_wide(c) {
                    Some(PlaceholderState::After)
                } else {
                    None
                }
            }
            PlaceholderState::Dollar => {
                if c.is_ascii_digit() {
                    Some(PlaceholderState::Number)
                } else if is_letter(c) {
                    Some(PlaceholderState::DollarWord)
                } else if c == '{' {
                    Some(PlaceholderState::Brace)
                } else if c == '(' {
                    Some(PlaceholderState::Parenthesis)
                } else {
                    None
                }
            }
            PlaceholderState::DollarWord => {
                if is_letter_or_digit(c) {
                    Some(PlaceholderState::DollarWord)
                } else if c == '$' {
                    Some(PlaceholderState::After)
                } else if is_space_or_wide(c) {
                    Some(PlaceholderState::After)
                } else {
                    None
                }
            }
            PlaceholderState::Brace => {
                if c == ' ' {
                    Some(PlaceholderState::Brace)
                } else if c.is_ascii_digit() {
                    Some(PlaceholderState::BraceNumber)
                } else if is_letter(c) {
                    Some(PlaceholderState::BraceName)
                } else if c == '$' || c == '-' {
                    Some(PlaceholderState::BraceSign)
                } else {
                    None
                }
            }
            PlaceholderState::BraceNumber => {
                if c.is_ascii_digit() {
                    Some(PlaceholderState::BraceNumber)
                } else if c == ' ' {
                    Some(PlaceholderState::BraceEnd)
                } else if c == '}' {
                    Some(PlaceholderState::After)
                } else {
                    None
                }
            }
            PlaceholderState::BraceSign => {
                if is_letter(c) {
                    Some(PlaceholderState::BraceName)
                } else {
                    None
                }
            }
            PlaceholderState::BraceName => {
                if is_letter_or_digit(c) {
                    Some(PlaceholderState::BraceName)
                } else if c == '-' {
                    Some(PlaceholderState::BraceHyphen)
                } else if c == ' ' {
                    Some(PlaceholderState::BraceEnd)
                } else if c == '}' {
                    Some(PlaceholderState::After)
                } else {
                    None
                }
            }
            PlaceholderState::BraceHyphen => {
                if is_letter_or_digit(c) {
                    Some(PlaceholderState::BraceName)
                } else {
                    None
                }
            }
            PlaceholderState::BraceEnd => {
                if c == ' ' {
                    Some(PlaceholderState::BraceEnd)
                } else if c == '}' {
                    Some(PlaceholderState::After)
                } else {
                    None
                }
            }
            PlaceholderState::Parenthesis => {
                if is_letter_or_digit(c) {
                    Some(PlaceholderState::ParenthesisName)
                } else {
                    None
                }
            }
            PlaceholderState::ParenthesisName => {
                if is_letter_or_digit(c) {
                    Some(PlaceholderState::ParenthesisName)
                } else if c == ')' {
                    Some(PlaceholderState::After)
                } else {
                    None
                }
            }
            PlaceholderState::After => {
                if is_space_or_wide(c) {
                    Some(PlaceholderState::After)
                } else {
                    None
                }
            }
        }
    }

    /// Returns whether what was read is one placeholder or one number, with spaces and characters that are not ASCII around
    /// it.
    pub fn accepts(self) -> bool
        ensures { result ≡ accepts self }
    {
        matches!(
            self,
            PlaceholderState::Number
                | PlaceholderState::PercentNumber
                | PlaceholderState::Word
                | PlaceholderState::DollarWord
                | PlaceholderState::After
        )
    }
}

/// Returns whether a control or a mark ends a placeholder isolate, if this was read of its content.
fn ends_placeholder<D: BidiDataSource>(data_source: &D, state: PlaceholderState, c: char) -> bool
    ensures { result ≡ (is_pdi_of ((D.source data_source.now).class_of c) && accepts state) }
{
    is_pdi(data_source.bidi_class(c)) && state.accepts()
}

/// Returns whether the characters after an isolate initiator are the content of a placeholder isolate and the PDI that ends
/// it: up to that PDI there is no other control and no mark, and the content is one placeholder or one number.
fn holds_placeholder<D: BidiDataSource>(data_source: &D, chars: &[char]) -> bool
    ensures { result ≡ holds_placeholder_of (D.source data_source.now) Before chars.now }
{
    let mut state = PlaceholderState::Before;
    for c in chars {
        if is_control_or_mark(data_source, *c) {
            return ends_placeholder(data_source, state, *c);
        }
        match state.step(*c) {
            Some(next) => state = next,
            None => return false,
        }
    }
    false
}

/// Returns whether a character opens a placeholder isolate, with these characters after it.
fn opens_placeholder<D: BidiDataSource>(data_source: &D, c: char, after: &[char]) -> bool
    ensures { result ≡ opens_placeholder_of (D.source data_source.now) c after.now }
{
    is_isolate_initiator(data_source.bidi_class(c)) && holds_placeholder(data_source, after)
}

/// Returns whether a character is left in a line if the controls and marks are deleted but those of placeholder isolates.
/// `is_inside` says whether the character is in such an isolate, or is the PDI that ends it.
fn is_left<D: BidiDataSource>(data_source: &D, is_inside: bool, c: char, after: &[char]) -> bool
    ensures { result ≡ is_left_of (D.source data_source.now) is_inside c after.now }
{
    !is_control_or_mark(data_source, c)
        || opens_placeholder(data_source, c, after)
        || is_inside && is_pdi(data_source.bidi_class(c))
}

/// Appends a character, if it is left.
fn push_if_left<D: BidiDataSource>(
    data_source: &D,
    is_inside: bool,
    c: char,
    after: &[char],
    out: &mut Vec<char>,
) -> Result<(), AllocError>
    ensures { OnOk result (out.new.items ≡ out.old.items
        ++ (if is_left_of (D.source data_source.now) is_inside c after.now then c ∷ [] else [])) }
{
    if is_left(data_source, is_inside, c, after) {
        out.push(c)?;
    }
    Ok(())
}

/// Returns whether the next character is in a placeholder isolate, or is the PDI that ends it.
fn is_inside_after<D: BidiDataSource>(
    data_source: &D,
    is_inside: bool,
    c: char,
    after: &[char],
) -> bool
    ensures { result ≡ is_inside_after_of (D.source data_source.now) is_inside c after.now }
{
    if is_control_or_mark(data_source, c) {
        opens_placeholder(data_source, c, after)
    } else {
        is_inside
    }
}

/// Replaces a list by a line without its controls and marks but those of placeholder isolates. Reads each character at most
/// twice.
pub(crate) fn write_plain<D: BidiDataSource>(
    data_source: &D,
    chars: &[char],
    out: &mut Vec<char>,
) -> Result<(), AllocError>
    ensures { OnOk result (out.new.items ≡ plain_line (D.source data_source.now) chars.now) }
{
    out.clear();
    let mut is_inside = false;
    for (index, c) in chars.iter().enumerate() {
        let after = &chars[index + 1..];
        push_if_left(data_source, is_inside, *c, after, out)?;
        is_inside = is_inside_after(data_source, is_inside, *c, after);
    }
    Ok(())
}
