//! Rows of levels: which numbers are levels, what is next to a level, and the texts that name a level.

use bidi_base::level::{Error, Level, VecError};
use bidi_vectors_format::answer::{class_words, flag_word, level_words};
use bidi_vectors_format::fault::{RowFault, Why};
use bidi_vectors_format::item::{level_of, numbers};
use bidi_vectors_format::row::{Field, Row};
use bidi_vectors_format::tally::Tally;
use std::alloc::Global;

// Returns the number of a field, which need not be a level.
fn byte_of(field: Field<'_>) -> Result<u8, RowFault> {
    match field.value.parse::<u8>() {
        Ok(number) => Ok(number),
        Err(_) => Err(RowFault::Line(field.line, Why::Byte)),
    }
}

// Returns the number of the level that a call returned, or `none`.
fn answer_words(alloc: Global, answer: Result<Level, Error>) -> Result<String, RowFault> {
    match answer {
        Ok(level) => level_words(alloc, &[level]),
        Err(Error::OutOfRangeNumber) => Ok(String::from_str(alloc, "none")?),
    }
}

fn check_answer(
    alloc: Global,
    row: &Row<'_>,
    tally: &mut Tally,
    key: &str,
    call: &'static str,
    answer: Result<Level, Error>,
) {
    tally.agree(row, key, call, answer_words(alloc, answer));
}

/// Runs a row of a number: its level, if it is one, and what is next to that level.
pub fn run_level(alloc: Global, row: &Row<'_>, tally: &mut Tally) -> Result<(), RowFault> {
    row.has_only(&[
        "number",
        "level",
        "explicit",
        "next ltr",
        "next rtl",
        "lowest rtl",
        "is rtl",
        "class",
    ])?;
    let number = byte_of(row.field("number")?)?;
    check_answer(alloc, row, tally, "level", "Level::new", Level::new(number));
    let (call, explicit) = ("Level::new_explicit", Level::new_explicit(number));
    check_answer(alloc, row, tally, "explicit", call, explicit);
    if let Ok(level) = Level::new(number) {
        check_next(alloc, row, tally, level);
    }
    Ok(())
}

fn check_next(alloc: Global, row: &Row<'_>, tally: &mut Tally, level: Level) {
    let (call, next) = (
        "Level::new_explicit_next_ltr",
        level.new_explicit_next_ltr(),
    );
    check_answer(alloc, row, tally, "next ltr", call, next);
    let (call, next) = (
        "Level::new_explicit_next_rtl",
        level.new_explicit_next_rtl(),
    );
    check_answer(alloc, row, tally, "next rtl", call, next);
    let (call, next) = ("Level::new_lowest_ge_rtl", level.new_lowest_ge_rtl());
    check_answer(alloc, row, tally, "lowest rtl", call, next);
    tally.agree_word(row, "is rtl", "Level::is_rtl", flag_word(level.is_rtl()));
    tally.agree_word(row, "is rtl", "Level::is_ltr", flag_word(!level.is_ltr()));
    let words = class_words(alloc, &[level.bidi_class()]);
    tally.agree(row, "class", "Level::bidi_class", words);
}

// Returns the resulting level. An error leaves the level unchanged.
fn step_words(
    alloc: Global,
    before: Level,
    after: Level,
    outcome: Result<(), Error>,
) -> Result<String, RowFault> {
    if outcome.is_ok() {
        return level_words(alloc, &[after]);
    }
    let words = if after == before { "none" } else { "changed" };
    Ok(String::from_str(alloc, words)?)
}

/// Runs a row of a level and a number: the level raised and lowered by it. An error leaves the level unchanged.
pub fn run_step(alloc: Global, row: &Row<'_>, tally: &mut Tally) -> Result<(), RowFault> {
    row.has_only(&["level", "by", "raised", "explicit", "lowered"])?;
    let field = row.field("level")?;
    let before = level_of(field.value, field.line)?;
    let amount = byte_of(row.field("by")?)?;
    let mut level = before;
    let outcome = level.raise(amount);
    let words = step_words(alloc, before, level, outcome);
    tally.agree(row, "raised", "Level::raise", words);
    let mut level = before;
    let outcome = level.raise_explicit(amount);
    let words = step_words(alloc, before, level, outcome);
    tally.agree(row, "explicit", "Level::raise_explicit", words);
    let mut level = before;
    let outcome = level.lower(amount);
    let words = step_words(alloc, before, level, outcome);
    tally.agree(row, "lowered", "Level::lower", words);
    Ok(())
}

/// Runs a row of a level and a text, and whether the text names the level.
pub fn run_name(row: &Row<'_>, tally: &mut Tally) -> Result<(), RowFault> {
    row.has_only(&["level", "name", "matches"])?;
    let field = row.field("level")?;
    let level = level_of(field.value, field.line)?;
    let matches = level.matches_text(row.field("name")?.value);
    tally.agree_word(row, "matches", "Level::matches_text", flag_word(matches));
    Ok(())
}

// Returns the numbers of a field, each up to 255.
fn bytes_of(alloc: Global, field: Field<'_>) -> Result<Vec<u8>, RowFault> {
    let mut bytes = Vec::new(alloc);
    for number in numbers(alloc, field)? {
        match u8::try_from(number) {
            Ok(byte) => bytes.push(byte)?,
            Err(_) => return Err(RowFault::Line(field.line, Why::Byte)),
        }
    }
    Ok(bytes)
}

// Returns the numbers of the levels that a call returned, or `none`.
fn list_words(alloc: Global, answer: Result<Vec<Level>, VecError>) -> Result<String, RowFault> {
    match answer {
        Ok(levels) => level_words(alloc, levels.as_slice()),
        Err(VecError::OutOfRangeNumber) => Ok(String::from_str(alloc, "none")?),
        Err(VecError::Memory) => Err(RowFault::Memory),
    }
}

/// Runs a row of numbers: their levels, or `none` if a number is not a level.
pub fn run_list(alloc: Global, row: &Row<'_>, tally: &mut Tally) -> Result<(), RowFault> {
    row.has_only(&["numbers", "levels"])?;
    let bytes = bytes_of(alloc, row.field("numbers")?)?;
    let words = list_words(alloc, Level::vec(alloc, bytes.as_slice()));
    tally.agree(row, "levels", "Level::vec", words);
    Ok(())
}
