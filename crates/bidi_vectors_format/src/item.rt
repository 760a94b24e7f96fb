//! Reads the words of a field.

use crate::fault::{RowFault, Why};
use crate::row::Field;
use bidi_base::level::Level;
use std::alloc::Global;

/// The word for an entry that a row leaves open.
pub const ANY: &str = "-";

// Splits a word such as `3*a` into the count and the rest.
fn repeated(word: &str) -> Option<(&str, &str)> {
    let (count, item) = word.split_once("*")?;
    if count.is_empty() || item.is_empty() {
        None
    } else {
        Some((count, item))
    }
}

// Adds a repeated item once: its parts between dots, or a single dot.
fn push_parts<'t>(items: &mut Vec<&'t str>, item: &'t str) -> Result<(), RowFault> {
    if item == "." {
        items.push(item)?;
        return Ok(());
    }
    for part in item.split(".") {
        items.push(part)?;
    }
    Ok(())
}

fn push_word<'t>(items: &mut Vec<&'t str>, line: usize, word: &'t str) -> Result<(), RowFault> {
    let Some((count, item)) = repeated(word) else {
        items.push(word)?;
        return Ok(());
    };
    for _ in 0..number_of(count, line)? {
        push_parts(items, item)?;
    }
    Ok(())
}

/// Returns the items of a field, each repeated as often as the field says.
pub fn items_of<'t>(alloc: Global, field: Field<'t>) -> Result<Vec<&'t str>, RowFault> {
    let mut items = Vec::new(alloc);
    for word in field.value.split_whitespace() {
        push_word(&mut items, field.line, word)?;
    }
    Ok(items)
}

/// Parses a word as a number.
pub fn number_of(word: &str, line: usize) -> Result<usize, RowFault> {
    match word.parse::<usize>() {
        Ok(number) => Ok(number),
        Err(_) => Err(RowFault::Line(line, Why::Number)),
    }
}

/// Returns the number of a field, or `usize::MAX` for `greatest`.
pub fn number(field: Field<'_>) -> Result<usize, RowFault> {
    if field.value == "greatest" {
        return Ok(usize::MAX);
    }
    number_of(field.value, field.line)
}

/// Returns the numbers of a field.
pub fn numbers(alloc: Global, field: Field<'_>) -> Result<Vec<usize>, RowFault> {
    let mut numbers = Vec::new(alloc);
    for item in items_of(alloc, field)? {
        numbers.push(number_of(item, field.line)?)?;
    }
    Ok(numbers)
}

/// Parses a word as a level.
pub fn level_of(word: &str, line: usize) -> Result<Level, RowFault> {
    let level = match word.parse::<u8>() {
        Ok(number) => Level::new(number).ok(),
        Err(_) => None,
    };
    level.ok_or(RowFault::Line(line, Why::Level))
}

/// Returns the levels of a field.
pub fn levels(alloc: Global, field: Field<'_>) -> Result<Vec<Level>, RowFault> {
    let items = items_of(alloc, field)?;
    let mut levels = Vec::new(alloc);
    for item in &items {
        let level = level_of(*item, field.line)?;
        levels.push(level)?;
    }
    Ok(levels)
}

/// Parses a word such as `2..5` as the start and the end of a range.
pub fn range_of(word: &str, line: usize) -> Result<(usize, usize), RowFault> {
    match word.split_once("..") {
        Some((start, end)) => Ok((number_of(start, line)?, number_of(end, line)?)),
        None => Err(RowFault::Line(line, Why::Range)),
    }
}

/// Returns the ranges of a field.
pub fn ranges(alloc: Global, field: Field<'_>) -> Result<Vec<(usize, usize)>, RowFault> {
    let mut ranges = Vec::new(alloc);
    for word in field.value.split_whitespace() {
        ranges.push(range_of(word, field.line)?)?;
    }
    Ok(ranges)
}

/// Returns whether a field says yes.
pub fn flag(field: Field<'_>) -> Result<bool, RowFault> {
    match field.value {
        "yes" => Ok(true),
        "no" => Ok(false),
        _ => Err(RowFault::Line(field.line, Why::YesOrNo)),
    }
}
