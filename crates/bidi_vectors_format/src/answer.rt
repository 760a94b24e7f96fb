//! The results of calls as words of a row.

use crate::fault::{RowFault, Why};
use bidi_base::char_data::{BidiClass, Direction};
use bidi_base::level::Level;
use bidi_text::text::{TextSource, is_per_char};
use std::alloc::Global;
use std::ops::Range;

// Separates the next word from those before it.
fn next_word(words: &mut String) -> Result<(), RowFault> {
    if !words.is_empty() {
        words.push(' ')?;
    }
    Ok(())
}

/// Returns the names of classes as words.
pub fn class_words(alloc: Global, classes: &[BidiClass]) -> Result<String, RowFault> {
    let mut words = String::new(alloc);
    for class in classes {
        next_word(&mut words)?;
        write!(words, "{class:?}")?;
    }
    Ok(words)
}

/// Returns the numbers of levels as words.
pub fn level_words(alloc: Global, levels: &[Level]) -> Result<String, RowFault> {
    let mut words = String::new(alloc);
    for level in levels {
        next_word(&mut words)?;
        let number = level.number();
        write!(words, "{number}")?;
    }
    Ok(words)
}

/// Returns numbers as words.
pub fn number_words(alloc: Global, numbers: &[usize]) -> Result<String, RowFault> {
    let mut words = String::new(alloc);
    for number in numbers {
        next_word(&mut words)?;
        write!(words, "{number}")?;
    }
    Ok(words)
}

/// Returns ranges as words such as `2..5`.
pub fn range_words(alloc: Global, ranges: &[(usize, usize)]) -> Result<String, RowFault> {
    let mut words = String::new(alloc);
    for (start, end) in ranges {
        next_word(&mut words)?;
        write!(words, "{start}..{end}")?;
    }
    Ok(words)
}

/// Returns ranges, given as `Range` values, as words such as `2..5`.
pub fn run_words(alloc: Global, runs: &[Range<usize>]) -> Result<String, RowFault> {
    let mut words = String::new(alloc);
    for run in runs {
        next_word(&mut words)?;
        let (start, end) = (run.start, run.end);
        write!(words, "{start}..{end}")?;
    }
    Ok(words)
}

/// Returns paragraphs as words such as `2..5:1`, with the level after the colon.
pub fn paragraph_words(
    alloc: Global,
    paragraphs: &[(usize, usize, u8)],
) -> Result<String, RowFault> {
    let mut words = String::new(alloc);
    for (start, end, level) in paragraphs {
        next_word(&mut words)?;
        write!(words, "{start}..{end}:{level}")?;
    }
    Ok(words)
}

/// Appends a code point: the character itself if it is visible ASCII, otherwise `U+` and its number.
pub fn push_code(words: &mut String, code: u32) -> Result<(), RowFault> {
    next_word(words)?;
    match char::from_u32(code) {
        Some(c) if c.is_ascii_graphic() => words.push(c)?,
        _ => write!(words, "U+{code:04X}")?,
    }
    Ok(())
}

/// Returns the characters of a text as words.
pub fn char_words(alloc: Global, chars: &[char]) -> Result<String, RowFault> {
    let mut words = String::new(alloc);
    for c in chars {
        push_code(&mut words, u32::from(*c))?;
    }
    Ok(words)
}

/// Returns the code points of UTF-16 code units as words. A lone surrogate has its own number.
pub fn unit_words(alloc: Global, units: &[u16]) -> Result<String, RowFault> {
    let mut words = String::new(alloc);
    let mut waiting: Option<u16> = None;
    for unit in units {
        waiting = push_unit(&mut words, waiting, *unit)?;
    }
    if let Some(high) = waiting {
        push_code(&mut words, u32::from(high))?;
    }
    Ok(words)
}

// Reads a code unit after a high surrogate that waits for its other half, if there is one. Returns the high
// surrogate that waits then.
fn push_unit(words: &mut String, waiting: Option<u16>, unit: u16) -> Result<Option<u16>, RowFault> {
    if let Some(high) = waiting {
        if (0xDC00..0xE000).contains(&unit) {
            let high = u32::from(high & 0x3FF);
            push_code(words, 0x1_0000 + high * 0x400 + u32::from(unit & 0x3FF))?;
            return Ok(None);
        }
        push_code(words, u32::from(high))?;
    }
    if (0xD800..0xDC00).contains(&unit) {
        return Ok(Some(unit));
    }
    push_code(words, u32::from(unit))?;
    Ok(None)
}

/// Returns `yes` or `no`.
pub fn flag_word(flag: bool) -> &'static str {
    if flag { "yes" } else { "no" }
}

/// Returns the word for a direction.
pub fn direction_word(direction: Direction) -> &'static str {
    match direction {
        Direction::Ltr => "ltr",
        Direction::Rtl => "rtl",
        Direction::Mixed => "mixed",
    }
}

/// Returns the index of each character of a text, and then the text's length.
pub fn places_of<T: TextSource>(alloc: Global, text: T) -> Result<Vec<usize>, RowFault> {
    let mut places = Vec::new(alloc);
    for (place, _) in text.char_indices() {
        places.push(place)?;
    }
    places.push(text.len())?;
    Ok(places)
}

/// Returns one entry for each character, from one entry for each code unit. Entries must be equal within
/// each character.
pub fn per_char<T: TextSource, X: Copy + Eq>(
    alloc: Global,
    text: T,
    units: &[X],
) -> Result<Vec<X>, RowFault> {
    if !is_per_char(text, units) {
        return Err(RowFault::Line(0, Why::UnitsDiffer));
    }
    let mut entries = Vec::new(alloc);
    for (place, _) in text.char_indices() {
        if let Some(entry) = units.get(place) {
            entries.push(*entry)?;
        }
    }
    Ok(entries)
}

/// Returns the levels of a text's characters as words, from one level for each code unit.
pub fn levels_in<T: TextSource>(
    alloc: Global,
    text: T,
    units: &[Level],
) -> Result<String, RowFault> {
    let levels = per_char(alloc, text, units)?;
    level_words(alloc, levels.as_slice())
}

/// Returns the classes of a text's characters as words, from one class for each code unit.
pub fn classes_in<T: TextSource>(
    alloc: Global,
    text: T,
    units: &[BidiClass],
) -> Result<String, RowFault> {
    let classes = per_char(alloc, text, units)?;
    class_words(alloc, classes.as_slice())
}

/// Returns ranges of a text's characters as words, from ranges of its code units.
pub fn ranges_in<T: TextSource>(
    alloc: Global,
    text: T,
    units: &[Range<usize>],
) -> Result<String, RowFault> {
    let places = places_of(alloc, text)?;
    let places = places.as_slice();
    let mut ranges = Vec::new(alloc);
    for range in units {
        ranges.push((index_at(places, range.start), index_at(places, range.end)))?;
    }
    range_words(alloc, ranges.as_slice())
}

/// Returns the index, in the list of characters, of the one that begins at `unit`, or the number of
/// characters if `unit` is the text's length. If no character begins there, returns `unit` itself.
pub fn index_at(places: &[usize], unit: usize) -> usize {
    places.binary_search(&unit).unwrap_or(unit)
}
