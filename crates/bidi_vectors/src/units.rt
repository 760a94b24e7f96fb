//! Rows of texts in each encoding: where characters begin, and what the methods of a text return there.

use bidi_text::text::{CharsText, StrText, TextSource, Utf16Text, is_line, is_per_char};
use bidi_vectors_format::answer::{char_words, flag_word, number_words, places_of};
use bidi_vectors_format::class::classes_of;
use bidi_vectors_format::fault::RowFault;
use bidi_vectors_format::row::Row;
use bidi_vectors_format::tally::Tally;
use bidi_vectors_format::text::RowText;
use std::alloc::Global;
use std::ops::Range;

// Returns the characters of a range of a text's code units, if the range is a line.
fn characters_of_line<T: TextSource>(
    alloc: Global,
    text: T,
    line: Range<usize>,
) -> Result<Option<Vec<char>>, RowFault> {
    if !is_line(text, &line) {
        return Ok(None);
    }
    Ok(Some(text.subrange(line).chars().collect(alloc)?))
}

// Returns the index after a character.
fn end_of<T: TextSource>(place: usize, c: char) -> usize {
    place.saturating_add(T::char_len(c))
}

// Tests that the iterators of a text return its characters, with their indexes and lengths.
fn walks_agree<T: TextSource>(
    alloc: Global,
    text: T,
    chars: &[char],
    places: &[usize],
) -> Result<bool, RowFault> {
    let walked: Vec<char> = text.chars().collect(alloc)?;
    if walked.as_slice() != chars {
        return Ok(false);
    }
    for ((place, length), (c, start)) in text.indices_lengths().zip(chars.iter().zip(places)) {
        if place != *start || place.saturating_add(length) != end_of::<T>(*start, *c) {
            return Ok(false);
        }
    }
    Ok(true)
}

// Returns the character that begins at a code unit, if there is one.
fn char_beginning(chars: &[char], places: &[usize], unit: usize) -> Option<char> {
    match places.binary_search(&unit) {
        Ok(index) => chars.get(index).copied(),
        Err(_) => None,
    }
}

// Tests what the methods of a text return at a code unit.
fn unit_agrees<T: TextSource>(text: T, chars: &[char], places: &[usize], unit: usize) -> bool {
    let begins = char_beginning(chars, places, unit);
    let character = begins.map(|c| (c, T::char_len(c)));
    let is_boundary = places.binary_search(&unit).is_ok();
    let ascii = match begins {
        Some(c) if c.is_ascii() => Some(c),
        _ => None,
    };
    text.char_at(unit) == character
        && text.is_boundary(unit) == is_boundary
        && text.ascii_at(unit).map(|byte| char::from(byte)) == ascii
        && next_agrees(text, character, unit)
        && block_agrees(text, unit)
        && low_block_agrees(text, unit)
}

// Tests the character that a text returns at an index before its last code unit.
fn next_agrees<T: TextSource>(text: T, character: Option<(char, usize)>, unit: usize) -> bool {
    if unit < text.len().saturating_sub(1) && text.is_boundary(unit) {
        Some(text.next_at(unit)) == character
    } else {
        true
    }
}

// Tests the block of sixteen ASCII characters at an index, if the text returns one.
fn block_agrees<T: TextSource>(text: T, unit: usize) -> bool {
    let Some(block) = text.ascii_block_at(unit) else {
        return true;
    };
    for (i, byte) in block.iter().enumerate() {
        if text.ascii_at(unit.saturating_add(i)) != Some(*byte) {
            return false;
        }
    }
    true
}

// Tests the block of sixteen characters below U+0800 at an index, if the text returns one.
fn low_block_agrees<T: TextSource>(text: T, unit: usize) -> bool {
    let Some(block) = text.low_block_at(unit) else {
        return true;
    };
    for (i, code) in block.iter().enumerate() {
        let character = char::from_u32(u32::from(*code)).map(|c| (c, 1));
        if text.char_at(unit.saturating_add(i)) != character {
            return false;
        }
    }
    true
}

// Tests each range of a text, and ranges past its end: a range is a line exactly if it is in the text and cuts no
// character.
fn lines_agree<T: TextSource>(
    alloc: Global,
    text: T,
    chars: &[char],
    places: &[usize],
) -> Result<bool, RowFault> {
    let past_end = text.len().saturating_add(2);
    for start in 0..past_end {
        for end in 0..past_end {
            if !line_agrees(alloc, text, chars, places, start..end)? {
                return Ok(false);
            }
        }
    }
    Ok(true)
}

fn line_agrees<T: TextSource>(
    alloc: Global,
    text: T,
    chars: &[char],
    places: &[usize],
    line: Range<usize>,
) -> Result<bool, RowFault> {
    let first = places.binary_search(&line.start);
    let last = places.binary_search(&line.end);
    let found = characters_of_line(alloc, text, line)?;
    let agree = match (first, last, &found) {
        (Ok(first), Ok(last), Some(found)) => chars.get(first..last) == Some(found.as_slice()),
        (Ok(first), Ok(last), None) => last < first,
        (_, _, found) => found.is_none(),
    };
    Ok(agree)
}

// Tests that all methods of a text agree with its characters and their indexes, also after its end.
fn calls_agree<T: TextSource>(
    alloc: Global,
    text: T,
    chars: &[char],
    places: &[usize],
) -> Result<bool, RowFault> {
    for unit in 0..text.len().saturating_add(2) {
        if !unit_agrees(text, chars, places, unit) {
            return Ok(false);
        }
    }
    Ok(walks_agree(alloc, text, chars, places)? && lines_agree(alloc, text, chars, places)?)
}

// Returns as text whether all methods of a text agree.
fn agreement<T: TextSource>(
    alloc: Global,
    text: T,
    chars: &[char],
    places: &[usize],
) -> Result<String, RowFault> {
    let agree = calls_agree(alloc, text, chars, places)?;
    Ok(String::from_str(alloc, if agree { ALL_AGREE } else { "some differ" })?)
}

const ALL_AGREE: &str = "all calls agree";

fn check<T: TextSource>(
    alloc: Global,
    text: T,
    row: &Row<'_>,
    tally: &mut Tally,
    key: &str,
    call: &'static str,
) -> Result<(), RowFault> {
    if row.get(key).is_none() {
        return Ok(());
    }
    let places = places_of(alloc, text)?;
    let chars: Vec<char> = text.chars().collect(alloc)?;
    let (places, chars) = (places.as_slice(), chars.as_slice());
    tally.agree(row, key, call, number_words(alloc, places));
    tally.agree(row, "characters", call, char_words(alloc, chars));
    let wanted = Ok(String::from_str(alloc, ALL_AGREE)?);
    tally.same(row, call, wanted, agreement(alloc, text, chars, places));
    Ok(())
}

/// Runs a row of a text: in each encoding, the index at which each character begins, and then the length.
pub fn run(alloc: Global, row: &Row<'_>, tally: &mut Tally) -> Result<(), RowFault> {
    row.has_only(&["text", "characters", "utf8", "utf16", "list"])?;
    let text = RowText::of_row(alloc, row)?;
    let units = StrText::new(text.utf8.as_str());
    check(alloc, units, row, tally, "utf8", "StrText")?;
    let units = Utf16Text::new(text.utf16.as_slice());
    check(alloc, units, row, tally, "utf16", "Utf16Text")?;
    let units = CharsText::new(text.chars.as_slice());
    check(alloc, units, row, tally, "list", "CharsText")
}

/// Runs a row of a text and entries: whether there is one for each byte, equal within each character.
pub fn run_entries(alloc: Global, row: &Row<'_>, tally: &mut Tally) -> Result<(), RowFault> {
    row.has_only(&["text", "entries", "alike"])?;
    let text = RowText::of_row(alloc, row)?;
    let entries = classes_of(alloc, row.field("entries")?)?;
    let alike = is_per_char(StrText::new(text.utf8.as_str()), entries.as_slice());
    tally.agree_word(row, "alike", "text::is_per_char", flag_word(alike));
    Ok(())
}
