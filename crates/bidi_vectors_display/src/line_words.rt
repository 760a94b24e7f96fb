//! What a displayed line returns, as words of a row. Places and ranges count the characters of the text.

use bidi_base::level::Level;
use bidi_display::carets::{Affinity, Caret, Position, Side};
use bidi_display::displayed_line::DisplayedLine;
use bidi_display::line_breaks::{Break, GivenBreaks, SimpleBreaks};
use bidi_unicode::UnicodeData;
use bidi_vectors_format::answer::{char_words, index_at, level_words, range_words};
use bidi_vectors_format::fault::{RowFault, Why};
use bidi_vectors_format::item::{number, numbers, ranges};
use bidi_vectors_format::row::Row;
use std::alloc::Global;
use std::ops::Range;

/// A displayed line, and the places of its text's characters: the index of the first code unit of each, and the length
/// of the text.
#[derive(Drop)]
pub struct Shown {
    pub line: DisplayedLine,
    pub places: Vec<usize>,
}

impl Shown {
    // Returns how many characters of the text are before a code unit.
    fn index_at(&self, unit: usize) -> usize {
        index_at(self.places.as_slice(), unit)
    }

    // Returns the first code unit of a character.
    fn unit_at(&self, index: usize) -> Result<usize, RowFault> {
        let unit = self.places.get(index).copied();
        unit.ok_or(RowFault::Line(0, Why::TextRange))
    }

    // Returns a range of code units in characters.
    fn chars_of(&self, units: &Range<usize>) -> (usize, usize) {
        (self.index_at(units.start), self.index_at(units.end))
    }
}

/// Returns the level after L1 of each character.
pub fn levels_of(alloc: Global, line: &DisplayedLine) -> Result<String, RowFault> {
    let mut levels: Vec<Level> = Vec::new(alloc);
    for c in line.chars() {
        levels.push(c.level)?;
    }
    level_words(alloc, levels.as_slice())
}

/// Returns the displayed characters from left to right.
pub fn text_words(alloc: Global, line: &DisplayedLine) -> Result<String, RowFault> {
    let mut text = String::new(alloc);
    line.push_text(&UnicodeData, &mut text)?;
    let chars: Vec<char> = text.as_str().chars().collect(alloc)?;
    char_words(alloc, chars.as_slice())
}

/// Returns the clusters from left to right: the characters, the level and the columns of each, as in `0..2:1:3..4`.
pub fn cluster_words(alloc: Global, shown: &Shown) -> Result<String, RowFault> {
    let line = &shown.line;
    let mut words = String::new(alloc);
    for index in line.order() {
        if let Some(cluster) = line.clusters().get(*index) {
            let (start, end) = shown.chars_of(&(cluster.start..cluster.end));
            let (level, columns) = (cluster.level.number(), line.columns_of(*index));
            write!(words, " {start}..{end}:{level}:{columns:?}")?;
        }
    }
    trimmed(alloc, &words)
}

// Returns words without the space before them.
fn trimmed(alloc: Global, words: &String) -> Result<String, RowFault> {
    Ok(String::from_str(alloc, words.as_str().trim())?)
}

// Appends a caret: its column, or both with a comma between them, or `none`.
fn push_caret(words: &mut String, caret: Option<Caret>) -> Result<(), RowFault> {
    match caret {
        None => words.push_str(" none")?,
        Some(Caret { before, after }) if before == after => write!(words, " {before}")?,
        Some(Caret { before, after }) => write!(words, " {before},{after}")?,
    }
    Ok(())
}

/// Returns the caret before each character of the line, and at its end.
pub fn caret_words(alloc: Global, shown: &Shown) -> Result<String, RowFault> {
    let line = shown.line.range();
    let mut words = String::new(alloc);
    for unit in &shown.places {
        if line.start <= *unit && *unit <= line.end {
            push_caret(&mut words, shown.line.caret(*unit))?;
        }
    }
    trimmed(alloc, &words)
}

// Appends a position: the place, and `<` for the side of the character before it or `>` for the one after it.
fn push_position(words: &mut String, shown: &Shown, position: Position) -> Result<(), RowFault> {
    let place = shown.index_at(position.unit);
    match position.affinity {
        Affinity::Before => write!(words, " {place}<")?,
        Affinity::After => write!(words, " {place}>")?,
    }
    Ok(())
}

/// Returns the position of a click left of the line, on both halves of each column and of the one after the last, and
/// right of the line.
pub fn click_words(alloc: Global, shown: &Shown) -> Result<String, RowFault> {
    let line = &shown.line;
    let mut words = String::new(alloc);
    push_position(&mut words, shown, line.position_at_end(Side::Left))?;
    for column in 0..line.width() {
        push_position(&mut words, shown, line.position_at(column, Side::Left))?;
        push_position(&mut words, shown, line.position_at(column, Side::Right))?;
    }
    push_position(
        &mut words,
        shown,
        line.position_at(line.width(), Side::Left),
    )?;
    push_position(&mut words, shown, line.position_at_end(Side::Right))?;
    trimmed(alloc, &words)
}

/// Returns the range of the line without the white space at its end.
pub fn part_words(alloc: Global, shown: &Shown) -> Result<String, RowFault> {
    range_words(alloc, &[shown.chars_of(&shown.line.shown_part())])
}

// Appends the columns of a selection, and `;`.
fn push_selection(
    alloc: Global,
    words: &mut String,
    shown: &Shown,
    (start, end): (usize, usize),
) -> Result<(), RowFault> {
    let mut columns = Vec::new(alloc);
    let range = shown.unit_at(start)?..shown.unit_at(end)?;
    shown.line.push_selection(range, &mut columns)?;
    for range in &columns {
        write!(words, " {range:?}")?;
    }
    words.push_str(" ;")?;
    Ok(())
}

/// Returns the columns of each selection of a row, with `;` after each.
pub fn selection_words(alloc: Global, row: &Row<'_>, shown: &Shown) -> Result<String, RowFault> {
    let mut words = String::new(alloc);
    for range in &ranges(alloc, row.field("selected")?)? {
        push_selection(alloc, &mut words, shown, *range)?;
    }
    trimmed(alloc, &words)
}

// Sets the break after each character that ends at one of these places.
fn set_breaks(
    breaks: &mut [Break],
    shown: &Shown,
    places: &[usize],
    kind: Break,
) -> Result<(), RowFault> {
    let fault = RowFault::Line(0, Why::TextRange);
    for place in places {
        let unit = shown.unit_at(*place)?.checked_sub(1).ok_or(fault)?;
        match breaks.get_mut(unit) {
            Some(at) => *at = kind,
            None => return Err(fault),
        }
    }
    Ok(())
}

// Returns the places of a field, or none without the field.
fn places_in(alloc: Global, row: &Row<'_>, key: &str) -> Result<Vec<usize>, RowFault> {
    match row.get(key) {
        Some(field) => numbers(alloc, field),
        None => Ok(Vec::new(alloc)),
    }
}

// Returns the breaks that a row gives, one for each code unit.
fn breaks_of(alloc: Global, row: &Row<'_>, shown: &Shown) -> Result<Vec<Break>, RowFault> {
    let mut breaks = Vec::new(alloc);
    breaks.resize(shown.places.last().copied().unwrap_or(0), Break::Forbidden)?;
    let allowed = places_in(alloc, row, "allowed")?;
    set_breaks(
        breaks.as_mut_slice(),
        shown,
        allowed.as_slice(),
        Break::Allowed,
    )?;
    let forced = places_in(alloc, row, "forced")?;
    set_breaks(
        breaks.as_mut_slice(),
        shown,
        forced.as_slice(),
        Break::Forced,
    )?;
    Ok(breaks)
}

// Returns the lines that a row's line is cut into, by the breaks of the row, or else by the simple rule.
fn lines_of(alloc: Global, row: &Row<'_>, shown: &Shown) -> Result<Vec<Range<usize>>, RowFault> {
    let limit = number(row.field("limit")?)?;
    let mut lines = Vec::new(alloc);
    if row.get("allowed").is_none() && row.get("forced").is_none() {
        shown.line.push_lines(&SimpleBreaks, limit, &mut lines)?;
    } else {
        let breaks = breaks_of(alloc, row, shown)?;
        let given = GivenBreaks::new(breaks.as_slice());
        shown.line.push_lines(&given, limit, &mut lines)?;
    }
    Ok(lines)
}

/// Returns the lines that a row's line is cut into.
pub fn line_words(alloc: Global, row: &Row<'_>, shown: &Shown) -> Result<String, RowFault> {
    let mut found = Vec::new(alloc);
    for line in &lines_of(alloc, row, shown)? {
        found.push(shown.chars_of(line))?;
    }
    range_words(alloc, found.as_slice())
}
