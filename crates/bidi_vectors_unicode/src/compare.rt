//! Compares a result with the expected one.

use crate::case::{Text, Wanted};
use crate::fault::Fault;
use crate::forms::{Answer, Form};
use bidi_base::level::Level;
use bidi_text::text::{CharsText, StrText, TextSource, Utf16Text};
use std::alloc::Global;
use unicode_bidi::BidiInfo;

/// A part of a result that differs from the expected one, and both as text.
#[derive(Drop)]
pub struct Difference {
    pub part: &'static str,
    pub wanted: String,
    pub came: String,
}

// Returns levels as text, with x for none.
fn level_words(alloc: Global, levels: &[Option<Level>]) -> Result<String, Fault> {
    let mut words = String::new(alloc);
    for level in levels {
        if !words.is_empty() {
            words.push(' ')?;
        }
        match level {
            Some(level) => {
                let number = level.number();
                write!(words, "{number}")?
            }
            None => words.push('x')?,
        }
    }
    Ok(words)
}

// Returns indexes as text.
fn place_words(alloc: Global, places: &[usize]) -> Result<String, Fault> {
    let mut words = String::new(alloc);
    for place in places {
        if !words.is_empty() {
            words.push(' ')?;
        }
        write!(words, "{place}")?;
    }
    Ok(words)
}

// Returns the difference between two paragraph levels.
fn of_paragraph(alloc: Global, wanted: Level, came: Level) -> Result<Difference, Fault> {
    Ok(Difference {
        part: "paragraph level",
        wanted: level_words(alloc, &[Some(wanted)])?,
        came: level_words(alloc, &[Some(came)])?,
    })
}

// Returns the difference between two lists of levels.
fn of_levels(
    alloc: Global,
    wanted: &[Option<Level>],
    came: &[Option<Level>],
) -> Result<Difference, Fault> {
    Ok(Difference {
        part: "levels",
        wanted: level_words(alloc, wanted)?,
        came: level_words(alloc, came)?,
    })
}

// Returns the difference between two orders, or `None` if they are equal.
fn in_order(
    alloc: Global,
    part: &'static str,
    wanted: &[usize],
    came: &[usize],
) -> Result<Option<Difference>, Fault> {
    if wanted == came {
        return Ok(None);
    }
    Ok(Some(Difference {
        part,
        wanted: place_words(alloc, wanted)?,
        came: place_words(alloc, came)?,
    }))
}

/// A result for each character: the index of its first code unit, and its level.
#[derive(Drop)]
pub struct PerChar {
    pub places: Vec<usize>,
    pub levels: Vec<Level>,
}

impl PerChar {
    fn of_units<T: TextSource>(alloc: Global, text: T, units: &[Level]) -> Result<PerChar, Fault> {
        let mut places = Vec::new(alloc);
        let mut levels = Vec::new(alloc);
        for (place, _) in text.char_indices() {
            if let Some(level) = units.get(place) {
                places.push(place)?;
                levels.push(*level)?;
            }
        }
        Ok(PerChar { places, levels })
    }

    /// Reads the result of this form: `units` has one level for each of its code units.
    pub fn new(alloc: Global, form: Form, text: &Text, units: &[Level]) -> Result<PerChar, Fault> {
        match form {
            Form::Info | Form::Paragraph => {
                PerChar::of_units(alloc, StrText::new(text.utf8.as_str()), units)
            }
            Form::Info16 | Form::Paragraph16 => {
                PerChar::of_units(alloc, Utf16Text::new(text.utf16.as_slice()), units)
            }
            Form::List => { PerChar::of_units(alloc, CharsText::new(text.chars.as_slice()), units) }
        }
    }
}

/// Returns the levels of a result, and none for a character that X9 removes.
pub fn levels_after_x9(
    alloc: Global,
    levels: &[Level],
    removed: &[bool],
) -> Result<Vec<Option<Level>>, Fault> {
    let mut found = Vec::new(alloc);
    for (level, is_removed) in levels.iter().zip(removed) {
        found.push(if *is_removed { None } else { Some(*level) })?;
    }
    Ok(found)
}

/// Returns the characters that X9 keeps, from left to right, in the visual order of their levels.
pub fn order_by_levels(
    alloc: Global,
    levels: &[Level],
    removed: &[bool],
) -> Result<Vec<usize>, Fault> {
    let mut kept = Vec::new(alloc);
    let mut kept_levels = Vec::new(alloc);
    for (index, (level, is_removed)) in levels.iter().zip(removed).enumerate() {
        if !*is_removed {
            kept.push(index)?;
            kept_levels.push(*level)?;
        }
    }
    let mut order = Vec::new(alloc);
    for place in BidiInfo::reorder_visual(alloc, kept_levels.as_slice())? {
        if let Some(index) = kept.get(place) {
            order.push(*index)?;
        }
    }
    Ok(order)
}

// Appends the character at an index, unless X9 removes it.
fn push_kept(order: &mut Vec<usize>, index: usize, removed: &[bool]) -> Result<(), Fault> {
    if removed.get(index) == Some(&false) {
        order.push(index)?;
    }
    Ok(())
}

// Appends the characters of a run, from left to right.
fn push_run(
    order: &mut Vec<usize>,
    run: (usize, usize),
    is_rtl: bool,
    removed: &[bool],
) -> Result<(), Fault> {
    let (start, end) = run;
    for step in 0..end.saturating_sub(start) {
        let index = if is_rtl {
            end.saturating_sub(step).saturating_sub(1)
        } else {
            start.saturating_add(step)
        };
        push_kept(order, index, removed)?;
    }
    Ok(())
}

// Returns the index of the character that begins at a code unit, or the number of characters at the text's end.
fn index_at(places: &[usize], unit: usize) -> usize {
    match places.binary_search(&unit) {
        Ok(index) => index,
        Err(index) => index,
    }
}

/// Returns the characters that X9 keeps, from left to right, by the visual runs.
pub fn order_by_runs(
    alloc: Global,
    answer: &Answer,
    found: &PerChar,
    removed: &[bool],
) -> Result<Vec<usize>, Fault> {
    let places = found.places.as_slice();
    let mut order = Vec::new(alloc);
    for run in &answer.runs {
        let (start, end) = (index_at(places, run.start), index_at(places, run.end));
        let is_rtl = match found.levels.get(start) {
            Some(level) => level.is_rtl(),
            None => false,
        };
        push_run(&mut order, (start, end), is_rtl, removed)?;
    }
    Ok(order)
}

/// Returns the first part of a result that differs from the expected one, or `None` if there is none.
pub fn compare(
    alloc: Global,
    form: Form,
    text: &Text,
    answer: &Answer,
    wanted: &Wanted,
) -> Result<Option<Difference>, Fault> {
    if let Some(level) = wanted.paragraph
        && level != answer.paragraph
    {
        return Ok(Some(of_paragraph(alloc, level, answer.paragraph)?));
    }
    let removed = text.removed.as_slice();
    let found = PerChar::new(alloc, form, text, answer.levels.as_slice())?;
    let levels = levels_after_x9(alloc, found.levels.as_slice(), removed)?;
    if levels.as_slice() != wanted.levels.as_slice() {
        let wanted = wanted.levels.as_slice();
        return Ok(Some(of_levels(alloc, wanted, levels.as_slice())?));
    }
    compare_orders(alloc, answer, &found, removed, wanted.order.as_slice())
}

fn compare_orders(
    alloc: Global,
    answer: &Answer,
    found: &PerChar,
    removed: &[bool],
    wanted: &[usize],
) -> Result<Option<Difference>, Fault> {
    let order = order_by_levels(alloc, found.levels.as_slice(), removed)?;
    let by_levels = in_order(alloc, "order by reorder_visual", wanted, order.as_slice())?;
    if by_levels.is_some() {
        return Ok(by_levels);
    }
    let order = order_by_runs(alloc, answer, found, removed)?;
    in_order(alloc, "order by visual runs", wanted, order.as_slice())
}
