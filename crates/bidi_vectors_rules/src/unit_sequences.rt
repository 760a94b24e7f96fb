//! Sequences of runs over the code units of a text.

use bidi_base::char_data::BidiClass;
use bidi_rules::implicit::resolve_weak;
use bidi_rules::prepare::{IsolatingRunSequence, LevelRun};
use bidi_text::text::{StrText, is_per_char};
use bidi_vectors_format::answer::places_of;
use bidi_vectors_format::class::class_of;
use bidi_vectors_format::fault::{RowFault, Why};
use bidi_vectors_format::item::range_of;
use bidi_vectors_format::row::Field;
use std::alloc::Global;

/// A sequence: the start and the end of each of its runs, its sos and its eos.
#[derive(Drop)]
pub struct Sequence {
    pub runs: Vec<(usize, usize)>,
    pub sos: BidiClass,
    pub eos: BidiClass,
}

// Converts runs of characters to runs of code units of a text.
fn runs_in(
    alloc: Global,
    text: StrText,
    runs: &[(usize, usize)],
    line: usize,
) -> Result<Vec<(usize, usize)>, RowFault> {
    let places = places_of(alloc, text)?;
    let mut found = Vec::new(alloc);
    let fault = RowFault::Line(line, Why::TextRange);
    for run in runs {
        found.push(run_in(places.as_slice(), run).ok_or(fault)?)?;
    }
    Ok(found)
}

// Converts a run of characters to a run of code units, given where each character begins and where the last one ends.
fn run_in(places: &[usize], run: &(usize, usize)) -> Option<(usize, usize)> {
    let (start, end) = run;
    Some((places.get(*start).copied()?, places.get(*end).copied()?))
}

/// Returns the runs of a field as ranges of code units. The field has ranges of a text's characters.
pub fn runs_of_field(
    alloc: Global,
    text: StrText,
    field: Field<'_>,
) -> Result<Vec<(usize, usize)>, RowFault> {
    let mut runs = Vec::new(alloc);
    for word in field.value.split_whitespace() {
        runs.push(range_of(word, field.line)?)?;
    }
    runs_in(alloc, text, runs.as_slice(), field.line)
}

// Reads a sequence such as `0..3 4..7 R R`: its runs, sos and eos.
fn sequence_of_words(
    alloc: Global,
    text: StrText,
    words: &str,
    line: usize,
) -> Result<Sequence, RowFault> {
    let mut runs = Vec::new(alloc);
    let mut sides: [Option<BidiClass>; 2] = [None, None];
    for word in words.split_whitespace() {
        if word.contains("..") {
            runs.push(range_of(word, line)?)?;
        } else {
            sides = [sides[1], Some(class_of(word, line)?)];
        }
    }
    match sides {
        [Some(sos), Some(eos)] => Ok(Sequence {
            runs: runs_in(alloc, text, runs.as_slice(), line)?,
            sos,
            eos,
        }),
        _ => Err(RowFault::Line(line, Why::Sides)),
    }
}

/// Returns the sequences of a field, in code units of a text.
///
/// The field has the runs, sos and eos of each sequence, and a semicolon between two sequences.
pub fn sequences_of_field(
    alloc: Global,
    text: StrText,
    field: Field<'_>,
) -> Result<Vec<Sequence>, RowFault> {
    let mut sequences = Vec::new(alloc);
    for words in field.value.split(";") {
        if !words.trim().is_empty() {
            sequences.push(sequence_of_words(alloc, text, words, field.line)?)?;
        }
    }
    Ok(sequences)
}

/// Returns the sequence of runs with these starts and ends, if they make one.
pub fn sequence_of(
    alloc: Global,
    ends: &[(usize, usize)],
    sos: BidiClass,
    eos: BidiClass,
) -> Result<Option<IsolatingRunSequence>, RowFault> {
    let mut runs: Vec<LevelRun> = Vec::new(alloc);
    for (start, end) in ends {
        runs.push(*start..*end)?;
    }
    Ok(IsolatingRunSequence::new(runs, sos, eos))
}

/// Returns the sequence of runs with these starts and ends, or a fault if they make none.
pub fn whole_sequence_of(
    alloc: Global,
    ends: &[(usize, usize)],
    sos: BidiClass,
    eos: BidiClass,
    line: usize,
) -> Result<IsolatingRunSequence, RowFault> {
    match sequence_of(alloc, ends, sos, eos)? {
        Some(sequence) => Ok(sequence),
        None => Err(RowFault::Line(line, Why::Sequence)),
    }
}

/// Resolves the weak types of a sequence in place. There is one class for each code unit of the text.
pub fn resolve_weak_units(
    text: StrText,
    sequence: &IsolatingRunSequence,
    classes: &mut [BidiClass],
) -> Result<(), RowFault> {
    if !sequence.fits(text) || !is_per_char(text, classes) {
        return Err(RowFault::Line(0, Why::OtherText));
    }
    resolve_weak(text, sequence, classes);
    Ok(())
}
