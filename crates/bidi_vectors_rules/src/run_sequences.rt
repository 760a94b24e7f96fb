//! Rows of isolating run sequences, and of the passes over their code units. Runs are ranges of code units here.

use crate::unit_sequences::{sequence_of, whole_sequence_of};
use crate::weak_types::class_field;
use bidi_base::char_data::BidiClass::{L, R};
use bidi_rules::prepare::IsolatingRunSequence;
use bidi_text::text::StrText;
use bidi_vectors_format::answer::{class_words, flag_word, number_words, run_words};
use bidi_vectors_format::fault::{RowFault, Why};
use bidi_vectors_format::item::{number, ranges};
use bidi_vectors_format::row::Row;
use bidi_vectors_format::tally::Tally;
use bidi_vectors_format::text::RowText;
use std::alloc::Global;

// Compares a sequence with the runs, sos and eos that it was made of.
fn check_made(
    alloc: Global,
    row: &Row<'_>,
    tally: &mut Tally,
    sequence: &IsolatingRunSequence,
) -> Result<(), RowFault> {
    let words = run_words(alloc, sequence.runs());
    tally.agree(row, "runs", "IsolatingRunSequence::runs", words);
    let words = class_words(alloc, &[sequence.sos()]);
    tally.agree(row, "sos", "IsolatingRunSequence::sos", words);
    let words = class_words(alloc, &[sequence.eos()]);
    tally.agree(row, "eos", "IsolatingRunSequence::eos", words);
    if row.get("text").is_some() {
        let text = RowText::of_row(alloc, row)?;
        let fits = sequence.fits(StrText::new(text.utf8.as_str()));
        tally.agree_word(row, "fits", "IsolatingRunSequence::fits", flag_word(fits));
    }
    Ok(())
}

/// Runs a row of runs with sos and eos, and whether they make a sequence. With a text, also tests whether they fit it.
pub fn run_sequence(alloc: Global, row: &Row<'_>, tally: &mut Tally) -> Result<(), RowFault> {
    row.has_only(&["runs", "sos", "eos", "valid", "text", "fits"])?;
    let (sos, eos) = (class_field(row, "sos")?, class_field(row, "eos")?);
    let runs = ranges(alloc, row.field("runs")?)?;
    let call = "IsolatingRunSequence::new";
    match sequence_of(alloc, runs.as_slice(), sos, eos)? {
        Some(sequence) => {
            tally.agree_word(row, "valid", call, flag_word(true));
            check_made(alloc, row, tally, &sequence)
        }
        None => {
            tally.agree_word(row, "valid", call, flag_word(false));
            Ok(())
        }
    }
}

// Returns the units of a sequence in ascending and in descending order from an index in one of its runs.
fn walks(
    alloc: Global,
    sequence: &IsolatingRunSequence,
    pos: usize,
    run: usize,
) -> Result<(Vec<usize>, Vec<usize>), RowFault> {
    let runs = sequence.runs();
    if run < runs.len() && runs[run].start <= pos && pos <= runs[run].end {
        Ok((
            sequence.iter_forwards_from(pos, run).collect(alloc)?,
            sequence.iter_backwards_from(pos, run).collect(alloc)?,
        ))
    } else {
        Err(RowFault::Line(0, Why::Place))
    }
}

/// Runs a row of runs, a unit in one of them, and the units in ascending and in descending order from there.
pub fn run_walk(alloc: Global, row: &Row<'_>, tally: &mut Tally) -> Result<(), RowFault> {
    row.has_only(&["runs", "unit", "run", "upwards", "downwards"])?;
    let (unit, run) = (number(row.field("unit")?)?, number(row.field("run")?)?);
    let runs = ranges(alloc, row.field("runs")?)?;
    let sequence = whole_sequence_of(alloc, runs.as_slice(), R, L, row.line)?;
    let (forwards, backwards) = walks(alloc, &sequence, unit, run)?;
    let words = number_words(alloc, forwards.as_slice());
    let call = "IsolatingRunSequence::iter_forwards_from";
    tally.agree(row, "upwards", call, words);
    let words = number_words(alloc, backwards.as_slice());
    let call = "IsolatingRunSequence::iter_backwards_from";
    tally.agree(row, "downwards", call, words);
    Ok(())
}
