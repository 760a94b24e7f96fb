//! The rules over lists of characters.

use crate::texts::{CHARACTERS, LENGTH};
use crate::trial::{Fault, tried, tried_by};
use bidi_base::char_data::BidiClass::{self, L};
use bidi_base::data_source::{BidiDataSource, BidiMatchedOpeningBracket, TableBidiData};
use bidi_base::level::{LTR_LEVEL, Level};
use bidi_plain::plain::{
    Explicit, PlainSequence, explicit_levels, implicit, neutral, pairs, sequences, weak,
};
use bidi_vectors_format::conditions::{are_kept, are_left, have_directions, is_side};

// The characters' classes, their classes under overrides, and their brackets.
#[derive(Clone, Copy)]
struct Characters {
    classes: [BidiClass; LENGTH],
    overridden: [BidiClass; LENGTH],
    brackets: [Option<BidiMatchedOpeningBracket>; LENGTH],
}

// Reads the characters of the text.
fn read_text(source: &TableBidiData<'_>) -> Characters {
    let mut read = Characters {
        classes: [L; LENGTH],
        overridden: [L; LENGTH],
        brackets: [None; LENGTH],
    };
    for index in 0..LENGTH {
        read.classes[index] = source.bidi_class(CHARACTERS[index]);
        read.brackets[index] = source.bidi_matched_opening_bracket(CHARACTERS[index]);
    }
    read
}

// Returns the characters of the text at these indexes, and their number.
fn gathered(text: &Characters, overridden: &[BidiClass], places: &[usize]) -> (Characters, usize) {
    let mut read = *text;
    let mut count = 0;
    for place in places {
        if count < LENGTH && *place < LENGTH && *place < overridden.len() {
            read.classes[count] = text.classes[*place];
            read.brackets[count] = text.brackets[*place];
            read.overridden[count] = overridden[*place];
            count += 1;
        }
    }
    (read, count)
}

// Tries the rules that resolve a sequence.
fn try_sequence(
    rt: &(impl Print + AllocGlobal),
    text: &Characters,
    overridden: &[BidiClass],
    sequence: &PlainSequence,
    level: Level,
) -> Result<(), Fault> {
    let alloc = rt.alloc();
    let (read, count) = gathered(text, overridden, sequence.places());
    if count > LENGTH {
        return Err(Fault::NoTrial);
    }
    let (classes, brackets) = (&read.classes[..count], &read.brackets[..count]);
    let overridden = &read.overridden[..count];
    let (sos, eos) = (sequence.sos(), sequence.eos());
    if !is_side(sos) || !is_side(eos) || !are_kept(classes) || !are_kept(overridden) {
        return Err(Fault::NoTrial);
    }
    let resolved = tried(rt, "plain::weak", || Ok(weak(alloc, sos, overridden)?))?;
    let resolved = resolved.as_slice();
    if resolved.len() != count || !are_left(resolved) || level.number() > 125 {
        return Err(Fault::NoTrial);
    }
    tried(rt, "plain::pairs", || Ok(pairs(alloc, resolved, brackets)?))?;
    let directed = tried(
        rt,
        "plain::neutral",
        || Ok(neutral(alloc, level, sos, eos, classes, brackets, resolved)?),
    )?;
    if !have_directions(directed.as_slice()) {
        return Err(Fault::NoTrial);
    }
    tried(
        rt,
        "plain::implicit",
        || Ok(implicit(alloc, level, directed.as_slice())?),
    )?;
    Ok(())
}

fn are_explicit_equal(this: &Explicit, other: &Explicit) -> bool {
    this.levels() == other.levels() && this.classes() == other.classes()
}

fn are_sequences_equal(these: &Vec<PlainSequence>, others: &Vec<PlainSequence>) -> bool {
    let are_pairs_equal = these.iter().zip(others).all(|(this, other)| {
        this.places() == other.places() && this.sos() == other.sos() && this.eos() == other.eos()
    });
    these.len() == others.len() && are_pairs_equal
}

/// Tries each rule.
pub fn run(rt: &(impl Print + AllocGlobal), source: &TableBidiData<'_>) -> Result<(), Fault> {
    let alloc = rt.alloc();
    let text = read_text(source);
    let explicit = tried_by(
        rt,
        "plain::explicit_levels",
        || Ok(explicit_levels(alloc, LTR_LEVEL, &text.classes)?),
        are_explicit_equal,
    )?;
    if explicit.levels().len() != LENGTH {
        return Err(Fault::NoTrial);
    }
    let found = tried_by(
        rt,
        "plain::sequences",
        || Ok(sequences(alloc, LTR_LEVEL, &text.classes, explicit.levels())?),
        are_sequences_equal,
    )?;
    for sequence in &found {
        let first = sequence.places().first().copied().unwrap_or(0);
        let level = explicit.levels().get(first).copied().unwrap_or(LTR_LEVEL);
        try_sequence(rt, &text, explicit.classes(), sequence, level)?;
    }
    Ok(())
}
