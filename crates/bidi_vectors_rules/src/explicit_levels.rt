//! Rows of explicit levels (X1 to X8) and of isolating run sequences (X9, X10), over lists and in place.

ghost use Rattle.std.specs.Prelude.{◌≤◌};

use crate::explicit_pass::{Paragraph, Pass, Prepared};
use crate::explicit_units::ExplicitUnits;
use bidi_base::char_data::BidiClass::{self, BN};
use bidi_base::level::Level;
use bidi_plain::plain::{Explicit, PlainSequence, explicit_levels, sequences};
use bidi_rules::prepare::{IsolatingRunSequence, not_removed_by_x9, removed_by_x9};
use bidi_text::text::StrText;
use bidi_vectors_format::answer::{
    class_words, classes_in, level_words, levels_in, ranges_in, run_words,
};
use bidi_vectors_format::class::classes_of;
use bidi_vectors_format::conditions::{explicit_level, has_initiator};
use bidi_vectors_format::fault::RowFault;
use bidi_vectors_format::row::Row;
use bidi_vectors_format::tally::Tally;
use bidi_vectors_format::text::RowText;
use std::alloc::Global;

// Returns a text with one character for each class, alternately of one and of two code units.
fn letters(alloc: Global, classes: &[BidiClass]) -> Result<String, RowFault> {
    let mut text = String::new(alloc);
    for index in 0..classes.len() {
        text.push(if index % 2 == 0 { 'x' } else { '\u{E9}' })?;
    }
    Ok(text)
}

// Returns sequences over a list as text: the indexes of each, its sos and its eos.
fn plain_words(alloc: Global, sequences: &[PlainSequence]) -> Result<String, RowFault> {
    let mut words = String::new(alloc);
    for sequence in sequences {
        if !words.is_empty() {
            words.push_str(" ; ")?;
        }
        for place in sequence.places() {
            write!(words, "{place} ")?;
        }
        push_sides(&mut words, sequence.sos(), sequence.eos())?;
    }
    Ok(words)
}

// Appends the sos and the eos of a sequence.
fn push_sides(words: &mut String, sos: BidiClass, eos: BidiClass) -> Result<(), RowFault> {
    write!(words, "{sos:?} {eos:?}")?;
    Ok(())
}

// Appends a sequence in place as text: its characters that X9 keeps, its sos and its eos.
fn push_kept(
    words: &mut String,
    paragraph: &Paragraph<'_>,
    sequence: &IsolatingRunSequence,
) -> Result<(), RowFault> {
    let characters = paragraph.text.char_indices().zip(paragraph.classes);
    for (place, ((start, _), class)) in characters.enumerate() {
        for run in sequence.runs() {
            if run.start <= start && start < run.end && not_removed_by_x9(class) {
                write!(words, "{place} ")?;
            }
        }
    }
    push_sides(words, sequence.sos(), sequence.eos())
}

// Returns sequences in place as text: the characters of each that X9 keeps, its sos and its eos.
fn kept_words(
    alloc: Global,
    paragraph: &Paragraph<'_>,
    sequences: &[IsolatingRunSequence],
) -> Result<String, RowFault> {
    let mut words = String::new(alloc);
    for sequence in sequences {
        if !words.is_empty() {
            words.push_str(" ; ")?;
        }
        push_kept(&mut words, paragraph, sequence)?;
    }
    Ok(words)
}

// Returns the classes as text, with BN for each class that X9 removes.
fn removed_words(alloc: Global, classes: &[BidiClass]) -> Result<String, RowFault> {
    let mut in_place = Vec::new(alloc);
    for class in classes {
        in_place.push(if removed_by_x9(*class) { BN } else { *class })?;
    }
    class_words(alloc, in_place.as_slice())
}

// Returns whether X9 removes all of the classes. If so, there is one sequence in place, and none over a list.
fn are_all_removed(classes: &[BidiClass]) -> bool {
    classes.iter().all(|class| removed_by_x9(*class))
}

// What the rules over a list find: the levels and classes after X1 to X8, and the sequences.
#[derive(Drop)]
struct OverList {
    explicit: Explicit,
    sequences: Vec<PlainSequence>,
}

// Applies the rules to a list of classes.
fn listed(alloc: Global, para_level: Level, classes: &[BidiClass]) -> Result<OverList, RowFault>
    requires { para_level ≤ 125 }
{
    let explicit = explicit_levels(alloc, para_level, classes)?;
    let sequences = sequences(alloc, para_level, classes, explicit.levels())?;
    Ok(OverList {
        explicit,
        sequences,
    })
}

// Compares the result of the rules over a list with a row.
fn check_listed(alloc: Global, row: &Row<'_>, tally: &mut Tally, listed: &OverList) {
    let words = level_words(alloc, listed.explicit.levels());
    tally.agree(row, "levels", "plain::explicit_levels: levels", words);
    let words = class_words(alloc, listed.explicit.classes());
    tally.agree(row, "overridden", "plain::explicit_levels: classes", words);
    let words = plain_words(alloc, listed.sequences.as_slice());
    tally.agree(row, "sequences", "plain::sequences", words);
}

// Compares the result of the passes in place with a row and with the result of the rules over the list.
fn check_in_place(
    alloc: Global,
    row: &Row<'_>,
    tally: &mut Tally,
    paragraph: &Paragraph<'_>,
    listed: &OverList,
) -> Result<(), RowFault>
    requires { paragraph.now.level ≤ 125 }
{
    let text = StrText::new(paragraph.text);
    let found = Prepared::new(alloc, paragraph, true)?;
    let words = levels_in(alloc, text, found.units.levels.as_slice());
    tally.agree(row, "levels", "explicit::compute: levels", words);
    let wanted = removed_words(alloc, listed.explicit.classes());
    let came = classes_in(alloc, text, found.units.classes.as_slice());
    tally.same(row, "explicit::compute: classes", wanted, came);
    if !are_all_removed(paragraph.classes) {
        let wanted = plain_words(alloc, listed.sequences.as_slice());
        let came = kept_words(alloc, paragraph, found.sequences.as_slice());
        tally.same(row, "prepare::isolating_run_sequences", wanted, came);
    }
    check_passes(alloc, row, tally, paragraph, &found.units)
}

// Compares the results of the other forms of the explicit pass with that of `explicit::compute`.
fn check_passes(
    alloc: Global,
    row: &Row<'_>,
    tally: &mut Tally,
    paragraph: &Paragraph<'_>,
    found: &ExplicitUnits,
) -> Result<(), RowFault>
    requires { paragraph.now.level ≤ 125 }
{
    for pass in [Pass::Counted, Pass::ByUnits] {
        let other = pass.compute(alloc, paragraph)?;
        check_pass(alloc, row, tally, pass.name(), &other, found);
    }
    Ok(())
}

// Compares the result of another form of the explicit pass with that of `explicit::compute`.
fn check_pass(
    alloc: Global,
    row: &Row<'_>,
    tally: &mut Tally,
    call: &'static str,
    other: &ExplicitUnits,
    found: &ExplicitUnits,
) {
    let wanted = level_words(alloc, found.levels.as_slice());
    let came = level_words(alloc, other.levels.as_slice());
    tally.same(row, call, wanted, came);
    let wanted = class_words(alloc, found.classes.as_slice());
    let came = class_words(alloc, other.classes.as_slice());
    tally.same(row, call, wanted, came);
    let wanted = run_words(alloc, found.runs.as_slice());
    let came = run_words(alloc, other.runs.as_slice());
    tally.same(row, call, wanted, came);
}

/// Runs a row of classes: the rules over a list, and then the passes in place over letters.
pub fn run_list(alloc: Global, row: &Row<'_>, tally: &mut Tally) -> Result<(), RowFault> {
    row.has_only(&["level", "classes", "levels", "overridden", "sequences"])?;
    let level = explicit_level(row, "level")?;
    let classes = classes_of(alloc, row.field("classes")?)?;
    check_list(alloc, row, tally, level, classes.as_slice())
}

// Compares the results of the rules over a list, and of the passes in place over letters, with a row.
fn check_list(
    alloc: Global,
    row: &Row<'_>,
    tally: &mut Tally,
    level: Level,
    classes: &[BidiClass],
) -> Result<(), RowFault>
    requires { level ≤ 125 }
{
    let listed = listed(alloc, level, classes)?;
    check_listed(alloc, row, tally, &listed);
    let text = letters(alloc, classes)?;
    let paragraph = Paragraph {
        level,
        text: text.as_str(),
        classes,
    };
    check_in_place(alloc, row, tally, &paragraph, &listed)
}

// Returns sequences in place as text: the runs of each, in characters of the text, its sos and its eos.
fn sequence_words(
    alloc: Global,
    text: StrText,
    sequences: &[IsolatingRunSequence],
) -> Result<String, RowFault> {
    let mut words = String::new(alloc);
    for sequence in sequences {
        if !words.is_empty() {
            words.push_str(" ; ")?;
        }
        let runs = ranges_in(alloc, text, sequence.runs())?;
        push_runs(&mut words, runs.as_str())?;
        push_sides(&mut words, sequence.sos(), sequence.eos())?;
    }
    Ok(words)
}

// Appends the runs of a sequence, before its sos and eos.
fn push_runs(words: &mut String, runs: &str) -> Result<(), RowFault> {
    words.push_str(runs)?;
    words.push(' ')?;
    Ok(())
}

// Compares the result of the passes in place on a text with a row.
fn check_prepared(
    alloc: Global,
    row: &Row<'_>,
    tally: &mut Tally,
    text: StrText,
    found: &Prepared,
) {
    let words = levels_in(alloc, text, found.units.levels.as_slice());
    tally.agree(row, "levels", "explicit::compute: levels", words);
    let words = classes_in(alloc, text, found.units.classes.as_slice());
    tally.agree(row, "in place", "explicit::compute: classes", words);
    let words = ranges_in(alloc, text, found.units.runs.as_slice());
    tally.agree(row, "runs", "explicit::compute: level runs", words);
    let words = sequence_words(alloc, text, found.sequences.as_slice());
    tally.agree(row, "sequences", "prepare::isolating_run_sequences", words);
}

/// Runs a row of a text with its classes. If no class is an initiator, tries the flag for isolates as false and as
/// true.
pub fn run_units(alloc: Global, row: &Row<'_>, tally: &mut Tally) -> Result<(), RowFault> {
    row.has_only(&[
        "level",
        "text",
        "classes",
        "levels",
        "in place",
        "runs",
        "sequences",
    ])?;
    let level = explicit_level(row, "level")?;
    let classes = classes_of(alloc, row.field("classes")?)?;
    let text = RowText::of_row(alloc, row)?;
    let paragraph = Paragraph {
        level,
        text: text.utf8.as_str(),
        classes: classes.as_slice(),
    };
    check_units(alloc, row, tally, &paragraph)
}

fn check_units(
    alloc: Global,
    row: &Row<'_>,
    tally: &mut Tally,
    paragraph: &Paragraph<'_>,
) -> Result<(), RowFault>
    requires { paragraph.now.level ≤ 125 }
{
    let text = StrText::new(paragraph.text);
    let found = Prepared::new(alloc, paragraph, true)?;
    check_prepared(alloc, row, tally, text, &found);
    if !has_initiator(paragraph.classes) {
        check_without_isolates(alloc, row, tally, paragraph)?;
    }
    check_passes(alloc, row, tally, paragraph, &found.units)
}

// Compares the result of the passes in place with a row, with the flag for isolates as false.
fn check_without_isolates(
    alloc: Global,
    row: &Row<'_>,
    tally: &mut Tally,
    paragraph: &Paragraph<'_>,
) -> Result<(), RowFault>
    requires { paragraph.now.level ≤ 125 }
{
    let found = Prepared::new(alloc, paragraph, false)?;
    check_prepared(alloc, row, tally, StrText::new(paragraph.text), &found);
    Ok(())
}
