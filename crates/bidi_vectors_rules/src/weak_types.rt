//! Rows of the weak types (W1 to W7), over lists and in place.

use crate::counted_weak;
use crate::unit_sequences::{resolve_weak_units, runs_of_field, whole_sequence_of};
use bidi_base::char_data::BidiClass::{self, BN, L};
use bidi_plain::plain::weak;
use bidi_rules::prepare::IsolatingRunSequence;
use bidi_text::text::StrText;
use bidi_vectors_format::answer::{class_words, per_char};
use bidi_vectors_format::class::{class_of, classes_of};
use bidi_vectors_format::conditions::{are_kept, is_side};
use bidi_vectors_format::fault::{RowFault, Why};
use bidi_vectors_format::row::Row;
use bidi_vectors_format::tally::Tally;
use bidi_vectors_format::text::RowText;
use bidi_vectors_format::units::per_unit;
use std::alloc::Global;

/// Returns the class in a field of a row.
pub fn class_field(row: &Row<'_>, key: &str) -> Result<BidiClass, RowFault> {
    let field = row.field(key)?;
    class_of(field.value, field.line)
}

// Resolves the weak types over a list.
fn listed(
    alloc: Global,
    sos: BidiClass,
    classes: &[BidiClass],
    line: usize,
) -> Result<Vec<BidiClass>, RowFault> {
    if !is_side(sos) || !are_kept(classes) {
        return Err(RowFault::Line(line, Why::Classes));
    }
    Ok(weak(alloc, sos, classes)?)
}

// Returns a text of letters with these classes. If `is_parted`, each letter is followed by a character that X9 removes.
fn letters(
    alloc: Global,
    classes: &[BidiClass],
    is_parted: bool,
) -> Result<(String, Vec<BidiClass>), RowFault> {
    let mut text = String::new(alloc);
    let mut of_chars = Vec::new(alloc);
    for class in classes {
        text.push('x')?;
        of_chars.push(*class)?;
        if is_parted {
            text.push('\u{AD}')?;
            of_chars.push(BN)?;
        }
    }
    Ok((text, of_chars))
}

// A form of the pass in place.
#[derive(Clone, Copy)]
enum Form {
    Plain,
    Counted,
}

const FORMS: [Form; 2] = [Form::Plain, Form::Counted];

impl Form {
    fn name(self) -> &'static str {
        match self {
            Form::Plain => "implicit::resolve_weak",
            Form::Counted => "implicit::resolve_weak_counted",
        }
    }

    // Resolves the weak types of a sequence in place by this form.
    fn resolve(
        self,
        text: StrText,
        sequence: &IsolatingRunSequence,
        classes: &mut [BidiClass],
    ) -> Result<(), RowFault> {
        match self {
            Form::Plain => resolve_weak_units(text, sequence, classes),
            Form::Counted => counted_weak::resolve_weak(text, sequence, classes),
        }
    }
}

// A sequence in place: its text and its runs, its sos, and the class of each character of the text.
#[derive(Clone, Copy)]
struct InPlace<'a> {
    text: &'a str,
    runs: &'a [(usize, usize)],
    sos: BidiClass,
    classes: &'a [BidiClass],
}

impl InPlace<'_> {
    // Resolves the sequence by this form, and returns the class of each character.
    fn resolved(&self, alloc: Global, form: Form, line: usize) -> Result<Vec<BidiClass>, RowFault> {
        let text = StrText::new(self.text);
        let sequence = whole_sequence_of(alloc, self.runs, self.sos, L, line)?;
        let mut units = per_unit(alloc, text, self.classes)?;
        form.resolve(text, &sequence, units.as_mut_slice())?;
        per_char(alloc, text, units.as_slice())
    }
}

// Tests the rules in place on letters, and leaves out the characters between them that X9 removes.
fn check_letters(
    alloc: Global,
    row: &Row<'_>,
    tally: &mut Tally,
    sos: BidiClass,
    classes: &[BidiClass],
    is_parted: bool,
) -> Result<(), RowFault> {
    let (text, before) = letters(alloc, classes, is_parted)?;
    let text = text.as_str();
    let in_place = InPlace {
        text,
        runs: &[(0, text.len())],
        sos,
        classes: before.as_slice(),
    };
    for form in FORMS {
        let resolved = in_place.resolved(alloc, form, row.line)?;
        let words = kept_words(alloc, resolved.as_slice(), is_parted);
        tally.agree(row, "after", form.name(), words);
    }
    Ok(())
}

// Returns the classes of the letters as text.
fn kept_words(alloc: Global, classes: &[BidiClass], is_parted: bool) -> Result<String, RowFault> {
    let mut kept = Vec::new(alloc);
    for (index, class) in classes.iter().enumerate() {
        if !is_parted || index % 2 == 0 {
            kept.push(*class)?;
        } else if *class != BN {
            return Err(RowFault::Line(0, Why::RemovedChanged));
        }
    }
    class_words(alloc, kept.as_slice())
}

/// Runs a row of classes: the rules over a list, and those in place on a text of one sequence.
pub fn run_list(alloc: Global, row: &Row<'_>, tally: &mut Tally) -> Result<(), RowFault> {
    row.has_only(&["sos", "classes", "after"])?;
    let sos = class_field(row, "sos")?;
    let classes = classes_of(alloc, row.field("classes")?)?;
    let classes = classes.as_slice();
    let answer = listed(alloc, sos, classes, row.line)?;
    let words = class_words(alloc, answer.as_slice());
    tally.agree(row, "after", "plain::weak", words);
    if classes.is_empty() {
        return Ok(());
    }
    check_letters(alloc, row, tally, sos, classes, false)?;
    check_letters(alloc, row, tally, sos, classes, true)
}

/// Runs a row of a text, the runs of a sequence in it, and a class for each of its characters.
pub fn run_units(alloc: Global, row: &Row<'_>, tally: &mut Tally) -> Result<(), RowFault> {
    row.has_only(&["sos", "text", "runs", "classes", "after"])?;
    let (sos, field) = (class_field(row, "sos")?, row.field("runs")?);
    let classes = classes_of(alloc, row.field("classes")?)?;
    let text = RowText::of_row(alloc, row)?;
    let text = text.utf8.as_str();
    let runs = runs_of_field(alloc, StrText::new(text), field)?;
    let in_place = InPlace {
        text,
        runs: runs.as_slice(),
        sos,
        classes: classes.as_slice(),
    };
    check_forms(alloc, row, tally, &in_place)
}

// Compares the result of each form of the pass with a row.
fn check_forms(
    alloc: Global,
    row: &Row<'_>,
    tally: &mut Tally,
    in_place: &InPlace<'_>,
) -> Result<(), RowFault> {
    for form in FORMS {
        let resolved = in_place.resolved(alloc, form, row.line)?;
        let words = class_words(alloc, resolved.as_slice());
        tally.agree(row, "after", form.name(), words);
    }
    Ok(())
}
