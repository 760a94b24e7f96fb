//! The explicit pass in place (X1 to X8), in each of its forms, and the isolating run sequences that follow (X9, X10).

ghost use Rattle.std.specs.Prelude.{◌≤◌};

use crate::counted_explicit;
use crate::explicit_units::{ExplicitUnits, ParagraphUnits, copied};
use bidi_base::char_data::BidiClass;
use bidi_base::level::Level;
use bidi_rules::explicit::{StepUnit, compute};
use bidi_rules::prepare::{IsolatingRunSequence, isolating_run_sequences};
use bidi_text::text::{StrText, is_per_char};
use bidi_vectors_format::conditions::has_initiator;
use bidi_vectors_format::fault::{RowFault, Why};
use bidi_vectors_format::units::per_unit;
use std::alloc::Global;
use std::mem::replace;

/// A paragraph: its level, its text and the class of each character.
#[derive(Clone, Copy)]
pub struct Paragraph<'a> {
    pub level: Level,
    pub text: &'a str,
    pub classes: &'a [BidiClass],
}

/// A form of the explicit pass that must find what `explicit::compute` finds.
#[derive(Clone, Copy)]
pub enum Pass {
    /// `explicit::compute_counted`.
    Counted,
    /// `explicit::find_levels_counted`, from code unit to code unit.
    ByUnits,
}

impl Pass {
    /// Returns what messages call the pass.
    pub fn name(self) -> &'static str {
        match self {
            Pass::Counted => "explicit::compute_counted",
            Pass::ByUnits => "explicit::find_levels_counted",
        }
    }

    /// Computes the explicit levels of a paragraph by this pass.
    pub fn compute(
        self,
        alloc: Global,
        paragraph: &Paragraph<'_>,
    ) -> Result<ExplicitUnits, RowFault>
        requires { paragraph.now.level ≤ 125 }
    {
        let text = StrText::new(paragraph.text);
        let classes = per_unit(alloc, text, paragraph.classes)?;
        let stored = ParagraphUnits {
            level: paragraph.level,
            text,
            classes: classes.as_slice(),
        };
        let step_unit = match self {
            Pass::Counted => StepUnit::Character,
            Pass::ByUnits => StepUnit::CodeUnit,
        };
        counted_explicit::find(alloc, step_unit, &stored)
    }
}

/// What the passes in place find in a paragraph: what `explicit::compute` writes, and the sequences.
#[derive(Drop)]
pub struct Prepared {
    pub units: ExplicitUnits,
    pub sequences: Vec<IsolatingRunSequence>,
}

impl Prepared {
    /// Runs the passes on a paragraph.
    pub fn new(
        alloc: Global,
        paragraph: &Paragraph<'_>,
        has_isolate_controls: bool,
    ) -> Result<Prepared, RowFault>
        requires { paragraph.now.level ≤ 125 }
    {
        let text = StrText::new(paragraph.text);
        let classes = per_unit(alloc, text, paragraph.classes)?;
        let stored = ParagraphUnits {
            level: paragraph.level,
            text,
            classes: classes.as_slice(),
        };
        prepare(alloc, &stored, has_isolate_controls)
    }
}

// Runs the passes on a paragraph, given the stored class of each code unit.
fn prepare(
    alloc: Global,
    paragraph: &ParagraphUnits<'_>,
    has_isolate_controls: bool,
) -> Result<Prepared, RowFault>
    requires { paragraph.now.level ≤ 125 }
{
    let ParagraphUnits {
        level,
        text,
        classes,
    } = *paragraph;
    if !is_per_char(text, classes) {
        return Err(RowFault::Line(0, Why::OtherText));
    }
    if !has_isolate_controls && has_initiator(classes) {
        return Err(RowFault::Line(0, Why::Isolate));
    }
    let mut units = ExplicitUnits::new(alloc, classes)?;
    let levels = units.levels.as_mut_slice();
    compute(
        alloc,
        text,
        level,
        classes,
        levels,
        units.classes.as_mut_slice(),
        &mut units.runs,
    )?;
    let copies = copied(alloc, units.runs.as_slice())?;
    let runs = replace(&mut units.runs, copies);
    let mut sequences = Vec::new(alloc);
    isolating_run_sequences(
        alloc,
        text,
        level,
        classes,
        levels,
        runs,
        has_isolate_controls,
        &mut sequences,
    )?;
    Ok(Prepared { units, sequences })
}
