//! The forms of the explicit pass that count their steps. They must find what the pass without a count finds.

ghost use Rattle.std.specs.Prelude.{◌≡◌, ◌≤◌};

use crate::explicit_units::{ExplicitUnits, ParagraphUnits};
use bidi_rules::explicit::{Paragraph, StepUnit, compute_counted, find_levels_counted};
use bidi_rules::prepare::Steps;
use bidi_text::text::is_per_char;
use bidi_vectors_format::fault::{RowFault, Why};
use std::alloc::Global;
use std::marker::Brand;
use std::sync::ledger::{Blank, Ledger};

// Finds the explicit levels of a paragraph. Counts steps in the ledger that this blank opens.
fn find_with_new_count<S: Ledger>(
    alloc: Global,
    step_unit: StepUnit,
    paragraph: &ParagraphUnits<'_>,
    blank: Blank,
) -> Result<ExplicitUnits, RowFault>
    requires explicit { paragraph.now.level ≤ 125 }
    requires name { blank.name ≡ S.name }
    requires parts { blank.parts ≡ S.parts }
    requires one { blank.parts ≡ 1 }
{
    let mut steps = Steps::<S>::new(blank);
    let ParagraphUnits {
        level,
        text,
        classes,
    } = *paragraph;
    if !is_per_char(text, classes) {
        return Err(RowFault::Line(0, Why::OtherText));
    }
    let mut units = ExplicitUnits::new(alloc, classes)?;
    let levels = units.levels.as_mut_slice();
    let processing_classes = units.classes.as_mut_slice();
    let runs = &mut units.runs;
    match step_unit {
        StepUnit::Character => compute_counted(
            alloc,
            text,
            level,
            classes,
            levels,
            processing_classes,
            runs,
            &mut steps,
        )?,
        StepUnit::CodeUnit => {
            let stored = Paragraph::new(text, level, step_unit, classes);
            find_levels_counted(&stored, levels, processing_classes, runs, &mut steps)?;
        }
    }
    Ok(units)
}

/// Finds the explicit levels of a paragraph by a counted pass: from character to character by `compute_counted`, and
/// from code unit to code unit by `find_levels_counted`.
pub fn find(
    alloc: Global,
    step_unit: StepUnit,
    paragraph: &ParagraphUnits<'_>,
) -> Result<ExplicitUnits, RowFault>
    requires { paragraph.now.level ≤ 125 }
{
    find_with_new_count::<Brand>(alloc, step_unit, paragraph, Blank::new(1))
}
