//! W3 and W6, which are left once W1, W2, W4, W5 and W7 are done. They change each class by itself.

ghost use Rattle.std.specs.Prelude.{◌≡◌, ◌≢◌, ℕ, ◌+◌, ◌<◌, ◌≤◌, length, map, All, IsTrue};
ghost use Rattle.bidi_base.specs.Indexes.{class_at};
ghost use Rattle.bidi_base.specs.Units.{bounds, are_ordered, in_runs, units_in_runs};
ghost use Rattle.bidi_base.specs.Updated.{IsUpdated};
ghost use Rattle.bidi_base.specs.declared.char_data.BidiClass.TheVariants.{L};
ghost use Rattle.bidi_rules.specs.WeakPass.{left_over};
ghost use Rattle.bidi_rules.specs.WeakWalk.{two_a_unit, AreChangedAndCounted};

use super::MANY;
use bidi_base::char_data::BidiClass::{self, AL, CS, ES, ET, ON, R};
use bidi_explicit::prepare::{LevelRun, Steps};
use std::sync::ledger::Ledger;

/// Changes each class in the runs by itself. Not inlined: the loops over numbers would lose registers.
#[inline(never)]
pub fn resolve_w3_w6<S: Ledger>(runs: &[LevelRun], classes: &mut [BidiClass], steps: &mut Steps<S>)
    requires ordered { IsTrue (are_ordered (map bounds runs.now)) }
    requires within { All (λ r. r.1 ≤ length classes.old) (map bounds runs.now) }
    ensures changed { IsUpdated L (in_runs (map bounds runs.now)) left_over 0 (length classes.old) classes.old classes.new }
    ensures steps_at_least { steps.old + length (units_in_runs (map bounds runs.now)) ≤ steps.new }
    ensures steps_at_most { steps.new ≤ steps.old + two_a_unit runs.now }
{
    for run in runs {
        steps.tick();
        change_run(run, classes, steps);
    }
}

/// Changes each class in a run by itself.
fn change_run<S: Ledger>(run: &LevelRun, classes: &mut [BidiClass], steps: &mut Steps<S>)
    requires { run.now.end ≤ length classes.old }
    ensures { AreChangedAndCounted run.now.start run.now.end classes.old classes.new steps.old steps.new }
{
    if run.end.saturating_sub(run.start) < MANY {
        change_few(run.start, run.end, classes, steps);
    } else {
        change_many(run.start, run.end, classes, steps);
    }
}

/// Changes a few classes one by one. Writes only those that become others.
fn change_few<S: Ledger>(start: usize, end: usize, classes: &mut [BidiClass], steps: &mut Steps<S>)
    requires { end ≤ length classes.old }
    ensures { AreChangedAndCounted start end classes.old classes.new steps.old steps.new }
{
    for unit in start..end {
        steps.tick();
        change_at(classes, unit);
    }
}

/// Changes many classes. The loop has no branch, so that it changes many code units at once.
fn change_many<S: Ledger>(start: usize, end: usize, classes: &mut [BidiClass], steps: &mut Steps<S>)
    requires { end ≤ length classes.old }
    ensures { AreChangedAndCounted start end classes.old classes.new steps.old steps.new }
{
    for unit in start..end {
        steps.tick();
        classes[unit] = left_over(classes[unit]);
    }
}

/// Changes the class of one code unit, if it becomes another.
fn change_at(classes: &mut [BidiClass], unit: usize)
    requires { unit < length classes.old }
    ensures changed { class_at classes.new unit ≡ left_over (class_at classes.old unit) }
    ensures outside { (u : ℕ) → u ≢ unit → class_at classes.new u ≡ class_at classes.old u }
{
    if !stays(classes[unit]) {
        classes[unit] = left_over(classes[unit]);
    }
}

/// Returns true only if W3 and W6 leave a class unchanged.
fn stays(class: BidiClass) -> bool
    ensures { IsTrue result → left_over class ≡ class }
{
    !matches!(class, ES | ET | CS | AL)
}

/// Returns a class after W3 and W6. It has no branch, so that a loop changes many code units at once.
pub fn left_over(class: BidiClass) -> BidiClass
    ensures { result ≡ left_over class }
{
    if (class == ES) | (class == ET) | (class == CS) {
        ON
    } else if class == AL {
        R
    } else {
        class
    }
}
