//! The code units of level runs that the passes over a sequence read, and functions that write a class to
//! them.

ghost use Rattle.std.specs.Prelude.{◌≡◌, ◌+◌, ◌-◌, ◌*◌, ◌<◌, ◌≤◌, ◌&&◌, nat_lt, length, map, get_or, if◌then◌else◌, IsTrue};
ghost use Rattle.bidi_base.specs.Classes.{is_kept_in_place};
ghost use Rattle.bidi_base.specs.Indexes.{class_at};
ghost use Rattle.bidi_base.specs.Units.{bounds, are_ordered};
ghost use Rattle.bidi_explicit.specs.SequenceUnits.{count_below, IsWrittenOver, WritesInRuns};

use crate::prepare::{LevelRun, Steps};
use bidi_base::char_data::BidiClass::{self, BN};
use std::marker::Brand;
use std::sync::ledger::{Blank, Ledger};

/// Returns whether the passes treat characters of this class as kept. These are all classes but BN, which
/// marks the characters that X9 removes.
pub fn is_kept_in_place(class: BidiClass) -> bool
    ensures { result ≡ is_kept_in_place class }
{
    !matches!(class, BN)
}

/// Returns the class of a code unit of class `before` after `class` is written over it. BN stays.
fn written_over(before: BidiClass, class: BidiClass) -> BidiClass
    ensures { result ≡ (if is_kept_in_place before then class else before) }
{
    if is_kept_in_place(before) {
        class
    } else {
        before
    }
}

/// Writes `class` to the code units from `from` up to `to`, except to those with BN.
fn write_over<S: Ledger>(
    classes: &mut [BidiClass],
    from: usize,
    to: usize,
    class: BidiClass,
    steps: &mut Steps<S>,
)
    requires { to ≤ length classes.old }
    ensures written { IsWrittenOver (λ k. is_kept_in_place (class_at classes.old k)) class from to classes.old classes.new }
    ensures steps { steps.new ≡ steps.old + (to - from) }
{
    for unit in from..to {
        steps.tick();
        classes[unit] = written_over(classes[unit], class);
    }
}

/// Writes `class` to the code units of `runs` from `from` up to `to`, except to those with BN.
///
/// Each run must be non-empty and end at or before the start of the next, and `to` must be at most the number of
/// classes.
pub fn write_over_runs(
    runs: &[LevelRun],
    classes: &mut [BidiClass],
    from: usize,
    to: usize,
    class: BidiClass,
)
    requires ordered { IsTrue (are_ordered (map bounds runs.now)) }
    requires inside { to ≤ length classes.old }
    ensures { WritesInRuns runs.now class from to classes.old classes.new }
{
    write_over_runs_with_new_count::<Brand>(runs, classes, from, to, class, Blank::new(1));
}

/// Calls [`write_over_runs_counted`] with a new count of steps.
fn write_over_runs_with_new_count<S: Ledger>(
    runs: &[LevelRun],
    classes: &mut [BidiClass],
    from: usize,
    to: usize,
    class: BidiClass,
    blank: Blank,
)
    requires ordered { IsTrue (are_ordered (map bounds runs.now)) }
    requires inside { to ≤ length classes.old }
    requires name { blank.name ≡ S.name }
    requires parts { blank.parts ≡ S.parts }
    requires one { blank.parts ≡ 1 }
    ensures { WritesInRuns runs.now class from to classes.old classes.new }
{
    let mut steps = Steps::<S>::new(blank);
    write_over_runs_counted(runs, classes, from, to, class, &mut steps);
}

/// Like [`write_over_runs`], and counts each loop iteration in `steps`.
///
/// If `from` is before `to` and the first run ends after `from`, each run that begins before `to` has a code
/// unit between `from` and `to`. So there are at most two iterations for each code unit of the runs there.
pub fn write_over_runs_counted<S: Ledger>(
    runs: &[LevelRun],
    classes: &mut [BidiClass],
    from: usize,
    to: usize,
    class: BidiClass,
    steps: &mut Steps<S>,
)
    requires ordered { IsTrue (are_ordered (map bounds runs.now)) }
    requires inside { to ≤ length classes.old }
    ensures written { WritesInRuns runs.now class from to classes.old classes.new }
    ensures steps_at_least { steps.old ≤ steps.new }
    ensures steps_at_most { from < to → from < (get_or (map bounds runs.now) 0 (0, 0)).1
        → steps.new + 2 * count_below (map bounds runs.now) from
        ≤ steps.old + 2 * count_below (map bounds runs.now) to }
{
    let mut index = 0;
    while begins_below(runs, index, to) {
        steps.tick();
        let run = &runs[index];
        write_over(classes, run.start.max(from), run.end.min(to), class, steps);
        index += 1;
    }
}

/// Returns whether there is a run at `index`, and it begins before `unit`.
fn begins_below(runs: &[LevelRun], index: usize, unit: usize) -> bool
    ensures { result ≡ (nat_lt index (length runs.now) && nat_lt (get_or (map bounds runs.now) index (0, 0)).0 unit) }
{
    index < runs.len() && runs[index].start < unit
}
