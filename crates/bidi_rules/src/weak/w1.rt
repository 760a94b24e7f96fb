//! W1: a nonspacing mark takes the class of the character before it.

ghost use Rattle.std.specs.Prelude.{◌≡◌, ◌+◌, ◌-◌, ◌*◌, ◌≤◌, length, map, find, reverse, All, IsTrue};
ghost use Rattle.bidi_base.specs.Classes.{is_kept_in_place, is_l_or_r, is_nsm};
ghost use Rattle.bidi_base.specs.Units.{are_ordered, bounds};
ghost use Rattle.bidi_base.specs.Weak.{carried};
ghost use Rattle.bidi_rules.specs.WeakWalk.{is_any_of, two_a_unit, IsMarked, Marks};

use bidi_base::char_data::BidiClass::{self, FSI, LRI, ON, PDI, RLI};
use bidi_base::classes::is_nsm;
use bidi_explicit::prepare::{LevelRun, Steps};
use bidi_explicit::written::is_kept_in_place;
use std::sync::ledger::Ledger;

/// Applies W1 to the code units of some runs that are not BN.
pub fn resolve_marks<S: Ledger>(
    runs: &[LevelRun],
    sos: BidiClass,
    classes: &mut [BidiClass],
    steps: &mut Steps<S>,
)
    requires ordered { IsTrue (are_ordered (map bounds runs.now)) }
    requires within { All (λ r. r.1 ≤ length classes.old) (map bounds runs.now) }
    requires sos { IsTrue (is_l_or_r sos) }
    ensures marked { IsMarked (map bounds runs.now) (carried sos) classes.old classes.new }
    ensures steps_at_least { steps.old ≤ steps.new }
    ensures steps_at_most { steps.new ≤ steps.old + two_a_unit runs.now }
{
    let mut last = sos;
    for run in runs {
        steps.tick();
        last = resolve_marks_in(run, last, classes, steps);
    }
}

/// The number of code units that are tested together.
const BLOCK: usize = 16;

/// Applies W1 to one run after a character of the class `before`. Returns the class of the last character
/// that is neither BN nor a mark, or `before` if there is none.
fn resolve_marks_in<S: Ledger>(
    run: &LevelRun,
    before: BidiClass,
    classes: &mut [BidiClass],
    steps: &mut Steps<S>,
) -> BidiClass
    requires ordered { run.now.start ≤ run.now.end }
    requires within { run.now.end ≤ length classes.old }
    ensures marked { Marks run.now.start run.now.end before result classes.old classes.new }
    ensures steps_at_least { steps.old ≤ steps.new }
    ensures steps_at_most { 16 * steps.new ≤ 16 * steps.old + 17 * (run.now.end - run.now.start) }
{
    let end = run.end;
    let mut last = before;
    let mut at = run.start;
    while end - at >= BLOCK {
        steps.tick();
        let next = at + BLOCK;
        last = if is_mark_in(&classes[at..next]) {
            resolve_each_mark(at, next, last, classes, steps)
        } else {
            last_kept(&classes[at..next]).unwrap_or(last)
        };
        at = next;
    }
    resolve_each_mark(at, end, last, classes, steps)
}

/// Returns whether one of the classes is NSM. Tests all of them at once.
fn is_mark_in(classes: &[BidiClass]) -> bool
    ensures { result ≡ is_any_of is_nsm classes.now }
{
    classes
        .iter()
        .fold(false, |found, class| found | is_nsm(*class))
}

/// Applies W1 to the code units from `start` up to `end`, one by one, after a character of the class
/// `before`. Returns the class of the last character that is neither BN nor a mark, or `before` if there is
/// none.
fn resolve_each_mark<S: Ledger>(
    start: usize,
    end: usize,
    before: BidiClass,
    classes: &mut [BidiClass],
    steps: &mut Steps<S>,
) -> BidiClass
    requires ordered { start ≤ end }
    requires within { end ≤ length classes.old }
    ensures marked { Marks start end before result classes.old classes.new }
    ensures steps { steps.new ≡ steps.old + (end - start) }
{
    let mut last = before;
    for unit in start..end {
        steps.tick();
        let class = classes[unit];
        if is_nsm(class) {
            classes[unit] = carried(last);
        } else if is_kept_in_place(class) {
            last = class;
        }
    }
    last
}

/// Returns the last class in the slice that is not BN.
fn last_kept(classes: &[BidiClass]) -> Option<BidiClass>
    ensures { result ≡ find is_kept_in_place (reverse classes.now) }
{
    classes
        .iter()
        .rev()
        .copied()
        .find(|class| is_kept_in_place(*class))
}

/// Returns the class that a nonspacing mark takes from the character before it.
fn carried(class: BidiClass) -> BidiClass
    ensures { result ≡ carried class }
{
    match class {
        LRI | RLI | FSI | PDI => ON,
        other => other,
    }
}
