//! Searches for the first kept code unit of a sequence, and for the directions next to a code unit.

ghost use Rattle.std.specs.Prelude.{◌≡◌, ◌≤◌, length, map, find, All, IsTrue};
ghost use Rattle.bidi_base.specs.Classes.{is_kept_in_place};
ghost use Rattle.bidi_base.specs.Indexes.{class_at};
ghost use Rattle.bidi_base.specs.Units.{bounds, are_ordered, units_in_runs};
ghost use Rattle.bidi_rules.specs.PairPass.{IsFirstFor, IsNearestBefore, IsRunOf};

use super::class_tests::first_standing_for;
use bidi_base::char_data::BidiClass;
use bidi_base::classes::as_direction;
use bidi_explicit::prepare::LevelRun;
use bidi_explicit::written::is_kept_in_place;

/// Returns the first code unit of a sequence that is not BN.
pub fn first_kept(runs: &[LevelRun], classes: &[BidiClass]) -> Option<usize>
    requires { All (λ r. r.1 ≤ length classes.now) (map bounds runs.now) }
    ensures { result ≡ find (λ u. is_kept_in_place (class_at classes.now u)) (units_in_runs (map bounds runs.now)) }
{
    for run in runs {
        for unit in run.start..run.end {
            if is_kept_in_place(classes[unit]) {
                return Some(unit);
            }
        }
    }
    None
}

/// Like [`run_of`], for a code unit that is likely in the run at the index `near`.
#[inline(always)]
pub fn run_near(runs: &[LevelRun], near: usize, unit: usize) -> usize
    requires { IsTrue (are_ordered (map bounds runs.now)) }
    ensures { IsRunOf (map bounds runs.now) unit result }
{
    if near < runs.len() && runs[near].start <= unit && unit < runs[near].end {
        return near;
    }
    run_of(runs, unit)
}

/// Returns the index of the run of a code unit: the first run that ends after it, or else the number of runs.
fn run_of(runs: &[LevelRun], unit: usize) -> usize
    requires { IsTrue (are_ordered (map bounds runs.now)) }
    ensures { IsRunOf (map bounds runs.now) unit result }
{
    let mut low = 0;
    let mut high = runs.len();
    while low < high {
        let middle = low + (high - low) / 2;
        if runs[middle].end <= unit {
            low = middle + 1;
        } else {
            high = middle;
        }
    }
    low
}

/// Returns the first code unit of some runs, from `from` on and before `to`, with a class that counts as a
/// direction. Returns `to` if there is none.
pub fn first_for(
    direction: BidiClass,
    runs: &[LevelRun],
    classes: &[BidiClass],
    from: usize,
    to: usize,
) -> usize
    requires ordered { IsTrue (are_ordered (map bounds runs.now)) }
    requires inside { to ≤ length classes.now }
    ensures { IsFirstFor direction (map bounds runs.now) classes.now from to result }
{
    for run in runs {
        let end = run.end.min(to);
        let start = run.start.max(from).min(end);
        let unit = first_standing_for(direction, 1, classes, start, end);
        if unit < end {
            return unit;
        }
    }
    to
}

/// Returns the nearest direction at the code units of some runs before `to`, or `before` if there is none.
pub fn direction_before(
    before: BidiClass,
    runs: &[LevelRun],
    classes: &[BidiClass],
    to: usize,
) -> BidiClass
    requires ordered { IsTrue (are_ordered (map bounds runs.now)) }
    requires inside { All (λ r. r.1 ≤ length classes.now) (map bounds runs.now) }
    ensures { IsNearestBefore before (map bounds runs.now) classes.now to result }
{
    for run in (0..runs.len()).rev() {
        for unit in (runs[run].start..runs[run].end.min(to)).rev() {
            if let Some(direction) = as_direction(classes[unit]) {
                return direction;
            }
        }
    }
    before
}
