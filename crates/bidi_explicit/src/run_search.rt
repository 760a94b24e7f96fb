//! Searches of the code units of level runs.

ghost use Rattle.std.specs.Prelude.{◌≡◌, ℕ, ◌<◌, ◌≤◌, true, false, length, map, All, IsTrue};
ghost use Rattle.bidi_base.specs.Indexes.{class_at};
ghost use Rattle.bidi_base.specs.Units.{bounds, in_runs};

use crate::prepare::LevelRun;
use bidi_base::char_data::BidiClass;
use bidi_base::search::{Among, ClassTest, first_passing};

/// Returns false only if no class of a run passes a test.
fn one_passes<C: ClassTest>(test: C, run: &LevelRun, classes: &[BidiClass]) -> bool
    requires { run.now.end ≤ length classes.now }
    ensures { result ≡ false → (u : ℕ) → run.now.start ≤ u → u < run.now.end → C.test test (class_at classes.now u) ≡ false }
{
    let end = run.end;
    let start = run.start.min(end);
    first_passing(Among { test, classes }, 1, start, end) < end
}

/// Returns true only if no class of some runs passes a test.
///
/// Each run must end at or before the last class.
pub fn none_passes<C: ClassTest>(test: C, runs: &[LevelRun], classes: &[BidiClass]) -> bool
    requires { All (λ r. r.1 ≤ length classes.now) (map bounds runs.now) }
    ensures { IsTrue result → (u : ℕ) → in_runs (map bounds runs.now) u ≡ true → C.test test (class_at classes.now u) ≡ false }
{
    for run in runs {
        if one_passes(test, run, classes) {
            return false;
        }
    }
    true
}
