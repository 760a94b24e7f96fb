//! Sequences with a single direction: N0 to N2 give it to each character that is not BN.

ghost use Rattle.std.specs.Prelude.{◌≡◌, ℕ, ◌≤◌, true, false, length, map, All, IsTrue};
ghost use Rattle.bidi_base.specs.Indexes.{class_at};
ghost use Rattle.bidi_base.specs.Units.{bounds, in_runs};
ghost use Rattle.bidi_rules.specs.NeutralPass.{turns_from};

use super::directions::Directions;
use bidi_base::char_data::BidiClass::{self, AN, EN, L, R};
use bidi_base::search::ClassTest;
use bidi_explicit::prepare::LevelRun;
use bidi_explicit::run_search::none_passes;

/// Returns true only if sos and eos are the embedding direction, and no class in the runs is a number or the
/// other direction.
pub fn stands_alone(directions: Directions, runs: &[LevelRun], classes: &[BidiClass]) -> bool
    requires { All (λ r. r.1 ≤ length classes.now) (map bounds runs.now) }
    ensures sos { IsTrue result → directions.sos ≡ directions.embedding }
    ensures eos { IsTrue result → directions.eos ≡ directions.embedding }
    ensures classes { IsTrue result → (u : ℕ) → in_runs (map bounds runs.now) u ≡ true
        → turns_from directions.embedding (class_at classes.now u) ≡ false }
{
    let Directions {
        embedding,
        sos,
        eos,
    } = directions;
    sos == embedding && eos == embedding && none_passes(TurningFrom(embedding), runs, classes)
}

/// Numbers, and the direction other than this one. The test has no branch, so that many code units are
/// tested at once.
#[derive(Clone, Copy, Debug)]
struct TurningFrom(BidiClass);

impl ClassTest for TurningFrom {
    ghost use Rattle.bidi_rules.specs.NeutralPass.{turns_from};

    ghost test = { λ d. turns_from d.0 };

    fn passes(self, class: BidiClass) -> bool {
        let other = if self.0 == L { R } else { L };
        (class == other) | (class == EN) | (class == AN)
    }
}
