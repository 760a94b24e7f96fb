//! N1 and N2 over the code units of a sequence.

ghost use Rattle.std.specs.Prelude.{◌≡◌, ◌⊎◌, ℕ, ◌<◌, ◌≤◌, true, false, length, map, get_or, drop, All, IsTrue};
ghost use Rattle.bidi_base.specs.Classes.{is_l_or_r, is_weak_resolved, stands_for};
ghost use Rattle.bidi_base.specs.Neutral.{n1_n2, n2_rule};
ghost use Rattle.bidi_base.specs.Indexes.{at_indexes, class_at};
ghost use Rattle.bidi_base.specs.Search.{IsFirst, passing};
ghost use Rattle.bidi_base.specs.declared.char_data.BidiClass.TheVariants.{L};
ghost use Rattle.bidi_base.specs.Units.{bounds, are_ordered, in_runs};
ghost use Rattle.bidi_base.specs.Updated.{IsUpdated};
ghost use Rattle.bidi_rules.specs.JoinPass.{IsAtOpposite, IsJoined, IsUnderWay, Unjoined};
ghost use Rattle.bidi_rules.specs.PairPass.{opposite_of};
ghost use Rattle.bidi_explicit.specs.SequenceUnits.{is_seen, seen_units, IsWrittenOver};

use super::class_tests::{AnyDirection, For, KeptNotFor, first_standing_for};
use bidi_base::char_data::BidiClass::{self, L, R};
use bidi_base::classes::{is_ni, stands_for};
use bidi_base::search::{Among, first_passing};
use bidi_explicit::prepare::LevelRun;
use bidi_explicit::written::write_over_runs;

/// The directions of a sequence: the embedding direction, and those at its ends.
#[derive(Clone, Copy, Debug)]
pub struct Directions {
    /// The direction of the sequence's level.
    pub embedding: BidiClass,
    /// The direction before its first character.
    pub sos: BidiClass,
    /// The direction after its last character.
    pub eos: BidiClass,
}

/// Returns the opposite direction.
pub fn opposite_of(direction: BidiClass) -> BidiClass
    ensures { result ≡ opposite_of direction }
{
    match direction {
        L => R,
        _ => L,
    }
}

/// Applies N1 for the direction opposite to the embedding direction.
///
/// Neutrals with that direction on both sides take it. At the ends of the sequence sos and eos count. All
/// others stay, for N2. Code units can be read like characters, since several of one class in a row have
/// the effect of one.
pub fn resolve_opposite(directions: Directions, runs: &[LevelRun], classes: &mut [BidiClass])
    requires side { IsTrue (is_l_or_r directions.embedding) }
    requires sos { IsTrue (is_l_or_r directions.sos) }
    requires eos { IsTrue (is_l_or_r directions.eos) }
    requires ordered { IsTrue (are_ordered (map bounds runs.now)) }
    requires inside { All (λ r. r.1 ≤ length classes.old) (map bounds runs.now) }
    requires resolved { (u : ℕ) → is_seen (map bounds runs.now) classes.old u ≡ true
        → is_weak_resolved (class_at classes.old u) ≡ true }
    ensures kept { let units = seen_units (map bounds runs.now) classes.old in
        map (n2_rule directions.embedding) (at_indexes L classes.new units)
        ≡ n1_n2 directions.embedding directions.sos directions.eos (at_indexes L classes.old units) }
    ensures outside { (u : ℕ) → is_seen (map bounds runs.now) classes.old u ≡ false
        → class_at classes.new u ≡ class_at classes.old u }
    ensures own { (u : ℕ)
        → (class_at classes.new u ≡ class_at classes.old u)
        ⊎ (class_at classes.new u ≡ opposite_of directions.embedding) }
{
    let opposite = opposite_of(directions.embedding);
    let mut join = Join {
        opposite,
        waits: stands_for(directions.sos, opposite),
        first: 0,
        first_run: 0,
    };
    for run in 0..runs.len() {
        join.read_run(runs, run, classes);
    }
    if stands_for(directions.eos, opposite) {
        let end = classes.len();
        join.write_waiting(runs, classes, end);
    }
}

/// The state of the pass for N1 after the code units that it has read.
#[derive(Clone, Copy, Debug)]
struct Join {
    /// The direction opposite to the embedding direction.
    opposite: BidiClass,
    /// Whether only neutrals came since this direction.
    waits: bool,
    /// The code unit at which these neutrals begin, if so.
    first: usize,
    /// The index of that code unit's run.
    first_run: usize,
}

// If the next code unit of the opposite direction is likely near, this many code units are tested one by one: a letter
// and a control have at most seven in UTF-8.
const TESTED_SINGLY: usize = 8;

impl Join {
    /// Reads the code units of the run at the index `run`.
    fn read_run(&mut self, runs: &[LevelRun], run: usize, classes: &mut [BidiClass])
        requires ordered { IsTrue (are_ordered (map bounds runs.now)) }
        requires first_run { self.old.first_run ≤ length runs.now }
        requires run { run < length runs.now }
        requires inside { (get_or (map bounds runs.now) run (0, 0)).1 ≤ length classes.old }
        ensures first_run { self.new.first_run ≤ length runs.now }
        ensures opposite { self.new.opposite ≡ self.old.opposite }
        ensures reads { let r = get_or (map bounds runs.now) run (0, 0) in
            (s : Unjoined) → s.runs ≡ map bounds runs.now → opposite_of s.e ≡ self.old.opposite
            → IsUnderWay s classes.old self.old r.0 → IsUnderWay s classes.new self.new r.1 }
    {
        let end = runs[run].end;
        let mut at = runs[run].start;
        while at < end {
            at = self.next_opposite(runs, classes, at, end);
            if at < end {
                at = self.pass(run, classes, at, end);
            }
        }
    }

    /// Finds the next code unit of the opposite direction, and writes over the neutrals that wait for it. Returns
    /// its index, or `end` if there is none.
    fn next_opposite(
        &mut self,
        runs: &[LevelRun],
        classes: &mut [BidiClass],
        at: usize,
        end: usize,
    ) -> usize
        requires ordered { IsTrue (are_ordered (map bounds runs.now)) }
        requires first_run { self.old.first_run ≤ length runs.now }
        requires some { at < end }
        requires inside { end ≤ length classes.old }
        ensures begins { at ≤ result }
        ensures within { result ≤ end }
        ensures first_run { self.new.first_run ≤ length runs.now }
        ensures opposite { self.new.opposite ≡ self.old.opposite }
        ensures there { result < end → stands_for self.old.opposite (class_at classes.new result) ≡ true }
        ensures reads { (s : Unjoined) → s.runs ≡ map bounds runs.now → opposite_of s.e ≡ self.old.opposite
            → ((k : ℕ) → at ≤ k → k < end → in_runs s.runs k ≡ true) → IsUnderWay s classes.old self.old at
            → IsAtOpposite s classes.new self.new result end }
    {
        let mut from = at;
        let mut is_close = false;
        if self.waits {
            let directions = Among {
                test: AnyDirection,
                classes,
            };
            let next = first_passing(directions, 1, at, end);
            if next == end {
                return end;
            }
            if stands_for(classes[next], self.opposite) {
                self.write_waiting(runs, classes, next);
                return next;
            }
            self.waits = false;
            is_close = next == at;
            from = next + 1;
        }
        self.first_opposite(is_close, classes, from, end)
    }

    /// Returns the first index in `from..end` with a class of the opposite direction, or else `end`.
    /// `is_close` tells whether it is likely near.
    fn first_opposite(
        &self,
        is_close: bool,
        classes: &[BidiClass],
        from: usize,
        end: usize,
    ) -> usize
        requires ordered { from ≤ end }
        requires inside { end ≤ length classes.now }
        ensures { IsFirst (passing (stands_for self.now.opposite) classes.now) from end result }
    {
        let singly = if is_close { TESTED_SINGLY } else { 1 };
        first_standing_for(self.opposite, singly, classes, from, end)
    }

    /// Passes over a stretch of the opposite direction, in the run at the index `run`. Returns where it
    /// ends, at most `end`. BN does not end it, so two stretches with BN alone between them are one, and
    /// nothing waits between them.
    fn pass(&mut self, run: usize, classes: &[BidiClass], at: usize, end: usize) -> usize
        requires some { at < end }
        requires inside { end ≤ length classes.now }
        requires there { stands_for self.old.opposite (class_at classes.now at) ≡ true }
        ensures advances { at < result }
        ensures within { result ≤ end }
        ensures first_run { self.new.first_run ≡ run }
        ensures opposite { self.new.opposite ≡ self.old.opposite }
        ensures reads { (s : Unjoined) → opposite_of s.e ≡ self.old.opposite → run < length s.runs
            → (get_or s.runs run (0, 0)).0 ≤ at → end ≤ (get_or s.runs run (0, 0)).1
            → IsJoined s classes.now self.old.waits at at → IsUnderWay s classes.now self.new result }
    {
        let others = Among {
            test: KeptNotFor(self.opposite),
            classes,
        };
        let next = first_passing(others, 1, at + 1, end);
        self.waits = true;
        self.first = next;
        self.first_run = run;
        next
    }

    /// Gives the opposite direction to the neutrals that wait, if there are any. They are before `to`.
    fn write_waiting(&self, runs: &[LevelRun], classes: &mut [BidiClass], to: usize)
        requires ordered { IsTrue (are_ordered (map bounds runs.now)) }
        requires first_run { self.now.first_run ≤ length runs.now }
        requires inside { to ≤ length classes.old }
        ensures held { self.now.waits ≡ true
            → IsWrittenOver (is_seen (drop self.now.first_run (map bounds runs.now)) classes.old) self.now.opposite
            self.now.first to classes.old classes.new }
        ensures unchanged { self.now.waits ≡ false → classes.new ≡ classes.old }
    {
        if self.waits && self.first < to {
            write_over_runs(
                &runs[self.first_run..],
                classes,
                self.first,
                to,
                self.opposite,
            );
        }
    }
}

/// N2: the neutrals of some runs take the embedding direction.
pub fn apply_n2(embedding: BidiClass, runs: &[LevelRun], classes: &mut [BidiClass])
    requires { All (λ r. r.1 ≤ length classes.old) (map bounds runs.now) }
    ensures { IsUpdated L (in_runs (map bounds runs.now)) (n2_rule embedding) 0 (length classes.old) classes.old
        classes.new }
{
    for run in runs {
        apply_n2_in_run(embedding, run, classes);
    }
}

/// N2: the neutrals of one run take the embedding direction.
fn apply_n2_in_run(embedding: BidiClass, run: &LevelRun, classes: &mut [BidiClass])
    requires { run.now.end ≤ length classes.old }
    ensures { IsUpdated L (λ _. true) (n2_rule embedding) run.now.start run.now.end classes.old classes.new }
{
    for unit in run.start..run.end {
        classes[unit] = n2_class(embedding, classes[unit]);
    }
}

/// Returns a class after N2.
fn n2_class(embedding: BidiClass, class: BidiClass) -> BidiClass
    ensures { result ≡ n2_rule embedding class }
{
    if is_ni(class) { embedding } else { class }
}
