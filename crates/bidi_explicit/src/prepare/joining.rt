//! Joins level runs into isolating run sequences (BD13, X10).

ghost use Rattle.std.specs.Prelude.{◌≡◌, ◌≤◌, max, [], length, map, flat_map, All, IsPermutation, IsTrue, OnOk};
ghost use Rattle.bidi_base.specs.Texts.{IsLine, is_boundary, per_char, HaveClass, HaveLevel, level_run_ranges, AreLines};
ghost use Rattle.bidi_base.specs.declared.char_data.BidiClass.TheVariants.{L};
ghost use Rattle.bidi_base.specs.Explicit.{explicit_levels};
ghost use Rattle.bidi_base.specs.Levels.{direction_of};
ghost use Rattle.bidi_base.specs.Search.{IsEndOfLast, IsFirst, passing};
ghost use Rattle.bidi_base.specs.Sequences.{is_kept_at, sequences, HasExplicitLevels, FlagsInitiators};
ghost use Rattle.bidi_base.specs.Units.{bounds};
ghost use Rattle.bidi_explicit.specs.InText.{read_units, sequences_in};
ghost use Rattle.bidi_explicit.specs.Joining.{level_after_run, is_isolate_control};
ghost use Rattle.bidi_explicit.specs.RunSequence.{run_bounds};

use super::waiting::Waiting;
use super::{
    IsolatingRunSequence, IsolatingRunSequenceVec, LevelRun, LevelRunVec, RunLinks,
    not_removed_by_x9,
};
use crate::characters::end_within;
use crate::leveled_text::LeveledText;
use bidi_base::char_data::BidiClass;
use bidi_base::classes::{is_isolate_initiator, is_pdi};
use bidi_base::level::Level;
use bidi_base::search::{Among, ClassTest, end_of_last_passing, first_passing};
use bidi_text::text::TextSource;
use std::alloc::{AllocError, Global};

// Classes that X9 keeps.
#[derive(Clone, Copy, Debug)]
struct Kept;

impl ClassTest for Kept {
    ghost use Rattle.bidi_base.specs.Classes.{is_kept};

    ghost test = { λ _ class. is_kept class };

    fn passes(self, class: BidiClass) -> bool {
        not_removed_by_x9(&class)
    }
}

// Returns the index after the last code unit of a run with a class that X9 keeps, or the run's start if there
// is none.
pub(super) fn kept_end(classes: &[BidiClass], run: &LevelRun) -> usize
    requires ordered { run.now.start ≤ run.now.end }
    requires inside { run.now.end ≤ length classes.now }
    ensures { IsEndOfLast (is_kept_at classes.now) run.now.start run.now.end result }
{
    let kept = Among {
        test: Kept,
        classes,
    };
    end_of_last_passing(kept, TESTED_SINGLY, run.start, run.end)
}

// Returns the class at an end of a sequence, between characters of these levels (X10).
pub(super) fn side(inner: Level, outer: Level) -> BidiClass
    ensures { result ≡ direction_of (max inner outer) }
{
    inner.max(outer).bidi_class()
}

// Returns the level after a run that ends at `end`. `class` is that of its last kept character. This is the
// level of the next run. After an isolate initiator, and at the end of the text, it is the paragraph level.
pub(super) fn level_after(
    para_level: Level,
    class: BidiClass,
    levels: &[Level],
    end: usize,
) -> Level
    requires { end ≤ length levels.now }
    ensures { result ≡ level_after_run para_level class levels.now end }
{
    if is_isolate_initiator(class) || end == levels.len() {
        para_level
    } else {
        levels[end]
    }
}

// Reads those characters of a run that open or close an isolate, and tracks what is open. The character
// that ends at `kept_end` is the last that X9 keeps. If it opens an isolate, the sequence at `s` waits for
// the PDI.
//
// Nothing waits for the other isolates that the run opens. `unwaited` counts them. Only those that the run
// leaves open come to `waiting`.
pub(super) fn read_run<T: TextSource>(
    waiting: &mut Waiting,
    text: T,
    classes: &[BidiClass],
    run: &LevelRun,
    kept_end: usize,
    s: usize,
) -> Result<(), AllocError>
    requires per_char { HaveClass (T.text text) classes.now }
    requires is_line { IsLine (T.text text) run.now.start run.now.end }
    requires kept_end { IsTrue (is_boundary (T.text text) kept_end) }
    ensures { OnOk result (waiting.new
        ≡ read_units (T.text text) classes.now kept_end s run.now.start run.now.end
        waiting.old) }
{
    let end = run.end;
    let mut unwaited: usize = 0;
    let mut at = run.start;
    while at < end {
        let control = next_control(classes, at, end);
        if control == end {
            break;
        }
        at = end_within(text, control, classes.len());
        if is_pdi(classes[control]) {
            if unwaited > 0 {
                unwaited -= 1;
            } else {
                waiting.pop();
            }
        } else if at == kept_end {
            waiting.push_unwaited(unwaited)?;
            waiting.push(s)?;
            unwaited = 0;
        } else {
            unwaited += 1;
        }
    }
    waiting.push_unwaited(unwaited)
}

// The classes that open or close an isolate. The test has no branch, so that many code units are tested at
// once.
#[derive(Clone, Copy, Debug)]
struct IsolateControl;

impl ClassTest for IsolateControl {
    ghost use Rattle.bidi_explicit.specs.Joining.{is_isolate_control};

    ghost test = { λ _. is_isolate_control };

    fn passes(self, class: BidiClass) -> bool {
        (class == BidiClass::LRI)
            | (class == BidiClass::RLI)
            | (class == BidiClass::FSI)
            | (class == BidiClass::PDI)
    }
}

// What a search looks for is mostly among this many code units. They are tested one by one.
const TESTED_SINGLY: usize = 4;

// Returns the first index in `from..to` with a class that opens or closes an isolate, or else `to`.
#[inline(always)]
fn next_control(classes: &[BidiClass], from: usize, to: usize) -> usize
    requires ordered { from ≤ to }
    requires within { to ≤ length classes.now }
    ensures { IsFirst (passing is_isolate_control classes.now) from to result }
{
    let controls = Among {
        test: IsolateControl,
        classes,
    };
    first_passing(controls, TESTED_SINGLY, from, to)
}

/// Writes the isolating run sequences of a paragraph to `out`, in the order of their first characters
/// (BD13, X10).
///
/// `original_classes` has the stored classes and `levels` the explicit levels, one entry for each code
/// unit, equal within each character. Levels of characters that X9 removes are not read. `runs` must be the
/// level runs that [`compute`](crate::explicit::compute) finds. `has_isolate_controls` may be false only if no
/// class is LRI, RLI or FSI. Each run is then a sequence of its own.
///
/// `out` must be empty, and gets each run in exactly one sequence. If X9 removes the whole paragraph, its
/// one run is a sequence without characters, with L or R at each end. Returns an error only if an allocation
/// fails. `out` may then hold any sequences.
pub fn isolating_run_sequences<T: TextSource>(
    alloc: Global,
    text: T,
    para_level: Level,
    original_classes: &[BidiClass],
    levels: &[Level],
    runs: LevelRunVec,
    has_isolate_controls: bool,
    out: &mut IsolatingRunSequenceVec,
) -> Result<(), AllocError>
    requires original { HaveClass (T.text text) original_classes.now }
    requires levels { HaveLevel (T.text text) levels.now }
    requires runs { let stored = per_char L (T.text text) original_classes.now in
        map bounds runs.items
        ≡ level_run_ranges (T.text text) stored (per_char 0 (T.text text) levels.now) }
    requires isolates { FlagsInitiators original_classes.now has_isolate_controls }
    requires out { out.old.items ≡ [] }
    ensures sequences { let stored = per_char L (T.text text) original_classes.now in
        OnOk result (sequences_in (T.text text) stored out.new.items
        ≡ sequences para_level stored (per_char 0 (T.text text) levels.now)) }
    // Only the levels of characters that X9 keeps need be the explicit ones.
    ensures explicit { let stored = per_char L (T.text text) original_classes.now in
        OnOk result (HasExplicitLevels para_level stored (per_char 0 (T.text text) levels.now)
        → sequences_in (T.text text) stored out.new.items
        ≡ sequences para_level stored (explicit_levels para_level stored)) }
    ensures runs { OnOk result (IsPermutation (map bounds runs.items) (flat_map run_bounds out.new.items)) }
    ensures are_lines { OnOk result (All (λ s. AreLines (T.text text) (run_bounds s)) out.new.items) }
{
    let mut runs = runs;
    let mut links = RunLinks::new(alloc);
    let leveled = LeveledText {
        text,
        original_classes,
        levels,
    };
    links.link(&leveled, para_level, runs.as_slice(), has_isolate_controls)?;
    for first in 0..links.run_count() {
        if let Some(sequence) = links.gather(&mut runs, first)? {
            let borrowed = sequence.borrowed(runs.as_slice());
            out.push(IsolatingRunSequence::copied(alloc, borrowed)?)?;
        }
    }
    Ok(())
}
