//! The weak types in place (W1 to W7).

ghost use Rattle.std.specs.Prelude.{◌≡◌, ◌+◌, ◌*◌, ◌≤◌, List, length, map, IsTrue};
ghost use Rattle.std.specs.List.{list_any};
ghost use Rattle.bidi_base.specs.Classes.{is_l_or_r};
ghost use Rattle.bidi_base.specs.Texts.{chars_in_runs, AreLines, AreWeakTypesResolved, CanResolveWeakTypes, IsPerChar};
ghost use Rattle.bidi_base.specs.Units.{bounds, are_ordered, units_in_runs};
ghost use Rattle.bidi_base.specs.Weak.{carried};
ghost use Rattle.bidi_base.specs.declared.char_data.BidiClass.{BidiClass};
ghost use Rattle.bidi_explicit.specs.RunSequence.{runs as runs_of, sos as sos_of};
ghost use Rattle.bidi_rules.specs.WeakPass.{is_mark_or_number};
ghost use Rattle.bidi_rules.specs.WeakWalk.{is_any_of, is_any_in_blocks, part_of, unit_count_of, blocks_of, IsMarked, IsWalked};
ghost use Rattle.bidi_rules.specs.InText.{char_count_of, len_at, CanResolveWeak, IsWeakResolved};

mod before;
mod w1;
mod w2_w4_w5_w7;
mod w3_w6;

use bidi_base::char_data::BidiClass::{self, NSM};
use bidi_explicit::prepare::{BorrowedSequence, IsolatingRunSequence, LevelRun, Steps};
use bidi_text::text::TextSource;
use std::marker::Brand;
use std::sync::ledger::{Blank, Ledger};
use w1::resolve_marks;
use w2_w4_w5_w7::{is_number, resolve_numbers};
use w3_w6::resolve_w3_w6;

/// Returns the classes of a run's code units, as far as there are any.
fn part_of<'c>(classes: &'c [BidiClass], run: &LevelRun) -> &'c [BidiClass]
    ensures { result.now ≡ part_of classes.now (bounds run.now) }
{
    let end = run.end.min(classes.len());
    &classes[run.start.min(end)..end]
}

/// Resolves the weak types of a sequence in place: W1 to W7 over its characters that are not BN.
///
/// Each code unit of `processing_classes` has the class of its character, and the sequence fits the text.
/// BN stays BN, and code units outside the sequence do not change. Does not allocate.
///
/// Tests whether there are any nonspacing marks and numbers. Besides these tests, it passes over the code
/// units at most twice for marks, twice for numbers, and once for what is left. Terminators and separators
/// that wait for the next character are passed over once more. The clauses of [`resolve_weak_counted`] bound all
/// iterations.
pub fn resolve_weak<T: TextSource>(
    text: T,
    sequence: &IsolatingRunSequence,
    processing_classes: &mut [BidiClass],
)
    requires { CanResolveWeakTypes (T.text text) (map bounds (runs_of sequence.now)) processing_classes.old }
    ensures { AreWeakTypesResolved (T.text text) (map bounds (runs_of sequence.now))
        (sos_of sequence.now) processing_classes.old processing_classes.new }
{
    resolve_weak_with_new_count::<T, Brand>(text, sequence, processing_classes, Blank::new(1))
}

// Calls [`resolve_weak_counted`] with a new count.
fn resolve_weak_with_new_count<T: TextSource, S: Ledger>(
    text: T,
    sequence: &IsolatingRunSequence,
    processing_classes: &mut [BidiClass],
    blank: Blank,
)
    requires sequence { CanResolveWeakTypes (T.text text) (map bounds (runs_of sequence.now)) processing_classes.old }
    requires name { blank.name ≡ S.name }
    requires parts { blank.parts ≡ S.parts }
    requires one { blank.parts ≡ 1 }
    ensures { AreWeakTypesResolved (T.text text) (map bounds (runs_of sequence.now))
        (sos_of sequence.now) processing_classes.old processing_classes.new }
{
    let mut steps = Steps::<S>::new(blank);
    resolve_weak_counted(text, sequence, processing_classes, &mut steps)
}

/// Like [`resolve_weak`], and counts each loop iteration in `steps`, including those of the functions it
/// calls.
///
/// There is at least one iteration for each character in the runs, and at most eight for each code unit. A
/// character that depends on a later one waits until that is read. The passes do not search ahead for what it
/// depends on, so they do not pass over a stretch of BN for each code unit before it. Calls of the text and
/// of the library count as no iterations.
pub fn resolve_weak_counted<T: TextSource, S: Ledger>(
    text: T,
    sequence: &IsolatingRunSequence,
    processing_classes: &mut [BidiClass],
    steps: &mut Steps<S>,
)
    requires { CanResolveWeakTypes (T.text text) (map bounds (runs_of sequence.now)) processing_classes.old }
    ensures resolved { AreWeakTypesResolved (T.text text) (map bounds (runs_of sequence.now))
        (sos_of sequence.now) processing_classes.old processing_classes.new }
    ensures steps_at_least { steps.old
        + length (chars_in_runs (T.text text) (map bounds (runs_of sequence.now)))
        ≤ steps.new }
    ensures steps_at_most { steps.new ≤ steps.old + 8 * length (units_in_runs (map bounds (runs_of sequence.now))) }
{
    resolve_weak_borrowed_counted(text, sequence.borrowed(), processing_classes, steps)
}

/// Like [`resolve_weak_counted`], for a sequence that borrows its runs.
pub fn resolve_weak_borrowed_counted<T: TextSource, S: Ledger>(
    text: T,
    sequence: BorrowedSequence<'_>,
    processing_classes: &mut [BidiClass],
    steps: &mut Steps<S>,
)
    requires { CanResolveWeak (T.text text) sequence processing_classes.old }
    ensures resolved { IsWeakResolved (T.text text) sequence.entry processing_classes.old processing_classes.new }
    ensures steps_at_least { steps.old + char_count_of (T.text text) sequence.entry ≤ steps.new }
    ensures steps_at_most { steps.new ≤ steps.old + 8 * unit_count_of sequence.entry }
{
    let runs = sequence.runs();
    let sos = sequence.sos();
    resolve_marks_and_numbers(text, runs, sos, processing_classes, steps);
    resolve_w3_w6(runs, processing_classes, steps);
}

/// Applies W1, and then W2, W4, W5 and W7. They matter only if there are nonspacing marks or numbers.
fn resolve_marks_and_numbers<T: TextSource, S: Ledger>(
    text: T,
    runs: &[LevelRun],
    sos: BidiClass,
    classes: &mut [BidiClass],
    steps: &mut Steps<S>,
)
    requires ordered { IsTrue (are_ordered (map bounds runs.now)) }
    requires are_lines { AreLines (T.text text) (map bounds runs.now) }
    requires per_char { IsPerChar (T.text text) classes.old }
    requires sos { IsTrue (is_l_or_r sos) }
    ensures walked { (marked : List BidiClass) × IsMarked (map bounds runs.now) (carried sos) classes.old marked
        × IsWalked (len_at (T.text text)) (map bounds runs.now) sos marked classes.new }
    ensures steps_at_least { steps.old ≤ steps.new }
    ensures steps_at_most { steps.new ≤ steps.old + 6 * length (units_in_runs (map bounds runs.now)) }
{
    if has_marks_or_numbers(runs, classes) {
        resolve_marks(runs, sos, classes, steps);
        resolve_numbers(text, runs, sos, classes, steps);
    }
}

/// Returns whether the runs have a nonspacing mark or a number. May also find one shortly after a long run.
fn has_marks_or_numbers(runs: &[LevelRun], classes: &[BidiClass]) -> bool
    ensures { result ≡ is_any_in_blocks is_mark_or_number runs.now classes.now }
{
    runs.iter()
        .any(|run| is_mark_or_number_among(blocks_of(classes, run)))
}

/// How many code units are tested together.
const WIDE: usize = 32;

/// Fewer code units than this are tested and changed one by one.
const MANY: usize = 8;

/// Returns the classes of a run's code units, as far as there are any. If the run has [`WIDE`] code units or
/// more, classes after it are added up to the next multiple of [`WIDE`], so that none is tested by itself.
/// After a shorter run, a number of another sequence is often near. It would only cause a pass without effect.
fn blocks_of<'c>(classes: &'c [BidiClass], run: &LevelRun) -> &'c [BidiClass]
    ensures { result.now ≡ blocks_of classes.now (bounds run.now) }
{
    let part = part_of(classes, run);
    if part.len() < WIDE {
        return part;
    }
    let units = (part.len() + (WIDE - 1)) / WIDE * WIDE;
    let blocks_end = (run.start + units).min(classes.len());
    &classes[run.start..blocks_end]
}

/// Returns whether one of the classes is that of a nonspacing mark or a number. Few classes are tested one by
/// one.
#[tactic(auto, using(crate::proofs::FoldAny::fold_any))]
fn is_mark_or_number_among(classes: &[BidiClass]) -> bool
    ensures { result ≡ is_any_of is_mark_or_number classes.now }
{
    if classes.len() < MANY {
        return is_mark_or_number_near(classes);
    }
    is_mark_or_number_in(classes)
}

/// Returns whether one of the classes is that of a nonspacing mark or a number. Tests them up to the first
/// such class.
fn is_mark_or_number_near(classes: &[BidiClass]) -> bool
    ensures { result ≡ list_any is_mark_or_number classes.now }
{
    classes.iter().any(|class| is_mark_or_number(*class))
}

/// Returns whether one of the classes is that of a nonspacing mark or a number. Tests all of them, many at
/// once. The compiler vectorizes the loop only in a function of its own.
#[inline(never)]
fn is_mark_or_number_in(classes: &[BidiClass]) -> bool
    ensures { result ≡ is_any_of is_mark_or_number classes.now }
{
    classes
        .iter()
        .fold(false, |found, class| found | is_mark_or_number(*class))
}

/// Returns whether a class is that of a nonspacing mark or a number.
fn is_mark_or_number(class: BidiClass) -> bool
    ensures { result ≡ is_mark_or_number class }
{
    (class == NSM) | is_number(class)
}
