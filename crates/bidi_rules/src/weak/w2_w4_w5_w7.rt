//! W2, W4, W5 and W7 in one pass over the code units of a sequence, by stretches of one class. Most of
//! these rules treat several code units of one class like a single one. Only a separator between numbers
//! must be one character.

ghost use Rattle.std.specs.Prelude.{◌≡◌, ℕ, ◌+◌, ◌-◌, ◌*◌, ◌<◌, ◌≤◌, true, false, not, ◌&&◌, length, map, min, drop, find, get_or, reverse, slice_range, IsTrue};
ghost use Rattle.bidi_base.specs.Classes.{is_strong};
ghost use Rattle.bidi_base.specs.Indexes.{class_at};
ghost use Rattle.bidi_base.specs.Texts.{AreLines, IsPerChar};
ghost use Rattle.bidi_base.specs.Units.{bounds, are_ordered, units_in_runs};
ghost use Rattle.bidi_explicit.specs.RunCutting.{filled};
ghost use Rattle.bidi_rules.specs.WeakPass.{is_number_or_terminator, is_number, is_other, next_before, still_to_come, strengthened, waits};
ghost use Rattle.bidi_rules.specs.WeakWalk.{is_any, is_any_of, resolved_to, AreAlike, IsWalked, IsWhole};
ghost use Rattle.bidi_rules.specs.InText.{len_at};
ghost use Rattle.bidi_rules.specs.WeakWalk.{Passes, Reads, ReadsTo, WaitsBelow};
ghost use Rattle.bidi_explicit.specs.SequenceUnits.{count_below, is_seen, IsWrittenOver};

use super::before::{Before, numbered, strengthened, strong_up_to};
use super::part_of;
use super::w3_w6::left_over;
use bidi_base::char_data::BidiClass::{self, AL, AN, EN, ET, L, ON, R};
use bidi_base::search::{Among, ClassTest, end_of_last_passing_counted, first_passing_counted};
use bidi_explicit::prepare::{LevelRun, Steps};
use bidi_explicit::written::{is_kept_in_place, write_over_runs_counted};
use bidi_text::text::TextSource;
use std::ops::Range;
use std::sync::ledger::Ledger;

/// What a search looks for is mostly among this many code units. They are tested one by one.
const TESTED_SINGLY: usize = 4;

/// The level runs of a sequence, and their text.
#[derive(Drop)]
struct TextRuns<'r, T: TextSource> {
    text: T,
    runs: &'r [LevelRun],
}

/// The state of the pass after the code units that it has read.
#[derive(Clone, Copy, Debug)]
struct Walk {
    /// The nearest L, R or AL before, or else sos.
    strong: BidiClass,
    /// What is directly before.
    before: Before,
    /// The first code unit that waits, if some do.
    first: usize,
    /// The index of that code unit's run.
    first_run: usize,
}

/// Applies W2, W4, W5 and W7 to the code units of some runs that are not BN. None of them has NSM.
/// Separators and terminators that do not become numbers keep their class or get ON. AL stays.
pub fn resolve_numbers<T: TextSource, S: Ledger>(
    text: T,
    runs: &[LevelRun],
    sos: BidiClass,
    classes: &mut [BidiClass],
    steps: &mut Steps<S>,
)
    requires ordered { IsTrue (are_ordered (map bounds runs.now)) }
    requires are_lines { AreLines (T.text text) (map bounds runs.now) }
    requires per_char { IsPerChar (T.text text) classes.old }
    ensures walked { IsWalked (len_at (T.text text)) (map bounds runs.now) sos classes.old classes.new }
    ensures steps_at_least { steps.old ≤ steps.new }
    ensures steps_at_most { steps.new ≤ steps.old + 4 * length (units_in_runs (map bounds runs.now)) }
{
    if !has_numbers(runs, classes) {
        return;
    }
    let mut walk = Walk {
        strong: sos,
        before: Before::Other,
        first: 0,
        first_run: 0,
    };
    let sequence = TextRuns { text, runs };
    for run in 0..runs.len() {
        steps.tick();
        walk.read_run(&sequence, run, classes, steps);
    }
    let end = classes.len();
    walk.write_waiting(runs, classes, end, ON, steps);
}

/// Returns whether the runs have a number.
fn has_numbers(runs: &[LevelRun], classes: &[BidiClass]) -> bool
    ensures { result ≡ is_any is_number runs.now classes.now }
{
    runs.iter().any(|run| is_number_in(part_of(classes, run)))
}

/// Returns whether one of the classes is a number. Tests all of them, many at once. The compiler vectorizes
/// the loop only in a function of its own.
#[inline(never)]
fn is_number_in(classes: &[BidiClass]) -> bool
    ensures { result ≡ is_any_of is_number classes.now }
{
    classes
        .iter()
        .fold(false, |found, class| found | is_number(*class))
}

/// Returns whether a class is a European or Arabic number.
pub fn is_number(class: BidiClass) -> bool
    ensures { result ≡ is_number class }
{
    (class == EN) | (class == AN)
}

impl Walk {
    /// Reads the code units of the run at the index `run`.
    fn read_run<T: TextSource, S: Ledger>(
        &mut self,
        sequence: &TextRuns<'_, T>,
        run: usize,
        classes: &mut [BidiClass],
        steps: &mut Steps<S>,
    )
        requires ordered { IsTrue (are_ordered (map bounds sequence.now.runs.now)) }
        requires waiting { WaitsBelow (map bounds sequence.now.runs.now) self.old (get_or (map bounds sequence.now.runs.now) run (0, 0)).0 }
        requires run { run < length sequence.now.runs.now }
        requires inside { (get_or (map bounds sequence.now.runs.now) run (0, 0)).1 ≤ length classes.old }
        requires whole { let r = get_or (map bounds sequence.now.runs.now) run (0, 0) in
            (u : ℕ) → r.0 ≤ u → u < r.1 → IsWhole (len_at (T.text sequence.now.text)) classes.old r.1 u }
        ensures waiting { WaitsBelow (map bounds sequence.now.runs.now) self.new (get_or (map bounds sequence.now.runs.now) run (0, 0)).1 }
        ensures reads { let r = get_or (map bounds sequence.now.runs.now) run (0, 0) in
            ReadsTo (len_at (T.text sequence.now.text)) (map bounds sequence.now.runs.now) r.0 r.1 self.old self.new classes.old
            classes.new }
        ensures steps_at_least { steps.old ≤ steps.new }
        ensures steps_at_most { let r = get_or (map bounds sequence.now.runs.now) run (0, 0) in
            steps.new + 1 + 2 * count_below (map bounds sequence.now.runs.now) (resolved_to self.old r.0)
            ≤ steps.old + 2 * (r.1 - r.0) + 2 * count_below (map bounds sequence.now.runs.now) (resolved_to self.new r.1) }
    {
        let TextRuns { text, runs } = *sequence;
        let end = runs[run].end;
        let mut at = runs[run].start;
        while at < end {
            steps.tick();
            if self.passes_over(classes[at]) {
                at = self.pass_over(classes, at, end, steps);
                continue;
            }
            let next = self.stretch_end(text, classes, at, end, steps);
            if is_kept_in_place(classes[at]) {
                self.read(runs, run, classes, at..next, steps);
            }
            at = next;
        }
    }

    /// Returns whether a code unit of this class can be passed over: it is no number or terminator, and nothing
    /// that matters to them is directly before it.
    fn passes_over(&self, class: BidiClass) -> bool
        ensures { result ≡ (is_other self.now.before && not (is_number_or_terminator class)) }
    {
        matches!(self.before, Before::Other) && !is_number_or_terminator(class)
    }

    /// Passes over the code unit at `at` and those after it, up to the next number or terminator. Returns its index,
    /// or `end` if there is none before `end`.
    fn pass_over<S: Ledger>(
        &mut self,
        classes: &[BidiClass],
        at: usize,
        end: usize,
        steps: &mut Steps<S>,
    ) -> usize
        requires other { is_other self.old.before ≡ true }
        requires first { is_number_or_terminator (class_at classes.now at) ≡ false }
        requires some { at < end }
        requires inside { end ≤ length classes.now }
        ensures advances { at < result }
        ensures within { result ≤ end }
        ensures other { is_other self.new.before ≡ true }
        ensures first_run { self.new.first_run ≡ self.old.first_run }
        ensures passes { Passes at result end self.old self.new classes.now }
        ensures stops { result < end → is_number_or_terminator (class_at classes.now result) ≡ true }
        ensures steps_at_least { steps.old ≤ steps.new }
        ensures steps_at_most { steps.new + (at + 1) + at ≤ steps.old + min (result + 1) end + result }
    {
        let sought = Among {
            test: NumberOrTerminator,
            classes,
        };
        let next = first_passing_counted(sought, TESTED_SINGLY, at + 1, end, steps);
        self.strong = last_strong(classes, at, next, steps).unwrap_or(self.strong);
        next
    }

    /// Returns the end of the stretch that begins at `at`: code units of one class, before `end`. A separator
    /// that can be between numbers is a stretch of one character.
    fn stretch_end<T: TextSource, S: Ledger>(
        &self,
        text: T,
        classes: &[BidiClass],
        at: usize,
        end: usize,
        steps: &mut Steps<S>,
    ) -> usize
        requires some { at < end }
        requires inside { end ≤ length classes.now }
        requires whole { IsWhole (len_at (T.text text)) classes.now end at }
        ensures advances { at < result }
        ensures within { result ≤ end }
        ensures alike { AreAlike classes.now at result }
        ensures single { let next = next_before (strengthened self.now.strong (class_at classes.now at))
            self.now.before in
            still_to_come next (len_at (T.text text) at) ≡ still_to_come next (result - at) }
        ensures steps_at_least { steps.old ≤ steps.new }
        ensures steps_at_most { steps.new ≤ steps.old + min (result - at) (end - (at + 1)) }
    {
        let next = self.before.after(strengthened(self.strong, classes[at]));
        if next.is_separator() {
            at + len_at(text, at)
        } else {
            alike_end(classes, at, end, steps)
        }
    }

    /// Reads a stretch that is not BN, in the run at the index `run`.
    fn read<S: Ledger>(
        &mut self,
        runs: &[LevelRun],
        run: usize,
        classes: &mut [BidiClass],
        stretch: Range<usize>,
        steps: &mut Steps<S>,
    )
        requires ordered { IsTrue (are_ordered (map bounds runs.now)) }
        requires waiting { WaitsBelow (map bounds runs.now) self.old stretch.start }
        requires run { stretch.start < (get_or (map bounds runs.now) run (0, 0)).1 }
        requires some { stretch.start < stretch.end }
        requires inside { stretch.end ≤ length classes.old }
        ensures waiting { WaitsBelow (map bounds runs.now) self.new stretch.end }
        ensures before { self.new.before
            ≡ next_before (strengthened self.old.strong (class_at classes.old stretch.start)) self.old.before }
        ensures outside { (k : ℕ) → stretch.end ≤ k → class_at classes.new k ≡ class_at classes.old k }
        ensures same_len { length classes.new ≡ length classes.old }
        ensures reads { Reads (map bounds runs.now) run stretch.start stretch.end self.old self.new classes.old
            classes.new }
        ensures steps_at_least { steps.old ≤ steps.new }
        ensures steps_at_most { steps.new + 2 * count_below (map bounds runs.now) (resolved_to self.old stretch.start)
            ≤ steps.old + 2 * count_below (map bounds runs.now) (resolved_to self.new stretch.end) }
    {
        let Range { start, end } = stretch;
        let class = classes[start];
        let strong = strengthened(self.strong, class);
        let next = self.before.after(strong);
        if !self.before.is_joined_by(strong) {
            let held = numbered(self.strong, self.before.waiting_becomes(strong));
            self.write_waiting(runs, classes, start, held, steps);
            if next.waits() {
                self.first = start;
                self.first_run = run;
            } else {
                let own = numbered(self.strong, self.before.resolved(strong));
                if left_over(class) != own {
                    fill(classes, start, end, own);
                }
            }
        }
        self.strong = strong_up_to(self.strong, class);
        self.before = next;
    }

    /// Writes the class to the code units that wait, if some do. They are before `to`.
    fn write_waiting<S: Ledger>(
        &self,
        runs: &[LevelRun],
        classes: &mut [BidiClass],
        to: usize,
        class: BidiClass,
        steps: &mut Steps<S>,
    )
        requires ordered { IsTrue (are_ordered (map bounds runs.now)) }
        requires waiting { WaitsBelow (map bounds runs.now) self.now to }
        requires inside { to ≤ length classes.old }
        ensures held { waits self.now.before ≡ true
            → IsWrittenOver (is_seen (drop self.now.first_run (map bounds runs.now)) classes.old) class self.now.first
            to classes.old classes.new }
        ensures unchanged { waits self.now.before ≡ false → classes.new ≡ classes.old }
        ensures steps_at_least { steps.old ≤ steps.new }
        ensures steps_at_most { steps.new + 2 * count_below (map bounds runs.now) (resolved_to self.now to)
            ≤ steps.old + 2 * count_below (map bounds runs.now) to }
    {
        if self.before.waits() {
            write_over_runs_counted(
                &runs[self.first_run..],
                classes,
                self.first,
                to,
                class,
                steps,
            );
        }
    }
}

/// Writes the class to the code units from `start` up to `end`.
fn fill(classes: &mut [BidiClass], start: usize, end: usize, class: BidiClass)
    requires begins { start ≤ end }
    requires ends { end ≤ length classes.old }
    ensures { classes.new ≡ filled start (end - start) class classes.old }
{
    classes[start..end].fill(class);
}

/// Returns whether a class depends on its neighbors, or its neighbors on it, even if nothing that matters is
/// directly before it. These are numbers and ET.
fn is_number_or_terminator(class: BidiClass) -> bool
    ensures { result ≡ is_number_or_terminator class }
{
    is_number(class) | (class == ET)
}

/// The classes for which `is_number_or_terminator` holds.
#[derive(Clone, Copy, Debug)]
struct NumberOrTerminator;

impl ClassTest for NumberOrTerminator {
    ghost use Rattle.bidi_rules.specs.WeakPass.{is_number_or_terminator};

    ghost test = { λ _. is_number_or_terminator };

    fn passes(self, class: BidiClass) -> bool {
        is_number_or_terminator(class)
    }
}

/// The strong classes: L, R and AL.
#[derive(Clone, Copy, Debug)]
struct Strong;

impl ClassTest for Strong {
    ghost use Rattle.bidi_base.specs.Classes.{is_strong};

    ghost test = { λ _. is_strong };

    fn passes(self, class: BidiClass) -> bool {
        (class == L) | (class == R) | (class == AL)
    }
}

/// Returns the last strong class of the code units from `from` up to `to`, if there is one.
fn last_strong<S: Ledger>(
    classes: &[BidiClass],
    from: usize,
    to: usize,
    steps: &mut Steps<S>,
) -> Option<BidiClass>
    requires ordered { from ≤ to }
    requires within { to ≤ length classes.now }
    ensures last { result ≡ find is_strong (reverse (slice_range classes.now from to)) }
    ensures steps_at_least { steps.old ≤ steps.new }
    ensures steps_at_most { steps.new + from ≤ steps.old + to }
{
    let strong = Among {
        test: Strong,
        classes,
    };
    let end = end_of_last_passing_counted(strong, TESTED_SINGLY, from, to, steps);
    if from < end {
        Some(classes[end - 1])
    } else {
        None
    }
}

/// Returns the end of a series of code units that begins at `at` and has the class there, at most `end`.
fn alike_end<S: Ledger>(classes: &[BidiClass], at: usize, end: usize, steps: &mut Steps<S>) -> usize
    requires some { at < end }
    requires inside { end ≤ length classes.now }
    ensures advances { at < result }
    ensures within { result ≤ end }
    ensures alike { AreAlike classes.now at result }
    ensures steps { steps.new ≡ steps.old + min (result - at) (end - (at + 1)) }
{
    let class = classes[at];
    for unit in at + 1..end {
        steps.tick();
        if classes[unit] != class {
            return unit;
        }
    }
    end
}

/// Returns the length of the character that begins at a code unit, or 1 if none begins there.
fn len_at<T: TextSource>(text: T, unit: usize) -> usize
    ensures { result ≡ len_at (T.text text) unit }
{
    match text.char_at(unit) {
        Some((_, len)) => len,
        None => 1,
    }
}
