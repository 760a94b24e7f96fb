//! The explicit pass by stretches. Between two controls the status does not change, so all code units there
//! get the same level and the same override.
//!
//! The pass goes through a stretch from character to character, or from code unit to code unit.

ghost use Rattle.std.specs.Prelude.{◌≡◌, ℕ, ◌+◌, ◌*◌, ◌-◌, ◌<◌, ◌≤◌, true, List, None, Some, length, map, OnOk};
ghost use Rattle.bidi_base.specs.Indexes.{class_at};
ghost use Rattle.bidi_base.specs.StatusMachine.{State};
ghost use Rattle.bidi_base.specs.Texts.{text_len, HaveClass};
ghost use Rattle.bidi_base.specs.Units.{bounds};
ghost use Rattle.bidi_explicit.specs.RunCutting.{filled};
ghost use Rattle.bidi_explicit.specs.Control.{is_control};
ghost use Rattle.bidi_explicit.specs.ExplicitStretches.{open_run_after, runs_after, IsReadTo, IsUnread, ReadsOn};
ghost use Rattle.bidi_explicit.specs.Status.{entry_count, seen};

use super::status::{StatusEntry, StatusStack};
use super::{StepUnit, cut_run, write_control};
use crate::characters::end_within;
use crate::prepare::{LevelRunVec, Steps};
use bidi_base::char_data::BidiClass::{self, B, BN, FSI, LRE, LRI, LRO, PDF, PDI, RLE, RLI, RLO};
use bidi_base::level::Level;
use bidi_base::search::{Among, ClassTest, first_passing_counted};
use bidi_text::text::TextSource;
use std::alloc::AllocError;
use std::sync::ledger::Ledger;

// In a text with many controls, the next one is mostly among this many code units. They are tested one by one.
const TESTED_SINGLY: usize = 4;

/// Returns whether a class is a control: it changes the status, or it is B, which takes the paragraph level.
pub fn is_control(class: BidiClass) -> bool
    ensures { result ≡ is_control class }
{
    matches!(
        class,
        B | LRE | RLE | LRO | RLO | LRI | RLI | FSI | PDI | PDF
    )
}

/// Classes of controls. The test has no branch, so that many code units are tested at once.
#[derive(Clone, Copy, Debug)]
struct Control;

impl ClassTest for Control {
    ghost test = { λ _. is_control };

    fn passes(self, class: BidiClass) -> bool {
        let embedding = (class == LRE) | (class == RLE) | (class == LRO) | (class == RLO);
        let isolate = (class == LRI) | (class == RLI) | (class == FSI);
        (class == B) | embedding | isolate | (class == PDI) | (class == PDF)
    }
}

/// Classes that X9 keeps, in a stretch without controls: all but BN.
#[derive(Clone, Copy, Debug)]
pub struct KeptInPlace;

impl ClassTest for KeptInPlace {
    ghost use Rattle.bidi_base.specs.Classes.{is_kept_in_place};

    ghost test = { λ _. is_kept_in_place };

    fn passes(self, class: BidiClass) -> bool {
        class != BN
    }
}

/// The part of the paragraph just read: a stretch or a control, with one level.
#[derive(Clone, Copy, Debug)]
pub struct Progress {
    /// The index after that part.
    pub end: usize,
    /// Its level.
    pub level: Level,
    /// The first code unit of the part that X9 keeps.
    first_kept: Option<usize>,
}

/// The current level run, which no later run has ended yet.
#[derive(Clone, Copy, Debug)]
pub struct OpenRun {
    /// Its first code unit.
    pub start: usize,
    /// The level of the last kept character.
    last_level: Option<Level>,
}

impl OpenRun {
    /// Returns the run at the start of a paragraph.
    pub fn new() -> OpenRun
        ensures { result ≡ record { start = 0; last_level = None } }
    {
        OpenRun {
            start: 0,
            last_level: None,
        }
    }

    /// Extends the run over the part just read, or ends it before the first kept character of that part.
    pub fn extend(&mut self, runs: &mut LevelRunVec, progress: &Progress) -> Result<(), AllocError>
        ensures runs { OnOk result (map bounds runs.new.items
            ≡ runs_after progress.now.first_kept progress.now.level self.old (map bounds runs.old.items)) }
        ensures run { OnOk result (self.new ≡ open_run_after progress.now.first_kept progress.now.level self.old) }
    {
        if let Some(unit) = progress.first_kept {
            self.start = cut_run(runs, self.start, unit, self.last_level, progress.level)?;
            self.last_level = Some(progress.level);
        }
        Ok(())
    }
}

/// A paragraph, as the explicit pass reads it.
#[derive(Drop)]
pub struct Paragraph<'p, T: TextSource> {
    /// Its text.
    pub text: T,
    /// Its level, at most 125.
    pub level: Level,
    /// How the pass goes through a stretch without controls.
    pub step_unit: StepUnit,
    /// Its stored classes, one for each code unit. They are equal within each character.
    pub original_classes: &'p [BidiClass],
    ghost low: { level ≤ 125 },
    ghost per_char: { HaveClass (T.text text) original_classes.now },
    ghost long: { length original_classes.now ≡ text_len (T.text text) },
}

impl<'p, T: TextSource> Paragraph<'p, T> {
    ghost use Rattle.bidi_base.specs.Classes.{is_kept_in_place};
    ghost use Rattle.bidi_explicit.specs.Paragraph.{as_seen, chars_to, counted_to, least_to, AreCharsCounted, IsFirstPassing, IsNextStart, IsPlain, IsStart};

    /// Creates a paragraph.
    ///
    /// `level` must be at most 125. `original_classes` must have the stored class of each code unit, equal within
    /// each character.
    pub fn new(
        text: T,
        level: Level,
        step_unit: StepUnit,
        original_classes: &'p [BidiClass],
    ) -> Paragraph<'p, T>
        requires low { level ≤ 125 }
        requires per_char { HaveClass (T.text text) original_classes.now }
        ensures text { result.text ≡ text }
        ensures level { result.level ≡ level }
        ensures step_unit { result.step_unit ≡ step_unit }
        ensures classes { result.original_classes.now ≡ original_classes.now }
    {
        Paragraph {
            text,
            level,
            step_unit,
            original_classes,
        }
    }

    /// Returns the index after the character that begins at `start`.
    pub(super) fn end_of(&self, start: usize) -> usize
        requires begins { IsStart self.now start }
        requires inside { start < length self.now.original_classes.now }
        ensures { IsNextStart self.now start result }
    {
        end_within(self.text, start, self.original_classes.len())
    }

    // Returns the first character from `from` on and before `to` with a class that passes a test, or else `to`.
    // Counts one step for each character passed over.
    fn next_character<C: ClassTest, S: Ledger>(
        &self,
        test: C,
        from: usize,
        to: usize,
        steps: &mut Steps<S>,
    ) -> usize
        requires begins { IsStart self.now from }
        requires ends { IsStart self.now to }
        requires ordered { from ≤ to }
        requires within { to ≤ length self.now.original_classes.now }
        ensures first { IsFirstPassing self.now (C.test test) from to result }
        ensures begins { IsStart self.now result }
        ensures steps { AreCharsCounted self.now from result steps.old steps.new }
    {
        let mut at = from;
        while at < to && !test.passes(self.original_classes[at]) {
            steps.tick();
            at = self.end_of(at);
        }
        at
    }

    // Returns the end of the stretch without controls that begins at `from`.
    fn stretch_end<S: Ledger>(&self, from: usize, steps: &mut Steps<S>) -> usize
        requires begins { IsStart self.now from }
        requires inside { from < length self.now.original_classes.now }
        requires plain { IsPlain self.now from }
        ensures first { IsFirstPassing self.now is_control from (length self.now.original_classes.now) result }
        ensures begins { IsStart self.now result }
        ensures steps_at_least { steps.old + least_to self.now result ≤ steps.new + least_to self.now from }
        ensures steps_at_most { steps.new + counted_to self.now from ≤ steps.old + counted_to self.now result }
    {
        let classes = self.original_classes;
        match self.step_unit {
            StepUnit::CodeUnit => {
                let controls = Among {
                    test: Control,
                    classes,
                };
                first_passing_counted(controls, TESTED_SINGLY, from + 1, classes.len(), steps)
            }
            StepUnit::Character => self.next_character(Control, from, classes.len(), steps),
        }
    }

    // Returns the first character that X9 keeps, from `from` on and before `to`, or else `to`. No control may be
    // there.
    fn first_kept<S: Ledger>(&self, from: usize, to: usize, steps: &mut Steps<S>) -> usize
        requires begins { IsStart self.now from }
        requires ends { IsStart self.now to }
        requires ordered { from ≤ to }
        requires within { to ≤ length self.now.original_classes.now }
        ensures first { IsFirstPassing self.now is_kept_in_place from to result }
        ensures steps_at_least { steps.old ≤ steps.new }
        ensures steps_at_most { steps.new + counted_to self.now from ≤ steps.old + counted_to self.now to }
    {
        match self.step_unit {
            StepUnit::CodeUnit => {
                let kept = Among {
                    test: KeptInPlace,
                    classes: self.original_classes,
                };
                first_passing_counted(kept, TESTED_SINGLY, from, to, steps)
            }
            StepUnit::Character => self.next_character(KeptInPlace, from, to, steps),
        }
    }

    /// Reads the characters from an index up to the next control. The caller writes their level, which is the
    /// same for all of them.
    pub(super) fn read_stretch<S: Ledger>(
        &self,
        from: usize,
        status: StatusEntry,
        classes: &mut [BidiClass],
        steps: &mut Steps<S>,
    ) -> Progress
        requires inside { from < length self.now.original_classes.now }
        requires plain { IsPlain self.now from }
        requires begins { IsStart self.now from }
        requires same_len { length classes.old ≡ length self.now.original_classes.now }
        requires unread { IsUnread self.now.original_classes.now classes.old from }
        ensures read { (stack : State) (levels written : List ℕ) → seen status ≡ stack.top
            → written ≡ filled from (result.end - from) result.level levels
            → ReadsOn (as_seen self.now) from stack levels classes.old result stack written classes.new }
        ensures advances { from < result.end }
        ensures within { result.end ≤ length self.now.original_classes.now }
        ensures more { counted_to self.now from < counted_to self.now result.end }
        ensures steps_at_least { steps.old + least_to self.now result.end ≤ steps.new + least_to self.now from }
        ensures steps_at_most { steps.new + 3 * counted_to self.now from ≤ steps.old + 3 * counted_to self.now result.end }
    {
        let end = self.stretch_end(from, steps);
        self.write_override(classes, from, end, status.override_class, steps);
        let first_kept = self.first_kept(from, end, steps);
        Progress {
            end,
            level: status.level,
            first_kept: (first_kept < end).then_some(first_kept),
        }
    }

    /// Reads the control that begins at an index.
    pub(super) fn read_control<S: Ledger>(
        &self,
        start: usize,
        stack: &mut StatusStack,
        levels: &mut [Level],
        classes: &mut [BidiClass],
        steps: &mut Steps<S>,
    ) -> Progress
        requires inside { start < length self.now.original_classes.now }
        requires control { is_control (class_at self.now.original_classes.now start) ≡ true }
        requires read { (runs : List (ℕ × ℕ)) × (run : OpenRun)
            × IsReadTo (as_seen self.now) start stack.old levels.old classes.old runs run }
        ensures read { ReadsOn (as_seen self.now) start stack.old levels.old classes.old result stack.new levels.new classes.new }
        ensures advances { start < result.end }
        ensures one { chars_to self.now result.end ≡ chars_to self.now start + 1 }
        ensures steps_at_least { steps.old ≤ steps.new }
        ensures steps_at_most { steps.new + entry_count stack.new ≤ steps.old + entry_count stack.old + 1 }
    {
        let class = self.original_classes[start];
        let answer = stack.read(self.level, class, steps);
        let end = self.end_of(start);
        write_control(levels, classes, start..end, answer.level, answer.class);
        Progress {
            end,
            level: answer.level,
            first_kept: answer.is_kept.then_some(start),
        }
    }
}
