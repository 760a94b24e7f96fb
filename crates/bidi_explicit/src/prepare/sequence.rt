//! Isolating run sequences as lists of level runs, and iterators over their code units.

ghost use Rattle.std.specs.Prelude.{◌≡◌, ◌≤◌, ◌<◌, ◌↔◌, IsTrue, IfSome, IfOk, map, length, get_or, is_some};
ghost use Rattle.bidi_base.specs.Classes.{is_l_or_r};
ghost use Rattle.bidi_base.specs.Units.{bounds, are_ordered, is_run_sequence};

use super::{BorrowedSequence, LevelRun};
use bidi_base::char_data::BidiClass;
use bidi_text::text::{TextSource, is_line};
use smallvec::SmallVec;
use std::alloc::{AllocError, Global};

/// An isolating run sequence (BD13): one or more level runs in text order, and the classes that
/// hold at its start and at its end (X10), each L or R.
#[derive(PartialEq, Debug, Drop)]
pub struct IsolatingRunSequence {
    /// Most sequences have one or two runs, which need no allocation.
    runs: SmallVec<LevelRun, 2>,
    sos: BidiClass,
    eos: BidiClass,
    pub ghost well_formed: { IsTrue (is_run_sequence (map bounds runs.items) sos eos) },
}

impl IsolatingRunSequence {
    ghost use Rattle.bidi_explicit.specs.RunSequence.{runs as runs_of, joined, borrowed_joined, sos as sos_of, eos as eos_of, forwards_left, backwards_left};
    ghost use Rattle.bidi_base.specs.Texts.{AreLines};
    ghost use Rattle.bidi_base.specs.Units.{units_from, units_below};

    /// Creates a sequence of these runs.
    ///
    /// Returns `None` unless there is a run, each run is non-empty and ends at or before the start of the
    /// next, and `sos` and `eos` are each L or R.
    pub fn new(runs: Vec<LevelRun>, sos: BidiClass, eos: BidiClass) -> Option<IsolatingRunSequence>
        ensures succeeds { is_some result ≡ is_run_sequence (map bounds runs.items) sos eos }
        ensures runs { IfSome result (λ s. runs_of s ≡ runs.items) }
        ensures sos { IfSome result (λ s. sos_of s ≡ sos) }
        ensures eos { IfSome result (λ s. eos_of s ≡ eos) }
    {
        if runs.is_empty() || !are_in_order(&runs) || !is_side(sos) || !is_side(eos) {
            return None;
        }
        Some(IsolatingRunSequence {
            runs: SmallVec::from_vec(runs),
            sos,
            eos,
        })
    }

    /// Copies the runs of a sequence that borrows them.
    pub(super) fn copied(
        alloc: Global,
        sequence: BorrowedSequence<'_>,
    ) -> Result<IsolatingRunSequence, AllocError>
        ensures { IfOk result (λ s. joined s ≡ borrowed_joined sequence.entry) }
    {
        let mut runs = SmallVec::new(alloc);
        for run in sequence.runs() {
            runs.push(run.start..run.end)?;
        }
        let (sos, eos) = (sequence.sos(), sequence.eos());
        Ok(IsolatingRunSequence { runs, sos, eos })
    }

    /// Returns the level runs, in text order.
    pub fn runs(&self) -> &[LevelRun]
        ensures { result.now ≡ runs_of self.now }
    {
        self.runs.as_slice()
    }

    /// Returns the class before the first character.
    pub fn sos(&self) -> BidiClass
        ensures { result ≡ sos_of self.now }
    {
        self.sos
    }

    /// Returns the class after the last character.
    pub fn eos(&self) -> BidiClass
        ensures { result ≡ eos_of self.now }
    {
        self.eos
    }

    /// Returns whether each run is in the text and splits no character, see [`is_line`].
    pub fn fits<T: TextSource>(&self, text: T) -> bool
        ensures { IsTrue result ↔ AreLines (T.text text) (map bounds (runs_of self.now)) }
    {
        for run in self.runs() {
            if !is_line(text, run) {
                return false;
            }
        }
        true
    }

    /// Iterates over the code units from `pos` to the end of the run at the index `run`, then over those of
    /// each later run, upwards. `pos` must be in that run or at its end.
    pub fn iter_forwards_from(&self, pos: usize, run: usize) -> ForwardsFrom<'_>
        requires run { run < length (runs_of self.now) }
        requires from { (get_or (map bounds (runs_of self.now)) run (0, 0)).0 ≤ pos }
        requires to { pos ≤ (get_or (map bounds (runs_of self.now)) run (0, 0)).1 }
        ensures { forwards_left result ≡ units_from (map bounds (runs_of self.now)) pos run }
    {
        let runs = self.runs();
        ForwardsFrom {
            at: pos,
            end: runs[run].end,
            later: &runs[run + 1..],
        }
    }

    /// Iterates over the code units below `pos` down to the start of the run at the index `run`. Then come
    /// those of each earlier run, nearest run first, each downwards. `pos` must be in that run or at its end.
    pub fn iter_backwards_from(&self, pos: usize, run: usize) -> BackwardsFrom<'_>
        requires run { run < length (runs_of self.now) }
        requires from { (get_or (map bounds (runs_of self.now)) run (0, 0)).0 ≤ pos }
        requires to { pos ≤ (get_or (map bounds (runs_of self.now)) run (0, 0)).1 }
        ensures { backwards_left result ≡ units_below (map bounds (runs_of self.now)) pos run }
    {
        let runs = self.runs();
        BackwardsFrom {
            start: runs[run].start,
            at: pos,
            earlier: &runs[..run],
        }
    }
}

/// Iterates over the code units of a sequence upwards from an index in it.
#[derive(Debug, Drop)]
pub struct ForwardsFrom<'s> {
    at: usize,
    end: usize,
    later: &'s [LevelRun],
    ghost in_order: { IsTrue (are_ordered (map bounds later.now)) },
}

impl<'s> Iterator for ForwardsFrom<'s> {
    ghost use Rattle.std.specs.Iterator.{YieldsFirst, item_count};
    ghost use Rattle.bidi_explicit.specs.RunSequence.{forwards_left};

    type Item = usize;

    ghost next_gives = { YieldsFirst forwards_left };

    ghost remaining = { item_count forwards_left };

    fn next(&mut self) -> Option<usize> {
        if self.at < self.end {
            let unit = self.at;
            self.at += 1;
            return Some(unit);
        }
        let (run, later) = self.later.split_first()?;
        self.later = later;
        self.end = run.end;
        self.at = run.start + 1;
        Some(run.start)
    }
}

/// Iterates over the code units of a sequence downwards from an index in it.
#[derive(Debug, Drop)]
pub struct BackwardsFrom<'s> {
    start: usize,
    at: usize,
    earlier: &'s [LevelRun],
    ghost in_order: { IsTrue (are_ordered (map bounds earlier.now)) },
}

impl<'s> Iterator for BackwardsFrom<'s> {
    ghost use Rattle.std.specs.Iterator.{YieldsFirst, item_count};
    ghost use Rattle.bidi_explicit.specs.RunSequence.{backwards_left};

    type Item = usize;

    ghost next_gives = { YieldsFirst backwards_left };

    ghost remaining = { item_count backwards_left };

    fn next(&mut self) -> Option<usize> {
        if self.start < self.at {
            self.at -= 1;
            return Some(self.at);
        }
        let (run, earlier) = self.earlier.split_last()?;
        let unit = run.end - 1;
        self.earlier = earlier;
        self.start = run.start;
        self.at = unit;
        Some(unit)
    }
}

// Returns whether each run is non-empty and ends at or before the start of the next.
fn are_in_order(runs: &[LevelRun]) -> bool
    ensures { result ≡ are_ordered (map bounds runs.now) }
{
    let mut last = 0;
    for run in runs {
        if run.start < last || run.end <= run.start {
            return false;
        }
        last = run.end;
    }
    true
}

// Returns whether a class may be at an end of a sequence: L or R.
fn is_side(class: BidiClass) -> bool
    ensures { result ≡ is_l_or_r class }
{
    matches!(class, BidiClass::L | BidiClass::R)
}
