//! Isolating run sequences as links from level run to level run (BD13, X10).

ghost use Rattle.std.specs.Prelude.{◌≡◌, ℕ, ◌<◌, [], ◌∷◌, ◌++◌, length, map, drop, flat_map, get_or, All, IsPermutation, IsTrue, OnOk, IfOk, IfSome, is_some, if◌then◌else◌};
ghost use Rattle.std.specs.declared.ops.Range.{Range};
ghost use Rattle.bidi_base.specs.Texts.{IsLine, is_boundary, HaveClass, AreLines};
ghost use Rattle.bidi_base.specs.Explicit.{explicit_levels};
ghost use Rattle.bidi_base.specs.Indexes.{last_or};
ghost use Rattle.bidi_base.specs.Sequences.{sequences, HasExplicitLevels, FlagsInitiators};
ghost use Rattle.bidi_base.specs.Units.{bounds};
ghost use Rattle.bidi_explicit.specs.InText.{read_units, sequences_of};
ghost use Rattle.bidi_explicit.specs.LeveledText.{text_of, classes_of, levels_of, IsLeveled, AreLevelRuns};

use super::joining::{kept_end, level_after, read_run, side};
use super::waiting::Waiting;
use super::{GatheredSequence, LevelRun, LevelRunVec};
use crate::leveled_text::LeveledText;
use bidi_base::char_data::BidiClass;
use bidi_base::level::Level;
use bidi_text::text::TextSource;
use std::alloc::{AllocError, Global};

/// The classes at the ends of a level run (X10).
#[derive(Clone, Copy, Debug)]
struct RunSides {
    /// The class before the run, if the run begins a sequence.
    sos: Option<BidiClass>,
    /// The class after the run, if the run ends its sequence.
    eos: BidiClass,
}

/// The isolating run sequences of a paragraph, as links between its level runs.
///
/// A link leads from a run that ends with an isolate initiator to the run that continues its sequence. A run
/// that no link leads to begins a sequence. So no list of sequences is needed.
#[derive(Drop)]
pub struct RunLinks {
    /// For each level run, the index of the run that continues its sequence, or 0 if none does. No sequence
    /// continues with the first run.
    next: Vec<usize>,
    /// The classes at the ends of each level run.
    sides: Vec<RunSides>,
    /// For each open isolate, the run that its PDI continues.
    waiting: Waiting,
}

impl RunLinks {
    ghost use Rattle.bidi_explicit.specs.LeveledText.{text_of, classes_of, levels_of, IsLeveled, AreLevelRuns};
    ghost use Rattle.bidi_explicit.specs.Gathered.{IsGatheredIn};
    ghost use Rattle.bidi_explicit.specs.Links.{with_link, with_sides, begins, next_run, run_chain, sequence_at, linked_runs, linked_sequences, AreLinked, KeepsLinked};

    /// Creates links between no runs. Does not allocate.
    pub fn new(alloc: Global) -> RunLinks {
        RunLinks {
            next: Vec::new(alloc),
            sides: Vec::new(alloc),
            waiting: Waiting::new(alloc),
        }
    }

    /// Removes all links, and makes room for this number of runs.
    fn restart(&mut self, runs: usize) -> Result<(), AllocError>
        ensures next { OnOk result (self.new.next.items ≡ []) }
        ensures sides { OnOk result (self.new.sides.items ≡ []) }
        ensures waiting { OnOk result (self.new.waiting ≡ []) }
    {
        self.next.clear();
        self.sides.clear();
        self.waiting.clear();
        self.next.reserve_exact(runs)?;
        self.sides.reserve_exact(runs)
    }

    /// Reads the isolate controls of the next run, if the paragraph has any. The last character that X9 keeps
    /// ends at `kept_end`.
    fn read<T: TextSource>(
        &mut self,
        text: T,
        classes: &[BidiClass],
        run: &LevelRun,
        kept_end: usize,
        has_isolate_controls: bool,
    ) -> Result<(), AllocError>
        requires per_char { HaveClass (T.text text) classes.now }
        requires is_line { IsLine (T.text text) run.now.start run.now.end }
        requires kept_end { IsTrue (is_boundary (T.text text) kept_end) }
        ensures next { self.new.next.items ≡ self.old.next.items }
        ensures sides { self.new.sides.items ≡ self.old.sides.items }
        ensures waiting { OnOk result (self.new.waiting ≡ (if has_isolate_controls
            then read_units (T.text text) classes.now kept_end (length self.old.next.items)
            run.now.start run.now.end self.old.waiting
            else self.old.waiting)) }
    {
        if has_isolate_controls {
            let index = self.next.len();
            read_run(&mut self.waiting, text, classes, run, kept_end, index)?;
        }
        Ok(())
    }

    /// Adds the next run. It continues the sequence of the run `waits`. If there is no such run, it begins a
    /// sequence.
    fn put(
        &mut self,
        waits: Option<usize>,
        sos: BidiClass,
        eos: BidiClass,
    ) -> Result<(), AllocError>
        requires { IfSome waits (λ r. r < length self.old.next.items) }
        ensures next { OnOk result (self.new.next.items ≡ with_link waits self.old.next.items) }
        ensures sides { OnOk result (self.new.sides.items ≡ with_sides waits sos eos self.old.sides.items) }
        ensures waiting { OnOk result (self.new.waiting ≡ self.old.waiting) }
    {
        if let Some(run) = waits {
            self.next[run] = self.next.len();
        }
        let sos = if waits.is_none() { Some(sos) } else { None };
        self.next.push(0)?;
        self.sides.push(RunSides { sos, eos })?;
        Ok(())
    }

    /// Links the level runs of a paragraph into its isolating run sequences (BD13, X10).
    ///
    /// The arguments, and the fields of `leveled`, are the arguments of
    /// [`isolating_run_sequences`](super::isolating_run_sequences). The links of an earlier paragraph are replaced.
    /// Returns an error only if an allocation fails. The links may then hold anything, and `gather` must not be called
    /// before another call of `link` succeeds.
    pub fn link<T: TextSource>(
        &mut self,
        leveled: &LeveledText<'_, T>,
        para_level: Level,
        runs: &[LevelRun],
        has_isolate_controls: bool,
    ) -> Result<(), AllocError>
        requires leveled { IsLeveled leveled.now }
        requires runs { AreLevelRuns leveled.now (map bounds runs.now) }
        requires isolates { FlagsInitiators leveled.now.original_classes.now has_isolate_controls }
        ensures sequences { let stored = classes_of leveled.now in
            OnOk result (sequences_of (text_of leveled.now) stored (linked_sequences self.new (map bounds runs.now))
            ≡ sequences para_level stored (levels_of leveled.now)) }
        // Only the levels of characters that X9 keeps need be the explicit ones.
        ensures explicit { let stored = classes_of leveled.now in
            OnOk result (HasExplicitLevels para_level stored (levels_of leveled.now)
            → sequences_of (text_of leveled.now) stored (linked_sequences self.new (map bounds runs.now))
            ≡ sequences para_level stored (explicit_levels para_level stored)) }
        ensures runs { OnOk result
            (IsPermutation (map bounds runs.now) (flat_map (λ s. s.runs) (linked_sequences self.new (map bounds runs.now)))) }
        ensures are_lines { OnOk result
            (All (λ s. AreLines (text_of leveled.now) s.runs) (linked_sequences self.new (map bounds runs.now))) }
        ensures linked { OnOk result (AreLinked self.new (map bounds runs.now)) }
    {
        let LeveledText {
            text,
            original_classes,
            levels,
        } = *leveled;
        self.restart(runs.len())?;
        let mut level_before = para_level;
        for run in runs {
            let kept_end = kept_end(original_classes, run);
            if kept_end == run.start {
                // X9 removes the whole paragraph.
                let side = para_level.bidi_class();
                self.put(None, side, side)?;
                return Ok(());
            }
            let level = levels[kept_end - 1];
            let last_class = original_classes[kept_end - 1];
            let sos = side(level, level_before);
            let eos = side(level, level_after(para_level, last_class, levels, run.end));
            let waits = self.waiting.waiting_for(original_classes[run.start]);
            self.read(text, original_classes, run, kept_end, has_isolate_controls)?;
            self.put(waits, sos, eos)?;
            level_before = level;
        }
        Ok(())
    }

    /// Returns the run that continues the sequence after a run, if one does.
    fn next_run(&self, run: usize) -> Option<usize>
        requires { run < length self.now.next.items }
        ensures { result ≡ next_run self.now.next.items run }
    {
        match self.next[run] {
            0 => None,
            next => Some(next),
        }
    }

    /// Returns the number of level runs that were linked, if the last call of `link` succeeded.
    pub fn run_count(&self) -> usize
        ensures { result ≡ length self.now.next.items }
    {
        self.next.len()
    }

    /// Replaces whatever follows the linked runs with a copy of the sequence's runs, in text order. `first` is the
    /// index of its first run. Returns the index of its last run among the linked runs.
    fn copy_chain(&self, runs: &mut LevelRunVec, first: usize) -> Result<usize, AllocError>
        requires linked { AreLinked self.now (linked_runs self.now runs.old.items) }
        requires first { first < length self.now.next.items }
        ensures outside { OnOk result (KeepsLinked self.now runs.old runs.new) }
        ensures runs { OnOk result (map bounds (drop (length self.now.next.items) runs.new.items)
            ≡ map (λ r. get_or (linked_runs self.now runs.old.items) r (0, 0)) (run_chain self.now first)) }
        ensures last { IfOk result (λ last. last ≡ last_or first (run_chain self.now first)) }
        ensures inside { IfOk result (λ last. last < length self.now.next.items) }
    {
        runs.truncate(self.next.len());
        push_copy(runs, first)?;
        let mut last = first;
        while let Some(next) = self.next_run(last) {
            push_copy(runs, next)?;
            last = next;
        }
        Ok(last)
    }

    /// Finds the sequence that begins with the run at an index. Returns `None` if that run continues a sequence.
    ///
    /// `runs` begins with the level runs that were linked. A sequence of one run is found among them. The runs
    /// of any other sequence are copied to the end of `runs`, in place of those of the sequence before. Only
    /// then can the call allocate. After success, `runs` still begins with the linked runs. After an error, nothing
    /// is promised about it.
    #[inline(always)]
    pub fn gather(
        &self,
        runs: &mut LevelRunVec,
        first: usize,
    ) -> Result<Option<GatheredSequence>, AllocError>
        requires linked { AreLinked self.now (linked_runs self.now runs.old.items) }
        requires first { first < length self.now.next.items }
        ensures outside { OnOk result (KeepsLinked self.now runs.old runs.new) }
        ensures begins { IfOk result (λ found. is_some found ≡ begins self.now first) }
        ensures sequence { IfOk result (λ found. IfSome found
            (λ s. IsGatheredIn s runs.new.items (sequence_at self.now (linked_runs self.now runs.old.items) first))) }
    {
        let Some(sos) = self.sides[first].sos else {
            return Ok(None);
        };
        if self.next_run(first).is_none() {
            let eos = self.sides[first].eos;
            return Ok(Some(GatheredSequence::new(first, first + 1, sos, eos)));
        }
        let last = self.copy_chain(runs, first)?;
        let eos = self.sides[last].eos;
        Ok(Some(GatheredSequence::new(self.next.len(), runs.len(), sos, eos)))
    }
}

/// Copies the run at an index to the end of the list.
fn push_copy(runs: &mut LevelRunVec, index: usize) -> Result<(), AllocError>
    requires { index < length runs.old.items }
    ensures { (d : Range ℕ) → OnOk result (runs.new.items ≡ runs.old.items ++ get_or runs.old.items index d ∷ []) }
{
    let run = &runs[index];
    let copy = run.start..run.end;
    runs.push(copy)?;
    Ok(())
}
