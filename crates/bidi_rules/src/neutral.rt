//! The neutrals in place (N0 to N2).
//!
//! A sequence with a single direction needs only N2. For other sequences the pass finds the brackets first,
//! and then resolves all classes in place. So it makes all allocations before it writes the first class.

ghost use Rattle.std.specs.Prelude.{◌≡◌, List, ◌∷◌, ◌++◌, [], length, map, OnOk};
ghost use Rattle.bidi_base.specs.FoundBrackets.{brackets_from};
ghost use Rattle.bidi_base.specs.InPlace.{IsDoneOrUnchanged};
ghost use Rattle.bidi_base.specs.Texts.{kept_in_place, text_len, AreLines, AreNeutralsResolved, AreNeutralsResolvedUpToN1, CanResolveNeutrals, IsLine};
ghost use Rattle.bidi_base.specs.PairSearch.{HasRead};
ghost use Rattle.bidi_base.specs.Units.{bounds};
ghost use Rattle.bidi_base.specs.declared.brackets.Bracket.{Bracket};
ghost use Rattle.bidi_rules.specs.NeutralPass.{HasGatheredNothing};
ghost use Rattle.bidi_rules.specs.InText.{placed_brackets};
ghost use Rattle.bidi_explicit.specs.RunSequence.{borrowed_runs, borrowed_sos, borrowed_eos, runs as runs_of, sos as sos_of, eos as eos_of};

mod class_tests;
mod directions;
mod marks;
mod nearest;
mod one_direction;
mod pairs;

use bidi_base::brackets::{Bracket, PairSearch};
use bidi_base::char_data::BidiClass;
use bidi_base::data_source::BidiDataSource;
use bidi_base::level::Level;
use bidi_base::search::{Among, first_passing};
use bidi_explicit::leveled_text::LeveledText;
use bidi_explicit::prepare::{BorrowedSequence, IsolatingRunSequence, LevelRun};
use bidi_text::text::TextSource;
use class_tests::OtherNeutral;
use directions::{Directions, apply_n2, resolve_opposite};
use nearest::first_kept;
use one_direction::stands_alone;
use pairs::{StoredRuns, resolve_pairs};
use std::alloc::{AllocError, Global};

/// Resolves the neutrals of one sequence after another, and reuses its memory for each.
#[derive(Debug, Drop)]
pub struct NeutralResolver {
    /// The brackets of a sequence that count, and their pairs, by the indices at which they begin.
    search: PairSearch,
}

impl NeutralResolver {
    /// Creates a resolver that has read nothing yet. Does not allocate.
    pub fn new(alloc: Global) -> NeutralResolver
        ensures { HasGatheredNothing result }
    {
        NeutralResolver {
            search: PairSearch::new(alloc),
        }
    }

    /// Resolves the neutrals of a sequence in place, as [`resolve_neutral`] does.
    ///
    /// Returns an error only if an allocation fails, and all classes are then unchanged. The resolver can be used
    /// again after an error.
    pub fn resolve<D: BidiDataSource, T: TextSource>(
        &mut self,
        text: T,
        data_source: &D,
        sequence: &IsolatingRunSequence,
        levels: &[Level],
        original_classes: &[BidiClass],
        processing_classes: &mut [BidiClass],
    ) -> Result<(), AllocError>
        requires { CanResolveNeutrals (T.text text) (map bounds (runs_of sequence.now)) levels.now
            original_classes.now processing_classes.old }
        ensures { IsDoneOrUnchanged result (AreNeutralsResolved (T.text text) (D.source data_source.now)
            (map bounds (runs_of sequence.now)) (sos_of sequence.now) (eos_of sequence.now) levels.now
            original_classes.now processing_classes.old processing_classes.new)
            processing_classes.old processing_classes.new }
    {
        let borrowed = sequence.borrowed();
        let runs = borrowed.runs();
        let Some(first) = first_kept(runs, processing_classes) else {
            return Ok(());
        };
        let embedding = levels[first].bidi_class();
        let leveled = LeveledText {
            text,
            original_classes,
            levels,
        };
        resolve_up_to_n1(self, &leveled, data_source, borrowed, processing_classes)?;
        apply_n2(embedding, runs, processing_classes);
        Ok(())
    }

    /// Reads the brackets of a sequence that count, with the indices at which they begin.
    fn gather<D: BidiDataSource, T: TextSource>(
        &mut self,
        text: T,
        data_source: &D,
        runs: &[LevelRun],
        classes: &[BidiClass],
    ) -> Result<(), AllocError>
        requires are_lines { AreLines (T.text text) (map bounds runs.now) }
        requires same_len { length classes.now ≡ text_len (T.text text) }
        ensures { OnOk result (HasRead self.new.search (placed_brackets (T.text text)
            (D.source data_source.now) classes.now
            (kept_in_place (T.text text) classes.now (map bounds runs.now)))) }
    {
        self.search.clear();
        for run in runs {
            self.gather_run(text, data_source, run, classes)?;
        }
        Ok(())
    }

    /// Reads the brackets of one run, after those read before.
    fn gather_run<D: BidiDataSource, T: TextSource>(
        &mut self,
        text: T,
        data_source: &D,
        run: &LevelRun,
        classes: &[BidiClass],
    ) -> Result<(), AllocError>
        requires is_line { IsLine (T.text text) run.now.start run.now.end }
        requires same_len { length classes.now ≡ text_len (T.text text) }
        requires read { (before : List Bracket) × HasRead self.old.search before }
        ensures { (before : List Bracket) → HasRead self.old.search before
            → OnOk result (HasRead self.new.search (before
            ++ placed_brackets (T.text text) (D.source data_source.now) classes.now
            (kept_in_place (T.text text) classes.now (bounds run.now ∷ [])))) }
    {
        let end = run.end;
        let neutrals = Among {
            test: OtherNeutral,
            classes,
        };
        let mut at = first_passing(neutrals, 1, run.start, end);
        while at < end {
            if let Some((c, _)) = text.char_at(at) {
                self.push(data_source, at, c)?;
            }
            at = first_passing(neutrals, 1, at + 1, end);
        }
        Ok(())
    }

    /// Reads the character `c` of class ON, which begins at `at`, if it is a bracket.
    fn push<D: BidiDataSource>(
        &mut self,
        data_source: &D,
        at: usize,
        c: char,
    ) -> Result<(), AllocError>
        requires { (before : List Bracket) × HasRead self.old.search before }
        ensures { (before : List Bracket) → HasRead self.old.search before → OnOk result (HasRead self.new.search (before
            ++ brackets_from at ((D.source data_source.now).bracket_of c ∷ []))) }
    {
        if let Some(bracket) = data_source.bidi_matched_opening_bracket(c) {
            self.search.read(&Bracket {
                index: at,
                opening: bracket.opening,
                is_open: bracket.is_open,
            })?;
        }
        Ok(())
    }
}

/// Resolves the neutrals of a sequence in place by N0 and N1, without N2.
///
/// `leveled` has the text, its stored classes and its explicit levels. `sequence` borrows its runs. Otherwise the
/// arguments are those of [`resolve_neutral`]. Reuses the memory of `resolver`. Returns an error only if an allocation
/// fails, and all classes are then unchanged.
///
/// Neutrals to which N2 would give the embedding direction stay neutral. The levels that I1 and I2 give are the same,
/// since they add nothing to either.
pub fn resolve_up_to_n1<D: BidiDataSource, T: TextSource>(
    resolver: &mut NeutralResolver,
    leveled: &LeveledText<'_, T>,
    data_source: &D,
    sequence: BorrowedSequence<'_>,
    processing_classes: &mut [BidiClass],
) -> Result<(), AllocError>
    requires { CanResolveNeutrals (T.text leveled.now.text) (map bounds (borrowed_runs sequence))
        leveled.now.levels.now leveled.now.original_classes.now processing_classes.old }
    ensures { IsDoneOrUnchanged result (AreNeutralsResolvedUpToN1 (T.text leveled.now.text)
        (D.source data_source.now) (map bounds (borrowed_runs sequence.entry)) (borrowed_sos sequence.entry)
        (borrowed_eos sequence.entry) leveled.now.levels.now leveled.now.original_classes.now processing_classes.old
        processing_classes.new)
        processing_classes.old processing_classes.new }
{
    let LeveledText {
        text,
        original_classes,
        levels,
    } = *leveled;
    let runs = sequence.runs();
    let sos = sequence.sos();
    let Some(first) = first_kept(runs, processing_classes) else {
        return Ok(());
    };
    let embedding = levels[first].bidi_class();
    let eos = sequence.eos();
    let directions = Directions {
        embedding,
        sos,
        eos,
    };
    if stands_alone(directions, runs, processing_classes) {
        return Ok(());
    }
    resolver.gather(text, data_source, runs, processing_classes)?;
    let pairs = resolver.search.finish();
    let stored = StoredRuns {
        runs,
        original_classes,
    };
    resolve_pairs(text, stored, directions, pairs, processing_classes);
    resolve_opposite(directions, runs, processing_classes);
    Ok(())
}

/// Resolves the neutrals of a sequence in place: N0 to N2 over its characters that are not BN.
///
/// Each code unit of `processing_classes` has the class of its character. In the sequence this is the class
/// after W7, or BN if X9 removes the character. `levels` and `original_classes` also have one entry for
/// each code unit, and `original_classes` has the stored classes. The sequence fits the text. The embedding
/// direction is that of the level at the sequence's first code unit that is not BN. No other level is read.
///
/// BN stays BN, and code units outside the sequence do not change. Returns an error only if an allocation
/// fails, and all classes are then unchanged. [`NeutralResolver`] does the same for many sequences with the
/// same memory.
///
/// The cost is linear in the sequence, but no clause says so. If the data source says that brackets themselves
/// are nonspacing marks, a series of marks is passed over a few times for each of the 63 pairs that can be open
/// at once.
pub fn resolve_neutral<D: BidiDataSource, T: TextSource>(
    alloc: Global,
    text: T,
    data_source: &D,
    sequence: &IsolatingRunSequence,
    levels: &[Level],
    original_classes: &[BidiClass],
    processing_classes: &mut [BidiClass],
) -> Result<(), AllocError>
    requires { CanResolveNeutrals (T.text text) (map bounds (runs_of sequence.now)) levels.now
        original_classes.now processing_classes.old }
    ensures { IsDoneOrUnchanged result (AreNeutralsResolved (T.text text) (D.source data_source.now)
        (map bounds (runs_of sequence.now)) (sos_of sequence.now) (eos_of sequence.now) levels.now
        original_classes.now processing_classes.old processing_classes.new)
        processing_classes.old processing_classes.new }
{
    NeutralResolver::new(alloc).resolve(
        text,
        data_source,
        sequence,
        levels,
        original_classes,
        processing_classes,
    )
}
