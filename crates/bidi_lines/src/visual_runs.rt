//! The visual runs of a line (L2).

ghost use Rattle.std.specs.Prelude.{◌≡◌, ℕ, ◌∷◌, ◌+◌, ◌<◌, ◌≤◌, ◌++◌, [], length, IfOk, OnOk, OnErr, All, map};
ghost use Rattle.bidi_base.specs.Display.{run_of, level_runs, run_level, visual_runs, AreVisualRuns};
ghost use Rattle.bidi_base.specs.Line.{levels_of_line, levels_with_line};
ghost use Rattle.bidi_base.specs.Order.{visual_order};
ghost use Rattle.bidi_base.specs.Indexes.{at_indexes};
ghost use Rattle.bidi_lines.specs.Runs.{IsFirstRunEnd, StartsInLine};

use crate::line_levels::levels_with_line;
use crate::visual_order::{run_end, write_visual_order};
use bidi_base::char_data::BidiClass;
use bidi_base::level::Level;
use smallvec::SmallVec;
use std::alloc::{AllocError, Global};
use std::ops::Range;

/// The maximum number of runs of a line that needs no allocation.
const FEW_RUNS: usize = 16;

/// Returns the end of the first level run (BD7) of a line.
///
/// `levels` has the level of each code unit after L1, and must not be empty. If the result is the line's length,
/// the whole line is one run.
pub(crate) fn first_run_end(levels: &[Level]) -> usize
    requires { 0 < length levels.now }
    ensures advances { 0 < result }
    ensures within { result ≤ length levels.now }
    ensures first { (start : ℕ) → IsFirstRunEnd start levels.now result }
    ensures whole { result ≡ length levels.now → (start : ℕ) → visual_runs start levels.now ≡ (start, start + result) ∷ [] }
{
    run_end(levels, 0)
}

// Splits a line into its level runs. The line starts at the code unit `start` of the text. Its first run has `first`
// code units.
fn cut_runs(
    runs: &mut SmallVec<Range<usize>, FEW_RUNS>,
    levels: &[Level],
    start: usize,
    first: usize,
) -> Result<(), AllocError>
    requires fits { start + length levels.now ≤ usize.MAX }
    requires within { first ≤ length levels.now }
    requires first { IsFirstRunEnd start levels.now first }
    ensures { OnOk result (map run_of runs.new.items ≡ level_runs start levels.now) }
{
    runs.clear();
    runs.push(start..start + first)?;
    let mut at = first;
    while at < levels.len() {
        let end = run_end(levels, at);
        runs.push(start + at..start + end)?;
        at = end;
    }
    Ok(())
}

// Writes the number of the level of each run.
fn write_numbers(numbers: &mut [u8], levels: &[Level], start: usize, runs: &[Range<usize>])
    requires same_len { length numbers.old ≡ length runs.now }
    requires within { All (StartsInLine start levels.now) runs.now }
    ensures { numbers.new ≡ map (run_level start levels.now) (map run_of runs.now) }
{
    for k in 0..runs.len() {
        numbers[k] = levels[runs[k].start - start].number();
    }
}

// Appends runs in the given order. If an allocation fails, appends nothing.
fn copy_in_order(
    ordered: &mut SmallVec<Range<usize>, FEW_RUNS>,
    runs: &[Range<usize>],
    order: &[usize],
) -> Result<(), AllocError>
    requires { All (λ k. k < length runs.now) order.now }
    ensures runs { OnOk result (map run_of ordered.new.items
        ≡ map run_of ordered.old.items ++ at_indexes (0, 0) (map run_of runs.now) order.now) }
    ensures unchanged { OnErr result (ordered.new.items ≡ ordered.old.items) }
{
    ordered.reserve(order.len())?;
    for k in order {
        ordered.push_reserved(runs[*k].start..runs[*k].end);
    }
    Ok(())
}

// Copies the level runs of a line from left to right (L2). The line starts at the code unit `start` of the text.
// `numbers` and `order` are buffers with one entry for each run: the number of its level, and the visual order. If an
// allocation fails, copies nothing.
fn copy_visual(
    ordered: &mut SmallVec<Range<usize>, FEW_RUNS>,
    levels: &[Level],
    start: usize,
    runs: &[Range<usize>],
    numbers: &mut [u8],
    order: &mut [usize],
) -> Result<(), AllocError>
    requires empty { ordered.old.items ≡ [] }
    requires runs { map run_of runs.now ≡ level_runs start levels.now }
    requires numbers { length numbers.old ≡ length runs.now }
    requires order { length order.old ≡ length runs.now }
    ensures runs { OnOk result (map run_of ordered.new.items ≡ visual_runs start levels.now) }
    ensures emptied { OnErr result (ordered.new.items ≡ []) }
{
    write_numbers(numbers, levels, start, runs);
    write_visual_order(&*numbers, order);
    copy_in_order(ordered, runs, order)
}

/// The visual runs of a line: its level runs (BD7) from left to right (L2).
///
/// A line of up to 16 runs needs no allocation. The memory of a line with more runs is reused for the next one.
#[derive(Drop)]
pub struct LineRuns {
    // The runs in the order of the text, and then from left to right.
    runs: SmallVec<Range<usize>, FEW_RUNS>,
    ordered: SmallVec<Range<usize>, FEW_RUNS>,
    // Buffers for a line of more than 16 runs: the number of each run's level, and the visual order.
    numbers: Vec<u8>,
    order: Vec<usize>,
}

impl LineRuns {
    ghost use Rattle.bidi_lines.specs.LineRuns.{runs};

    /// Returns an empty list of runs. Does not allocate.
    pub fn new(alloc: Global) -> LineRuns
        ensures { runs result ≡ [] }
    {
        LineRuns {
            runs: SmallVec::new(alloc),
            ordered: SmallVec::new(alloc),
            numbers: Vec::new(alloc),
            order: Vec::new(alloc),
        }
    }

    /// Finds the visual runs of a line.
    ///
    /// The line starts at the code unit `start` of a text. `levels` has the level of each code unit of the line after
    /// L1. If an allocation fails, there are no runs.
    pub fn find(&mut self, levels: &[Level], start: usize) -> Result<(), AllocError>
        requires { start + length levels.now ≤ usize.MAX }
        ensures runs { OnOk result (runs self.new ≡ visual_runs start levels.now) }
        ensures visual { OnOk result (AreVisualRuns start levels.now (runs self.new)) }
        ensures emptied { OnErr result (runs self.new ≡ []) }
    {
        if levels.is_empty() {
            self.ordered.clear();
            return Ok(());
        }
        self.find_after(levels, start, first_run_end(levels))
    }

    /// Finds the visual runs of a line, given the end of its first level run.
    ///
    /// [`first_run_end`] returns that end. The line starts at the code unit `start` of a text, and `levels` has the
    /// level of each code unit after L1. If an allocation fails, there are no runs.
    pub(crate) fn find_after(
        &mut self,
        levels: &[Level],
        start: usize,
        first: usize,
    ) -> Result<(), AllocError>
        requires fits { start + length levels.now ≤ usize.MAX }
        requires within { first ≤ length levels.now }
        requires first { IsFirstRunEnd start levels.now first }
        ensures runs { OnOk result (runs self.new ≡ visual_runs start levels.now) }
        ensures visual { OnOk result (AreVisualRuns start levels.now (runs self.new)) }
        ensures emptied { OnErr result (runs self.new ≡ []) }
    {
        self.ordered.clear();
        cut_runs(&mut self.runs, levels, start, first)?;
        let runs = self.runs.as_slice();
        let count = runs.len();
        if count == 1 {
            self.ordered.push(start..start + levels.len())?;
            return Ok(());
        }
        if count <= FEW_RUNS {
            let numbers = &mut [0; FEW_RUNS][..count];
            let order = &mut [0; FEW_RUNS][..count];
            return copy_visual(&mut self.ordered, levels, start, runs, numbers, order);
        }
        self.numbers.resize(count, 0)?;
        self.order.resize(count, 0)?;
        copy_visual(
            &mut self.ordered,
            levels,
            start,
            runs,
            self.numbers.as_mut_slice(),
            self.order.as_mut_slice(),
        )
    }

    /// Returns the runs from left to right, as ranges of code units of the text.
    pub fn as_slice(&self) -> &[Range<usize>]
        ensures { map run_of result.now ≡ runs self.now }
    {
        self.ordered.as_slice()
    }

    /// Returns the runs from left to right as a list. Allocates that list if the line has up to 16 runs.
    fn into_vec(self) -> Result<Vec<Range<usize>>, AllocError>
        ensures { IfOk result (λ v. map run_of v.items ≡ runs self) }
    {
        let LineRuns { ordered, .. } = self;
        Ok(ordered.into_vec()?)
    }
}

// Returns a list of the same runs.
fn copied(alloc: Global, runs: &[Range<usize>]) -> Result<Vec<Range<usize>>, AllocError>
    ensures { IfOk result (λ v. map run_of v.items ≡ map run_of runs.now) }
{
    let mut list = Vec::with_capacity(alloc, runs.len())?;
    for run in runs {
        list.push(run.start..run.end)?;
    }
    Ok(list)
}

/// Returns the level runs (BD7) of a line from left to right (L2).
///
/// Each run is a range of code units of the text. The line starts at the code unit `start`, and `levels` has the level
/// of each of its code units after L1. An empty line has no runs. A line of up to 16 runs allocates only the list that
/// is returned.
pub fn visual_runs_of(
    alloc: Global,
    levels: &[Level],
    start: usize,
) -> Result<Vec<Range<usize>>, AllocError>
    requires { start + length levels.now ≤ usize.MAX }
    ensures runs { IfOk result (λ v. map run_of v.items ≡ visual_runs start levels.now) }
    ensures visual { IfOk result (λ v. AreVisualRuns start levels.now (map run_of v.items)) }
{
    if levels.is_empty() {
        return Ok(Vec::new(alloc));
    }
    let first = first_run_end(levels);
    if first == levels.len() {
        return Ok(vec![in alloc; start..start + first]?);
    }
    let mut runs = LineRuns::new(alloc);
    runs.find_after(levels, start, first)?;
    if runs.as_slice().len() <= FEW_RUNS {
        copied(alloc, runs.as_slice())
    } else {
        runs.into_vec()
    }
}

/// Returns the level of each code unit of a text, and the level runs (BD7) of a line from left to right (L2).
///
/// The levels are those of [`levels_with_line`]. The runs are ranges of code units of the text.
pub(crate) fn levels_and_runs(
    alloc: Global,
    para_level: Level,
    classes: &[BidiClass],
    levels: &[Level],
    line: Range<usize>,
) -> Result<(Vec<Level>, Vec<Range<usize>>), AllocError>
    requires same_len { length levels.now ≡ length classes.now }
    requires ordered { line.start ≤ line.end }
    requires within { line.end ≤ length levels.now }
    ensures levels { IfOk result (λ r. r.0.items ≡ levels_with_line para_level classes.now levels.now line.start line.end) }
    ensures runs { IfOk result (λ r. map run_of r.1.items
        ≡ visual_runs line.start (levels_of_line para_level classes.now levels.now line.start line.end)) }
    ensures visual { IfOk result (λ r. AreVisualRuns line.start
        (levels_of_line para_level classes.now levels.now line.start line.end) (map run_of r.1.items)) }
{
    let (start, end) = (line.start, line.end);
    let after_l1 = levels_with_line(alloc, para_level, classes, levels, line)?;
    let runs = visual_runs_of(alloc, &after_l1.as_slice()[start..end], start)?;
    Ok((after_l1, runs))
}
