//! The visual runs of a line (L2), with their levels and their texts.

ghost use Rattle.std.specs.Prelude.{◌≡◌, All, IfOk, map};
ghost use Rattle.bidi_base.specs.AnalysedText.{IsLineOf};
ghost use Rattle.bidi_base.specs.Display.{run_of, run_level};
ghost use Rattle.bidi_lines.specs.Analysed.{analysed as analysed_of, text_of};
ghost use Rattle.bidi_lines.specs.Runs.{StartsInLine};
ghost use Rattle.unicode_bidi.specs.VisualRun.{AreRunsWithLevels, AreRunTexts, range_of, level_of};

use bidi_base::level::Level;
use bidi_lines::analysed::Analysed;
use bidi_lines::shown_line::ShownLine;
use bidi_text::text::TextSource;
use std::alloc::{AllocError, Global};
use std::ops::Range;

/// A level run (BD7) of a line, with its level.
#[derive(Debug, PartialEq, Drop)]
pub struct VisualRun {
    /// The code units of the run, as a range of the text.
    pub range: Range<usize>,
    /// The level of its characters after L1. If it is odd, they are displayed from right to left.
    pub level: Level,
}

/// A level run (BD7) of a line, with its level and its text.
#[derive(Debug, PartialEq, Drop)]
pub struct RunText<T: TextSource> {
    /// The range and the level of the run.
    pub run: VisualRun,
    /// The characters of the run, in the order of the text.
    pub text: T,
}

// Returns some runs of a line, each with its level. `levels` has the level of each code unit of the line, which starts
// at the code unit `start` of the text.
fn with_levels(
    alloc: Global,
    runs: &[Range<usize>],
    levels: &[Level],
    start: usize,
) -> Result<Vec<VisualRun>, AllocError>
    requires { All (StartsInLine start levels.now) runs.now }
    ensures ranges { IfOk result (λ v. map range_of v.items ≡ runs.now) }
    ensures levels { IfOk result (λ v. map level_of v.items ≡ map (λ r. run_level start levels.now (run_of r)) runs.now) }
{
    let mut found = Vec::new(alloc);
    for run in runs {
        found.push(VisualRun {
            range: run.start..run.end,
            level: levels[run.start - start],
        })?;
    }
    Ok(found)
}

// Returns the visual runs of a line (L2), each with its level after L1.
pub(crate) fn runs_with_levels<T: TextSource>(
    alloc: Global,
    analysed: &Analysed<T>,
    para_level: Level,
    line: Range<usize>,
) -> Result<Vec<VisualRun>, AllocError>
    requires { IsLineOf (analysed_of analysed.now) line }
    ensures { IfOk result (λ v. AreRunsWithLevels (analysed_of analysed.now) para_level line v.items) }
{
    let start = line.start;
    let mut shown = ShownLine::of_text(alloc, analysed.text());
    shown.show(analysed, para_level, line)?;
    with_levels(alloc, shown.runs(), shown.levels(), start)
}

// Returns the visual runs of a line (L2), each with its level after L1 and its text.
pub(crate) fn run_texts<T: TextSource>(
    alloc: Global,
    analysed: &Analysed<T>,
    para_level: Level,
    line: Range<usize>,
) -> Result<Vec<RunText<T>>, AllocError>
    requires { IsLineOf (analysed_of analysed.now) line }
    ensures { IfOk result (λ v. AreRunTexts (T.text (text_of analysed.now)) T.text (analysed_of analysed.now) para_level line v.items) }
{
    let text = analysed.text();
    let mut found = Vec::new(alloc);
    for run in runs_with_levels(alloc, analysed, para_level, line)? {
        let text = text.subrange(run.range.start..run.range.end);
        found.push(RunText { run, text })?;
    }
    Ok(found)
}
