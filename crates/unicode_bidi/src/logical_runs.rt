// The level runs of a range of a text, in the order of the text.

ghost use Rattle.std.specs.Prelude.{◌≡◌, ◌+◌, ◌≤◌, length, IfOk, map};
ghost use Rattle.bidi_base.specs.AnalysedText.{IsLineOf};
ghost use Rattle.bidi_base.specs.Display.{run_of, level_runs};
ghost use Rattle.bidi_lines.specs.Analysed.{analysed as analysed_of};
ghost use Rattle.unicode_bidi.specs.VisualRun.{AreLogicalRuns};

use bidi_base::level::Level;
use bidi_lines::analysed::Analysed;
use bidi_text::text::{TextSource, is_line};
use std::alloc::{AllocError, Global};
use std::ops::Range;

// Returns the level runs (BD7) of a list of levels, whose first entry is that of the code unit `start`.
fn level_runs_of(
    alloc: Global,
    levels: &[Level],
    start: usize,
) -> Result<Vec<Range<usize>>, AllocError>
    requires { start + length levels.now ≤ usize.MAX }
    ensures { IfOk result (λ v. map run_of v.items ≡ level_runs start levels.now) }
{
    let mut runs = Vec::new(alloc);
    let mut begun = 0;
    for at in 1..levels.len() {
        if levels[at] != levels[at - 1] {
            runs.push(start + begun..start + at)?;
            begun = at;
        }
    }
    if !levels.is_empty() {
        runs.push(start + begun..start + levels.len())?;
    }
    Ok(runs)
}

// Returns the level runs (BD7) of a range of a text by its stored levels, in the order of the text.
pub(crate) fn logical_runs_of<T: TextSource>(
    alloc: Global,
    analysed: &Analysed<T>,
    range: Range<usize>,
) -> Result<Vec<Range<usize>>, AllocError>
    requires { IsLineOf (analysed_of analysed.now) range }
    ensures { IfOk result (λ v. AreLogicalRuns (analysed_of analysed.now) range v.items) }
{
    prove!(is_line(analysed.text(), &range));
    let start = range.start;
    level_runs_of(alloc, &analysed.levels()[range], start)
}
