//! The visual runs of a line (L2), for users of older versions of the library.

ghost use Rattle.std.specs.Prelude.{◌≡◌, ◌<◌, ◌≤◌, length, slice_range, IfOk, map};
ghost use Rattle.bidi_base.specs.Display.{run_of, visual_runs as visual_runs_from, AreVisualRuns};

use bidi_base::level::Level;
use bidi_lines::visual_runs::visual_runs_of;
use std::alloc::{AllocError, Global};
use std::ops::Range;

/// Returns the level runs of a line (BD7) from left to right (L2), as ranges of code units of the text.
///
/// `levels` has one level for each code unit of the text. The line is a range of code units that is not empty. This
/// does not apply L1 to the levels: `visual_runs` of `BidiInfo` does. Takes time linear in the line.
pub fn visual_runs(
    alloc: Global,
    line: Range<usize>,
    levels: &[Level],
) -> Result<Vec<Range<usize>>, AllocError>
    requires not_empty { line.start < line.end }
    requires within { line.end ≤ length levels.now }
    ensures runs { IfOk result (λ v. map run_of v.items
        ≡ visual_runs_from line.start (slice_range levels.now line.start line.end)) }
    ensures visual { IfOk result (λ v. AreVisualRuns line.start (slice_range levels.now line.start line.end) (map run_of v.items)) }
{
    visual_runs_of(alloc, &levels[line.start..line.end], line.start)
}
