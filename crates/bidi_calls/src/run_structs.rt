//! The visual runs of a line, as the structs that a caller reads.
ghost use Rattle.std.specs.Prelude.{◌≡◌, ◌+◌, ◌<◌, ◌≤◌, length, map};
ghost use Rattle.bidi_base.specs.Display.{run_of, visual_runs, AreVisualRuns};
ghost use Rattle.bidi_calls.specs.LineParts.{AreWithin};
ghost use Rattle.bidi_calls.specs.Buffers.{written_if_room, HasRoomOrNone};
ghost use Rattle.bidi_numbers.specs.Structs.{run_struct};

use bidi_numbers::structs::Run;
use std::ops::Range;
use unicode_bidi::Level;

// Returns a run of a line as a struct. The run counts from the line's first code unit, and the line begins at the code
// unit `start` of the text.
fn struct_of(levels: &[Level], start: usize, run: &Range<usize>) -> Run
    requires begins { run.now.start < length levels.now }
    requires ends { run.now.end ≤ length levels.now }
    requires whole { start + length levels.now ≤ usize.MAX }
    ensures { result ≡ run_struct start levels.now (start + run.now.start, start + run.now.end) }
{
    Run {
        start: start + run.start,
        end: start + run.end,
        level: levels[run.start].number(),
    }
}

// Writes runs as structs.
fn write_structs(out: &mut [Run], levels: &[Level], start: usize, runs: &[Range<usize>])
    requires same_len { length out.old ≡ length runs.now }
    requires within { AreWithin (length levels.now) runs.now }
    requires whole { start + length levels.now ≤ usize.MAX }
    ensures { out.new ≡ map (λ r. run_struct start levels.now (start + r.start, start + r.end)) runs.now }
{
    for i in 0..runs.len() {
        out[i] = struct_of(levels, start, &runs[i]);
    }
}

/// Writes the visual runs of a line as structs to the front of a buffer, unless the buffer is empty.
///
/// `levels` has the level of each code unit of the line after L1. `runs` count from the line's first code unit. The
/// structs count from the text's first code unit, and the line begins at the code unit `start` of the text. `out` must
/// have room for all runs, or be empty.
pub fn put_runs(out: &mut [Run], levels: &[Level], start: usize, runs: &[Range<usize>])
    requires room { HasRoomOrNone runs.now out.old }
    requires visual { AreVisualRuns 0 levels.now (map run_of runs.now) }
    requires runs { map run_of runs.now ≡ visual_runs 0 levels.now }
    requires whole { start + length levels.now ≤ usize.MAX }
    ensures { out.new ≡ written_if_room (map (run_struct start levels.now) (visual_runs start levels.now)) out.old }
{
    if !out.is_empty() {
        write_structs(&mut out[..runs.len()], levels, start, runs);
    }
}
