//! A line shown plainly: its characters from left to right (L2), none of them mirrored.
ghost use Rattle.std.specs.Prelude.{◌≡◌, ◌++◌, flat_map, reverse, encode_utf8, length, All, OnOk, string_bytes};
ghost use Rattle.bidi_shown.specs.Plain.{plain_run, run_at, plain_line};
ghost use Rattle.bidi_base.specs.Display.{IsLevelRun, run_of};

use crate::characters::push_chars;
use bidi_base::level::Level;
use bidi_lines::visual_runs::visual_runs_of;
use std::alloc::{AllocError, Global};
use std::ops::Range;

/// Appends characters reversed.
fn push_reversed(out: &mut String, chars: &[char]) -> Result<(), AllocError>
    ensures { OnOk result (string_bytes out.new
        ≡ string_bytes out.old ++ flat_map encode_utf8 (reverse chars.now)) }
{
    let mut end = chars.len();
    while end > 0 {
        end -= 1;
        out.push(chars[end])?;
    }
    Ok(())
}

/// Appends a run of a line.
fn push_run(out: &mut String, odd: bool, chars: &[char]) -> Result<(), AllocError>
    ensures { OnOk result (string_bytes out.new ≡ string_bytes out.old ++ plain_run odd chars.now) }
{
    if odd {
        push_reversed(out, chars)
    } else {
        push_chars(out, chars)
    }
}

/// Appends a run of a line that is a range of its characters.
fn push_range(
    out: &mut String,
    chars: &[char],
    levels: &[Level],
    run: &Range<usize>,
) -> Result<(), AllocError>
    requires same_len { length levels.now ≡ length chars.now }
    requires run { IsLevelRun 0 levels.now (run_of run.now) }
    ensures { OnOk result (string_bytes out.new ≡ string_bytes out.old
        ++ run_at chars.now levels.now (run_of run.now)) }
{
    let odd = levels[run.start].is_rtl();
    push_run(out, odd, &chars[run.start..run.end])
}

/// Appends runs of a line.
fn push_runs(
    out: &mut String,
    chars: &[char],
    levels: &[Level],
    runs: &[Range<usize>],
) -> Result<(), AllocError>
    requires same_len { length levels.now ≡ length chars.now }
    requires runs { All (λ r. IsLevelRun 0 levels.now (run_of r)) runs.now }
    ensures { OnOk result (string_bytes out.new ≡ string_bytes out.old
        ++ flat_map (λ r. run_at chars.now levels.now (run_of r)) runs.now) }
{
    for run in runs {
        push_range(out, chars, levels, run)?;
    }
    Ok(())
}

/// Appends a line from left to right, given its characters and their levels after L1, one for each.
///
/// Returns an error if an allocation fails.
pub fn push_line(
    alloc: Global,
    out: &mut String,
    chars: &[char],
    levels: &[Level],
) -> Result<(), AllocError>
    requires { length levels.now ≡ length chars.now }
    ensures { OnOk result (string_bytes out.new
        ≡ string_bytes out.old ++ plain_line chars.now levels.now) }
{
    let runs = visual_runs_of(alloc, levels, 0)?;
    push_runs(out, chars, levels, runs.as_slice())?;
    Ok(())
}
