//! The calls over a line, given the classes and levels that the caller passes.
ghost use Rattle.std.specs.Prelude.{◌≡◌, ◌+◌, ◌-◌, length, map, OnOk, OnErr, IfOk};
ghost use Rattle.std.specs.Result.{result_err};
ghost use Rattle.bidi_base.specs.Display.{visual_runs};
ghost use Rattle.bidi_base.specs.Order.{visual_order as visual_order_of};
ghost use Rattle.bidi_lines.specs.LineLevels.{levels as levels_of};
ghost use Rattle.bidi_numbers.specs.Faults.{FaultsAs};
ghost use Rattle.bidi_calls.specs.Buffers.{written, written_if_room};
ghost use Rattle.bidi_calls.specs.CallerLine.{lies_in, IsValid, own_classes, own_levels, line_fault, levels_fault, runs_fault, order_fault, caller_line_levels};
ghost use Rattle.bidi_numbers.specs.Structs.{run_struct};

use crate::analysis::write_levels;
use crate::run_structs::put_runs;
use bidi_lines::reused_levels::LineLevels;
use bidi_lines::visual_order::write_visual_order;
use bidi_lines::visual_runs::LineRuns;
use bidi_numbers::class_numbers::ClassNumbers;
use bidi_numbers::fault::{Fault, check, check_room_or_none};
use bidi_numbers::numbers::{all_below, check_classes};
use bidi_numbers::structs::{Paragraph, Run};
use std::alloc::{AllocError, Global};
use unicode_bidi::Level;

/// A line, as the caller passes it.
///
/// `classes` and `levels` have the numbers of the stored class and the stored level of each code unit of a text.
/// `paragraph` is a paragraph of the text. The line is the range of code units of the text from `start` up to `end`.
/// Nothing is checked before [`CallerLine::check`].
#[derive(Clone, Copy, Debug)]
pub struct CallerLine<'t> {
    pub classes: &'t [u8],
    pub levels: &'t [u8],
    pub paragraph: &'t Paragraph,
    pub start: usize,
    pub end: usize,
}

// Returns whether a line is inside its paragraph, and the paragraph inside a text of `units` code units.
fn lies_in(paragraph: &Paragraph, start: usize, end: usize, units: usize) -> bool
    ensures { result ≡ lies_in paragraph.now start end units }
{
    paragraph.start <= start && start <= end && end <= paragraph.end && paragraph.end <= units
}

impl<'t> CallerLine<'t> {
    /// Checks that the line is inside its paragraph, and that its classes and levels are valid.
    ///
    /// Returns the first fault: `UnequalLengths` of the two lists, `BadLine`, `BadClass` and `BadLevel` in the line, or
    /// `BadLevel` of the paragraph. It does not see the text, so the line may cut a character. Takes time linear in the
    /// line.
    pub fn check(&self) -> Result<(), Fault>
        ensures fault { result_err result ≡ line_fault self.now }
        ensures valid { OnOk result (IsValid self.now) }
    {
        let units = self.levels.len();
        check(self.classes.len() == units, Fault::UnequalLengths)?;
        check(
            lies_in(self.paragraph, self.start, self.end, units),
            Fault::BadLine,
        )?;
        check_classes(&self.classes[self.start..self.end])?;
        check(
            all_below(&self.levels[self.start..self.end], 127),
            Fault::BadLevel,
        )?;
        check(self.paragraph.level < 127, Fault::BadLevel)
    }

    /// Returns the level of the paragraph. The line must be valid.
    pub fn level(&self) -> Level
        requires { IsValid self.now }
        ensures { result ≡ self.now.paragraph.now.level }
    {
        match Level::new(self.paragraph.level) {
            Ok(level) => level,
            Err(_) => unreachable!(),
        }
    }

    /// Returns the numbers of the line's stored classes. The line must be valid.
    pub fn class_numbers(&self) -> &'t [u8]
        requires { IsValid self.now }
        ensures { result.now ≡ own_classes self.now }
    {
        &self.classes[self.start..self.end]
    }

    /// Returns the numbers of the line's stored levels. The line must be valid.
    pub fn level_numbers(&self) -> &'t [u8]
        requires { IsValid self.now }
        ensures { result.now ≡ own_levels self.now }
    {
        &self.levels[self.start..self.end]
    }

    /// Returns the level of each code unit of the line after L1.
    ///
    /// The line must be valid. Takes time linear in the line. A line of up to 256 code units needs no allocation.
    pub fn after_l1(&self, alloc: Global) -> Result<LineLevels, AllocError>
        requires { IsValid self.now }
        ensures levels { IfOk result (λ s. levels_of s ≡ caller_line_levels self.now) }
        ensures units { IfOk result (λ s. length (levels_of s) + self.now.start ≡ self.now.end) }
    {
        let classes = ClassNumbers::new(self.class_numbers());
        let mut after_l1 = LineLevels::new(alloc);
        after_l1.show(self.level(), classes, self.level_numbers())?;
        Ok(after_l1)
    }
}

/// Writes the level of each code unit of a line after L1, and returns their number.
///
/// Returns a fault of [`CallerLine::check`], or else `NoRoom` if `out` is shorter than the line. Writes nothing after a
/// fault. Takes time linear in the line. A line of up to 256 code units needs no allocation.
pub fn line_levels(alloc: Global, line: &CallerLine<'_>, out: &mut [u8]) -> Result<usize, Fault>
    ensures fault { FaultsAs result (levels_fault line.now (length out.old)) }
    ensures unchanged { OnErr result (out.new ≡ out.old) }
    ensures levels { OnOk result (out.new ≡ written (caller_line_levels line.now) out.old) }
    ensures count { IfOk result (λ count. count ≡ line.now.end - line.now.start) }
{
    line.check()?;
    let count = line.end - line.start;
    check(count <= out.len(), Fault::NoRoom)?;
    let after_l1 = line.after_l1(alloc)?;
    write_levels(&mut out[..count], after_l1.as_slice());
    Ok(count)
}

/// Writes the visual runs of a line to `out`, and returns their number.
///
/// If `out` is empty, only counts them. Returns a fault of [`CallerLine::check`], or else `NoRoom` if `out` is too
/// short and not empty. Writes nothing after a fault. Takes time linear in the line. A line of up to 256 code units
/// with up to 16 runs needs no allocation.
pub fn line_runs(alloc: Global, line: &CallerLine<'_>, out: &mut [Run]) -> Result<usize, Fault>
    ensures fault { FaultsAs result (runs_fault line.now (length out.old)) }
    ensures unchanged { OnErr result (out.new ≡ out.old) }
    ensures runs { OnOk result (out.new
        ≡ written_if_room
        (map (run_struct line.now.start (caller_line_levels line.now))
        (visual_runs line.now.start (caller_line_levels line.now)))
        out.old) }
    ensures count { IfOk result (λ count. count ≡ length (visual_runs line.now.start (caller_line_levels line.now))) }
{
    line.check()?;
    let after_l1 = line.after_l1(alloc)?;
    let mut found = LineRuns::new(alloc);
    found.find(after_l1.as_slice(), 0)?;
    let runs = found.as_slice();
    check_room_or_none(runs.len(), out.len())?;
    put_runs(out, after_l1.as_slice(), line.start, runs);
    Ok(runs.len())
}

/// Writes the visual order of items by their levels (L2), and returns their number.
///
/// Returns `BadLevel` if a level is above 126, or else `NoRoom` if `out` has fewer entries. Writes nothing after a
/// fault. Does not allocate.
pub fn visual_order(levels: &[u8], out: &mut [usize]) -> Result<usize, Fault>
    ensures fault { FaultsAs result (order_fault levels.now (length out.old)) }
    ensures unchanged { OnErr result (out.new ≡ out.old) }
    ensures order { OnOk result (out.new ≡ written (visual_order_of levels.now) out.old) }
    ensures count { IfOk result (λ count. count ≡ length levels.now) }
{
    check(all_below(levels, 127), Fault::BadLevel)?;
    check(levels.len() <= out.len(), Fault::NoRoom)?;
    let count = levels.len();
    write_visual_order(levels, &mut out[..count]);
    Ok(count)
}
