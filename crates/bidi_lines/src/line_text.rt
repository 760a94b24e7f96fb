//! The text of a line from left to right (L2), written to a slice.
ghost use Rattle.std.specs.Prelude.{◌≡◌, ℕ, ◌+◌, ◌-◌, List, length, slice_range, reverse, flat_map, map, sum_by, IfOk, IfSome, OnOk, OnErr, IsNone, All, ◌↔◌};
ghost use Rattle.bidi_base.specs.AnalysedText.{IsLineOf, StaysInOrder};
ghost use Rattle.bidi_base.specs.Display.{run_of};
ghost use Rattle.bidi_base.specs.Texts.{subrange, IsLine};
ghost use Rattle.bidi_base.specs.Line.{line_levels};
ghost use Rattle.bidi_lines.specs.Runs.{StartsInLine};
ghost use Rattle.bidi_lines.specs.InText.{run_units, visual_units, AreRunsOfChars};
ghost use Rattle.bidi_lines.specs.LineUnits.{line_units};

use crate::analysed::Analysed;
use crate::line_levels::line_has_rtl;
use crate::lists::{ClassList, LevelList};
use crate::reused_levels::LineLevels;
use crate::visual_runs::{LineRuns, first_run_end};
use bidi_base::level::Level;
use bidi_text::text::{TextSource, is_line};
use std::alloc::{AllocError, Global};
use std::ops::Range;

mod chars;
mod reversed;
mod reversed_utf8;
mod utf16;
mod utf8;

/// A text that can write its lines from left to right, run by run.
pub trait LineText: TextSource {
    /// A code unit: `u8` in UTF-8, `u16` in UTF-16, `char` in a list of characters.
    type Unit: Copy;

    /// Returns the code units of a text.
    ghost units_of: { Self → List Self.Unit };

    /// Returns the code units that a character is written as at an odd level.
    ghost encode: { ℕ → List Self.Unit };

    /// Writes the code units of a run unchanged.
    ///
    /// The run is a range of code units of the text that cuts no character (see `is_line`), and `out` is as long.
    fn copy_run(self, run: Range<usize>, out: &mut [Self::Unit])
        requires is_line { IsLine (Self.text self) run.start run.end }
        requires room { length out.old + run.start ≡ run.end }
        ensures { out.new ≡ slice_range (units_of self) run.start run.end };

    /// Writes the characters of a run in reverse order.
    ///
    /// The run is a range of code units of the text that cuts no character, and `out` is as long. Each character is
    /// written in the encoding of the text. So its code units keep their order, and an unpaired surrogate of UTF-16 is
    /// written as 0xFFFD.
    fn reverse_run(self, run: Range<usize>, out: &mut [Self::Unit])
        requires is_line { IsLine (Self.text self) run.start run.end }
        requires room { length out.old + run.start ≡ run.end }
        ensures { out.new ≡ flat_map encode (reverse (subrange (Self.text self) run.start run.end).chars) };
}

/// Writes the runs of a line to `out`, in the order of `runs`.
///
/// Copies a run at an even level, and reverses the characters of a run at an odd level (L2). The line begins at the
/// code unit `start` of the text. `levels` has the level of each code unit of the line after L1, and `out` is as long.
/// Each run is a range of code units of the text that begins in the line and cuts no character. The lengths of the runs
/// add up to the line's length. Takes time linear in the line, and does not allocate.
pub fn write_runs<T: LineText>(
    text: T,
    start: usize,
    levels: &[Level],
    runs: &[Range<usize>],
    out: &mut [T::Unit],
)
    requires room { length out.old ≡ length levels.now }
    requires within { All (StartsInLine start levels.now) runs.now }
    requires are_lines { All (λ r. IsLine (T.text text) r.start r.end) runs.now }
    requires whole { sum_by (λ r. r.end - r.start) runs.now ≡ length levels.now }
    ensures { out.new ≡ flat_map (run_units (T.text text) T.encode (T.units_of text) start levels.now) (map run_of runs.now) }
{
    let mut at = 0;
    for run in runs {
        let end = at + (run.end - run.start);
        let units = run.start..run.end;
        if levels[run.start - start].is_rtl() {
            text.reverse_run(units, &mut out[at..end]);
        } else {
            text.copy_run(units, &mut out[at..end]);
        }
        at = end;
    }
}

// Writes the text of a line from left to right (L2), given its levels after L1. If an allocation fails, writes
// nothing.
fn write_line_units<T: LineText>(
    alloc: Global,
    text: T,
    line: Range<usize>,
    levels: &[Level],
    out: &mut [T::Unit],
) -> Result<(), AllocError>
    requires is_line { IsLine (T.text text) line.start line.end }
    requires same_len { length levels.now + line.start ≡ line.end }
    requires room { length out.old ≡ length levels.now }
    requires runs { AreRunsOfChars (T.text text) line.start levels.now }
    ensures text { OnOk result (out.new ≡ visual_units (T.text text) T.encode (T.units_of text) line.start levels.now) }
    ensures unchanged { OnErr result (out.new ≡ out.old) }
{
    let start = line.start;
    if levels.is_empty() {
        return Ok(());
    }
    let first = first_run_end(levels);
    if first == levels.len() {
        write_runs(text, start, levels, &[line], out);
        return Ok(());
    }
    let mut runs = LineRuns::new(alloc);
    runs.find_after(levels, start, first)?;
    write_runs(text, start, levels, runs.as_slice(), out);
    Ok(())
}

/// What is stored of a line: the level of its paragraph, and the class and the level of each of its code units.
#[derive(Clone, Copy, Debug)]
pub struct StoredLine<C, L> {
    /// The level of the line's paragraph.
    pub level: Level,
    /// The class of each code unit.
    pub classes: C,
    /// The level of each code unit.
    pub levels: L,
}

/// Writes the text of a line from left to right (L2).
///
/// The line is a range of code units of the text, and `stored` is what is stored of them. Neither the line nor its
/// visual runs may cut a character. No run does if all code units of a character have one class and one level. `out` is
/// as long as the line. Takes time linear in the line. A line of up to 256 code units with up to 16 runs needs no
/// allocation. If an allocation fails, writes nothing.
pub fn write_line<T: LineText, C: ClassList, L: LevelList>(
    alloc: Global,
    text: T,
    line: Range<usize>,
    stored: &StoredLine<C, L>,
    out: &mut [T::Unit],
) -> Result<(), AllocError>
    requires is_line { IsLine (T.text text) line.start line.end }
    requires valid { L.are_levels stored.now.levels }
    requires levels_same_len { length (L.numbers stored.now.levels) + line.start ≡ line.end }
    requires classes_same_len { length (C.classes stored.now.classes) ≡ length (L.numbers stored.now.levels) }
    requires room { length out.old ≡ length (L.numbers stored.now.levels) }
    requires runs { AreRunsOfChars (T.text text) line.start
        (line_levels stored.now.level (C.classes stored.now.classes) (L.numbers stored.now.levels)) }
    ensures text { OnOk result (out.new ≡ visual_units (T.text text) T.encode (T.units_of text) line.start
        (line_levels stored.now.level (C.classes stored.now.classes) (L.numbers stored.now.levels))) }
    ensures unchanged { OnErr result (out.new ≡ out.old) }
{
    if stored.level.is_ltr() && !stored.levels.has_rtl() {
        text.copy_run(line, out);
        return Ok(());
    }
    let mut after_l1 = LineLevels::new(alloc);
    after_l1.show(stored.level, stored.classes, stored.levels)?;
    write_line_units(alloc, text, line, after_l1.as_slice(), out)
}

impl<T: LineText> Analysed<T> {
    ghost use Rattle.bidi_lines.specs.Analysed.{analysed, text_of};

    // Returns the text of a line from left to right. If no level of the line is odd after L1, the line stays in order:
    // this returns `None`, and does not allocate. `blank` may be any code unit.
    fn reversed_line(
        &self,
        alloc: Global,
        para_level: Level,
        line: Range<usize>,
        blank: T::Unit,
    ) -> Result<Option<Vec<T::Unit>>, AllocError>
        requires { IsLineOf (analysed self.now) line }
        ensures text { IfOk result (λ o. IfSome o (λ v.
            v.items ≡ line_units T.encode (T.units_of (text_of self.now)) (analysed self.now) para_level line)) }
        ensures still { IfOk result (λ o. IsNone o ↔ StaysInOrder (analysed self.now) para_level line) }
    {
        prove!(is_line(self.text(), &line));
        let (start, end) = (line.start, line.end);
        let classes = &self.original_classes()[start..end];
        let levels = &self.levels()[start..end];
        if !line_has_rtl(para_level, classes, levels) {
            return Ok(None);
        }
        let mut out = vec![in alloc; blank; end - start]?;
        let text = self.text();
        let stored = StoredLine {
            level: para_level,
            classes,
            levels,
        };
        write_line(alloc, text, line, &stored, out.as_mut_slice())?;
        Ok(Some(out))
    }
}
