//! A line of a text as it is displayed, in memory that is reused for the next line.
ghost use Rattle.std.specs.Prelude.{◌≡◌, ℕ, ◌-◌, ◌≤◌, [], ◌++◌, length, take, map, not, IsTrue, OnOk, OnErr, ◌↔◌};
ghost use Rattle.std.specs.declared.ops.Range.{Range as RangeOf};
ghost use Rattle.bidi_base.specs.AnalysedText.{AnalysedText, IsLineOf, AreLevelsOfLine, AreRunsOfLine, StaysInOrder, line_levels_per_char};
ghost use Rattle.bidi_base.specs.Display.{run_of, visual_runs};
ghost use Rattle.bidi_base.specs.Levels.{has_rtl as has_rtl_of};
ghost use Rattle.bidi_base.specs.Order.{visual_order};
ghost use Rattle.bidi_base.specs.Texts.{per_char, text_len, HaveClass, HaveLevel, IsLine};
ghost use Rattle.bidi_lines.specs.LineRuns.{runs as runs_in};
ghost use Rattle.bidi_lines.specs.LineLevels.{levels as levels_in};
ghost use Rattle.bidi_lines.specs.InText.{visual_units, AreRunsOfChars};

use crate::analysed::Analysed;
use crate::line_levels::write_first_units;
use crate::line_text::{LineText, write_runs};
use crate::reused_levels::LineLevels;
use crate::visual_order::write_visual_order;
use crate::visual_runs::LineRuns;
use bidi_base::char_data::BidiClass;
use bidi_base::level::{Level, has_rtl};
use bidi_text::text::{TextSource, is_line};
use std::alloc::{AllocError, Global};
use std::ops::Range;

mod chars;
mod utf16;
mod utf8;

// Replaces a list by the level of each character of a text: that of its first code unit.
fn gather_levels<T: TextSource>(
    text: T,
    levels: &[Level],
    of_chars: &mut Vec<Level>,
) -> Result<(), AllocError>
    requires { length levels.now ≡ text_len (T.text text) }
    ensures { OnOk result (of_chars.new.items ≡ per_char 0 (T.text text) levels.now) }
{
    of_chars.clear();
    of_chars.extend_from_slice(levels)?;
    let count = write_first_units(text, levels, of_chars.as_mut_slice());
    of_chars.truncate(count);
    Ok(())
}

// Replaces a list by the visual order of some levels (L2). If an allocation fails, the list is unchanged.
fn replace_order(levels: &[Level], order: &mut Vec<usize>) -> Result<(), AllocError>
    ensures order { OnOk result (order.new.items ≡ visual_order levels.now) }
    ensures unchanged { OnErr result (order.new.items ≡ order.old.items) }
{
    order.resize(levels.len(), 0)?;
    write_visual_order(levels, order.as_mut_slice());
    Ok(())
}

/// A line of a text as it is displayed: its levels after L1 and its visual runs (L2).
///
/// Shows one line after another, of one text or of several, and reuses its memory. To show a line of up to 256 code
/// units with up to 16 runs, it does not allocate.
#[derive(Drop)]
pub struct ShownLine<T: TextSource> {
    // The whole text, and the line's range of code units.
    text: T,
    start: usize,
    end: usize,
    // The first `end - start` of these are the line's levels.
    levels: LineLevels,
    runs: LineRuns,
    has_rtl: bool,
    // A buffer for the levels of the line's characters.
    of_chars: Vec<Level>,
    ghost is_line: { IsLine (T.text text) start end },
    ghost one_per_unit: { end - start ≤ length (levels_in levels) },
    ghost runs_of_levels: { runs_in runs ≡ visual_runs start (take (end - start) (levels_in levels)) },
    ghost runs_of_chars: { AreRunsOfChars (T.text text) start (take (end - start) (levels_in levels)) },
    ghost of_levels: { has_rtl ≡ has_rtl_of (take (end - start) (levels_in levels)) },
}

impl<T: TextSource> ShownLine<T> {
    ghost use Rattle.bidi_lines.specs.Analysed.{analysed as analysed_of, text_of as analysed_text, with_lists};
    ghost use Rattle.bidi_lines.specs.ShownLine.{text_of, levels as levels_of, runs as runs_of, Shows};

    /// Returns a value that shows the empty line at the start of a text. Does not allocate.
    pub fn of_text(alloc: Global, text: T) -> ShownLine<T>
        ensures text { text_of result ≡ text }
        ensures shows { (a : AnalysedText) → (level : ℕ) → a.len_of ≡ T.encoding.len_of → a.chars ≡ (T.text text).chars
            → Shows result a level (record { start = 0; end = 0 }) }
    {
        ShownLine {
            text,
            start: 0,
            end: 0,
            levels: LineLevels::new(alloc),
            runs: LineRuns::new(alloc),
            has_rtl: false,
            of_chars: Vec::new(alloc),
        }
    }

    // Shows the empty line at the start of a text.
    fn clear(&mut self, text: T)
        ensures text { text_of self.new ≡ text }
        ensures start { self.new.start ≡ 0 }
        ensures end { self.new.end ≡ 0 }
    {
        // If this fails, there are no runs either.
        let _ = self.runs.find(&[], 0);
        self.text = text;
        self.start = 0;
        self.end = 0;
        self.has_rtl = false;
    }

    /// Shows a line of an analysed text.
    ///
    /// The line is a range of code units that cuts no character (see `is_line`), and `para_level` is the level of
    /// its paragraph. Applies L1 once, and finds the runs by L2, in time linear in the line. If an allocation
    /// fails, the value shows the empty line at the start of that text.
    pub fn show(
        &mut self,
        analysed: &Analysed<T>,
        para_level: Level,
        line: Range<usize>,
    ) -> Result<(), AllocError>
        requires { IsLineOf (analysed_of analysed.now) line }
        ensures text { text_of self.new ≡ analysed_text analysed.now }
        ensures shows { OnOk result (Shows self.new (analysed_of analysed.now) para_level line) }
        ensures emptied { OnErr result (Shows self.new (analysed_of analysed.now) para_level (record { start = 0; end = 0 })) }
    {
        let classes = analysed.original_classes();
        self.show_lists(
            analysed.text(),
            classes,
            analysed.levels(),
            para_level,
            line,
        )
    }

    /// Shows a line of a text, given the text's classes and levels.
    ///
    /// `classes` and `levels` have the stored class and the stored level of each code unit of the whole text, equal
    /// within each character (see `is_per_char`). `line`, `para_level`, the cost and the result of a failed allocation
    /// are those of [`ShownLine::show`].
    pub fn show_lists(
        &mut self,
        text: T,
        classes: &[BidiClass],
        levels: &[Level],
        para_level: Level,
        line: Range<usize>,
    ) -> Result<(), AllocError>
        requires is_line { IsLine (T.text text) line.start line.end }
        requires classes { HaveClass (T.text text) classes.now }
        requires levels { HaveLevel (T.text text) levels.now }
        ensures text { text_of self.new ≡ text }
        ensures shows { OnOk result (Shows self.new (with_lists (T.text text) classes.now levels.now) para_level line) }
        ensures emptied { OnErr result (Shows self.new (with_lists (T.text text) classes.now levels.now) para_level
            (record { start = 0; end = 0 })) }
    {
        prove!(is_line(text, &line));
        let (start, end) = (line.start, line.end);
        self.clear(text);
        self.levels
            .show(para_level, &classes[start..end], &levels[start..end])?;
        self.runs.find(self.levels.as_slice(), start)?;
        self.has_rtl = has_rtl(self.levels.as_slice());
        self.start = start;
        self.end = end;
        Ok(())
    }

    /// Returns the level of each code unit of the line after L1.
    pub fn levels(&self) -> &[Level]
        ensures result { result.now ≡ levels_of self.now }
        ensures levels { (a : AnalysedText) → (level : ℕ) → (line : RangeOf ℕ) → Shows self.now a level line
            → AreLevelsOfLine a level line result.now }
    {
        &self.levels.as_slice()[..self.end - self.start]
    }

    /// Returns the level runs (BD7) of the line from left to right (L2), as ranges of code units of the text.
    pub fn runs(&self) -> &[Range<usize>]
        ensures result { map run_of result.now ≡ runs_of self.now }
        ensures runs { (a : AnalysedText) → (level : ℕ) → (line : RangeOf ℕ) → Shows self.now a level line
            → AreRunsOfLine a level line (map run_of result.now) }
    {
        self.runs.as_slice()
    }

    /// Returns whether no level of the line is odd after L1.
    ///
    /// Such a line shows its characters in the order of the text.
    pub fn stays_in_order(&self) -> bool
        ensures levels { result ≡ not (has_rtl_of (levels_of self.now)) }
        ensures line { (a : AnalysedText) → (level : ℕ) → (line : RangeOf ℕ) → Shows self.now a level line
            → IsTrue result ↔ StaysInOrder a level line }
    {
        !self.has_rtl
    }

    /// Writes the visual order of the line's characters (L2): for each visual index, the index of the character there.
    ///
    /// Characters are counted from the line's start. The order replaces the contents of `order`, which grows if it is
    /// too short. The line is unchanged. Allocates room for the levels of the characters only if no earlier call was
    /// for a line of as many code units. Takes time linear in the line. If an allocation fails, `order` is unchanged.
    pub fn write_order(&mut self, order: &mut Vec<usize>) -> Result<(), AllocError>
        ensures order { (a : AnalysedText) → (level : ℕ) → (line : RangeOf ℕ) → Shows self.old a level line
            → OnOk result (order.new.items ≡ visual_order (line_levels_per_char a level line)) }
        ensures unchanged { OnErr result (order.new.items ≡ order.old.items) }
        ensures text { text_of self.new ≡ text_of self.old }
        ensures shows { (a : AnalysedText) → (level : ℕ) → (line : RangeOf ℕ) → Shows self.old a level line
            → Shows self.new a level line }
    {
        let line = self.text.subrange(self.start..self.end);
        let levels = &self.levels.as_slice()[..self.end - self.start];
        gather_levels(line, levels, &mut self.of_chars)?;
        replace_order(self.of_chars.as_slice(), order)
    }
}

impl<T: LineText> ShownLine<T> {
    ghost use Rattle.bidi_lines.specs.ShownLine.{text_of, levels as levels_of};

    // Writes the line's code units from left to right.
    fn write_units(&self, out: &mut [T::Unit])
        requires { length out.old ≡ length (levels_of self.now) }
        ensures { out.new ≡ visual_units (T.text (text_of self.now)) T.encode (T.units_of (text_of self.now))
            self.now.start (levels_of self.now) }
    {
        if self.has_rtl {
            let runs = self.runs.as_slice();
            write_runs(self.text, self.start, self.levels(), runs, out);
        } else {
            self.text.copy_run(self.start..self.end, out);
        }
    }

    // Appends the line's code units from left to right. `blank` may be any code unit.
    fn push_units(&self, out: &mut Vec<T::Unit>, blank: T::Unit) -> Result<(), AllocError>
        ensures text { OnOk result (out.new.items ≡ out.old.items
            ++ visual_units (T.text (text_of self.now)) T.encode (T.units_of (text_of self.now))
            self.now.start (levels_of self.now)) }
        ensures unchanged { OnErr result (out.new.items ≡ out.old.items) }
    {
        let at = out.len();
        let Some(len) = at.checked_add(self.end - self.start) else {
            return Err(AllocError);
        };
        out.resize(len, blank)?;
        self.write_units(&mut out.as_mut_slice()[at..]);
        Ok(())
    }
}
