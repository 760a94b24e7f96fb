//! A text in any encoding, with its stored classes and levels. Its calls return the levels and the visual runs of a
//! line.
ghost use Rattle.std.specs.Prelude.{◌≡◌, IfOk, map};
ghost use Rattle.bidi_base.specs.AnalysedText.{IsLineOf, AreLevelsWithLine, AreLevelsOfLine, AreRunsOfLine, levels_with_line_per_char};
ghost use Rattle.bidi_base.specs.Direction.{direction_of_levels};
ghost use Rattle.bidi_base.specs.Display.{run_of};
ghost use Rattle.bidi_base.specs.Levels.{has_rtl as has_rtl_of};
ghost use Rattle.bidi_base.specs.Texts.{HaveClass, HaveLevel};

use crate::level_direction::direction_of;
use crate::line_levels::{levels_of_line, levels_per_char, levels_with_line};
use crate::reused_levels::LineLevels;
use crate::visual_runs::{levels_and_runs, visual_runs_of};
use bidi_base::char_data::{BidiClass, Direction};
use bidi_base::level::{Level, has_rtl};
use bidi_text::text::{TextSource, is_line};
use std::alloc::{AllocError, Global};
use std::ops::Range;

/// A text with the stored class (X5c) and the stored level of each code unit.
///
/// A line is a range of code units that cuts no character (see `is_line`). The level that is passed with it is
/// the level of its paragraph.
#[derive(PartialEq, Debug, Drop)]
pub struct Analysed<T: TextSource> {
    text: T,
    original_classes: Vec<BidiClass>,
    levels: Vec<Level>,
    ghost classes_per_char: { HaveClass (T.text text) original_classes.items },
    ghost levels_per_char: { HaveLevel (T.text text) levels.items },
}

impl<T: TextSource> Analysed<T> {
    ghost use Rattle.bidi_lines.specs.Analysed.{analysed, text_of};

    /// Returns a text with one class and one level for each code unit, which must be equal within each character.
    pub fn new(text: T, original_classes: Vec<BidiClass>, levels: Vec<Level>) -> Analysed<T>
        requires classes { HaveClass (T.text text) original_classes.items }
        requires levels { HaveLevel (T.text text) levels.items }
        ensures text { text_of result ≡ text }
        ensures classes { (analysed result).classes ≡ original_classes.items }
        ensures levels { (analysed result).levels ≡ levels.items }
    {
        Analysed {
            text,
            original_classes,
            levels,
        }
    }

    /// Returns the text.
    pub fn text(&self) -> T
        ensures { result ≡ text_of self.now }
    {
        self.text
    }

    /// Returns the stored class of each code unit.
    pub fn original_classes(&self) -> &[BidiClass]
        ensures classes { result.now ≡ (analysed self.now).classes }
        ensures per_char { HaveClass (T.text (text_of self.now)) result.now }
    {
        self.original_classes.as_slice()
    }

    /// Returns the stored level of each code unit.
    pub fn levels(&self) -> &[Level]
        ensures levels { result.now ≡ (analysed self.now).levels }
        ensures per_char { HaveLevel (T.text (text_of self.now)) result.now }
    {
        self.levels.as_slice()
    }

    /// Returns whether some stored level is odd. Takes time linear in the text.
    pub fn has_rtl(&self) -> bool
        ensures { result ≡ has_rtl_of (analysed self.now).levels }
    {
        has_rtl(self.levels.as_slice())
    }

    /// Returns the direction of the stored levels (see [`direction_of`]). Takes time linear in the text.
    pub fn direction(&self) -> Direction
        ensures { result ≡ direction_of_levels (analysed self.now).levels }
    {
        direction_of(self.levels.as_slice())
    }

    /// Returns the level of each code unit of the text: after L1 in the line, and as stored outside it.
    ///
    /// Takes time linear in the text. Allocates only the list that it returns.
    pub fn reordered_levels(
        &self,
        alloc: Global,
        para_level: Level,
        line: Range<usize>,
    ) -> Result<Vec<Level>, AllocError>
        requires { IsLineOf (analysed self.now) line }
        ensures { IfOk result (λ v. AreLevelsWithLine (analysed self.now) para_level line v.items) }
    {
        prove!(is_line(self.text(), &line));
        levels_with_line(
            alloc,
            para_level,
            self.original_classes(),
            self.levels(),
            line,
        )
    }

    /// Returns the level of each character of the text: after L1 in the line, and as stored outside it.
    ///
    /// Takes time linear in the text. Allocates only the list that it returns.
    pub fn reordered_levels_per_char(
        &self,
        alloc: Global,
        para_level: Level,
        line: Range<usize>,
    ) -> Result<Vec<Level>, AllocError>
        requires { IsLineOf (analysed self.now) line }
        ensures { IfOk result (λ v. v.items ≡ levels_with_line_per_char (analysed self.now) para_level line) }
    {
        prove!(is_line(self.text(), &line));
        let classes = self.original_classes();
        levels_per_char(alloc, self.text, para_level, classes, self.levels(), line)
    }

    /// Returns the level of each code unit of the text, and the level runs (BD7) of the line from left to right (L2).
    ///
    /// The levels are those after L1 in the line, and the stored ones outside it. Runs are ranges of code units of the
    /// text. An empty line has none. Takes time linear in the text.
    pub fn visual_runs(
        &self,
        alloc: Global,
        para_level: Level,
        line: Range<usize>,
    ) -> Result<(Vec<Level>, Vec<Range<usize>>), AllocError>
        requires is_line { IsLineOf (analysed self.now) line }
        ensures levels { IfOk result (λ r. AreLevelsWithLine (analysed self.now) para_level line r.0.items) }
        ensures runs { IfOk result (λ r. AreRunsOfLine (analysed self.now) para_level line (map run_of r.1.items)) }
    {
        prove!(is_line(self.text(), &line));
        levels_and_runs(
            alloc,
            para_level,
            self.original_classes(),
            self.levels(),
            line,
        )
    }

    /// Returns the level of each code unit of the line after L1.
    ///
    /// Takes time linear in the line. Allocates only the list that it returns.
    pub fn levels_of_line(
        &self,
        alloc: Global,
        para_level: Level,
        line: Range<usize>,
    ) -> Result<Vec<Level>, AllocError>
        requires { IsLineOf (analysed self.now) line }
        ensures { IfOk result (λ v. AreLevelsOfLine (analysed self.now) para_level line v.items) }
    {
        prove!(is_line(self.text(), &line));
        levels_of_line(
            alloc,
            para_level,
            self.original_classes(),
            self.levels(),
            line,
        )
    }

    /// Returns the level runs (BD7) of the line from left to right (L2), as ranges of code units of the text.
    ///
    /// An empty line has none. Takes time linear in the line. A line of up to 256 code units with up to 16 runs
    /// allocates only the list of runs.
    pub fn line_runs(
        &self,
        alloc: Global,
        para_level: Level,
        line: Range<usize>,
    ) -> Result<Vec<Range<usize>>, AllocError>
        requires { IsLineOf (analysed self.now) line }
        ensures { IfOk result (λ v. AreRunsOfLine (analysed self.now) para_level line (map run_of v.items)) }
    {
        prove!(is_line(self.text(), &line));
        let (start, end) = (line.start, line.end);
        let classes = &self.original_classes()[start..end];
        let mut after_l1 = LineLevels::new(alloc);
        after_l1.show(para_level, classes, &self.levels()[start..end])?;
        visual_runs_of(alloc, after_l1.as_slice(), start)
    }
}
