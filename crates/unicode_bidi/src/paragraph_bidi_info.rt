// The result of the algorithm for a text that is one paragraph.
ghost use Rattle.std.specs.Prelude.{◌≡◌, ◌<◌, ◌≤◌, IfOk, IfSome, None, [], ◌∷◌, OnOk, OnErr, map};
ghost use Rattle.bidi_base.specs.AnalysedText.{IsAnalysis, IsLineOf, AreLevelsWithLine, AreLevelsOfLine, AreRunsOfLine, HasClassPerChar, HasLevelPerChar, levels_with_line_per_char, line_levels_per_char};
ghost use Rattle.bidi_base.specs.Direction.{direction_of_levels};
ghost use Rattle.bidi_base.specs.Display.{run_of};
ghost use Rattle.bidi_base.specs.Levels.{has_rtl as has_rtl_of};
ghost use Rattle.bidi_lines.specs.LineOrder.{IsLineOrder};
ghost use Rattle.bidi_base.specs.Text.{text_len};
ghost use Rattle.unicode_bidi.specs.Analysis.{ObeysLaws};
ghost use Rattle.unicode_bidi.specs.Base.{HasLowLevel, IsAnalysisWith};
ghost use Rattle.unicode_bidi.specs.VisualRun.{AreLineRuns, AreRunsWithLevels, AreRunTexts, AreLogicalRuns};

use crate::base::Base;
use crate::char_levels::levels_of_line_per_char;
use crate::engine;
use crate::logical_runs::logical_runs_of;
use crate::visual_run::{self, RunText, VisualRun};
use bidi_base::char_data::{BidiClass, Direction};
use bidi_base::data_source::BidiDataSource;
use bidi_base::level::Level;
use bidi_lines::analysed::Analysed;
use bidi_lines::shown_line::ShownLine;
use bidi_lines::visual_order;
use bidi_text::text::TextSource;
use std::alloc::{AllocError, Global};
use std::fmt;
use std::ops::Range;

/// The result of the algorithm for a text that is one paragraph, whatever separators it has.
///
/// A line is a range of code units of the text that cuts no character (see `is_line`).
#[derive(PartialEq, Drop)]
pub struct ParagraphBidiInfo<T: TextSource> {
    pub(crate) paragraph: Analysed<T>,
    paragraph_level: Level,
    is_pure_ltr: bool,
}

// Prints the fields that this type has in the ported crate.
impl<T: TextSource + fmt::Debug> fmt::Debug for ParagraphBidiInfo<T> {
    fn fmt<W: fmt::Write>(&self, f: &mut fmt::Formatter<W>) -> fmt::Result {
        f.debug_struct("ParagraphBidiInfo")
            .field("text", &self.paragraph.text())
            .field("original_classes", &self.original_classes())
            .field("levels", &self.levels())
            .field("paragraph_level", &self.paragraph_level)
            .field("is_pure_ltr", &self.is_pure_ltr)
            .finish()
    }
}

impl<T: TextSource> ParagraphBidiInfo<T> {
    ghost use Rattle.bidi_lines.specs.Analysed.{text_of as analysed_text};
    ghost use Rattle.bidi_lines.specs.ShownLine.{text_of as shown_text, Shows};
    ghost use Rattle.unicode_bidi.specs.ParagraphBidiInfo.{analysed as analysed_of, text_source, original_classes, levels as levels_of_info, paragraph_level, is_pure_ltr, IsPureLtrBy};

    /// Finds the level of a text in any encoding that is one paragraph, and the class and the level of each character
    /// (P2 to I2).
    ///
    /// A base level, at most 125, is the level of the paragraph. Without one, the characters decide (P2, P3). Each FSI
    /// is resolved (X5c). Reads the text a few times. The result has two bytes for each code unit: its class and its
    /// level.
    pub fn of_text<D: BidiDataSource>(
        alloc: Global,
        data_source: &D,
        text: T,
        default_para_level: Option<Level>,
    ) -> Result<ParagraphBidiInfo<T>, AllocError>
        requires { IfSome default_para_level (λ level. level ≤ 125) }
        ensures text { IfOk result (λ i. text_source i ≡ text) }
        ensures analysis { IfOk result (λ i. let a = analysed_of i in
            IsAnalysis (D.source data_source.now) default_para_level None a ((0, text_len a.len_of a.chars) ∷ [])
            (paragraph_level i ∷ [])) }
        ensures pure_ltr { IfOk result (λ i. IsPureLtrBy i (D.source data_source.now)) }
        ensures laws { ObeysLaws (D.source data_source.now) default_para_level }
    {
        let found = engine::analyse_by(alloc, data_source, text, default_para_level, None)?;
        let paragraph_level = found.paragraphs.as_slice()[0].level();
        let is_pure_ltr = found.flags.as_slice()[0].is_pure_ltr();
        Ok(ParagraphBidiInfo {
            paragraph: Analysed::new(text, found.original_classes, found.levels),
            paragraph_level,
            is_pure_ltr,
        })
    }

    /// Finds the level of a text in any encoding that is one paragraph, and the class and the level of each character
    /// (P2 to I2), with a base.
    ///
    /// Like [`ParagraphBidiInfo::of_text`], with a base. With [`Base::AutoOr`], a text in which no character decides,
    /// such as digits alone or an empty text, gets the level that the caller chose. A level that `base` names is at
    /// most 125.
    pub fn of_text_with_base<D: BidiDataSource>(
        alloc: Global,
        data_source: &D,
        text: T,
        base: Base,
    ) -> Result<ParagraphBidiInfo<T>, AllocError>
        requires { HasLowLevel base }
        ensures text { IfOk result (λ i. text_source i ≡ text) }
        ensures analysis { IfOk result (λ i. let a = analysed_of i in
            IsAnalysisWith (D.source data_source.now) base None a ((0, text_len a.len_of a.chars) ∷ [])
            (paragraph_level i ∷ [])) }
        ensures pure_ltr { IfOk result (λ i. IsPureLtrBy i (D.source data_source.now)) }
    {
        let found = engine::analyse_by_base(alloc, data_source, text, base, None)?;
        let paragraph_level = found.paragraphs.as_slice()[0].level();
        let is_pure_ltr = found.flags.as_slice()[0].is_pure_ltr();
        Ok(ParagraphBidiInfo {
            paragraph: Analysed::new(text, found.original_classes, found.levels),
            paragraph_level,
            is_pure_ltr,
        })
    }

    /// Returns the text, in its encoding.
    pub fn text_source(&self) -> T
        ensures { result ≡ text_source self.now }
    {
        self.paragraph.text()
    }

    /// Returns the class of each code unit's character.
    ///
    /// An FSI is RLI or LRI here if a character decides its direction (X5c).
    pub fn original_classes(&self) -> &[BidiClass]
        ensures classes { result.now ≡ original_classes self.now }
        ensures per_char { HasClassPerChar (analysed_of self.now) result.now }
    {
        self.paragraph.original_classes()
    }

    /// Returns the level of each code unit's character, before L1.
    ///
    /// A character that X9 removes has the level of the character before it. At the start of the text it has
    /// the paragraph level.
    pub fn levels(&self) -> &[Level]
        ensures levels { result.now ≡ levels_of_info self.now }
        ensures per_char { HasLevelPerChar (analysed_of self.now) result.now }
    {
        self.paragraph.levels()
    }

    /// Returns the paragraph level (BD4).
    pub fn paragraph_level(&self) -> Level
        ensures { result ≡ paragraph_level self.now }
    {
        self.paragraph_level
    }

    /// Returns whether no character has the class R, AL, AN, LRE, RLE, LRO, RLO, LRI, RLI or FSI.
    ///
    /// The base level does not matter.
    pub fn is_pure_ltr(&self) -> bool
        ensures { result ≡ is_pure_ltr self.now }
    {
        self.is_pure_ltr
    }

    /// Returns whether some level is odd, and so right-to-left. Takes time linear in the text.
    pub fn has_rtl(&self) -> bool
        ensures { result ≡ has_rtl_of (levels_of_info self.now) }
    {
        self.paragraph.has_rtl()
    }

    /// Returns the direction of the levels.
    ///
    /// It is left-to-right if there are levels and all are even, right-to-left if none is even, and mixed otherwise.
    /// Takes time linear in the text.
    pub fn direction(&self) -> Direction
        ensures { result ≡ direction_of_levels (levels_of_info self.now) }
    {
        self.paragraph.direction()
    }

    /// Returns the level of each code unit of the whole text: after L1 in the line, and as stored outside it.
    ///
    /// Takes time linear in the text. `levels_of_line` takes time linear in the line.
    pub fn reordered_levels(
        &self,
        alloc: Global,
        line: Range<usize>,
    ) -> Result<Vec<Level>, AllocError>
        requires { IsLineOf (analysed_of self.now) line }
        ensures { IfOk result (λ v. AreLevelsWithLine (analysed_of self.now) (paragraph_level self.now) line v.items) }
    {
        self.paragraph
            .reordered_levels(alloc, self.paragraph_level, line)
    }

    /// Returns the level of each character of the whole text: after L1 in the line, and as stored outside it.
    ///
    /// Takes time linear in the text.
    pub fn reordered_levels_per_char(
        &self,
        alloc: Global,
        line: Range<usize>,
    ) -> Result<Vec<Level>, AllocError>
        requires { IsLineOf (analysed_of self.now) line }
        ensures { IfOk result (λ v. v.items ≡ levels_with_line_per_char (analysed_of self.now) (paragraph_level self.now) line) }
    {
        self.paragraph
            .reordered_levels_per_char(alloc, self.paragraph_level, line)
    }

    /// Returns the levels of `reordered_levels`, and the level runs (BD7) of the line from left to right (L2).
    ///
    /// Runs are ranges of code units of the text. The line must not be empty. Takes time linear in the text.
    /// `line_runs` takes time linear in the line.
    pub fn visual_runs(
        &self,
        alloc: Global,
        line: Range<usize>,
    ) -> Result<(Vec<Level>, Vec<Range<usize>>), AllocError>
        requires is_line { IsLineOf (analysed_of self.now) line }
        requires not_empty { line.start < line.end }
        ensures levels { IfOk result (λ r. AreLevelsWithLine (analysed_of self.now) (paragraph_level self.now) line r.0.items) }
        ensures runs { IfOk result (λ r. AreRunsOfLine (analysed_of self.now) (paragraph_level self.now) line
            (map run_of r.1.items)) }
    {
        self.paragraph
            .visual_runs(alloc, self.paragraph_level, line)
    }

    /// Returns the level of each code unit of the line after L1, that of `line.start` first.
    ///
    /// Takes time linear in the line.
    pub fn levels_of_line(
        &self,
        alloc: Global,
        line: Range<usize>,
    ) -> Result<Vec<Level>, AllocError>
        requires { IsLineOf (analysed_of self.now) line }
        ensures { IfOk result (λ v. AreLevelsOfLine (analysed_of self.now) (paragraph_level self.now) line v.items) }
    {
        self.paragraph
            .levels_of_line(alloc, self.paragraph_level, line)
    }

    /// Returns the level runs (BD7) of the line after L1, from left to right (L2).
    ///
    /// Runs are ranges of code units of the text. An empty line has none. `levels_of_line` has the level of each. Takes
    /// time linear in the line.
    pub fn line_runs(
        &self,
        alloc: Global,
        line: Range<usize>,
    ) -> Result<Vec<Range<usize>>, AllocError>
        requires { IsLineOf (analysed_of self.now) line }
        ensures { IfOk result (λ v. AreLineRuns (analysed_of self.now) (paragraph_level self.now) line v.items) }
    {
        self.paragraph.line_runs(alloc, self.paragraph_level, line)
    }

    /// Returns the level runs (BD7) of the line after L1, each with its level, from left to right (L2).
    ///
    /// An empty line has none. Takes time linear in the line.
    pub fn runs_with_levels(
        &self,
        alloc: Global,
        line: Range<usize>,
    ) -> Result<Vec<VisualRun>, AllocError>
        requires { IsLineOf (analysed_of self.now) line }
        ensures { IfOk result (λ v. AreRunsWithLevels (analysed_of self.now) (paragraph_level self.now) line v.items) }
    {
        visual_run::runs_with_levels(alloc, &self.paragraph, self.paragraph_level, line)
    }

    /// Returns the level runs (BD7) of the line after L1, each with its level and its text, from left to right (L2).
    ///
    /// The text of a run is in the order of the text: if the level is odd, its characters are displayed from the last
    /// to the first. An empty line has no runs. Takes time linear in the line.
    pub fn run_texts(
        &self,
        alloc: Global,
        line: Range<usize>,
    ) -> Result<Vec<RunText<T>>, AllocError>
        requires { IsLineOf (analysed_of self.now) line }
        ensures { IfOk result (λ v. AreRunTexts (T.text (text_source self.now)) T.text (analysed_of self.now) (paragraph_level self.now) line v.items) }
    {
        visual_run::run_texts(alloc, &self.paragraph, self.paragraph_level, line)
    }

    /// Returns the level runs (BD7) of a range of the text by the stored levels, in the order of the text.
    ///
    /// A shaper takes them one by one: the level of a run is that of its first code unit in `levels`. These are levels
    /// before L1, so white space at the end of a line keeps its level; for a line, use `runs_with_levels`. The range
    /// must cut no character (see `is_line`). An empty range has no runs. Takes time linear in the range.
    pub fn logical_runs(
        &self,
        alloc: Global,
        range: Range<usize>,
    ) -> Result<Vec<Range<usize>>, AllocError>
        requires { IsLineOf (analysed_of self.now) range }
        ensures { IfOk result (λ v. AreLogicalRuns (analysed_of self.now) range v.items) }
    {
        logical_runs_of(alloc, &self.paragraph, range)
    }

    /// Returns the level of each character of the line after L1.
    ///
    /// Takes time linear in the line.
    pub fn levels_of_line_per_char(
        &self,
        alloc: Global,
        line: Range<usize>,
    ) -> Result<Vec<Level>, AllocError>
        requires { IsLineOf (analysed_of self.now) line }
        ensures { IfOk result (λ v. v.items ≡ line_levels_per_char (analysed_of self.now) (paragraph_level self.now) line) }
    {
        levels_of_line_per_char(alloc, &self.paragraph, self.paragraph_level, line)
    }

    /// Shows a line of the text in a value that keeps its memory for the next line.
    ///
    /// `shown` then has the line's levels after L1, its visual runs (L2), the order of its characters, and its text
    /// from left to right. To show a line of up to 256 code units with up to 16 runs, it does not allocate. Takes time
    /// linear in the line. If an allocation fails, `shown` shows the empty line at the start of the text.
    pub fn show_line(&self, shown: &mut ShownLine<T>, line: Range<usize>) -> Result<(), AllocError>
        requires { IsLineOf (analysed_of self.now) line }
        ensures text { shown_text shown.new ≡ analysed_text self.now.paragraph }
        ensures shows { OnOk result (Shows shown.new (analysed_of self.now) (paragraph_level self.now) line) }
        ensures emptied { OnErr result (Shows shown.new (analysed_of self.now) (paragraph_level self.now)
            (record { start = 0; end = 0 })) }
    {
        shown.show(&self.paragraph, self.paragraph_level, line)
    }

    /// Returns the visual order of a line's items (L2): for each visual index, the index of the item there.
    ///
    /// `levels` has the level of each item after L1. An item may be a code unit, a character or a run. The cost is the
    /// list, times the nesting depth of its reversed ranges.
    pub fn reorder_visual(alloc: Global, levels: &[Level]) -> Result<Vec<usize>, AllocError>
        ensures { IfOk result (λ v. IsLineOrder levels.now v.items) }
    {
        visual_order::reorder_visual(alloc, levels)
    }
}
