//! The result of the algorithm for a text in any encoding. `BidiInfo` of `unicode_bidi` and of `utf16` are aliases of it,
//! for UTF-8 and UTF-16. So a function over `BidiInfo<T>`, for each `T: TextSource`, serves every encoding.

ghost use Rattle.std.specs.Prelude.{◌≡◌, ◌+◌, ◌<◌, ◌≤◌, nat_lt, slice_range, IfOk, IfSome, OnOk, OnErr, All, Some, map, option_map};
ghost use Rattle.std.specs.List.{find};
ghost use Rattle.bidi_base.specs.AnalysedText.{IsAnalysis, IsPerCharText, IsLineOf, AreLevelsWithLine, AreLevelsOfLine, AreRunsOfLine, HasClassPerChar, HasLevelPerChar, levels_with_line_per_char, line_levels_per_char};
ghost use Rattle.bidi_base.specs.Display.{run_of};
ghost use Rattle.bidi_base.specs.Levels.{has_rtl as has_rtl_of};
ghost use Rattle.bidi_base.specs.Paragraphs.{IsPartition};
ghost use Rattle.bidi_base.specs.Texts.{text_len, IsLine};
ghost use Rattle.bidi_paragraphs.specs.ParagraphInfo.{level_of, range_of, ranges_of, levels_of};
ghost use Rattle.bidi_lines.specs.LineOrder.{IsLineOrder};
ghost use Rattle.unicode_bidi.specs.Analysis.{ObeysLaws};
ghost use Rattle.unicode_bidi.specs.Base.{HasLowLevel, IsAnalysisWith};
ghost use Rattle.unicode_bidi.specs.Content.{content_len as content_len_of};
ghost use Rattle.unicode_bidi.specs.Engine.{with_analysis, paragraphs as paragraphs_of_analysis};
ghost use Rattle.unicode_bidi.specs.Partition.{IsPartition-prop};
ghost use Rattle.unicode_bidi.specs.VisualRun.{AreLineRuns, AreRunsWithLevels, AreRunTexts, AreLogicalRuns};

use crate::base::Base;
use crate::char_levels::levels_of_line_per_char;
use crate::content::content_len;
use crate::engine::{self, Analysis};
use crate::logical_runs::logical_runs_of;
pub use crate::paragraph_bidi_info::ParagraphBidiInfo;
use crate::visual_run::{self, RunText, VisualRun};
use bidi_base::char_data::BidiClass;
use bidi_base::data_source::BidiDataSource;
use bidi_base::level::Level;
use bidi_base::split_rule::SplitRule;
use bidi_lines::analysed::Analysed;
pub use bidi_lines::shown_line::ShownLine;
use bidi_lines::visual_order;
use bidi_paragraphs::paragraph_info::ParagraphInfo;
use bidi_text::text::{TextSource, is_line};
use smallvec::SmallVec;
use std::alloc::{AllocError, Global};
use std::fmt;
use std::ops::Range;

/// The result of the algorithm for a text: its paragraphs, and the class and the level of each character.
///
/// A line is a range of code units of the text that cuts no character (see `is_line`). Its levels after L1
/// depend on the level of the paragraph that is passed with it.
#[derive(PartialEq, Drop)]
pub struct BidiInfo<T: TextSource> {
    pub(crate) analysed: Analysed<T>,
    paragraphs: SmallVec<ParagraphInfo, 1>,
    ghost paragraphs_are_lines: { All
        (λ p. IsLine (T.text analysed.text) (range_of p).start (range_of p).end) paragraphs.items },
    ghost partition: { IsPartition 0 (text_len (T.text analysed.text)) (ranges_of paragraphs.items) } by { IsPartition-prop 0 (text_len (T.text analysed.text)) (ranges_of paragraphs.items) },
}

// Prints the fields that this type has in the ported crate.
impl<T: TextSource + fmt::Debug> fmt::Debug for BidiInfo<T> {
    fn fmt<W: fmt::Write>(&self, f: &mut fmt::Formatter<W>) -> fmt::Result {
        f.debug_struct("BidiInfo")
            .field("text", &self.analysed.text())
            .field("original_classes", &self.original_classes())
            .field("levels", &self.levels())
            .field("paragraphs", &self.paragraphs())
            .finish()
    }
}

impl<T: TextSource> BidiInfo<T> {
    ghost use Rattle.bidi_lines.specs.Analysed.{text_of as analysed_text};
    ghost use Rattle.bidi_lines.specs.ShownLine.{text_of as shown_text, Shows};
    ghost use Rattle.unicode_bidi.specs.BidiInfo.{analysed as analysed_of, text_source, paragraphs, original_classes, levels as levels_of_info};

    /// Finds the paragraphs of a text in any encoding, which end where `rule` says, and the class and the level of each
    /// character (P1 to I2).
    ///
    /// A base level, at most 125, is the level of every paragraph. Without one, each paragraph gets its level from its
    /// characters (P2, P3). Each FSI is resolved (X5c). Reads the text a few times. The result has two bytes for each
    /// code unit: its class and its level.
    pub fn of_text<D: BidiDataSource>(
        alloc: Global,
        data_source: &D,
        text: T,
        default_para_level: Option<Level>,
        rule: SplitRule,
    ) -> Result<BidiInfo<T>, AllocError>
        requires { IfSome default_para_level (λ level. level ≤ 125) }
        ensures text { IfOk result (λ i. text_source i ≡ text) }
        ensures analysis { IfOk result (λ i. IsAnalysis (D.source data_source.now) default_para_level (Some rule)
            (analysed_of i) (ranges_of (paragraphs i)) (levels_of (paragraphs i))) }
        ensures laws { ObeysLaws (D.source data_source.now) default_para_level }
    {
        let found = engine::analyse_by(alloc, data_source, text, default_para_level, Some(rule))?;
        Ok(BidiInfo::of_analysis(text, found))
    }

    /// Finds the paragraphs of a text in any encoding, which end where `rule` says, and the class and the level of each
    /// character (P1 to I2), with a base.
    ///
    /// Like [`BidiInfo::of_text`], with a base. With [`Base::AutoOr`], a paragraph in which no character decides, such
    /// as digits alone, gets the level that the caller chose. A level that `base` names is at most 125.
    pub fn of_text_with_base<D: BidiDataSource>(
        alloc: Global,
        data_source: &D,
        text: T,
        base: Base,
        rule: SplitRule,
    ) -> Result<BidiInfo<T>, AllocError>
        requires { HasLowLevel base }
        ensures text { IfOk result (λ i. text_source i ≡ text) }
        ensures analysis { IfOk result (λ i. IsAnalysisWith (D.source data_source.now) base (Some rule) (analysed_of i)
            (ranges_of (paragraphs i)) (levels_of (paragraphs i))) }
    {
        let found = engine::analyse_by_base(alloc, data_source, text, base, Some(rule))?;
        Ok(BidiInfo::of_analysis(text, found))
    }

    // Returns the info of a text with its analysis.
    fn of_analysis(text: T, found: Analysis) -> BidiInfo<T>
        requires per_char { IsPerCharText (with_analysis (T.text text) found) }
        requires lines { All (λ r. IsLine (T.text text) r.0 r.1) (ranges_of (paragraphs_of_analysis found)) }
        requires partition { IsPartition 0 (text_len (T.text text)) (ranges_of (paragraphs_of_analysis found)) }
        ensures text { text_source result ≡ text }
        ensures analysed { analysed_of result ≡ with_analysis (T.text text) found }
        ensures paragraphs { paragraphs result ≡ paragraphs_of_analysis found }
    {
        BidiInfo {
            analysed: Analysed::new(text, found.original_classes, found.levels),
            paragraphs: found.paragraphs,
        }
    }

    /// Returns the text, in its encoding.
    pub fn text_source(&self) -> T
        ensures { result ≡ text_source self.now }
    {
        self.analysed.text()
    }

    /// Returns the class of each code unit's character.
    ///
    /// An FSI is RLI or LRI here if a character decides its direction (X5c).
    pub fn original_classes(&self) -> &[BidiClass]
        ensures classes { result.now ≡ original_classes self.now }
        ensures per_char { HasClassPerChar (analysed_of self.now) result.now }
    {
        self.analysed.original_classes()
    }

    /// Returns the level of each code unit's character, before L1.
    ///
    /// A character that X9 removes has the level of the character before it. At the start of a paragraph it has
    /// the paragraph level.
    pub fn levels(&self) -> &[Level]
        ensures levels { result.now ≡ levels_of_info self.now }
        ensures per_char { HasLevelPerChar (analysed_of self.now) result.now }
    {
        self.analysed.levels()
    }

    /// Returns the paragraphs in order. Together they are the whole text.
    pub fn paragraphs(&self) -> &[ParagraphInfo]
        ensures paragraphs { result.now ≡ paragraphs self.now }
        ensures are_lines { All (λ p. IsLineOf (analysed_of self.now) (range_of p)) result.now }
    {
        self.paragraphs.as_slice()
    }

    /// Returns the paragraph of a code unit, or `None` if the text has no such code unit.
    ///
    /// The end of the text is in no paragraph. Takes time logarithmic in the number of paragraphs.
    pub fn paragraph_at(&self, unit: usize) -> Option<&ParagraphInfo>
        ensures found { option_map (λ p. p.now) result ≡ find (λ p. nat_lt unit (range_of p).end) (paragraphs self.now) }
        ensures within { IfSome result (λ p. (range_of p.now).start ≤ unit × unit < (range_of p.now).end) }
    {
        let before = self
            .paragraphs()
            .partition_point(|paragraph| paragraph.range().end <= unit);
        self.paragraphs().get(before)
    }

    /// Returns the range of a paragraph without the separators (B) at its end.
    ///
    /// The range of `para` must cut no character of this text (see `is_line`). A paragraph of this text ends with at most
    /// one separator, or with a U+000D and the U+000A after it. Takes time linear in the separators.
    pub fn content(&self, para: &ParagraphInfo) -> Range<usize>
        requires { IsLineOf (analysed_of self.now) (range_of para.now) }
        ensures start { result.start ≡ (range_of para.now).start }
        ensures end { let range = range_of para.now in
            result.end ≡ range.start + content_len_of (slice_range (original_classes self.now) range.start range.end) }
        ensures is_line { IsLineOf (analysed_of self.now) result }
    {
        let range = para.range();
        prove!(is_line(self.text_source(), &range));
        let classes = &self.original_classes()[range.start..range.end];
        range.start..range.start + content_len(classes)
    }

    /// Returns whether some level is odd, and so right-to-left. Takes time linear in the text.
    pub fn has_rtl(&self) -> bool
        ensures { result ≡ has_rtl_of (levels_of_info self.now) }
    {
        self.analysed.has_rtl()
    }

    /// Returns the level of each code unit of the whole text: after L1 in the line, and as stored outside it.
    ///
    /// Takes time linear in the text. `levels_of_line` takes time linear in the line.
    pub fn reordered_levels(
        &self,
        alloc: Global,
        para: &ParagraphInfo,
        line: Range<usize>,
    ) -> Result<Vec<Level>, AllocError>
        requires { IsLineOf (analysed_of self.now) line }
        ensures { IfOk result (λ v. AreLevelsWithLine (analysed_of self.now) (level_of para.now) line v.items) }
    {
        self.analysed.reordered_levels(alloc, para.level(), line)
    }

    /// Returns the level of each character of the whole text: after L1 in the line, and as stored outside it.
    ///
    /// Takes time linear in the text.
    pub fn reordered_levels_per_char(
        &self,
        alloc: Global,
        para: &ParagraphInfo,
        line: Range<usize>,
    ) -> Result<Vec<Level>, AllocError>
        requires { IsLineOf (analysed_of self.now) line }
        ensures { IfOk result (λ v. v.items ≡ levels_with_line_per_char (analysed_of self.now) (level_of para.now) line) }
    {
        self.analysed
            .reordered_levels_per_char(alloc, para.level(), line)
    }

    /// Returns the levels of `reordered_levels`, and the level runs (BD7) of the line from left to right (L2).
    ///
    /// Runs are ranges of code units of the text. The line must not be empty. Takes time linear in the text.
    /// `line_runs` takes time linear in the line.
    pub fn visual_runs(
        &self,
        alloc: Global,
        para: &ParagraphInfo,
        line: Range<usize>,
    ) -> Result<(Vec<Level>, Vec<Range<usize>>), AllocError>
        requires is_line { IsLineOf (analysed_of self.now) line }
        requires not_empty { line.start < line.end }
        ensures levels { IfOk result (λ r. AreLevelsWithLine (analysed_of self.now) (level_of para.now) line r.0.items) }
        ensures runs { IfOk result (λ r. AreRunsOfLine (analysed_of self.now) (level_of para.now) line (map run_of r.1.items)) }
    {
        self.analysed.visual_runs(alloc, para.level(), line)
    }

    /// Returns the level of each code unit of the line after L1, that of `line.start` first.
    ///
    /// Takes time linear in the line.
    pub fn levels_of_line(
        &self,
        alloc: Global,
        para: &ParagraphInfo,
        line: Range<usize>,
    ) -> Result<Vec<Level>, AllocError>
        requires { IsLineOf (analysed_of self.now) line }
        ensures { IfOk result (λ v. AreLevelsOfLine (analysed_of self.now) (level_of para.now) line v.items) }
    {
        self.analysed.levels_of_line(alloc, para.level(), line)
    }

    /// Returns the level runs (BD7) of the line after L1, from left to right (L2).
    ///
    /// Runs are ranges of code units of the text. An empty line has none. `levels_of_line` has the level of each. Takes
    /// time linear in the line.
    pub fn line_runs(
        &self,
        alloc: Global,
        para: &ParagraphInfo,
        line: Range<usize>,
    ) -> Result<Vec<Range<usize>>, AllocError>
        requires { IsLineOf (analysed_of self.now) line }
        ensures { IfOk result (λ v. AreLineRuns (analysed_of self.now) (level_of para.now) line v.items) }
    {
        self.analysed.line_runs(alloc, para.level(), line)
    }

    /// Returns the level runs (BD7) of the line after L1, each with its level, from left to right (L2).
    ///
    /// An empty line has none. Takes time linear in the line.
    pub fn runs_with_levels(
        &self,
        alloc: Global,
        para: &ParagraphInfo,
        line: Range<usize>,
    ) -> Result<Vec<VisualRun>, AllocError>
        requires { IsLineOf (analysed_of self.now) line }
        ensures { IfOk result (λ v. AreRunsWithLevels (analysed_of self.now) (level_of para.now) line v.items) }
    {
        visual_run::runs_with_levels(alloc, &self.analysed, para.level(), line)
    }

    /// Returns the level runs (BD7) of the line after L1, each with its level and its text, from left to right (L2).
    ///
    /// The text of a run is in the order of the text: if the level is odd, its characters are displayed from the last
    /// to the first. An empty line has no runs. Takes time linear in the line.
    pub fn run_texts(
        &self,
        alloc: Global,
        para: &ParagraphInfo,
        line: Range<usize>,
    ) -> Result<Vec<RunText<T>>, AllocError>
        requires { IsLineOf (analysed_of self.now) line }
        ensures { IfOk result (λ v. AreRunTexts (T.text (text_source self.now)) T.text (analysed_of self.now) (level_of para.now) line v.items) }
    {
        visual_run::run_texts(alloc, &self.analysed, para.level(), line)
    }

    /// Returns the level runs (BD7) of a range of the text by the stored levels, in the order of the text.
    ///
    /// A shaper takes them one by one: the level of a run is that of its first code unit in `levels`. These are levels
    /// before L1, so white space at the end of a line keeps its level; for a line, use `runs_with_levels`. The range
    /// must cut no character (see `is_line`). An empty range has no runs. Takes time linear in the range.
    pub fn logical_runs(
        &self,
        alloc: Global,
        range: Range<usize>,
    ) -> Result<Vec<Range<usize>>, AllocError>
        requires { IsLineOf (analysed_of self.now) range }
        ensures { IfOk result (λ v. AreLogicalRuns (analysed_of self.now) range v.items) }
    {
        logical_runs_of(alloc, &self.analysed, range)
    }

    /// Returns the level of each character of the line after L1.
    ///
    /// Takes time linear in the line.
    pub fn levels_of_line_per_char(
        &self,
        alloc: Global,
        para: &ParagraphInfo,
        line: Range<usize>,
    ) -> Result<Vec<Level>, AllocError>
        requires { IsLineOf (analysed_of self.now) line }
        ensures { IfOk result (λ v. v.items ≡ line_levels_per_char (analysed_of self.now) (level_of para.now) line) }
    {
        levels_of_line_per_char(alloc, &self.analysed, para.level(), line)
    }

    /// Shows a line of the text in a value that keeps its memory for the next line.
    ///
    /// `shown` then has the line's levels after L1, its visual runs (L2), the order of its characters, and its text
    /// from left to right. To show a line of up to 256 code units with up to 16 runs, it does not allocate. Takes time
    /// linear in the line. If an allocation fails, `shown` shows the empty line at the start of the text.
    pub fn show_line(
        &self,
        shown: &mut ShownLine<T>,
        para: &ParagraphInfo,
        line: Range<usize>,
    ) -> Result<(), AllocError>
        requires { IsLineOf (analysed_of self.now) line }
        ensures text { shown_text shown.new ≡ analysed_text self.now.analysed }
        ensures shows { OnOk result (Shows shown.new (analysed_of self.now) (level_of para.now) line) }
        ensures emptied { OnErr result (Shows shown.new (analysed_of self.now) (level_of para.now)
            (record { start = 0; end = 0 })) }
    {
        shown.show(&self.analysed, para.level(), line)
    }

    /// Returns the visual order of a line's items (L2): for each visual index, the index of the item there.
    ///
    /// `levels` has the level of each item after L1. An item may be a code unit, a character or a run. The cost is the
    /// list, times the nesting depth of its reversed ranges.
    pub fn reorder_visual(alloc: Global, levels: &[Level]) -> Result<Vec<usize>, AllocError>
        ensures { IfOk result (λ v. IsLineOrder levels.now v.items) }
    {
        visual_order::reorder_visual(alloc, levels)
    }
}
