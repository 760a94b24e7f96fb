//! Texts of UTF-8, analysed (P1 to I2) and shown line by line (L1, L2). A code unit is a byte.

ghost use Rattle.std.specs.Prelude.{◌≡◌, ◌≤◌, ◌↔◌, IfOk, IfSome, Some, None, [], ◌∷◌, encode_utf8};
ghost use Rattle.std.specs.Cow.{cow_str_bytes, IsBorrowedStr};
ghost use Rattle.bidi_base.specs.AnalysedText.{AreParagraphs, IsAnalysis, IsLineOf, IsTextOfLine, StaysInOrder};
ghost use Rattle.bidi_paragraphs.specs.ParagraphInfo.{level_of, ranges_of, levels_of};
ghost use Rattle.bidi_base.specs.Text.{text_len};
ghost use Rattle.unicode_bidi.specs.Analysis.{Constructs};

use crate::{info, initial_info, paragraph, paragraph_bidi_info};
use bidi_base::data_source::BidiDataSource;
use bidi_base::level::Level;
use bidi_base::split_rule::SplitRule;
use bidi_lines::shown_line;
use bidi_paragraphs::paragraph_info::ParagraphInfo;
use bidi_text::text::StrText;
use std::alloc::{AllocError, Global};
use std::borrow::CowStr;
use std::ops::Range;

/// The result of the algorithm for a text: its paragraphs, and the class and the level of each character.
///
/// A line is a range of bytes that cuts no character (see `is_line`). Its levels after L1 depend on the level
/// of the paragraph that is passed with it.
///
/// `{:?}` prints the text, the classes, the levels and the paragraphs. The kit cannot prove a function that passes an
/// info to a format. The page `CALLING.md` shows what to write instead, and how to compare two infos behind references.
pub type BidiInfo<'t> = info::BidiInfo<StrText<'t>>;

/// The result of the algorithm for a text that is one paragraph, whatever separators it has.
///
/// A line is a range of bytes that cuts no character (see `is_line`).
pub type ParagraphBidiInfo<'t> = paragraph_bidi_info::ParagraphBidiInfo<StrText<'t>>;

/// The paragraphs of a text and the classes of its characters.
pub type InitialInfo<'t> = initial_info::InitialInfo<StrText<'t>>;

/// A paragraph, and the result of the algorithm for its text.
pub type Paragraph<'a, 't> = paragraph::Paragraph<'a, StrText<'t>>;

/// A line as it is displayed: its levels after L1, its visual runs (L2), the order of its characters, and its text.
///
/// Shows one line after another (see `show_line` of the info types), and reuses its memory. Runs are ranges of
/// bytes.
pub type ShownLine<'t> = shown_line::ShownLine<StrText<'t>>;

impl<'t> info::BidiInfo<StrText<'t>> {
    ghost use Rattle.unicode_bidi.specs.BidiInfo.{text as text_of, analysed as analysed_of, paragraphs};

    /// Finds the paragraphs of a text, and the class and the level of each character (P1 to I2).
    ///
    /// A base level, at most 125, is the level of every paragraph. Without one, each paragraph gets its level from its
    /// characters (P2, P3). Each FSI is resolved (X5c). Reads the text a few times. The result has two bytes for each
    /// code unit: its class and its level.
    pub fn new_with_data_source<D: BidiDataSource>(
        alloc: Global,
        data_source: &D,
        text: &'t str,
        default_para_level: Option<Level>,
    ) -> Result<BidiInfo<'t>, AllocError>
        requires { IfSome default_para_level (λ level. level ≤ 125) }
        ensures { Constructs (D.source data_source.now) default_para_level text_of text.now
            (λ i. IsAnalysis (D.source data_source.now) default_para_level (Some SplitRule.EachSeparator)
            (analysed_of i) (ranges_of (paragraphs i)) (levels_of (paragraphs i))) result }
    {
        let rule = SplitRule::EachSeparator;
        BidiInfo::new_with_rule(alloc, data_source, text, default_para_level, rule)
    }

    /// Finds the paragraphs of a text, which end where `rule` says, and the class and the level of each character
    /// (P1 to I2).
    ///
    /// A base level, at most 125, is the level of every paragraph. Without one, each paragraph gets its level from its
    /// characters (P2, P3). Each FSI is resolved (X5c). Reads the text a few times. The result has two bytes for each
    /// code unit: its class and its level.
    ///
    /// With `CrLfTogether`, a U+000D of class B directly before a U+000A of class B stays with it. The U+000D
    /// has the paragraph level, and closes nothing.
    pub fn new_with_rule<D: BidiDataSource>(
        alloc: Global,
        data_source: &D,
        text: &'t str,
        default_para_level: Option<Level>,
        rule: SplitRule,
    ) -> Result<BidiInfo<'t>, AllocError>
        requires { IfSome default_para_level (λ level. level ≤ 125) }
        ensures { Constructs (D.source data_source.now) default_para_level text_of text.now
            (λ i. IsAnalysis (D.source data_source.now) default_para_level (Some rule)
            (analysed_of i) (ranges_of (paragraphs i)) (levels_of (paragraphs i))) result }
    {
        let text = StrText::new(text);
        info::BidiInfo::of_text(alloc, data_source, text, default_para_level, rule)
    }

    /// Returns the text.
    pub fn text(&self) -> &'t str
        ensures { result.now ≡ text_of self.now }
    {
        self.analysed.text().as_str()
    }

    /// Returns the text of the line from left to right: its characters in the order of L2, by their levels
    /// after L1.
    ///
    /// Combining marks (L3) are not moved, and characters are not mirrored (L4). The text is borrowed, and nothing is
    /// allocated for it, exactly if no level of the line is odd after L1. Takes time linear in the line.
    pub fn reorder_line(
        &self,
        alloc: Global,
        para: &ParagraphInfo,
        line: Range<usize>,
    ) -> Result<CowStr<'t>, AllocError>
        requires { IsLineOf (analysed_of self.now) line }
        ensures text { IfOk result (λ c. IsTextOfLine encode_utf8 (text_of self.now) (analysed_of self.now)
            (level_of para.now) line (cow_str_bytes c)) }
        ensures borrowed { IfOk result (λ c. IsBorrowedStr c ↔ StaysInOrder (analysed_of self.now) (level_of para.now) line) }
    {
        self.analysed.reorder_line(alloc, para.level(), line)
    }
}

impl<'t> paragraph_bidi_info::ParagraphBidiInfo<StrText<'t>> {
    ghost use Rattle.unicode_bidi.specs.ParagraphBidiInfo.{text as text_of, analysed as analysed_of, paragraph_level, IsPureLtrBy};

    /// Finds the level of a text that is one paragraph, and the class and the level of each character (P2 to
    /// I2).
    ///
    /// A base level, at most 125, is the level of the paragraph. Without one, the characters decide (P2, P3). Each FSI
    /// is resolved (X5c). Reads the text a few times. The result has two bytes for each code unit: its class and its
    /// level.
    pub fn new_with_data_source<D: BidiDataSource>(
        alloc: Global,
        data_source: &D,
        text: &'t str,
        default_para_level: Option<Level>,
    ) -> Result<ParagraphBidiInfo<'t>, AllocError>
        requires { IfSome default_para_level (λ level. level ≤ 125) }
        ensures constructs { Constructs (D.source data_source.now) default_para_level text_of text.now
            (λ i. let a = analysed_of i in
            IsAnalysis (D.source data_source.now) default_para_level None a ((0, text_len a.len_of a.chars) ∷ [])
            (paragraph_level i ∷ [])) result }
        ensures pure_ltr { IfOk result (λ i. IsPureLtrBy i (D.source data_source.now)) }
    {
        paragraph_bidi_info::ParagraphBidiInfo::of_text(
            alloc,
            data_source,
            StrText::new(text),
            default_para_level,
        )
    }

    /// Returns the text.
    pub fn text(&self) -> &'t str
        ensures { result.now ≡ text_of self.now }
    {
        self.paragraph.text().as_str()
    }

    /// Returns the text of the line from left to right: its characters in the order of L2, by their levels
    /// after L1.
    ///
    /// Combining marks (L3) are not moved, and characters are not mirrored (L4). The text is borrowed, and nothing is
    /// allocated for it, exactly if no level of the line is odd after L1. Takes time linear in the line.
    pub fn reorder_line(&self, alloc: Global, line: Range<usize>) -> Result<CowStr<'t>, AllocError>
        requires { IsLineOf (analysed_of self.now) line }
        ensures text { IfOk result (λ c. IsTextOfLine encode_utf8 (text_of self.now) (analysed_of self.now)
            (paragraph_level self.now) line (cow_str_bytes c)) }
        ensures borrowed { IfOk result (λ c. IsBorrowedStr c
            ↔ StaysInOrder (analysed_of self.now) (paragraph_level self.now) line) }
    {
        self.paragraph
            .reorder_line(alloc, self.paragraph_level(), line)
    }
}

impl<'t> initial_info::InitialInfo<StrText<'t>> {
    ghost use Rattle.unicode_bidi.specs.InitialInfo.{text as text_of, len_of, chars_of, original_classes, paragraphs};

    /// Finds the paragraphs of a text with their levels (P1 to P3), and the class of each character.
    ///
    /// A base level, which may be any level, is the level of every paragraph. Without one, each paragraph gets its
    /// level from its characters (P2, P3). Each FSI is resolved (X5c). Takes time linear in the text. The result has
    /// one byte for each code unit: its class.
    pub fn new_with_data_source<D: BidiDataSource>(
        alloc: Global,
        data_source: &D,
        text: &'t str,
        default_para_level: Option<Level>,
    ) -> Result<InitialInfo<'t>, AllocError>
        ensures text { IfOk result (λ i. text_of i ≡ text.now) }
        ensures paragraphs { IfOk result (λ i. AreParagraphs (D.source data_source.now) default_para_level
            (Some SplitRule.EachSeparator) (len_of i) (chars_of i) (original_classes i) (ranges_of (paragraphs i))
            (levels_of (paragraphs i))) }
    {
        initial_info::InitialInfo::of_text(
            alloc,
            data_source,
            StrText::new(text),
            default_para_level,
        )
    }

    /// Returns the text.
    pub fn text(&self) -> &'t str
        ensures { result.now ≡ text_of self.now }
    {
        self.text.as_str()
    }
}
