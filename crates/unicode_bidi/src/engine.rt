//! The classes, the paragraphs and the levels of a text in any encoding (P1 to I2), and the levels of a line (L1).

ghost use Rattle.std.specs.Prelude.{◌≡◌, None, [], ◌∷◌, ◌≤◌, ◌++◌, length, map, take, drop, flat_map, All, OnOk, OnErr, IfOk, IfSome};
ghost use Rattle.std.specs.Bool.{then_some};
ghost use Rattle.bidi_base.specs.AnalysedText.{IsAnalysis, AreLevelsWithLine};
ghost use Rattle.bidi_base.specs.Line.{levels_with_line as levels_with_line_of};
ghost use Rattle.bidi_base.specs.Paragraphs.{pieces_by};
ghost use Rattle.bidi_base.specs.Texts.{char_index, per_char, text_len, HaveClass, HaveLevel, IsLine};
ghost use Rattle.bidi_base.specs.declared.char_data.BidiClass.TheVariants.{L};
ghost use Rattle.bidi_lines.specs.Analysed.{with_lists};
ghost use Rattle.unicode_bidi.specs.Base.{HasLowLevel, AreParagraphsWith, IsAnalysisWith};
ghost use Rattle.unicode_bidi.specs.Engine.{with_analysis, found_paragraphs, found_flags, original_classes as original_classes_of, levels as stored_levels_of, paragraphs as paragraphs_of_analysis, flags as flags_of_analysis, unit_levels, own_flags, CanWrite, Follow, IsFlaggedAnalysis};
ghost use Rattle.bidi_paragraphs.specs.ParagraphFlags.{paragraph_flags};
ghost use Rattle.bidi_paragraphs.specs.ParagraphInfo.{ranges_of, levels_of};

use crate::base::{Base, apply_base};
use bidi_base::char_data::BidiClass;
use bidi_base::data_source::BidiDataSource;
use bidi_base::level::{LTR_LEVEL, Level};
use bidi_base::split_rule::SplitRule;
use bidi_lines::line_levels::levels_with_line;
use bidi_paragraphs::first_pass::{self, FoundParagraphs};
pub use bidi_paragraphs::paragraph_flags::ParagraphFlags;
use bidi_paragraphs::paragraph_info::ParagraphInfo;
use bidi_paragraphs::paragraph_levels::{ClassifiedParagraph, LevelResolver};
use bidi_text::text::{TextSource, is_line};
use smallvec::SmallVec;
use std::alloc::{AllocError, Global};
use std::mem;
use std::ops::Range;

/// The result of the algorithm for a text, without the text itself.
#[derive(PartialEq, Debug, Drop)]
pub struct Analysis {
    pub(crate) original_classes: Vec<BidiClass>,
    pub(crate) levels: Vec<Level>,
    pub(crate) paragraphs: SmallVec<ParagraphInfo, 1>,
    // One entry for each paragraph.
    pub(crate) flags: SmallVec<ParagraphFlags, 1>,
}

impl Analysis {
    /// Returns the class of each code unit's character.
    ///
    /// An FSI is RLI or LRI here if a character decides its direction (X5c).
    pub fn original_classes(&self) -> &[BidiClass]
        ensures { result.now ≡ original_classes_of self.now }
    {
        self.original_classes.as_slice()
    }

    /// Returns the level of each code unit's character, before L1.
    ///
    /// A character that X9 removes has the level of the character before it. At the start of a paragraph it has
    /// the paragraph level.
    pub fn levels(&self) -> &[Level]
        ensures { result.now ≡ stored_levels_of self.now }
    {
        self.levels.as_slice()
    }

    /// Returns the paragraphs in order. Together they are the whole text.
    pub fn paragraphs(&self) -> &[ParagraphInfo]
        ensures { result.now ≡ paragraphs_of_analysis self.now }
    {
        self.paragraphs.as_slice()
    }
}

// A text with its stored classes.
#[derive(Drop)]
struct ClassifiedText<'a, D: BidiDataSource, T: TextSource> {
    data_source: &'a D,
    text: T,
    // One for each code unit.
    original_classes: &'a [BidiClass],
    ghost long: { length original_classes.now ≡ text_len (T.text text) },
}

// Writes the stored levels of one paragraph. `levels` has those of the whole text.
fn write_paragraph<D: BidiDataSource, T: TextSource>(
    resolver: &mut LevelResolver,
    text: &ClassifiedText<D, T>,
    paragraph: &ParagraphInfo,
    flags: ParagraphFlags,
    levels: &mut [Level],
) -> Result<(), AllocError>
    requires paragraph { CanWrite (D.source text.now.data_source.now) T.encoding.len_of (T.text text.now.text).chars
        text.now.original_classes.now paragraph.now }
    requires flags { flags ≡ own_flags (D.source text.now.data_source.now) T.encoding.len_of (T.text text.now.text).chars paragraph.now }
    requires same_len { length levels.old ≡ text_len (T.text text.now.text) }
    ensures { OnOk result (levels.new
        ≡ take paragraph.now.range.start levels.old
        ++ (unit_levels (D.source text.now.data_source.now) T.encoding.len_of (T.text text.now.text).chars paragraph.now
        ++ drop paragraph.now.range.end levels.old)) }
{
    let units = paragraph.range();
    let (start, end) = (units.start, units.end);
    let own = ClassifiedParagraph {
        data_source: text.data_source,
        text: text.text.subrange(units),
        level: paragraph.level(),
        flags,
        original_classes: &text.original_classes[start..end],
    };
    resolver.write_levels(&own, &mut levels[start..end])
}

// Writes the stored levels of a text, paragraph by paragraph.
fn write_paragraphs<D: BidiDataSource, T: TextSource>(
    resolver: &mut LevelResolver,
    text: &ClassifiedText<D, T>,
    paragraphs: &[ParagraphInfo],
    flags: &[ParagraphFlags],
    levels: &mut [Level],
) -> Result<(), AllocError>
    requires paragraphs { All
        (CanWrite (D.source text.now.data_source.now) T.encoding.len_of (T.text text.now.text).chars
        text.now.original_classes.now)
        paragraphs.now }
    requires flags { flags.now
        ≡ map (own_flags (D.source text.now.data_source.now) T.encoding.len_of (T.text text.now.text).chars) paragraphs.now }
    requires follow { Follow 0 (text_len (T.text text.now.text)) paragraphs.now }
    requires same_len { length levels.old ≡ text_len (T.text text.now.text) }
    ensures { OnOk result (levels.new
        ≡ flat_map (unit_levels (D.source text.now.data_source.now) T.encoding.len_of (T.text text.now.text).chars)
        paragraphs.now) }
{
    for (index, paragraph) in paragraphs.iter().enumerate() {
        write_paragraph(resolver, text, paragraph, flags[index], levels)?;
    }
    Ok(())
}

/// Analyses one text after another, and reuses the memory of its lists.
///
/// The caller provides the lists of classes and levels. A text of up to 256 code units that is one paragraph needs no
/// allocation if no character opens an embedding or an isolate, and none is a bracket.
#[derive(Drop)]
pub struct Analyser {
    found: FoundParagraphs,
    resolver: LevelResolver,
}

impl Analyser {
    /// Returns an analyser that has read no text. Does not allocate.
    pub fn new(alloc: Global) -> Analyser
        ensures paragraphs { found_paragraphs result ≡ [] }
        ensures flags { found_flags result ≡ [] }
    {
        Analyser {
            found: FoundParagraphs::new(alloc),
            resolver: LevelResolver::new(alloc),
        }
    }

    /// Returns the paragraphs of the text that was analysed last, in order. Together they are the whole text. There are
    /// none before the first text, and after a failed allocation.
    pub fn paragraphs(&self) -> &[ParagraphInfo]
        ensures { result.now ≡ found_paragraphs self.now }
    {
        self.found.paragraphs.as_slice()
    }

    /// Returns one value for each of these paragraphs, with the source classes of its characters that later steps tell
    /// apart.
    ///
    /// [`ParagraphFlags::is_pure_ltr`] reads the value, without another pass over the paragraph.
    pub fn flags(&self) -> &[ParagraphFlags]
        ensures { result.now ≡ found_flags self.now }
    {
        self.found.flags.as_slice()
    }

    /// Finds the paragraphs of a text, and the class and the level of each character (P1 to I2), and writes the two to
    /// the caller's lists.
    ///
    /// `base_level` is the level of every paragraph, at most 125. If it is `None`, each paragraph gets its level from
    /// its characters (P2, P3). `rule` says where paragraphs end. Without a rule the whole text is one paragraph.
    /// Writes the stored class of each code unit to `classes` and its stored level to `levels`, which both have one
    /// entry for each code unit. [`Analyser::paragraphs`] then returns the paragraphs, and [`Analyser::flags`] their
    /// classes. Reads the text a few times. If an allocation fails, the two lists hold anything, and there are no
    /// paragraphs.
    pub fn analyse<D: BidiDataSource, T: TextSource>(
        &mut self,
        alloc: Global,
        data_source: &D,
        text: T,
        base_level: Option<Level>,
        rule: Option<SplitRule>,
        classes: &mut [BidiClass],
        levels: &mut [Level],
    ) -> Result<(), AllocError>
        requires low { IfSome base_level (λ level. level ≤ 125) }
        requires class_room { length classes.old ≡ text_len (T.text text) }
        requires level_room { length levels.old ≡ text_len (T.text text) }
        ensures analysis { OnOk result (IsAnalysis (D.source data_source.now) base_level rule
            (with_lists (T.text text) classes.new levels.new) (ranges_of (found_paragraphs self.new))
            (levels_of (found_paragraphs self.new))) }
        ensures flags { let pieces = pieces_by rule (D.source data_source.now) (T.text text).chars in
            OnOk result (found_flags self.new ≡ paragraph_flags (D.source data_source.now) pieces) }
        ensures emptied { OnErr result (found_paragraphs self.new ≡ []) }
        ensures no_flags { OnErr result (found_flags self.new ≡ []) }
    {
        self.analyse_with_base(
            alloc,
            data_source,
            text,
            Base::from(base_level),
            rule,
            classes,
            levels,
        )
    }

    /// Finds the paragraphs of a text with their levels (P1 to P3), and writes its stored classes (X5c) to the caller's list.
    ///
    /// `base` says how the paragraphs get their levels, and `rule` where they end. Without a rule the whole text is one
    /// paragraph. Writes the stored class of each code unit to `classes`, which has one entry for each code unit.
    /// [`Analyser::paragraphs`] then returns the paragraphs, and [`Analyser::flags`] one value for each. No level of a
    /// character is found, so this takes less time than an analysis. With [`Base::AutoOr`], each paragraph of level 0 is
    /// read once more, up to the character that decides. A text of one paragraph without FSI needs no allocation. If an
    /// allocation fails, the list holds anything, and there are no paragraphs.
    pub fn find_paragraphs<D: BidiDataSource, T: TextSource>(
        &mut self,
        alloc: Global,
        data_source: &D,
        text: T,
        base: Base,
        rule: Option<SplitRule>,
        classes: &mut [BidiClass],
    ) -> Result<(), AllocError>
        requires class_room { length classes.old ≡ text_len (T.text text) }
        ensures paragraphs { OnOk result (AreParagraphsWith (D.source data_source.now) base rule T.encoding.len_of
            (T.text text).chars classes.new (ranges_of (found_paragraphs self.new)) (levels_of (found_paragraphs self.new))) }
        ensures flags { let pieces = pieces_by rule (D.source data_source.now) (T.text text).chars in
            OnOk result (found_flags self.new ≡ paragraph_flags (D.source data_source.now) pieces) }
        ensures emptied { OnErr result (found_paragraphs self.new ≡ []) }
        ensures no_flags { OnErr result (found_flags self.new ≡ []) }
    {
        prove!(classes.len() == text.len());
        let memory = mem::replace(&mut self.found, FoundParagraphs::new(alloc));
        let fixed = base.fixed_level();
        let mut found = first_pass::walk(data_source, text, fixed, rule, classes, memory)?;
        apply_base(data_source, text, base, &mut found);
        self.found = found;
        Ok(())
    }

    /// Finds the paragraphs of a text, and the class and the level of each character (P1 to I2), as
    /// [`Analyser::analyse`] does, with a base.
    ///
    /// A level that `base` names is at most 125. With [`Base::AutoOr`], each paragraph of level 0 is read once more, up
    /// to the character that decides.
    pub fn analyse_with_base<D: BidiDataSource, T: TextSource>(
        &mut self,
        alloc: Global,
        data_source: &D,
        text: T,
        base: Base,
        rule: Option<SplitRule>,
        classes: &mut [BidiClass],
        levels: &mut [Level],
    ) -> Result<(), AllocError>
        requires low { HasLowLevel base }
        requires class_room { length classes.old ≡ text_len (T.text text) }
        requires level_room { length levels.old ≡ text_len (T.text text) }
        ensures analysis { OnOk result (IsAnalysisWith (D.source data_source.now) base rule
            (with_lists (T.text text) classes.new levels.new) (ranges_of (found_paragraphs self.new))
            (levels_of (found_paragraphs self.new))) }
        ensures flags { let pieces = pieces_by rule (D.source data_source.now) (T.text text).chars in
            OnOk result (found_flags self.new ≡ paragraph_flags (D.source data_source.now) pieces) }
        ensures emptied { OnErr result (found_paragraphs self.new ≡ []) }
        ensures no_flags { OnErr result (found_flags self.new ≡ []) }
    {
        prove!(base.has_low_level());
        prove!(levels.len() == text.len());
        self.find_paragraphs(alloc, data_source, text, base, rule, classes)?;
        let classified = ClassifiedText {
            data_source,
            text,
            original_classes: classes,
        };
        let found = &self.found;
        let written = write_paragraphs(
            &mut self.resolver,
            &classified,
            found.paragraphs.as_slice(),
            found.flags.as_slice(),
            levels,
        );
        if written.is_err() {
            self.found = FoundParagraphs::new(alloc);
        }
        written
    }
}

/// The analysis of a text that is one paragraph. It takes one text after another, and reuses its lists.
#[derive(Drop)]
pub struct ParagraphAnalysis {
    analyser: Analyser,
    /// The stored class of each code unit.
    pub classes: Vec<BidiClass>,
    /// The stored level of each code unit.
    pub levels: Vec<Level>,
    /// The paragraph level.
    pub level: Level,
}

impl ParagraphAnalysis {
    /// Returns the analysis of no text. Does not allocate.
    pub fn new(alloc: Global) -> ParagraphAnalysis {
        ParagraphAnalysis {
            analyser: Analyser::new(alloc),
            classes: Vec::new(alloc),
            levels: Vec::new(alloc),
            level: LTR_LEVEL,
        }
    }

    /// Finds the level of a text that is one paragraph, and the class and the level of each character (P2 to I2).
    ///
    /// `base_level` is the paragraph level, at most 125. If it is `None`, the characters decide (P2, P3). The result
    /// replaces that of the previous text. Reads the text a few times. If an allocation fails, the fields hold anything.
    pub fn find<D: BidiDataSource, T: TextSource>(
        &mut self,
        alloc: Global,
        data_source: &D,
        text: T,
        base_level: Option<Level>,
    ) -> Result<(), AllocError>
        requires { IfSome base_level (λ level. level ≤ 125) }
        ensures { OnOk result (IsAnalysis (D.source data_source.now) base_level None
            (with_lists (T.text text) self.new.classes.items self.new.levels.items) ((0, text_len (T.text text)) ∷ [])
            (self.new.level ∷ [])) }
    {
        let len = text.len();
        self.classes.resize(len, BidiClass::L)?;
        self.levels.resize(len, LTR_LEVEL)?;
        self.analyser.analyse(
            alloc,
            data_source,
            text,
            base_level,
            None,
            self.classes.as_mut_slice(),
            self.levels.as_mut_slice(),
        )?;
        self.level = self.analyser.paragraphs()[0].level();
        Ok(())
    }
}

// Finds the paragraphs of a text, which a rule splits, and the class and the level of each character. Without a rule
// the whole text is one paragraph, even if it is empty.
pub(crate) fn analyse_by<D: BidiDataSource, T: TextSource>(
    alloc: Global,
    data_source: &D,
    text: T,
    base_level: Option<Level>,
    rule: Option<SplitRule>,
) -> Result<Analysis, AllocError>
    requires { IfSome base_level (λ level. level ≤ 125) }
    ensures { IfOk result (IsFlaggedAnalysis (D.source data_source.now) base_level rule (T.text text)) }
{
    analyse_by_base(alloc, data_source, text, Base::from(base_level), rule)
}

// Like `analyse_by`, with a base.
pub(crate) fn analyse_by_base<D: BidiDataSource, T: TextSource>(
    alloc: Global,
    data_source: &D,
    text: T,
    base: Base,
    rule: Option<SplitRule>,
) -> Result<Analysis, AllocError>
    requires { HasLowLevel base }
    ensures analysis { IfOk result (λ a. IsAnalysisWith (D.source data_source.now) base rule
        (with_analysis (T.text text) a) (ranges_of (paragraphs_of_analysis a))
        (levels_of (paragraphs_of_analysis a))) }
    ensures flags { let pieces = pieces_by rule (D.source data_source.now) (T.text text).chars in
        IfOk result (λ a. flags_of_analysis a ≡ paragraph_flags (D.source data_source.now) pieces) }
{
    let mut original_classes = vec![in alloc; BidiClass::L; text.len()]?;
    let mut levels = vec![in alloc; LTR_LEVEL; text.len()]?;
    let mut analyser = Analyser::new(alloc);
    analyser.analyse_with_base(
        alloc,
        data_source,
        text,
        base,
        rule,
        original_classes.as_mut_slice(),
        levels.as_mut_slice(),
    )?;
    let found = analyser.found;
    Ok(Analysis {
        original_classes,
        levels,
        paragraphs: found.paragraphs,
        flags: found.flags,
    })
}

/// Finds the paragraphs of a text, and the class and the level of each character (P1 to I2).
///
/// `base_level` is the level of every paragraph, at most 125. If it is `None`, each paragraph gets its level from its
/// characters (P2, P3). Each FSI is resolved (X5c). With `split`, each paragraph separator ends a paragraph (P1).
/// Without it, the whole text is one paragraph, even an empty text. Reads the text a few times. The result has two
/// bytes for each code unit: its class and its level.
pub fn analyse<D: BidiDataSource, T: TextSource>(
    alloc: Global,
    data_source: &D,
    text: T,
    base_level: Option<Level>,
    split: bool,
) -> Result<Analysis, AllocError>
    requires { IfSome base_level (λ level. level ≤ 125) }
    ensures { IfOk result (λ a. IsAnalysis (D.source data_source.now) base_level (then_some split SplitRule.EachSeparator)
        (with_analysis (T.text text) a) (ranges_of (paragraphs_of_analysis a))
        (levels_of (paragraphs_of_analysis a))) }
{
    let rule = split.then_some(SplitRule::EachSeparator);
    analyse_by(alloc, data_source, text, base_level, rule)
}

/// Finds the paragraphs of a text, which end where `rule` says, and the class and the level of each character (P1 to
/// I2).
///
/// `base_level` is the level of every paragraph, at most 125. If it is `None`, each paragraph gets its level from its
/// characters (P2, P3). Each FSI is resolved (X5c). Without a rule the whole text is one paragraph, even an empty text.
/// Reads the text a few times. The result has two bytes for each code unit: its class and its level.
pub fn analyse_with_rule<D: BidiDataSource, T: TextSource>(
    alloc: Global,
    data_source: &D,
    text: T,
    base_level: Option<Level>,
    rule: Option<SplitRule>,
) -> Result<Analysis, AllocError>
    requires { IfSome base_level (λ level. level ≤ 125) }
    ensures { IfOk result (λ a. IsAnalysis (D.source data_source.now) base_level rule
        (with_analysis (T.text text) a) (ranges_of (paragraphs_of_analysis a))
        (levels_of (paragraphs_of_analysis a))) }
{
    analyse_by(alloc, data_source, text, base_level, rule)
}

/// Returns the level of each code unit of a text: after L1 in the line, and as stored in the analysis outside it.
///
/// The line is a range of code units that cuts no character (see `is_line`). `level` is the level of its paragraph. The
/// analysis must have one class and one level for each code unit of the text, equal within each character (see
/// `is_per_char`). Takes time linear in the text.
pub fn line_levels<T: TextSource>(
    alloc: Global,
    text: T,
    analysis: &Analysis,
    level: Level,
    line: Range<usize>,
) -> Result<Vec<Level>, AllocError>
    requires is_line { IsLine (T.text text) line.start line.end }
    requires classes { HaveClass (T.text text) (original_classes_of analysis.now) }
    requires levels { HaveLevel (T.text text) (stored_levels_of analysis.now) }
    ensures levels { IfOk result (λ v. AreLevelsWithLine (with_analysis (T.text text) analysis.now)
        level line v.items) }

    // The levels of the characters depend only on the classes and levels of the characters, on `level`, and on the line
    // counted in characters. So corresponding lines of two texts with the same characters have the same levels for each
    // character, and the same order.
    ensures by_characters { IfOk result (λ v. per_char 0 (T.text text) v.items
        ≡ levels_with_line_of level (per_char L (T.text text) (original_classes_of analysis.now))
        (per_char 0 (T.text text) (stored_levels_of analysis.now)) (char_index (T.text text) line.start)
        (char_index (T.text text) line.end)) }
{
    prove!(is_line(text, &line));
    levels_with_line(
        alloc,
        level,
        analysis.original_classes(),
        analysis.levels(),
        line,
    )
}
