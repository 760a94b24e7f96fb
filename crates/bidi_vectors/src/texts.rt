//! Rows of texts: stored classes, paragraphs and stored levels, by each constructor.

use bidi_base::char_data::BidiClass;
use bidi_base::data_source::TableBidiData;
use bidi_base::level::{Level, has_rtl};
use bidi_text::text::{CharsText, StrText, TextSource, Utf16Text};
use bidi_vectors_format::answer::{
    class_words, classes_in, flag_word, index_at, level_words, levels_in, paragraph_words,
    per_char, places_of, ranges_in,
};
use bidi_vectors_format::base::base_of;
use bidi_vectors_format::fault::{RowFault, Why};
use bidi_vectors_format::item::level_of;
use bidi_vectors_format::resolve;
use bidi_vectors_format::row::Row;
use bidi_vectors_format::source::Tables;
use bidi_vectors_format::tally::Tally;
use bidi_vectors_format::text::RowText;
use std::alloc::Global;
use std::ops::Range;
use unicode_bidi::engine::{Analyser, Analysis, ParagraphAnalysis, analyse, analyse_with_rule};
use unicode_bidi::{
    BidiInfo, InitialInfo, ParagraphBidiInfo, ParagraphInfo, SplitRule, info, utf16,
};

// A text without its levels: the class of each code unit, and the paragraphs.
#[derive(Clone, Copy)]
struct Found<'a, T: TextSource> {
    text: T,
    classes: &'a [BidiClass],
    paragraphs: &'a [ParagraphInfo],
}

impl<T: TextSource> Found<'_, T> {
    // Compares this with a row.
    fn check(&self, case: &Case<'_>, tally: &mut Tally, call: &'static str) {
        let (alloc, row) = (case.alloc, case.row);
        let words = classes_in(alloc, self.text, self.classes);
        tally.agree(row, "classes", call, words);
        let words = paragraphs_in(alloc, self.text, self.paragraphs);
        tally.agree(row, "paragraphs", call, words);
    }
}

// Converts the paragraphs of a text to characters.
fn paragraphs_in<T: TextSource>(
    alloc: Global,
    text: T,
    paragraphs: &[ParagraphInfo],
) -> Result<String, RowFault> {
    let places = places_of(alloc, text)?;
    let mut found = Vec::new(alloc);
    for paragraph in paragraphs {
        let range = paragraph.range();
        let start = index_at(places.as_slice(), range.start);
        let end = index_at(places.as_slice(), range.end);
        found.push((start, end, paragraph.level().number()))?;
    }
    paragraph_words(alloc, found.as_slice())
}

// Where a paragraph ends: after each separator, after each one except a CR before LF, or only at the text's end.
#[derive(Clone, Copy)]
enum Split {
    EachSeparator,
    CrLfTogether,
    Whole,
}

impl Split {
    fn of_row(row: &Row<'_>) -> Result<Split, RowFault> {
        let Some(field) = row.get("split") else {
            return Ok(Split::EachSeparator);
        };
        match field.value {
            "each-separator" => Ok(Split::EachSeparator),
            "cr-lf-together" => Ok(Split::CrLfTogether),
            "whole" => Ok(Split::Whole),
            _ => Err(RowFault::Line(field.line, Why::Split)),
        }
    }

    fn rule(self) -> Option<SplitRule> {
        match self {
            Split::EachSeparator => Some(SplitRule::EachSeparator),
            Split::CrLfTogether => Some(SplitRule::CrLfTogether),
            Split::Whole => None,
        }
    }
}

// A row of a text: its source, and how it is split into paragraphs.
#[derive(Clone, Copy)]
struct Case<'r> {
    alloc: Global,
    row: &'r Row<'r>,
    source: &'r TableBidiData<'r>,
    split: Split,
}

// Compares what a constructor found, without its levels, with a row.
macro_rules! check_found {
    ($case:expr, $tally:expr, $call:expr, $text:expr, $info:expr) => {
        Found {
            text: $text,
            classes: $info.original_classes(),
            paragraphs: $info.paragraphs(),
        }
        .check($case, $tally, $call)
    };
}

// Compares what a constructor found, with its levels, with a row.
macro_rules! check_info {
    ($case:expr, $tally:expr, $call:expr, $text:expr, $info:expr) => {{
        check_found!($case, $tally, $call, $text, $info);
        $case.check_levels($text, $info.levels(), $tally, $call);
    }};
}

impl Case<'_> {
    // Compares the levels that a call returns, one for each code unit of the text, with the row.
    fn check_levels<T: TextSource>(
        &self,
        text: T,
        levels: &[Level],
        tally: &mut Tally,
        call: &'static str,
    ) {
        let words = levels_in(self.alloc, text, levels);
        tally.agree(self.row, "levels", call, words);
    }

    // Compares what the engine finds of a text in some encoding with the row.
    fn check_analysis<T: TextSource>(
        &self,
        text: T,
        analysis: &Analysis,
        tally: &mut Tally,
        call: &'static str,
    ) {
        check_info!(self, tally, call, text, analysis);
    }

    // Compares what the engine finds of a text that it splits by the row's rule with the row.
    fn check_split<T: TextSource>(&self, text: T, tally: &mut Tally) -> Result<(), RowFault> {
        let (base, rule) = (base_of(self.row)?, self.split.rule());
        let analysis = analyse_with_rule(self.alloc, self.source, text, base, rule)?;
        self.check_analysis(text, &analysis, tally, "engine::analyse_with_rule");
        Ok(())
    }

    // Compares what the engine finds of a text that it splits after each separator, or not at all, with the row.
    fn check_split_or_whole<T: TextSource>(
        &self,
        text: T,
        split: bool,
        tally: &mut Tally,
    ) -> Result<(), RowFault> {
        let base = base_of(self.row)?;
        let analysis = analyse(self.alloc, self.source, text, base, split)?;
        self.check_analysis(text, &analysis, tally, "engine::analyse");
        Ok(())
    }

    // Tests the engine's calls on a text in some encoding.
    fn check_engine<T: TextSource>(&self, text: T, tally: &mut Tally) -> Result<(), RowFault> {
        self.check_split(text, tally)?;
        self.check_analyser(text, tally)?;
        match self.split {
            Split::EachSeparator => self.check_split_or_whole(text, true, tally),
            Split::CrLfTogether => Ok(()),
            Split::Whole => {
                self.check_split_or_whole(text, false, tally)?;
                self.check_paragraph(text, tally)
            }
        }
    }

    // Compares what an analyser writes to the caller's lists with the row, when it reads the text for the second time.
    fn check_analyser<T: TextSource>(&self, text: T, tally: &mut Tally) -> Result<(), RowFault> {
        let (alloc, base, rule) = (self.alloc, base_of(self.row)?, self.split.rule());
        let mut classes = vec![in alloc; BidiClass::B; text.len()]?;
        let mut levels = vec![in alloc; Level::rtl(); text.len()]?;
        let (own_classes, own_levels) = (classes.as_mut_slice(), levels.as_mut_slice());
        let mut analyser = Analyser::new(alloc);
        analyser.analyse(
            alloc,
            self.source,
            text,
            base,
            rule,
            own_classes,
            own_levels,
        )?;
        analyser.analyse(
            alloc,
            self.source,
            text,
            base,
            rule,
            own_classes,
            own_levels,
        )?;
        let call = "Analyser::analyse";
        Found {
            text,
            classes: own_classes,
            paragraphs: analyser.paragraphs(),
        }
        .check(self, tally, call);
        self.check_levels(text, own_levels, tally, call);
        Ok(())
    }

    // Compares what is found of a text that is one paragraph with the row, when it is analysed after another text.
    fn check_paragraph<T: TextSource>(&self, text: T, tally: &mut Tally) -> Result<(), RowFault> {
        let (alloc, base) = (self.alloc, base_of(self.row)?);
        let mut analysis = ParagraphAnalysis::new(alloc);
        analysis.find(alloc, self.source, StrText::new("\u{5D0}(a"), base)?;
        analysis.find(alloc, self.source, text, base)?;
        let whole = whole_of(text.len(), analysis.level);
        let call = "ParagraphAnalysis::find";
        Found {
            text,
            classes: analysis.classes.as_slice(),
            paragraphs: whole.as_slice(),
        }
        .check(self, tally, call);
        self.check_levels(text, analysis.levels.as_slice(), tally, call);
        Ok(())
    }

    // Compares what a constructor found of a text in some encoding with the row.
    fn check_info<T: TextSource>(
        &self,
        info: &info::BidiInfo<T>,
        tally: &mut Tally,
        call: &'static str,
    ) {
        check_info!(self, tally, call, info.text_source(), info);
    }

    // Compares what the calls for one paragraph return with the row.
    fn check_each_paragraph<T: TextSource>(
        &self,
        info: &info::BidiInfo<T>,
        tally: &mut Tally,
    ) -> Result<(), RowFault> {
        let (alloc, text) = (self.alloc, info.text_source());
        let contents = contents_of(alloc, info)?;
        let words = ranges_in(alloc, text, contents.as_slice());
        tally.agree(self.row, "content", "BidiInfo::content", words);
        let word = flag_word(are_found(info));
        tally.same_word(self.row, "BidiInfo::paragraph_at", "yes", word);
        Ok(())
    }

    // Tests the constructors over UTF-8 that split a text into paragraphs by a rule.
    fn check_rule(&self, text: &str, rule: SplitRule, tally: &mut Tally) -> Result<(), RowFault> {
        let base = base_of(self.row)?;
        let info = BidiInfo::new_with_rule(self.alloc, self.source, text, base, rule)?;
        self.check_info(&info, tally, "BidiInfo::new_with_rule");
        self.check_each_paragraph(&info, tally)
    }

    // Tests the constructors over UTF-8 that split a text after each separator.
    fn check_utf8(&self, text: &str, tally: &mut Tally) -> Result<(), RowFault> {
        let (alloc, source) = (self.alloc, self.source);
        let info = BidiInfo::new_with_data_source(alloc, source, text, base_of(self.row)?)?;
        self.check_info(&info, tally, "BidiInfo::new_with_data_source");
        self.check_rtl(tally, info.levels(), info.has_rtl());
        Ok(())
    }

    // Tests the constructors over UTF-8 that find no levels.
    fn check_initial(&self, text: &str, tally: &mut Tally) -> Result<(), RowFault> {
        let (base, units) = (base_of(self.row)?, StrText::new(text));
        let info = InitialInfo::new_with_data_source(self.alloc, self.source, text, base)?;
        let call = "InitialInfo::new_with_data_source";
        check_found!(self, tally, call, units, info);
        Ok(())
    }

    // Tests the constructors over UTF-16 that split a text into paragraphs by a rule.
    fn check_rule16(
        &self,
        text: &[u16],
        rule: SplitRule,
        tally: &mut Tally,
    ) -> Result<(), RowFault> {
        let base = base_of(self.row)?;
        let info = utf16::BidiInfo::new_with_rule(self.alloc, self.source, text, base, rule)?;
        self.check_info(&info, tally, "utf16::BidiInfo::new_with_rule");
        self.check_each_paragraph(&info, tally)
    }

    fn check_utf16(&self, text: &[u16], tally: &mut Tally) -> Result<(), RowFault> {
        let (alloc, source, base) = (self.alloc, self.source, base_of(self.row)?);
        let info = utf16::BidiInfo::new_with_data_source(alloc, source, text, base)?;
        self.check_info(&info, tally, "utf16::BidiInfo::new_with_data_source");
        self.check_rtl(tally, info.levels(), info.has_rtl());
        Ok(())
    }

    fn check_initial16(&self, text: &[u16], tally: &mut Tally) -> Result<(), RowFault> {
        let (base, units) = (base_of(self.row)?, Utf16Text::new(text));
        let info = utf16::InitialInfo::new_with_data_source(self.alloc, self.source, text, base)?;
        let call = "utf16::InitialInfo::new_with_data_source";
        check_found!(self, tally, call, units, info);
        Ok(())
    }

    // Compares what a constructor found of a text that is one paragraph, in some encoding, with the row.
    fn check_whole<T: TextSource>(
        &self,
        info: &info::ParagraphBidiInfo<T>,
        tally: &mut Tally,
        call: &'static str,
    ) {
        let text = info.text_source();
        let whole = whole_of(text.len(), info.paragraph_level());
        Found {
            text,
            classes: info.original_classes(),
            paragraphs: whole.as_slice(),
        }
        .check(self, tally, call);
        self.check_levels(text, info.levels(), tally, call);
        self.check_rtl(tally, info.levels(), info.has_rtl());
    }

    // Tests the constructors that take a text of UTF-8 as one paragraph.
    fn check_whole_utf8(&self, text: &str, tally: &mut Tally) -> Result<(), RowFault> {
        let (alloc, source, base) = (self.alloc, self.source, base_of(self.row)?);
        let info = ParagraphBidiInfo::new_with_data_source(alloc, source, text, base)?;
        self.check_whole(&info, tally, "ParagraphBidiInfo::new_with_data_source");
        Ok(())
    }

    fn check_whole_utf16(&self, text: &[u16], tally: &mut Tally) -> Result<(), RowFault> {
        let (alloc, source, base) = (self.alloc, self.source, base_of(self.row)?);
        let info = utf16::ParagraphBidiInfo::new_with_data_source(alloc, source, text, base)?;
        self.check_whole(
            &info,
            tally,
            "utf16::ParagraphBidiInfo::new_with_data_source",
        );
        Ok(())
    }

    // Compares the result of `has_rtl` with the levels.
    fn check_rtl(&self, tally: &mut Tally, levels: &[Level], came: bool) {
        let wanted = flag_word(has_rtl(levels));
        tally.same_word(self.row, "has_rtl", wanted, flag_word(came));
    }

    // Tests the constructors that split a text by the row's rule, if it has one, in both encodings.
    fn check_rules_of(&self, text: &RowText, tally: &mut Tally) -> Result<(), RowFault> {
        let Some(rule) = self.split.rule() else {
            return Ok(());
        };
        self.check_rule(text.utf8.as_str(), rule, tally)?;
        self.check_rule16(text.utf16.as_slice(), rule, tally)
    }

    // Tests the constructors that split a text after each separator, in both encodings.
    fn check_each_separator(&self, text: &RowText, tally: &mut Tally) -> Result<(), RowFault> {
        let (utf8, utf16) = (text.utf8.as_str(), text.utf16.as_slice());
        self.check_utf8(utf8, tally)?;
        self.check_initial(utf8, tally)?;
        self.check_utf16(utf16, tally)?;
        self.check_initial16(utf16, tally)
    }

    // Tests the constructors of a text in both encodings.
    fn check_infos(&self, text: &RowText, tally: &mut Tally) -> Result<(), RowFault> {
        self.check_rules_of(text, tally)?;
        if matches!(self.split, Split::EachSeparator) {
            self.check_each_separator(text, tally)?;
        }
        if matches!(self.split, Split::Whole) || has_one_paragraph(self.row) {
            self.check_whole_utf8(text.utf8.as_str(), tally)?;
            self.check_whole_utf16(text.utf16.as_slice(), tally)?;
        }
        Ok(())
    }

    // Tests the rules over lists on a text that is not too long for them.
    fn check_rules(&self, chars: &[char], tally: &mut Tally) -> Result<(), RowFault> {
        if matches!(self.split, Split::CrLfTogether) || chars.len() > 1000 {
            return Ok(());
        }
        let is_cut = matches!(self.split, Split::EachSeparator);
        let number = base_of(self.row)?.map(|level| level.number());
        let (classes, levels) = resolve(self.alloc, self.source, chars, number, is_cut)?;
        let words = class_words(self.alloc, classes.as_slice());
        tally.agree(self.row, "classes", "the rules over lists", words);
        let words = level_words(self.alloc, levels.as_slice());
        tally.agree(self.row, "levels", "the rules over lists", words);
        Ok(())
    }

    // Inserts U+00AD into a text, and returns the levels of the other characters as text.
    fn levels_around(&self, chars: &[char], index: usize) -> Result<String, RowFault> {
        let alloc = self.alloc;
        let longer = with_soft_hyphen(alloc, chars, index)?;
        let text = longer.as_str();
        let info = BidiInfo::new_with_data_source(alloc, self.source, text, base_of(self.row)?)?;
        let levels = per_char(alloc, StrText::new(text), info.levels())?;
        let others = without(alloc, levels.as_slice(), index)?;
        level_words(alloc, others.as_slice())
    }

    // Tests that U+00AD changes no other level of a short text over the sample, at any index.
    fn check_soft_hyphens(&self, chars: &[char], tally: &mut Tally) {
        if !matches!(self.split, Split::EachSeparator)
            || self.row.get("source").is_some()
            || chars.len() > 20
        {
            return;
        }
        for index in 0..=chars.len() {
            let words = self.levels_around(chars, index);
            tally.agree(self.row, "levels", "U+00AD anywhere", words);
        }
    }
}

// Returns the ranges of the paragraphs of a text, without separators.
fn contents_of<T: TextSource>(
    alloc: Global,
    info: &info::BidiInfo<T>,
) -> Result<Vec<Range<usize>>, RowFault> {
    let mut contents = Vec::new(alloc);
    for paragraph in info.paragraphs() {
        contents.push(info.content(paragraph))?;
    }
    Ok(contents)
}

// Returns whether `paragraph_at` returns a paragraph for each of its code units.
fn is_found<T: TextSource>(info: &info::BidiInfo<T>, paragraph: &ParagraphInfo) -> bool {
    for unit in paragraph.range() {
        match info.paragraph_at(unit) {
            Some(found) if *found == *paragraph => {}
            _ => return false,
        }
    }
    true
}

// Returns whether `paragraph_at` returns each paragraph for its code units, and none at the text's end.
fn are_found<T: TextSource>(info: &info::BidiInfo<T>) -> bool {
    for paragraph in info.paragraphs() {
        if !is_found(info, paragraph) {
            return false;
        }
    }
    info.paragraph_at(info.levels().len()).is_none()
}

// Returns the one paragraph of a text, if the text is not empty.
fn whole_of(len: usize, level: Level) -> Option<ParagraphInfo> {
    if len == 0 {
        return None;
    }
    ParagraphInfo::new(0..len, level)
}

// Returns the text with U+00AD before the character at an index, or at the end.
fn with_soft_hyphen(alloc: Global, chars: &[char], index: usize) -> Result<String, RowFault> {
    let mut longer = String::new(alloc);
    for (at, c) in chars.iter().enumerate() {
        if at == index {
            longer.push('\u{AD}')?;
        }
        longer.push(*c)?;
    }
    if index >= chars.len() {
        longer.push('\u{AD}')?;
    }
    Ok(longer)
}

// Returns the levels except the one at an index.
fn without(alloc: Global, levels: &[Level], index: usize) -> Result<Vec<Level>, RowFault> {
    let mut others = Vec::new(alloc);
    for (at, level) in levels.iter().enumerate() {
        if at != index {
            others.push(*level)?;
        }
    }
    Ok(others)
}

/// Runs a row of a text: what each constructor finds in each encoding, and the rules over lists.
pub fn run(
    alloc: Global,
    tables: &Tables,
    row: &Row<'_>,
    tally: &mut Tally,
) -> Result<(), RowFault> {
    row.has_only(&[
        "text",
        "types",
        "source",
        "base",
        "split",
        "classes",
        "paragraphs",
        "content",
        "levels",
    ])?;
    let source = tables.source(row.line)?;
    let text = RowText::of_row(alloc, row)?;
    let case = Case {
        alloc,
        row,
        source: &source,
        split: Split::of_row(row)?,
    };
    let chars = text.chars.as_slice();
    case.check_engine(CharsText::new(chars), tally)?;
    case.check_engine(StrText::new(text.utf8.as_str()), tally)?;
    case.check_engine(Utf16Text::new(text.utf16.as_slice()), tally)?;
    case.check_infos(&text, tally)?;
    case.check_soft_hyphens(chars, tally);
    case.check_rules(chars, tally)
}

// Returns whether a row says that its text is one paragraph, or none.
fn has_one_paragraph(row: &Row<'_>) -> bool {
    match row.get("paragraphs") {
        Some(field) => !field.value.contains(" "),
        None => false,
    }
}

// Returns the base level of a row, which may be above 125.
fn any_base_of(row: &Row<'_>) -> Result<Option<Level>, RowFault> {
    let field = row.field("base")?;
    match field.value {
        "auto" => Ok(None),
        number => Ok(Some(level_of(number, field.line)?)),
    }
}

/// Runs a row that only the constructor without levels accepts: a base level above 125, or a very long text.
pub fn run_initial(
    alloc: Global,
    tables: &Tables,
    row: &Row<'_>,
    tally: &mut Tally,
) -> Result<(), RowFault> {
    row.has_only(&["text", "source", "base", "classes", "paragraphs"])?;
    let source = tables.source(row.line)?;
    let text = RowText::of_row(alloc, row)?;
    let case = Case {
        alloc,
        row,
        source: &source,
        split: Split::EachSeparator,
    };
    let (units, base) = (StrText::new(text.utf8.as_str()), any_base_of(row)?);
    let info = InitialInfo::new_with_data_source(alloc, &source, text.utf8.as_str(), base)?;
    let call = "InitialInfo::new_with_data_source";
    check_found!(&case, tally, call, units, info);
    Ok(())
}
