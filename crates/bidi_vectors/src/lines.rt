//! Rows of lines: levels after L1, visual runs, and the text from left to right (L2).

ghost use Rattle.std.specs.Prelude.{IfOk};
ghost use Rattle.bidi_base.specs.Texts.{IsLine};
ghost use Rattle.unicode_bidi.specs.BidiInfo.{text_source as text_of_info};
ghost use Rattle.unicode_bidi.specs.ParagraphBidiInfo.{text_source as text_of_paragraph};

use bidi_base::char_data::BidiClass;
use bidi_base::data_source::TableBidiData;
use bidi_base::level::Level;
use bidi_lines::shown_line::ShownLine;
use bidi_text::text::{CharsText, StrText, TextSource, Utf16Text, is_line, is_per_char};
use bidi_vectors_format::answer::{
    char_words, flag_word, level_words, levels_in, places_of, ranges_in, unit_words,
};
use bidi_vectors_format::base::base_of;
use bidi_vectors_format::fault::{RowFault, Why};
use bidi_vectors_format::item::{level_of, range_of};
use bidi_vectors_format::row::Row;
use bidi_vectors_format::source::Tables;
use bidi_vectors_format::tally::Tally;
use bidi_vectors_format::text::RowText;
use std::alloc::{AllocError, Global};
use std::borrow::{CowSlice, CowStr};
use std::ops::Range;
use unicode_bidi::engine::{Analysis, analyse, line_levels};
use unicode_bidi::stored_line::reorder_utf8;
use unicode_bidi::visual_run::{RunText, VisualRun};
use unicode_bidi::{BidiInfo, ParagraphBidiInfo, ParagraphInfo, SplitRule, info, utf16};

const NO_LINE: RowFault = RowFault::Line(0, Why::Line);

// Returns the levels of a line as text, given those of the whole text.
fn levels_between(
    alloc: Global,
    levels: &[Level],
    line: (usize, usize),
) -> Result<String, RowFault> {
    level_words(alloc, levels.get(line.0..line.1).unwrap_or(&[]))
}

// Returns runs as text, given those that have levels.
fn leveled_words<T: TextSource>(
    alloc: Global,
    text: T,
    runs: &[VisualRun],
) -> Result<String, RowFault> {
    let mut ranges = Vec::new(alloc);
    for run in runs {
        ranges.push(run.range.start..run.range.end)?;
    }
    ranges_in(alloc, text, ranges.as_slice())
}

// Returns the levels of runs as text: their own ones.
fn own_levels(alloc: Global, runs: &[VisualRun]) -> Result<String, RowFault> {
    let mut levels = Vec::new(alloc);
    for run in runs {
        levels.push(run.level)?;
    }
    level_words(alloc, levels.as_slice())
}

// Returns the levels of runs as text: those of their first code units, given the levels of the whole text.
fn first_levels(alloc: Global, runs: &[VisualRun], all: &[Level]) -> Result<String, RowFault> {
    let mut levels = Vec::new(alloc);
    for run in runs {
        levels.push(all.get(run.range.start).copied().ok_or(NO_LINE)?)?;
    }
    level_words(alloc, levels.as_slice())
}

// Returns the characters of a run from left to right.
fn shown_chars<T: TextSource>(alloc: Global, run: &RunText<T>) -> Result<Vec<char>, RowFault> {
    let mut chars: Vec<char> = run.text.chars().collect(alloc)?;
    if run.run.level.is_rtl() {
        chars.as_mut_slice().reverse();
    }
    Ok(chars)
}

// Returns the characters of a line from left to right as text, given its runs with their texts.
fn shown_words<T: TextSource>(alloc: Global, runs: &[RunText<T>]) -> Result<String, RowFault> {
    let mut shown = Vec::new(alloc);
    for run in runs {
        let chars = shown_chars(alloc, run)?;
        shown.extend_from_slice(chars.as_slice())?;
    }
    char_words(alloc, shown.as_slice())
}

// What the calls on a line return: the levels of all code units and of all characters of the text, the line's runs, and
// the levels of the line's code units and characters.
#[derive(Drop)]
struct Answers {
    levels: Vec<Level>,
    levels_per_char: Vec<Level>,
    runs: Vec<Range<usize>>,
    line_levels: Vec<Level>,
    line_levels_per_char: Vec<Level>,
}

// Makes the calls on a line.
macro_rules! answers_on {
    ($alloc:expr, $info:expr, $line:expr $(, $para:expr)?) => {{
        let (alloc, (start, end)) = ($alloc, $line);
        Ok(Answers {
            levels: $info.reordered_levels(alloc, $($para,)? start..end)?,
            levels_per_char: $info.reordered_levels_per_char(alloc, $($para,)? start..end)?,
            runs: $info.line_runs(alloc, $($para,)? start..end)?,
            line_levels: $info.levels_of_line(alloc, $($para,)? start..end)?,
            line_levels_per_char: $info.levels_of_line_per_char(alloc, $($para,)? start..end)?,
        })
    }};
}

fn answers_of_info<T: TextSource>(
    alloc: Global,
    info: &info::BidiInfo<T>,
    para: &ParagraphInfo,
    line: (usize, usize),
) -> Result<Answers, AllocError>
    requires { IsLine (T.text (text_of_info info.now)) line.0 line.1 }
{
    answers_on!(alloc, info, line, para)
}

fn answers_of_paragraph<T: TextSource>(
    alloc: Global,
    info: &info::ParagraphBidiInfo<T>,
    line: (usize, usize),
) -> Result<Answers, AllocError>
    requires { IsLine (T.text (text_of_paragraph info.now)) line.0 line.1 }
{
    answers_on!(alloc, info, line)
}

// Compares the levels and the runs of a line. `visual_runs` requires a line that is not empty.
macro_rules! check_visual {
    ($case:expr, $tally:expr, $info:expr, $line:expr $(, $para:expr)?) => {{
        let (start, end) = $line;
        if start < end {
            let (levels, runs) = $info.visual_runs($case.alloc, $($para,)? start..end)?;
            $case.check_visual($info.text_source(), levels.as_slice(), runs.as_slice(), $tally);
        }
        Ok(())
    }};
}

// Compares the runs of a line, with their levels and with their texts, and the runs in the order of the text.
macro_rules! check_runs {
    ($case:expr, $tally:expr, $info:expr, $line:expr, $levels:expr $(, $para:expr)?) => {{
        let (alloc, (start, end)) = ($case.alloc, $line);
        let runs = $info.runs_with_levels(alloc, $($para,)? start..end)?;
        $case.check_leveled($info.text_source(), runs.as_slice(), $levels, $tally);
        let texts = $info.run_texts(alloc, $($para,)? start..end)?;
        $case.check_texts(texts.as_slice(), $tally);
        let runs = $info.logical_runs(alloc, start..end)?;
        $case.check_logical($info.text_source(), runs.as_slice(), $tally);
        Ok(())
    }};
}

// Compares a line of UTF-8 from left to right with a row: its characters, and whether it is borrowed.
fn check_str(
    alloc: Global,
    row: &Row<'_>,
    tally: &mut Tally,
    line: Result<CowStr<'_>, AllocError>,
) {
    match line {
        Ok(line) => {
            let is_borrowed = matches!(line, CowStr::Borrowed(_));
            tally.agree(row, "shown", "reorder_line", str_words(alloc, &line));
            let word = flag_word(is_borrowed);
            tally.agree_word(row, "borrowed", "reorder_line: borrowed", word);
        }
        Err(_) => tally.refuse(RowFault::Memory),
    }
}

fn str_words(alloc: Global, line: &CowStr<'_>) -> Result<String, RowFault> {
    let chars: Vec<char> = line.as_str().chars().collect(alloc)?;
    char_words(alloc, chars.as_slice())
}

// Compares a line of UTF-16 from left to right with a row: its characters, and whether it is borrowed.
fn check_slice(
    alloc: Global,
    row: &Row<'_>,
    tally: &mut Tally,
    line: Result<CowSlice<'_, u16>, AllocError>,
) {
    match line {
        Ok(line) => {
            let is_borrowed = matches!(line, CowSlice::Borrowed(_));
            tally.agree(
                row,
                "shown",
                "reorder_line",
                unit_words(alloc, line.as_slice()),
            );
            let word = flag_word(is_borrowed);
            tally.agree_word(row, "borrowed", "reorder_line: borrowed", word);
        }
        Err(_) => tally.refuse(RowFault::Memory),
    }
}

// Returns a line from left to right, given its text, and the classes and levels of its bytes.
fn kept_words(
    alloc: Global,
    text: &str,
    classes: &[BidiClass],
    levels: &[Level],
    level: Level,
) -> Result<String, RowFault> {
    let line = StrText::new(text);
    if !is_per_char(line, classes) || !is_per_char(line, levels) {
        return Err(NO_LINE);
    }
    let classes = Vec::from_slice(alloc, classes)?;
    let levels = Vec::from_slice(alloc, levels)?;
    let shown = reorder_utf8(alloc, text, classes, levels, level)?;
    str_words(alloc, &shown)
}

// Returns a line from left to right, given the text that it is in.
fn words_of_kept_line(
    alloc: Global,
    info: &BidiInfo<'_>,
    line: (usize, usize),
    level: Level,
) -> Result<String, RowFault> {
    let text = info.text().get(line.0..line.1);
    let classes = info.original_classes().get(line.0..line.1);
    let levels = info.levels().get(line.0..line.1);
    match (text, classes, levels) {
        (Some(text), Some(classes), Some(levels)) => {
            kept_words(alloc, text, classes, levels, level)
        }
        _ => Err(NO_LINE),
    }
}

// A row of a line: the line in characters, and the level of the paragraph if the row has one.
#[derive(Drop)]
struct Case<'r> {
    alloc: Global,
    row: &'r Row<'r>,
    source: &'r TableBidiData<'r>,
    line: (usize, usize),
    own_level: Option<Level>,
    // Whether the text has no lone surrogate.
    is_unicode: bool,
}

impl Case<'_> {
    // Returns the line in code units of a text.
    fn units<T: TextSource>(&self, text: T) -> Result<(usize, usize), RowFault>
        ensures { IfOk result (λ line. IsLine (T.text text) line.0 line.1) }
    {
        let places = places_of(self.alloc, text)?;
        let start = places.get(self.line.0).copied().ok_or(NO_LINE)?;
        let end = places.get(self.line.1).copied().ok_or(NO_LINE)?;
        if is_line(text, &(start..end)) {
            Ok((start, end))
        } else {
            Err(NO_LINE)
        }
    }

    // Returns the paragraph to pass with the line: the first one, or one with the row's level.
    fn paragraph(&self, paragraphs: &[ParagraphInfo]) -> Result<ParagraphInfo, RowFault> {
        let Some(first) = paragraphs.first() else {
            return Err(NO_LINE);
        };
        let level = self.own_level.unwrap_or(first.level());
        ParagraphInfo::new(first.range(), level).ok_or(NO_LINE)
    }

    // Compares the levels of a line and its runs with the row.
    fn check_answers<T: TextSource>(
        &self,
        text: T,
        line: (usize, usize),
        answers: &Answers,
        tally: &mut Tally,
    ) {
        let (alloc, row) = (self.alloc, self.row);
        let words = levels_in(alloc, text, answers.levels.as_slice());
        tally.agree(row, "after", "reordered_levels", words);
        let words = level_words(alloc, answers.levels_per_char.as_slice());
        tally.agree(row, "after", "reordered_levels_per_char", words);
        let words = ranges_in(alloc, text, answers.runs.as_slice());
        tally.agree(row, "runs", "line_runs", words);
        let wanted = levels_between(alloc, answers.levels.as_slice(), line);
        let came = level_words(alloc, answers.line_levels.as_slice());
        tally.same(row, "line_levels", wanted, came);
        let wanted = levels_between(alloc, answers.levels_per_char.as_slice(), self.line);
        let came = level_words(alloc, answers.line_levels_per_char.as_slice());
        tally.same(row, "levels_of_line_per_char", wanted, came);
    }

    // Compares the levels and the runs of a line that is not empty with the row.
    fn check_visual<T: TextSource>(
        &self,
        text: T,
        levels: &[Level],
        runs: &[Range<usize>],
        tally: &mut Tally,
    ) {
        let words = levels_in(self.alloc, text, levels);
        tally.agree(self.row, "after", "visual_runs: levels", words);
        let words = ranges_in(self.alloc, text, runs);
        tally.agree(self.row, "runs", "visual_runs", words);
    }

    // Compares the runs of a line that have levels with the row, given the levels of the whole text.
    fn check_leveled<T: TextSource>(
        &self,
        text: T,
        runs: &[VisualRun],
        levels: &[Level],
        tally: &mut Tally,
    ) {
        let (alloc, row) = (self.alloc, self.row);
        let words = leveled_words(alloc, text, runs);
        tally.agree(row, "runs", "runs_with_levels", words);
        let wanted = first_levels(alloc, runs, levels);
        let came = own_levels(alloc, runs);
        tally.same(row, "runs_with_levels: levels", wanted, came);
    }

    // Compares the runs of a line that have texts with the row.
    fn check_texts<T: TextSource>(&self, runs: &[RunText<T>], tally: &mut Tally) {
        if self.is_unicode {
            let words = shown_words(self.alloc, runs);
            tally.agree(self.row, "shown", "run_texts", words);
        }
    }

    // Compares the runs of a line in the order of the text with the row.
    fn check_logical<T: TextSource>(&self, text: T, runs: &[Range<usize>], tally: &mut Tally) {
        let words = ranges_in(self.alloc, text, runs);
        tally.agree(self.row, "logical", "logical_runs", words);
    }

    fn check_visual_of_info<T: TextSource>(
        &self,
        info: &info::BidiInfo<T>,
        para: &ParagraphInfo,
        line: (usize, usize),
        tally: &mut Tally,
    ) -> Result<(), RowFault>
        requires { IsLine (T.text (text_of_info info.now)) line.0 line.1 }
    {
        check_visual!(self, tally, info, line, para)
    }

    fn check_visual_of_paragraph<T: TextSource>(
        &self,
        info: &info::ParagraphBidiInfo<T>,
        line: (usize, usize),
        tally: &mut Tally,
    ) -> Result<(), RowFault>
        requires { IsLine (T.text (text_of_paragraph info.now)) line.0 line.1 }
    {
        check_visual!(self, tally, info, line)
    }

    fn check_runs_of_info<T: TextSource>(
        &self,
        info: &info::BidiInfo<T>,
        para: &ParagraphInfo,
        line: (usize, usize),
        levels: &[Level],
        tally: &mut Tally,
    ) -> Result<(), RowFault>
        requires { IsLine (T.text (text_of_info info.now)) line.0 line.1 }
    {
        check_runs!(self, tally, info, line, levels, para)
    }

    fn check_runs_of_paragraph<T: TextSource>(
        &self,
        info: &info::ParagraphBidiInfo<T>,
        line: (usize, usize),
        levels: &[Level],
        tally: &mut Tally,
    ) -> Result<(), RowFault>
        requires { IsLine (T.text (text_of_paragraph info.now)) line.0 line.1 }
    {
        check_runs!(self, tally, info, line, levels)
    }

    // Tests the line of a text that may have several paragraphs, in any encoding.
    fn check_info<T: TextSource>(
        &self,
        info: &info::BidiInfo<T>,
        tally: &mut Tally,
    ) -> Result<(), RowFault> {
        let (alloc, text) = (self.alloc, info.text_source());
        let line = self.units(text)?;
        let para = self.paragraph(info.paragraphs())?;
        let levels = levels_in(alloc, text, info.levels());
        tally.agree(self.row, "levels", "BidiInfo::levels", levels);
        let answers = answers_of_info(alloc, info, &para, line)?;
        self.check_answers(text, line, &answers, tally);
        self.check_visual_of_info(info, &para, line, tally)?;
        self.check_runs_of_info(info, &para, line, answers.levels.as_slice(), tally)
    }

    // Tests the line of a text that is one paragraph, in any encoding, with the level of that paragraph.
    fn check_paragraph<T: TextSource>(
        &self,
        info: &info::ParagraphBidiInfo<T>,
        tally: &mut Tally,
    ) -> Result<(), RowFault> {
        let (alloc, text) = (self.alloc, info.text_source());
        let line = self.units(text)?;
        let answers = answers_of_paragraph(alloc, info, line)?;
        self.check_answers(text, line, &answers, tally);
        self.check_visual_of_paragraph(info, line, tally)?;
        self.check_runs_of_paragraph(info, line, answers.levels.as_slice(), tally)
    }

    // Tests the line of a text of UTF-8 from left to right.
    fn check_utf8(&self, info: &BidiInfo<'_>, tally: &mut Tally) -> Result<(), RowFault> {
        let (alloc, row) = (self.alloc, self.row);
        let (start, end) = self.units(StrText::new(info.text()))?;
        let para = self.paragraph(info.paragraphs())?;
        let line = info.reorder_line(alloc, &para, start..end);
        check_str(alloc, row, tally, line);
        let kept = words_of_kept_line(alloc, info, (start, end), para.level());
        tally.agree(row, "shown", "stored_line::reorder_utf8", kept);
        Ok(())
    }

    // Tests the line of a text of UTF-16 from left to right.
    fn check_utf16(&self, info: &utf16::BidiInfo<'_>, tally: &mut Tally) -> Result<(), RowFault> {
        let (alloc, row) = (self.alloc, self.row);
        let (start, end) = self.units(Utf16Text::new(info.text()))?;
        let para = self.paragraph(info.paragraphs())?;
        let line = info.reorder_line(alloc, &para, start..end);
        check_slice(alloc, row, tally, line);
        Ok(())
    }

    // Tests the line of a text that is one paragraph of UTF-8.
    fn check_paragraph_utf8(&self, text: &str, tally: &mut Tally) -> Result<(), RowFault> {
        let (alloc, source, base) = (self.alloc, self.source, base_of(self.row)?);
        let info = ParagraphBidiInfo::new_with_data_source(alloc, source, text, base)?;
        self.check_paragraph(&info, tally)?;
        let (start, end) = self.units(StrText::new(text))?;
        check_str(alloc, self.row, tally, info.reorder_line(alloc, start..end));
        Ok(())
    }

    // Tests the line of a text that is one paragraph of UTF-16.
    fn check_paragraph_utf16(&self, text: &[u16], tally: &mut Tally) -> Result<(), RowFault> {
        let (alloc, source, base) = (self.alloc, self.source, base_of(self.row)?);
        let info = utf16::ParagraphBidiInfo::new_with_data_source(alloc, source, text, base)?;
        self.check_paragraph(&info, tally)?;
        let (start, end) = self.units(Utf16Text::new(text))?;
        check_slice(alloc, self.row, tally, info.reorder_line(alloc, start..end));
        Ok(())
    }

    // Tests the engine's levels of all characters after L1, and the levels and runs of a `ShownLine`.
    fn check_analysis<T: TextSource>(
        &self,
        text: T,
        analysis: &Analysis,
        tally: &mut Tally,
    ) -> Result<(), RowFault> {
        let fits = is_per_char(text, analysis.original_classes())
            && is_per_char(text, analysis.levels());
        if !fits {
            return Err(NO_LINE);
        }
        let (start, end) = self.units(text)?;
        let (alloc, row) = (self.alloc, self.row);
        let level = self.paragraph(analysis.paragraphs())?.level();
        let levels = line_levels(alloc, text, analysis, level, start..end)?;
        let words = levels_in(alloc, text, levels.as_slice());
        tally.agree(row, "after", "engine::line_levels", words);
        let mut shown = ShownLine::of_text(alloc, text);
        let (classes, stored) = (analysis.original_classes(), analysis.levels());
        shown.show_lists(text, classes, stored, level, start..end)?;
        let words = ranges_in(alloc, text, shown.runs());
        tally.agree(row, "runs", "ShownLine::runs", words);
        let wanted = levels_between(alloc, levels.as_slice(), (start, end));
        let came = level_words(alloc, shown.levels());
        tally.same(row, "ShownLine::levels", wanted, came);
        Ok(())
    }

    // Tests the line of a text in any encoding.
    fn check_engine<T: TextSource>(&self, text: T, tally: &mut Tally) -> Result<(), RowFault> {
        let base = base_of(self.row)?;
        let analysis = analyse(self.alloc, self.source, text, base, true)?;
        self.check_analysis(text, &analysis, tally)
    }

    // Tests the calls on a text of UTF-8 that may have several paragraphs.
    fn check_text_utf8(&self, text: &str, tally: &mut Tally) -> Result<(), RowFault> {
        let (alloc, source, base) = (self.alloc, self.source, base_of(self.row)?);
        let info = BidiInfo::new_with_data_source(alloc, source, text, base)?;
        self.check_info(&info, tally)?;
        self.check_utf8(&info, tally)
    }

    // Tests the calls on a text of UTF-16 that may have several paragraphs.
    fn check_text_utf16(&self, text: &[u16], tally: &mut Tally) -> Result<(), RowFault> {
        let (alloc, source, base) = (self.alloc, self.source, base_of(self.row)?);
        let info = utf16::BidiInfo::new_with_data_source(alloc, source, text, base)?;
        self.check_info(&info, tally)?;
        self.check_utf16(&info, tally)
    }

    // Tests the calls on a list of characters that may have several paragraphs.
    fn check_text_chars(&self, text: &[char], tally: &mut Tally) -> Result<(), RowFault> {
        let (text, base, rule) = (
            CharsText::new(text),
            base_of(self.row)?,
            SplitRule::EachSeparator,
        );
        let info = info::BidiInfo::of_text(self.alloc, self.source, text, base, rule)?;
        self.check_info(&info, tally)?;
        self.check_engine(text, tally)
    }

    // Tests the line of a text in each encoding that it has.
    fn check(&self, text: &RowText, tally: &mut Tally) -> Result<(), RowFault> {
        let (utf8, utf16) = (text.utf8.as_str(), text.utf16.as_slice());
        self.check_text_utf16(utf16, tally)?;
        self.check_engine(Utf16Text::new(utf16), tally)?;
        if self.is_unicode {
            self.check_text_utf8(utf8, tally)?;
            self.check_engine(StrText::new(utf8), tally)?;
            self.check_text_chars(text.chars.as_slice(), tally)?;
        }
        Ok(())
    }

    // Tests the line of a text that is one paragraph, in both encodings.
    fn check_paragraphs(&self, text: &RowText, tally: &mut Tally) -> Result<(), RowFault> {
        if self.is_unicode {
            self.check_paragraph_utf8(text.utf8.as_str(), tally)?;
        }
        self.check_paragraph_utf16(text.utf16.as_slice(), tally)
    }
}

// Returns the paragraph level of a row, if it has one.
fn own_level(row: &Row<'_>) -> Result<Option<Level>, RowFault> {
    match row.get("paragraph") {
        Some(field) => Ok(Some(level_of(field.value, field.line)?)),
        None => Ok(None),
    }
}

// Returns the line of a row: its field `line`, or the whole text.
fn line_of(row: &Row<'_>, count: usize) -> Result<(usize, usize), RowFault> {
    match row.get("line") {
        Some(field) => range_of(field.value, field.line),
        None => Ok((0, count)),
    }
}

// Returns the number of a text's characters.
fn count_of(alloc: Global, text: &RowText) -> Result<usize, RowFault> {
    let places = places_of(alloc, Utf16Text::new(text.utf16.as_slice()))?;
    Ok(places.len().saturating_sub(1))
}

/// Runs a row of a line of a text's first paragraph, in characters, or of the whole text.
pub fn run(
    alloc: Global,
    tables: &Tables,
    row: &Row<'_>,
    tally: &mut Tally,
) -> Result<(), RowFault> {
    row.has_only(&[
        "text",
        "types",
        "source",
        "base",
        "line",
        "paragraph",
        "levels",
        "after",
        "runs",
        "logical",
        "shown",
        "borrowed",
    ])?;
    let source = tables.source(row.line)?;
    let text = RowText::of_row(alloc, row)?;
    let case = Case {
        alloc,
        row,
        source: &source,
        line: line_of(row, count_of(alloc, &text)?)?,
        own_level: own_level(row)?,
        is_unicode: text.is_unicode,
    };
    case.check(&text, tally)?;
    if case.own_level.is_none() {
        case.check_paragraphs(&text, tally)?;
    }
    Ok(())
}
