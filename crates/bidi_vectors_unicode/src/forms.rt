//! The forms of the calls. Each analyses a text that is one paragraph and one line.

use crate::case::{Base, Text};
use crate::fault::{Fault, Why};
use bidi_base::level::Level;
use bidi_text::text::{CharsText, StrText, TextSource, Utf16Text, is_line, is_per_char};
use bidi_unicode::UnicodeData;
use std::alloc::Global;
use std::ops::Range;
use unicode_bidi::deprecated::visual_runs;
use unicode_bidi::engine::{Analysis, analyse, line_levels};
use unicode_bidi::{BidiInfo, ParagraphBidiInfo, utf16};

/// A form of the calls.
#[derive(Clone, Copy, Debug, PartialEq)]
pub enum Form {
    Info,
    Paragraph,
    Info16,
    Paragraph16,
    List,
}

/// All forms, in the order in which they are printed.
pub const FORMS: [Form; 5] = [
    Form::Info,
    Form::Paragraph,
    Form::Info16,
    Form::Paragraph16,
    Form::List,
];

impl Form {
    /// Returns the name of the form in messages.
    pub fn name(self) -> &'static str {
        match self {
            Form::Info => "UTF-8, BidiInfo",
            Form::Paragraph => "UTF-8, ParagraphBidiInfo",
            Form::Info16 => "UTF-16, BidiInfo",
            Form::Paragraph16 => "UTF-16, ParagraphBidiInfo",
            Form::List => "characters, engine",
        }
    }
}

/// The level of a text's paragraph, the level of each code unit after L1, and the runs from left to right.
#[derive(Drop)]
pub struct Answer {
    pub paragraph: Level,
    pub levels: Vec<Level>,
    pub runs: Vec<Range<usize>>,
}

const NO_PARAGRAPH: Fault = Fault::Line(0, Why::Paragraph);

/// Returns what `BidiInfo` finds in a text of UTF-8.
pub fn by_info(alloc: Global, text: &str, base: Base) -> Result<Answer, Fault> {
    let info = BidiInfo::new_with_data_source(alloc, &UnicodeData, text, base.level())?;
    of_info(alloc, &info)
}

fn of_info(alloc: Global, info: &BidiInfo<'_>) -> Result<Answer, Fault> {
    let end = info.text().len();
    let Some(para) = info.paragraphs().first() else {
        return Err(NO_PARAGRAPH);
    };
    if !is_line(StrText::new(info.text()), &(0..end)) {
        return Err(NO_PARAGRAPH);
    }
    Ok(Answer {
        paragraph: para.level(),
        levels: info.levels_of_line(alloc, para, 0..end)?,
        runs: info.line_runs(alloc, para, 0..end)?,
    })
}

/// Returns what `BidiInfo` finds in a text of UTF-16.
pub fn by_info16(alloc: Global, text: &[u16], base: Base) -> Result<Answer, Fault> {
    let info = utf16::BidiInfo::new_with_data_source(alloc, &UnicodeData, text, base.level())?;
    of_info16(alloc, &info)
}

fn of_info16(alloc: Global, info: &utf16::BidiInfo<'_>) -> Result<Answer, Fault> {
    let end = info.text().len();
    let Some(para) = info.paragraphs().first() else {
        return Err(NO_PARAGRAPH);
    };
    if !is_line(Utf16Text::new(info.text()), &(0..end)) {
        return Err(NO_PARAGRAPH);
    }
    Ok(Answer {
        paragraph: para.level(),
        levels: info.levels_of_line(alloc, para, 0..end)?,
        runs: info.line_runs(alloc, para, 0..end)?,
    })
}

/// Returns what `ParagraphBidiInfo` finds in a text of UTF-8.
pub fn by_paragraph(alloc: Global, text: &str, base: Base) -> Result<Answer, Fault> {
    let level = base.level();
    let info = ParagraphBidiInfo::new_with_data_source(alloc, &UnicodeData, text, level)?;
    let end = info.text().len();
    if !is_line(StrText::new(info.text()), &(0..end)) {
        return Err(NO_PARAGRAPH);
    }
    Ok(Answer {
        paragraph: info.paragraph_level(),
        levels: info.levels_of_line(alloc, 0..end)?,
        runs: info.line_runs(alloc, 0..end)?,
    })
}

/// Returns what `ParagraphBidiInfo` finds in a text of UTF-16.
pub fn by_paragraph16(alloc: Global, text: &[u16], base: Base) -> Result<Answer, Fault> {
    let level = base.level();
    let info = utf16::ParagraphBidiInfo::new_with_data_source(alloc, &UnicodeData, text, level)?;
    let end = info.text().len();
    if !is_line(Utf16Text::new(info.text()), &(0..end)) {
        return Err(NO_PARAGRAPH);
    }
    Ok(Answer {
        paragraph: info.paragraph_level(),
        levels: info.levels_of_line(alloc, 0..end)?,
        runs: info.line_runs(alloc, 0..end)?,
    })
}

/// Returns what the engine finds in a list of characters.
pub fn by_list(alloc: Global, chars: &[char], base: Base) -> Result<Answer, Fault> {
    let text = CharsText::new(chars);
    let analysis = analyse(alloc, &UnicodeData, text, base.level(), true)?;
    let Some(para) = analysis.paragraphs().first() else {
        return Err(NO_PARAGRAPH);
    };
    let levels = levels_of_list(alloc, text, &analysis, para.level())?;
    let runs = runs_of_levels(alloc, levels.as_slice())?;
    Ok(Answer {
        paragraph: para.level(),
        levels,
        runs,
    })
}

fn levels_of_list(
    alloc: Global,
    text: CharsText<'_>,
    analysis: &Analysis,
    level: Level,
) -> Result<Vec<Level>, Fault> {
    let fits = is_per_char(text, analysis.original_classes())
        && is_per_char(text, analysis.levels());
    let end = text.len();
    if !fits || !is_line(text, &(0..end)) {
        return Err(NO_PARAGRAPH);
    }
    Ok(line_levels(alloc, text, analysis, level, 0..end)?)
}

fn runs_of_levels(alloc: Global, levels: &[Level]) -> Result<Vec<Range<usize>>, Fault> {
    if levels.is_empty() {
        return Ok(Vec::new(alloc));
    }
    Ok(visual_runs(alloc, 0..levels.len(), levels)?)
}

/// Returns what one form finds in a text.
pub fn ask(alloc: Global, form: Form, text: &Text, base: Base) -> Result<Answer, Fault> {
    match form {
        Form::Info => by_info(alloc, text.utf8.as_str(), base),
        Form::Paragraph => by_paragraph(alloc, text.utf8.as_str(), base),
        Form::Info16 => by_info16(alloc, text.utf16.as_slice(), base),
        Form::Paragraph16 => by_paragraph16(alloc, text.utf16.as_slice(), base),
        Form::List => by_list(alloc, text.chars.as_slice(), base),
    }
}
