//! Displayed lines and texts, in every encoding.

use crate::texts::{CHARACTERS, LONG_TEXT, TEXT, UNITS};
use crate::trial::{Fault, NoAnswer, tried, tried_by};
use bidi_base::data_source::TableBidiData;
use bidi_display::displayed_line::DisplayedLine;
use bidi_display::line_breaks::SimpleBreaks;
use bidi_display::options::DisplayOptions;
use bidi_display::text::Unmirrored;
use bidi_display::text_display::TextDisplay;
use bidi_display::width::ClusterColumns;
use bidi_text::text::{CharsText, StrText, TextSource, Utf16Text, is_line};
use std::alloc::{AllocError, Global};
use std::ops::Range;
use unicode_bidi::info::ParagraphBidiInfo;
use unicode_bidi::{Base, SplitRule};

// Returns a text that is one paragraph as one displayed line.
fn line_of<T: TextSource>(
    alloc: Global,
    source: &TableBidiData<'_>,
    text: T,
) -> Result<DisplayedLine, NoAnswer> {
    let info = ParagraphBidiInfo::of_text(alloc, source, text, None)?;
    let range = 0..text.len();
    if !is_line(info.text_source(), &range) {
        return Err(NoAnswer::Wrong);
    }
    let mut line = DisplayedLine::new(alloc, DisplayOptions::default());
    line.show_paragraph_line(&info, range, &ClusterColumns::default())?;
    Ok(line)
}

// Returns whether two lines have the same clusters in the same order.
fn are_alike(first: &DisplayedLine, second: &DisplayedLine) -> bool {
    *first.chars() == *second.chars()
        && *first.clusters() == *second.clusters()
        && *first.order() == *second.order()
}

// What a string has before a call appends to it.
const BEFORE: &str = "before ";

// Passes on what a call returned that appends. A failed allocation must leave what there was before the call.
fn leaves(pushed: Result<(), AllocError>, is_unchanged: bool) -> Result<(), NoAnswer> {
    match pushed {
        Err(_) if !is_unchanged => Err(NoAnswer::Wrong),
        Err(reason) => Err(NoAnswer::from(reason)),
        Ok(()) => Ok(()),
    }
}

// Returns the displayed text of a line, after another text.
fn shown_text(alloc: Global, line: &DisplayedLine) -> Result<String, NoAnswer> {
    let mut text = String::from_str(alloc, BEFORE)?;
    let pushed = line.push_text(&Unmirrored, &mut text);
    leaves(pushed, text.as_str() == BEFORE)?;
    Ok(text)
}

// Returns the lines of four columns into which a line is cut, after an empty one.
fn cut_lines(alloc: Global, line: &DisplayedLine) -> Result<Vec<Range<usize>>, NoAnswer> {
    let mut lines = vec![in alloc; 0..0; 1]?;
    let pushed = line.push_lines(&SimpleBreaks, 4, &mut lines);
    leaves(pushed, lines.as_slice() == [0..0].as_slice())?;
    Ok(lines)
}

// Returns the columns of the second half of a line's code units, after an empty range.
fn selection(alloc: Global, line: &DisplayedLine) -> Result<Vec<Range<usize>>, NoAnswer> {
    let end = line.range().end;
    let mut columns = vec![in alloc; 0..0; 1]?;
    let pushed = line.push_selection(end / 2..end, &mut columns);
    leaves(pushed, columns.as_slice() == [0..0].as_slice())?;
    Ok(columns)
}

// Returns the displayed text of a text of several paragraphs, after another text.
fn displayed_text<T: TextSource>(
    alloc: Global,
    source: &TableBidiData<'_>,
    text: T,
) -> Result<String, NoAnswer> {
    let mut display = TextDisplay::new(alloc, DisplayOptions::default());
    let mut shown = String::from_str(alloc, BEFORE)?;
    let rule = SplitRule::CrLfTogether;
    let pushed = display.display(
        alloc,
        source,
        text,
        Base::Auto,
        rule,
        &Unmirrored,
        &mut shown,
    );
    leaves(pushed, shown.as_str() == BEFORE)?;
    Ok(shown)
}

// Tries the calls over a text, as one line and as a whole text.
fn try_text<T: TextSource>(
    rt: &(impl Print + AllocGlobal),
    source: &TableBidiData<'_>,
    text: T,
) -> Result<(), Fault> {
    let alloc = rt.alloc();
    let line = tried_by(
        rt,
        "DisplayedLine::show_paragraph_line",
        || line_of(alloc, source, text),
        |first, second| are_alike(first, second),
    )?;
    tried(rt, "DisplayedLine::push_text", || shown_text(alloc, &line))?;
    tried(rt, "DisplayedLine::push_lines", || cut_lines(alloc, &line))?;
    tried(
        rt,
        "DisplayedLine::push_selection",
        || selection(alloc, &line),
    )?;
    tried(
        rt,
        "TextDisplay::display",
        || displayed_text(alloc, source, text),
    )?;
    Ok(())
}

/// Tries displayed lines and texts in every encoding.
pub fn run(rt: &(impl Print + AllocGlobal), source: &TableBidiData<'_>) -> Result<(), Fault> {
    try_text(rt, source, StrText::new(TEXT))?;
    try_text(rt, source, StrText::new(LONG_TEXT))?;
    try_text(rt, source, Utf16Text::new(&UNITS))?;
    try_text(rt, source, CharsText::new(&CHARACTERS))
}
