//! The calls over any text, and those over the caller's levels.

use crate::texts::{CHARACTERS, LONG_TEXT, UNITS};
use crate::trial::{Fault, NoAnswer, tried, tried_here};
use bidi_base::char_data::BidiClass;
use bidi_base::data_source::TableBidiData;
use bidi_base::level::Level;
use bidi_lines::shown_line::ShownLine;
use bidi_text::text::{CharsText, StrText, TextSource, Utf16Text, is_line, is_per_char};
use std::alloc::Global;
use unicode_bidi::deprecated::visual_runs;
use unicode_bidi::engine::{Analyser, ParagraphAnalysis, analyse, line_levels};

// The levels of a line that begins and ends inside isolates.
const NUMBERS: [u8; 24] = [
    1, 2, 1, 3, 126, 125, 4, 1, 0, 1, 2, 0, 1, 0, 3, 1, 2, 1, 0, 1, 0, 1, 0, 5,
];

// Returns the visual order of a text as one line, by an `Analyser` and a `ShownLine`.
fn shown_order<T: TextSource>(
    alloc: Global,
    source: &TableBidiData<'_>,
    text: T,
) -> Result<Vec<usize>, NoAnswer> {
    let mut classes = vec![in alloc; BidiClass::L; text.len()]?;
    let mut levels = vec![in alloc; Level::ltr(); text.len()]?;
    let (own_classes, own_levels) = (classes.as_mut_slice(), levels.as_mut_slice());
    let mut analyser = Analyser::new(alloc);
    analyser.analyse(alloc, source, text, None, None, own_classes, own_levels)?;
    let line = 0..text.len();
    if !is_line(text, &line) {
        return Err(NoAnswer::Wrong);
    }
    let mut shown = ShownLine::of_text(alloc, text);
    shown.show_lists(text, own_classes, own_levels, Level::rtl(), line)?;
    let mut order = Vec::new(alloc);
    shown.write_order(&mut order)?;
    Ok(order)
}

// Returns the levels of a text that is one paragraph, and the paragraph level, by a `ParagraphAnalysis`.
fn paragraph_levels<T: TextSource>(
    alloc: Global,
    source: &TableBidiData<'_>,
    text: T,
) -> Result<(Vec<Level>, Level), NoAnswer> {
    let mut analysis = ParagraphAnalysis::new(alloc);
    analysis.find(alloc, source, text, None)?;
    let levels = Vec::from_slice(alloc, analysis.levels.as_slice())?;
    Ok((levels, analysis.level))
}

// Tries the calls of the engine over a text, split into paragraphs or as one paragraph.
fn try_text<T: TextSource>(
    rt: &(impl Print + AllocGlobal),
    source: &TableBidiData<'_>,
    text: T,
    split: bool,
) -> Result<(), Fault> {
    let alloc = rt.alloc();
    let analysis = tried(
        rt,
        "engine::analyse",
        || Ok(analyse(alloc, source, text, None, split)?),
    )?;
    let fits = is_per_char(text, analysis.original_classes())
        && is_per_char(text, analysis.levels());
    let end = text.len();
    if !fits || !is_line(text, &(0..end)) {
        return Err(Fault::NoTrial);
    }
    tried_here!(
        rt,
        "engine::line_levels",
        line_levels(alloc, text, &analysis, Level::rtl(), 0..end)
    );
    tried(
        rt,
        "engine::Analyser and ShownLine",
        || shown_order(alloc, source, text),
    )?;
    tried(rt, "ParagraphAnalysis::find", || {
        paragraph_levels(alloc, source, text)
    })?;
    Ok(())
}

fn try_levels(rt: &(impl Print + AllocGlobal)) -> Result<(), Fault> {
    let alloc = rt.alloc();
    let levels = tried(rt, "Level::vec", || Ok(Level::vec(alloc, &NUMBERS)?))?;
    let end = levels.len();
    if end == 0 {
        return Err(Fault::NoTrial);
    }
    tried(
        rt,
        "deprecated::visual_runs",
        || Ok(visual_runs(alloc, 0..end, levels.as_slice())?),
    )?;
    Ok(())
}

/// Tries the engine in every encoding, and the calls over levels.
pub fn run(rt: &(impl Print + AllocGlobal), source: &TableBidiData<'_>) -> Result<(), Fault> {
    try_text(rt, source, StrText::new(LONG_TEXT), true)?;
    try_text(rt, source, Utf16Text::new(&UNITS), true)?;
    try_text(rt, source, CharsText::new(&CHARACTERS), false)?;
    try_levels(rt)
}
