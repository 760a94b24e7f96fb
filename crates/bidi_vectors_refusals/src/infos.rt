//! The calls on the lines of a text in any encoding.

ghost use Rattle.std.specs.Prelude.{◌<◌};
ghost use Rattle.bidi_base.specs.AnalysedText.{IsLineOf};
ghost use Rattle.unicode_bidi.specs.BidiInfo.{analysed as analysed_of};
ghost use Rattle.unicode_bidi.specs.ParagraphBidiInfo.{analysed as whole_of};

use crate::trial::{Fault, tried};
use bidi_text::text::{TextSource, is_line};
use unicode_bidi::ParagraphInfo;
use unicode_bidi::info::{BidiInfo, ParagraphBidiInfo};
use unicode_bidi::layout::LineMap;

// A line of a text.
#[derive(Drop)]
struct InfoLine<'a, T: TextSource> {
    info: &'a BidiInfo<T>,
    para: &'a ParagraphInfo,
    start: usize,
    end: usize,
    ghost is_line: { IsLineOf (analysed_of info.now) (record { start = start; end = end }) },
    ghost not_empty: { start < end },
}

// A line of a text that is one paragraph.
#[derive(Drop)]
struct WholeLine<'a, T: TextSource> {
    info: &'a ParagraphBidiInfo<T>,
    start: usize,
    end: usize,
    ghost is_line: { IsLineOf (whole_of info.now) (record { start = start; end = end }) },
    ghost not_empty: { start < end },
}

// Tries the levels of a text with a line after L1, and those of the line alone.
fn try_levels<T: TextSource + PartialEq>(
    rt: &(impl Print + AllocGlobal),
    line: &InfoLine<T>,
) -> Result<(), Fault> {
    let alloc = rt.alloc();
    tried(rt, "BidiInfo::reordered_levels", || {
        Ok(
            line.info
                .reordered_levels(alloc, line.para, line.start..line.end)?,
        )
    })?;
    tried(rt, "BidiInfo::reordered_levels_per_char", || {
        Ok(
            line.info
                .reordered_levels_per_char(alloc, line.para, line.start..line.end)?,
        )
    })?;
    tried(rt, "BidiInfo::levels_of_line", || {
        Ok(
            line.info
                .levels_of_line(alloc, line.para, line.start..line.end)?,
        )
    })?;
    tried(rt, "BidiInfo::levels_of_line_per_char", || {
        Ok(
            line.info
                .levels_of_line_per_char(alloc, line.para, line.start..line.end)?,
        )
    })?;
    Ok(())
}

// Tries the runs of a line, and the map of its characters.
fn try_runs<T: TextSource + PartialEq>(
    rt: &(impl Print + AllocGlobal),
    line: &InfoLine<T>,
) -> Result<(), Fault> {
    let alloc = rt.alloc();
    tried(rt, "BidiInfo::visual_runs", || {
        Ok(
            line.info
                .visual_runs(alloc, line.para, line.start..line.end)?,
        )
    })?;
    tried(rt, "BidiInfo::line_runs", || {
        Ok(line.info.line_runs(alloc, line.para, line.start..line.end)?)
    })?;
    tried(rt, "BidiInfo::runs_with_levels", || {
        Ok(
            line.info
                .runs_with_levels(alloc, line.para, line.start..line.end)?,
        )
    })?;
    tried(rt, "BidiInfo::run_texts", || {
        Ok(line.info.run_texts(alloc, line.para, line.start..line.end)?)
    })?;
    tried(rt, "BidiInfo::logical_runs", || {
        Ok(line.info.logical_runs(alloc, line.start..line.end)?)
    })?;
    tried(rt, "LineMap::new", || {
        Ok(LineMap::new(alloc, line.info, line.para, line.start..line.end)?)
    })?;
    Ok(())
}

/// Tries the calls on a paragraph of a text as one line.
pub fn try_line<T: TextSource + PartialEq>(
    rt: &(impl Print + AllocGlobal),
    info: &BidiInfo<T>,
    para: &ParagraphInfo,
) -> Result<(), Fault> {
    let range = para.range();
    if range.start >= range.end || !is_line(info.text_source(), &range) {
        return Err(Fault::NoTrial);
    }
    let line = InfoLine {
        info,
        para,
        start: range.start,
        end: range.end,
    };
    try_levels(rt, &line)?;
    try_runs(rt, &line)
}

// Tries the levels of a text that is one paragraph, with a line after L1, and those of the line alone.
fn try_whole_levels<T: TextSource + PartialEq>(
    rt: &(impl Print + AllocGlobal),
    line: &WholeLine<T>,
) -> Result<(), Fault> {
    let alloc = rt.alloc();
    tried(rt, "ParagraphBidiInfo::reordered_levels", || {
        Ok(line.info.reordered_levels(alloc, line.start..line.end)?)
    })?;
    tried(rt, "ParagraphBidiInfo::reordered_levels_per_char", || {
        Ok(
            line.info
                .reordered_levels_per_char(alloc, line.start..line.end)?,
        )
    })?;
    tried(rt, "ParagraphBidiInfo::levels_of_line", || {
        Ok(line.info.levels_of_line(alloc, line.start..line.end)?)
    })?;
    tried(rt, "ParagraphBidiInfo::levels_of_line_per_char", || {
        Ok(
            line.info
                .levels_of_line_per_char(alloc, line.start..line.end)?,
        )
    })?;
    Ok(())
}

// Tries the runs of a line of a text that is one paragraph, and the map of its characters.
fn try_whole_runs<T: TextSource + PartialEq>(
    rt: &(impl Print + AllocGlobal),
    line: &WholeLine<T>,
) -> Result<(), Fault> {
    let alloc = rt.alloc();
    tried(rt, "ParagraphBidiInfo::visual_runs", || {
        Ok(line.info.visual_runs(alloc, line.start..line.end)?)
    })?;
    tried(rt, "ParagraphBidiInfo::line_runs", || {
        Ok(line.info.line_runs(alloc, line.start..line.end)?)
    })?;
    tried(rt, "ParagraphBidiInfo::runs_with_levels", || {
        Ok(line.info.runs_with_levels(alloc, line.start..line.end)?)
    })?;
    tried(rt, "ParagraphBidiInfo::run_texts", || {
        Ok(line.info.run_texts(alloc, line.start..line.end)?)
    })?;
    tried(rt, "ParagraphBidiInfo::logical_runs", || {
        Ok(line.info.logical_runs(alloc, line.start..line.end)?)
    })?;
    tried(rt, "LineMap::of_paragraph", || {
        Ok(LineMap::of_paragraph(alloc, line.info, line.start..line.end)?)
    })?;
    Ok(())
}

/// Tries the calls on a text that is one paragraph and one line.
pub fn try_whole_line<T: TextSource + PartialEq>(
    rt: &(impl Print + AllocGlobal),
    info: &ParagraphBidiInfo<T>,
) -> Result<(), Fault> {
    let range = 0..info.levels().len();
    if range.end == 0 || !is_line(info.text_source(), &range) {
        return Err(Fault::NoTrial);
    }
    let line = WholeLine {
        info,
        start: range.start,
        end: range.end,
    };
    try_whole_levels(rt, &line)?;
    try_whole_runs(rt, &line)
}
