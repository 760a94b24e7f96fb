//! The calls over texts of UTF-8.

use crate::infos::{try_line, try_whole_line};
use crate::texts::TEXT;
use crate::trial::{Fault, tried, tried_here};
use bidi_base::data_source::TableBidiData;
use bidi_text::text::is_line;
use unicode_bidi::layout::{CharWidth, lines};
use unicode_bidi::{BidiInfo, InitialInfo, ParagraphBidiInfo, ParagraphInfo, SplitRule};

// Gives each character one column.
struct Columns;

impl CharWidth for Columns {
    ghost width_of = { λ _ _. 1 };

    fn width(&self, _c: char) -> usize {
        1
    }
}

// Tries a paragraph from left to right, and in lines of eight characters.
fn try_paragraph(
    rt: &(impl Print + AllocGlobal),
    info: &BidiInfo<'_>,
    para: &ParagraphInfo,
) -> Result<(), Fault> {
    let alloc = rt.alloc();
    if !is_line(info.text_source(), &para.range()) {
        return Err(Fault::NoTrial);
    }
    tried_here!(
        rt,
        "BidiInfo::reorder_line",
        info.reorder_line(alloc, para, para.range())
    );
    tried_here!(rt, "layout::lines", lines(alloc, info, para, &Columns, 8));
    Ok(())
}

// Tries the constructor that finds no levels, and the one with a split rule.
fn try_other_constructors(
    rt: &(impl Print + AllocGlobal),
    source: &TableBidiData<'_>,
) -> Result<(), Fault> {
    let alloc = rt.alloc();
    tried_here!(
        rt,
        "InitialInfo::new_with_data_source",
        InitialInfo::new_with_data_source(alloc, source, TEXT, None)
    );
    tried_here!(
        rt,
        "BidiInfo::new_with_rule",
        BidiInfo::new_with_rule(alloc, source, TEXT, None, SplitRule::CrLfTogether)
    );
    Ok(())
}

// Tries a text in paragraphs, the calls on its last paragraph, and the visual order of its levels.
fn try_text(rt: &(impl Print + AllocGlobal), source: &TableBidiData<'_>) -> Result<(), Fault> {
    let alloc = rt.alloc();
    let info = tried_here!(
        rt,
        "BidiInfo::new_with_data_source",
        BidiInfo::new_with_data_source(alloc, source, TEXT, None)
    );
    if let Some(para) = info.paragraphs().last() {
        try_line(rt, &info, para)?;
        try_paragraph(rt, &info, para)?;
    }
    let levels = info.levels();
    tried(rt, "BidiInfo::reorder_visual", || {
        Ok(BidiInfo::reorder_visual(alloc, levels)?)
    })?;
    Ok(())
}

// Tries a text that is one paragraph, and the calls on it.
fn try_whole(rt: &(impl Print + AllocGlobal), source: &TableBidiData<'_>) -> Result<(), Fault> {
    let alloc = rt.alloc();
    let info = tried_here!(
        rt,
        "ParagraphBidiInfo::new_with_data_source",
        ParagraphBidiInfo::new_with_data_source(alloc, source, TEXT, None)
    );
    try_whole_line(rt, &info)?;
    let line = 0..TEXT.len();
    if !is_line(info.text_source(), &line) {
        return Err(Fault::NoTrial);
    }
    tried_here!(
        rt,
        "ParagraphBidiInfo::reorder_line",
        info.reorder_line(alloc, 0..TEXT.len())
    );
    let levels = info.levels();
    tried(rt, "ParagraphBidiInfo::reorder_visual", || {
        Ok(ParagraphBidiInfo::reorder_visual(alloc, levels)?)
    })?;
    Ok(())
}

/// Tries the constructors, the line calls and the visual order.
pub fn run(rt: &(impl Print + AllocGlobal), source: &TableBidiData<'_>) -> Result<(), Fault> {
    try_other_constructors(rt, source)?;
    try_text(rt, source)?;
    try_whole(rt, source)
}
