//! The calls over texts of UTF-16.

use crate::infos::{try_line, try_whole_line};
use crate::texts::UNITS;
use crate::trial::{Fault, tried, tried_here};
use bidi_base::data_source::TableBidiData;
use bidi_text::text::is_line;
use unicode_bidi::utf16::{BidiInfo, InitialInfo, ParagraphBidiInfo};
use unicode_bidi::{ParagraphInfo, SplitRule};

// Tries a paragraph from left to right.
fn try_paragraph(
    rt: &(impl Print + AllocGlobal),
    info: &BidiInfo<'_>,
    para: &ParagraphInfo,
) -> Result<(), Fault> {
    let alloc = rt.alloc();
    if !is_line(info.text_source(), &para.range()) {
        return Err(Fault::NoTrial);
    }
    tried_here!(
        rt,
        "utf16::BidiInfo::reorder_line",
        info.reorder_line(alloc, para, para.range())
    );
    Ok(())
}

// Tries the constructor that finds no levels, and the one with a split rule.
fn try_other_constructors(
    rt: &(impl Print + AllocGlobal),
    source: &TableBidiData<'_>,
) -> Result<(), Fault> {
    let alloc = rt.alloc();
    tried_here!(
        rt,
        "utf16::InitialInfo::new_with_data_source",
        InitialInfo::new_with_data_source(alloc, source, &UNITS, None)
    );
    tried_here!(
        rt,
        "utf16::BidiInfo::new_with_rule",
        BidiInfo::new_with_rule(alloc, source, &UNITS, None, SplitRule::CrLfTogether)
    );
    Ok(())
}

// Tries a text in paragraphs, the calls on its last paragraph, and the visual order of its levels.
fn try_text(rt: &(impl Print + AllocGlobal), source: &TableBidiData<'_>) -> Result<(), Fault> {
    let alloc = rt.alloc();
    let info = tried_here!(
        rt,
        "utf16::BidiInfo::new_with_data_source",
        BidiInfo::new_with_data_source(alloc, source, &UNITS, None)
    );
    if let Some(para) = info.paragraphs().last() {
        try_line(rt, &info, para)?;
        try_paragraph(rt, &info, para)?;
    }
    let levels = info.levels();
    tried(rt, "utf16::BidiInfo::reorder_visual", || {
        Ok(BidiInfo::reorder_visual(alloc, levels)?)
    })?;
    Ok(())
}

// Tries a text that is one paragraph, and the calls on it.
fn try_whole(rt: &(impl Print + AllocGlobal), source: &TableBidiData<'_>) -> Result<(), Fault> {
    let alloc = rt.alloc();
    let info = tried_here!(
        rt,
        "utf16::ParagraphBidiInfo::new_with_data_source",
        ParagraphBidiInfo::new_with_data_source(alloc, source, &UNITS, None)
    );
    try_whole_line(rt, &info)?;
    let line = 0..UNITS.len();
    if !is_line(info.text_source(), &line) {
        return Err(Fault::NoTrial);
    }
    tried_here!(
        rt,
        "utf16::ParagraphBidiInfo::reorder_line",
        info.reorder_line(alloc, 0..UNITS.len())
    );
    let levels = info.levels();
    tried(rt, "utf16::ParagraphBidiInfo::reorder_visual", || {
        Ok(ParagraphBidiInfo::reorder_visual(alloc, levels)?)
    })?;
    Ok(())
}

/// Tries the constructors, the line calls and the visual order.
pub fn run(rt: &(impl Print + AllocGlobal), source: &TableBidiData<'_>) -> Result<(), Fault> {
    try_other_constructors(rt, source)?;
    try_text(rt, source)?;
    try_whole(rt, source)
}
