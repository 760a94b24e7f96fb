//! The calls over a line, given its stored classes and levels.

ghost use Rattle.std.specs.Char.{len_utf8};
ghost use Rattle.std.specs.Str.{chars};
ghost use Rattle.bidi_base.specs.PerChar.{HaveClass, HaveLevel};
ghost use Rattle.bidi_base.specs.Text.{is_per_char};
ghost use Rattle.bidi_base.specs.Utf16.{utf16_text, utf16_len};

use crate::texts::{LONG_TEXT, UNITS};
use crate::trial::{Fault, tried, tried_here};
use bidi_base::char_data::BidiClass;
use bidi_base::data_source::TableBidiData;
use bidi_base::level::Level;
use bidi_text::text::{StrText, Utf16Text, is_per_char};
use std::alloc::{AllocError, Global};
use std::borrow::{CowSlice, CowStr};
use unicode_bidi::SplitRule;
use unicode_bidi::engine::analyse_with_rule;
use unicode_bidi::stored_line::{reorder_utf8, reorder_utf16};

// Returns the text of a line of UTF-8 from left to right. Copies the lists that the call takes.
fn reorder_text<'t>(
    alloc: Global,
    text: &'t str,
    classes: &[BidiClass],
    levels: &[Level],
) -> Result<CowStr<'t>, AllocError>
    requires classes { HaveClass len_utf8 (chars text.now) classes.now }
    requires levels { HaveLevel len_utf8 (chars text.now) levels.now }
{
    let classes = Vec::from_slice(alloc, classes)?;
    let levels = Vec::from_slice(alloc, levels)?;
    reorder_utf8(alloc, text, classes, levels, Level::rtl())
}

// Returns the text of a line of UTF-16 from left to right. Copies the lists that the call takes.
fn reorder_units<'t>(
    alloc: Global,
    text: &'t [u16],
    classes: &[BidiClass],
    levels: &[Level],
) -> Result<CowSlice<'t, u16>, AllocError>
    requires classes { HaveClass utf16_len (utf16_text text.now) classes.now }
    requires levels { HaveLevel utf16_len (utf16_text text.now) levels.now }
{
    let classes = Vec::from_slice(alloc, classes)?;
    let levels = Vec::from_slice(alloc, levels)?;
    reorder_utf16(alloc, text, classes, levels, Level::rtl())
}

fn try_utf8(rt: &(impl Print + AllocGlobal), source: &TableBidiData<'_>) -> Result<(), Fault> {
    let alloc = rt.alloc();
    let text = StrText::new(LONG_TEXT);
    let analysis = tried(
        rt,
        "engine::analyse_with_rule",
        || Ok(analyse_with_rule(alloc, source, text, None, Some(SplitRule::CrLfTogether))?),
    )?;
    let (classes, levels) = (analysis.original_classes(), analysis.levels());
    if !is_per_char(text, classes) || !is_per_char(text, levels) {
        return Err(Fault::NoTrial);
    }
    tried(
        rt,
        "stored_line::reorder_utf8",
        || Ok(reorder_text(alloc, LONG_TEXT, classes, levels)?),
    )?;
    Ok(())
}

fn try_utf16(rt: &(impl Print + AllocGlobal), source: &TableBidiData<'_>) -> Result<(), Fault> {
    let alloc = rt.alloc();
    let text = Utf16Text::new(&UNITS);
    let analysis = tried(
        rt,
        "engine::analyse_with_rule",
        || Ok(analyse_with_rule(alloc, source, text, None, None)?),
    )?;
    let (classes, levels) = (analysis.original_classes(), analysis.levels());
    if !is_per_char(text, classes) || !is_per_char(text, levels) {
        return Err(Fault::NoTrial);
    }
    tried_here!(
        rt,
        "stored_line::reorder_utf16",
        reorder_units(alloc, &UNITS, classes, levels)
    );
    Ok(())
}

/// Tries `reorder_utf8` and `reorder_utf16`, and the analyses that return the classes and levels of the lines.
pub fn run(rt: &(impl Print + AllocGlobal), source: &TableBidiData<'_>) -> Result<(), Fault> {
    try_utf8(rt, source)?;
    try_utf16(rt, source)
}
