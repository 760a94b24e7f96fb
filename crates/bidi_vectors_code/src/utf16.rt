//! Tests of the accessors over UTF-16.

use crate::check::same;
use crate::source::{sample, utf16_info};
use bidi_base::char_data::BidiClass::{L, R};
use bidi_base::char_data::Direction;
use std::process::Abort;
use std::test::Fail;
use unicode_bidi::ParagraphInfo;
use unicode_bidi::utf16::{BidiInfo, InitialInfo, Paragraph, ParagraphBidiInfo};

// A right-to-left letter and a surrogate pair.
const LETTER_AND_PAIR: [u16; 3] = [0x5D0, 0xD800, 0xDC00];

#[test]
fn initial_info(rt: HostRuntime) -> Result<(), Fail> {
    let source = sample()?;
    let initial = InitialInfo::new_with_data_source(rt.alloc(), &source, &LETTER_AND_PAIR, None)?;
    same(&rt, "text", initial.text(), LETTER_AND_PAIR.as_slice());
    same(
        &rt,
        "classes",
        initial.original_classes(),
        [R, L, L].as_slice(),
    );
    same(&rt, "paragraphs", initial.paragraphs().len(), 1);
    Ok(())
}

fn check_accessors(rt: &impl Abort, info: &BidiInfo<'_>) -> Result<(), Fail> {
    same(rt, "text", info.text(), LETTER_AND_PAIR.as_slice());
    same(rt, "classes", info.original_classes(), [R, L, L].as_slice());
    same(rt, "has_rtl", info.has_rtl(), true);
    let [first] = info.paragraphs() else {
        return Err(Fail::from("one paragraph"));
    };
    same(rt, "range", first.range(), 0..3);
    same(rt, "level", first.level().number(), 1);
    Ok(())
}

#[test]
fn accessors(rt: HostRuntime) -> Result<(), Fail> {
    let info = utf16_info(rt.alloc(), &LETTER_AND_PAIR)?;
    check_accessors(&rt, &info)
}

// Compares the parts of a paragraph with those that it is made of.
fn check_parts(rt: &impl Abort, info: &BidiInfo<'_>, para: &ParagraphInfo) {
    let paragraph = Paragraph::new(info, para);
    same(rt, "para", paragraph.para() == para, true);
    same(rt, "info", *paragraph.info() == *info, true);
}

fn check_paragraph(rt: &impl Abort, info: &BidiInfo<'_>) -> Result<(), Fail> {
    let first = info.paragraphs().first().ok_or("a paragraph")?;
    check_parts(rt, info, first);
    let paragraph = Paragraph::new(info, first);
    if first.range() != (0..3) || info.levels().len() != 3 {
        return Err(Fail::from("three units"));
    }
    same(rt, "direction", paragraph.direction(), Direction::Mixed);
    same(rt, "level", paragraph.level_at(2).number(), 2);
    Ok(())
}

#[test]
fn paragraph(rt: HostRuntime) -> Result<(), Fail> {
    let info = utf16_info(rt.alloc(), &LETTER_AND_PAIR)?;
    check_paragraph(&rt, &info)
}

#[test]
fn accessors_of_one_paragraph(rt: HostRuntime) -> Result<(), Fail> {
    let source = sample()?;
    let units = LETTER_AND_PAIR.as_slice();
    let info = ParagraphBidiInfo::new_with_data_source(rt.alloc(), &source, units, None)?;
    same(&rt, "text", info.text(), units);
    same(
        &rt,
        "classes",
        info.original_classes(),
        [R, L, L].as_slice(),
    );
    same(&rt, "level", info.paragraph_level().number(), 1);
    same(&rt, "is_pure_ltr", info.is_pure_ltr(), false);
    same(&rt, "direction", info.direction(), Direction::Mixed);
    Ok(())
}
