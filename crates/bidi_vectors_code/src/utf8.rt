//! Tests of the accessors over UTF-8.

use crate::check::same;
use crate::source::{bidi_info as info_of, paragraph_info as info_of_one, sample};
use bidi_base::char_data::BidiClass::{B, L, LRI, R};
use bidi_base::char_data::Direction;
use bidi_base::level::Level;
use bidi_terminal::Base;
use std::process::Abort;
use std::test::Fail;
use unicode_bidi::{BidiInfo, InitialInfo, Paragraph, ParagraphInfo};

#[test]
fn initial_info(rt: HostRuntime) -> Result<(), Fail> {
    let source = sample()?;
    let text = "a\u{5D0}";
    let info = InitialInfo::new_with_data_source(rt.alloc(), &source, text, None)?;
    same(&rt, "text", info.text(), text);
    same(
        &rt,
        "classes",
        info.original_classes(),
        [L, R, R].as_slice(),
    );
    let wanted = ParagraphInfo::new(0..3, Level::ltr());
    assert!(rt; info.paragraphs().first() == wanted.as_ref());
    Ok(())
}

// Compares the paragraphs of a text with what is wanted.
fn check_paragraphs(rt: &impl Abort, info: &BidiInfo<'_>) {
    let first = ParagraphInfo::new(0..2, Level::ltr());
    assert!(rt; info.paragraphs().first() == first.as_ref());
    let last = ParagraphInfo::new(2..4, Level::rtl());
    assert!(rt; info.paragraphs().last() == last.as_ref());
}

#[test]
fn bidi_info(rt: HostRuntime) -> Result<(), Fail> {
    let text = "a\n\u{5D0}";
    let info = info_of(rt.alloc(), text, Base::Auto)?;
    same(&rt, "text", info.text(), text);
    same(
        &rt,
        "classes",
        info.original_classes(),
        [L, B, R, R].as_slice(),
    );
    same(&rt, "levels", info.levels().len(), 4);
    same(&rt, "paragraphs", info.paragraphs().len(), 2);
    same(&rt, "has_rtl", info.has_rtl(), true);
    check_paragraphs(&rt, &info);
    Ok(())
}

#[test]
fn paragraph_bidi_info(rt: HostRuntime) -> Result<(), Fail> {
    let text = "a\u{5D0}\u{2066}x\u{2069}(\u{5D1})";
    let info = info_of_one(rt.alloc(), text, Base::Auto)?;
    same(&rt, "text", info.text(), text);
    same(
        &rt,
        "class",
        info.original_classes().get(3).copied(),
        Some(LRI),
    );
    same(&rt, "levels", info.levels().len(), text.len());
    same(&rt, "level", info.paragraph_level().number(), 0);
    Ok(())
}

#[test]
fn paragraph_info(rt: HostRuntime) -> Result<(), Fail> {
    let paragraph = ParagraphInfo::new(2..5, Level::rtl()).ok_or("in order")?;
    same(&rt, "range", paragraph.range(), 2..5);
    same(&rt, "level", paragraph.level().number(), 1);
    same(&rt, "length", paragraph.len(), 3);
    assert!(rt; paragraph.clone()? == paragraph);
    assert!(rt; ParagraphInfo::new(3..3, Level::ltr()).is_some());
    assert!(rt; ParagraphInfo::new(3..2, Level::ltr()).is_none());
    Ok(())
}

// Compares the parts of a paragraph with those that it is made of.
fn check_parts(rt: &impl Abort, info: &BidiInfo<'_>, para: &ParagraphInfo) {
    let paragraph = Paragraph::new(info, para);
    same(rt, "para", paragraph.para() == para, true);
    same(rt, "text", paragraph.info().text(), info.text());
}

fn check_paragraph(rt: &impl Abort, info: &BidiInfo<'_>) -> Result<(), Fail> {
    let first = info.paragraphs().first().ok_or("a paragraph")?;
    check_parts(rt, info, first);
    let paragraph = Paragraph::new(info, first);
    if first.range() != (0..9) || info.levels().len() != 9 {
        return Err(Fail::from("nine bytes"));
    }
    same(rt, "direction", paragraph.direction(), Direction::Mixed);
    same(rt, "first level", paragraph.level_at(0).number(), 1);
    same(rt, "level of a", paragraph.level_at(6).number(), 2);
    Ok(())
}

#[test]
fn one_paragraph(rt: HostRuntime) -> Result<(), Fail> {
    let info = info_of(rt.alloc(), "\u{5D0}\u{5D1}\u{5D2}abc", Base::Auto)?;
    check_paragraph(&rt, &info)
}
