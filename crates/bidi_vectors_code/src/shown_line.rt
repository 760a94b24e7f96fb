//! Tests of a value that shows one line after another.

use crate::check::same;
use crate::source::{bidi_info, paragraph_info, utf16_info};
use bidi_terminal::Base;
use bidi_text::text::{StrText, is_line};
use std::alloc::Global;
use std::process::Abort;
use std::test::Fail;
use unicode_bidi::{BidiInfo, ParagraphBidiInfo, ShownLine, utf16};

// Appends each paragraph as a line.
fn push_lines<'t>(
    info: &BidiInfo<'t>,
    shown: &mut ShownLine<'t>,
    pushed: &mut String,
) -> Result<(), Fail> {
    for para in info.paragraphs() {
        info.show_line(shown, para, para.range())?;
        shown.push_text(pushed)?;
    }
    Ok(())
}

// Compares the lines of the text with what is wanted.
fn check_lines<'t>(
    rt: &(impl Abort + AllocGlobal),
    info: &BidiInfo<'t>,
    shown: &mut ShownLine<'t>,
) -> Result<(), Fail> {
    let mut pushed = String::new(rt.alloc());
    push_lines(info, shown, &mut pushed)?;
    same(rt, "lines", pushed.as_str(), "\nab \u{5D1}\u{5D0}cd\n");
    assert!(rt; shown.stays_in_order());
    Ok(())
}

#[test]
fn lines_in_turn(rt: HostRuntime) -> Result<(), Fail> {
    let info = bidi_info(rt.alloc(), "\u{5D0}\u{5D1} ab\ncd\n", Base::Auto)?;
    let mut shown = ShownLine::new(rt.alloc());
    check_lines(&rt, &info, &mut shown)
}

// Writes the order of the characters of a text that is one line.
fn write_order<'t>(
    info: &ParagraphBidiInfo<'t>,
    shown: &mut ShownLine<'t>,
    order: &mut Vec<usize>,
) -> Result<(), Fail> {
    let line = 0..info.text().len();
    if !is_line(StrText::new(info.text()), &line) {
        return Err(Fail::from("a line"));
    }
    info.show_line(shown, line)?;
    shown.write_order(order)?;
    Ok(())
}

fn order_of(alloc: Global, info: &ParagraphBidiInfo<'_>) -> Result<Vec<usize>, Fail> {
    let mut order = vec![in alloc; 9]?;
    let mut shown = ShownLine::new(alloc);
    write_order(info, &mut shown, &mut order)?;
    Ok(order)
}

#[test]
fn order_of_characters(rt: HostRuntime) -> Result<(), Fail> {
    let info = paragraph_info(rt.alloc(), "\u{5D0}\u{5D1} ab", Base::Auto)?;
    let order = order_of(rt.alloc(), &info)?;
    same(&rt, "order", order.as_slice(), [3, 4, 2, 1, 0].as_slice());
    Ok(())
}

// Appends the first paragraph as a line.
fn push_first<'t>(
    info: &utf16::BidiInfo<'t>,
    shown: &mut utf16::ShownLine<'t>,
    pushed: &mut Vec<u16>,
) -> Result<(), Fail> {
    let para = info.paragraphs().first().ok_or("a paragraph")?;
    info.show_line(shown, para, para.range())?;
    shown.push_text(pushed)?;
    Ok(())
}

fn pushed_first(alloc: Global, info: &utf16::BidiInfo<'_>) -> Result<Vec<u16>, Fail> {
    let mut pushed = vec![in alloc; 0x61]?;
    let mut shown = utf16::ShownLine::new(alloc);
    push_first(info, &mut shown, &mut pushed)?;
    Ok(pushed)
}

#[test]
fn utf16_line(rt: HostRuntime) -> Result<(), Fail> {
    let info = utf16_info(rt.alloc(), &[0x5D0, 0xD800, 0xDC00])?;
    let pushed = pushed_first(rt.alloc(), &info)?;
    let wanted = [0x61, 0xD800, 0xDC00, 0x5D0];
    same(&rt, "text", pushed.as_slice(), wanted.as_slice());
    Ok(())
}
