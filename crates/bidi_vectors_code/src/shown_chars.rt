//! Tests of a value that shows lines of a list of characters.

use crate::check::same;
use bidi_base::char_data::BidiClass;
use bidi_base::char_data::BidiClass::{L, R};
use bidi_base::level::Level;
use bidi_lines::analysed::Analysed;
use bidi_lines::shown_line::ShownLine;
use bidi_text::text::{CharsText, is_line, is_per_char};
use std::alloc::Global;
use std::test::Fail;

// Returns a text with these classes and levels.
fn analysed<'t>(
    text: CharsText<'t>,
    classes: Vec<BidiClass>,
    levels: Vec<Level>,
) -> Result<Analysed<CharsText<'t>>, Fail> {
    if !is_per_char(text, classes.as_slice()) || !is_per_char(text, levels.as_slice()) {
        return Err(Fail::from("a class and a level for each character"));
    }
    Ok(Analysed::new(text, classes, levels))
}

// Returns a text of a right-to-left letter and a left-to-right letter with their classes and levels.
fn analysed_letters(alloc: Global, text: CharsText<'_>) -> Result<Analysed<CharsText<'_>>, Fail> {
    let levels = [Level::new(1)?, Level::new(2)?];
    let classes = vec![in alloc; R, L]?;
    analysed(text, classes, Vec::from_slice(alloc, &levels)?)
}

// Shows both characters as one line.
fn show<'t>(
    shown: &mut ShownLine<CharsText<'t>>,
    analysed: &Analysed<CharsText<'t>>,
    pushed: &mut Vec<char>,
) -> Result<(), Fail> {
    let line = 0..2;
    if !is_line(analysed.text(), &line) {
        return Err(Fail::from("a line"));
    }
    shown.show(analysed, Level::rtl(), line)?;
    shown.push_text(pushed)?;
    Ok(())
}

fn shown_text(alloc: Global, analysed: &Analysed<CharsText<'_>>) -> Result<Vec<char>, Fail> {
    let mut shown = ShownLine::of_text(alloc, analysed.text());
    let mut pushed = Vec::new(alloc);
    show(&mut shown, analysed, &mut pushed)?;
    Ok(pushed)
}

#[test]
fn characters(rt: HostRuntime) -> Result<(), Fail> {
    let alloc = rt.alloc();
    let list = ['\u{5D0}', 'a'];
    let analysed = analysed_letters(alloc, CharsText::new(&list))?;
    let pushed = shown_text(alloc, &analysed)?;
    same(&rt, "shown", pushed.as_slice(), ['a', '\u{5D0}'].as_slice());
    Ok(())
}
