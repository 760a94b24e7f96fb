//! Tests of lines of a given width.

use crate::check::same;
use crate::source::bidi_info;
use bidi_terminal::Base;
use std::alloc::{AllocError, Global};
use std::test::Fail;
use unicode_bidi::BidiInfo;
use unicode_bidi::layout::{CharWidth, lines};

// One width for every character.
#[derive(Clone, Copy)]
struct OneEach;

impl CharWidth for OneEach {
    ghost width_of = { λ _ _. 1 };

    fn width(&self, _c: char) -> usize {
        1
    }
}

fn push_ended(shown: &mut String, line: &str) -> Result<(), AllocError> {
    shown.push_str(line)?;
    shown.push('|')?;
    Ok(())
}

// Appends the lines of all paragraphs as they are displayed, with a bar after each.
fn push_shown(alloc: Global, info: &BidiInfo<'_>, shown: &mut String) -> Result<(), AllocError> {
    for para in info.paragraphs() {
        for line in lines(alloc, info, para, &OneEach, 4)? {
            let line = info.reorder_line(alloc, para, line)?;
            push_ended(shown, line.as_str())?;
        }
    }
    Ok(())
}

// Each line can be displayed without a test.
#[test]
fn lines_that_are_shown(rt: HostRuntime) -> Result<(), Fail> {
    let info = bidi_info(rt.alloc(), "\u{5D0}\u{5D1} ab\n", Base::Auto)?;
    let mut shown = String::new(rt.alloc());
    push_shown(rt.alloc(), &info, &mut shown)?;
    same(&rt, "lines", shown.as_str(), "a \u{5D1}\u{5D0}|\nb|");
    Ok(())
}
