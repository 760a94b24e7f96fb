//! A test of the flags of the paragraphs that an analyser has found.

use crate::check::same;
use crate::source::sample;
use bidi_text::text::{StrText, TextSource};
use std::process::Abort;
use std::test::Fail;
use unicode_bidi::engine::{Analyser, ParagraphFlags};
use unicode_bidi::{BidiClass, Level, SplitRule};

fn check_flags(rt: &impl Abort, flags: &[ParagraphFlags]) -> Result<(), Fail> {
    let [hebrew, latin] = flags else {
        return Err(Fail::from("two paragraphs"));
    };
    same(rt, "Hebrew", hebrew.is_pure_ltr(), false);
    same(rt, "Latin", latin.is_pure_ltr(), true);
    Ok(())
}

#[test]
fn flags(rt: HostRuntime) -> Result<(), Fail> {
    let text = StrText::new("\u{5D0}\na");
    let mut classes = vec![in rt.alloc(); BidiClass::B; text.len()]?;
    let mut levels = vec![in rt.alloc(); Level::rtl(); text.len()]?;
    let mut analyser = Analyser::new(rt.alloc());
    analyser.analyse(
        rt.alloc(),
        &sample()?,
        text,
        None,
        Some(SplitRule::EachSeparator),
        classes.as_mut_slice(),
        levels.as_mut_slice(),
    )?;
    check_flags(&rt, analyser.flags())
}
