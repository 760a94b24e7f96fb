//! Worked runs of `bidi_show` over a slice: how each ends, and what it writes to a list.

use crate::show_run::run_with;
use bidi_show_run::ShowFault;
use std::process::Abort;
use std::test::Fail;

// Runs the program with these arguments and this input, and compares how it ends and its output.
fn check(
    rt: &(impl Abort + AllocGlobal),
    arguments: &[&str],
    input: &[u8],
    outcome: Result<(), ShowFault>,
    output: &str,
) -> Result<(), Fail> {
    let run = run_with(rt.alloc(), arguments, input, Vec::new(rt.alloc()))?;
    assert_eq!(rt; run.outcome, outcome);
    assert_eq!(rt; run.writer.into_inner().as_slice(), output.as_bytes());
    Ok(())
}

#[test]
fn the_order_of_levels(rt: HostRuntime) -> Result<(), Fail> {
    let arguments = ["map", "0", "0", "0", "1", "1", "1", "2", "2"];
    check(&rt, &arguments, b"", Ok(()), "0 1 2 6 7 5 4 3\n")
}

#[test]
fn no_levels(rt: HostRuntime) -> Result<(), Fail> {
    check(&rt, &["map"], b"", Ok(()), "\n")
}

#[test]
fn a_level_too_high(rt: HostRuntime) -> Result<(), Fail> {
    check(&rt, &["map", "127"], b"", Err(ShowFault::Usage), "")
}

#[test]
fn an_empty_input(rt: HostRuntime) -> Result<(), Fail> {
    check(&rt, &["show", "auto"], b"", Ok(()), "")
}

#[test]
fn a_byte_that_is_not_utf8(rt: HostRuntime) -> Result<(), Fail> {
    check(&rt, &["show", "auto"], b"\xFF", Err(ShowFault::NotUtf8), "")
}

#[test]
fn another_argument(rt: HostRuntime) -> Result<(), Fail> {
    check(
        &rt,
        &["show", "sideways"],
        b"\xFF",
        Err(ShowFault::Usage),
        "",
    )
}

#[test]
fn two_paragraphs(rt: HostRuntime) -> Result<(), Fail> {
    let output = "paragraph 0..2 level 0\nlevels 0 0\ntext a\n\
                  paragraph 2..4 level 1\nlevels 1\ntext \u{5D0}\n";
    check(
        &rt,
        &["show", "auto"],
        "a\n\u{5D0}".as_bytes(),
        Ok(()),
        output,
    )
}

#[test]
fn letters_at_level_1(rt: HostRuntime) -> Result<(), Fail> {
    let output = "paragraph 0..4 level 1\nlevels 2 2 2 1\ntext a b\n";
    check(&rt, &["show", "rtl"], b"a b\n", Ok(()), output)
}

#[test]
fn lines_of_two_characters(rt: HostRuntime) -> Result<(), Fail> {
    check(&rt, &["lines", "ltr", "2"], b"abc\n", Ok(()), "ab\nc\n")
}
