//! Tests of what `{:?}` prints of an info: the fields that its type has in the ported crate.

use crate::check::same;
use crate::source::{bidi_info, paragraph_info, sample, utf16_info};
use bidi_terminal::Base;
use std::fmt;
use std::process::Abort;
use std::test::Fail;
use unicode_bidi::{BidiInfo, InitialInfo, Paragraph, ParagraphBidiInfo, utf16};

// A value whose `fmt` calls that of an info. A function that formats this value is proved. The kit proves none that
// passes the info itself to a format.
#[derive(Drop)]
enum Printed<'a, 't> {
    Info(&'a BidiInfo<'t>),
    Utf16Info(&'a utf16::BidiInfo<'t>),
    ParagraphInfo(&'a ParagraphBidiInfo<'t>),
    InitialInfo(&'a InitialInfo<'t>),
    Paragraph(&'a Paragraph<'a, 't>),
}

impl fmt::Display for Printed<'_, '_> {
    fn fmt<W: fmt::Write>(&self, f: &mut fmt::Formatter<W>) -> fmt::Result {
        match self {
            Printed::Info(info) => fmt::Debug::fmt(*info, f),
            Printed::Utf16Info(info) => fmt::Debug::fmt(*info, f),
            Printed::ParagraphInfo(info) => fmt::Debug::fmt(*info, f),
            Printed::InitialInfo(info) => fmt::Debug::fmt(*info, f),
            Printed::Paragraph(paragraph) => fmt::Debug::fmt(*paragraph, f),
        }
    }
}

// Compares what is printed.
fn check(
    rt: &(impl Abort + AllocGlobal),
    printed: Printed<'_, '_>,
    wanted: &str,
) -> Result<(), Fail> {
    let text = format!(in rt.alloc(); "{printed}")?;
    same(rt, "printed", text.as_str(), wanted);
    Ok(())
}

const INFO: &str = "BidiInfo { text: \"a\", original_classes: [L], levels: [Level(0)], \
    paragraphs: [ParagraphInfo { range: 0..1, level: Level(0) }] }";

#[test]
fn info(rt: HostRuntime) -> Result<(), Fail> {
    let info = bidi_info(rt.alloc(), "a", Base::Auto)?;
    check(&rt, Printed::Info(&info), INFO)
}

#[test]
fn utf16_info_and_its_units(rt: HostRuntime) -> Result<(), Fail> {
    let info = utf16_info(rt.alloc(), &[0x61])?;
    let wanted = "BidiInfo { text: [97], original_classes: [L], levels: [Level(0)], \
        paragraphs: [ParagraphInfo { range: 0..1, level: Level(0) }] }";
    check(&rt, Printed::Utf16Info(&info), wanted)
}

#[test]
fn one_paragraph(rt: HostRuntime) -> Result<(), Fail> {
    let info = paragraph_info(rt.alloc(), "a", Base::Auto)?;
    let wanted = "ParagraphBidiInfo { text: \"a\", original_classes: [L], levels: [Level(0)], \
        paragraph_level: Level(0), is_pure_ltr: true }";
    check(&rt, Printed::ParagraphInfo(&info), wanted)
}

#[test]
fn initial_info(rt: HostRuntime) -> Result<(), Fail> {
    let info = InitialInfo::new_with_data_source(rt.alloc(), &sample()?, "a", None)?;
    let wanted = "InitialInfo { text: \"a\", original_classes: [L], \
        paragraphs: [ParagraphInfo { range: 0..1, level: Level(0) }] }";
    check(&rt, Printed::InitialInfo(&info), wanted)
}

// Prints the first paragraph of a text.
fn check_paragraph(rt: &(impl Abort + AllocGlobal), info: &BidiInfo<'_>) -> Result<(), Fail> {
    let first = info.paragraphs().first().ok_or("a paragraph")?;
    let wanted = format!(in rt.alloc(); "Paragraph {{ info: {INFO}, para: {first:?} }}")?;
    let paragraph = Paragraph::new(info, first);
    check(rt, Printed::Paragraph(&paragraph), wanted.as_str())
}

#[test]
fn paragraph(rt: HostRuntime) -> Result<(), Fail> {
    let info = bidi_info(rt.alloc(), "a", Base::Auto)?;
    check_paragraph(&rt, &info)
}
