//! Texts of classes and brackets alone, and what their data source says of them. The expected values are worked by
//! hand.

use crate::text::{BRACKET_OPENS, ClassData, ClassText, TextSource, bracket_codes_fault, is_line};
use bidi_base::char_data::BidiClass;
use bidi_base::data_source::BidiDataSource;
use std::process::Abort;
use std::test::Fail;

// A character, its class, and its bracket: the opening one of the pair, and whether the bracket opens.
type Row = (char, BidiClass, Option<(char, bool)>);

// Returns what the data source says of a character.
fn row(c: char) -> Row {
    let bracket = match ClassData.bidi_matched_opening_bracket(c) {
        Some(bracket) => Some((bracket.opening, bracket.is_open)),
        None => None,
    };
    (c, ClassData.bidi_class(c), bracket)
}

// Compares the characters of a text, and what the data source says of them.
fn check(rt: &(impl Abort + AllocGlobal), text: ClassText<'_>, rows: &[Row]) -> Result<(), Fail> {
    let chars: Vec<char> = text.chars().collect(rt.alloc())?;
    assert_eq!(rt; chars.len(), rows.len());
    assert_eq!(rt; text.len(), rows.len());
    for (k, (c, expected)) in chars.iter().zip(rows).enumerate() {
        assert_eq!(rt; row(*c), *expected);
        assert_eq!(rt; text.char_at(k), Some((*c, 1)));
    }
    assert_eq!(rt; text.char_at(rows.len()), None);
    Ok(())
}

#[test]
fn classes_alone(rt: HostRuntime) -> Result<(), Fail> {
    let classes = [BidiClass::R, BidiClass::ON, BidiClass::L, BidiClass::PDI];
    let rows = [
        ('\u{1}', BidiClass::R, None),
        ('\u{D}', BidiClass::ON, None),
        ('\u{0}', BidiClass::L, None),
        ('\u{16}', BidiClass::PDI, None),
    ];
    check(&rt, ClassText::new(&classes, &[]), &rows)?;
    check(&rt, ClassText::new(&[], &[]), &[])
}

// A bracket counts only where the class is ON.
#[test]
fn classes_and_brackets(rt: HostRuntime) -> Result<(), Fail> {
    let classes = [
        BidiClass::ON,
        BidiClass::EN,
        BidiClass::ON,
        BidiClass::AN,
        BidiClass::ON,
    ];
    let codes = [BRACKET_OPENS + 0x28, 0x5B, 0x28, 0, 0x7FFFF];
    let rows = [
        ('\u{80028}', BidiClass::ON, Some(('(', true))),
        ('\u{3}', BidiClass::EN, None),
        ('(', BidiClass::ON, Some(('(', false))),
        ('\u{6}', BidiClass::AN, None),
        ('\u{7FFFF}', BidiClass::ON, Some(('\u{7FFFF}', false))),
    ];
    let text = ClassText::new(&classes, &codes);
    check(&rt, text, &rows)?;
    let line = 1..3;
    assert!(&rt; is_line(text, &line));
    check(&rt, text.subrange(line), &rows[1..3])
}

#[test]
fn characters_of_no_text(rt: HostRuntime) {
    assert_eq!(&rt; row('\u{17}'), ('\u{17}', BidiClass::ON, None));
    assert_eq!(&rt; row('\u{1F}'), ('\u{1F}', BidiClass::ON, None));
    // The opening bracket would be a surrogate.
    assert_eq!(&rt; row('\u{8D800}'), ('\u{8D800}', BidiClass::ON, None));
}

#[test]
fn faulty_codes(rt: HostRuntime) {
    let good = [
        0,
        0x20,
        0xD7FF,
        0xE000,
        0x7FFFF,
        BRACKET_OPENS + 0x20,
        BRACKET_OPENS + 0x7FFFF,
    ];
    assert_eq!(&rt; bracket_codes_fault(&good), None);
    for code in [
        1,
        0x1F,
        0xD800,
        0xDFFF,
        0x80000,
        BRACKET_OPENS,
        BRACKET_OPENS + 0x1F,
        BRACKET_OPENS + 0xD800,
        BRACKET_OPENS + 0x80000,
        u32::MAX,
    ] {
        assert_eq!(&rt; bracket_codes_fault(&[0, code, 1]), Some(1));
    }
}
