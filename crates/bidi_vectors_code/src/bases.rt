//! Tests of texts with a base. The expected levels are worked by hand.
ghost use Rattle.unicode_bidi.specs.Base.{HasLowLevel};

use bidi_base::data_source::TableBidiData;
use bidi_base::level::{LTR_LEVEL, Level, RTL_LEVEL};
use bidi_base::sample;
use bidi_text::text::{StrText, TextSource, Utf16Text};
use std::process::Abort;
use std::test::Fail;
use unicode_bidi::info::{BidiInfo, ParagraphBidiInfo};
use unicode_bidi::{Base, SplitRule};

fn source() -> Result<TableBidiData<'static>, Fail> {
    TableBidiData::new(&sample::RANGES, &sample::BRACKETS).map_err(|_| Fail::from("the sample"))
}

// Compares levels with these numbers.
fn same_levels(rt: &impl Abort, levels: &[Level], numbers: &[u8]) {
    assert_eq!(rt; levels.len(), numbers.len());
    for (level, number) in levels.iter().zip(numbers) {
        assert_eq!(rt; level.number(), *number);
    }
}

// Compares a text that is one paragraph with its level and its levels.
fn check_paragraph<T: TextSource + Drop>(
    rt: &(impl Abort + AllocGlobal),
    text: T,
    base: Base,
    level: u8,
    levels: &[u8],
) -> Result<(), Fail>
    requires { HasLowLevel base }
{
    let info = ParagraphBidiInfo::of_text_with_base(rt.alloc(), &source()?, text, base)?;
    assert_eq!(rt; info.paragraph_level().number(), level);
    same_levels(rt, info.levels(), levels);
    Ok(())
}

// By W4, the `:` between digits is EN. By I2, EN has level 2; the space and the `?` have the paragraph level (N1, N2).
#[test]
fn no_character_decides(rt: HostRuntime) -> Result<(), Fail> {
    let text = StrText::new("12:30 ?");
    let from_right = [2, 2, 2, 2, 2, 1, 1];
    check_paragraph(&rt, text, Base::AutoOr(RTL_LEVEL), 1, &from_right)?;
    check_paragraph(&rt, text, Base::AutoOr(LTR_LEVEL), 0, &[0; 7])?;
    check_paragraph(&rt, text, Base::Auto, 0, &[0; 7])?;
    check_paragraph(&rt, text, Base::Level(RTL_LEVEL), 1, &from_right)?;
    check_paragraph(&rt, StrText::new(""), Base::AutoOr(RTL_LEVEL), 1, &[])
}

#[test]
fn a_character_decides(rt: HostRuntime) -> Result<(), Fail> {
    check_paragraph(
        &rt,
        StrText::new("abc"),
        Base::AutoOr(RTL_LEVEL),
        0,
        &[0; 3],
    )?;
    check_paragraph(&rt, StrText::new("1a"), Base::AutoOr(RTL_LEVEL), 0, &[0; 2])?;
    // A separator inside the paragraph does not end the search.
    check_paragraph(
        &rt,
        StrText::new("1\na"),
        Base::AutoOr(RTL_LEVEL),
        0,
        &[0; 3],
    )?;
    let hebrew = Utf16Text::new(&[0x31, 0x5D0]);
    check_paragraph(&rt, hebrew, Base::AutoOr(LTR_LEVEL), 1, &[2, 1])
}

// No character inside an isolate decides. The initiator and the PDI have the paragraph level. Inside is the next odd
// level (X5a), 3 or 1, and L is one above it (I2).
#[test]
fn isolated_characters(rt: HostRuntime) -> Result<(), Fail> {
    let text = Utf16Text::new(&[0x2067, 0x61, 0x62, 0x63, 0x2069]);
    check_paragraph(&rt, text, Base::AutoOr(RTL_LEVEL), 1, &[1, 4, 4, 4, 1])?;
    check_paragraph(&rt, text, Base::Auto, 0, &[0, 2, 2, 2, 0])?;
    // After the PDI, a character decides.
    let closed = Utf16Text::new(&[0x2067, 0x61, 0x2069, 0x62]);
    check_paragraph(&rt, closed, Base::AutoOr(RTL_LEVEL), 0, &[0, 2, 0, 0])
}

#[test]
fn paragraphs(rt: HostRuntime) -> Result<(), Fail> {
    let text = Utf16Text::new(&[0x31, 0x32, 0x33, 0x0A, 0x61, 0x0A, 0x5D0]);
    let base = Base::AutoOr(RTL_LEVEL);
    let rule = SplitRule::EachSeparator;
    let info = BidiInfo::of_text_with_base(rt.alloc(), &source()?, text, base, rule)?;
    let [digits, latin, hebrew] = info.paragraphs() else {
        return Err(Fail::from("three paragraphs"));
    };
    assert_eq!(rt; (digits.range(), digits.level().number()), (0..4, 1));
    assert_eq!(rt; (latin.range(), latin.level().number()), (4..6, 0));
    assert_eq!(rt; (hebrew.range(), hebrew.level().number()), (6..7, 1));
    same_levels(&rt, info.levels(), &[2, 2, 2, 1, 0, 0, 1]);
    Ok(())
}

#[test]
fn optional_levels(rt: HostRuntime) {
    assert_eq!(rt; Base::from(Some(RTL_LEVEL)), Base::Level(RTL_LEVEL));
    assert_eq!(rt; Base::from(None), Base::Auto);
}
