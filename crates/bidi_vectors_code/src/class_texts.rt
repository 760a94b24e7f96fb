//! Tests of levels that are found from classes and brackets alone. The expected levels are worked by hand.

use bidi_text::text::{BRACKET_OPENS, ClassData, ClassText};
use std::process::Abort;
use std::test::Fail;
use unicode_bidi::BidiClass;
use unicode_bidi::engine::analyse;

// Compares the levels of a text whose paragraphs get their levels from their characters.
fn check(
    rt: &(impl Abort + AllocGlobal),
    text: ClassText<'_>,
    classes: &[BidiClass],
    levels: &[u8],
) -> Result<(), Fail> {
    let analysis = analyse(rt.alloc(), &ClassData, text, None, true)?;
    assert_eq!(rt; analysis.original_classes(), classes);
    assert_eq!(rt; analysis.levels().len(), levels.len());
    for (found, expected) in analysis.levels().iter().zip(levels) {
        assert_eq!(rt; found.number(), *expected);
    }
    Ok(())
}

// The pair takes the direction of the paragraph, because the character before it is L (N0, c2). Without the pair, the
// second ON is between two R (N1).
#[test]
fn pair_between_directions(rt: HostRuntime) -> Result<(), Fail> {
    let classes = [
        BidiClass::L,
        BidiClass::ON,
        BidiClass::R,
        BidiClass::ON,
        BidiClass::R,
    ];
    let codes = [0, BRACKET_OPENS + 0x28, 0, 0x28, 0];
    let paired = ClassText::new(&classes, &codes);
    check(&rt, paired, &classes, &[0, 0, 1, 0, 1])?;
    let unpaired = ClassText::new(&classes, &[]);
    check(&rt, unpaired, &classes, &[0, 0, 1, 1, 1])
}
