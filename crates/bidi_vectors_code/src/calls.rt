//! The calls that the C interface makes, for worked lines and texts. The expected results come from the rules P1 to L4
//! and UAX #29.

use bidi_calls::buffers::{AnalysisBuffers, ParagraphBuffers, Settings};
use bidi_calls::display_buffers::DisplayBuffers;
use bidi_calls::display_line::display_line;
use bidi_calls::kept::{KeptAnalyser, analyse_kept};
use bidi_calls::line::CallerLine;
use bidi_calls::line_order::line_order;
use bidi_calls::paragraph_search::find_paragraphs;
use bidi_calls::shown::write_places;
use bidi_calls::whole_text::display_text;
use bidi_numbers::fault::Fault;
use bidi_numbers::structs::Paragraph;
use bidi_numbers::utf32_text::Utf32Text;
use bidi_unicode::UnicodeData;
use std::process::Abort;
use unicode_bidi::text::Utf16Text;

const NONE: usize = usize::MAX;

// Displays a whole paragraph, and compares its text, its order and its places with the expected ones.
fn check(
    rt: &(impl Abort + AllocGlobal),
    chars: &[u32],
    classes: &[u8],
    levels: &[u8],
    level: u8,
    flags: u32,
    text: &[u32],
    order: &[usize],
    places: &[usize],
) {
    let paragraph = &Paragraph {
        start: 0,
        end: chars.len(),
        level,
    };
    let line = &CallerLine {
        classes,
        levels,
        paragraph,
        start: 0,
        end: chars.len(),
    };
    let mut text_room = [0u32; 16];
    let mut order_room = [0usize; 16];
    let mut places_room = [0usize; 16];
    let mut shown = 0;
    let mut characters = 0;
    let mut out = DisplayBuffers {
        text: &mut text_room,
        order: &mut order_room,
        places: &mut places_room,
        shown: &mut shown,
        characters: &mut characters,
    };
    let result = display_line::<Utf32Text>(rt.alloc(), chars, line, flags, &mut out);
    assert_eq!(rt; result, Ok(text.len()));
    assert_eq!(rt; shown, order.len());
    assert_eq!(rt; characters, places.len());
    assert!(rt; text_room.starts_with(text));
    assert!(rt; order_room.starts_with(order));
    assert!(rt; places_room.starts_with(places));
}

// Alef, bet and an opening bracket at level 1, mirrored or not.
#[test]
fn mirrored_bracket(rt: HostRuntime) {
    let chars = [0x5D0, 0x5D1, 0x28];
    let classes = [1, 1, 13];
    let levels = [1, 1, 1];
    check(
        &rt,
        &chars,
        &classes,
        &levels,
        1,
        4,
        &[0x29, 0x5D1, 0x5D0],
        &[2, 1, 0],
        &[2, 1, 0],
    );
    check(
        &rt,
        &chars,
        &classes,
        &levels,
        1,
        0,
        &[0x28, 0x5D1, 0x5D0],
        &[2, 1, 0],
        &[2, 1, 0],
    );
}

// A mark follows its base or not.
#[test]
fn mark(rt: HostRuntime) {
    let chars = [0x5D0, 0x5B8, 0x5D1];
    let classes = [1, 8, 1];
    let levels = [1, 1, 1];
    check(
        &rt,
        &chars,
        &classes,
        &levels,
        1,
        0,
        &[0x5D1, 0x5B8, 0x5D0],
        &[2, 1, 0],
        &[2, 1, 0],
    );
    check(
        &rt,
        &chars,
        &classes,
        &levels,
        1,
        1,
        &[0x5D1, 0x5D0, 0x5B8],
        &[2, 0, 1],
        &[1, 2, 0],
    );
    check(
        &rt,
        &chars,
        &classes,
        &levels,
        1,
        2,
        &[0x5D1, 0x5D0, 0x5B8],
        &[2, 0, 1],
        &[1, 2, 0],
    );
}

// RLM is dropped, and so is ZWJ with the flag for class BN.
#[test]
fn controls(rt: HostRuntime) {
    let chars = [0x61, 0x200F, 0x200D, 0x5D0];
    let classes = [0, 1, 9, 1];
    let levels = [0, 1, 1, 1];
    check(
        &rt,
        &chars,
        &classes,
        &levels,
        0,
        0,
        &[0x61, 0x5D0, 0x200D, 0x200F],
        &[0, 3, 2, 1],
        &[0, 3, 2, 1],
    );
    check(
        &rt,
        &chars,
        &classes,
        &levels,
        0,
        8,
        &[0x61, 0x5D0, 0x200D],
        &[0, 3, 2],
        &[0, NONE, 2, 1],
    );
    check(
        &rt,
        &chars,
        &classes,
        &levels,
        0,
        16,
        &[0x61, 0x5D0],
        &[0, 3],
        &[0, NONE, NONE, 1],
    );
}

// A family of emoji stays whole at an odd level if clusters move.
#[test]
fn emoji(rt: HostRuntime) {
    let chars = [0x5D0, 0x1F469, 0x200D, 0x1F467];
    let classes = [1, 13, 9, 13];
    let levels = [1, 1, 1, 1];
    check(
        &rt,
        &chars,
        &classes,
        &levels,
        1,
        2,
        &[0x1F469, 0x200D, 0x1F467, 0x5D0],
        &[1, 2, 3, 0],
        &[3, 0, 1, 2],
    );
    check(
        &rt,
        &chars,
        &classes,
        &levels,
        1,
        0,
        &[0x1F467, 0x200D, 0x1F469, 0x5D0],
        &[3, 2, 1, 0],
        &[3, 2, 1, 0],
    );
}

// The first paragraph is from right to left, and the second from left to right. Each gets its level from its characters.
const TWO_PARAGRAPHS: [u32; 6] = [0x5D0, 0x5B8, 0x5D1, 0x28, 0x0A, 0x61];

const BY_CHARACTERS: Settings = Settings {
    base: 255,
    split: 1,
};

// The bracket is mirrored, the mark follows its letter, and the separator follows its paragraph.
#[test]
fn text_of_two_paragraphs(rt: HostRuntime) {
    let mut levels = [0u8; 6];
    let mut text = [0u32; 6];
    let mut order = [0usize; 6];
    let mut places = [0usize; 6];
    let mut shown = 0;
    let mut characters = 0;
    let mut out = DisplayBuffers {
        text: &mut text,
        order: &mut order,
        places: &mut places,
        shown: &mut shown,
        characters: &mut characters,
    };
    let result = display_text::<Utf32Text, _>(
        rt.alloc(),
        &UnicodeData,
        &TWO_PARAGRAPHS,
        BY_CHARACTERS,
        5,
        &mut levels,
        &mut out,
    );
    assert_eq!(&rt; result, Ok(6));
    assert_eq!(&rt; shown, 6);
    assert_eq!(&rt; characters, 6);
    assert!(&rt; levels == [1, 1, 1, 1, 1, 0]);
    assert!(&rt; text == [0x29, 0x5D1, 0x5D0, 0x5B8, 0x0A, 0x61]);
    assert!(&rt; order == [3, 2, 0, 1, 4, 5]);
    assert!(&rt; places == [2, 3, 1, 0, 4, 5]);
}

#[test]
fn paragraphs_without_levels(rt: HostRuntime) {
    let none = Paragraph {
        start: 0,
        end: 0,
        level: 0,
    };
    let mut classes = [0u8; 6];
    let mut paragraphs = [none, none];
    let mut out = ParagraphBuffers {
        classes: &mut classes,
        paragraphs: &mut paragraphs,
    };
    let result = find_paragraphs::<Utf32Text, _>(
        rt.alloc(),
        &UnicodeData,
        &TWO_PARAGRAPHS,
        BY_CHARACTERS,
        &mut out,
    );
    assert_eq!(&rt; result, Ok(2));
    assert!(&rt; classes == [1, 8, 1, 13, 10, 0]);
    let first = Paragraph {
        start: 0,
        end: 5,
        level: 1,
    };
    let second = Paragraph {
        start: 5,
        end: 6,
        level: 0,
    };
    assert!(&rt; paragraphs == [first, second]);
}

// A mark stays behind its letter, and the places are the inverse of the order.
#[test]
fn order_by_classes(rt: HostRuntime) {
    let paragraph = &Paragraph {
        start: 0,
        end: 3,
        level: 1,
    };
    let line = &CallerLine {
        classes: &[1, 8, 1],
        levels: &[1, 1, 1],
        paragraph,
        start: 0,
        end: 3,
    };
    let mut order = [0usize; 3];
    let mut places = [0usize; 3];
    let result = line_order(rt.alloc(), line, 1, &mut order, &mut places);
    assert_eq!(&rt; result, Ok(3));
    assert!(&rt; order == [2, 0, 1]);
    assert!(&rt; places == [1, 2, 0]);
    let mut again = [0usize; 3];
    write_places(&order, &mut again);
    assert!(&rt; again == places);
    let result = line_order(rt.alloc(), line, 2, &mut order, &mut places);
    assert_eq!(&rt; result, Err(Fault::BadFlags));
}

// Analyses a text of up to four characters in memory that is kept, and compares its levels with the expected ones.
fn check_kept(
    rt: &(impl Abort + AllocGlobal),
    kept: &mut KeptAnalyser,
    units: &[u16],
    settings: Settings,
    expected: Result<usize, Fault>,
    levels: &[u8],
) {
    let mut class_room = [0u8; 4];
    let mut level_room = [9u8; 4];
    let mut paragraph_room = [Paragraph {
        start: 0,
        end: 0,
        level: 0,
    }];
    let mut out = AnalysisBuffers {
        classes: &mut class_room,
        levels: &mut level_room,
        paragraphs: &mut paragraph_room,
    };
    let text = Utf16Text::new(units);
    let found = analyse_kept(rt.alloc(), kept, &UnicodeData, text, settings, &mut out);
    assert_eq!(rt; found, expected);
    assert!(rt; level_room.starts_with(levels));
}

// An isolate, a fault, and another isolate, in the same memory.
#[test]
fn analyser_that_is_kept(rt: HostRuntime) {
    let mut kept = KeptAnalyser::new(rt.alloc());
    let auto = Settings {
        base: 255,
        split: 1,
    };
    let no_split = Settings {
        base: 255,
        split: 3,
    };
    let latin = [0x5D0, 0x2068, 0x61, 0x2069];
    let hebrew = [0x2067, 0x5D0, 0x2069];
    check_kept(&rt, &mut kept, &latin, auto, Ok(1), &[1, 1, 2, 1]);
    check_kept(
        &rt,
        &mut kept,
        &hebrew,
        no_split,
        Err(Fault::BadSplit),
        &[9, 9, 9, 9],
    );
    check_kept(&rt, &mut kept, &hebrew, auto, Ok(1), &[0, 1, 0, 9]);
}
