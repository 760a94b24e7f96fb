//! The clusters of worked texts, in each encoding. The expected ones come from the rules of UAX #29 and from Unicode's
//! `GraphemeBreakTest.txt`.

use bidi_display::clusters::Clusters;
use bidi_text::text::{CharsText, StrText, TextSource, Utf16Text};
use std::process::Abort;
use std::test::Fail;

// Texts, each as the list of its clusters.
const TEXTS: [&[&str]; 28] = [
    // GB1, GB2: an empty text has no cluster.
    &[],
    // GB3 to GB5: CR LF is one cluster, and nothing joins a control.
    &["a", "\r\n", "\n", "\r", "b"],
    &["\n", "\u{308}", "\u{2028}", "\u{301}"],
    &["\u{5D0}", "\u{5D1}", "\u{200F}", "\u{5B8}", "\u{5D2}"],
    &["\u{202E}"],
    // GB6 to GB8: Hangul, as letters and as syllables.
    &["\u{1100}\u{1161}\u{11A8}", "\u{1100}\u{1100}\u{AC00}"],
    &["\u{AC00}\u{11A8}", "\u{1100}\u{AC01}\u{11A8}", "\u{1100}"],
    // GB9: marks, also on a space and at the start; ZWJ and ZWNJ.
    &["a", " \u{301}"],
    &["\u{301}", "a\u{308}\u{301}"],
    &["\u{200D}"],
    &["\u{5D0}", "\u{5D1}", "x", "y\u{200C}"],
    // Hebrew with points: shin with its dot and hiriq.
    &["\u{5E9}\u{5C1}\u{5B4}", "\u{5D1}\u{5BC}\u{5B0}", "\u{5D2}"],
    // Arabic with shadda and fatha; lam with alef.
    &[
        "\u{645}\u{64F}",
        "\u{62D}\u{64E}",
        "\u{645}\u{651}\u{64E}",
        "\u{62F}",
    ],
    &["\u{644}", "\u{627}"],
    // GB9a: visarga, and Thai SARA AM.
    &["\u{5D0}", "\u{5D1}\u{903}", "\u{5D2}"],
    &["\u{E01}\u{E33}", "\u{E01}"],
    // GB9b: the Arabic number sign.
    &["\u{5D0}", "\u{600}(", "\u{5D1}", ")"],
    // GB9c: Devanagari conjuncts, also with nukta and ZWJ. ZWNJ separates; a virama alone joins no Latin letter.
    &["\u{915}\u{94D}\u{937}\u{93F}", "\u{915}", "\u{937}"],
    &["\u{915}\u{93C}\u{94D}\u{200D}\u{937}\u{94D}\u{92F}"],
    &["\u{915}\u{94D}\u{200C}", "\u{937}", "\u{915}\u{94D}", "a"],
    // GB11: a family with skin tones; a ZWJ after a letter; two ZWJs.
    &[
        "\u{1F469}\u{1F3FD}\u{200D}\u{1F469}\u{200D}\u{1F467}",
        "\u{1F467}",
    ],
    &["a\u{200D}", "\u{1F467}", "\u{2702}\u{200D}\u{2702}"],
    &["\u{1F476}\u{1F3FF}\u{308}\u{200D}\u{1F476}\u{1F3FF}"],
    &["\u{1F469}\u{200D}\u{200D}", "\u{1F467}\u{200D}", "a"],
    // GB12, GB13: flags.
    &["\u{1F1EE}\u{1F1F1}", "\u{1F1EC}\u{1F1E7}", "\u{1F1EE}"],
    &["a", "\u{1F1E6}\u{200D}", "\u{1F1E7}\u{1F1E8}", "b"],
    // GB999: keycaps, and text without marks.
    &["1\u{FE0F}\u{20E3}", "#\u{FE0F}\u{20E3}"],
    &["a", "\u{5D0}", "\u{4E00}", "\u{1F600}", "\u{A9}"],
];

// Returns how many code units a string takes in an encoding.
fn units_of<T: TextSource>(piece: &str) -> usize {
    let mut units = 0usize;
    for c in piece.chars() {
        units = units.wrapping_add(T::char_len(c));
    }
    units
}

// Compares the clusters of a text with these pieces of it.
fn check<T: TextSource + Drop>(rt: &impl Abort, text: T, pieces: &[&str]) {
    let mut clusters = Clusters::new(text);
    let mut start = 0usize;
    for piece in pieces {
        let end = start.wrapping_add(units_of::<T>(piece));
        assert_eq!(rt; clusters.next(), Some(start..end), "{piece:?}");
        start = end;
    }
    assert_eq!(rt; clusters.next(), None, "{pieces:?}");
}

// Compares the clusters of a text with these pieces of it, in each encoding.
fn check_encodings(rt: &(impl Abort + AllocGlobal), pieces: &[&str]) -> Result<(), Fail> {
    let mut text = String::new(rt.alloc());
    for piece in pieces {
        text.push_str(piece)?;
    }
    let text = text.as_str();
    check(rt, StrText::new(text), pieces);
    let units: Vec<u16> = text.encode_utf16().collect(rt.alloc())?;
    check(rt, Utf16Text::new(units.as_slice()), pieces);
    let chars: Vec<char> = text.chars().collect(rt.alloc())?;
    check(rt, CharsText::new(chars.as_slice()), pieces);
    Ok(())
}

#[test]
fn worked_texts(rt: HostRuntime) -> Result<(), Fail> {
    for pieces in TEXTS {
        check_encodings(&rt, pieces)?;
    }
    Ok(())
}

// A lone surrogate is U+FFFD, to which a mark joins.
#[test]
fn lone_surrogates(rt: HostRuntime) {
    let pieces = ["\u{FFFD}\u{301}", "\u{FFFD}"];
    check(&rt, Utf16Text::new(&[0xD800, 0x301, 0xDC00]), &pieces);
}
