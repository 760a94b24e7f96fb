//! Texts with isolates, embeddings, brackets and numbers.

/// A text with a right-to-left second paragraph.
#[rattlefmt::skip]
pub const TEXT: &str = "a\n\u{5D0}(\u{2067}b\u{2069})1 ";

/// That text in UTF-16, with an unpaired surrogate.
#[rattlefmt::skip]
pub static UNITS: [u16; 11] = [0x61, 0xA, 0x5D0, 0xD800, 0x28, 0x2067, 0x62, 0x2069, 0x29, 0x31, 0x20];

/// The number of characters of the second paragraph.
pub const LENGTH: usize = 8;

/// The second paragraph as a list of characters.
#[rattlefmt::skip]
pub static CHARACTERS: [char; LENGTH] = ['\u{5D0}', '(', '\u{2067}', 'b', '\u{2069}', ')', '1', ' '];

/// A text with more isolates than a list has room for before it grows.
#[rattlefmt::skip]
pub const LONG_TEXT: &str = "\u{5D0}\u{2066}a\u{2067}(b)\u{2066}[\u{5D1}]\u{2068}c\u{2066}1\u{2069}\u{2069}\u{2069}\u{2069}\u{2069}";

/// A text of one paragraph without isolates.
pub const WITHOUT_ISOLATES: &str = "a \u{202B}(\u{5D0})\u{202C}";
