//! A small table of classes and brackets for examples and tests.
//!
//! It does not claim to match Unicode's data.

use crate::char_data::BidiClass;

/// Ranges of characters: the first character, the last character and their class.
///
/// All other characters have class L.
pub static RANGES: [(char, char, BidiClass); 36] = [
    ('\u{0009}', '\u{0009}', BidiClass::S),
    ('\u{000A}', '\u{000A}', BidiClass::B),
    ('\u{000D}', '\u{000D}', BidiClass::B),
    ('\u{0020}', '\u{0020}', BidiClass::WS),
    ('\u{0021}', '\u{0022}', BidiClass::ON),
    ('\u{0023}', '\u{0025}', BidiClass::ET),
    ('\u{0026}', '\u{002A}', BidiClass::ON),
    ('\u{002B}', '\u{002B}', BidiClass::ES),
    ('\u{002C}', '\u{002C}', BidiClass::CS),
    ('\u{002D}', '\u{002D}', BidiClass::ES),
    ('\u{002E}', '\u{002F}', BidiClass::CS),
    ('\u{0030}', '\u{0039}', BidiClass::EN),
    ('\u{003A}', '\u{003A}', BidiClass::CS),
    ('\u{003B}', '\u{0040}', BidiClass::ON),
    ('\u{005B}', '\u{0060}', BidiClass::ON),
    ('\u{007B}', '\u{007E}', BidiClass::ON),
    ('\u{00AD}', '\u{00AD}', BidiClass::BN),
    ('\u{0300}', '\u{036F}', BidiClass::NSM),
    ('\u{05D0}', '\u{05EA}', BidiClass::R),
    ('\u{061C}', '\u{061C}', BidiClass::AL),
    ('\u{0627}', '\u{064A}', BidiClass::AL),
    ('\u{0660}', '\u{0669}', BidiClass::AN),
    ('\u{200F}', '\u{200F}', BidiClass::R),
    ('\u{2029}', '\u{2029}', BidiClass::B),
    ('\u{202A}', '\u{202A}', BidiClass::LRE),
    ('\u{202B}', '\u{202B}', BidiClass::RLE),
    ('\u{202C}', '\u{202C}', BidiClass::PDF),
    ('\u{202D}', '\u{202D}', BidiClass::LRO),
    ('\u{202E}', '\u{202E}', BidiClass::RLO),
    ('\u{2066}', '\u{2066}', BidiClass::LRI),
    ('\u{2067}', '\u{2067}', BidiClass::RLI),
    ('\u{2068}', '\u{2068}', BidiClass::FSI),
    ('\u{2069}', '\u{2069}', BidiClass::PDI),
    ('\u{2329}', '\u{232A}', BidiClass::ON),
    ('\u{3008}', '\u{3009}', BidiClass::ON),
    ('\u{FFFD}', '\u{FFFD}', BidiClass::ON),
];

/// Bracket pairs: the opening bracket, the closing bracket, and the normal form of the opening
/// bracket if it differs.
pub static BRACKETS: [(char, char, Option<char>); 5] = [
    ('\u{0028}', '\u{0029}', None),
    ('\u{005B}', '\u{005D}', None),
    ('\u{007B}', '\u{007D}', None),
    ('\u{2329}', '\u{232A}', Some('\u{3008}')),
    ('\u{3008}', '\u{3009}', None),
];
