//! Unicode's data as a `BidiDataSource`.
ghost use Rattle.std.specs.Prelude.{◌≡◌, ◌<◌, Some, option_map, option_and_then, None, IsSome, IfSome, IfNone, IsTrue};
ghost use Rattle.bidi_unicode.specs.Unicode.{class_named, bracket_of, bracket_in, normal_form, mirrored_of, unicode_source, is_opening, is_closing, other_bracket, is_mirrored_in};
ghost use Rattle.bidi_unicode.specs.Rows.{row_value, IsRowOf};
ghost use Rattle.bidi_unicode.specs.declared.tables.TheConstants.{BRACKETS, MIRRORED};
ghost use Rattle.ucd_bidi.specs.Binary.{is_bidi_mirrored};
ghost use Rattle.ucd_category.specs.declared.GeneralCategory.TheVariants.{OpenPunctuation, ClosePunctuation};

use crate::low_classes::LOW_CLASSES;
use crate::plane_classes::{BLOCK, BLOCK_CLASSES, BLOCK_OF};
use crate::rows;
use crate::tables::{BRACKETS, MIRRORED, Side};
use bidi_base::char_data::BidiClass;
use bidi_base::data_source::{BidiDataSource, BidiMatchedOpeningBracket};
use ucd_bidi::BidiClass as Property;

/// The data source over Unicode's own data.
///
/// It has the Bidi_Class of every character, assigned or not, and Unicode's bracket pairs. U+2329 and U+232A count as
/// U+3008 and U+3009, their canonical equivalents (BD16). The class of a character up to U+FFFF is an array look-up,
/// and any other is looked up in the kit's table. A bracket from U+0F3A on takes a binary search.
#[derive(Clone, Copy, Debug, Default)]
pub struct UnicodeData;

#[tactic(auto, unfolding(crate::specs::Unicode::unicode_source))]
impl BidiDataSource for UnicodeData {
    ghost use Rattle.bidi_unicode.specs.Unicode.{unicode_source};

    ghost source = { λ _. unicode_source };

    fn bidi_class(&self, c: char) -> BidiClass {
        let at = c as usize;
        if at < LOW_CLASSES.len() {
            LOW_CLASSES[at]
        } else if at < BLOCK_OF.len() * BLOCK {
            class_in_plane(at)
        } else {
            class_beyond(c)
        }
    }

    fn bidi_matched_opening_bracket(&self, c: char) -> Option<BidiMatchedOpeningBracket>
        ensures bracket { result ≡ unicode_source.bracket_of c }
        // The opening brackets are the mirrored characters of general category Ps. The closing ones are
        // those of category Pe.
        ensures opening { is_opening result ≡ is_mirrored_in OpenPunctuation c }
        ensures closing { is_closing result ≡ is_mirrored_in ClosePunctuation c }
        // The mirrored partner of a bracket is the other bracket of its pair.
        ensures pair { option_and_then bracket_of (mirrored_of c) ≡ option_map other_bracket result }
    {
        bracket_of(c)
    }
}

/// Returns the mirrored partner of a character (L4), which is displayed instead of it at an odd level.
///
/// Returns `None` if the table has no partner. Some characters that Unicode calls mirrored have none. A character from
/// U+0F3A on takes a binary search.
///
/// The table has the partners of Unicode 15.0, and the pair of brackets U+2E62 and U+2E63. The other
/// characters that have become mirrored since then, up to `UNICODE_VERSION`, have no partner here: U+226D,
/// U+1CEDD to U+1CEDF, U+1DB03 to U+1DB09, U+1DB10, U+1DB17, U+1DB18 and U+1DB1B.
pub fn mirrored(c: char) -> Option<char>
    ensures partner { result ≡ mirrored_of c }
    ensures mirrored { IsSome result → IsTrue (is_bidi_mirrored c) }
    ensures back { IfSome result (λ partner. mirrored_of partner ≡ Some c) }
{
    let index = if c < '\u{0F3A}' {
        early_mirrored_row(c)?
    } else {
        rows::index_of(&MIRRORED, c)?
    };
    let (_, partner) = MIRRORED[index];
    Some(partner)
}

/// Returns the class of a character of the Basic Multilingual Plane.
fn class_in_plane(c: usize) -> BidiClass
    requires { c < 0x10000 }
    ensures { result ≡ unicode_source.class_of c }
{
    BLOCK_CLASSES[BLOCK_OF[c / BLOCK] as usize * BLOCK + c % BLOCK]
}

/// Returns the class of a character above U+FFFF, from the kit's tables.
#[inline(never)]
#[tactic(auto, unfolding(crate::specs::Unicode::unicode_source))]
fn class_beyond(c: char) -> BidiClass
    ensures { result ≡ unicode_source.class_of c }
{
    class_named(Property::for_char(c))
}

/// Returns the bracket that a character is, or `None` if it is none.
fn bracket_of(c: char) -> Option<BidiMatchedOpeningBracket>
    ensures { result ≡ bracket_of c }
{
    let index = if c < '\u{0F3A}' {
        early_row(c)?
    } else {
        rows::index_of(&BRACKETS, c)?
    };
    let (_, (partner, side)) = BRACKETS[index];
    Some(bracket_in(c, partner, side))
}

/// Returns the index in the table of brackets of a character below U+0F3A, or `None` if it is no bracket. All brackets
/// in that range are ASCII.
fn early_row(c: char) -> Option<usize>
    requires { c < 0x0F3A }
    ensures found { IfSome result (IsRowOf BRACKETS c) }
    ensures absent { IfNone result (row_value BRACKETS c ≡ None) }
{
    match c {
        '(' => Some(0),
        ')' => Some(1),
        '[' => Some(2),
        ']' => Some(3),
        '{' => Some(4),
        '}' => Some(5),
        _ => None,
    }
}

/// Returns the index in the table of mirrored characters of a character below U+0F3A, or `None` if it has no partner.
fn early_mirrored_row(c: char) -> Option<usize>
    requires { c < 0x0F3A }
    ensures found { IfSome result (IsRowOf MIRRORED c) }
    ensures absent { IfNone result (row_value MIRRORED c ≡ None) }
{
    match c {
        '(' => Some(0),
        ')' => Some(1),
        '<' => Some(2),
        '>' => Some(3),
        '[' => Some(4),
        ']' => Some(5),
        '{' => Some(6),
        '}' => Some(7),
        '«' => Some(8),
        '»' => Some(9),
        _ => None,
    }
}

/// Returns the class for a value of the property Bidi_Class.
fn class_named(value: Property) -> BidiClass
    ensures { result ≡ class_named value }
{
    match value {
        Property::ArabicLetter => BidiClass::AL,
        Property::ArabicNumber => BidiClass::AN,
        Property::ParagraphSeparator => BidiClass::B,
        Property::BoundaryNeutral => BidiClass::BN,
        Property::CommonSeparator => BidiClass::CS,
        Property::EuropeanNumber => BidiClass::EN,
        Property::EuropeanSeparator => BidiClass::ES,
        Property::EuropeanTerminator => BidiClass::ET,
        Property::FirstStrongIsolate => BidiClass::FSI,
        Property::LeftToRight => BidiClass::L,
        Property::LeftToRightEmbedding => BidiClass::LRE,
        Property::LeftToRightIsolate => BidiClass::LRI,
        Property::LeftToRightOverride => BidiClass::LRO,
        Property::NonspacingMark => BidiClass::NSM,
        Property::OtherNeutral => BidiClass::ON,
        Property::PopDirectionalFormat => BidiClass::PDF,
        Property::PopDirectionalIsolate => BidiClass::PDI,
        Property::RightToLeft => BidiClass::R,
        Property::RightToLeftEmbedding => BidiClass::RLE,
        Property::RightToLeftIsolate => BidiClass::RLI,
        Property::RightToLeftOverride => BidiClass::RLO,
        Property::SegmentSeparator => BidiClass::S,
        Property::WhiteSpace => BidiClass::WS,
    }
}

/// Returns the bracket for a row of the table.
fn bracket_in(c: char, partner: char, side: Side) -> BidiMatchedOpeningBracket
    ensures { result ≡ bracket_in c partner side }
{
    match side {
        Side::Open => BidiMatchedOpeningBracket {
            opening: normal_form(c),
            is_open: true,
        },
        Side::Close => BidiMatchedOpeningBracket {
            opening: normal_form(partner),
            is_open: false,
        },
    }
}

/// Returns the canonical equivalent of an opening bracket, or the bracket itself.
fn normal_form(opening: char) -> char
    ensures { result ≡ normal_form opening }
{
    match opening {
        '\u{2329}' => '\u{3008}',
        _ => opening,
    }
}
