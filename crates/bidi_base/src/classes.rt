//! The groups of classes that the rules name, with one function for each group.

ghost use Rattle.std.specs.Prelude.{◌≡◌};
ghost use Rattle.bidi_base.specs.Classes.{is_strong, is_isolate_initiator, is_embedding_initiator, is_pdi, is_nsm, is_paragraph_separator, is_separator, is_removed, is_ni, as_direction, stands_for};
ghost use Rattle.bidi_base.specs.Direction.{may_turn};
ghost use Rattle.bidi_base.specs.Line.{is_blank};

use crate::char_data::BidiClass;

/// The number of classes.
pub const CLASS_COUNT: usize = 23;

/// Returns whether a class is strong: L, R or AL.
pub fn is_strong(class: BidiClass) -> bool
    ensures { result ≡ is_strong class }
{
    matches!(class, BidiClass::L | BidiClass::R | BidiClass::AL)
}

/// Returns whether a class is an isolate initiator: LRI, RLI or FSI (BD8).
pub fn is_isolate_initiator(class: BidiClass) -> bool
    ensures { result ≡ is_isolate_initiator class }
{
    matches!(class, BidiClass::LRI | BidiClass::RLI | BidiClass::FSI)
}

/// Returns whether a class is an embedding initiator: LRE, RLE, LRO or RLO (BD10).
///
/// Such a character opens an embedding or an override, which a PDF closes.
pub fn is_embedding_initiator(class: BidiClass) -> bool
    ensures { result ≡ is_embedding_initiator class }
{
    matches!(
        class,
        BidiClass::RLE | BidiClass::LRE | BidiClass::RLO | BidiClass::LRO
    )
}

/// Returns whether a class is PDI, which closes an isolate.
pub fn is_pdi(class: BidiClass) -> bool
    ensures { result ≡ is_pdi class }
{
    matches!(class, BidiClass::PDI)
}

/// Returns whether a class is NSM, a nonspacing mark.
pub fn is_nsm(class: BidiClass) -> bool
    ensures { result ≡ is_nsm class }
{
    matches!(class, BidiClass::NSM)
}

/// Returns whether a class is B, a paragraph separator.
pub fn is_paragraph_separator(class: BidiClass) -> bool
    ensures { result ≡ is_paragraph_separator class }
{
    matches!(class, BidiClass::B)
}

/// Returns whether a class is S or B, a segment or paragraph separator (L1).
pub fn is_separator(class: BidiClass) -> bool
    ensures { result ≡ is_separator class }
{
    matches!(class, BidiClass::B | BidiClass::S)
}

/// Returns whether X9 removes characters of a class: LRE, RLE, LRO, RLO, PDF or BN.
///
/// The test has no branch, so a loop can test many code units at once.
pub fn is_removed(class: BidiClass) -> bool
    ensures { result ≡ is_removed class }
{
    (class == BidiClass::BN)
        | (class == BidiClass::PDF)
        | (class == BidiClass::LRE)
        | (class == BidiClass::RLE)
        | (class == BidiClass::LRO)
        | (class == BidiClass::RLO)
}

/// Returns whether a class takes the paragraph level before a separator and at a line's end (L1).
///
/// These are WS, the isolate formatting characters, and the classes that X9 removes.
pub fn is_blank(class: BidiClass) -> bool
    ensures { result ≡ is_blank class }
{
    matches!(
        class,
        BidiClass::WS | BidiClass::LRI | BidiClass::RLI | BidiClass::FSI | BidiClass::PDI
    ) || is_removed(class)
}

/// Returns whether a class is NI: a neutral or an isolate formatting character (N1).
///
/// The test has no branch, so a loop can test many code units at once.
pub fn is_ni(class: BidiClass) -> bool
    ensures { result ≡ is_ni class }
{
    (class == BidiClass::B)
        | (class == BidiClass::S)
        | (class == BidiClass::WS)
        | (class == BidiClass::ON)
        | (class == BidiClass::LRI)
        | (class == BidiClass::RLI)
        | (class == BidiClass::FSI)
        | (class == BidiClass::PDI)
}

/// Returns whether a class can keep a paragraph of level 0 from being all left to right.
///
/// Without such a class, the whole paragraph is left to right.
pub fn may_turn(class: BidiClass) -> bool
    ensures { result ≡ may_turn class }
{
    matches!(
        class,
        BidiClass::R
            | BidiClass::AL
            | BidiClass::AN
            | BidiClass::LRE
            | BidiClass::LRO
            | BidiClass::RLE
            | BidiClass::RLO
            | BidiClass::LRI
            | BidiClass::RLI
            | BidiClass::FSI
    )
}

/// Returns the direction, L or R, that a class counts as in N0 and N1, if any.
///
/// Numbers (EN and AN) count as R.
pub fn as_direction(class: BidiClass) -> Option<BidiClass>
    ensures { result ≡ as_direction class }
{
    match class {
        BidiClass::L => Some(BidiClass::L),
        BidiClass::R | BidiClass::EN | BidiClass::AN => Some(BidiClass::R),
        _ => None,
    }
}

/// Returns whether a class counts as this direction, L or R, in N0 and N1.
pub fn stands_for(class: BidiClass, direction: BidiClass) -> bool
    ensures { result ≡ stands_for direction class }
{
    match as_direction(class) {
        Some(found) => direction == found,
        None => false,
    }
}
