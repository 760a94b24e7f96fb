//! Sets of classes.
ghost use Rattle.std.specs.Prelude.{◌≡◌, ◌<◌, ◌^◌, not, ◌&&◌, ◌||◌};
ghost use Rattle.bidi_base.specs.Classes.{class_count};
ghost use Rattle.bidi_base.specs.declared.char_data.BidiClass.{BidiClass};
ghost use Rattle.bidi_paragraphs.specs.ClassSet.{has, with, both, either, any_of};

use bidi_base::char_data::BidiClass;

/// A set of classes.
#[derive(Clone, Copy, PartialEq, Debug)]
pub(crate) struct ClassSet {
    // Each bit says whether the class of that number is in the set.
    bits: u32,
}

impl ClassSet {
    /// No class.
    pub(crate) const NONE: ClassSet = ClassSet { bits: 0 };

    /// The isolate initiators.
    pub(crate) const INITIATORS: ClassSet = ClassSet {
        bits: 1 << BidiClass::LRI as u32 | 1 << BidiClass::RLI as u32 | 1 << BidiClass::FSI as u32,
    };

    /// The embedding initiators.
    pub(crate) const EMBEDDINGS: ClassSet = ClassSet {
        bits: 1 << BidiClass::LRE as u32
            | 1 << BidiClass::LRO as u32
            | 1 << BidiClass::RLE as u32
            | 1 << BidiClass::RLO as u32,
    };

    /// The classes that close an isolate.
    pub(crate) const CLOSING: ClassSet = ClassSet {
        bits: 1 << BidiClass::PDI as u32,
    };

    /// The strong classes.
    pub(crate) const STRONG: ClassSet = ClassSet {
        bits: 1 << BidiClass::L as u32 | 1 << BidiClass::R as u32 | 1 << BidiClass::AL as u32,
    };

    /// The classes that always change the state of a paragraph: B ends it, and FSI waits for its direction.
    pub(crate) const ALWAYS_STOPS: ClassSet = ClassSet {
        bits: 1 << BidiClass::FSI as u32 | 1 << BidiClass::B as u32,
    };

    /// The classes that open an embedding or an isolate.
    pub(crate) const OPENERS: ClassSet = ClassSet {
        bits: ClassSet::INITIATORS.bits | ClassSet::EMBEDDINGS.bits,
    };

    /// The classes that X9 removes.
    pub(crate) const REMOVED: ClassSet = ClassSet {
        bits: ClassSet::EMBEDDINGS.bits | 1 << BidiClass::PDF as u32 | 1 << BidiClass::BN as u32,
    };

    /// The classes that can give a character another level than the paragraph level, if that is even.
    pub(crate) const TURNING_EVEN: ClassSet = ClassSet {
        bits: ClassSet::OPENERS.bits
            | 1 << BidiClass::R as u32
            | 1 << BidiClass::AL as u32
            | 1 << BidiClass::AN as u32,
    };

    /// The classes that can give a character another level than the paragraph level, if that is odd.
    pub(crate) const TURNING_ODD: ClassSet = ClassSet {
        bits: ClassSet::OPENERS.bits
            | 1 << BidiClass::L as u32
            | 1 << BidiClass::EN as u32
            | 1 << BidiClass::AN as u32,
    };

    /// The classes that later steps tell apart: all but PDI, the neutrals, and those weak types that are neither
    /// numbers nor removed by X9.
    pub(crate) const COUNTED: ClassSet = ClassSet {
        bits: ClassSet::TURNING_EVEN.bits | ClassSet::TURNING_ODD.bits | ClassSet::REMOVED.bits,
    };

    /// Returns whether the class is in the set.
    pub(crate) fn has(self, class: BidiClass) -> bool
        ensures { result ≡ has self class }
    {
        (self.bits >> class as u32) & 1 == 1
    }

    /// Returns the set with one more class.
    pub(crate) fn with(self, class: BidiClass) -> ClassSet
        ensures { result ≡ with self class }
    {
        ClassSet {
            bits: self.bits | 1 << class as u32,
        }
    }

    /// Returns the classes that are in at least one of the sets.
    pub(crate) fn union(self, other: ClassSet) -> ClassSet
        ensures has { (c : BidiClass) → has result c ≡ (has self c || has other c) }
        ensures bits { result ≡ either self other }
    {
        ClassSet {
            bits: self.bits | other.bits,
        }
    }

    /// Returns the classes that are in both sets.
    pub(crate) fn common(self, other: ClassSet) -> ClassSet
        ensures { result ≡ both self other }
    {
        ClassSet {
            bits: self.bits & other.bits,
        }
    }

    /// Returns the classes of this set that are not in the other.
    pub(crate) fn without(self, other: ClassSet) -> ClassSet
        ensures { (c : BidiClass) → has result c ≡ (has self c && not (has other c)) }
    {
        ClassSet {
            bits: self.bits ^ (self.bits & other.bits),
        }
    }

    /// Returns the set if `holds`, and no class otherwise.
    pub(crate) fn when(self, holds: bool) -> ClassSet
        ensures { (c : BidiClass) → has result c ≡ (holds && has self c) }
    {
        if holds { self } else { ClassSet::NONE }
    }

    /// Returns whether some class is in both sets. `other` must have no bits but those of classes.
    #[tactic(auto, using(crate::proofs::ClassSets::intersects_any))]
    pub(crate) fn intersects(self, other: ClassSet) -> bool
        requires { other.bits < 2 ^ class_count }
        ensures { result ≡ any_of self (has other) }
    {
        self.bits & other.bits != 0
    }
}
