//! A paragraph of a text.
ghost use Rattle.std.specs.Prelude.{◌≡◌, ◌-◌, ◌≤◌, ◌↔◌, IsSome, IfSome};

use bidi_base::level::{LTR_LEVEL, Level};
use std::alloc::{AllocError, Global};
use std::clone::Clone;
use std::default::MadeWith;
use std::ops::Range;

/// The range of a paragraph in a text, and its level.
#[derive(PartialEq, Debug, Drop)]
pub struct ParagraphInfo {
    range: Range<usize>,
    level: Level,
    ghost ordered: { range.start ≤ range.end },
}

impl ParagraphInfo {
    ghost use Rattle.bidi_paragraphs.specs.ParagraphInfo.{range_of, level_of};

    /// Creates a paragraph of a range of code units. Returns `None` exactly if the range is reversed.
    pub fn new(range: Range<usize>, level: Level) -> Option<ParagraphInfo>
        ensures succeeds { IsSome result ↔ (range.start ≤ range.end) }
        ensures range { IfSome result (λ p. range_of p ≡ range) }
        ensures level { IfSome result (λ p. level_of p ≡ level) }
    {
        if range.start <= range.end {
            Some(ParagraphInfo { range, level })
        } else {
            None
        }
    }

    /// Creates a paragraph of a range of code units, which must not be reversed.
    pub fn from_range(range: Range<usize>, level: Level) -> ParagraphInfo
        requires { range.start ≤ range.end }
        ensures range { range_of result ≡ range }
        ensures level { level_of result ≡ level }
    {
        ParagraphInfo { range, level }
    }

    /// Returns the range of the paragraph's code units in the text, including those of the separator that ends it.
    pub fn range(&self) -> Range<usize>
        ensures { result ≡ range_of self.now }
    {
        self.range.start..self.range.end
    }

    /// Returns the paragraph level (BD4).
    pub fn level(&self) -> Level
        ensures { result ≡ level_of self.now }
    {
        self.level
    }

    /// Returns the number of code units.
    pub fn len(&self) -> usize
        ensures { result ≡ (range_of self.now).end - (range_of self.now).start }
    {
        self.range.end - self.range.start
    }
}

// The value of unused entries of a `SmallVec`.
impl MadeWith<Global> for ParagraphInfo {
    fn made_with(_alloc: Global) -> ParagraphInfo {
        ParagraphInfo::from_range(0..0, LTR_LEVEL)
    }
}

impl Clone for ParagraphInfo {
    ghost is_clone = { λ p q. q ≡ p };

    ghost is_infallible = { λ _. Unit {0} };

    fn clone(&self) -> Result<ParagraphInfo, AllocError> {
        Ok(ParagraphInfo {
            range: self.range(),
            level: self.level,
        })
    }
}
