//! One number for all results.

use bidi_base::char_data::BidiClass;
use bidi_base::level::Level;
use std::ops::Range;
use unicode_bidi::layout::LineMap;

/// A digest: one number for all that was added to it.
#[derive(Clone, Copy)]
pub struct Digest {
    sum: u64,
}

impl Digest {
    /// Returns the digest of nothing.
    pub fn new() -> Digest {
        Digest { sum: 1 }
    }

    /// Returns the number.
    pub fn number(self) -> u64 {
        self.sum
    }

    /// Adds a number.
    pub fn add(&mut self, number: u64) {
        let mixed = (self.sum ^ number).wrapping_mul(0x9E37_79B9_7F4A_7C15);
        self.sum = mixed ^ (mixed >> 29);
    }

    /// Adds a length or an index.
    pub fn add_len(&mut self, len: usize) {
        self.add(len as u64);
    }

    /// Adds the start and the end of a range.
    pub fn add_range(&mut self, range: &Range<usize>) {
        self.add_len(range.start);
        self.add_len(range.end);
    }

    // Adds a list's sum and length.
    fn add_sum(&mut self, sum: u16, len: usize) {
        self.add_len(len);
        self.add(u64::from(sum));
    }

    /// Adds levels, weighted by their indexes.
    pub fn add_levels(&mut self, levels: &[Level]) {
        let mut sum = 0u16;
        let mut weight = 1u16;
        for level in levels {
            sum = sum.wrapping_add(u16::from(level.number()).wrapping_mul(weight));
            weight = weight.wrapping_add(STEP);
        }
        self.add_sum(sum, levels.len());
    }

    /// Adds classes, weighted by their indexes.
    pub fn add_classes(&mut self, classes: &[BidiClass]) {
        let mut sum = 0u16;
        let mut weight = 1u16;
        for class in classes {
            sum = sum.wrapping_add((*class as u16).wrapping_mul(weight));
            weight = weight.wrapping_add(STEP);
        }
        self.add_sum(sum, classes.len());
    }

    /// Adds bytes, weighted by their indexes.
    pub fn add_bytes(&mut self, bytes: &[u8]) {
        let mut sum = 0u16;
        let mut weight = 1u16;
        for byte in bytes {
            sum = sum.wrapping_add(u16::from(*byte).wrapping_mul(weight));
            weight = weight.wrapping_add(STEP);
        }
        self.add_sum(sum, bytes.len());
    }

    /// Adds indexes, weighted by their own indexes.
    pub fn add_places(&mut self, places: &[usize]) {
        let mut sum = 0u64;
        let mut weight = 1u64;
        for place in places {
            sum = sum.wrapping_add((*place as u64).wrapping_mul(weight));
            weight = weight.wrapping_add(2);
        }
        self.add_len(places.len());
        self.add(sum);
    }

    /// Adds the map of a line: the character at each visual index, weighted by that index.
    pub fn add_map(&mut self, map: &LineMap) {
        let mut sum = 0u64;
        let mut weight = 1u64;
        for place in 0..map.len() {
            let logical = map.visual_to_logical(place).unwrap_or(0) as u64;
            sum = sum.wrapping_add(logical.wrapping_mul(weight));
            weight = weight.wrapping_add(2);
        }
        self.add_len(map.len());
        self.add(sum);
    }
}

/// The difference between the weights of two entries, one after the other.
const STEP: u16 = 0x9E6;
