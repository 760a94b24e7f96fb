//! The visual order of a line (L2).

ghost use Rattle.std.specs.Prelude.{◌≡◌, ◌≢◌, ℕ, ◌+◌, ◌<◌, ◌≤◌, ◌==◌, not, nat_le, length, slice_index, IfOk, IsPermutation};
ghost use Rattle.std.specs.List.{range_with_len};
ghost use Rattle.bidi_lines.specs.ArrangedItems.{IsArranged, AtLeast, SameBelow, SameFrom};
ghost use Rattle.bidi_lines.specs.LineOrder.{IsLineOrder};
ghost use Rattle.bidi_base.specs.Layout.{AreInverse};
ghost use Rattle.bidi_base.specs.Indexes.{indexes};

use crate::lists::LevelList;
use bidi_base::level::Level;
use bidi_base::search::{Tested, first_passing};
use std::alloc::{AllocError, Global};

// Reverses the range from `from` to `to`.
fn flip(order: &mut [usize], from: usize, to: usize)
    requires begins { from ≤ to }
    requires ends { to ≤ length order.old }
    ensures outside_before { SameBelow order.old order.new from }
    ensures outside_after { SameFrom order.old order.new to }
    ensures inside { (p q : ℕ) → from ≤ p → from ≤ q → p + q + 1 ≡ from + to → slice_index order.new p ≡ slice_index order.old q }
    ensures permutation { IsPermutation order.old order.new }
{
    order[from..to].reverse();
}

/// The levels of a list, with a test for those that are not `level`.
#[derive(Clone, Copy, Debug)]
struct OtherLevels<L: LevelList> {
    levels: L,
    level: u8,
}

impl<L: LevelList> Tested for OtherLevels<L> {
    ghost count = { λ others. length (L.numbers others.levels) };

    ghost passes = { λ others index. not (slice_index (L.numbers others.levels) index == others.level) };

    fn len(self) -> usize {
        self.levels.len()
    }

    fn passes(self, index: usize) -> bool {
        self.levels.number_at(index) != self.level
    }
}

// Many runs are not longer than this. Further levels are tested sixteen at a time.
const TESTED_SINGLY: usize = 3;

// Returns the end of the run of items from `from` on that have the same level.
#[inline(always)]
pub(crate) fn run_end<L: LevelList>(levels: L, from: usize) -> usize
    requires { from < length (L.numbers levels) }
    ensures advances { from < result }
    ensures within { result ≤ length (L.numbers levels) }
    ensures same { (p : ℕ) → from ≤ p → p < result → slice_index (L.numbers levels) p ≡ slice_index (L.numbers levels) from }
    ensures stops { result < length (L.numbers levels) → slice_index (L.numbers levels) result ≢ slice_index (L.numbers levels) from }
{
    let len = levels.len();
    let level = levels.number_at(from);
    first_passing(OtherLevels { levels, level }, TESTED_SINGLY, from + 1, len)
}

/// The levels of a list, with a test for those that are at most `threshold`.
#[derive(Clone, Copy, Debug)]
struct LowLevels<L: LevelList> {
    levels: L,
    threshold: u8,
}

impl<L: LevelList> Tested for LowLevels<L> {
    ghost count = { λ low. length (L.numbers low.levels) };

    ghost passes = { λ low index. nat_le (slice_index (L.numbers low.levels) index) low.threshold };

    fn len(self) -> usize {
        self.levels.len()
    }

    fn passes(self, index: usize) -> bool {
        self.levels.number_at(index) <= self.threshold
    }
}

// Returns the end of the stretch of items from `from` on that have levels above `threshold`.
fn stretch_end<L: LevelList>(levels: L, from: usize, threshold: u8) -> usize
    requires { from ≤ length (L.numbers levels) }
    ensures begins { from ≤ result }
    ensures within { result ≤ length (L.numbers levels) }
    ensures above { (p : ℕ) → from ≤ p → p < result → threshold < slice_index (L.numbers levels) p }
    ensures stops { result < length (L.numbers levels) → slice_index (L.numbers levels) result ≤ threshold }
{
    first_passing(LowLevels { levels, threshold }, 0, from, levels.len())
}

// Returns the minimum level of the items from `from` up to `to`.
fn least_of<L: LevelList>(levels: L, from: usize, to: usize) -> u8
    requires some { from < to }
    requires within { to ≤ length (L.numbers levels) }
    ensures least { (p : ℕ) → from ≤ p → p < to → result ≤ slice_index (L.numbers levels) p }
    ensures above { (threshold : ℕ) → ((p : ℕ) → from ≤ p → p < to → threshold < slice_index (L.numbers levels) p) → threshold < result }
{
    let mut least = levels.number_at(from);
    for i in from + 1..to {
        least = least.min(levels.number_at(i));
    }
    least
}

// Returns the minimum level of the stretch above `threshold` that begins at `from`. L2 reverses the whole stretch once
// for each level above `threshold` up to that one, so only an odd number of reversals changes it.
fn least_above<L: LevelList>(levels: L, from: usize, threshold: u8) -> u8
    requires begins { from < length (L.numbers levels) }
    requires above { threshold < slice_index (L.numbers levels) from }
    ensures above { threshold < result }
    ensures least { (end : ℕ) → end < length (L.numbers levels)
        → ((p : ℕ) → from ≤ p → p ≤ end → threshold < slice_index (L.numbers levels) p)
        → (p : ℕ) → from ≤ p → p ≤ end → result ≤ slice_index (L.numbers levels) p }
{
    if levels.number_at(from) == threshold + 1 {
        return threshold + 1;
    }
    let end = stretch_end(levels, from, threshold);
    least_of(levels, from, end)
}

// Arranges the stretch of items from `from` on that have at least the level `threshold`, and returns its end.
fn arrange<L: LevelList>(levels: L, order: &mut [usize], from: usize, threshold: u8) -> usize
    requires same_len { length order.old ≡ length (L.numbers levels) }
    requires begins { from ≤ length (L.numbers levels) }
    requires untouched { (p : ℕ) → from ≤ p → p < length (L.numbers levels) → slice_index order.old p ≡ p }
    ensures begins { from ≤ result }
    ensures within { result ≤ length (L.numbers levels) }
    ensures progress { from < length (L.numbers levels) → threshold ≤ slice_index (L.numbers levels) from → from < result }
    ensures stops { result < length (L.numbers levels) → slice_index (L.numbers levels) result < threshold }
    ensures at_least { AtLeast (L.numbers levels) threshold from result }
    ensures outside_before { SameBelow order.old order.new from }
    ensures outside_after { SameFrom order.old order.new result }
    ensures arranged { IsArranged (L.numbers levels) threshold from result order.new }
    ensures permutation { IsPermutation order.old order.new }
{
    let mut at = from;
    while at < levels.len() && levels.number_at(at) >= threshold {
        let level = levels.number_at(at);
        let next = run_end(levels, at);
        if level == threshold {
            at = next;
        } else if next == levels.len() || levels.number_at(next) <= threshold {
            if (level - threshold) % 2 == 1 {
                flip(order, at, next);
            }
            at = next;
        } else {
            let least = least_above(levels, at, threshold);
            let end = arrange(levels, order, at, least);
            if (least - threshold) % 2 == 1 {
                flip(order, at, end);
            }
            at = end;
        }
    }
    at
}

// Sets each entry to its index.
fn write_indexes(order: &mut [usize])
    ensures { order.new ≡ range_with_len 0 (length order.old) }
{
    for k in 0..order.len() {
        order[k] = k;
    }
}

// Puts the indexes of a line's items, which ascend at first, into visual order. If no level is odd, they are unchanged.
fn put_in_visual_order<L: LevelList>(levels: L, order: &mut [usize])
    requires { order.old ≡ range_with_len 0 (length (L.numbers levels)) }
    ensures { IsLineOrder (L.numbers levels) order.new }
{
    if levels.has_rtl() {
        arrange(levels, order, 0, 0);
    }
}

/// Writes the visual order of a line (L2): for each visual index, the index of the item there.
///
/// An item is a code unit, a character or a level run. `levels` has the level of each item after L1, and `order` is as
/// long. Writes each index once. The cost is the list, times the nesting depth of its reversed ranges. Does not
/// allocate.
pub fn write_visual_order<L: LevelList>(levels: L, order: &mut [usize])
    requires { length order.old ≡ length (L.numbers levels) }
    ensures { IsLineOrder (L.numbers levels) order.new }
{
    write_indexes(order);
    put_in_visual_order(levels, order);
}

// Returns the indexes below `n`, in ascending order.
fn indexes_below(alloc: Global, n: usize) -> Result<Vec<usize>, AllocError>
    ensures { IfOk result (λ v. v.items ≡ range_with_len 0 n) }
{
    (0..n).collect(alloc)
}

/// Returns the visual order of a line (L2): for each visual index, the index of the item there.
///
/// `levels` has the level of each item after L1. The cost is that of [`write_visual_order`]. Allocates only the list
/// that it returns.
pub fn reorder_visual(alloc: Global, levels: &[Level]) -> Result<Vec<usize>, AllocError>
    ensures { IfOk result (λ v. IsLineOrder levels.now v.items) }
{
    let mut order = indexes_below(alloc, levels.len())?;
    put_in_visual_order(levels, order.as_mut_slice());
    Ok(order)
}

/// Returns the inverse of a list that has each index once.
///
/// The inverse of a visual order has the visual index of each item. Takes time linear in the list. Allocates only the
/// list that it returns.
pub fn inverse(alloc: Global, order: &[usize]) -> Result<Vec<usize>, AllocError>
    requires { IsPermutation (indexes order.now) order.now }
    ensures { IfOk result (λ v. AreInverse order.now v.items) }
{
    let mut places = vec![in alloc; 0; order.len()]?;
    for (place, index) in order.iter().enumerate() {
        places[*index] = place;
    }
    Ok(places)
}
