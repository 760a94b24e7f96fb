//! Finds the first or the last item of a range that passes a test.
//!
//! A search tests some items one by one at first, and then sixteen items at a time.

ghost use Rattle.std.specs.Prelude.{◌≡◌, ℕ, ◌+◌, ◌-◌, ◌*◌, ◌<◌, ◌≤◌, false, Bool, length, max, min, slice_index, if◌then◌else◌, MatchOption};
ghost use Rattle.bidi_base.specs.declared.char_data.BidiClass.{BidiClass};
ghost use Rattle.bidi_base.specs.Search.{IsFirst, IsEndOfLast};

use crate::char_data::BidiClass;
use crate::steps::Steps;
use std::array;
use std::marker::Brand;
use std::simd::prelude::*;
use std::sync::ledger::{Blank, Ledger};

/// Items, by index, with a test of them.
pub trait Tested: Copy {
    /// The number of items.
    ghost count: { Self → ℕ };

    /// Whether the item at an index passes.
    ghost passes: { Self → ℕ → Bool };

    /// Returns the number of items.
    fn len(self) -> usize
        ensures { result ≡ count self };

    /// Returns whether the item at an index passes.
    ///
    /// It should have no branch. Then the compiler tests sixteen items at once.
    fn passes(self, index: usize) -> bool
        requires { index < count self }
        ensures { result ≡ passes self index };
}

/// A test of classes.
pub trait ClassTest: Copy {
    /// The classes that pass.
    ghost test: { Self → BidiClass → Bool };

    /// Returns whether a class passes.
    fn passes(self, class: BidiClass) -> bool
        ensures { result ≡ test self class };
}

/// A test of the classes in a list.
#[derive(Clone, Copy, Debug)]
pub struct Among<'c, C: ClassTest> {
    /// The test.
    pub test: C,
    /// The classes.
    pub classes: &'c [BidiClass],
}

impl<'c, C: ClassTest> Tested for Among<'c, C> {
    ghost use Rattle.bidi_base.specs.Search.{passing};

    ghost count = { λ among. length among.classes.now };

    ghost passes = { λ among. passing (C.test among.test) among.classes.now };

    fn len(self) -> usize {
        self.classes.len()
    }

    fn passes(self, index: usize) -> bool {
        self.test.passes(self.classes[index])
    }
}

// The items of a list from the last one to the first.
#[derive(Clone, Copy, Debug)]
struct Reversed<T: Tested> {
    tested: T,
}

impl<T: Tested> Tested for Reversed<T> {
    ghost use Rattle.std.specs.Prelude.{◌-◌};

    ghost count = { λ reversed. T.count reversed.tested };

    ghost passes = { λ reversed index. T.passes reversed.tested (T.count reversed.tested - 1 - index) };

    fn len(self) -> usize {
        self.tested.len()
    }

    fn passes(self, index: usize) -> bool {
        self.tested.passes(self.tested.len() - 1 - index)
    }
}

// Returns 1 for each of the sixteen items from `at` on that passes, and 0 for the others.
fn marks<T: Tested>(tested: T, at: usize) -> [u8; 16]
    requires within { at + 16 ≤ T.count tested }
    requires fits { at + 16 ≤ usize.MAX }
    ensures sixteen { length result ≡ 16 }
    ensures marked { (j : ℕ) → j < 16 → slice_index result j ≡ (if T.passes tested (at + j) then 1 else 0) }
{
    array::from_fn(|lane| u8::from(tested.passes(at + lane)))
}

// Returns the first index of a passing item among the sixteen from `at` on, if there is one.
fn first_of_sixteen<T: Tested>(tested: T, at: usize) -> Option<usize>
    requires within { at + 16 ≤ T.count tested }
    requires fits { at + 16 ≤ usize.MAX }
    ensures { MatchOption result
        ((k : ℕ) → at ≤ k → k < at + 16 → T.passes tested k ≡ false)
        (λ i. (i < at + 16) × IsFirst (T.passes tested) at (at + 16) i) }
{
    let marks = u8x16::from_array(marks(tested, at));
    let bits = marks.simd_ne(u8x16::splat(0)).to_bitmask();
    if bits == 0 {
        None
    } else {
        Some(at + bits.trailing_zeros() as usize)
    }
}

// Returns the first index of a passing item in `from..to`, or else `to`. Tests one item at a time.
#[inline(always)]
fn first_one_by_one<T: Tested, S: Ledger>(
    tested: T,
    from: usize,
    to: usize,
    steps: &mut Steps<S>,
) -> usize
    requires ordered { from ≤ to }
    requires within { to ≤ T.count tested }
    ensures first { IsFirst (T.passes tested) from to result }
    ensures steps_at_least { min (result + 1) to + 16 * steps.old ≤ from + 16 * steps.new }
    ensures steps_at_most { steps.new + from ≤ steps.old + min (result + 1) to }
{
    for at in from..to {
        steps.tick();
        if tested.passes(at) {
            return at;
        }
    }
    to
}

// Like `first_one_by_one`, but tests sixteen items at a time if at least sixteen items of the list are left.
//
// Only this function calls `first_of_sixteen`. The compiler tests a block in vectors only if a type has one call of
// `array::from_fn`.
fn first_by_blocks<T: Tested, S: Ledger>(
    tested: T,
    from: usize,
    to: usize,
    steps: &mut Steps<S>,
) -> usize
    requires ordered { from ≤ to }
    requires within { to ≤ T.count tested }
    ensures first { IsFirst (T.passes tested) from to result }
    ensures steps_at_least { min (result + 1) to + 16 * steps.old ≤ from + 16 * steps.new }
    ensures steps_at_most { steps.new + from ≤ steps.old + min (result + 1) to }
{
    let len = tested.len();
    if len - from < 16 {
        return first_one_by_one(tested, from, to, steps);
    }
    let mut at = from;
    while at < to {
        steps.tick();
        // The last block may begin before `at`, with items that do not pass, and may end after `to`.
        let block = at.min(len - 16);
        if let Some(found) = first_of_sixteen(tested, block) {
            return found.min(to);
        }
        at = block + 16;
    }
    to
}

/// Returns the first index of a passing item in `from..to`, or else `to`, and counts loop iterations in `steps`.
///
/// `from` must be at most `to`, and `to` at most the number of items. The first `singly` items are tested one by
/// one: pass more than 0 if the next match is often near. The others are tested sixteen at a time, or one by one if
/// fewer than sixteen items of the list are left. A block may extend past the range. A match there is not returned.
///
/// There is at most one iteration for each item passed over, and one for the item that passes. There is at least one
/// for each sixteen of these items. A block of sixteen items is one iteration: its test has no loop of ours.
#[inline(always)]
pub fn first_passing_counted<T: Tested, S: Ledger>(
    tested: T,
    singly: usize,
    from: usize,
    to: usize,
    steps: &mut Steps<S>,
) -> usize
    requires ordered { from ≤ to }
    requires within { to ≤ T.count tested }
    ensures first { IsFirst (T.passes tested) from to result }
    ensures steps_at_least { min (result + 1) to + 16 * steps.old ≤ from + 16 * steps.new }
    ensures steps_at_most { steps.new + from ≤ steps.old + min (result + 1) to }
{
    let mut at = from;
    while at < to && at - from < singly {
        steps.tick();
        if tested.passes(at) {
            return at;
        }
        at += 1;
    }
    first_by_blocks(tested, at, to, steps)
}

/// Like [`first_passing_counted`], without a count.
#[inline(always)]
pub fn first_passing<T: Tested>(tested: T, singly: usize, from: usize, to: usize) -> usize
    requires ordered { from ≤ to }
    requires within { to ≤ T.count tested }
    ensures { IsFirst (T.passes tested) from to result }
{
    first_passing_with_new_count::<T, Brand>(tested, singly, from, to, Blank::new(1))
}

// Calls [`first_passing_counted`] with a new count.
#[inline(always)]
fn first_passing_with_new_count<T: Tested, S: Ledger>(
    tested: T,
    singly: usize,
    from: usize,
    to: usize,
    blank: Blank,
) -> usize
    requires ordered { from ≤ to }
    requires within { to ≤ T.count tested }
    requires name { blank.name ≡ S.name }
    requires parts { blank.parts ≡ S.parts }
    requires one { blank.parts ≡ 1 }
    ensures { IsFirst (T.passes tested) from to result }
{
    first_passing_counted(tested, singly, from, to, &mut Steps::<S>::new(blank))
}

/// Returns the index after the last item in `from..to` that passes, or else `from`, and counts loop iterations.
///
/// Searches backwards from `to`, and otherwise like [`first_passing_counted`].
#[inline(always)]
pub fn end_of_last_passing_counted<T: Tested, S: Ledger>(
    tested: T,
    singly: usize,
    from: usize,
    to: usize,
    steps: &mut Steps<S>,
) -> usize
    requires ordered { from ≤ to }
    requires within { to ≤ T.count tested }
    ensures last { IsEndOfLast (T.passes tested) from to result }
    ensures steps_at_least { to + 16 * steps.old ≤ max from (result - 1) + 16 * steps.new }
    ensures steps_at_most { steps.new + max from (result - 1) ≤ steps.old + to }
{
    let len = tested.len();
    let reversed = Reversed { tested };
    len - first_passing_counted(reversed, singly, len - to, len - from, steps)
}

/// Like [`end_of_last_passing_counted`], without a count.
#[inline(always)]
pub fn end_of_last_passing<T: Tested>(tested: T, singly: usize, from: usize, to: usize) -> usize
    requires ordered { from ≤ to }
    requires within { to ≤ T.count tested }
    ensures { IsEndOfLast (T.passes tested) from to result }
{
    let len = tested.len();
    let reversed = Reversed { tested };
    len - first_passing(reversed, singly, len - to, len - from)
}
