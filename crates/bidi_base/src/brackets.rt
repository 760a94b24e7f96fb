//! Finds the bracket pairs of an isolating run sequence (BD14 to BD16).
//!
//! An index counts only the characters of the sequence that X9 leaves.

ghost use Rattle.std.specs.Prelude.{◌≡◌, ◌==◌, ◌<◌, nat_lt, true, false, List, [], ◌∷◌, ◌++◌, length, filter, slice_get, Option, IsTrue, OnOk, IfOk, IfSome, IfNone};
ghost use Rattle.bidi_base.specs.declared.data_source.BidiMatchedOpeningBracket.{BidiMatchedOpeningBracket};
ghost use Rattle.bidi_base.specs.declared.brackets.Bracket.{Bracket};
ghost use Rattle.bidi_base.specs.Brackets.{max_open_brackets, pairs_of};
ghost use Rattle.bidi_base.specs.PairSearch.{closed_slots, AreWithin, IsAt};
ghost use Rattle.bidi_base.specs.Indexes.{find_last};
ghost use Rattle.bidi_base.specs.FoundBrackets.{ArePairsOf};

use arrayvec::ArrayVec;
use std::alloc::{AllocError, Global};

/// The size of the stack of opening brackets (BD16).
const MAX_OPEN_BRACKETS: usize = 63;

/// A bracket that can be part of a pair: its class after W7 is ON (BD14, BD15).
#[derive(Clone, Copy, Debug)]
pub struct Bracket {
    /// Its index among the characters of its sequence that X9 leaves.
    pub index: usize,
    /// The opening bracket of its pair. Two brackets pair only if these are equal.
    pub opening: char,
    /// Whether it is an opening bracket.
    pub is_open: bool,
}

/// An opening bracket on the stack. It has no closing bracket yet.
#[derive(Clone, Copy, Debug)]
struct Waiting {
    opening: char,
    /// The index of its pair in the list of pairs.
    pair: usize,
}

// Fills the entries of a new stack. It is all zeros, so the whole stack is cleared at once.
impl Default for Waiting {
    fn default() -> Waiting {
        Waiting {
            opening: '\0',
            pair: 0,
        }
    }
}

/// Replaces the contents of `pairs` with the bracket pairs of a sequence (BD16).
///
/// `brackets` must be the brackets of the sequence with class ON after W7, in order. A pair has the
/// index of its opening bracket and that of its closing bracket. Pairs are in the order of their
/// opening brackets.
///
/// The search ends at the first opening bracket that finds 63 others on the stack. It keeps the
/// pairs found before. Each bracket is read once, and a closing bracket is compared only with the
/// brackets on the stack.
///
/// Returns an error only if it cannot allocate a pair for each opening bracket. `pairs` may then
/// hold anything.
pub fn find_pairs(brackets: &[Bracket], pairs: &mut Vec<(usize, usize)>) -> Result<(), AllocError>
    ensures { OnOk result (ArePairsOf brackets.now pairs.new.items) }
{
    pairs.clear();
    if brackets.is_empty() {
        return Ok(());
    }
    search(brackets, pairs)
}

/// Finds the bracket pairs with a stack of opening brackets. `pairs` must be empty.
///
/// Each opening bracket adds a pair to the list. Until its closing bracket is found, both indexes
/// of the pair are those of the opening bracket.
fn search(brackets: &[Bracket], pairs: &mut Vec<(usize, usize)>) -> Result<(), AllocError>
    requires { pairs.old.items ≡ [] }
    ensures { OnOk result (ArePairsOf brackets.now pairs.new.items) }
{
    let mut waiting: ArrayVec<Waiting, MAX_OPEN_BRACKETS> = ArrayVec::new();
    for bracket in brackets {
        let goes_on = read(bracket, &mut waiting, pairs)?;
        if !goes_on {
            break;
        }
    }
    drop_unclosed(pairs);
    Ok(())
}

/// A search for the bracket pairs of a sequence (BD16) that reads one bracket at a time.
///
/// It reuses its memory from sequence to sequence.
#[derive(Debug, Drop)]
pub struct PairSearch {
    waiting: ArrayVec<Waiting, MAX_OPEN_BRACKETS>,
    pairs: Vec<(usize, usize)>,
    /// Whether an opening bracket found the stack full, which ends the search.
    is_over: bool,
}

impl PairSearch {
    ghost use Rattle.bidi_base.specs.PairSearch.{HasRead};

    /// Returns a search that has read no bracket.
    ///
    /// Does not allocate.
    pub fn new(alloc: Global) -> PairSearch
        ensures { HasRead result [] }
    {
        PairSearch {
            waiting: ArrayVec::new(),
            pairs: Vec::new(alloc),
            is_over: false,
        }
    }

    /// Forgets the brackets read, to begin a new sequence.
    pub fn clear(&mut self)
        ensures { HasRead self.new [] }
    {
        self.waiting.clear();
        self.pairs.clear();
        self.is_over = false;
    }

    /// Reads the next bracket of the sequence with class ON after W7.
    ///
    /// Returns an error only if it cannot allocate a pair. The search must then be cleared before
    /// it reads again.
    pub fn read(&mut self, bracket: &Bracket) -> Result<(), AllocError>
        requires { (before : List Bracket) × HasRead self.old before }
        ensures { (before : List Bracket) → HasRead self.old before → OnOk result (HasRead self.new (before ++ bracket.now ∷ [])) }
    {
        if !self.is_over {
            let goes_on = read(bracket, &mut self.waiting, &mut self.pairs)?;
            self.is_over = !goes_on;
        }
        Ok(())
    }

    /// Returns the pairs of the brackets read, as [`find_pairs`] finds them.
    ///
    /// The search must then be cleared before it reads again.
    pub fn finish(&mut self) -> &[(usize, usize)]
        ensures { (all : List Bracket) → HasRead self.old all → ArePairsOf all result.now }
    {
        drop_unclosed(&mut self.pairs);
        self.pairs.as_slice()
    }
}

/// Reads a bracket. Returns whether the search continues after it.
fn read(
    bracket: &Bracket,
    waiting: &mut ArrayVec<Waiting, MAX_OPEN_BRACKETS>,
    pairs: &mut Vec<(usize, usize)>,
) -> Result<bool, AllocError>
    requires { AreWithin (length pairs.old.items) waiting.old.items }
    ensures within { OnOk result (AreWithin (length pairs.new.items) waiting.new.items) }
    ensures goes_on { IfOk result (λ more. more ≡ true
        → (counted : List (Option BidiMatchedOpeningBracket)) (rest : List Bracket)
        → IsAt counted pairs.old.items waiting.old.items (bracket.now ∷ rest)
        → IsAt counted pairs.new.items waiting.new.items rest) }
    ensures ended { IfOk result (λ more. more ≡ false
        → (counted : List (Option BidiMatchedOpeningBracket)) (rest : List Bracket)
        → IsAt counted pairs.old.items waiting.old.items (bracket.now ∷ rest)
        → closed_slots pairs.new.items ≡ pairs_of counted) }
{
    if bracket.is_open {
        return open(bracket, waiting, pairs);
    }
    if let Some(entry) = topmost(waiting.as_slice(), bracket.opening) {
        pairs[waiting.as_slice()[entry].pair].1 = bracket.index;
        waiting.truncate(entry);
    }
    Ok(true)
}

/// Pushes an opening bracket and adds its pair, if the stack has room. Returns whether it has.
///
/// The search ends at the first opening bracket that finds the stack full (BD16).
fn open(
    bracket: &Bracket,
    waiting: &mut ArrayVec<Waiting, MAX_OPEN_BRACKETS>,
    pairs: &mut Vec<(usize, usize)>,
) -> Result<bool, AllocError>
    ensures room { IfOk result (λ room. room ≡ nat_lt (length waiting.old.items) max_open_brackets) }
    ensures waiting { IfOk result (λ room. IsTrue room → waiting.new.items ≡ waiting.old.items
        ++ record { opening = bracket.now.opening; pair = length pairs.old.items } ∷ []) }
    ensures pairs { IfOk result (λ room. IsTrue room
        → pairs.new.items ≡ pairs.old.items ++ (bracket.now.index, bracket.now.index) ∷ []) }
    ensures full { IfOk result (λ room. room ≡ false
        → (waiting.new.items ≡ waiting.old.items) × (pairs.new.items ≡ pairs.old.items)) }
{
    if waiting.is_full() {
        return Ok(false);
    }
    waiting.push(Waiting {
        opening: bracket.opening,
        pair: pairs.len(),
    });
    pairs.push((bracket.index, bracket.index))?;
    Ok(true)
}

/// Returns the index of the topmost entry with this opening character.
fn topmost(waiting: &[Waiting], opening: char) -> Option<usize>
    ensures found { IfSome result (λ k. (k < length waiting.now)
        × (find_last (λ e. e.opening == opening) waiting.now ≡ slice_get waiting.now k)) }
    ensures none { IfNone result (find_last (λ e. e.opening == opening) waiting.now ≡ None) }
{
    for entry in (0..waiting.len()).rev() {
        if waiting[entry].opening == opening {
            return Some(entry);
        }
    }
    None
}

/// Removes the pairs that have no closing bracket.
fn drop_unclosed(pairs: &mut Vec<(usize, usize)>)
    ensures { pairs.new.items ≡ filter (λ p. nat_lt p.0 p.1) pairs.old.items }
{
    pairs.retain(|pair| pair.0 < pair.1);
}
