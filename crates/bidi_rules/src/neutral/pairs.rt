//! The directions of the bracket pairs of an isolating run sequence (N0), in place over its code units.

ghost use Rattle.std.specs.Prelude.{◌≡◌, ℕ, ◌+◌, ◌<◌, ◌≤◌, List, length, map, All, IsTrue};
ghost use Rattle.bidi_base.specs.Brackets.{AreNestedPairs};
ghost use Rattle.bidi_base.specs.Classes.{is_kept_in_place, is_l_or_r};
ghost use Rattle.bidi_base.specs.Indexes.{class_at};
ghost use Rattle.bidi_base.specs.Texts.{is_boundary, kept_in_place, unit_index, text_len, AreLines};
ghost use Rattle.bidi_base.specs.Units.{bounds, are_ordered};
ghost use Rattle.bidi_rules.specs.InText.{at_unit_indexes, IsBracket, IsBracketAfter, IsMarksEnd, IsPaired, IsPlace, IsReady, IsRow, IsSet, IsSetUpTo};
ghost use Rattle.bidi_rules.specs.PairPass.{opposite_of, IsSearched};
ghost use Rattle.bidi_rules.specs.PairPass.{IsRunOf};
ghost use Rattle.bidi_rules.specs.PairPass.{IsTaken, IsUnmarked};
ghost use Rattle.bidi_explicit.specs.SequenceUnits.{is_seen, IsWrittenOver};

use super::directions::{Directions, opposite_of};
use super::marks::{ends_marks, marks_end};
use super::nearest::{direction_before, first_for, run_near};
use bidi_base::char_data::BidiClass;
use bidi_base::classes::is_nsm;
use bidi_explicit::characters::end_of;
use bidi_explicit::prepare::LevelRun;
use bidi_explicit::written::{is_kept_in_place, write_over_runs};
use bidi_text::text::TextSource;

/// The runs of a sequence, and the stored class of each code unit of their text.
#[derive(Clone, Copy, Debug)]
pub struct StoredRuns<'a> {
    /// The level runs of the sequence, in text order.
    pub runs: &'a [LevelRun],
    /// The stored class of each code unit of the text.
    pub original_classes: &'a [BidiClass],
}

/// Applies N0 to the bracket pairs one by one, in the order of their opening brackets.
///
/// Each pair is given by the indices at which its brackets begin. `classes` has the classes after W7.
///
/// The context of a pair is searched backwards from its opening bracket, and only if the opposite direction
/// is inside. The opening bracket then takes a direction, and no later search goes past it. Two positions
/// that only move forwards tell which directions are inside. There is one exception: if the opening bracket of
/// a pair is a nonspacing mark by its stored class, it may be among the marks that another pair changed. Such
/// a pair is searched by itself. Brackets among marks that already have their direction are not written
/// again. So a series of marks is not passed over for each bracket in it.
pub fn resolve_pairs<T: TextSource>(
    text: T,
    sequence: StoredRuns<'_>,
    directions: Directions,
    pairs: &[(usize, usize)],
    classes: &mut [BidiClass],
)
    requires ready { IsReady (T.text text) sequence.runs.now directions.sos classes.old }
    requires side { IsTrue (is_l_or_r directions.embedding) }
    requires same_len { length classes.old ≡ text_len (T.text text) }
    requires original { length sequence.original_classes.now ≡ length classes.old }
    requires pairs { (found : List (ℕ × ℕ))
        × AreNestedPairs
        (length (kept_in_place (T.text text) classes.old (map bounds sequence.runs.now))) found
        × (pairs.now
        ≡ at_unit_indexes (T.text text)
        (kept_in_place (T.text text) classes.old (map bounds sequence.runs.now)) found) }
    ensures { (found : List (ℕ × ℕ))
        → AreNestedPairs
        (length (kept_in_place (T.text text) classes.old (map bounds sequence.entry.runs.now))) found
        → pairs.now
        ≡ at_unit_indexes (T.text text)
        (kept_in_place (T.text text) classes.old (map bounds sequence.entry.runs.now)) found
        → IsPaired (T.text text) sequence.entry.original_classes.now classes.old classes.new
        sequence.entry.runs.now directions.embedding directions.sos found }
{
    let StoredRuns {
        runs,
        original_classes,
    } = sequence;
    let mut walk = PairPass::new(directions.embedding);
    let mut row = Row::new(directions.embedding);
    // A bracket is mostly in the run of the opening bracket before it.
    let mut near = 0;
    for pair in pairs {
        let (opening, closing) = *pair;
        let first = place_of(text, runs, near, opening);
        near = first.run;
        let pair = Pair {
            opening,
            inside: first.end,
            closing,
            is_marked: is_nsm(original_classes[opening]),
        };
        let taken = walk.pair_direction(directions.sos, runs, first.run, classes, pair);
        if let Some(direction) = taken {
            row.set_direction(text, sequence, classes, first, direction);
            let last = place_of(text, runs, near, closing);
            row.set_direction(text, sequence, classes, last, direction);
        }
    }
}

/// Where a bracket is.
#[derive(Clone, Copy, Debug)]
struct Place {
    /// The index at which it begins.
    unit: usize,
    /// The index after it.
    end: usize,
    /// The index of its run: the first that ends after `unit`. If there is none, the number of runs.
    run: usize,
}

/// Returns the place of the bracket that begins at `unit`, which is likely in the run at the index `near`.
fn place_of<T: TextSource>(text: T, runs: &[LevelRun], near: usize, unit: usize) -> Place
    requires ordered { IsTrue (are_ordered (map bounds runs.now)) }
    requires begins { IsTrue (is_boundary (T.text text) unit) }
    requires inside { unit < text_len (T.text text) }
    requires fits { text_len (T.text text) ≤ usize.MAX }
    ensures unit { result.unit ≡ unit }
    ensures is { IsPlace (T.text text) (map bounds runs.now) result }
{
    Place {
        unit,
        end: end_of(text, unit),
        run: run_near(runs, near, unit),
    }
}

/// A pair of brackets, by the indices at which they begin.
#[derive(Clone, Copy, Debug)]
struct Pair {
    opening: usize,
    /// The index after the opening bracket.
    inside: usize,
    closing: usize,
    /// Whether the opening bracket is a nonspacing mark by its stored class.
    is_marked: bool,
}

/// The next code unit of a direction.
#[derive(Clone, Copy, Debug)]
struct Next {
    direction: BidiClass,
    /// The first code unit with a class that counts as the direction, not before the opening bracket of the
    /// last pair.
    unit: usize,
}

impl Next {
    /// Returns whether the direction is between the brackets of a pair. Opening brackets come in order. A pair
    /// that opens at a mark is searched by itself.
    fn is_inside(&mut self, runs: &[LevelRun], classes: &[BidiClass], pair: Pair) -> bool
        requires ordered { IsTrue (are_ordered (map bounds runs.now)) }
        requires closing { pair.closing ≤ length classes.now }
        ensures direction { self.new.direction ≡ self.old.direction }
        ensures found { IsSearched self.old.direction (map bounds runs.now) classes.now pair self.old.unit self.new.unit result }
    {
        if pair.is_marked {
            let found = first_for(self.direction, runs, classes, pair.inside, pair.closing);
            return found < pair.closing;
        }
        if self.unit <= pair.opening {
            self.unit = first_for(self.direction, runs, classes, pair.inside, classes.len());
        }
        self.unit < pair.closing
    }
}

/// The next code units of both directions, while the pass goes over the pairs.
#[derive(Clone, Copy, Debug)]
struct PairPass {
    embedding: Next,
    opposite: Next,
}

impl PairPass {
    /// Returns the state before the first pair.
    fn new(embedding: BidiClass) -> PairPass
        ensures { result
            ≡ record {
              embedding = record { direction = embedding; unit = 0 };
              opposite = record { direction = opposite_of embedding; unit = 0 };
            } }
    {
        PairPass {
            embedding: Next {
                direction: embedding,
                unit: 0,
            },
            opposite: Next {
                direction: opposite_of(embedding),
                unit: 0,
            },
        }
    }

    /// Returns the direction that a pair takes. This is the embedding direction if it is inside (N0 b).
    /// Otherwise, if the opposite one is inside, it is that of the context before the pair (N0 c). If
    /// neither is inside, returns `None` (N0 d). The opening bracket is in the run at `run`, or in none.
    #[inline(always)]
    fn pair_direction(
        &mut self,
        sos: BidiClass,
        runs: &[LevelRun],
        run: usize,
        classes: &[BidiClass],
        pair: Pair,
    ) -> Option<BidiClass>
        requires ordered { IsTrue (are_ordered (map bounds runs.now)) }
        requires runs { All (λ r. r.1 ≤ length classes.now) (map bounds runs.now) }
        requires closing { pair.closing ≤ length classes.now }
        requires inside { pair.opening ≤ pair.inside }
        requires run { IsRunOf (map bounds runs.now) pair.opening run }
        ensures embedding { self.new.embedding.direction ≡ self.old.embedding.direction }
        ensures opposite { self.new.opposite.direction ≡ self.old.opposite.direction }
        ensures taken { IsTaken sos (map bounds runs.now) classes.now pair self.old self.new result }
    {
        let later = &runs[run..];
        if self.embedding.is_inside(later, classes, pair) {
            return Some(self.embedding.direction);
        }
        if self.opposite.is_inside(later, classes, pair) {
            let upto = runs.len().min(run + 1);
            return Some(direction_before(sos, &runs[..upto], classes, pair.opening));
        }
        None
    }
}

/// The bracket that was last written, and the nonspacing marks directly after it.
#[derive(Clone, Copy, Debug)]
struct Row {
    from: usize,
    /// Where the marks end.
    end: usize,
    direction: BidiClass,
}

impl Row {
    /// Returns the state before the first bracket is written.
    fn new(direction: BidiClass) -> Row
        ensures { result ≡ record { from = 0; end = 0; direction = direction } }
    {
        Row {
            from: 0,
            end: 0,
            direction,
        }
    }

    /// Gives a direction to a bracket, and to the characters directly after it that are nonspacing marks by
    /// their stored classes. Does nothing if the last write did that already.
    #[inline(always)]
    fn set_direction<T: TextSource>(
        &mut self,
        text: T,
        sequence: StoredRuns<'_>,
        classes: &mut [BidiClass],
        bracket: Place,
        direction: BidiClass,
    )
        requires { IsBracketAfter (T.text text) (map bounds sequence.runs.now) sequence.original_classes.now
            classes.old self.old bracket }
        ensures set { (k : ℕ) → k < length (T.text text).chars → bracket.unit ≡ unit_index (T.text text) k
            → IsSet (T.text text) (map bounds sequence.entry.runs.now)
            sequence.entry.original_classes.now direction bracket.unit (k + 1) classes.old classes.new }
        ensures row { IsRow (T.text text) (map bounds sequence.entry.runs.now)
            sequence.entry.original_classes.now classes.new self.new }
    {
        if self.from <= bracket.unit && bracket.unit < self.end && self.direction == direction {
            return;
        }
        let end = set_direction(text, sequence, classes, bracket, direction);
        *self = Row {
            from: bracket.unit,
            end,
            direction,
        };
    }
}

/// Gives a direction to a bracket, and to the characters directly after it that are nonspacing marks by their
/// stored classes. Returns where the marks end. Most brackets have no marks, and are then written without a
/// search.
#[inline(always)]
fn set_direction<T: TextSource>(
    text: T,
    sequence: StoredRuns<'_>,
    classes: &mut [BidiClass],
    bracket: Place,
    direction: BidiClass,
) -> usize
    requires { IsBracket (T.text text) (map bounds sequence.runs.now) sequence.original_classes.now
        classes.old bracket }
    ensures { (k : ℕ) → k < length (T.text text).chars → bracket.unit ≡ unit_index (T.text text) k
        → IsSetUpTo (T.text text) (map bounds sequence.entry.runs.now)
        sequence.entry.original_classes.now direction bracket.unit (k + 1) result classes.old classes.new }
{
    let StoredRuns {
        runs,
        original_classes,
    } = sequence;
    let later = &runs[bracket.run..];
    if no_mark_follows(later, original_classes, classes, bracket) {
        write_bracket(classes, bracket, direction);
        return bracket.end;
    }
    set_with_marks(text, later, original_classes, classes, bracket, direction)
}

/// Returns true only if the first of some runs has the whole bracket and the character after it, and that
/// character is neither BN nor a nonspacing mark by its stored class.
fn no_mark_follows(
    runs: &[LevelRun],
    original_classes: &[BidiClass],
    classes: &[BidiClass],
    bracket: Place,
) -> bool
    requires inside { All (λ r. r.1 ≤ length classes.now) (map bounds runs.now) }
    requires original { length original_classes.now ≡ length classes.now }
    ensures { IsTrue result → IsUnmarked (map bounds runs.now) original_classes.now classes.now bracket }
{
    if runs.is_empty() || bracket.unit < runs[0].start || runs[0].end <= bracket.end {
        return false;
    }
    ends_marks(classes[bracket.end], original_classes[bracket.end])
}

/// Gives a direction to the code units of a bracket, except to those with BN.
fn write_bracket(classes: &mut [BidiClass], bracket: Place, direction: BidiClass)
    requires { bracket.end ≤ length classes.old }
    ensures { IsWrittenOver (λ k. is_kept_in_place (class_at classes.old k)) direction bracket.unit bracket.end
        classes.old classes.new }
{
    for unit in bracket.unit..bracket.end {
        if is_kept_in_place(classes[unit]) {
            classes[unit] = direction;
        }
    }
}

/// Gives a direction to a bracket in some runs, and to the characters directly after it that are nonspacing
/// marks by their stored classes. Returns where the marks end.
#[inline(never)]
fn set_with_marks<T: TextSource>(
    text: T,
    runs: &[LevelRun],
    original_classes: &[BidiClass],
    classes: &mut [BidiClass],
    bracket: Place,
    direction: BidiClass,
) -> usize
    requires are_lines { AreLines (T.text text) (map bounds runs.now) }
    requires ordered { IsTrue (are_ordered (map bounds runs.now)) }
    requires same_len { length classes.old ≡ text_len (T.text text) }
    requires original { length original_classes.now ≡ length classes.old }
    requires ends { IsTrue (is_boundary (T.text text) bracket.end) }
    ensures marks { IsMarksEnd (T.text text) (map bounds runs.now) original_classes.now classes.old
        bracket.end result }
    ensures written { IsWrittenOver (is_seen (map bounds runs.now) classes.old) direction bracket.unit result classes.old
        classes.new }
{
    let end = marks_end(text, runs, original_classes, classes, bracket.end);
    write_over_runs(runs, classes, bracket.unit, end, direction);
    end
}
