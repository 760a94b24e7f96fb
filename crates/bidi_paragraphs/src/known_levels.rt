//! Sequences with levels that are known without W1 to N2.

ghost use Rattle.std.specs.Prelude.{◌≡◌, ◌⊎◌, ℕ, ◌≤◌, true, false, length, map, All, IsTrue};
ghost use Rattle.bidi_base.specs.Indexes.{class_at};
ghost use Rattle.bidi_base.specs.Units.{bounds, in_runs};
ghost use Rattle.bidi_base.specs.Updated.{IsUpdated};
ghost use Rattle.bidi_base.specs.declared.char_data.BidiClass.TheVariants.{L};
ghost use Rattle.bidi_paragraphs.specs.KnownLevels.{number_as_l, own_direction, raises, AreInside, AreNumbersWritten, HasEuropeanNumbers, HasOneDirection, HasNoNeutral};
ghost use Rattle.bidi_explicit.specs.RunSequence.{borrowed_runs};

use bidi_base::char_data::BidiClass::{self, AL, AN, BN, EN, L, NSM, R};
use bidi_base::level::Level;
use bidi_base::search::ClassTest;
use bidi_explicit::prepare::{BorrowedSequence, LevelRun};
use bidi_explicit::run_search::none_passes;

/// Returns true only if I1 and I2 give the classes of a sequence the same levels as the classes after W1 to N2.
///
/// The conditions are those of `HasOneDirection` and `HasNoNeutral`. Other such sequences may exist. Most isolates and
/// embeddings meet a condition: a name, or a few words of one language. Many texts around them do too. This test then
/// replaces two passes.
pub fn has_known_levels(
    sequence: BorrowedSequence<'_>,
    levels: &[Level],
    classes: &[BidiClass],
) -> bool
    requires inside { AreInside sequence classes.now }
    requires same_len { length levels.now ≡ length classes.now }
    ensures { IsTrue result → HasOneDirection sequence.entry levels.now classes.now ⊎ HasNoNeutral sequence.entry classes.now }
{
    has_one_direction(sequence, levels, classes) || has_no_neutral(sequence, classes)
}

/// Returns true only if sos or eos is the direction of a sequence's level, and none of its classes raises a level.
///
/// X9 must keep the first character, because its level is that of the sequence. If sos is the other direction, it must
/// not be a nonspacing mark either, because it would take sos.
fn has_one_direction(
    sequence: BorrowedSequence<'_>,
    levels: &[Level],
    classes: &[BidiClass],
) -> bool
    requires inside { AreInside sequence classes.now }
    requires same_len { length levels.now ≡ length classes.now }
    ensures { IsTrue result → HasOneDirection sequence.entry levels.now classes.now }
{
    let runs = sequence.runs();
    let first = classes[runs[0].start];
    let direction = own_direction(sequence, levels);
    let follows = sequence.sos() == direction || (sequence.eos() == direction && first != NSM);
    first != BN && follows && none_raises(direction, runs, classes)
}

/// Returns true only if no class of some runs raises a level in a sequence of this direction. A search for constant
/// classes is faster, so there is a test for each direction.
#[tactic(auto, unfolding(crate::specs::KnownLevels::raises))]
fn none_raises(direction: BidiClass, runs: &[LevelRun], classes: &[BidiClass]) -> bool
    requires { All (λ r. r.1 ≤ length classes.now) (map bounds runs.now) }
    ensures { IsTrue result → (u : ℕ) → in_runs (map bounds runs.now) u ≡ true → raises direction (class_at classes.now u) ≡ false }
{
    if direction == L {
        none_passes(RaisingEven, runs, classes)
    } else {
        none_passes(RaisingOdd, runs, classes)
    }
}

/// Returns the direction of the level at the first code unit of a sequence.
fn own_direction(sequence: BorrowedSequence<'_>, levels: &[Level]) -> BidiClass
    requires { AreInside sequence levels.now }
    ensures { result ≡ own_direction sequence.entry levels.now }
{
    levels[sequence.runs()[0].start].bidi_class()
}

/// Returns true only if all classes of a sequence are L, R or BN.
fn has_no_neutral(sequence: BorrowedSequence<'_>, classes: &[BidiClass]) -> bool
    requires { AreInside sequence classes.now }
    ensures { IsTrue result → HasNoNeutral sequence.entry classes.now }
{
    none_passes(NotLOrROrBn, sequence.runs(), classes)
}

/// Writes L over the European numbers of a sequence, if W7 does so and no other class raises a level. Returns whether
/// it did. If not, the classes are unchanged.
///
/// The direction of the sequence's level and sos must be L, and X9 must keep its first character. An English
/// sentence with a number is such a sequence.
pub fn write_l_over_numbers(
    sequence: BorrowedSequence<'_>,
    levels: &[Level],
    classes: &mut [BidiClass],
) -> bool
    requires inside { AreInside sequence classes.old }
    requires same_len { length levels.now ≡ length classes.old }
    ensures numbers { IsTrue result → HasEuropeanNumbers sequence.entry levels.now classes.old }
    ensures written { IsTrue result → AreNumbersWritten (map bounds (borrowed_runs sequence.entry)) classes.old classes.new }
    ensures unchanged { result ≡ false → classes.new ≡ classes.old }
{
    let writes = has_european_numbers(sequence, levels, classes);
    if writes {
        write_numbers(sequence.runs(), classes);
    }
    writes
}

/// Returns true only if X9 keeps the first character of a sequence, the direction of its level and sos are L, and no
/// class but EN raises a level.
fn has_european_numbers(
    sequence: BorrowedSequence<'_>,
    levels: &[Level],
    classes: &[BidiClass],
) -> bool
    requires inside { AreInside sequence classes.now }
    requires same_len { length levels.now ≡ length classes.now }
    ensures { IsTrue result → HasEuropeanNumbers sequence.entry levels.now classes.now }
{
    let runs = sequence.runs();
    classes[runs[0].start] != BN
        && sequence.sos() == L
        && own_direction(sequence, levels) == L
        && none_passes(RightOrArabic, runs, classes)
}

/// Writes L over the European numbers of some runs.
fn write_numbers(runs: &[LevelRun], classes: &mut [BidiClass])
    requires { All (λ r. r.1 ≤ length classes.old) (map bounds runs.now) }
    ensures { AreNumbersWritten (map bounds runs.now) classes.old classes.new }
{
    for run in runs {
        write_run(run, classes);
    }
}

/// Writes L over the European numbers of a run. The loop has no branch, so that it changes many code units at once.
fn write_run(run: &LevelRun, classes: &mut [BidiClass])
    requires { run.now.end ≤ length classes.old }
    ensures { IsUpdated L (λ _. true) number_as_l run.now.start run.now.end classes.old classes.new }
{
    for unit in run.start..run.end {
        classes[unit] = number_as_l(classes[unit]);
    }
}

/// Returns L for a European number, and each other class unchanged.
fn number_as_l(class: BidiClass) -> BidiClass
    ensures { result ≡ number_as_l class }
{
    if class == EN { L } else { class }
}

/// The classes that can raise an even level: numbers, R and AL. The test has no branch, so that many code units
/// are tested at once.
#[derive(Clone, Copy, Debug)]
struct RaisingEven;

impl ClassTest for RaisingEven {
    ghost use Rattle.bidi_base.specs.declared.char_data.BidiClass.TheVariants.{L};
    ghost use Rattle.bidi_paragraphs.specs.KnownLevels.{raises};

    ghost test = { λ _. raises L };

    #[tactic(auto, unfolding(crate::specs::KnownLevels::raises))]
    fn passes(self, class: BidiClass) -> bool {
        (class == R) | (class == AL) | (class == EN) | (class == AN)
    }
}

/// The classes that can raise an odd level: numbers and L.
#[derive(Clone, Copy, Debug)]
struct RaisingOdd;

impl ClassTest for RaisingOdd {
    ghost use Rattle.bidi_base.specs.declared.char_data.BidiClass.TheVariants.{R};
    ghost use Rattle.bidi_paragraphs.specs.KnownLevels.{raises};

    ghost test = { λ _. raises R };

    #[tactic(auto, unfolding(crate::specs::KnownLevels::raises))]
    fn passes(self, class: BidiClass) -> bool {
        (class == L) | (class == EN) | (class == AN)
    }
}

/// R, AL and AN.
#[derive(Clone, Copy, Debug)]
struct RightOrArabic;

impl ClassTest for RightOrArabic {
    ghost use Rattle.bidi_paragraphs.specs.KnownLevels.{is_r_al_or_an};

    ghost test = { λ _. is_r_al_or_an };

    fn passes(self, class: BidiClass) -> bool {
        (class == R) | (class == AL) | (class == AN)
    }
}

/// All classes but L, R and BN.
#[derive(Clone, Copy, Debug)]
struct NotLOrROrBn;

impl ClassTest for NotLOrROrBn {
    ghost use Rattle.std.specs.Prelude.{not};
    ghost use Rattle.bidi_paragraphs.specs.KnownLevels.{is_l_r_or_bn};

    ghost test = { λ _ c. not (is_l_r_or_bn c) };

    #[tactic(auto, unfolding(crate::specs::KnownLevels::is_l_r_or_bn))]
    fn passes(self, class: BidiClass) -> bool {
        (class != L) & (class != R) & (class != BN)
    }
}
