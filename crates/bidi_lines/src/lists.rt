//! Lists of stored classes and levels, as `BidiClass` and `Level` or as numbers.

ghost use Rattle.std.specs.Prelude.{◌≡◌, ℕ, ◌+◌, ◌<◌, IsTrue, ⊤, nat_lt, List, length, slice_index};
ghost use Rattle.std.specs.List.{list_all};
ghost use Rattle.bidi_base.specs.declared.char_data.BidiClass.{BidiClass};
ghost use Rattle.bidi_base.specs.Levels.{has_rtl};
ghost use Rattle.bidi_base.specs.Indexes.{class_at};
ghost use Rattle.bidi_base.specs.Search.{IsFirst, passing};
ghost use Rattle.bidi_lines.specs.ResetStops.{is_stop};

use bidi_base::char_data::BidiClass;
use bidi_base::classes::{is_removed, is_separator};
use bidi_base::level::{Level, MAX_IMPLICIT_DEPTH, has_rtl};
use bidi_base::search::{Among, ClassTest, first_passing};

/// Tests for separators and characters that X9 removes. It has no branch, so that many code units are tested at once.
#[derive(Clone, Copy, Debug)]
struct SeparatorOrRemoved;

impl ClassTest for SeparatorOrRemoved {
    ghost use Rattle.bidi_lines.specs.ResetStops.{is_stop};

    ghost test = { λ _ c. is_stop c };

    fn passes(self, class: BidiClass) -> bool {
        is_separator(class) | is_removed(class)
    }
}

/// A list of classes that can be read by index and searched.
pub trait ClassList: Copy {
    /// The classes.
    ghost classes: { Self → List BidiClass };

    /// Returns the number of classes.
    fn len(self) -> usize
        ensures { result ≡ length (classes self) };

    /// Returns the class at an index below `len`.
    fn class_at(self, index: usize) -> BidiClass
        requires { index < length (classes self) }
        ensures { result ≡ class_at (classes self) index };

    /// Returns the index of the first stop after an index below `len`, or the number of classes if there is none.
    ///
    /// A stop is a separator or a class that X9 removes.
    fn next_stop(self, index: usize) -> usize
        requires { index < length (classes self) }
        ensures { IsFirst (passing is_stop (classes self)) (index + 1) (length (classes self)) result };
}

impl<'t> ClassList for &'t [BidiClass] {
    ghost classes = { λ list. list.now };

    fn len(self) -> usize {
        self.len()
    }

    fn class_at(self, index: usize) -> BidiClass {
        self[index]
    }

    fn next_stop(self, index: usize) -> usize {
        let stops = Among {
            test: SeparatorOrRemoved,
            classes: self,
        };
        first_passing(stops, 0, index + 1, self.len())
    }
}

/// A list of levels that can be read by index.
pub trait LevelList: Copy {
    /// The numbers of the levels.
    ghost numbers: { Self → List ℕ };

    /// Returns the number of levels.
    fn len(self) -> usize
        ensures { result ≡ length (numbers self) };

    /// Returns the number of the level at an index below `len`.
    fn number_at(self, index: usize) -> u8
        requires { index < length (numbers self) }
        ensures { result ≡ slice_index (numbers self) index };

    /// Returns whether some level is odd.
    fn has_rtl(self) -> bool
        ensures { result ≡ has_rtl (numbers self) };

    /// Each number is that of a level.
    ghost are_levels: { Self → Type 0 };

    /// Copies the levels to `out`, which is as long. Each number must be that of a level.
    fn copy_to(self, out: &mut [Level])
        requires valid { are_levels self }
        requires same_len { length out.old ≡ length (numbers self) }
        ensures { out.new ≡ numbers self };
}

impl<'t> LevelList for &'t [Level] {
    ghost numbers = { λ list. list.now };

    fn len(self) -> usize {
        self.len()
    }

    fn number_at(self, index: usize) -> u8 {
        self[index].number()
    }

    fn has_rtl(self) -> bool {
        has_rtl(self)
    }

    ghost are_levels = { λ _. ⊤ };

    fn copy_to(self, out: &mut [Level]) {
        out.copy_from_slice(self);
    }
}

// Returns whether some number is odd.
fn any_odd(numbers: &[u8]) -> bool
    ensures { result ≡ has_rtl numbers.now }
{
    let mut all = 0;
    for number in numbers {
        all |= *number;
    }
    all % 2 == 1
}

// Returns the level with a number, which must be at most 126.
fn level_of(number: u8) -> Level
    requires { number < 127 }
    ensures { result ≡ number }
{
    // With this bound, the compiler leaves no test in a loop over many numbers.
    match Level::new(number.min(MAX_IMPLICIT_DEPTH)) {
        Ok(level) => level,
        Err(_) => unreachable!(),
    }
}

/// Levels that are stored as their numbers.
impl<'t> LevelList for &'t [u8] {
    ghost numbers = { λ list. list.now };

    fn len(self) -> usize {
        self.len()
    }

    fn number_at(self, index: usize) -> u8 {
        self[index]
    }

    fn has_rtl(self) -> bool {
        any_odd(self)
    }

    ghost are_levels = { λ list. IsTrue (list_all (λ number. nat_lt number 127) list.now) };

    fn copy_to(self, out: &mut [Level]) {
        for i in 0..out.len() {
            out[i] = level_of(self[i]);
        }
    }
}
