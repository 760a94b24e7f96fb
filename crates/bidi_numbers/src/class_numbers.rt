//! Classes that are stored as their numbers.
ghost use Rattle.std.specs.Prelude.{◌≡◌, length, map};
ghost use Rattle.bidi_base.specs.Search.{passing};
ghost use Rattle.bidi_lines.specs.ResetStops.{is_stop};
ghost use Rattle.bidi_numbers.specs.Numbers.{class_numbered};

use crate::numbers::class_of;
use bidi_base::char_data::BidiClass;
use bidi_base::search::{Tested, first_passing};
use bidi_lines::lists::ClassList;

/// A list of classes that is read in place from their numbers. A number above 22 is read as PDI.
#[derive(Clone, Copy, Debug)]
pub struct ClassNumbers<'t> {
    numbers: &'t [u8],
}

impl<'t> ClassNumbers<'t> {
    /// Returns the list of the classes with these numbers.
    pub fn new(numbers: &'t [u8]) -> ClassNumbers<'t>
        ensures { result.numbers.now ≡ numbers.now }
    {
        ClassNumbers { numbers }
    }
}

/// The classes with these numbers, with a test for separators and for classes that X9 removes.
#[derive(Clone, Copy, Debug)]
struct Stops<'t> {
    numbers: &'t [u8],
}

impl<'t> Tested for Stops<'t> {
    ghost count = { λ stops. length stops.numbers.now };

    ghost passes = { λ stops. passing is_stop (map class_numbered stops.numbers.now) };

    fn len(self) -> usize {
        self.numbers.len()
    }

    fn passes(self, index: usize) -> bool {
        let number = self.numbers[index];
        (9 <= number) & (number <= 11) | (14 <= number) & (number <= 18)
    }
}

impl<'t> ClassList for ClassNumbers<'t> {
    ghost classes = { λ list. map class_numbered list.numbers.now };

    fn len(self) -> usize {
        self.numbers.len()
    }

    fn class_at(self, index: usize) -> BidiClass {
        class_of(self.numbers[index])
    }

    fn next_stop(self, index: usize) -> usize {
        let numbers = self.numbers;
        first_passing(Stops { numbers }, 0, index + 1, numbers.len())
    }
}
