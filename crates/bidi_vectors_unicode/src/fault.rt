//! Why cases were not run.

use std::alloc::{AllocError, AllocFailed};

/// What is wrong with a line of a file.
#[derive(Clone, Copy, Debug, PartialEq)]
pub enum Why {
    Fields,
    Character,
    Class,
    Bases,
    Level,
    Place,
    NoLevels,
    Count,
    Levels,
    Paragraph,
    NoCase,
}

impl Why {
    /// Returns the reason as text.
    pub fn words(self) -> &'static str {
        match self {
            Why::Fields =>
                "two fields are wanted, classes and bases, or five: characters, base, paragraph level, levels, order",
            Why::Character => "a code point in hexadecimal digits is wanted, which is no surrogate",
            Why::Class => "no class has this name",
            Why::Bases =>
                "the bases are a sum of 1 (auto), 2 (left to right) and 4 (right to left), or 0, 1 or 2 before a paragraph level",
            Why::Level => "a level up to 126 or x is wanted",
            Why::Place => "the place of a character is wanted",
            Why::NoLevels => "@Levels and @Reorder have to stand before the first case",
            Why::Count => "this is not the number of lines of cases that were read",
            Why::Levels => "as many levels are wanted as there are characters",
            Why::Paragraph => "the text has no paragraph",
            Why::NoCase => "the file has no case",
        }
    }
}

/// Why cases were not run.
#[derive(Clone, Copy, Debug, PartialEq)]
pub enum Fault {
    /// An allocation failed.
    Memory,
    /// A line of the file has a fault. Lines are counted from 1.
    Line(usize, Why),
}

impl From<AllocError> for Fault {
    fn from(_error: AllocError) -> Fault {
        Fault::Memory
    }
}

impl<T: Drop> From<AllocFailed<T>> for Fault {
    fn from(_error: AllocFailed<T>) -> Fault {
        Fault::Memory
    }
}
