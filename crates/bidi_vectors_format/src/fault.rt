//! Why rows were not run.

use std::alloc::{AllocError, AllocFailed};

/// Why a line of a file is not valid in its row, or why the calls of a row could not be made.
#[derive(Clone, Copy, Debug, PartialEq)]
pub enum Why {
    ClassRange,
    Brackets,
    Source,
    Character,
    Surrogate,
    UnitsDiffer,
    Class,
    MissingField,
    OtherField,
    TwiceField,
    NoField,
    NoRow,
    Number,
    Level,
    Range,
    YesOrNo,
    TextRange,
    Sides,
    Sequence,
    OtherText,
    ExplicitLevel,
    Isolate,
    Place,
    Classes,
    Lengths,
    RemovedChanged,
    RulesOverLists,
    Kind,
    Nothing,
    Byte,
    Line,
    Split,
    Paragraph,
    SourceName,
    Test,
    Option,
}

impl Why {
    /// The reason in words.
    pub fn words(self) -> &'static str {
        match self {
            Why::ClassRange => "a range is wanted, as U+05D0..U+05EA R",
            Why::Brackets => "a pair of brackets is wanted, as ( )",
            Why::Source => "the ranges of the source do not ascend",
            Why::Character => "a character is wanted, as a or U+05D0",
            Why::Surrogate => "a surrogate is no character",
            Why::UnitsDiffer => "the units of a character have different values",
            Why::Class => "no class has this name",
            Why::MissingField => "a field of this row is missing",
            Why::OtherField => "a row of this kind has no such field",
            Why::TwiceField => "the field stands twice",
            Why::NoField => "neither a row's first line nor a field",
            Why::NoRow => "a field stands before the first row",
            Why::Number => "a number is wanted",
            Why::Level => "a level from 0 to 126 is wanted",
            Why::Range => "a range is wanted, as 2..5",
            Why::YesOrNo => "yes or no is wanted",
            Why::TextRange => "the text has no such characters",
            Why::Sides => "sos and eos are wanted behind the runs",
            Why::Sequence => "these runs make no sequence",
            Why::OtherText => "a sequence or classes of another text",
            Why::ExplicitLevel => "a level from 0 to 125 is wanted",
            Why::Isolate => "an isolate stands there",
            Why::Place => "no place in the run",
            Why::Classes => "other classes than the weak types leave",
            Why::Lengths => "lists of other lengths",
            Why::RemovedChanged => "what X9 removes has changed its class",
            Why::RulesOverLists => "the rules over lists found no sequence of characters",
            Why::Kind => "there is no such kind of row",
            Why::Nothing => "the row says nothing of any answer",
            Why::Byte => "a number up to 255 is wanted",
            Why::Line => "the text has no such line",
            Why::Split => "each-separator, cr-lf-together or whole is wanted",
            Why::Paragraph => "the text has no paragraph",
            Why::SourceName => "no source before this row has this name",
            Why::Test => "there is no such test",
            Why::Option => "the field has no such value",
        }
    }
}

/// Why rows were not run.
#[derive(Clone, Copy, Debug, PartialEq)]
pub enum RowFault {
    /// Out of memory.
    Memory,
    /// An invalid line of the file, by its number from 1, or 0 for the current row.
    Line(usize, Why),
}

impl From<AllocError> for RowFault {
    fn from(_error: AllocError) -> RowFault {
        RowFault::Memory
    }
}

impl<T: Drop> From<AllocFailed<T>> for RowFault {
    fn from(_error: AllocFailed<T>) -> RowFault {
        RowFault::Memory
    }
}
