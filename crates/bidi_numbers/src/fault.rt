//! Why a call returns an error, and the number of each error.
ghost use Rattle.std.specs.Prelude.{◌≡◌};
ghost use Rattle.std.specs.Result.{result_err};
ghost use Rattle.bidi_numbers.specs.Faults.{fault_unless, has_room_or_none, code_of, answer_of};

use std::alloc::AllocError;

/// Why a call returns an error.
#[derive(Clone, Copy, Debug, PartialEq, Eq)]
pub enum Fault {
    /// An allocation failed.
    NoMemory,
    /// A text of bytes is not UTF-8.
    NotUtf8,
    /// A number that stands for a character is not a scalar value.
    NotScalar,
    /// The number of a base level is from 126 to 252.
    BadBaseLevel,
    /// A number is not that of a split rule.
    BadSplit,
    /// The number of a class is above 22.
    BadClass,
    /// A level is above 126.
    BadLevel,
    /// Lists that go together have different lengths.
    UnequalLengths,
    /// A line is reversed or not inside its paragraph, or the paragraph is not inside the text.
    BadLine,
    /// A line cuts a character.
    CutCharacter,
    /// The classes or the levels of one character's code units differ.
    UnevenCharacter,
    /// A buffer is too short for the result.
    NoRoom,
    /// A range of a table is reversed, or the ranges do not ascend.
    BadRanges,
    /// A bracket number is invalid.
    BadBracket,
    /// The flags of a displayed line are invalid.
    BadFlags,
}

impl From<AllocError> for Fault {
    ghost use Rattle.bidi_numbers.specs.declared.fault.Fault.TheVariants.{NoMemory};

    ghost from_gives = { λ _ f. f ≡ NoMemory };

    fn from(_error: AllocError) -> Fault {
        Fault::NoMemory
    }
}

/// Returns the fault unless the condition holds.
pub fn check(holds: bool, fault: Fault) -> Result<(), Fault>
    ensures { result_err result ≡ fault_unless holds fault }
{
    if holds { Ok(()) } else { Err(fault) }
}

/// Returns whether a buffer of `room` entries is empty or has room for `count` entries.
pub fn has_room_or_none(count: usize, room: usize) -> bool
    ensures { result ≡ has_room_or_none count room }
{
    room == 0 || count <= room
}

/// Returns `NoRoom` if a buffer of `room` entries is not empty, but too short for `count` entries.
pub fn check_room_or_none(count: usize, room: usize) -> Result<(), Fault>
    ensures { result_err result ≡ fault_unless (has_room_or_none count room) Fault.NoRoom }
{
    check(has_room_or_none(count, room), Fault::NoRoom)
}

/// Returns the number that the C header gives a fault. It is below 0.
fn code(fault: Fault) -> i64
    ensures { result ≡ code_of fault }
{
    match fault {
        Fault::NoMemory => -1,
        Fault::NotUtf8 => -2,
        Fault::NotScalar => -3,
        Fault::BadBaseLevel => -4,
        Fault::BadSplit => -5,
        Fault::BadClass => -6,
        Fault::BadLevel => -7,
        Fault::UnequalLengths => -8,
        Fault::BadLine => -9,
        Fault::CutCharacter => -10,
        Fault::UnevenCharacter => -11,
        Fault::NoRoom => -12,
        Fault::BadRanges => -13,
        Fault::BadBracket => -14,
        Fault::BadFlags => -15,
    }
}

/// Returns the number that an export returns: a count, or the negative number of a fault. A count is at most 2^63 - 1.
pub fn answer(found: Result<usize, Fault>) -> i64
    ensures { result ≡ answer_of found }
{
    match found {
        Ok(count) => i64::try_from(count).unwrap_or(i64::MAX),
        Err(fault) => code(fault),
    }
}
