//! Embedding levels (BD2).
ghost use Rattle.std.specs.Prelude.{◌≡◌, ℕ, ◌+◌, ◌<◌, ◌≤◌, ◌↔◌, ◌⊎◌, IsTrue, IsOk, IfOk, OnOk, OnErr, IsErrOf, Any, codes, decimal};
ghost use Rattle.std.specs.Result.{OkIff};
ghost use Rattle.bidi_base.specs.Levels.{is_odd, is_even, next_odd, next_even, odd_from, direction_of, has_rtl as has_rtl_of};
ghost use Rattle.bidi_base.specs.declared.level.VecError.TheVariants.{OutOfRangeNumber, Memory};

use crate::char_data::BidiClass;
use itoa::Buffer;
use std::alloc::{AllocError, AllocFailed, Global};
use std::marker::Model;
use std::mem::size_of;
use std::{error, fmt};

/// The maximum explicit level (BD2).
pub const MAX_EXPLICIT_DEPTH: u8 = 125;

/// The maximum level: I1 and I2 add at most one to an explicit level of 125.
pub const MAX_IMPLICIT_DEPTH: u8 = 126;

/// An embedding level (BD2): a number from 0 to 126.
///
/// Even levels are left to right, odd levels right to left. Levels compare as their numbers.
#[derive(Clone, Copy, Debug, PartialEq, Eq, PartialOrd, Ord)]
pub struct Level(u8);

impl Model for Level {
    ghost use Rattle.std.specs.Prelude.{ℕ, ◌≤◌};

    ghost Value = { ℕ };

    ghost view = { λ a. a.0 };

    ghost inverse = { λ n. record { 0 = n } };

    ghost invariant = { λ a. a.0 ≤ 126 };
}

const _: () = prove!(size_of::<Level>() == 1);

/// Level 0, left to right.
pub const LTR_LEVEL: Level = Level(0);

/// Level 1, right to left.
pub const RTL_LEVEL: Level = Level(1);

/// The error for a level out of range.
#[derive(Debug, PartialEq, Drop)]
pub enum Error {
    /// The number is not a level, or not an explicit level if the call requires one.
    OutOfRangeNumber,
}

impl fmt::Display for Error {
    ghost use Rattle.std.specs.Prelude.{Some};
    ghost use Rattle.bidi_base.specs.Errors.{level_error_text};

    ghost output = { λ error. Some (level_error_text error) };

    fn fmt<W: fmt::Write>(&self, f: &mut fmt::Formatter<W>) -> fmt::Result {
        match self {
            Error::OutOfRangeNumber => f.write_str("level out of range"),
        }
    }
}

impl error::Error for Error {}

/// The error for a list of levels.
#[derive(Debug, PartialEq, Drop)]
pub enum VecError {
    /// A number is above 126.
    OutOfRangeNumber,
    /// An allocation failed.
    Memory,
}

impl fmt::Display for VecError {
    ghost use Rattle.std.specs.Prelude.{Some};
    ghost use Rattle.bidi_base.specs.Errors.{levels_error_text};

    ghost output = { λ error. Some (levels_error_text error) };

    fn fmt<W: fmt::Write>(&self, f: &mut fmt::Formatter<W>) -> fmt::Result {
        f.write_str(match self {
            VecError::OutOfRangeNumber => "level out of range",
            VecError::Memory => "out of memory",
        })
    }
}

impl error::Error for VecError {}

impl From<AllocError> for VecError {
    ghost from_gives = { λ _ r. r ≡ Memory };

    fn from(_error: AllocError) -> VecError {
        VecError::Memory
    }
}

impl From<AllocFailed<Level>> for VecError {
    ghost from_gives = { λ _ r. r ≡ Memory };

    fn from(_error: AllocFailed<Level>) -> VecError {
        VecError::Memory
    }
}

impl Level {
    /// Returns level 0, left to right.
    pub fn ltr() -> Level
        ensures { result ≡ 0 }
    {
        LTR_LEVEL
    }

    /// Returns level 1, right to left.
    pub fn rtl() -> Level
        ensures { result ≡ 1 }
    {
        RTL_LEVEL
    }

    /// Returns the maximum explicit level, 125.
    pub fn max_explicit_depth() -> u8
        ensures { result ≡ 125 }
    {
        MAX_EXPLICIT_DEPTH
    }

    /// Returns the maximum level, 126.
    pub fn max_implicit_depth() -> u8
        ensures { result ≡ 126 }
    {
        MAX_IMPLICIT_DEPTH
    }

    /// Returns the level with this number, or an error if the number is above 126.
    pub fn new(number: u8) -> Result<Level, Error>
        ensures { OkIff result (number ≤ 126) number }
    {
        if number <= MAX_IMPLICIT_DEPTH {
            Ok(Level(number))
        } else {
            Err(Error::OutOfRangeNumber)
        }
    }

    /// Returns the explicit level with this number, or an error if the number is above 125.
    pub fn new_explicit(number: u8) -> Result<Level, Error>
        ensures { OkIff result (number ≤ 125) number }
    {
        if number <= MAX_EXPLICIT_DEPTH {
            Ok(Level(number))
        } else {
            Err(Error::OutOfRangeNumber)
        }
    }

    /// Returns the level's number, from 0 to 126.
    pub fn number(&self) -> u8
        ensures number { result ≡ self.now }
        ensures within { self.now ≤ 126 }
    {
        self.0
    }

    /// Returns whether the level is even, that is left to right.
    pub fn is_ltr(&self) -> bool
        ensures { result ≡ is_even self.now }
    {
        self.number() % 2 == 0
    }

    /// Returns whether the level is odd, that is right to left.
    pub fn is_rtl(&self) -> bool
        ensures { result ≡ is_odd self.now }
    {
        self.number() % 2 == 1
    }

    // Returns the sum of the level and `amount`, or an error if the sum is above `limit`.
    fn raised(self, amount: u8, limit: u8) -> Result<Level, Error>
        requires { limit ≤ 126 }
        ensures { OkIff result (self + amount ≤ limit) (self + amount) }
    {
        match self.number().checked_add(amount) {
            Some(number) if number <= limit => Ok(Level(number)),
            _ => Err(Error::OutOfRangeNumber),
        }
    }

    /// Adds `amount` to the level.
    ///
    /// Returns an error exactly if the sum is above 126. The level is then unchanged.
    pub fn raise(&mut self, amount: u8) -> Result<(), Error>
        ensures succeeds { IsOk result ↔ (self.old + amount ≤ 126) }
        ensures raised { OnOk result (self.new ≡ self.old + amount) }
        ensures unchanged { OnErr result (self.new ≡ self.old) }
    {
        *self = self.raised(amount, MAX_IMPLICIT_DEPTH)?;
        Ok(())
    }

    /// Adds `amount` to the level, if the sum is an explicit level.
    ///
    /// Returns an error exactly if the sum is above 125. The level is then unchanged.
    pub fn raise_explicit(&mut self, amount: u8) -> Result<(), Error>
        ensures succeeds { IsOk result ↔ (self.old + amount ≤ 125) }
        ensures raised { OnOk result (self.new ≡ self.old + amount) }
        ensures unchanged { OnErr result (self.new ≡ self.old) }
    {
        *self = self.raised(amount, MAX_EXPLICIT_DEPTH)?;
        Ok(())
    }

    /// Subtracts `amount` from the level.
    ///
    /// Returns an error exactly if `amount` is above the level. The level is then unchanged.
    pub fn lower(&mut self, amount: u8) -> Result<(), Error>
        ensures succeeds { IsOk result ↔ (amount ≤ self.old) }
        ensures lowered { OnOk result (self.new + amount ≡ self.old) }
        ensures unchanged { OnErr result (self.new ≡ self.old) }
    {
        match self.number().checked_sub(amount) {
            Some(number) => {
                *self = Level(number);
                Ok(())
            }
            None => Err(Error::OutOfRangeNumber),
        }
    }

    /// Returns the lowest even level above this one (X3, X5, X5b).
    ///
    /// Returns an error exactly if that level is above 125.
    pub fn new_explicit_next_ltr(&self) -> Result<Level, Error>
        ensures { OkIff result (next_even self.now ≤ 125) (next_even self.now) }
    {
        Level::new_explicit(self.number() + if self.is_rtl() { 1 } else { 2 })
    }

    /// Returns the lowest odd level above this one (X2, X4, X5a).
    ///
    /// Returns an error exactly if that level is above 125.
    pub fn new_explicit_next_rtl(&self) -> Result<Level, Error>
        ensures { OkIff result (next_odd self.now ≤ 125) (next_odd self.now) }
    {
        Level::new_explicit(self.number() + if self.is_rtl() { 2 } else { 1 })
    }

    /// Returns the lowest odd level at or above this one.
    ///
    /// Returns an error exactly for level 126.
    pub fn new_lowest_ge_rtl(&self) -> Result<Level, Error>
        ensures { OkIff result (odd_from self.now ≤ 126) (odd_from self.now) }
    {
        Level::new(self.number() + if self.is_rtl() { 0 } else { 1 })
    }

    /// Returns the level's direction as a class (BD3): R if it is odd, else L.
    pub fn bidi_class(&self) -> BidiClass
        ensures { result ≡ direction_of self.now }
    {
        if self.is_rtl() {
            BidiClass::R
        } else {
            BidiClass::L
        }
    }

    /// Returns the levels with these numbers, in order.
    ///
    /// Returns `OutOfRangeNumber` exactly if a number is above 126, even if an allocation would fail.
    /// Otherwise returns `Memory` if an allocation fails.
    pub fn vec(alloc: Global, numbers: &[u8]) -> Result<Vec<Level>, VecError>
        ensures levels { IfOk result (λ v. v.items ≡ numbers.now) }
        ensures fault { IsErrOf result OutOfRangeNumber ↔ Any (λ n. 126 < n) numbers.now }
    {
        if numbers.iter().any(|n| *n > MAX_IMPLICIT_DEPTH) {
            return Err(VecError::OutOfRangeNumber);
        }
        let mut levels = Vec::with_capacity(alloc, numbers.len())?;
        for n in numbers {
            levels.push(Level(*n))?;
        }
        Ok(levels)
    }

    /// Returns whether a text names this level, as files of conformance tests do.
    ///
    /// The text is the number in decimal without leading zeros, or `x`, which names any level.
    pub fn matches_text(&self, text: &str) -> bool
        ensures { IsTrue result ↔ ((text.now ≡ codes "x") ⊎ (text.now ≡ decimal self.now)) }
    {
        text == "x" || text == Buffer::new().format(self.number())
    }
}

impl From<Level> for u8 {
    ghost from_gives = { λ l n. n ≡ l };

    fn from(level: Level) -> u8 {
        level.number()
    }
}

/// Returns whether any level is odd.
///
/// If no level of a line is odd after L1, the line is displayed in the order in which it is stored (L2).
pub fn has_rtl(levels: &[Level]) -> bool
    ensures { result ≡ has_rtl_of levels.now }
{
    let mut all = 0u8;
    for level in levels {
        all |= u8::from(*level);
    }
    all % 2 == 1
}
