//! A call that is made three times, while one allocation may fail.

use bidi_base::level::VecError;
use std::alloc::AllocError;
use std::error::Error;
use std::{fmt, io};

/// Why a call returns no result.
#[derive(Drop)]
pub enum NoAnswer {
    /// An allocation failed, and all that the call borrowed is unchanged.
    Refused,
    /// Something else: a failed allocation changed what it must leave, or the call rejected its arguments.
    Wrong,
}

impl From<AllocError> for NoAnswer {
    fn from(_error: AllocError) -> NoAnswer {
        NoAnswer::Refused
    }
}

impl From<VecError> for NoAnswer {
    fn from(error: VecError) -> NoAnswer {
        match error {
            VecError::Memory => NoAnswer::Refused,
            VecError::OutOfRangeNumber => NoAnswer::Wrong,
        }
    }
}

/// Why a program ends early.
#[derive(Debug, Drop)]
pub enum Fault {
    /// Two of a call's three results differ, more than one is missing, or one is missing for another reason than
    /// memory. The last line of the output names the call.
    Answers,
    /// A line or a condition that the call after the last line of the output needs is not there.
    NoTrial,
    /// The arguments name no part, or no count.
    Arguments,
    /// The program could not read its arguments or write its output.
    Device,
}

impl fmt::Display for Fault {
    fn fmt<W: fmt::Write>(&self, f: &mut fmt::Formatter<W>) -> fmt::Result {
        match self {
            Fault::Answers => f.write_str(
                "three calls do not answer alike: those of the last line",
            ),
            Fault::NoTrial => f.write_str("no trial after the last line"),
            Fault::Arguments => f.write_str("usage: [utf8 | encodings | display | passes [COUNT]]"),
            Fault::Device => f.write_str("input or output failed"),
        }
    }
}

impl Error for Fault {}

impl From<io::Error> for Fault {
    fn from(_error: io::Error) -> Fault {
        Fault::Device
    }
}

/// How many times a call is made.
pub const CALLS: u8 = 3;

/// The results of a call so far: how many calls failed, and whether all results are alike.
#[derive(Clone, Copy)]
pub struct Outcomes {
    refused: u8,
    are_alike: bool,
}

impl Outcomes {
    /// Returns the results of no calls.
    pub fn new() -> Outcomes {
        Outcomes {
            refused: 0,
            are_alike: true,
        }
    }

    /// Counts a result, which is like the first one or not.
    pub fn compare(&mut self, is_alike: bool) {
        self.are_alike &= is_alike;
    }

    /// Counts a call without a result. At most one call may fail, and only to allocate.
    pub fn miss(&mut self, reason: NoAnswer) {
        self.compare(matches!(reason, NoAnswer::Refused) && self.refused == 0);
        self.refused = self.refused.saturating_add(1);
    }

    /// Prints the call's name and how many of its calls failed. The results must be alike.
    pub fn tell(self, rt: &impl Print, name: &str) -> Result<(), Fault> {
        println!(rt; "{name} {}", self.refused)?;
        if !self.are_alike {
            return Err(Fault::Answers);
        }
        Ok(())
    }
}

/// Makes a call three times, prints its name and how many of the three failed to allocate, and returns the result.
///
/// All results must be alike by the caller's test. At most one of the three calls may fail.
pub fn tried_by<A: Drop, F: FnMut() -> Result<A, NoAnswer>, S: Fn(&A, &A) -> bool>(
    rt: &impl Print,
    name: &str,
    mut call: F,
    are_alike: S,
) -> Result<A, Fault>
    requires call { F.IsAlwaysCallable call }
    requires test { S.IsAlwaysCallable are_alike }
{
    let mut first = None;
    let mut outcomes = Outcomes::new();
    for _ in 0..CALLS {
        match call() {
            Ok(answer) => match &first {
                Some(before) => outcomes.compare(are_alike(before, &answer)),
                None => first = Some(answer),
            },
            Err(reason) => outcomes.miss(reason),
        }
    }
    outcomes.tell(rt, name)?;
    first.ok_or(Fault::Answers)
}

/// Makes a call three times, prints its name and how many of the three failed to allocate, and returns the result.
///
/// All results must be equal. At most one of the three calls may fail.
pub fn tried<A: Drop + PartialEq, F: Fn() -> Result<A, NoAnswer>>(
    rt: &impl Print,
    name: &str,
    call: F,
) -> Result<A, Fault>
    requires { F.IsAlwaysCallable call }
{
    tried_by(rt, name, &call, |before, answer| *before == *answer)
}

/// Does the same in place, for a call whose result borrows from the caller.
macro_rules! tried_here {
    ($rt:expr, $name:expr, $call:expr) => {{
        let mut first = None;
        let mut outcomes = $crate::trial::Outcomes::new();
        for _ in 0..$crate::trial::CALLS {
            match $call {
                Ok(answer) => match &first {
                    Some(before) => outcomes.compare(*before == answer),
                    None => first = Some(answer),
                },
                Err(reason) => outcomes.miss($crate::trial::NoAnswer::from(reason)),
            }
        }
        outcomes.tell($rt, $name)?;
        match first {
            Some(answer) => answer,
            None => return Err($crate::trial::Fault::Answers),
        }
    }};
}

pub(crate) use tried_here;
