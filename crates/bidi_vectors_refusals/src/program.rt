//! The parts of the calls, and what the program does before and after those of a part.

use crate::trial::Fault;
use bidi_base::data_source::TableBidiData;
use bidi_base::sample::{BRACKETS, RANGES};
use std::alloc::Global;
use std::env;
use std::process::ExitCode;
use std::rt::Env;

/// A part of the calls.
#[derive(Clone, Copy)]
pub enum Part {
    /// The calls over UTF-8, and over lines with stored classes and levels.
    Utf8,
    /// The calls over UTF-16, and over any text.
    Encodings,
    /// The calls on displayed lines and texts.
    Display,
    /// The rules over lists, and the passes in place.
    Passes,
}

/// All parts.
pub const PARTS: [Part; 4] = [Part::Utf8, Part::Encodings, Part::Display, Part::Passes];

impl Part {
    // Returns the part with this name.
    fn named(name: &str) -> Result<Part, Fault> {
        match name {
            "utf8" => Ok(Part::Utf8),
            "encodings" => Ok(Part::Encodings),
            "display" => Ok(Part::Display),
            "passes" => Ok(Part::Passes),
            _ => Err(Fault::Arguments),
        }
    }
}

/// Returns the part that the first argument names, and how many allocations to make before its calls: the second
/// argument, or 0 without one. Returns `None` without arguments.
pub fn chosen(rt: &(impl Env + AllocGlobal)) -> Result<Option<(Part, u64)>, Fault> {
    let mut words = env::args(rt)?.skip(1);
    match (words.next(), words.next()) {
        (None, _) => Ok(None),
        (Some(name), None) => Ok(Some((Part::named(name.as_str())?, 0))),
        (Some(name), Some(word)) => {
            let part = Part::named(name.as_str())?;
            let count = word.parse::<u64>().map_err(|_fault| Fault::Arguments)?;
            Ok(Some((part, count)))
        }
    }
}

// Makes `count` allocations, and returns how many failed.
fn request(alloc: Global, count: u64) -> u64 {
    let mut refused = 0u64;
    for _ in 0..count {
        if Vec::<u8>::with_capacity(alloc, 1).is_err() {
            refused = refused.saturating_add(1);
        }
    }
    refused
}

/// Makes `count` allocations before the calls, and prints how many failed.
pub fn request_before(rt: &(impl Print + AllocGlobal), count: u64) -> Result<(), Fault> {
    println!(rt; "before {}", request(rt.alloc(), count))?;
    Ok(())
}

/// Makes one allocation after the calls, and prints whether it failed.
pub fn request_behind(rt: &(impl Print + AllocGlobal)) -> Result<(), Fault> {
    println!(rt; "behind {}", request(rt.alloc(), 1))?;
    Ok(())
}

/// Returns the data source of the calls.
pub fn sample() -> Result<TableBidiData<'static>, Fault> {
    TableBidiData::new(&RANGES, &BRACKETS).map_err(|_fault| Fault::NoTrial)
}

/// Returns the exit code of the program. Prints a fault to standard error.
pub fn end(rt: &impl Eprint, outcome: Result<(), Fault>) -> ExitCode {
    match outcome {
        Ok(()) => ExitCode::SUCCESS,
        Err(fault) => {
            let _ = eprintln!(rt; "bidi_vectors_refusals: {fault}");
            ExitCode::FAILURE
        }
    }
}
