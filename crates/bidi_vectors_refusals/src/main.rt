//! Makes each call that allocates three times, and tests that a failed allocation changes no other result.
//!
//! The first argument names a part of the calls: `utf8` over UTF-8 and over lines with stored classes and levels,
//! `encodings` over UTF-16 and over any text, `display` on displayed lines and texts, `passes` by the rules over lists and
//! the passes in place. The second says how many allocations the program makes before them. Without arguments, it makes
//! the calls of each part.
#![tactic(auto)]

mod any_text;
mod display;
mod infos;
mod lists;
mod passes;
mod program;
mod stored_lines;
mod texts;
mod trial;
mod utf16;
mod utf8;

use bidi_base::data_source::TableBidiData;
use program::{PARTS, Part, chosen, end, request_before, request_behind, sample};
use std::process::ExitCode;
use std::rt::Env;
use trial::Fault;

// Makes the calls of a part over this source.
fn run_calls(
    rt: &(impl Print + AllocGlobal),
    part: Part,
    source: &TableBidiData<'_>,
) -> Result<(), Fault> {
    match part {
        Part::Utf8 => {
            utf8::run(rt, source)?;
            stored_lines::run(rt, source)
        }
        Part::Encodings => {
            utf16::run(rt, source)?;
            any_text::run(rt, source)
        }
        Part::Display => display::run(rt, source),
        Part::Passes => {
            lists::run(rt, source)?;
            passes::run(rt, source)
        }
    }
}

// Makes the calls of a part, after so many allocations and before one.
fn run_part(rt: &(impl Print + AllocGlobal), part: Part, count: u64) -> Result<(), Fault> {
    request_before(rt, count)?;
    let source = sample()?;
    run_calls(rt, part, &source)?;
    request_behind(rt)
}

fn run(rt: &(impl Env + Print + AllocGlobal)) -> Result<(), Fault> {
    if let Some((part, count)) = chosen(rt)? {
        return run_part(rt, part, count);
    }
    for part in PARTS {
        run_part(rt, part, 0)?;
    }
    Ok(())
}

fn main(rt: HostRuntime) -> ExitCode {
    end(&rt, run(&rt))
}
