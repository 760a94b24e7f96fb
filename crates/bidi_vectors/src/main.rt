//! Runs the test vectors of files of rows, and prints which calls return something else.
//!
//! The arguments are the names of the files. Prints a line for each row with another result, and then, for each call,
//! how many rows it was compared with. `data/README.md` describes the files.
#![tactic(auto)]

mod characters;
mod directions;
mod layouts;
mod levels;
mod lines;
mod orders;
mod rows;
mod searches;
mod tables;
mod texts;
mod units;

use bidi_vectors_format::files::run_files;
use std::process::ExitCode;
use std::rt::{Env, Files};
use std::{env, io};
use tables::Sources;

fn run(rt: &(impl Env + Files + Print + Eprint + AllocGlobal)) -> io::Result<ExitCode> {
    let names: Vec<String> = env::args(rt)?.skip(1).collect(rt.alloc())?;
    if names.is_empty() {
        eprintln!(rt; "usage: bidi_vectors FILE..")?;
        return Ok(ExitCode::from(2));
    }
    let mut sources = Sources::new(rt.alloc());
    run_files(rt, "bidi_vectors", names.as_slice(), &mut sources)
}

fn main(rt: HostRuntime) -> ExitCode {
    match run(&rt) {
        Ok(status) => status,
        Err(error) => {
            let _ = eprintln!(rt; "bidi_vectors: {error}");
            ExitCode::from(4)
        }
    }
}
