//! Prints how lines are displayed, and runs the test vectors of displayed lines.
//!
//! With `--rows`, the other arguments are files of rows (`rows`). A line is printed for each row with another result, and
//! then, for each call, how many rows it was compared with. `data/README.md` describes the rows.
//!
//! Otherwise each line of a file is a case (`case`). A text runs through one of the encodings, and what is printed counts
//! characters, so that the encoding does not matter. `tests/displayed_lines` compares it with a model.
#![tactic(auto)]

mod case;
#[cfg(test)]
mod cluster_tests;
mod display;
mod encodings;
mod line_rows;
mod line_words;
mod report;
mod row_options;
mod rows;
#[cfg(test)]
mod tests;
mod text_rows;

use bidi_vectors_format::files::run_files;
use case::Case;
use encodings::displayed_case;
use report::push_report;
use rows::DisplayCalls;
use std::alloc::{AllocError, Global};
use std::io::{self, Read};
use std::process::ExitCode;
use std::rt::{Env, Files};
use std::{env, fs};

const HELP: &str = "usage: bidi_vectors_display [FILE]
       bidi_vectors_display --rows FILE..

Prints how the lines of a file are displayed. The name '-', and no name at all, is standard input. A line is

    ENCODING BASE MOVES DROPPED TAB WIDTHS | CHARACTERS

with an encoding of utf8, utf16 or chars; a base level of 0 or 1; characters, marks or clusters; nothing, controls or
neutrals; columns between tab stops; signs or cells; and hexadecimal numbers of characters.

The exit status is 0 if every line is such a case, 2 if one is not, 3 if memory ran out, and 4 if a file could not be
read or written.

With --rows, runs the test vectors of the files. The exit status is 0 if all results agree, 1 if some differ, 2 if a file
has a fault, and 4 if a file could not be read.";

// Why the lines of a file were not printed to their end.
#[derive(Clone, Copy)]
enum Fault {
    Line(usize),
    Memory,
}

impl From<AllocError> for Fault {
    fn from(_: AllocError) -> Fault {
        Fault::Memory
    }
}

// Appends how the lines of a text are displayed.
fn push_reports(alloc: Global, out: &mut String, text: &str) -> Result<(), Fault> {
    for (index, line) in text.lines().enumerate() {
        let Some(case) = Case::of_line(alloc, line)? else {
            return Err(Fault::Line(index));
        };
        let shown = displayed_case(alloc, &case)?;
        push_report(alloc, out, &shown)?;
    }
    Ok(())
}

// Prints how the lines of a text are displayed.
fn run_text(
    rt: &(impl Print + Eprint + AllocGlobal),
    name: &str,
    text: &str,
) -> io::Result<ExitCode> {
    let mut out = String::new(rt.alloc());
    let outcome = push_reports(rt.alloc(), &mut out, text);
    let out = out.as_str();
    print!(rt; "{out}")?;
    match outcome {
        Ok(()) => Ok(ExitCode::SUCCESS),
        Err(Fault::Line(index)) => {
            let line = index.saturating_add(1);
            eprintln!(rt; "bidi_vectors_display: {name}:{line}: no case")?;
            Ok(ExitCode::from(2))
        }
        Err(Fault::Memory) => {
            eprintln!(rt; "bidi_vectors_display: {name}: out of memory")?;
            Ok(ExitCode::from(3))
        }
    }
}

fn read_standard_input(rt: &(impl Input + AllocGlobal)) -> io::Result<String> {
    let mut text = String::new(rt.alloc());
    rt.reader().read_to_string(&mut text)?;
    Ok(text)
}

fn run_file(
    rt: &(impl Files + Input + Print + Eprint + AllocGlobal),
    name: &str,
) -> io::Result<ExitCode> {
    let text = if name == "-" {
        read_standard_input(rt)?
    } else {
        fs::read_to_string(rt, name)?
    };
    run_text(rt, name, text.as_str())
}

fn run(rt: &(impl Env + Files + Input + Print + Eprint + AllocGlobal)) -> io::Result<ExitCode> {
    let mut args = env::args(rt)?.skip(1);
    match args.next() {
        None => run_file(rt, "-"),
        Some(name) if name.as_str() == "--help" => {
            println!(rt; "{HELP}")?;
            Ok(ExitCode::SUCCESS)
        }
        Some(name) if name.as_str() == "--rows" => {
            let names: Vec<String> = args.collect(rt.alloc())?;
            run_files(
                rt,
                "bidi_vectors_display",
                names.as_slice(),
                &mut DisplayCalls,
            )
        }
        Some(name) => run_file(rt, name.as_str()),
    }
}

fn main(rt: HostRuntime) -> ExitCode {
    match run(&rt) {
        Ok(code) => code,
        Err(error) => {
            let _ = eprintln!(rt; "bidi_vectors_display: {error}");
            ExitCode::from(4)
        }
    }
}
