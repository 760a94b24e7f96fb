//! Runs Unicode's conformance tests of the bidirectional algorithm, BidiTest.txt and BidiCharacterTest.txt.
//!
//! Each case runs through `BidiInfo` and `ParagraphBidiInfo` in UTF-8 and in UTF-16, and through `engine` over a list
//! of characters. Each run tests the paragraph level, the levels after L1, and the order of L2, both by
//! `reorder_visual` and by the visual runs. Classes and brackets are those of `bidi_unicode`.
#![tactic(auto)]

mod case;
mod compare;
mod counts;
mod fault;
mod forms;
mod reader;

use counts::Counts;
use fault::Fault;
use forms::FORMS;
use reader::Reader;
use std::io::{self, Read};
use std::process::ExitCode;
use std::rt::{Env, Files};
use std::{env, fs};

const HELP: &str = "usage: bidi_vectors_unicode [FILE..]

Runs the cases of files like Unicode's BidiTest.txt and BidiCharacterTest.txt. The name '-', and no name
at all, is standard input. For each file and each form of the calls the cases that passed and those that
failed are told, and the first ten failures with their lines.

The exit status is 0 where every case passed, 1 where one failed, 2 where a file has a line that is no
case, 3 where memory was refused, and 4 where a file could not be read or written.";

// The result of a run. If files have different results, the one that comes later in this list is the result of the run.
#[derive(Clone, Copy, PartialEq)]
enum End {
    AllPassed,
    SomeFailed,
    NoCases,
    Memory,
    Device,
}

impl End {
    fn number(self) -> u8 {
        match self {
            End::AllPassed => 0,
            End::SomeFailed => 1,
            End::NoCases => 2,
            End::Memory => 3,
            End::Device => 4,
        }
    }

    fn and(self, other: End) -> End {
        if self.number() < other.number() {
            other
        } else {
            self
        }
    }
}

// Prints why the cases of a file were not run to its end.
fn refuse(rt: &impl Eprint, name: &str, fault: Fault) -> io::Result<End> {
    match fault {
        Fault::Memory => {
            eprintln!(rt; "bidi_vectors_unicode: {name}: out of memory")?;
            Ok(End::Memory)
        }
        Fault::Line(line, why) => {
            let why = why.words();
            eprintln!(rt; "bidi_vectors_unicode: {name}:{line}: {why}")?;
            Ok(End::NoCases)
        }
    }
}

// Prints how many cases of a file passed and failed.
fn print_counts(rt: &impl Print, name: &str, counts: &Counts) -> io::Result<End> {
    let (lines, cases) = (counts.lines, counts.cases);
    println!(rt; "{name}: {lines} lines, {cases} cases")?;
    for (form, outcome) in FORMS.iter().zip(&counts.outcomes) {
        let (form, passed, failed) = (form.name(), outcome.passed, outcome.failed);
        println!(rt; "{passed} passed, {failed} failed: {form}")?;
    }
    for failure in &counts.reported {
        let failure = failure.as_str();
        println!(rt; "{name}:{failure}")?;
    }
    Ok(if counts.all_passed() {
        End::AllPassed
    } else {
        End::SomeFailed
    })
}

fn run_text(rt: &(impl Print + Eprint + AllocGlobal), name: &str, text: &str) -> io::Result<End> {
    let mut reader = Reader::new(rt.alloc());
    let outcome = reader.run_file(text);
    let end = print_counts(rt, name, &reader.counts)?;
    match outcome {
        Ok(()) => Ok(end),
        Err(fault) => Ok(end.and(refuse(rt, name, fault)?)),
    }
}

fn read_standard_input(rt: &(impl Input + AllocGlobal)) -> io::Result<String> {
    let mut text = String::new(rt.alloc());
    rt.reader().read_to_string(&mut text)?;
    Ok(text)
}

fn run_file(
    rt: &(impl Files + Input + Print + Eprint + AllocGlobal),
    name: &str,
) -> io::Result<End> {
    let text = if name == "-" {
        read_standard_input(rt)
    } else {
        fs::read_to_string(rt, name)
    };
    match text {
        Ok(text) => run_text(rt, name, text.as_str()),
        Err(error) => {
            eprintln!(rt; "bidi_vectors_unicode: {name}: {error}")?;
            Ok(End::Device)
        }
    }
}

fn run(rt: &(impl Env + Files + Input + Print + Eprint + AllocGlobal)) -> io::Result<End> {
    let names: Vec<String> = env::args(rt)?.skip(1).collect(rt.alloc())?;
    if names.is_empty() {
        return run_file(rt, "-");
    }
    let mut end = End::AllPassed;
    for name in &names {
        match name.as_str() {
            "--help" => {
                println!(rt; "{HELP}")?;
                return Ok(End::AllPassed);
            }
            name => end = end.and(run_file(rt, name)?),
        }
    }
    Ok(end)
}

fn main(rt: HostRuntime) -> ExitCode {
    match run(&rt) {
        Ok(end) => ExitCode::from(end.number()),
        Err(error) => {
            let _ = eprintln!(rt; "bidi_vectors_unicode: {error}");
            ExitCode::from(End::Device.number())
        }
    }
}
