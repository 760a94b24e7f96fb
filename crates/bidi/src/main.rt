//! The program `bidi`. `bidi check` finds direction controls that have no match on their line, and lines that are
//! displayed differently from how they read, such as lines of source code. `bidi show` writes the lines of a text for a
//! terminal without bidirectional support. `bidi explain` writes the result of each rule for the characters of a text.
#![tactic(auto)]

mod explain;
mod files;
mod help;
mod search;
mod terminal;
mod walk;

use bidi_arguments::command::Command;
use bidi_arguments::refusal::Refusal;
use bidi_arguments::status::Status;
use bidi_explain::view::StageView;
use bidi_terminal::names::{shown_bytes, shown_name};
use explain::explain_operands;
use files::{end_without_memory, show_files, write_help, write_versions};
use std::alloc::AllocError;
use std::env::{self, FillError, VarError};
use std::io::{self, ErrorKind, IsTerminal};
use std::process::ExitCode;
use std::rt::{Env, Files};
use terminal::terminal_columns;
use walk::check_files;

// Returns the arguments after the program's name.
fn arguments(rt: &(impl Env + AllocGlobal)) -> io::Result<Vec<String>> {
    let words = env::args(rt)?.skip(1).collect(rt.alloc())?;
    Ok(words)
}

// The maximum number of bytes of an argument in Linux.
const ARGUMENT_LIMIT: usize = 0x2_0000;

// Reports each argument that is not UTF-8. Its bytes are those of the system's list of arguments.
fn report_arguments(rt: &(impl Env + Eprint + AllocGlobal)) -> Result<(), AllocError> {
    let mut buffer = Vec::new(rt.alloc());
    buffer.resize(ARGUMENT_LIMIT, 0)?;
    for number in 1..usize::MAX {
        match rt.arg(number, buffer.as_mut_slice()) {
            Ok(len) => report_argument(rt, &buffer.as_slice()[..len])?,
            Err(FillError::TooLong) => {}
            Err(FillError::NotPresent) => break,
        }
    }
    Ok(())
}

// Reports an argument that is not UTF-8.
fn report_argument(rt: &(impl Eprint + AllocGlobal), argument: &[u8]) -> Result<(), AllocError> {
    if str::from_utf8(argument).is_err() {
        let shown = shown_bytes(rt.alloc(), argument)?;
        let _ = eprintln!(rt;
            "bidi: {shown}: this argument is not UTF-8, so no file was read; rename the file, or pass it \
             on standard input"
        );
    }
    Ok(())
}

// Reports why there are no arguments.
fn refuse_arguments(rt: &(impl Env + Eprint + AllocGlobal), error: &io::Error) -> Status {
    if error.kind() != ErrorKind::InvalidData {
        let _ = eprintln!(rt; "bidi: the arguments could not be read: {error}");
        return Status::Device;
    }
    if report_arguments(rt).is_err() {
        return end_without_memory(rt);
    }
    Status::Refused
}

// Reports why the arguments are wrong.
fn refuse(rt: &(impl Eprint + AllocGlobal), refusal: &Refusal<'_>) -> Result<(), AllocError> {
    let text = format!(in rt.alloc(); "{refusal}")?;
    let shown = shown_name(rt.alloc(), text.as_str())?;
    let _ = eprintln!(rt; "bidi: {shown}");
    Ok(())
}

// Returns whether the environment asks for no colours: by NO_COLOR, unless it is empty.
fn has_no_color(rt: &(impl Env + AllocGlobal)) -> bool {
    match env::var(rt, "NO_COLOR") {
        Ok(value) => !value.is_empty(),
        Err(VarError::NotPresent) => false,
        Err(VarError::NotUnicode | VarError::OutOfMemory) => true,
    }
}

// Returns the width of the output if it is a terminal.
fn output_width(rt: &(impl Env + AllocGlobal), to_terminal: bool) -> Option<u16> {
    if to_terminal {
        Some(terminal_columns(rt))
    } else {
        None
    }
}

// Does what the arguments ask for.
fn run_command(
    rt: &(impl Env + Files + Input + Print + Eprint + AllocGlobal),
    command: Command<'_>,
    to_terminal: bool,
) -> Status {
    match command {
        Command::Check { options, files } => {
            let form = options.report.form(to_terminal, has_no_color(rt));
            check_files(rt, form, &options, files.words())
        }
        Command::Explain {
            view,
            operands,
            words,
        } => {
            let width = view.width.or(output_width(rt, to_terminal));
            let view = StageView { width, ..view };
            explain_operands(rt, view, operands, words.words())
        }
        Command::Help(subcommand) => write_help(rt, subcommand),
        Command::Show { view, files } => {
            let view = view.or_width(output_width(rt, to_terminal));
            show_files(rt, view, files.words())
        }
        Command::Version => write_versions(rt),
    }
}

// Reads the arguments, and does what they ask for.
fn run(
    rt: &(impl Env + Files + Input + Print + Eprint + AllocGlobal),
    to_terminal: bool,
) -> Status {
    let words = match arguments(rt) {
        Ok(words) => words,
        Err(error) => return refuse_arguments(rt, &error),
    };
    match Command::parse(words.as_slice()) {
        Ok(command) => run_command(rt, command, to_terminal),
        Err(refusal) => match refuse(rt, &refusal) {
            Ok(()) => Status::Refused,
            Err(AllocError) => end_without_memory(rt),
        },
    }
}

fn main(rt: HostRuntime) -> ExitCode {
    let to_terminal = rt.stdout().is_terminal();
    ExitCode::from(run(&rt, to_terminal).number())
}
