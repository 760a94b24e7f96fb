//! What is read and written: the files of `show`, help and versions.
use crate::help::help;
use bidi_arguments::operands::STANDARD_INPUT_NAME;
use bidi_arguments::refusal::Subcommand;
use bidi_arguments::status::Status;
use bidi_shown::stream::{Stream, StreamFault};
use bidi_shown::view::View;
use bidi_terminal::names::shown_name;
use bidi_unicode::UNICODE_VERSION;
use std::fs;
use std::io::{self, ErrorKind, Read, Write};
use std::rt::Files;
use unicode_bidi::VERSION;

/// What standard input is called in a report.
pub const STANDARD_INPUT: &str = "<stdin>";

// Ends the run if a write to standard output failed. Says nothing if the reader has closed its end.
fn after_write(rt: &impl Eprint, written: io::Result<()>) -> Result<(), Status> {
    let Err(error) = written else {
        return Ok(());
    };
    if error.kind() == ErrorKind::BrokenPipe {
        return Err(Status::Clean);
    }
    let _ = eprintln!(rt; "bidi: output failed");
    Err(Status::Device)
}

/// Writes a text to standard output.
pub fn write_out(rt: &(impl Print + Eprint), text: &str) -> Result<(), Status> {
    after_write(rt, io::writer(rt).write_all(text.as_bytes()))
}

/// Reports on standard error that an input was not read. Returns an error, which ends the run, if an allocation failed.
pub fn refuse(
    rt: &(impl Print + Eprint + AllocGlobal),
    name: &str,
    error: &io::Error,
) -> Result<Status, Status> {
    if error.kind() == ErrorKind::OutOfMemory {
        return out_of_memory(rt);
    }
    let Ok(shown) = shown_name(rt.alloc(), name) else {
        return out_of_memory(rt);
    };
    let _ = eprintln!(rt; "bidi: {shown}: {error}");
    Ok(Status::Device)
}

/// Reports that an allocation failed, and returns the status with which the run ends.
pub fn end_without_memory(rt: &impl Eprint) -> Status {
    let _ = eprintln!(rt; "bidi: out of memory");
    Status::Memory
}

fn out_of_memory(rt: &impl Eprint) -> Result<Status, Status> {
    Err(end_without_memory(rt))
}

/// Reports on standard error why an input is not read to its end.
pub fn refuse_rest(
    rt: &(impl Eprint + AllocGlobal),
    name: &str,
    fault: StreamFault,
) -> Result<Status, Status> {
    match fault {
        StreamFault::NotUtf8(at) => {
            let Ok(shown) = shown_name(rt.alloc(), name) else {
                return out_of_memory(rt);
            };
            let _ = eprintln!(rt; "bidi: {shown}: not UTF-8 from byte {at} on");
            Ok(Status::Refused)
        }
        StreamFault::Memory => out_of_memory(rt),
    }
}

// The number of bytes of an input that are read at once.
const PIECE: usize = 0x1_0000;

// The memory of an input that is shown: the current piece, the text that comes in pieces, and what is shown of it.
#[derive(Drop)]
struct Shown {
    piece: Vec<u8>,
    stream: Stream,
    out: String,
}

// Reads and shows the next piece of an input. Returns the status of the input if it has ended or failed, and `None` if
// more can follow. An error ends the run.
fn show_next(
    rt: &(impl Print + Eprint + AllocGlobal),
    view: View,
    name: &str,
    reader: &mut impl Read,
    shown: &mut Shown,
) -> Result<Option<Status>, Status> {
    let Shown { piece, stream, out } = shown;
    let count = match reader.read(piece.as_mut_slice()) {
        Ok(count) => count,
        Err(error) => return refuse(rt, name, &error).map(Some),
    };
    out.clear();
    let pushed = if count == 0 {
        stream.finish(rt.alloc(), view, out)
    } else {
        stream.push(rt.alloc(), view, &piece.as_slice()[..count], out)
    };
    write_out(rt, out.as_str())?;
    match pushed {
        Ok(()) if count == 0 => Ok(Some(Status::Clean)),
        Ok(()) => Ok(None),
        Err(fault) => refuse_rest(rt, name, fault).map(Some),
    }
}

// Shows an input to its end.
fn show_pieces(
    rt: &(impl Print + Eprint + AllocGlobal),
    view: View,
    name: &str,
    reader: &mut impl Read,
    shown: &mut Shown,
) -> Result<Status, Status> {
    for _ in 0..u64::MAX {
        if let Some(status) = show_next(rt, view, name, reader, shown)? {
            return Ok(status);
        }
    }
    Ok(Status::Clean)
}

// Shows an input piece by piece, so that its longest line determines the memory.
fn show_reader(
    rt: &(impl Print + Eprint + AllocGlobal),
    view: View,
    name: &str,
    reader: &mut impl Read,
) -> Result<Status, Status> {
    let Ok(piece) = vec![in rt.alloc(); 0; PIECE] else {
        return out_of_memory(rt);
    };
    let mut shown = Shown {
        piece,
        stream: Stream::new(rt.alloc()),
        out: String::new(rt.alloc()),
    };
    show_pieces(rt, view, name, reader, &mut shown)
}

/// Returns the bytes of standard input.
pub fn read_standard_input(rt: &(impl Input + AllocGlobal)) -> io::Result<Vec<u8>> {
    let mut bytes = Vec::new(rt.alloc());
    rt.reader().read_to_end(&mut bytes)?;
    Ok(bytes)
}

/// Returns the bytes of a file, or of standard input if the name is `-`.
pub fn read_input(rt: &(impl Files + Input + AllocGlobal), name: &str) -> io::Result<Vec<u8>> {
    if name == STANDARD_INPUT_NAME {
        read_standard_input(rt)
    } else {
        fs::read(rt, name)
    }
}

fn show_standard_input(
    rt: &(impl Input + Print + Eprint + AllocGlobal),
    view: View,
) -> Result<Status, Status> {
    show_reader(rt, view, STANDARD_INPUT, &mut rt.reader())
}

fn show_file(
    rt: &(impl Files + Input + Print + Eprint + AllocGlobal),
    view: View,
    name: &str,
) -> Result<Status, Status> {
    if name == STANDARD_INPUT_NAME {
        return show_standard_input(rt, view);
    }
    match fs::open(rt, name) {
        Ok(mut file) => show_reader(rt, view, name, &mut file),
        Err(error) => refuse(rt, name, &error),
    }
}

/// Shows the files of these names: `-` is standard input. Without any, shows standard input. A file that cannot be read
/// or is not UTF-8 is reported on standard error, and the next one is read.
pub fn show_files(
    rt: &(impl Files + Input + Print + Eprint + AllocGlobal),
    view: View,
    names: &[String],
) -> Status {
    if names.is_empty() {
        return show_standard_input(rt, view).unwrap_or_else(|ended| ended);
    }
    let mut status = Status::Clean;
    for name in names {
        match show_file(rt, view, name.as_str()) {
            Ok(next) => status = status.worse(next),
            Err(ended) => return status.worse(ended),
        }
    }
    status
}

// Returns the status of a run that only writes.
fn status_of(written: Result<(), Status>) -> Status {
    match written {
        Ok(()) => Status::Clean,
        Err(ended) => ended,
    }
}

/// Writes the help of a subcommand, or of the program.
pub fn write_help(rt: &(impl Print + Eprint), subcommand: Option<Subcommand>) -> Status {
    status_of(write_out(rt, help(subcommand)))
}

/// Writes the versions of the library and of Unicode's data.
pub fn write_versions(rt: &(impl Print + Eprint)) -> Status {
    let (major, minor, patch) = VERSION;
    let (unicode_major, unicode_minor, unicode_update) = UNICODE_VERSION;
    let written = println!(rt;
        "bidi {major}.{minor}.{patch}, Unicode {unicode_major}.{unicode_minor}.{unicode_update}"
    );
    status_of(after_write(rt, written))
}
