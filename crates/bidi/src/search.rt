//! How `check` searches one input and reports what it finds.
use crate::files::{end_without_memory, write_out};
use bidi_arguments::check_options::CheckOptions;
use bidi_arguments::input::check_input;
use bidi_arguments::line_reports::{push_lines_reported, sought_for};
use bidi_arguments::status::Status;
use bidi_controls::check::Sought;
use bidi_controls::decode::{BINARY_PREFIX, is_binary, is_utf16};
use bidi_controls::file_search::{FileSearch, FoundLine};
use bidi_controls::pieces::read_piece;
use bidi_reports::allowance::Allowance;
use bidi_reports::kind::Kind;
use bidi_reports::report::Report;
use bidi_terminal::names::shown_name;
use std::alloc::AllocError;
use std::io::{self, ErrorKind, Read};

/// What `check` looks for and where, and how the run has gone so far. It borrows what needs memory, because a value
/// that a function owns is dropped at each exit, and each drop takes time to prove.
#[derive(Drop)]
pub struct Run<'s, 'w, 'l> {
    /// What `check` looks for, where, and how it reports.
    pub options: &'s CheckOptions<'w>,
    /// What is allowed, and the entries for the rest, if they are wanted.
    pub allowance: &'s mut Allowance<'l>,
    /// The form of the report, and whether it has findings.
    pub report: &'s mut Report,
    /// The worst status so far.
    pub status: Status,
}

impl Run<'_, '_, '_> {
    ghost use Rattle.std.specs.Prelude.{◌≡◌, max, IfErr, OnOk};
    ghost use Rattle.bidi_arguments.specs.LineReports.{sought_for};
    ghost use Rattle.bidi_arguments.specs.Statuses.{status_number};

    /// Returns what is searched for and what is kept of it.
    fn sought(&self) -> Sought
        ensures { result ≡ sought_for self.now.options.now.wanted self.now.report.now.form }
    {
        sought_for(self.options.wanted, self.report.form)
    }

    /// Keeps the status of an input, if it is worse than those before.
    pub fn note(&mut self, next: Status)
        ensures { status_number self.new.status ≡ max (status_number self.old.status) (status_number next) }
    {
        self.status = self.status.worse(next);
    }

    /// Returns the status of the run: the worst that was noted or, if worse, the one that ended the run early.
    pub fn ended(&self, ended: Result<(), Status>) -> Status
        ensures to_the_end { OnOk ended (result ≡ self.now.status) }
        ensures early { IfErr ended (λ status. status_number result ≡ max (status_number self.now.status) (status_number status)) }
    {
        match ended {
            Ok(()) => self.status,
            Err(status) => self.status.worse(status),
        }
    }
}

/// Returns the value. If the allocation failed, writes that to standard error, and returns the status with which the
/// run ends.
pub fn or_end<T: Drop>(rt: &impl Eprint, made: Result<T, AllocError>) -> Result<T, Status> {
    match made {
        Ok(value) => Ok(value),
        Err(AllocError) => Err(end_without_memory(rt)),
    }
}

/// Keeps for the report, and writes to standard error, why an input could not be searched as it is. `shown` is its name as
/// a report writes it. Returns an error, which ends the run, if an allocation failed.
pub fn report_fault(
    rt: &(impl Eprint + AllocGlobal),
    report: &mut Report,
    name: &[u8],
    shown: &str,
    why: &str,
) -> Result<(), Status> {
    let message = or_end(rt, format!(in rt.alloc(); "{shown}: {why}"))?;
    or_end(rt, report.push_fault(rt.alloc(), name, message.as_str()))?;
    let _ = eprintln!(rt; "bidi: {message}");
    Ok(())
}

/// Like [`report_fault`], for a name in UTF-8.
pub fn report_named(
    rt: &(impl Eprint + AllocGlobal),
    report: &mut Report,
    name: &str,
    why: &str,
) -> Result<(), Status> {
    let shown = or_end(rt, shown_name(rt.alloc(), name))?;
    report_fault(rt, report, name.as_bytes(), shown.as_str(), why)
}

/// Reports that an input was not read, and returns its status. Returns an error, which ends the run, if an allocation
/// failed.
pub fn report_unread(
    rt: &(impl Eprint + AllocGlobal),
    report: &mut Report,
    name: &str,
    error: &io::Error,
) -> Result<Status, Status> {
    if error.kind() == ErrorKind::OutOfMemory {
        return Err(end_without_memory(rt));
    }
    let why = or_end(rt, format!(in rt.alloc(); "{error}"))?;
    report_named(rt, report, name, why.as_str())?;
    Ok(Status::Device)
}

/// Reports that an input was not read, and notes it.
pub fn note_unread(
    rt: &(impl Eprint + AllocGlobal),
    run: &mut Run<'_, '_, '_>,
    name: &str,
    error: &io::Error,
) -> Result<(), Status> {
    let status = report_unread(rt, &mut *run.report, name, error)?;
    run.note(status);
    Ok(())
}

/// Returns whether what is wrong with an input as a whole is reported: unless it is allowed, or the entry that would allow
/// it is wanted.
pub fn is_reported(
    rt: &(impl Eprint + AllocGlobal),
    run: &mut Run<'_, '_, '_>,
    name: &str,
    kind: Kind,
) -> Result<bool, Status> {
    or_end(rt, run.allowance.reports_file(rt.alloc(), name, kind))
}

// Reports where an input stops being UTF-8, if it does and that is not allowed.
fn report_invalid(
    rt: &(impl Eprint + AllocGlobal),
    run: &mut Run<'_, '_, '_>,
    name: &str,
    invalid: Option<usize>,
) -> Result<(), Status> {
    let Some(at) = invalid else {
        return Ok(());
    };
    if !is_reported(rt, run, name, Kind::NotUtf8)? {
        return Ok(());
    }
    let why = or_end(
        rt,
        format!(in rt.alloc(); "not UTF-8 from byte {at} on; invalid bytes are read as U+FFFD"),
    )?;
    report_named(rt, &mut *run.report, name, why.as_str())?;
    run.note(Status::Refused);
    Ok(())
}

// Writes what is found in all bytes of an input.
fn check_bytes(
    rt: &(impl Print + Eprint + AllocGlobal),
    run: &mut Run<'_, '_, '_>,
    name: &str,
    bytes: &[u8],
) -> Result<(), Status> {
    let wanted = run.options.wanted;
    let checked = check_input(
        rt.alloc(),
        &mut *run.report,
        &mut *run.allowance,
        wanted,
        name,
        bytes,
    );
    let checked = or_end(rt, checked)?;
    report_invalid(rt, run, name, checked.invalid)?;
    // The finding counts even if the reader of the output is gone.
    if checked.found {
        run.note(Status::Found);
    }
    write_out(rt, checked.report.as_str())
}

// Writes what is found in some lines, and drops them.
fn report_found(
    rt: &(impl Print + Eprint + AllocGlobal),
    run: &mut Run<'_, '_, '_>,
    name: &str,
    found: &mut Vec<FoundLine>,
) -> Result<(), Status> {
    if found.is_empty() {
        return Ok(());
    }
    let mut out = String::new(rt.alloc());
    let lines = found.as_slice();
    let reported = push_lines_reported(
        rt.alloc(),
        &mut *run.report,
        &mut *run.allowance,
        &mut out,
        name,
        lines,
    );
    let is_reported = or_end(rt, reported)?;
    found.truncate(0);
    // The finding counts even if the reader of the output is gone.
    if is_reported {
        run.note(Status::Found);
    }
    write_out(rt, out.as_str())
}

// The search of an input that is read piece by piece, and the lines with findings that are not reported yet.
#[derive(Drop)]
struct Pieces {
    search: FileSearch,
    found: Vec<FoundLine>,
}

// Reads the next piece of an input, and searches it. Returns whether more can follow: not after the end, a failed read,
// or too many bytes.
fn check_next(
    rt: &(impl Print + Eprint + AllocGlobal),
    run: &mut Run<'_, '_, '_>,
    name: &str,
    reader: &mut impl Read,
    bytes: &mut Vec<u8>,
    pieces: &mut Pieces,
) -> Result<bool, Status> {
    let Pieces { search, found } = pieces;
    let mut read = read_piece(reader, bytes);
    if search.has_room(bytes.len()) {
        let at_end = matches!(read, Ok(true));
        or_end(rt, search.push_read(rt.alloc(), at_end, bytes, found))?;
        report_found(rt, run, name, found)?;
    } else {
        read = Err(ErrorKind::FileTooLarge.into());
    }
    match read {
        Ok(at_end) => Ok(!at_end),
        Err(error) => {
            note_unread(rt, run, name, &error)?;
            Ok(false)
        }
    }
}

// Searches an input to its end or to a failed read. Then reports where it stops being UTF-8.
fn check_each(
    rt: &(impl Print + Eprint + AllocGlobal),
    run: &mut Run<'_, '_, '_>,
    name: &str,
    reader: &mut impl Read,
    bytes: &mut Vec<u8>,
    pieces: &mut Pieces,
) -> Result<(), Status> {
    for _ in 0..u64::MAX {
        if !check_next(rt, run, name, reader, bytes, pieces)? {
            break;
        }
    }
    report_invalid(rt, run, name, pieces.search.invalid)
}

// Searches an input in UTF-8 of which these bytes are read, piece by piece. If reading fails, reports what was found
// before.
fn check_pieces(
    rt: &(impl Print + Eprint + AllocGlobal),
    run: &mut Run<'_, '_, '_>,
    name: &str,
    reader: &mut impl Read,
    bytes: &mut Vec<u8>,
) -> Result<(), Status> {
    let mut pieces = Pieces {
        search: FileSearch::new(rt.alloc(), run.sought()),
        found: Vec::new(rt.alloc()),
    };
    check_each(rt, run, name, reader, bytes, &mut pieces)
}

// As a gate, also searches an input that begins like UTF-16 as UTF-8, since a shell or a compiler may ignore the mark.
// Invalid bytes are no fault then: UTF-16 has them.
fn check_as_utf8(
    rt: &(impl Print + Eprint + AllocGlobal),
    run: &mut Run<'_, '_, '_>,
    name: &str,
    bytes: &[u8],
) -> Result<(), Status> {
    if !run.options.search.gate {
        return Ok(());
    }
    let mut search = FileSearch::new(rt.alloc(), run.sought());
    if !search.has_room(bytes.len()) {
        return note_unread(rt, run, name, &ErrorKind::FileTooLarge.into());
    }
    let mut found = Vec::new(rt.alloc());
    or_end(rt, search.push_last(rt.alloc(), bytes, &mut found))?;
    report_found(rt, run, name, &mut found)
}

/// Searches an input, and writes what it finds. If `text` is false, reads only the first bytes of a binary input, and
/// reports nothing of it. UTF-16 is read as a whole, and other inputs piece by piece. A failed read is reported and
/// noted. Returns an error only if the run must end: an allocation or a write to standard output failed.
pub fn check_reader(
    rt: &(impl Print + Eprint + AllocGlobal),
    run: &mut Run<'_, '_, '_>,
    text: bool,
    name: &str,
    reader: &mut impl Read,
) -> Result<(), Status> {
    let mut bytes = Vec::new(rt.alloc());
    if let Err(error) = reader.take(BINARY_PREFIX as u64).read_to_end(&mut bytes) {
        return note_unread(rt, run, name, &error);
    }
    if !text && is_binary(bytes.as_slice()) {
        return Ok(());
    }
    if !is_utf16(bytes.as_slice()) {
        return check_pieces(rt, run, name, reader, &mut bytes);
    }
    match reader.read_to_end(&mut bytes) {
        Ok(_) => {
            check_bytes(rt, run, name, bytes.as_slice())?;
            check_as_utf8(rt, run, name, bytes.as_slice())
        }
        Err(error) => note_unread(rt, run, name, &error),
    }
}
