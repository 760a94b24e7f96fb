//! The files that `check` searches: its arguments and its list name them, or they are below a directory. They are
//! searched one after another. If one cannot be read, the next is searched all the same.
use crate::files::{STANDARD_INPUT, end_without_memory, read_input, write_out};
use crate::search::{
    Run, check_reader, is_reported, note_unread, or_end, report_fault, report_named, report_unread,
};
use bidi_arguments::check_options::CheckOptions;
use bidi_arguments::entries::{listed_names, names_in_order, path_below};
use bidi_arguments::operands::STANDARD_INPUT_NAME;
use bidi_arguments::status::Status;
use bidi_reports::allowance::Allowance;
use bidi_reports::allowed::{AllowList, ListFault};
use bidi_reports::form::Form;
use bidi_reports::kind::Kind;
use bidi_reports::report::Report;
use bidi_terminal::names::{shown_bytes, shown_name};
use std::alloc::AllocError;
use std::fs::{self, Metadata};
use std::io::{self, ErrorKind, Read};
use std::rt::Files;

// Why a name that is not UTF-8 is not searched.
const NOT_UTF8_NAME: &str =
    "this name is not UTF-8, so it was not searched; rename it, or pass the file on standard input";

// Why a pipe, a socket or a device is not searched.
const SPECIAL: &str =
    "neither a file, a directory nor a link, so it was not opened; pass it on standard input";

// Reports a name that is not UTF-8.
fn refuse_name(
    rt: &(impl Eprint + AllocGlobal),
    run: &mut Run<'_, '_, '_>,
    name: &[u8],
) -> Result<(), Status> {
    let shown = or_end(rt, shown_bytes(rt.alloc(), name))?;
    report_fault(rt, &mut *run.report, name, shown.as_str(), NOT_UTF8_NAME)?;
    run.note(Status::Refused);
    Ok(())
}

fn check_standard_input(
    rt: &(impl Input + Print + Eprint + AllocGlobal),
    run: &mut Run<'_, '_, '_>,
) -> Result<(), Status> {
    check_reader(rt, run, true, STANDARD_INPUT, &mut rt.reader())
}

fn check_file(
    rt: &(impl Files + Print + Eprint + AllocGlobal),
    run: &mut Run<'_, '_, '_>,
    name: &str,
) -> Result<(), Status> {
    match fs::open(rt, name) {
        Ok(mut file) => check_reader(rt, run, run.options.search.text, name, &mut file),
        Err(error) => note_unread(rt, run, name, &error),
    }
}

// Returns the names of a directory, each ended by a NUL.
fn read_directory(rt: &(impl Files + AllocGlobal), dir: &str) -> io::Result<Vec<u8>> {
    let path = path_below(rt.alloc(), dir.as_bytes(), b"")?;
    let path = str::from_utf8(path.as_slice()).map_err(|_| ErrorKind::InvalidFilename)?;
    let mut names = rt.open_dir(path)?;
    let mut listing = Vec::new(rt.alloc());
    let mut buffer = [0u8; 8192];
    for _ in 0..u64::MAX {
        let len = names.read(&mut buffer)?;
        if len == 0 {
            break;
        }
        listing.extend_from_slice(&buffer[..len])?;
    }
    Ok(listing)
}

// Reports an input that is neither a file, a directory nor a link. It could deliver bytes without
// end, or none, so it is not opened.
fn refuse_special(
    rt: &(impl Eprint + AllocGlobal),
    run: &mut Run<'_, '_, '_>,
    name: &str,
) -> Result<(), Status> {
    report_named(rt, &mut *run.report, name, SPECIAL)?;
    run.note(Status::Refused);
    Ok(())
}

// Searches the name of a link's target. The target is not opened. A name that is not UTF-8 is reported, unless that is
// allowed.
fn check_link(
    rt: &(impl Files + Print + Eprint + AllocGlobal),
    run: &mut Run<'_, '_, '_>,
    name: &str,
) -> Result<(), Status> {
    match fs::read_link(rt, name) {
        Ok(target) => {
            let mut bytes = target.as_path().as_str().as_bytes();
            check_reader(rt, run, true, name, &mut bytes)
        }
        Err(error) => {
            if error.kind() == ErrorKind::InvalidFilename
                && !is_reported(rt, run, name, Kind::Link)?
            {
                return Ok(());
            }
            note_unread(rt, run, name, &error)
        }
    }
}

// Searches the name of a link's target, or reports an input that is neither a link, a file nor a directory.
fn check_other(
    rt: &(impl Files + Print + Eprint + AllocGlobal),
    run: &mut Run<'_, '_, '_>,
    metadata: &Metadata,
    name: &str,
) -> Result<(), Status> {
    if metadata.is_symlink() {
        check_link(rt, run, name)
    } else {
        refuse_special(rt, run, name)
    }
}

// Searches the file that a link of a directory leads to, or keeps the directory for later. As a gate, also searches the
// name of the link's target.
fn visit_link(
    rt: &(impl Files + Print + Eprint + AllocGlobal),
    run: &mut Run<'_, '_, '_>,
    path: &str,
    below: &mut Vec<String>,
) -> Result<(), Status> {
    let is_gate = run.options.search.gate;
    if is_gate {
        check_link(rt, run, path)?;
    }
    match fs::metadata(rt, path) {
        Ok(metadata) if metadata.is_file() => check_file(rt, run, path),
        Ok(metadata) if metadata.is_dir() => or_end(rt, push_path(rt, below, path)),
        Ok(_) if is_gate => refuse_special(rt, run, path),
        Ok(_) => Ok(()),
        Err(error) => note_unread(rt, run, path, &error),
    }
}

// Searches a file of a directory, and keeps a directory for later. Follows a link if links are followed. Skips links,
// pipes, sockets and devices, but not as a gate.
fn visit_path(
    rt: &(impl Files + Print + Eprint + AllocGlobal),
    run: &mut Run<'_, '_, '_>,
    path: &str,
    below: &mut Vec<String>,
) -> Result<(), Status> {
    match fs::symlink_metadata(rt, path) {
        Ok(metadata) if metadata.is_file() => check_file(rt, run, path),
        Ok(metadata) if metadata.is_dir() => or_end(rt, push_path(rt, below, path)),
        Ok(metadata) if metadata.is_symlink() && run.options.search.follow => {
            visit_link(rt, run, path, below)
        }
        Ok(metadata) if run.options.search.gate => check_other(rt, run, &metadata, path),
        Ok(_) => Ok(()),
        Err(error) => note_unread(rt, run, path, &error),
    }
}

// Keeps a path.
fn push_path(rt: &impl AllocGlobal, paths: &mut Vec<String>, path: &str) -> Result<(), AllocError> {
    paths.push(String::from_str(rt.alloc(), path)?)?;
    Ok(())
}

// A directory that waits for its search.
#[derive(Drop)]
struct Waiting {
    path: String,
    // How many directories are above it, up to the first one of the search.
    depth: usize,
}

// Puts a directory on the list of those that wait.
fn push_waiting(waiting: &mut Vec<Waiting>, path: String, depth: usize) -> Result<(), AllocError> {
    waiting.push(Waiting { path, depth })?;
    Ok(())
}

// Searches the files of a directory in the order of their names, and puts the directories below it on the
// list of those that wait, the first name last.
fn visit_directory(
    rt: &(impl Files + Print + Eprint + AllocGlobal),
    run: &mut Run<'_, '_, '_>,
    visited: &Waiting,
    waiting: &mut Vec<Waiting>,
) -> Result<(), Status> {
    let dir = visited.path.as_str();
    let listing = match read_directory(rt, dir) {
        Ok(listing) => listing,
        Err(error) => return note_unread(rt, run, dir, &error),
    };
    let names = or_end(
        rt,
        names_in_order(rt.alloc(), run.options.search.hidden, listing.as_slice()),
    )?;
    let mut below = Vec::new(rt.alloc());
    for name in names.as_slice() {
        let path = or_end(rt, path_below(rt.alloc(), dir.as_bytes(), name))?;
        match str::from_utf8(path.as_slice()) {
            Ok(path) => visit_path(rt, run, path, &mut below)?,
            Err(_) => refuse_name(rt, run, path.as_slice())?,
        }
    }
    let depth = visited.depth.saturating_add(1);
    while let Some(path) = below.pop() {
        or_end(rt, push_waiting(waiting, path, depth))?;
    }
    Ok(())
}

// The directories from the first one of a search to the one that is searched, by the paths that the system has for them
// after all links are followed.
#[derive(Drop)]
struct Trail {
    directories: Vec<String>,
}

impl Trail {
    // Returns whether a directory is new on the way to it, and adds it if it is.
    fn enters(
        &mut self,
        rt: &impl AllocGlobal,
        depth: usize,
        directory: &str,
    ) -> Result<bool, AllocError> {
        self.directories.truncate(depth);
        if self
            .directories
            .iter()
            .any(|above| above.as_str() == directory)
        {
            return Ok(false);
        }
        push_path(rt, &mut self.directories, directory)?;
        Ok(true)
    }
}

// Returns whether a directory is searched. If links are followed, a directory is not searched again below itself, so a
// loop of links ends.
fn enters(
    rt: &(impl Files + Eprint + AllocGlobal),
    run: &mut Run<'_, '_, '_>,
    trail: &mut Trail,
    next: &Waiting,
) -> Result<bool, Status> {
    if !run.options.search.follow {
        return Ok(true);
    }
    match fs::canonicalize(rt, next.path.as_str()) {
        Ok(directory) => {
            let directory = directory.as_path().as_str();
            or_end(rt, trail.enters(rt, next.depth, directory))
        }
        Err(error) => {
            note_unread(rt, run, next.path.as_str(), &error)?;
            Ok(false)
        }
    }
}

// Searches the files below a directory: its own, and then those of each directory below it.
fn walk(
    rt: &(impl Files + Print + Eprint + AllocGlobal),
    run: &mut Run<'_, '_, '_>,
    top: &str,
) -> Result<(), Status> {
    let mut waiting = Vec::new(rt.alloc());
    let mut trail = Trail {
        directories: Vec::new(rt.alloc()),
    };
    let top = or_end(rt, String::from_str(rt.alloc(), top))?;
    or_end(rt, push_waiting(&mut waiting, top, 0))?;
    for _ in 0..u64::MAX {
        let Some(next) = waiting.pop() else {
            break;
        };
        if enters(rt, run, &mut trail, &next)? {
            visit_directory(rt, run, &next, &mut waiting)?;
        }
    }
    Ok(())
}

// Searches the name of a link's target, and then the file or the directory that the link leads to.
fn check_followed(
    rt: &(impl Files + Print + Eprint + AllocGlobal),
    run: &mut Run<'_, '_, '_>,
    name: &str,
) -> Result<(), Status> {
    check_link(rt, run, name)?;
    match fs::metadata(rt, name) {
        Ok(metadata) if metadata.is_dir() => walk(rt, run, name),
        Ok(metadata) if metadata.is_file() => check_file(rt, run, name),
        Ok(_) => refuse_special(rt, run, name),
        Err(error) => note_unread(rt, run, name, &error),
    }
}

// Searches what a list names: a file, the files below a directory, or the name of a link's target. Unless links are
// followed, no name of a list leads to another file.
fn check_listed(
    rt: &(impl Files + Print + Eprint + AllocGlobal),
    run: &mut Run<'_, '_, '_>,
    name: &str,
) -> Result<(), Status> {
    match fs::symlink_metadata(rt, name) {
        Ok(metadata) if metadata.is_dir() => walk(rt, run, name),
        Ok(metadata) if metadata.is_file() => check_file(rt, run, name),
        Ok(metadata) if metadata.is_symlink() && run.options.search.follow => {
            check_followed(rt, run, name)
        }
        Ok(metadata) => check_other(rt, run, &metadata, name),
        Err(error) => note_unread(rt, run, name, &error),
    }
}

// Searches a file, or the files below a directory, that an argument names. Follows a link, but as a gate only if links are
// followed.
fn check_path(
    rt: &(impl Files + Print + Eprint + AllocGlobal),
    run: &mut Run<'_, '_, '_>,
    name: &str,
) -> Result<(), Status> {
    if run.options.search.gate {
        return check_listed(rt, run, name);
    }
    match fs::metadata(rt, name) {
        Ok(metadata) if metadata.is_dir() => walk(rt, run, name),
        _ => check_file(rt, run, name),
    }
}

// Searches the files and directories that the arguments name.
fn check_arguments(
    rt: &(impl Files + Input + Print + Eprint + AllocGlobal),
    run: &mut Run<'_, '_, '_>,
    names: &[String],
) -> Result<(), Status> {
    for name in names {
        if name.as_str() == STANDARD_INPUT_NAME {
            check_standard_input(rt, run)?;
        } else {
            check_path(rt, run, name.as_str())?;
        }
    }
    Ok(())
}

// Searches the files and directories that a list names.
fn check_list(
    rt: &(impl Files + Input + Print + Eprint + AllocGlobal),
    run: &mut Run<'_, '_, '_>,
    list: &str,
) -> Result<(), Status> {
    let bytes = match read_input(rt, list) {
        Ok(bytes) => bytes,
        Err(error) => return note_unread(rt, run, list, &error),
    };
    let names = or_end(rt, listed_names(rt.alloc(), bytes.as_slice()))?;
    for name in names.as_slice() {
        match str::from_utf8(name) {
            Ok(name) => check_listed(rt, run, name)?,
            Err(_) => refuse_name(rt, run, name)?,
        }
    }
    Ok(())
}

// Searches all that the arguments and the list name, or standard input if there is neither.
fn check_all(
    rt: &(impl Files + Input + Print + Eprint + AllocGlobal),
    run: &mut Run<'_, '_, '_>,
    names: &[String],
) -> Result<(), Status> {
    match &run.options.search.list {
        None if names.is_empty() => check_standard_input(rt, run),
        None => check_arguments(rt, run, names),
        Some(list) => {
            check_arguments(rt, run, names)?;
            check_list(rt, run, list.text())
        }
    }
}

// Writes what is before the findings.
fn write_head(rt: &(impl Print + Eprint + AllocGlobal), report: &Report) -> Result<(), Status> {
    let mut out = String::new(rt.alloc());
    or_end(rt, report.push_head(&mut out))?;
    write_out(rt, out.as_str())
}

// Writes what is after the findings.
fn write_foot(rt: &(impl Print + Eprint + AllocGlobal), report: &Report) -> Result<(), Status> {
    let mut out = String::new(rt.alloc());
    or_end(rt, report.push_foot(&mut out))?;
    write_out(rt, out.as_str())
}

// Writes a report without findings, since the run ends before the search. Returns the status of the run.
fn report_nothing(
    rt: &(impl Print + Eprint + AllocGlobal),
    report: &Report,
    status: Status,
) -> Status {
    let written = write_head(rt, report).and_then(|()| write_foot(rt, report));
    match written {
        Ok(()) => status,
        Err(ended) => status.worse(ended),
    }
}

// Returns what the bytes of an allow-list allow. If a line is not an entry, the run ends.
fn allow_list<'l>(
    rt: &(impl Eprint + AllocGlobal),
    report: &mut Report,
    list: &str,
    bytes: &'l [u8],
) -> Result<AllowList<'l>, Status> {
    match AllowList::parse(rt.alloc(), bytes) {
        Ok(allowed) => Ok(allowed),
        Err(ListFault::NotUtf8(at)) => {
            let why = or_end(
                rt,
                format!(in rt.alloc(); "not UTF-8 from byte {at} on, so nothing was searched"),
            )?;
            report_named(rt, report, list, why.as_str())?;
            Err(Status::Refused)
        }
        Err(ListFault::NotAnEntry(number)) => {
            let shown = or_end(rt, shown_name(rt.alloc(), list))?;
            let place = or_end(rt, format!(in rt.alloc(); "{shown}:{number}"))?;
            let why =
                "not PATH or PATH:LINE, with kinds and a digest after tabs, so nothing was searched";
            report_fault(rt, report, list.as_bytes(), place.as_str(), why)?;
            Err(Status::Refused)
        }
        Err(ListFault::Memory) => Err(end_without_memory(rt)),
    }
}

// Returns the bytes of the allow-list. If it cannot be read, the run ends.
fn read_allowed(
    rt: &(impl Files + Input + Eprint + AllocGlobal),
    report: &mut Report,
    list: &str,
) -> Result<Vec<u8>, Status> {
    match read_input(rt, list) {
        Ok(bytes) => Ok(bytes),
        Err(error) => Err(report_unread(rt, report, list, &error)?),
    }
}

// What is said of an entry that has allowed nothing.
const UNUSED: &str = "this entry allows nothing that is there";

// What the written list begins with.
const LIST_HEAD: &str =
    "# bidi check --write-allow: a path, what is found there, and # with the digest of the line\n";

// Writes a list of all that was found, if one is wanted: to a file, or for `-` to standard output.
fn write_list(
    rt: &(impl Files + Print + Eprint + AllocGlobal),
    run: &mut Run<'_, '_, '_>,
) -> Result<(), Status> {
    let Some(file) = &run.options.report.write_allow else {
        return Ok(());
    };
    let Some(entries) = run.allowance.written() else {
        return Ok(());
    };
    let text = or_end(rt, format!(in rt.alloc(); "{LIST_HEAD}{entries}"))?;
    if file.text() == STANDARD_INPUT_NAME {
        return write_out(rt, text.as_str());
    }
    match fs::write(rt, file.text(), text.as_str()) {
        Ok(()) => Ok(()),
        Err(error) => note_unread(rt, run, file.text(), &error),
    }
}

// Reports each entry of the allow-list that has allowed nothing: with --strict-allow as a failure, and otherwise as a
// warning.
fn report_unused(
    rt: &(impl Eprint + AllocGlobal),
    run: &mut Run<'_, '_, '_>,
) -> Result<(), Status> {
    let Some(list) = &run.options.report.allow else {
        return Ok(());
    };
    let unused = or_end(rt, run.allowance.unused(rt.alloc()))?;
    if unused.is_empty() {
        return Ok(());
    }
    let shown = or_end(rt, shown_name(rt.alloc(), list.text()))?;
    for number in unused.as_slice() {
        let place = or_end(rt, format!(in rt.alloc(); "{shown}:{number}"))?;
        if run.options.report.strict {
            report_fault(
                rt,
                &mut *run.report,
                list.text().as_bytes(),
                place.as_str(),
                UNUSED,
            )?;
            run.note(Status::Found);
        } else {
            let _ = eprintln!(rt; "bidi: {place}: {UNUSED}");
        }
    }
    Ok(())
}

// Searches all of that, and writes what is before and after the findings. Before the foot, which says what failed, it
// reports the entries that have allowed nothing, and writes the list of what was found.
fn check_to_end(
    rt: &(impl Files + Input + Print + Eprint + AllocGlobal),
    run: &mut Run<'_, '_, '_>,
    names: &[String],
) -> Result<(), Status> {
    write_head(rt, run.report)?;
    check_all(rt, run, names)?;
    report_unused(rt, run)?;
    write_list(rt, run)?;
    write_foot(rt, run.report)
}

// Returns the status with which a run ends early. If it ends only because the reader of the output is gone, a gate has
// failed: it has not searched everything.
fn unfinished(is_gate: bool, status: Status) -> Status {
    match status {
        Status::Clean if is_gate => Status::Device,
        _ => status,
    }
}

// Searches all of that, without what a list allows.
fn check_with_list(
    rt: &(impl Files + Input + Print + Eprint + AllocGlobal),
    report: &mut Report,
    options: &CheckOptions<'_>,
    list: AllowList<'_>,
    names: &[String],
) -> Status {
    let mut allowance = Allowance::new(rt.alloc(), list, options.report.write_allow.is_some());
    let mut run = Run {
        options,
        allowance: &mut allowance,
        report,
        status: Status::Clean,
    };
    let ended = match check_to_end(rt, &mut run, names) {
        Ok(()) => Ok(()),
        Err(status) => Err(unfinished(options.search.gate, status)),
    };
    run.ended(ended)
}

// Searches all of that in a run with an allow-list.
fn check_allowed(
    rt: &(impl Files + Input + Print + Eprint + AllocGlobal),
    report: &mut Report,
    options: &CheckOptions<'_>,
    list: &str,
    names: &[String],
) -> Status {
    let bytes = match read_allowed(rt, report, list) {
        Ok(bytes) => bytes,
        Err(ended) => return report_nothing(rt, report, ended),
    };
    match allow_list(rt, report, list, bytes.as_slice()) {
        Ok(allowed) => check_with_list(rt, report, options, allowed, names),
        Err(ended) => report_nothing(rt, report, ended),
    }
}

/// Searches the files and directories of these names, and then those of the list. Searches standard input if
/// there are neither names nor a list, and for an argument `-`. Reports what it cannot read on standard
/// error, and goes on with the next.
pub fn check_files(
    rt: &(impl Files + Input + Print + Eprint + AllocGlobal),
    form: Form,
    options: &CheckOptions<'_>,
    names: &[String],
) -> Status {
    let mut report = Report::new(rt.alloc(), form);
    match &options.report.allow {
        None => check_with_list(rt, &mut report, options, AllowList::new(rt.alloc()), names),
        Some(list) => check_allowed(rt, &mut report, options, list.text(), names),
    }
}
