//! Runs files of rows, and prints which calls return something else.

use crate::fault::{RowFault, Why};
use crate::row::{Row, rows_of};
use crate::tally::Tally;
use std::alloc::Global;
use std::process::ExitCode;
use std::rt::Files;
use std::{fs, io};

/// The calls that a program makes for rows.
pub trait RowCalls {
    /// Makes the calls of a row, and compares their results with it.
    fn run_row(&mut self, alloc: Global, row: &Row<'_>, tally: &mut Tally) -> Result<(), RowFault>;
}

// Returns a fault with the line of its row, if the call did not know the line.
fn at_row(fault: RowFault, row: &Row<'_>) -> RowFault {
    match fault {
        RowFault::Line(0, why) => RowFault::Line(row.line, why),
        _ => fault,
    }
}

// Runs the rows of a file. Each row is compared with at least one result.
fn run_file<C: RowCalls>(
    alloc: Global,
    text: &str,
    calls: &mut C,
    tally: &mut Tally,
) -> Result<(), RowFault> {
    for row in &rows_of(alloc, text)? {
        let before = tally.compared;
        let outcome = calls.run_row(alloc, row, tally);
        outcome.map_err(|fault| at_row(fault, row))?;
        let outcome = tally.end_row();
        outcome.map_err(|fault| at_row(fault, row))?;
        if tally.compared == before {
            return Err(RowFault::Line(row.line, Why::Nothing));
        }
    }
    Ok(())
}

// The result of a run.
enum End {
    AllAgree,
    SomeDiffer,
    Refused,
}

impl End {
    fn status(self) -> ExitCode {
        match self {
            End::AllAgree => ExitCode::from(0),
            End::SomeDiffer => ExitCode::from(1),
            End::Refused => ExitCode::from(2),
        }
    }
}

// Prints why the rows of a file were not run.
fn refuse(rt: &impl Eprint, program: &str, name: &str, fault: RowFault) -> io::Result<End> {
    match fault {
        RowFault::Memory => eprintln!(rt; "{program}: {name}: out of memory")?,
        RowFault::Line(line, why) => {
            let why = why.words();
            eprintln!(rt; "{program}: {name}:{line}: {why}")?
        }
    }
    Ok(End::Refused)
}

// Runs the rows of one file, and prints what differs. Returns `None` unless the file has a fault.
fn answer_file<C: RowCalls>(
    rt: &(impl Files + Print + Eprint + AllocGlobal),
    program: &str,
    name: &str,
    calls: &mut C,
    tally: &mut Tally,
) -> io::Result<Option<End>> {
    let text = fs::read_to_string(rt, name)?;
    if let Err(fault) = run_file(rt.alloc(), text.as_str(), calls, tally) {
        return Ok(Some(refuse(rt, program, name, fault)?));
    }
    for line in tally.report.as_str().lines() {
        println!(rt; "{name}:{line}")?;
    }
    tally.report.clear();
    Ok(None)
}

// Prints, for each call, how many rows it was compared with.
fn print_calls(rt: &impl Print, tally: &Tally) -> io::Result<()> {
    for (call, count) in &tally.calls {
        println!(rt; "{count} {call}")?;
    }
    Ok(())
}

// Runs the rows of files, and prints the results.
fn answer_files<C: RowCalls>(
    rt: &(impl Files + Print + Eprint + AllocGlobal),
    program: &str,
    names: &[String],
    calls: &mut C,
) -> io::Result<End> {
    let mut tally = Tally::new(rt.alloc());
    for name in names {
        if let Some(end) = answer_file(rt, program, name.as_str(), calls, &mut tally)? {
            return Ok(end);
        }
    }
    print_calls(rt, &tally)?;
    let differing = tally.differing;
    if differing == 0 {
        return Ok(End::AllAgree);
    }
    eprintln!(rt; "{program}: {differing} answers differ")?;
    Ok(End::SomeDiffer)
}

/// Runs the rows of files. Prints a line for each row with another result, and then, for each call, how many rows it
/// was compared with.
///
/// Returns the exit status: 0 if all results agree, 1 if some differ, 2 if a file has a fault.
pub fn run_files<C: RowCalls>(
    rt: &(impl Files + Print + Eprint + AllocGlobal),
    program: &str,
    names: &[String],
    calls: &mut C,
) -> io::Result<ExitCode> {
    Ok(answer_files(rt, program, names, calls)?.status())
}
