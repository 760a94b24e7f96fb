//! What `explain` reads and writes.
use crate::files::{
    STANDARD_INPUT, end_without_memory, read_input, read_standard_input, refuse, refuse_rest,
    write_out,
};
use bidi_arguments::input::{explain_input, explain_line, explain_text};
use bidi_arguments::line_name::LineName;
use bidi_arguments::operands::{Operands, STANDARD_INPUT_NAME};
use bidi_arguments::status::Status;
use bidi_explain::frame;
use bidi_explain::view::{Form, StageView};
use bidi_terminal::names::shown_name;
use std::fs;
use std::rt::Files;

// Writes the results of the rules for a text.
fn explain_argument(
    rt: &(impl Print + Eprint + AllocGlobal),
    view: StageView,
    text: &str,
) -> Result<Status, Status> {
    match explain_text(rt.alloc(), view, text) {
        Ok(reported) => {
            write_out(rt, reported.as_str())?;
            Ok(Status::Clean)
        }
        Err(_) => Err(end_without_memory(rt)),
    }
}

// Writes the results of the rules for an input.
fn explain_bytes(
    rt: &(impl Print + Eprint + AllocGlobal),
    view: StageView,
    name: &str,
    bytes: &[u8],
) -> Result<Status, Status> {
    match explain_input(rt.alloc(), view, bytes) {
        Ok(reported) => {
            write_out(rt, reported.as_str())?;
            Ok(Status::Clean)
        }
        Err(fault) => refuse_rest(rt, name, fault),
    }
}

fn explain_standard_input(
    rt: &(impl Input + Print + Eprint + AllocGlobal),
    view: StageView,
) -> Result<Status, Status> {
    match read_standard_input(rt) {
        Ok(bytes) => explain_bytes(rt, view, STANDARD_INPUT, bytes.as_slice()),
        Err(error) => refuse(rt, STANDARD_INPUT, &error),
    }
}

fn explain_file(
    rt: &(impl Files + Input + Print + Eprint + AllocGlobal),
    view: StageView,
    name: &str,
) -> Result<Status, Status> {
    if name == STANDARD_INPUT_NAME {
        return explain_standard_input(rt, view);
    }
    match fs::read(rt, name) {
        Ok(bytes) => explain_bytes(rt, view, name, bytes.as_slice()),
        Err(error) => refuse(rt, name, &error),
    }
}

// Reports an argument that names no line.
fn refuse_line(rt: &(impl Eprint + AllocGlobal), name: &str, why: &str) -> Result<Status, Status> {
    let Ok(shown) = shown_name(rt.alloc(), name) else {
        return Err(end_without_memory(rt));
    };
    let _ = eprintln!(rt; "bidi: {shown}: {why}");
    Ok(Status::Refused)
}

// Writes the results of the rules for a line of an input, which `word` names.
fn explain_numbered(
    rt: &(impl Print + Eprint + AllocGlobal),
    view: StageView,
    word: &str,
    number: usize,
    bytes: &[u8],
) -> Result<Status, Status> {
    match explain_line(rt.alloc(), view, number, bytes) {
        Ok(Some(reported)) => {
            write_out(rt, reported.as_str())?;
            Ok(Status::Clean)
        }
        Ok(None) => refuse_line(rt, word, "there is no such line"),
        Err(_) => Err(end_without_memory(rt)),
    }
}

// Writes the results of the rules for a line of a file.
fn explain_named_line(
    rt: &(impl Files + Input + Print + Eprint + AllocGlobal),
    view: StageView,
    word: &str,
) -> Result<Status, Status> {
    let Some(name) = LineName::parse(word) else {
        return refuse_line(rt, word, "not FILE:LINE or FILE:LINE:COLUMN");
    };
    match read_input(rt, name.file) {
        Ok(bytes) => explain_numbered(rt, view, word, name.line, bytes.as_slice()),
        Err(error) => refuse(rt, name.file, &error),
    }
}

fn explain_word(
    rt: &(impl Files + Input + Print + Eprint + AllocGlobal),
    view: StageView,
    operands: Operands,
    word: &str,
) -> Result<Status, Status> {
    match operands {
        Operands::Texts => explain_argument(rt, view, word),
        Operands::Files => explain_file(rt, view, word),
        Operands::Lines => explain_named_line(rt, view, word),
    }
}

// Writes the results of the rules for texts or files, or for standard input if there are none.
fn explain_words(
    rt: &(impl Files + Input + Print + Eprint + AllocGlobal),
    view: StageView,
    operands: Operands,
    words: &[String],
) -> Result<Status, Status> {
    if words.is_empty() {
        return explain_standard_input(rt, view);
    }
    let mut status = Status::Clean;
    for word in words {
        match explain_word(rt, view, operands, word.as_str()) {
            Ok(next) => status = status.worse(next),
            Err(ended) => return Err(status.worse(ended)),
        }
    }
    Ok(status)
}

// Writes the results of the rules for texts or files as one page of HTML.
fn explain_as_page(
    rt: &(impl Files + Input + Print + Eprint + AllocGlobal),
    view: StageView,
    operands: Operands,
    words: &[String],
) -> Result<Status, Status> {
    write_out(rt, frame::HEAD)?;
    let status = explain_words(rt, view, operands, words)?;
    match write_out(rt, frame::FOOT) {
        Ok(()) => Ok(status),
        Err(ended) => Err(status.worse(ended)),
    }
}

/// Writes the results of the rules for texts, for the files of these names, or for lines of them: `-` is standard input.
/// Without any, reads standard input. A file that cannot be read is reported on standard error, and so is one that is not
/// UTF-8, unless lines are named. The next one is read.
pub fn explain_operands(
    rt: &(impl Files + Input + Print + Eprint + AllocGlobal),
    view: StageView,
    operands: Operands,
    words: &[String],
) -> Status {
    let explained = match view.form {
        Form::Table => explain_words(rt, view, operands, words),
        Form::Page => explain_as_page(rt, view, operands, words),
    };
    explained.unwrap_or_else(|ended| ended)
}
