//! What `bidi check` and `bidi explain` write for one input.
ghost use Rattle.std.specs.Prelude.{◌≡◌, ◌||◌, ℕ, List, None, Some, flat_map, is_some, option_map, IfErr, IfOk, IsErrOf, MatchOption, OnOk, string_bytes};
ghost use Rattle.std.specs.Str.{chars, IsUtf8};
ghost use Rattle.bidi_unicode.specs.Unicode.{unicode_source};
ghost use Rattle.bidi_explain.specs.Explained.{AreReported};
ghost use Rattle.bidi_controls.specs.Decoded.{decoded as decoded_chars, first_invalid as first_invalid_of, utf8_decoded as utf8_decoded_chars};
ghost use Rattle.bidi_controls.specs.FileLines.{file_lines_of};
ghost use Rattle.bidi_controls.specs.FileSearch.{found_from};
ghost use Rattle.bidi_shown.specs.Faults.{ReportsBytes};
ghost use Rattle.bidi_shown.specs.declared.stream.StreamFault.TheVariants.{Memory};
ghost use Rattle.bidi_arguments.specs.LineNames.{line_numbered};
ghost use Rattle.bidi_arguments.specs.LineReports.{is_any_reported, lines_report, queries_of, entry_of, sought_for as sought_for_of};
ghost use Rattle.bidi_reports.specs.Allowances.{with_more};
ghost use Rattle.bidi_reports.specs.Allowed.{Notes};

use crate::line_reports::{push_lines_reported, sought_for};
use crate::status::Status;
use bidi_controls::decode::{utf8_decoded, utf16_text};
use bidi_controls::file_lines::first_line_len;
use bidi_controls::file_search::found_lines;
use bidi_controls::finding::Wanted;
use bidi_explain::explain::explain;
use bidi_explain::view::StageView;
use bidi_reports::allowance::Allowance;
use bidi_reports::report::Report;
use bidi_shown::stream::StreamFault;
use bidi_terminal::names::chars_of;
use bidi_unicode::UnicodeData;
use std::alloc::{AllocError, Global};

/// The result of `bidi check` for one input.
#[derive(Drop)]
pub struct Checked {
    /// The report of the findings that are not allowed, in the form of the run's `Report`.
    pub report: String,
    /// Whether a finding is reported: one that is not allowed, unless `allowance` writes entries. With the form `Quiet`,
    /// `report` is empty even then.
    pub found: bool,
    /// The index of the first byte that is not UTF-8, counted from 0. `None` if there is none, and for UTF-16.
    pub invalid: Option<usize>,
}

/// Searches an input, and returns the report of its findings without those that `allowance` allows.
///
/// `bytes` are all bytes of the input: UTF-8, or UTF-16 after a byte order mark. Invalid bytes are read as U+FFFD.
/// `wanted` says which findings count. `name` is the input's name in the report and in the allow-list. `report` has the
/// form, and notes whether findings were reported. `allowance` notes which entries allow a finding, and
/// gets the entries for those that are left, if it writes them. Returns an error if an allocation fails. Then the report
/// of this input is lost, but `report` and `allowance` may have noted its findings.
pub fn check_input(
    alloc: Global,
    report: &mut Report,
    allowance: &mut Allowance<'_>,
    wanted: Wanted,
    name: &str,
    bytes: &[u8],
) -> Result<Checked, AllocError>
    ensures report { let found = found_from unicode_source (sought_for_of wanted report.old.form) 1 (file_lines_of (decoded_chars bytes.now)) in
        IfOk result (λ checked. string_bytes checked.report
        ≡ lines_report allowance.old.list.entries (is_some allowance.old.written) report.old.form report.old.later name.now found) }
    ensures found { let found = found_from unicode_source (sought_for_of wanted report.old.form) 1 (file_lines_of (decoded_chars bytes.now)) in
        IfOk result (λ checked. checked.found ≡ is_any_reported allowance.old.list.entries (is_some allowance.old.written) name.now found) }
    ensures invalid { IfOk result (λ checked. checked.invalid ≡ first_invalid_of bytes.now) }
    ensures form { report.new.form ≡ report.old.form }
    ensures later { let found = found_from unicode_source (sought_for_of wanted report.old.form) 1 (file_lines_of (decoded_chars bytes.now)) in
        OnOk result (report.new.later ≡ (report.old.later
        || is_any_reported allowance.old.list.entries (is_some allowance.old.written) name.now found)) }
    ensures notes { let found = found_from unicode_source (sought_for_of wanted report.old.form) 1 (file_lines_of (decoded_chars bytes.now)) in
        OnOk result (Notes (flat_map (queries_of name.now) found) allowance.old.list allowance.new.list) }
    ensures written { let found = found_from unicode_source (sought_for_of wanted report.old.form) 1 (file_lines_of (decoded_chars bytes.now)) in
        OnOk result (allowance.new.written
        ≡ with_more (flat_map (entry_of allowance.old.list.entries name.now) found) allowance.old.written) }
{
    let searched = found_lines(alloc, sought_for(wanted, report.form), bytes)?;
    let mut out = String::new(alloc);
    let found = push_lines_reported(
        alloc,
        report,
        allowance,
        &mut out,
        name,
        searched.lines.as_slice(),
    )?;
    Ok(Checked {
        report: out,
        found,
        invalid: searched.invalid,
    })
}

// Returns the result of each rule for each line of a text.
fn explain_chars(alloc: Global, view: StageView, chars: &[char]) -> Result<String, AllocError>
    ensures { IfOk result (λ out. AreReported unicode_source view chars.now (string_bytes out)) }
{
    explain(alloc, &UnicodeData, view, chars)
}

/// Returns the result of each rule for each line of a text, as tables or as sections of a page of HTML.
///
/// A line ends after a paragraph separator, with CR LF as one. `view` has the base level, the form and the width of a
/// table. The head and the foot of the page are in `bidi_explain::frame`. Returns an error if an allocation fails.
pub fn explain_text(alloc: Global, view: StageView, text: &str) -> Result<String, AllocError>
    ensures { IfOk result (λ out. AreReported unicode_source view (chars text.now) (string_bytes out)) }
{
    let chars = chars_of(alloc, text)?;
    explain_chars(alloc, view, chars.as_slice())
}

/// Returns the text that an input encodes.
fn text_of(bytes: &[u8]) -> Result<&str, StreamFault>
    ensures text { IfOk result (λ text. (text.now ≡ bytes.now) × IsUtf8 bytes.now) }
    ensures fault { IfErr result (ReportsBytes bytes.now) }
    ensures memory { ¬ IsErrOf result Memory }
{
    match str::from_utf8(bytes) {
        Ok(text) => Ok(text),
        Err(error) => Err(StreamFault::NotUtf8(error.valid_up_to())),
    }
}

/// Like [`explain_text`], for bytes that must be UTF-8. UTF-16 is not decoded.
///
/// Returns `StreamFault::NotUtf8` with the index of the first byte that is not UTF-8, counted from 0. Returns
/// `StreamFault::Memory` if an allocation fails.
pub fn explain_input(alloc: Global, view: StageView, bytes: &[u8]) -> Result<String, StreamFault>
    ensures text { IfOk result (λ out. IsUtf8 bytes.now
        × AreReported unicode_source view (chars bytes.now) (string_bytes out)) }
    ensures fault { IfErr result (ReportsBytes bytes.now) }
{
    let text = text_of(bytes)?;
    let reported = explain_text(alloc, view, text)?;
    Ok(reported)
}

/// Returns the line of this number, counted from 1, of bytes that are read as UTF-8. Returns `None` if there is none.
fn line_of_utf8(alloc: Global, number: usize, bytes: &[u8]) -> Result<Option<Vec<char>>, AllocError>
    ensures { IfOk result (λ line. option_map (λ chars. chars.items) line
        ≡ line_numbered number (file_lines_of (utf8_decoded_chars bytes.now))) }
{
    let mut left = number;
    let mut rest = bytes;
    while !rest.is_empty() {
        let (line, after) = rest.split_at(first_line_len(rest));
        if left == 1 {
            return Ok(Some(utf8_decoded(alloc, line)?));
        }
        left = left.saturating_sub(1);
        rest = after;
    }
    Ok(None)
}

/// Returns the line of this number, counted from 1, of an input, as `check` reads and counts lines. Returns `None` if there
/// is none.
fn line_of(alloc: Global, number: usize, bytes: &[u8]) -> Result<Option<Vec<char>>, AllocError>
    ensures { IfOk result (λ line. option_map (λ chars. chars.items) line
        ≡ line_numbered number (file_lines_of (decoded_chars bytes.now))) }
{
    match utf16_text(alloc, bytes)? {
        Some(text) => line_of_utf8(alloc, number, text.as_bytes()),
        None => line_of_utf8(alloc, number, bytes),
    }
}

/// Like [`explain_text`], for one line of an input. Returns `None` if the input has fewer lines.
///
/// `number` counts lines from 1, as `check` does: a line ends after a line feed, a CR LF or a carriage return. `bytes` are
/// all bytes of the input: UTF-8, or UTF-16 after a byte order mark. Invalid bytes are read as U+FFFD. Returns an error if
/// an allocation fails.
pub fn explain_line(
    alloc: Global,
    view: StageView,
    number: usize,
    bytes: &[u8],
) -> Result<Option<String>, AllocError>
    ensures { let line = line_numbered number (file_lines_of (decoded_chars bytes.now)) in
        IfOk result (λ out. MatchOption out (line ≡ None)
        (λ text. (chars : List ℕ) × (line ≡ Some chars) × AreReported unicode_source view chars (string_bytes text))) }
{
    let Some(chars) = line_of(alloc, number, bytes)? else {
        return Ok(None);
    };
    let reported = explain_chars(alloc, view, chars.as_slice())?;
    Ok(Some(reported))
}
