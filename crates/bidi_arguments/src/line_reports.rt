//! The report of lines of a file, without the findings that are allowed.
ghost use Rattle.std.specs.Prelude.{◌≡◌, ◌++◌, ◌||◌, flat_map, is_some, map, IfOk, OnOk, string_bytes};
ghost use Rattle.bidi_reports.specs.Allowances.{with_more};
ghost use Rattle.bidi_reports.specs.Allowed.{Notes};
ghost use Rattle.bidi_reports.specs.Reports.{line_report};
ghost use Rattle.bidi_controls.specs.FileSearch.{displayed_of, line_of};
ghost use Rattle.bidi_arguments.specs.LineReports.{is_any_reported, is_reported, lines_report, queries_of, entry_of, reported_of, sought_for as sought_for_of};

use bidi_controls::check::Sought;
use bidi_controls::file_search::FoundLine;
use bidi_controls::finding::Wanted;
use bidi_reports::allowance::{Allowance, SearchedLine};
use bidi_reports::form::Form;
use bidi_reports::report::{LineFindings, Report};
use std::alloc::{AllocError, Global};

/// Returns what is searched for and what is kept of it, if these findings are wanted and reported in this form.
pub fn sought_for(wanted: Wanted, form: Form) -> Sought
    ensures { result ≡ sought_for_of wanted form }
{
    Sought {
        wanted,
        displays: form.shows_lines(),
    }
}

// Appends what is reported of the findings in a line of a file. Returns whether something is reported.
fn push_reported(
    alloc: Global,
    report: &mut Report,
    allowance: &mut Allowance<'_>,
    out: &mut String,
    name: &str,
    line: &FoundLine,
) -> Result<bool, AllocError>
    ensures report { let reported = reported_of allowance.old.list.entries (is_some allowance.old.written) name.now (line_of line.now) in
        OnOk result (string_bytes out.new ≡ string_bytes out.old
        ++ line_report report.old.form report.old.later name.now line.now.chars.items
        (map displayed_of line.now.displayed.items) reported) }
    ensures found { IfOk result (λ found. found
        ≡ is_reported allowance.old.list.entries (is_some allowance.old.written) name.now (line_of line.now)) }
    ensures form { report.new.form ≡ report.old.form }
    ensures later { OnOk result (report.new.later ≡ (report.old.later
        || is_reported allowance.old.list.entries (is_some allowance.old.written) name.now (line_of line.now))) }
    ensures notes { OnOk result (Notes (queries_of name.now (line_of line.now)) allowance.old.list allowance.new.list) }
    ensures written { OnOk result (allowance.new.written
        ≡ with_more (entry_of allowance.old.list.entries name.now (line_of line.now)) allowance.old.written) }
{
    let searched = SearchedLine {
        name,
        number: line.number,
        chars: line.chars.as_slice(),
        findings: line.findings.as_slice(),
    };
    let reported = allowance.reported(alloc, &searched)?;
    let found = LineFindings {
        name,
        line: line.chars.as_slice(),
        findings: reported.as_slice(),
        displayed: line.displayed.as_slice(),
    };
    report.push_line(alloc, out, &found)?;
    Ok(!reported.is_empty())
}

/// Appends the report of lines of a file to `out`, without the findings that `allowance` allows. Returns whether a
/// finding is reported.
///
/// `name` is the file's name in the report and in the allow-list. `report` has the form, and notes whether findings were
/// reported. `allowance` notes which entries of its list allow a finding. If it writes entries, it
/// gets those for all findings that are left, and none of these is reported. Returns an error if an allocation fails.
/// Then `out` may have a part of the report.
pub fn push_lines_reported(
    alloc: Global,
    report: &mut Report,
    allowance: &mut Allowance<'_>,
    out: &mut String,
    name: &str,
    lines: &[FoundLine],
) -> Result<bool, AllocError>
    ensures report { OnOk result (string_bytes out.new ≡ string_bytes out.old
        ++ lines_report allowance.old.list.entries (is_some allowance.old.written)
        report.old.form report.old.later name.now (map line_of lines.now)) }
    ensures found { IfOk result (λ found. found
        ≡ is_any_reported allowance.old.list.entries (is_some allowance.old.written) name.now (map line_of lines.now)) }
    ensures form { report.new.form ≡ report.old.form }
    ensures later { OnOk result (report.new.later ≡ (report.old.later
        || is_any_reported allowance.old.list.entries (is_some allowance.old.written) name.now (map line_of lines.now))) }
    ensures notes { OnOk result (Notes (flat_map (queries_of name.now) (map line_of lines.now)) allowance.old.list allowance.new.list) }
    ensures written { OnOk result (allowance.new.written
        ≡ with_more (flat_map (entry_of allowance.old.list.entries name.now) (map line_of lines.now)) allowance.old.written) }
{
    let mut found = false;
    for line in lines {
        let is_reported = push_reported(alloc, report, allowance, out, name, line)?;
        found = found || is_reported;
    }
    Ok(found)
}
