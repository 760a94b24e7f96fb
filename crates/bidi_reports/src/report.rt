//! What is reported of the findings of a run.
ghost use Rattle.std.specs.Prelude.{◌≡◌, ◌++◌, ◌==◌, ◌||◌, [], false, true, not, length, map, IfOk, OnOk, string_bytes};
ghost use Rattle.std.specs.Str.{chars};
ghost use Rattle.bidi_reports.specs.Digests.{digest_for};
ghost use Rattle.bidi_reports.specs.Notifications.{with_notification};
ghost use Rattle.bidi_controls.specs.FileSearch.{displayed_of};
ghost use Rattle.bidi_reports.specs.Reports.{differs, displayed_at, displayed_for, finding_report, is_left_out, line_report, report_head, report_foot};

use crate::digest::line_digest;
use crate::form::Form;
use crate::json_text::{push_json, push_result, push_result_start, push_sarif_head};
use crate::notifications::{push_notification, push_sarif_foot};
use crate::text::{DisplayedChars, ReportedFinding, push_text};
use crate::words::{is_about_line, is_displayed_differently, is_unmatched};
use bidi_controls::differing::DisplayedParagraph;
use bidi_controls::finding::Finding;
use bidi_terminal::names::shown_name;
use std::alloc::{AllocError, Global};

// Appends the report of a finding in this form.
fn push_finding(
    alloc: Global,
    out: &mut String,
    form: Form,
    later: bool,
    reported: &ReportedFinding<'_>,
) -> Result<(), AllocError>
    ensures { OnOk result (string_bytes out.new ≡ string_bytes out.old
        ++ finding_report form later reported.now.name.now reported.now.line.now reported.now.digest.now
        (reported.now.displayed.moved, reported.now.displayed.chars.now) reported.now.finding.now) }
{
    match form {
        Form::Quiet => Ok(()),
        Form::Text {
            excerpts,
            colors,
            notes,
        } => {
            let shown = shown_name(alloc, reported.name)?;
            let reported = ReportedFinding {
                name: shown.as_str(),
                ..*reported
            };
            push_text(out, excerpts, colors, notes, &reported)
        }
        Form::Json => push_json(alloc, out, reported),
        Form::Sarif => push_result(alloc, out, later, reported),
    }
}

// Returns the digest that a report of this form has of a line, or else nothing.
fn digest_for(alloc: Global, form: Form, line: &[char]) -> Result<String, AllocError>
    ensures { IfOk result (λ digest. string_bytes digest ≡ digest_for form line.now) }
{
    match form {
        Form::Sarif => line_digest(alloc, line),
        _ => Ok(String::new(alloc)),
    }
}

// Returns whether one of these findings says that the line is displayed differently from how it reads.
fn differs(findings: &[Finding]) -> bool
    ensures { result ≡ differs findings.now }
{
    findings
        .iter()
        .any(|finding| is_displayed_differently(finding.trouble))
}

// Returns whether a report of this form has no result for a finding. `different` says whether its line is displayed
// differently from how it reads.
fn is_left_out(form: Form, different: bool, finding: &Finding) -> bool
    ensures { result ≡ is_left_out form different finding.now }
{
    match form {
        Form::Sarif => different && is_unmatched(finding.trouble),
        _ => false,
    }
}

/// The findings in a line of a file.
#[derive(Clone, Copy)]
pub struct LineFindings<'l> {
    /// The name of the file. The report escapes it as its form requires.
    pub name: &'l str,
    /// The line with the characters that end it.
    pub line: &'l [char],
    /// What is found in it, in order.
    pub findings: &'l [Finding],
    /// Each of its paragraphs that is displayed differently from how it reads, as it is displayed.
    pub displayed: &'l [DisplayedParagraph],
}

// Nothing that is displayed.
const NOTHING_DISPLAYED: DisplayedChars<'static> = DisplayedChars {
    chars: &[],
    moved: 0,
};

// Returns the paragraph that has its finding at a column, as it is displayed. Returns no characters if there is no such
// paragraph.
fn displayed_at(displayed: &[DisplayedParagraph], column: usize) -> DisplayedChars<'_>
    ensures { (result.moved, result.chars.now) ≡ displayed_at column (map displayed_of displayed.now) }
{
    for paragraph in displayed {
        if paragraph.column == column {
            return DisplayedChars {
                chars: paragraph.chars.as_slice(),
                moved: paragraph.moved,
            };
        }
    }
    NOTHING_DISPLAYED
}

impl<'l> LineFindings<'l> {
    // Returns what is displayed, if a finding is about that, or nothing.
    fn displayed_for(&self, finding: &Finding) -> DisplayedChars<'l>
        ensures { (result.moved, result.chars.now) ≡ displayed_for (map displayed_of self.now.displayed.now) finding.now }
    {
        if is_about_line(finding.trouble) {
            displayed_at(self.displayed, finding.column)
        } else {
            NOTHING_DISPLAYED
        }
    }
}

/// The report of a run, written one line of a file after another.
#[derive(Drop)]
pub struct Report {
    /// Its form.
    pub form: Form,
    /// Whether findings were written.
    pub later: bool,
    /// What SARIF says after the results: why an input could not be searched as it is, and with `--strict-allow` each entry
    /// that allows nothing.
    pub notifications: String,
}

impl Report {
    /// Returns a report without findings. Allocates nothing.
    pub fn new(alloc: Global, form: Form) -> Report
        ensures form { result.form ≡ form }
        ensures later { result.later ≡ false }
        ensures notifications { string_bytes result.notifications ≡ [] }
    {
        Report {
            form,
            later: false,
            notifications: String::new(alloc),
        }
    }

    /// Appends what is before all findings.
    pub fn push_head(&self, out: &mut String) -> Result<(), AllocError>
        ensures { OnOk result (string_bytes out.new ≡ string_bytes out.old ++ report_head self.now.form) }
    {
        match self.form {
            Form::Sarif => push_sarif_head(out),
            _ => Ok(()),
        }
    }

    /// Appends what is after all findings: in SARIF, whether each input could be searched, and if not, why.
    pub fn push_foot(&self, out: &mut String) -> Result<(), AllocError>
        ensures { OnOk result (string_bytes out.new
            ≡ string_bytes out.old ++ report_foot self.now.form (string_bytes self.now.notifications)) }
    {
        match self.form {
            Form::Sarif => push_sarif_foot(out, self.notifications.as_str()),
            _ => Ok(()),
        }
    }

    /// Keeps for the foot why an input of this name, which need not be UTF-8, could not be searched as it is. The forms other
    /// than SARIF keep nothing.
    ///
    /// Returns an error if an allocation fails. Then `notifications` may have a part of it.
    pub fn push_fault(
        &mut self,
        alloc: Global,
        name: &[u8],
        message: &str,
    ) -> Result<(), AllocError>
        ensures notifications { OnOk result (string_bytes self.new.notifications
            ≡ with_notification self.old.form (string_bytes self.old.notifications) name.now message.now) }
        ensures form { self.new.form ≡ self.old.form }
        ensures later { self.new.later ≡ self.old.later }
    {
        match self.form {
            Form::Sarif => {
                let later = !self.notifications.is_empty();
                push_result_start(&mut self.notifications, later)?;
                push_notification(alloc, &mut self.notifications, name, message)
            }
            _ => Ok(()),
        }
    }

    // Appends the report of a finding in a line of a file. `digest` is that of the line, if the form has it.
    fn push_finding(
        &mut self,
        alloc: Global,
        out: &mut String,
        found: &LineFindings<'_>,
        digest: &str,
        finding: &Finding,
    ) -> Result<(), AllocError>
        ensures report { let shown = displayed_for (map displayed_of found.now.displayed.now) finding.now in
            OnOk result (string_bytes out.new ≡ string_bytes out.old
            ++ finding_report self.old.form self.old.later found.now.name.now found.now.line.now digest.now shown finding.now) }
        ensures form { self.new.form ≡ self.old.form }
        ensures later { OnOk result (self.new.later ≡ true) }
        ensures notifications { string_bytes self.new.notifications ≡ string_bytes self.old.notifications }
    {
        let reported = ReportedFinding {
            name: found.name,
            line: found.line,
            digest,
            displayed: found.displayed_for(finding),
            finding,
        };
        push_finding(alloc, out, self.form, self.later, &reported)?;
        self.later = true;
        Ok(())
    }

    /// Appends the report of the findings in a line of a file.
    ///
    /// In SARIF, a control without a match is left out if its line is displayed differently from how it reads. Returns an
    /// error if an allocation fails. Then `out` may have a part of the report.
    pub fn push_line(
        &mut self,
        alloc: Global,
        out: &mut String,
        found: &LineFindings<'_>,
    ) -> Result<(), AllocError>
        ensures report { OnOk result (string_bytes out.new ≡ string_bytes out.old
            ++ line_report self.old.form self.old.later found.now.name.now found.now.line.now
            (map displayed_of found.now.displayed.now) found.now.findings.now) }
        ensures form { self.new.form ≡ self.old.form }
        ensures later { OnOk result (self.new.later ≡ (self.old.later || not (length found.now.findings.now == 0))) }
        ensures notifications { string_bytes self.new.notifications ≡ string_bytes self.old.notifications }
    {
        let digest = digest_for(alloc, self.form, found.line)?;
        let different = differs(found.findings);
        for finding in found.findings {
            if is_left_out(self.form, different, finding) {
                continue;
            }
            self.push_finding(alloc, out, found, digest.as_str(), finding)?;
        }
        Ok(())
    }
}
