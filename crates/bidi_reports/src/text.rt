//! The report as lines of text.
ghost use Rattle.std.specs.Prelude.{◌≡◌, ◌++◌, codes, OnOk, string_bytes};
ghost use Rattle.bidi_controls.specs.Findings.{place_text};
ghost use Rattle.bidi_reports.specs.Parts.{bold, bold_red, styled};
ghost use Rattle.bidi_reports.specs.Text.{without_last, without_end, finding_text, excerpt_text, note_start, displayed_part, note_text, excerpt_report, note_report, text_report};
ghost use Rattle.bidi_reports.specs.Words.{is_about_line};

use crate::form::Notes;
use crate::parts::{AS_BEFORE, BOLD, BOLD_RED, Escapes, push_blank_part, push_part, push_style};
use crate::words::{is_about_line, push_message};
use bidi_base::format_chars::{LRO, PDF};
use bidi_controls::finding::Finding;
use bidi_controls::report::push_place;
use std::alloc::AllocError;

// Returns characters without this one at their end, if they end with it.
fn without_last(c: char, chars: &[char]) -> &[char]
    ensures { result.now ≡ without_last c chars.now }
{
    match chars {
        [front @ .., last] if *last == c => front,
        _ => chars,
    }
}

/// Returns a line without the line feed, the carriage return or both that end it.
pub fn without_end(line: &[char]) -> &[char]
    ensures { result.now ≡ without_end line.now }
{
    without_last('\r', without_last('\n', line))
}

// Appends where a finding is.
fn push_styled_place(
    out: &mut String,
    colors: bool,
    name: &str,
    finding: &Finding,
) -> Result<(), AllocError>
    ensures { OnOk result (string_bytes out.new ≡ string_bytes out.old ++ styled colors bold (place_text name.now finding.now)) }
{
    push_style(out, colors, BOLD)?;
    push_place(out, name, finding)?;
    push_style(out, colors, AS_BEFORE)
}

// Appends the line for a finding.
#[tactic(auto, unfolding(crate::specs::Text::finding_text))]
fn push_finding(
    out: &mut String,
    colors: bool,
    name: &str,
    finding: &Finding,
) -> Result<(), AllocError>
    ensures { OnOk result (string_bytes out.new ≡ string_bytes out.old ++ finding_text colors name.now finding.now) }
{
    push_styled_place(out, colors, name, finding)?;
    push_message(out, finding)?;
    out.push_str("\n")
}

// Appends the line of the file, and a caret under the character at an index.
#[tactic(auto, unfolding(crate::specs::Text::excerpt_text))]
fn push_excerpt(
    out: &mut String,
    colors: bool,
    line: &[char],
    place: usize,
) -> Result<(), AllocError>
    ensures { OnOk result (string_bytes out.new ≡ string_bytes out.old ++ excerpt_text colors line.now place) }
{
    out.push_str("  ")?;
    push_part(out, Escapes::Hidden, colors, line, place)?;
    out.push_str("\n  ")?;
    push_blank_part(out, line, place)?;
    push_caret(out, colors)?;
    out.push_str("\n")
}

// Appends a caret.
fn push_caret(out: &mut String, colors: bool) -> Result<(), AllocError>
    ensures { OnOk result (string_bytes out.new ≡ string_bytes out.old ++ styled colors bold_red (codes "^")) }
{
    push_style(out, colors, BOLD_RED)?;
    out.push_str("^")?;
    push_style(out, colors, AS_BEFORE)
}

// Appends what a note begins with.
#[tactic(auto, unfolding(crate::specs::Text::note_start))]
fn push_note_start(out: &mut String) -> Result<(), AllocError>
    ensures { OnOk result (string_bytes out.new ≡ string_bytes out.old ++ note_start) }
{
    out.push_str("note: displayed as: ")
}

// Appends a displayed line, or a part of it, so that no screen reorders it once more.
#[tactic(auto, unfolding(crate::specs::Text::displayed_part))]
fn push_displayed_part(
    out: &mut String,
    notes: Notes,
    colors: bool,
    displayed: DisplayedChars<'_>,
) -> Result<(), AllocError>
    ensures { OnOk result (string_bytes out.new ≡ string_bytes out.old
        ++ displayed_part notes colors (displayed.entry.moved, displayed.entry.chars.now)) }
{
    let DisplayedChars { chars, moved } = displayed;
    match notes {
        Notes::Overridden => {
            out.push(LRO)?;
            push_part(out, Escapes::Hidden, colors, chars, moved)?;
            out.push(PDF)
        }
        Notes::Escaped => push_part(out, Escapes::HiddenAndRightToLeft, colors, chars, moved),
    }
}

// Appends the line that shows how the line of a finding is displayed.
#[tactic(auto, unfolding(crate::specs::Text::note_text))]
fn push_note(
    out: &mut String,
    notes: Notes,
    colors: bool,
    name: &str,
    displayed: DisplayedChars<'_>,
    finding: &Finding,
) -> Result<(), AllocError>
    ensures { OnOk result (string_bytes out.new ≡ string_bytes out.old
        ++ note_text notes colors name.now (displayed.entry.moved, displayed.entry.chars.now) finding.now) }
{
    push_styled_place(out, colors, name, finding)?;
    push_note_start(out)?;
    push_displayed_part(out, notes, colors, displayed)?;
    out.push_str("\n")
}

// Appends an excerpt, if `excerpts` is true.
#[tactic(auto, unfolding(crate::specs::Text::excerpt_report))]
fn push_excerpt_if(
    out: &mut String,
    excerpts: bool,
    colors: bool,
    line: &[char],
    place: usize,
) -> Result<(), AllocError>
    ensures { OnOk result (string_bytes out.new ≡ string_bytes out.old ++ excerpt_report excerpts colors line.now place) }
{
    if !excerpts {
        return Ok(());
    }
    push_excerpt(out, colors, without_end(line), place)
}

// Appends the note of a finding, if it is about how its line is displayed.
#[tactic(auto, unfolding(crate::specs::Text::note_report))]
fn push_note_if(
    out: &mut String,
    notes: Notes,
    colors: bool,
    name: &str,
    displayed: DisplayedChars<'_>,
    finding: &Finding,
) -> Result<(), AllocError>
    ensures { OnOk result (string_bytes out.new ≡ string_bytes out.old
        ++ note_report notes colors name.now (displayed.entry.moved, displayed.entry.chars.now) finding.now) }
{
    if !is_about_line(finding.trouble) {
        return Ok(());
    }
    push_note(out, notes, colors, name, displayed, finding)
}

/// What is displayed of a line.
#[derive(Clone, Copy)]
pub struct DisplayedChars<'d> {
    /// The characters, from left to right.
    pub chars: &'d [char],
    /// The index in `chars` of the first printable ASCII character, other than the space, that is not read at its place. Of a
    /// long line the part around it is shown.
    pub moved: usize,
}

/// A finding, and what is reported with it.
#[derive(Clone, Copy)]
pub struct ReportedFinding<'f> {
    /// The name of its file.
    pub name: &'f str,
    /// The line of the file, with the characters that end it.
    pub line: &'f [char],
    /// The digest of the line, if the form of the report has it. Otherwise empty.
    pub digest: &'f str,
    /// The paragraph as it is displayed, if the finding is about that. Otherwise without characters.
    pub displayed: DisplayedChars<'f>,
    /// The finding.
    pub finding: &'f Finding,
}

/// Appends the report of a finding: its line, an excerpt if `excerpts` is true, and a note if it is about how its line
/// is displayed. `notes` says how the note writes the displayed line.
#[tactic(auto, unfolding(crate::specs::Text::text_report))]
pub fn push_text(
    out: &mut String,
    excerpts: bool,
    colors: bool,
    notes: Notes,
    reported: &ReportedFinding<'_>,
) -> Result<(), AllocError>
    ensures { OnOk result (string_bytes out.new ≡ string_bytes out.old
        ++ text_report excerpts colors notes reported.now.name.now reported.now.line.now
        (reported.now.displayed.moved, reported.now.displayed.chars.now) reported.now.finding.now) }
{
    let (name, finding) = (reported.name, reported.finding);
    push_finding(out, colors, name, finding)?;
    push_excerpt_if(
        out,
        excerpts,
        colors,
        reported.line,
        finding.column.saturating_sub(1),
    )?;
    push_note_if(out, notes, colors, name, reported.displayed, finding)
}
