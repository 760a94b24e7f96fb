//! What `check` finds in a text.
ghost use Rattle.std.specs.Prelude.{◌≡◌, ◌+◌, ◌<◌, ◌^◌, ◌++◌, ◌||◌, not, filter, get_or, length, map, IfOk, OnOk};
ghost use Rattle.std.specs.Option.{option_to_list};
ghost use Rattle.bidi_base.specs.Indexes.{indexes};
ghost use Rattle.bidi_controls.specs.FileSearch.{displayed_of, displayed_in_line, displayed_in_paragraph};
ghost use Rattle.bidi_controls.specs.Findings.{is_wanted as is_wanted_of, character_findings, finding_of, findings_of, controls_wanted};
ghost use Rattle.bidi_controls.specs.Matches.{is_unmatched as is_unmatched_in};

use crate::differing::DisplayedParagraph;
use crate::displayed::DisplayComparison;
use crate::finding::{Finding, LineChar, Wanted};
use crate::lines::{
    FirstLine, first_file_line, first_paragraph_len, has_no_control_in_ascii, own_chars,
};
use crate::openers::Openers;
use crate::unmatched::find_unmatched;
use bidi_base::data_source::BidiDataSource;
use std::alloc::{AllocError, Global};

/// Appends what was found, if something was and if it is wanted.
fn push_wanted(
    findings: &mut Vec<Finding>,
    wanted: Wanted,
    found: Option<Finding>,
) -> Result<(), AllocError>
    ensures { OnOk result (findings.new.items
        ≡ findings.old.items ++ filter (is_wanted_of wanted) (option_to_list found)) }
{
    if let Some(finding) = found
        && wanted.wants(finding.trouble)
    {
        findings.push(finding)?;
    }
    Ok(())
}

/// A paragraph in a line of a file.
#[derive(Clone, Copy)]
struct LineParagraph<'l> {
    /// The number of its line, counted from 1.
    line: usize,
    /// The index of its first character in its line.
    place: usize,
    /// Its characters.
    chars: &'l [char],
    ghost in_line: { place + length chars.now < 2 ^ 64 },
}

impl LineParagraph<'_> {
    /// Returns the character at an index of the paragraph.
    fn char_at<D: BidiDataSource>(&self, data_source: &D, index: usize) -> LineChar
        requires { index < length self.now.chars.now }
        ensures { let c = get_or self.now.chars.now index 0 in
            result ≡ record { line = self.now.line; place = self.now.place + index; class = (D.source data_source.now).class_of c; c = c } }
    {
        let c = self.chars[index];
        LineChar {
            line: self.line,
            place: self.place + index,
            class: data_source.bidi_class(c),
            c,
        }
    }
}

/// Appends what is found at an index of a paragraph, if it is wanted.
fn push_finding_at<D: BidiDataSource>(
    findings: &mut Vec<Finding>,
    data_source: &D,
    wanted: Wanted,
    paragraph: &LineParagraph<'_>,
    index: usize,
    is_unmatched: bool,
) -> Result<(), AllocError>
    requires { index < length paragraph.now.chars.now }
    ensures { let c = get_or paragraph.now.chars.now index 0 in
        OnOk result (findings.new.items ≡ findings.old.items
        ++ filter (is_wanted_of wanted) (option_to_list (finding_of paragraph.now.line (paragraph.now.place + index)
        is_unmatched ((D.source data_source.now).class_of c) c))) }
{
    // What is not without a match is at most present. Most characters are passed over here, without a look at them.
    if !is_unmatched && !wanted.present {
        return Ok(());
    }
    let at = paragraph.char_at(data_source, index);
    push_wanted(findings, wanted, Finding::of(is_unmatched, at))
}

/// Appends what is found in the characters of a paragraph, if it is wanted.
fn push_findings<D: BidiDataSource>(
    findings: &mut Vec<Finding>,
    data_source: &D,
    wanted: Wanted,
    paragraph: &LineParagraph<'_>,
    unmatched: &[bool],
) -> Result<(), AllocError>
    requires { let chars = paragraph.now.chars.now in
        unmatched.now ≡ map (is_unmatched_in (map (D.source data_source.now).class_of chars)) (indexes chars) }
    ensures { let chars = paragraph.now.chars.now in
        let classes = map (D.source data_source.now).class_of chars in
        OnOk result (findings.new.items ≡ findings.old.items
        ++ filter (is_wanted_of wanted) (character_findings paragraph.now.line paragraph.now.place classes chars)) }
{
    for (index, is_unmatched) in unmatched.iter().enumerate() {
        push_finding_at(
            findings,
            data_source,
            wanted,
            paragraph,
            index,
            *is_unmatched,
        )?;
    }
    Ok(())
}

/// A line of a file.
#[derive(Clone, Copy)]
pub struct FileLine<'l> {
    /// Its number, counted from 1.
    pub number: usize,
    /// Its characters, with those that end it.
    pub chars: &'l [char],
}

/// What a search looks for, and what it keeps.
#[derive(Clone, Copy, Debug)]
pub struct Sought {
    /// Which findings are wanted.
    pub wanted: Wanted,
    /// Whether paragraphs that are displayed differently from how they read are kept as they are displayed.
    pub displays: bool,
}

/// What is found in a line.
#[derive(Drop)]
pub struct LineFound {
    /// The findings, paragraph by paragraph: first that of the paragraph as a whole, then those of its characters in order.
    pub findings: Vec<Finding>,
    /// Each of its paragraphs that has a finding as a whole, as it is displayed, in order.
    pub displayed: Vec<DisplayedParagraph>,
}

impl LineFound {
    ghost use Rattle.std.specs.Prelude.{[]};

    /// Returns that nothing is found. Allocates nothing.
    pub fn new(alloc: Global) -> LineFound
        ensures findings { result.findings.items ≡ [] }
        ensures displayed { result.displayed.items ≡ [] }
    {
        LineFound {
            findings: Vec::new(alloc),
            displayed: Vec::new(alloc),
        }
    }
}

/// A search for findings, one line of a file after another. Reuses its memory.
#[derive(Drop)]
pub struct LineSearch {
    openers: Openers,
    unmatched: Vec<bool>,
    comparison: DisplayComparison,
}

impl LineSearch {
    ghost use Rattle.bidi_controls.specs.Findings.{findings_in_line, findings_in_paragraph, line_finding, wanted_differing};
    ghost use Rattle.std.specs.Prelude.{option_map};

    /// Returns a search that has seen no line. Allocates nothing.
    pub fn new(alloc: Global) -> LineSearch {
        LineSearch {
            openers: Openers::new(alloc),
            unmatched: Vec::new(alloc),
            comparison: DisplayComparison::new(alloc),
        }
    }

    /// Appends the finding of a paragraph as a whole, if there is one and if it is wanted. Also appends the paragraph as it
    /// is displayed, if `sought` keeps that.
    fn push_line_finding<D: BidiDataSource>(
        &mut self,
        alloc: Global,
        data_source: &D,
        sought: Sought,
        paragraph: &LineParagraph<'_>,
        found: &mut LineFound,
    ) -> Result<(), AllocError>
        requires { 0 < length paragraph.now.chars.now }
        ensures findings { let source = D.source data_source.now in
            let chars = paragraph.now.chars.now in
            OnOk result (found.new.findings.items ≡ found.old.findings.items
            ++ option_to_list (option_map (line_finding source paragraph.now.line paragraph.now.place chars) (wanted_differing source sought.wanted chars))) }
        ensures displayed { let source = D.source data_source.now in
            OnOk result (map displayed_of found.new.displayed.items ≡ map displayed_of found.old.displayed.items
            ++ displayed_in_paragraph source sought paragraph.now.place paragraph.now.chars.now) }
    {
        let chars = paragraph.chars;
        let Some(differing) = self
            .comparison
            .differing(alloc, data_source, sought.wanted, chars)?
        else {
            return Ok(());
        };
        let at = paragraph.char_at(data_source, differing.place);
        let finding = Finding::of_paragraph(differing.trouble, at);
        found.findings.push(finding)?;
        if sought.displays {
            let line = own_chars(data_source, chars);
            let mut displayed = Vec::new(alloc);
            let moved = self
                .comparison
                .write_displayed(data_source, line, &mut displayed)?;
            found.displayed.push(DisplayedParagraph {
                column: finding.column,
                level: differing.level,
                moved,
                chars: displayed,
            })?;
        }
        Ok(())
    }

    /// Appends what is found in a paragraph.
    fn push_found_in_paragraph<D: BidiDataSource>(
        &mut self,
        alloc: Global,
        data_source: &D,
        sought: Sought,
        paragraph: &LineParagraph<'_>,
        found: &mut LineFound,
    ) -> Result<(), AllocError>
        requires { 0 < length paragraph.now.chars.now }
        ensures findings { let source = D.source data_source.now in
            OnOk result (found.new.findings.items ≡ found.old.findings.items
            ++ findings_in_paragraph source sought.wanted paragraph.now.line paragraph.now.place paragraph.now.chars.now) }
        ensures displayed { let source = D.source data_source.now in
            OnOk result (map displayed_of found.new.displayed.items ≡ map displayed_of found.old.displayed.items
            ++ displayed_in_paragraph source sought paragraph.now.place paragraph.now.chars.now) }
    {
        self.push_line_finding(alloc, data_source, sought, paragraph, found)?;
        let chars = paragraph.chars;
        find_unmatched(data_source, chars, &mut self.openers, &mut self.unmatched)?;
        let unmatched = self.unmatched.as_slice();
        push_findings(
            &mut found.findings,
            data_source,
            sought.wanted,
            paragraph,
            unmatched,
        )
    }

    /// Appends what is found in a line of a file.
    ///
    /// If an allocation fails, some of it may be appended.
    // Few lines have controls. Inlined, this takes the registers of the loop that passes over the others.
    #[inline(never)]
    pub fn push_found_in<D: BidiDataSource>(
        &mut self,
        alloc: Global,
        data_source: &D,
        sought: Sought,
        line: &FileLine<'_>,
        found: &mut LineFound,
    ) -> Result<(), AllocError>
        ensures findings { let source = D.source data_source.now in
            OnOk result (found.new.findings.items
            ≡ found.old.findings.items ++ findings_in_line source sought.wanted line.now.number line.now.chars.now) }
        ensures displayed { let source = D.source data_source.now in
            OnOk result (map displayed_of found.new.displayed.items
            ≡ map displayed_of found.old.displayed.items ++ displayed_in_line source sought line.now.chars.now) }
    {
        let mut rest = line.chars;
        while !rest.is_empty() {
            let (chars, after) = rest.split_at(first_paragraph_len(data_source, rest));
            let paragraph = LineParagraph {
                line: line.number,
                place: line.chars.len() - rest.len(),
                chars,
            };
            self.push_found_in_paragraph(alloc, data_source, sought, &paragraph, found)?;
            rest = after;
        }
        Ok(())
    }
}

/// The minimum length, in characters, of a text for which the classes of ASCII are looked up first.
const LONG: usize = 1024;

/// Returns whether something may be found in a line.
fn may_have_findings(wanted: Wanted, line: FirstLine) -> bool
    ensures { result ≡ (not line.has_no_controls || wanted.letters_alone) }
{
    !line.has_no_controls || wanted.letters_alone
}

/// Returns what is found in a text, line by line, and in a line paragraph by paragraph: first the finding of the paragraph as
/// a whole, then those of its characters in order.
///
/// These are the findings of the kinds that `wanted` has: direction controls that have no match in their paragraph on
/// their line, other controls and marks, and paragraphs that are displayed differently from how they read (see
/// `DisplayComparison::differing`). The match of an embedding or an override is its PDF (BD11), that of an isolate
/// initiator its PDI (BD9), and that of a PDF or a PDI what it closes.
///
/// Lines and columns are counted from 1, columns in characters. Lines end where editors end them: after a line feed, a
/// CR LF or a carriage return. Another paragraph separator ends a paragraph, but not the line. Returns an error if an
/// allocation fails.
pub fn findings_wanted<D: BidiDataSource>(
    alloc: Global,
    data_source: &D,
    wanted: Wanted,
    chars: &[char],
) -> Result<Vec<Finding>, AllocError>
    ensures { IfOk result (λ found. found.items ≡ findings_of (D.source data_source.now) wanted chars.now) }
{
    let sought = Sought {
        wanted,
        displays: false,
    };
    let mut found = LineFound::new(alloc);
    let mut search = LineSearch::new(alloc);
    let ascii_has_no_control = chars.len() >= LONG && has_no_control_in_ascii(data_source);
    let mut lines_before = 0;
    let mut rest = chars;
    while !rest.is_empty() {
        let first = first_file_line(data_source, ascii_has_no_control, rest);
        let (line, after) = rest.split_at(first.len);
        // In a line without controls and marks, only letters can be found.
        if may_have_findings(wanted, first) {
            let number = lines_before + 1;
            let line = FileLine {
                number,
                chars: line,
            };
            search.push_found_in(alloc, data_source, sought, &line, &mut found)?;
        }
        lines_before += 1;
        rest = after;
    }
    Ok(found.findings)
}

/// Returns the direction controls of a text that have no match on their line, or with `any` every control and mark.
///
/// These are the findings of [`findings_wanted`] without those of lines. Returns an error if an allocation fails.
pub fn findings_in<D: BidiDataSource>(
    alloc: Global,
    data_source: &D,
    any: bool,
    chars: &[char],
) -> Result<Vec<Finding>, AllocError>
    ensures { IfOk result (λ found. found.items ≡ findings_of (D.source data_source.now) (controls_wanted any) chars.now) }
{
    let wanted = if any {
        Wanted::EVERY_CONTROL
    } else {
        Wanted::UNMATCHED
    };
    findings_wanted(alloc, data_source, wanted, chars)
}
