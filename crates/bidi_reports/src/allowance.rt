//! What an allow-list leaves of the findings, and the entries that would allow the rest.
ghost use Rattle.std.specs.Prelude.{◌≡◌, ◌∷◌, [], if◌then◌else◌, ◌&&◌, is_none, is_some, map, not, IfOk, OnOk, option_map, Some, None};
ghost use Rattle.bidi_reports.specs.Allowances.{finding_query, line_queries, left_findings, reported_findings, left_entry, with_more, file_query, file_entry_left};
ghost use Rattle.bidi_reports.specs.Allowed.{Notes, allows, unused};

use crate::allowed::AllowList;
use crate::digest::line_digest;
use crate::entry::{Place, Query};
use crate::kind::Kind;
use crate::written::{push_file_entry, push_line_entry};
use bidi_controls::finding::Finding;
use std::alloc::{AllocError, Global};
use std::marker::Model;

/// A line of a file, and what is found in it.
#[derive(Clone, Copy)]
pub struct SearchedLine<'f> {
    /// The name of the file.
    pub name: &'f str,
    /// The number of the line, counted from 1.
    pub number: usize,
    /// Its characters, with those that end it.
    pub chars: &'f [char],
    /// What is found in it.
    pub findings: &'f [Finding],
}

/// An allow-list, and the entries for what it does not allow, if they are wanted. In clauses it is a record of both.
#[derive(Drop)]
pub struct Allowance<'l> {
    list: AllowList<'l>,
    written: Option<String>,
}

impl<'l> Model for Allowance<'l> {
    ghost use Rattle.std.specs.Prelude.{option_map, string_bytes};
    ghost use Rattle.bidi_reports.specs.Allowances.{Allowance};

    ghost Value = { Allowance };

    ghost view = { λ allowance. record { list = allowance.list; written = option_map string_bytes allowance.written } };
}

// Returns the findings in a line that a list does not allow.
fn left_findings(
    alloc: Global,
    list: &mut AllowList<'_>,
    digest: &str,
    line: &SearchedLine<'_>,
) -> Result<Vec<Finding>, AllocError>
    ensures left { IfOk result (λ left. left.items
        ≡ left_findings list.old.entries line.now.name.now line.now.number digest.now line.now.findings.now) }
    ensures notes { OnOk result
        (Notes (map (finding_query line.now.name.now line.now.number digest.now) line.now.findings.now) list.old list.new) }
    ensures entries { list.new.entries ≡ list.old.entries }
{
    let mut left = Vec::new(alloc);
    for finding in line.findings {
        if !allows_finding(alloc, list, digest, line, finding)? {
            left.push(*finding)?;
        }
    }
    Ok(left)
}

// Returns whether a list allows a finding in a line.
fn allows_finding(
    alloc: Global,
    list: &mut AllowList<'_>,
    digest: &str,
    line: &SearchedLine<'_>,
    finding: &Finding,
) -> Result<bool, AllocError>
    ensures allows { let query = finding_query line.now.name.now line.now.number digest.now finding.now in
        IfOk result (λ allowed. allowed ≡ allows list.old.entries query) }
    ensures notes { let query = finding_query line.now.name.now line.now.number digest.now finding.now in
        OnOk result (Notes (query ∷ []) list.old list.new) }
    ensures entries { list.new.entries ≡ list.old.entries }
{
    let query = Query {
        name: line.name,
        kind: Kind::Finding(finding.trouble),
        place: Some(Place {
            number: line.number,
            digest,
        }),
    };
    list.allow(alloc, &query)
}

impl<'l> Allowance<'l> {
    /// Returns what a list allows. With `writes` the entries for what it does not allow are wanted. Allocates nothing.
    pub fn new(alloc: Global, list: AllowList<'l>, writes: bool) -> Allowance<'l>
        ensures list { result.list ≡ list.entry }
        ensures written { result.written ≡ (if writes then Some [] else None) }
    {
        let written = if writes {
            Some(String::new(alloc))
        } else {
            None
        };
        Allowance { list, written }
    }

    /// Returns the findings in a line that are reported. These are the ones that the list does not allow, and none if
    /// entries are wanted: then the entry for them is written instead.
    ///
    /// Returns an error if an allocation fails. Then no more is promised than that the list has the same entries.
    #[tactic(auto, unfolding(crate::specs::Allowances::reported_findings, crate::specs::Allowances::left_entry))]
    pub fn reported(
        &mut self,
        alloc: Global,
        line: &SearchedLine<'_>,
    ) -> Result<Vec<Finding>, AllocError>
        ensures reported { IfOk result (λ reported. reported.items
            ≡ reported_findings self.old.list.entries (is_some self.old.written)
            line.now.name.now line.now.number line.now.chars.now line.now.findings.now) }
        ensures notes { OnOk result
            (Notes (line_queries line.now.name.now line.now.number line.now.chars.now line.now.findings.now) self.old.list self.new.list) }
        ensures written { let entry = left_entry self.old.list.entries line.now.name.now line.now.number line.now.chars.now line.now.findings.now in
            OnOk result (self.new.written ≡ with_more entry self.old.written) }
        ensures entries { self.new.list.entries ≡ self.old.list.entries }
    {
        let digest = line_digest(alloc, line.chars)?;
        let left = left_findings(alloc, &mut self.list, digest.as_str(), line)?;
        match &mut self.written {
            None => Ok(left),
            Some(_) if left.is_empty() => Ok(left),
            Some(written) => {
                push_line_entry(alloc, written, line.name, digest.as_str(), left.as_slice())?;
                Ok(Vec::new(alloc))
            }
        }
    }

    /// Returns whether what is wrong with a file as a whole is reported: if the list does not allow it, and no entries
    /// are wanted. If they are, the entry for it is written instead.
    ///
    /// Returns an error if an allocation fails. Then no more is promised than that the list has the same entries.
    #[tactic(auto, unfolding(crate::specs::Allowances::file_entry_left))]
    pub fn reports_file(
        &mut self,
        alloc: Global,
        name: &str,
        kind: Kind,
    ) -> Result<bool, AllocError>
        ensures reported { IfOk result (λ reported. reported
            ≡ (not (allows self.old.list.entries (file_query name.now kind)) && is_none self.old.written)) }
        ensures notes { OnOk result (Notes (file_query name.now kind ∷ []) self.old.list self.new.list) }
        ensures written { OnOk result (self.new.written
            ≡ with_more (file_entry_left self.old.list.entries name.now kind) self.old.written) }
        ensures entries { self.new.list.entries ≡ self.old.list.entries }
    {
        let query = Query {
            name,
            kind,
            place: None,
        };
        if self.list.allow(alloc, &query)? {
            return Ok(false);
        }
        match &mut self.written {
            None => Ok(true),
            Some(written) => {
                push_file_entry(alloc, written, name, kind)?;
                Ok(false)
            }
        }
    }

    /// Returns the entries for what the list does not allow, if they are wanted.
    pub fn written(&self) -> Option<&str>
        ensures { option_map (λ text. text.now) result ≡ self.now.written }
    {
        match &self.written {
            None => None,
            Some(text) => Some(text.as_str()),
        }
    }

    /// Returns the numbers of the lines of the list whose entries have allowed nothing, in order. Returns an error if an
    /// allocation fails.
    pub fn unused(&self, alloc: Global) -> Result<Vec<usize>, AllocError>
        ensures { IfOk result (λ numbers. numbers.items ≡ unused self.now.list) }
    {
        self.list.unused(alloc)
    }
}
