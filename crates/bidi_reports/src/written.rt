//! The entries of an allow-list for what is found.
ghost use Rattle.std.specs.Prelude.{◌≡◌, ◌++◌, flat_map, OnOk, IfOk, string_bytes};
ghost use Rattle.bidi_reports.specs.Written.{written_char, path_start, written_path, kind_list, finding_kinds, line_entry, file_entry};

use crate::entry::has_kind;
use crate::glob::is_special;
use crate::kind::Kind;
use bidi_controls::finding::Finding;
use bidi_terminal::names::{chars_of, is_hidden, push_hex};
use std::alloc::{AllocError, Global};

// Appends a character of a path as an allow-list writes it.
fn push_path_char(out: &mut String, c: char) -> Result<(), AllocError>
    ensures { OnOk result (string_bytes out.new ≡ string_bytes out.old ++ written_char c) }
{
    if is_hidden(c) || c == ':' {
        out.push_str("\\u{")?;
        push_hex(out, c)?;
        return out.push_str("}");
    }
    if is_special(c) {
        out.push_str("\\")?;
    }
    out.push(c)
}

// Appends characters of a path as an allow-list writes them.
fn push_path_chars(out: &mut String, chars: &[char]) -> Result<(), AllocError>
    ensures { OnOk result (string_bytes out.new ≡ string_bytes out.old ++ flat_map written_char chars.now) }
{
    for c in chars {
        push_path_char(out, *c)?;
    }
    Ok(())
}

// Returns what is before a path that would be read as something else.
fn path_start(plain: &str) -> &'static str
    ensures { result.now ≡ path_start plain.now }
{
    if plain.starts_with("#") || plain.starts_with("./") {
        "./"
    } else {
        ""
    }
}

// Appends a path that an allow-list reads as the file of this name.
#[tactic(auto, unfolding(crate::specs::Written::written_path))]
fn push_path(alloc: Global, out: &mut String, name: &str) -> Result<(), AllocError>
    ensures { OnOk result (string_bytes out.new ≡ string_bytes out.old ++ written_path name.now) }
{
    let plain = name.strip_prefix("./").unwrap_or(name);
    let chars = chars_of(alloc, plain)?;
    out.push_str(path_start(plain))?;
    push_path_chars(out, chars.as_slice())
}

// Appends the names of kinds, with commas between them.
#[tactic(auto, unfolding(crate::specs::Written::kind_list))]
fn push_kinds(out: &mut String, kinds: &[Kind]) -> Result<(), AllocError>
    ensures { OnOk result (string_bytes out.new ≡ string_bytes out.old ++ kind_list kinds.now) }
{
    let [first, others @ ..] = kinds else {
        return Ok(());
    };
    out.push_str(first.name())?;
    for kind in others {
        out.push_str(",")?;
        out.push_str(kind.name())?;
    }
    Ok(())
}

// Returns the kinds of findings, each once.
fn finding_kinds(alloc: Global, findings: &[Finding]) -> Result<Vec<Kind>, AllocError>
    ensures { IfOk result (λ kinds. kinds.items ≡ finding_kinds findings.now) }
{
    let mut kinds = Vec::new(alloc);
    for finding in findings {
        let kind = Kind::Finding(finding.trouble);
        if !has_kind(kinds.as_slice(), kind) {
            kinds.push(kind)?;
        }
    }
    Ok(kinds)
}

/// Appends the entry that allows these findings in the lines of a file that have this digest. Returns an error if an
/// allocation fails. Then `out` may have a part of it.
#[tactic(auto, unfolding(crate::specs::Written::line_entry))]
pub fn push_line_entry(
    alloc: Global,
    out: &mut String,
    name: &str,
    digest: &str,
    findings: &[Finding],
) -> Result<(), AllocError>
    ensures { OnOk result (string_bytes out.new ≡ string_bytes out.old ++ line_entry name.now digest.now findings.now) }
{
    let kinds = finding_kinds(alloc, findings)?;
    push_path(alloc, out, name)?;
    out.push_str("\t")?;
    push_kinds(out, kinds.as_slice())?;
    out.push_str("\t#")?;
    out.push_str(digest)?;
    out.push_str("\n")
}

/// Appends the entry that allows what is wrong with a file as a whole. Returns an error if an allocation fails. Then
/// `out` may have a part of it.
#[tactic(auto, unfolding(crate::specs::Written::file_entry))]
pub fn push_file_entry(
    alloc: Global,
    out: &mut String,
    name: &str,
    kind: Kind,
) -> Result<(), AllocError>
    ensures { OnOk result (string_bytes out.new ≡ string_bytes out.old ++ file_entry name.now kind) }
{
    push_path(alloc, out, name)?;
    out.push_str("\t")?;
    out.push_str(kind.name())?;
    out.push_str("\n")
}
