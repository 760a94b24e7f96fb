//! The files that an entry of an allow-list names.
ghost use Rattle.std.specs.Prelude.{◌≡◌, IfOk, option_map};
ghost use Rattle.std.specs.List.{list_any};
ghost use Rattle.std.specs.Str.{chars};
ghost use Rattle.bidi_reports.specs.Patterns.{plain_path, is_directory, path_parts, is_wild, is_slash, is_name_pattern, last_part, allows_name};

use crate::glob::{Part, matches, parts_of};
use bidi_controls::decode::utf8_decoded;
use bidi_terminal::names::chars_of;
use std::alloc::{AllocError, Global};

/// Returns a path without the `./` that it may begin with.
pub fn plain_path(path: &[u8]) -> &[u8]
    ensures { result.now ≡ plain_path path.now }
{
    match path {
        [b'.', b'/', rest @ ..] => rest,
        _ => path,
    }
}

/// Returns whether a path names all that is below a directory.
pub fn is_directory(path: &[u8]) -> bool
    ensures { result ≡ is_directory path.now }
{
    path.ends_with(b"/")
}

/// Returns the parts of the pattern that a path of an allow-list writes, or `None` if it writes none. A path that ends
/// with `/` names all that is below that directory. Returns an error if an allocation fails.
pub fn path_parts(alloc: Global, path: &[u8]) -> Result<Option<Vec<Part>>, AllocError>
    ensures { IfOk result (λ parts. option_map (λ parts. parts.items) parts ≡ path_parts path.now) }
{
    if path.is_empty() {
        return Ok(None);
    }
    let chars = utf8_decoded(alloc, path)?;
    let Some(mut parts) = parts_of(alloc, chars.as_slice())? else {
        return Ok(None);
    };
    if is_directory(path) {
        parts.push(Part::Any)?;
    }
    Ok(Some(parts))
}

// Returns whether a part is a wildcard: `*`, `**` or `?`.
fn is_wild(part: &Part) -> bool
    ensures { result ≡ is_wild part.now }
{
    !matches!(part, Part::Char(_))
}

// Returns whether a part is a slash.
fn is_slash(part: &Part) -> bool
    ensures { result ≡ is_slash part.now }
{
    matches!(part, Part::Char('/'))
}

// Returns whether a pattern has a wildcard.
fn has_wildcard(parts: &[Part]) -> bool
    ensures { result ≡ list_any is_wild parts.now }
{
    parts.iter().any(|part| is_wild(part))
}

// Returns whether a pattern has a slash.
fn has_slash(parts: &[Part]) -> bool
    ensures { result ≡ list_any is_slash parts.now }
{
    parts.iter().any(|part| is_slash(part))
}

// Returns whether a pattern is for the last part of a path: it has a wildcard, and no slash.
fn is_name_pattern(parts: &[Part]) -> bool
    ensures { result ≡ is_name_pattern parts.now }
{
    has_wildcard(parts) && !has_slash(parts)
}

// Returns what follows the last slash of a path, or all of it.
fn last_part(path: &[char]) -> &[char]
    ensures { result.now ≡ last_part path.now }
{
    let mut last = path;
    let mut rest = path;
    while let [c, after @ ..] = rest {
        if *c == '/' {
            last = after;
        }
        rest = after;
    }
    last
}

/// Returns whether a pattern allows a file of this name. Returns an error if an allocation fails.
#[tactic(auto, unfolding(crate::specs::Patterns::allows_name))]
pub fn allows_name(alloc: Global, parts: &[Part], name: &str) -> Result<bool, AllocError>
    ensures { IfOk result (λ allows. allows ≡ allows_name parts.now name.now) }
{
    let plain = name.strip_prefix("./").unwrap_or(name);
    let path = chars_of(alloc, plain)?;
    let path = path.as_slice();
    let subject = if is_name_pattern(parts) {
        last_part(path)
    } else {
        path
    };
    matches(alloc, parts, subject)
}
