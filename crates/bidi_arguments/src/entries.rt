//! The names that `bidi check` searches: those in a list of files, and those in a directory.
ghost use Rattle.std.specs.Prelude.{◌≡◌, map, IfOk};
ghost use Rattle.std.specs.List.Sorted.{IsPermutation, IsSorted};
ghost use Rattle.std.specs.Ordering.{nat_cmp};
ghost use Rattle.std.specs.Cmp.Lexicographic.{slice_cmp};
ghost use Rattle.bidi_arguments.specs.Entries.{is_searched, separator_of, listed_names, searched_names, path_below};

use std::alloc::{AllocError, Global};

/// Returns the byte that separates the names of a list.
fn separator_of(bytes: &[u8]) -> u8
    ensures { result ≡ separator_of bytes.now }
{
    if bytes.contains(&0) { 0 } else { b'\n' }
}

/// Returns the names in a list of files, in order.
///
/// If the list has a NUL, NUL separates the names, and otherwise the line feed. Leaves out empty names. A carriage
/// return is part of a name. Names need not be UTF-8. Returns an error if an allocation fails.
pub fn listed_names<'b>(alloc: Global, bytes: &'b [u8]) -> Result<Vec<&'b [u8]>, AllocError>
    ensures { IfOk result (λ names. map (λ name. name.now) names.items ≡ listed_names bytes.now) }
{
    let separator = separator_of(bytes);
    bytes
        .split(|byte| *byte == separator)
        .filter(|name| !name.is_empty())
        .collect(alloc)
}

/// Returns whether a name of a directory is searched. Empty names, `.` and `..` never are. Other names that begin with
/// a dot are searched only if `hidden` is true.
fn is_searched(hidden: bool, name: &[u8]) -> bool
    ensures { result ≡ is_searched hidden name.now }
{
    match name {
        [] => false,
        [b'.'] | [b'.', b'.'] => false,
        [b'.', ..] => hidden,
        _ => true,
    }
}

/// Returns the names of a directory that are searched. A NUL ends each name of `listing`.
fn searched_names<'b>(
    alloc: Global,
    hidden: bool,
    listing: &'b [u8],
) -> Result<Vec<&'b [u8]>, AllocError>
    ensures { IfOk result (λ names. map (λ name. name.now) names.items ≡ searched_names hidden listing.now) }
{
    listing
        .split(|byte| *byte == 0)
        .filter(|name| is_searched(hidden, name))
        .collect(alloc)
}

/// Returns the names of a directory that `bidi check` searches, in the order of their bytes.
///
/// A NUL ends each name of `listing`. Leaves out empty names, `.` and `..`. Leaves out other names that begin with a
/// dot, unless `hidden` is true. Names need not be UTF-8. Returns an error if an allocation fails.
pub fn names_in_order<'b>(
    alloc: Global,
    hidden: bool,
    listing: &'b [u8],
) -> Result<Vec<&'b [u8]>, AllocError>
    ensures names { IfOk result (λ names. IsPermutation (searched_names hidden listing.now) (map (λ name. name.now) names.items)) }
    ensures order { IfOk result (λ names. IsSorted (λ x y. slice_cmp nat_cmp x.now y.now) names.items) }
{
    let mut names = searched_names(alloc, hidden, listing)?;
    names.sort_unstable();
    Ok(names)
}

/// Returns the path of a name in a directory: `dir`, a slash unless `dir` ends with one, and `name`.
///
/// Neither need be UTF-8, and `name` may be empty. If `dir` is empty, the path begins with the slash. Returns an error
/// if an allocation fails.
pub fn path_below(alloc: Global, dir: &[u8], name: &[u8]) -> Result<Vec<u8>, AllocError>
    ensures { IfOk result (λ path. path.items ≡ path_below dir.now name.now) }
{
    let mut path = dir.to_vec(alloc)?;
    if !dir.ends_with(b"/") {
        path.push(b'/')?;
    }
    path.extend_from_slice(name)?;
    Ok(path)
}
