//! How the entries of an allow-list are found.
ghost use Rattle.std.specs.Prelude.{◌≡◌, ◌++◌, List, ℕ, [], filter, flat_map, map, option_map, encode_utf8, nat_eq, false, ◌&&◌, ◌||◌, ◌<◌, length, get_or, IfOk, OnOk, string_bytes};
ghost use Rattle.std.specs.List.{list_any};
ghost use Rattle.std.specs.Option.{option_map_or};
ghost use Rattle.std.specs.BTreeMap.{get_by_text};
ghost use Rattle.std.specs.Str.{bytes_eq, chars};
ghost use Rattle.bidi_reports.specs.AllowIndex.{literal_text, digest_key, digest_path_key, place_key, line_key, path_key, key_of, name_key, keys_of, keyed_from, indexes_at, allows_at};

use crate::entry::{Entry, Query};
use crate::glob::Part;
use bidi_terminal::names::chars_of;
use std::alloc::{AllocError, Global};
use std::collections::BTreeMap;

/// The indexes of the entries that have each key.
pub type Index = BTreeMap<String, Vec<usize>>;

// Appends characters.
fn push_chars(out: &mut String, chars: &[char]) -> Result<(), AllocError>
    ensures { OnOk result (string_bytes out.new ≡ string_bytes out.old ++ flat_map encode_utf8 chars.now) }
{
    for c in chars {
        out.push(*c)?;
    }
    Ok(())
}

// Returns the text of a pattern without wildcards.
fn literal_text(alloc: Global, parts: &[Part]) -> Result<Option<String>, AllocError>
    ensures { IfOk result (λ text. option_map string_bytes text ≡ literal_text parts.now) }
{
    let mut text = String::new(alloc);
    for part in parts {
        let Part::Char(c) = part else {
            return Ok(None);
        };
        text.push(*c)?;
    }
    Ok(Some(text))
}

// Returns the key of a line of a file.
fn line_key(alloc: Global, path: &str, number: usize) -> Result<String, AllocError>
    ensures { IfOk result (λ key. string_bytes key ≡ line_key path.now number) }
{
    format!(in alloc; "{path}:{number}")
}

// Returns the key of an entry without a digest.
fn path_key(alloc: Global, path: Option<String>, line: Option<usize>) -> Result<String, AllocError>
    ensures { IfOk result (λ key. string_bytes key ≡ path_key (option_map string_bytes path) line) }
{
    match (path, line) {
        (None, _) => Ok(String::new(alloc)),
        (Some(path), None) => Ok(path),
        (Some(path), Some(number)) => line_key(alloc, path.as_str(), number),
    }
}

// Returns the key of a digest.
fn digest_key(alloc: Global, digest: &[u8]) -> Result<String, AllocError>
    ensures { IfOk result (λ key. string_bytes key ≡ digest_key digest.now) }
{
    let mut key = String::new(alloc);
    for byte in digest {
        key.push(char::from(*byte))?;
    }
    Ok(key)
}

// Returns the key of a digest in a file of this name.
fn digest_path_key(alloc: Global, digest: &[u8], path: &str) -> Result<String, AllocError>
    ensures { IfOk result (λ key. string_bytes key ≡ digest_path_key digest.now path.now) }
{
    let digest = digest_key(alloc, digest)?;
    format!(in alloc; "{digest}:{path}")
}

// Returns the key of an entry with a digest.
fn place_key(alloc: Global, digest: &[u8], path: Option<String>) -> Result<String, AllocError>
    ensures { IfOk result (λ key. string_bytes key ≡ place_key digest.now (option_map string_bytes path)) }
{
    match path {
        None => digest_key(alloc, digest),
        Some(path) => digest_path_key(alloc, digest, path.as_str()),
    }
}

// Returns the key of a file of this name.
fn name_key(alloc: Global, name: &str) -> Result<String, AllocError>
    ensures { IfOk result (λ key. string_bytes key ≡ name_key name.now) }
{
    let plain = name.strip_prefix("./").unwrap_or(name);
    let chars = chars_of(alloc, plain)?;
    let mut key = String::new(alloc);
    push_chars(&mut key, chars.as_slice())?;
    Ok(key)
}

// Returns the indexes that these keys have.
fn index_of_keys(alloc: Global, pairs: &[(String, usize)]) -> Result<Index, AllocError>
    ensures { IfOk result (λ index. (key : List ℕ) → option_map_or (λ list. list.items) (get_by_text index key) []
        ≡ map (λ p. p.1) (filter (λ p. bytes_eq key (string_bytes p.0)) pairs.now)) }
{
    let mut index: Index = BTreeMap::new(alloc);
    for (key, number) in pairs {
        index.entry(key.clone()?)?.or_default().push(*number)?;
    }
    Ok(index)
}

// Returns entries with their keys and their indexes.
fn keyed(alloc: Global, entries: &[Entry<'_>]) -> Result<Vec<(String, usize)>, AllocError>
    ensures { IfOk result (λ pairs. map (λ p. (string_bytes p.0, p.1)) pairs.items ≡ keyed_from 0 entries.now) }
{
    let mut pairs = Vec::new(alloc);
    for (index, entry) in entries.iter().enumerate() {
        let key = key_of(alloc, entry)?;
        pairs.push((key, index))?;
    }
    Ok(pairs)
}

/// Returns the indexes that the entries of each key have.
pub fn index_of(alloc: Global, entries: &[Entry<'_>]) -> Result<Index, AllocError>
    ensures { IfOk result (λ index. (key : List ℕ) → option_map_or (λ list. list.items) (get_by_text index key) []
        ≡ indexes_at key (keyed_from 0 entries.now)) }
{
    let pairs = keyed(alloc, entries)?;
    let index = index_of_keys(alloc, pairs.as_slice())?;
    Ok(index)
}

// Returns the key of an entry.
fn key_of(alloc: Global, entry: &Entry<'_>) -> Result<String, AllocError>
    ensures { IfOk result (λ key. string_bytes key ≡ key_of entry.now) }
{
    let path = literal_text(alloc, entry.parts())?;
    if let Some(digest) = entry.digest() {
        return place_key(alloc, digest, path);
    }
    path_key(alloc, path, entry.line())
}

/// Returns the keys of the entries that can allow what is found.
pub fn keys_of(alloc: Global, query: &Query<'_>) -> Result<Vec<String>, AllocError>
    ensures { IfOk result (λ keys. map string_bytes keys.items ≡ keys_of query.now) }
{
    let name = name_key(alloc, query.name)?;
    let mut keys = Vec::new(alloc);
    keys.push(String::new(alloc))?;
    keys.push(name.clone()?)?;
    if let Some(place) = &query.place {
        let digest = place.digest.as_bytes();
        keys.push(digest_key(alloc, digest)?)?;
        keys.push(digest_path_key(alloc, digest, name.as_str())?)?;
        keys.push(line_key(alloc, name.as_str(), place.number)?)?;
    }
    Ok(keys)
}

// Appends the indexes of a key.
fn push_indexes(indexes: &mut Vec<usize>, index: &Index, key: &str) -> Result<(), AllocError>
    ensures { OnOk result (indexes.new.items ≡ indexes.old.items
        ++ option_map_or (λ list. list.items) (get_by_text index.now key.now) []) }
{
    if let Some(list) = index.get(key) {
        indexes.extend_from_slice(list.as_slice())?;
    }
    Ok(())
}

/// Returns the indexes of some keys.
pub fn indexes_of(alloc: Global, index: &Index, keys: &[String]) -> Result<Vec<usize>, AllocError>
    ensures { IfOk result (λ indexes. indexes.items
        ≡ flat_map (λ key. option_map_or (λ list. list.items) (get_by_text index.now key) []) (map string_bytes keys.now)) }
{
    let mut indexes = Vec::new(alloc);
    for key in keys {
        push_indexes(&mut indexes, index, key.as_str())?;
    }
    Ok(indexes)
}

// Returns whether the entry at this index, if there is one, allows what is found.
fn allows_at(
    alloc: Global,
    query: &Query<'_>,
    entries: &[Entry<'_>],
    index: usize,
) -> Result<bool, AllocError>
    ensures { IfOk result (λ allows. allows ≡ allows_at query.now entries.now index) }
{
    match entries.get(index) {
        Some(entry) => entry.allows(alloc, query),
        None => Ok(false),
    }
}

/// Notes which of the entries at these indexes allow what is found. Returns whether one does. Returns an error if an
/// allocation fails.
pub fn note_allowing(
    alloc: Global,
    query: &Query<'_>,
    entries: &[Entry<'_>],
    indexes: &[usize],
    used: &mut [bool],
) -> Result<bool, AllocError>
    requires { length used.old ≡ length entries.now }
    ensures allows { IfOk result (λ allows. allows ≡ list_any (allows_at query.now entries.now) indexes.now) }
    ensures used { OnOk result ((k : ℕ) → k < length entries.now → get_or used.new k false
        ≡ (get_or used.old k false || (list_any (nat_eq k) indexes.now && allows_at query.now entries.now k))) }
{
    let mut allows = false;
    for index in indexes {
        // Another entry allows this, and this one has allowed something before: there is nothing to note.
        if allows && is_used(used, *index) {
            continue;
        }
        if allows_at(alloc, query, entries, *index)? {
            allows = true;
            note_used(used, *index);
        }
    }
    Ok(allows)
}

// Returns whether the entry at this index, if there is one, is used.
fn is_used(used: &[bool], index: usize) -> bool
    ensures { result ≡ get_or used.now index false }
{
    index < used.len() && used[index]
}

// Notes that an entry is used.
fn note_used(used: &mut [bool], index: usize)
    ensures len { length used.new ≡ length used.old }
    ensures used { (k : ℕ) → k < length used.old → get_or used.new k false ≡ (get_or used.old k false || nat_eq k index) }
{
    if index < used.len() {
        used[index] = true;
    }
}
