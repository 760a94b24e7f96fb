//! The entries of an allow-list.
ghost use Rattle.std.specs.Prelude.{◌≡◌, ◌+◌, ◌<◌, length, map, option_map, true, IfOk, IfSome};
ghost use Rattle.std.specs.List.{list_all, list_any};
ghost use Rattle.bidi_reports.specs.Entries.{fields_of, number_colon, whole_target, line_target, target_of, kinds_named, kinds_of, is_digest_digit, is_digest, begins_with_hash, digest_of, if_some, entry_with, entry_of_fields, entry_of, allows_kind, allows_number, allows_digest, allows_place, entry_allows};
ghost use Rattle.bidi_reports.specs.Kinds.{is_same_kind};

use crate::glob::Part;
use crate::kind::Kind;
use crate::line_number::{is_digits, line_number};
use crate::pattern::{allows_name, is_directory, path_parts, plain_path};
use std::alloc::{AllocError, Global};
use std::marker::Model;

/// Returns the parts of a text, which this byte separates. Returns an error if an allocation fails.
pub fn fields_of<'l>(
    alloc: Global,
    separator: u8,
    text: &'l [u8],
) -> Result<Vec<&'l [u8]>, AllocError>
    ensures { IfOk result (λ fields. map (λ field. field.now) fields.items ≡ fields_of separator text.now) }
{
    text.split(|byte| *byte == separator).collect(alloc)
}

// Returns the index of a colon that digits alone follow.
fn number_colon(text: &[u8]) -> Option<usize>
    ensures colon { result ≡ number_colon text.now }
    ensures within { IfSome result (λ colon. colon < length text.now) }
{
    for (index, byte) in text.iter().enumerate() {
        if *byte == b':' && is_digits(&text[index + 1..]) {
            return Some(index);
        }
    }
    None
}

// The files that an entry is for, and the number of a line.
#[derive(Drop)]
struct Target {
    parts: Vec<Part>,
    line: Option<usize>,
}

impl Model for Target {
    ghost use Rattle.bidi_reports.specs.Entries.{Target};

    ghost Value = { Target };

    ghost view = { λ target. (target.parts.items, target.line) };
}

impl Target {
    // Returns the target PATH.
    fn whole(alloc: Global, path: &[u8]) -> Result<Option<Target>, AllocError>
        ensures { IfOk result (λ target. target ≡ whole_target path.now) }
    {
        let Some(parts) = path_parts(alloc, path)? else {
            return Ok(None);
        };
        Ok(Some(Target { parts, line: None }))
    }

    // Returns the target PATH:LINE.
    fn of_line(
        alloc: Global,
        path: &[u8],
        line: Option<usize>,
    ) -> Result<Option<Target>, AllocError>
        ensures { IfOk result (λ target. target ≡ line_target path.now line) }
    {
        if line.is_none() || is_directory(path) {
            return Ok(None);
        }
        let Some(parts) = path_parts(alloc, path)? else {
            return Ok(None);
        };
        Ok(Some(Target { parts, line }))
    }

    // Returns the target that a text writes, if it can be understood.
    fn parse(alloc: Global, text: &[u8]) -> Result<Option<Target>, AllocError>
        ensures { IfOk result (λ target. target ≡ target_of text.now) }
    {
        match number_colon(text) {
            None => Target::whole(alloc, plain_path(text)),
            Some(colon) => {
                let line = line_number(&text[colon + 1..]);
                Target::of_line(alloc, plain_path(&text[..colon]), line)
            }
        }
    }
}

// Returns the kinds of these names, if each is the name of one.
fn kinds_named(alloc: Global, names: &[&[u8]]) -> Result<Option<Vec<Kind>>, AllocError>
    ensures { IfOk result (λ kinds. option_map (λ kinds. kinds.items) kinds ≡ kinds_named (map (λ name. name.now) names.now)) }
{
    let mut kinds = Vec::new(alloc);
    for name in names {
        let Some(kind) = Kind::parse(name) else {
            return Ok(None);
        };
        kinds.push(kind)?;
    }
    Ok(Some(kinds))
}

// Returns the kinds that a text names, which commas separate.
fn kinds_of(alloc: Global, text: &[u8]) -> Result<Option<Vec<Kind>>, AllocError>
    ensures { IfOk result (λ kinds. option_map (λ kinds. kinds.items) kinds ≡ kinds_of text.now) }
{
    let names = fields_of(alloc, b',', text)?;
    kinds_named(alloc, names.as_slice())
}

// Returns whether a character is a digit of a digest.
fn is_digest_digit(c: u8) -> bool
    ensures { result ≡ is_digest_digit c }
{
    c.is_ascii_digit() || matches!(c, b'a'..=b'f')
}

// Returns whether a text has nothing but such digits.
fn are_digest_digits(text: &[u8]) -> bool
    ensures { result ≡ list_all is_digest_digit text.now }
{
    text.iter().all(|byte| is_digest_digit(*byte))
}

// Returns whether a text is the digest of a line.
fn is_digest(text: &[u8]) -> bool
    ensures { result ≡ is_digest text.now }
{
    text.len() == 32 && are_digest_digits(text)
}

// Returns whether a text begins with `#`.
fn begins_with_hash(text: &[u8]) -> bool
    ensures { result ≡ begins_with_hash text.now }
{
    matches!(text, [b'#', ..])
}

// Returns the digest that follows a `#`.
fn digest_of(text: &[u8]) -> Option<&[u8]>
    ensures { option_map (λ digest. digest.now) result ≡ digest_of text.now }
{
    match text {
        [b'#', digest @ ..] if is_digest(digest) => Some(digest),
        _ => None,
    }
}

// Returns the kinds that a field names, if there is one. The outer `None` is a field that names none.
fn kinds_if_some(
    alloc: Global,
    field: Option<&[u8]>,
) -> Result<Option<Option<Vec<Kind>>>, AllocError>
    ensures { IfOk result (λ kinds. option_map (λ kinds. option_map (λ kinds. kinds.items) kinds) kinds
        ≡ if_some kinds_of (option_map (λ field. field.now) field.entry)) }
{
    let Some(field) = field else {
        return Ok(Some(None));
    };
    let kinds = kinds_of(alloc, field)?;
    Ok(kinds.map(Some))
}

// Returns the digest that a field writes, if there is one. The outer `None` is a field that writes none.
fn digest_if_some(field: Option<&[u8]>) -> Option<Option<&[u8]>>
    ensures { option_map (λ digest. option_map (λ digest. digest.now) digest) result
        ≡ if_some digest_of (option_map (λ field. field.now) field.entry) }
{
    match field {
        None => Some(None),
        Some(field) => match digest_of(field) {
            None => None,
            Some(digest) => Some(Some(digest)),
        },
    }
}

/// What an entry allows. In clauses it is a record of its parts.
#[derive(Drop)]
pub struct Entry<'l> {
    number: usize,
    parts: Vec<Part>,
    line: Option<usize>,
    digest: Option<&'l [u8]>,
    kinds: Option<Vec<Kind>>,
}

impl<'l> Model for Entry<'l> {
    ghost use Rattle.std.specs.Prelude.{option_map};
    ghost use Rattle.bidi_reports.specs.Entries.{Entry};

    ghost Value = { Entry };

    ghost view = { λ entry. record {
      number = entry.number;
      parts = entry.parts.items;
      line = entry.line;
      digest = option_map (λ digest. digest.now) entry.digest;
      kinds = option_map (λ kinds. kinds.items) entry.kinds;
    } };
}

impl<'l> Entry<'l> {
    // Returns the entry of these fields, if each can be understood.
    fn with(
        alloc: Global,
        number: usize,
        target: &[u8],
        kinds: Option<&[u8]>,
        digest: Option<&'l [u8]>,
    ) -> Result<Option<Entry<'l>>, AllocError>
        ensures { IfOk result (λ entry. entry
            ≡ entry_with number target.now (option_map (λ kinds. kinds.now) kinds.entry) (option_map (λ digest. digest.now) digest.entry)) }
    {
        let Some(target) = Target::parse(alloc, target)? else {
            return Ok(None);
        };
        let Some(kinds) = kinds_if_some(alloc, kinds)? else {
            return Ok(None);
        };
        let Some(digest) = digest_if_some(digest) else {
            return Ok(None);
        };
        let Target { parts, line } = target;
        Ok(Some(Entry {
            number,
            parts,
            line,
            digest,
            kinds,
        }))
    }

    // Returns the entry of these fields, which a tab separates, if each can be understood.
    fn of_fields(
        alloc: Global,
        number: usize,
        fields: &[&'l [u8]],
    ) -> Result<Option<Entry<'l>>, AllocError>
        ensures { IfOk result (λ entry. entry ≡ entry_of_fields number (map (λ field. field.now) fields.now)) }
    {
        match fields {
            [] => Ok(None),
            [target] => Entry::with(alloc, number, target, None, None),
            [target, field] if begins_with_hash(field) => {
                Entry::with(alloc, number, target, None, Some(field))
            }
            [target, field] => Entry::with(alloc, number, target, Some(field), None),
            [target, kinds, digest] => {
                Entry::with(alloc, number, target, Some(kinds), Some(digest))
            }
            [_, _, _, _, ..] => Ok(None),
        }
    }

    /// Returns the entry that line `number` of a list writes. `None` if the line, which is not a comment, is no entry.
    /// Returns an error if an allocation fails.
    #[tactic(auto, unfolding(crate::specs::Entries::entry_of))]
    pub fn parse(
        alloc: Global,
        number: usize,
        line: &'l [u8],
    ) -> Result<Option<Entry<'l>>, AllocError>
        ensures { IfOk result (λ entry. entry ≡ entry_of number line.now) }
    {
        let fields = fields_of(alloc, b'\t', line)?;
        Entry::of_fields(alloc, number, fields.as_slice())
    }

    /// Returns the parts of its pattern.
    pub fn parts(&self) -> &[Part]
        ensures { result.now ≡ self.now.parts }
    {
        self.parts.as_slice()
    }

    /// Returns the number of the line that it is for, if it has one.
    pub fn line(&self) -> Option<usize>
        ensures { result ≡ self.now.line }
    {
        self.line
    }

    /// Returns the digest of the line that it is for, if it has one.
    pub fn digest(&self) -> Option<&'l [u8]>
        ensures { option_map (λ digest. digest.now) result ≡ self.now.digest }
    {
        self.digest
    }

    /// Returns the number of its line in the list, counted from 1.
    pub fn number(&self) -> usize
        ensures { result ≡ self.now.number }
    {
        self.number
    }

    /// Returns whether it allows what is found. Returns an error if an allocation fails.
    #[tactic(auto, unfolding(crate::specs::Entries::entry_allows))]
    pub fn allows(&self, alloc: Global, query: &Query<'_>) -> Result<bool, AllocError>
        ensures { IfOk result (λ allows. allows ≡ entry_allows query.now self.now) }
    {
        let allows = allows_kind(&self.kinds, query.kind)
            && allows_place(self.line, &self.digest, &query.place);
        if !allows {
            return Ok(false);
        }
        allows_name(alloc, self.parts.as_slice(), query.name)
    }
}

/// A line of a file. In clauses it is its number and its digest.
#[derive(Drop)]
pub struct Place<'q> {
    /// Its number, counted from 1.
    pub number: usize,
    /// Its digest: 32 hexadecimal digits.
    pub digest: &'q str,
}

impl<'q> Model for Place<'q> {
    ghost use Rattle.std.specs.Prelude.{ℕ, List};

    ghost Value = { ℕ × List ℕ };

    ghost view = { λ place. (place.number, place.digest.now) };
}

/// What is found, as an entry can allow it. In clauses it is a record of its parts.
#[derive(Drop)]
pub struct Query<'q> {
    /// The name of the file.
    pub name: &'q str,
    /// What is found.
    pub kind: Kind,
    /// The line, or `None` if it is about the whole file.
    pub place: Option<Place<'q>>,
}

impl<'q> Model for Query<'q> {
    ghost use Rattle.bidi_reports.specs.Entries.{Query};

    ghost Value = { Query };

    ghost view = { λ query. record { name = query.name.now; kind = query.kind; place = query.place } };
}

/// Returns whether one of these kinds is that kind.
pub fn has_kind(kinds: &[Kind], kind: Kind) -> bool
    ensures { result ≡ list_any (is_same_kind kind) kinds.now }
{
    kinds.iter().any(|own| kind.is_same(*own))
}

// Returns whether an entry with these kinds, or with `None` no kinds, allows a kind.
fn allows_kind(kinds: &Option<Vec<Kind>>, kind: Kind) -> bool
    ensures { result ≡ allows_kind (option_map (λ kinds. kinds.items) kinds.now) kind }
{
    match kinds {
        None => kind.is_finding(),
        Some(kinds) => has_kind(kinds.as_slice(), kind),
    }
}

// Returns whether an entry for this number, or with `None` for each line, allows a line.
fn allows_number(line: Option<usize>, number: usize) -> bool
    ensures { result ≡ allows_number line number }
{
    match line {
        None => true,
        Some(line) => line == number,
    }
}

// Returns whether an entry with this digest, or with `None` for each line, allows a line.
fn allows_digest(own: &Option<&[u8]>, digest: &str) -> bool
    ensures { result ≡ allows_digest (option_map (λ own. own.now) own.now) digest.now }
{
    match own {
        None => true,
        Some(own) => **own == *digest.as_bytes(),
    }
}

// Returns whether an entry for a line with this number and this digest allows a place.
fn allows_place(line: Option<usize>, digest: &Option<&[u8]>, place: &Option<Place<'_>>) -> bool
    ensures { result ≡ allows_place line (option_map (λ digest. digest.now) digest.now) place.now }
{
    match place {
        None => line.is_none() && digest.is_none(),
        Some(place) => allows_number(line, place.number) && allows_digest(digest, place.digest),
    }
}
