//! Lists of the findings that are allowed.
//!
//! Each line of a list is an entry: a path, or a path and the number of a line, such as `src/names.c` or
//! `src/names.c:12`. It allows what is found in the file of that name, or in that line of it. A path that ends with `/`
//! is for each file below that directory. In a path `*` stands for any characters but `/`, `**` for any characters, and
//! `?` for one character but `/`. After a tab an entry may have kinds, as in `not-closed,present`, and after one more
//! the digest of a line, as in `#9f86d081884c7d659a2feaa0c55ad015`: it then allows only these kinds, and only in lines with this digest.
//! An empty line allows nothing, nor does one that begins with `#`.
ghost use Rattle.std.specs.Prelude.{◌≡◌, ◌++◌, ◌∷◌, [], List, ℕ, map, not, true, false, ◌||◌, ◌<◌, get_or, length, IfOk, IfErr, OnOk};
ghost use Rattle.std.specs.BTreeMap.{get_by_text};
ghost use Rattle.std.specs.Option.{option_map_or};
ghost use Rattle.bidi_reports.specs.AllowIndex.{allows_at, keyed_from, indexes_at};
ghost use Rattle.bidi_reports.specs.Allowed.{without_mark, without_return, is_comment, is_wrong, entries_in, entries_from, entries_of, ReportsLines, ReportsText, allows, unused_at};

use crate::allow_index::{Index, index_of, indexes_of, keys_of, note_allowing};
use crate::entry::{Entry, Query, fields_of};
use bidi_controls::decode::utf8_fault;
use std::alloc::{AllocError, Global};
use std::collections::BTreeMap;
use std::marker::Model;

/// Why a list allows nothing.
#[derive(Clone, Copy, Debug, PartialEq)]
pub enum ListFault {
    /// The list is not UTF-8 from the byte of this index on.
    NotUtf8(usize),
    /// The line of this number, counted from 1, is not an entry.
    NotAnEntry(usize),
    /// An allocation failed.
    Memory,
}

impl From<AllocError> for ListFault {
    ghost use Rattle.std.specs.Prelude.{◌≡◌};
    ghost use Rattle.bidi_reports.specs.declared.allowed.ListFault.TheVariants.{Memory};

    ghost from_gives = { λ _ fault. fault ≡ Memory };

    fn from(_error: AllocError) -> ListFault {
        ListFault::Memory
    }
}

// Returns a list without the byte order mark that it may begin with.
fn without_mark(text: &[u8]) -> &[u8]
    ensures { result.now ≡ without_mark text.now }
{
    match text {
        [0xEF, 0xBB, 0xBF, rest @ ..] => rest,
        _ => text,
    }
}

// Returns a line without the carriage return that it may end in.
fn without_return(line: &[u8]) -> &[u8]
    ensures { result.now ≡ without_return line.now }
{
    match line {
        [front @ .., b'\r'] => front,
        _ => line,
    }
}

// Returns whether a line is empty or begins with `#`.
fn is_comment(line: &[u8]) -> bool
    ensures { result ≡ is_comment line.now }
{
    matches!(line, [] | [b'#', ..])
}

// Appends an entry.
fn push_entry<'l>(entries: &mut Vec<Entry<'l>>, entry: Entry<'l>) -> Result<(), AllocError>
    ensures { OnOk result (entries.new.items ≡ entries.old.items ++ (entry.entry ∷ [])) }
{
    entries.push(entry)?;
    Ok(())
}

// Appends what a line of a list allows. Returns whether the line can be understood.
fn push_entries_in<'l>(
    alloc: Global,
    entries: &mut Vec<Entry<'l>>,
    number: usize,
    line: &'l [u8],
) -> Result<bool, AllocError>
    ensures entries { OnOk result (entries.new.items ≡ entries.old.items ++ entries_in number line.now) }
    ensures understood { IfOk result (λ understood. understood ≡ not (is_wrong number line.now)) }
{
    let line = without_return(line);
    if is_comment(line) {
        return Ok(true);
    }
    let Some(entry) = Entry::parse(alloc, number, line)? else {
        return Ok(false);
    };
    push_entry(entries, entry)?;
    Ok(true)
}

// Returns what the lines of a list allow, unless one of them is not an entry.
fn entries_in<'l>(alloc: Global, lines: &[&'l [u8]]) -> Result<Vec<Entry<'l>>, ListFault>
    ensures entries { IfOk result (λ entries. entries.items ≡ entries_from 1 (map (λ line. line.now) lines.now)) }
    ensures fault { IfErr result (ReportsLines (map (λ line. line.now) lines.now)) }
{
    let mut entries = Vec::new(alloc);
    for (index, line) in lines.iter().enumerate() {
        if !push_entries_in(alloc, &mut entries, index + 1, line)? {
            return Err(ListFault::NotAnEntry(index + 1));
        }
    }
    Ok(entries)
}

/// A list of the findings that are allowed. It borrows the text that it was read from. In clauses it is a record of its
/// entries, and of which of them have allowed something.
#[derive(Drop)]
pub struct AllowList<'l> {
    entries: Vec<Entry<'l>>,
    used: Vec<bool>,
    index: Index,
}

impl<'l> Model for AllowList<'l> {
    ghost use Rattle.std.specs.Prelude.{◌≡◌, [], List, ℕ, length};
    ghost use Rattle.std.specs.BTreeMap.{get_by_text};
    ghost use Rattle.std.specs.Option.{option_map_or};
    ghost use Rattle.bidi_reports.specs.AllowIndex.{keyed_from, indexes_at};
    ghost use Rattle.bidi_reports.specs.Allowed.{AllowList};

    ghost Value = { AllowList };

    ghost view = { λ list. record { entries = list.entries.items; used = list.used.items } };

    ghost invariant = { λ list. (length list.used.items ≡ length list.entries.items)
        × ((key : List ℕ) → option_map_or (λ list. list.items) (get_by_text list.index key) [] ≡ indexes_at key (keyed_from 0 list.entries.items)) };
}

impl<'l> AllowList<'l> {
    ghost use Rattle.std.specs.Prelude.{replicate};
    ghost use Rattle.bidi_reports.specs.Allowed.{Notes, unused};

    /// Returns a list that allows nothing. Allocates nothing.
    pub fn new(alloc: Global) -> AllowList<'l>
        ensures { result.entries ≡ [] }
    {
        AllowList {
            entries: Vec::new(alloc),
            used: Vec::new(alloc),
            index: BTreeMap::new(alloc),
        }
    }

    // Returns a list with these entries, none of which has allowed anything yet.
    fn of_entries(alloc: Global, entries: Vec<Entry<'l>>) -> Result<AllowList<'l>, AllocError>
        ensures entries { IfOk result (λ list. list.entries ≡ entries.entry.items) }
        ensures used { IfOk result (λ list. list.used ≡ replicate (length entries.entry.items) false) }
    {
        let index = index_of(alloc, entries.as_slice())?;
        let mut used = Vec::new(alloc);
        used.resize(entries.len(), false)?;
        Ok(AllowList {
            entries,
            used,
            index,
        })
    }

    /// Returns what a text allows. None of its entries has allowed anything yet.
    ///
    /// The text is UTF-8, and may begin with a byte order mark. Returns `NotUtf8` with the index of the first byte that
    /// is not UTF-8, counted from 0. Otherwise returns `NotAnEntry` with the number of the first line that is not an
    /// entry, or `Memory` if an allocation fails.
    pub fn parse(alloc: Global, text: &'l [u8]) -> Result<AllowList<'l>, ListFault>
        ensures entries { IfOk result (λ list. list.entries ≡ entries_of text.now) }
        ensures unused { IfOk result (λ list. list.used ≡ replicate (length list.entries) false) }
        ensures fault { IfErr result (ReportsText text.now) }
    {
        if let Some(at) = utf8_fault(text) {
            return Err(ListFault::NotUtf8(at));
        }
        let lines = fields_of(alloc, b'\n', without_mark(text))?;
        let entries = entries_in(alloc, lines.as_slice())?;
        Ok(AllowList::of_entries(alloc, entries)?)
    }

    /// Returns whether what is found is allowed, and notes each entry that allows it.
    ///
    /// Names are compared without the `./` that either of them may begin with. Returns an error if an allocation fails.
    /// Then no more is promised of which entries were noted.
    pub(crate) fn allow(&mut self, alloc: Global, query: &Query<'_>) -> Result<bool, AllocError>
        ensures allows { IfOk result (λ allowed. allowed ≡ allows self.old.entries query.now) }
        ensures notes { OnOk result (Notes (query.now ∷ []) self.old self.new) }
        ensures entries { self.new.entries ≡ self.old.entries }
    {
        allow_in(
            alloc,
            query,
            self.entries.as_slice(),
            &self.index,
            self.used.as_mut_slice(),
        )
    }

    /// Returns the numbers of the lines whose entries have allowed nothing, in order. Returns an error if an allocation
    /// fails.
    pub fn unused(&self, alloc: Global) -> Result<Vec<usize>, AllocError>
        ensures { IfOk result (λ numbers. numbers.items ≡ unused self.now) }
    {
        unused_of(alloc, self.entries.as_slice(), self.used.as_slice())
    }
}

// Returns the numbers of the lines whose entries have allowed nothing.
fn unused_of(alloc: Global, entries: &[Entry<'_>], used: &[bool]) -> Result<Vec<usize>, AllocError>
    requires { length used.now ≡ length entries.now }
    ensures { IfOk result (λ numbers. numbers.items ≡ unused_at used.now entries.now 0) }
{
    let mut numbers = Vec::new(alloc);
    for (index, entry) in entries.iter().enumerate() {
        if !used[index] {
            numbers.push(entry.number())?;
        }
    }
    Ok(numbers)
}

// Returns whether one of these entries allows what is found, and notes each of them that does.
fn allow_in(
    alloc: Global,
    query: &Query<'_>,
    entries: &[Entry<'_>],
    index: &Index,
    used: &mut [bool],
) -> Result<bool, AllocError>
    requires len { length used.old ≡ length entries.now }
    requires indexed { (key : List ℕ) → option_map_or (λ list. list.items) (get_by_text index.now key) []
        ≡ indexes_at key (keyed_from 0 entries.now) }
    ensures allows { IfOk result (λ allowed. allowed ≡ allows entries.now query.now) }
    ensures used { OnOk result ((k : ℕ) → k < length entries.now
        → get_or used.new k false ≡ (get_or used.old k false || (allows_at query.now entries.now k || false))) }
{
    let keys = keys_of(alloc, query)?;
    let indexes = indexes_of(alloc, index, keys.as_slice())?;
    let allows = note_allowing(alloc, query, entries, indexes.as_slice(), used)?;
    Ok(allows)
}
