//! A search through the bytes of a file.
ghost use Rattle.std.specs.Prelude.{◌≡◌, ◌+◌, ◌<◌, ◌≤◌, ◌^◌, ◌++◌, List, [], ℕ, take, drop, length, map, IfOk, OnOk, IsTrue, vec_len, false, ◌↔◌};
ghost use Rattle.std.specs.Char.{is_ascii};
ghost use Rattle.std.specs.List.{list_all};
ghost use Rattle.bidi_unicode.specs.Unicode.{unicode_source};
ghost use Rattle.bidi_controls.specs.Decoded.{utf8_decoded, decoded, utf8_fault, first_invalid};
ghost use Rattle.bidi_controls.specs.FileLines.{file_lines_of};
ghost use Rattle.bidi_controls.specs.FileSearch.{found_in, found_from, line_of, may_hold as may_hold_of, still_found, still_invalid, deleted, CountsLines, Finds, HasNoWholeLine, HasRoom};

use crate::check::{FileLine, LineFound, LineSearch, Sought};
use crate::control_bytes::holds_control;
use crate::decode::{utf8_decoded, utf8_fault, utf16_text};
use crate::differing::DisplayedParagraph;
use crate::file_lines::{count_lines, first_line_len, whole_lines_len};
use crate::finding::{Finding, Wanted};
use crate::pieces::drop_front;
use bidi_unicode::UnicodeData;
use std::alloc::{AllocError, Global};

/// A line of a file in which something is found.
#[derive(Drop)]
pub struct FoundLine {
    /// Its number, counted from 1.
    pub number: usize,
    /// Its characters, with the LF, CR LF or CR that ends it.
    pub chars: Vec<char>,
    /// What is found in it, paragraph by paragraph: first the finding of the paragraph as a whole, then those of its
    /// characters in order.
    pub findings: Vec<Finding>,
    /// Each of its paragraphs that has a finding as a whole, as it is displayed, in order. Empty if the search does not keep
    /// what is displayed.
    pub displayed: Vec<DisplayedParagraph>,
}

/// Returns whether all bytes are ASCII.
fn are_ascii(bytes: &[u8]) -> bool
    ensures { result ≡ list_all is_ascii bytes.now }
{
    bytes.iter().all(|byte| byte.is_ascii())
}

/// Returns whether something may be found in some bytes: they hold a control or a mark, or, if letters are wanted, a byte
/// that is not ASCII.
fn may_hold(wanted: Wanted, bytes: &[u8]) -> bool
    ensures { result ≡ may_hold_of wanted bytes.now }
{
    holds_control(bytes) || wanted.letters_alone && !are_ascii(bytes)
}

/// A search through a file in UTF-8 that is read in pieces.
#[derive(Drop)]
pub struct FileSearch {
    /// What is searched for, and what is kept of it.
    pub sought: Sought,
    /// How many lines were searched.
    pub lines: usize,
    /// How many bytes these have.
    pub offset: usize,
    /// The index of their first byte that is not UTF-8, if there is one.
    pub invalid: Option<usize>,
    line_search: LineSearch,
}

impl FileSearch {
    ghost use Rattle.std.specs.Prelude.{None};

    /// Returns a search that is at the start of a file. Allocates nothing.
    pub fn new(alloc: Global, sought: Sought) -> FileSearch
        ensures sought { result.sought ≡ sought }
        ensures lines { result.lines ≡ 0 }
        ensures offset { result.offset ≡ 0 }
        ensures invalid { result.invalid ≡ None }
    {
        FileSearch {
            sought,
            lines: 0,
            offset: 0,
            invalid: None,
            line_search: LineSearch::new(alloc),
        }
    }

    /// Returns whether the counts of lines and bytes stay below 2^64 over `len` more bytes.
    pub fn has_room(&self, len: usize) -> bool
        ensures { IsTrue result ↔ HasRoom self.now len }
    {
        self.lines.checked_add(len).is_some() && self.offset.checked_add(len).is_some()
    }

    /// Appends the line of this number, if something is found in it.
    fn push_line(
        &mut self,
        alloc: Global,
        number: usize,
        line: &[u8],
        found: &mut Vec<FoundLine>,
    ) -> Result<(), AllocError>
        ensures found { OnOk result (map line_of found.new.items ≡ map line_of found.old.items
            ++ found_in unicode_source self.old.sought number (utf8_decoded line.now)) }
        ensures sought { self.new.sought ≡ self.old.sought }
        ensures lines { self.new.lines ≡ self.old.lines }
        ensures offset { self.new.offset ≡ self.old.offset }
        ensures invalid { self.new.invalid ≡ self.old.invalid }
    {
        let chars = utf8_decoded(alloc, line)?;
        let mut line_found = LineFound::new(alloc);
        let decoded = FileLine {
            number,
            chars: chars.as_slice(),
        };
        self.line_search.push_found_in(
            alloc,
            &UnicodeData,
            self.sought,
            &decoded,
            &mut line_found,
        )?;
        let LineFound {
            findings,
            displayed,
        } = line_found;
        if !findings.is_empty() {
            found.push(FoundLine {
                number,
                chars,
                findings,
                displayed,
            })?;
        }
        Ok(())
    }

    /// Searches lines one by one.
    fn push_each_line(
        &mut self,
        alloc: Global,
        bytes: &[u8],
        found: &mut Vec<FoundLine>,
    ) -> Result<(), AllocError>
        requires { self.old.lines + length bytes.now < 2 ^ 64 }
        ensures found { OnOk result (Finds self.old bytes.now found.old.items found.new.items) }
        ensures lines { OnOk result (CountsLines self.old bytes.now self.new) }
        ensures sought { self.new.sought ≡ self.old.sought }
        ensures offset { self.new.offset ≡ self.old.offset }
        ensures invalid { self.new.invalid ≡ self.old.invalid }
    {
        let mut rest = bytes;
        while !rest.is_empty() {
            let (line, after) = rest.split_at(first_line_len(rest));
            self.lines += 1;
            let number = self.lines;
            // Only a line in which something may be found is decoded.
            if may_hold(self.sought.wanted, line) {
                self.push_line(alloc, number, line, found)?;
            }
            rest = after;
        }
        Ok(())
    }

    /// Notes where bytes stop being UTF-8, if no bytes before them do, and passes over them.
    fn note_bytes(&mut self, bytes: &[u8])
        requires { self.old.offset + length bytes.now < 2 ^ 64 }
        ensures invalid { self.new.invalid ≡ still_invalid self.old bytes.now }
        ensures offset { self.new.offset ≡ self.old.offset + length bytes.now }
        ensures sought { self.new.sought ≡ self.old.sought }
        ensures lines { self.new.lines ≡ self.old.lines }
    {
        if self.invalid.is_none()
            && let Some(at) = utf8_fault(bytes)
        {
            self.invalid = Some(self.offset + at);
        }
        self.offset += bytes.len();
    }

    /// Searches the last bytes of the file, and appends the lines in which something is found.
    ///
    /// There must be room for `bytes` (`has_room`). Returns an error if an allocation fails. Then nothing is promised
    /// of `found`, and only `sought` of the search.
    pub fn push_last(
        &mut self,
        alloc: Global,
        bytes: &[u8],
        found: &mut Vec<FoundLine>,
    ) -> Result<(), AllocError>
        requires { HasRoom self.old (length bytes.now) }
        ensures found { OnOk result
            (map line_of found.new.items ≡ map line_of found.old.items ++ still_found self.old bytes.now) }
        ensures invalid { OnOk result (self.new.invalid ≡ still_invalid self.old bytes.now) }
        ensures sought { self.new.sought ≡ self.old.sought }
        ensures lines { OnOk result (self.new.lines ≡ self.old.lines + length (file_lines_of (utf8_decoded bytes.now))) }
        ensures offset { OnOk result (self.new.offset ≡ self.old.offset + length bytes.now) }
    {
        self.note_bytes(bytes);
        if may_hold(self.sought.wanted, bytes) {
            return self.push_each_line(alloc, bytes, found);
        }
        self.lines += count_lines(bytes);
        Ok(())
    }

    /// Searches the lines that end in the next bytes of the file, and appends those in which something is found.
    /// Returns how many bytes these lines have. The next call must get the bytes after them.
    ///
    /// There must be room for `bytes` (`has_room`). Returns an error if an allocation fails. Then nothing is promised
    /// of `found`, and only `sought` of the search.
    pub fn push_whole_lines(
        &mut self,
        alloc: Global,
        bytes: &[u8],
        found: &mut Vec<FoundLine>,
    ) -> Result<usize, AllocError>
        requires { HasRoom self.old (length bytes.now) }
        ensures within { IfOk result (λ len. len ≤ length bytes.now) }
        // No line that ends before the last byte is left.
        ensures rest { IfOk result (λ len. HasNoWholeLine (drop len bytes.now)) }
        ensures sought { self.new.sought ≡ self.old.sought }
        ensures lines { IfOk result (λ len. CountsLines self.old (take len bytes.now) self.new) }
        ensures offset { IfOk result (λ len. self.new.offset ≡ self.old.offset + len) }
        // Whatever follows, the same is found in it and in these bytes.
        ensures found { IfOk result (λ len. (more : List ℕ)
            → map line_of found.new.items ++ still_found self.new (drop len bytes.now ++ more)
            ≡ map line_of found.old.items ++ still_found self.old (bytes.now ++ more)) }
        ensures invalid { IfOk result (λ len. (more : List ℕ)
            → still_invalid self.new (drop len bytes.now ++ more) ≡ still_invalid self.old (bytes.now ++ more)) }
    {
        let len = whole_lines_len(bytes);
        let (lines, _) = bytes.split_at(len);
        self.push_last(alloc, lines, found)?;
        Ok(len)
    }

    /// Searches the lines that end in the bytes that are read, and deletes the bytes of these lines. If `at_end` is
    /// true, searches and deletes all bytes.
    ///
    /// There must be room for `bytes` (`has_room`). Returns an error if an allocation fails. Then nothing is promised
    /// of `found` and `bytes`, and only `sought` of the search.
    pub fn push_read(
        &mut self,
        alloc: Global,
        at_end: bool,
        bytes: &mut Vec<u8>,
        found: &mut Vec<FoundLine>,
    ) -> Result<(), AllocError>
        requires { HasRoom self.old (vec_len bytes.old) }
        ensures deletes { OnOk result (bytes.old.items ≡ deleted bytes.old.items bytes.new.items ++ bytes.new.items) }
        ensures emptied { OnOk result (IsTrue at_end → bytes.new.items ≡ []) }
        // Before the end, no line that ends before the last byte is left.
        ensures rest { OnOk result (at_end ≡ false → HasNoWholeLine bytes.new.items) }
        ensures sought { self.new.sought ≡ self.old.sought }
        ensures lines { OnOk result (CountsLines self.old (deleted bytes.old.items bytes.new.items) self.new) }
        ensures offset { OnOk result (self.new.offset + vec_len bytes.new ≡ self.old.offset + vec_len bytes.old) }
        ensures last { OnOk result (IsTrue at_end → (map line_of found.new.items
            ≡ map line_of found.old.items ++ still_found self.old bytes.old.items)
            × (self.new.invalid ≡ still_invalid self.old bytes.old.items)) }
        // Before the end, whatever follows, the same is found in it and in these bytes.
        ensures found { OnOk result (at_end ≡ false → (more : List ℕ)
            → map line_of found.new.items ++ still_found self.new (bytes.new.items ++ more)
            ≡ map line_of found.old.items ++ still_found self.old (bytes.old.items ++ more)) }
        ensures invalid { OnOk result (at_end ≡ false → (more : List ℕ)
            → still_invalid self.new (bytes.new.items ++ more) ≡ still_invalid self.old (bytes.old.items ++ more)) }
    {
        if at_end {
            self.push_last(alloc, bytes.as_slice(), found)?;
            bytes.truncate(0);
            return Ok(());
        }
        let len = self.push_whole_lines(alloc, bytes.as_slice(), found)?;
        drop_front(bytes, len);
        Ok(())
    }
}

/// What is found in a file.
#[derive(Drop)]
pub struct Searched {
    /// The lines in which something is found.
    pub lines: Vec<FoundLine>,
    /// The index of the first byte that is not UTF-8. `None` if there is none, and for UTF-16.
    pub invalid: Option<usize>,
}

/// Returns what is found in UTF-8.
fn found_lines_of_utf8(alloc: Global, sought: Sought, bytes: &[u8]) -> Result<Searched, AllocError>
    ensures lines { IfOk result (λ searched. map line_of searched.lines.items
        ≡ found_from unicode_source sought 1 (file_lines_of (utf8_decoded bytes.now))) }
    ensures invalid { IfOk result (λ searched. searched.invalid ≡ utf8_fault bytes.now) }
{
    let mut search = FileSearch::new(alloc, sought);
    let mut lines = Vec::new(alloc);
    search.push_last(alloc, bytes, &mut lines)?;
    Ok(Searched {
        lines,
        invalid: search.invalid,
    })
}

/// Returns what is found in a file, given all its bytes: UTF-8, or UTF-16 after a byte order mark.
///
/// Each sequence of bytes that is not UTF-8 is read as one U+FFFD, and so is each surrogate without a partner. Returns
/// an error if an allocation fails.
pub fn found_lines(alloc: Global, sought: Sought, bytes: &[u8]) -> Result<Searched, AllocError>
    ensures lines { IfOk result (λ searched. map line_of searched.lines.items
        ≡ found_from unicode_source sought 1 (file_lines_of (decoded bytes.now))) }
    ensures invalid { IfOk result (λ searched. searched.invalid ≡ first_invalid bytes.now) }
{
    match utf16_text(alloc, bytes)? {
        Some(text) => found_lines_of_utf8(alloc, sought, text.as_bytes()),
        None => found_lines_of_utf8(alloc, sought, bytes),
    }
}
