//! A text that comes in pieces. Its lines are shown as soon as they are whole.
ghost use Rattle.std.specs.Prelude.{◌≡◌, ℕ, ◌++◌, ◌≤◌, List, [], length, OnOk, IfErr, string_bytes};
ghost use Rattle.std.specs.Str.{chars, IsUtf8};
ghost use Rattle.bidi_unicode.specs.Unicode.{unicode_source};
ghost use Rattle.bidi_shown.specs.declared.view.View.{View};
ghost use Rattle.bidi_shown.specs.Displayed.{shown_text};
ghost use Rattle.bidi_shown.specs.Faults.{ReportsBytes};
ghost use Rattle.bidi_shown.specs.Streams.{whole_lines as whole_lines_of};

use crate::text::push_text;
use crate::view::View;
use std::alloc::{AllocError, Global};
use unicode_bidi::engine::ParagraphAnalysis;

/// Why a text is not shown to its end.
#[derive(Clone, Copy, Debug, PartialEq, Drop)]
pub enum StreamFault {
    /// The index of its first byte that is not UTF-8, counted from 0.
    NotUtf8(usize),
    /// An allocation failed.
    Memory,
}

impl From<AllocError> for StreamFault {
    ghost use Rattle.std.specs.Prelude.{◌≡◌};
    ghost use Rattle.bidi_shown.specs.declared.stream.StreamFault.TheVariants.{Memory};

    ghost from_gives = { λ _ fault. fault ≡ Memory };

    fn from(_error: AllocError) -> StreamFault {
        StreamFault::Memory
    }
}

impl StreamFault {
    ghost use Rattle.bidi_shown.specs.Faults.{ReportsBytesAfter};

    // Returns the fault of a text that has `before` bytes before those in which the fault was found.
    fn after(self, before: usize) -> StreamFault
        ensures { (bytes : List ℕ) → ReportsBytes bytes self → ReportsBytesAfter before bytes result }
    {
        match self {
            StreamFault::NotUtf8(at) => StreamFault::NotUtf8(before.saturating_add(at)),
            StreamFault::Memory => StreamFault::Memory,
        }
    }
}

/// A text that comes in pieces.
///
/// Keeps the bytes after the last line feed that has come, and shows the lines before it. What is shown of a text of
/// UTF-8 does not depend on its pieces.
#[derive(Drop)]
pub struct Stream {
    memory: ParagraphAnalysis,
    pending: Vec<u8>,
    // The number of bytes that were shown.
    before: usize,
}

// Returns the number of bytes up to the last line feed, this included, or 0.
fn whole_lines(bytes: &[u8]) -> usize
    ensures count { result ≡ whole_lines_of bytes.now }
    ensures within { result ≤ length bytes.now }
{
    let mut end = bytes.len();
    while end > 0 {
        if bytes[end - 1] == b'\n' {
            return end;
        }
        end -= 1;
    }
    0
}

// Appends the lines of a text. If it is not UTF-8, appends the whole lines before the first byte that is not.
fn show_bytes(
    alloc: Global,
    memory: &mut ParagraphAnalysis,
    view: View,
    bytes: &[u8],
    out: &mut String,
) -> Result<(), StreamFault>
    ensures utf8 { OnOk result (IsUtf8 bytes.now) }
    ensures shown { OnOk result (string_bytes out.new ≡ string_bytes out.old ++ shown_text unicode_source view (chars bytes.now)) }
    ensures fault { IfErr result (ReportsBytes bytes.now) }
{
    match str::from_utf8(bytes) {
        Ok(text) => {
            push_text(alloc, out, memory, view, text)?;
            Ok(())
        }
        Err(error) => {
            let valid = error.valid_up_to();
            if let Ok(text) = str::from_utf8(&bytes[..whole_lines(&bytes[..valid])]) {
                push_text(alloc, out, memory, view, text)?;
            }
            Err(StreamFault::NotUtf8(valid))
        }
    }
}

impl Stream {
    ghost use Rattle.bidi_shown.specs.Faults.{ReportsBytesAfter};
    ghost use Rattle.bidi_shown.specs.Streams.{pending as pending_of, shown_len as shown_len_of, shown_now, pending_after, lines_with, shown_len_after, HasShownPending, IsShownTo, ShowsPending, ReportsPending};

    /// Returns a text without pieces so far. Does not allocate.
    pub fn new(alloc: Global) -> Stream
        ensures pending { pending_of result ≡ [] }
        ensures shown_len { shown_len_of result ≡ 0 }
        ensures whole { (view : View) → IsShownTo view (pending_of result) [] [] }
    {
        Stream {
            memory: ParagraphAnalysis::new(alloc),
            pending: Vec::new(alloc),
            before: 0,
        }
    }

    /// Takes the next piece of the text, and appends the whole lines that have come with it to `out`.
    ///
    /// A piece that has no line feed is only kept. If the lines are not UTF-8, returns `NotUtf8` with the index in the
    /// text of the first byte that is not. Returns `Memory` if an allocation fails. The bytes after the last line feed
    /// are tested with the next one, or by `finish`. After an error, `out` may have some of the lines, and nothing is
    /// promised of the stream.
    pub fn push(
        &mut self,
        alloc: Global,
        view: View,
        piece: &[u8],
        out: &mut String,
    ) -> Result<(), StreamFault>
        ensures shown { OnOk result (string_bytes out.new ≡ string_bytes out.old ++ shown_now view (pending_of self.old) piece.now) }
        ensures pending { OnOk result (pending_of self.new ≡ pending_after (pending_of self.old) piece.now) }
        ensures shown_len { OnOk result (shown_len_of self.new ≡ shown_len_after self.old piece.now) }
        ensures utf8 { OnOk result (IsUtf8 (lines_with self.old piece.now)) }
        ensures fault { IfErr result (ReportsBytesAfter (shown_len_of self.old) (lines_with self.old piece.now)) }
        // `taken` is what the caller took out of `out` before.
        ensures whole { (came taken : List ℕ)
            → IsShownTo view (pending_of self.old) came (taken ++ string_bytes out.old)
            → OnOk result (IsShownTo view (pending_of self.new) (came ++ piece.now) (taken ++ string_bytes out.new)) }
    {
        let count = whole_lines(piece);
        if count == 0 {
            self.pending.extend_from_slice(piece)?;
            return Ok(());
        }
        let (lines, after) = piece.split_at(count);
        self.pending.extend_from_slice(lines)?;
        self.show_pending(alloc, view, out)?;
        self.pending.extend_from_slice(after)?;
        Ok(())
    }

    /// Ends the text: appends the last line to `out`, if it has no line feed.
    ///
    /// Returns `NotUtf8` with the index in the text of the first byte that is not UTF-8, or `Memory` if an allocation
    /// fails.
    pub fn finish(&mut self, alloc: Global, view: View, out: &mut String) -> Result<(), StreamFault>
        ensures utf8 { OnOk result (IsUtf8 (pending_of self.old)) }
        ensures shown { OnOk result (ShowsPending view self.old out.old out.new) }
        ensures ended { OnOk result (HasShownPending self.old self.new) }
        ensures fault { IfErr result (ReportsPending self.old) }
        ensures whole { (came taken : List ℕ)
            → IsShownTo view (pending_of self.old) came (taken ++ string_bytes out.old)
            → OnOk result (IsUtf8 came × (taken ++ string_bytes out.new ≡ shown_text unicode_source view (chars came))) }
    {
        self.show_pending(alloc, view, out)?;
        Ok(())
    }

    // Appends the lines of the bytes that are kept, and keeps none.
    fn show_pending(
        &mut self,
        alloc: Global,
        view: View,
        out: &mut String,
    ) -> Result<(), StreamFault>
        ensures utf8 { OnOk result (IsUtf8 (pending_of self.old)) }
        ensures shown { OnOk result (ShowsPending view self.old out.old out.new) }
        ensures ended { OnOk result (HasShownPending self.old self.new) }
        ensures fault { IfErr result (ReportsPending self.old) }
    {
        let bytes = self.pending.as_slice();
        let len = bytes.len();
        match show_bytes(alloc, &mut self.memory, view, bytes, out) {
            Ok(()) => {
                self.before = self.before.saturating_add(len);
                self.pending.clear();
                Ok(())
            }
            Err(fault) => Err(fault.after(self.before)),
        }
    }
}
