//! An isolating run sequence that borrows its level runs.

ghost use Rattle.std.specs.Prelude.{◌≡◌, IsTrue, map};
ghost use Rattle.bidi_base.specs.Units.{bounds, is_run_sequence};

use super::{IsolatingRunSequence, LevelRun};
use bidi_base::char_data::BidiClass;

/// An isolating run sequence as the passes read it: borrowed level runs in text order, and the classes at
/// both ends, each L or R.
#[derive(Clone, Copy, Debug)]
pub struct BorrowedSequence<'s> {
    runs: &'s [LevelRun],
    sos: BidiClass,
    eos: BidiClass,
    pub ghost well_formed: { IsTrue (is_run_sequence (map bounds runs.now) sos eos) },
}

impl<'s> BorrowedSequence<'s> {
    ghost use Rattle.bidi_explicit.specs.RunSequence.{borrowed_runs, borrowed_sos, borrowed_eos};

    /// Creates a sequence of these runs.
    ///
    /// There must be at least one run. Each must be non-empty and end at or before the start of the next.
    /// `sos` and `eos` must each be L or R.
    pub fn new(runs: &'s [LevelRun], sos: BidiClass, eos: BidiClass) -> BorrowedSequence<'s>
        requires { IsTrue (is_run_sequence (map bounds runs.now) sos eos) }
        ensures runs { borrowed_runs result ≡ runs.now }
        ensures sos { borrowed_sos result ≡ sos }
        ensures eos { borrowed_eos result ≡ eos }
    {
        BorrowedSequence { runs, sos, eos }
    }

    /// Returns the level runs, in text order.
    pub fn runs(self) -> &'s [LevelRun]
        ensures { result.now ≡ borrowed_runs self.entry }
    {
        self.runs
    }

    /// Returns the class before the first character.
    pub fn sos(self) -> BidiClass
        ensures { result ≡ borrowed_sos self.entry }
    {
        self.sos
    }

    /// Returns the class after the last character.
    pub fn eos(self) -> BidiClass
        ensures { result ≡ borrowed_eos self.entry }
    {
        self.eos
    }
}

impl IsolatingRunSequence {
    ghost use Rattle.bidi_explicit.specs.RunSequence.{borrowed_runs, borrowed_sos, borrowed_eos, runs as runs_of, sos as sos_of, eos as eos_of};

    /// Borrows the sequence's runs.
    pub fn borrowed(&self) -> BorrowedSequence<'_>
        ensures runs { borrowed_runs result ≡ runs_of self.now }
        ensures sos { borrowed_sos result ≡ sos_of self.now }
        ensures eos { borrowed_eos result ≡ eos_of self.now }
    {
        BorrowedSequence::new(self.runs(), self.sos(), self.eos())
    }
}
