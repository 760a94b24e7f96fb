//! An isolating run sequence, as indexes into a list of level runs.

ghost use Rattle.std.specs.Prelude.{◌≡◌, ◌≤◌, length, IsTrue};
ghost use Rattle.bidi_base.specs.Units.{is_run_sequence};
ghost use Rattle.bidi_explicit.specs.Gathered.{gathered_in};
ghost use Rattle.bidi_explicit.specs.RunSequence.{borrowed_joined};

use super::{BorrowedSequence, LevelRun};
use bidi_base::char_data::BidiClass;

/// Where the level runs of a sequence are in a list of runs, and the classes at both ends.
#[derive(Clone, Copy, Debug)]
pub struct GatheredSequence {
    /// The index of the first run.
    start: usize,
    /// The index after the last run.
    end: usize,
    sos: BidiClass,
    eos: BidiClass,
}

impl GatheredSequence {
    /// Creates the sequence of the runs from `start` up to, not including, `end`.
    pub(super) fn new(start: usize, end: usize, sos: BidiClass, eos: BidiClass) -> GatheredSequence
        ensures { result ≡ record { start = start; end = end; sos = sos; eos = eos } }
    {
        GatheredSequence {
            start,
            end,
            sos,
            eos,
        }
    }

    /// Borrows the sequence's runs. `runs` must be the list that was passed to
    /// [`RunLinks::gather`](super::RunLinks::gather). If the sequence has several runs, the next call of `gather`
    /// overwrites them.
    pub fn borrowed(self, runs: &[LevelRun]) -> BorrowedSequence<'_>
        requires ordered { self.start ≤ self.end }
        requires inside { self.end ≤ length runs.now }
        requires well_formed { let s = gathered_in self runs.now in IsTrue (is_run_sequence s.runs s.sos s.eos) }
        ensures { borrowed_joined result ≡ gathered_in self runs.now }
    {
        BorrowedSequence::new(&runs[self.start..self.end], self.sos, self.eos)
    }
}
