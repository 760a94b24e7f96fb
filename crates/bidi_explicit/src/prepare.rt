//! Characters that X9 removes, level runs, and isolating run sequences (BD7, BD13, X9, X10).

ghost use Rattle.std.specs.Prelude.{◌≡◌};
ghost use Rattle.bidi_base.specs.Classes.{is_removed, is_kept};

mod borrowed;
mod gathered;
mod joining;
mod links;
mod sequence;
mod waiting;

use bidi_base::char_data::BidiClass;
use bidi_base::classes::is_removed;
pub use bidi_base::steps::Steps;
pub use borrowed::BorrowedSequence;
pub use gathered::GatheredSequence;
pub use joining::isolating_run_sequences;
pub use links::RunLinks;
pub use sequence::{BackwardsFrom, ForwardsFrom, IsolatingRunSequence};
use std::ops::Range;

/// A level run (BD7), as the range of its code units.
pub type LevelRun = Range<usize>;

/// The level runs of a paragraph, in text order.
pub type LevelRunVec = Vec<LevelRun>;

/// The isolating run sequences of a paragraph.
pub type IsolatingRunSequenceVec = Vec<IsolatingRunSequence>;

/// Returns whether X9 removes characters of this class.
pub fn removed_by_x9(class: BidiClass) -> bool
    ensures { result ≡ is_removed class }
{
    is_removed(class)
}

/// Returns whether X9 keeps characters of this class.
pub fn not_removed_by_x9(class: &BidiClass) -> bool
    ensures { result ≡ is_kept class.now }
{
    !removed_by_x9(*class)
}
