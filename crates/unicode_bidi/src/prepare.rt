//! Characters that X9 removes, level runs, and isolating run sequences (BD7, BD13, X9, X10); and `Steps`, a
//! count that only contracts see.

pub use bidi_rules::prepare::{
    BackwardsFrom, ForwardsFrom, IsolatingRunSequence, IsolatingRunSequenceVec, LevelRun,
    LevelRunVec, Steps, isolating_run_sequences, not_removed_by_x9, removed_by_x9,
};
