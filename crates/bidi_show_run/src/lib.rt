//! A run of the program `bidi_show`: what it reads and writes for its arguments. The program is a `main` over this
//! library, and its tests call it with a slice for the input and a list for the output.
//!
//! ```
//! // The arguments `map 1 0 1`.
//! let ended = run_over_streams(alloc, arguments, b"".as_slice(), Vec::new(alloc));
//! ended.outcome;                  // Ok(())
//! ended.writer.into_inner();      // "0 1 2\n"
//! ```
//!
//! [`run_over_streams`] reads a reader and writes a writer. [`run`] has the same contract for any ends: types of the
//! traits [`ShowIn`] and [`ShowOut`].
#![tactic(auto)]

mod answers;
mod command;
mod ends;
mod fault;
mod input;
mod number;
mod runs;
mod shown;
mod streams;

pub use ends::{Failed, ShowIn, ShowOut};
pub use fault::ShowFault;
pub use runs::{Finished, run, run_over_streams};
pub use streams::{StreamIn, StreamOut, WatchedReader, WatchedWriter};
