//! The rules over lists of characters. Each call returns new vectors.

mod bracket_pairs;
mod embeddings;
mod implicit_levels;
mod neutrals;
mod run_sequences;
mod weak_types;

pub use bracket_pairs::pairs;
pub use embeddings::{Explicit, explicit_levels};
pub use implicit_levels::implicit;
pub use neutrals::neutral;
pub use run_sequences::{PlainSequence, sequences};
pub use weak_types::weak;
