//! The Unicode Bidirectional Algorithm (UAX #9), proved.
//!
//! ```
//! let source = TableBidiData::new(&sample::RANGES, &sample::BRACKETS).unwrap();
//! let info = BidiInfo::new_with_data_source(alloc, &source, "אבגabc", None)?;
//! let paragraph = &info.paragraphs()[0];      // 0..9 in bytes, level 1
//! info.levels();                              // 1 1 1 1 1 1 2 2 2, one level for each byte
//! info.reorder_line(alloc, paragraph, 0..9)?; // "abcגבא", the line from left to right
//! info.visual_runs(alloc, paragraph, 0..9)?;  // the same as runs of bytes: 6..9, 0..6
//! BidiInfo::reorder_visual(alloc, levels)?;   // of levels 1 3 3 2 1: 4 2 1 3 0
//! ```
//!
//! Texts of UTF-16 have the same calls in `utf16`. For any other text, use `info`, or `engine` with lists of your own.
//! `text::Indexed` makes a text of your own. `CALLING.md` in this crate's folder has callers with contracts, the
//! clauses that callers use most, and what each call costs.
#![tactic(auto)]

mod base;
mod base_direction;
mod char_levels;
pub mod content;
pub mod deprecated;
pub mod direction_search;
pub mod engine;
pub mod explicit;
pub mod implicit;
pub mod info;
mod initial_info;
pub mod layout;
mod logical_runs;
mod paragraph;
mod paragraph_bidi_info;
pub mod prepare;
pub mod stored_line;
pub mod utf16;
mod utf8;
mod version;
pub mod visual_run;

pub use base::Base;
pub use base_direction::{
    get_base_direction_full_with_data_source, get_base_direction_with_data_source,
};
pub use bidi_base::char_data::{BidiClass, Direction};
pub use bidi_base::data_source::BidiDataSource;
pub use bidi_base::level::{LTR_LEVEL, Level, RTL_LEVEL};
pub use bidi_base::split_rule::SplitRule;
pub use bidi_base::{char_data, data_source, format_chars, level, overridden, sample};
pub use bidi_paragraphs::paragraph_info::ParagraphInfo;
pub use bidi_text::text;
pub use bidi_text::text::{TextSource, Utf8IndexLenIter};
pub use prepare::{LevelRun, LevelRunVec};
pub use utf8::{BidiInfo, InitialInfo, Paragraph, ParagraphBidiInfo, ShownLine};
pub use version::VERSION;
