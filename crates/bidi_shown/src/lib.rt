//! The output of `bidi show`: paragraphs and texts, for a terminal without bidirectional support.
#![tactic(auto)]

mod analysed;
pub mod breaks;
mod characters;
pub mod cluster;
mod displayed;
pub mod first;
pub mod line;
mod paragraph;
mod plain;
pub mod printable;
mod show;
pub mod stream;
pub mod tabs;
mod text;
pub mod view;
