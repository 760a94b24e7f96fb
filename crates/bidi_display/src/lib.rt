//! Texts as they are displayed: grapheme clusters, and lines with their clusters, columns, carets and selections, in
//! any encoding.
#![tactic(auto)]

mod appending;
pub mod carets;
pub mod cluster_state;
pub mod clusters;
pub mod displayed_line;
mod edges;
mod grouping;
pub mod info_line;
pub mod line_breaks;
pub mod line_char;
pub mod line_cluster;
pub mod options;
pub mod text;
pub mod text_display;
pub mod width;
