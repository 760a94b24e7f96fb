//! A line of a text as it is displayed.
//!
//! [`line_levels`] finds the levels of its code units after L1. [`visual_order`] and [`visual_runs`] find their visual
//! order (L2), and [`line_text`] the text of the line in that order. [`shown_line`] finds all of these for one line
//! after another, in memory that it reuses. [`analysed`] is a text with its classes and levels.
#![tactic(auto)]

pub mod analysed;
pub mod level_direction;
pub mod line_levels;
pub mod line_text;
pub mod lists;
pub mod reused_levels;
pub mod shown_line;
pub mod visual_order;
pub mod visual_runs;
