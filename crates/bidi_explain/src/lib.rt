//! The output of `bidi explain`: the result of each rule for the characters of a text, as tables or as a page of HTML.
//!
//! [`stages`] finds the results, [`cells`] writes each as a cell, and [`explain`] writes the tables or the page.
#![tactic(auto)]

mod blocks;
mod cells;
pub mod explain;
pub mod frame;
mod page;
mod rows;
mod stages;
mod table;
pub mod view;
