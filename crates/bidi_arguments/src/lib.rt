//! The arguments of `bidi`: what they ask for, or which one is wrong and why.
#![tactic(auto)]

pub mod check_options;
pub mod command;
pub mod entries;
pub mod input;
mod kinds;
pub mod line_name;
pub mod line_reports;
pub mod operands;
pub mod refusal;
pub mod search;
mod show_options;
pub mod status;
