//! `TextSource`, the trait through which the algorithm reads a text, and its implementations for UTF-8,
//! UTF-16, lists of characters, texts of classes alone and texts of your own.
#![tactic(auto)]

#[cfg(test)]
mod class_tests;
#[cfg(test)]
mod tests;
pub mod text;
