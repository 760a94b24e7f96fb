//! Tests that are not test vectors: of `unicode_bidi` and of what it is built on, of a line as it is displayed, of the
//! calls of the C interface, and of `bidi_show` over readers and writers in memory.
#![tactic(auto)]

#[cfg(test)]
mod analyser;
#[cfg(test)]
mod bases;
#[cfg(test)]
mod calls;
#[cfg(test)]
mod check;
#[cfg(test)]
mod class_texts;
#[cfg(test)]
mod displayed;
#[cfg(test)]
mod equality;
#[cfg(test)]
mod explicit_levels;
#[cfg(test)]
mod iterators;
#[cfg(test)]
mod layout;
#[cfg(test)]
mod levels;
#[cfg(test)]
mod pairs;
#[cfg(test)]
mod placeholders;
#[cfg(test)]
mod printed;
#[cfg(test)]
mod show_failing;
#[cfg(test)]
mod show_holding;
#[cfg(test)]
mod show_run;
#[cfg(test)]
mod show_worked;
#[cfg(test)]
mod shown_chars;
#[cfg(test)]
mod shown_line;
#[cfg(test)]
mod source;
#[cfg(test)]
mod utf16;
#[cfg(test)]
mod utf8;
