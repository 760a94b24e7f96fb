//! A case: a text, and how it is displayed.

ghost use Rattle.std.specs.Prelude.{◌≤◌};

use bidi_base::level::{LTR_LEVEL, Level, RTL_LEVEL};
use bidi_display::options::{DisplayOptions, Dropped, Moves};
use std::alloc::{AllocError, Global};

/// The encoding of a text.
#[derive(Clone, Copy)]
pub enum Encoding {
    Utf8,
    Utf16,
    Chars,
}

/// Whose widths are counted.
#[derive(Clone, Copy)]
pub enum Widths {
    /// Those of whole clusters.
    Signs,
    /// Those of single characters.
    Cells,
}

/// A base level.
#[derive(Clone, Copy)]
pub enum Base {
    Ltr,
    Rtl,
}

impl Base {
    /// Returns the level.
    pub fn level(self) -> Level
        ensures { result ≤ 125 }
    {
        match self {
            Base::Ltr => LTR_LEVEL,
            Base::Rtl => RTL_LEVEL,
        }
    }
}

/// A text, and how it is displayed.
#[derive(Drop)]
pub struct Case {
    pub encoding: Encoding,
    pub base: Base,
    pub options: DisplayOptions,
    pub widths: Widths,
    pub chars: Vec<char>,
}

fn encoding_of(word: &str) -> Option<Encoding> {
    match word {
        "utf8" => Some(Encoding::Utf8),
        "utf16" => Some(Encoding::Utf16),
        "chars" => Some(Encoding::Chars),
        _ => None,
    }
}

fn base_of(word: &str) -> Option<Base> {
    match word {
        "0" => Some(Base::Ltr),
        "1" => Some(Base::Rtl),
        _ => None,
    }
}

/// Returns what moves, by a word.
pub fn moves_of(word: &str) -> Option<Moves> {
    match word {
        "characters" => Some(Moves::Characters),
        "marks" => Some(Moves::Marks),
        "clusters" => Some(Moves::Clusters),
        _ => None,
    }
}

/// Returns what is dropped, by a word.
pub fn dropped_of(word: &str) -> Option<Dropped> {
    match word {
        "nothing" => Some(Dropped::Nothing),
        "controls" => Some(Dropped::Controls),
        "neutrals" => Some(Dropped::ControlsAndBoundaryNeutrals),
        _ => None,
    }
}

/// Returns whose widths are counted, by a word.
pub fn widths_of(word: &str) -> Option<Widths> {
    match word {
        "signs" => Some(Widths::Signs),
        "cells" => Some(Widths::Cells),
        _ => None,
    }
}

fn char_of(word: &str) -> Option<char> {
    char::from_u32(u32::from_str_radix(word, 16).ok()?)
}

// Appends the characters of these words. Returns whether each word is one.
fn read_chars(words: &str, chars: &mut Vec<char>) -> Result<bool, AllocError> {
    for word in words.split_whitespace() {
        match char_of(word) {
            Some(c) => chars.push(c)?,
            None => return Ok(false),
        }
    }
    Ok(true)
}

// Returns the case of these words, without its text.
fn empty_case(alloc: Global, words: &str) -> Option<Case> {
    let mut words = words.split_whitespace();
    let encoding = encoding_of(words.next()?)?;
    let base = base_of(words.next()?)?;
    let moves = moves_of(words.next()?)?;
    let dropped = dropped_of(words.next()?)?;
    let tab = words.next()?.parse::<usize>().ok()?;
    let widths = widths_of(words.next()?)?;
    Some(Case {
        encoding,
        base,
        options: DisplayOptions {
            moves,
            dropped,
            tab,
        },
        widths,
        chars: Vec::new(alloc),
    })
}

impl Case {
    /// Returns the case of a line, or `None` if it is no case.
    pub fn of_line(alloc: Global, line: &str) -> Result<Option<Case>, AllocError> {
        let Some((words, text)) = line.split_once('|') else {
            return Ok(None);
        };
        let Some(mut case) = empty_case(alloc, words) else {
            return Ok(None);
        };
        let is_text = read_chars(text, &mut case.chars)?;
        Ok(if is_text { Some(case) } else { None })
    }
}
