//! Numbers in arguments.
ghost use Rattle.std.specs.Prelude.{◌≡◌, map, filter_map, is_some, IfOk, string_bytes};
ghost use Rattle.std.specs.List.{list_all};
ghost use Rattle.bidi_show_run.specs.Numbers.{level_of, levels_of};

use bidi_terminal::parse_number;
use std::alloc::{AllocError, Global};
use std::marker::Model;
use unicode_bidi::Level;

/// Returns the level in an argument: a number of at most 126. Returns `None` for any other argument.
pub fn parse_level(word: &str) -> Option<Level>
    ensures { result ≡ level_of word.now }
{
    let number = u8::try_from(parse_number(word)?).ok()?;
    Level::new(number).ok()
}

// Returns whether each argument is a level.
fn are_levels(words: &[String]) -> bool
    ensures { result ≡ list_all (λ word. is_some (level_of (string_bytes word))) words.now }
{
    words
        .iter()
        .all(|word| parse_level(word.as_str()).is_some())
}

// Returns the levels in arguments.
fn levels_in(alloc: Global, words: &[String]) -> Result<Vec<Level>, AllocError>
    ensures { IfOk result (λ v.
        v.items ≡ filter_map (λ word. level_of (string_bytes word)) words.now) }
{
    words
        .iter()
        .filter_map(|word| parse_level(word.as_str()))
        .collect(alloc)
}

/// Arguments each of which is a level. In clauses they are these levels.
#[derive(Drop)]
pub struct LevelWords<'w> {
    words: &'w [String],
}

impl<'w> Model for LevelWords<'w> {
    ghost use Rattle.std.specs.Prelude.{ℕ, List, map, filter_map, string_bytes};
    ghost use Rattle.bidi_show_run.specs.Numbers.{level_of};

    ghost Value = { List ℕ };

    ghost view = { λ l. filter_map level_of (map string_bytes l.words.now) };
}

impl<'w> LevelWords<'w> {
    /// Returns these arguments, or `None` unless each of them is a level. Does not allocate.
    pub fn parse(words: &'w [String]) -> Option<LevelWords<'w>>
        ensures { result ≡ levels_of (map string_bytes words.now) }
    {
        if are_levels(words) {
            Some(LevelWords { words })
        } else {
            None
        }
    }

    /// Returns the levels, in order. Returns an error if an allocation fails.
    pub fn levels(&self, alloc: Global) -> Result<Vec<Level>, AllocError>
        ensures { IfOk result (λ v. v.items ≡ self.now) }
    {
        levels_in(alloc, self.words)
    }
}
