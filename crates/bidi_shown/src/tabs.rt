//! Tabs as spaces.
ghost use Rattle.std.specs.Prelude.{◌≡◌, ◌<◌, ◌++◌, ◌∷◌, [], ℕ, List, length, replicate, IfOk, OnOk};
ghost use Rattle.bidi_shown.specs.Tabs.{spread as spread_of, spread_values};

use crate::cluster::columns;
use bidi_base::level::Level;
use std::alloc::{AllocError, Global};

/// The characters of a line with their levels, with spaces in place of its tabs.
///
/// Takes one line after another, and reuses its memory.
#[derive(Drop)]
pub struct SpreadLine {
    chars: Vec<char>,
    levels: Vec<Level>,
}

// The columns between two tab stops.
const TAB: usize = 8;

impl SpreadLine {
    ghost use Rattle.bidi_shown.specs.SpreadLine.{chars as chars_of, levels as levels_of};

    /// Returns an empty line. Does not allocate.
    pub fn new(alloc: Global) -> SpreadLine
        ensures chars { chars_of result ≡ [] }
        ensures levels { levels_of result ≡ [] }
    {
        SpreadLine {
            chars: Vec::new(alloc),
            levels: Vec::new(alloc),
        }
    }

    /// Returns the characters.
    pub fn chars(&self) -> &[char]
        ensures { result.now ≡ chars_of self.now }
    {
        self.chars.as_slice()
    }

    /// Returns the level of each character.
    pub fn levels(&self) -> &[Level]
        ensures { result.now ≡ levels_of self.now }
    {
        self.levels.as_slice()
    }

    // Appends a character at a level.
    fn push(&mut self, c: char, level: Level) -> Result<(), AllocError>
        ensures chars { OnOk result (chars_of self.new ≡ chars_of self.old ++ c ∷ []) }
        ensures levels { OnOk result (levels_of self.new ≡ levels_of self.old ++ level ∷ []) }
    {
        self.chars.push(c)?;
        self.levels.push(level)?;
        Ok(())
    }

    // Appends `count` spaces at a level.
    fn push_spaces(&mut self, level: Level, count: usize) -> Result<(), AllocError>
        ensures chars { OnOk result (chars_of self.new ≡ chars_of self.old ++ replicate count 0x20) }
        ensures levels { OnOk result (levels_of self.new ≡ levels_of self.old ++ replicate count level) }
    {
        let mut left = count;
        while left > 0 {
            self.push(' ', level)?;
            left -= 1;
        }
        Ok(())
    }

    // Appends a character at a level that begins at a column, a tab as spaces. Returns the column after it, counted
    // from a tab stop.
    fn push_at(&mut self, column: usize, c: char, level: Level) -> Result<usize, AllocError>
        requires { column < 8 }
        ensures { (chars : List ℕ) → (levels : List ℕ) → IfOk result (λ next. (next < 8)
            × (chars_of self.new ++ spread_of next chars ≡ chars_of self.old ++ spread_of column (c ∷ chars))
            × (levels_of self.new ++ spread_values next chars levels ≡ levels_of self.old ++ spread_values column (c ∷ chars) (level ∷ levels))) }
    {
        if c == '\t' {
            self.push_spaces(level, TAB - column)?;
            Ok(0)
        } else {
            self.push(c, level)?;
            Ok((column + columns(c)) % TAB)
        }
    }

    /// Replaces the line by these characters and their levels, one for each. Each tab becomes spaces up to the next
    /// multiple of eight columns, at the level of the tab. Returns an error if an allocation fails.
    pub fn spread(&mut self, chars: &[char], levels: &[Level]) -> Result<(), AllocError>
        requires { length levels.now ≡ length chars.now }
        ensures chars { OnOk result (chars_of self.new ≡ spread_of 0 chars.now) }
        ensures levels { OnOk result (levels_of self.new ≡ spread_values 0 chars.now levels.now) }
    {
        self.chars.clear();
        self.levels.clear();
        let mut column = 0;
        for (at, c) in chars.iter().enumerate() {
            column = self.push_at(column, *c, levels[at])?;
        }
        Ok(())
    }
}
