//! The levels of a line after L1, in memory that is reused for the next line.

ghost use Rattle.std.specs.Prelude.{◌≡◌, ◌<◌, ◌≤◌, true, false, take, length, [], OnOk, OnErr, vec_len};
ghost use Rattle.bidi_base.specs.Texts.{text_len, per_char};
ghost use Rattle.bidi_base.specs.Line.{line_levels};
ghost use Rattle.bidi_lines.specs.declared.reused_levels.TheConstants.{FEW_UNITS};

use crate::line_levels::{gather, reset_levels};
use crate::lists::{ClassList, LevelList};
use bidi_base::level::{LTR_LEVEL, Level};
use bidi_text::text::TextSource;
use std::alloc::{AllocError, Global};

/// The maximum number of code units of a line that needs no allocation.
pub const FEW_UNITS: usize = 256;

// Writes the levels of a line after L1, given its stored classes and levels.
fn write_levels<C: ClassList, L: LevelList>(
    para_level: Level,
    classes: C,
    levels: L,
    out: &mut [Level],
)
    requires valid { L.are_levels levels }
    requires same_len { length (L.numbers levels) ≡ length (C.classes classes) }
    requires room { length out.old ≡ length (L.numbers levels) }
    ensures { out.new ≡ line_levels para_level (C.classes classes) (L.numbers levels) }
{
    levels.copy_to(out);
    reset_levels(para_level, classes, out);
}

// Writes the levels of a line after L1 to the front of a list, which may be longer than the line.
fn write_front<C: ClassList, L: LevelList>(
    para_level: Level,
    classes: C,
    levels: L,
    out: &mut [Level],
)
    requires valid { L.are_levels levels }
    requires same_len { length (L.numbers levels) ≡ length (C.classes classes) }
    requires room { length (L.numbers levels) ≤ length out.old }
    ensures { take (length (L.numbers levels)) out.new ≡ line_levels para_level (C.classes classes) (L.numbers levels) }
{
    let len = levels.len();
    write_levels(para_level, classes, levels, &mut out[..len]);
}

// Grows a list to at least `len` levels. New entries hold any level. If an allocation fails, the list is unchanged.
fn grow(levels: &mut Vec<Level>, len: usize) -> Result<(), AllocError>
    ensures len { OnOk result (len ≤ vec_len levels.new) }
    ensures unchanged { OnErr result (levels.new.items ≡ levels.old.items) }
{
    if levels.len() < len {
        levels.resize(len, LTR_LEVEL)?;
    }
    Ok(())
}

// Moves the level of each character's first code unit to the character's index, and returns the number of characters.
// The first `len` levels are those of the text's code units.
fn gather_front<T: TextSource>(text: T, levels: &mut [Level], len: usize) -> usize
    requires within { len ≤ length levels.old }
    requires same_len { len ≡ text_len (T.text text) }
    ensures within { result ≤ len }
    ensures gathered { take result levels.new ≡ per_char 0 (T.text text) (take len levels.old) }
{
    gather(text, &mut levels[..len])
}

/// The level of each code unit of a line after L1.
///
/// A line of up to 256 code units needs no allocation. The memory of a longer line is reused for the next one.
#[derive(Drop)]
pub struct LineLevels {
    // The levels are the first `len` of these,
    few: [Level; FEW_UNITS],
    // or of these, if the line had more code units.
    many: Vec<Level>,
    are_many: bool,
    len: usize,
    ghost few_fit: { are_many ≡ false → len ≤ FEW_UNITS },
    ghost many_fit: { are_many ≡ true → len ≤ vec_len many },
}

impl LineLevels {
    ghost use Rattle.bidi_lines.specs.LineLevels.{levels as levels_of};

    /// Returns the levels of an empty line. Does not allocate.
    pub fn new(alloc: Global) -> LineLevels
        ensures { levels_of result ≡ [] }
    {
        LineLevels {
            few: [LTR_LEVEL; FEW_UNITS],
            many: Vec::new(alloc),
            are_many: false,
            len: 0,
        }
    }

    /// Finds the level of each code unit of a line after L1.
    ///
    /// `classes` and `levels` are the stored ones of the line's code units, and `para_level` is the paragraph level.
    /// Takes time linear in the line. If an allocation fails, the levels of the previous line are unchanged.
    pub fn show<C: ClassList, L: LevelList>(
        &mut self,
        para_level: Level,
        classes: C,
        levels: L,
    ) -> Result<(), AllocError>
        requires valid { L.are_levels levels }
        requires same_len { length (L.numbers levels) ≡ length (C.classes classes) }
        ensures levels { OnOk result (levels_of self.new ≡ line_levels para_level (C.classes classes) (L.numbers levels)) }
        ensures unchanged { OnErr result (levels_of self.new ≡ levels_of self.old) }
    {
        let len = levels.len();
        if len <= FEW_UNITS {
            write_front(para_level, classes, levels, &mut self.few);
            self.are_many = false;
        } else {
            grow(&mut self.many, len)?;
            write_front(para_level, classes, levels, self.many.as_mut_slice());
            self.are_many = true;
        }
        self.len = len;
        Ok(())
    }

    /// Keeps one level for each character of the line: that of its first code unit.
    ///
    /// `text` is the line's text, with as many code units as there are levels. Takes time linear in the line, and does
    /// not allocate.
    pub fn keep_first_units<T: TextSource>(&mut self, text: T)
        requires { length (levels_of self.old) ≡ text_len (T.text text) }
        ensures { levels_of self.new ≡ per_char 0 (T.text text) (levels_of self.old) }
    {
        if self.are_many {
            self.len = gather_front(text, self.many.as_mut_slice(), self.len);
        } else {
            self.len = gather_front(text, &mut self.few, self.len);
        }
    }

    /// Returns the level of each code unit of the line, or of each character after `keep_first_units`.
    pub fn as_slice(&self) -> &[Level]
        ensures { result.now ≡ levels_of self.now }
    {
        if self.are_many {
            &self.many.as_slice()[..self.len]
        } else {
            &self.few[..self.len]
        }
    }
}
