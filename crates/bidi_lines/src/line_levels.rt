//! The levels of a line (L1).

ghost use Rattle.std.specs.Prelude.{◌≡◌, ℕ, ◌+◌, ◌-◌, ◌<◌, ◌≤◌, ◌&&◌, ◌||◌, not, nat_lt, true, false, if◌then◌else◌, length, min, slice_index, take, IfOk};
ghost use Rattle.bidi_base.specs.Classes.{is_removed, is_separator};
ghost use Rattle.bidi_base.specs.Levels.{is_odd, has_rtl};
ghost use Rattle.bidi_base.specs.Line.{is_blank, line_levels, levels_of_line, levels_with_line};
ghost use Rattle.bidi_base.specs.Indexes.{class_at};
ghost use Rattle.bidi_base.specs.Search.{IsFirst};
ghost use Rattle.bidi_base.specs.Texts.{text_len, per_char};
ghost use Rattle.bidi_lines.specs.ArrangedItems.{SameBelow, SameFrom};
ghost use Rattle.bidi_lines.specs.ResetStops.{is_break, is_break_at};

use crate::lists::ClassList;
use bidi_base::char_data::BidiClass;
use bidi_base::classes::{is_blank, is_removed, is_separator};
use bidi_base::level::{Level, has_rtl};
use bidi_base::search::{Tested, end_of_last_passing, first_passing};
use bidi_text::text::TextSource;
use std::alloc::{AllocError, Global};
use std::ops::Range;

// Sets the levels with indexes from `from` up to `to`.
fn write_level(levels: &mut [Level], from: usize, to: usize, level: Level)
    requires begins { from ≤ to }
    requires ends { to ≤ length levels.old }
    ensures outside_before { SameBelow levels.old levels.new from }
    ensures inside { (k : ℕ) → from ≤ k → k < to → slice_index levels.new k ≡ level }
    ensures outside_after { SameFrom levels.old levels.new to }
{
    levels[from..to].fill(level);
}

// Returns whether a class is a blank: white space, an isolate formatting character, or a class that X9 removes (L1). It
// has no branch, so that many code units are tested at once.
fn is_blank_unit(class: BidiClass) -> bool
    ensures { result ≡ is_blank class }
{
    (class == BidiClass::WS)
        | (class == BidiClass::LRI)
        | (class == BidiClass::RLI)
        | (class == BidiClass::FSI)
        | (class == BidiClass::PDI)
        | is_removed(class)
}

/// The classes of a line, with a test for those that are not blanks.
#[derive(Clone, Copy, Debug)]
struct NoBlanks<C: ClassList> {
    classes: C,
}

impl<C: ClassList> Tested for NoBlanks<C> {
    ghost count = { λ units. length (C.classes units.classes) };

    ghost passes = { λ units index. not (is_blank (class_at (C.classes units.classes) index)) };

    fn len(self) -> usize {
        self.classes.len()
    }

    fn passes(self, index: usize) -> bool {
        !is_blank_unit(self.classes.class_at(index))
    }
}

// Most lines end with fewer blanks than this. Further blanks are tested sixteen at a time.
const TESTED_SINGLY: usize = 2;

// Returns the start of the blanks that end the range from `from` to `to`, or `to` if there are none.
fn blanks_start<C: ClassList>(classes: C, from: usize, to: usize) -> usize
    requires begins { from ≤ to }
    requires ends { to ≤ length (C.classes classes) }
    ensures begins { from ≤ result }
    ensures within { result ≤ to }
    ensures blank { (k : ℕ) → result ≤ k → k < to → is_blank (class_at (C.classes classes) k) ≡ true }
    ensures stops { (k : ℕ) → from < result → k + 1 ≡ result → is_blank (class_at (C.classes classes) k) ≡ false }
{
    // Most lines end without blanks.
    if from == to || !is_blank(classes.class_at(to - 1)) {
        return to;
    }
    end_of_last_passing(NoBlanks { classes }, TESTED_SINGLY, from, to)
}

// Returns whether the pass of L1 stops at a code unit that comes after another one: at a separator, and at a code unit
// that X9 removes, unless it has the level of the code unit before it. It has no branch, so that many code units are
// tested at once.
fn is_break(class: BidiClass, before: Level, own: Level) -> bool
    ensures { result ≡ is_break class before own }
{
    is_separator(class) | (is_removed(class) & (before.number() != own.number()))
}

/// The code units of a line after the first one, with a test for those at which the pass of L1 stops.
#[derive(Clone, Copy, Debug)]
struct Breaks<'l, C: ClassList> {
    classes: C,
    levels: &'l [Level],
}

impl<'l, C: ClassList> Tested for Breaks<'l, C> {
    ghost count = { λ units. min (length (C.classes units.classes)) (length units.levels.now) - 1 };

    ghost passes = { λ units index. is_break_at (C.classes units.classes) units.levels.now (index + 1) };

    fn len(self) -> usize {
        self.classes.len().min(self.levels.len()).saturating_sub(1)
    }

    fn passes(self, index: usize) -> bool {
        is_break(
            self.classes.class_at(index + 1),
            self.levels[index],
            self.levels[index + 1],
        )
    }
}

// Returns the first index after `at` at which the pass of L1 stops, or the number of code units if there is none. The
// first code unit is tested by itself: in a stretch of removed code units that get another level, the pass stops at
// each.
fn next_break<C: ClassList>(classes: C, levels: &[Level], at: usize) -> usize
    requires same_len { length levels.now ≡ length (C.classes classes) }
    requires within { at < length levels.now }
    ensures { IsFirst (is_break_at (C.classes classes) levels.now) (at + 1) (length levels.now) result }
{
    first_passing(Breaks { classes, levels }, 1, at, levels.len() - 1) + 1
}

/// Applies L1 to the levels of a line.
///
/// `para_level` is the paragraph level. `classes` has the stored class of each code unit, and `levels` its stored
/// level. Separators get the paragraph level. So do white space, isolate formatting characters and characters that X9
/// removes, if only these come before a separator or the line's end. Any other character that X9 removes gets the level
/// of the code unit before it, or `para_level` at the line's start. Takes time linear in the line, and does not
/// allocate.
pub fn reset_levels<C: ClassList>(para_level: Level, classes: C, levels: &mut [Level])
    requires { length levels.old ≡ length (C.classes classes) }
    ensures { levels.new ≡ line_levels para_level (C.classes classes) levels.old }
{
    let mut before = para_level;
    // There is no separator from here up to `at`.
    let mut start = 0;
    let mut at = 0;
    // Each iteration reads one separator, a removed code unit with the code units after it that keep their levels, or a
    // stretch of other code units.
    while at < classes.len() {
        let class = classes.class_at(at);
        if is_separator(class) {
            let blanks = blanks_start(classes, start, at);
            write_level(levels, blanks, at + 1, para_level);
            before = para_level;
            at += 1;
            start = at;
        } else if is_removed(class) {
            levels[at] = before;
            at = next_break(classes, levels, at);
            before = levels[at - 1];
        } else {
            at = classes.next_stop(at);
            before = levels[at - 1];
        }
    }
    let blanks = blanks_start(classes, start, at);
    write_level(levels, blanks, at, para_level);
}

// Returns whether L1 resets a code unit. `is_next_reset` says whether it resets the next code unit, or the line ends
// there.
fn is_reset(class: BidiClass, is_next_reset: bool) -> bool
    ensures { result ≡ (is_separator class || (is_blank class && is_next_reset)) }
{
    is_separator(class) || is_next_reset && is_blank(class)
}

// Returns whether a code unit has an odd level after L1 that it does not take from the code unit before it. A code unit
// that X9 removes takes that level, unless L1 resets it.
fn shows_rtl(para_level: Level, class: BidiClass, own: Level, is_reset: bool) -> bool
    ensures { result ≡ (if is_reset then is_odd para_level else (not (is_removed class) && is_odd own)) }
{
    if is_reset {
        para_level.is_rtl()
    } else {
        !is_removed(class) && own.is_rtl()
    }
}

// Returns whether X9 removes the first code unit of a line.
fn starts_removed(classes: &[BidiClass]) -> bool
    ensures { result ≡ (nat_lt 0 (length classes.now) && is_removed (class_at classes.now 0)) }
{
    match classes {
        [first, ..] => is_removed(*first),
        [] => false,
    }
}

/// Returns whether some code unit of a line has an odd level after L1.
///
/// `classes` and `levels` are the stored ones of the line's code units, and `para_level` is the paragraph level. Takes
/// time linear in the line, and does not allocate.
pub(crate) fn line_has_rtl(para_level: Level, classes: &[BidiClass], levels: &[Level]) -> bool
    requires { length levels.now ≡ length classes.now }
    ensures { result ≡ has_rtl (line_levels para_level classes.now levels.now) }
{
    if para_level.is_ltr() && !has_rtl(levels) {
        return false;
    }
    let mut reset = true;
    let mut at = classes.len();
    while at > 0 {
        at -= 1;
        reset = is_reset(classes[at], reset);
        if shows_rtl(para_level, classes[at], levels[at], reset) {
            return true;
        }
    }
    // At the line's start, code units that X9 removes have the paragraph level.
    para_level.is_rtl() && starts_removed(classes)
}

// Applies L1 to one line of a text. `classes` and `levels` are the stored ones of the whole text.
fn reset_line(para_level: Level, classes: &[BidiClass], levels: &mut [Level], line: Range<usize>)
    requires same_len { length levels.old ≡ length classes.now }
    requires ordered { line.start ≤ line.end }
    requires within { line.end ≤ length levels.old }
    ensures { levels.new ≡ levels_with_line para_level classes.now levels.old line.start line.end }
{
    reset_levels(
        para_level,
        &classes[line.start..line.end],
        &mut levels[line.start..line.end],
    );
}

/// Returns the level of each code unit of a line after L1.
///
/// `classes` and `levels` are the stored ones of the whole text. The line is the range `line` of its code units, and
/// `para_level` is the level of the line's paragraph. Takes time linear in the line. Allocates only the list that it
/// returns.
pub fn levels_of_line(
    alloc: Global,
    para_level: Level,
    classes: &[BidiClass],
    levels: &[Level],
    line: Range<usize>,
) -> Result<Vec<Level>, AllocError>
    requires same_len { length levels.now ≡ length classes.now }
    requires ordered { line.start ≤ line.end }
    requires within { line.end ≤ length levels.now }
    ensures { IfOk result (λ v. v.items ≡ levels_of_line para_level classes.now levels.now line.start line.end) }
{
    let mut after_l1 = Vec::from_slice(alloc, &levels[line.start..line.end])?;
    reset_levels(
        para_level,
        &classes[line.start..line.end],
        after_l1.as_mut_slice(),
    );
    Ok(after_l1)
}

/// Returns the level of each code unit of a text: after L1 in the line, and as stored outside it.
///
/// `classes` and `levels` are the stored ones of the whole text. The line is the range `line` of its code units, and
/// `para_level` is the level of the line's paragraph. Takes time linear in the text. Allocates only the list that it
/// returns.
pub fn levels_with_line(
    alloc: Global,
    para_level: Level,
    classes: &[BidiClass],
    levels: &[Level],
    line: Range<usize>,
) -> Result<Vec<Level>, AllocError>
    requires same_len { length levels.now ≡ length classes.now }
    requires ordered { line.start ≤ line.end }
    requires within { line.end ≤ length levels.now }
    ensures { IfOk result (λ v. v.items ≡ levels_with_line para_level classes.now levels.now line.start line.end) }
{
    let mut after_l1 = Vec::from_slice(alloc, levels)?;
    reset_line(para_level, classes, after_l1.as_mut_slice(), line);
    Ok(after_l1)
}

// Moves the level of each character's first code unit to the character's index, and returns the number of characters.
//
// If the text can test a code unit in place, this tests each one, with no branch in the loop: a branch on a character's
// length is hard to predict. That loop ends at the text's own length, so that `is_boundary` need not compare the index
// with it. In any other text, this goes from character to character by their lengths.
pub(crate) fn gather<T: TextSource>(text: T, levels: &mut [Level]) -> usize
    requires { length levels.old ≡ text_len (T.text text) }
    ensures count { result ≡ length (T.text text).chars }
    ensures gathered { take result levels.new ≡ per_char 0 (T.text text) levels.old }
{
    if T::READS_IN_PLACE {
        let mut count = 0;
        for at in 0..text.len() {
            levels[count] = levels[at];
            count += usize::from(text.is_boundary(at));
        }
        return count;
    }
    let mut index = 0;
    for (at, _) in text.indices_lengths() {
        levels[index] = levels[at];
        index += 1;
    }
    index
}

/// Writes the level of each character of a text, and returns the number of characters.
///
/// A character has the level of its first code unit. `levels` has one level for each code unit, and `out` is as long.
/// The entries of `out` after those of the characters hold any levels. Takes time linear in the text, and does not
/// allocate.
pub fn write_first_units<T: TextSource>(text: T, levels: &[Level], out: &mut [Level]) -> usize
    requires same_len { length levels.now ≡ text_len (T.text text) }
    requires room { length out.old ≡ length levels.now }
    ensures count { result ≡ length (T.text text).chars }
    ensures written { take result out.new ≡ per_char 0 (T.text text) levels.now }
{
    if !T::READS_IN_PLACE {
        out.copy_from_slice(levels);
        return gather(text, out);
    }
    let mut copied = 0;
    for at in 0..text.len() {
        out[copied] = levels[at];
        copied += usize::from(text.is_boundary(at));
    }
    copied
}

/// Returns the level of each character of a text.
///
/// A character has the level of its first code unit. `levels` has one level for each code unit. Takes time linear in
/// the text, and does not allocate: the result reuses the memory of `levels`.
pub fn first_units<T: TextSource>(text: T, mut levels: Vec<Level>) -> Vec<Level>
    requires { length levels.items ≡ text_len (T.text text) }
    ensures { result.items ≡ per_char 0 (T.text text) levels.items }
{
    let count = gather(text, levels.as_mut_slice());
    levels.truncate(count);
    levels
}

/// Returns the level of each character of a text: after L1 in the line, and as stored outside it.
///
/// A character has the level of its first code unit. `classes` and `levels` are the stored ones of the text's code
/// units. `line` is a range of code units, and `para_level` is the level of its paragraph. Takes time linear in the
/// text. Allocates only the list that it returns.
pub fn levels_per_char<T: TextSource>(
    alloc: Global,
    text: T,
    para_level: Level,
    classes: &[BidiClass],
    levels: &[Level],
    line: Range<usize>,
) -> Result<Vec<Level>, AllocError>
    requires one_per_unit { length levels.now ≡ text_len (T.text text) }
    requires same_len { length levels.now ≡ length classes.now }
    requires ordered { line.start ≤ line.end }
    requires within { line.end ≤ length levels.now }
    ensures { IfOk result (λ v. v.items
        ≡ per_char 0 (T.text text) (levels_with_line para_level classes.now levels.now line.start line.end)) }
{
    let after_l1 = levels_with_line(alloc, para_level, classes, levels, line)?;
    Ok(first_units(text, after_l1))
}
