//! The order of a line's characters from left to right (L2), written from its visual runs.
ghost use Rattle.std.specs.Prelude.{◌≡◌, ◌+◌, ◌≤◌, if◌then◌else◌, IsTrue, length, map, reverse};
ghost use Rattle.bidi_base.specs.Display.{run_of, visual_runs};
ghost use Rattle.bidi_base.specs.Order.{visual_order};
ghost use Rattle.bidi_base.specs.Indexes.{between};
ghost use Rattle.bidi_base.specs.Texts.{char_index, is_boundary, per_char, subrange, IsLine, IsPerChar};
ghost use Rattle.bidi_calls.specs.LineParts.{AreCharsIf};

use crate::counted::CountedText;
use std::ops::Range;
use unicode_bidi::Level;

/// The maximum number of runs for which `write_char_order` is faster than ordering the characters by their levels.
pub const COUNTED_RUNS: usize = 16;

// Writes ascending indexes from `first` on. The loop has no branch, so it writes many indexes at once.
fn write_upwards(first: usize, out: &mut [usize])
    requires { first + length out.old ≤ usize.MAX }
    ensures { out.new ≡ between first (first + length out.old) }
{
    for k in 0..out.len() {
        out[k] = first + k;
    }
}

// Writes the indexes from `first` on in descending order. This loop has no branch either.
fn write_downwards(first: usize, out: &mut [usize])
    requires { first + length out.old ≤ usize.MAX }
    ensures { out.new ≡ reverse (between first (first + length out.old)) }
{
    let count = out.len();
    for k in 0..count {
        out[k] = first + (count - 1 - k);
    }
}

// Writes the indexes of a run's characters from left to right. Its first character has the index `first`.
fn write_indexes(first: usize, is_rtl: bool, out: &mut [usize])
    requires { first + length out.old ≤ usize.MAX }
    ensures { let own = between first (first + length out.old) in out.new ≡ (if is_rtl then reverse own else own) }
{
    if is_rtl {
        write_downwards(first, out);
    } else {
        write_upwards(first, out);
    }
}

// Returns how many characters a range of code units has. If each code unit of the text is a character, this does not
// count.
fn count_in<T: CountedText>(text: T, units: Range<usize>, are_chars: bool) -> usize
    requires is_line { IsLine (T.text text) units.start units.end }
    requires are_chars { AreCharsIf are_chars T.encoding.len_of (T.text text).chars }
    ensures { result ≡ length (subrange (T.text text) units.start units.end).chars }
{
    if are_chars {
        return units.end - units.start;
    }
    text.subrange(units).count_characters()
}

// Returns how many characters come before the code unit `at`, given that `before` characters come before the code unit
// `near`.
fn index_at<T: CountedText>(
    text: T,
    at: usize,
    near: usize,
    before: usize,
    are_chars: bool,
) -> usize
    requires at { IsTrue (is_boundary (T.text text) at) }
    requires near { IsTrue (is_boundary (T.text text) near) }
    requires before { before ≡ char_index (T.text text) near }
    requires are_chars { AreCharsIf are_chars T.encoding.len_of (T.text text).chars }
    ensures { result ≡ char_index (T.text text) at }
{
    if near <= at {
        before + count_in(text, near..at, are_chars)
    } else {
        before - count_in(text, at..near, are_chars)
    }
}

// Returns the index of the first of a run's `count` characters. `left` is the run on its left, and `indexes` has the
// indexes of that run's characters. The two runs mostly touch, and then no character is counted.
fn first_index<T: CountedText>(
    text: T,
    run: &Range<usize>,
    count: usize,
    left: &Range<usize>,
    indexes: &Range<usize>,
    are_chars: bool,
) -> usize
    requires is_line { IsLine (T.text text) run.now.start run.now.end }
    requires count { count ≡ length (subrange (T.text text) run.now.start run.now.end).chars }
    requires left { IsTrue (is_boundary (T.text text) left.now.end) }
    requires begins { indexes.now.start ≡ char_index (T.text text) left.now.start }
    requires ends { indexes.now.end ≡ char_index (T.text text) left.now.end }
    requires are_chars { AreCharsIf are_chars T.encoding.len_of (T.text text).chars }
    ensures { result ≡ char_index (T.text text) run.now.start }
{
    if run.end == left.start {
        return indexes.start - count;
    }
    index_at(text, run.start, left.end, indexes.end, are_chars)
}

/// Writes the visual order of a line's characters (L2), run by run.
///
/// `text` is the line's text. `levels` has the level of each code unit of the line after L1, equal within each
/// character. `runs` has its visual runs, counted from its first code unit. `out` has one entry for each character. For
/// each run, the time is at most linear in the line. It is linear in the run if the run touches the one on its left.
/// Does not allocate.
pub fn write_char_order<T: CountedText>(
    text: T,
    levels: &[Level],
    runs: &[Range<usize>],
    out: &mut [usize],
)
    requires per_char { IsPerChar (T.text text) levels.now }
    requires runs { map run_of runs.now ≡ visual_runs 0 levels.now }
    requires room { length out.old ≡ length (T.text text).chars }
    ensures { out.new ≡ visual_order (per_char 0 (T.text text) levels.now) }
{
    let are_chars = out.len() == levels.len();
    let mut left = 0..0;
    let mut indexes = 0..0;
    let mut at = 0;
    for run in runs {
        let count = count_in(text, run.start..run.end, are_chars);
        let first = first_index(text, run, count, &left, &indexes, are_chars);
        let end = at + count;
        let is_rtl = levels[run.start].is_rtl();
        write_indexes(first, is_rtl, &mut out[at..end]);
        left = run.start..run.end;
        indexes = first..first + count;
        at = end;
    }
}
