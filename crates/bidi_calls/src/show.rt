//! All parts of a line in one call: its levels, its visual runs, the order of its characters, and its text from left to
//! right.
ghost use Rattle.std.specs.Prelude.{◌≡◌, ◌&&◌, IsTrue, length, map, flat_map, All};
ghost use Rattle.std.specs.Option.{option_or};
ghost use Rattle.bidi_base.specs.Display.{run_of, visual_runs, AreVisualRuns};
ghost use Rattle.bidi_base.specs.Order.{visual_order as visual_order_of};
ghost use Rattle.bidi_base.specs.Text.{IsLine};
ghost use Rattle.bidi_base.specs.Texts.{text_len, per_char, IsPerChar};
ghost use Rattle.bidi_calls.specs.LineParts.{parts_of_line, fault_of_parts, room_fault, WritesLine};
ghost use Rattle.bidi_calls.specs.Buffers.{written_if_room, HasRoomOrNone};
ghost use Rattle.bidi_calls.specs.CallerLine.{IsValid, IsAsLongAs};
ghost use Rattle.bidi_calls.specs.LineText.{HasEntriesPerChar, own_units, fault_of_line, KeepsFirstUnits};
ghost use Rattle.bidi_numbers.specs.Faults.{FaultsAs, has_room_or_none};
ghost use Rattle.bidi_lines.specs.LineLevels.{levels as levels_of};
ghost use Rattle.bidi_lines.specs.InText.{run_units};

use crate::analysis::write_levels;
use crate::buffers::LineBuffers;
use crate::caller_text::CallerText;
use crate::char_order::{COUNTED_RUNS, write_char_order};
use crate::counted::CountedText;
use crate::line::CallerLine;
use crate::line_text::own_text;
use crate::run_structs::put_runs;
use bidi_lines::line_text::{LineText, write_runs};
use bidi_lines::reused_levels::LineLevels;
use bidi_lines::visual_order::write_visual_order;
use bidi_lines::visual_runs::LineRuns;
use bidi_numbers::fault::{Fault, check, has_room_or_none};
use std::alloc::Global;
use std::ops::Range;
use unicode_bidi::{Level, TextSource};

/// Writes levels to the front of a buffer, unless the buffer is empty.
pub(crate) fn put_levels(out: &mut [u8], levels: &[Level])
    requires { HasRoomOrNone levels.now out.old }
    ensures { out.new ≡ written_if_room levels.now out.old }
{
    if !out.is_empty() {
        write_levels(&mut out[..levels.len()], levels);
    }
}

/// Writes the text of a line, run by run, to the front of a buffer, unless the buffer is empty.
pub(crate) fn put_text<T: LineText>(
    text: T,
    levels: &[Level],
    runs: &[Range<usize>],
    out: &mut [T::Unit],
)
    requires room { HasRoomOrNone levels.now out.old }
    requires visual { AreVisualRuns 0 levels.now (map run_of runs.now) }
    requires are_lines { All (λ r. IsLine T.encoding.len_of (T.text text).chars r.start r.end) runs.now }
    ensures { out.new
        ≡ written_if_room
        (flat_map (run_units (T.text text) T.encode (T.units_of text) 0 levels.now) (map run_of runs.now))
        out.old }
{
    if !out.is_empty() {
        write_runs(text, 0, levels, runs, &mut out[..levels.len()]);
    }
}

// Returns whether each buffer is empty or has room for its part of the line.
fn have_room<U>(units: usize, runs: usize, characters: usize, out: &LineBuffers<'_, U>) -> bool
    ensures { result
        ≡ (has_room_or_none units (length out.now.levels.now)
        && (has_room_or_none runs (length out.now.runs.now)
        && (has_room_or_none characters (length out.now.order.now)
        && has_room_or_none units (length out.now.text.now)))) }
{
    has_room_or_none(units, out.levels.len())
        && has_room_or_none(runs, out.runs.len())
        && has_room_or_none(characters, out.order.len())
        && has_room_or_none(units, out.text.len())
}

// Keeps one level for each of a line's `len` characters. If each character is one code unit, this does nothing.
fn keep_characters<T: TextSource>(text: T, len: usize, after_l1: &mut LineLevels)
    requires units_same_len { length (levels_of after_l1.old) ≡ text_len (T.text text) }
    requires same_len { len ≡ length (T.text text).chars }
    ensures { KeepsFirstUnits (T.text text) after_l1.old after_l1.new }
{
    if len < after_l1.as_slice().len() {
        after_l1.keep_first_units(text);
    }
}

/// Writes the visual order of a line's characters. `after_l1` has one level for each code unit. If there are many runs,
/// the order is found from one level for each character, and `after_l1` keeps only those.
pub(crate) fn write_order<T: CountedText>(
    text: T,
    runs: &[Range<usize>],
    after_l1: &mut LineLevels,
    out: &mut [usize],
)
    requires per_char { IsPerChar (T.text text) (levels_of after_l1.old) }
    requires runs { map run_of runs.now ≡ visual_runs 0 (levels_of after_l1.old) }
    requires room { length out.old ≡ length (T.text text).chars }
    ensures { out.new ≡ visual_order_of (per_char 0 (T.text text) (levels_of after_l1.old)) }
{
    if runs.len() <= COUNTED_RUNS {
        write_char_order(text, after_l1.as_slice(), runs, out);
    } else {
        keep_characters(text, out.len(), after_l1);
        write_visual_order(after_l1.as_slice(), out);
    }
}

// Writes the visual order of a line's `len` characters to the front of a buffer, unless the buffer is empty.
fn put_order_of<T: CountedText>(
    out: &mut [usize],
    text: T,
    len: usize,
    runs: &[Range<usize>],
    after_l1: &mut LineLevels,
)
    requires per_char { IsPerChar (T.text text) (levels_of after_l1.old) }
    requires runs { map run_of runs.now ≡ visual_runs 0 (levels_of after_l1.old) }
    requires same_len { len ≡ length (T.text text).chars }
    requires room { IsTrue (has_room_or_none len (length out.old)) }
    ensures { out.new
        ≡ written_if_room (visual_order_of (per_char 0 (T.text text) (levels_of after_l1.old))) out.old }
{
    if !out.is_empty() {
        write_order(text, runs, after_l1, &mut out[..len]);
    }
}

// Writes all parts of a line: its levels after L1, its visual runs, its character order, and its text (L2).
//
// Writes each part to its buffer, unless that buffer is empty. Also writes the number of the line's characters, and
// returns the number of runs. `text` is the line's text. Returns `NoRoom` if a buffer is too short and not empty. Writes
// nothing after a fault.
fn show_text<T: CountedText>(
    alloc: Global,
    text: T,
    line: &CallerLine<'_>,
    out: &mut LineBuffers<'_, T::Unit>,
) -> Result<usize, Fault>
    requires valid { IsValid line.now }
    requires per_char { HasEntriesPerChar (T.text text) line.now }
    requires units_same_len { IsAsLongAs T.encoding.len_of (T.text text).chars line.now }
    requires same_len { length (T.units_of text) ≡ text_len (T.text text) }
    ensures fault { let parts = parts_of_line T.encoding.len_of T.encode (T.text text).chars (T.units_of text) line.now in
        FaultsAs result (room_fault parts out.old) }
    ensures writes { let parts = parts_of_line T.encoding.len_of T.encode (T.text text).chars (T.units_of text) line.now in
        WritesLine parts result out.old out.new }
{
    let mut after_l1 = line.after_l1(alloc)?;
    let mut found = LineRuns::new(alloc);
    found.find(after_l1.as_slice(), 0)?;
    let units = after_l1.as_slice().len();
    let count = found.as_slice().len();
    let len = text.count_characters();
    let fits = have_room(units, count, len, out);
    check(fits, Fault::NoRoom)?;
    put_levels(out.levels, after_l1.as_slice());
    put_runs(out.runs, after_l1.as_slice(), line.start, found.as_slice());
    put_text(text, after_l1.as_slice(), found.as_slice(), out.text);
    put_order_of(out.order, text, len, found.as_slice(), &mut after_l1);
    *out.characters = len;
    Ok(count)
}

/// Writes all parts of a line: its levels after L1, its visual runs, its character order, and its text (L2).
///
/// Writes each part to its buffer, unless that buffer is empty. Also writes the number of the line's characters, and
/// returns the number of its runs. The faults are those of [`reorder_line`](crate::line_text::reorder_line), with
/// `NoRoom` if a buffer is too short and not empty. Writes nothing after a fault. Takes time linear in the line. A line
/// of up to 256 code units with up to 16 runs needs no allocation.
pub fn show_line<'t, T: CallerText<'t>>(
    alloc: Global,
    text: &'t [T::Unit],
    line: &CallerLine<'_>,
    out: &mut LineBuffers<'_, T::Unit>,
) -> Result<usize, Fault>
    ensures fault { let units = own_units text.now line.now in
        FaultsAs result (option_or (fault_of_line T.cuts_at T.fault_of text.now line.now)
        (fault_of_parts T.encoding.len_of T.encode (T.chars_of units) units line.now out.old)) }
    ensures writes { let units = own_units text.now line.now in
        WritesLine (parts_of_line T.encoding.len_of T.encode (T.chars_of units) units line.now) result out.old out.new }
{
    let own = own_text::<T>(text, line)?;
    let per_char = own.is_per_char(line.class_numbers(), line.level_numbers());
    check(per_char, Fault::UnevenCharacter)?;
    show_text(alloc, own, line, out)
}
