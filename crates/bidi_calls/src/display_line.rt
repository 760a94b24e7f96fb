//! A line as it is displayed, in one call: its text from left to right (L2 to L4), the order of its characters, and their
//! places.
ghost use Rattle.std.specs.Prelude.{◌≡◌, ◌&&◌, IsTrue, flat_map, length, map, IfOk};
ghost use Rattle.std.specs.List.{list_all};
ghost use Rattle.std.specs.Option.{option_or};
ghost use Rattle.bidi_calls.specs.Buffers.{written_if_room, HasRoomOrNone};
ghost use Rattle.bidi_base.specs.Texts.{text_len};
ghost use Rattle.bidi_calls.specs.CallerLine.{IsValid, IsAsLongAs};
ghost use Rattle.bidi_calls.specs.LineText.{HasEntriesPerChar, own_units, fault_of_line, line_classes};
ghost use Rattle.bidi_display.specs.Shown.{options as options_of, Displays};
ghost use Rattle.bidi_calls.specs.DisplayParts.{fault_of_parts, found_parts, own_analysed, parts_by, room_fault, whole_line, WritesDisplay};
ghost use Rattle.bidi_calls.specs.Flags.{options_by as options_of_flags};
ghost use Rattle.bidi_calls.specs.ShownOrder.{places_of};
ghost use Rattle.bidi_numbers.specs.Faults.{FaultsAs, has_room_or_none};
ghost use Rattle.bidi_numbers.specs.Numbers.{class_numbered, is_level};

use crate::display_buffers::DisplayBuffers;
use crate::display_text::DisplayText;
use crate::flags::{mirrors_by, options_by};
use crate::line::CallerLine;
use crate::line_text::own_text;
use crate::show::{put_text, write_order};
use crate::shown::{Shown, shown_of, write_places};
use bidi_display::displayed_line::DisplayedLine;
use bidi_display::options::DisplayOptions;
use bidi_display::width::NoWidth;
use bidi_lines::visual_runs::LineRuns;
use bidi_numbers::fault::{Fault, check, has_room_or_none};
use bidi_numbers::numbers::class_of;
use std::alloc::{AllocError, Global};
use unicode_bidi::{BidiClass, Level, TextSource};

/// Returns the classes with these numbers.
pub(crate) fn classes_of(alloc: Global, numbers: &[u8]) -> Result<Vec<BidiClass>, AllocError>
    ensures { IfOk result (λ classes. classes.items ≡ map class_numbered numbers.now) }
{
    let mut classes = Vec::with_capacity(alloc, numbers.len())?;
    for number in numbers {
        classes.push(class_of(*number))?;
    }
    Ok(classes)
}

// Returns the level with a number.
fn level_of(number: u8) -> Level
    requires { IsTrue (is_level number) }
    ensures { result ≡ number }
{
    match Level::new(number) {
        Ok(level) => level,
        Err(_) => unreachable!(),
    }
}

// Returns the levels with these numbers.
fn levels_of(alloc: Global, numbers: &[u8]) -> Result<Vec<Level>, AllocError>
    requires { IsTrue (list_all is_level numbers.now) }
    ensures { IfOk result (λ levels. levels.items ≡ numbers.now) }
{
    let mut levels = Vec::with_capacity(alloc, numbers.len())?;
    for number in numbers {
        levels.push(level_of(*number))?;
    }
    Ok(levels)
}

/// Displays a line as a text of its own. `classes` has the classes of the line.
pub(crate) fn displayed_of<T: TextSource>(
    alloc: Global,
    text: T,
    classes: &[BidiClass],
    line: &CallerLine<'_>,
    options: DisplayOptions,
) -> Result<DisplayedLine, AllocError>
    requires valid { IsValid line.now }
    requires per_char { HasEntriesPerChar (T.text text) line.now }
    requires classes { classes.now ≡ line_classes line.now }
    ensures options { IfOk result (λ d. options_of d ≡ options) }
    ensures displays { IfOk result (λ d. Displays (λ cluster. 0) (own_analysed T.encoding.len_of (T.text text).chars line.now)
        line.now.paragraph.now.level (whole_line T.encoding.len_of (T.text text).chars) d) }
{
    let levels = levels_of(alloc, line.level_numbers())?;
    let mut displayed = DisplayedLine::new(alloc, options);
    let whole = 0..text.len();
    displayed.show(
        text,
        classes,
        levels.as_slice(),
        line.level(),
        whole,
        &NoWidth,
    )?;
    Ok(displayed)
}

// Returns whether each buffer is empty or has room for its part of the line.
fn have_room<U>(units: usize, shown: usize, characters: usize, out: &DisplayBuffers<'_, U>) -> bool
    ensures { result
        ≡ (has_room_or_none units (length out.now.text.now)
        && (has_room_or_none shown (length out.now.order.now)
        && has_room_or_none characters (length out.now.places.now))) }
{
    has_room_or_none(units, out.text.len())
        && has_room_or_none(shown, out.order.len())
        && has_room_or_none(characters, out.places.len())
}

/// Writes a list to the front of a buffer, unless the buffer is empty.
pub(crate) fn put<U: Copy>(list: &[U], out: &mut [U])
    requires { HasRoomOrNone list.now out.old }
    ensures { out.new ≡ written_if_room list.now out.old }
{
    if !out.is_empty() {
        out[..list.len()].copy_from_slice(list);
    }
}

/// Writes the places of a line's `count` characters to the front of a buffer, unless the buffer is empty.
pub(crate) fn put_places(order: &[usize], count: usize, out: &mut [usize])
    requires { IsTrue (has_room_or_none count (length out.old)) }
    ensures { out.new ≡ written_if_room (places_of order.now count) out.old }
{
    if !out.is_empty() {
        write_places(order, &mut out[..count]);
    }
}

/// Writes the parts of a displayed line to their buffers, unless one is too short and not empty. Returns the number of
/// code units of the text.
pub(crate) fn write_parts<U: Copy>(
    shown: &Shown<U>,
    characters: usize,
    out: &mut DisplayBuffers<'_, U>,
) -> Result<usize, Fault>
    ensures fault { FaultsAs result (room_fault (found_parts shown.now.text.items shown.now.order.items characters) out.old) }
    ensures writes { WritesDisplay (found_parts shown.now.text.items shown.now.order.items characters) result out.old out.new }
{
    let order = shown.order.as_slice();
    let text = shown.text.as_slice();
    let fits = have_room(text.len(), order.len(), characters, out);
    check(fits, Fault::NoRoom)?;
    put(text, out.text);
    put(order, out.order);
    put_places(order, characters, out.places);
    *out.shown = order.len();
    *out.characters = characters;
    Ok(text.len())
}

// Writes the parts of a line whose characters move one by one and are displayed as they are. Its text and its order are
// written run by run, so this takes a fraction of the time of `displayed_of`. `text` is the line's text.
fn display_runs<'t, T: DisplayText<'t>>(
    alloc: Global,
    text: T,
    line: &CallerLine<'_>,
    out: &mut DisplayBuffers<'_, T::Unit>,
) -> Result<usize, Fault>
    requires valid { IsValid line.now }
    requires per_char { HasEntriesPerChar (T.text text) line.now }
    requires units_same_len { IsAsLongAs T.encoding.len_of (T.text text).chars line.now }
    requires same_len { length (T.units_of text) ≡ text_len (T.text text) }
    requires well_formed { T.units_of text ≡ flat_map T.encode (T.text text).chars }
    ensures fault { FaultsAs result (room_fault (parts_by T.encoding.len_of T.encode (T.text text).chars line.now 0) out.old) }
    ensures writes { WritesDisplay (parts_by T.encoding.len_of T.encode (T.text text).chars line.now 0) result out.old out.new }
{
    let mut after_l1 = line.after_l1(alloc)?;
    let mut found = LineRuns::new(alloc);
    found.find(after_l1.as_slice(), 0)?;
    let units = after_l1.as_slice().len();
    let len = text.count_characters();
    let fits = have_room(units, len, len, out);
    check(fits, Fault::NoRoom)?;
    let mut order = Vec::new(alloc);
    order.resize(len, 0)?;
    put_text(text, after_l1.as_slice(), found.as_slice(), out.text);
    write_order(text, found.as_slice(), &mut after_l1, order.as_mut_slice());
    put(order.as_slice(), out.order);
    put_places(order.as_slice(), len, out.places);
    *out.shown = len;
    *out.characters = len;
    Ok(units)
}

// Displays a line, and writes its parts. `text` is the line's text.
fn display_text<'t, T: DisplayText<'t>>(
    alloc: Global,
    text: T,
    line: &CallerLine<'_>,
    flags: u32,
    options: DisplayOptions,
    out: &mut DisplayBuffers<'_, T::Unit>,
) -> Result<usize, Fault>
    requires valid { IsValid line.now }
    requires per_char { HasEntriesPerChar (T.text text) line.now }
    requires units_same_len { IsAsLongAs T.encoding.len_of (T.text text).chars line.now }
    requires same_len { length (T.units_of text) ≡ text_len (T.text text) }
    requires options { options ≡ options_of_flags flags }
    ensures fault { FaultsAs result (room_fault (parts_by T.encoding.len_of T.encode (T.text text).chars line.now flags) out.old) }
    ensures writes { WritesDisplay (parts_by T.encoding.len_of T.encode (T.text text).chars line.now flags) result out.old out.new }
{
    if flags == 0 && text.is_well_formed() {
        return display_runs(alloc, text, line, out);
    }
    let classes = classes_of(alloc, line.class_numbers())?;
    let displayed = displayed_of(alloc, text, classes.as_slice(), line, options)?;
    let shown = shown_of::<T, _>(alloc, &displayed, &mirrors_by(flags))?;
    write_parts(&shown, displayed.chars().len(), out)
}

/// Displays a line: writes its text from left to right (L2 to L4), the order of its characters, and their places.
///
/// Writes each part to its buffer, unless that buffer is empty. Also writes the number of the displayed characters and
/// that of all characters, and returns the number of code units of the text. The order has the index in the line of the
/// displayed character at each visual index, and the places are the visual indexes of all characters, with `usize::MAX`
/// for one that is not displayed. `flags` says what moves, whether characters are mirrored, and which are not displayed.
/// The faults are those of [`reorder_line`](crate::line_text::reorder_line), with `BadFlags` before `NoRoom`, and
/// `NoRoom` if a buffer is too short and not empty. Writes nothing after a fault. In UTF-16 an unpaired surrogate is
/// written as 0xFFFD. Takes the time of [`DisplayedLine::show`], and allocates lists as long as the line. The text takes
/// at most twice the code units of the line (tested, not proved).
pub fn display_line<'t, T: DisplayText<'t>>(
    alloc: Global,
    text: &'t [T::Unit],
    line: &CallerLine<'_>,
    flags: u32,
    out: &mut DisplayBuffers<'_, T::Unit>,
) -> Result<usize, Fault>
    ensures fault { let units = own_units text.now line.now in
        FaultsAs result (option_or (fault_of_line T.cuts_at T.fault_of text.now line.now)
        (fault_of_parts T.encoding.len_of T.encode (T.chars_of units) line.now flags out.old)) }
    ensures writes { let units = own_units text.now line.now in
        WritesDisplay (parts_by T.encoding.len_of T.encode (T.chars_of units) line.now flags) result out.old out.new }
{
    let own = own_text::<T>(text, line)?;
    let per_char = own.is_per_char(line.class_numbers(), line.level_numbers());
    check(per_char, Fault::UnevenCharacter)?;
    let options = options_by(flags)?;
    display_text(alloc, own, line, flags, options, out)
}
