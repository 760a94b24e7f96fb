//! The calls over the text of a line, given the classes and levels that the caller passes.
ghost use Rattle.std.specs.Prelude.{◌≡◌, length, IfOk, OnOk, OnErr};
ghost use Rattle.std.specs.Option.{option_or};
ghost use Rattle.std.specs.Result.{result_err};
ghost use Rattle.bidi_base.specs.Texts.{text_len};
ghost use Rattle.bidi_calls.specs.Buffers.{WritesList};
ghost use Rattle.bidi_calls.specs.CallerLine.{IsValid, IsAsLongAs};
ghost use Rattle.bidi_calls.specs.CallerText.{IsTextOf};
ghost use Rattle.bidi_calls.specs.LineText.{own_units, text_fault, fault_of_line, HasEntriesPerChar, reordered, reordered_fault, order_of_line, map_fault, KeepsFirstUnits};
ghost use Rattle.bidi_lines.specs.LineLevels.{levels as levels_of};
ghost use Rattle.bidi_numbers.specs.Faults.{FaultsAs};

use crate::caller_text::CallerText;
use crate::counted::CountedText;
use crate::line::CallerLine;
use bidi_lines::line_text::{LineText, StoredLine, write_line};
use bidi_lines::reused_levels::LineLevels;
use bidi_lines::visual_order::write_visual_order;
use bidi_numbers::class_numbers::ClassNumbers;
use bidi_numbers::fault::{Fault, check};
use std::alloc::{AllocError, Global};

// Checks that there is one entry for each code unit of the text, and that the line cuts no character.
//
// Returns `UnequalLengths`, or else `CutCharacter`.
fn check_text<'t, T: CallerText<'t>>(text: &[T::Unit], line: &CallerLine<'_>) -> Result<(), Fault>
    ensures { result_err result ≡ text_fault T.cuts_at text.now line.now }
{
    check(text.len() == line.levels.len(), Fault::UnequalLengths)?;
    check(
        !(T::cuts_at(text, line.start) || T::cuts_at(text, line.end)),
        Fault::CutCharacter,
    )
}

/// Returns the text of a line.
///
/// Returns a fault of [`CallerLine::check`], or else `UnequalLengths` of the text, `CutCharacter`, or the fault of code
/// units of the line that are ill-formed, in this order. Takes time linear in the line, and does not allocate.
pub fn own_text<'t, T: CallerText<'t>>(
    text: &'t [T::Unit],
    line: &CallerLine<'_>,
) -> Result<T, Fault>
    ensures fault { result_err result ≡ fault_of_line T.cuts_at T.fault_of text.now line.now }
    ensures valid { OnOk result (IsValid line.now) }
    ensures text { let units = own_units text.now line.now in
        IfOk result (λ own. IsTextOf units (T.chars_of units) (T.text own) (T.units_of own)) }
    ensures same_len { IfOk result (λ own. IsAsLongAs T.encoding.len_of (T.text own).chars line.now) }
{
    line.check()?;
    check_text::<T>(text, line)?;
    T::read(&text[line.start..line.end])
}

// Writes the text of a line from left to right (L2). If an allocation fails, writes nothing.
fn write_text<T: LineText>(
    alloc: Global,
    text: T,
    line: &CallerLine<'_>,
    out: &mut [T::Unit],
) -> Result<(), AllocError>
    requires valid { IsValid line.now }
    requires per_char { HasEntriesPerChar (T.text text) line.now }
    requires same_len { IsAsLongAs T.encoding.len_of (T.text text).chars line.now }
    requires room { length out.old ≡ text_len (T.text text) }
    ensures text { OnOk result (out.new
        ≡ reordered T.encoding.len_of T.encode (T.text text).chars (T.units_of text) line.now) }
    ensures unchanged { OnErr result (out.new ≡ out.old) }
{
    let units = 0..out.len();
    let classes = ClassNumbers::new(line.class_numbers());
    let levels = line.level_numbers();
    let stored = StoredLine {
        level: line.level(),
        classes,
        levels,
    };
    write_line(alloc, text, units, &stored, out)
}

/// Writes the text of a line from left to right (L2), and returns its length.
///
/// The faults are those of [`own_text`], `UnevenCharacter` and `NoRoom`, in this order. In UTF-16 an unpaired surrogate
/// is unchanged at an even level, and 0xFFFD at an odd one. Writes nothing after a fault. Takes time linear in the line.
pub fn reorder_line<'t, T: CallerText<'t>>(
    alloc: Global,
    text: &'t [T::Unit],
    line: &CallerLine<'_>,
    out: &mut [T::Unit],
) -> Result<usize, Fault>
    ensures fault { let units = own_units text.now line.now in
        FaultsAs result (option_or (fault_of_line T.cuts_at T.fault_of text.now line.now)
        (reordered_fault T.encoding.len_of T.encode (T.chars_of units) units line.now (length out.old))) }
    ensures writes { let units = own_units text.now line.now in
        WritesList (reordered T.encoding.len_of T.encode (T.chars_of units) units line.now) result out.old out.new }
{
    let own = own_text::<T>(text, line)?;
    let per_char = own.is_per_char(line.class_numbers(), line.level_numbers());
    check(per_char, Fault::UnevenCharacter)?;
    let count = line.end - line.start;
    check(count <= out.len(), Fault::NoRoom)?;
    write_text(alloc, own, line, &mut out[..count])?;
    Ok(count)
}

// Keeps one level for each character of a line: that of its first code unit.
fn keep_first_units<T: CountedText>(text: T, after_l1: &mut LineLevels)
    requires { length (levels_of after_l1.old) ≡ text_len (T.text text) }
    ensures { KeepsFirstUnits (T.text text) after_l1.old after_l1.new }
{
    if !text.has_one_unit_each() {
        after_l1.keep_first_units(text);
    }
}

// Writes the visual order of the characters of a line (L2), and returns their number. `text` is the line's text.
fn map_characters<T: CountedText>(
    alloc: Global,
    text: T,
    line: &CallerLine<'_>,
    out: &mut [usize],
) -> Result<usize, Fault>
    requires valid { IsValid line.now }
    requires same_len { IsAsLongAs T.encoding.len_of (T.text text).chars line.now }
    ensures fault { FaultsAs result (map_fault T.encoding.len_of (T.text text).chars line.now (length out.old)) }
    ensures writes { WritesList (order_of_line T.encoding.len_of (T.text text).chars line.now) result out.old out.new }
{
    let mut after_l1 = line.after_l1(alloc)?;
    keep_first_units(text, &mut after_l1);
    let levels = after_l1.as_slice();
    let characters = levels.len();
    check(characters <= out.len(), Fault::NoRoom)?;
    write_visual_order(levels, &mut out[..characters]);
    Ok(characters)
}

/// Writes the visual order of a line's characters (L2), and returns their number.
///
/// The faults are those of [`own_text`], and then `NoRoom`. A character has the level of its first code unit. Writes
/// nothing after a fault. Takes time linear in the line.
pub fn line_map<'t, T: CallerText<'t>>(
    alloc: Global,
    text: &'t [T::Unit],
    line: &CallerLine<'_>,
    out: &mut [usize],
) -> Result<usize, Fault>
    ensures fault { let units = own_units text.now line.now in
        FaultsAs result (option_or (fault_of_line T.cuts_at T.fault_of text.now line.now)
        (map_fault T.encoding.len_of (T.chars_of units) line.now (length out.old))) }
    ensures writes { let units = own_units text.now line.now in
        WritesList (order_of_line T.encoding.len_of (T.chars_of units) line.now) result out.old out.new }
{
    let own = own_text::<T>(text, line)?;
    map_characters(alloc, own, line, out)
}
