//! The displayed characters of a line from left to right: their indexes and their code units.
ghost use Rattle.std.specs.Prelude.{◌≡◌, ◌+◌, ◌≤◌, ◌++◌, length, flat_map, IfOk, OnOk};
ghost use Rattle.bidi_display.specs.Shown.{chars as chars_in, clusters as clusters_in, displayed_part, displayed_text, options as options_of};
ghost use Rattle.bidi_calls.specs.ShownOrder.{places_of, shown_from, shown_order};

use crate::display_text::DisplayText;
use bidi_display::displayed_line::DisplayedLine;
use bidi_display::line_char::LineChar;
use bidi_display::options::DisplayOptions;
use bidi_display::text::{MirroredCharacters, displayed_char};
use std::alloc::{AllocError, Global};

/// The displayed characters of a line from left to right: their indexes in the line, and their code units.
#[derive(Drop)]
pub(crate) struct Shown<U> {
    pub order: Vec<usize>,
    pub text: Vec<U>,
}

// Appends the indexes of the displayed ones of some characters. The first of these has the index `first` in the line.
fn push_indexes(
    options: DisplayOptions,
    first: usize,
    chars: &[LineChar],
    out: &mut Vec<usize>,
) -> Result<(), AllocError>
    requires { first + length chars.now ≤ usize.MAX }
    ensures { OnOk result (out.new.items ≡ out.old.items ++ shown_from options first chars.now) }
{
    for k in 0..chars.len() {
        if !options.dropped.drops(&chars[k]) {
            out.push(first + k)?;
        }
    }
    Ok(())
}

// Appends the code units of the displayed ones of some characters, mirrored at odd levels.
fn push_units<'t, T: DisplayText<'t>, M: MirroredCharacters>(
    options: DisplayOptions,
    mirrors: &M,
    chars: &[LineChar],
    out: &mut Vec<T::Unit>,
) -> Result<(), AllocError>
    ensures { OnOk result (out.new.items
        ≡ out.old.items ++ flat_map T.encode (displayed_part options (M.mirrored_of mirrors.now) chars.now)) }
{
    for c in chars {
        if !options.dropped.drops(c) {
            T::push_char(displayed_char(mirrors, c), out)?;
        }
    }
    Ok(())
}

/// Appends the indexes of the displayed characters of a line from left to right. Its first character has the index
/// `first`.
///
/// Takes time linear in the line. If an allocation fails, `out` may have some of them.
pub(crate) fn push_order(
    line: &DisplayedLine,
    first: usize,
    out: &mut Vec<usize>,
) -> Result<(), AllocError>
    requires { first + length (chars_in line.now) ≤ usize.MAX }
    ensures { OnOk result (out.new.items
        ≡ out.old.items ++ shown_order (options_of line.now) first (chars_in line.now) (clusters_in line.now)) }
{
    let options = line.options();
    out.reserve(line.chars().len())?;
    for index in line.order() {
        let cluster = line.clusters()[*index];
        let chars = &line.chars()[cluster.chars_start..cluster.chars_end];
        push_indexes(options, first + cluster.chars_start, chars, out)?;
    }
    Ok(())
}

/// Appends the code units of the displayed characters of a line from left to right, mirrored at odd levels (L4).
///
/// Takes time linear in the line. If an allocation fails, `out` may have some of them.
pub(crate) fn push_line_text<'t, T: DisplayText<'t>, M: MirroredCharacters>(
    line: &DisplayedLine,
    mirrors: &M,
    out: &mut Vec<T::Unit>,
) -> Result<(), AllocError>
    ensures { OnOk result (out.new.items
        ≡ out.old.items ++ flat_map T.encode (displayed_text (M.mirrored_of mirrors.now) line.now)) }
{
    let options = line.options();
    out.reserve(line.chars().len())?;
    for index in line.order() {
        let cluster = line.clusters()[*index];
        let chars = &line.chars()[cluster.chars_start..cluster.chars_end];
        push_units::<T, M>(options, mirrors, chars, out)?;
    }
    Ok(())
}

/// Returns the displayed characters of a line from left to right. Takes time linear in the line.
pub(crate) fn shown_of<'t, T: DisplayText<'t>, M: MirroredCharacters>(
    alloc: Global,
    line: &DisplayedLine,
    mirrors: &M,
) -> Result<Shown<T::Unit>, AllocError>
    ensures order { IfOk result (λ s. s.order.items ≡ shown_order (options_of line.now) 0 (chars_in line.now) (clusters_in line.now)) }
    ensures text { IfOk result (λ s. s.text.items ≡ flat_map T.encode (displayed_text (M.mirrored_of mirrors.now) line.now)) }
{
    let mut order = Vec::new(alloc);
    let mut text = Vec::new(alloc);
    push_order(line, 0, &mut order)?;
    push_line_text::<T, M>(line, mirrors, &mut text)?;
    Ok(Shown { order, text })
}

/// The place of a character that is not displayed.
const NOWHERE: usize = usize::MAX;

/// Writes the place of each character in an order: the index of its first entry there, or `usize::MAX` if there is none.
///
/// An entry that is no index of `out` is passed over. Takes time linear in both lists, and does not allocate.
pub fn write_places(order: &[usize], out: &mut [usize])
    ensures { out.new ≡ places_of order.now (length out.old) }
{
    out.fill(NOWHERE);
    for k in 0..order.len() {
        let at = order.len() - 1 - k;
        let index = order[at];
        if index < out.len() {
            out[index] = at;
        }
    }
}
