//! The order of a line from its classes and levels alone, without its text.
ghost use Rattle.std.specs.Prelude.{◌≡◌, ◌-◌, ◌<◌, length, IfOk, OnErr, OnOk};
ghost use Rattle.std.specs.Option.{option_or};
ghost use Rattle.bidi_calls.specs.Buffers.{written_if_room};
ghost use Rattle.bidi_calls.specs.CallerLine.{line_fault, IsValid};
ghost use Rattle.bidi_calls.specs.Flags.{options_by as options_of_flags};
ghost use Rattle.bidi_calls.specs.LineOrder.{order_by_classes, order_room_fault};
ghost use Rattle.bidi_calls.specs.ShownOrder.{places_of};
ghost use Rattle.bidi_numbers.specs.Faults.{FaultsAs};

use crate::display_line::{classes_of, displayed_of, put, put_places};
use crate::flags::options_by;
use crate::line::CallerLine;
use crate::shown::push_order;
use bidi_display::options::DisplayOptions;
use bidi_numbers::fault::{Fault, check, check_room_or_none};
use std::alloc::{AllocError, Global};
use unicode_bidi::text::ClassText;

// Returns the order of a line's characters from left to right (L1 to L3), as their indexes in the line.
fn order_of(
    alloc: Global,
    line: &CallerLine<'_>,
    options: DisplayOptions,
) -> Result<Vec<usize>, AllocError>
    requires { IsValid line.now }
    ensures { IfOk result (λ order. order.items ≡ order_by_classes line.now options) }
{
    let classes = classes_of(alloc, line.class_numbers())?;
    let text = ClassText::new(classes.as_slice(), &[]);
    let displayed = displayed_of(alloc, text, classes.as_slice(), line, options)?;
    let mut order = Vec::new(alloc);
    push_order(&displayed, 0, &mut order)?;
    Ok(order)
}

/// Writes the order of a line's characters from left to right (L1 to L3), and their places, from their classes and levels.
///
/// There is one class and one level for each character. `order` gets the index in the line of the character at each visual
/// index, and `places` the visual index of each character. Writes each to its buffer, unless that buffer is empty, and
/// returns the number of entries of the order. With `flags` 0 each character moves by itself, and with 1 the nonspacing marks (NSM)
/// that follow a character at its level stay behind it. The faults are those of
/// [`line_levels`](crate::line::line_levels), with `BadFlags` before `NoRoom`, and `NoRoom` if a buffer is too short and
/// not empty. Writes nothing after a fault. Takes the time of [`display_line`](crate::display_line::display_line).
pub fn line_order(
    alloc: Global,
    line: &CallerLine<'_>,
    flags: u32,
    order: &mut [usize],
    places: &mut [usize],
) -> Result<usize, Fault>
    ensures fault { FaultsAs result (option_or (line_fault line.now)
        (order_room_fault line.now flags (length order.old) (length places.old))) }
    ensures order { OnOk result (order.new ≡ written_if_room (order_by_classes line.now (options_of_flags flags)) order.old) }
    ensures places { OnOk result (places.new
        ≡ written_if_room (places_of (order_by_classes line.now (options_of_flags flags)) (line.now.end - line.now.start))
        places.old) }
    ensures unchanged { OnErr result (order.new ≡ order.old) }
    ensures unchanged_places { OnErr result (places.new ≡ places.old) }
    ensures count { IfOk result (λ count. count ≡ length (order_by_classes line.now (options_of_flags flags))) }
{
    line.check()?;
    // Clusters need a text, and nothing is mirrored or dropped. So the next call finds no fault.
    check(flags < 2, Fault::BadFlags)?;
    let options = options_by(flags)?;
    let found = order_of(alloc, line, options)?;
    let shown = found.as_slice();
    let count = line.end - line.start;
    check_room_or_none(shown.len(), order.len())?;
    check_room_or_none(count, places.len())?;
    put(shown, order);
    put_places(shown, count, places);
    Ok(shown.len())
}
