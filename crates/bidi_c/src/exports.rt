//! The exports over a line.
use bidi_calls::line::{CallerLine, line_levels, line_runs, visual_order};
use bidi_calls::line_order::line_order;
use bidi_calls::shown::write_places;
use bidi_numbers::fault::answer;
use bidi_numbers::structs::{Paragraph, Run};
use std::alloc::Global;

#[unsafe(no_mangle)]
pub extern "C" fn unicode_bidi_line_levels(
    alloc: Global,
    classes: &[u8],
    levels: &[u8],
    paragraph: &Paragraph,
    start: usize,
    end: usize,
    out: &mut [u8],
) -> i64 {
    let line = &CallerLine {
        classes,
        levels,
        paragraph,
        start,
        end,
    };
    answer(line_levels(alloc, line, out))
}

#[unsafe(no_mangle)]
pub extern "C" fn unicode_bidi_line_runs(
    alloc: Global,
    classes: &[u8],
    levels: &[u8],
    paragraph: &Paragraph,
    start: usize,
    end: usize,
    runs: &mut [Run],
) -> i64 {
    let line = &CallerLine {
        classes,
        levels,
        paragraph,
        start,
        end,
    };
    answer(line_runs(alloc, line, runs))
}

#[unsafe(no_mangle)]
pub extern "C" fn unicode_bidi_reorder_visual(levels: &[u8], order: &mut [usize]) -> i64 {
    answer(visual_order(levels, order))
}

#[unsafe(no_mangle)]
pub extern "C" fn unicode_bidi_line_order(
    alloc: Global,
    classes: &[u8],
    levels: &[u8],
    paragraph: &Paragraph,
    start: usize,
    end: usize,
    flags: u32,
    order: &mut [usize],
    places: &mut [usize],
) -> i64 {
    let line = &CallerLine {
        classes,
        levels,
        paragraph,
        start,
        end,
    };
    answer(line_order(alloc, line, flags, order, places))
}

#[unsafe(no_mangle)]
pub extern "C" fn unicode_bidi_places(order: &[usize], places: &mut [usize]) -> i64 {
    write_places(order, places);
    answer(Ok(places.len()))
}
