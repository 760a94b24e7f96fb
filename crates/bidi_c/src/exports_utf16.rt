//! The exports over texts of UTF-16.
use bidi_calls::analysis::{analyse, base_direction};
use bidi_calls::buffers::{AnalysisBuffers, LineBuffers, Settings};
use bidi_calls::by_tables;
use bidi_calls::line::CallerLine;
use bidi_calls::line_text::{line_map, reorder_line};
use bidi_calls::show::show_line;
use bidi_numbers::fault::answer;
use bidi_numbers::structs::{BracketPair, ClassRange, Paragraph, Run};
use bidi_unicode::UnicodeData;
use std::alloc::Global;
use unicode_bidi::text::Utf16Text;

#[unsafe(no_mangle)]
pub extern "C" fn unicode_bidi_analyse_utf16(
    alloc: Global,
    text: &[u16],
    base: u8,
    split: u8,
    classes: &mut [u8],
    levels: &mut [u8],
    paragraphs: &mut [Paragraph],
) -> i64 {
    let settings = Settings { base, split };
    let mut out = AnalysisBuffers {
        classes,
        levels,
        paragraphs,
    };
    answer(analyse::<Utf16Text, _>(alloc, &UnicodeData, text, settings, &mut out))
}

#[unsafe(no_mangle)]
pub extern "C" fn unicode_bidi_base_direction_utf16(text: &[u16], full: u8) -> i64 {
    answer(base_direction::<Utf16Text, _>(&UnicodeData, text, full != 0))
}

#[unsafe(no_mangle)]
pub extern "C" fn unicode_bidi_analyse_by_tables_utf16(
    alloc: Global,
    ranges: &[ClassRange],
    brackets: &[BracketPair],
    text: &[u16],
    base: u8,
    split: u8,
    classes: &mut [u8],
    levels: &mut [u8],
    paragraphs: &mut [Paragraph],
) -> i64 {
    let settings = Settings { base, split };
    let mut out = AnalysisBuffers {
        classes,
        levels,
        paragraphs,
    };
    answer(by_tables::analyse::<Utf16Text>(alloc, ranges, brackets, text, settings, &mut out))
}

#[unsafe(no_mangle)]
pub extern "C" fn unicode_bidi_base_direction_by_tables_utf16(
    alloc: Global,
    ranges: &[ClassRange],
    brackets: &[BracketPair],
    text: &[u16],
    full: u8,
) -> i64 {
    answer(by_tables::base_direction::<Utf16Text>(alloc, ranges, brackets, text, full != 0))
}

#[unsafe(no_mangle)]
pub extern "C" fn unicode_bidi_line_map_utf16(
    alloc: Global,
    text: &[u16],
    classes: &[u8],
    levels: &[u8],
    paragraph: &Paragraph,
    start: usize,
    end: usize,
    order: &mut [usize],
) -> i64 {
    let line = &CallerLine {
        classes,
        levels,
        paragraph,
        start,
        end,
    };
    answer(line_map::<Utf16Text>(alloc, text, line, order))
}

#[unsafe(no_mangle)]
pub extern "C" fn unicode_bidi_reorder_line_utf16(
    alloc: Global,
    text: &[u16],
    classes: &[u8],
    levels: &[u8],
    paragraph: &Paragraph,
    start: usize,
    end: usize,
    out: &mut [u16],
) -> i64 {
    let line = &CallerLine {
        classes,
        levels,
        paragraph,
        start,
        end,
    };
    answer(reorder_line::<Utf16Text>(alloc, text, line, out))
}

#[unsafe(no_mangle)]
pub extern "C" fn unicode_bidi_show_line_utf16(
    alloc: Global,
    text: &[u16],
    classes: &[u8],
    levels: &[u8],
    paragraph: &Paragraph,
    start: usize,
    end: usize,
    line_levels: &mut [u8],
    runs: &mut [Run],
    order: &mut [usize],
    out: &mut [u16],
    characters: &mut usize,
) -> i64 {
    let line = &CallerLine {
        classes,
        levels,
        paragraph,
        start,
        end,
    };
    let mut buffers = LineBuffers {
        levels: line_levels,
        runs,
        order,
        text: out,
        characters,
    };
    answer(show_line::<Utf16Text>(alloc, text, line, &mut buffers))
}
