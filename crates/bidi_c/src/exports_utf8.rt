//! The exports over texts of UTF-8.
use bidi_calls::analysis::{analyse, base_direction};
use bidi_calls::buffers::{AnalysisBuffers, LineBuffers, Settings};
use bidi_calls::by_tables;
use bidi_calls::line::CallerLine;
use bidi_calls::line_text::{line_map, reorder_line};
use bidi_calls::show::show_line;
use bidi_numbers::fault::answer;
use bidi_numbers::structs::{BracketPair, ClassRange, Paragraph, Run};
use bidi_unicode::UnicodeData;
use std::alloc::Global;
use unicode_bidi::text::StrText;

#[unsafe(no_mangle)]
pub extern "C" fn unicode_bidi_analyse_utf8(
    alloc: Global,
    text: &[u8],
    base: u8,
    split: u8,
    classes: &mut [u8],
    levels: &mut [u8],
    paragraphs: &mut [Paragraph],
) -> i64 {
    let settings = Settings { base, split };
    let mut out = AnalysisBuffers {
        classes,
        levels,
        paragraphs,
    };
    answer(analyse::<StrText, _>(alloc, &UnicodeData, text, settings, &mut out))
}

#[unsafe(no_mangle)]
pub extern "C" fn unicode_bidi_base_direction_utf8(text: &[u8], full: u8) -> i64 {
    answer(base_direction::<StrText, _>(&UnicodeData, text, full != 0))
}

#[unsafe(no_mangle)]
pub extern "C" fn unicode_bidi_analyse_by_tables_utf8(
    alloc: Global,
    ranges: &[ClassRange],
    brackets: &[BracketPair],
    text: &[u8],
    base: u8,
    split: u8,
    classes: &mut [u8],
    levels: &mut [u8],
    paragraphs: &mut [Paragraph],
) -> i64 {
    let settings = Settings { base, split };
    let mut out = AnalysisBuffers {
        classes,
        levels,
        paragraphs,
    };
    answer(by_tables::analyse::<StrText>(alloc, ranges, brackets, text, settings, &mut out))
}

#[unsafe(no_mangle)]
pub extern "C" fn unicode_bidi_base_direction_by_tables_utf8(
    alloc: Global,
    ranges: &[ClassRange],
    brackets: &[BracketPair],
    text: &[u8],
    full: u8,
) -> i64 {
    answer(by_tables::base_direction::<StrText>(alloc, ranges, brackets, text, full != 0))
}

#[unsafe(no_mangle)]
pub extern "C" fn unicode_bidi_line_map_utf8(
    alloc: Global,
    text: &[u8],
    classes: &[u8],
    levels: &[u8],
    paragraph: &Paragraph,
    start: usize,
    end: usize,
    order: &mut [usize],
) -> i64 {
    let line = &CallerLine {
        classes,
        levels,
        paragraph,
        start,
        end,
    };
    answer(line_map::<StrText>(alloc, text, line, order))
}

#[unsafe(no_mangle)]
pub extern "C" fn unicode_bidi_reorder_line_utf8(
    alloc: Global,
    text: &[u8],
    classes: &[u8],
    levels: &[u8],
    paragraph: &Paragraph,
    start: usize,
    end: usize,
    out: &mut [u8],
) -> i64 {
    let line = &CallerLine {
        classes,
        levels,
        paragraph,
        start,
        end,
    };
    answer(reorder_line::<StrText>(alloc, text, line, out))
}

#[unsafe(no_mangle)]
pub extern "C" fn unicode_bidi_show_line_utf8(
    alloc: Global,
    text: &[u8],
    classes: &[u8],
    levels: &[u8],
    paragraph: &Paragraph,
    start: usize,
    end: usize,
    line_levels: &mut [u8],
    runs: &mut [Run],
    order: &mut [usize],
    out: &mut [u8],
    characters: &mut usize,
) -> i64 {
    let line = &CallerLine {
        classes,
        levels,
        paragraph,
        start,
        end,
    };
    let mut buffers = LineBuffers {
        levels: line_levels,
        runs,
        order,
        text: out,
        characters,
    };
    answer(show_line::<StrText>(alloc, text, line, &mut buffers))
}
