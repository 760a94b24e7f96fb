//! The exports of displayed lines and displayed texts.
use bidi_calls::buffers::Settings;
use bidi_calls::display_buffers::DisplayBuffers;
use bidi_calls::display_line::display_line;
use bidi_calls::line::CallerLine;
use bidi_calls::whole_text::display_text;
use bidi_numbers::fault::answer;
use bidi_numbers::structs::Paragraph;
use bidi_numbers::utf32_text::Utf32Text;
use bidi_unicode::UnicodeData;
use std::alloc::Global;
use unicode_bidi::text::{StrText, Utf16Text};

#[unsafe(no_mangle)]
pub extern "C" fn unicode_bidi_display_line_utf8(
    alloc: Global,
    text: &[u8],
    classes: &[u8],
    levels: &[u8],
    paragraph: &Paragraph,
    start: usize,
    end: usize,
    flags: u32,
    out: &mut [u8],
    order: &mut [usize],
    places: &mut [usize],
    shown: &mut usize,
    characters: &mut usize,
) -> i64 {
    let line = &CallerLine {
        classes,
        levels,
        paragraph,
        start,
        end,
    };
    let mut buffers = DisplayBuffers {
        text: out,
        order,
        places,
        shown,
        characters,
    };
    answer(display_line::<StrText>(alloc, text, line, flags, &mut buffers))
}

#[unsafe(no_mangle)]
pub extern "C" fn unicode_bidi_display_line_utf16(
    alloc: Global,
    text: &[u16],
    classes: &[u8],
    levels: &[u8],
    paragraph: &Paragraph,
    start: usize,
    end: usize,
    flags: u32,
    out: &mut [u16],
    order: &mut [usize],
    places: &mut [usize],
    shown: &mut usize,
    characters: &mut usize,
) -> i64 {
    let line = &CallerLine {
        classes,
        levels,
        paragraph,
        start,
        end,
    };
    let mut buffers = DisplayBuffers {
        text: out,
        order,
        places,
        shown,
        characters,
    };
    answer(display_line::<Utf16Text>(alloc, text, line, flags, &mut buffers))
}

#[unsafe(no_mangle)]
pub extern "C" fn unicode_bidi_display_line_utf32(
    alloc: Global,
    text: &[u32],
    classes: &[u8],
    levels: &[u8],
    paragraph: &Paragraph,
    start: usize,
    end: usize,
    flags: u32,
    out: &mut [u32],
    order: &mut [usize],
    places: &mut [usize],
    shown: &mut usize,
    characters: &mut usize,
) -> i64 {
    let line = &CallerLine {
        classes,
        levels,
        paragraph,
        start,
        end,
    };
    let mut buffers = DisplayBuffers {
        text: out,
        order,
        places,
        shown,
        characters,
    };
    answer(display_line::<Utf32Text>(alloc, text, line, flags, &mut buffers))
}

#[unsafe(no_mangle)]
pub extern "C" fn unicode_bidi_display_text_utf8(
    alloc: Global,
    text: &[u8],
    base: u8,
    split: u8,
    flags: u32,
    levels: &mut [u8],
    out: &mut [u8],
    order: &mut [usize],
    places: &mut [usize],
    shown: &mut usize,
    characters: &mut usize,
) -> i64 {
    let settings = Settings { base, split };
    let mut buffers = DisplayBuffers {
        text: out,
        order,
        places,
        shown,
        characters,
    };
    answer(display_text::<StrText, _>(
        alloc,
        &UnicodeData,
        text,
        settings,
        flags,
        levels,
        &mut buffers,
    ))
}

#[unsafe(no_mangle)]
pub extern "C" fn unicode_bidi_display_text_utf16(
    alloc: Global,
    text: &[u16],
    base: u8,
    split: u8,
    flags: u32,
    levels: &mut [u8],
    out: &mut [u16],
    order: &mut [usize],
    places: &mut [usize],
    shown: &mut usize,
    characters: &mut usize,
) -> i64 {
    let settings = Settings { base, split };
    let mut buffers = DisplayBuffers {
        text: out,
        order,
        places,
        shown,
        characters,
    };
    answer(display_text::<Utf16Text, _>(
        alloc,
        &UnicodeData,
        text,
        settings,
        flags,
        levels,
        &mut buffers,
    ))
}

#[unsafe(no_mangle)]
pub extern "C" fn unicode_bidi_display_text_utf32(
    alloc: Global,
    text: &[u32],
    base: u8,
    split: u8,
    flags: u32,
    levels: &mut [u8],
    out: &mut [u32],
    order: &mut [usize],
    places: &mut [usize],
    shown: &mut usize,
    characters: &mut usize,
) -> i64 {
    let settings = Settings { base, split };
    let mut buffers = DisplayBuffers {
        text: out,
        order,
        places,
        shown,
        characters,
    };
    answer(display_text::<Utf32Text, _>(
        alloc,
        &UnicodeData,
        text,
        settings,
        flags,
        levels,
        &mut buffers,
    ))
}
