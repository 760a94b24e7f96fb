//! The exports over a text that find its paragraphs, and no levels of its characters.
use bidi_calls::buffers::{ParagraphBuffers, Settings};
use bidi_calls::paragraph_search::find_paragraphs;
use bidi_numbers::fault::answer;
use bidi_numbers::structs::Paragraph;
use bidi_numbers::utf32_text::Utf32Text;
use bidi_unicode::UnicodeData;
use std::alloc::Global;
use unicode_bidi::text::{StrText, Utf16Text};

#[unsafe(no_mangle)]
pub extern "C" fn unicode_bidi_paragraphs_utf8(
    alloc: Global,
    text: &[u8],
    base: u8,
    split: u8,
    classes: &mut [u8],
    paragraphs: &mut [Paragraph],
) -> i64 {
    let settings = Settings { base, split };
    let mut out = ParagraphBuffers {
        classes,
        paragraphs,
    };
    answer(find_paragraphs::<StrText, _>(alloc, &UnicodeData, text, settings, &mut out))
}

#[unsafe(no_mangle)]
pub extern "C" fn unicode_bidi_paragraphs_utf16(
    alloc: Global,
    text: &[u16],
    base: u8,
    split: u8,
    classes: &mut [u8],
    paragraphs: &mut [Paragraph],
) -> i64 {
    let settings = Settings { base, split };
    let mut out = ParagraphBuffers {
        classes,
        paragraphs,
    };
    answer(find_paragraphs::<Utf16Text, _>(alloc, &UnicodeData, text, settings, &mut out))
}

#[unsafe(no_mangle)]
pub extern "C" fn unicode_bidi_paragraphs_utf32(
    alloc: Global,
    text: &[u32],
    base: u8,
    split: u8,
    classes: &mut [u8],
    paragraphs: &mut [Paragraph],
) -> i64 {
    let settings = Settings { base, split };
    let mut out = ParagraphBuffers {
        classes,
        paragraphs,
    };
    answer(find_paragraphs::<Utf32Text, _>(alloc, &UnicodeData, text, settings, &mut out))
}
