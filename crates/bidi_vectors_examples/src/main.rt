//! Prints lines of a text by a table of classes and brackets.
#![tactic(auto)]

mod any_encoding;
mod callers;
mod class_levels;
mod cursor;
mod displayed;
mod fallback;
mod messages;
mod overridden;
mod real;
mod runs;
mod wrapped;

use bidi_unicode::UnicodeData;
use callers::{mirrored_line, visual_runs};
use std::io;
use std::ops::Range;
use unicode_bidi::char_data::BidiClass::{self, B, EN, L, ON, R, WS};
use unicode_bidi::data_source::TableBidiData;
use unicode_bidi::text::{BRACKET_OPENS, StrText, is_line};
use unicode_bidi::{BidiInfo, utf16};

// Ranges of characters and their classes. Every other character has class L.
const RANGES: [(char, char, BidiClass); 5] = [
    ('\n', '\n', B),
    (' ', ' ', WS),
    ('(', ')', ON),
    ('0', '9', EN),
    ('א', 'ת', R),
];

// Each opening bracket and its closing one.
const BRACKETS: [(char, char, Option<char>); 1] = [('(', ')', None)];

// Prints each range that cuts no character, as a line of the paragraph that it begins in.
fn print_lines(
    rt: &(impl Print + AllocGlobal),
    info: &BidiInfo<'_>,
    lines: &[Range<usize>],
) -> io::Result<()> {
    for line in lines {
        let paragraph = info
            .paragraphs()
            .iter()
            .find(|paragraph| line.start < paragraph.range().end);
        let Some(paragraph) = paragraph else { continue };
        if is_line(StrText::new(info.text()), line) {
            let shown = info.reorder_line(rt.alloc(), paragraph, line.start..line.end)?;
            println!(rt; "{}", shown.as_str())?;
        }
    }
    Ok(())
}

// Prints the runs of each paragraph of a text, and its line with mirrored characters.
fn print_mirrored(rt: &(impl Print + AllocGlobal), text: &str) -> io::Result<()> {
    let info = BidiInfo::new_with_data_source(rt.alloc(), &UnicodeData, text, None)?;
    for paragraph in info.paragraphs() {
        for (run, level) in visual_runs(rt.alloc(), &info, paragraph, paragraph.range())? {
            println!(rt; "{level}: [{run}]")?;
        }
        let shown = mirrored_line(rt.alloc(), &info, paragraph, paragraph.range())?;
        println!(rt; "{shown}")?;
    }
    Ok(())
}

fn main(rt: HostRuntime) -> io::Result<()> {
    let Ok(source) = TableBidiData::new(&RANGES, &BRACKETS) else {
        return Ok(());
    };
    let text = "car (מכונית) 12\nאבג abc";
    let info = BidiInfo::new_with_data_source(rt.alloc(), &source, text, None)?;
    print_lines(&rt, &info, &[0..4, 4..21, 22..32])?;
    real::print_shown(&rt, "car (מכונית) 12")?;
    runs::print_runs(&rt, "car (מכונית) 12")?;
    let text = "car (מכונית) 12 אבג";
    let info = BidiInfo::new_with_data_source(rt.alloc(), &source, text, None)?;
    wrapped::write_wrapped(rt.alloc(), &mut io::writer(&rt), &info, 8)?;
    print_mirrored(&rt, "אבג (car) 12")?;
    let text = "שלום 👩‍👩‍👧 (abc) 12";
    let info = BidiInfo::new_with_data_source(rt.alloc(), &UnicodeData, text, None)?;
    displayed::write_displayed(rt.alloc(), &mut io::writer(&rt), &info, 8)?;
    cursor::print_carets(&rt, "abc אבג 123")?;
    let units = [0x61, 0x20, 0x5D0, 0x20, 0x62, 0x0A, 0x5D1];
    let info = utf16::BidiInfo::new_with_data_source(rt.alloc(), &UnicodeData, &units, None)?;
    let count = any_encoding::count_runs(rt.alloc(), &info)?;
    println!(rt; "{count} runs")?;
    messages::print_messages(&rt, &["שלום!", "12:30 ?", "hello (שלום)"])?;
    for message in ["שלום!", "12:30 ?", "hello ?"] {
        fallback::print_message(&rt, message)?;
    }
    overridden::print_path(&rt, "אבג/דהו")?;
    class_levels::print_levels(
        &rt,
        &[L, ON, R, ON, R],
        &[0, 0x28 + BRACKET_OPENS, 0, 0x28, 0],
    )?;
    callers::show_input(&rt)
}
