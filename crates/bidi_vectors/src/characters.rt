//! Rows of characters and of classes: what a source returns for a character, and which classes are in a group.

use bidi_base::char_data::BidiClass::{L, R};
use bidi_base::char_data::{BidiClass, is_rtl};
use bidi_base::classes::{
    as_direction, is_blank, is_embedding_initiator, is_isolate_initiator, is_ni, is_nsm,
    is_paragraph_separator, is_pdi, is_removed, is_separator, is_strong, may_turn, stands_for,
};
use bidi_base::data_source::BidiDataSource;
use bidi_base::format_chars;
use bidi_unicode::{UnicodeData, mirrored};
use bidi_vectors_format::answer::{char_words, class_words};
use bidi_vectors_format::class::classes;
use bidi_vectors_format::fault::{RowFault, Why};
use bidi_vectors_format::row::Row;
use bidi_vectors_format::source::Tables;
use bidi_vectors_format::tally::Tally;
use bidi_vectors_format::text::{RowText, char_of};
use std::alloc::Global;

// Returns the bracket of a character as text: `opens` or `closes` with its pair's opening bracket, or `none`.
fn bracket_words<D: BidiDataSource>(
    alloc: Global,
    source: &D,
    c: char,
) -> Result<String, RowFault> {
    let Some(bracket) = source.bidi_matched_opening_bracket(c) else {
        return Ok(String::from_str(alloc, "none")?);
    };
    let opening = char_words(alloc, &[bracket.opening])?;
    let opening = opening.as_str();
    let kind = if bracket.is_open { "opens" } else { "closes" };
    Ok(format!(in alloc; "{kind} {opening}")?)
}

// Returns the character of a row.
fn char_field(row: &Row<'_>) -> Result<char, RowFault> {
    let field = row.field("character")?;
    char_of(field.value, field.line)
}

// Compares what a source returns for a character with a row.
fn check_source<D: BidiDataSource>(
    alloc: Global,
    source: &D,
    c: char,
    row: &Row<'_>,
    tally: &mut Tally,
    calls: [&'static str; 2],
) {
    let words = class_words(alloc, &[source.bidi_class(c)]);
    tally.agree(row, "class", calls[0], words);
    tally.agree(row, "bracket", calls[1], bracket_words(alloc, source, c));
}

/// Runs a row of a character over a table: its class and its bracket.
pub fn run_character(
    alloc: Global,
    tables: &Tables,
    row: &Row<'_>,
    tally: &mut Tally,
) -> Result<(), RowFault> {
    row.has_only(&["character", "source", "class", "bracket"])?;
    let source = tables.source(row.line)?;
    let calls = [
        "TableBidiData::bidi_class",
        "TableBidiData::bidi_matched_opening_bracket",
    ];
    check_source(alloc, &source, char_field(row)?, row, tally, calls);
    Ok(())
}

// Returns the partner of a mirrored character, or `none`.
fn partner_words(alloc: Global, c: char) -> Result<String, RowFault> {
    match mirrored(c) {
        Some(partner) => char_words(alloc, &[partner]),
        None => Ok(String::from_str(alloc, "none")?),
    }
}

/// Runs a row of a character over Unicode's data: its class, its bracket, and its mirrored character.
pub fn run_unicode(alloc: Global, row: &Row<'_>, tally: &mut Tally) -> Result<(), RowFault> {
    row.has_only(&["character", "class", "bracket", "mirrored"])?;
    let calls = [
        "UnicodeData::bidi_class",
        "UnicodeData::bidi_matched_opening_bracket",
    ];
    let c = char_field(row)?;
    check_source(alloc, &UnicodeData, c, row, tally, calls);
    tally.agree(
        row,
        "mirrored",
        "bidi_unicode::mirrored",
        partner_words(alloc, c),
    );
    Ok(())
}

// Returns the classes of characters by Unicode's data, as words.
fn unicode_classes(alloc: Global, chars: &[char]) -> Result<String, RowFault> {
    let mut classes = Vec::new(alloc);
    for c in chars {
        classes.push(UnicodeData.bidi_class(*c))?;
    }
    class_words(alloc, classes.as_slice())
}

// Returns the brackets of characters by Unicode's data, as words.
fn unicode_brackets(alloc: Global, chars: &[char]) -> Result<String, RowFault> {
    let mut words = String::new(alloc);
    for c in chars {
        if !words.is_empty() {
            words.push(' ')?;
        }
        let bracket = bracket_words(alloc, &UnicodeData, *c)?;
        words.push_str(bracket.as_str())?;
    }
    Ok(words)
}

/// Runs a row of a text over Unicode's data: the classes and the brackets of its characters.
pub fn run_unicode_text(alloc: Global, row: &Row<'_>, tally: &mut Tally) -> Result<(), RowFault> {
    row.has_only(&["text", "classes", "brackets"])?;
    let text = RowText::by_characters(alloc, row.field("text")?)?;
    let chars = text.chars.as_slice();
    let words = unicode_classes(alloc, chars);
    tally.agree(row, "classes", "UnicodeData::bidi_class", words);
    let call = "UnicodeData::bidi_matched_opening_bracket";
    tally.agree(row, "brackets", call, unicode_brackets(alloc, chars));
    Ok(())
}

/// The format characters and their names.
#[rattlefmt::skip]
static FORMAT_CHARS: [(&str, char); 12] = [
    ("ALM", format_chars::ALM), ("LRM", format_chars::LRM), ("RLM", format_chars::RLM), ("LRE", format_chars::LRE),
    ("RLE", format_chars::RLE), ("PDF", format_chars::PDF), ("LRO", format_chars::LRO), ("RLO", format_chars::RLO),
    ("LRI", format_chars::LRI), ("RLI", format_chars::RLI), ("FSI", format_chars::FSI), ("PDI", format_chars::PDI),
];

fn format_chars() -> &'static [(&'static str, char)] {
    FORMAT_CHARS.as_slice()
}

/// Runs a row that names a format character: its code point, and its class over a table.
pub fn run_format(
    alloc: Global,
    tables: &Tables,
    row: &Row<'_>,
    tally: &mut Tally,
) -> Result<(), RowFault> {
    row.has_only(&["character", "source", "class"])?;
    let source = tables.source(row.line)?;
    for (name, c) in format_chars() {
        if *name == row.name {
            tally.agree(row, "character", "format_chars", char_words(alloc, &[*c]));
            let words = class_words(alloc, &[source.bidi_class(*c)]);
            tally.agree(row, "class", "TableBidiData::bidi_class", words);
        }
    }
    Ok(())
}

// Returns whether the test with this name finds a class, or `None` if there is no such test.
fn is_in_group(test: &str, class: BidiClass) -> Option<bool> {
    let is_in = match test {
        "is_strong" => is_strong(class),
        "is_initiator" => is_isolate_initiator(class),
        "is_embedding" => is_embedding_initiator(class),
        "is_pdi" => is_pdi(class),
        "is_nsm" => is_nsm(class),
        "is_paragraph_separator" => is_paragraph_separator(class),
        "is_separator" => is_separator(class),
        "is_removed" => is_removed(class),
        "is_blank" => is_blank(class),
        "is_neutral" => is_ni(class),
        "may_turn" => may_turn(class),
        "is_rtl" => is_rtl(class),
        _ => return is_in_direction(test, class),
    };
    Some(is_in)
}

// Like `is_in_group`, for the groups by the direction of a class in N0 and N1, or by X9.
fn is_in_direction(test: &str, class: BidiClass) -> Option<bool> {
    let is_in = match test {
        "stands_for L" => stands_for(class, L),
        "as_direction L" => as_direction(class) == Some(L),
        "stands_for R" => stands_for(class, R),
        "as_direction R" => as_direction(class) == Some(R),
        "as_direction" => as_direction(class).is_some(),
        "removed_by_x9" => unicode_bidi::prepare::removed_by_x9(class),
        "not_removed_by_x9" => unicode_bidi::prepare::not_removed_by_x9(&class),
        _ => return None,
    };
    Some(is_in)
}

/// Runs a row that names a test of classes: the classes that pass it, in order.
pub fn run_group(alloc: Global, row: &Row<'_>, tally: &mut Tally) -> Result<(), RowFault> {
    row.has_only(&["test", "classes"])?;
    let test = row.field("test")?;
    let mut group = Vec::new(alloc);
    for (_, class, _) in classes() {
        match is_in_group(test.value, *class) {
            Some(true) => group.push(*class)?,
            Some(false) => {}
            None => return Err(RowFault::Line(test.line, Why::Test)),
        }
    }
    let words = class_words(alloc, group.as_slice());
    tally.agree(row, "classes", "tests of classes", words);
    Ok(())
}
