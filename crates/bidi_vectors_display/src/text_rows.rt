//! Rows of displayed texts: their paragraphs, and their characters from left to right.

ghost use Rattle.std.specs.Prelude.{IfOk};
ghost use Rattle.unicode_bidi.specs.Base.{HasLowLevel};

use crate::row_options::options;
use bidi_base::level::Level;
use bidi_display::text_display::TextDisplay;
use bidi_text::text::{CharsText, StrText, TextSource, Utf16Text};
use bidi_unicode::UnicodeData;
use bidi_vectors_format::answer::{char_words, index_at, paragraph_words, places_of};
use bidi_vectors_format::base::base_of;
use bidi_vectors_format::fault::{RowFault, Why};
use bidi_vectors_format::item::level_of;
use bidi_vectors_format::row::Row;
use bidi_vectors_format::tally::Tally;
use bidi_vectors_format::text::RowText;
use std::alloc::Global;
use unicode_bidi::{Base, SplitRule};

// Returns where the paragraphs of a row end.
fn rule_of(row: &Row<'_>) -> Result<SplitRule, RowFault> {
    let Some(field) = row.get("split") else {
        return Ok(SplitRule::EachSeparator);
    };
    match field.value {
        "each-separator" => Ok(SplitRule::EachSeparator),
        "cr-lf-together" => Ok(SplitRule::CrLfTogether),
        _ => Err(RowFault::Line(field.line, Why::Split)),
    }
}

// Returns the base of a row: its fallback, or else its base level.
fn any_base_of(row: &Row<'_>) -> Result<Base, RowFault>
    ensures { IfOk result HasLowLevel }
{
    let Some(field) = row.get("fallback") else {
        return match base_of(row)? {
            Some(level) => Ok(Base::Level(level)),
            None => Ok(Base::Auto),
        };
    };
    let level = level_of(field.value, field.line)?;
    match Level::new_explicit(level.number()) {
        Ok(level) => Ok(Base::AutoOr(level)),
        Err(_) => Err(RowFault::Line(field.line, Why::ExplicitLevel)),
    }
}

// Returns the paragraphs of a text, in characters.
fn paragraphs_in<T: TextSource>(
    alloc: Global,
    text: T,
    display: &TextDisplay,
) -> Result<String, RowFault> {
    let places = places_of(alloc, text)?;
    let mut found = Vec::new(alloc);
    for paragraph in display.paragraphs() {
        let range = paragraph.range();
        let start = index_at(places.as_slice(), range.start);
        let end = index_at(places.as_slice(), range.end);
        found.push((start, end, paragraph.level().number()))?;
    }
    paragraph_words(alloc, found.as_slice())
}

// Returns the displayed characters of a row's text from left to right.
fn displayed_words<T: TextSource>(
    alloc: Global,
    text: T,
    row: &Row<'_>,
    display: &mut TextDisplay,
) -> Result<String, RowFault> {
    let (base, rule) = (any_base_of(row)?, rule_of(row)?);
    let mut out = String::new(alloc);
    display.display(
        alloc,
        &UnicodeData,
        text,
        base,
        rule,
        &UnicodeData,
        &mut out,
    )?;
    let chars: Vec<char> = out.as_str().chars().collect(alloc)?;
    char_words(alloc, chars.as_slice())
}

// Compares the text of a row in its encoding.
fn check_in<T: TextSource>(
    alloc: Global,
    text: T,
    row: &Row<'_>,
    display: &mut TextDisplay,
    tally: &mut Tally,
) {
    let words = displayed_words(alloc, text, row, display);
    tally.agree(row, "shown", "TextDisplay::display", words);
    let words = paragraphs_in(alloc, text, display);
    tally.agree(row, "paragraphs", "TextDisplay::paragraphs", words);
}

/// Runs a row of a displayed text, in each encoding that can have it. One value displays all of them.
pub fn run(alloc: Global, row: &Row<'_>, tally: &mut Tally) -> Result<(), RowFault> {
    row.has_only(&[
        "text",
        "base",
        "fallback",
        "split",
        "moves",
        "dropped",
        "tab",
        "shown",
        "paragraphs",
    ])?;
    let text = RowText::of_row(alloc, row)?;
    let mut display = TextDisplay::new(alloc, options(row)?);
    if text.is_unicode {
        check_in(
            alloc,
            StrText::new(text.utf8.as_str()),
            row,
            &mut display,
            tally,
        );
        check_in(
            alloc,
            CharsText::new(text.chars.as_slice()),
            row,
            &mut display,
            tally,
        );
    }
    check_in(
        alloc,
        Utf16Text::new(text.utf16.as_slice()),
        row,
        &mut display,
        tally,
    );
    Ok(())
}
