//! Tests of iterators over texts, from both ends and over bare lists of code units.

use crate::check::same;
use bidi_text::text::{
    CharsCharIndexIter, CharsCharIter, CharsIndexLenIter, CharsText, StrText, TextSource,
    Utf8IndexLenIter, Utf16CharIndexIter, Utf16CharIter, Utf16IndexLenIter, Utf16Text,
};
use std::alloc::AllocError;
use std::process::Abort;
use std::test::Fail;

// Four surrogates. Only the inner two are a pair.
const SURROGATES: [u16; 4] = [0xD800, 0xD800, 0xDC00, 0xDC00];

#[test]
fn characters_backwards(rt: HostRuntime) -> Result<(), Fail> {
    let text = Utf16Text::new(&SURROGATES);
    let backwards: Vec<char> = text.chars().rev().collect(rt.alloc())?;
    let wanted = ['\u{FFFD}', '\u{10000}', '\u{FFFD}'];
    same(&rt, "backwards", backwards.as_slice(), wanted.as_slice());
    Ok(())
}

#[test]
fn characters_from_both_ends(rt: HostRuntime) {
    let mut characters = Utf16CharIter::new(&SURROGATES);
    same(&rt, "first", characters.next(), Some('\u{FFFD}'));
    same(&rt, "last", characters.next_back(), Some('\u{FFFD}'));
    same(&rt, "inner", characters.next(), Some('\u{10000}'));
    same(&rt, "end", characters.next(), None);
    same(&rt, "start", characters.next_back(), None);
}

// Code units of UTF-16: a letter, a surrogate pair, and a letter.
const UNITS: [u16; 4] = [0x5D0, 0xD800, 0xDC00, 0x61];

fn check_places(rt: &(impl Abort + AllocGlobal)) -> Result<(), AllocError> {
    let places: Vec<(usize, char)> = Utf16CharIndexIter::new(&UNITS).collect(rt.alloc())?;
    let wanted = [(0, '\u{5D0}'), (1, '\u{10000}'), (3, 'a')];
    same(rt, "places", places.as_slice(), wanted.as_slice());
    Ok(())
}

fn check_lengths(rt: &(impl Abort + AllocGlobal)) -> Result<(), AllocError> {
    let lengths: Vec<(usize, usize)> = Utf16IndexLenIter::new(&UNITS).collect(rt.alloc())?;
    same(
        rt,
        "UTF-16",
        lengths.as_slice(),
        [(0, 1), (1, 2), (3, 1)].as_slice(),
    );
    Ok(())
}

fn check_utf8_lengths(rt: &(impl Abort + AllocGlobal)) -> Result<(), AllocError> {
    let walk = Utf8IndexLenIter::new("\u{5D0}a\u{202B}");
    let lengths: Vec<(usize, usize)> = walk.collect(rt.alloc())?;
    same(
        rt,
        "UTF-8",
        lengths.as_slice(),
        [(0, 2), (2, 1), (3, 3)].as_slice(),
    );
    Ok(())
}

#[test]
fn walks_over_bare_units(rt: HostRuntime) -> Result<(), Fail> {
    same(
        &rt,
        "units",
        Utf16Text::new(&UNITS).units(),
        UNITS.as_slice(),
    );
    check_places(&rt)?;
    check_lengths(&rt)?;
    check_utf8_lengths(&rt)?;
    Ok(())
}

// A character outside the basic plane, and a letter.
const LIST: [char; 2] = ['\u{10000}', 'a'];

fn check_listed(rt: &(impl Abort + AllocGlobal)) -> Result<(), AllocError> {
    let characters: Vec<char> = CharsCharIter::new(&LIST).collect(rt.alloc())?;
    same(rt, "characters", characters.as_slice(), LIST.as_slice());
    Ok(())
}

fn check_listed_places(rt: &(impl Abort + AllocGlobal)) -> Result<(), AllocError> {
    let places: Vec<(usize, char)> = CharsCharIndexIter::new(&LIST).collect(rt.alloc())?;
    let wanted = [(0, '\u{10000}'), (1, 'a')];
    same(rt, "places", places.as_slice(), wanted.as_slice());
    Ok(())
}

fn check_listed_lengths(rt: &(impl Abort + AllocGlobal)) -> Result<(), AllocError> {
    let lengths: Vec<(usize, usize)> = CharsIndexLenIter::new(&LIST).collect(rt.alloc())?;
    same(
        rt,
        "lengths",
        lengths.as_slice(),
        [(0, 1), (1, 1)].as_slice(),
    );
    Ok(())
}

#[test]
fn walks_over_bare_lists(rt: HostRuntime) -> Result<(), Fail> {
    check_listed(&rt)?;
    check_listed_places(&rt)?;
    check_listed_lengths(&rt)?;
    Ok(())
}

// A text returns the code units that it was given, and the length of a character in them.
#[test]
fn units_and_lengths(rt: HostRuntime) {
    let list = ['\u{5D0}', '\u{10000}', 'a'];
    same(&rt, "list", CharsText::new(&list).list(), list.as_slice());
    same(&rt, "text", StrText::new("\u{5D0}a").as_str(), "\u{5D0}a");
    same(&rt, "UTF-8", StrText::char_len('\u{10000}'), 4);
    same(&rt, "UTF-16", Utf16Text::char_len('\u{10000}'), 2);
    same(&rt, "character", CharsText::char_len('\u{10000}'), 1);
    same(&rt, "unit", Utf16Text::char_len('\u{FFFD}'), 1);
}
