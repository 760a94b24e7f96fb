//! Classes by their names.

use crate::fault::{RowFault, Why};
use crate::item::items_of;
use crate::row::Field;
use bidi_base::char_data::BidiClass::{
    self, AL, AN, B, BN, CS, EN, ES, ET, FSI, L, LRE, LRI, LRO, NSM, ON, PDF, PDI, R, RLE, RLI,
    RLO, S, WS,
};
use bidi_base::classes::CLASS_COUNT;
use std::alloc::Global;

/// The name of each class, and a character that has it in the sample table.
#[rattlefmt::skip]
static CLASSES: [(&str, BidiClass, char); CLASS_COUNT] = [
    ("L", L, 'a'), ("R", R, '\u{5D0}'), ("AL", AL, '\u{627}'), ("EN", EN, '1'), ("ES", ES, '+'), ("ET", ET, '$'),
    ("AN", AN, '\u{660}'), ("CS", CS, ','), ("NSM", NSM, '\u{301}'), ("BN", BN, '\u{AD}'), ("B", B, '\u{2029}'),
    ("S", S, '\t'), ("WS", WS, ' '), ("ON", ON, '!'), ("LRE", LRE, '\u{202A}'), ("LRO", LRO, '\u{202D}'),
    ("RLE", RLE, '\u{202B}'), ("RLO", RLO, '\u{202E}'), ("PDF", PDF, '\u{202C}'), ("LRI", LRI, '\u{2066}'),
    ("RLI", RLI, '\u{2067}'), ("FSI", FSI, '\u{2068}'), ("PDI", PDI, '\u{2069}'),
];

/// Returns each class with its name and its character in the sample table.
pub fn classes() -> &'static [(&'static str, BidiClass, char)] {
    CLASSES.as_slice()
}

// Returns the class with this name, and its character in the sample table.
fn entry_of(name: &str, line: usize) -> Result<(BidiClass, char), RowFault> {
    for (known, class, c) in classes() {
        if *known == name {
            return Ok((*class, *c));
        }
    }
    Err(RowFault::Line(line, Why::Class))
}

/// Returns the class with this name.
pub fn class_of(name: &str, line: usize) -> Result<BidiClass, RowFault> {
    let (class, _) = entry_of(name, line)?;
    Ok(class)
}

/// Returns a character that has the class with this name in the sample table.
pub fn character_of(name: &str, line: usize) -> Result<char, RowFault> {
    let (_, c) = entry_of(name, line)?;
    Ok(c)
}

/// Reads the classes of a field.
pub fn classes_of(alloc: Global, field: Field<'_>) -> Result<Vec<BidiClass>, RowFault> {
    let mut classes = Vec::new(alloc);
    for item in items_of(alloc, field)? {
        classes.push(class_of(item, field.line)?)?;
    }
    Ok(classes)
}
