//! The structs that callers in other languages read and write: plain structs with the layout of C.

/// A paragraph: its range of code units, from `start` up to `end`, and its level.
#[repr(C)]
#[derive(Clone, Copy, Debug, PartialEq)]
pub struct Paragraph {
    pub start: usize,
    pub end: usize,
    pub level: u8,
}

/// A visual run: its range of code units, from `start` up to `end`, and their level after L1.
#[repr(C)]
#[derive(Clone, Copy, Debug, PartialEq)]
pub struct Run {
    pub start: usize,
    pub end: usize,
    pub level: u8,
}

/// A range of characters that have one class, from `first` to `last`, which is included.
#[repr(C)]
#[derive(Clone, Copy, Debug, PartialEq)]
pub struct ClassRange {
    pub first: u32,
    pub last: u32,
    pub class: u8,
}

/// A pair of brackets, and the normal form of the opening one, or itself if it has none.
#[repr(C)]
#[derive(Clone, Copy, Debug, PartialEq)]
pub struct BracketPair {
    pub opening: u32,
    pub closing: u32,
    pub normal_form: u32,
}
