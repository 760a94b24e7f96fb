//! The library for callers in other languages: a static library with the header `unicode_bidi.h`.
//!
//! Each export passes its arguments to a function that tests every condition of the library, and returns the result as
//! a number. The caller owns every buffer. In C, a slice is a pointer and a length, and no call can test these two. The
//! header describes each call.
#![tactic(auto)]

mod analyser_handle;
mod exports;
mod exports_characters;
mod exports_classes;
mod exports_direction;
mod exports_display;
mod exports_kept;
mod exports_paragraphs;
mod exports_utf16;
mod exports_utf32;
mod exports_utf8;
mod exports_version;
mod mirroring;
mod raw_box;
mod version;
