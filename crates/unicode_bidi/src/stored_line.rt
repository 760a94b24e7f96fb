//! The text of a line from left to right (L1, L2), given its stored classes and levels. The calls take time linear in
//! the line.

ghost use Rattle.std.specs.Prelude.{◌↔◌, IfOk, length, encode_utf8};
ghost use Rattle.std.specs.Char.{len_utf8};
ghost use Rattle.std.specs.Char.Escape.{encode_utf16};
ghost use Rattle.std.specs.Cow.{cow_slice_items, cow_str_bytes, IsBorrowedSlice, IsBorrowedStr};
ghost use Rattle.std.specs.Str.{chars};
ghost use Rattle.bidi_base.specs.AnalysedText.{IsTextOfLine, StaysInOrder};
ghost use Rattle.bidi_base.specs.PerChar.{HaveClass, HaveLevel};
ghost use Rattle.bidi_base.specs.Utf16.{utf16_text, utf16_len};

use bidi_base::char_data::BidiClass;
use bidi_base::level::Level;
use bidi_lines::analysed::Analysed;
use bidi_text::text::{StrText, Utf16Text};
use std::alloc::{AllocError, Global};
use std::borrow::{CowSlice, CowStr};

/// Returns the text of a line of UTF-8 from left to right: its characters in the order of L2, by their levels after L1.
///
/// `text` is the line. `classes` and `levels` have the stored class and level of each byte, equal within each character
/// (see `is_per_char`). `level` is the level of the line's paragraph. The result is borrowed exactly if no level of the
/// line is odd after L1.
pub fn reorder_utf8<'t>(
    alloc: Global,
    text: &'t str,
    classes: Vec<BidiClass>,
    levels: Vec<Level>,
    level: Level,
) -> Result<CowStr<'t>, AllocError>
    requires classes { HaveClass len_utf8 (chars text.now) classes.items }
    requires levels { HaveLevel len_utf8 (chars text.now) levels.items }
    ensures text { IfOk result (λ c. IsTextOfLine encode_utf8 text.now
        (record { len_of = len_utf8; chars = chars text.now; classes = classes.items; levels = levels.items })
        level (record { start = 0; end = length text.now }) (cow_str_bytes c)) }
    ensures borrowed { IfOk result (λ c. IsBorrowedStr c ↔ StaysInOrder
        (record { len_of = len_utf8; chars = chars text.now; classes = classes.items; levels = levels.items })
        level (record { start = 0; end = length text.now })) }
{
    let analysed = Analysed::new(StrText::new(text), classes, levels);
    analysed.reorder_line(alloc, level, 0..text.len())
}

/// Returns the text of a line of UTF-16 from left to right: its characters in the order of L2, by their levels after
/// L1.
///
/// `text` is the line. `classes` and `levels` have the stored class and level of each code unit, equal within each
/// character (see `is_per_char`). `level` is the level of the line's paragraph. An unpaired surrogate is unchanged at
/// an even level, and 0xFFFD at an odd level. The result is borrowed exactly if no level of the line is odd after L1.
pub fn reorder_utf16<'t>(
    alloc: Global,
    text: &'t [u16],
    classes: Vec<BidiClass>,
    levels: Vec<Level>,
    level: Level,
) -> Result<CowSlice<'t, u16>, AllocError>
    requires classes { HaveClass utf16_len (utf16_text text.now) classes.items }
    requires levels { HaveLevel utf16_len (utf16_text text.now) levels.items }
    ensures text { IfOk result (λ c. IsTextOfLine encode_utf16 text.now
        (record { len_of = utf16_len; chars = utf16_text text.now; classes = classes.items; levels = levels.items })
        level (record { start = 0; end = length text.now }) (cow_slice_items c)) }
    ensures borrowed { IfOk result (λ c. IsBorrowedSlice c ↔ StaysInOrder
        (record { len_of = utf16_len; chars = utf16_text text.now; classes = classes.items; levels = levels.items })
        level (record { start = 0; end = length text.now })) }
{
    let analysed = Analysed::new(Utf16Text::new(text), classes, levels);
    analysed.reorder_line(alloc, level, 0..text.len())
}
