//! The characters of a line, with their stored classes and their levels after L1.

ghost use Rattle.std.specs.Prelude.{◌≡◌, ◌+◌, length, slice_range, OnOk};
ghost use Rattle.bidi_base.specs.declared.char_data.BidiClass.TheVariants.{L};
ghost use Rattle.bidi_base.specs.Texts.{subrange, per_char, IsLine, HaveClass};
ghost use Rattle.bidi_display.specs.LineChars.{line_chars_by};

use bidi_base::char_data::BidiClass;
use bidi_base::level::Level;
use bidi_text::text::TextSource;
use std::alloc::AllocError;
use std::ops::Range;

/// A character of a line.
#[derive(Clone, Copy, Debug, PartialEq)]
pub struct LineChar {
    /// The index of its first code unit in the text.
    pub start: usize,
    /// The index after its last code unit.
    pub end: usize,
    /// The character.
    pub char: char,
    /// Its stored class (X5c).
    pub class: BidiClass,
    /// Its level after L1.
    pub level: Level,
}

// Replaces a list by the characters of a line.
//
// `levels` has the level of each of these characters after L1, `classes` the stored class of each code unit of the
// text.
pub(crate) fn read_chars<T: TextSource>(
    text: T,
    classes: &[BidiClass],
    levels: &[Level],
    line: Range<usize>,
    out: &mut Vec<LineChar>,
) -> Result<(), AllocError>
    requires is_line { IsLine (T.text text) line.start line.end }
    requires classes { HaveClass (T.text text) classes.now }
    requires levels { length levels.now ≡ length (subrange (T.text text) line.start line.end).chars }
    ensures { OnOk result (out.new.items ≡ line_chars_by T.encoding.len_of line.start (subrange (T.text text) line.start line.end).chars
        (per_char L (subrange (T.text text) line.start line.end) (slice_range classes.now line.start line.end)) levels.now) }
{
    out.clear();
    out.reserve(levels.len())?;
    let start = line.start;
    for (offset, char) in text.subrange(line).char_indices() {
        let at = start + offset;
        out.push(LineChar {
            start: at,
            end: at + T::char_len(char),
            char,
            class: classes[at],
            level: levels[out.len()],
        })?;
    }
    Ok(())
}
