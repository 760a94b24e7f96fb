//! The text of a displayed line, from left to right.

ghost use Rattle.std.specs.Prelude.{◌≡◌, ◌≤◌, ◌*◌, ◌++◌, ℕ, length, flat_map, encode_utf8, string_bytes, OnOk, OnErr};
ghost use Rattle.bidi_display.specs.Extends.{Extends};
ghost use Rattle.bidi_display.specs.Shown.{displayed_text, displayed_part, displayed_char as displayed_char_by, unicode_mirrored};

use crate::displayed_line::DisplayedLine;
use crate::line_char::LineChar;
use crate::options::DisplayOptions;
use bidi_unicode::{UnicodeData, mirrored};
use std::alloc::AllocError;

/// The characters that are displayed at odd levels in place of others (L4).
pub trait MirroredCharacters {
    /// The mirrored character of each character, as a function.
    ghost mirrored_of: { Self → ℕ → ℕ };

    /// Returns the character that is displayed in place of this one at an odd level: its partner. For most it is the
    /// character itself.
    ///
    /// The partner of the partner is the character. In UTF-8, the partner takes at most twice the bytes of the
    /// character.
    fn mirrored(&self, c: char) -> char
        ensures result { result ≡ mirrored_of self.now c }
        ensures back { mirrored_of self.now result ≡ c }
        ensures length { length (encode_utf8 result) ≤ 2 * length (encode_utf8 c) };
}

/// Mirrors nothing: displays each character unchanged at every level.
#[derive(Clone, Copy, Debug)]
pub struct Unmirrored;

impl MirroredCharacters for Unmirrored {
    ghost mirrored_of = { λ _ c. c };

    fn mirrored(&self, c: char) -> char {
        c
    }
}

impl MirroredCharacters for UnicodeData {
    ghost mirrored_of = { λ _ c. unicode_mirrored c };

    fn mirrored(&self, c: char) -> char {
        mirrored(c).unwrap_or(c)
    }
}

/// Returns the character that is displayed for a character of a line: its mirrored one at an odd level (L4).
pub fn displayed_char<M: MirroredCharacters>(mirrors: &M, c: &LineChar) -> char
    ensures { result ≡ displayed_char_by (M.mirrored_of mirrors.now) c.now }
{
    if c.level.is_rtl() {
        mirrors.mirrored(c.char)
    } else {
        c.char
    }
}

// Appends the displayed ones of some characters, mirrored at odd levels. If an allocation fails, `out` may have some of
// them.
fn push_displayed<M: MirroredCharacters>(
    options: DisplayOptions,
    mirrors: &M,
    chars: &[LineChar],
    out: &mut String,
) -> Result<(), AllocError>
    ensures text { OnOk result (string_bytes out.new
        ≡ string_bytes out.old ++ flat_map encode_utf8 (displayed_part options (M.mirrored_of mirrors.now) chars.now)) }
    ensures extends { Extends (string_bytes out.old) (string_bytes out.new) }
{
    for c in chars {
        if !options.dropped.drops(c) {
            out.push(displayed_char(mirrors, c))?;
        }
    }
    Ok(())
}

impl DisplayedLine {
    /// Appends the displayed characters of the line from left to right.
    ///
    /// The characters of a cluster are in the order of the text. Each character is mirrored by its own level, not by
    /// that of its cluster (L4). Takes time linear in the line. If an allocation fails, `out` has the text that it had
    /// before.
    pub fn push_text<M: MirroredCharacters>(
        &self,
        mirrors: &M,
        out: &mut String,
    ) -> Result<(), AllocError>
        ensures text { OnOk result (string_bytes out.new
            ≡ string_bytes out.old ++ flat_map encode_utf8 (displayed_text (M.mirrored_of mirrors.now) self.now)) }
        ensures unchanged { OnErr result (string_bytes out.new ≡ string_bytes out.old) }
    {
        let len = out.len();
        for index in self.order() {
            let chars = self.chars_of(&self.clusters()[*index]);
            if push_displayed(self.options(), mirrors, chars, out).is_err() {
                out.truncate(len);
                return Err(AllocError);
            }
        }
        Ok(())
    }
}
