//! A text as the passes over its level runs and sequences read it.

ghost use Rattle.std.specs.Prelude.{◌≡◌, length};
ghost use Rattle.bidi_base.specs.Texts.{text_len};

use bidi_base::char_data::BidiClass;
use bidi_base::level::Level;
use bidi_text::text::TextSource;
use std::alloc::AllocError;

/// A text with the stored class and the explicit level of each code unit.
#[derive(Copy)]
pub struct LeveledText<'t, T: TextSource> {
    /// The text.
    pub text: T,
    /// The stored class of each code unit.
    pub original_classes: &'t [BidiClass],
    /// The explicit level of each code unit.
    pub levels: &'t [Level],
    ghost class_each: { length original_classes.now ≡ text_len (T.text text) },
    ghost level_each: { length levels.now ≡ text_len (T.text text) },
}

impl<'t, T: TextSource> Clone for LeveledText<'t, T> {
    fn clone(&self) -> Result<LeveledText<'t, T>, AllocError> {
        let LeveledText {
            text,
            original_classes,
            levels,
        } = *self;
        Ok(LeveledText {
            text,
            original_classes,
            levels,
        })
    }
}
