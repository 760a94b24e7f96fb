//! Paragraphs without their separators.
ghost use Rattle.std.specs.Prelude.{◌≡◌};
ghost use Rattle.unicode_bidi.specs.Content.{content_len as content_len_of};

use bidi_base::char_data::BidiClass;
use bidi_base::classes::is_paragraph_separator;

/// Returns how many code units a paragraph has before the separators (B) at its end.
///
/// `classes` has the class of each of its code units. Takes time linear in the separators.
pub fn content_len(classes: &[BidiClass]) -> usize
    ensures { result ≡ content_len_of classes.now }
{
    let mut len = classes.len();
    while len > 0 && is_paragraph_separator(classes[len - 1]) {
        len -= 1;
    }
    len
}
