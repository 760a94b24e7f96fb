//! Steps from one character of a text to the next, by index.

ghost use Rattle.std.specs.Prelude.{◌≡◌, ◌<◌, ◌≤◌, IsTrue};
ghost use Rattle.bidi_base.specs.Texts.{is_boundary, text_len, IsNextPlace};

use bidi_text::text::TextSource;

/// Returns the index after the character that begins at `start`. A character must begin there.
pub fn end_of<T: TextSource>(text: T, start: usize) -> usize
    requires begins { IsTrue (is_boundary (T.text text) start) }
    requires inside { start < text_len (T.text text) }
    requires fits { text_len (T.text text) ≤ usize.MAX }
    ensures { IsNextPlace (T.text text) start result }
{
    end_within(text, start, text.len())
}

/// Returns the index after the character that begins at `start`, in a text of `len` code units.
///
/// A character must begin at `start`. Reads the text with `len_at`, and does not read it at all if `start`
/// is the last code unit.
pub fn end_within<T: TextSource>(text: T, start: usize, len: usize) -> usize
    requires begins { IsTrue (is_boundary (T.text text) start) }
    requires inside { start < len }
    requires same_len { len ≡ text_len (T.text text) }
    ensures { IsNextPlace (T.text text) start result }
{
    if start + 1 == len {
        return len;
    }
    start + text.len_at(start)
}
