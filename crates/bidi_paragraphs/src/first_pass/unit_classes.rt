//! Writes a character's class to each of its code units.
ghost use Rattle.std.specs.Prelude.{◌+◌, ◌≤◌, length};
ghost use Rattle.bidi_paragraphs.specs.FirstPass.{IsPut};
ghost use Rattle.bidi_paragraphs.specs.declared.first_pass.unit_classes.TheConstants.{AT_ONCE};

use bidi_base::char_data::BidiClass;
use bidi_text::text::TextSource;

// Writes a character's class to each of its code units, from `start` on.
fn write_each<T: TextSource>(classes: &mut [BidiClass], start: usize, c: char, class: BidiClass)
    requires { start + T.encoding.len_of c ≤ length classes.old }
    ensures { IsPut T.encoding c class start classes.old classes.new }
{
    classes[start..start + T::char_len(c)].fill(class);
}

/// How many code units are written at once, if there are that many.
pub(super) const AT_ONCE: usize = 4;

/// Writes a character's class to each of its code units. From its first code unit on there must be at least `AT_ONCE`
/// of them in the text. Code units after the character may get the class too. The next write replaces it.
pub(super) fn write_at_once<T: TextSource>(
    classes: &mut [BidiClass],
    start: usize,
    c: char,
    class: BidiClass,
)
    requires fits { start + T.encoding.len_of c ≤ length classes.old }
    requires room { start + AT_ONCE ≤ length classes.old }
    ensures { IsPut T.encoding c class start classes.old classes.new }
{
    if T::char_len(c) <= AT_ONCE {
        classes[start] = class;
        classes[start + 1] = class;
        classes[start + 2] = class;
        classes[start + 3] = class;
    } else {
        write_each::<T>(classes, start, c, class);
    }
}

/// Writes a character's class to each of its code units, anywhere in the text.
pub(super) fn write<T: TextSource>(
    classes: &mut [BidiClass],
    start: usize,
    c: char,
    class: BidiClass,
)
    requires { start + T.encoding.len_of c ≤ length classes.old }
    ensures { IsPut T.encoding c class start classes.old classes.new }
{
    if classes.len() - start >= AT_ONCE {
        write_at_once::<T>(classes, start, c, class);
    } else {
        write_each::<T>(classes, start, c, class);
    }
}
