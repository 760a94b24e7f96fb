// The text of a line of a list of characters.
ghost use Rattle.std.specs.Prelude.{◌∷◌, []};

use super::LineText;
use super::reversed::write_reversed;
use bidi_text::text::CharsText;
use std::ops::Range;

impl<'t> LineText for CharsText<'t> {
    type Unit = char;

    ghost units_of = { λ t. t.list.now };

    ghost encode = { λ c. c ∷ [] };

    fn copy_run(self, run: Range<usize>, out: &mut [char]) {
        let list = self.list();
        out.copy_from_slice(&list[run]);
    }

    fn reverse_run(self, run: Range<usize>, out: &mut [char]) {
        let list = self.list();
        write_reversed(&list[run], out);
    }
}
