//! The nonspacing marks after a bracket.

ghost use Rattle.std.specs.Prelude.{◌≡◌, ◌&&◌, not, ◌<◌, length, map, IsTrue};
ghost use Rattle.bidi_base.specs.Classes.{is_kept_in_place, is_nsm};
ghost use Rattle.bidi_base.specs.Texts.{is_boundary, text_len, AreLines};
ghost use Rattle.bidi_base.specs.Units.{bounds, are_ordered};
ghost use Rattle.bidi_rules.specs.InText.{IsMarksEnd};

use bidi_base::char_data::BidiClass::{self, NSM};
use bidi_explicit::characters::end_of;
use bidi_explicit::prepare::LevelRun;
use bidi_explicit::written::is_kept_in_place;
use bidi_text::text::TextSource;

/// Returns whether a character with these classes is neither BN nor a nonspacing mark by its stored class.
pub fn ends_marks(class: BidiClass, original: BidiClass) -> bool
    ensures { result ≡ (is_kept_in_place class && not (is_nsm original)) }
{
    is_kept_in_place(class) && original != NSM
}

/// Returns where the nonspacing marks in some runs end, from an index on. BN among them is passed over.
/// This is the index of the first character that is neither, or else the number of code units.
pub fn marks_end<T: TextSource>(
    text: T,
    runs: &[LevelRun],
    original_classes: &[BidiClass],
    classes: &[BidiClass],
    from: usize,
) -> usize
    requires are_lines { AreLines (T.text text) (map bounds runs.now) }
    requires ordered { IsTrue (are_ordered (map bounds runs.now)) }
    requires same_len { length classes.now ≡ text_len (T.text text) }
    requires original { length original_classes.now ≡ length classes.now }
    requires begins { IsTrue (is_boundary (T.text text) from) }
    ensures { IsMarksEnd (T.text text) (map bounds runs.now) original_classes.now classes.now from result }
{
    for run in runs {
        let mut at = run.start.max(from);
        while at < run.end {
            if ends_marks(classes[at], original_classes[at]) {
                return at;
            }
            at = end_of(text, at);
        }
    }
    classes.len()
}
