//! The tests that searches use on the classes of a sequence. They have no branch, so that many code units
//! are tested at once.

ghost use Rattle.std.specs.Prelude.{◌≡◌, ◌≤◌, ◌&&◌, not, length};
ghost use Rattle.bidi_base.specs.Classes.{has_direction, is_kept_in_place, same_class, stands_for};
ghost use Rattle.bidi_base.specs.Search.{IsFirst, passing};
ghost use Rattle.bidi_base.specs.declared.char_data.BidiClass.TheVariants.{ON};

use bidi_base::char_data::BidiClass::{self, AN, EN, L, R};
use bidi_base::search::{Among, ClassTest, first_passing};
use bidi_explicit::written::is_kept_in_place;

/// The class that brackets have, among others: ON.
#[derive(Clone, Copy, Debug)]
pub struct OtherNeutral;

impl ClassTest for OtherNeutral {
    ghost test = { λ _. same_class ON };

    fn passes(self, class: BidiClass) -> bool {
        class == BidiClass::ON
    }
}

/// Classes that count as a direction.
#[derive(Clone, Copy, Debug)]
pub struct AnyDirection;

impl ClassTest for AnyDirection {
    ghost test = { λ _. has_direction };

    fn passes(self, class: BidiClass) -> bool {
        (class == L) | (class == R) | (class == EN) | (class == AN)
    }
}

/// Returns whether a class counts as this direction.
fn is_for(direction: BidiClass, class: BidiClass) -> bool
    ensures { result ≡ stands_for direction class }
{
    let is_l = class == L;
    let is_r = (class == R) | (class == EN) | (class == AN);
    (is_l & (direction == L)) | (is_r & (direction == R))
}

/// Classes that count as this direction.
#[derive(Clone, Copy, Debug)]
pub struct For(pub BidiClass);

impl ClassTest for For {
    ghost test = { λ d. stands_for d.0 };

    fn passes(self, class: BidiClass) -> bool {
        is_for(self.0, class)
    }
}

/// Classes that count as L.
#[derive(Clone, Copy, Debug)]
struct ForL;

impl ClassTest for ForL {
    ghost use Rattle.bidi_base.specs.declared.char_data.BidiClass.TheVariants.{L};

    ghost test = { λ _. stands_for L };

    fn passes(self, class: BidiClass) -> bool {
        class == L
    }
}

/// Classes that count as R.
#[derive(Clone, Copy, Debug)]
struct ForR;

impl ClassTest for ForR {
    ghost use Rattle.bidi_base.specs.declared.char_data.BidiClass.TheVariants.{R};

    ghost test = { λ _. stands_for R };

    fn passes(self, class: BidiClass) -> bool {
        (class == R) | (class == EN) | (class == AN)
    }
}

/// Returns the first index in `from..to` with a class that counts as a direction, or else `to`. Tests the first
/// `singly` classes one by one. A search for known classes is shorter, so there is a test for each direction.
pub fn first_standing_for(
    direction: BidiClass,
    singly: usize,
    classes: &[BidiClass],
    from: usize,
    to: usize,
) -> usize
    requires ordered { from ≤ to }
    requires inside { to ≤ length classes.now }
    ensures { IsFirst (passing (stands_for direction) classes.now) from to result }
{
    match direction {
        L => first_passing(
            Among {
                test: ForL,
                classes,
            },
            singly,
            from,
            to,
        ),
        R => first_passing(
            Among {
                test: ForR,
                classes,
            },
            singly,
            from,
            to,
        ),
        _ => {
            let test = For(direction);
            first_passing(Among { test, classes }, singly, from, to)
        }
    }
}

/// Classes other than BN that do not count as this direction. BN does not end a stretch of the direction.
#[derive(Clone, Copy, Debug)]
pub struct KeptNotFor(pub BidiClass);

impl ClassTest for KeptNotFor {
    ghost test = { λ d c. not (stands_for d.0 c) && is_kept_in_place c };

    fn passes(self, class: BidiClass) -> bool {
        !is_for(self.0, class) & is_kept_in_place(class)
    }
}
