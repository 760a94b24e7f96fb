//! The implicit levels in place (I1, I2).

ghost use Rattle.std.specs.Prelude.{◌≡◌, ◌≤◌, All, fold, length, map, max};
ghost use Rattle.std.specs.List.{zip};
ghost use Rattle.bidi_base.specs.Implicit.{implicit_level};

use bidi_base::char_data::BidiClass::{self, AN, EN, L, R};
use bidi_base::level::Level;

/// Writes the implicit level of each code unit (I1, I2), and returns the maximum level, or 0 if there is no
/// code unit.
///
/// `levels` has the explicit levels, which must be at most 125, and `processing_classes` must have the same
/// length. Classes other than L, R, EN and AN add nothing. Does not allocate.
pub fn resolve_levels(processing_classes: &[BidiClass], levels: &mut [Level]) -> Level
    requires same_len { length levels.old ≡ length processing_classes.now }
    requires explicit { All (λ level. level ≤ 125) levels.old }
    ensures levels { levels.new ≡ map (λ e. implicit_level e.0 e.1) (zip levels.old processing_classes.now) }
    ensures greatest { result ≡ fold max 0 levels.new }
{
    let mut greatest = 0u8;
    for unit in 0..levels.len() {
        let level = implicit_level(levels[unit], processing_classes[unit]);
        levels[unit] = level;
        greatest = greatest.max(level.number());
    }
    Level::new(greatest).unwrap()
}

// Returns the implicit level of a code unit. It has sums instead of branches, and no early return, so that a
// loop over it works on many code units at once.
fn implicit_level(level: Level, class: BidiClass) -> Level
    requires { level ≤ 125 }
    ensures { result ≡ implicit_level level class }
{
    let number = u8::from(class == EN || class == AN);
    let added = if level.is_rtl() {
        number + u8::from(class == L)
    } else {
        2 * number + u8::from(class == R)
    };
    Level::new(level.number() + added).unwrap_or(level)
}
