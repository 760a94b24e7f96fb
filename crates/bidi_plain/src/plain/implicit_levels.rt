//! The implicit levels of an isolating run sequence (I1, I2).

ghost use Rattle.std.specs.Prelude.{◌≡◌, ◌≤◌, length, vec_len, IsTrue, IfOk};
ghost use Rattle.std.specs.List.{list_all};
ghost use Rattle.bidi_base.specs.Classes.{has_direction};
ghost use Rattle.bidi_base.specs.Implicit.{added_at_even, added_at_odd, implicit_level, implicit_levels};

use bidi_base::char_data::BidiClass::{self, AN, EN, L, R};
use bidi_base::level::Level;
use std::alloc::{AllocError, Global};

/// Returns the implicit levels of a sequence (I1, I2).
///
/// Takes its explicit level, which must be at most 125, and its classes after N2: L, R, EN and AN. Returns
/// an error only if an allocation fails.
pub fn implicit(
    alloc: Global,
    level: Level,
    classes: &[BidiClass],
) -> Result<Vec<Level>, AllocError>
    requires level { level ≤ 125 }
    requires classes { IsTrue (list_all has_direction classes.now) }
    ensures levels { IfOk result (λ v. v.items ≡ implicit_levels level classes.now) }
    ensures same_len { IfOk result (λ v. vec_len v ≡ length classes.now) }
{
    classes
        .iter()
        .map(|class| implicit_level(level, *class))
        .collect(alloc)
}

fn implicit_level(level: Level, class: BidiClass) -> Level
    requires { level ≤ 125 }
    ensures { result ≡ implicit_level level class }
{
    let added = if level.is_rtl() {
        added_at_odd_level(class)
    } else {
        added_at_even_level(class)
    };
    Level::new(level.number() + added).unwrap()
}

/// I1: R goes up one level, AN and EN two.
fn added_at_even_level(class: BidiClass) -> u8
    ensures added { result ≡ added_at_even class }
    ensures within { result ≤ 2 }
{
    match class {
        R => 1,
        AN | EN => 2,
        _ => 0,
    }
}

/// I2: L, EN and AN go up one level.
fn added_at_odd_level(class: BidiClass) -> u8
    ensures added { result ≡ added_at_odd class }
    ensures within { result ≤ 1 }
{
    match class {
        L | EN | AN => 1,
        _ => 0,
    }
}
