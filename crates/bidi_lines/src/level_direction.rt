//! The direction of a list of levels.
ghost use Rattle.std.specs.Prelude.{◌≡◌};
ghost use Rattle.bidi_base.specs.Direction.{direction_of_levels};

use bidi_base::char_data::Direction;
use bidi_base::level::Level;

/// Returns the direction of a list of levels.
///
/// It is right to left if no level is even, left to right if none is odd, and mixed otherwise. An empty list is right
/// to left. Takes time linear in the list.
pub fn direction_of(levels: &[Level]) -> Direction
    ensures { result ≡ direction_of_levels levels.now }
{
    let mut odd = 0u8;
    let mut even = 0u8;
    for level in levels {
        let number = level.number();
        odd |= number;
        even |= number + 1;
    }
    if even % 2 == 0 {
        Direction::Rtl
    } else if odd % 2 == 0 {
        Direction::Ltr
    } else {
        Direction::Mixed
    }
}
