//! Steps of N0 to N2 over the classes of a sequence's characters.

ghost use Rattle.std.specs.Prelude.{◌≡◌, ◌==◌, ◌||◌, ◌<◌, ◌≤◌, length, reverse, map, if◌then◌else◌};
ghost use Rattle.std.specs.List.{list_any, prefix_len};
ghost use Rattle.bidi_base.specs.Classes.{has_direction, is_nsm, same_class, stands_for};
ghost use Rattle.bidi_base.specs.Neutral.{is_mark_after, nearest_direction};
ghost use Rattle.bidi_base.specs.Indexes.{class_at, indexes};

use crate::char_data::BidiClass;
use crate::classes::{as_direction, stands_for};

/// Returns whether one of the classes counts as this direction, L or R.
pub fn contains_direction(classes: &[BidiClass], direction: BidiClass) -> bool
    ensures { result ≡ list_any (stands_for direction) classes.now }
{
    classes.iter().any(|class| stands_for(*class, direction))
}

/// Returns whether one of the classes counts as a direction.
pub fn contains_any_direction(classes: &[BidiClass]) -> bool
    ensures { result ≡ list_any has_direction classes.now }
{
    classes.iter().any(|class| as_direction(*class).is_some())
}

/// Returns the direction of the last class that counts as one, or `before` if there is none.
///
/// This is the context before a bracket pair (N0 c).
pub fn nearest_direction(before: BidiClass, classes: &[BidiClass]) -> BidiClass
    ensures { result ≡ nearest_direction before (reverse classes.now) }
{
    for class in classes.iter().rev() {
        if let Some(direction) = as_direction(*class) {
            return direction;
        }
    }
    before
}

/// Sets the direction of a bracket and of the nonspacing marks directly after it (N0).
///
/// `original_classes` decides which characters are marks. Both lists must have the same length,
/// and `bracket` must be an index in them.
pub fn set_direction(
    original_classes: &[BidiClass],
    classes: &mut [BidiClass],
    bracket: usize,
    direction: BidiClass,
)
    requires same_len { length original_classes.now ≡ length classes.old }
    requires bracket { bracket < length classes.old }
    ensures { classes.new ≡ map (λ k. if k == bracket || is_mark_after original_classes.now bracket k
        then direction else class_at classes.old k) (indexes classes.old) }
{
    let end = bracket + 1 + marks(&original_classes[bracket + 1..]);
    classes[bracket..end].fill(direction);
}

/// Returns the number of nonspacing marks at the start of the list.
fn marks(original_classes: &[BidiClass]) -> usize
    ensures count { result ≡ prefix_len is_nsm original_classes.now }
    ensures within { result ≤ length original_classes.now }
{
    original_classes
        .iter()
        .take_while(|class| **class == BidiClass::NSM)
        .count()
}

/// Returns the direction of neutrals between two directions (N1, N2).
///
/// It is their direction if they are equal, or else the embedding direction.
pub fn common_direction(
    embedding_direction: BidiClass,
    left: BidiClass,
    right: BidiClass,
) -> BidiClass
    ensures { result ≡ (if same_class left right then left else embedding_direction) }
{
    if left == right {
        left
    } else {
        embedding_direction
    }
}
