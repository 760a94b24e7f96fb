//! The paragraph level of a line by its characters (P2, P3).
ghost use Rattle.std.specs.Prelude.{◌≡◌, ◌+◌, ◌-◌, ◌^◌, ◌<◌, ◌≤◌, ◌==◌, ◌&&◌, if◌then◌else◌};
ghost use Rattle.bidi_base.specs.Classes.{is_strong, is_isolate_initiator, is_pdi};
ghost use Rattle.bidi_base.specs.Isolates.{level_by};
ghost use Rattle.bidi_controls.specs.Displayed.{own_level};

use bidi_base::char_data::BidiClass;
use bidi_base::classes::{is_isolate_initiator, is_pdi, is_strong};
use bidi_base::data_source::BidiDataSource;
use bidi_base::level::{LTR_LEVEL, Level, RTL_LEVEL};

/// Returns the level that a deciding character of this class gives (P3).
fn level_by(class: BidiClass) -> Level
    ensures { result ≡ level_by (Some class) }
{
    if matches!(class, BidiClass::R | BidiClass::AL) {
        RTL_LEVEL
    } else {
        LTR_LEVEL
    }
}

/// Returns whether a character of this class decides, if it is inside this many isolates (P2).
fn is_deciding(class: BidiClass, depth: usize) -> bool
    ensures { result ≡ (is_strong class && depth == 0) }
{
    is_strong(class) && depth == 0
}

/// Returns how many isolates are open after a character of this class.
fn depth_after(class: BidiClass, depth: usize) -> usize
    requires { depth + 1 < 2 ^ 64 }
    ensures { result ≡ (if is_isolate_initiator class then depth + 1 else if is_pdi class then depth - 1 else depth) }
{
    if is_isolate_initiator(class) {
        depth + 1
    } else if is_pdi(class) {
        depth.saturating_sub(1)
    } else {
        depth
    }
}

/// Returns the level of a paragraph by its first strong character outside isolates (P2, P3): 1 if its class is R or AL,
/// otherwise 0.
///
/// Stops at that character, and does not allocate.
pub(crate) fn own_level<D: BidiDataSource>(data_source: &D, chars: &[char]) -> Level
    ensures level { result ≡ own_level (D.source data_source.now) chars.now }
    ensures within { result ≤ 1 }
{
    let mut depth = 0usize;
    for c in chars {
        let class = data_source.bidi_class(*c);
        if is_deciding(class, depth) {
            return level_by(class);
        }
        depth = depth_after(class, depth);
    }
    LTR_LEVEL
}
