//! Tests of the conditions that the calls require of levels and of lists of classes.

ghost use Rattle.std.specs.Prelude.{◌≡◌, ◌≤◌, not, ◌||◌, IfOk};
ghost use Rattle.std.specs.List.{list_all, list_any};
ghost use Rattle.bidi_base.specs.Classes.{is_isolate_initiator as is_isolate_initiator_of, is_kept, is_l_or_r, is_kept_in_place, is_weak_resolved, has_direction};

use crate::fault::{RowFault, Why};
use crate::item::level_of;
use crate::row::Row;
use bidi_base::char_data::BidiClass::{self, AN, B, BN, EN, FSI, L, LRI, ON, PDI, R, RLI, S, WS};
use bidi_base::classes::is_isolate_initiator;
use bidi_base::level::Level;
use bidi_rules::prepare::not_removed_by_x9;

/// Returns whether a class may be sos or eos.
pub fn is_side(class: BidiClass) -> bool
    ensures { result ≡ is_l_or_r class }
{
    matches!(class, L | R)
}

/// Returns whether X9 removes none of the classes.
pub fn are_kept(classes: &[BidiClass]) -> bool
    ensures { result ≡ list_all is_kept classes.now }
{
    classes.iter().all(|class| not_removed_by_x9(class))
}

/// Returns whether a class may remain after the weak types.
pub fn is_left(class: BidiClass) -> bool
    ensures { result ≡ is_weak_resolved class }
{
    matches!(
        class,
        L | R | EN | AN | B | S | WS | ON | LRI | RLI | FSI | PDI
    )
}

/// Returns whether all the classes may remain after the weak types.
pub fn are_left(classes: &[BidiClass]) -> bool
    ensures { result ≡ list_all is_weak_resolved classes.now }
{
    classes.iter().all(|class| is_left(*class))
}

// Returns whether a class is BN, or may remain after the weak types.
fn is_left_or_removed(class: BidiClass) -> bool
    ensures { result ≡ (is_weak_resolved class || not (is_kept_in_place class)) }
{
    is_left(class) || matches!(class, BN)
}

/// Returns whether all the classes except BN may remain after the weak types.
pub fn are_left_or_removed(classes: &[BidiClass]) -> bool
    ensures { result ≡ list_all (λ c. is_weak_resolved c || not (is_kept_in_place c)) classes.now }
{
    classes.iter().all(|class| is_left_or_removed(*class))
}

// Returns whether a class may remain after the neutrals.
fn has_direction(class: BidiClass) -> bool
    ensures { result ≡ has_direction class }
{
    matches!(class, L | R | EN | AN)
}

/// Returns whether all the classes may remain after the neutrals.
pub fn have_directions(classes: &[BidiClass]) -> bool
    ensures { result ≡ list_all has_direction classes.now }
{
    classes.iter().all(|class| has_direction(*class))
}

/// Returns whether some class is an isolate initiator.
pub fn has_initiator(classes: &[BidiClass]) -> bool
    ensures { result ≡ list_any is_isolate_initiator_of classes.now }
{
    classes.iter().any(|class| is_isolate_initiator(*class))
}

/// Returns the level in a field of a row, which must be an explicit level.
pub fn explicit_level(row: &Row<'_>, key: &str) -> Result<Level, RowFault>
    ensures { IfOk result (λ level. level ≤ 125) }
{
    let field = row.field(key)?;
    let level = level_of(field.value, field.line)?;
    match Level::new_explicit(level.number()) {
        Ok(level) => Ok(level),
        Err(_) => Err(RowFault::Line(field.line, Why::ExplicitLevel)),
    }
}
