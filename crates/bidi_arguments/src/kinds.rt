//! The kinds of findings that a list in an argument names, such as `not-closed,closes-nothing`.
ghost use Rattle.std.specs.Prelude.{◌≡◌, ◌∷◌, ◌<◌, [], length, MatchOption, IfSome};
ghost use Rattle.bidi_arguments.specs.Kinds.{trouble_named, names_in, with_kinds as with_kinds_of};

use bidi_controls::finding::{Trouble, Wanted};
use bidi_reports::kind::Kind;

/// Returns the kind of a finding that a name in an argument means: that of the reports. Returns `None` for any other
/// name.
pub fn parse_kind(name: &str) -> Option<Trouble>
    ensures { result ≡ trouble_named name.now }
{
    Kind::parse(name.as_bytes())?.trouble()
}

// Returns the first name of a list, and what follows the comma after it, if there is one.
fn first_name(names: &str) -> (&str, Option<&str>)
    ensures first { MatchOption result.1 (names_in names.now ≡ result.0.now ∷ [])
        (λ rest. names_in names.now ≡ result.0.now ∷ names_in rest.now) }
    ensures shorter { IfSome result.1 (λ rest. length rest.now < length names.now) }
{
    match names.split_once(',') {
        Some((name, rest)) => (name, Some(rest)),
        None => (names, None),
    }
}

/// Returns the kinds `wanted` with those that a list names added or, if `is_wanted` is false, removed.
///
/// Commas separate the names. Returns `None` if one of them is no kind, such as an empty name.
pub fn with_kinds(wanted: Wanted, names: &str, is_wanted: bool) -> Option<Wanted>
    ensures { result ≡ with_kinds_of is_wanted wanted (names_in names.now) }
{
    let (name, mut rest) = first_name(names);
    let mut kinds = wanted.with(parse_kind(name)?, is_wanted);
    while let Some(names) = rest {
        let (name, after) = first_name(names);
        kinds = kinds.with(parse_kind(name)?, is_wanted);
        rest = after;
    }
    Some(kinds)
}
