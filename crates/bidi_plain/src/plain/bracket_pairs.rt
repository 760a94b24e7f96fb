//! The bracket pairs of an isolating run sequence (BD14 to BD16).

ghost use Rattle.std.specs.Prelude.{◌≡◌, length, IsTrue, IfOk};
ghost use Rattle.std.specs.List.{list_all};
ghost use Rattle.bidi_base.specs.Brackets.{bracket_pairs, counted_bracket, ArePairsWithin};
ghost use Rattle.bidi_base.specs.Classes.{is_weak_resolved};
ghost use Rattle.bidi_base.specs.FoundBrackets.{found_brackets};

use bidi_base::brackets::{Bracket, find_pairs};
use bidi_base::char_data::BidiClass;
use bidi_base::data_source::BidiMatchedOpeningBracket;
use std::alloc::{AllocError, Global};

/// Returns the bracket pairs of a sequence, as indices of opening and closing bracket, in the order of the
/// opening brackets.
///
/// `classes` has the classes after W7, and `brackets` the brackets of the data source. Both have one entry
/// for each character of the sequence. The search ends at the first opening bracket that finds 63 others on
/// the stack (BD16). It keeps the pairs found so far. Returns an error only if an allocation fails.
pub fn pairs(
    alloc: Global,
    classes: &[BidiClass],
    brackets: &[Option<BidiMatchedOpeningBracket>],
) -> Result<Vec<(usize, usize)>, AllocError>
    requires same_len { length brackets.now ≡ length classes.now }
    requires classes { IsTrue (list_all is_weak_resolved classes.now) }
    ensures pairs { IfOk result (λ v. v.items ≡ bracket_pairs classes.now brackets.now) }
    ensures within { IfOk result (λ v. ArePairsWithin (length classes.now) v.items) }
{
    let counted = counted_brackets(alloc, classes, brackets)?;
    let mut pairs = Vec::new(alloc);
    find_pairs(counted.as_slice(), &mut pairs)?;
    Ok(pairs)
}

/// Returns the bracket of a character, if it counts: its class must be ON (BD14, BD15).
fn counted_bracket(
    class: BidiClass,
    bracket: Option<BidiMatchedOpeningBracket>,
) -> Option<BidiMatchedOpeningBracket>
    ensures { result ≡ counted_bracket class bracket }
{
    match class {
        BidiClass::ON => bracket,
        _ => None,
    }
}

/// Returns the brackets that count, each with its index.
fn counted_brackets(
    alloc: Global,
    classes: &[BidiClass],
    brackets: &[Option<BidiMatchedOpeningBracket>],
) -> Result<Vec<Bracket>, AllocError>
    requires { length brackets.now ≡ length classes.now }
    ensures { IfOk result (λ v. v.items ≡ found_brackets classes.now brackets.now) }
{
    let mut counted = Vec::new(alloc);
    for index in 0..classes.len() {
        if let Some(bracket) = counted_bracket(classes[index], brackets[index]) {
            counted.push(Bracket {
                index,
                opening: bracket.opening,
                is_open: bracket.is_open,
            })?;
        }
    }
    Ok(counted)
}
