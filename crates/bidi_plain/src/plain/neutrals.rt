//! The neutrals of an isolating run sequence (N0 to N2). A class counts as a direction if it is L, R or a
//! number, and numbers count as R.

ghost use Rattle.std.specs.Prelude.{◌≡◌, ◌<◌, ◌≤◌, length, vec_len, slice_index_or, IsTrue, IfOk, unwrap_or};
ghost use Rattle.std.specs.List.{list_all, prefix_len};
ghost use Rattle.bidi_base.specs.Classes.{as_direction, has_direction, is_kept, is_l_or_r, is_ni, is_weak_resolved};
ghost use Rattle.bidi_base.specs.Brackets.{ArePairsWithin};
ghost use Rattle.bidi_base.specs.Neutral.{n0, n1_n2, neutral_classes, pair_direction};

use super::bracket_pairs::pairs;
use bidi_base::char_data::BidiClass;
use bidi_base::classes::{as_direction, is_ni};
use bidi_base::data_source::BidiMatchedOpeningBracket;
use bidi_base::level::Level;
use bidi_base::neutrals::{
    common_direction, contains_any_direction, contains_direction, nearest_direction, set_direction,
};
use std::alloc::{AllocError, Global};

/// Returns the classes of a sequence after N0 to N2, each of them L, R, EN or AN.
///
/// `level` must be the explicit level of the sequence, at most 125. `sos` and `eos` must be L or R. The lists
/// have one entry for each character of the sequence: `source` has the source classes, `brackets` the
/// brackets of the data source, and `classes` the classes after W7. X9 removes none of the characters.
/// Returns an error only if an allocation fails.
#[tactic(auto, unfolding(bidi_base::specs::Neutral::neutral_classes))]
pub fn neutral(
    alloc: Global,
    level: Level,
    sos: BidiClass,
    eos: BidiClass,
    source: &[BidiClass],
    brackets: &[Option<BidiMatchedOpeningBracket>],
    classes: &[BidiClass],
) -> Result<Vec<BidiClass>, AllocError>
    requires level { level ≤ 125 }
    requires sos { IsTrue (is_l_or_r sos) }
    requires eos { IsTrue (is_l_or_r eos) }
    requires source_length { length source.now ≡ length classes.now }
    requires brackets_length { length brackets.now ≡ length classes.now }
    requires source { IsTrue (list_all is_kept source.now) }
    requires classes { IsTrue (list_all is_weak_resolved classes.now) }
    ensures classes { IfOk result (λ v. v.items
        ≡ neutral_classes level sos eos source.now brackets.now classes.now) }
    ensures directed { IfOk result (λ v. IsTrue (list_all has_direction v.items)) }
    ensures same_len { IfOk result (λ v. vec_len v ≡ length classes.now) }
{
    let pairs = pairs(alloc, classes, brackets)?;
    let mut resolved = Vec::from_slice(alloc, classes)?;
    apply_n0_to_n2(
        level.bidi_class(),
        sos,
        eos,
        source,
        pairs.as_slice(),
        resolved.as_mut_slice(),
    );
    Ok(resolved)
}

fn apply_n0_to_n2(
    embedding_direction: BidiClass,
    sos: BidiClass,
    eos: BidiClass,
    source: &[BidiClass],
    pairs: &[(usize, usize)],
    classes: &mut [BidiClass],
)
    requires embedding_direction { IsTrue (is_l_or_r embedding_direction) }
    requires sos { IsTrue (is_l_or_r sos) }
    requires same_len { length source.now ≡ length classes.old }
    requires within { ArePairsWithin (length classes.old) pairs.now }
    requires classes { IsTrue (list_all is_weak_resolved classes.old) }
    ensures classes { classes.new
        ≡ n1_n2 embedding_direction sos eos (n0 embedding_direction sos source.now pairs.now classes.old) }
    ensures directed { IsTrue (list_all has_direction classes.new) }
{
    apply_n0(embedding_direction, sos, source, pairs, classes);
    apply_n1_n2(embedding_direction, sos, eos, classes);
}

/// Applies N0 to the bracket pairs one by one, in the order of their opening brackets.
fn apply_n0(
    embedding_direction: BidiClass,
    sos: BidiClass,
    source: &[BidiClass],
    pairs: &[(usize, usize)],
    classes: &mut [BidiClass],
)
    requires same_len { length source.now ≡ length classes.old }
    requires within { ArePairsWithin (length classes.old) pairs.now }
    ensures { classes.new ≡ n0 embedding_direction sos source.now pairs.now classes.old }
{
    for pair in pairs {
        if let Some(direction) = pair_direction(embedding_direction, sos, classes, *pair) {
            set_direction(source, classes, pair.0, direction);
            set_direction(source, classes, pair.1, direction);
        }
    }
}

/// Returns the direction that a bracket pair takes. This is the embedding direction if it is inside (N0 b).
/// Otherwise, if the opposite one is inside, it is that of the context before the pair (N0 c). If neither
/// is inside, it is `None` (N0 d).
fn pair_direction(
    embedding_direction: BidiClass,
    sos: BidiClass,
    classes: &[BidiClass],
    pair: (usize, usize),
) -> Option<BidiClass>
    requires { (pair.0 < pair.1) × (pair.1 < length classes.now) }
    ensures { result ≡ pair_direction embedding_direction sos classes.now pair }
{
    let inside = &classes[pair.0 + 1..pair.1];
    if contains_direction(inside, embedding_direction) {
        Some(embedding_direction)
    } else if contains_any_direction(inside) {
        Some(nearest_direction(sos, &classes[..pair.0]))
    } else {
        None
    }
}

/// Applies N1 and N2. Neutrals in a row take the direction that is on both their sides: sos counts before the
/// first character, and eos after the last. If the two sides differ, they take the embedding direction.
fn apply_n1_n2(
    embedding_direction: BidiClass,
    sos: BidiClass,
    eos: BidiClass,
    classes: &mut [BidiClass],
)
    requires { IsTrue (list_all is_weak_resolved classes.old) }
    ensures { classes.new ≡ n1_n2 embedding_direction sos eos classes.old }
{
    let mut left = sos;
    let mut start = 0;
    while start < classes.len() {
        let end = start + neutrals(&classes[start..]);
        let right = direction_at(classes, end, eos);
        classes[start..end].fill(common_direction(embedding_direction, left, right));
        left = right;
        start = end + 1;
    }
}

/// Returns the number of neutrals at the start of the list.
fn neutrals(classes: &[BidiClass]) -> usize
    ensures count { result ≡ prefix_len is_ni classes.now }
    ensures within { result ≤ length classes.now }
{
    classes.iter().take_while(|class| is_ni(**class)).count()
}

/// Returns the direction of the class at an index. Returns eos past the end, or if the class counts as no
/// direction.
fn direction_at(classes: &[BidiClass], place: usize, eos: BidiClass) -> BidiClass
    ensures { result
        ≡ unwrap_or (as_direction (slice_index_or classes.now place BidiClass.ON)) eos }
{
    if place < classes.len() {
        as_direction(classes[place]).unwrap_or(eos)
    } else {
        eos
    }
}
