//! Rows of the implicit levels (I1, I2), over lists and in place.

ghost use Rattle.std.specs.Prelude.{◌≤◌};

use bidi_base::char_data::BidiClass;
use bidi_base::level::Level;
use bidi_plain::plain::implicit;
use bidi_rules::implicit::resolve_levels;
use bidi_vectors_format::answer::{level_words, number_words};
use bidi_vectors_format::class::classes_of;
use bidi_vectors_format::conditions::{explicit_level, have_directions};
use bidi_vectors_format::fault::RowFault;
use bidi_vectors_format::row::Row;
use bidi_vectors_format::tally::Tally;
use std::alloc::Global;

// Resolves one level for each class in place, and returns the levels and their maximum.
fn in_place(
    alloc: Global,
    level: Level,
    classes: &[BidiClass],
) -> Result<(Vec<Level>, Level), RowFault>
    requires { level ≤ 125 }
{
    let mut levels = vec![in alloc; level; classes.len()]?;
    let greatest = resolve_levels(classes, levels.as_mut_slice());
    Ok((levels, greatest))
}

/// Runs a row of classes at one level. If X9 removes some of them, runs only the pass in place.
pub fn run(alloc: Global, row: &Row<'_>, tally: &mut Tally) -> Result<(), RowFault> {
    row.has_only(&["level", "classes", "levels", "greatest"])?;
    let level = explicit_level(row, "level")?;
    let classes = classes_of(alloc, row.field("classes")?)?;
    let classes = classes.as_slice();
    if have_directions(classes) {
        let answer = implicit(alloc, level, classes)?;
        let words = level_words(alloc, answer.as_slice());
        tally.agree(row, "levels", "plain::implicit", words);
    }
    let (levels, greatest) = in_place(alloc, level, classes)?;
    let words = level_words(alloc, levels.as_slice());
    tally.agree(row, "levels", "implicit::resolve_levels", words);
    let words = number_words(alloc, &[usize::from(greatest.number())]);
    let call = "implicit::resolve_levels: greatest";
    tally.agree(row, "greatest", call, words);
    Ok(())
}
