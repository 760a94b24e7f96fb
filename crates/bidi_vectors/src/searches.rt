//! Rows of searches among classes.

use bidi_base::char_data::BidiClass;
use bidi_base::search::{Among, ClassTest, first_passing};
use bidi_vectors_format::answer::number_words;
use bidi_vectors_format::class::classes_of;
use bidi_vectors_format::fault::{RowFault, Why};
use bidi_vectors_format::item::range_of;
use bidi_vectors_format::row::Row;
use bidi_vectors_format::tally::Tally;
use std::alloc::Global;

/// Tests for the class ON.
#[derive(Clone, Copy)]
struct OtherNeutral;

impl ClassTest for OtherNeutral {
    ghost use Rattle.bidi_base.specs.Classes.{same_class};
    ghost use Rattle.bidi_base.specs.declared.char_data.BidiClass.TheVariants.{ON};

    ghost test = { λ _. same_class ON };

    fn passes(self, class: BidiClass) -> bool {
        class == BidiClass::ON
    }
}

// Returns the first index of class ON in a range of the classes, or the range's end.
fn first_neutral(classes: &[BidiClass], from: usize, to: usize) -> Result<usize, RowFault> {
    if from > to || to > classes.len() {
        return Err(RowFault::Line(0, Why::Line));
    }
    let neutrals = Among {
        test: OtherNeutral,
        classes,
    };
    Ok(first_passing(neutrals, 1, from, to))
}

/// Runs a row of classes, a range of them, and the first index of class ON there, or the range's end.
pub fn run(alloc: Global, row: &Row<'_>, tally: &mut Tally) -> Result<(), RowFault> {
    row.has_only(&["classes", "range", "found"])?;
    let classes = classes_of(alloc, row.field("classes")?)?;
    let range = row.field("range")?;
    let (from, to) = range_of(range.value, range.line)?;
    let found = first_neutral(classes.as_slice(), from, to)?;
    let words = number_words(alloc, &[found]);
    tally.agree(row, "found", "search::first_passing", words);
    Ok(())
}
