//! The pass of the weak types that counts its steps. It must find what the pass without a count finds.

ghost use Rattle.std.specs.Prelude.{◌≡◌, map};
ghost use Rattle.std.specs.Char.{len_utf8};
ghost use Rattle.std.specs.Str.{chars};
ghost use Rattle.bidi_base.specs.InPlace.{CanResolveWeakTypes};
ghost use Rattle.bidi_base.specs.Units.{bounds};

use bidi_base::char_data::BidiClass;
use bidi_rules::implicit::resolve_weak_counted;
use bidi_rules::prepare::{IsolatingRunSequence, Steps};
use bidi_text::text::{StrText, is_per_char};
use bidi_vectors_format::fault::{RowFault, Why};
use std::marker::Brand;
use std::sync::ledger::{Blank, Ledger};

// Resolves the weak types of a sequence in place. One step is counted before.
fn resolve_by<S: Ledger>(
    text: StrText,
    sequence: &IsolatingRunSequence,
    classes: &mut [BidiClass],
    blank: Blank,
)
    requires sequence { CanResolveWeakTypes len_utf8 (chars text.text.now) (map bounds sequence.now.runs.items) classes.old }
    requires name { blank.name ≡ S.name }
    requires parts { blank.parts ≡ S.parts }
    requires one { blank.parts ≡ 1 }
{
    let mut steps = Steps::<S>::new(blank);
    steps.tick();
    resolve_weak_counted(text, sequence, classes, &mut steps);
}

/// Resolves the weak types of a sequence in place, by the counted pass.
pub fn resolve_weak(
    text: StrText,
    sequence: &IsolatingRunSequence,
    classes: &mut [BidiClass],
) -> Result<(), RowFault> {
    if !sequence.fits(text) || !is_per_char(text, classes) {
        return Err(RowFault::Line(0, Why::OtherText));
    }
    let blank = Blank::new(1);
    resolve_by::<Brand>(text, sequence, classes, blank);
    Ok(())
}
