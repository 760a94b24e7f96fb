//! The controls of a paragraph that have no match in it.
ghost use Rattle.std.specs.Prelude.{◌≡◌, ◌<◌, ◌++◌, ◌&&◌, [], ◌∷◌, map, vec_len, is_none, OnOk};
ghost use Rattle.std.specs.Option.{ForSome};
ghost use Rattle.bidi_base.specs.Indexes.{indexes};
ghost use Rattle.bidi_controls.specs.Matches.{is_control, is_unmatched as is_unmatched_in};
ghost use Rattle.bidi_controls.specs.OpenOpeners.{with_closed};

use crate::openers::Openers;
use bidi_base::char_data::BidiClass;
use bidi_base::classes::{is_embedding_initiator, is_isolate_initiator, is_pdi};
use bidi_base::data_source::BidiDataSource;
use std::alloc::AllocError;

/// Returns whether a character of this class opens or closes something.
pub(crate) fn is_control(class: BidiClass) -> bool
    ensures { result ≡ is_control class }
{
    is_isolate_initiator(class)
        || is_embedding_initiator(class)
        || is_pdi(class)
        || matches!(class, BidiClass::PDF)
}

/// Appends whether a character of this class is a control without a match so far. It closed what is at the index
/// `closed`, if there is one.
fn note_character(
    unmatched: &mut Vec<bool>,
    closed: Option<usize>,
    class: BidiClass,
) -> Result<(), AllocError>
    requires { ForSome closed (λ place. place < vec_len unmatched.old) }
    ensures { OnOk result (unmatched.new.items
        ≡ with_closed closed unmatched.old.items ++ (is_none closed && is_control class) ∷ []) }
{
    match closed {
        Some(place) => {
            unmatched[place] = false;
            unmatched.push(false)?;
        }
        None => unmatched.push(is_control(class))?,
    }
    Ok(())
}

/// Writes for each character of a paragraph whether it is a control without its match in it.
///
/// Replaces the contents of `unmatched` and of `openers`, and reuses their memory. Returns an error if an allocation
/// fails.
pub fn find_unmatched<D: BidiDataSource>(
    data_source: &D,
    line: &[char],
    openers: &mut Openers,
    unmatched: &mut Vec<bool>,
) -> Result<(), AllocError>
    ensures { OnOk result (unmatched.new.items
        ≡ map (is_unmatched_in (map (D.source data_source.now).class_of line.now)) (indexes line.now)) }
{
    openers.clear();
    unmatched.clear();
    for (place, c) in line.iter().enumerate() {
        let class = data_source.bidi_class(*c);
        let closed = openers.close(class);
        note_character(unmatched, closed, class)?;
        openers.open(place, class)?;
    }
    Ok(())
}
