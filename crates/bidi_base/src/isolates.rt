//! The stack of open isolates, used to build isolating run sequences (BD13).

ghost use Rattle.std.specs.Prelude.{◌≡◌, OnOk};
ghost use Rattle.bidi_base.specs.SequencePass.{read_class, waiting_for};

use crate::char_data::BidiClass;
use std::alloc::AllocError;

/// For each open isolate, the index of the sequence that its PDI continues. The innermost is last.
///
/// This is the sequence of the initiator, or `None` if the level run continues after the initiator.
pub type WaitingSequences = Vec<Option<usize>>;

/// Updates the open isolates for a character of this class.
///
/// An isolate initiator pushes `wait`, and a PDI pops the innermost isolate. Returns an error only
/// if an allocation fails. `waiting` may then hold anything.
pub fn read_class(
    waiting: &mut WaitingSequences,
    class: BidiClass,
    wait: Option<usize>,
) -> Result<(), AllocError>
    ensures { OnOk result (waiting.new.items ≡ read_class class wait waiting.old.items) }
{
    match class {
        BidiClass::LRI | BidiClass::RLI | BidiClass::FSI => waiting.push(wait)?,
        BidiClass::PDI => {
            let _ = waiting.pop();
        }
        _ => {}
    }
    Ok(())
}

/// Returns the sequence that a character of this class continues if it begins a level run.
///
/// Only a PDI continues a sequence: the one stored for the innermost open isolate.
pub fn waiting_for(waiting: &[Option<usize>], class: BidiClass) -> Option<usize>
    ensures { result ≡ waiting_for class waiting.now }
{
    match class {
        BidiClass::PDI => match waiting.last() {
            Some(wait) => *wait,
            None => None,
        },
        _ => None,
    }
}
