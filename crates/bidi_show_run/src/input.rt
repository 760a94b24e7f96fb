//! The bytes of an input.
ghost use Rattle.std.specs.Prelude.{◌≡◌, ◌+◌, IfOk, IsErrOf};
ghost use Rattle.bidi_show_run.specs.Ends.{successes};
ghost use Rattle.bidi_show_run.specs.Faults.{CountsFaults};
ghost use Rattle.bidi_show_run.specs.Texts.{ReadsAll};
ghost use Rattle.bidi_show_run.specs.declared.fault.ShowFault.TheVariants.{Usage, NotUtf8};

use crate::ends::ShowIn;
use crate::fault::ShowFault;
use std::alloc::Global;

// The maximum number of bytes of one read.
const CHUNK: usize = 8192;

/// Returns all bytes that an input has left: reads it until a read returns none. Returns `Device` if a read fails, or
/// `Memory` if an allocation fails.
pub fn read_all<R: ShowIn>(alloc: Global, input: &mut R) -> Result<Vec<u8>, ShowFault>
    ensures read { IfOk result (λ v. ReadsAll (R.left input.old) (R.left input.new) v.items) }
    ensures usage { ¬ IsErrOf result Usage }
    ensures not_utf8 { ¬ IsErrOf result NotUtf8 }
    ensures failed { CountsFaults R.failed_reads result input.old input.new }
    ensures ended { R.ended_reads input.new ≡ R.ended_reads input.old + successes result }
{
    let mut bytes = Vec::new(alloc);
    let mut chunk = [0; CHUNK];
    loop {
        let count = input.read(&mut chunk)?;
        if count == 0 {
            return Ok(bytes);
        }
        bytes.extend_from_slice(&chunk[..count])?;
    }
}
