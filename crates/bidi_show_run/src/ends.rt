//! Where a run reads from and writes to.
ghost use Rattle.std.specs.Prelude.{◌≡◌, ℕ, ◌+◌, ◌≤◌, List, length, Option, IfOk, OnOk};
ghost use Rattle.std.specs.Io.KnownBytes.{ReadConsumes, Appends};
ghost use Rattle.bidi_show_run.specs.Ends.{failures, ends_met};

/// A read or a write that failed.
#[derive(Clone, Copy, Debug, PartialEq)]
pub struct Failed;

/// An end that a run reads.
pub trait ShowIn {
    /// The bytes that are left, if they are known.
    ghost left: { Self → Option (List ℕ) };

    /// How many reads have failed.
    ghost failed_reads: { Self → ℕ };

    /// How many reads have come to the end: they gave no byte for a buffer with room.
    ghost ended_reads: { Self → ℕ };

    /// Writes the next bytes to the front of the buffer, and returns how many. Returns 0 only at the end, or if the
    /// buffer is empty.
    fn read(&mut self, buffer: &mut [u8]) -> Result<usize, Failed>
        ensures within { IfOk result (λ count. count ≤ length buffer.new) }
        ensures taken { ReadConsumes (left self.old) (left self.new) result buffer.new }
        ensures failed { failed_reads self.new ≡ failed_reads self.old + failures result }
        ensures ended { ended_reads self.new ≡ ended_reads self.old + ends_met result buffer.new };
}

/// An end that a run writes to.
pub trait ShowOut {
    /// The bytes that were written, if they are known.
    ghost written: { Self → Option (List ℕ) };

    /// How many writes have failed.
    ghost failed_writes: { Self → ℕ };

    /// Appends all bytes, and flushes the end. After an error, any number of them may be written.
    fn put(&mut self, bytes: &[u8]) -> Result<(), Failed>
        ensures appended { OnOk result (Appends (written self.old) (written self.new) bytes.now) }
        ensures failed { failed_writes self.new ≡ failed_writes self.old + failures result };
}
