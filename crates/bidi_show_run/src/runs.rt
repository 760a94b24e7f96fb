//! A run of the program.
ghost use Rattle.std.specs.Prelude.{◌≡◌, ◌≢◌, ◌+◌, ◌<◌, ◌↔◌, false, map, string_bytes, OnOk, IfErr, IfSome, IsNone, IsErrOf};
ghost use Rattle.bidi_show_run.specs.Commands.{command_of, reads_input};
ghost use Rattle.bidi_show_run.specs.Ends.{Opens, ReadsToEnd, ReportsNotUtf8};
ghost use Rattle.bidi_show_run.specs.Faults.{device_faults};
ghost use Rattle.bidi_show_run.specs.Runs.{IsRunOf};
ghost use Rattle.bidi_show_run.specs.Texts.{WritesAnswer};
ghost use Rattle.bidi_show_run.specs.declared.fault.ShowFault.TheVariants.{Usage, Device};

use crate::answers::answer;
use crate::command::Command;
use crate::ends::{ShowIn, ShowOut};
use crate::fault::ShowFault;
use crate::streams::{StreamIn, StreamOut, WatchedReader, WatchedWriter};
use std::alloc::Global;
use std::io::{Read, Write};
use std::marker::Brand;
use std::sync::ledger::{Blank, Ledger};

/// Writes what the arguments ask for.
///
/// - `map` and levels, each a number from 0 to 126 of one to three digits: their visual order, as indexes separated by
///   one space and ended by a line feed. Nothing is read.
/// - `show` and `auto`, `ltr` or `rtl` (no base level, 0 or 1): three lines for each paragraph of the input, by the
///   sample table. The first has its range, in bytes, and its level. The second has the level of each of its
///   characters. The third has its text from left to right, without the separator that ends it. The sample table has
///   the Hebrew letters, and the Arabic ones from U+0627 to U+064A. Hebrew points, the letters that Persian adds, and
///   Syriac have class L in it.
/// - `lines`, one of the same base levels and a limit of one to three digits: for each such paragraph its lines of at
///   most so many characters, from left to right, each ended by a line feed. A paragraph that is only a separator is
///   one empty line.
///
/// The error is `Usage` exactly if the arguments are no command, `NotUtf8` exactly if reading came to the end and the
/// bytes are not UTF-8, and `Device` exactly if a read or a write failed. `Memory` means that an allocation failed: no
/// clause says so, but tests show it. After an error other than `Device`, or after a failed read, the output is
/// unchanged.
pub fn run<R: ShowIn, W: ShowOut>(
    alloc: Global,
    words: &[String],
    input: &mut R,
    output: &mut W,
) -> Result<(), ShowFault>
    ensures usage { IsErrOf result Usage ↔ IsNone (command_of (map string_bytes words.now)) }
    ensures not_utf8 { ReportsNotUtf8 R.left R.ended_reads result input.old input.new }
    ensures ended { ReadsToEnd (reads_input (command_of (map string_bytes words.now))) result
        (R.ended_reads input.old) (R.ended_reads input.new) (R.left input.new) }
    ensures device { IsErrOf result Device ↔
        (R.failed_reads input.old + W.failed_writes output.old
        < R.failed_reads input.new + W.failed_writes output.new) }
    ensures counted { R.failed_reads input.new + W.failed_writes output.new
        ≡ R.failed_reads input.old + W.failed_writes output.old + device_faults result }

    ensures written { OnOk result (
        IfSome (command_of (map string_bytes words.now)) (λ command.
        WritesAnswer command (R.left input.old) (R.left input.new) (W.written output.old) (W.written output.new))) }
    ensures unchanged { IfErr result (λ fault. fault ≢ Device → output.new ≡ output.old) }
    // A read that failed leaves the output unchanged too.
    ensures unchanged_if_read_fails { R.failed_reads input.old < R.failed_reads input.new → output.new ≡ output.old }
    ensures unread { reads_input (command_of (map string_bytes words.now)) ≡ false → input.new ≡ input.old }
{
    let Some(command) = Command::parse(words) else {
        return Err(ShowFault::Usage);
    };
    let text = answer(alloc, &command, input)?;
    output.put(text.as_bytes())?;
    Ok(())
}

/// A run that has ended.
#[derive(Drop)]
pub struct Finished<R, W> {
    /// How it ended.
    pub outcome: Result<(), ShowFault>,
    /// The reader, as the run left it.
    pub reader: WatchedReader<R>,
    /// The writer, as the run left it.
    pub writer: WatchedWriter<W>,
}

// The blanks that open the ledgers of a run. They have no bytes at run time.
#[derive(Drop)]
struct Blanks {
    failed_reads: Blank,
    ended_reads: Blank,
    failed_writes: Blank,
}

// Runs the program, and counts in the ledgers of these blanks.
fn run_counted<F: Ledger, E: Ledger, O: Ledger, R: Read + Drop, W: Write + Drop>(
    alloc: Global,
    words: &[String],
    reader: R,
    writer: W,
    blanks: Blanks,
) -> Finished<R, W>
    requires failed_reads { Opens blanks.failed_reads F.name F.parts }
    requires ended_reads { Opens blanks.ended_reads E.name E.parts }
    requires failed_writes { Opens blanks.failed_writes O.name O.parts }
    ensures { IsRunOf R.remaining W.contents (map string_bytes words.now) reader writer result }
{
    let mut input = StreamIn::<R, F, E>::new(reader, blanks.failed_reads, blanks.ended_reads);
    let mut output = StreamOut::<W, O>::new(writer, blanks.failed_writes);
    let outcome = run(alloc, words, &mut input, &mut output);
    Finished {
        outcome,
        reader: input.into_watched(),
        writer: output.into_watched(),
    }
}

/// Runs the program over a reader and a writer, and returns both. The writer is flushed.
///
/// Promises what [`run`] promises. The returned reader and writer know whether a read or a write failed, and whether a
/// read came to the end.
pub fn run_over_streams<R: Read + Drop, W: Write + Drop>(
    alloc: Global,
    words: &[String],
    reader: R,
    writer: W,
) -> Finished<R, W>
    ensures { IsRunOf R.remaining W.contents (map string_bytes words.now) reader writer result }
{
    let blanks = Blanks {
        failed_reads: Blank::new(1),
        ended_reads: Blank::new(1),
        failed_writes: Blank::new(1),
    };
    run_counted::<Brand, Brand, Brand, R, W>(alloc, words, reader, writer, blanks)
}
