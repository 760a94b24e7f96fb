//! Ends over readers and writers. Clauses know the bytes of an end if they know those of the reader or the writer:
//! those of a list in memory, but not those of standard input and output.
ghost use Rattle.std.specs.Prelude.{◌≡◌, false, nat_lt};
ghost use Rattle.bidi_show_run.specs.Ends.{Opens};

use crate::ends::{Failed, ShowIn, ShowOut};
use std::io::{Read, Write};
use std::sync::ledger::{Blank, Ledger};
use unicode_bidi::prepare::Steps;

/// A reader, and whether a read has failed or has come to the end. Only a read of a [`StreamIn`] changes that.
#[derive(Drop)]
pub struct WatchedReader<R> {
    reader: R,
    has_failed: bool,
    has_ended: bool,
}

impl<R> WatchedReader<R> {
    ghost use Rattle.bidi_show_run.specs.Streams.{reader_of, has_read_failed, has_read_ended};

    // Returns a reader of which no read has failed or come to the end yet.
    fn new(reader: R) -> WatchedReader<R>
        ensures reader { reader_of result ≡ reader }
        ensures failed { has_read_failed result ≡ false }
        ensures ended { has_read_ended result ≡ false }
    {
        WatchedReader {
            reader,
            has_failed: false,
            has_ended: false,
        }
    }

    /// Returns whether a read has failed.
    pub fn has_failed(&self) -> bool
        ensures { result ≡ has_read_failed self.now }
    {
        self.has_failed
    }

    /// Returns whether a read has come to the end: it returned no byte for a buffer with room.
    pub fn has_ended(&self) -> bool
        ensures { result ≡ has_read_ended self.now }
    {
        self.has_ended
    }

    /// Returns the reader.
    pub fn into_inner(self) -> R
        ensures { result ≡ reader_of self }
    {
        self.reader
    }
}

/// A writer, and whether a write to it has failed. Only a `put` of a [`StreamOut`] that failed changes that.
#[derive(Drop)]
pub struct WatchedWriter<W> {
    writer: W,
    has_failed: bool,
}

impl<W> WatchedWriter<W> {
    ghost use Rattle.bidi_show_run.specs.Streams.{writer_of, has_write_failed};

    // Returns a writer of which no write has failed yet.
    fn new(writer: W) -> WatchedWriter<W>
        ensures writer { writer_of result ≡ writer }
        ensures failed { has_write_failed result ≡ false }
    {
        WatchedWriter {
            writer,
            has_failed: false,
        }
    }

    /// Returns whether a write has failed.
    pub fn has_failed(&self) -> bool
        ensures { result ≡ has_write_failed self.now }
    {
        self.has_failed
    }

    /// Returns the writer.
    pub fn into_inner(self) -> W
        ensures { result ≡ writer_of self }
    {
        self.writer
    }
}

/// An end over a reader. Its parameters name the ledgers of its two counts.
#[derive(Drop)]
pub struct StreamIn<R, F: Ledger, E: Ledger> {
    watched: WatchedReader<R>,
    failed: Steps<F>,
    ended: Steps<E>,
    ghost reports_failed: { watched.has_failed ≡ nat_lt 0 failed },
    ghost reports_ended: { watched.has_ended ≡ nat_lt 0 ended },
}

impl<R: Read, F: Ledger, E: Ledger> StreamIn<R, F, E> {
    ghost use Rattle.bidi_show_run.specs.Streams.{reader_of, read_end, failed_reads_of, ended_reads_of};

    /// Returns an end over a reader. No read has failed or come to the end yet. The blanks open the ledgers that count
    /// such reads.
    pub fn new(reader: R, failed: Blank, ended: Blank) -> StreamIn<R, F, E>
        requires failed { Opens failed F.name F.parts }
        requires ended { Opens ended E.name E.parts }
        ensures reader { reader_of (read_end result) ≡ reader }
        ensures failed { failed_reads_of result ≡ 0 }
        ensures ended { ended_reads_of result ≡ 0 }
    {
        StreamIn {
            watched: WatchedReader::new(reader),
            failed: Steps::new(failed),
            ended: Steps::new(ended),
        }
    }

    /// Returns the reader, and whether a read has failed or has come to the end.
    pub fn into_watched(self) -> WatchedReader<R>
        ensures { result ≡ read_end self }
    {
        self.watched
    }
}

impl<R: Read, F: Ledger, E: Ledger> ShowIn for StreamIn<R, F, E> {
    ghost use Rattle.bidi_show_run.specs.Streams.{reader_of, read_end, failed_reads_of, ended_reads_of};

    ghost left = { λ s. R.remaining (reader_of (read_end s)) };

    ghost failed_reads = { failed_reads_of };

    ghost ended_reads = { ended_reads_of };

    fn read(&mut self, buffer: &mut [u8]) -> Result<usize, Failed> {
        let Ok(count) = self.watched.reader.read(buffer) else {
            self.watched.has_failed = true;
            self.failed.tick();
            return Err(Failed);
        };
        if count == 0 && !buffer.is_empty() {
            self.watched.has_ended = true;
            self.ended.tick();
        }
        Ok(count)
    }
}

/// An end over a writer, which is flushed at each `put`. Its last parameter names the ledger of its count.
#[derive(Drop)]
pub struct StreamOut<W, L: Ledger> {
    watched: WatchedWriter<W>,
    failed: Steps<L>,
    ghost reports_failed: { watched.has_failed ≡ nat_lt 0 failed },
}

impl<W: Write, L: Ledger> StreamOut<W, L> {
    ghost use Rattle.bidi_show_run.specs.Streams.{writer_of, written_end, failed_writes_of};

    /// Returns an end over a writer. No write has failed yet. The blank opens the ledger that counts such writes.
    pub fn new(writer: W, failed: Blank) -> StreamOut<W, L>
        requires { Opens failed L.name L.parts }
        ensures writer { writer_of (written_end result) ≡ writer }
        ensures failed { failed_writes_of result ≡ 0 }
    {
        StreamOut {
            watched: WatchedWriter::new(writer),
            failed: Steps::new(failed),
        }
    }

    /// Returns the writer, and whether a write to it has failed.
    pub fn into_watched(self) -> WatchedWriter<W>
        ensures { result ≡ written_end self }
    {
        self.watched
    }
}

impl<W: Write, L: Ledger> ShowOut for StreamOut<W, L> {
    ghost use Rattle.bidi_show_run.specs.Streams.{writer_of, written_end, failed_writes_of};

    ghost written = { λ s. W.contents (writer_of (written_end s)) };

    ghost failed_writes = { failed_writes_of };

    fn put(&mut self, bytes: &[u8]) -> Result<(), Failed> {
        let writer = &mut self.watched.writer;
        if writer.write_all(bytes).is_err() || writer.flush().is_err() {
            self.watched.has_failed = true;
            self.failed.tick();
            return Err(Failed);
        }
        Ok(())
    }
}
