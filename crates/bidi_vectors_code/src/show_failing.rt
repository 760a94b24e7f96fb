//! Runs of `bidi_show` over a reader or a writer that fails.

use crate::show_run::run_with;
use bidi_show_run::ShowFault;
use std::io::{self, ErrorKind, Read, Write};
use std::process::Abort;
use std::test::Fail;

// A reader over a slice. Each read returns one byte, and fails after so many reads.
#[derive(Drop)]
struct FailingReader<'i> {
    rest: &'i [u8],
    reads_left: usize,
}

impl<'i> Read for FailingReader<'i> {
    fn read(&mut self, buffer: &mut [u8]) -> io::Result<usize> {
        if self.reads_left == 0 {
            return Err(io::Error::from(ErrorKind::Other));
        }
        self.reads_left -= 1;
        match (self.rest, buffer) {
            ([first, rest @ ..], [slot, ..]) => {
                *slot = *first;
                self.rest = rest;
                Ok(1)
            }
            _ => Ok(0),
        }
    }
}

// A writer that counts the bytes that it takes, and fails after so many.
#[derive(Drop)]
struct FailingWriter {
    bytes_left: usize,
}

impl Write for FailingWriter {
    fn write(&mut self, bytes: &[u8]) -> io::Result<usize> {
        if self.bytes_left == 0 {
            return Err(io::Error::from(ErrorKind::StorageFull));
        }
        let count = bytes.len().min(self.bytes_left);
        self.bytes_left -= count;
        Ok(count)
    }

    fn flush(&mut self) -> io::Result<()> {
        Ok(())
    }
}

const INPUT: &[u8] = b"a\nb";

const OUTPUT: &[u8] = b"paragraph 0..2 level 0\nlevels 0 0\ntext a\n\
    paragraph 2..3 level 0\nlevels 0\ntext b\n";

// Tests how a run ends if its reader fails after so many reads, and what it wrote. The input has three bytes, so the
// fourth read comes to the end.
fn check_reader(rt: &(impl Abort + AllocGlobal), reads: usize) -> Result<(), Fail> {
    let reader = FailingReader {
        rest: INPUT,
        reads_left: reads,
    };
    let run = run_with(rt.alloc(), &["show", "auto"], reader, Vec::new(rt.alloc()))?;
    let is_read = reads > INPUT.len();
    let (outcome, output) = if is_read {
        (Ok(()), OUTPUT)
    } else {
        (Err(ShowFault::Device), b"".as_slice())
    };
    assert_eq!(rt; run.outcome, outcome);
    assert_eq!(rt; run.reader.has_failed(), !is_read);
    assert_eq!(rt; run.reader.has_ended(), is_read);
    assert_eq!(rt; run.writer.into_inner().as_slice(), output);
    Ok(())
}

#[test]
fn a_failed_read_is_told_and_nothing_is_written(rt: HostRuntime) -> Result<(), Fail> {
    for reads in 0..6 {
        check_reader(&rt, reads)?;
    }
    Ok(())
}

// Tests how a run ends if its writer fails after so many bytes.
fn check_writer(rt: &(impl Abort + AllocGlobal), bytes: usize) -> Result<(), Fail> {
    let writer = FailingWriter { bytes_left: bytes };
    let run = run_with(rt.alloc(), &["show", "auto"], INPUT, writer)?;
    let is_written = bytes >= OUTPUT.len();
    let outcome = if is_written {
        Ok(())
    } else {
        Err(ShowFault::Device)
    };
    assert_eq!(rt; run.outcome, outcome);
    assert_eq!(rt; run.writer.has_failed(), !is_written);
    assert!(rt; !run.reader.has_failed());
    Ok(())
}

#[test]
fn a_failed_write_is_told(rt: HostRuntime) -> Result<(), Fail> {
    for bytes in 0..OUTPUT.len() + 2 {
        check_writer(&rt, bytes)?;
    }
    Ok(())
}
