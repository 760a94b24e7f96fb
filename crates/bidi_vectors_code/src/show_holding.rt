//! Runs of `bidi_show` over a writer that holds bytes back until it is flushed, as standard output may. No contract of
//! `Write` says whether a writer was flushed.

use crate::show_run::run_with;
use bidi_show_run::{Finished, ShowFault};
use std::alloc::{AllocError, Global};
use std::io::{self, ErrorKind, Write};
use std::test::Fail;

// A writer that holds bytes back, and counts them.
#[derive(Drop)]
struct Holding {
    held: usize,
    handed_on: usize,
    // Whether it fails to pass bytes on.
    is_full: bool,
}

impl Write for Holding {
    fn write(&mut self, bytes: &[u8]) -> io::Result<usize> {
        self.held = self.held.wrapping_add(bytes.len());
        Ok(bytes.len())
    }

    fn flush(&mut self) -> io::Result<()> {
        if self.is_full {
            return Err(io::Error::from(ErrorKind::StorageFull));
        }
        self.handed_on = self.held;
        Ok(())
    }
}

// Runs `map 0`, which writes two bytes.
fn run_map(alloc: Global, is_full: bool) -> Result<Finished<&'static [u8], Holding>, AllocError> {
    let writer = Holding {
        held: 0,
        handed_on: 0,
        is_full,
    };
    run_with(alloc, &["map", "0"], b"".as_slice(), writer)
}

#[test]
fn bytes_held_back_are_handed_on(rt: HostRuntime) -> Result<(), Fail> {
    let run = run_map(rt.alloc(), false)?;
    assert_eq!(rt; run.outcome, Ok(()));
    assert_eq!(rt; run.writer.into_inner().handed_on, 2);
    Ok(())
}

#[test]
fn a_failed_flush_is_told(rt: HostRuntime) -> Result<(), Fail> {
    let run = run_map(rt.alloc(), true)?;
    assert_eq!(rt; run.outcome, Err(ShowFault::Device));
    Ok(())
}
