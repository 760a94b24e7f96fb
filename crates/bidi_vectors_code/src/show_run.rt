//! A run of `bidi_show` with its arguments as texts.

use bidi_show_run::{Finished, run_over_streams};
use std::alloc::{AllocError, Global};
use std::io::{Read, Write};

/// Runs the program with these arguments over a reader and a writer.
pub fn run_with<R: Read + Drop, W: Write + Drop>(
    alloc: Global,
    arguments: &[&str],
    reader: R,
    writer: W,
) -> Result<Finished<R, W>, AllocError> {
    let mut words = Vec::new(alloc);
    for argument in arguments {
        words.push(String::from_str(alloc, argument)?)?;
    }
    Ok(run_over_streams(alloc, words.as_slice(), reader, writer))
}
