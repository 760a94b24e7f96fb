//! Lists over the code units of a text.

use crate::fault::RowFault;
use bidi_text::text::TextSource;
use std::alloc::Global;

/// Returns one entry for each code unit of a text, given one for each character.
pub fn per_unit<T: TextSource, X: Copy>(
    alloc: Global,
    text: T,
    entries: &[X],
) -> Result<Vec<X>, RowFault> {
    let lengths: Vec<(usize, usize)> = text.indices_lengths().collect(alloc)?;
    let mut units = Vec::new(alloc);
    for ((_, length), entry) in lengths.iter().zip(entries) {
        for _ in 0..*length {
            units.push(*entry)?;
        }
    }
    Ok(units)
}
