//! Prints a text from left to right, for a terminal that does not know the algorithm.

use bidi_unicode::UnicodeData;
use std::io;
use unicode_bidi::BidiInfo;

/// Prints each paragraph of a text as one line. The text has no line feeds.
pub fn print_shown(rt: &(impl Print + AllocGlobal), text: &str) -> io::Result<()> {
    let info = BidiInfo::new_with_data_source(rt.alloc(), &UnicodeData, text, None)?;
    for paragraph in info.paragraphs() {
        let shown = info.reorder_line(rt.alloc(), paragraph, paragraph.range())?;
        println!(rt; "{}", shown.as_str())?;
    }
    Ok(())
}
