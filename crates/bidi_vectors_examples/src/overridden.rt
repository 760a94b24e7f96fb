//! Prints a path of a file, whose parts stay in the order of the path.

use bidi_unicode::UnicodeData;
use std::io;
use unicode_bidi::overridden::Overridden;
use unicode_bidi::{BidiClass, BidiInfo, LTR_LEVEL};

/// Prints a path from left to right. Each `/` has the class L.
pub fn print_path(rt: &(impl Print + AllocGlobal), path: &str) -> io::Result<()> {
    let classes = [('/', BidiClass::L)];
    let source = Overridden::new(&UnicodeData, &classes);
    let info = BidiInfo::new_with_data_source(rt.alloc(), &source, path, Some(LTR_LEVEL))?;
    for paragraph in info.paragraphs() {
        let shown = info.reorder_line(rt.alloc(), paragraph, paragraph.range())?;
        println!(rt; "{}", shown.as_str())?;
    }
    Ok(())
}
