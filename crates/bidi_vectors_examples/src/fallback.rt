//! Prints messages, each as it is displayed in a right-to-left list.

use bidi_unicode::UnicodeData;
use std::io;
use unicode_bidi::text::StrText;
use unicode_bidi::{Base, BidiInfo, RTL_LEVEL, SplitRule};

/// Prints the paragraphs of a message. One without letters is right to left.
pub fn print_message(rt: &(impl Print + AllocGlobal), message: &str) -> io::Result<()> {
    let info = BidiInfo::of_text_with_base(
        rt.alloc(),
        &UnicodeData,
        StrText::new(message),
        Base::AutoOr(RTL_LEVEL),
        SplitRule::CrLfTogether,
    )?;
    for paragraph in info.paragraphs() {
        let shown = info.reorder_line(rt.alloc(), paragraph, paragraph.range())?;
        println!(rt; "{}", shown.as_str())?;
    }
    Ok(())
}
