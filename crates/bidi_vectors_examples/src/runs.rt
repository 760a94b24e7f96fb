//! Prints the visual runs of a text, from left to right.

use bidi_unicode::UnicodeData;
use std::io;
use unicode_bidi::BidiInfo;

/// Prints the bytes, the level and the text of each run, and the text as it is shown.
pub fn print_runs(rt: &(impl Print + AllocGlobal), text: &str) -> io::Result<()> {
    let info = BidiInfo::new_with_data_source(rt.alloc(), &UnicodeData, text, None)?;
    for paragraph in info.paragraphs() {
        for shown in &info.run_texts(rt.alloc(), paragraph, paragraph.range())? {
            let (start, end) = (shown.run.range.start, shown.run.range.end);
            let (level, run_text) = (shown.run.level, shown.text.as_str());
            let number = level.number();
            print!(rt; "{start}..{end}, level {number}: [{run_text}] is shown as [")?;
            if level.is_rtl() {
                for c in run_text.chars().rev() {
                    print!(rt; "{c}")?;
                }
            } else {
                print!(rt; "{run_text}")?;
            }
            println!(rt; "]")?;
        }
    }
    Ok(())
}
