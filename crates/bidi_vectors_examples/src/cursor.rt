//! Prints where the caret of an editor is at each offset of a text.

use bidi_display::displayed_line::DisplayedLine;
use bidi_display::options::DisplayOptions;
use bidi_display::width::ClusterColumns;
use bidi_unicode::UnicodeData;
use std::io;
use unicode_bidi::BidiInfo;

/// Prints the two columns of the caret before each grapheme cluster of a text, and at the end of each paragraph. Each
/// paragraph is one line, without its separator.
pub fn print_carets(rt: &(impl Print + AllocGlobal), text: &str) -> io::Result<()> {
    let info = BidiInfo::new_with_data_source(rt.alloc(), &UnicodeData, text, None)?;
    let widths = ClusterColumns::default();
    let mut line = DisplayedLine::new(rt.alloc(), DisplayOptions::default());
    for paragraph in info.paragraphs() {
        line.show_line(&info, paragraph, info.content(paragraph), &widths)?;
        let range = line.range();
        for offset in range.start..=range.end {
            if let Some(caret) = line.caret(offset) {
                let (before, after) = (caret.before, caret.after);
                println!(rt; "{offset}: {before} {after}")?;
            }
        }
    }
    Ok(())
}
