//! Prints a list of messages, each as it is displayed.

use bidi_display::options::DisplayOptions;
use bidi_display::text_display::TextDisplay;
use bidi_unicode::UnicodeData;
use std::io;
use unicode_bidi::text::StrText;
use unicode_bidi::{Base, SplitRule};

/// Prints each message from left to right, in memory that is kept from one to the next.
pub fn print_messages(rt: &(impl Print + AllocGlobal), messages: &[&str]) -> io::Result<()> {
    let mut display = TextDisplay::new(rt.alloc(), DisplayOptions::default());
    let mut shown = String::new(rt.alloc());
    for message in messages {
        shown.clear();
        display.display(
            rt.alloc(),
            &UnicodeData,
            StrText::new(message),
            Base::Auto,
            SplitRule::CrLfTogether,
            &UnicodeData,
            &mut shown,
        )?;
        println!(rt; "{}", shown.as_str())?;
    }
    Ok(())
}
