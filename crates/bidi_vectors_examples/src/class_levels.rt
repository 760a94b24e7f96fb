//! Prints the levels of classes and brackets, without a text.

use std::io;
use unicode_bidi::BidiClass;
use unicode_bidi::engine::analyse;
use unicode_bidi::text::{ClassData, ClassText, bracket_codes_fault};

/// Prints the level of each class. There must be a bracket code for each.
pub fn print_levels(
    rt: &(impl Print + AllocGlobal),
    classes: &[BidiClass],
    brackets: &[u32],
) -> io::Result<()> {
    if brackets.len() != classes.len() || bracket_codes_fault(brackets).is_some() {
        return Ok(());
    }
    let text = ClassText::new(classes, brackets);
    let analysis = analyse(rt.alloc(), &ClassData, text, None, true)?;
    for level in analysis.levels() {
        println!(rt; "{}", level.number())?;
    }
    Ok(())
}
