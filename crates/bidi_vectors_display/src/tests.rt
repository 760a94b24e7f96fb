//! Worked lines and texts, for calls that no row makes: clusters by their code units and columns, text that is not
//! mirrored, and a text after another one.

use crate::case::{Base, Case, Encoding, Widths};
use crate::encodings::displayed_case;
use bidi_display::carets::{Affinity, Caret};
use bidi_display::displayed_line::DisplayedLine;
use bidi_display::options::DisplayOptions;
use bidi_display::text::Unmirrored;
use bidi_display::text_display::TextDisplay;
use bidi_display::width::ClusterColumns;
use bidi_text::text::{StrText, is_line};
use bidi_unicode::UnicodeData;
use std::alloc::Global;
use std::fmt::Debug;
use std::process::Abort;
use std::test::Fail;
use unicode_bidi::{LTR_LEVEL, ParagraphBidiInfo, SplitRule};

// Asserts that two values are equal. The message of a failure names `what`.
fn same<T: PartialEq + Debug + Drop>(rt: &impl Abort, what: &str, found: T, wanted: T) {
    assert_eq!(rt; found, wanted, "{what}");
}

// Shows a text of UTF-8 that is one line, at a base level.
fn shown(alloc: Global, text: &str, base: Base) -> Result<DisplayedLine, Fail> {
    let case = Case {
        encoding: Encoding::Utf8,
        base,
        options: DisplayOptions::default(),
        widths: Widths::Signs,
        chars: text.chars().collect(alloc)?,
    };
    let line = displayed_case(alloc, &case)?;
    Ok(line)
}

#[test]
fn unmirrored(rt: HostRuntime) -> Result<(), Fail> {
    let line = shown(rt.alloc(), "\u{5D0}(", Base::Rtl)?;
    let mut out = String::new(rt.alloc());
    line.push_text(&Unmirrored, &mut out)?;
    same(&rt, "unmirrored", out.as_str(), "(\u{5D0}");
    Ok(())
}

// Shin with its dot and hiriq, between two letters.
const POINTED: &str = "\u{5D0}\u{5E9}\u{5C1}\u{5B4}\u{5D1}";

#[test]
fn the_cluster_of_a_code_unit(rt: HostRuntime) -> Result<(), Fail> {
    let line = shown(rt.alloc(), POINTED, Base::Rtl)?;
    same(&rt, "inside", line.caret(4), None);
    same(&rt, "past the end", line.caret(11), None);
    same(&rt, "its cluster", line.cluster_at(4), Some(1));
    same(&rt, "no cluster", line.cluster_at(10), None);
    Ok(())
}

// Of four regional indicators, the line begins with the second one, which forms a flag with the third.
#[test]
fn the_cluster_of_a_code_unit_in_a_part(rt: HostRuntime) -> Result<(), Fail> {
    let text = "\u{1F1EE}\u{1F1F1}\u{1F1EC}\u{1F1E7}";
    let info = ParagraphBidiInfo::new_with_data_source(rt.alloc(), &UnicodeData, text, None)?;
    let mut line = DisplayedLine::new(rt.alloc(), DisplayOptions::default());
    let part = 4..16;
    assert!(rt; is_line(info.text_source(), &part));
    line.show_paragraph_line(&info, part, &ClusterColumns::default())?;
    same(&rt, "in the flag", line.cluster_at(8), Some(0));
    same(&rt, "after the flag", line.cluster_at(12), Some(1));
    same(&rt, "before the line", line.cluster_at(3), None);
    Ok(())
}

#[test]
fn the_cluster_at_a_column(rt: HostRuntime) -> Result<(), Fail> {
    let line = shown(rt.alloc(), "\u{5D0}\u{5D1} ab", Base::Ltr)?;
    same(&rt, "on the first cell", line.cluster_at_column(0), Some(1));
    same(&rt, "after the line", line.cluster_at_column(5), None);
    Ok(())
}

#[test]
fn the_sides_of_a_caret(rt: HostRuntime) {
    let caret = Caret {
        before: 7,
        after: 4,
    };
    same(&rt, "before", caret.column(Affinity::Before), 7);
    same(&rt, "after", caret.column(Affinity::After), 4);
}

// The carriage return and the line feed stay in order, and the memory serves a second text.
#[test]
fn texts_one_after_another(rt: HostRuntime) -> Result<(), Fail> {
    let mut display = TextDisplay::new(rt.alloc(), DisplayOptions::default());
    let rule = SplitRule::CrLfTogether;
    let longer = StrText::new("abc\n\n\u{5D0}\u{5D1}\u{5D2}");
    display.analyse(
        rt.alloc(),
        &UnicodeData,
        longer,
        unicode_bidi::Base::Auto,
        rule,
    )?;
    let line = 0..3;
    assert!(rt; is_line(longer, &line));
    display.show_line(longer, LTR_LEVEL, line, &ClusterColumns::default())?;
    same(&rt, "the width of a line", display.line().width(), 3);
    let text = StrText::new("\u{5D0}(b)\r\n\r\n");
    display.analyse(
        rt.alloc(),
        &UnicodeData,
        text,
        unicode_bidi::Base::Auto,
        rule,
    )?;
    let mut out = String::new(rt.alloc());
    display.push_text(text, &UnicodeData, &mut out)?;
    // Levels 1 1 2 1: the brackets have only an L between them, and an R before them (N0).
    same(&rt, "the text", out.as_str(), "(b)\u{5D0}\r\n\r\n");
    same(&rt, "the classes", display.classes().len(), 9);
    same(&rt, "the levels", display.levels().len(), 9);
    Ok(())
}
