//! Tests of what is one placeholder or one number.

use bidi_controls::placeholders::PlaceholderState;
use std::process::Abort;
use std::test::Fail;

// Contents of placeholder isolates.
const PLACEHOLDERS: [&str; 26] = [
    "12",
    " 12 ",
    "%s",
    "%d",
    "%ld",
    "%S",
    "%@",
    "%.2f",
    "%5d",
    "%1$s",
    "%1$.2f",
    "%1",
    "%PRODUCTNAME",
    "{0}",
    "{name}",
    "{ $name }",
    "{$name}",
    "{ -brand-short-name }",
    "$name",
    "$name$",
    "${name}",
    "${ name }",
    "$1",
    "$(ARG1)",
    "\u{5E9}\u{5DD} %s",
    "%s \u{5E9}\u{5DD}",
];

// Contents of other isolates.
const OTHERS: [&str; 25] = [
    "",
    " ",
    "abc",
    "1 2",
    "%s %d",
    "{0} {1}",
    "%s:",
    "\"%s\"",
    "1-2",
    "1.5",
    "%",
    "$",
    "%1$",
    "{}",
    "{ }",
    "{0",
    "{$}",
    "{\u{5E9}\u{5DD}}",
    "$()",
    "$(a b)",
    "/*%s*/",
    "%s\t",
    "<%s>",
    "#1",
    "&name;",
];

// Returns whether a text is one placeholder or one number.
fn is_placeholder(text: &str) -> bool {
    let mut state = PlaceholderState::Before;
    for c in text.chars() {
        match state.step(c) {
            Some(next) => state = next,
            None => return false,
        }
    }
    state.accepts()
}

#[test]
fn placeholders_and_others(rt: HostRuntime) -> Result<(), Fail> {
    for text in PLACEHOLDERS {
        assert!(rt; is_placeholder(text));
    }
    for text in OTHERS {
        assert!(rt; !is_placeholder(text));
    }
    Ok(())
}
