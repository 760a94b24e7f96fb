//! The part of a line that a report shows.
ghost use Rattle.std.specs.Prelude.{◌≡◌, ◌++◌, ◌≤◌, ◌<◌, flat_map, min, if◌then◌else◌, [], OnOk, string_bytes};
ghost use Rattle.bidi_reports.specs.Parts.{is_right_to_left, is_hidden_in_line, is_marked, escape_of, plain_char, marked_char, part_start, part_end, dots, marked_part, shown_columns, blanks, blank_part};

use bidi_base::classes::may_turn;
use bidi_base::data_source::BidiDataSource;
use bidi_shown::cluster::columns;
use bidi_terminal::names::is_hidden;
use bidi_terminal::push_code_point;
use bidi_unicode::UnicodeData;
use std::alloc::AllocError;

/// The escape sequence that sets bold text.
pub const BOLD: &str = "\u{1B}[1m";

/// The escape sequence that sets bold red text.
pub const BOLD_RED: &str = "\u{1B}[1;31m";

/// The escape sequence that sets reverse video.
const REVERSE_VIDEO: &str = "\u{1B}[7m";

/// The escape sequence that resets the style.
pub const AS_BEFORE: &str = "\u{1B}[0m";

// The maximum number of characters of a line that are shown, and how many of them are before the index that matters.
const MOST_SHOWN: usize = 200;

const SHOWN_BEFORE: usize = 100;

/// Appends an escape sequence, if `colors` is true.
pub fn push_style(out: &mut String, colors: bool, style: &str) -> Result<(), AllocError>
    ensures { OnOk result (string_bytes out.new ≡ string_bytes out.old ++ (if colors then style.now else [])) }
{
    if colors { out.push_str(style) } else { Ok(()) }
}

/// Which characters of a line are written by their code points, as in `<U+202E>`.
#[derive(Clone, Copy, Debug, PartialEq)]
pub enum Escapes {
    /// Hidden characters, but for a tab, which is written as a space.
    Hidden,
    /// Characters of right-to-left text too: those of the classes R, AL and AN in Unicode's data. Without them and without
    /// controls, each character of a line that is displayed from left to right has level 0.
    HiddenAndRightToLeft,
}

// Returns whether a character can keep a line from being all left to right.
fn is_right_to_left(c: char) -> bool
    ensures { result ≡ is_right_to_left c }
{
    may_turn(UnicodeData.bidi_class(c))
}

// Returns whether a character is hidden and not a tab.
fn is_hidden_in_line(c: char) -> bool
    ensures { result ≡ is_hidden_in_line c }
{
    is_hidden(c) && c != '\t'
}

impl Escapes {
    // Returns whether a character is written by its code point.
    fn marks(self, c: char) -> bool
        ensures { result ≡ is_marked self c }
    {
        match self {
            Escapes::Hidden => is_hidden_in_line(c),
            Escapes::HiddenAndRightToLeft => is_hidden_in_line(c) || is_right_to_left(c),
        }
    }
}

// Appends a character by its code point.
#[tactic(auto, unfolding(crate::specs::Parts::escape_of))]
fn push_escape(out: &mut String, c: char) -> Result<(), AllocError>
    ensures { OnOk result (string_bytes out.new ≡ string_bytes out.old ++ escape_of c) }
{
    out.push_str("<U+")?;
    push_code_point(out, c)?;
    out.push_str(">")
}

// Appends a character that is not written by its code point. A backslash is not doubled, since lines of source code have
// many.
fn push_plain(out: &mut String, c: char) -> Result<(), AllocError>
    ensures { OnOk result (string_bytes out.new ≡ string_bytes out.old ++ plain_char c) }
{
    if c == '\t' {
        return out.push_str(" ");
    }
    out.push(c)
}

// Appends a character of a line.
fn push_marked(out: &mut String, escapes: Escapes, colors: bool, c: char) -> Result<(), AllocError>
    ensures { OnOk result (string_bytes out.new ≡ string_bytes out.old ++ marked_char escapes colors c) }
{
    if !escapes.marks(c) {
        return push_plain(out, c);
    }
    push_style(out, colors, REVERSE_VIDEO)?;
    push_escape(out, c)?;
    push_style(out, colors, AS_BEFORE)
}

// Appends characters of a line.
fn push_marked_chars(
    out: &mut String,
    escapes: Escapes,
    colors: bool,
    chars: &[char],
) -> Result<(), AllocError>
    ensures { OnOk result (string_bytes out.new ≡ string_bytes out.old ++ flat_map (marked_char escapes colors) chars.now) }
{
    for c in chars {
        push_marked(out, escapes, colors, *c)?;
    }
    Ok(())
}

// Returns the index from which a line of this length is shown, if an index matters.
fn part_start(len: usize, place: usize) -> usize
    ensures start { result ≡ part_start len place }
    ensures within { result ≤ len }
    ensures before { result ≤ place }
{
    if len <= MOST_SHOWN {
        return 0;
    }
    place.saturating_sub(SHOWN_BEFORE).min(len - MOST_SHOWN)
}

// Returns the index up to which a line of this length is shown.
fn part_end(len: usize, place: usize) -> usize
    ensures end { result ≡ part_end len place }
    ensures within { result ≤ len }
    ensures begins { part_start len place ≤ result }
{
    let start = part_start(len, place);
    start + MOST_SHOWN.min(len - start)
}

// Appends what is written in place of characters that are left out.
fn push_dots(out: &mut String, left_out: bool) -> Result<(), AllocError>
    ensures { OnOk result (string_bytes out.new ≡ string_bytes out.old ++ dots left_out) }
{
    if left_out {
        out.push_str("...")
    } else {
        Ok(())
    }
}

/// Appends a line, or the part around an index if the line has more than 200 characters. `escapes` says which characters
/// are written by their code points.
#[tactic(auto, unfolding(crate::specs::Parts::marked_part))]
pub fn push_part(
    out: &mut String,
    escapes: Escapes,
    colors: bool,
    line: &[char],
    place: usize,
) -> Result<(), AllocError>
    ensures { OnOk result (string_bytes out.new ≡ string_bytes out.old ++ marked_part escapes colors line.now place) }
{
    let start = part_start(line.len(), place);
    let end = part_end(line.len(), place);
    push_dots(out, start > 0)?;
    push_marked_chars(out, escapes, colors, &line[start..end])?;
    push_dots(out, end < line.len())
}

// Returns how many columns a character of a line takes in a report.
fn shown_columns(c: char) -> usize
    ensures { result ≡ shown_columns c }
{
    if c == '\t' {
        return 1;
    }
    if is_hidden(c) {
        return 8;
    }
    columns(c)
}

// Appends spaces.
fn push_blanks(out: &mut String, count: usize) -> Result<(), AllocError>
    ensures { OnOk result (string_bytes out.new ≡ string_bytes out.old ++ blanks count) }
{
    for step in 0..count {
        out.push(' ')?;
    }
    Ok(())
}

// Appends as many spaces as characters of a line take columns.
fn push_blank_chars(out: &mut String, chars: &[char]) -> Result<(), AllocError>
    ensures { OnOk result (string_bytes out.new ≡ string_bytes out.old ++ flat_map (λ c. blanks (shown_columns c)) chars.now) }
{
    for c in chars {
        push_blanks(out, shown_columns(*c))?;
    }
    Ok(())
}

/// Appends as many spaces as the part of a line around an index takes columns before that index.
#[tactic(auto, unfolding(crate::specs::Parts::blank_part))]
pub fn push_blank_part(out: &mut String, line: &[char], place: usize) -> Result<(), AllocError>
    ensures { OnOk result (string_bytes out.new ≡ string_bytes out.old ++ blank_part line.now place) }
{
    let start = part_start(line.len(), place);
    push_blanks(out, if start > 0 { 3 } else { 0 })?;
    push_blank_chars(out, &line[start..place.min(line.len())])
}
