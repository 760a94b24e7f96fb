//! Where the lines of a file and the paragraphs of a text end.
ghost use Rattle.std.specs.Prelude.{◌≡◌, ◌<◌, ◌≤◌, ◌∷◌, All, true, length, take, drop};
ghost use Rattle.bidi_base.specs.Paragraphs.{begins_with_line_feed, cr_lf_together, paragraphs_in, own_chars as own_chars_of};
ghost use Rattle.bidi_controls.specs.FileLines.{ends_file_line, file_lines_of};
ghost use Rattle.bidi_controls.specs.Lines.{is_printable_ascii};
ghost use Rattle.bidi_controls.specs.NoControls.{HaveNoControls, HasNoControlInAscii};

use crate::control::is_control_or_mark;
use bidi_base::classes::is_paragraph_separator;
use bidi_base::data_source::BidiDataSource;

/// Returns whether a text begins with a line feed that separates paragraphs.
fn begins_with_line_feed<D: BidiDataSource>(data_source: &D, chars: &[char]) -> bool
    ensures { result ≡ begins_with_line_feed (D.source data_source.now) chars.now }
{
    match chars {
        [first, ..] => *first == '\n' && is_paragraph_separator(data_source.bidi_class(*first)),
        [] => false,
    }
}

/// Returns whether a paragraph ends after a character, with these after it.
fn ends_paragraph<D: BidiDataSource>(data_source: &D, c: char, after: &[char]) -> bool
    ensures { result ≡ cr_lf_together (D.source data_source.now) c after.now }
{
    is_paragraph_separator(data_source.bidi_class(c))
        && !(c == '\r' && begins_with_line_feed(data_source, after))
}

/// Returns how many characters the first paragraph of a text has, with the separator that ends it, CR LF as one. The
/// text must not be empty.
pub fn first_paragraph_len<D: BidiDataSource>(data_source: &D, chars: &[char]) -> usize
    requires { 0 < length chars.now }
    ensures advances { 0 < result }
    ensures within { result ≤ length chars.now }
    ensures first { paragraphs_in (D.source data_source.now) chars.now
        ≡ take result chars.now ∷ paragraphs_in (D.source data_source.now) (drop result chars.now) }
{
    let mut at = 0;
    while at < chars.len() {
        let c = chars[at];
        at += 1;
        if ends_paragraph(data_source, c, &chars[at..]) {
            return at;
        }
    }
    at
}

/// Returns the characters of a paragraph before the separator that ends it (P1).
pub fn own_chars<'t, D: BidiDataSource>(data_source: &D, line: &'t [char]) -> &'t [char]
    ensures { result.now ≡ own_chars_of (D.source data_source.now) line.now }
{
    for (at, c) in line.iter().enumerate() {
        if is_paragraph_separator(data_source.bidi_class(*c)) {
            return &line[..at];
        }
    }
    line
}

/// Returns whether a line of a file ends after a character, with these after it.
fn ends_file_line(c: char, after: &[char]) -> bool
    ensures { result ≡ ends_file_line c after.now }
{
    c == '\n' || (c == '\r' && !matches!(after, ['\n', ..]))
}

/// Returns whether a character is printable ASCII, U+0020 to U+007E.
fn is_printable_ascii(c: char) -> bool
    ensures { result ≡ is_printable_ascii c }
{
    c == ' ' || c.is_ascii_graphic()
}

/// Returns true only if no printable ASCII character is a control.
///
/// Data sources may give such a character any class, but hardly one does.
pub(crate) fn has_no_control_in_ascii<D: BidiDataSource>(data_source: &D) -> bool
    ensures { result ≡ true → HasNoControlInAscii (D.source data_source.now) }
{
    for code in b' '..0x7F {
        if is_control_or_mark(data_source, char::from(code)) {
            return false;
        }
    }
    true
}

/// How many characters are tested at once.
const BLOCK: usize = 16;

/// Returns true only if some characters are all printable ASCII.
fn are_printable_ascii(chars: &[char]) -> bool
    ensures { result ≡ true → All (λ c. is_printable_ascii c ≡ true) chars.now }
{
    let mut are_printable = true;
    // Without a branch for each character, so that a few instructions test a block.
    for c in chars {
        are_printable &= is_printable_ascii(*c);
    }
    are_printable
}

/// The first line of a file.
#[derive(Clone, Copy)]
pub(crate) struct FirstLine {
    /// How many characters it has, with those that end it.
    pub len: usize,
    /// True only if it has no control and no mark.
    pub has_no_controls: bool,
}

/// Returns the first line of a file that is not empty. With `ascii_has_no_control`, printable ASCII is passed over.
#[inline(never)]
pub(crate) fn first_file_line<D: BidiDataSource>(
    data_source: &D,
    ascii_has_no_control: bool,
    chars: &[char],
) -> FirstLine
    requires some { 0 < length chars.now }
    requires no_control_in_ascii { ascii_has_no_control ≡ true → HasNoControlInAscii (D.source data_source.now) }
    ensures advances { 0 < result.len }
    ensures within { result.len ≤ length chars.now }
    ensures first { file_lines_of chars.now ≡ take result.len chars.now ∷ file_lines_of (drop result.len chars.now) }
    ensures without_controls { result.has_no_controls ≡ true → HaveNoControls (D.source data_source.now) (take result.len chars.now) }
{
    let mut at = 0;
    let mut has_no_controls = true;
    // Characters before this index are read one by one: the block that has them is not all printable ASCII.
    let mut tested = 0;
    while at < chars.len() {
        if ascii_has_no_control && at >= tested && chars.len() - at >= BLOCK {
            tested = at + BLOCK;
            if are_printable_ascii(&chars[at..tested]) {
                at = tested;
                continue;
            }
        }
        let c = chars[at];
        at += 1;
        if ascii_has_no_control && is_printable_ascii(c) {
            continue;
        }
        if is_control_or_mark(data_source, c) {
            has_no_controls = false;
        }
        if ends_file_line(c, &chars[at..]) {
            return FirstLine {
                len: at,
                has_no_controls,
            };
        }
    }
    FirstLine {
        len: at,
        has_no_controls,
    }
}
