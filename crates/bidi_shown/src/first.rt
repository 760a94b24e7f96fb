//! The first paragraph of a text.
ghost use Rattle.std.specs.Prelude.{◌≡◌, ◌≤◌, ◌<◌, [], if◌then◌else◌, length, take, drop};
ghost use Rattle.std.specs.Str.{chars, IsCharBoundary};
ghost use Rattle.bidi_base.specs.Classes.{is_paragraph_separator};
ghost use Rattle.bidi_base.specs.Paragraphs.{begins_with_line_feed, own_chars};
ghost use Rattle.bidi_shown.specs.Displayed.{after_first};

use bidi_base::classes::is_paragraph_separator;
use bidi_base::data_source::BidiDataSource;

/// The first paragraph of a text, and the text after it.
#[derive(Clone, Copy, Debug, Drop)]
pub struct FirstParagraph<'t> {
    /// The characters before the separator.
    pub own: &'t str,
    /// The text after the separator, CR LF as one.
    pub rest: &'t str,
}

// Returns whether a character separates paragraphs.
fn separates<D: BidiDataSource>(data_source: &D, c: char) -> bool
    ensures { result ≡ is_paragraph_separator ((D.source data_source.now).class_of c) }
{
    is_paragraph_separator(data_source.bidi_class(c))
}

// Returns the number of bytes before the first separator.
fn own_len<D: BidiDataSource>(data_source: &D, text: &str) -> usize
    ensures boundary { IsCharBoundary text.now result }
    ensures own { chars (take result text.now) ≡ own_chars (D.source data_source.now) (chars text.now) }
    ensures ended { own_chars (D.source data_source.now) (chars (drop result text.now)) ≡ [] }
    ensures rest { after_first (D.source data_source.now) (chars (drop result text.now))
        ≡ after_first (D.source data_source.now) (chars text.now) }
{
    for (at, c) in text.char_indices() {
        if separates(data_source, c) {
            return at;
        }
    }
    text.len()
}

// Returns a text without the line feed that it begins with, if that separates paragraphs.
fn after_line_feed<'t, D: BidiDataSource>(data_source: &D, text: &'t str) -> &'t str
    ensures text { chars result.now ≡ (if begins_with_line_feed (D.source data_source.now) (chars text.now)
        then drop 1 (chars text.now) else chars text.now) }
    ensures within { length result.now ≤ length text.now }
{
    let mut chars = text.chars();
    match chars.next() {
        Some('\n') if separates(data_source, '\n') => chars.as_str(),
        _ => text,
    }
}

// Returns the text after the separator that it begins with, CR LF as one.
fn after_separator<'t, D: BidiDataSource>(data_source: &D, text: &'t str) -> &'t str
    requires { own_chars (D.source data_source.now) (chars text.now) ≡ [] }
    ensures text { chars result.now ≡ after_first (D.source data_source.now) (chars text.now) }
    ensures shorter { 0 < length text.now → length result.now < length text.now }
    ensures within { length result.now ≤ length text.now }
{
    let mut chars = text.chars();
    match chars.next() {
        None => text,
        Some('\r') => after_line_feed(data_source, chars.as_str()),
        Some(_) => chars.as_str(),
    }
}

/// Returns the first paragraph of a text (P1), and the text after it.
pub fn first_paragraph<'t, D: BidiDataSource>(data_source: &D, text: &'t str) -> FirstParagraph<'t>
    ensures own { chars result.own.now ≡ own_chars (D.source data_source.now) (chars text.now) }
    ensures rest { chars result.rest.now ≡ after_first (D.source data_source.now) (chars text.now) }
    ensures shorter { 0 < length text.now → length result.rest.now < length text.now }
{
    let (own, rest) = text.split_at(own_len(data_source, text));
    FirstParagraph {
        own,
        rest: after_separator(data_source, rest),
    }
}
