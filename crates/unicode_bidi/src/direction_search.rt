//! The search for a base direction (P2, P3), in a text or in its pieces one after another.
ghost use Rattle.std.specs.Prelude.{◌≡◌, ◌+◌, ◌<◌, ◌^◌, if◌then◌else◌, [], ◌∷◌, map, Some};
ghost use Rattle.bidi_base.specs.Direction.{direction_by, base_direction, full_base_direction};
ghost use Rattle.bidi_base.specs.Paragraphs.{paragraphs_of, each_separator};
ghost use Rattle.bidi_base.specs.Texts.{text_len};
ghost use Rattle.bidi_paragraphs.specs.FirstPass.{depth_after as depth_after_of};
ghost use Rattle.unicode_bidi.specs.DirectionSearch.{IsSearched, direction_found};

use bidi_base::char_data::{BidiClass, Direction};
use bidi_base::classes::{is_isolate_initiator, is_paragraph_separator, is_pdi, is_strong};
use bidi_base::data_source::BidiDataSource;
use bidi_text::text::TextSource;

/// The state of a search for the base direction.
#[derive(Clone, Copy, Debug, PartialEq)]
pub enum DirectionSearch {
    /// The search is over. This is the direction of the deciding character, or `Mixed` if the first paragraph ended
    /// before one.
    Found(Direction),
    /// The search goes on in the characters that follow. This is the number of open isolates.
    Open(usize),
}

// Returns the direction of a deciding character of this class.
fn direction_of(class: BidiClass) -> Direction
    ensures { result ≡ direction_by (Some class) }
{
    match class {
        BidiClass::R | BidiClass::AL => Direction::Rtl,
        BidiClass::L => Direction::Ltr,
        _ => Direction::Mixed,
    }
}

// Returns how many isolates are open after a character of this class.
pub(crate) fn depth_after(depth: usize, class: BidiClass) -> usize
    requires { depth + 1 < 2 ^ 64 }
    ensures { result ≡ depth_after_of class depth }
{
    if is_isolate_initiator(class) {
        depth + 1
    } else if is_pdi(class) {
        depth.saturating_sub(1)
    } else {
        depth
    }
}

/// Returns the state of the search after one character.
///
/// `class` is the class of the character, and `depth`, which must be less than the maximum of `usize`, is the number of
/// isolates that are open before it. With `full`, a paragraph separator closes the open isolates, and the search goes
/// on in the next paragraph (P1). Without `full`, it ends the search.
pub fn search_class(class: BidiClass, depth: usize, full: bool) -> DirectionSearch
    requires { depth + 1 < 2 ^ 64 }
    ensures { IsSearched full depth (class ∷ []) result }
{
    if depth == 0 && is_strong(class) {
        return DirectionSearch::Found(direction_of(class));
    }
    if !is_paragraph_separator(class) {
        return DirectionSearch::Open(depth_after(depth, class));
    }
    if full {
        DirectionSearch::Open(0)
    } else {
        DirectionSearch::Found(Direction::Mixed)
    }
}

/// Returns the state of the search after the characters of a text.
///
/// `depth` is the number of isolates that are open before the text: 0 at the start of a text. The sum of `depth` and
/// the text's length must fit in `usize`. With `full`, the search goes on in the next paragraph, as in
/// [`search_class`]. A longer text can be searched in pieces. Each call then gets the number that the call before it
/// returned. Stops at the character that decides, and does not allocate.
pub fn search_direction<D: BidiDataSource, T: TextSource>(
    data_source: &D,
    text: T,
    depth: usize,
    full: bool,
) -> DirectionSearch
    requires { depth + text_len (T.text text) < 2 ^ 64 }
    ensures search { IsSearched full depth (map (D.source data_source.now).class_of (T.text text).chars) result }

    // At the front of a text, this is its base direction.
    ensures direction { let classes = map (map (D.source data_source.now).class_of)
        (paragraphs_of (each_separator (D.source data_source.now)) (T.text text).chars) in
        depth ≡ 0
        → direction_found result ≡ (if full then full_base_direction classes else base_direction classes) }
{
    let mut now = depth;
    for c in text.chars() {
        match search_class(data_source.bidi_class(c), now, full) {
            DirectionSearch::Open(after) => now = after,
            found => return found,
        }
    }
    DirectionSearch::Open(now)
}
