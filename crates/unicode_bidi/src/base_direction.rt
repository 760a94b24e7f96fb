// The base direction of a text (P2, P3).
ghost use Rattle.std.specs.Prelude.{◌≡◌, ◌↔◌, if◌then◌else◌, map, None, []};
ghost use Rattle.bidi_base.specs.Direction.{base_direction, full_base_direction};
ghost use Rattle.bidi_base.specs.Isolates.{paragraph_level};
ghost use Rattle.bidi_base.specs.Paragraphs.{paragraphs_of, each_separator};
ghost use Rattle.bidi_base.specs.Indexes.{first_or};
ghost use Rattle.bidi_base.specs.declared.char_data.Direction.TheVariants.{Rtl};

use crate::direction_search::{DirectionSearch, search_direction};
use bidi_base::char_data::Direction;
use bidi_base::data_source::BidiDataSource;
use bidi_text::text::TextSource;

/// Returns the base direction of a text: that of the first strong character outside isolates in its first
/// paragraph (P2).
///
/// Returns `Mixed` if there is none. Stops at the character that decides, and does not allocate.
pub fn get_base_direction_with_data_source<D: BidiDataSource, T: TextSource>(
    data_source: &D,
    text: T,
) -> Direction
    ensures direction { let classes = map (map (D.source data_source.now).class_of)
        (paragraphs_of (each_separator (D.source data_source.now)) (T.text text).chars) in
        result ≡ base_direction classes }

    // The result is right to left exactly if the first paragraph's characters give it level 1.
    ensures level { let classes = map (map (D.source data_source.now).class_of)
        (paragraphs_of (each_separator (D.source data_source.now)) (T.text text).chars) in
        (result ≡ Rtl) ↔ (paragraph_level None (first_or [] classes) ≡ 1) }
{
    find_direction(data_source, text, false)
}

/// Returns the direction of the first strong character outside isolates in any paragraph of a text (P2, P3).
///
/// Returns `Mixed` if no paragraph has one. Stops at the character that decides, and does not allocate.
pub fn get_base_direction_full_with_data_source<D: BidiDataSource, T: TextSource>(
    data_source: &D,
    text: T,
) -> Direction
    ensures { let classes = map (map (D.source data_source.now).class_of)
        (paragraphs_of (each_separator (D.source data_source.now)) (T.text text).chars) in
        result ≡ full_base_direction classes }
{
    find_direction(data_source, text, true)
}

// Returns the direction of the first deciding character in the first paragraph, or with `full` in any paragraph.
fn find_direction<D: BidiDataSource, T: TextSource>(
    data_source: &D,
    text: T,
    full: bool,
) -> Direction
    ensures { let classes = map (map (D.source data_source.now).class_of)
        (paragraphs_of (each_separator (D.source data_source.now)) (T.text text).chars) in
        result ≡ (if full then full_base_direction classes else base_direction classes) }
{
    // Shows the proof that a text has no more code units than `usize::MAX`, and so no more isolates.
    let _units = text.len();
    match search_direction(data_source, text, 0, full) {
        DirectionSearch::Found(direction) => direction,
        DirectionSearch::Open(_) => Direction::Mixed,
    }
}
