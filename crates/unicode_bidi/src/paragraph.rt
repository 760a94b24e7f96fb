// One paragraph of a text.
ghost use Rattle.std.specs.Prelude.{◌≡◌, ◌+◌, ◌<◌, ◌≤◌, length, slice_index, slice_range};
ghost use Rattle.bidi_base.specs.Direction.{direction_of_levels};
ghost use Rattle.unicode_bidi.specs.BidiInfo.{levels as levels_of_info};
ghost use Rattle.bidi_paragraphs.specs.ParagraphInfo.{range_of};

use crate::info::BidiInfo;
use bidi_base::char_data::Direction;
use bidi_base::level::Level;
use bidi_lines::level_direction::direction_of;
use bidi_paragraphs::paragraph_info::ParagraphInfo;
use bidi_text::text::TextSource;

/// A paragraph, and the result of the algorithm for its text.
#[derive(Debug, Drop)]
pub struct Paragraph<'a, T: TextSource> {
    info: &'a BidiInfo<T>,
    para: &'a ParagraphInfo,
}

impl<'a, T: TextSource> Paragraph<'a, T> {
    ghost use Rattle.unicode_bidi.specs.Paragraph.{info_of, para_of};

    /// Returns a paragraph of this text, or any range of it with a level.
    pub fn new(info: &'a BidiInfo<T>, para: &'a ParagraphInfo) -> Paragraph<'a, T>
        ensures info { info_of result ≡ info.now }
        ensures para { para_of result ≡ para.now }
    {
        Paragraph { info, para }
    }

    /// Returns the result of the algorithm for the text.
    pub fn info(&self) -> &'a BidiInfo<T>
        ensures { result.now ≡ info_of self.now }
    {
        self.info
    }

    /// Returns the range and the level of the paragraph.
    pub fn para(&self) -> &'a ParagraphInfo
        ensures { result.now ≡ para_of self.now }
    {
        self.para
    }

    /// Returns the direction of the paragraph's levels.
    ///
    /// It is left-to-right if there are levels and all are even, right-to-left if none is even, and mixed otherwise.
    /// The paragraph's range must be inside the text. Takes time linear in the range.
    pub fn direction(&self) -> Direction
        requires { (range_of (para_of self.now)).end ≤ length (levels_of_info (info_of self.now)) }
        ensures { let range = range_of (para_of self.now) in
            result ≡ direction_of_levels (slice_range (levels_of_info (info_of self.now)) range.start range.end) }
    {
        let Paragraph { info, para } = self;
        direction_of(&info.levels()[para.range()])
    }

    /// Returns the level of the character at a code unit, counted from the paragraph's start.
    ///
    /// The code unit must be inside the text, but may be outside the paragraph.
    pub fn level_at(&self, pos: usize) -> Level
        requires { (range_of (para_of self.now)).start + pos < length (levels_of_info (info_of self.now)) }
        ensures { result ≡ slice_index (levels_of_info (info_of self.now)) ((range_of (para_of self.now)).start + pos) }
    {
        let Paragraph { info, para } = self;
        info.levels()[para.range().start + pos]
    }
}
