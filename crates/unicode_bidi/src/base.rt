//! How paragraphs get their levels: one level for all (HL1), or by their characters (P2, P3), perhaps with a fallback.
ghost use Rattle.std.specs.Prelude.{◌≡◌, ◌↔◌, ◌&&◌, ◌==◌, None, not, is_some, map, All, IsTrue};
ghost use Rattle.bidi_base.specs.Classes.{is_strong as is_strong_of};
ghost use Rattle.bidi_base.specs.Isolates.{deciding_class};
ghost use Rattle.bidi_paragraphs.specs.ParagraphInfo.{ranges_of, levels_of};
ghost use Rattle.unicode_bidi.specs.Base.{fixed_level as fixed_level_of, CutsNoChar, HasLevelBy, HasLowLevel, level_in_text};
ghost use Rattle.unicode_bidi.specs.Engine.{chars_of};

use crate::direction_search::depth_after;
use bidi_base::char_data::BidiClass;
use bidi_base::classes::is_strong;
use bidi_base::data_source::BidiDataSource;
use bidi_base::level::{LTR_LEVEL, Level, MAX_EXPLICIT_DEPTH};
use bidi_paragraphs::first_pass::FoundParagraphs;
use bidi_paragraphs::paragraph_info::ParagraphInfo;
use bidi_text::text::TextSource;

/// How paragraphs get their levels: one level for all, or by their characters.
#[derive(Clone, Copy, Debug, PartialEq)]
pub enum Base {
    /// Every paragraph has this level (HL1), at most 125.
    Level(Level),
    /// Each paragraph gets its level from its characters (P2, P3). It is 0 if no character decides.
    Auto,
    /// Each paragraph gets its level from its characters (P2, P3). It is this level, at most 125, if no character
    /// decides.
    AutoOr(Level),
}

impl From<Option<Level>> for Base {
    ghost use Rattle.unicode_bidi.specs.Base.{base_of};

    ghost from_gives = { λ level base. base ≡ base_of level };

    fn from(level: Option<Level>) -> Base {
        match level {
            Some(level) => Base::Level(level),
            None => Base::Auto,
        }
    }
}

impl Base {
    // Returns the level that every paragraph has, whatever its characters are, if there is one.
    pub(crate) fn fixed_level(&self) -> Option<Level>
        ensures { result ≡ fixed_level_of self.now }
    {
        match self {
            Base::Level(level) => Some(*level),
            _ => None,
        }
    }

    // Returns whether the level that the base names, if it names one, is at most 125.
    pub(crate) fn has_low_level(&self) -> bool
        ensures { IsTrue result ↔ HasLowLevel self.now }
    {
        match self {
            Base::Level(level) | Base::AutoOr(level) => level.number() <= MAX_EXPLICIT_DEPTH,
            Base::Auto => true,
        }
    }
}

// Returns whether a character decides (P2), given its class and how many isolates are open before it.
fn decides(class: BidiClass, depth: usize) -> bool
    ensures { result ≡ (is_strong_of class && depth == 0) }
{
    depth == 0 && is_strong(class)
}

// Returns whether some character of a paragraph decides its level.
fn has_deciding<D: BidiDataSource, T: TextSource>(data_source: &D, text: T) -> bool
    ensures { result ≡ is_some (deciding_class (map (D.source data_source.now).class_of (T.text text).chars)) }
{
    // Shows the proof that a text has no more code units than `usize::MAX`, and so no more isolates.
    let _units = text.len();
    let mut depth = 0;
    for c in text.chars() {
        let class = data_source.bidi_class(c);
        if decides(class, depth) {
            return true;
        }
        depth = depth_after(depth, class);
    }
    false
}

// Returns whether no character decides the level of a paragraph, which must have the level of its characters. Only a
// paragraph of level 0 is read: another level comes from a character that decides.
fn is_undecided<D: BidiDataSource, T: TextSource>(
    data_source: &D,
    text: T,
    paragraph: &ParagraphInfo,
) -> bool
    requires line { CutsNoChar (T.text text) paragraph.now }
    requires level { HasLevelBy (D.source data_source.now) None T.encoding.len_of (T.text text).chars paragraph.now }
    ensures { let piece = chars_of T.encoding.len_of (T.text text).chars paragraph.now in
        result ≡ not (is_some (deciding_class (map (D.source data_source.now).class_of piece))) }
{
    paragraph.level() == LTR_LEVEL && !has_deciding(data_source, text.subrange(paragraph.range()))
}

// Gives this level to the paragraphs in which no character decides. Each must have the level of its characters.
fn fall_back<D: BidiDataSource, T: TextSource>(
    data_source: &D,
    text: T,
    level: Level,
    paragraphs: &mut [ParagraphInfo],
)
    requires lines { All (CutsNoChar (T.text text)) paragraphs.old }
    requires levels { All (HasLevelBy (D.source data_source.now) None T.encoding.len_of (T.text text).chars)
        paragraphs.old }
    ensures ranges { ranges_of paragraphs.new ≡ ranges_of paragraphs.old }
    ensures levels { levels_of paragraphs.new
        ≡ map (level_in_text (D.source data_source.now) (Base.AutoOr level) T.encoding.len_of (T.text text).chars)
        paragraphs.old }
{
    for paragraph in paragraphs.iter_mut() {
        if is_undecided(data_source, text, paragraph) {
            *paragraph = ParagraphInfo::from_range(paragraph.range(), level);
        }
    }
}

// Gives each paragraph its level with this base. Before, it must have the fixed level of the base, or
// if there is none, the level of its characters without a base level.
pub(crate) fn apply_base<D: BidiDataSource, T: TextSource>(
    data_source: &D,
    text: T,
    base: Base,
    found: &mut FoundParagraphs,
)
    requires lines { All (CutsNoChar (T.text text)) found.old.paragraphs.items }
    requires levels { All
        (HasLevelBy (D.source data_source.now) (fixed_level_of base) T.encoding.len_of (T.text text).chars)
        found.old.paragraphs.items }
    ensures ranges { ranges_of found.new.paragraphs.items ≡ ranges_of found.old.paragraphs.items }
    ensures levels { levels_of found.new.paragraphs.items
        ≡ map (level_in_text (D.source data_source.now) base T.encoding.len_of (T.text text).chars)
        found.old.paragraphs.items }
    ensures flags { found.new.flags ≡ found.old.flags }
{
    if let Base::AutoOr(level) = base {
        fall_back(data_source, text, level, found.paragraphs.as_mut_slice());
    }
}
