//! Lines of a given width, and the visual indexes of a line's characters (L1, L2), in any encoding.

ghost use Rattle.std.specs.Prelude.{◌≡◌, ◌≢◌, ℕ, ◌<◌, true, false, map, length, slice_get, IfOk, IfSome, All, Some};
ghost use Rattle.std.specs.List.{range_with_len};
ghost use Rattle.bidi_base.specs.AnalysedText.{IsLineOf, line_levels_per_char};
ghost use Rattle.bidi_base.specs.Display.{run_of};
ghost use Rattle.bidi_base.specs.Layout.{line_length, line_ranges, visual_indexes, AreInverse};
ghost use Rattle.bidi_base.specs.Order.{visual_order};
ghost use Rattle.bidi_base.specs.Indexes.{indexes};
ghost use Rattle.bidi_base.specs.Paragraphs.{IsPartition};
ghost use Rattle.bidi_base.specs.Texts.{unit_index, IsLine};
ghost use Rattle.unicode_bidi.specs.BidiInfo.{analysed as analysed_of};
ghost use Rattle.unicode_bidi.specs.ParagraphBidiInfo.{analysed as analysed_of_paragraph, paragraph_level};
ghost use Rattle.unicode_bidi.specs.StoredOrder.{entries};
ghost use Rattle.bidi_paragraphs.specs.ParagraphInfo.{level_of, range_of};

use crate::char_levels::char_levels;
use crate::info::BidiInfo;
use crate::paragraph_bidi_info::ParagraphBidiInfo;
use bidi_base::level::{Level, has_rtl};
use bidi_lines::visual_order::{inverse, reorder_visual};
use bidi_paragraphs::paragraph_info::ParagraphInfo;
use bidi_rules::prepare::LevelRun;
use bidi_text::text::{StrText, TextSource, is_line};
use std::alloc::{AllocError, Global};
use std::ops::Range;

/// The width of each character on the display.
pub trait CharWidth {
    /// The width of each character, as a function.
    ghost width_of: { Self → ℕ → ℕ };

    /// Returns the width of a character, each time the same.
    fn width(&self, c: char) -> usize
        ensures { result ≡ width_of self.now c };
}

// Returns how many code units the first line of a text takes: as many characters as fit, and at least one.
fn first_line_len<T: TextSource, W: CharWidth>(text: T, widths: &W, limit: usize) -> usize
    ensures { result ≡ unit_index (T.text text) (line_length (W.width_of widths.now) limit (T.text text).chars) }
{
    let mut left = limit;
    for (at, c) in text.char_indices() {
        let width = widths.width(c);
        if width > left {
            return if at == 0 { T::char_len(c) } else { at };
        }
        left -= width;
    }
    text.len()
}

/// Returns the lines of a range of a text in any encoding, as ranges of its code units.
///
/// Like [`lines`], for each `TextSource`: UTF-8, UTF-16, a list of characters or a text of your own. `range` must cut no
/// character (see `is_line`). For a paragraph of an info, pass its `text_source` and the paragraph's `range`.
pub fn lines_of_text<T: TextSource, W: CharWidth>(
    alloc: Global,
    text: T,
    range: Range<usize>,
    widths: &W,
    limit: usize,
) -> Result<Vec<LevelRun>, AllocError>
    requires { IsLine (T.text text) range.start range.end }
    ensures lines { IfOk result (λ v. map run_of v.items
        ≡ line_ranges T.encoding.len_of (T.text text).chars (W.width_of widths.now) limit range.start range.end) }

    // No line is empty, and together they take the range, in order.
    ensures partition { IfOk result (λ v. IsPartition range.start range.end (map run_of v.items)) }
    ensures are_lines { IfOk result (λ v. All (λ r. IsLine (T.text text) r.start r.end) v.items) }
{
    prove!(is_line(text, &range));
    let mut lines = Vec::new(alloc);
    let mut start = range.start;
    while start < range.end {
        let rest = text.subrange(start..range.end);
        let end = start + first_line_len(rest, widths, limit);
        lines.push(start..end)?;
        start = end;
    }
    Ok(lines)
}

/// Returns the lines of a paragraph, as ranges of bytes of the text.
///
/// Each line takes as many characters as fit in `limit` columns, and at least one. A character of width 0 stays in the
/// line before it, unless that line is one character that is too wide. The paragraph's range must cut no character (see
/// `is_line`). Each line can be passed to `reorder_line` without a test. Takes time linear in the paragraph, and calls
/// `width` at most twice for each character.
pub fn lines<W: CharWidth>(
    alloc: Global,
    info: &BidiInfo<StrText<'_>>,
    para: &ParagraphInfo,
    widths: &W,
    limit: usize,
) -> Result<Vec<LevelRun>, AllocError>
    requires { IsLineOf (analysed_of info.now) (range_of para.now) }
    ensures lines { let a = analysed_of info.now in IfOk result (λ v. map run_of v.items
        ≡ line_ranges a.len_of a.chars (W.width_of widths.now) limit (range_of para.now).start (range_of para.now).end) }

    // No line is empty, and together they take the paragraph's range, in order.
    ensures partition { IfOk result (λ v. IsPartition (range_of para.now).start (range_of para.now).end (map run_of v.items)) }
    ensures are_lines { IfOk result (λ v. All (IsLineOf (analysed_of info.now)) v.items) }
{
    lines_of_text(
        alloc,
        StrText::new(info.text()),
        para.range(),
        widths,
        limit,
    )
}

// Returns whether each entry is its own index.
fn is_in_order(order: &[usize]) -> bool
    ensures ordered { result ≡ true → order.now ≡ indexes order.now }
    ensures other { result ≡ false → order.now ≢ indexes order.now }
{
    for place in 0..order.len() {
        if order[place] != place {
            return false;
        }
    }
    true
}

// Returns the entry of a list at an index, or `None` from `len` on. An empty list stands for the indexes below `len`.
fn entry_at(list: &[usize], len: usize, index: usize) -> Option<usize>
    ensures { result ≡ slice_get (entries list.now len) index }
{
    if !list.is_empty() {
        list.get(index).copied()
    } else if index < len {
        Some(index)
    } else {
        None
    }
}

/// The visual index of each character of a line, and the character at each visual index (L2).
///
/// Characters are counted from the line's start, and visual indexes from its left, both from 0.
#[derive(PartialEq, Debug, Drop)]
pub struct LineMap {
    len: usize,
    // Both are empty if each character is displayed at its own index.
    order: Vec<usize>,
    places: Vec<usize>,
    ghost inverse: { AreInverse order.items places.items },
    ghost whole: { 0 < length order.items → length order.items ≡ len },
    ghost other: { 0 < length order.items → order.items ≢ indexes order.items },
}

impl LineMap {
    ghost use Rattle.unicode_bidi.specs.LineMap.{order as order_of, places as places_of};

    // Returns the map of a line that displays its characters in the order of the text.
    fn in_order(alloc: Global, len: usize) -> LineMap
        ensures order { order_of result ≡ range_with_len 0 len }
        ensures places { places_of result ≡ range_with_len 0 len }
    {
        LineMap {
            len,
            order: Vec::new(alloc),
            places: Vec::new(alloc),
        }
    }

    // Returns the map of a line, given the levels of its characters after L1.
    fn of_levels(alloc: Global, levels: &[Level]) -> Result<LineMap, AllocError>
        ensures order { IfOk result (λ m. order_of m ≡ visual_order levels.now) }
        ensures places { IfOk result (λ m. places_of m ≡ visual_indexes levels.now) }
    {
        let len = levels.len();
        if !has_rtl(levels) {
            return Ok(LineMap::in_order(alloc, len));
        }
        let order = reorder_visual(alloc, levels)?;
        if is_in_order(order.as_slice()) {
            return Ok(LineMap::in_order(alloc, len));
        }
        let places = inverse(alloc, order.as_slice())?;
        Ok(LineMap { len, order, places })
    }

    /// Returns the map of a line.
    ///
    /// The line is a range of code units of the text that cuts no character (see `is_line`). Its levels are those after
    /// L1, by the level of `para`. Takes time linear in the line. A line of up to 256 code units allocates only the two
    /// lists of the map, and neither if its characters stay in order.
    pub fn new<T: TextSource>(
        alloc: Global,
        info: &BidiInfo<T>,
        para: &ParagraphInfo,
        line: Range<usize>,
    ) -> Result<LineMap, AllocError>
        requires { IsLineOf (analysed_of info.now) line }
        ensures order { IfOk result (λ m. order_of m
            ≡ visual_order (line_levels_per_char (analysed_of info.now) (level_of para.now) line)) }
        ensures places { IfOk result (λ m. places_of m
            ≡ visual_indexes (line_levels_per_char (analysed_of info.now) (level_of para.now) line)) }
    {
        let levels = char_levels(alloc, &info.analysed, para.level(), line)?;
        LineMap::of_levels(alloc, levels.as_slice())
    }

    /// Returns the map of a line of a text that is one paragraph.
    ///
    /// The line and the cost are those of [`LineMap::new`].
    pub fn of_paragraph<T: TextSource>(
        alloc: Global,
        info: &ParagraphBidiInfo<T>,
        line: Range<usize>,
    ) -> Result<LineMap, AllocError>
        requires { IsLineOf (analysed_of_paragraph info.now) line }
        ensures order { IfOk result (λ m. order_of m
            ≡ visual_order (line_levels_per_char (analysed_of_paragraph info.now) (paragraph_level info.now) line)) }
        ensures places { IfOk result (λ m. places_of m
            ≡ visual_indexes (line_levels_per_char (analysed_of_paragraph info.now) (paragraph_level info.now) line)) }
    {
        let levels = char_levels(alloc, &info.paragraph, info.paragraph_level(), line)?;
        LineMap::of_levels(alloc, levels.as_slice())
    }

    /// Returns the number of characters, which is the number of visual indexes.
    pub fn len(&self) -> usize
        ensures order { result ≡ length (order_of self.now) }
        ensures places { result ≡ length (places_of self.now) }
    {
        self.len
    }

    /// Returns the index of the character at a visual index, or `None` from `len()` on.
    pub fn visual_to_logical(&self, visual: usize) -> Option<usize>
        ensures found { result ≡ slice_get (order_of self.now) visual }
        ensures back { IfSome result (λ logical. slice_get (places_of self.now) logical ≡ Some visual) }
    {
        entry_at(self.order.as_slice(), self.len, visual)
    }

    /// Returns the visual index of a character, or `None` from `len()` on.
    pub fn logical_to_visual(&self, logical: usize) -> Option<usize>
        ensures found { result ≡ slice_get (places_of self.now) logical }
        ensures back { IfSome result (λ visual. slice_get (order_of self.now) visual ≡ Some logical) }
    {
        entry_at(self.places.as_slice(), self.len, logical)
    }
}
