//! What `show` and `lines` print of a text.
ghost use Rattle.std.specs.Prelude.{◌≡◌, ◌+◌, ◌≤◌, ◌++◌, length, slice_range, flat_map, map, All, IfOk, OnOk, IfSome, string_bytes};
ghost use Rattle.std.specs.Char.{len_utf8};
ghost use Rattle.std.specs.Str.{chars};
ghost use Rattle.bidi_base.specs.Text.{per_char, IsLine};
ghost use Rattle.bidi_base.specs.Display.{run_of};
ghost use Rattle.bidi_show_run.specs.Printed.{layout_in, layout_text, printed_in, own_end as own_end_of, IsParagraphIn};
ghost use Rattle.bidi_show_run.specs.Texts.{heading, levels_line, text_line, without_separator as without_separator_of, shown_line, one_column, shown_text};
ghost use Rattle.bidi_show_run.specs.declared.command.View.TheVariants.{Whole};
ghost use Rattle.unicode_bidi.specs.BidiInfo.{text as text_of, original_classes, levels as levels_of_info};
ghost use Rattle.unicode_bidi.specs.ParagraphInfo.{level_of, range_of};

use crate::command::View;
use bidi_base::classes::is_paragraph_separator;
use bidi_terminal::push_number;
use bidi_text::text::{StrText, TextSource};
use std::alloc::{AllocError, Global};
use unicode_bidi::layout::{self, CharWidth};
use unicode_bidi::{BidiClass, BidiDataSource, BidiInfo, Level, LevelRun, ParagraphInfo};

// Appends the range of a paragraph, and its level.
fn push_heading(out: &mut String, paragraph: &ParagraphInfo) -> Result<(), AllocError>
    ensures { OnOk result (string_bytes out.new
        ≡ string_bytes out.old ++ heading (range_of paragraph.now).start (range_of paragraph.now).end (level_of paragraph.now)) }
{
    let range = paragraph.range();
    out.push_str("paragraph ")?;
    push_number(out, range.start)?;
    out.push_str("..")?;
    push_number(out, range.end)?;
    out.push_str(" level ")?;
    push_number(out, usize::from(paragraph.level().number()))?;
    out.push_str("\n")
}

// Appends the level of each character of a text, given one level for each byte.
fn push_levels(out: &mut String, text: &str, levels: &[Level]) -> Result<(), AllocError>
    requires { length levels.now ≡ length text.now }
    ensures { OnOk result (string_bytes out.new
        ≡ string_bytes out.old ++ levels_line (per_char 0 len_utf8 (chars text.now) levels.now)) }
{
    out.push_str("levels")?;
    for (at, _) in StrText::new(text).char_indices() {
        out.push_str(" ")?;
        push_number(out, usize::from(levels[at].number()))?;
    }
    out.push_str("\n")
}

// Returns the text of a paragraph without the separator that ends it.
fn without_separator<'t, D: BidiDataSource>(data_source: &D, text: &'t str) -> &'t str
    ensures { chars result.now ≡ without_separator_of (D.source data_source.now) (chars text.now) }
{
    let mut rest = text.chars();
    let last = rest.next_back();
    let front = rest.as_str();
    match last {
        Some(c) if is_paragraph_separator(data_source.bidi_class(c)) => front,
        _ => text,
    }
}

// Returns the text of a line.
fn text_of_line(text: &str, start: usize, end: usize) -> &str
    requires { IsLine len_utf8 (chars text.now) start end }
    ensures part { result.now ≡ slice_range text.now start end }
    ensures length { length result.now + start ≡ end }
{
    &text[start..end]
}

// Returns where a paragraph ends, without the separator that ends it.
fn own_end<D: BidiDataSource>(
    data_source: &D,
    info: &BidiInfo<'_>,
    paragraph: &ParagraphInfo,
) -> usize
    requires { IsParagraphIn (text_of info.now) paragraph.now }
    ensures is_line { IsLine len_utf8 (chars (text_of info.now)) (range_of paragraph.now).start result }
    ensures end { result
        ≡ own_end_of (D.source data_source.now) (chars (text_of info.now)) (range_of paragraph.now).start
        (range_of paragraph.now).end }
{
    let range = paragraph.range();
    let text = text_of_line(info.text(), range.start, range.end);
    range.start + without_separator(data_source, text).len()
}

// Appends a line of text from left to right.
fn push_text(out: &mut String, line: &str) -> Result<(), AllocError>
    ensures { OnOk result (string_bytes out.new ≡ string_bytes out.old ++ text_line line.now) }
{
    out.push_str("text ")?;
    out.push_str(line)?;
    out.push_str("\n")
}

// Appends the three lines of a paragraph.
fn push_whole<D: BidiDataSource>(
    alloc: Global,
    out: &mut String,
    data_source: &D,
    info: &BidiInfo<'_>,
    paragraph: &ParagraphInfo,
) -> Result<(), AllocError>
    requires { IsParagraphIn (text_of info.now) paragraph.now }
    ensures { OnOk result (string_bytes out.new
        ≡ string_bytes out.old
        ++ printed_in Whole (D.source data_source.now) (text_of info.now) (original_classes info.now)
        (levels_of_info info.now) paragraph.now) }
{
    let range = paragraph.range();
    let (start, end) = (range.start, range.end);
    push_heading(out, paragraph)?;
    push_levels(
        out,
        text_of_line(info.text(), start, end),
        &info.levels()[start..end],
    )?;
    let own_end = own_end(data_source, info, paragraph);
    let line = info.reorder_line(alloc, paragraph, start..own_end)?;
    push_text(out, line.as_str())
}

// Every character is one column wide.
struct OneColumn;

impl CharWidth for OneColumn {
    ghost use Rattle.bidi_show_run.specs.Texts.{one_column};

    ghost width_of = { λ _. one_column };

    fn width(&self, _c: char) -> usize {
        1
    }
}

// Returns the lines of a paragraph without the separator that ends it, or an empty one if there is none.
fn layout_of<D: BidiDataSource>(
    alloc: Global,
    data_source: &D,
    info: &BidiInfo<'_>,
    paragraph: &ParagraphInfo,
    limit: usize,
) -> Result<Vec<LevelRun>, AllocError>
    requires { IsParagraphIn (text_of info.now) paragraph.now }
    ensures lines { IfOk result (λ v. map run_of v.items
        ≡ layout_in (D.source data_source.now) limit (chars (text_of info.now)) (range_of paragraph.now).start
        (range_of paragraph.now).end) }
    ensures are_lines { IfOk result (λ v. All (λ r. IsLine len_utf8 (chars (text_of info.now)) r.start r.end) v.items) }
{
    let start = paragraph.range().start;
    let end = own_end(data_source, info, paragraph);
    let own = ParagraphInfo::new(start..end, paragraph.level()).unwrap();
    let mut lines = layout::lines(alloc, info, &own, &OneColumn, limit)?;
    if lines.is_empty() {
        lines.push(start..start)?;
    }
    Ok(lines)
}

// Appends a line of text from left to right.
fn push_line(out: &mut String, line: &str) -> Result<(), AllocError>
    ensures { OnOk result (string_bytes out.new ≡ string_bytes out.old ++ shown_line line.now) }
{
    out.push_str(line)?;
    out.push_str("\n")
}

// Appends lines of a paragraph, each from left to right.
fn push_lines(
    alloc: Global,
    out: &mut String,
    info: &BidiInfo<'_>,
    paragraph: &ParagraphInfo,
    lines: &[LevelRun],
) -> Result<(), AllocError>
    requires { All (λ r. IsLine len_utf8 (chars (text_of info.now)) r.start r.end) lines.now }
    ensures { OnOk result (string_bytes out.new
        ≡ string_bytes out.old
        ++ layout_text (text_of info.now) (level_of paragraph.now) (original_classes info.now)
        (levels_of_info info.now) (map run_of lines.now)) }
{
    for line in lines {
        let shown = info.reorder_line(alloc, paragraph, line.start..line.end)?;
        push_line(out, shown.as_str())?;
    }
    Ok(())
}

// Appends what is printed of a paragraph.
fn push_paragraph<D: BidiDataSource>(
    alloc: Global,
    out: &mut String,
    data_source: &D,
    info: &BidiInfo<'_>,
    paragraph: &ParagraphInfo,
    view: View,
) -> Result<(), AllocError>
    requires { IsParagraphIn (text_of info.now) paragraph.now }
    ensures { OnOk result (string_bytes out.new
        ≡ string_bytes out.old
        ++ printed_in view (D.source data_source.now) (text_of info.now) (original_classes info.now)
        (levels_of_info info.now) paragraph.now) }
{
    match view {
        View::Whole => push_whole(alloc, out, data_source, info, paragraph),
        View::Lines(limit) => {
            let lines = layout_of(alloc, data_source, info, paragraph, usize::from(limit))?;
            push_lines(alloc, out, info, paragraph, lines.as_slice())
        }
    }
}

// Appends what is printed of some paragraphs.
fn push_paragraphs<D: BidiDataSource>(
    alloc: Global,
    out: &mut String,
    data_source: &D,
    info: &BidiInfo<'_>,
    paragraphs: &[ParagraphInfo],
    view: View,
) -> Result<(), AllocError>
    requires { All (IsParagraphIn (text_of info.now)) paragraphs.now }
    ensures { OnOk result (string_bytes out.new
        ≡ string_bytes out.old
        ++ flat_map
        (printed_in view (D.source data_source.now) (text_of info.now) (original_classes info.now)
        (levels_of_info info.now))
        paragraphs.now) }
{
    for paragraph in paragraphs {
        push_paragraph(alloc, out, data_source, info, paragraph, view)?;
    }
    Ok(())
}

/// Returns what is printed of each paragraph of a text.
///
/// This is its range and its level, the level of each of its characters, and its text from left to right; or its lines
/// of at most so many characters. `base_level` is at most 125. Returns an error if an allocation fails.
pub fn show<D: BidiDataSource>(
    alloc: Global,
    data_source: &D,
    text: &str,
    base_level: Option<Level>,
    view: View,
) -> Result<String, AllocError>
    requires { IfSome base_level (λ level. level ≤ 125) }
    ensures { IfOk result (λ out. string_bytes out ≡ shown_text view (D.source data_source.now) base_level text.now) }
{
    let info = BidiInfo::new_with_data_source(alloc, data_source, text, base_level)?;
    let mut out = String::new(alloc);
    push_paragraphs(alloc, &mut out, data_source, &info, info.paragraphs(), view)?;
    Ok(out)
}
