//! The lines of a paragraph as they are displayed: clusters from left to right, with spaces for tabs.
ghost use Rattle.std.specs.Prelude.{◌≡◌, ◌++◌, flat_map, map, All, IfOk, OnOk, string_bytes, encode_utf8};
ghost use Rattle.std.specs.Str.{chars, IsUtf8};
ghost use Rattle.bidi_base.specs.AnalysedText.{IsLineOf, IsPerCharText};
ghost use Rattle.bidi_base.specs.Display.{run_of};
ghost use Rattle.bidi_display.specs.Shown.{chars as chars_of, clusters as clusters_of, options as options_of, displayed_char as displayed_char_by, displayed_part as displayed_part_by};
ghost use Rattle.bidi_shown.specs.Displayed.{displayed_lines, displayed_part, displayed_range, ranges_within, spaced, spaced_text};
ghost use Rattle.bidi_shown.specs.Paragraph.{text_of};
ghost use Rattle.bidi_shown.specs.Views.{mirrored_in, options_in};

use crate::analysed::AnalysedParagraph;
use crate::view::View;
use bidi_display::displayed_line::DisplayedLine;
use bidi_display::line_breaks::SimpleBreaks;
use bidi_display::line_char::LineChar;
use bidi_text::text::StrText;
use std::alloc::{AllocError, Global};
use std::ops::Range;

// Appends a displayed character, or as many spaces as these columns for a tab.
fn push_spaced(out: &mut String, columns: usize, c: char) -> Result<(), AllocError>
    ensures { OnOk result (string_bytes out.new
        ≡ string_bytes out.old ++ flat_map encode_utf8 (spaced columns c)) }
{
    if c != '\t' {
        return out.push(c);
    }
    let mut left = columns;
    while left > 0 {
        out.push(' ')?;
        left -= 1;
    }
    Ok(())
}

// Returns the character that is displayed for a character of a line: its mirrored one at an odd level (L4).
fn displayed_char(view: View, c: &LineChar) -> char
    ensures { result ≡ displayed_char_by (mirrored_in view) c.now }
{
    if c.level.is_rtl() {
        view.mirrored(c.char)
    } else {
        c.char
    }
}

// Appends the displayed characters of a cluster that takes these columns, with spaces for a tab.
fn push_cluster(
    out: &mut String,
    view: View,
    columns: usize,
    chars: &[LineChar],
) -> Result<(), AllocError>
    ensures { OnOk result (string_bytes out.new ≡ string_bytes out.old
        ++ flat_map encode_utf8 (flat_map (spaced columns) (displayed_part_by (options_in view) (mirrored_in view) chars.now))) }
{
    let dropped = view.options().dropped;
    for c in chars {
        if !dropped.drops(c) {
            push_spaced(out, columns, displayed_char(view, c))?;
        }
    }
    Ok(())
}

// Appends the displayed characters of a line from left to right, with spaces for tabs.
fn push_clusters(out: &mut String, view: View, line: &DisplayedLine) -> Result<(), AllocError>
    ensures { OnOk result (string_bytes out.new ≡ string_bytes out.old
        ++ flat_map encode_utf8 (spaced_text view (chars_of line.now) (clusters_of line.now))) }
{
    for index in line.order() {
        let cluster = line.clusters()[*index];
        let chars = &line.chars()[cluster.chars_start..cluster.chars_end];
        push_cluster(out, view, cluster.width, chars)?;
    }
    Ok(())
}

// Appends a line of an analysed paragraph from left to right, ended by a line feed. Shows it in `line`.
fn push_range(
    out: &mut String,
    line: &mut DisplayedLine,
    view: View,
    paragraph: &AnalysedParagraph<'_>,
    range: Range<usize>,
) -> Result<(), AllocError>
    requires utf8 { IsUtf8 paragraph.now.text.now }
    requires per_char { IsPerCharText (text_of paragraph.now) }
    requires is_line { IsLineOf (text_of paragraph.now) range }
    requires options { options_of line.old ≡ options_in view }
    ensures options { options_of line.new ≡ options_in view }
    ensures text { OnOk result (string_bytes out.new ≡ string_bytes out.old
        ++ displayed_range view (text_of paragraph.now) paragraph.now.analysis.now.level range) }
{
    let analysis = paragraph.analysis;
    line.show(
        StrText::new(paragraph.text),
        analysis.classes.as_slice(),
        analysis.levels.as_slice(),
        analysis.level,
        range,
        &view,
    )?;
    push_clusters(out, view, line)?;
    out.push_str("\n")?;
    Ok(())
}

// Appends a line of an analysed paragraph without the white space at its end. Shows it in `line`.
fn push_part(
    out: &mut String,
    line: &mut DisplayedLine,
    view: View,
    paragraph: &AnalysedParagraph<'_>,
    range: &Range<usize>,
) -> Result<(), AllocError>
    requires utf8 { IsUtf8 paragraph.now.text.now }
    requires per_char { IsPerCharText (text_of paragraph.now) }
    requires is_line { IsLineOf (text_of paragraph.now) range.now }
    requires options { options_of line.old ≡ options_in view }
    ensures options { options_of line.new ≡ options_in view }
    ensures text { OnOk result (string_bytes out.new ≡ string_bytes out.old
        ++ displayed_part view (text_of paragraph.now) paragraph.now.analysis.now.level (run_of range.now)) }
{
    let analysis = paragraph.analysis;
    line.show(
        StrText::new(paragraph.text),
        analysis.classes.as_slice(),
        analysis.levels.as_slice(),
        analysis.level,
        range.start..range.end,
        &view,
    )?;
    let part = line.shown_part();
    push_range(out, line, view, paragraph, part)
}

// Appends lines of an analysed paragraph, each without the white space at its end. Shows them in `line`.
fn push_parts(
    out: &mut String,
    line: &mut DisplayedLine,
    view: View,
    paragraph: &AnalysedParagraph<'_>,
    ranges: &[Range<usize>],
) -> Result<(), AllocError>
    requires utf8 { IsUtf8 paragraph.now.text.now }
    requires per_char { IsPerCharText (text_of paragraph.now) }
    requires are_lines { All (IsLineOf (text_of paragraph.now)) ranges.now }
    requires options { options_of line.old ≡ options_in view }
    ensures { OnOk result (string_bytes out.new ≡ string_bytes out.old ++ flat_map
        (λ r. displayed_part view (text_of paragraph.now) paragraph.now.analysis.now.level (run_of r)) ranges.now) }
{
    for range in ranges {
        push_part(out, line, view, paragraph, range)?;
    }
    Ok(())
}

// Returns the lines of an analysed paragraph of at most `limit` columns, as ranges of its bytes. An empty paragraph is
// one empty line. Shows the paragraph in `line`.
fn ranges_within(
    alloc: Global,
    line: &mut DisplayedLine,
    view: View,
    paragraph: &AnalysedParagraph<'_>,
    limit: u16,
) -> Result<Vec<Range<usize>>, AllocError>
    requires utf8 { IsUtf8 paragraph.now.text.now }
    requires per_char { IsPerCharText (text_of paragraph.now) }
    requires options { options_of line.old ≡ options_in view }
    ensures options { options_of line.new ≡ options_in view }
    ensures ranges { IfOk result (λ v. map run_of v.items
        ≡ ranges_within view (text_of paragraph.now) paragraph.now.analysis.now.level limit) }
    ensures are_lines { IfOk result (λ v. All (IsLineOf (text_of paragraph.now)) v.items) }
{
    let analysis = paragraph.analysis;
    line.show(
        StrText::new(paragraph.text),
        analysis.classes.as_slice(),
        analysis.levels.as_slice(),
        analysis.level,
        0..paragraph.text.len(),
        &view,
    )?;
    let mut ranges = Vec::new(alloc);
    line.push_lines(&SimpleBreaks, usize::from(limit), &mut ranges)?;
    if ranges.is_empty() {
        ranges.push(0..0)?;
    }
    Ok(ranges)
}

/// Appends the lines of an analysed paragraph as they are displayed, each from left to right and ended by a line feed.
///
/// With a width, the paragraph is cut into lines by `SimpleBreaks`, and each line is without the white space at its
/// end. Returns an error if an allocation fails. Then `out` may have some of the lines.
pub fn push_displayed(
    alloc: Global,
    out: &mut String,
    view: View,
    paragraph: &AnalysedParagraph<'_>,
) -> Result<(), AllocError>
    requires utf8 { IsUtf8 paragraph.now.text.now }
    requires per_char { IsPerCharText (text_of paragraph.now) }
    ensures { OnOk result (string_bytes out.new ≡ string_bytes out.old
        ++ displayed_lines view (text_of paragraph.now) paragraph.now.analysis.now.level view.width) }
{
    let mut line = DisplayedLine::new(alloc, view.options());
    match view.width {
        None => push_range(out, &mut line, view, paragraph, 0..paragraph.text.len()),
        Some(width) => {
            let ranges = ranges_within(alloc, &mut line, view, paragraph, width)?;
            push_parts(out, &mut line, view, paragraph, ranges.as_slice())
        }
    }
}
