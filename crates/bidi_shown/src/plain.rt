//! The lines of a paragraph, shown plainly.
ghost use Rattle.std.specs.Prelude.{◌≡◌, ◌++◌, flat_map, map, All, IfOk, OnOk, string_bytes};
ghost use Rattle.std.specs.Str.{chars, IsUtf8};
ghost use Rattle.bidi_base.specs.AnalysedText.{IsPerCharText};
ghost use Rattle.bidi_base.specs.Display.{run_of};
ghost use Rattle.bidi_shown.specs.Bounds.{IsRangeOf};
ghost use Rattle.bidi_shown.specs.Plain.{plain_paragraph, plain_ranges};
ghost use Rattle.bidi_shown.specs.Paragraph.{shown_in, text_of, IsAnalysed};

use crate::analysed::AnalysedParagraph;
use crate::breaks::lines;
use crate::line::push_text;
use crate::view::View;
use bidi_base::data_source::BidiDataSource;
use bidi_lines::reused_levels::LineLevels;
use bidi_text::text::StrText;
use std::alloc::{AllocError, Global};
use std::ops::Range;

// Appends a line of an analysed paragraph from left to right, ended by a line feed.
fn push_line(
    alloc: Global,
    out: &mut String,
    paragraph: &AnalysedParagraph<'_>,
    line: &Range<usize>,
) -> Result<(), AllocError>
    requires utf8 { IsUtf8 paragraph.now.text.now }
    requires per_char { IsPerCharText (text_of paragraph.now) }
    requires range { IsRangeOf paragraph.now.text.now line.now }
    ensures { OnOk result (string_bytes out.new ≡ string_bytes out.old
        ++ shown_in (text_of paragraph.now) paragraph.now.analysis.now.level (run_of line.now)) }
{
    let analysis = paragraph.analysis;
    let (start, end) = (line.start, line.end);
    let part = &paragraph.text[start..end];
    let classes = &analysis.classes.as_slice()[start..end];
    let levels = &analysis.levels.as_slice()[start..end];
    let mut shown = LineLevels::new(alloc);
    shown.show(analysis.level, classes, levels)?;
    shown.keep_first_units(StrText::new(part));
    push_text(alloc, out, part, shown.as_slice())?;
    out.push_str("\n")?;
    Ok(())
}

// Appends lines of an analysed paragraph.
fn push_lines(
    alloc: Global,
    out: &mut String,
    paragraph: &AnalysedParagraph<'_>,
    lines: &[Range<usize>],
) -> Result<(), AllocError>
    requires utf8 { IsUtf8 paragraph.now.text.now }
    requires per_char { IsPerCharText (text_of paragraph.now) }
    requires ranges { All (IsRangeOf paragraph.now.text.now) lines.now }
    ensures { OnOk result (string_bytes out.new ≡ string_bytes out.old ++ flat_map
        (λ r. shown_in (text_of paragraph.now) paragraph.now.analysis.now.level (run_of r)) lines.now) }
{
    for line in lines {
        push_line(alloc, out, paragraph, line)?;
    }
    Ok(())
}

// Returns the lines of a paragraph, as ranges of its bytes: all of it, or those of the width.
fn lines_of<D: BidiDataSource>(
    alloc: Global,
    data_source: &D,
    width: Option<u16>,
    text: &str,
) -> Result<Vec<Range<usize>>, AllocError>
    ensures lines { IfOk result (λ v. map run_of v.items ≡ plain_ranges (D.source data_source.now) width (chars text.now)) }
    ensures ranges { IfOk result (λ v. All (IsRangeOf text.now) v.items) }
{
    match width {
        Some(width) => lines(alloc, data_source, text, width),
        None => Ok(vec![in alloc; 0..text.len()]?),
    }
}

/// Appends the lines of an analysed paragraph, each from left to right and ended by a line feed.
///
/// Each character is moved by itself (L2), and none is mirrored. Returns an error if an allocation fails. Then `out`
/// may have some of the lines.
pub fn push_plain<D: BidiDataSource>(
    alloc: Global,
    out: &mut String,
    data_source: &D,
    view: View,
    paragraph: &AnalysedParagraph<'_>,
) -> Result<(), AllocError>
    requires utf8 { IsUtf8 paragraph.now.text.now }
    requires analysed { IsAnalysed (D.source data_source.now) view.base paragraph.now }
    ensures { OnOk result (string_bytes out.new
        ≡ string_bytes out.old ++ plain_paragraph (D.source data_source.now) view (chars paragraph.now.text.now)) }
{
    let lines = lines_of(alloc, data_source, view.width, paragraph.text)?;
    push_lines(alloc, out, paragraph, lines.as_slice())
}
