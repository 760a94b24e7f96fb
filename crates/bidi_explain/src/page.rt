//! The stages of a paragraph as a section of a page of HTML.
ghost use Rattle.std.specs.Prelude.{◌≡◌, ◌<◌, ◌++◌, true, flat_map, map, length, vec_len, All, IfOk, OnOk, string_bytes};
ghost use Rattle.std.specs.List.{list_all, range_with_len};
ghost use Rattle.bidi_explain.specs.Pages.{escaped, is_text_byte, level_attribute, box_start, box_text, box_at, boxes_row, shown_row, link, is_in_block, link_in, link_from, links_start, links_row, cell_element, row_element, summary_text, upper_part, lower_part, block_element, section_text};

use crate::blocks::{Block, blocks};
use crate::cells::push_glyph;
use crate::rows::{Row, stage_rows};
use crate::stages::Stages;
use crate::table::{push_level, push_sequences};
use bidi_base::char_data::BidiClass;
use bidi_base::level::Level;
use bidi_plain::plain::PlainSequence;
use bidi_terminal::push_number;
use std::alloc::{AllocError, Global};

/// The maximum number of columns of a block of a page.
const PAGE_COLUMNS: usize = 30;

/// Appends a character between tags. One that could begin or end a tag is written as its reference.
fn push_escaped(out: &mut String, class: BidiClass, c: char) -> Result<(), AllocError>
    ensures text { OnOk result (string_bytes out.new ≡ string_bytes out.old ++ escaped class c) }
    ensures harmless { list_all is_text_byte (escaped class c) ≡ true }
{
    match c {
        '&' => out.push_str("&amp;")?,
        '<' => out.push_str("&lt;")?,
        '>' => out.push_str("&gt;")?,
        _ => push_glyph(out, class, c)?,
    }
    Ok(())
}

/// Returns the attributes of a box of this level, without the number and the end of its tag.
fn level_attribute(level: Level) -> &'static str
    ensures { result.now ≡ level_attribute level }
{
    if level.is_rtl() {
        "\" class=\"rtl\" style=\"--level:"
    } else {
        "\" style=\"--level:"
    }
}

/// Appends the tag that begins the box of the character at an index, with this level. `tag` is its beginning.
fn push_box_start(out: &mut String, tag: &str, at: usize, level: Level) -> Result<(), AllocError>
    ensures { OnOk result (string_bytes out.new ≡ string_bytes out.old ++ box_start tag.now at level) }
{
    out.push_str(tag)?;
    push_number(out, at)?;
    out.push_str(level_attribute(level))?;
    push_number(out, usize::from(level.number()))?;
    out.push_str("\">")?;
    Ok(())
}

/// Appends the box of a character.
fn push_box(
    out: &mut String,
    tag: &str,
    at: usize,
    level: Level,
    class: BidiClass,
    c: char,
) -> Result<(), AllocError>
    ensures { OnOk result (string_bytes out.new ≡ string_bytes out.old ++ box_text tag.now at level class c) }
{
    push_box_start(out, tag, at, level)?;
    push_escaped(out, class, c)?;
    out.push_str("</td>")?;
    Ok(())
}

/// Appends the box of the character at an index.
fn push_box_at(
    out: &mut String,
    tag: &str,
    chars: &[char],
    stages: &Stages,
    at: usize,
) -> Result<(), AllocError>
    requires within { at < length chars.now }
    requires classes_same_len { vec_len stages.now.classes ≡ length chars.now }
    requires levels_same_len { vec_len stages.now.line_levels ≡ length chars.now }
    ensures { OnOk result (string_bytes out.new ≡ string_bytes out.old ++ box_at tag.now chars.now stages.now at) }
{
    let (level, class) = (stages.line_levels[at], stages.classes[at]);
    push_box(out, tag, at, level, class, chars[at])?;
    Ok(())
}

/// Appends the boxes of the characters at some indexes.
fn push_boxes(
    out: &mut String,
    tag: &str,
    chars: &[char],
    stages: &Stages,
    indexes: &[usize],
) -> Result<(), AllocError>
    requires classes_same_len { vec_len stages.now.classes ≡ length chars.now }
    requires levels_same_len { vec_len stages.now.line_levels ≡ length chars.now }
    requires within { All (λ p. p < length chars.now) indexes.now }
    ensures { OnOk result (string_bytes out.new
        ≡ string_bytes out.old ++ flat_map (box_at tag.now chars.now stages.now) indexes.now) }
{
    for at in indexes {
        push_box_at(out, tag, chars, stages, *at)?;
    }
    Ok(())
}

/// Appends the row of boxes in logical order. They can have the focus.
fn push_boxes_row(
    out: &mut String,
    chars: &[char],
    stages: &Stages,
    indexes: &[usize],
) -> Result<(), AllocError>
    requires classes_same_len { vec_len stages.now.classes ≡ length chars.now }
    requires levels_same_len { vec_len stages.now.line_levels ≡ length chars.now }
    requires within { All (λ p. p < length chars.now) indexes.now }
    ensures { OnOk result (string_bytes out.new ≡ string_bytes out.old ++ boxes_row chars.now stages.now indexes.now) }
{
    out.push_str("<tr><th>character</th>")?;
    push_boxes(out, "<td tabindex=\"0\" data-at=\"", chars, stages, indexes)?;
    out.push_str("</tr>\n")?;
    Ok(())
}

/// Appends the row of boxes in visual order.
fn push_shown_row(
    out: &mut String,
    chars: &[char],
    stages: &Stages,
    indexes: &[usize],
) -> Result<(), AllocError>
    requires classes_same_len { vec_len stages.now.classes ≡ length chars.now }
    requires levels_same_len { vec_len stages.now.line_levels ≡ length chars.now }
    requires within { All (λ p. p < length chars.now) indexes.now }
    ensures { OnOk result (string_bytes out.new ≡ string_bytes out.old ++ shown_row chars.now stages.now indexes.now) }
{
    out.push_str("<tr><th>as shown</th>")?;
    push_boxes(out, "<td data-at=\"", chars, stages, indexes)?;
    out.push_str("</tr>\n")?;
    Ok(())
}

/// Appends a line from the logical index of a character to its visual index.
fn push_link(out: &mut String, logical: usize, visual: usize) -> Result<(), AllocError>
    ensures { OnOk result (string_bytes out.new ≡ string_bytes out.old ++ link logical visual) }
{
    out.push_str("<line data-at=\"")?;
    push_number(out, logical)?;
    out.push_str("\" x1=\"")?;
    push_number(out, logical)?;
    out.push_str("\" y1=\"0\" x2=\"")?;
    push_number(out, visual)?;
    out.push_str("\" y2=\"1\"/>")?;
    Ok(())
}

/// Returns whether a visual index is in a block.
fn is_in_block(block: Block, place: usize) -> bool
    ensures { result ≡ is_in_block block place }
{
    block.from <= place && place - block.from < block.columns
}

/// Appends a line from a logical index to the visual index, if that is in the block.
fn push_link_in(
    out: &mut String,
    block: Block,
    logical: usize,
    visual: usize,
) -> Result<(), AllocError>
    ensures { OnOk result (string_bytes out.new ≡ string_bytes out.old ++ link_in block logical visual) }
{
    if is_in_block(block, visual) {
        push_link(out, logical, visual)?;
    }
    Ok(())
}

/// Appends a line from each of some logical indexes to its visual index, if that is in the block.
fn push_links(
    out: &mut String,
    block: Block,
    places: &[usize],
    indexes: &[usize],
) -> Result<(), AllocError>
    requires { All (λ p. p < length places.now) indexes.now }
    ensures { OnOk result (string_bytes out.new
        ≡ string_bytes out.old ++ flat_map (link_from block places.now) indexes.now) }
{
    for at in indexes {
        push_link_in(out, block, *at, places[*at])?;
    }
    Ok(())
}

/// Appends the tags before the lines between the two rows of boxes of a block.
fn push_links_start(out: &mut String, from: usize, columns: usize) -> Result<(), AllocError>
    ensures { OnOk result (string_bytes out.new ≡ string_bytes out.old ++ links_start from columns) }
{
    out.push_str("<tr><th></th><td colspan=\"")?;
    push_number(out, columns)?;
    out.push_str("\"><svg preserveAspectRatio=\"none\" viewBox=\"")?;
    push_number(out, from)?;
    out.push_str(" 0 ")?;
    push_number(out, columns)?;
    out.push_str(" 1\">")?;
    Ok(())
}

/// Appends the row of the lines between the two rows of boxes of a block.
fn push_links_row(
    out: &mut String,
    block: Block,
    places: &[usize],
    indexes: &[usize],
) -> Result<(), AllocError>
    requires { All (λ p. p < length places.now) indexes.now }
    ensures { OnOk result (string_bytes out.new ≡ string_bytes out.old ++ links_row block places.now indexes.now) }
{
    push_links_start(out, block.from, indexes.len())?;
    push_links(out, block, places, indexes)?;
    out.push_str("</svg></td></tr>\n")?;
    Ok(())
}

/// Appends cells.
fn push_cells(out: &mut String, cells: &[String]) -> Result<(), AllocError>
    ensures { OnOk result (string_bytes out.new ≡ string_bytes out.old ++ flat_map cell_element (map string_bytes cells.now)) }
{
    for cell in cells {
        out.push_str("<td>")?;
        out.push_str(cell.as_str())?;
        out.push_str("</td>")?;
    }
    Ok(())
}

/// Appends a label, and the cells of a block.
fn push_labelled(
    out: &mut String,
    label: &str,
    cells: &[String],
    block: Block,
) -> Result<(), AllocError>
    ensures { OnOk result (string_bytes out.new
        ≡ string_bytes out.old ++ row_element block (label.now, map string_bytes cells.now)) }
{
    out.push_str("<tr><th>")?;
    out.push_str(label)?;
    out.push_str("</th>")?;
    push_cells(out, block.part(cells))?;
    out.push_str("</tr>\n")?;
    Ok(())
}

/// Appends a row of a block.
fn push_row(out: &mut String, row: &Row, block: Block) -> Result<(), AllocError>
    ensures { OnOk result (string_bytes out.new ≡ string_bytes out.old ++ row_element block row.now) }
{
    push_labelled(out, row.label, row.cells.as_slice(), block)?;
    Ok(())
}

/// Appends the rows of a block.
fn push_rows(out: &mut String, rows: &[Row], block: Block) -> Result<(), AllocError>
    ensures { OnOk result (string_bytes out.new ≡ string_bytes out.old ++ flat_map (row_element block) rows.now) }
{
    for row in rows {
        push_row(out, row, block)?;
    }
    Ok(())
}

/// Appends the level of a paragraph, and its isolating run sequences.
fn push_summary(
    out: &mut String,
    level: usize,
    sequences: &[PlainSequence],
) -> Result<(), AllocError>
    ensures { OnOk result (string_bytes out.new ≡ string_bytes out.old ++ summary_text level sequences.now) }
{
    out.push_str("<section>\n<pre>")?;
    push_level(out, level)?;
    push_sequences(out, sequences)?;
    out.push_str("</pre>\n")?;
    Ok(())
}

/// Appends the boxes of a block in logical order, and its rows below them.
fn push_upper(
    out: &mut String,
    chars: &[char],
    stages: &Stages,
    rows: &[Row],
    indexes: &[usize],
    block: Block,
) -> Result<(), AllocError>
    requires classes_same_len { vec_len stages.now.classes ≡ length chars.now }
    requires levels_same_len { vec_len stages.now.line_levels ≡ length chars.now }
    requires within { All (λ p. p < length chars.now) indexes.now }
    ensures { OnOk result (string_bytes out.new
        ≡ string_bytes out.old ++ upper_part chars.now stages.now rows.now indexes.now block) }
{
    out.push_str("<table>\n<tbody>\n")?;
    push_boxes_row(out, chars, stages, block.part(indexes))?;
    push_rows(out, rows, block)?;
    out.push_str("</tbody>\n")?;
    Ok(())
}

/// Appends the boxes of a block in visual order, and the lines above them.
fn push_lower(
    out: &mut String,
    chars: &[char],
    stages: &Stages,
    indexes: &[usize],
    block: Block,
) -> Result<(), AllocError>
    requires classes_same_len { vec_len stages.now.classes ≡ length chars.now }
    requires levels_same_len { vec_len stages.now.line_levels ≡ length chars.now }
    requires order { All (λ p. p < length chars.now) stages.now.order.items }
    requires places { vec_len stages.now.places ≡ length chars.now }
    requires within { All (λ p. p < length chars.now) indexes.now }
    ensures { OnOk result (string_bytes out.new
        ≡ string_bytes out.old ++ lower_part chars.now stages.now indexes.now block) }
{
    out.push_str("<tfoot>\n")?;
    push_links_row(out, block, stages.places.as_slice(), block.part(indexes))?;
    push_shown_row(out, chars, stages, block.part(stages.order.as_slice()))?;
    out.push_str("</tfoot>\n</table>\n")?;
    Ok(())
}

/// Appends a block: its boxes in logical order, the rows below them, and its boxes in visual order.
fn push_block(
    out: &mut String,
    chars: &[char],
    stages: &Stages,
    rows: &[Row],
    indexes: &[usize],
    block: Block,
) -> Result<(), AllocError>
    requires classes_same_len { vec_len stages.now.classes ≡ length chars.now }
    requires levels_same_len { vec_len stages.now.line_levels ≡ length chars.now }
    requires order { All (λ p. p < length chars.now) stages.now.order.items }
    requires places { vec_len stages.now.places ≡ length chars.now }
    requires within { All (λ p. p < length chars.now) indexes.now }
    ensures { OnOk result (string_bytes out.new
        ≡ string_bytes out.old ++ block_element chars.now stages.now rows.now indexes.now block) }
{
    push_upper(out, chars, stages, rows, indexes, block)?;
    push_lower(out, chars, stages, indexes, block)?;
    Ok(())
}

/// Appends blocks.
fn push_blocks(
    out: &mut String,
    chars: &[char],
    stages: &Stages,
    rows: &[Row],
    indexes: &[usize],
    blocks: &[Block],
) -> Result<(), AllocError>
    requires classes_same_len { vec_len stages.now.classes ≡ length chars.now }
    requires levels_same_len { vec_len stages.now.line_levels ≡ length chars.now }
    requires order { All (λ p. p < length chars.now) stages.now.order.items }
    requires places { vec_len stages.now.places ≡ length chars.now }
    requires within { All (λ p. p < length chars.now) indexes.now }
    ensures { OnOk result (string_bytes out.new
        ≡ string_bytes out.old ++ flat_map (block_element chars.now stages.now rows.now indexes.now) blocks.now) }
{
    for block in blocks {
        push_block(out, chars, stages, rows, indexes, *block)?;
    }
    Ok(())
}

/// Returns the indexes of a list of this length.
fn indexes_below(alloc: Global, len: usize) -> Result<Vec<usize>, AllocError>
    ensures { IfOk result (λ v. v.items ≡ range_with_len 0 len) }
{
    let mut indexes = Vec::with_capacity(alloc, len)?;
    for index in 0..len {
        indexes.push(index)?;
    }
    Ok(indexes)
}

/// Appends the section of a paragraph: its level and its isolating run sequences, and its characters in blocks.
///
/// A block has the characters as boxes in logical order, coloured by level, a row for each stage below them, and the
/// boxes again in visual order. A line joins the two boxes of a character, if both are in the same block.
pub(crate) fn push_section(
    alloc: Global,
    out: &mut String,
    chars: &[char],
    stages: &Stages,
) -> Result<(), AllocError>
    requires classes_same_len { vec_len stages.now.classes ≡ length chars.now }
    requires levels_same_len { vec_len stages.now.line_levels ≡ length chars.now }
    requires order { All (λ p. p < length chars.now) stages.now.order.items }
    requires places { vec_len stages.now.places ≡ length chars.now }
    ensures { OnOk result (string_bytes out.new ≡ string_bytes out.old ++ section_text chars.now stages.now) }
{
    let rows = stage_rows(alloc, chars, stages)?;
    let indexes = indexes_below(alloc, chars.len())?;
    let blocks = blocks(alloc, PAGE_COLUMNS, chars.len())?;
    let level = usize::from(stages.level.number());
    push_summary(out, level, stages.sequences.as_slice())?;
    push_blocks(
        out,
        chars,
        stages,
        rows.as_slice(),
        indexes.as_slice(),
        blocks.as_slice(),
    )?;
    out.push_str("</section>\n")?;
    Ok(())
}
