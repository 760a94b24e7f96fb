//! The stages of a paragraph as a table, a column for each character.
ghost use Rattle.std.specs.Prelude.{◌≡◌, ◌++◌, flat_map, map, length, vec_len, codes, decimal, OnOk, string_bytes};
ghost use Rattle.bidi_explain.specs.Tables.{cell_text, row_text, gap_text, block_text, ends_text, sequence_line, sequence_text, level_text, blocks_text, table_text};

use crate::blocks::{Block, blocks, columns_in};
use crate::cells::class_name;
use crate::rows::{Row, rows};
use crate::stages::Stages;
use bidi_base::char_data::BidiClass;
use bidi_plain::plain::PlainSequence;
use bidi_terminal::push_number;
use std::alloc::{AllocError, Global};

/// Appends cells, each after a tab.
fn push_cells(out: &mut String, cells: &[String]) -> Result<(), AllocError>
    ensures { OnOk result (string_bytes out.new ≡ string_bytes out.old ++ flat_map cell_text (map string_bytes cells.now)) }
{
    for cell in cells {
        out.push_str("\t")?;
        out.push_str(cell.as_str())?;
    }
    Ok(())
}

/// Appends a label, and the cells of a block, each after a tab.
fn push_labelled(
    out: &mut String,
    label: &str,
    cells: &[String],
    block: Block,
) -> Result<(), AllocError>
    ensures { OnOk result (string_bytes out.new
        ≡ string_bytes out.old ++ row_text block (label.now, map string_bytes cells.now)) }
{
    out.push_str(label)?;
    push_cells(out, block.part(cells))?;
    out.push_str("\n")?;
    Ok(())
}

/// Appends a row of a block.
fn push_row(out: &mut String, row: &Row, block: Block) -> Result<(), AllocError>
    ensures { OnOk result (string_bytes out.new ≡ string_bytes out.old ++ row_text block row.now) }
{
    push_labelled(out, row.label, row.cells.as_slice(), block)?;
    Ok(())
}

/// Appends indexes, each after a space.
fn push_places(out: &mut String, places: &[usize]) -> Result<(), AllocError>
    ensures { OnOk result (string_bytes out.new ≡ string_bytes out.old ++ flat_map (λ p. codes " " ++ decimal p) places.now) }
{
    for place in places {
        out.push_str(" ")?;
        push_number(out, *place)?;
    }
    Ok(())
}

/// Appends the ends of an isolating run sequence.
fn push_ends(out: &mut String, sos: BidiClass, eos: BidiClass) -> Result<(), AllocError>
    ensures { OnOk result (string_bytes out.new ≡ string_bytes out.old ++ ends_text sos eos) }
{
    out.push_str("sequence sos ")?;
    out.push_str(class_name(sos))?;
    out.push_str(" eos ")?;
    out.push_str(class_name(eos))?;
    out.push_str(":")?;
    Ok(())
}

/// Appends an isolating run sequence: sos, eos, and the indexes of its characters.
fn push_run_sequence(
    out: &mut String,
    sos: BidiClass,
    eos: BidiClass,
    places: &[usize],
) -> Result<(), AllocError>
    ensures { OnOk result (string_bytes out.new ≡ string_bytes out.old ++ sequence_line sos eos places.now) }
{
    push_ends(out, sos, eos)?;
    push_places(out, places)?;
    out.push_str("\n")?;
    Ok(())
}

/// Appends an isolating run sequence.
fn push_sequence(out: &mut String, sequence: &PlainSequence) -> Result<(), AllocError>
    ensures { OnOk result (string_bytes out.new ≡ string_bytes out.old ++ sequence_text sequence.now) }
{
    let (sos, eos) = (sequence.sos(), sequence.eos());
    push_run_sequence(out, sos, eos, sequence.places())?;
    Ok(())
}

/// Appends the rows of a block.
fn push_rows(out: &mut String, rows: &[Row], block: Block) -> Result<(), AllocError>
    ensures { OnOk result (string_bytes out.new ≡ string_bytes out.old ++ flat_map (row_text block) rows.now) }
{
    for row in rows {
        push_row(out, row, block)?;
    }
    Ok(())
}

/// Appends an empty line before a block, unless it is the first.
fn push_gap(out: &mut String, block: Block) -> Result<(), AllocError>
    ensures { OnOk result (string_bytes out.new ≡ string_bytes out.old ++ gap_text block) }
{
    if block.from == 0 {
        return Ok(());
    }
    out.push_str("\n")?;
    Ok(())
}

/// Appends a block.
fn push_block(out: &mut String, rows: &[Row], block: Block) -> Result<(), AllocError>
    ensures { OnOk result (string_bytes out.new ≡ string_bytes out.old ++ block_text rows.now block) }
{
    push_gap(out, block)?;
    push_rows(out, rows, block)?;
    Ok(())
}

/// Appends blocks.
fn push_blocks(out: &mut String, rows: &[Row], blocks: &[Block]) -> Result<(), AllocError>
    ensures { OnOk result (string_bytes out.new ≡ string_bytes out.old ++ flat_map (block_text rows.now) blocks.now) }
{
    for block in blocks {
        push_block(out, rows, *block)?;
    }
    Ok(())
}

/// Appends isolating run sequences.
pub fn push_sequences(out: &mut String, sequences: &[PlainSequence]) -> Result<(), AllocError>
    ensures { OnOk result (string_bytes out.new ≡ string_bytes out.old ++ flat_map sequence_text sequences.now) }
{
    for sequence in sequences {
        push_sequence(out, sequence)?;
    }
    Ok(())
}

/// Appends the level of a paragraph.
pub fn push_level(out: &mut String, level: usize) -> Result<(), AllocError>
    ensures { OnOk result (string_bytes out.new ≡ string_bytes out.old ++ level_text level) }
{
    out.push_str("paragraph level ")?;
    push_number(out, level)?;
    out.push_str("\n")?;
    Ok(())
}

/// Appends a level, the blocks of rows, and isolating run sequences.
fn push_stages(
    out: &mut String,
    level: usize,
    rows: &[Row],
    blocks: &[Block],
    sequences: &[PlainSequence],
) -> Result<(), AllocError>
    ensures { OnOk result (string_bytes out.new ≡ string_bytes out.old ++ blocks_text level rows.now blocks.now sequences.now) }
{
    push_level(out, level)?;
    push_blocks(out, rows, blocks)?;
    push_sequences(out, sequences)?;
    Ok(())
}

/// Appends the table of a paragraph for a terminal of this width: its level, a row for each stage, in blocks that fit,
/// and its isolating run sequences. The stages must be of as many characters.
pub fn push_table(
    alloc: Global,
    out: &mut String,
    width: Option<u16>,
    chars: &[char],
    stages: &Stages,
) -> Result<(), AllocError>
    requires { vec_len stages.now.classes ≡ length chars.now }
    ensures { OnOk result (string_bytes out.new ≡ string_bytes out.old ++ table_text width chars.now stages.now) }
{
    let rows = rows(alloc, chars, stages)?;
    let blocks = blocks(alloc, columns_in(width, chars.len()), chars.len())?;
    let level = usize::from(stages.level.number());
    let sequences = stages.sequences.as_slice();
    push_stages(out, level, rows.as_slice(), blocks.as_slice(), sequences)?;
    Ok(())
}
