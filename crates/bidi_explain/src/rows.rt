//! The rows of a paragraph's stages.
ghost use Rattle.std.specs.Prelude.{◌≡◌, length, map, vec_len, IfOk, string_bytes};
ghost use Rattle.bidi_explain.specs.Rows.{stage_rows, rows_from};

use crate::cells::{
    class_cells, code_cells, glyph_cells, index_cells, level_cells, number_cells, option_cells,
};
use crate::stages::Stages;
use std::alloc::{AllocError, Global};
use std::marker::Model;

/// A row: its label, and a cell for each character. In clauses it is the pair of both.
#[derive(Drop)]
pub struct Row {
    /// What the row shows.
    pub label: &'static str,
    /// One cell for each character.
    pub cells: Vec<String>,
}

impl Model for Row {
    ghost use Rattle.std.specs.Prelude.{ℕ, List, map, string_bytes};

    ghost Value = { List ℕ × List (List ℕ) };

    ghost view = { λ r. (r.label.now, map string_bytes r.cells.items) };
}

/// Returns the row with this label.
fn labelled(label: &'static str, cells: Vec<String>) -> Row
    ensures { result ≡ (label.now, map string_bytes cells.items) }
{
    Row { label, cells }
}

/// Returns the rows of a paragraph's stages, given its characters.
pub fn stage_rows(alloc: Global, chars: &[char], stages: &Stages) -> Result<Vec<Row>, AllocError>
    ensures { IfOk result (λ v. v.items ≡ stage_rows chars.now stages.now) }
{
    let indexes = index_cells(alloc, chars.len())?;
    let codes = code_cells(alloc, chars)?;
    let classes = class_cells(alloc, stages.classes.as_slice())?;
    let explicit_classes = class_cells(alloc, stages.explicit.classes())?;
    let explicit_levels = level_cells(alloc, stages.explicit.levels())?;
    let weak = option_cells(alloc, stages.weak.as_slice())?;
    let neutral = option_cells(alloc, stages.neutral.as_slice())?;
    let levels = level_cells(alloc, stages.levels.as_slice())?;
    let line_levels = level_cells(alloc, stages.line_levels.as_slice())?;
    let places = number_cells(alloc, stages.places.as_slice())?;
    let rows = vec![in alloc;
        labelled("index         ", indexes),
        labelled("code point    ", codes),
        labelled("class         ", classes),
        labelled("after X       ", explicit_classes),
        labelled("explicit level", explicit_levels),
        labelled("after W       ", weak),
        labelled("after N       ", neutral),
        labelled("level         ", levels),
        labelled("level in line ", line_levels),
        labelled("visual place  ", places),
    ]?;
    Ok(rows)
}

/// Returns the rows of a paragraph: those of its characters, and those of its stages. The stages must be of as many
/// characters.
pub fn rows(alloc: Global, chars: &[char], stages: &Stages) -> Result<Vec<Row>, AllocError>
    requires { vec_len stages.now.classes ≡ length chars.now }
    ensures { IfOk result (λ v. v.items ≡ rows_from chars.now stages.now) }
{
    let glyphs = glyph_cells(alloc, stages.classes.as_slice(), chars)?;
    let mut rows = vec![in alloc; labelled("character     ", glyphs)]?;
    rows.append(&mut stage_rows(alloc, chars, stages)?)?;
    Ok(rows)
}
