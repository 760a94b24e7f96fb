//! Wide tables, in blocks of columns.
ghost use Rattle.std.specs.Prelude.{◌≡◌, ℕ, ◌<◌, List, length, flat_map, IfOk};
ghost use Rattle.bidi_explain.specs.Blocks.{columns_in, block_count, blocks_of, part_of};

use std::alloc::{AllocError, Global};

/// The number of columns of a terminal that the labels of a table take.
const LABEL_WIDTH: u16 = 16;

/// The number of columns of a terminal that a cell takes: a tab stop.
const CELL_WIDTH: u16 = 8;

/// Consecutive columns of a table.
#[derive(Clone, Copy, Debug)]
pub struct Block {
    /// The index of the first column.
    pub from: usize,
    /// The maximum number of columns.
    pub columns: usize,
}

impl Block {
    /// Returns the part of a row that is in the block.
    pub fn part<T>(self, items: &[T]) -> &[T]
        ensures { result.now ≡ part_of self items.now }
    {
        let rest = &items[self.from.min(items.len())..];
        &rest[..self.columns.min(rest.len())]
    }
}

/// Returns the maximum number of columns of a block of a table of `len` columns, for a terminal of this width.
pub fn columns_in(width: Option<u16>, len: usize) -> usize
    ensures columns { result ≡ columns_in width len }
    ensures advances { 0 < result }
{
    match width {
        Some(width) => usize::from(width.saturating_sub(LABEL_WIDTH) / CELL_WIDTH).max(1),
        None => len.max(1),
    }
}

/// Returns how many blocks of `columns` columns there are, if the table has `len` columns.
fn block_count(columns: usize, len: usize) -> usize
    requires { 0 < columns }
    ensures { result ≡ block_count columns len }
{
    (len.max(1) - 1) / columns + 1
}

/// Returns the blocks of `columns` columns of a table of `len` columns. Together they have each column once, in order.
/// `columns` must not be 0.
pub fn blocks(alloc: Global, columns: usize, len: usize) -> Result<Vec<Block>, AllocError>
    requires { 0 < columns }
    ensures blocks { IfOk result (λ v. v.items ≡ blocks_of columns len) }
    ensures whole { IfOk result (λ v. (row : List (List ℕ)) → length row ≡ len → flat_map (λ b. part_of b row) v.items ≡ row) }
{
    let count = block_count(columns, len);
    let mut blocks = Vec::with_capacity(alloc, count)?;
    for index in 0..count {
        blocks.push(Block {
            from: index * columns,
            columns,
        })?;
    }
    Ok(blocks)
}
