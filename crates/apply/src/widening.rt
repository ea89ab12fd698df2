//! A column that is added to all blocks of a piece, or to none.

ghost use Rattle.std.specs.Prelude.{◌≡◌, ℕ, ◌<◌, ◌≤◌, length, map, true, OnOk, OnErr, slice_index_or};
ghost use Rattle.rows.specs.Shape.{is_good};
ghost use Rattle.rows.specs.Tables.{Table};
ghost use Rattle.rows.specs.Values.{kind_of};
ghost use Rattle.apply.specs.Blocks.{wider, narrower};
ghost use Rattle.apply.specs.Columns.{IsFilled};

use crate::block::Block;
use crate::cells::Cells;
use rows::Value;
use std::alloc::{AllocError, Global};

/// Adds a column with this value in each row to each of these blocks. Fails only if out of memory,
/// and then the blocks are unchanged.
pub fn add_column(alloc: Global, blocks: &mut [Block], default: &Value) -> Result<(), AllocError>
    requires { is_good (kind_of default.now) ≡ true }
    ensures ok { OnOk result (blocks.new ≡ map (wider default.now) blocks.old) }
    ensures err { OnErr result (blocks.new ≡ blocks.old) }
{
    if blocks.len() == 1 {
        return blocks[0].add_column(alloc, default);
    }
    // To repeat a value takes longer than to copy what was repeated.
    let rows = most_rows(blocks);
    let filled = Cells::filled(alloc, rows, default)?;
    add_copies(alloc, blocks, default, rows, &filled)
}

/// Adds a column with this value in each row to each of these blocks: copies of one that has it in
/// so many rows, and no block has more. Fails only if out of memory, and then the blocks are
/// unchanged.
fn add_copies(
    alloc: Global,
    blocks: &mut [Block],
    default: &Value,
    rows: usize,
    filled: &Cells,
) -> Result<(), AllocError>
    requires filled { IsFilled rows default.now filled.now }
    requires within { (k : ℕ) (d : Table) → k < length blocks.old → length (slice_index_or blocks.old k d).rows ≤ rows }
    ensures ok { OnOk result (blocks.new ≡ map (wider default.now) blocks.old) }
    ensures err { OnErr result (blocks.new ≡ blocks.old) }
{
    for k in 0..blocks.len() {
        if blocks[k].add_copy(alloc, default, rows, filled).is_err() {
            drop_column(&mut blocks[..k]);
            return Err(AllocError);
        }
    }
    Ok(())
}

/// Drops the last column of each of these blocks.
pub fn drop_column(blocks: &mut [Block])
    ensures { blocks.new ≡ map narrower blocks.old }
{
    for k in 0..blocks.len() {
        blocks[k].drop_column();
    }
}

/// How many rows the largest of these blocks has.
fn most_rows(blocks: &[Block]) -> usize
    ensures { (k : ℕ) (d : Table) → k < length blocks.now → length (slice_index_or blocks.now k d).rows ≤ result }
{
    let mut most = 0;
    for block in blocks {
        most = block.len().max(most);
    }
    most
}
