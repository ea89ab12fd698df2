//! Changes of all columns of a block at one row.

ghost use Rattle.std.specs.Prelude.{◌≡◌, ℕ, ◌+◌, ◌<◌, ◌≤◌, length, true, OnOk, IfOk, slice_index_or};
ghost use Rattle.std.specs.List.{list_all};
ghost use Rattle.rows.specs.Shape.{row_width, is_good};
ghost use Rattle.apply.specs.Columns.{AreCells, HasRoom, Keeps, IsTail};
ghost use Rattle.apply.specs.Blocks.{kinds_with};
ghost use Rattle.apply.specs.Inner.Edits.{AllCells, Each, IsPutIn, IsTaken, IsFront};

use crate::cells::Cells;
use rows::Kind;
use std::alloc::{AllocError, Global};

/// Columns of these kinds, without values. Fails only if out of memory.
pub fn empty_columns(alloc: Global, kinds: &[Kind]) -> Result<Vec<Cells>, AllocError>
    requires { list_all is_good kinds.now ≡ true }
    ensures kinds { IfOk result (λ columns. kinds_with columns.items ≡ kinds.now) }
    ensures cells { IfOk result (λ columns. AllCells 0 columns.items) }
{
    let mut columns = Vec::with_capacity(alloc, kinds.len())?;
    for kind in kinds {
        columns.push_reserved(Cells::new(alloc, *kind));
    }
    Ok(columns)
}

/// Makes room for one more row. Fails only if out of memory. The values do not change.
pub fn reserve_row(columns: &mut [Cells]) -> Result<(), AllocError>
    ensures len { length columns.new ≡ length columns.old }
    ensures keeps { Each (λ k. Keeps) (length columns.old) columns.old columns.new }
    ensures ok { OnOk result ((k : ℕ) (d : _) → k < length columns.new → HasRoom (slice_index_or columns.new k d)) }
{
    for k in 0..columns.len() {
        columns[k].reserve()?;
    }
    Ok(())
}

/// Inserts a row, given by its bytes, if there is room.
pub fn insert_row(columns: &mut [Cells], rows: usize, at: usize, bytes: &[u8])
    requires cells { AllCells rows columns.old }
    requires room { (k : ℕ) (d : _) → k < length columns.old → HasRoom (slice_index_or columns.old k d) }
    requires within { at ≤ rows }
    requires wide { row_width (kinds_with columns.old) ≤ length bytes.now }
    ensures len { length columns.new ≡ length columns.old }
    ensures put { Each (IsPutIn rows at columns.old bytes.now) (length columns.old) columns.old columns.new }
{
    let mut rest = bytes;
    for k in 0..columns.len() {
        let (_, after) = rest.split_at(columns[k].width());
        columns[k].insert(rows, at, rest);
        rest = after;
    }
}

/// Removes a row.
pub fn remove_row(columns: &mut [Cells], rows: usize, at: usize)
    requires cells { AllCells rows columns.old }
    requires within { at < rows }
    ensures len { length columns.new ≡ length columns.old }
    ensures taken { Each (λ k. IsTaken rows at) (length columns.old) columns.old columns.new }
{
    for k in 0..columns.len() {
        columns[k].remove(rows, at);
    }
}

/// Drops the rows from one on.
pub fn truncate_rows(columns: &mut [Cells], rows: usize, at: usize)
    requires cells { AllCells rows columns.old }
    requires within { at ≤ rows }
    ensures len { length columns.new ≡ length columns.old }
    ensures front { Each (λ k. IsFront rows at) (length columns.old) columns.old columns.new }
{
    for k in 0..columns.len() {
        columns[k].truncate(rows, at);
    }
}

/// A copy of the rows from one on. Fails only if out of memory.
pub fn rows_from(
    alloc: Global,
    columns: &[Cells],
    rows: usize,
    at: usize,
) -> Result<Vec<Cells>, AllocError>
    requires cells { AllCells rows columns.now }
    requires within { at ≤ rows }
    ensures len { IfOk result (λ made. length made.items ≡ length columns.now) }
    ensures tail { IfOk result (λ made. Each (λ k. IsTail rows at) (length columns.now) columns.now made.items) }
{
    let mut made = Vec::with_capacity(alloc, columns.len())?;
    for k in 0..columns.len() {
        made.push_reserved(columns[k].tail(alloc, rows, at)?);
    }
    Ok(made)
}
