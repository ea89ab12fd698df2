//! What a transaction answers on versions that may be older than its snapshot. They are there, so no
//! call is answered `Unread`.

ghost use Rattle.std.specs.Prelude.{◌≡◌, ◌≤◌, length, IfErr};
ghost use Rattle.rows.specs.Shape.{shape_of};
ghost use Rattle.mvcc.specs.Transactions.{get_answer, insert_answer, set_answer, delete_answer, add_column_answer};
ghost use Rattle.published.specs.Answers.{IsAnswer, IsChange};

use crate::faults::LineFault;
use mvcc::{Transaction, Versions};
use rows::{RowId, Value};

/// The value of a column of a row, as the transaction sees it.
pub fn value_of(
    versions: &Versions,
    transaction: &Transaction,
    table: u8,
    row: RowId,
    column: usize,
) -> Result<Value, LineFault>
    ensures answer { IsAnswer transaction.now.snapshot (length versions.now.commits)
        (get_answer (shape_of versions.now.schema) versions.now.commits transaction.now table row.0 column) result }
    ensures read { IfErr result (λ fault. ¬ (fault ≡ LineFault.Unread)) }
{
    if transaction.snapshot() > versions.len() {
        return Err(LineFault::Ahead);
    }
    transaction
        .get(versions, table, row, column)
        .map_err(LineFault::Tx)
}

/// Inserts a row into a table.
pub fn insert_into(
    versions: &Versions,
    transaction: &mut Transaction,
    table: u8,
    row: RowId,
    values: &[Value],
) -> Result<(), LineFault>
    ensures answer { IsChange (length versions.now.commits)
        (insert_answer (shape_of versions.now.schema) versions.now.commits transaction.old table row.0 values.now)
        transaction.old transaction.new result }
    ensures read { IfErr result (λ fault. ¬ (fault ≡ LineFault.Unread)) }
{
    if transaction.snapshot() > versions.len() {
        return Err(LineFault::Ahead);
    }
    transaction
        .insert(versions, table, row, values)
        .map_err(LineFault::Tx)
}

/// Sets one column of a row to another value.
pub fn set_in(
    versions: &Versions,
    transaction: &mut Transaction,
    table: u8,
    row: RowId,
    column: usize,
    value: Value,
) -> Result<(), LineFault>
    ensures answer { IsChange (length versions.now.commits)
        (set_answer (shape_of versions.now.schema) versions.now.commits transaction.old table row.0 column value)
        transaction.old transaction.new result }
    ensures read { IfErr result (λ fault. ¬ (fault ≡ LineFault.Unread)) }
{
    if transaction.snapshot() > versions.len() {
        return Err(LineFault::Ahead);
    }
    transaction
        .set(versions, table, row, column, value)
        .map_err(LineFault::Tx)
}

/// Deletes a row from a table.
pub fn delete_from(
    versions: &Versions,
    transaction: &mut Transaction,
    table: u8,
    row: RowId,
) -> Result<(), LineFault>
    ensures answer { IsChange (length versions.now.commits)
        (delete_answer (shape_of versions.now.schema) versions.now.commits transaction.old table row.0)
        transaction.old transaction.new result }
    ensures read { IfErr result (λ fault. ¬ (fault ≡ LineFault.Unread)) }
{
    if transaction.snapshot() > versions.len() {
        return Err(LineFault::Ahead);
    }
    transaction
        .delete(versions, table, row)
        .map_err(LineFault::Tx)
}

/// Adds a column to a table, with this value in each of its rows.
pub fn add_column_to(
    versions: &Versions,
    transaction: &mut Transaction,
    table: u8,
    default: Value,
) -> Result<(), LineFault>
    ensures answer { IsChange (length versions.now.commits)
        (add_column_answer (shape_of versions.now.schema) versions.now.commits transaction.old table default)
        transaction.old transaction.new result }
    ensures read { IfErr result (λ fault. ¬ (fault ≡ LineFault.Unread)) }
{
    if transaction.snapshot() > versions.len() {
        return Err(LineFault::Ahead);
    }
    transaction
        .add_column(versions, table, default)
        .map_err(LineFault::Tx)
}
