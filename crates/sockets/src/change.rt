//! One change of a job.

use rows::{Row, RowId, Value};

/// One change of a job, with the arguments of the seat's call that makes it.
#[derive(Drop)]
pub enum Change {
    /// Inserts a row into a table.
    Insert {
        table: u8,
        row: RowId,
        values: Row,
    },
    /// Sets one column of a row to another value.
    Set {
        table: u8,
        row: RowId,
        column: usize,
        value: Value,
    },
    /// Deletes a row from a table.
    Delete {
        table: u8,
        row: RowId,
    },
    /// Adds a column to a table, with this value in each row.
    AddColumn {
        table: u8,
        default: Value,
    },
}
