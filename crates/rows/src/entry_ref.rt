use crate::row_id::RowId;
use crate::value::Value;

/// An entry whose data is lent by the bytes from which it was read.
#[derive(Clone, Copy)]
pub enum EntryRef<'a> {
    /// Inserts a row into a table.
    Insert {
        table: u8,
        row: RowId,
        bytes: &'a [u8],
    },
    /// Changes one column of a row, which begins at `offset` in the row's bytes.
    Patch {
        table: u8,
        row: RowId,
        offset: u16,
        bytes: &'a [u8],
    },
    /// Deletes a row from a table.
    Delete {
        table: u8,
        row: RowId,
    },
    /// Adds a column behind those of a table.
    AddColumn {
        table: u8,
        default: Value,
    },
}
