//! Entries, and their effect on the presence of their rows.

ghost use Rattle.std.specs.Prelude.{◌≡◌};
ghost use Rattle.std.specs.Cmp.{partial_equiv_from_equiv};
ghost use Rattle.rows.specs.Equality.{is_same_entry, is_same_value};
ghost use Rattle.rows.specs.Inner.Equivalence.{same_entry_equiv};

use crate::byte_list::ByteList;
use crate::entry_ref::EntryRef;
use crate::row_id::RowId;
use crate::value::Value;

/// One physical change: of one row of one table, or a column more in a table.
#[derive(Clone, Drop)]
pub enum Entry {
    /// Inserts a row into a table; `bytes` are its columns' bytes in order.
    Insert {
        table: u8,
        row: RowId,
        bytes: ByteList,
    },
    /// Changes one column of a row; `bytes` are the column's new bytes, and `offset` is where the
    /// column begins in the row's bytes.
    Patch {
        table: u8,
        row: RowId,
        offset: u16,
        bytes: ByteList,
    },
    /// Deletes a row from a table.
    Delete {
        table: u8,
        row: RowId,
    },
    /// Adds a column behind those of a table, with this value in each row; the column is of the
    /// value's kind.
    AddColumn {
        table: u8,
        default: Value,
    },
}

impl Entry {
    ghost use Rattle.rows.specs.Entries.{table_of, row_of};
    ghost use Rattle.rows.specs.Commits.{is_of};
    ghost use Rattle.rows.specs.Presence.{stands_for, left_by};
    ghost use Rattle.rows.specs.Reading.{entry_of};

    /// The same entry with its data lent.
    pub fn lend(&self) -> EntryRef<'_>
        ensures { entry_of result ≡ self.now }
    {
        match self {
            Entry::Insert { table, row, bytes } => EntryRef::Insert {
                table: *table,
                row: *row,
                bytes: bytes.as_slice(),
            },
            Entry::Patch {
                table,
                row,
                offset,
                bytes,
            } => EntryRef::Patch {
                table: *table,
                row: *row,
                offset: *offset,
                bytes: bytes.as_slice(),
            },
            Entry::Delete { table, row } => EntryRef::Delete {
                table: *table,
                row: *row,
            },
            Entry::AddColumn { table, default } => EntryRef::AddColumn {
                table: *table,
                default: *default,
            },
        }
    }

    /// The table of the entry.
    pub fn table(&self) -> u8
        ensures { result ≡ table_of self.now }
    {
        match self {
            Entry::Insert { table, .. }
            | Entry::Patch { table, .. }
            | Entry::Delete { table, .. }
            | Entry::AddColumn { table, .. } => *table,
        }
    }

    /// The row of the entry; `None` if it adds a column, which is of every row of its table.
    pub fn row(&self) -> Option<RowId>
        ensures { result ≡ row_of self.now }
    {
        match self {
            Entry::Insert { row, .. } | Entry::Patch { row, .. } | Entry::Delete { row, .. } => {
                Some(*row)
            }
            Entry::AddColumn { .. } => None,
        }
    }

    /// Whether the entry is of that row; an entry that adds a column is of every row of its table.
    pub fn is_of(&self, table: u8, row: RowId) -> bool
        ensures { result ≡ is_of table row.0 self.now }
    {
        match self {
            Entry::Insert {
                table: at,
                row: id,
                ..
            }
            | Entry::Patch {
                table: at,
                row: id,
                ..
            }
            | Entry::Delete {
                table: at,
                row: id,
                ..
            } => *at == table && id.0 == row.0,
            Entry::AddColumn { table: at, .. } => *at == table,
        }
    }

    /// Whether the entry is possible, given whether its row is there: an insert needs it absent, a
    /// patch and a delete need it there; adding a column is possible either way.
    pub fn is_possible(&self, there: bool) -> bool
        ensures { result ≡ stands_for self.now there }
    {
        match self {
            Entry::Insert { .. } => !there,
            Entry::Patch { .. } | Entry::Delete { .. } => there,
            Entry::AddColumn { .. } => true,
        }
    }

    /// Whether the row is there after the entry, given whether it was there before.
    pub fn leaves_row(&self, was: bool) -> bool
        ensures { result ≡ left_by self.now was }
    {
        match self {
            Entry::Insert { .. } => true,
            Entry::Patch { .. } | Entry::AddColumn { .. } => was,
            Entry::Delete { .. } => false,
        }
    }
}

impl PartialEq for Entry {
    ghost eq = { is_same_entry };

    ghost laws = { partial_equiv_from_equiv same_entry_equiv };

    fn eq(&self, other: &Entry) -> bool {
        match (self, other) {
            (
                Entry::Insert { table, row, bytes },
                Entry::Insert {
                    table: other_table,
                    row: other_row,
                    bytes: others,
                },
            ) => *table == *other_table && row.0 == other_row.0 && *bytes == *others,
            (
                Entry::Patch {
                    table,
                    row,
                    offset,
                    bytes,
                },
                Entry::Patch {
                    table: other_table,
                    row: other_row,
                    offset: other_offset,
                    bytes: others,
                },
            ) => *table == *other_table
                && row.0 == other_row.0
                && *offset == *other_offset
                && *bytes == *others,
            (
                Entry::Delete { table, row },
                Entry::Delete {
                    table: other_table,
                    row: other_row,
                },
            ) => *table == *other_table && row.0 == other_row.0,
            (
                Entry::AddColumn { table, default },
                Entry::AddColumn {
                    table: other_table,
                    default: other,
                },
            ) => *table == *other_table && is_same_value(default, other),
            _ => false,
        }
    }
}

impl Eq for Entry {
    ghost laws = { same_entry_equiv };
}

/// Whether two values are the same.
fn is_same_value(value: &Value, other: &Value) -> bool
    ensures { result ≡ is_same_value value.now other.now }
{
    match (value, other) {
        (Value::Int(number), Value::Int(other)) => *number == *other,
        (Value::Octets(bytes), Value::Octets(other)) => *bytes == *other,
        _ => false,
    }
}
