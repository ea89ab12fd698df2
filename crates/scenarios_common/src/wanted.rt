//! The tables of the scenarios, and entries that are wanted of them.

use rows::{ByteList, Entry, EntryList, Kind, RowId, Schema, SchemaFault};
use std::alloc::{AllocError, Global};

/// A table: its name and its columns.
pub type Table = (&'static str, &'static [Kind]);

/// Accounts of two numbers.
pub const NUMBERS: [Table; 1] = [("acct", &[Kind::Int, Kind::Int])];

/// Accounts of two numbers, and an audit of one.
pub const BANK: [Table; 2] = [
    ("accounts", &[Kind::Int, Kind::Int]),
    ("audit", &[Kind::Int]),
];

/// The schema of the bank.
pub fn bank(alloc: Global) -> Result<Schema, SchemaFault> {
    Schema::new(alloc, &BANK)
}

/// The bytes of a row of the numbers 5 and -1.
pub const FIVE: [u8; 16] = *b"\0\0\0\0\0\0\0\x05\xff\xff\xff\xff\xff\xff\xff\xff";

/// The bytes of the number 6.
pub const SIX: [u8; 8] = [0, 0, 0, 0, 0, 0, 0, 6];

/// An entry that is to be made, of the row of that identifier in that table.
#[derive(Drop)]
pub enum Wanted<'a> {
    /// An insert of a row of these bytes.
    Insert(u8, u64, &'a [u8]),
    /// A patch: these bytes at that offset.
    Patch(u8, u64, u16, &'a [u8]),
    /// A delete.
    Delete(u8, u64),
}

/// The entry that is wanted.
pub fn made(alloc: Global, wanted: &Wanted<'_>) -> Result<Entry, AllocError> {
    match wanted {
        Wanted::Insert(table, row, bytes) => Ok(Entry::Insert {
            table: *table,
            row: RowId(*row),
            bytes: ByteList::from_vec(Vec::from_slice(alloc, bytes)?),
        }),
        Wanted::Patch(table, row, offset, bytes) => Ok(Entry::Patch {
            table: *table,
            row: RowId(*row),
            offset: *offset,
            bytes: ByteList::from_vec(Vec::from_slice(alloc, bytes)?),
        }),
        Wanted::Delete(table, row) => Ok(Entry::Delete {
            table: *table,
            row: RowId(*row),
        }),
    }
}

/// The entries that are wanted, in their order.
pub fn all_made(alloc: Global, wanted: &[Wanted<'_>]) -> Result<EntryList, AllocError> {
    let mut entries = EntryList::new(alloc);
    for entry in wanted {
        entries.push(made(alloc, entry)?)?;
    }
    Ok(entries)
}
