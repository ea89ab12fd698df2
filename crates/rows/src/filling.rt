//! Entries that fill bytes, one after the other.

ghost use Rattle.std.specs.Prelude.{◌≡◌, [], IfOk, is_some, true, nat_lt};
ghost use Rattle.std.specs.List.{list_all};
ghost use Rattle.std.specs.Option.{unwrap_or};
ghost use Rattle.rows.specs.Entries.{table_of};
ghost use Rattle.rows.specs.Reading.{entries_filling, entry_of};

use crate::byte_list::ByteList;
use crate::entry::Entry;
use crate::entry_list::EntryList;
use crate::entry_ref::EntryRef;
use crate::reading::read_entry;
use std::alloc::{AllocError, Global};

/// Bytes of the shortest spelling of an entry: an added column of one byte.
pub const ENTRY_LEN_MIN: usize = 1 + 1 + 1 + 1;

/// Whether exactly `count` entries fill the bytes. Takes no memory.
pub fn entries_fill(count: u16, bytes: &[u8]) -> bool
    ensures { result ≡ is_some (entries_filling count bytes.now) }
{
    let mut rest = bytes;
    for _ in 0..count {
        match read_entry(rest) {
            None => return false,
            Some((_, len)) => rest = rest.split_at(len).1,
        }
    }
    rest.is_empty()
}

/// Whether the table of every entry that fills the bytes is one of this many. Takes no memory.
pub fn entries_have_table(tables: usize, count: u16, bytes: &[u8]) -> bool
    requires { is_some (entries_filling count bytes.now) ≡ true }
    ensures { result ≡ list_all (λ entry. nat_lt (table_of entry) tables) (unwrap_or (entries_filling count bytes.now) []) }
{
    let mut rest = bytes;
    for _ in 0..count {
        match read_entry(rest) {
            None => unreachable!(),
            Some((entry, len)) => {
                if table_of(&entry) as usize >= tables {
                    return false;
                }
                rest = rest.split_at(len).1;
            }
        }
    }
    true
}

/// The table of a lent entry.
fn table_of(lent: &EntryRef<'_>) -> u8
    ensures { result ≡ table_of (entry_of lent.now) }
{
    match lent {
        EntryRef::Insert { table, .. }
        | EntryRef::Patch { table, .. }
        | EntryRef::Delete { table, .. }
        | EntryRef::AddColumn { table, .. } => *table,
    }
}

/// The entries that the bytes spell, `count` of them in all of the bytes, owned, in a list with room
/// for exactly them; `None` if the bytes do not spell them. Fails only if out of memory.
pub fn read_entries(
    alloc: Global,
    count: u16,
    bytes: &[u8],
) -> Result<Option<EntryList>, AllocError>
    ensures { IfOk result (λ found. found ≡ entries_filling count bytes.now) }
{
    let mut entries = EntryList::new(alloc);
    // A wrong count takes no more room than the bytes could need.
    entries.reserve_exact((count as usize).min(bytes.len() / ENTRY_LEN_MIN))?;
    let mut rest = bytes;
    for _ in 0..count {
        match read_entry(rest) {
            None => return Ok(None),
            Some((entry, len)) => {
                entries.push(owned(alloc, &entry)?)?;
                rest = rest.split_at(len).1;
            }
        }
    }
    if rest.is_empty() {
        Ok(Some(entries))
    } else {
        Ok(None)
    }
}

/// The entry, owned.
fn owned(alloc: Global, lent: &EntryRef<'_>) -> Result<Entry, AllocError>
    ensures { IfOk result (λ owned. owned ≡ entry_of lent.now) }
{
    match lent {
        EntryRef::Insert { table, row, bytes } => {
            let bytes = ByteList::from_vec(Vec::from_slice(alloc, bytes)?);
            Ok(Entry::Insert {
                table: *table,
                row: *row,
                bytes,
            })
        }
        EntryRef::Patch {
            table,
            row,
            offset,
            bytes,
        } => {
            let bytes = ByteList::from_vec(Vec::from_slice(alloc, bytes)?);
            Ok(Entry::Patch {
                table: *table,
                row: *row,
                offset: *offset,
                bytes,
            })
        }
        EntryRef::Delete { table, row } => Ok(Entry::Delete {
            table: *table,
            row: *row,
        }),
        EntryRef::AddColumn { table, default } => Ok(Entry::AddColumn {
            table: *table,
            default: *default,
        }),
    }
}
