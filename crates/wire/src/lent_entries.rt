//! The entries of a frame, still in the bytes that they were read from.

ghost use Rattle.std.specs.Prelude.{◌≡◌, IfOk, length, nat_lt};
ghost use Rattle.std.specs.List.{flat_map, list_all};
ghost use Rattle.rows.specs.Entries.{table_of};
ghost use Rattle.rows.specs.Reading.{entries_filling};
ghost use Rattle.rows.specs.Spelling.{entry_spelling};

use rows::{EntryList, entries_fill, entries_have_table, laws, read_entries};
use std::alloc::{AllocError, Global};
use std::marker::Model;

/// Entries that fill bytes exactly, lent by those bytes.
///
/// Contracts see the list of the entries.
#[derive(Drop)]
pub struct LentEntries<'a> {
    count: u16,
    bytes: &'a [u8],
}

impl<'a> Model for LentEntries<'a> {
    ghost use Rattle.std.specs.Prelude.{List, []};
    ghost use Rattle.std.specs.Option.{unwrap_or};
    ghost use Rattle.rows.specs.declared.entry.Entry.{Entry};
    ghost use Rattle.rows.specs.Reading.{entries_filling};
    ghost use Rattle.wire.specs.Inner.Filling.{AreFilled};

    ghost Value = { List Entry };

    ghost view = { λ e. unwrap_or (entries_filling e.count e.bytes.now) [] };

    ghost invariant = { λ e. AreFilled e.count e.bytes.now };
}

impl<'a> LentEntries<'a> {
    /// The entries that the bytes spell, `count` of them and all of the bytes; `None` if they do
    /// not. Takes no memory.
    pub fn filling(count: u16, bytes: &'a [u8]) -> Option<LentEntries<'a>>
        ensures { result ≡ entries_filling count bytes.now }
    {
        if entries_fill(count, bytes) {
            Some(LentEntries { count, bytes })
        } else {
            None
        }
    }

    /// How many entries there are.
    pub fn len(&self) -> usize
        ensures { result ≡ length self.now }
    {
        laws::entries_are_read_as_spelled();
        self.count as usize
    }

    /// The bytes that spell the entries.
    pub fn as_bytes(&self) -> &'a [u8]
        ensures { result.now ≡ flat_map entry_spelling self.now }
    {
        laws::entries_are_read_as_spelled();
        self.bytes
    }

    /// Whether the table of every entry is one of this many. Takes no memory.
    pub fn have_table(&self, tables: usize) -> bool
        ensures { result ≡ list_all (λ entry. nat_lt (table_of entry) tables) self.now }
    {
        entries_have_table(tables, self.count, self.bytes)
    }

    /// The entries, owned. Fails only if out of memory.
    pub fn to_list(&self, alloc: Global) -> Result<EntryList, AllocError>
        ensures { IfOk result (λ list. list ≡ self.now) }
    {
        match read_entries(alloc, self.count, self.bytes)? {
            Some(entries) => Ok(entries),
            None => unreachable!(),
        }
    }
}
