//! Whether a row is there after entries, computed from the entries alone.

ghost use Rattle.std.specs.Prelude.{◌≡◌};
ghost use Rattle.rows.specs.Presence.{is_there_after_one, is_there_after};

use crate::entry::Entry;
use crate::row_id::RowId;

/// Whether the row is there after these entries, given whether it was there before.
pub fn is_there_after(table: u8, row: RowId, entries: &[Entry], was: bool) -> bool
    ensures { result ≡ is_there_after table row.0 entries.now was }
{
    let mut there = was;
    for entry in entries {
        there = is_there_after_one(table, row, entry, there);
    }
    there
}

/// Whether the row is there after the entry, given whether it was there before.
fn is_there_after_one(table: u8, row: RowId, entry: &Entry, was: bool) -> bool
    ensures { result ≡ is_there_after_one table row.0 entry.now was }
{
    if entry.is_of(table, row) {
        entry.leaves_row(was)
    } else {
        was
    }
}
