//! Which rows are there after entries.

ghost use Rattle.std.specs.Prelude.{◌≡◌, ℕ, [], Some, OnOk, if◌then◌else◌};
ghost use Rattle.rows.specs.Presence.{left_by};
ghost use Rattle.mvcc.specs.Inner.Keys.{names};
ghost use Rattle.mvcc.specs.Inner.RowsTold.{told_of};

use rows::{Entry, RowId};
use std::alloc::{AllocError, Global};
use std::collections::BTreeMap;
use std::marker::Model;

/// For each row that entries wrote, whether it is there after them. Contracts see the list of rows,
/// by table and identifier.
#[derive(Drop)]
pub struct RowsTold {
    rows: BTreeMap<(u8, u64), bool>,
}

impl Model for RowsTold {
    ghost use Rattle.mvcc.specs.Inner.RowsTold.{Told};

    ghost Value = { Told };

    ghost view = { λ t. t.rows.entries };
}

impl RowsTold {
    /// No row. Takes no memory.
    pub fn new(alloc: Global) -> RowsTold
        ensures { result ≡ [] }
    {
        RowsTold {
            rows: BTreeMap::new(alloc),
        }
    }

    /// Whether the row is there; `None` if nothing is recorded for it.
    pub fn of(&self, table: u8, row: RowId) -> Option<bool>
        ensures { result ≡ told_of self.now table row.0 }
    {
        self.rows.get(&(table, row.0)).copied()
    }

    /// Records whether the row of the entry is there after it, given whether it was there before; an
    /// entry that is of no row alone changes nothing. Fails only if out of memory; nothing is then
    /// known of the record.
    pub fn tell(&mut self, entry: &Entry, there: bool) -> Result<(), AllocError>
        ensures { OnOk result ((t r : ℕ)
            → told_of self.new t r ≡ (if names t r entry.now then Some (left_by entry.now there) else told_of self.old t r)) }
    {
        let Some(row) = entry.row() else {
            return Ok(());
        };
        self.rows
            .insert((entry.table(), row.0), entry.leaves_row(there))?;
        Ok(())
    }
}
