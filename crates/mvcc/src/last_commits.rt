//! The last commit of each table.

ghost use Rattle.std.specs.Prelude.{◌≡◌, IfOk, replicate, slice_get, slice_set};
ghost use Rattle.std.specs.Option.{unwrap_or};
ghost use Rattle.mvcc.specs.Inner.Columns.{last_after};

use rows::Entry;
use std::alloc::{AllocError, Global};
use std::marker::Model;

/// For each table the number of the last commit with an entry of it; 0 if there is none.
#[derive(Drop)]
pub struct LastCommits {
    numbers: Vec<u64>,
}

impl Model for LastCommits {
    ghost use Rattle.std.specs.Prelude.{List, ℕ};

    ghost Value = { List ℕ };

    ghost view = { λ l. l.numbers.items };
}

impl LastCommits {
    /// No commit of this many tables. Fails only if out of memory.
    pub fn new(alloc: Global, tables: usize) -> Result<LastCommits, AllocError>
        ensures { IfOk result (λ last. last ≡ replicate tables 0) }
    {
        Ok(LastCommits {
            numbers: vec![in alloc; 0; tables]?,
        })
    }

    /// The number of the last commit with an entry of the table; 0 if there is none, or if there is
    /// no such table.
    pub fn of(&self, table: u8) -> u64
        ensures { result ≡ unwrap_or (slice_get self.now table) 0 }
    {
        match self.numbers.get(table as usize) {
            None => 0,
            Some(number) => *number,
        }
    }

    /// Records the entries of the commit of this number.
    pub fn note(&mut self, number: u64, entries: &[Entry])
        ensures { self.new ≡ last_after number entries.now self.old }
    {
        for entry in entries {
            self.note_of(number, entry.table());
        }
    }

    /// Records an entry of a table, of the commit of this number.
    fn note_of(&mut self, number: u64, table: u8)
        ensures { self.new ≡ slice_set self.old table number }
    {
        if let Some(last) = self.numbers.get_mut(table as usize) {
            *last = number;
        }
    }
}
