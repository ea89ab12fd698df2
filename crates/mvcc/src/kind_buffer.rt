//! The kinds of a table's columns, as entries add to them.

ghost use Rattle.std.specs.Prelude.{◌≡◌, ◌<◌, ◌≤◌, ◌∷◌, ◌++◌, [], length};
ghost use Rattle.rows.specs.Shape.{AreColumns};
ghost use Rattle.mvcc.specs.Inner.Columns.{kinds_after_one, kinds_after};

use crate::columns::adds_column;
use rows::laws::changes_tell_kinds;
use rows::limits::COLUMNS_MAX;
use rows::{Entry, Kind, fits_columns};
use std::marker::Model;

/// The kinds of a table's columns, which contracts see as a list. They take no memory.
#[derive(Drop)]
pub struct KindBuffer {
    len: usize,
    buffer: [Kind; COLUMNS_MAX],
}

impl Model for KindBuffer {
    ghost use Rattle.std.specs.Prelude.{◌≤◌, List, take};
    ghost use Rattle.rows.specs.declared.kind.Kind.{Kind};

    ghost Value = { List Kind };

    ghost view = { λ k. take k.len k.buffer };

    ghost invariant = { λ k. k.len ≤ 16 };
}

impl KindBuffer {
    /// These kinds.
    pub fn of(kinds: &[Kind]) -> KindBuffer
        requires { length kinds.now ≤ COLUMNS_MAX }
        ensures { result ≡ kinds.now }
    {
        let mut buffer = [Kind::Int; COLUMNS_MAX];
        buffer[..kinds.len()].copy_from_slice(kinds);
        KindBuffer {
            len: kinds.len(),
            buffer,
        }
    }

    /// The kinds, lent.
    pub fn as_slice(&self) -> &[Kind]
        ensures { result.now ≡ self.now }
    {
        &self.buffer[..self.len]
    }

    /// Adds the column that an entry adds to the table, if it adds one that fits.
    pub fn add(&mut self, table: u8, entry: &Entry)
        requires { AreColumns self.old }
        ensures kinds { self.new ≡ kinds_after_one table self.old entry.now }
        ensures columns { AreColumns self.new }
    {
        changes_tell_kinds();
        if let Entry::AddColumn { table: at, default } = entry
            && *at == table
            && fits_columns(self.as_slice(), entry).is_ok()
        {
            self.push(default.kind());
        }
    }

    /// Puts a kind behind the others.
    fn push(&mut self, kind: Kind)
        requires { length self.old < COLUMNS_MAX }
        ensures { self.new ≡ self.old ++ kind ∷ [] }
    {
        self.buffer[self.len] = kind;
        self.len += 1;
    }
}

/// The kinds of a table's columns once these entries have added theirs, where they fit.
pub fn kinds_behind(kinds: &[Kind], table: u8, entries: &[Entry]) -> KindBuffer
    requires { AreColumns kinds.now }
    ensures kinds { result ≡ kinds_after table kinds.now entries.now }
    ensures columns { AreColumns result }
{
    let mut behind = KindBuffer::of(kinds);
    for entry in entries {
        // Few of many entries add one.
        if adds_column(entry) {
            behind.add(table, entry);
        }
    }
    behind
}
