//! Which of a transaction's entries still matter for each row that it writes.

ghost use Rattle.std.specs.Prelude.{◌≡◌, ℕ, [], ◌∷◌, ◌++◌, ◌==◌, ◌&&◌, length, IfOk, OnOk, OnErr, if◌then◌else◌};
ghost use Rattle.mvcc.specs.Inner.OwnRows.{indices_at, is_patch_of, supersedes, is_superseded, kept_indices};

use rows::{Entry, RowId};
use std::alloc::{AllocError, Global};
use std::collections::BTreeMap;
use std::marker::Model;

/// Indices of a list of entries, which contracts see as a list.
#[derive(Drop)]
pub struct Indices {
    items: Vec<usize>,
}

impl Model for Indices {
    ghost use Rattle.std.specs.Prelude.{List, ℕ};

    ghost Value = { List ℕ };

    ghost view = { λ p. p.items.items };
}

impl Indices {
    /// The indices, lent.
    pub fn as_slice(&self) -> &[usize]
        ensures { result.now ≡ self.now }
    {
        self.items.as_slice()
    }
}

/// For each row the indices, in a list of entries, of those that still matter for it.
///
/// Contracts see the list of rows and indices.
#[derive(Drop)]
pub struct OwnRows {
    rows: BTreeMap<(u8, u64), Indices>,
}

impl Model for OwnRows {
    ghost use Rattle.mvcc.specs.Inner.OwnRows.{RowIndices};

    ghost Value = { RowIndices };

    ghost view = { λ o. o.rows.entries };
}

impl OwnRows {
    /// No row. Takes no memory.
    pub fn new(alloc: Global) -> OwnRows
        ensures { result ≡ [] }
    {
        OwnRows {
            rows: BTreeMap::new(alloc),
        }
    }

    /// The indices of a row, lent. Takes no memory.
    pub fn indices(&self, table: u8, row: RowId) -> &[usize]
        ensures { result.now ≡ indices_at self.now table row.0 }
    {
        match self.rows.get(&(table, row.0)) {
            Some(indices) => indices.as_slice(),
            None => &[],
        }
    }

    /// Replaces the indices of a row. Fails only if out of memory.
    pub fn put(&mut self, table: u8, row: RowId, indices: Indices) -> Result<(), AllocError>
        ensures ok { OnOk result ((t r : ℕ)
            → indices_at self.new t r ≡ (if (table == t) && (row.0 == r) then indices else indices_at self.old t r)) }
        ensures err { OnErr result (self.new ≡ self.old) }
    {
        self.rows.insert((table, row.0), indices)?;
        Ok(())
    }
}

/// The indices of a row's entries after one more entry of it is added to `entries`: the earlier
/// ones without those that it supersedes, and its own. Fails only if out of memory.
pub fn indices_with(
    alloc: Global,
    entries: &[Entry],
    indices: &[usize],
    entry: &Entry,
) -> Result<Indices, AllocError>
    ensures { IfOk result (λ after. after ≡ kept_indices entries.now entry.now indices.now ++ length entries.now ∷ []) }
{
    let mut items = Vec::new(alloc);
    for index in indices {
        if !is_superseded(entries, entry, *index) {
            items.push(*index)?;
        }
    }
    items.push(entries.len())?;
    Ok(Indices { items })
}

/// Whether the entry supersedes the one at that index.
fn is_superseded(entries: &[Entry], entry: &Entry, index: usize) -> bool
    ensures { result ≡ is_superseded entries.now entry.now index }
{
    match entries.get(index) {
        Some(earlier) => supersedes(entry, earlier),
        None => false,
    }
}

/// Whether an entry supersedes an earlier one of its row: a delete supersedes any, a patch a patch
/// of the same bytes.
fn supersedes(entry: &Entry, earlier: &Entry) -> bool
    ensures { result ≡ supersedes entry.now earlier.now }
{
    match entry {
        Entry::Insert { .. } | Entry::AddColumn { .. } => false,
        Entry::Patch { offset, bytes, .. } => is_patch_of(earlier, *offset, bytes.len()),
        Entry::Delete { .. } => true,
    }
}

/// Whether the entry is a patch of this many bytes from `start` on.
fn is_patch_of(entry: &Entry, start: u16, size: usize) -> bool
    ensures { result ≡ is_patch_of entry.now start size }
{
    match entry {
        Entry::Patch { offset, bytes, .. } => start == *offset && size == bytes.len(),
        Entry::Insert { .. } | Entry::Delete { .. } | Entry::AddColumn { .. } => false,
    }
}
