//! A store that counts for how many identifiers it is asked.

use rows::{Entry, Kind, RowId, Value};
use std::sync::atomic::{AtomicU64, Ordering};
use store::{PlainStore, Store, StoreFault};

/// A plain store, and how often `id_at` was called.
#[derive(Drop)]
pub struct CountedStore {
    inner: PlainStore,
    calls: AtomicU64,
}

impl CountedStore {
    ghost use Rattle.std.specs.Prelude.{◌≡◌};

    /// That store, and no call yet. Takes no memory.
    pub fn new(inner: PlainStore) -> CountedStore
        ensures { result.inner ≡ inner }
    {
        CountedStore {
            inner,
            calls: AtomicU64::new(0),
        }
    }

    /// How often `id_at` was called.
    pub fn calls(&self) -> u64 {
        self.calls.load(Ordering::SeqCst)
    }
}

impl Store for CountedStore {
    ghost use Rattle.rows.specs.Tables.{rows_of, row_at};
    ghost use Rattle.store.specs.Faults.{number_of};

    type Place = RowId;

    type Fault = StoreFault;

    ghost tables = { λ s. s.inner.tables };

    ghost is_whole = { λ s. s.inner.whole };

    ghost base_shape = { λ s. s.inner.base_shape };

    ghost values_at = { λ s table place. row_at (rows_of s.inner.tables table) place.0 };

    ghost kind_of = { number_of };

    fn whole(&self) -> bool {
        self.inner.whole()
    }

    fn keeps_kinds(&self) {
        self.inner.keeps_kinds();
    }

    fn find(&self, table: u8, row: RowId) -> Option<RowId> {
        self.inner.find(table, row)
    }

    fn value(&self, table: u8, place: RowId, column: usize) -> Value {
        self.inner.value(table, place, column)
    }

    fn kinds(&self, table: u8) -> Option<&[Kind]> {
        self.inner.kinds(table)
    }

    fn len(&self, table: u8) -> usize {
        self.inner.len(table)
    }

    fn id_at(&self, table: u8, i: usize) -> RowId {
        self.calls.fetch_add(1, Ordering::SeqCst);
        self.inner.id_at(table, i)
    }

    fn change(&mut self, entry: &Entry) -> Result<(), StoreFault> {
        self.inner.change(entry)
    }

    fn kind(fault: &StoreFault) -> u8 {
        PlainStore::kind(fault)
    }
}
