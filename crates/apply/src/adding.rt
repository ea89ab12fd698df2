//! A column that is added in all partitions, or in none.

ghost use Rattle.std.specs.Prelude.{◌≡◌, ℕ, ◌<◌, length, map, true, Ok, None, OnOk, OnErr, IfErr, slice_index_or};
ghost use Rattle.rows.specs.Entries.{table_of, row_of};
ghost use Rattle.rows.specs.Tables.{Tables, kinds_of, is_fit, apply_entry};
ghost use Rattle.store.specs.Changes.{fault_kind};
ghost use Rattle.store.specs.Faults.{number_of};
ghost use Rattle.apply.specs.Blocks.{dropped};
ghost use Rattle.apply.specs.Partitions.{tables_in};
ghost use Rattle.apply.specs.Inner.Gathered.{ArePartitions};
ghost use Rattle.apply.specs.Inner.Views.{views};

use crate::laws::entries_make_tables;
use crate::partition::Partition;
use crate::partitions::kinds;
use rows::{Entry, fits_columns};
use std::alloc::Global;
use store::StoreFault;

/// Makes the change of an entry that adds a column, or refuses it and changes nothing: `Unfit`, or
/// else `Memory`. At `Memory` the partitions that had added the column drop it again.
pub fn add_column(
    alloc: Global,
    partitions: &mut [Partition],
    entry: &Entry,
) -> Result<(), StoreFault>
    requires some { 0 < length partitions.old }
    requires partitions { ArePartitions (views partitions.old) }
    requires column { row_of entry.now ≡ None }
    ensures ok { OnOk result (apply_entry (tables_in (views partitions.old)) entry.now ≡ Ok (tables_in (views partitions.new))) }
    ensures err { OnErr result (views partitions.new ≡ views partitions.old) }
    ensures refused { IfErr result
        (λ fault. number_of fault ≡ fault_kind true (apply_entry (tables_in (views partitions.old)) entry.now)) }
    ensures partitions { ArePartitions (views partitions.new) }
    ensures len { length partitions.new ≡ length partitions.old }
{
    if !fits(partitions, entry) {
        return Err(StoreFault::Unfit);
    }
    entries_make_tables();
    for k in 0..partitions.len() {
        if let Err(fault) = partitions[k].change(alloc, entry) {
            drop_column(&mut partitions[..k], entry.table());
            return Err(fault);
        }
    }
    Ok(())
}

/// Whether an entry that adds a column fits.
fn fits(partitions: &[Partition], entry: &Entry) -> bool
    requires some { 0 < length partitions.now }
    requires partitions { ArePartitions (views partitions.now) }
    ensures exact { result ≡ is_fit (tables_in (views partitions.now)) entry.now }
    ensures columns { result ≡ true → 0 < length (kinds_of (tables_in (views partitions.now)) (table_of entry.now)) }
{
    match kinds(partitions, entry.table()) {
        Some(kinds) => fits_columns(kinds, entry).is_ok(),
        None => false,
    }
}

/// Drops the last of several columns of a table in each of these partitions.
fn drop_column(partitions: &mut [Partition], table: u8)
    requires { (k : ℕ) (d : Tables) → k < length partitions.old
        → 1 < length (kinds_of (slice_index_or (views partitions.old) k d) table) }
    ensures tables { views partitions.new ≡ map (λ tables. dropped tables table) (views partitions.old) }
    ensures len { length partitions.new ≡ length partitions.old }
{
    for k in 0..partitions.len() {
        partitions[k].drop_column(table);
    }
}
