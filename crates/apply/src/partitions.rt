//! All partitions of a store.

ghost use Rattle.std.specs.Prelude.{◌≡◌, ℕ, ◌+◌, ◌<◌, ◌≤◌, ◌%◌, length, replicate, true, Ok, Some, OnOk, OnErr, IfOk, IfErr};
ghost use Rattle.std.specs.Prelude.{[], IfSome, IsSome, is_some, slice_get, slice_index_or};
ghost use Rattle.std.specs.List.{sum_by};
ghost use Rattle.std.specs.Map.{keys_of};
ghost use Rattle.std.specs.Option.{option_map};
ghost use Rattle.rows.specs.Shape.{shape_of, AreColumns};
ghost use Rattle.rows.specs.Tables.{Tables, RowsAreOfKinds, opening, shape_in, rows_of, row_at, is_row_at, apply_entry};
ghost use Rattle.store.specs.Changes.{column_of, id_in, IsAboveAllBefore, BeganWith, fault_kind};
ghost use Rattle.store.specs.Faults.{number_of};
ghost use Rattle.store.specs.Lent.{rows_in, rows_from, column_in, AreLent};
ghost use Rattle.apply.specs.Limits.{partitions_max};
ghost use Rattle.apply.specs.Orders.{AllUnder, place_in};
ghost use Rattle.apply.specs.Partitions.{tables_in, values_in};
ghost use Rattle.apply.specs.Inner.Gathered.{ArePartitions};
ghost use Rattle.apply.specs.Inner.Views.{views};

use crate::adding::add_column;
use crate::laws::entries_make_tables;
use crate::partition::Partition;
use crate::spot::Spot;
use rows::{Entry, Kind, Schema, Value};
use std::alloc::{AllocError, Global};
use store::{Lent, StoreFault, TableRows};

/// This many partitions of the tables of a schema, without rows. Fails only if out of memory.
pub fn empty_partitions(
    alloc: Global,
    schema: &Schema,
    count: usize,
) -> Result<Vec<Partition>, AllocError>
    ensures { IfOk result (λ partitions. views partitions.items ≡ replicate count (opening (shape_of schema.now))) }
{
    let mut partitions = Vec::new(alloc);
    for _ in 0..count {
        partitions.push(Partition::new(alloc, schema)?)?;
    }
    Ok(partitions)
}

/// Deletes all rows of these partitions, and all columns that were added to those of the schema.
/// Takes no memory.
pub fn clear_partitions(partitions: &mut [Partition], schema: &Schema)
    requires { (k : ℕ) (d : Tables) → k < length partitions.old
        → BeganWith (shape_of schema.now) (slice_index_or (views partitions.old) k d) }
    ensures tables { views partitions.new ≡ replicate (length partitions.old) (opening (shape_of schema.now)) }
    ensures len { length partitions.new ≡ length partitions.old }
{
    for k in 0..partitions.len() {
        partitions[k].clear(schema);
    }
}

/// The partition of a row, of this many.
pub fn home_of(row: u64, count: usize) -> usize
    requires { 0 < count }
    ensures value { result ≡ row % count }
    ensures within { result < count }
{
    (row % count as u64) as usize
}

/// Where a row of a table is; `None` if the row or the table is not there.
pub fn find(partitions: &[Partition], table: u8, row: u64) -> Option<Spot>
    requires some { 0 < length partitions.now }
    requires partitions { ArePartitions (views partitions.now) }
    ensures found { is_some result ≡ is_row_at (tables_in (views partitions.now)) table row }
    ensures values { IfSome result
        (λ spot. values_in (views partitions.now) table spot ≡ row_at (rows_of (tables_in (views partitions.now)) table) row) }
{
    let partition = home_of(row, partitions.len());
    match partitions[partition].find(table, row) {
        Some(position) => Some(Spot {
            partition,
            position,
        }),
        None => None,
    }
}

/// The value of one column of the row at that place, columns being counted from 0.
pub fn value(partitions: &[Partition], table: u8, spot: Spot, column: usize) -> Value
    requires partitions { ArePartitions (views partitions.now) }
    requires kinds { RowsAreOfKinds (tables_in (views partitions.now)) }
    requires there { IsSome (column_of (values_in (views partitions.now) table spot) column) }
    ensures { Some result ≡ column_of (values_in (views partitions.now) table spot) column }
{
    let Some(piece) = partitions[spot.partition].piece(table) else {
        unreachable!();
    };
    piece.value(spot.position, column)
}

/// The identifiers of rows that a partition has of a table, from an index on, lent: those of one
/// block, and none only if there is no row from there on. `None` if this is not the number of
/// partitions, or if the partition or the table is not there.
pub fn ids_from(
    partitions: &[Partition],
    table: u8,
    pieces: usize,
    piece: usize,
    from: usize,
) -> Option<&[u64]>
    requires partitions { ArePartitions (views partitions.now) }
    ensures value { IfSome result (λ ids. ids.now
        ≡ keys_of (rows_from (rows_in (rows_of (tables_in (views partitions.now)) table) pieces piece) from (length ids.now))) }
    ensures all { IfSome result
        (λ ids. ids.now ≡ [] → length (rows_in (rows_of (tables_in (views partitions.now)) table) pieces piece) ≤ from) }
{
    if pieces != partitions.len() || piece >= pieces {
        return None;
    }
    match partitions[piece].piece(table) {
        Some(rows) => Some(rows.ids_from(from)),
        None => None,
    }
}

/// The values of one column of this many rows that a partition has of a table, from an index on,
/// lent. `None` if this is not the number of partitions, if the partition, the table or the column
/// is not there, or if the rows are not all in one block.
pub fn column_from(
    partitions: &[Partition],
    table: u8,
    pieces: usize,
    piece: usize,
    from: usize,
    count: usize,
    column: usize,
) -> Option<Lent<'_>>
    requires partitions { ArePartitions (views partitions.now) }
    ensures { IfSome result
        (AreLent (column_in (rows_from (rows_in (rows_of (tables_in (views partitions.now)) table) pieces piece) from count) column)) }
{
    if pieces != partitions.len() || piece >= pieces {
        return None;
    }
    match partitions[piece].piece(table) {
        Some(rows) => rows.column_from(from, count, column),
        None => None,
    }
}

/// The kinds of a table's columns, lent; `None` if there is no table of that number.
pub fn kinds(partitions: &[Partition], table: u8) -> Option<&[Kind]>
    requires some { 0 < length partitions.now }
    requires partitions { ArePartitions (views partitions.now) }
    ensures value { option_map (λ kinds. kinds.now) result ≡ slice_get (shape_in (tables_in (views partitions.now))) table }
    ensures columns { IfSome result (λ kinds. AreColumns kinds.now) }
{
    match partitions[0].piece(table) {
        Some(piece) => Some(piece.kinds()),
        None => None,
    }
}

/// Makes the change of one entry, or refuses it and changes nothing.
///
/// The fault is the first of these that applies: `Unfit`; `Exists` or `Missing`; `Memory`.
pub fn change_partitions(
    alloc: Global,
    partitions: &mut [Partition],
    entry: &Entry,
) -> Result<(), StoreFault>
    requires some { 0 < length partitions.old }
    requires partitions { ArePartitions (views partitions.old) }
    ensures ok { OnOk result (apply_entry (tables_in (views partitions.old)) entry.now ≡ Ok (tables_in (views partitions.new))) }
    ensures err { OnErr result (views partitions.new ≡ views partitions.old) }
    ensures refused { IfErr result
        (λ fault. number_of fault ≡ fault_kind true (apply_entry (tables_in (views partitions.old)) entry.now)) }
    ensures partitions { ArePartitions (views partitions.new) }
    ensures len { length partitions.new ≡ length partitions.old }
{
    entries_make_tables();
    let Some(row) = entry.row() else {
        return add_column(alloc, partitions, entry);
    };
    let home = home_of(row.0, partitions.len());
    partitions[home].change(alloc, entry)
}

/// How many rows a table has.
pub fn len(partitions: &[Partition], table: u8) -> usize
    requires few { length partitions.now ≤ partitions_max }
    requires partitions { ArePartitions (views partitions.now) }
    ensures { result ≡ length (rows_of (tables_in (views partitions.now)) table) }
{
    let mut rows = 0;
    for partition in partitions {
        rows += partition.len(table);
    }
    rows
}

/// How many rows of a table have an identifier below this one.
fn place(partitions: &[Partition], table: u8, row: u64) -> usize
    requires few { length partitions.now ≤ partitions_max }
    requires partitions { ArePartitions (views partitions.now) }
    ensures { result ≡ place_in (rows_of (tables_in (views partitions.now)) table) row }
{
    let mut rows = 0;
    for partition in partitions {
        rows += partition.place(table, row);
    }
    rows
}

/// An upper bound of the identifiers of a table's rows.
fn greatest(partitions: &[Partition], table: u8) -> u64
    ensures { (k : ℕ) (d : Tables) → k < length partitions.now
        → AllUnder (result + 1) (rows_of (slice_index_or (views partitions.now) k d) table) }
{
    let mut most = 0;
    for partition in partitions {
        let other = partition.greatest(table);
        if most < other {
            most = other;
        }
    }
    most
}

/// The identifier of the row at an index of a table's order, found by binary search: the one below
/// which as many rows are.
pub fn id_at(partitions: &[Partition], table: u8, i: usize) -> u64
    requires few { length partitions.now ≤ partitions_max }
    requires partitions { ArePartitions (views partitions.now) }
    requires within { i < length (rows_of (tables_in (views partitions.now)) table) }
    ensures value { Some result ≡ id_in (rows_of (tables_in (views partitions.now)) table) i }
    ensures rises { IsAboveAllBefore (rows_of (tables_in (views partitions.now)) table) i result }
{
    let mut low = 0;
    let mut high = greatest(partitions, table);
    while low < high {
        let middle = low + (high - low) / 2;
        if i < place(partitions, table, middle + 1) {
            high = middle;
        } else {
            low = middle + 1;
        }
    }
    low
}
