//! The values of rows in a store of columns.

ghost use Rattle.std.specs.Prelude.{◌≡◌, [], ◌∷◌, true, Ok, IfOk, OnOk, IsSome};
ghost use Rattle.rows.specs.declared.kind.Kind.TheVariants.{Int, Octets as OctetsOf};
ghost use Rattle.rows.specs.Reading.{entry_of};
ghost use Rattle.rows.specs.Tables.{rows_of, row_at, apply_entry};
ghost use Rattle.store.specs.Changes.{column_of};
ghost use Rattle.apply.specs.Partitions.{tables_in};

use apply::ColumnStore;
use rows::{ByteList, Entry, EntryRef, Kind, Octets, RowId, Schema, Value};
use std::alloc::{AllocError, Global};
use std::test::Fail;
use store::Store;

/// A column of an account that is there.
fn column<S: Store>(store: &S, row: u64, column: usize) -> Option<Value>
    requires whole { S.is_whole store.now ≡ true }
    requires there { IsSome (column_of (row_at (rows_of (S.tables store.now) 0) row) column) }
{
    let place = store.find(0, RowId(row))?;
    Some(store.value(0, place, column))
}

/// The entry, owned.
fn owned(alloc: Global, lent: &EntryRef<'_>) -> Result<Entry, AllocError>
    ensures { IfOk result (λ owned. owned ≡ entry_of lent.now) }
{
    Ok(match lent {
        EntryRef::Insert { table, row, bytes } => Entry::Insert {
            table: *table,
            row: *row,
            bytes: ByteList::from_vec(Vec::from_slice(alloc, bytes)?),
        },
        EntryRef::Patch {
            table,
            row,
            offset,
            bytes,
        } => Entry::Patch {
            table: *table,
            row: *row,
            offset: *offset,
            bytes: ByteList::from_vec(Vec::from_slice(alloc, bytes)?),
        },
        EntryRef::Delete { table, row } => Entry::Delete {
            table: *table,
            row: *row,
        },
        EntryRef::AddColumn { table, default } => Entry::AddColumn {
            table: *table,
            default: *default,
        },
    })
}

/// The store makes the change of an entry.
fn make(alloc: Global, store: &mut ColumnStore, lent: &EntryRef<'_>) -> Result<(), Fail>
    ensures made { OnOk result (apply_entry (tables_in store.old.partitions) (entry_of lent.now) ≡ Ok (tables_in store.new.partitions)) }
    ensures whole { store.new.whole ≡ store.old.whole }
{
    store.change(&owned(alloc, lent)?)?;
    Ok(())
}

/// A store of accounts, each a number, three octets and a number, in seven partitions.
fn accounts_with_octets(alloc: Global) -> Result<ColumnStore, Fail>
    ensures tables { IfOk result (λ store.
        tables_in store.partitions ≡ record { kinds = Int ∷ OctetsOf 3 ∷ Int ∷ []; rows = [] } ∷ []) }
    ensures whole { IfOk result (λ store. store.whole ≡ true) }
{
    let kinds = [Kind::Int, Kind::Octets(3), Kind::Int];
    let schema = Schema::new(alloc, &[("accounts", kinds.as_slice())])?;
    Ok(ColumnStore::new(alloc, &schema, 7)?)
}

/// A store whose accounts 7 and 8 were put in with the number 5, the octets `abc` and the number
/// -1. Then the octets of account 7 were patched to `xyz`.
fn with_patched_account(alloc: Global) -> Result<ColumnStore, Fail>
    ensures whole { IfOk result (λ store. store.whole ≡ true) }
    ensures first { IfOk result (λ store. IsSome (column_of (row_at (rows_of (tables_in store.partitions) 0) 7) 0)) }
    ensures second { IfOk result (λ store. IsSome (column_of (row_at (rows_of (tables_in store.partitions) 0) 7) 1)) }
    ensures third { IfOk result (λ store. IsSome (column_of (row_at (rows_of (tables_in store.partitions) 0) 7) 2)) }
    ensures other { IfOk result (λ store. IsSome (column_of (row_at (rows_of (tables_in store.partitions) 0) 8) 1)) }
{
    let mut store = accounts_with_octets(alloc)?;
    let table = 0;
    let bytes = b"\0\0\0\0\0\0\0\x05abc\xff\xff\xff\xff\xff\xff\xff\xff";
    let row = RowId(7);
    make(alloc, &mut store, &EntryRef::Insert { table, row, bytes })?;
    let row = RowId(8);
    make(alloc, &mut store, &EntryRef::Insert { table, row, bytes })?;
    let patch = EntryRef::Patch {
        table,
        row: RowId(7),
        offset: 8,
        bytes: b"xyz",
    };
    make(alloc, &mut store, &patch)?;
    Ok(store)
}

/// The columns of account 7 and the second of account 8 in that store.
fn patched_columns(alloc: Global) -> Result<[Option<Value>; 4], Fail> {
    let store = with_patched_account(alloc)?;
    Ok([
        column(&store, 7, 0),
        column(&store, 7, 1),
        column(&store, 7, 2),
        column(&store, 8, 1),
    ])
}

#[test]
fn a_patch_writes_one_column_of_one_row(rt: HostRuntime) -> Result<(), Fail> {
    let expected = [
        Some(Value::Int(5)),
        Octets::from_slice(b"xyz").map(Value::Octets),
        Some(Value::Int(-1)),
        Octets::from_slice(b"abc").map(Value::Octets),
    ];
    assert!(rt; patched_columns(rt.alloc())? == expected);
    Ok(())
}
