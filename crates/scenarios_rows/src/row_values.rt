//! A row's two forms, its values, and the lists of bytes, kinds and entries.

use rows::{
    ByteList, Commit, Entry, EntryList, Kind, KindList, Octets, RowId, Value, first_value,
    row_bytes, row_values,
};
use scenarios_common::wanted::{Wanted, made};
use std::alloc::{AllocError, Global};
use std::test::Fail;

/// The bytes of a row of the two octets `NE` and the number -2.
const ROW: [u8; 10] = [0x4e, 0x45, 0xff, 0xff, 0xff, 0xff, 0xff, 0xff, 0xff, 0xfe];

/// The bytes of the number 1.
const ONE: [u8; 8] = [0, 0, 0, 0, 0, 0, 0, 1];

/// The two octets `NE`.
fn name() -> Result<Octets, Fail> {
    Ok(Octets::from_slice(&[0x4e, 0x45]).ok_or("too long")?)
}

/// Whether a row's values are its bytes and back. The second column gets another value; there is no
/// third.
fn has_two_forms(alloc: Global) -> Result<bool, Fail> {
    let name = Value::Octets(name()?);
    let bytes = row_bytes(alloc, &[name, Value::Int(-2)])?;
    Ok(bytes.as_slice() == ROW.as_slice() && is_set(alloc, &name)?)
}

/// Whether the row of these bytes has the name and -2, and then what the second column is set to.
fn is_set(alloc: Global, name: &Value) -> Result<bool, Fail> {
    let mut row = row_values(alloc, &[Kind::Octets(2), Kind::Int], &ROW)?;
    if row.as_slice() != [*name, Value::Int(-2)].as_slice() {
        return Ok(false);
    }
    row.set(1, first_value(Kind::Int, &[0, 0, 0, 0, 0, 0, 0, 6]));
    row.set(2, Value::Int(9));
    Ok(row.as_slice() == [*name, Value::Int(6)].as_slice())
}

/// Whether octets are their bytes, at most 64; a zero more makes others.
fn are_their_bytes() -> Result<bool, Fail> {
    let name = name()?;
    Ok(
        name.as_slice() == [0x4e, 0x45].as_slice()
            && Octets::from_slice(&[0x4e, 0x45, 0x00]) != Some(name)
            && Octets::from_slice(&[1; 64]).is_some()
            && Octets::from_slice(&[1; 65]).is_none(),
    )
}

/// Whether a list of bytes and its copy hold what they are made of.
fn hold_bytes(alloc: Global) -> Result<bool, Fail> {
    let bytes = ByteList::from_vec(Vec::from_slice(alloc, &[3, 4])?);
    let copy = bytes.clone()?;
    Ok(bytes.len() == 2 && !bytes.is_empty() && copy.as_slice() == [3, 4].as_slice())
}

/// Whether a list of kinds holds what it is made of, and new lists of entries hold none.
fn hold_kinds_and_none(alloc: Global) -> Result<bool, Fail> {
    let kinds = KindList::from_slice(alloc, &[Kind::Int])?;
    Ok(
        kinds.as_slice() == [Kind::Int].as_slice()
            && EntryList::new(alloc).is_empty()
            && EntryList::from_vec(Vec::new(alloc)).is_empty(),
    )
}

/// The copy of a commit of worker 3, whose one entry inserts row 7 with the value 1 into table 0.
fn copy_of_a_commit(alloc: Global) -> Result<Commit, AllocError> {
    let mut entries = EntryList::new(alloc);
    entries.push(made(alloc, &Wanted::Insert(0, 7, &ONE))?)?;
    Commit { worker: 3, entries }.clone()
}

/// Whether it is that commit.
fn is_that_commit(commit: &Commit) -> bool {
    match commit.entries.as_slice() {
        [Entry::Insert { table, row, bytes }] => {
            commit.worker == 3
                && *table == 0
                && *row == RowId(7)
                && bytes.as_slice() == ONE.as_slice()
        }
        _ => false,
    }
}

/// Whether the copy of a commit holds its entries, and equals one with a copy of them, and none
/// without entries.
fn holds_its_entries(alloc: Global) -> Result<bool, Fail> {
    let commit = copy_of_a_commit(alloc)?;
    let entries = EntryList::from_slice(alloc, commit.entries.as_slice())?;
    let same = Commit { worker: 3, entries } == commit;
    let none = commit.entries == EntryList::new(alloc);
    Ok(commit.entries.len() == 1 && is_that_commit(&commit) && same && !none)
}

#[test]
fn rows_and_lists_hold_what_they_are_made_of(rt: HostRuntime) -> Result<(), Fail> {
    assert!(rt; has_two_forms(rt.alloc())?);
    assert!(rt; are_their_bytes()?);
    assert!(rt; hold_bytes(rt.alloc())?);
    assert!(rt; hold_kinds_and_none(rt.alloc())?);
    assert!(rt; holds_its_entries(rt.alloc())?);
    Ok(())
}
