//! Each entry's spelling byte by byte, what is read as none, and which entries fit.

use rows::{
    Entry, EntryFault, EntryRef, Kind, Octets, Schema, Value, entry_len, fits, read_entry,
    write_entry,
};
use scenarios_common::wanted::{FIVE, SIX, Wanted, bank, made};
use std::alloc::Global;
use std::test::Fail;

/// The insert of row 7 into table 0 with the values 5 and -1.
const INSERT: [u8; 28] = [
    0x01, 0x00, 0x00, 0x00, 0x00, 0x00, 0x00, 0x00, 0x00, 0x07, 0x00, 0x10, 0x00, 0x00, 0x00, 0x00,
    0x00, 0x00, 0x00, 0x05, 0xff, 0xff, 0xff, 0xff, 0xff, 0xff, 0xff, 0xff,
];

/// The patch of column 1 of row 7 of table 0 to 6, where the columns are two `Int`.
const PATCH: [u8; 22] = [
    0x02, 0x00, 0x00, 0x00, 0x00, 0x00, 0x00, 0x00, 0x00, 0x07, 0x00, 0x08, 0x00, 0x08, 0x00, 0x00,
    0x00, 0x00, 0x00, 0x00, 0x00, 0x06,
];

/// The delete of row 7 of table 0.
const DELETE: [u8; 10] = [0x03, 0x00, 0x00, 0x00, 0x00, 0x00, 0x00, 0x00, 0x00, 0x07];

/// What an entry is: its form, its table, its row, its offset, and its data.
type Parts<'a> = (u8, u8, u64, u16, &'a [u8]);

/// Entries that are wanted, each with its spelling and its parts.
static SPELLINGS: [(Wanted<'static>, &[u8], Parts<'static>); 3] = [
    (Wanted::Insert(0, 7, &FIVE), &INSERT, (1, 0, 7, 0, &FIVE)),
    (Wanted::Patch(0, 7, 8, &SIX), &PATCH, (2, 0, 7, 8, &SIX)),
    (Wanted::Delete(0, 7), &DELETE, (3, 0, 7, 0, &[])),
];

/// The index of the first of these that is not written so, where each fits the bank, or not read so.
fn other_spelling(alloc: Global, schema: &Schema) -> Result<Option<usize>, Fail> {
    for (index, (wanted, bytes, expected)) in SPELLINGS.iter().enumerate() {
        let entry = made(alloc, wanted)?;
        if !is_spelled(schema, &entry, bytes) || !is_read_whole(bytes, expected) {
            return Ok(Some(index));
        }
    }
    Ok(None)
}

/// Whether an entry fits and is written as these bytes, at the front of a buffer that keeps the
/// rest of what it had: their length is foretold and answered.
fn is_spelled(schema: &Schema, entry: &Entry, bytes: &[u8]) -> bool {
    let mut buffer = [0xee; 30];
    if fits(schema, entry).is_err() || entry_len(entry) != bytes.len() || bytes.len() > 30 {
        return false;
    }
    let written = write_entry(entry, &mut buffer);
    let (front, rest) = buffer.split_at(bytes.len());
    written == bytes.len() && front == bytes && rest.iter().all(|byte| *byte == 0xee)
}

/// What is read of an entry, and how many bytes it takes.
fn parts(bytes: &[u8]) -> Option<(Parts<'_>, usize)> {
    match &read_entry(bytes) {
        Some((EntryRef::Insert { table, row, bytes }, taken)) => {
            Some(((1, *table, row.0, 0, *bytes), *taken))
        }
        Some(
            (
                EntryRef::Patch {
                    table,
                    row,
                    offset,
                    bytes,
                },
                taken,
            ),
        ) => Some(((2, *table, row.0, *offset, *bytes), *taken)),
        Some((EntryRef::Delete { table, row }, taken)) => {
            Some(((3, *table, row.0, 0, &[]), *taken))
        }
        Some((EntryRef::AddColumn { table, .. }, taken)) => Some(((4, *table, 0, 0, &[]), *taken)),
        None => None,
    }
}

/// Whether that entry is read from these bytes, and none from fewer of them.
fn is_read_whole(bytes: &[u8], expected: &Parts<'_>) -> bool {
    for len in 0..bytes.len() {
        if read_entry(&bytes[..len]).is_some() {
            return false;
        }
    }
    parts(bytes) == Some((*expected, bytes.len()))
}

/// Whether an entry is read from a form, a table, row 7, these four bytes, and zeros behind them.
fn is_read(form: u8, table: u8, next: [u8; 4]) -> bool {
    let mut bytes = [0; 525];
    bytes[0] = form;
    bytes[1] = table;
    bytes[9] = 7;
    bytes[10..14].copy_from_slice(&next);
    read_entry(&bytes).is_some()
}

/// What begins an entry, and whether one is read.
const FRONTS: [(u8, u8, [u8; 4], bool); 17] = [
    (1, 0, [0, 16, 0, 0], true),
    // There are the operations 1 to 4, the tables 0 to 15, and no insert without data.
    (0, 0, [0, 16, 0, 0], false),
    (4, 0, [0, 16, 0, 0], true),
    (4, 15, [0, 16, 0, 0], true),
    (4, 16, [0, 16, 0, 0], false),
    (5, 0, [0, 16, 0, 0], false),
    (1, 15, [0, 16, 0, 0], true),
    (1, 16, [0, 16, 0, 0], false),
    (1, 0, [0, 0, 0, 0], false),
    // An insert has 512 bytes of data at the most.
    (1, 0, [2, 0, 0, 0], true),
    (1, 0, [2, 1, 0, 0], false),
    // A patch has 1 to 64 bytes, at an offset within 512.
    (2, 0, [0, 0, 0, 64], true),
    (2, 0, [0, 0, 0, 65], false),
    (2, 0, [0, 0, 0, 0], false),
    (2, 0, [0x01, 0xf8, 0, 8], true),
    (2, 0, [0x01, 0xf9, 0, 8], false),
    (2, 0, [0xff, 0xff, 0, 1], false),
];

/// The index of the first of these that is read otherwise.
fn other_front() -> Option<usize> {
    for (index, (form, table, next, expected)) in FRONTS.iter().enumerate() {
        if is_read(*form, *table, *next) != *expected {
            return Some(index);
        }
    }
    None
}

/// One column of a number, and two.
const COLUMN: [u8; 8] = [0; 8];

const COLUMNS: [u8; 16] = [0; 16];

const NO_TABLE: Option<EntryFault> = Some(EntryFault::NoTable);

const NOT_A_COLUMN: Option<EntryFault> = Some(EntryFault::NotAColumn);

/// A row of two numbers.
const ROW: [u8; 16] = [0, 0, 0, 0, 0, 0, 0, 1, 0, 0, 0, 0, 0, 0, 0, 2];

/// Entries that are wanted, and why they do not fit the bank.
static FAULTS: [(Wanted<'static>, Option<EntryFault>); 10] = [
    (Wanted::Insert(0, 7, &ROW), None),
    (Wanted::Insert(1, 7, &ROW), Some(EntryFault::WrongSize)),
    (Wanted::Insert(2, 7, &ROW), NO_TABLE),
    (Wanted::Patch(0, 7, 8, &COLUMN), None),
    // Behind the row; parts of two columns; two columns.
    (Wanted::Patch(1, 7, 8, &COLUMN), NOT_A_COLUMN),
    (Wanted::Patch(0, 7, 4, &COLUMN), NOT_A_COLUMN),
    (Wanted::Patch(0, 7, 0, &COLUMNS), NOT_A_COLUMN),
    (Wanted::Patch(2, 7, 0, &COLUMN), NO_TABLE),
    (Wanted::Delete(1, 7), None),
    (Wanted::Delete(2, 7), NO_TABLE),
];

/// The index of the first of these that has another fault.
fn other_fault(alloc: Global, schema: &Schema) -> Result<Option<usize>, Fail> {
    for (index, (wanted, fault)) in FAULTS.iter().enumerate() {
        let entry = made(alloc, wanted)?;
        if fits(schema, &entry).err() != *fault {
            return Ok(Some(index));
        }
    }
    Ok(None)
}

#[test]
fn entries_are_written_read_and_fit(rt: HostRuntime) -> Result<(), Fail> {
    let schema = bank(rt.alloc())?;
    assert_eq!(rt; other_spelling(rt.alloc(), &schema)?, None);
    assert_eq!(rt; other_front(), None);
    assert_eq!(rt; other_fault(rt.alloc(), &schema)?, None);
    Ok(())
}

/// The number 3 in a new column of table 0, and three octets in one of table 1.
const ADDED_NUMBER: [u8; 11] = [4, 0, 0, 0, 0, 0, 0, 0, 0, 0, 3];

const ADDED_OCTETS: [u8; 6] = [4, 1, 3, 0x61, 0x62, 0x63];

/// Whether a column that is added to the bank is written as these bytes, and read from them and from no
/// fewer.
fn is_added_as(schema: &Schema, table: u8, value: &Value, bytes: &[u8]) -> bool {
    let default = *value;
    if !is_spelled(schema, &Entry::AddColumn { table, default }, bytes) {
        return false;
    }
    for len in 0..bytes.len() {
        if read_entry(&bytes[..len]).is_some() {
            return false;
        }
    }
    is_column_read(bytes, table, value)
}

/// Whether these bytes are read as a column that is added to the table with this value.
fn is_column_read(bytes: &[u8], expected: u8, value: &Value) -> bool {
    match &read_entry(bytes) {
        Some((EntryRef::AddColumn { table, default }, taken)) => {
            *table == expected && *default == *value && *taken == bytes.len()
        }
        _ => false,
    }
}

/// Why a column of so many octets, 64 at the most, cannot be added to a table.
fn fault_of_added(schema: &Schema, table: u8, len: usize) -> Option<EntryFault> {
    let octets = [0x61; 64];
    let default = Value::Octets(Octets::from_slice(&octets[..len.min(64)])?);
    fits(schema, &Entry::AddColumn { table, default }).err()
}

const WRONG_SIZE: Option<EntryFault> = Some(EntryFault::WrongSize);

/// How many columns a table has, of how many octets each; how many octets are added, and the fault.
const ROOM: [(usize, u8, usize, Option<EntryFault>); 10] = [
    (1, 1, 1, None),
    (1, 1, 64, None),
    (1, 1, 0, WRONG_SIZE),
    // 16 columns, and 17.
    (15, 1, 1, None),
    (16, 1, 1, WRONG_SIZE),
    // Rows of 512 bytes, and of more.
    (7, 64, 64, None),
    (8, 64, 1, WRONG_SIZE),
    (8, 60, 32, None),
    (8, 60, 33, WRONG_SIZE),
    (8, 60, 64, WRONG_SIZE),
];

/// The index of the first of these that has another fault.
fn other_room(alloc: Global) -> Result<Option<usize>, Fail> {
    for (index, (columns, octets, added, fault)) in ROOM.iter().enumerate() {
        let kinds = [Kind::Octets(*octets); 16];
        let (kinds, _) = kinds.split_at((*columns).min(16));
        let schema = Schema::new(alloc, &[("wide", kinds)])?;
        if fault_of_added(&schema, 0, *added) != *fault {
            return Ok(Some(index));
        }
    }
    Ok(None)
}

#[test]
fn added_columns_are_written_read_and_fit(rt: HostRuntime) -> Result<(), Fail> {
    let schema = bank(rt.alloc())?;
    let letters = Value::Octets(Octets::from_slice(b"abc").ok_or("too long")?);
    assert!(rt; is_added_as(&schema, 0, &Value::Int(3), &ADDED_NUMBER));
    assert!(rt; is_added_as(&schema, 1, &letters, &ADDED_OCTETS));
    assert_eq!(rt; fault_of_added(&schema, 1, 3), None);
    assert_eq!(rt; fault_of_added(&schema, 2, 3), NO_TABLE);
    assert_eq!(rt; fault_of_added(&schema, 2, 0), NO_TABLE);
    assert_eq!(rt; other_room(rt.alloc())?, None);
    Ok(())
}
