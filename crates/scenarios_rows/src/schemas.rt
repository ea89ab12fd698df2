//! The faults of schemas, what schemas and kinds tell, and the limits.

use rows::{Kind, Schema, SchemaFault, column_at, limits};
use scenarios_common::wanted::{BANK, Table, bank};
use std::alloc::Global;
use std::test::Fail;

const INT: &[Kind] = &[Kind::Int];

/// The widest column.
const WIDE: Kind = Kind::Octets(64);

/// As many tables as there may be.
const TABLES: [Table; 16] = [
    ("a", INT),
    ("b", INT),
    ("c", INT),
    ("d", INT),
    ("e", INT),
    ("f", INT),
    ("g", INT),
    ("h", INT),
    ("i", INT),
    ("j", INT),
    ("k", INT),
    ("l", INT),
    ("m", INT),
    ("n", INT),
    ("o", INT),
    ("p", INT),
];

/// One more, whose name is empty.
const TOO_MANY: [Table; 17] = [
    ("a", INT),
    ("b", INT),
    ("c", INT),
    ("d", INT),
    ("e", INT),
    ("f", INT),
    ("g", INT),
    ("h", INT),
    ("i", INT),
    ("j", INT),
    ("k", INT),
    ("l", INT),
    ("m", INT),
    ("n", INT),
    ("o", INT),
    ("p", INT),
    ("", INT),
];

/// Tables, and how many there are or their fault.
static SCHEMAS: [(&[Table], Result<usize, SchemaFault>); 5] = [
    (&[], Err(SchemaFault::Empty)),
    (&[("", INT)], Err(SchemaFault::Empty)),
    (
        &[("a", INT), ("b", INT), ("a", &[])],
        Err(SchemaFault::NameTwice),
    ),
    (&TABLES, Ok(16)),
    // Too many tables come before an empty name.
    (&TOO_MANY, Err(SchemaFault::TooManyTables)),
];

/// Columns of a table named `a`, and its fault.
const COLUMNS: [(&[Kind], Option<SchemaFault>); 11] = [
    (INT, None),
    (&[], Some(SchemaFault::Empty)),
    // 16 columns at most. A bad width comes behind too many columns.
    (&[Kind::Int; 16], None),
    (&[Kind::Octets(0); 17], Some(SchemaFault::TooManyColumns)),
    // Octets are 1 to 64 bytes.
    (&[Kind::Octets(0)], Some(SchemaFault::BadWidth)),
    (&[Kind::Octets(1)], None),
    (&[Kind::Octets(64)], None),
    (&[Kind::Int, Kind::Octets(65)], Some(SchemaFault::BadWidth)),
    // A row has 512 bytes at most. A bad width comes before a row too wide.
    (&[WIDE; 8], None),
    (
        &[
            WIDE,
            WIDE,
            WIDE,
            WIDE,
            WIDE,
            WIDE,
            WIDE,
            WIDE,
            Kind::Octets(1),
        ],
        Some(SchemaFault::RowTooWide),
    ),
    (
        &[
            WIDE,
            WIDE,
            WIDE,
            WIDE,
            WIDE,
            WIDE,
            WIDE,
            WIDE,
            Kind::Octets(65),
        ],
        Some(SchemaFault::BadWidth),
    ),
];

/// How many tables the schema of these tables has, or why they are none.
fn count_of(alloc: Global, tables: &[(&str, &[Kind])]) -> Result<usize, SchemaFault> {
    Ok(Schema::new(alloc, tables)?.len())
}

/// The index of the first of these columns that have another fault.
fn other_fault(alloc: Global) -> Option<usize> {
    for (index, (columns, fault)) in COLUMNS.iter().enumerate() {
        if count_of(alloc, &[("a", *columns)]).err() != *fault {
            return Some(index);
        }
    }
    None
}

/// The index of the first of these tables of which something else is answered.
fn other_count(alloc: Global) -> Option<usize> {
    for (index, (tables, expected)) in SCHEMAS.iter().enumerate() {
        if count_of(alloc, tables) != *expected {
            return Some(index);
        }
    }
    None
}

/// Columns that are looked for by where their bytes stand.
static KINDS: [Kind; 3] = [Kind::Octets(2), Kind::Int, Kind::Octets(2)];

/// An offset and a size, and which column stands there.
static SPANS: [(usize, usize, Option<(usize, Kind)>); 7] = [
    (0, 2, Some((0, Kind::Octets(2)))),
    (2, 8, Some((1, Kind::Int))),
    (10, 2, Some((2, Kind::Octets(2)))),
    // Two columns; a part of a column; parts of two; behind the row.
    (0, 10, None),
    (2, 2, None),
    (1, 2, None),
    (12, 2, None),
];

/// Kinds, each with its width, and whether it is good.
static WIDTHS: [(Kind, usize, bool); 5] = [
    (Kind::Int, 8, true),
    (Kind::Octets(3), 3, true),
    (Kind::Octets(64), 64, true),
    (Kind::Octets(65), 65, false),
    (Kind::Octets(0), 0, false),
];

/// The index of the first of these columns that stand elsewhere.
fn other_span() -> Option<usize> {
    for (index, (offset, size, column)) in SPANS.iter().enumerate() {
        if column_at(&KINDS, *offset, *size) != *column {
            return Some(index);
        }
    }
    None
}

/// The index of the first of these kinds that is otherwise.
fn other_width() -> Option<usize> {
    for (index, (kind, width, is_good)) in WIDTHS.iter().enumerate() {
        if kind.width() != *width || kind.is_good() != *is_good {
            return Some(index);
        }
    }
    None
}

/// Whether the schema tells the tables of the bank.
fn tells_the_bank(schema: &Schema) -> bool {
    for (table, (name, kinds)) in BANK.iter().enumerate() {
        if schema.name(table) != Some(*name)
            || schema.kinds(table) != Some(*kinds)
            || schema.table_named(name) != Some(table)
        {
            return false;
        }
    }
    schema.len() == 2
        && schema.name(2).is_none()
        && schema.kinds(2).is_none()
        && schema.table_named("audits").is_none()
}

/// Whether a schema and its copy tell their tables.
fn copy_tells_the_bank(alloc: Global) -> Result<bool, Fail> {
    let schema = bank(alloc)?;
    let copy = schema.clone()?;
    Ok(tells_the_bank(&schema) && tells_the_bank(&copy))
}

/// The limits are those of the definitions, as their contract says.
#[test]
fn schemas_are_good_or_have_a_fault(rt: HostRuntime) -> Result<(), Fail> {
    limits::are_as_defined();
    assert_eq!(rt; other_fault(rt.alloc()), None);
    assert_eq!(rt; other_count(rt.alloc()), None);
    assert_eq!(rt; other_span(), None);
    assert_eq!(rt; other_width(), None);
    assert!(rt; copy_tells_the_bank(rt.alloc())?);
    Ok(())
}
