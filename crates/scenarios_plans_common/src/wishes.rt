//! Plans that are wished for, and the rows of a plain store.

ghost use Rattle.std.specs.Prelude.{◌≡◌, true, Ok, IfOk, OnOk};
ghost use Rattle.std.specs.List.{AllByRecursion};
ghost use Rattle.rows.specs.Shape.{shape_of};
ghost use Rattle.rows.specs.Tables.{shape_in};
ghost use Rattle.queries.specs.Checking.{checked};

use queries::{
    Aggregate, AggregateList, Column, ColumnList, Comparison, Condition, ConditionList, Join, Plan,
    PlanFault,
};
use rows::laws::changes_tell_kinds;
use rows::{ByteList, Entry, Kind, Octets, RowId, Schema, Value, row_bytes};
use std::alloc::{AllocError, Global};
use std::test::Fail;
use store::{PlainStore, Store};

/// What a column holds.
#[derive(Clone, Copy)]
pub enum Cell {
    Number(i64),
    Byte(u8),
    Pair(u8, u8),
    /// The table has no such column.
    Beyond,
}

/// A row: its table, its identifier, and what its columns hold.
#[derive(Clone, Copy)]
pub struct Line(pub u8, pub u64, pub [Cell; 3]);

/// A plan that is to be made; a condition is a column, a comparison and what it is compared with.
#[derive(Clone, Copy)]
pub struct Wish<'a> {
    pub table: u8,
    pub join: Option<Join>,
    pub conditions: &'a [(Column, Comparison, Cell)],
    pub groups: &'a [Column],
    pub aggregates: &'a [Aggregate],
}

/// Names of tables, with the kinds of their columns.
pub type Tables<'a> = &'a [(&'a str, &'a [Kind])];

/// The value of a column that holds this.
fn value_of(cell: Cell) -> Option<Value> {
    match cell {
        Cell::Number(number) => Some(Value::Int(number)),
        Cell::Byte(byte) => Octets::from_slice(&[byte]).map(Value::Octets),
        Cell::Pair(first, second) => Octets::from_slice(&[first, second]).map(Value::Octets),
        Cell::Beyond => None,
    }
}

/// The bytes of a row of these columns.
fn bytes_of(alloc: Global, cells: &[Cell]) -> Result<ByteList, AllocError> {
    let mut values = Vec::with_capacity(alloc, cells.len())?;
    for cell in cells {
        if let Some(value) = value_of(*cell) {
            values.push(value)?;
        }
    }
    row_bytes(alloc, values.as_slice())
}

/// Puts a row into a store.
fn put(alloc: Global, store: &mut PlainStore, line: &Line) -> Result<(), Fail>
    ensures whole { store.new.whole ≡ store.old.whole }
    ensures kinds { OnOk result (shape_in store.new.tables ≡ shape_in store.old.tables) }
{
    changes_tell_kinds();
    let insert = Entry::Insert {
        table: line.0,
        row: RowId(line.1),
        bytes: bytes_of(alloc, &line.2)?,
    };
    store.change(&insert)?;
    Ok(())
}

/// A store with these rows.
pub fn filled(alloc: Global, schema: &Schema, lines: &[Line]) -> Result<PlainStore, Fail>
    ensures whole { IfOk result (λ store. store.whole ≡ true) }
    ensures kinds { IfOk result (λ store. shape_in store.tables ≡ shape_of schema.now) }
{
    changes_tell_kinds();
    let mut store = PlainStore::new(alloc, schema)?;
    for line in lines {
        put(alloc, &mut store, line)?;
    }
    Ok(store)
}

/// These conditions.
fn conditions_of(
    alloc: Global,
    wished: &[(Column, Comparison, Cell)],
) -> Result<ConditionList, AllocError> {
    let mut conditions = Vec::with_capacity(alloc, wished.len())?;
    for (column, comparison, cell) in wished {
        if let Some(value) = value_of(*cell) {
            conditions.push(Condition {
                column: *column,
                comparison: *comparison,
                value,
            })?;
        }
    }
    Ok(ConditionList::from_vec(conditions))
}

/// The plan that is wished for.
pub fn plan_of(alloc: Global, wish: &Wish<'_>) -> Result<Plan, AllocError> {
    Ok(Plan {
        table: wish.table,
        join: wish.join,
        conditions: conditions_of(alloc, wish.conditions)?,
        groups: ColumnList::from_vec(Vec::from_slice(alloc, wish.groups)?),
        aggregates: AggregateList::from_vec(Vec::from_slice(alloc, wish.aggregates)?),
    })
}

/// The plans that are wished for, all of which fit.
pub fn plans_of(alloc: Global, schema: &Schema, wishes: &[Wish<'_>]) -> Result<Vec<Plan>, Fail>
    ensures { IfOk result (λ plans. AllByRecursion (λ plan. checked (shape_of schema.now) plan ≡ Ok tt) plans.items) }
{
    let mut plans = Vec::with_capacity(alloc, wishes.len())?;
    for wish in wishes {
        let plan = plan_of(alloc, wish)?;
        plan.check(schema)?;
        plans.push(plan)?;
    }
    Ok(plans)
}

/// Accounts of two numbers, and sites of two octets.
pub const SHOP: Tables<'static> = &[
    ("acct", &[Kind::Int, Kind::Int]),
    ("site", &[Kind::Octets(2)]),
];

/// The two sites.
pub const NE: Cell = Cell::Pair(0x4e, 0x45);

pub const SW: Cell = Cell::Pair(0x53, 0x57);

/// No column.
pub const NONE: Cell = Cell::Beyond;

/// How many accounts there are.
pub const COUNT: Wish<'static> = Wish {
    table: 0,
    join: None,
    conditions: &[],
    groups: &[],
    aggregates: &[Aggregate::Count],
};

/// The same of the accounts whose first column names a site.
pub const JOINED: Wish<'static> = Wish {
    join: Some(Join {
        column: 0,
        table: 1,
    }),
    ..COUNT
};

/// The plans on accounts and sites.
pub const WISHES: [Wish<'static>; 5] = [
    Wish {
        groups: &[Column::Joined(0)],
        aggregates: &[
            Aggregate::Count,
            Aggregate::Sum(Column::Own(1)),
            Aggregate::Max(Column::Own(1)),
        ],
        ..JOINED
    },
    Wish {
        conditions: &[
            (Column::Own(1), Comparison::Greater, Cell::Number(0)),
            (Column::Joined(0), Comparison::NotEqual, SW),
        ],
        aggregates: &[Aggregate::Count, Aggregate::Sum(Column::Own(1))],
        ..JOINED
    },
    Wish {
        conditions: &[(Column::Own(0), Comparison::Greater, Cell::Number(100))],
        groups: &[Column::Own(0)],
        ..COUNT
    },
    Wish {
        groups: &[Column::Own(0)],
        aggregates: &[
            Aggregate::Count,
            Aggregate::Sum(Column::Own(1)),
            Aggregate::Min(Column::Own(1)),
            Aggregate::Max(Column::Own(1)),
        ],
        ..COUNT
    },
    Wish {
        conditions: &[(
            Column::Joined(0),
            Comparison::AtLeast,
            Cell::Pair(0x50, 0x00),
        )],
        aggregates: &[Aggregate::Min(Column::Joined(0))],
        ..JOINED
    },
];

/// The exact sum of the first column of accounts.
pub const SUM: Wish<'static> = Wish {
    aggregates: &[Aggregate::Sum(Column::Own(0))],
    ..COUNT
};

/// A condition that every account meets.
const ANY: (Column, Comparison, Cell) = (Column::Own(0), Comparison::NotEqual, Cell::Number(77));

/// As much of everything as a plan may have.
pub const MOST: Wish<'static> = Wish {
    conditions: &[ANY; 8],
    groups: &[Column::Own(0), Column::Own(1)],
    aggregates: &[Aggregate::Count; 8],
    ..COUNT
};

/// Plans that do not fit, each with its first fault.
pub const UNFIT: [(Wish<'static>, PlanFault); 17] = [
    (Wish { table: 1, ..SUM }, PlanFault::WrongKind),
    (
        Wish {
            table: 1,
            conditions: &[(Column::Own(0), Comparison::Equal, Cell::Byte(0x4e))],
            ..COUNT
        },
        PlanFault::WrongKind,
    ),
    (
        Wish {
            aggregates: &[Aggregate::Sum(Column::Own(2))],
            ..COUNT
        },
        PlanFault::NoColumn,
    ),
    (
        Wish {
            aggregates: &[Aggregate::Min(Column::Joined(0))],
            ..COUNT
        },
        PlanFault::NoColumn,
    ),
    (
        Wish {
            conditions: &[ANY, ANY, ANY, ANY, ANY, ANY, ANY, ANY, ANY],
            ..COUNT
        },
        PlanFault::TooMany,
    ),
    (
        Wish {
            aggregates: &[],
            ..COUNT
        },
        PlanFault::NoAggregate,
    ),
    (Wish { table: 2, ..COUNT }, PlanFault::NoTable),
    (
        Wish {
            join: Some(Join {
                column: 0,
                table: 2,
            }),
            ..COUNT
        },
        PlanFault::NoTable,
    ),
    (
        Wish {
            groups: &[Column::Own(0), Column::Own(1), Column::Own(0)],
            ..COUNT
        },
        PlanFault::TooMany,
    ),
    (
        Wish {
            aggregates: &[Aggregate::Count; 9],
            ..COUNT
        },
        PlanFault::TooMany,
    ),
    (
        Wish {
            conditions: &[ANY; 9],
            aggregates: &[],
            ..COUNT
        },
        PlanFault::TooMany,
    ),
    (
        Wish {
            table: 2,
            aggregates: &[],
            ..COUNT
        },
        PlanFault::NoAggregate,
    ),
    (
        Wish {
            table: 2,
            groups: &[Column::Own(9)],
            ..COUNT
        },
        PlanFault::NoTable,
    ),
    (
        Wish {
            join: Some(Join {
                column: 2,
                table: 1,
            }),
            ..COUNT
        },
        PlanFault::NoColumn,
    ),
    (
        Wish {
            table: 1,
            join: Some(Join {
                column: 0,
                table: 0,
            }),
            ..COUNT
        },
        PlanFault::WrongKind,
    ),
    (
        Wish {
            groups: &[Column::Own(2)],
            ..COUNT
        },
        PlanFault::NoColumn,
    ),
    (
        Wish {
            aggregates: &[Aggregate::Sum(Column::Joined(0))],
            ..JOINED
        },
        PlanFault::WrongKind,
    ),
];
