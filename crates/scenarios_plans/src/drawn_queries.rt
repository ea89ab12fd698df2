//! Queries that are drawn by numbers that look random, on tables that are drawn so: their answers
//! are those of a plain program. What is drawn from is static, since a proof writes out each constant that
//! its function names.

ghost use Rattle.std.specs.Prelude.{◌<◌, length};

use crate::reports::report_of;
use queries::{Aggregate, Column, Comparison, Join};
use rows::Kind;
use scenarios_common::drawn_numbers::{draw, pick};
use scenarios_plans_common::plain_queries::plain_report;
use scenarios_plans_common::wishes::{Cell, Line, Tables, Wish};
use std::alloc::{AllocError, Global};
use std::test::Fail;
use std::thread::Threads;

/// Two tables, each with two columns of numbers and one of octets.
const TABLES: Tables<'static> = &[
    ("first", &[Kind::Int, Kind::Int, Kind::Octets(2)]),
    ("second", &[Kind::Int, Kind::Int, Kind::Octets(2)]),
];

/// What columns of numbers hold: identifiers that are there or not, negative numbers, and the ends.
static NUMBERS: [i64; 10] = [-2, -1, 0, 1, 2, 3, 7, 100, i64::MIN, i64::MAX];

/// What columns of octets hold, up to bytes that are negative where they are signed.
static PAIRS: [(u8, u8); 6] = [
    (0x00, 0x00),
    (0x00, 0xff),
    (0x4e, 0x45),
    (0x7f, 0xff),
    (0x80, 0x00),
    (0xff, 0x00),
];

static COMPARISONS: [Comparison; 6] = [
    Comparison::Equal,
    Comparison::NotEqual,
    Comparison::Less,
    Comparison::AtMost,
    Comparison::Greater,
    Comparison::AtLeast,
];

/// The columns of a plan without a join, those of numbers first, and of one with a join.
static OWN: [Column; 3] = [Column::Own(0), Column::Own(1), Column::Own(2)];

static BOTH: [Column; 6] = [
    Column::Own(0),
    Column::Own(1),
    Column::Joined(0),
    Column::Joined(1),
    Column::Joined(2),
    Column::Own(2),
];

fn drawn_number(state: &mut u64) -> Cell {
    Cell::Number(pick(state, &NUMBERS))
}

fn drawn_octets(state: &mut u64) -> Cell {
    let (first, second) = pick(state, &PAIRS);
    Cell::Pair(first, second)
}

/// About 6 rows a table, in no order.
fn drawn_lines(alloc: Global, state: &mut u64) -> Result<Vec<Line>, AllocError> {
    let mut lines = Vec::new(alloc);
    for index in 0..16u64 {
        let id = (index * 5) % 8;
        let table = if index < 8 { 0 } else { 1 };
        let cells = [
            drawn_number(state),
            drawn_number(state),
            drawn_octets(state),
        ];
        if draw(state, 4) != 0 {
            lines.push(Line(table, id, cells))?;
        }
    }
    Ok(lines)
}

/// A condition on one of these columns.
fn drawn_condition(state: &mut u64, columns: &[Column]) -> (Column, Comparison, Cell)
    requires { 0 < length columns.now }
{
    let column = pick(state, columns);
    let comparison = pick(state, &COMPARISONS);
    let cell = match column {
        Column::Own(2) | Column::Joined(2) => drawn_octets(state),
        Column::Own(_) | Column::Joined(_) => drawn_number(state),
    };
    (column, comparison, cell)
}

/// An aggregate of one of these columns; a sum is of one of those of numbers.
fn drawn_aggregate(state: &mut u64, columns: &[Column], numbers: &[Column]) -> Aggregate
    requires any { 0 < length columns.now }
    requires number { 0 < length numbers.now }
{
    match draw(state, 4) {
        0 => Aggregate::Count,
        1 => Aggregate::Sum(pick(state, numbers)),
        2 => Aggregate::Min(pick(state, columns)),
        _ => Aggregate::Max(pick(state, columns)),
    }
}

/// Whether the report of this plan over these rows is that of the plain program.
fn is_plain<R: Threads + Sync>(
    rt: &R,
    alloc: Global,
    lines: &[Line],
    wish: Wish<'_>,
    plain: &str,
) -> Result<bool, Fail> {
    let found = report_of(rt, alloc, TABLES, lines, &[wish])?;
    Ok(found.as_slice() == plain.as_bytes())
}

/// The same, where the plain program answers it.
fn agrees_on<R: Threads + Sync>(
    rt: &R,
    alloc: Global,
    lines: &[Line],
    wish: Wish<'_>,
) -> Result<bool, Fail> {
    let plain = plain_report(alloc, lines, &wish)?;
    is_plain(rt, alloc, lines, wish, plain.as_str())
}

/// Whether the answer of a plan that is drawn, over these rows, is that of the plain program. It names
/// these columns, sums those of numbers, and joins where one of them is joined.
fn agrees_over<R: Threads + Sync>(
    rt: &R,
    alloc: Global,
    state: &mut u64,
    lines: &[Line],
    columns: &[Column],
    numbers: &[Column],
) -> Result<bool, Fail>
    requires any { 0 < length columns.now }
    requires number { 0 < length numbers.now }
{
    let conditions = [
        drawn_condition(state, columns),
        drawn_condition(state, columns),
    ];
    let groups = [pick(state, columns), pick(state, columns)];
    let aggregates = [
        drawn_aggregate(state, columns, numbers),
        drawn_aggregate(state, columns, numbers),
        drawn_aggregate(state, columns, numbers),
    ];
    let join = Join {
        column: draw(state, 2) as u8,
        table: draw(state, 2) as u8,
    };
    let wish = Wish {
        table: draw(state, 2) as u8,
        join: if columns.contains(&Column::Joined(0)) {
            Some(join)
        } else {
            None
        },
        conditions: &conditions[..draw(state, 3)],
        groups: &groups[..draw(state, 3)],
        aggregates: &aggregates,
    };
    agrees_on(rt, alloc, lines, wish)
}

/// The same, over rows that are drawn from a seed.
fn agrees<R: Threads + Sync>(
    rt: &R,
    alloc: Global,
    seed: u64,
    columns: &[Column],
    numbers: &[Column],
) -> Result<bool, Fail>
    requires any { 0 < length columns.now }
    requires number { 0 < length numbers.now }
{
    let mut state = seed;
    let lines = drawn_lines(alloc, &mut state)?;
    agrees_over(rt, alloc, &mut state, lines.as_slice(), columns, numbers)
}

/// The first seed at which a plan is answered otherwise than by the plain program.
fn first_other<R: Threads + Sync>(
    rt: &R,
    alloc: Global,
    columns: &[Column],
    numbers: &[Column],
) -> Result<Option<u64>, Fail>
    requires any { 0 < length columns.now }
    requires number { 0 < length numbers.now }
{
    for seed in 0..150 {
        if !agrees(rt, alloc, seed, columns, numbers)? {
            return Ok(Some(seed));
        }
    }
    Ok(None)
}

#[test]
fn drawn_queries_have_plain_answers(rt: HostRuntime) -> Result<(), Fail> {
    let alone = first_other(&rt, rt.alloc(), &OWN, &OWN[..2])?;
    assert_eq!(rt; alone, None, "without a join");
    let joined = first_other(&rt, rt.alloc(), &BOTH, &BOTH[..4])?;
    assert_eq!(rt; joined, None, "with a join");
    Ok(())
}
