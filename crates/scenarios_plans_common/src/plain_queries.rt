//! A plain program that answers queries, to compare with: for each thing that it is asked it looks
//! at all rows again.

use crate::wishes::{Cell, Line, Wish};
use queries::{Aggregate, Column, Comparison, Join};
use std::alloc::{AllocError, Global};
use std::cmp::Ordering;

/// A row, and the one that it is joined with; without a join, itself.
type Pair = (Line, Line);

/// What stands in a column of a row.
fn cell_of(pair: &Pair, column: Column) -> Cell {
    let found = match column {
        Column::Own(column) => pair.0.2.get(column as usize),
        Column::Joined(column) => pair.1.2.get(column as usize),
    };
    *found.unwrap_or(&Cell::Beyond)
}

/// The number by which what stands in a column is ordered among others of its kind.
fn rank(cell: Cell) -> i64 {
    match cell {
        Cell::Number(number) => number,
        Cell::Byte(byte) => i64::from(byte),
        Cell::Pair(first, second) => 256 * i64::from(first) + i64::from(second),
        Cell::Beyond => 0,
    }
}

/// The row that a row is joined with.
fn partner(lines: &[Line], own: &Line, join: Option<Join>) -> Option<Line> {
    let Some(join) = join else {
        return Some(*own);
    };
    let wanted = rank(cell_of(&(*own, *own), Column::Own(join.column)));
    for line in lines {
        if line.0 == join.table && i128::from(line.1) == i128::from(wanted) {
            return Some(*line);
        }
    }
    None
}

/// Whether a row meets all conditions.
fn meets_all(pair: &Pair, conditions: &[(Column, Comparison, Cell)]) -> bool {
    for (column, comparison, cell) in conditions {
        let value = rank(cell_of(pair, *column));
        let other = rank(*cell);
        let met = match comparison {
            Comparison::Equal => value == other,
            Comparison::NotEqual => value != other,
            Comparison::Less => value < other,
            Comparison::AtMost => value <= other,
            Comparison::Greater => value > other,
            Comparison::AtLeast => value >= other,
        };
        if !met {
            return false;
        }
    }
    true
}

/// The rows that are looked at.
fn pairs_of(alloc: Global, lines: &[Line], wish: &Wish<'_>) -> Result<Vec<Pair>, AllocError> {
    let mut pairs = Vec::new(alloc);
    for own in lines {
        if own.0 != wish.table {
            continue;
        }
        let Some(other) = partner(lines, own, wish.join) else {
            continue;
        };
        let pair = (*own, other);
        if meets_all(&pair, wish.conditions) {
            pairs.push(pair)?;
        }
    }
    Ok(pairs)
}

/// The numbers by which a row's group is ordered.
fn key_of(pair: &Pair, groups: &[Column]) -> (i64, i64) {
    match groups {
        [] => (0, 0),
        [first] => (rank(cell_of(pair, *first)), 0),
        [first, second, ..] => (rank(cell_of(pair, *first)), rank(cell_of(pair, *second))),
    }
}

fn is_below(key: (i64, i64), other: (i64, i64)) -> bool {
    key.0 < other.0 || (key.0 == other.0 && key.1 < other.1)
}

/// A row of the first group behind this one; of the first of all, behind none.
fn next_group(pairs: &[Pair], groups: &[Column], last: Option<Pair>) -> Option<Pair> {
    let mut next: Option<Pair> = None;
    for pair in pairs {
        let key = key_of(pair, groups);
        let is_behind = match last {
            None => true,
            Some(last) => is_below(key_of(&last, groups), key),
        };
        let is_first = match next {
            None => true,
            Some(next) => is_below(key, key_of(&next, groups)),
        };
        if is_behind && is_first {
            next = Some(*pair);
        }
    }
    next
}

/// Adds what stands in a column; none is `-`.
fn write_cell(text: &mut String, cell: Option<Cell>) -> Result<(), AllocError> {
    match cell {
        None => text.push_str("-"),
        Some(Cell::Number(number)) => write!(text, "{number}"),
        Some(Cell::Byte(byte)) => write!(text, "x{byte:02x}"),
        Some(Cell::Pair(first, second)) => write!(text, "x{first:02x}{second:02x}"),
        Some(Cell::Beyond) => text.push_str("beyond"),
    }
}

/// What stands in a column of the rows of a group and is less than all else there, or greater.
fn extreme(
    pairs: &[Pair],
    groups: &[Column],
    key: (i64, i64),
    column: Column,
    wanted: Ordering,
) -> Option<Cell> {
    let mut found: Option<Cell> = None;
    for pair in pairs {
        let cell = cell_of(pair, column);
        let is_better = match found {
            None => true,
            Some(held) => rank(cell).cmp(&rank(held)) == wanted,
        };
        if key_of(pair, groups) == key && is_better {
            found = Some(cell);
        }
    }
    found
}

/// The sum of a column over the rows of a group; of no column, how many rows it has.
fn sum(pairs: &[Pair], groups: &[Column], key: (i64, i64), column: Option<Column>) -> i128 {
    let mut sum: i128 = 0;
    for pair in pairs {
        if key_of(pair, groups) == key {
            let number = match column {
                None => 1,
                Some(column) => rank(cell_of(pair, column)),
            };
            sum = sum.saturating_add(i128::from(number));
        }
    }
    sum
}

/// Adds the line of the group of that row; without a row, of the one group there is.
fn write_line(
    text: &mut String,
    pairs: &[Pair],
    wish: &Wish<'_>,
    row: Option<Pair>,
) -> Result<(), AllocError> {
    let mut key = (0, 0);
    if let Some(pair) = row {
        key = key_of(&pair, wish.groups);
        for column in wish.groups {
            write_cell(text, Some(cell_of(&pair, *column)))?;
            text.push_str(" ")?;
        }
    }
    for (index, aggregate) in wish.aggregates.iter().enumerate() {
        if index != 0 {
            text.push_str(" ")?;
        }
        write_aggregate(text, pairs, wish.groups, key, *aggregate)?;
    }
    text.push_str("\n")
}

fn write_aggregate(
    text: &mut String,
    pairs: &[Pair],
    groups: &[Column],
    key: (i64, i64),
    aggregate: Aggregate,
) -> Result<(), AllocError> {
    match aggregate {
        Aggregate::Count => write!(text, "{}", sum(pairs, groups, key, None)),
        Aggregate::Sum(column) => write!(text, "{}", sum(pairs, groups, key, Some(column))),
        Aggregate::Min(column) => {
            write_cell(text, extreme(pairs, groups, key, column, Ordering::Less))
        }
        Aggregate::Max(column) => {
            write_cell(text, extreme(pairs, groups, key, column, Ordering::Greater))
        }
    }
}

/// Adds the lines of all groups, and answers how many they are.
fn write_lines(text: &mut String, pairs: &[Pair], wish: &Wish<'_>) -> Result<usize, AllocError> {
    if wish.groups.is_empty() {
        write_line(text, pairs, wish, None)?;
        return Ok(1);
    }
    let mut last = None;
    for index in 0..pairs.len() {
        last = next_group(pairs, wish.groups, last);
        if last.is_none() {
            return Ok(index);
        }
        write_line(text, pairs, wish, last)?;
    }
    Ok(pairs.len())
}

/// Adds the answer of the plan that is wished for, the one at this index of its batch.
pub fn write_answer(
    text: &mut String,
    alloc: Global,
    index: usize,
    lines: &[Line],
    wish: &Wish<'_>,
) -> Result<(), AllocError> {
    let pairs = pairs_of(alloc, lines, wish)?;
    let mut groups = String::new(alloc);
    let count = write_lines(&mut groups, pairs.as_slice(), wish)?;
    write!(text, "query {index} rows {count}\n{groups}")
}

/// The report of the answer of the plan that is wished for, at version 7.
pub fn plain_report(alloc: Global, lines: &[Line], wish: &Wish<'_>) -> Result<String, AllocError> {
    let mut text = String::from_str(alloc, "version 7 queries 1\n")?;
    write_answer(&mut text, alloc, 0, lines, wish)?;
    Ok(text)
}
