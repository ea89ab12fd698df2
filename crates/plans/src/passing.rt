//! Selecting rows by a condition on the values of a column.

ghost use Rattle.std.specs.Prelude.{◌≡◌, ℤ, pos, length, map, IfOk, FitsSigned};
ghost use Rattle.std.specs.Int.{w64};
ghost use Rattle.std.specs.List.{filter, range_with_len};
ghost use Rattle.rows.specs.declared.value.Value.TheVariants.{Int};
ghost use Rattle.queries.specs.Answers.{passes};
ghost use Rattle.queries.specs.Order.{value_cmp};
ghost use Rattle.plans.specs.Inner.Picked.{ArePlaces};
ghost use Rattle.plans.specs.Inner.Selected.{is_selected};
ghost use Rattle.plans.specs.Inner.Cells.{values_of, value_at, does_pass};

use crate::cells::Cells;
use crate::comparing::{compare, passes};
use crate::selecting::{all_positions, select, select_all};
use queries::{Comparison, Condition};
use rows::Value;
use std::alloc::{AllocError, Global};

/// The positions of the rows whose value meets a condition. Fails only if out of memory, or of
/// positions.
pub fn select_first(
    alloc: Global,
    cells: &Cells,
    condition: &Condition,
) -> Result<Vec<u32>, AllocError>
    ensures { IfOk result (λ selected. selected.items
        ≡ filter (does_pass condition.now (values_of cells.now)) (range_with_len 0 (length (values_of cells.now)))) }
{
    if let Some(numbers) = cells.numbers() {
        if let Value::Int(value) = condition.value {
            return first_compared(alloc, numbers, condition.comparison, value);
        }
    }
    let all = all_positions(alloc, cells.len())?;
    let selected = select_cells(alloc, cells, condition, all.as_slice())?;
    Ok(selected)
}

/// The positions of the numbers that pass a comparison with another one. Fails only if out of
/// memory, or of positions.
fn first_compared(
    alloc: Global,
    numbers: &[i64],
    comparison: Comparison,
    value: i64,
) -> Result<Vec<u32>, AllocError>
    ensures { IfOk result (λ selected. selected.items ≡ filter
        (λ position. passes comparison (value_cmp (value_at (map Int numbers.now) position) (Int value)))
        (range_with_len 0 (length numbers.now))) }
{
    let range = range_of(comparison, value);
    let selected = select_all(alloc, numbers, range.low, range.high, range.inside)?;
    Ok(selected)
}

/// Of these positions those whose value meets a condition. Fails only if out of memory.
pub fn select_cells(
    alloc: Global,
    cells: &Cells,
    condition: &Condition,
    positions: &[u32],
) -> Result<Vec<u32>, AllocError>
    requires { ArePlaces (length (values_of cells.now)) positions.now }
    ensures { IfOk result (λ selected. selected.items ≡ filter (does_pass condition.now (values_of cells.now)) positions.now) }
{
    match cells {
        Cells::Lent(numbers) => select_numbers(alloc, numbers, condition, positions),
        Cells::Numbers(numbers) => select_numbers(alloc, numbers.as_slice(), condition, positions),
        Cells::Values(values) => select_values(alloc, values.as_slice(), condition, positions),
    }
}

/// The same of numbers.
fn select_numbers(
    alloc: Global,
    numbers: &[i64],
    condition: &Condition,
    positions: &[u32],
) -> Result<Vec<u32>, AllocError>
    requires { ArePlaces (length numbers.now) positions.now }
    ensures { IfOk result (λ selected. selected.items ≡ filter (does_pass condition.now (map Int numbers.now)) positions.now) }
{
    match condition.value {
        Value::Int(value) => select_compared(
            alloc,
            numbers,
            condition.comparison,
            value,
            positions,
        ),
        Value::Octets(_) => select_any(alloc, positions, condition),
    }
}

/// Of these positions those whose number passes a comparison with another one. Fails only if out of
/// memory.
fn select_compared(
    alloc: Global,
    numbers: &[i64],
    comparison: Comparison,
    value: i64,
    positions: &[u32],
) -> Result<Vec<u32>, AllocError>
    requires { ArePlaces (length numbers.now) positions.now }
    ensures { IfOk result (λ selected. selected.items ≡ filter
        (λ position. passes comparison (value_cmp (value_at (map Int numbers.now) position) (Int value))) positions.now) }
{
    let range = range_of(comparison, value);
    let selected = select(
        alloc,
        positions,
        numbers,
        range.low,
        range.high,
        range.inside,
    )?;
    Ok(selected)
}

/// All positions or none, as each number stands to octets. Fails only if out of memory.
fn select_any(
    alloc: Global,
    positions: &[u32],
    condition: &Condition,
) -> Result<Vec<u32>, AllocError>
    ensures { IfOk result (λ selected. selected.items
        ≡ filter (λ position. passes condition.now.comparison (value_cmp (Int (pos 0)) condition.now.value)) positions.now) }
{
    if passes(
        condition.comparison,
        compare(&Value::Int(0), &condition.value),
    ) {
        Vec::from_slice(alloc, positions)
    } else {
        Ok(Vec::new(alloc))
    }
}

/// The same of any values.
fn select_values(
    alloc: Global,
    values: &[Value],
    condition: &Condition,
    positions: &[u32],
) -> Result<Vec<u32>, AllocError>
    requires { ArePlaces (length values.now) positions.now }
    ensures { IfOk result (λ selected. selected.items ≡ filter (does_pass condition.now values.now) positions.now) }
{
    let mut selected = Vec::with_capacity(alloc, positions.len())?;
    for position in positions {
        if passes(
            condition.comparison,
            compare(&values[*position as usize], &condition.value),
        ) {
            selected.push(*position)?;
        }
    }
    Ok(selected)
}

/// The numbers from one to another, both included, or all but those.
#[derive(Clone, Copy)]
struct Range {
    low: i64,
    high: i64,
    inside: bool,
}

/// The numbers that pass a comparison with a value.
fn range_of(comparison: Comparison, value: i64) -> Range
    ensures { (number : ℤ) → FitsSigned w64 number
        → is_selected result.low result.high result.inside number ≡ passes comparison (value_cmp (Int number) (Int value)) }
{
    match comparison {
        Comparison::Equal => Range {
            low: value,
            high: value,
            inside: true,
        },
        Comparison::NotEqual => Range {
            low: value,
            high: value,
            inside: false,
        },
        Comparison::Less => Range {
            low: value,
            high: i64::MAX,
            inside: false,
        },
        Comparison::AtMost => Range {
            low: i64::MIN,
            high: value,
            inside: true,
        },
        Comparison::Greater => Range {
            low: i64::MIN,
            high: value,
            inside: false,
        },
        Comparison::AtLeast => Range {
            low: value,
            high: i64::MAX,
            inside: true,
        },
    }
}
