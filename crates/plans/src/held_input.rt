//! What rows contribute to an aggregate, as cells hold it.

ghost use Rattle.std.specs.Prelude.{◌≡◌, List, length, map, IfOk};
ghost use Rattle.rows.specs.declared.value.Value.{Value as ColumnValue};
ghost use Rattle.queries.specs.declared.aggregate.Aggregate.{Aggregate as AnyAggregate};
ghost use Rattle.queries.specs.Answers.{integer_of};
ghost use Rattle.plans.specs.Inner.Cells.{values_of, value_at};
ghost use Rattle.plans.specs.Inner.Picked.{ArePlaces};
ghost use Rattle.plans.specs.Inner.Held.{IsHeld, IsTaken, AreIntegers, AreValues};

use crate::cells::Cells;
use crate::input::Input;
use queries::Aggregate;
use rows::Value;
use std::alloc::{AllocError, Global};

/// What some rows contribute to an aggregate, lent by cells or made of them.
#[derive(Drop)]
pub enum HeldInput<'a> {
    Rows,
    LentNumbers(&'a [i64]),
    Numbers(Vec<i64>),
    LentValues(&'a [Value]),
    Values(Vec<Value>),
}

impl<'a> HeldInput<'a> {
    /// What rows with these values in its column contribute to an aggregate; a count has no column,
    /// and may be given any. Fails only if out of memory.
    pub fn of_cells(
        alloc: Global,
        aggregate: Aggregate,
        cells: &'a Cells,
    ) -> Result<HeldInput<'a>, AllocError>
        ensures { IfOk result (λ held. IsHeld (values_of cells.now) aggregate held) }
    {
        match aggregate {
            Aggregate::Count => Ok(HeldInput::Rows),
            Aggregate::Sum(_) => integers_in(alloc, cells),
            Aggregate::Min(_) => Ok(values_in(cells)),
            Aggregate::Max(_) => Ok(values_in(cells)),
        }
    }

    /// What the rows at these positions contribute to an aggregate. Fails only if out of memory.
    pub fn of_rows(
        alloc: Global,
        aggregate: Aggregate,
        cells: &Cells<'a>,
        positions: &[u32],
    ) -> Result<HeldInput<'a>, AllocError>
        requires { ArePlaces (length (values_of cells.now)) positions.now }
        ensures { IfOk result (λ held. IsHeld (map (value_at (values_of cells.now)) positions.now) aggregate held) }
    {
        match aggregate {
            Aggregate::Count => Ok(HeldInput::Rows),
            Aggregate::Sum(_) => integers_at(alloc, cells, positions),
            Aggregate::Min(_) => values_at(alloc, cells, positions),
            Aggregate::Max(_) => values_at(alloc, cells, positions),
        }
    }

    /// The same, lent.
    pub fn lend(&self) -> Input<'_>
        ensures { (values : List ColumnValue) (aggregate : AnyAggregate) → IsHeld values aggregate self.now → IsTaken values aggregate
            result }
    {
        match self {
            HeldInput::Rows => Input::Rows,
            HeldInput::LentNumbers(numbers) => Input::Numbers(numbers),
            HeldInput::Numbers(numbers) => Input::Numbers(numbers.as_slice()),
            HeldInput::LentValues(values) => Input::Values(values),
            HeldInput::Values(values) => Input::Values(values.as_slice()),
        }
    }
}

/// The integers of cells, lent if they are numbers. Fails only if out of memory.
fn integers_in<'a>(alloc: Global, cells: &'a Cells) -> Result<HeldInput<'a>, AllocError>
    ensures { IfOk result (λ held. AreIntegers (values_of cells.now) held) }
{
    match cells {
        Cells::Lent(numbers) => Ok(HeldInput::LentNumbers(numbers)),
        Cells::Numbers(numbers) => Ok(HeldInput::LentNumbers(numbers.as_slice())),
        Cells::Values(values) => Ok(HeldInput::Numbers(integers_of(alloc, values.as_slice())?)),
    }
}

/// The integer of each value. Fails only if out of memory.
fn integers_of(alloc: Global, values: &[Value]) -> Result<Vec<i64>, AllocError>
    ensures { IfOk result (λ integers. integers.items ≡ map integer_of values.now) }
{
    let mut integers = Vec::with_capacity(alloc, values.len())?;
    for value in values {
        integers.push(integer_of(value))?;
    }
    Ok(integers)
}

/// A number; only numbers are summed.
fn integer_of(value: &Value) -> i64
    ensures { result ≡ integer_of value.now }
{
    match value {
        Value::Int(number) => *number,
        Value::Octets(_) => 0,
    }
}

/// The values of cells, lent.
fn values_in<'a>(cells: &'a Cells) -> HeldInput<'a>
    ensures { AreValues (values_of cells.now) result }
{
    match cells {
        Cells::Lent(numbers) => HeldInput::LentNumbers(numbers),
        Cells::Numbers(numbers) => HeldInput::LentNumbers(numbers.as_slice()),
        Cells::Values(values) => HeldInput::LentValues(values.as_slice()),
    }
}

/// The integers of cells at these positions. Fails only if out of memory.
fn integers_at<'a>(
    alloc: Global,
    cells: &Cells<'a>,
    positions: &[u32],
) -> Result<HeldInput<'a>, AllocError>
    requires { ArePlaces (length (values_of cells.now)) positions.now }
    ensures { IfOk result (λ held. AreIntegers (map (value_at (values_of cells.now)) positions.now) held) }
{
    let taken = cells.at(alloc, positions)?;
    match taken {
        Cells::Lent(numbers) => Ok(HeldInput::LentNumbers(numbers)),
        Cells::Numbers(numbers) => Ok(HeldInput::Numbers(numbers)),
        Cells::Values(values) => Ok(HeldInput::Numbers(integers_of(alloc, values.as_slice())?)),
    }
}

/// The values of cells at these positions. Fails only if out of memory.
fn values_at<'a>(
    alloc: Global,
    cells: &Cells<'a>,
    positions: &[u32],
) -> Result<HeldInput<'a>, AllocError>
    requires { ArePlaces (length (values_of cells.now)) positions.now }
    ensures { IfOk result (λ held. AreValues (map (value_at (values_of cells.now)) positions.now) held) }
{
    match cells.at(alloc, positions)? {
        Cells::Lent(numbers) => Ok(HeldInput::LentNumbers(numbers)),
        Cells::Numbers(numbers) => Ok(HeldInput::Numbers(numbers)),
        Cells::Values(values) => Ok(HeldInput::Values(values)),
    }
}
