//! The values of a column, by rows.

ghost use Rattle.std.specs.Prelude.{◌≡◌, ◌<◌, length, map, IfOk, IfSome};
ghost use Rattle.rows.specs.declared.value.Value.TheVariants.{Int};
ghost use Rattle.plans.specs.Inner.Picked.{ArePlaces};
ghost use Rattle.plans.specs.Inner.Cells.{values_of, value_at};

use crate::selecting::{gather, gather_values};
use rows::Value;
use std::alloc::{AllocError, Global};

/// The values of one column of some rows, in their order.
#[derive(Drop)]
pub enum Cells<'a> {
    /// Numbers that a store lends.
    Lent(&'a [i64]),
    Numbers(Vec<i64>),
    Values(Vec<Value>),
}

/// These values, as numbers if all are. Fails only if out of memory.
pub fn cells_of<'a>(alloc: Global, values: Vec<Value>) -> Result<Cells<'a>, AllocError>
    ensures { IfOk result (λ cells. values_of cells ≡ values.items) }
{
    match numbers_of(alloc, values.as_slice())? {
        Some(numbers) => Ok(Cells::Numbers(numbers)),
        None => Ok(Cells::Values(values)),
    }
}

/// The numbers that these values are; `None` if one is not a number. Fails only if out of memory.
fn numbers_of(alloc: Global, values: &[Value]) -> Result<Option<Vec<i64>>, AllocError>
    ensures { IfOk result (λ numbers. IfSome numbers (λ numbers. map Int numbers.items ≡ values.now)) }
{
    let mut numbers = Vec::with_capacity(alloc, values.len())?;
    for value in values {
        match value {
            Value::Int(number) => numbers.push(*number)?,
            Value::Octets(_) => return Ok(None),
        }
    }
    Ok(Some(numbers))
}

impl<'a> Cells<'a> {
    /// How many rows there are.
    pub fn len(&self) -> usize
        ensures { result ≡ length (values_of self.now) }
    {
        match self {
            Cells::Lent(numbers) => numbers.len(),
            Cells::Numbers(numbers) => numbers.len(),
            Cells::Values(values) => values.len(),
        }
    }

    /// The value of the row at a position.
    pub fn value(&self, position: usize) -> Value
        requires { position < length (values_of self.now) }
        ensures { result ≡ value_at (values_of self.now) position }
    {
        match self {
            Cells::Lent(numbers) => number_value(numbers, position),
            Cells::Numbers(numbers) => number_value(numbers.as_slice(), position),
            Cells::Values(values) => values[position],
        }
    }

    /// The values of the rows at these positions, in the order of the positions. Fails only if out
    /// of memory.
    pub fn at(&self, alloc: Global, positions: &[u32]) -> Result<Cells<'a>, AllocError>
        requires { ArePlaces (length (values_of self.now)) positions.now }
        ensures { IfOk result (λ cells. values_of cells ≡ map (value_at (values_of self.now)) positions.now) }
    {
        match self {
            Cells::Lent(numbers) => numbers_at(alloc, numbers, positions),
            Cells::Numbers(numbers) => numbers_at(alloc, numbers.as_slice(), positions),
            Cells::Values(values) => {
                Ok(Cells::Values(gather_values(alloc, positions, values.as_slice())?))
            }
        }
    }

    /// The numbers that the values are; `None` if they are not kept as numbers.
    pub fn numbers(&self) -> Option<&[i64]>
        ensures { IfSome result (λ numbers. map Int numbers.now ≡ values_of self.now) }
    {
        match self {
            Cells::Lent(numbers) => Some(numbers),
            Cells::Numbers(numbers) => Some(numbers.as_slice()),
            Cells::Values(_) => None,
        }
    }
}

/// The number at a position, as a value.
fn number_value(numbers: &[i64], position: usize) -> Value
    requires { position < length numbers.now }
    ensures { result ≡ value_at (map Int numbers.now) position }
{
    Value::Int(numbers[position])
}

/// The numbers at these positions. Fails only if out of memory.
fn numbers_at<'a>(
    alloc: Global,
    numbers: &[i64],
    positions: &[u32],
) -> Result<Cells<'a>, AllocError>
    requires { ArePlaces (length numbers.now) positions.now }
    ensures { IfOk result (λ cells. values_of cells ≡ map (value_at (map Int numbers.now)) positions.now) }
{
    let gathered = gather(alloc, positions, numbers)?;
    Ok(Cells::Numbers(gathered))
}
