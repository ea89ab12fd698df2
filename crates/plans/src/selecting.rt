//! Selecting rows by the value of a column, and gathering what selected rows have.
//!
//! A list of what is selected is made as long as it can become and cut afterwards: it then takes no
//! branch for each row, and no push.

ghost use Rattle.std.specs.Prelude.{◌≡◌, length, map, IfOk, OnOk, FitsSigned, slice_index_or};
ghost use Rattle.std.specs.Int.{w64};
ghost use Rattle.std.specs.List.{All, filter, range_with_len};
ghost use Rattle.plans.specs.Inner.Picked.{ArePlaces};
ghost use Rattle.plans.specs.Inner.Selected.{is_selected, number_at};
ghost use Rattle.plans.specs.Inner.Cells.{value_at};

use rows::Value;
use std::alloc::{AllocError, Global};

/// Of these positions those whose number is from `low` to `high`, both included, or those whose
/// number is not. Fails only if out of memory.
pub fn select(
    alloc: Global,
    positions: &[u32],
    numbers: &[i64],
    low: i64,
    high: i64,
    inside: bool,
) -> Result<Vec<u32>, AllocError>
    requires { ArePlaces (length numbers.now) positions.now }
    ensures selected { IfOk result (λ selected. selected.items
        ≡ filter (λ position. is_selected low high inside (number_at numbers.now position)) positions.now) }
    ensures fit { OnOk result (All (λ position. FitsSigned w64 (number_at numbers.now position)) positions.now) }
{
    let mut selected = Vec::new(alloc);
    selected.resize(positions.len(), 0)?;
    let mut count = 0;
    for i in 0..positions.len() {
        let position = positions[i];
        selected[count] = position;
        count += usize::from(is_selected(numbers[position as usize], low, high, inside));
    }
    selected.truncate(count);
    Ok(selected)
}

/// The same of the positions of all these numbers. Fails only if out of memory, or of positions.
pub fn select_all(
    alloc: Global,
    numbers: &[i64],
    low: i64,
    high: i64,
    inside: bool,
) -> Result<Vec<u32>, AllocError>
    ensures selected { IfOk result (λ selected. selected.items
        ≡ filter (λ position. is_selected low high inside (number_at numbers.now position)) (range_with_len 0 (length numbers.now))) }
    ensures fit { OnOk result (All (λ position. FitsSigned w64 (number_at numbers.now position)) (range_with_len 0 (length numbers.now))) }
{
    let Ok(end) = u32::try_from(numbers.len()) else {
        return Err(AllocError);
    };
    let mut selected = Vec::new(alloc);
    selected.resize(numbers.len(), 0)?;
    let mut count = 0;
    for position in 0..end {
        selected[count] = position;
        count += usize::from(is_selected(numbers[position as usize], low, high, inside));
    }
    selected.truncate(count);
    Ok(selected)
}

/// The positions of so many rows. Fails only if out of memory, or of positions.
pub fn all_positions(alloc: Global, count: usize) -> Result<Vec<u32>, AllocError>
    ensures { IfOk result (λ positions. positions.items ≡ range_with_len 0 count) }
{
    let Ok(end) = u32::try_from(count) else {
        return Err(AllocError);
    };
    let mut positions = Vec::with_capacity(alloc, count)?;
    for position in 0..end {
        positions.push_reserved(position);
    }
    Ok(positions)
}

/// Whether a number is from `low` to `high`, if those inside are selected, or is not.
fn is_selected(number: i64, low: i64, high: i64, inside: bool) -> bool
    ensures { result ≡ is_selected low high inside number }
{
    let within = low <= number && number <= high;
    if inside { within } else { !within }
}

/// The numbers at these positions, in their order. Fails only if out of memory.
pub fn gather(alloc: Global, positions: &[u32], numbers: &[i64]) -> Result<Vec<i64>, AllocError>
    requires { ArePlaces (length numbers.now) positions.now }
    ensures { IfOk result (λ gathered. gathered.items ≡ map (number_at numbers.now) positions.now) }
{
    let mut gathered = Vec::with_capacity(alloc, positions.len())?;
    for position in positions {
        gathered.push_reserved(numbers[*position as usize]);
    }
    Ok(gathered)
}

/// The values at these positions, in their order. Fails only if out of memory.
pub fn gather_values(
    alloc: Global,
    positions: &[u32],
    values: &[Value],
) -> Result<Vec<Value>, AllocError>
    requires { ArePlaces (length values.now) positions.now }
    ensures { IfOk result (λ gathered. gathered.items ≡ map (value_at values.now) positions.now) }
{
    let mut gathered = Vec::with_capacity(alloc, positions.len())?;
    for position in positions {
        gathered.push_reserved(values[*position as usize]);
    }
    Ok(gathered)
}

/// The numbers of groups at these positions, in their order. Fails only if out of memory.
pub fn gather_numbers(
    alloc: Global,
    positions: &[u32],
    numbers: &[u32],
) -> Result<Vec<u32>, AllocError>
    requires { ArePlaces (length numbers.now) positions.now }
    ensures { IfOk result (λ gathered. gathered.items ≡ map (λ position. slice_index_or numbers.now position 0) positions.now) }
{
    let mut gathered = Vec::with_capacity(alloc, positions.len())?;
    for position in positions {
        gathered.push_reserved(numbers[*position as usize]);
    }
    Ok(gathered)
}
