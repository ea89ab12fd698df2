//! Adding a block's rows to the tallies of a plan, from columns of the rows.

ghost use Rattle.std.specs.Prelude.{◌≡◌, ℕ, ◌+◌, ◌^◌, ◌<◌, ◌++◌, List, length, map, IfOk, OnOk};
ghost use Rattle.std.specs.List.{filter, list_all};
ghost use Rattle.rows.specs.declared.value.Value.{Value as ColumnValue};
ghost use Rattle.queries.specs.declared.aggregate.Aggregate.{Aggregate as AnyAggregate};
ghost use Rattle.queries.specs.declared.column.Column.{Column as AnyColumn};
ghost use Rattle.queries.specs.Answers.{JoinedRow, meets};
ghost use Rattle.plans.specs.Inner.Picked.{ArePlaces};
ghost use Rattle.plans.specs.Inner.Cells.{value_at, values_at, HaveColumns, AreColumnsOf};
ghost use Rattle.plans.specs.Inner.Numbered.{AreNumbers, IsShaped, IsTallied};
ghost use Rattle.plans.specs.Inner.Selections.{columns_of, ValuesBy, AreHeldBy, AreTakenBy, HaveInputs, IsInputAt};
ghost use Rattle.plans.specs.Inner.Selections.{AreHeld, AreValuesOf, values_by};
ghost use Rattle.plans.specs.Inner.Held.{IsHeld};

use crate::cells::Cells;
use crate::held_input::HeldInput;
use crate::input::Input;
use crate::selecting::gather_numbers;
use crate::selection::select_rows;
use crate::tallies::Tallies;
use queries::{Aggregate, Plan};
use std::alloc::{AllocError, Global};

/// The places, among the columns of a block's rows, of the columns that a plan names: one for each
/// condition, and one for each aggregate, which is of no use for a count.
#[derive(Drop)]
pub struct Places {
    pub conditions: Vec<usize>,
    pub aggregates: Vec<usize>,
}

/// Adds to the tallies of a plan, which have at most `rows` rows, those of a block's rows that meet
/// its conditions. The block's rows have these columns, and groups of these numbers. Fails only if
/// out of memory, or of positions; nothing is then known of the tallies.
pub fn add_rows(
    alloc: Global,
    plan: &Plan,
    columns: &[Cells],
    places: &Places,
    numbers: &[u32],
    tallies: &mut Tallies,
    rows: usize,
) -> Result<(), AllocError>
    requires conditions { HaveColumns columns.now places.now.conditions.items (length numbers.now) }
    requires named { length places.now.conditions.items ≡ length plan.now.conditions }
    requires aggregates { HaveInputs columns.now places.now.aggregates.items (length numbers.now) plan.now.aggregates }
    requires places { ArePlaces (length tallies.old.counts.items) numbers.now }
    requires shaped { IsShaped (length tallies.old.counts.items) rows plan.now.aggregates tallies.old }
    requires few { rows + length numbers.now < 2 ^ 64 }
    ensures shaped { OnOk result (IsShaped (length tallies.old.counts.items) (rows + length numbers.now) plan.now.aggregates tallies.new) }
    ensures tallied { OnOk result ((keys : List (List ColumnValue)) (earlier more : List JoinedRow)
        → length more ≡ length numbers.now → AreColumnsOf columns.now places.now.conditions.items (columns_of plan.now.conditions) more
        → AreValuesOf (values_by columns.now places.now.aggregates.items) plan.now.aggregates more
        → AreNumbers keys plan.now.groups more numbers.now → IsTallied plan.now.groups plan.now.aggregates keys earlier tallies.old
        → IsTallied plan.now.groups plan.now.aggregates keys
        (earlier ++ filter (λ row. list_all (meets row) plan.now.conditions) more) tallies.new) }
{
    let aggregates = plan.aggregates.as_slice();
    let conditions = plan.conditions.as_slice();
    let inputs = places.aggregates.as_slice();
    if conditions.is_empty() {
        let held = held_of_all(alloc, aggregates, columns, inputs, numbers.len())?;
        add_held(alloc, aggregates, held.as_slice(), numbers, tallies, rows)?;
        return Ok(());
    }
    let positions = select_rows(
        alloc,
        conditions,
        columns,
        places.conditions.as_slice(),
        numbers.len(),
    )?;
    let held = held_of_some(
        alloc,
        aggregates,
        columns,
        inputs,
        positions.as_slice(),
        numbers.len(),
    )?;
    let selected = gather_numbers(alloc, positions.as_slice(), numbers)?;
    add_held(
        alloc,
        aggregates,
        held.as_slice(),
        selected.as_slice(),
        tallies,
        rows,
    )?;
    Ok(())
}

/// Adds rows with groups of these numbers to tallies, from what they contribute to each aggregate.
/// Fails only if out of memory, and then the tallies are unchanged.
fn add_held(
    alloc: Global,
    aggregates: &[Aggregate],
    held: &[HeldInput],
    numbers: &[u32],
    tallies: &mut Tallies,
    rows: usize,
) -> Result<(), AllocError>
    requires held { AreHeld aggregates.now (length numbers.now) held.now }
    requires places { ArePlaces (length tallies.old.counts.items) numbers.now }
    requires shaped { IsShaped (length tallies.old.counts.items) rows aggregates.now tallies.old }
    requires few { rows + length numbers.now < 2 ^ 64 }
    ensures shaped { OnOk result (IsShaped (length tallies.old.counts.items) (rows + length numbers.now) aggregates.now tallies.new) }
    ensures tallied { OnOk result ((values : ValuesBy) (columns : List AnyColumn) (keys : List (List ColumnValue))
        (earlier more : List JoinedRow)
        → AreHeldBy values aggregates.now held.now → AreValuesOf values aggregates.now more → AreNumbers keys columns more numbers.now
        → IsTallied columns aggregates.now keys earlier tallies.old → IsTallied columns aggregates.now keys (earlier ++ more) tallies.new) }
{
    let inputs = lent(alloc, held)?;
    tallies.add(aggregates, numbers, inputs.as_slice(), rows);
    Ok(())
}

/// What all rows contribute to each aggregate, from the columns at these places. Fails only if out
/// of memory.
fn held_of_all<'a>(
    alloc: Global,
    aggregates: &[Aggregate],
    columns: &'a [Cells],
    places: &[usize],
    count: usize,
) -> Result<Vec<HeldInput<'a>>, AllocError>
    requires { HaveInputs columns.now places.now count aggregates.now }
    ensures { IfOk result (λ held. AreHeldBy (values_by columns.now places.now) aggregates.now held.items) }
{
    let mut held = Vec::with_capacity(alloc, aggregates.len())?;
    for index in 0..aggregates.len() {
        let input = held_at(alloc, aggregates[index], columns, places[index], count)?;
        held.push(input)?;
    }
    Ok(held)
}

/// What the rows at these positions contribute to each aggregate. Fails only if out of memory.
fn held_of_some<'a>(
    alloc: Global,
    aggregates: &[Aggregate],
    columns: &'a [Cells],
    places: &[usize],
    positions: &[u32],
    count: usize,
) -> Result<Vec<HeldInput<'a>>, AllocError>
    requires columns { HaveInputs columns.now places.now count aggregates.now }
    requires positions { ArePlaces count positions.now }
    ensures { IfOk result (λ held. AreHeldBy
        (λ k. map (value_at (values_by columns.now places.now k)) positions.now) aggregates.now held.items) }
{
    let mut held = Vec::with_capacity(alloc, aggregates.len())?;
    for index in 0..aggregates.len() {
        let input = held_of(
            alloc,
            aggregates[index],
            columns,
            places[index],
            positions,
            count,
        )?;
        held.push(input)?;
    }
    Ok(held)
}

/// What all rows contribute to an aggregate, from the column at a place.
fn held_at<'a>(
    alloc: Global,
    aggregate: Aggregate,
    columns: &'a [Cells],
    place: usize,
    count: usize,
) -> Result<HeldInput<'a>, AllocError>
    requires { IsInputAt columns.now place count aggregate }
    ensures { IfOk result (λ held. IsHeld (values_at columns.now place) aggregate held) }
{
    let _ = count;
    match aggregate {
        Aggregate::Count => Ok(HeldInput::Rows),
        Aggregate::Sum(_) => HeldInput::of_cells(alloc, aggregate, &columns[place]),
        Aggregate::Min(_) => HeldInput::of_cells(alloc, aggregate, &columns[place]),
        Aggregate::Max(_) => HeldInput::of_cells(alloc, aggregate, &columns[place]),
    }
}

/// What the rows at these positions contribute to an aggregate, from the column at a place.
fn held_of<'a>(
    alloc: Global,
    aggregate: Aggregate,
    columns: &'a [Cells],
    place: usize,
    positions: &[u32],
    count: usize,
) -> Result<HeldInput<'a>, AllocError>
    requires column { IsInputAt columns.now place count aggregate }
    requires positions { ArePlaces count positions.now }
    ensures { IfOk result (λ held. IsHeld (map (value_at (values_at columns.now place)) positions.now) aggregate held) }
{
    let _ = count;
    match aggregate {
        Aggregate::Count => Ok(HeldInput::Rows),
        Aggregate::Sum(_) => HeldInput::of_rows(alloc, aggregate, &columns[place], positions),
        Aggregate::Min(_) => HeldInput::of_rows(alloc, aggregate, &columns[place], positions),
        Aggregate::Max(_) => HeldInput::of_rows(alloc, aggregate, &columns[place], positions),
    }
}

/// The same, lent. Fails only if out of memory.
fn lent<'a>(alloc: Global, held: &'a [HeldInput]) -> Result<Vec<Input<'a>>, AllocError>
    ensures { IfOk result (λ inputs. (values : ValuesBy) (aggregates : List AnyAggregate) → length held.now ≡ length aggregates
        → AreHeldBy values aggregates held.now → AreTakenBy values aggregates inputs.items) }
{
    let mut inputs = Vec::with_capacity(alloc, held.len())?;
    for input in held {
        inputs.push(input.lend())?;
    }
    Ok(inputs)
}
