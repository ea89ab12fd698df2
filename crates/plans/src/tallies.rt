//! What is kept of a plan while its rows are read in blocks: numbers for each group, by the group's
//! number.
//!
//! The groups are numbered outside, by a list of their values (`keys`), each once; a row's number is
//! the place of its group's values there.

ghost use Rattle.std.specs.BTreeMap.{is_at};
ghost use Rattle.std.specs.Map.{lookup};
ghost use Rattle.std.specs.Ordering.{is_eq};
ghost use Rattle.std.specs.Prelude.{true, false, Some, if◌then◌else◌, ◌≡◌, ℕ, ◌+◌, ◌*◌, ◌^◌, ◌<◌};
ghost use Rattle.std.specs.Prelude.{◌≤◌, ◌++◌, [], ◌∷◌, length, map, List, IfOk, OnOk, slice_index_or};
ghost use Rattle.plans.specs.Inner.Picked.{ArePlaces, picked, folded};
ghost use Rattle.rows.specs.declared.value.Value.{Value as ColumnValue};
ghost use Rattle.queries.specs.declared.column.Column.{Column as AnyColumn};
ghost use Rattle.queries.specs.declared.field.Field.{Field as AnyField};
ghost use Rattle.plans.specs.declared.tallies.Tally.{Tally as AnyTally};
ghost use Rattle.queries.specs.declared.aggregate.Aggregate.{Aggregate as AnyAggregate};
ghost use Rattle.plans.specs.declared.input.Input.{Input as AnyInput};
ghost use Rattle.queries.specs.Order.{group_cmp};
ghost use Rattle.queries.specs.Answers.{JoinedRow};
ghost use Rattle.plans.specs.Inner.Kept.{GroupsAreKept};
ghost use Rattle.plans.specs.Inner.Numbered.{AreNumbers, AreDistinct, AreInputs, AreInputsOf, IsTallied, IsShaped, IsColumn, IsInputOf};
ghost use Rattle.plans.specs.Inner.Numbered.{IsGrown, IsResized, IsTold, with_extreme, field_at, is_told};

use crate::comparing::{greater, lesser};
use crate::group_key::GroupKey;
use crate::groups::Groups;
use crate::input::Input;
use crate::number_extremes::add_number_extremes;
use crate::tallying::{add_counts, add_sums};
use queries::{Aggregate, Column, Field, FieldList, Plan};
use rows::Value;
use std::alloc::{AllocError, Global};

/// What is kept of one aggregate, a place for each number.
#[derive(Drop)]
pub enum Tally {
    /// Nothing: the rows are counted once for all aggregates.
    Count,
    Sums(Vec<i128>),
    /// Least or greatest values.
    Fields(Vec<Field>),
}

/// What is kept of a plan: how many rows each number has, and a tally for each aggregate.
#[derive(Drop)]
pub struct Tallies {
    counts: Vec<u64>,
    columns: Vec<Tally>,
}

impl Tallies {
    /// The tallies of no rows, and of no keys yet. Fails only if out of memory.
    pub fn new(alloc: Global, aggregates: &[Aggregate]) -> Result<Tallies, AllocError>
        ensures shaped { IfOk result (λ tallies. IsShaped 0 0 aggregates.now tallies) }
        ensures tallied { IfOk result (λ tallies. (columns : List AnyColumn) → IsTallied columns aggregates.now [] [] tallies) }
    {
        let mut columns = Vec::with_capacity(alloc, aggregates.len())?;
        for aggregate in aggregates {
            columns.push(empty_tally(alloc, *aggregate))?;
        }
        Ok(Tallies {
            counts: Vec::new(alloc),
            columns,
        })
    }

    /// Makes places for that many keys, which begin with the ones so far; the new ones have no rows.
    /// Fails only if out of memory; nothing is then known of the tallies.
    pub fn grow(&mut self, keys: usize) -> Result<(), AllocError>
        requires { length self.old.counts.items ≤ keys }
        ensures shaped { OnOk result ((aggregates : List AnyAggregate) (count : ℕ)
            → IsShaped (length self.old.counts.items) count aggregates self.old → IsShaped keys count aggregates self.new) }
        ensures tallied { OnOk result ((columns : List AnyColumn) (aggregates : List AnyAggregate) (before more : List (List ColumnValue))
            (rows : List JoinedRow) (count : ℕ) → length (before ++ more) ≡ keys → AreDistinct (before ++ more)
            → IsShaped (length self.old.counts.items) count aggregates self.old
            → IsTallied columns aggregates before rows self.old → IsTallied columns aggregates (before ++ more) rows self.new) }
    {
        self.counts.resize(keys, 0)?;
        grow_columns(self.columns.as_mut_slice(), keys)?;
        Ok(())
    }

    /// Adds the rows of a block to at most so many earlier ones: their numbers, and for each aggregate
    /// what they contribute to it. Takes no memory.
    pub fn add(&mut self, aggregates: &[Aggregate], numbers: &[u32], inputs: &[Input], rows: usize)
        requires places { ArePlaces (length self.old.counts.items) numbers.now }
        requires shaped { IsShaped (length self.old.counts.items) rows aggregates.now self.old }
        requires inputs { AreInputsOf (length numbers.now) aggregates.now inputs.now }
        requires few { rows + length numbers.now < 2 ^ 64 }
        ensures shaped { IsShaped (length self.old.counts.items) (rows + length numbers.now) aggregates.now self.new }
        ensures tallied { (columns : List AnyColumn) (keys : List (List ColumnValue)) (rows more : List JoinedRow)
            → IsTallied columns aggregates.now keys rows self.old → AreNumbers keys columns more numbers.now
            → AreInputs more aggregates.now inputs.now → IsTallied columns aggregates.now keys (rows ++ more) self.new }
    {
        let places = self.counts.len();
        add_counts(self.counts.as_mut_slice(), numbers, rows);
        add_columns(
            self.columns.as_mut_slice(),
            aggregates,
            numbers,
            inputs,
            rows,
            places,
        );
    }

    /// The groups of a plan, from the keys: those that have rows, and the one group of a plan that does
    /// not group. Fails only if out of memory.
    pub fn groups(
        &self,
        alloc: Global,
        plan: &Plan,
        keys: &[GroupKey],
    ) -> Result<Groups, AllocError>
        requires { plan.now.groups ≡ [] → keys.now ≡ [] ∷ [] }
        ensures { IfOk result (λ groups. (rows : List JoinedRow) (count : ℕ)
            → IsShaped (length keys.now) count plan.now.aggregates self.now
            → IsTallied plan.now.groups plan.now.aggregates keys.now rows self.now → GroupsAreKept plan.now rows count groups) }
    {
        let mut groups = Groups::empty(alloc);
        for number in 0..keys.len() {
            self.put_group(alloc, plan, &keys[number], number, &mut groups)?;
        }
        Ok(groups)
    }

    /// Puts the group of a key if it is one. Fails only if out of memory; nothing is then known of the
    /// groups.
    fn put_group(
        &self,
        alloc: Global,
        plan: &Plan,
        key: &GroupKey,
        number: usize,
        groups: &mut Groups,
    ) -> Result<(), AllocError>
        ensures told { OnOk result (is_told plan.now.groups (slice_index_or self.now.counts.items number 0) ≡ true
            → (group : List ColumnValue) → lookup (is_at (group_cmp group)) groups.new
            ≡ (if is_eq (group_cmp key.now group)
            then Some (map (field_at (slice_index_or self.now.counts.items number 0) number) self.now.columns.items)
            else lookup (is_at (group_cmp group)) groups.old)) }
        ensures other { OnOk result (is_told plan.now.groups (slice_index_or self.now.counts.items number 0) ≡ false
            → groups.new ≡ groups.old) }
    {
        let count = self.count(number);
        if !is_told(plan.groups.as_slice(), count) {
            return Ok(());
        }
        let fields = self.fields(alloc, count, number)?;
        groups.put(copy_of(alloc, key)?, fields)
    }

    /// How many rows a number has; 0 if it has no place.
    fn count(&self, number: usize) -> u64
        ensures { result ≡ slice_index_or self.now.counts.items number 0 }
    {
        match self.counts.get(number) {
            Some(count) => *count,
            None => 0,
        }
    }

    /// The aggregates of a number with so many rows. Fails only if out of memory.
    fn fields(&self, alloc: Global, count: u64, number: usize) -> Result<FieldList, AllocError>
        ensures { IfOk result (λ fields. fields ≡ map (field_at count number) self.now.columns.items) }
    {
        fields_at(alloc, self.columns.as_slice(), count, number)
    }
}

/// The aggregates of a number with so many rows, from the tallies. Fails only if out of memory.
fn fields_at(
    alloc: Global,
    columns: &[Tally],
    count: u64,
    number: usize,
) -> Result<FieldList, AllocError>
    ensures { IfOk result (λ fields. fields ≡ map (field_at count number) columns.now) }
{
    let fields = columns
        .iter()
        .map(|tally| field_at(count, number, tally))
        .collect(alloc)?;
    Ok(FieldList::from_vec(fields))
}

/// What is kept of an aggregate without any key.
fn empty_tally(alloc: Global, aggregate: Aggregate) -> Tally
    ensures shaped { IsColumn 0 0 aggregate result }
    ensures told { (columns : List AnyColumn) → IsTold columns [] [] aggregate result }
{
    match aggregate {
        Aggregate::Count => Tally::Count,
        Aggregate::Sum(_) => Tally::Sums(Vec::new(alloc)),
        Aggregate::Min(_) => Tally::Fields(Vec::new(alloc)),
        Aggregate::Max(_) => Tally::Fields(Vec::new(alloc)),
    }
}

/// Makes places for that many keys. Fails only if out of memory; nothing is then known of the
/// tallies.
fn grow_columns(columns: &mut [Tally], keys: usize) -> Result<(), AllocError>
    ensures sizes { length columns.new ≡ length columns.old }
    ensures grown { OnOk result ((k : ℕ) (t : AnyTally) → k < length columns.old
        → IsResized keys (slice_index_or columns.old k t) (slice_index_or columns.new k t)) }
{
    for index in 0..columns.len() {
        grow_tally(&mut columns[index], keys)?;
    }
    Ok(())
}

/// Makes places for that many keys. Fails only if out of memory; nothing is then known of the tally.
fn grow_tally(tally: &mut Tally, keys: usize) -> Result<(), AllocError>
    ensures { OnOk result (IsResized keys tally.old tally.new) }
{
    match tally {
        Tally::Count => Ok(()),
        Tally::Sums(sums) => sums.resize(keys, 0),
        Tally::Fields(fields) => fields.resize(keys, Field::Absent),
    }
}

/// Adds the rows of a block to the tallies of all aggregates.
fn add_columns(
    columns: &mut [Tally],
    aggregates: &[Aggregate],
    numbers: &[u32],
    inputs: &[Input],
    rows: usize,
    places: usize,
)
    requires sizes { length columns.old ≡ length aggregates.now }
    requires places { ArePlaces places numbers.now }
    requires shaped { (k : ℕ) (d : AnyAggregate) (t : AnyTally) → k < length aggregates.now
        → IsColumn places rows (slice_index_or aggregates.now k d) (slice_index_or columns.old k t) }
    requires inputs { AreInputsOf (length numbers.now) aggregates.now inputs.now }
    requires few { rows + length numbers.now < 2 ^ 64 }
    ensures sizes { length columns.new ≡ length aggregates.now }
    ensures shaped { (k : ℕ) (d : AnyAggregate) (t : AnyTally) → k < length aggregates.now
        → IsColumn places (rows + length numbers.now) (slice_index_or aggregates.now k d) (slice_index_or columns.new k t) }
    ensures grown { (k : ℕ) (d : AnyAggregate) (e : AnyInput) (t : AnyTally) → k < length aggregates.now
        → IsGrown numbers.now (slice_index_or aggregates.now k d) (slice_index_or inputs.now k e) (slice_index_or columns.old k t)
        (slice_index_or columns.new k t) }
{
    for index in 0..aggregates.len() {
        add_tally(
            &mut columns[index],
            aggregates[index],
            numbers,
            &inputs[index],
            rows,
            places,
        );
    }
}

/// Adds the rows of a block to the tally of one aggregate.
fn add_tally(
    tally: &mut Tally,
    aggregate: Aggregate,
    numbers: &[u32],
    input: &Input,
    rows: usize,
    places: usize,
)
    requires places { ArePlaces places numbers.now }
    requires shaped { IsColumn places rows aggregate tally.old }
    requires input { IsInputOf (length numbers.now) aggregate input.now }
    requires few { rows + length numbers.now < 2 ^ 64 }
    ensures shaped { IsColumn places (rows + length numbers.now) aggregate tally.new }
    ensures grown { IsGrown numbers.now aggregate input.now tally.old tally.new }
{
    let _ = places;
    match tally {
        Tally::Count => {}
        Tally::Sums(sums) => {
            if let Input::Numbers(values) = *input {
                add_sums(sums.as_mut_slice(), numbers, values, rows);
            }
        }
        Tally::Fields(fields) => match *input {
            Input::Rows => {}
            Input::Numbers(values) => {
                add_number_extremes(fields.as_mut_slice(), aggregate, numbers, values);
            }
            Input::Values(values) => {
                add_extremes(fields.as_mut_slice(), aggregate, numbers, values);
            }
        },
    }
}

/// Puts the least or the greatest value of the rows of its group in place of each value that it is
/// better than, or of none.
fn add_extremes(fields: &mut [Field], aggregate: Aggregate, numbers: &[u32], values: &[Value])
    requires same { length numbers.now ≡ length values.now }
    requires places { ArePlaces (length fields.old) numbers.now }
    ensures sizes { length fields.new ≡ length fields.old }
    ensures fields { (n : ℕ) (d : AnyField) → n < length fields.old
        → slice_index_or fields.new n d
        ≡ folded (with_extreme aggregate) (slice_index_or fields.old n d) (picked n numbers.now values.now) }
{
    for i in 0..numbers.len() {
        let place = numbers[i] as usize;
        fields[place] = with_extreme(aggregate, fields[place], values[i]);
    }
}

/// The least or the greatest value, with one value more.
fn with_extreme(aggregate: Aggregate, field: Field, value: Value) -> Field
    ensures { result ≡ with_extreme aggregate field value }
{
    match aggregate {
        Aggregate::Count => field,
        Aggregate::Sum(_) => field,
        Aggregate::Min(_) => match field {
            Field::Stored(least) => Field::Stored(lesser(least, value)),
            Field::Number(_) | Field::Absent => Field::Stored(value),
        },
        Aggregate::Max(_) => match field {
            Field::Stored(greatest) => Field::Stored(greater(greatest, value)),
            Field::Number(_) | Field::Absent => Field::Stored(value),
        },
    }
}

/// Whether a number with so many rows is a group of a plan that groups by these columns.
fn is_told(columns: &[Column], count: u64) -> bool
    ensures { result ≡ is_told columns.now count }
{
    columns.is_empty() || count > 0
}

/// An aggregate of a number with so many rows; that of no rows if it has no place.
fn field_at(count: u64, number: usize, tally: &Tally) -> Field
    ensures { result ≡ field_at count number tally.now }
{
    match tally {
        Tally::Count => Field::Number(i128::from(count)),
        Tally::Sums(sums) => match sums.get(number) {
            Some(sum) => Field::Number(*sum),
            None => Field::Number(0),
        },
        Tally::Fields(fields) => match fields.get(number) {
            Some(field) => *field,
            None => Field::Absent,
        },
    }
}

/// A key of the same values. Fails only if out of memory.
fn copy_of(alloc: Global, key: &GroupKey) -> Result<GroupKey, AllocError>
    ensures { IfOk result (λ copy. copy ≡ key.now) }
{
    Ok(GroupKey::from_vec(Vec::from_slice(alloc, key.as_slice())?))
}
