//! The numbers of rows' groups, by columns of their values.

ghost use Rattle.std.specs.Prelude.{◌≡◌, ◌<◌, List, [], ◌∷◌, length, map, IfOk, OnOk};
ghost use Rattle.rows.specs.declared.value.Value.TheVariants.{Int};
ghost use Rattle.queries.specs.declared.column.Column.{Column as AnyColumn};
ghost use Rattle.queries.specs.Answers.{JoinedRow};
ghost use Rattle.plans.specs.Inner.Blocks.{IsNumbering, Extends, StaysIfKnown};
ghost use Rattle.plans.specs.Inner.Cells.{value_at, key_at, HaveColumns, AreColumnsOf, AreKeyed};
ghost use Rattle.plans.specs.Inner.Numbered.{AreNumbers};

use crate::cells::Cells;
use crate::group_key::GroupKey;
use crate::numbering::Numbering;
use rows::Value;
use std::alloc::{AllocError, Global};

/// The numbers of the groups of so many rows. Their keys are their values in the columns at these
/// places. Fails only if out of memory, or of numbers; nothing is then known of the numbering.
pub fn number_rows(
    alloc: Global,
    numbering: &mut Numbering,
    columns: &[Cells],
    places: &[usize],
    count: usize,
) -> Result<Vec<u32>, AllocError>
    requires numbering { IsNumbering numbering.old }
    requires columns { HaveColumns columns.now places.now count }
    ensures numbering { OnOk result (IsNumbering numbering.new) }
    ensures extends { OnOk result (Extends numbering.old.keys.items numbering.new.keys.items) }
    ensures stays { OnOk result (places.now ≡ [] → StaysIfKnown [] numbering.old.keys.items numbering.new.keys.items) }
    ensures numbers { IfOk result (λ numbers. (named : List AnyColumn) (rows : List JoinedRow) → length rows ≡ count
        → AreColumnsOf columns.now places.now named rows → AreNumbers numbering.new.keys.items named rows numbers.items) }
{
    let numbers = keyed_rows(alloc, numbering, columns, places, count)?;
    Ok(numbers)
}

/// The same, by the keys.
fn keyed_rows(
    alloc: Global,
    numbering: &mut Numbering,
    columns: &[Cells],
    places: &[usize],
    count: usize,
) -> Result<Vec<u32>, AllocError>
    requires numbering { IsNumbering numbering.old }
    requires columns { HaveColumns columns.now places.now count }
    ensures numbering { OnOk result (IsNumbering numbering.new) }
    ensures extends { OnOk result (Extends numbering.old.keys.items numbering.new.keys.items) }
    ensures stays { OnOk result (places.now ≡ [] → StaysIfKnown [] numbering.old.keys.items numbering.new.keys.items) }
    ensures numbers { IfOk result (λ numbers. AreKeyed numbering.new.keys.items (key_at columns.now places.now) count numbers.items) }
{
    if places.is_empty() {
        return number_alike(alloc, numbering, count);
    }
    if places.len() == 1 {
        if let Some(numbers) = columns[places[0]].numbers() {
            return number_singles(alloc, numbering, numbers);
        }
    }
    number_lists(alloc, numbering, columns, places, count)
}

/// The number of the group without values, so many times.
fn number_alike(
    alloc: Global,
    numbering: &mut Numbering,
    count: usize,
) -> Result<Vec<u32>, AllocError>
    requires numbering { IsNumbering numbering.old }
    ensures numbering { OnOk result (IsNumbering numbering.new) }
    ensures extends { OnOk result (Extends numbering.old.keys.items numbering.new.keys.items) }
    ensures stays { OnOk result (StaysIfKnown [] numbering.old.keys.items numbering.new.keys.items) }
    ensures numbers { IfOk result (λ numbers. AreKeyed numbering.new.keys.items (λ i. []) count numbers.items) }
{
    let number = numbering.number(alloc, GroupKey::from_vec(Vec::new(alloc)))?;
    let mut numbers = Vec::new(alloc);
    numbers.resize(count, number)?;
    Ok(numbers)
}

/// The numbers of groups of one number each.
fn number_singles(
    alloc: Global,
    numbering: &mut Numbering,
    values: &[i64],
) -> Result<Vec<u32>, AllocError>
    requires numbering { IsNumbering numbering.old }
    ensures numbering { OnOk result (IsNumbering numbering.new) }
    ensures extends { OnOk result (Extends numbering.old.keys.items numbering.new.keys.items) }
    ensures numbers { IfOk result (λ numbers. AreKeyed numbering.new.keys.items (λ i. value_at (map Int values.now) i ∷ [])
        (length values.now) numbers.items) }
{
    let mut numbers = Vec::with_capacity(alloc, values.len())?;
    for value in values {
        let number = numbering.number_single(alloc, *value)?;
        numbers.push(number)?;
    }
    Ok(numbers)
}

/// The numbers of groups of any values.
fn number_lists(
    alloc: Global,
    numbering: &mut Numbering,
    columns: &[Cells],
    places: &[usize],
    count: usize,
) -> Result<Vec<u32>, AllocError>
    requires numbering { IsNumbering numbering.old }
    requires columns { HaveColumns columns.now places.now count }
    ensures numbering { OnOk result (IsNumbering numbering.new) }
    ensures extends { OnOk result (Extends numbering.old.keys.items numbering.new.keys.items) }
    ensures numbers { IfOk result (λ numbers. AreKeyed numbering.new.keys.items (key_at columns.now places.now) count numbers.items) }
{
    let mut numbers = Vec::with_capacity(alloc, count)?;
    let mut key = GroupKey::from_vec(Vec::with_capacity(alloc, places.len())?);
    for row in 0..count {
        fill_key(&mut key, columns, places, row, count)?;
        let number = numbering.number_of(alloc, &key)?;
        numbers.push(number)?;
    }
    Ok(numbers)
}

/// Makes the key that of a row. Fails only if out of memory; nothing is then known of the key.
fn fill_key(
    key: &mut GroupKey,
    columns: &[Cells],
    places: &[usize],
    row: usize,
    count: usize,
) -> Result<(), AllocError>
    requires columns { HaveColumns columns.now places.now count }
    requires row { row < count }
    ensures { OnOk result (key.new ≡ key_at columns.now places.now row) }
{
    let _ = count;
    key.clear();
    for place in places {
        key.push(columns[*place].value(row))?;
    }
    Ok(())
}
