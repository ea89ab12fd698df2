//! Which rows of a block a plan selects, from columns of the rows.

ghost use Rattle.std.specs.Prelude.{◌≡◌, ◌≤◌, List, length, map, IfOk};
ghost use Rattle.std.specs.List.{filter, list_all};
ghost use Rattle.queries.specs.Answers.{JoinedRow, meets};
ghost use Rattle.plans.specs.Inner.Picked.{ArePlaces};
ghost use Rattle.plans.specs.Inner.Cells.{HaveColumns, AreColumnsOf};
ghost use Rattle.plans.specs.Inner.Selections.{joined_at, columns_of};

use crate::cells::Cells;
use crate::passing::{select_cells, select_first};
use crate::selecting::all_positions;
use queries::Condition;
use std::alloc::{AllocError, Global};

/// The positions of the rows that meet all conditions, of so many rows; the columns at these places
/// are those that the conditions name. Fails only if out of memory, or of positions.
pub fn select_rows(
    alloc: Global,
    conditions: &[Condition],
    columns: &[Cells],
    places: &[usize],
    count: usize,
) -> Result<Vec<u32>, AllocError>
    requires columns { HaveColumns columns.now places.now count }
    requires named { length places.now ≡ length conditions.now }
    ensures places { IfOk result (λ positions. ArePlaces count positions.items) }
    ensures few { IfOk result (λ positions. length positions.items ≤ count) }
    ensures rows { IfOk result (λ positions. (rows : List JoinedRow) → length rows ≡ count
        → AreColumnsOf columns.now places.now (columns_of conditions.now) rows
        → map (joined_at rows) positions.items ≡ filter (λ row. list_all (meets row) conditions.now) rows) }
{
    if conditions.is_empty() {
        return all_positions(alloc, count);
    }
    let mut positions = select_first(alloc, &columns[places[0]], &conditions[0])?;
    for index in 1..conditions.len() {
        let selected = select_cells(
            alloc,
            &columns[places[index]],
            &conditions[index],
            positions.as_slice(),
        )?;
        positions = selected;
    }
    Ok(positions)
}
