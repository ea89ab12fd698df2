//! The places of a plan's rows in a store, and the values of their columns.

ghost use Rattle.std.specs.Prelude.{◌≡◌, true, IsSome};
ghost use Rattle.queries.specs.Answers.{column_in, joined_value};
ghost use Rattle.plans.specs.Inner.Places.{row_at_place};

use queries::Column;
use rows::Value;
use store::Store;

/// The place of a row of a plan's table, and that of the row that it is joined with.
#[derive(Clone, Copy)]
pub struct RowPlace<P: Copy> {
    /// The plan's table.
    pub table: u8,
    pub place: P,
    /// The table and the place of the row that it is joined with, if the plan joins one.
    pub joined: Option<(u8, P)>,
}

/// The value of a column of a row, read in place.
pub fn joined_value<S: Store>(store: &S, row: &RowPlace<S::Place>, column: Column) -> Value
    requires whole { S.is_whole store.now ≡ true }
    requires there { IsSome (column_in (row_at_place (S.values_at store.now) row.now) column) }
    ensures { result ≡ joined_value (row_at_place (S.values_at store.now) row.now) column }
{
    match column {
        Column::Own(column) => store.value(row.table, row.place, column as usize),
        Column::Joined(column) => match row.joined {
            Some((table, place)) => store.value(table, place, column as usize),
            None => unreachable!(),
        },
    }
}
