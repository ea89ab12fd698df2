//! Plans of queries.

use crate::aggregate_list::AggregateList;
use crate::checking::{plan_fault, plan_fault_on};
use crate::column_list::ColumnList;
use crate::condition_list::ConditionList;
use crate::faults::PlanFault;
use rows::Schema;
use store::Store;

/// A join: each row of a plan's table is joined with the row of another table whose identifier is
/// in a column of the plan's table. A row whose column is negative, or names no row, is left out.
#[derive(Clone, Copy, PartialEq, Eq)]
pub struct Join {
    /// The column of the plan's table, from 0. It is one of numbers.
    pub column: u8,
    /// The number of the table that is joined, from 0.
    pub table: u8,
}

/// A query: which rows of a table it selects, how it groups them, and what it computes for each
/// group.
#[derive(Clone, Drop)]
pub struct Plan {
    /// The number of the table, from 0.
    pub table: u8,
    pub join: Option<Join>,
    /// The conditions on a row, all of which it has to meet; at most 8.
    pub conditions: ConditionList,
    /// The columns by which rows are grouped, at most 2. Without any there is one group, even of no
    /// rows.
    pub groups: ColumnList,
    /// What is computed for each group, 1 to 8 aggregates.
    pub aggregates: AggregateList,
}

impl Plan {
    ghost use Rattle.std.specs.Prelude.{◌≡◌, true};
    ghost use Rattle.rows.specs.Shape.{shape_of};
    ghost use Rattle.rows.specs.Tables.{shape_in};
    ghost use Rattle.queries.specs.Checking.{checked};

    /// Whether the plan fits the schema. Otherwise the first fault: more than 8 conditions, 2
    /// columns to group by or 8 aggregates (`TooMany`); no aggregate (`NoAggregate`); the plan's
    /// table or its join's is not there (`NoTable`); and then, for the join, the conditions, the
    /// grouping and the aggregates in turn, a column that is not there (`NoColumn`), or one of the
    /// wrong kind (`WrongKind`). Takes no memory.
    pub fn check(&self, schema: &Schema) -> Result<(), PlanFault>
        ensures { result ≡ checked (shape_of schema.now) self.now }
    {
        match plan_fault(self, schema) {
            None => Ok(()),
            Some(fault) => Err(fault),
        }
    }

    /// Whether the plan fits the tables of a store; otherwise the first fault, in the order of
    /// `check`. Takes no memory if the store's `kinds` takes none.
    pub fn check_on<S: Store>(&self, store: &S) -> Result<(), PlanFault>
        requires { S.is_whole store.now ≡ true }
        ensures { result ≡ checked (shape_in (S.tables store.now)) self.now }
    {
        match plan_fault_on(self, store) {
            None => Ok(()),
            Some(fault) => Err(fault),
        }
    }
}
