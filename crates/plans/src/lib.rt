//! Scans: what answers the queries of a batch on a store.
//!
//! `queries` defines a plan, which plans fit, and their plain answers; this crate computes them.
//! `specs/Partials.antt` defines what plans compute of a range of positions. `Inner` only helps
//! proofs.
//!
//! Promised: `answer_batch` gives the plain answer of each plan on the rows of any whole store, except
//! that it may run out of memory; `partial` gives what plans compute of a range of positions of their
//! tables, and `merge` makes of those of two ranges, one right behind the other, that of both. All
//! that `queries` has is found here too, by the same names.
//!
//! It uses `rows`, `store` and `queries`. Queries of a batch that are equal are answered once, and all
//! queries on a table share one scan of it. The store lends the table in pieces, and each piece is
//! scanned in a thread of its own if there can be one, block by block: of a block each column is taken
//! once for all queries that name it, and for all that join and group alike the rows' partners are found
//! once and the groups of the rows are numbered once; a query then selects rows, and adds them up by
//! these numbers. What is computed of the pieces is merged. If the store does not lend the rows, they are
//! read in rising order, one `id_at` a row for all queries on its table. If a call fails for lack of
//! memory, its value is unchanged unless the call says otherwise.
#![tactic(auto)]

mod adding;
mod answering;
mod block;
mod cells;
mod classes;
mod comparing;
mod distinct;
mod field_merging;
mod filled;
mod group_key;
mod groups;
mod growing;
mod held_input;
mod input;
mod joined_cells;
pub mod laws;
mod lending;
mod number_extremes;
mod numbering;
mod partials;
mod partners;
mod passing;
mod piecewise;
mod ranging;
mod row_numbers;
mod row_place;
mod scan;
mod selecting;
mod selection;
mod shared_rows;
mod tallies;
mod tallying;
mod together;

pub use answering::answer_batch;
pub use partials::{Partial, merge};
pub use queries::{
    Aggregate, AggregateList, Answer, Column, ColumnList, Comparison, Condition, ConditionList,
    Field, FieldList, Join, Plan, PlanFault, limits, report, worked_answers,
};
pub use ranging::partial;
