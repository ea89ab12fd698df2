//! Queries as values: their plans, which plans fit, their plain answers, and the text of a report.
//!
//! A `Plan` names a table, and may join each of its rows with the row of another table that one of
//! its columns names. It selects the rows that meet all conditions, groups them, and computes for
//! each group what the plan asks: the number of rows, sums, least and greatest values.
//! `specs/Checking.antt` defines which plans fit tables, `Order.antt` how values are ordered,
//! `Answers.antt` the plain answer of a plan on tables, and `Report.antt` the text of answers.
//!
//! Promised: `Plan::check` and `Plan::check_on` answer the first fault, for a schema and for the
//! tables of a store; `report` is the text of answers.
//!
//! It uses `rows`, and `store` for the kinds of a store's columns; it scans nothing. What computes
//! answers is `plans`, so what only needs a plan as a value stands on this crate alone.
#![tactic(auto)]

mod aggregate;
mod aggregate_list;
mod answer;
mod checking;
mod column;
mod column_list;
mod condition;
mod condition_list;
mod faults;
mod field;
mod field_list;
pub mod laws;
pub mod limits;
mod plan;
mod reporting;
mod worked;

pub use aggregate::Aggregate;
pub use aggregate_list::AggregateList;
pub use answer::Answer;
pub use column::Column;
pub use column_list::ColumnList;
pub use condition::{Comparison, Condition};
pub use condition_list::ConditionList;
pub use faults::PlanFault;
pub use field::Field;
pub use field_list::FieldList;
pub use plan::{Join, Plan};
pub use reporting::report;
pub use worked::worked_answers;
