//! Stores: where the rows of a database are kept, and how changes are applied to them.
//!
//! A store is a map from a table and a row to the row's values. `Store` is the interface to all of
//! them: it finds rows, reads columns, lends the kinds of a table's columns, counts and lists its
//! rows, and applies one change. `run` applies a list of changes up to the first that is refused,
//! `run_commits` those of commits, and `ApplyStore` adds the lists of commits that a replica
//! applies, and `clear`, after which a store is as it was when it was made. `PlainStore` keeps each
//! table's rows in an ordered map and their identifiers in a list, beside the kinds of its columns.
//! What an entry changes is said once, in `change_tables`, for whatever keeps the rows of one table
//! (`TableRows`).
//!
//! Promised of every store while it is whole: what it finds, reads, counts and lists agrees with
//! one list of tables, in which each row has a value of each column's kind. A change does to these
//! tables what its definition specifies, or leaves them unchanged. A store that could not apply a
//! list of commits is never whole again.
//!
//! It uses `rows`, whose definitions its contracts rest on; its own are few (`specs/Changes.antt`).
//! If a call fails for lack of memory, its value is unchanged unless the call says otherwise.
#![tactic(auto)]

mod apply_store;
mod changing;
mod faults;
mod laws;
mod lent;
mod plain_store;
mod running;
mod store;
mod table_map;
mod table_rows;

pub use apply_store::ApplyStore;
pub use changing::{change_tables, clear_tables, empty_tables};
pub use faults::{ApplyFault, StoreFault};
pub use laws::{first_columns_stay, rows_stand_in_order};
pub use lent::Lent;
pub use plain_store::PlainStore;
pub use running::{run, run_commits};
pub use store::Store;
pub use table_rows::TableRows;
