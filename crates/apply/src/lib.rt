//! Rows as columns: one list of values for each column, beside the rows' identifiers.
//!
//! A `ColumnStore` keeps the rows of a schema's tables in 1 to 64 partitions, by the remainder of
//! their identifiers. A partition has a `Piece` for each table: its rows in blocks of about a
//! thousand at most, so that inserting or deleting a row moves only the values of its block. A full
//! block is cut in two: after its last row or before its first if rows arrive in order, otherwise
//! in half. A `Block` has the identifiers of its rows, in rising order, and a column for each
//! column of the table. A column is `Cells`: numbers of 64 bits side by side, or bytes of one width
//! side by side. An entry that adds a column adds it in all partitions, or in none.
//!
//! Promised: a store of columns is a `store::ApplyStore`, and its answers do not depend on the
//! number of its partitions; `apply_all` applies the commits to its tables, in threads if there are
//! many entries, or breaks the store. It lends its rows in as many pieces as there are partitions:
//! `ids_from` lends the identifiers of a block's rows from one on, `column_from` the values of one
//! of their columns, numbers or bytes side by side, as they are stored. Lending copies nothing.
//! Contracts see a piece and a block as a table of `rows`, and each change does to it what the
//! definitions there specify, or leaves it unchanged if out of memory. Not promised: that the
//! partitions of a store change at once. The definitions to review are `specs/Partitions.antt`,
//! `specs/Columns.antt` and `specs/Blocks.antt`.
//!
//! It uses `rows` and `store`, `byteorder` for numbers in a row's bytes, and `rayon` for threads.
//! If a call fails for lack of memory, its value is unchanged unless the call says otherwise.
#![tactic(auto)]

mod adding;
mod block;
mod cells;
mod column_store;
mod edits;
mod laws;
mod limits;
mod own;
mod partition;
mod partitions;
mod piece;
mod sequence;
mod spot;
mod starter;
mod together;
mod widening;

pub use block::Block;
pub use cells::Cells;
pub use column_store::ColumnStore;
pub use limits::{PARTITIONS, PARTITIONS_MAX};
pub use piece::Piece;
pub use spot::Spot;
