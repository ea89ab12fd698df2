//! Versions: every state of the database since it was empty, and transactions that read one.
//!
//! `Versions` is the list of commits. Version `n` is the rows after the first `n` of them. For each
//! row a chain keeps the versions that wrote it, with the row's bytes after each, so a row's values
//! at a version are found by a look-up and a binary search. For each table it keeps the kinds of its
//! columns and the commits that added the later ones: the kinds at a version are the first of them.
//! A row keeps the bytes with which it was last written, and behind them stand those of its table's
//! blank row, which has the values of the added columns.
//!
//! A `Transaction` reads one version, changed by its own entries in the order of its calls. For
//! each row that it writes, an index has those of its entries that still matter; once it has added a
//! column, it goes over all of them.
//!
//! Promised: a value at a version is that of the tables after so many commits, and the image of a
//! version is that of these tables; the newest version of a row is the last commit that wrote it or
//! added a column to its table; a commit is absorbed wholly or not at all; each call of a transaction
//! answers what `specs/Transactions.antt` specifies for what the transaction sees.
//!
//! It uses only `rows`. If a call fails for lack of memory, its value is unchanged unless the call
//! says otherwise.
#![tactic(auto)]

mod bytes_after;
mod cells;
mod chain;
mod chains;
mod columns;
mod defining;
mod faults;
mod image;
mod image_place;
mod kept_bytes;
mod kind_buffer;
mod last_commits;
mod laws;
mod link;
mod own_rows;
mod rows_told;
mod transaction;
mod values;
mod versions;

pub use faults::TxFault;
pub use image_place::ImagePlace;
pub use transaction::Transaction;
pub use versions::Versions;
