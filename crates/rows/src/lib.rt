//! Schemas, values, rows, entries and commits: the vocabulary of every other crate.
//!
//! A schema is the list of its tables, each with its name and the kinds of its columns. An entry is
//! one physical change of one row, or a column more in a table; a commit is the entries of one
//! transaction. The definitions are in `specs/`: what an entry does to the tables (`Tables.antt`),
//! which lists of commits are legal (`Commits.antt`), the one spelling of an entry
//! (`Spelling.antt`), the entries that rebuild tables (`Image.antt`), and how values and lines of
//! words are written (`Text.antt`).
//!
//! Promised: `fits` decides exactly which entries fit a schema; `write_entry` writes an entry's
//! spelling, `read_entry` reads it, and `read_entries` reads entries that fill bytes; `row_values`
//! and `row_bytes` convert between a row's two forms; `append_value` appends a value's text.
//!
//! It uses `byteorder` for numbers as bytes, `itoa` for decimal numbers, and `indexmap` for tables
//! by name. If a call fails for lack of memory, its value is unchanged unless the call says
//! otherwise.
#![tactic(auto)]

mod byte_list;
mod codes;
mod commit;
mod entry;
mod entry_list;
mod entry_ref;
mod faults;
mod filling;
mod fitting;
mod kind;
mod kind_list;
pub mod laws;
pub mod limits;
mod octets;
mod reading;
mod row;
mod row_id;
mod row_presence;
mod schema;
mod text;
mod value;
mod worked;
mod writing;

pub use byte_list::ByteList;
pub use commit::Commit;
pub use entry::Entry;
pub use entry_list::EntryList;
pub use entry_ref::EntryRef;
pub use faults::{EntryFault, SchemaFault};
pub use filling::{ENTRY_LEN_MIN, entries_fill, entries_have_table, read_entries};
pub use fitting::{fits, fits_columns, fits_table};
pub use kind::Kind;
pub use kind_list::KindList;
pub use octets::Octets;
pub use reading::read_entry;
pub use row::{Row, first_value, row_bytes, row_values};
pub use row_id::RowId;
pub use row_presence::is_there_after;
pub use schema::{Schema, column_at, width_of_row};
pub use text::{append_hex, append_number, append_value};
pub use value::Value;
pub use writing::{entry_len, write_entry};
