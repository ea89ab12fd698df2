//! The journal: the text that keeps a list of commits, recovery of the commits after a crash, and
//! where journals are kept.
//!
//! A journal is a header and a record for each commit, numbered from 1. `recover` answers the kept
//! commits of bytes: those of the longest text that begins them. A crash may leave a torn record
//! after it, which is not kept; anything else after it is refused, with the reason. A journal of
//! version 1, which has no commit that adds a column, goes on as version 2 behind a mark (`Form`).
//! `JournalStore` is the interface to what keeps the bytes; `MemJournal` keeps them in memory, and
//! `FileJournal` in a file (`Disk`).
//!
//! Promised: `recover` is exact, except that it may run out of memory; a text determines its
//! commits; and the contracts of `JournalStore` specify what an honest store keeps after each
//! outcome of each call. A `FileJournal` is honest if its file is, and the bytes that it accounts for
//! were synced. That a real file is honest is not proved.
//!
//! Whether a commit is legal depends on no value: recovery keeps which rows are present after the
//! commits so far, and the kinds of the columns (`PresentRows`), and reads the bytes once. The crate
//! uses `rows`, whose entries it spells and reads. Its definitions are `specs/Text.antt`,
//! `Recovery.antt` and `Storing.antt`. If a call fails for lack of memory, its value is unchanged
//! unless the call says otherwise.
#![tactic(auto)]

mod disk;
mod faults;
mod file_journal;
mod form;
mod header;
mod id_slots;
mod journal_store;
pub mod laws;
mod mem_journal;
mod numbered_commit;
mod present_rows;
mod reading;
mod recovered;
mod recovery;
mod row_ids;
mod text;
mod worked;

pub use disk::Disk;
pub use faults::{FileFault, JournalFault, OpenFault};
pub use file_journal::FileJournal;
pub use form::Form;
pub use header::header_bytes;
pub use journal_store::JournalStore;
pub use mem_journal::MemJournal;
pub use recovered::Recovered;
pub use recovery::recover;
pub use text::records;
pub use worked::worked_journal;
