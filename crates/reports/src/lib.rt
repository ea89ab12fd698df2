//! The text of a report, split into the reports of some of its queries, and the same report as JSON.
//!
//! Queries of several clients are answered as one batch, whose report `queries` writes. Each client
//! is to read the report of its own queries, as if it had asked for them alone: `part_of` gives it,
//! and `parts_of` those of all clients.
//! `json_of` writes a report for readers that take JSON.
//!
//! Promised: of each text that is a report by `queries`' `specs/Report.antt`, whatever its version
//! and answers, `part_of` gives the report of the answers that were asked for, at the same version
//! and numbered from 0, `parts_of` one after the other (`specs/Parts.antt`), and `json_of` the text of
//! `specs/Json.antt`; all fail only for lack of memory. Review these three files. `Inner` only helps proofs.
//!
//! It uses `rows` to write numbers, and of `queries` the definition of a report. Each call reads a
//! report from front to back.
#![tactic(auto)]

mod faults;
mod json;
mod parting;
mod reading;

pub use faults::PartFault;
pub use json::json_of;
pub use parting::{part_of, parts_of};
