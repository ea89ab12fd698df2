//! Requests of several clients for queries, which a replica answers together as one batch.
//!
//! Each client has a place of a `Gathering`: it asks there, and waits for its answer. The thread that serves the replica takes
//! requests, in the order in which they came, has their queries answered as one batch, and hands each client the part of
//! the report that is of its own queries. So a request is asked for after it has come, and what comes while a batch is under
//! way goes into the next one. Beside them it has the tables as they were at the newest report.
//!
//! Promised: a report of the requests that were taken is shared out by how many queries each has, in their order. Requests are taken
//! in the order in which they came, each if there is room for its queries, and its place is noted beside how many these are. Not
//! promised, and tested from outside: that an answer comes, and which requests are taken together.
//!
//! It uses `requests` for queries, and `reports` for the parts of a report.
#![tactic(auto)]

mod answer;
mod gathered;
mod place;
mod request;
mod tables;
mod waiting;

pub use answer::Answer;
pub use gathered::Gathering;
pub use request::Request;
pub use tables::Tables;
