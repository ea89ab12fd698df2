//! Nodes with their threads and streams: a primary that does jobs and serves its replicas, and a replica that answers
//! batches of queries.
//!
//! A `Primary` has a seat of a line for each of its threads. It does jobs that were read before (`Primary::run` with
//! jobs), or takes them from a reader while it serves. A `Follower` answers batches that were read before, or takes them
//! from a reader in a thread of its own; the queries go through a query queue, and the end of each batch beside it.
//! An `Ending` is how the threads of a node end together.
//!
//! Promised: the line of a job's answer is written only for an answer that `sockets` gives of just that job
//! (`answers::push_answer`): so `job J ticket N` is written only where the commit numbered N stands in the durable list
//! that the worker's seat has seen, with the job's worker and the entries that its steps make, each condition having held
//! in its view. The tables that are noted for a replica's clients are those of its store at the version that is noted with
//! them (`tables::tables_of`). Not promised, and tested from outside: what is said on standard error, when a node asks and
//! ends, and that a line is written.
//!
//! It uses `sockets` for nodes and jobs, and `requests` for the lines of the input. The definitions to review are
//! `specs/Lines.antt`.
#![tactic(auto)]

mod answers;
mod bases;
mod batches;
mod clients;
mod crew_jobs;
mod ending;
mod faults;
mod follower;
mod host;
mod job_primary;
mod job_progress;
mod lane;
mod live;
mod long_work;
mod looking;
mod pace;
mod printing;
mod progress;
mod replica;
mod saying;
mod server;
mod streams;
mod tables;
mod threads;
mod waiting;

pub use bases::Bases;
pub use clients::Clients;
pub use ending::Ending;
pub use faults::NodeFault;
pub use follower::{Follower, fault_of};
pub use host::Host;
pub use job_primary::{Primary, Work, read_jobs};
pub use long_work::while_saying;
pub use pace::Pace;
pub use printing::print;
pub use progress::{Progress, percent_of};
pub use replica::read_batches;
pub use server::Server;
pub use streams::Streams;
