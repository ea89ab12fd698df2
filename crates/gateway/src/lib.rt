//! What a primary and a replica answer to requests over HTTP.
//!
//! A `JobDesk` is a `Settle` of `http_server`: it takes the jobs of a request's body at a seat of a line,
//! and makes them durable together with those of the other requests of its round. It reads rows at
//! another seat, as they are durable.
//!
//! Promised: a request with jobs is answered 200 only with a ticket for each of its jobs, and 409 only if one
//! has none; either way what is answered is the lines of what the jobs are answered. With any other status below
//! 500 no job was taken. Once the round that it is in has settled, each of
//! these tickets names a commit that stands in the list that the seat has seen, with the job's worker and
//! the entries that its steps make (`laws::what_is_told_stands`). Not promised: that the jobs are those
//! of the body's lines, and what is told of a row; both are tested.
//!
//! A desk that is given `NodeFacts` also tells the status of its node and its figures, and counts what it does.
//!
//! `serve_jobs` serves the clients of a `Listening` so, in one thread, until it is over.
//!
//! At a replica `while_serving` has threads, each of which serves one client after another: the queries of a request are asked
//! at the thread's place of a `Gathering`, and the report of just these is the answer. That the report is of them is what
//! `gathering` and `reports` promise; that it is what the client is sent is tested.
//!
//! It uses `sockets` for jobs at a seat, `requests` to read them and queries, `gathering` for queries that are answered together,
//! `reports` to show a report as JSON, `figures` for what is counted, `http_server`
//! for requests and answers, and `service` for connections. The definitions to review are `specs/Jobs.antt` and `Serving`.
#![tactic(auto)]

mod answering;
mod batch_body;
mod body;
mod job_desk;
pub mod laws;
mod metrics_text;
mod node_facts;
mod primary_page;
mod query_desk;
mod query_serving;
mod replica_facts;
mod replica_page;
mod replica_path;
mod replica_reports;
mod reporting;
mod row_path;
mod row_reading;
mod serving;
mod status_text;
mod taking;
mod worker_count;

pub use job_desk::JobDesk;
pub use node_facts::NodeFacts;
pub use query_serving::{QueryListening, QueryServingFault, gathering_of_clients, while_serving};
pub use replica_facts::ReplicaFacts;
pub use serving::{Listening, ServingFault, serve_jobs};
pub use worker_count::WorkerCount;
