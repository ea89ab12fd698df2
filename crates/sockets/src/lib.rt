//! Nodes that serve over ports, and workers that commit concurrently.
//!
//! A `Port` receives and sends datagrams: a `MemPort` in memory, which can be made to fail at one
//! of its calls, or a `UdpPort`, a UDP socket with the addresses of the primary and of the
//! replicas. From the latter a `Drain` in another thread takes what comes while its node is at
//! work. A `PrimaryNode` pushes a line's durable frames to all replicas and answers their Asks,
//! Wants and Pulls. A `ReplicaNode` asks the primary for the newest durable version, receives frames and
//! pieces, asks for missing ones, or for another version if 16 in a row were in vain, and gives each
//! batch's report. Both give out single turns, each of which
//! continues where the last one stopped, and count what goes through their port. `serve_primary`
//! and `serve_replica` are loops over these turns, the latter with queries from a queue. A `Job` is
//! a set of changes that are committed together, and the worker that does it: a `JobSeat` does jobs
//! at a seat of a line, where they share flushes, `run_crew` lets many workers do their jobs, each in a
//! thread of its own, and `run_workers` is its short form. A `Gate` is notified before and after each
//! commit.
//!
//! Promised, for every port: what a node does is a list of acts, each one call of its core, which
//! lead from the state before to the state after. If the port is honest, the acts took in exactly
//! what arrived, and what was sent is exactly what the cores answered, except for lost datagrams,
//! each of which is a fault that the port counted; what a node counted is what its acts took in and
//! sent. A replica hands on each report once, and was offered the queries of the queue, in order; a
//! primary pushes each frame once, or skips it if it was dropped when a base was taken. A loop uses up
//! a turn only by taking it. So what is proved of a fed replica and of a line's seats holds for the
//! nodes, and what a line sends of a list keeps a replica fed that is fed from it
//! (`laws::what_is_sent_keeps_replicas_fed`).
//!
//! Promised, whatever the schedule of workers: an acknowledged ticket belongs to a commit that is
//! durable and has the ticket's number in the list that the seat has seen, with the job's worker
//! and the entries that its changes make; one list has all tickets of a run, and no two jobs share
//! one; what a `JobSeat` answers a job before its commit is durable is what it is answered once all is
//! settled. Not promised: that a datagram arrives or is sent, that a call that waits returns, that
//! workers run at once, or anything about a socket.
//!
//! It uses `shared`, `dispatcher` and `queue`, `mio` for sockets, and `rtrb` for what a drain takes. The definitions to review for
//! nodes are `specs/Ports.antt`, `State`, `Carrying`, `Traffic`, `Asking`, `Serving`, `Replicas`,
//! `Primaries` and `Feeding`, and for workers `Changes`, `Answers`, `JobSeats`, `Work` and `Crews`. If a call
//! fails for lack of memory, its value is unchanged unless the call says otherwise.
#![tactic(auto)]

mod asked;
mod change;
mod crew;
mod doing;
mod drafting;
mod drain;
mod ending;
mod faults;
mod fetched_image;
mod gate;
mod job;
mod job_answer;
mod job_seat;
pub mod laws;
mod mem_port;
mod port;
mod primary_node;
mod refusal;
mod replica_node;
mod sending;
mod serving_primary;
mod serving_replica;
mod step;
mod sums;
mod traffic;
mod turned;
mod turns;
mod udp_port;
mod under_way;
mod worker;

pub use asked::Asked;
pub use change::Change;
pub use crew::{run_crew, run_workers};
pub use drafting::{TRIES_AGAIN, begun, looked};
pub use drain::Drain;
pub use faults::{PortFault, ServeFault, WorkersFault};
pub use fetched_image::FetchedImage;
pub use gate::{Gate, OpenGate};
pub use job::{Job, are_of_workers};
pub use job_answer::JobAnswer;
pub use job_seat::{JobSeat, SHARED_JOBS_MAX};
pub use mem_port::MemPort;
pub use port::{Patience, Port};
pub use primary_node::PrimaryNode;
pub use refusal::Refusal;
pub use replica_node::ReplicaNode;
pub use serving_primary::serve_primary;
pub use serving_replica::serve_replica;
pub use step::Step;
pub use traffic::Traffic;
pub use turned::Turned;
pub use turns::take_turn;
pub use udp_port::UdpPort;
pub use worker::Worker;
