//! One primary for many threads.
//!
//! A `Line` has a primary under a lock, and gives out seats, one for each thread. A seat reads what
//! is published without waiting; it commits, flushes, settles, takes bases, pushes and answers
//! datagrams through the line, which holds the lock for one call of the primary at a time. A flush
//! is a group commit: it takes its turn, and the lock is released while the journal is written, so
//! that others commit and read meanwhile and are part of the next flush. Under the lock is a
//! `desk::Desk`, whose methods have the whole contract. Contracts cannot state the order in which
//! threads took the lock, so those of a line state what a call answers, and what the seat has then
//! seen. `Start` is the name of a new line; a program makes it first, and the type of the line refers
//! to it.
//!
//! Promised, whatever the schedule: what a seat has seen is a legal list that only grows, and what
//! it reads, sends or learns about a ticket agrees with that list (`desk::specs::Answers`); a
//! ticket has the transaction's entries, and a number above its snapshot and above the seat's last
//! one; at the end the primary has exactly as many new commits as the seats got tickets (`end`).
//! Whatever was sent agrees with the seat's list and with every longer one
//! (`laws::what_is_sent_is_of_the_list`). Not promised: that a call that waits returns.
//!
//! It uses `desk`, and re-exports the query queue of `queue`. If a call fails for lack of memory,
//! its values are unchanged unless the call says otherwise, except that more of the durable list
//! may be published and seen by the seat.
#![tactic(auto)]

mod faults;
pub mod laws;
pub mod limits;
mod line;
mod start;

pub use desk::{Flushed, Origin, Seat, Settled};
pub use faults::NewFault;
pub use line::Line;
pub use published::LineFault;
pub use queue::{Pass, QueryQueue};
pub use start::Start;
