//! The primary: numbered commits under snapshot isolation, a journal, and the frames of the durable
//! commits.
//!
//! Its state is a durable list of commits, a pending list, and whether its journal has failed. A
//! commit is checked against the newest commit, durable or pending, of each row that it writes, and
//! of each table to which it or that commit adds a column; and is added to the end of the pending
//! list. A flush writes the records of pending commits to the journal in one append, and moves them
//! to the durable list; only durable commits are shown, pushed or counted. A start makes the commits
//! durable that the journal keeps, in whatever state a crash left it. A base replaces the frames of
//! what is durable by the tables after it, in pieces, until the next start. Apart from a start, no
//! call goes over a whole list of commits; a flush goes over those that it moves, and a base over
//! all rows. `specs/` defines what
//! a commit and a flush answer and leave (`Steps.antt`), what the journal contains then and after a
//! start (`Journaling.antt`), and what is sent (`Sending.antt`). `specs/Inner` only helps proofs.
//!
//! It uses `rows`, `mvcc` for versions and transactions, `update_log` for streams, `journal` and
//! `wire`. If a call fails for lack of memory, its value is unchanged unless the call says
//! otherwise.
#![tactic(auto)]

mod done;
mod faults;
mod judging;
mod keeping;
mod lists;
mod pieces;
mod primary_core;
mod sending;
mod starting;
mod tail;
mod ticket;
mod work;

pub use done::Done;
pub use faults::{CommitFault, FlushFault, StartFault};
pub use pieces::piece_packets;
pub use primary_core::PrimaryCore;
pub use ticket::Ticket;
pub use work::Work;
