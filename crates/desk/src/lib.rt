//! What is under the lock of a line: a primary that many threads use, what it has published, and
//! the seat of each commit.
//!
//! A `Desk` has the primary's core, a `Telling` of its durable list, and a `Roster`. The telling
//! adds the durable commits to the history of the line, one by one, and publishes them. The roster
//! has the seat of each commit and each seat's last number, and counts all commits in a ledger, of
//! which each seat has a share. A `Seat` is a reader of what is published, with its number, its
//! last number and its share.
//!
//! Each method has its whole contract here, because a thread that only takes the lock knows nothing
//! about the desk beyond its type: `specs/Keeping.antt` specifies what holds whenever the lock is
//! taken, and `specs/Answers.antt` what a seat is answered.
//!
//! Promised: what is published is a beginning of the durable list; each commit since the line was
//! made has a seat, and the shares of all seats add up to their number; no two seats have the same
//! number; a ticket is the core's, and its number is above the seat's last one. What is settled,
//! pushed or answered agrees with the list that the seat has then seen, which is legal and, unless
//! memory was refused, the whole durable list. What is sent of it, on the base that the primary has,
//! can be read back. A base is taken of what was published and the seat has seen.
//!
//! It uses `primary` and `published`. If a call fails for lack of memory, its values are unchanged
//! unless the call says otherwise, except that more of the durable list may be told, published and
//! seen by the seat.
#![tactic(auto)]

mod answers;
mod desk;
mod origin;
mod parts;
mod roster;
mod row;
mod seat;
mod telling;

pub use answers::{Flushed, Settled};
pub use desk::Desk;
pub use origin::Origin;
pub use seat::Seat;
