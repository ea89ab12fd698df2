//! The query queue: threads put the plans of queries into it, and take them out in batches.
//!
//! A `QueryQueue` has room for a given number of plans. A thread uses it with a `Pass`, which has
//! no bytes and holds, for contracts alone, what was put and taken with it. `specs/Rule.antt`
//! defines a moment of the queue, with the list of all plans that were ever put, and the rule that
//! every step keeps; `Passes.antt` defines what contracts see of a queue and of a pass.
//!
//! Promised, whatever the schedule: a plan that is put becomes the last of that list; a plan that
//! is returned was not put; plans leave in the order of the list, each at most once, and the queue
//! holds those that have not left; `take_batch` takes 64 at most; of any two passes none put or took
//! what the other did. That a plan is returned only by a full queue, and that a batch has fewer than
//! 64 plans only if the queue was empty, is tested, and no clause says it.
//!
//! It uses `plans`, and `crossbeam_queue` for the steps. If a call fails for lack of memory, its
//! value is unchanged unless the call says otherwise.
#![tactic(auto)]

mod in_order;
pub mod laws;
pub mod limits;
mod moves;
mod pass;
mod query_queue;
mod ring;

pub use moves::{Moves, Queued};
pub use pass::Pass;
pub use query_queue::QueryQueue;
