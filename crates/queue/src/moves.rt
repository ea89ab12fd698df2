//! What a pass has done with the queue. No value of these types is made: they are for contracts
//! alone.

use queries::Plan;
use std::collections::LinkedList;

/// A plan in the list of all that were ever put, and its position there, from 0.
pub struct Queued {
    pub position: u64,
    pub plan: Plan,
}

/// What was put and what was taken with one pass, each in rising position.
pub struct Moves {
    pub put: LinkedList<Queued>,
    pub taken: LinkedList<Queued>,
}
