//! What a thread holds to use a queue.

use crate::ring::Seat;

/// The right of one thread to put and take. It has no bytes: contracts see what was put and taken
/// with it. It belongs to the queue that gave it, and to no other.
#[derive(Drop)]
pub struct Pass {
    pub(crate) seat: Seat,
}
