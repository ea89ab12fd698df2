//! Why a call of a seat is refused.

use mvcc::TxFault;
use thiserror::Error;

/// Why a call of a seat is refused: the first that applies, in this order.
#[derive(Clone, Copy, Debug, PartialEq, Eq, Error)]
pub enum LineFault {
    /// What is published could not be entered, or is shorter than what the seat has seen.
    #[error("what is published could not be read")]
    Unread,
    /// The transaction's snapshot is above the seat's list.
    #[error("the transaction's snapshot is ahead of the seat")]
    Ahead,
    /// The transaction itself refuses the call.
    #[error("{0}")]
    Tx(TxFault),
}

/// Why the image of what a seat has seen is not made.
#[derive(Clone, Copy, Debug, PartialEq, Eq, Error)]
pub enum ImageFault {
    /// What is published could not be entered, or is shorter than what the seat has seen.
    #[error("what is published could not be read")]
    Unread,
    #[error("out of memory")]
    Memory,
}
