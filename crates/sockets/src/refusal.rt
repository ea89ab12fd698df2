//! Why a job is refused.

use mvcc::TxFault;
use thiserror::Error;

/// Why a job is refused. Steps count from 0.
#[derive(Clone, Copy, Debug, PartialEq, Eq, Error)]
pub enum Refusal {
    /// The transaction refuses the change of this step; it took the steps before.
    #[error("{fault}")]
    Change { step: usize, fault: TxFault },
    /// The condition of this step does not hold; the transaction took the steps before.
    #[error("the condition does not hold")]
    Condition { step: usize },
    /// No step is a change.
    #[error("no change")]
    NoChange,
    /// What is published could not be read, even when it was tried again 1000 times.
    #[error("what is published could not be read")]
    Unread,
    /// The number of the commit, or a frame's seq or count, would pass 64 bits.
    #[error("numbers used up")]
    NumbersUsedUp,
    /// The primary finds a change undefined that the transaction took, which never occurs.
    #[error("not a transaction of this primary")]
    Foreign,
}
