//! Why a line is not made.

use thiserror::Error;

/// Why a line is not made: the first that applies, in this order.
#[derive(Clone, Copy, Debug, PartialEq, Eq, Error)]
pub enum NewFault {
    /// There is no history that readers could know beginnings of. This never happens in a program.
    #[error("no reader can be had")]
    NoReader,
    #[error("out of memory")]
    Memory,
}
