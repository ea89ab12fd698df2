//! Why calls on ports, nodes and workers fail.

use thiserror::Error;

/// Why a call on a port failed. The port has counted it.
#[derive(Clone, Copy, Debug, PartialEq, Eq, Error)]
pub enum PortFault {
    /// The device could not report whether a datagram arrived, or could not hand it over.
    #[error("a datagram could not be received")]
    Receive,
    /// The device did not take the datagram, or took it for only some of its addresses; it may be
    /// lost.
    #[error("a datagram could not be sent")]
    Send,
}

/// Why a node stops serving.
#[derive(Clone, Copy, Debug, PartialEq, Eq, Error)]
pub enum ServeFault {
    /// The port failed at a receive; it has counted that.
    #[error("a datagram could not be received")]
    Socket,
    /// The replica is broken: what arrived is not of one list of commits, or it ran out of memory
    /// while it applied commits. It has to be restarted, with another boot number.
    #[error("the replica is broken")]
    Broken,
    #[error("out of memory")]
    Memory,
}

/// Why workers ended before their last job, or did not begin: the first that applies, in this
/// order.
#[derive(Clone, Copy, Debug, PartialEq, Eq, Error)]
pub enum WorkersFault {
    /// The journal did not take the commits of a flush, or has failed before.
    #[error("the journal failed")]
    Journal,
    #[error("out of memory")]
    Memory,
    /// The line has fewer seats left than there are workers.
    #[error("too few seats")]
    NoSeat,
}
