use thiserror::Error;

/// Why bytes are no datagram: the first that applies, in this order.
#[derive(Clone, Copy, Debug, PartialEq, Eq, Error)]
pub enum WireFault {
    /// Fewer than 6 bytes.
    #[error("shorter than a datagram's head")]
    Short,
    /// The first two bytes are not 42 44.
    #[error("not a datagram of this system")]
    Magic,
    /// The third byte is not 03.
    #[error("another version of the format")]
    Version,
    /// The fourth byte is not a kind of datagram.
    #[error("no such kind of datagram")]
    Kind,
    /// The total length is not that of the bytes, or above 1200.
    #[error("the total length is wrong")]
    Length,
    /// The body does not have the form of its kind.
    #[error("the body is not of its kind")]
    Body,
}

/// The buffer is shorter than what would be written to it.
#[derive(Clone, Copy, Debug, PartialEq, Eq, Error)]
#[error("the buffer is too small")]
pub struct TooSmall;
