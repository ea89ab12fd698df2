use crate::packet::Packet;

/// The destination of a datagram.
#[derive(Clone, Copy, PartialEq, Eq)]
pub enum To {
    Primary,
    Replica(u8),
    Replicas,
}

/// A datagram, and its destination.
#[derive(Drop)]
pub struct Out {
    pub to: To,
    pub packet: Packet,
}
