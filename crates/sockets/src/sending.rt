//! What a node sends, and counts.

ghost use Rattle.std.specs.Prelude.{◌≡◌, ◌∷◌, [], map};
ghost use Rattle.sockets.specs.Inner.Sending.{SendsAll, to_replicas};

use crate::port::Port;
use crate::traffic::Traffic;
use wire::{Out, Packet, To};

/// Sends a datagram. One that could not be sent is lost, as it may be on its way, and so are all after
/// the port has counted as many faults as it can.
pub fn send<P: Port>(port: &mut P, traffic: &mut Traffic, out: Out)
    ensures { SendsAll P.is_honest P.came P.sent P.fault_count port.old port.new traffic.old traffic.new (out ∷ []) }
{
    if port.faults() == u64::MAX {
        traffic.note_sent(true);
        return;
    }
    let is_lost = port.send(out).is_err();
    traffic.note_sent(is_lost);
}

/// Sends datagrams, in their order.
pub fn send_all<P: Port>(port: &mut P, traffic: &mut Traffic, outs: Vec<Out>)
    ensures { SendsAll P.is_honest P.came P.sent P.fault_count port.old port.new traffic.old traffic.new outs.items }
{
    for out in outs {
        send(port, traffic, out);
    }
}

/// Sends the packets of a row to all replicas, in their order.
pub fn send_row<P: Port>(port: &mut P, traffic: &mut Traffic, row: &mut Vec<Packet>)
    ensures { SendsAll P.is_honest P.came P.sent P.fault_count port.old port.new traffic.old traffic.new
        (map to_replicas row.old.items) }
{
    for packet in row.drain(..) {
        let to = To::Replicas;
        send(port, traffic, Out { to, packet });
    }
}
