//! Datagrams that no node sends, and addresses that nothing can be sent to.

use crate::cores::{replica_of, some};
use crate::nodes::{COUNT_AND_SUM, REPORT, put_one, report_of};
use mio::net::UdpSocket;
use queue::QueryQueue;
use scenarios_common::worker_datagrams::{ASK, FRAME, HEAD_OF_TWO};
use sockets::{Patience, Port, PortFault, ReplicaNode, UdpPort};
use std::alloc::Global;
use std::io;
use std::net::{Ipv4Addr, Net, SocketAddr};
use std::sync::Wait;
use std::test::Fail;
use std::thread::Threads;
use store::PlainStore;
use wire::{Datagram, Out, Packet, To};

/// The greatest datagram of UDP.
const GREATEST: usize = 65_507;

/// An address on the loopback whose port the system chooses.
fn any() -> SocketAddr {
    SocketAddr::from((Ipv4Addr::LOCALHOST, 0))
}

/// Sends to an address what no node sends: the greatest datagram, nothing, a good frame with a byte behind it
/// that a buffer of 1,200 bytes would cut away, and many short ones.
fn sends_odd_ones(alloc: Global, socket: &UdpSocket, to: SocketAddr) -> io::Result<()> {
    let greatest = Vec::from_elem(alloc, 0u8, GREATEST)?;
    socket.send_to(greatest.as_slice(), to)?;
    let mut long = [0u8; 1201];
    long[..54].copy_from_slice(&FRAME);
    socket.send_to(&[], to)?;
    socket.send_to(&long, to)?;
    for byte in 0..100u8 {
        socket.send_to(&[0x42, 0x44, 0x03, byte], to)?;
    }
    Ok(())
}

/// How long the report is that ten turns give; 0 where they give none. `None` where the node fails.
fn length_of_report<R: Threads + Wait + Sync>(
    rt: &R,
    alloc: Global,
    node: &mut ReplicaNode<PlainStore, UdpPort>,
    queue: &QueryQueue,
) -> Option<usize> {
    match report_of(rt, alloc, node, queue, 10) {
        Ok(Some(report)) => Some(report.as_slice().len()),
        Ok(None) => Some(0),
        Err(_) => None,
    }
}

/// How long the reports are that a replica gives with one query: before anything good came, and after a
/// frame and a Head came from an address that it does not know.
fn lengths_at<R: Threads + Wait + Sync>(
    rt: &R,
    alloc: Global,
    node: &mut ReplicaNode<PlainStore, UdpPort>,
    stranger: &UdpSocket,
    here: SocketAddr,
) -> Option<(usize, usize)> {
    let Ok(queue) = QueryQueue::new(alloc, 1) else {
        return None;
    };
    lengths_with(rt, alloc, node, &queue, stranger, here)
}

/// The same with this queue, which is empty.
fn lengths_with<R: Threads + Wait + Sync>(
    rt: &R,
    alloc: Global,
    node: &mut ReplicaNode<PlainStore, UdpPort>,
    queue: &QueryQueue,
    stranger: &UdpSocket,
    here: SocketAddr,
) -> Option<(usize, usize)> {
    put_one(rt, alloc, queue, &COUNT_AND_SUM)?;
    some(sends_odd_ones(alloc, stranger, here))?;
    let before = length_of_report(rt, alloc, node, queue)?;
    some(stranger.send_to(&FRAME, here))?;
    some(stranger.send_to(&HEAD_OF_TWO, here))?;
    let after = length_of_report(rt, alloc, node, queue)?;
    if node.core().version() == 1 {
        Some((before, after))
    } else {
        None
    }
}

/// The same over new sockets. `None` also where the port counted a fault.
fn lengths_of_reports<N: Threads + Net + Wait + Sync>(
    rt: &N,
    alloc: Global,
) -> Option<(usize, usize)> {
    let Ok(stranger) = UdpSocket::bind(rt, any()) else {
        return None;
    };
    lengths_from(rt, alloc, &stranger)
}

/// The same where this socket is the other address.
fn lengths_from<N: Threads + Net + Wait + Sync>(
    rt: &N,
    alloc: Global,
    stranger: &UdpSocket,
) -> Option<(usize, usize)> {
    let core = replica_of(alloc, 0)?;
    let Ok(port) = UdpPort::bind(rt, alloc, any(), None, Vec::new(alloc)) else {
        return None;
    };
    let mut node = ReplicaNode::new(alloc, core, port);
    let lengths = lengths_of_node(rt, alloc, &mut node, stranger);
    drop(node);
    lengths
}

/// The same of this node.
fn lengths_of_node<R: Threads + Wait + Sync>(
    rt: &R,
    alloc: Global,
    node: &mut ReplicaNode<PlainStore, UdpPort>,
    stranger: &UdpSocket,
) -> Option<(usize, usize)> {
    let here = some(node.port().local_addr())?;
    let lengths = lengths_at(rt, alloc, node, stranger, here)?;
    if node.port().faults() == 0 {
        Some(lengths)
    } else {
        None
    }
}

/// What is no datagram is ignored, one of 1,201 bytes with a good front too, and a replica answers after it.
#[test]
fn odd_datagrams_are_ignored(rt: HostRuntime) -> Result<(), Fail> {
    assert_eq!(rt;
        lengths_of_reports(&rt, rt.alloc()),
        Some((0, REPORT.len()))
    );
    Ok(())
}

/// The number of the system's error where a datagram is to go to port 0 (EINVAL).
const NO_SUCH_PORT: i32 = 22;

/// Whether a socket receives an Ask within so many tries.
fn receives_ask(socket: &UdpSocket) -> bool {
    let mut buffer = [0u8; 1201];
    for _ in 0..100_000 {
        if let Ok((len, _)) = socket.recv_from(&mut buffer) {
            return &buffer[..len] == ASK.as_slice();
        }
    }
    false
}

/// Whether a datagram for all replicas goes to the second of two addresses where the first cannot be sent
/// to, which is a counted fault with its reason.
fn goes_to_the_second<N: Net>(net: &N, alloc: Global) -> Option<bool> {
    let socket = UdpSocket::bind(net, any()).ok()?;
    let mut addresses = Vec::new(alloc);
    addresses.push(any()).ok()?;
    addresses.push(socket.local_addr().ok()?).ok()?;
    let mut port = UdpPort::bind(net, alloc, any(), None, addresses).ok()?;
    let ask = Datagram::Ask {
        replica: 0,
        boot: 1,
        request: 1,
    };
    let ended = port.send(Out {
        to: To::Replicas,
        packet: Packet::of(&ask),
    });
    let reason = port.last_fault()?.raw_os_error();
    let is_counted = port.faults() == 1 && reason == Some(NO_SUCH_PORT);
    Some(ended == Err(PortFault::Send) && is_counted && receives_ask(&socket))
}

/// An address that fails keeps a datagram from no other.
#[test]
fn one_address_keeps_a_datagram_from_no_other(rt: HostRuntime) -> Result<(), Fail> {
    assert_eq!(rt; goes_to_the_second(&rt, rt.alloc()), Some(true));
    Ok(())
}

/// Whether a port to which nothing was sent says so, and has no fault.
fn is_silent<N: Net>(net: &N, alloc: Global) -> Option<bool> {
    let mut port = UdpPort::bind(net, alloc, any(), None, Vec::new(alloc)).ok()?;
    let mut buffer = [0u8; 1201];
    let taken = port.recv(&mut buffer, Patience::Takes);
    let waited = port.recv(&mut buffer, Patience::Waits);
    Some(taken == Ok(None) && waited == Ok(None) && port.last_fault().is_none())
}

#[test]
fn a_port_to_which_nothing_was_sent_says_so(rt: HostRuntime) -> Result<(), Fail> {
    assert_eq!(rt; is_silent(&rt, rt.alloc()), Some(true));
    Ok(())
}
