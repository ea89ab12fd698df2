//! Ports in memory of which one call fails: each receive ends the serve call, each send is a lost datagram,
//! and nothing else is lost.

ghost use Rattle.std.specs.Prelude.{◌≡◌, ◌<◌};

use crate::bases::inserts;
use crate::cores::{core_of, replica_of, some};
use crate::nodes::{COUNT_AND_SUM, REPORT, put_one, report_of};
use journal::MemJournal;
use primary::PrimaryCore;
use queue::QueryQueue;
use rows::ByteList;
use scenarios_common::worker_datagrams::{ASK, FRAME, HEAD_OF_TWO, WANT};
use shared::{Line, Origin, Seat, Start};
use sockets::{MemPort, Port, PrimaryNode, ReplicaNode, ServeFault, Traffic, serve_primary};
use std::alloc::Global;
use std::marker::Brand;
use std::sync::Wait;
use std::test::Fail;
use std::thread::Threads;
use store::PlainStore;
use wire::{Out, To};

/// How a node ended whose port failed once: how many of its calls failed, how many datagrams it sent, and
/// how many faults the port counted.
type Ending = (usize, usize, u64);

/// What went through the port of a node that ended so, to which two datagrams came, so many of them frames
/// that it did not know, and none that it ignored: each failed call that ended no turn is a lost datagram.
fn traffic_of(ending: Ending, stored: u64) -> Traffic {
    let (failed, sent, faults) = ending;
    let lost = faults.saturating_sub(failed as u64);
    Traffic {
        received: 2,
        stored,
        ignored: 0,
        sent: (sent as u64).saturating_add(lost),
        lost,
    }
}

/// Puts a datagram into a port.
pub fn deliver(alloc: Global, port: &mut MemPort, datagram: &[u8]) -> Option<()> {
    if datagram.len() > 1201 {
        return None;
    }
    let Ok(bytes) = Vec::from_slice(alloc, datagram) else {
        return None;
    };
    some(port.deliver(ByteList::from_vec(bytes)))
}

/// What one turn of a node came to.
enum Turned {
    Answered,
    Quiet,
    Failed,
}

/// One turn of a replica. `None` where it answers with another report than that of its row, or fails
/// otherwise than at a receive.
fn turn_of<R: Threads + Wait + Sync>(
    rt: &R,
    alloc: Global,
    node: &mut ReplicaNode<PlainStore, MemPort>,
    queue: &QueryQueue,
) -> Option<Turned> {
    match report_of(rt, alloc, node, queue, 1) {
        Ok(Some(report)) => {
            if report.as_slice() == REPORT {
                Some(Turned::Answered)
            } else {
                None
            }
        }
        Ok(None) => Some(Turned::Quiet),
        Err(ServeFault::Socket) => Some(Turned::Failed),
        Err(_) => None,
    }
}

/// How many calls of a node with one query fail until it answers: the first opens the query and asks, and
/// what comes then is a frame and the Head of its Ask.
fn failures_of<R: Threads + Wait + Sync>(
    rt: &R,
    alloc: Global,
    node: &mut ReplicaNode<PlainStore, MemPort>,
    queue: &QueryQueue,
) -> Option<usize> {
    let mut failed: usize = 0;
    for call in 0..8usize {
        if call == 1 {
            deliver(alloc, node.port_mut(), &FRAME)?;
            deliver(alloc, node.port_mut(), &HEAD_OF_TWO)?;
        }
        match turn_of(rt, alloc, node, queue)? {
            Turned::Answered => return Some(failed),
            Turned::Quiet => {}
            Turned::Failed => failed = failed.saturating_add(1),
        }
    }
    None
}

/// How many calls of a new replica's node fail until it answers one query.
fn failures_over<R: Threads + Wait + Sync>(
    rt: &R,
    alloc: Global,
    node: &mut ReplicaNode<PlainStore, MemPort>,
) -> Option<usize> {
    let Ok(queue) = QueryQueue::new(alloc, 1) else {
        return None;
    };
    failures_with(rt, alloc, node, &queue)
}

/// The same with this queue, which is empty.
fn failures_with<R: Threads + Wait + Sync>(
    rt: &R,
    alloc: Global,
    node: &mut ReplicaNode<PlainStore, MemPort>,
    queue: &QueryQueue,
) -> Option<usize> {
    put_one(rt, alloc, queue, &COUNT_AND_SUM)?;
    failures_of(rt, alloc, node, queue)
}

/// How a replica ends whose port fails at the call that comes after so many.
fn ending_of_replica<R: Threads + Wait + Sync>(
    rt: &R,
    alloc: Global,
    calls: u64,
) -> Option<Ending> {
    let core = replica_of(alloc, 0)?;
    let mut port = MemPort::new(alloc);
    port.fail_after(calls);
    let mut node = ReplicaNode::new(alloc, core, port);
    let ending = ending_of_node(rt, alloc, &mut node);
    drop(node);
    ending
}

/// The same of its node.
fn ending_of_node<R: Threads + Wait + Sync>(
    rt: &R,
    alloc: Global,
    node: &mut ReplicaNode<PlainStore, MemPort>,
) -> Option<Ending> {
    let failed = failures_over(rt, alloc, node)?;
    let ending = (failed, node.port().sent().len(), node.port().faults());
    if node.traffic() != traffic_of(ending, 1) || node.expected() != Some(1) {
        return None;
    }
    Some(ending)
}

/// How a replica ends whose port fails at its first call, its second, and so on; the last does not fail.
/// Its calls are: the Ask is sent; nothing comes; the Ask, which is late then, is sent again; the frame comes; the
/// Head comes. After a receive that failed the Ask is not late.
const REPLICA_ENDINGS: [Ending; 6] = [
    (0, 1, 1),
    (1, 1, 1),
    (0, 1, 1),
    (1, 2, 1),
    (1, 2, 1),
    (0, 2, 0),
];

#[test]
fn a_replica_goes_on_after_a_fault_of_its_port(rt: HostRuntime) -> Result<(), Fail> {
    let mut calls: u64 = 0;
    for ending in &REPLICA_ENDINGS {
        assert_eq!(rt; ending_of_replica(&rt, rt.alloc(), calls), Some(*ending));
        calls = calls.saturating_add(1);
    }
    Ok(())
}

/// Whether a datagram that was sent is this one: P, the frame, which is pushed; H, the Head for replica 0;
/// W, the frame that it wants.
fn is_named(out: &Out, name: u8) -> bool {
    let bytes = out.packet.bytes();
    match name {
        b'P' => out.to == To::Replicas && bytes == FRAME.as_slice(),
        b'H' => out.to == To::Replica(0) && bytes == HEAD_OF_TWO.as_slice(),
        _ => out.to == To::Replica(0) && bytes == FRAME.as_slice(),
    }
}

/// Whether the datagrams that were sent are these, by their names.
fn are_named(sent: &[Out], names: &[u8]) -> bool {
    if sent.len() != names.len() {
        return false;
    }
    for k in 0..sent.len() {
        if !is_named(&sent[k], names[k]) {
            return false;
        }
    }
    true
}

/// What a primary is to send whose port fails once, and how many calls of the node fail.
type Sending = (&'static [u8], usize);

/// What a primary sends whose port fails at its first call, its second, and so on; the last does not fail.
/// Its calls are: the frame is pushed; the Ask comes; the Head is sent; the Want comes; the frame is sent;
/// nothing comes.
const SENDINGS: [Sending; 7] = [
    (b"HW", 0),
    (b"PHW", 1),
    (b"PW", 0),
    (b"PHW", 1),
    (b"PH", 0),
    (b"PHW", 1),
    (b"PHW", 0),
];

/// How many calls of a primary's node fail until one ends well. `None` where one fails otherwise than at a
/// receive, or none of two ends well.
fn failures_of_primary<L: Origin, R: Wait>(
    rt: &R,
    line: &Line<L, MemJournal, &R>,
    node: &mut PrimaryNode<L, MemPort>,
) -> Option<usize> {
    let mut failed: usize = 0;
    for _ in 0..2usize {
        let mut turns = Some(1);
        match serve_primary(rt, line, node, &mut turns) {
            Ok(()) => return Some(failed),
            Err(ServeFault::Socket) => failed = failed.saturating_add(1),
            Err(_) => return None,
        }
    }
    None
}

/// Whether a primary tells once that replica 0 was told version 1, and of no other replica.
fn tells_of_asked<L: Origin>(node: &mut PrimaryNode<L, MemPort>) -> bool {
    let other = node.take_asked(1);
    let first = node.take_asked(0);
    let again = node.take_asked(0);
    let none = node.take_asked(16);
    first == Some(1) && again.is_none() && other.is_none() && none.is_none()
}

/// Whether a primary with one frame sends what it is to send, over a port that fails at the call that comes
/// after so many, and to which an Ask and a Want come. It is called again after a call that failed.
fn sends_as<L: Origin, R: Wait>(
    rt: &R,
    alloc: Global,
    line: &Line<L, MemJournal, &R>,
    seat: Seat<L>,
    calls: u64,
    sending: Sending,
) -> Option<(bool, Seat<L>)> {
    let port = port_of_both(alloc, calls)?;
    let Ok(mut node) = PrimaryNode::new(alloc, seat, port, 2) else {
        return None;
    };
    let is_so = node_sends_as(rt, line, &mut node, calls, sending);
    Some((is_so, node.into_seat()))
}

/// A port that fails at the call that comes after so many, and to which an Ask and a Want come.
fn port_of_both(alloc: Global, calls: u64) -> Option<MemPort> {
    let mut port = MemPort::new(alloc);
    port.fail_after(calls);
    if has_delivered_both(alloc, &mut port) {
        Some(port)
    } else {
        None
    }
}

/// Puts an Ask and a Want into a port. Whether there is memory for them.
fn has_delivered_both(alloc: Global, port: &mut MemPort) -> bool {
    deliver(alloc, port, &ASK).is_some() && deliver(alloc, port, &WANT).is_some()
}

/// Whether the node of a primary with one frame sends what it is to send.
fn node_sends_as<L: Origin, R: Wait>(
    rt: &R,
    line: &Line<L, MemJournal, &R>,
    node: &mut PrimaryNode<L, MemPort>,
    calls: u64,
    sending: Sending,
) -> bool {
    let Some(failed) = failures_of_primary(rt, line, node) else {
        return false;
    };
    let faults = if calls < 6 { 1 } else { 0 };
    let is_told = tells_of_asked(node);
    let port = node.port();
    let ending = (failed, port.sent().len(), port.faults());
    let is_counted = node.traffic() == traffic_of(ending, 0) && port.faults() == faults;
    let is_so = are_named(port.sent(), sending.0) && failed == sending.1;
    is_so && is_counted && is_told
}

/// Whether a primary with one frame sends what it is to send, whichever call of its port fails.
fn sends_each<L: Origin, R: Wait>(
    rt: &R,
    alloc: Global,
    line: &Line<L, MemJournal, &R>,
    mut seat: Seat<L>,
) -> Option<bool> {
    let mut calls: u64 = 0;
    for sending in &SENDINGS {
        let (is_so, same_seat) = sends_as(rt, alloc, line, seat, calls, *sending)?;
        if !is_so {
            return Some(false);
        }
        seat = same_seat;
        calls = calls.saturating_add(1);
    }
    Some(true)
}

/// Whether a primary of one row sends what it is to send, whichever call of its port fails.
fn sends_all<L: Origin, R: Wait>(
    rt: &R,
    alloc: Global,
    core: PrimaryCore<MemJournal>,
    start: Start,
) -> Option<bool>
    requires book { start.opened.seen.book ≡ L.book }
    requires schema { core.primary.schema ≡ L.schema }
    requires workers { core.primary.workers ≡ L.workers }
    requires first { core.primary ≡ L.first }
    requires name { start.blank.name ≡ L.name }
    requires parts { start.blank.parts ≡ L.parts }
    requires seats { start.seats ≡ L.seats }
{
    core.keeps_legal();
    let Some(line) = some(Line::<L, MemJournal, &R>::new(alloc, rt, core, start)) else {
        return None;
    };
    let sent = sends_on(rt, alloc, &line);
    drop(line);
    sent
}

/// The same on this line.
fn sends_on<L: Origin, R: Wait>(
    rt: &R,
    alloc: Global,
    line: &Line<L, MemJournal, &R>,
) -> Option<bool>
    requires { 0 < L.workers }
{
    let Some(mut seat) = line.seat(rt) else {
        return None;
    };
    if inserts(rt, alloc, line, &mut seat, 7).is_none() {
        return None;
    }
    sends_each(rt, alloc, line, seat)
}

/// The same on a new line of one seat.
fn sends_on_new<R: Wait>(rt: &R, alloc: Global, core: PrimaryCore<MemJournal>) -> Option<bool>
    requires { core.primary.workers ≡ 2 }
{
    match Start::new(1) {
        Ok(start) => sends_all::<Brand, R>(rt, alloc, core, start),
        Err(_) => None,
    }
}

#[test]
fn a_primary_goes_on_after_a_fault_of_its_port(rt: HostRuntime) -> Result<(), Fail> {
    let core = core_of(rt.alloc())?;
    let sent = sends_on_new(&rt, rt.alloc(), core);
    assert_eq!(rt; sent, Some(true));
    Ok(())
}
