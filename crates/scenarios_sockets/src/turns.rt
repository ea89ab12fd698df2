//! Single turns of nodes, and what they count.

use crate::cores::{replica_of, some};
use crate::failing_ports::deliver;
use crate::nodes::{COUNT_AND_SUM, REPORT};
use rows::ByteList;
use scenarios_common::worker_datagrams::{ASK, FRAME, HEAD_OF_TWO};
use scenarios_plans_common::wishes::plan_of;
use sockets::{MemPort, ReplicaNode, Traffic, Turned};
use std::alloc::Global;
use std::marker::Sync;
use std::test::Fail;
use std::thread::Threads;
use store::PlainStore;

/// What a turn came to, by the first letter of its name; `F` where it failed, or gave another report.
fn name_of<R: Threads + Sync>(rt: &R, node: &mut ReplicaNode<PlainStore, MemPort>) -> u8 {
    match node.turn(rt) {
        Ok(Turned::Answered(report)) => is_report(&report),
        Ok(Turned::Waits) => b'W',
        Ok(Turned::Idle) => b'I',
        Err(_) => b'F',
    }
}

/// `A` for the report that is wanted.
fn is_report(report: &ByteList) -> u8 {
    if report.as_slice() == REPORT {
        b'A'
    } else {
        b'F'
    }
}

/// Offers a node the query.
fn offer(alloc: Global, node: &mut ReplicaNode<PlainStore, MemPort>) -> Option<()> {
    let Ok(plan) = plan_of(alloc, &COUNT_AND_SUM) else {
        return None;
    };
    let Some(plans) = list_of(alloc, plan) else {
        return None;
    };
    some(node.offer_all(plans))
}

/// A list of one item.
fn list_of<T: Drop>(alloc: Global, item: T) -> Option<Vec<T>> {
    let mut items = Vec::new(alloc);
    match items.push(item) {
        Ok(()) => Some(items),
        Err(_) => None,
    }
}

/// What four turns of a new node came to, and what it counts: it has no query, and then one; an Ask comes,
/// and a frame twice; then the Head of its Ask.
fn four_turns<R: Threads + Sync>(rt: &R, alloc: Global) -> Option<([u8; 4], Traffic, Option<u64>)> {
    let core = replica_of(alloc, 0)?;
    let mut node = ReplicaNode::new(alloc, core, MemPort::new(alloc));
    let turned = four_turns_of(rt, alloc, &mut node);
    drop(node);
    turned
}

/// The same of this node.
fn four_turns_of<R: Threads + Sync>(
    rt: &R,
    alloc: Global,
    node: &mut ReplicaNode<PlainStore, MemPort>,
) -> Option<([u8; 4], Traffic, Option<u64>)> {
    let first = name_of(rt, node);
    deliver(alloc, node.port_mut(), &ASK)?;
    deliver(alloc, node.port_mut(), &FRAME)?;
    deliver(alloc, node.port_mut(), &FRAME)?;
    let second = name_of(rt, node);
    offer(alloc, node)?;
    let third = name_of(rt, node);
    deliver(alloc, node.port_mut(), &HEAD_OF_TWO)?;
    let fourth = name_of(rt, node);
    Some((
        [first, second, third, fourth],
        node.traffic(),
        node.expected(),
    ))
}

#[test]
fn a_turn_says_what_it_came_to_and_counts(rt: HostRuntime) -> Result<(), Fail> {
    let traffic = Traffic {
        received: 4,
        stored: 1,
        ignored: 1,
        sent: 2,
        lost: 0,
    };
    assert_eq!(rt;
        four_turns(&rt, rt.alloc()),
        Some((*b"IIWA", traffic, Some(1)))
    );
    Ok(())
}

/// A Head for replica 0, boot 1, request 1: version 23, 20 frames of worker 0 and 3 of worker 1.
const HEAD_OF_23: [u8; 80] = [
    0x42, 0x44, 0x03, 0x03, 0x00, 0x50, 0x00, 0x00, 0x00, 0x00, 0x00, 0x00, 0x00, 0x00, 0x01, 0x00,
    0x00, 0x00, 0x00, 0x00, 0x00, 0x00, 0x01, 0x00, 0x00, 0x00, 0x00, 0x00, 0x00, 0x00, 0x17, 0x00,
    0x00, 0x00, 0x00, 0x00, 0x00, 0x00, 0x00, 0x00, 0x00, 0x00, 0x00, 0x00, 0x00, 0x00, 0x00, 0x02,
    0x00, 0x00, 0x00, 0x00, 0x00, 0x00, 0x00, 0x00, 0x00, 0x00, 0x00, 0x00, 0x00, 0x00, 0x00, 0x14,
    0x00, 0x00, 0x00, 0x00, 0x00, 0x00, 0x00, 0x00, 0x00, 0x00, 0x00, 0x00, 0x00, 0x00, 0x00, 0x03,
];

/// The kinds of datagrams.
const ASKS: u8 = 2;

const WANTS: u8 = 4;

/// A byte of a datagram; 255 where it has none.
fn byte_at(bytes: &[u8], place: usize) -> u8 {
    match bytes.get(place) {
        Some(byte) => *byte,
        None => 255,
    }
}

/// The kind of each datagram that was sent, and of a Want the worker and the last byte of the seq.
fn kinds_of(alloc: Global, port: &MemPort) -> Option<Vec<(u8, u8, u8)>> {
    let mut kinds = Vec::new(alloc);
    for out in port.sent() {
        let bytes = out.packet.bytes();
        let kind = byte_at(bytes, 3);
        let (worker, seq) = if kind == WANTS {
            (byte_at(bytes, 7), byte_at(bytes, 15))
        } else {
            (0, 0)
        };
        kinds.push((kind, worker, seq)).ok()?;
    }
    Some(kinds)
}

/// A frame of worker 0 with seq 5.
fn sixth_frame() -> [u8; 54] {
    let mut frame = FRAME;
    frame[14] = 5;
    frame
}

/// What a node sends that lacks all frames of its Head, or all but one that comes right before it: the first turn is
/// silent, and so is the second one after the Head has come.
fn sent_for_23<R: Threads + Sync>(
    rt: &R,
    alloc: Global,
    has_sixth: bool,
) -> Option<Vec<(u8, u8, u8)>> {
    let core = replica_of(alloc, 0)?;
    let mut node = ReplicaNode::new(alloc, core, MemPort::new(alloc));
    let sent = sent_by(rt, alloc, &mut node, has_sixth);
    drop(node);
    sent
}

/// The same of this node.
fn sent_by<R: Threads + Sync>(
    rt: &R,
    alloc: Global,
    node: &mut ReplicaNode<PlainStore, MemPort>,
    has_sixth: bool,
) -> Option<Vec<(u8, u8, u8)>> {
    offer(alloc, node)?;
    let first = name_of(rt, node);
    if has_sixth {
        deliver(alloc, node.port_mut(), &sixth_frame())?;
    }
    deliver(alloc, node.port_mut(), &HEAD_OF_23)?;
    let second = name_of(rt, node);
    let third = name_of(rt, node);
    if [first, second, third] != *b"WWW" {
        return None;
    }
    kinds_of(alloc, node.port())
}

/// After a Head no frame is wanted at first, since all may be on their way; once nothing comes, there is a Want for
/// each gap: the 16 frames of worker 0 from 0 on, its 4 from 16 on, and those of worker 1.
#[test]
fn several_gaps_are_asked_for_at_once(rt: HostRuntime) -> Result<(), Fail> {
    let sent = sent_for_23(&rt, rt.alloc(), false).ok_or("sent")?;
    assert_eq!(rt;
        sent.as_slice(),
        [
            (ASKS, 0, 0),
            (ASKS, 0, 0),
            (WANTS, 0, 0),
            (WANTS, 0, 16),
            (WANTS, 1, 0),
        ]
        .as_slice()
    );
    Ok(())
}

/// Frames behind which another has come are wanted right after the Head; and again with the others, once nothing comes.
#[test]
fn frames_that_were_passed_are_asked_for_at_once(rt: HostRuntime) -> Result<(), Fail> {
    let sent = sent_for_23(&rt, rt.alloc(), true).ok_or("sent")?;
    assert_eq!(rt;
        sent.as_slice(),
        [
            (ASKS, 0, 0),
            (ASKS, 0, 0),
            (WANTS, 0, 0),
            (WANTS, 0, 0),
            (WANTS, 0, 16),
            (WANTS, 1, 0),
        ]
        .as_slice()
    );
    Ok(())
}
