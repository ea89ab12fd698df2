//! A serving replica: its node's turns, with queries from a queue.

ghost use Rattle.std.specs.Prelude.{◌≡◌, ◌⊎◌, [], true, None, Some, Err, IfOk, IfErr};
ghost use Rattle.queue.specs.Passes.{moves_of, IsPassOf};
ghost use Rattle.sockets.specs.Serving.{TurnsLeft, completed};
ghost use Rattle.sockets.specs.Replicas.{DoesReplica, ServesReplica, failures, handed, turn_of};
ghost use Rattle.sockets.specs.Inner.Steps.{OffersTaken};
ghost use Rattle.sockets.specs.declared.faults.ServeFault.TheVariants.{Broken};

use crate::faults::ServeFault;
use crate::port::Port;
use crate::replica_node::ReplicaNode;
use crate::turned::Turned;
use crate::turns::take_turn;
use dispatcher::AskFault;
use queue::{Pass, QueryQueue};
use rows::ByteList;
use std::alloc::Global;
use std::marker::Sync;
use std::sync::Wait;
use std::thread::Threads;
use store::ApplyStore;

/// Serves until a batch is answered, and gives its report, or until the turns are used up; `None`
/// means no limit. It may be called again and continues where it stopped.
///
/// Before a turn in which there would be nothing to ask for, it takes the queries of the queue, 64 at
/// most, for a new batch, and drops those that do not fit the replica's tables.
///
/// It also ends without a report if the replica's request number is the greatest of 64 bits, or the
/// port has counted as many faults as it can. Fails as a turn does, or with `Memory` if the queries
/// could not be taken or opened, some of which are then dropped.
pub fn serve_replica<S: ApplyStore + Sync, P: Port, R: Threads + Wait + Sync>(
    rt: &R,
    alloc: Global,
    node: &mut ReplicaNode<S, P>,
    queue: &QueryQueue,
    pass: &mut Pass,
    turns: &mut Option<u64>,
) -> Result<Option<ByteList>, ServeFault>
    requires { IsPassOf queue.now pass.old }
    ensures same { IsPassOf queue.now pass.new }
    ensures serves { ServesReplica P.is_honest P.came P.sent P.fault_count node.old node.new
        (moves_of pass.old) (moves_of pass.new) (completed turns.old turns.new result) result }
    ensures turns { TurnsLeft turns.old turns.new }
    ensures ended { IfOk result (λ report. report ≡ None
        → (turns.new ≡ Some 0) ⊎ (node.new.core.request ≡ u64.MAX) ⊎ (P.fault_count node.new.port ≡ u64.MAX)) }
    ensures broken { IfErr result (λ fault. fault ≡ Broken → node.new.core.broken ≡ true) }
    ensures told { node.old.core.broken ≡ true → (result ≡ Err Broken) ⊎ (turns.old ≡ Some 0)
        ⊎ (node.old.core.request ≡ u64.MAX) ⊎ (P.fault_count node.old.port ≡ u64.MAX) }
{
    for _ in rt.forever() {
        if node.core().request() == u64::MAX
            || node.port().faults() == u64::MAX
            || !take_turn(turns)
        {
            return Ok(None);
        }
        match turn(rt, alloc, node, queue, pass) {
            Ok(None) => {}
            Ok(Some(report)) => return Ok(Some(report)),
            Err(fault) => return Err(fault),
        }
    }
    unreachable!()
}

/// One turn, before which the queries of the queue are offered if there would be nothing to ask for.
fn turn<S: ApplyStore + Sync, P: Port, R: Threads + Wait + Sync>(
    rt: &R,
    alloc: Global,
    node: &mut ReplicaNode<S, P>,
    queue: &QueryQueue,
    pass: &mut Pass,
) -> Result<Option<ByteList>, ServeFault>
    requires { IsPassOf queue.now pass.old }
    ensures same { IsPassOf queue.now pass.new }
    ensures serves { ServesReplica P.is_honest P.came P.sent P.fault_count node.old node.new
        (moves_of pass.old) (moves_of pass.new) (turn_of result) result }
    ensures broken { IfErr result (λ fault. fault ≡ Broken → node.new.core.broken ≡ true) }
    ensures told { node.old.core.broken ≡ true → result ≡ Err Broken }
{
    match node.core().may_ask() {
        Err(AskFault::Empty) => match offer_taken(rt, alloc, node, queue, pass) {
            Ok(()) => report_of_turn(rt, node),
            Err(fault) => Err(fault),
        },
        _ => report_of_turn(rt, node),
    }
}

/// One turn of the node, and the report, if there is one.
fn report_of_turn<S: ApplyStore + Sync, P: Port, R: Threads + Sync>(
    rt: &R,
    node: &mut ReplicaNode<S, P>,
) -> Result<Option<ByteList>, ServeFault>
    ensures does { DoesReplica P.is_honest P.came P.sent P.fault_count node.old node.new
        (failures result) (handed result) [] (turn_of result) }
    ensures broken { IfErr result (λ fault. fault ≡ Broken → node.new.core.broken ≡ true) }
    ensures told { node.old.core.broken ≡ true → result ≡ Err Broken }
{
    match node.turn(rt) {
        Ok(Turned::Answered(report)) => Ok(Some(report)),
        Ok(Turned::Waits) => Ok(None),
        Ok(Turned::Idle) => Ok(None),
        Err(fault) => Err(fault),
    }
}

/// Takes the queries of the queue, 64 at most, and offers them to the replica.
fn offer_taken<S: ApplyStore + Sync, P: Port, R: Wait>(
    rt: &R,
    alloc: Global,
    node: &mut ReplicaNode<S, P>,
    queue: &QueryQueue,
    pass: &mut Pass,
) -> Result<(), ServeFault>
    requires { IsPassOf queue.now pass.old }
    ensures same { IsPassOf queue.now pass.new }
    ensures offers { OffersTaken P.is_honest P.came P.sent P.fault_count node.old node.new
        (moves_of pass.old) (moves_of pass.new) result }
    ensures broken { IfErr result (λ fault. fault ≡ Broken → node.new.core.broken ≡ true) }
{
    let mut plans = Vec::new(alloc);
    if queue.take_batch(rt, pass, &mut plans).is_err() {
        return Err(ServeFault::Memory);
    }
    node.offer_all(plans)
}
