//! What a replica's node does: it is given a query, and serves some turns.

use crate::cores::some;
use queries::{Aggregate, Column, Plan};
use queue::QueryQueue;
use rows::ByteList;
use scenarios_plans_common::wishes::{COUNT, Wish, plan_of};
use sockets::{Port, ReplicaNode, ServeFault, serve_replica};
use std::alloc::Global;
use std::marker::Sync;
use std::sync::Wait;
use std::thread::Threads;
use store::ApplyStore;

/// The query: how many rows there are, and the sum of their second column.
pub const COUNT_AND_SUM: Wish<'static> = Wish {
    aggregates: &[Aggregate::Count, Aggregate::Sum(Column::Own(1))],
    ..COUNT
};

/// The report of one row of 5 and -1.
pub const REPORT: &[u8] = b"version 1 queries 1\nquery 0 rows 1\n1 -1\n";

/// Puts one query. `None` where the queue is full, and out of memory.
pub fn put_one<R: Wait>(rt: &R, alloc: Global, queue: &QueryQueue, wish: &Wish<'_>) -> Option<()> {
    let Ok(plan) = plan_of(alloc, wish) else {
        return None;
    };
    put_plan(rt, queue, plan)
}

/// Puts this query.
fn put_plan<R: Wait>(rt: &R, queue: &QueryQueue, plan: Plan) -> Option<()> {
    let Some(mut pass) = queue.pass() else {
        return None;
    };
    some(queue.put(rt, &mut pass, plan))
}

/// Serves as a replica for so many turns: the report, if there is one, or why the node failed.
pub fn report_of<S: ApplyStore + Sync, P: Port, R: Threads + Wait + Sync>(
    rt: &R,
    alloc: Global,
    node: &mut ReplicaNode<S, P>,
    queue: &QueryQueue,
    turns: u64,
) -> Result<Option<ByteList>, ServeFault> {
    let Some(mut pass) = queue.pass() else {
        return Err(ServeFault::Memory);
    };
    let mut turns = Some(turns);
    serve_replica(rt, alloc, node, queue, &mut pass, &mut turns)
}
