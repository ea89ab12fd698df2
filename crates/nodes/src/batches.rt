//! Batches on their way from the input to the replica that answers them.

use crate::host::Host;
use queries::Plan;
use queue::QueryQueue;
use requests::Query;
use std::alloc::{AllocError, Global};
use std::collections::VecDeque;
use std::sync::{Condvar, Mutex, Wait};

/// For how many queries a live replica's queue has room.
pub const ROOM: usize = 1024;

/// What is known beside the queue of what it has.
#[derive(Drop)]
struct Ends {
    /// Of each batch that is whole, the numbers of the lines of its queries.
    whole: VecDeque<Vec<u64>>,
    /// How many queries may still be put.
    room: usize,
    /// Whether no more batches come, or none is taken any more.
    has_ended: bool,
}

/// Batches that one thread puts in and another takes out, in their order: their queries go through a query queue, and
/// the end of each batch beside it.
#[derive(Drop)]
pub struct Batches {
    queue: QueryQueue,
    ends: Mutex<Ends>,
    changed: Condvar,
}

/// What is taken of batches.
#[derive(Drop)]
pub enum Next {
    Batch(Vec<Query>),
    /// No whole batch waits, and more may come.
    NotYet,
    /// No more come.
    Ended,
}

/// What the thread that takes batches holds: queries that it has taken from the queue.
#[derive(Drop)]
pub struct Taker {
    plans: VecDeque<Plan>,
}

impl Taker {
    /// Of a thread that has taken nothing.
    pub fn new(alloc: Global) -> Taker {
        Taker {
            plans: VecDeque::new(alloc),
        }
    }
}

impl Batches {
    /// Batches with room for so many queries at once, and for one at the least, of which none waits. Fails only if
    /// out of memory.
    pub fn new(alloc: Global, room: usize) -> Result<Batches, AllocError> {
        let room = room.max(1);
        Ok(Batches {
            queue: QueryQueue::new(alloc, room)?,
            ends: Mutex::new(Ends {
                whole: VecDeque::new(alloc),
                room,
                has_ended: false,
            }),
            changed: Condvar::new(),
        })
    }

    /// Puts a batch in, each query once there is room for it, and then its end. Fails only if out of memory; the batch is
    /// then never whole.
    pub fn put<T: Wait>(&self, host: Host<'_, T>, batch: Vec<Query>) -> Result<(), AllocError> {
        let mut lines = Vec::with_capacity(host.alloc, batch.len())?;
        for Query { line, plan } in batch {
            lines.push(line)?;
            self.put_one(host.rt, plan);
        }
        self.ends.lock(host.rt).whole.push_back(lines)?;
        Ok(())
    }

    /// Puts a query in, once there is room for it, or drops it once none is taken any more.
    fn put_one<T: Wait>(&self, rt: &T, plan: Plan) {
        if !self.takes_room(rt) {
            return;
        }
        let mut plan = plan;
        for _ in rt.forever() {
            match self.try_put(rt, plan) {
                Ok(()) => return,
                // It comes back only where the queue is full, which has room for what was counted.
                Err(back) => plan = back,
            }
        }
    }

    /// Puts a query in, or hands it back where the queue is full.
    fn try_put<T: Wait>(&self, rt: &T, plan: Plan) -> Result<(), Plan> {
        match self.queue.pass() {
            Some(mut pass) => self.queue.put(rt, &mut pass, plan),
            None => Err(plan),
        }
    }

    /// Takes room for one query, for which it waits; false where no queries are taken any more.
    fn takes_room<T: Wait>(&self, rt: &T) -> bool {
        let ends = self.ends.lock(rt);
        let mut ends = self.changed.wait_while(rt, ends, |ends: &mut Ends| {
            ends.room == 0 && !ends.has_ended
        });
        match ends.room.checked_sub(1) {
            Some(room) if !ends.has_ended => {
                ends.room = room;
                true
            }
            _ => false,
        }
    }

    /// Says that no more come, or that none is taken any more.
    pub fn end<T: Wait>(&self, rt: &T) {
        let mut ends = self.ends.lock(rt);
        ends.has_ended = true;
        drop(ends);
        self.changed.notify_all();
    }

    /// Whether no batch waits and no more come.
    pub fn is_over<T: Wait>(&self, rt: &T) -> bool {
        let ends = self.ends.lock(rt);
        ends.has_ended && ends.whole.is_empty()
    }

    /// Takes the next batch that is whole, if there is one. Fails only if out of memory; queries may be lost then.
    pub fn next<T: Wait>(&self, host: Host<'_, T>, taker: &mut Taker) -> Result<Next, AllocError> {
        let lines = match self.next_end(host.rt) {
            Ok(lines) => lines,
            Err(next) => return Ok(next),
        };
        let mut queries = Vec::with_capacity(host.alloc, lines.len())?;
        for line in lines {
            match self.next_plan(host, taker)? {
                Some(plan) => queries.push(Query { line, plan })?,
                // Each query of a whole batch was put before its end.
                None => break,
            }
        }
        Ok(Next::Batch(queries))
    }

    /// The lines of the next batch that is whole, or what is to be said where none is.
    fn next_end<T: Wait>(&self, rt: &T) -> Result<Vec<u64>, Next> {
        let mut ends = self.ends.lock(rt);
        match ends.whole.pop_front() {
            Some(lines) => Ok(lines),
            None if ends.has_ended => Err(Next::Ended),
            None => Err(Next::NotYet),
        }
    }

    /// The next query of the queue, if there is one.
    fn next_plan<T: Wait>(
        &self,
        host: Host<'_, T>,
        taker: &mut Taker,
    ) -> Result<Option<Plan>, AllocError> {
        if taker.plans.is_empty() {
            self.fill(host, taker)?;
        }
        Ok(taker.plans.pop_front())
    }

    /// Takes the next queries of the queue, 64 at most, and makes room for others.
    fn fill<T: Wait>(&self, host: Host<'_, T>, taker: &mut Taker) -> Result<(), AllocError> {
        let mut plans = Vec::new(host.alloc);
        let count = match self.queue.pass() {
            Some(mut pass) => self.queue.take_batch(host.rt, &mut pass, &mut plans)?,
            None => 0,
        };
        for plan in plans {
            taker.plans.push_back(plan)?;
        }
        let mut ends = self.ends.lock(host.rt);
        ends.room = ends.room.saturating_add(count);
        drop(ends);
        self.changed.notify_all();
        Ok(())
    }
}
