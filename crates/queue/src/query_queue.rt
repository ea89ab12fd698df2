//! The queue of queries.

use crate::limits::BATCH_PLANS_MAX;
use crate::pass::Pass;
use crate::ring::{Ring, compare, pop, push};
use queries::Plan;
use std::alloc::{AllocError, Global};
use std::mem;
use std::sync::Wait;

/// A queue of plans that threads share, with room for a fixed number: first in, first out.
///
/// No contract can state its content at a moment, since other threads use it too; contracts state
/// exactly what was done with each `Pass`.
#[derive(Drop)]
pub struct QueryQueue {
    ring: Ring,
}

impl QueryQueue {
    ghost use Rattle.std.specs.Prelude.{◌≡◌, ◌+◌, ◌<◌, ◌≤◌, IfOk, IfSome, IsSome, MatchResult, OnErr, vec_capacity, vec_len};
    ghost use Rattle.queue.specs.Apart.{AreApart};
    ghost use Rattle.queue.specs.Limits.{batch_plans_max};
    ghost use Rattle.queue.specs.Rule.{no_moves, AreMovesOfMoment, Puts, TakesBatch};
    ghost use Rattle.queue.specs.Passes.{capacity_of, moves_of, IsPassOf};

    /// An empty queue with room for this many plans. Fails only if out of memory.
    pub fn new(alloc: Global, capacity: usize) -> Result<QueryQueue, AllocError>
        requires { 0 < capacity }
        ensures { IfOk result (λ queue. capacity_of queue ≡ capacity) }
    {
        let ring = Ring::ruled(alloc, capacity)?.0;
        Ok(QueryQueue { ring })
    }

    /// A pass with which nothing was put or taken yet. It is always `Some`.
    pub fn pass(&self) -> Option<Pass>
        ensures some { IsSome result }
        ensures fresh { IfSome result (λ pass. IsPassOf self.now pass × (moves_of pass ≡ no_moves)) }
    {
        Some(Pass {
            seat: self.ring.pass(),
        })
    }

    /// Puts a plan at the end, in one step. If the queue was full at a moment of the call, the plan
    /// is returned, and nothing has changed. That it was full is tested, and no clause says it.
    pub fn put<R: Wait>(&self, rt: &R, pass: &mut Pass, plan: Plan) -> Result<(), Plan>
        requires { IsPassOf self.now pass.old }
        ensures same { IsPassOf self.now pass.new }
        ensures put { MatchResult result
            (λ _. Puts (moves_of pass.old) plan (moves_of pass.new))
            (λ back. (back ≡ plan) × (moves_of pass.new ≡ moves_of pass.old)) }
    {
        push(rt, &self.ring, &mut pass.seat, plan)
    }

    /// Takes up to 64 plans, each in one step, and appends them to the batch in the order of the
    /// queue; answers how many. There are fewer only if the queue was empty at a moment of the
    /// call, which is tested, and no clause says it. Memory for all of them is taken first: if there
    /// is none, nothing has changed.
    pub fn take_batch<R: Wait>(
        &self,
        rt: &R,
        pass: &mut Pass,
        batch: &mut Vec<Plan>,
    ) -> Result<usize, AllocError>
        requires { IsPassOf self.now pass.old }
        ensures same { IsPassOf self.now pass.new }
        ensures taken { IfOk result (λ count. TakesBatch (moves_of pass.old) batch.old.items count (moves_of pass.new) batch.new.items) }
        ensures most { IfOk result (λ count. count ≤ batch_plans_max) }
        ensures order { IfOk result (λ _. AreMovesOfMoment (moves_of pass.new)) }
        ensures refused { OnErr result ((moves_of pass.new ≡ moves_of pass.old) × (batch.new.items ≡ batch.old.items)) }
        ensures no_room { OnErr result (vec_capacity batch.old < vec_len batch.old + batch_plans_max) }
    {
        batch.reserve(BATCH_PLANS_MAX)?;
        for count in 0..BATCH_PLANS_MAX {
            let Some(plan) = pop(rt, &self.ring, &mut pass.seat) else {
                return Ok(count);
            };
            batch.push_reserved(plan);
        }
        Ok(BATCH_PLANS_MAX)
    }

    /// What is known of two passes of this queue: they have different numbers, and at one moment, no
    /// earlier than anything done with either, no place of the put list was put by both, and none was
    /// taken by both. Nothing is put or taken.
    pub fn are_apart(&self, one: &mut Pass, other: &mut Pass)
        requires one { IsPassOf self.now one.old }
        requires other { IsPassOf self.now other.old }
        ensures passes { IsPassOf self.now one.new × IsPassOf self.now other.new }
        ensures same { (moves_of one.new ≡ moves_of one.old) × (moves_of other.new ≡ moves_of other.old) }
        ensures apart { AreApart (moves_of one.old) (moves_of other.old) }
    {
        let theirs = mem::replace(&mut other.seat, self.ring.pass());
        other.seat = compare(&self.ring, &mut one.seat, theirs);
    }
}
