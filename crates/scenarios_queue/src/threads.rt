//! Four threads that put and two that take: each plan is taken once, and those of a putter come in
//! its order.

ghost use Rattle.queue.specs.Passes.{IsPassOf};

use crate::numbered_plans::{numbered, rise, times};
use queries::Plan;
use queue::{Pass, QueryQueue};
use std::alloc::{AllocError, Global};
use std::sync::Wait;
use std::sync::atomic::{AtomicU64, Ordering};
use std::test::Fail;
use std::thread;
use std::thread::{Threads, join};

/// Plans that each putter puts, numbered from 0.
const PLANS: u8 = 250;

/// Plans that four putters put.
const ALL: u64 = 1000;

/// Puts a plan, again and again until there is room.
fn put_at_last<R: Wait>(rt: &R, queue: &QueryQueue, pass: &mut Pass, mut plan: Plan)
    requires { IsPassOf queue.now pass.old }
    ensures { IsPassOf queue.now pass.new }
{
    for _ in rt.forever() {
        match queue.put(rt, pass, plan) {
            Ok(()) => return,
            Err(back) => plan = back,
        }
        thread::yield_now();
    }
    unreachable!()
}

/// Puts the plans of a putter. There is always a pass.
fn put_all<R: Wait>(rt: &R, alloc: Global, queue: &QueryQueue, putter: u8) -> bool {
    let Some(mut pass) = queue.pass() else {
        return false;
    };
    for number in 0..PLANS {
        put_at_last(rt, queue, &mut pass, numbered(alloc, putter, number));
    }
    true
}

/// Takes batches until all plans are taken, by whomever, or it is out of memory.
fn take_all<R: Wait>(rt: &R, alloc: Global, queue: &QueryQueue, taken: &AtomicU64) -> Vec<Plan> {
    let mut plans = Vec::new(alloc);
    let Some(mut pass) = queue.pass() else {
        return plans;
    };
    for _ in rt.forever() {
        let Ok(count) = queue.take_batch(rt, &mut pass, &mut plans) else {
            return plans;
        };
        taken.fetch_add(count as u64, Ordering::SeqCst);
        if taken.load(Ordering::SeqCst) >= ALL {
            return plans;
        }
        thread::yield_now();
    }
    unreachable!()
}

/// Two putters in threads of their own.
fn put_by_two<R: Threads + Wait + Sync>(
    rt: &R,
    alloc: Global,
    queue: &QueryQueue,
    first: u8,
    second: u8,
) -> bool {
    let (is_put, is_too) = join(
        rt,
        || put_all(rt, alloc, queue, first),
        || put_all(rt, alloc, queue, second),
    );
    is_put && is_too
}

/// Four putters in threads of their own.
fn put_by_four<R: Threads + Wait + Sync>(rt: &R, alloc: Global, queue: &QueryQueue) -> bool {
    let (is_put, is_too) = join(
        rt,
        || put_by_two(rt, alloc, queue, 0, 1),
        || put_by_two(rt, alloc, queue, 2, 3),
    );
    is_put && is_too
}

/// What two takers take, in threads of their own.
fn take_by_two<R: Threads + Wait + Sync>(
    rt: &R,
    alloc: Global,
    queue: &QueryQueue,
) -> (Vec<Plan>, Vec<Plan>) {
    let taken = AtomicU64::new(0);
    join(
        rt,
        || take_all(rt, alloc, queue, &taken),
        || take_all(rt, alloc, queue, &taken),
    )
}

/// Whether each plan of a putter was taken once, by one of two takers.
fn is_each_taken_once(first: &[Plan], second: &[Plan], putter: u8) -> bool {
    for number in 0..PLANS {
        let found = (times(first, putter, number), times(second, putter, number));
        if found != (1, 0) && found != (0, 1) {
            return false;
        }
    }
    true
}

/// Whether two takers took all plans once, those of each putter in its order.
fn are_taken_in_order(first: &[Plan], second: &[Plan]) -> bool {
    for putter in 0..4 {
        if !is_each_taken_once(first, second, putter) {
            return false;
        }
        if !rise(first, putter) || !rise(second, putter) {
            return false;
        }
    }
    true
}

/// Whether all plans are put and taken, in order.
fn is_all_taken<R: Threads + Wait + Sync>(rt: &R, alloc: Global, queue: &QueryQueue) -> bool {
    let (is_put, taken) = join(
        rt,
        || put_by_four(rt, alloc, queue),
        || take_by_two(rt, alloc, queue),
    );
    is_put && are_taken_in_order(taken.0.as_slice(), taken.1.as_slice())
}

/// The same, through a queue with room for 100.
fn are_all_taken<R: Threads + Wait + Sync>(rt: &R, alloc: Global) -> Result<bool, AllocError> {
    let queue = QueryQueue::new(alloc, 100)?;
    Ok(is_all_taken(rt, alloc, &queue))
}

#[test]
fn plans_are_taken_once_and_in_order(rt: HostRuntime) -> Result<(), Fail> {
    assert!(rt; are_all_taken(&rt, rt.alloc())?);
    Ok(())
}
