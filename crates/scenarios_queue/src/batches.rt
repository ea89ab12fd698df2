//! What one pass puts and takes: a queue that is full, batches of 64, and refused memory.

ghost use Rattle.std.specs.Prelude.{◌<◌};
ghost use Rattle.queue.specs.Passes.{IsPassOf};

use crate::numbered_plans::{are_numbered, number_of, numbered};
use queue::{Pass, QueryQueue};
use std::alloc::{AllocError, Global};
use std::sync::Wait;
use std::test::Fail;

/// Puts plans with the numbers from 0 on, and answers the number of the first that comes back.
fn first_back<R: Wait>(
    rt: &R,
    alloc: Global,
    queue: &QueryQueue,
    pass: &mut Pass,
    count: u8,
) -> Option<u8>
    requires { IsPassOf queue.now pass.old }
    ensures { IsPassOf queue.now pass.new }
{
    for number in 0..count {
        if let Err(back) = queue.put(rt, pass, numbered(alloc, 0, number)) {
            return Some(number_of(&back));
        }
    }
    None
}

/// Takes a batch, and answers how many plans it has, if they have the numbers from this one on.
fn taken<R: Wait>(
    rt: &R,
    alloc: Global,
    queue: &QueryQueue,
    pass: &mut Pass,
    first: u8,
) -> Result<Option<usize>, AllocError>
    requires { IsPassOf queue.now pass.old }
    ensures { IsPassOf queue.now pass.new }
{
    let mut batch = Vec::new(alloc);
    let count = queue.take_batch(rt, pass, &mut batch)?;
    if !are_numbered(batch.as_slice(), first) {
        return Ok(None);
    }
    Ok(Some(count))
}

/// What a queue answers: which of the plans that are put is the first to come back, and how many
/// each of two batches has.
type Answers = (Option<u8>, Option<usize>, Option<usize>);

/// Puts so many plans into a queue with this room, and takes two batches, the second of which begins
/// with this number.
fn answers<R: Wait>(
    rt: &R,
    alloc: Global,
    capacity: usize,
    count: u8,
    second: u8,
) -> Result<Option<Answers>, AllocError>
    requires { 0 < capacity }
{
    let queue = QueryQueue::new(alloc, capacity)?;
    let Some(mut pass) = queue.pass() else {
        return Ok(None);
    };
    let back = first_back(rt, alloc, &queue, &mut pass, count);
    let batch = taken(rt, alloc, &queue, &mut pass, 0)?;
    let next = taken(rt, alloc, &queue, &mut pass, second)?;
    Ok(Some((back, batch, next)))
}

/// Takes three batches of a queue that holds 65 plans.
fn three_batches<R: Wait>(rt: &R, alloc: Global) -> Result<Option<[Option<usize>; 3]>, AllocError> {
    let queue = QueryQueue::new(alloc, 100)?;
    let Some(mut pass) = queue.pass() else {
        return Ok(None);
    };
    if first_back(rt, alloc, &queue, &mut pass, 65).is_some() {
        return Ok(None);
    }
    let first = taken(rt, alloc, &queue, &mut pass, 0)?;
    let second = taken(rt, alloc, &queue, &mut pass, 64)?;
    let third = taken(rt, alloc, &queue, &mut pass, 65)?;
    Ok(Some([first, second, third]))
}

/// Puts two plans with one pass, and takes a batch with another; the two are compared before and after
/// each.
fn taken_by_another<R: Wait>(rt: &R, alloc: Global) -> Result<Option<usize>, AllocError> {
    let queue = QueryQueue::new(alloc, 2)?;
    let (Some(mut putter), Some(mut taker)) = (queue.pass(), queue.pass()) else {
        return Ok(None);
    };
    queue.are_apart(&mut putter, &mut taker);
    if first_back(rt, alloc, &queue, &mut putter, 2).is_some() {
        return Ok(None);
    }
    queue.are_apart(&mut taker, &mut putter);
    let count = taken(rt, alloc, &queue, &mut taker, 0)?;
    queue.are_apart(&mut putter, &mut taker);
    Ok(count)
}

/// A plan that one pass puts, another takes, and comparing them changes nothing.
#[test]
fn what_one_pass_puts_another_takes(rt: HostRuntime) -> Result<(), Fail> {
    assert_eq!(rt; taken_by_another(&rt, rt.alloc())?, Some(2));
    Ok(())
}

/// The third of three plans comes back from a queue with room for two.
#[test]
fn a_full_queue_gives_a_plan_back(rt: HostRuntime) -> Result<(), Fail> {
    let found = answers(&rt, rt.alloc(), 2, 3, 2)?;
    assert_eq!(rt; found, Some((Some(2), Some(2), Some(0))));
    Ok(())
}

#[test]
fn a_batch_has_64_plans(rt: HostRuntime) -> Result<(), Fail> {
    let found = three_batches(&rt, rt.alloc())?;
    assert_eq!(rt; found, Some([Some(64), Some(1), Some(0)]));
    Ok(())
}

/// A queue is as good as new once it was emptied, and a batch that fills the queue goes on.
#[test]
fn a_queue_of_one_takes_one(rt: HostRuntime) -> Result<(), Fail> {
    let found = answers(&rt, rt.alloc(), 1, 2, 1)?;
    assert_eq!(rt; found, Some((Some(1), Some(1), Some(0))));
    Ok(())
}

/// Takes a batch of two plans, once more if memory was refused to it.
fn is_taken_at_last<R: Wait>(rt: &R, alloc: Global, queue: &QueryQueue, pass: &mut Pass) -> bool
    requires { IsPassOf queue.now pass.old }
    ensures { IsPassOf queue.now pass.new }
{
    match taken(rt, alloc, queue, pass, 0) {
        Ok(count) => count == Some(2),
        Err(_) => taken(rt, alloc, queue, pass, 0) == Ok(Some(2)),
    }
}

/// Whichever allocation is refused: a batch that was refused has taken nothing, and is taken when it
/// is asked for again.
#[test]
fn a_batch_without_memory_takes_nothing(rt: HostRuntime) -> Result<(), Fail> {
    let queue = QueryQueue::new(rt.alloc(), 4)?;
    let Some(mut pass) = queue.pass() else {
        return Ok(());
    };
    let back = first_back(&rt, rt.alloc(), &queue, &mut pass, 2);
    let is_taken = is_taken_at_last(&rt, rt.alloc(), &queue, &mut pass);
    assert!(rt; back.is_none() && is_taken);
    Ok(())
}
