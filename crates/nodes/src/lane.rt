//! Jobs that wait for the worker who does them.

use std::alloc::{AllocError, Global};
use std::collections::VecDeque;
use std::sync::{Condvar, Mutex, Wait};

/// How many items wait, at most, once somebody takes them.
const WAITING_MAX: usize = 1024;

/// What waits.
#[derive(Drop)]
struct Waiting<T: Drop> {
    items: VecDeque<T>,
    /// Whether somebody takes them.
    is_open: bool,
    /// Whether no more come.
    has_ended: bool,
}

/// Items that one thread puts in and another takes out, in their order.
#[derive(Drop)]
pub struct Lane<T: Drop> {
    waiting: Mutex<Waiting<T>>,
    changed: Condvar,
}

impl<T: Drop> Lane<T> {
    /// A lane in which nothing waits.
    pub fn new(alloc: Global) -> Lane<T> {
        Lane {
            waiting: Mutex::new(Waiting {
                items: VecDeque::new(alloc),
                is_open: false,
                has_ended: false,
            }),
            changed: Condvar::new(),
        }
    }

    /// Puts an item in, once fewer than 1,024 wait; at once if nobody takes them yet, or if no more are to
    /// come. Fails only if out of memory.
    pub fn put<R: Wait>(&self, rt: &R, item: T) -> Result<(), AllocError> {
        let waiting = self.waiting.lock(rt);
        let mut waiting = self
            .changed
            .wait_while(rt, waiting, |waiting: &mut Waiting<T>| {
                waiting.is_open && !waiting.has_ended && waiting.items.len() >= WAITING_MAX
            });
        let is_put = waiting.items.push_back(item).is_ok();
        drop(waiting);
        self.changed.notify_all();
        if is_put { Ok(()) } else { Err(AllocError) }
    }

    /// Takes all items that wait, in their order; it waits for the first of them. There are none only
    /// where no more come. Fails only if out of memory, and then takes none.
    pub fn take<R: Wait>(&self, rt: &R, alloc: Global) -> Result<Vec<T>, AllocError> {
        let mut waiting = self.waiting.lock(rt);
        waiting.is_open = true;
        let mut waiting = self.changed.wait_while(
            rt,
            waiting,
            |waiting: &mut Waiting<T>| waiting.items.is_empty() && !waiting.has_ended,
        );
        let mut taken = Vec::with_capacity(alloc, waiting.items.len())?;
        for _ in 0..waiting.items.len() {
            match waiting.items.pop_front() {
                Some(item) => taken.push(item)?,
                None => break,
            }
        }
        drop(waiting);
        self.changed.notify_all();
        Ok(taken)
    }

    /// Says that no more come.
    pub fn end<R: Wait>(&self, rt: &R) {
        let mut waiting = self.waiting.lock(rt);
        waiting.has_ended = true;
        drop(waiting);
        self.changed.notify_all();
    }
}
