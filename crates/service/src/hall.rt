//! Connections that wait for a thread that is free.

use std::alloc::Global;
use std::collections::VecDeque;
use std::sync::{Condvar, Mutex, Wait};

/// What waits, and for how many.
#[derive(Drop)]
struct Waiting<T: Drop> {
    items: VecDeque<T>,
    /// How many threads have nothing to serve.
    free: usize,
    /// Whether no more come.
    has_ended: bool,
}

/// Connections that one thread puts in, and others take out. None waits for another to be served: a thread is free as soon as
/// there is one to be, and again once it has served, so each that is put in is taken at once.
#[derive(Drop)]
pub struct Hall<T: Drop> {
    waiting: Mutex<Waiting<T>>,
    changed: Condvar,
}

impl<T: Drop> Hall<T> {
    /// With nobody in it, and so many threads that are free: each takes one after the other by `next`, and says by `leave` that it
    /// has served.
    pub fn new(alloc: Global, threads: usize) -> Hall<T> {
        Hall {
            waiting: Mutex::new(Waiting {
                items: VecDeque::new(alloc),
                free: threads,
                has_ended: false,
            }),
            changed: Condvar::new(),
        }
    }

    /// Hands a connection to a thread that is free. Gives it back if none is, if it has ended, or out of
    /// memory.
    pub fn put<R: Wait>(&self, rt: &R, item: T) -> Result<(), T> {
        let mut waiting = self.waiting.lock(rt);
        if waiting.has_ended
            || waiting.items.len() >= waiting.free
            || waiting.items.reserve(1).is_err()
        {
            return Err(item);
        }
        let _ = waiting.items.push_back(item);
        drop(waiting);
        self.changed.notify_one();
        Ok(())
    }

    /// Waits for a connection. `None` once no more come.
    pub fn next<R: Wait>(&self, rt: &R) -> Option<T> {
        let waiting = self.waiting.lock(rt);
        let mut waiting = self.changed.wait_while(
            rt,
            waiting,
            |waiting: &mut Waiting<T>| waiting.items.is_empty() && !waiting.has_ended,
        );
        if waiting.has_ended {
            return None;
        }
        waiting.free = waiting.free.saturating_sub(1);
        waiting.items.pop_front()
    }

    /// Says that a thread has served what it took, and is free: before the connection is closed, so that its client finds a place
    /// again.
    pub fn leave<R: Wait>(&self, rt: &R) {
        let mut waiting = self.waiting.lock(rt);
        waiting.free = waiting.free.saturating_add(1);
    }

    /// Says that no more come.
    pub fn end<R: Wait>(&self, rt: &R) {
        let mut waiting = self.waiting.lock(rt);
        waiting.has_ended = true;
        drop(waiting);
        self.changed.notify_all();
    }
}
