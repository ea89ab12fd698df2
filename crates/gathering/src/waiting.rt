//! Requests that wait.

ghost use Rattle.std.specs.Prelude.{◌≡◌, ◌+◌, [], ◌∷◌, ◌++◌, vec_len, IfOk, OnOk, OnErr};
ghost use Rattle.std.specs.VecDeque.{deque_len};
ghost use Rattle.gathering.specs.Requests.{IsPutBack, IsUnmoved, Takes, TakesPlace};

use crate::request::{Part, Request};
use requests::Query;
use std::alloc::{AllocError, Global};
use std::collections::VecDeque;
use std::{io, mem};

/// Why requests have no report.
#[derive(Clone, Copy)]
pub(crate) enum Denial {
    /// They are late, or the replica serves no longer.
    Late,
    /// The replica is broken.
    Broken,
    /// Memory was refused.
    Memory,
}

/// What is known of requests, under one lock.
#[derive(Drop)]
pub(crate) struct Waiting {
    alloc: Global,
    /// Those that were not taken, in the order in which they came.
    requests: VecDeque<Request>,
    /// Those that were taken for the batch under way, in its order.
    under_way: Vec<Part>,
    /// What requests are answered since the replica has ended, if it has.
    pub(crate) end: Option<Denial>,
    /// Why clients are served no longer, if so.
    pub(crate) fault: Option<io::Error>,
}

impl Waiting {
    /// With no request. Takes no memory.
    pub fn new(alloc: Global) -> Waiting
        ensures requests { result.requests.items ≡ [] }
        ensures under_way { result.under_way.items ≡ [] }
    {
        Waiting {
            alloc,
            requests: VecDeque::new(alloc),
            under_way: Vec::new(alloc),
            end: None,
            fault: None,
        }
    }

    /// How many were not taken.
    pub fn len(&self) -> usize
        ensures { result ≡ deque_len self.now.requests }
    {
        self.requests.len()
    }

    /// How many there are, those that are under way too.
    pub fn count(&self) -> usize
        ensures { result ≡ deque_len self.now.requests + vec_len self.now.under_way }
    {
        self.requests.len().saturating_add(self.under_way.len())
    }

    /// Puts a request behind those that wait. Fails only if out of memory.
    pub fn push(&mut self, place: usize, queries: Vec<Query>) -> Result<(), AllocError>
        ensures ok { OnOk result (self.new.requests.items ≡ self.old.requests.items ++ record { place = place; queries = queries } ∷ []) }
        ensures err { OnErr result (self.new.requests.items ≡ self.old.requests.items) }
        ensures under_way { self.new.under_way.items ≡ self.old.under_way.items }
    {
        self.requests.push_back(Request { place, queries })?;
        Ok(())
    }

    /// Takes the first request, if there is one that has so many queries at most; it is under way then. Fails only if out of memory.
    pub fn take(&mut self, room: usize) -> Result<Option<Request>, AllocError>
        ensures ok { IfOk result (Takes room self.old self.new) }
        ensures err { OnErr result (IsUnmoved self.old self.new) }
    {
        match self.requests.front() {
            Some(first) if first.queries.len() <= room => {}
            _ => return Ok(None),
        }
        self.under_way.reserve(1)?;
        let Some(request) = self.requests.pop_front() else {
            return Ok(None);
        };
        self.under_way.push_reserved(Part {
            place: request.place,
            count: request.queries.len(),
        });
        Ok(Some(request))
    }

    /// Puts back the request that was taken last, before those that wait. Fails only if out of memory.
    pub fn put_back(&mut self, request: Request) -> Result<(), AllocError>
        ensures ok { OnOk result (IsPutBack self.old self.new request) }
        ensures err { OnErr result (IsUnmoved self.old self.new) }
    {
        self.requests.push_front(request)?;
        let _ = self.under_way.pop();
        Ok(())
    }

    /// The requests that are under way, which are none then.
    pub fn take_under_way(&mut self) -> Vec<Part>
        ensures all { result.items ≡ self.old.under_way.items }
        ensures none { self.new.under_way.items ≡ [] }
        ensures requests { self.new.requests.items ≡ self.old.requests.items }
    {
        mem::replace(&mut self.under_way, Vec::new(self.alloc))
    }

    /// The place of a request, of those under way or of those that wait, which is neither then.
    pub fn take_any(&mut self) -> Option<usize>
        ensures { TakesPlace self.old self.new result }
    {
        if let Some(part) = self.under_way.pop() {
            return Some(part.place);
        }
        match self.requests.pop_front() {
            Some(request) => Some(request.place),
            None => None,
        }
    }
}
