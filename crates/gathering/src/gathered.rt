//! Requests of several clients, gathered.

ghost use Rattle.std.specs.Prelude.{◌≡◌, ℕ, ◌≤◌, List, length, map, sum, IfOk};
ghost use Rattle.queries.specs.declared.field.Field.{Field};
ghost use Rattle.queries.specs.Report.{report_text};
ghost use Rattle.reports.specs.Parts.{report_parts};
ghost use Rattle.gathering.specs.Requests.{count_of};

use crate::answer::Answer;
use crate::place::Place;
use crate::request::{Part, Request};
use crate::tables::Tables;
use crate::waiting::{Denial, Waiting};
use reports::parts_of;
use requests::Query;
use std::alloc::{AllocError, Global};
use std::io;
use std::rt::Clock;
use std::sync::{Condvar, Mutex, Wait};
use std::time::Duration;

/// Requests of several clients, each of which waits at a place of its own. All threads share it, by `&`.
#[derive(Drop)]
pub struct Gathering {
    alloc: Global,
    waiting: Mutex<Waiting>,
    /// Told of each request that comes.
    came: Condvar,
    places: Vec<Place>,
    /// As they were noted last.
    tables: Mutex<Option<Tables>>,
}

impl Gathering {
    /// With so many places, and no request. Fails only if out of memory.
    pub fn new(alloc: Global, places: usize) -> Result<Gathering, AllocError> {
        let mut all = Vec::with_capacity(alloc, places)?;
        for _ in 0..places {
            all.push(Place::new())?;
        }
        Ok(Gathering {
            alloc,
            waiting: Mutex::new(Waiting::new(alloc)),
            came: Condvar::new(),
            places: all,
            tables: Mutex::new(None),
        })
    }

    /// How many requests wait that were not taken.
    pub fn len<R: Wait>(&self, rt: &R) -> usize {
        self.waiting.lock(rt).len()
    }

    /// Asks these queries, 1 to 64, for the client at this place, counted from 0, and waits for the answer. A place is that of one
    /// thread at a time. `Late` where there is no such place, and at once where the replica has ended.
    pub fn ask<R: Wait>(&self, rt: &R, place: usize, queries: Vec<Query>) -> Answer {
        let Some(own) = self.places.get(place) else {
            return Answer::Late;
        };
        let mut waiting = self.waiting.lock(rt);
        if let Some(end) = waiting.end {
            return denied(end);
        }
        if waiting.push(place, queries).is_err() {
            return Answer::Memory;
        }
        drop(waiting);
        self.came.notify_one();
        own.wait(rt)
    }

    /// Waits until a request waits that was not taken, or for so long.
    pub fn wait<R: Wait + Clock>(&self, rt: &R, most: Duration) {
        let waiting = self.waiting.lock(rt);
        if waiting.len() == 0 {
            let (_waiting, _) = self.came.wait_timeout(rt, waiting, most);
        }
    }

    /// Takes the next request for the batch that is gathered, if one waits that has so many queries at most. Fails only if out of
    /// memory; it waits then still.
    pub fn take<R: Wait>(&self, rt: &R, room: usize) -> Result<Option<Request>, AllocError> {
        self.waiting.lock(rt).take(room)
    }

    /// Puts back the request that was taken last: it is the first of the next batch. Fails only if out of memory.
    pub fn put_back<R: Wait>(&self, rt: &R, request: Request) -> Result<(), AllocError> {
        self.waiting.lock(rt).put_back(request)
    }

    /// Answers each request that was taken by its part of this report, in which their queries are in the order in which they were
    /// taken; `Memory`, if out of memory for that. It does nothing where they were answered before.
    pub fn answer<R: Wait>(&self, rt: &R, report: &[u8]) {
        let under_way = self.waiting.lock(rt).take_under_way();
        match split(self.alloc, &under_way, report) {
            Ok(parts) => {
                for (part, text) in under_way.iter().zip(parts) {
                    self.tell(rt, part.place, Answer::Report(text));
                }
            }
            Err(_) => {
                for part in &under_way {
                    self.tell(rt, part.place, Answer::Memory);
                }
            }
        }
    }

    /// Answers each request that was taken that a query of it does not fit, as this says.
    pub fn refuse<R: Wait>(&self, rt: &R, why: &str) {
        let under_way = self.waiting.lock(rt).take_under_way();
        for part in &under_way {
            match String::from_str(self.alloc, why) {
                Ok(why) => self.tell(rt, part.place, Answer::Unfit(why)),
                Err(_) => self.tell(rt, part.place, Answer::Memory),
            }
        }
    }

    /// Answers each request that was taken that memory was refused; if none was taken, all that wait.
    pub fn answer_memory<R: Wait>(&self, rt: &R) {
        let under_way = self.waiting.lock(rt).take_under_way();
        for part in &under_way {
            self.tell(rt, part.place, Answer::Memory);
        }
        if under_way.is_empty() {
            self.tell_all(rt, Denial::Memory);
        }
    }

    /// Answers all requests, those that were taken and those that wait, that they are late.
    pub fn turn_away<R: Wait>(&self, rt: &R) {
        self.tell_all(rt, Denial::Late);
    }

    /// Says that no request is answered any more, of a replica that is broken, or that serves no longer.
    pub fn end<R: Wait>(&self, rt: &R, is_broken: bool) {
        let end = if is_broken {
            Denial::Broken
        } else {
            Denial::Late
        };
        self.waiting.lock(rt).end = Some(end);
        self.tell_all(rt, end);
    }

    /// Says that clients are served no longer, and why.
    pub fn fail<R: Wait>(&self, rt: &R, fault: io::Error) {
        self.waiting.lock(rt).fault = Some(fault);
    }

    /// Whether it was said that the replica is broken.
    pub fn is_broken<R: Wait>(&self, rt: &R) -> bool {
        matches!(self.waiting.lock(rt).end, Some(Denial::Broken))
    }

    /// Why clients are served no longer, if that was said and not taken before.
    pub fn take_fault<R: Wait>(&self, rt: &R) -> Option<io::Error> {
        self.waiting.lock(rt).fault.take()
    }

    /// Notes the tables as they are at the newest report.
    pub fn note_tables<R: Wait>(&self, rt: &R, tables: Tables) {
        *self.tables.lock(rt) = Some(tables);
    }

    /// The tables that were noted last; `None` before. Fails only if out of memory.
    pub fn tables<R: Wait>(&self, rt: &R) -> Result<Option<Tables>, AllocError> {
        match &*self.tables.lock(rt) {
            Some(tables) => Ok(Some(tables.clone()?)),
            None => Ok(None),
        }
    }

    /// Answers so all requests that there are now. Clients that ask again meanwhile wait behind these: so many are taken, and no more,
    /// or clients that never stop would keep the thread that serves the replica.
    fn tell_all<R: Wait>(&self, rt: &R, why: Denial) {
        let count = self.waiting.lock(rt).count();
        for _ in 0..count {
            let Some(place) = self.waiting.lock(rt).take_any() else {
                return;
            };
            self.tell(rt, place, denied(why));
        }
    }

    /// Hands the client at a place its answer.
    fn tell<R: Wait>(&self, rt: &R, place: usize, answer: Answer) {
        if let Some(place) = self.places.get(place) {
            place.tell(rt, answer);
        }
    }
}

/// The answer of a request that has no report.
fn denied(why: Denial) -> Answer {
    match why {
        Denial::Late => Answer::Late,
        Denial::Broken => Answer::Broken,
        Denial::Memory => Answer::Memory,
    }
}

/// The part of a report of each of these requests. Fails only if out of memory, if it is a report of all of them.
fn split(alloc: Global, under_way: &[Part], report: &[u8]) -> Result<Vec<Vec<u8>>, AllocError>
    ensures { (version : ℕ) (answers : List (List (List Field))) → report.now ≡ report_text version answers
        → sum (map count_of under_way.now) ≤ length answers
        → IfOk result (λ parts. map (λ part. part.items) parts.items ≡ report_parts version (map count_of under_way.now) answers) }
{
    let counts = counts_of(alloc, under_way)?;
    match parts_of(alloc, report, counts.as_slice()) {
        Ok(parts) => Ok(parts),
        Err(_) => Err(AllocError),
    }
}

/// How many queries each of these requests has.
fn counts_of(alloc: Global, under_way: &[Part]) -> Result<Vec<usize>, AllocError>
    ensures { IfOk result (λ counts. counts.items ≡ map count_of under_way.now) }
{
    let mut counts = Vec::with_capacity(alloc, under_way.len())?;
    for part in under_way {
        counts.push(part.count)?;
    }
    Ok(counts)
}
