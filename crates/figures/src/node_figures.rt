//! The figures of a node.

use crate::counts::{Datagrams, JobCounts};
use crate::replica_figures::{LastTold, ReplicaFigures};
use sockets::{JobAnswer, Traffic};
use std::alloc::{AllocError, Global};
use std::sync::atomic::{AtomicU64, Ordering};

/// The statuses of answers over HTTP that are counted, each by itself.
pub const STATUSES: [u16; 7] = [200, 400, 404, 405, 409, 500, 503];

/// What the threads of a node count.
#[derive(Drop)]
pub struct Figures {
    /// The jobs that have tickets, that are in conflict, and that are refused.
    tickets: AtomicU64,
    conflicts: AtomicU64,
    refusals: AtomicU64,
    /// The datagrams of the node's port.
    received: AtomicU64,
    ignored: AtomicU64,
    sent: AtomicU64,
    lost: AtomicU64,
    /// How many milliseconds the node has served, as it was noted last.
    now: AtomicU64,
    /// How many seconds there are since 1970, as it was noted last; 0 before.
    date: AtomicU64,
    /// For each replica.
    replicas: Vec<ReplicaFigures>,
    /// For each status of `STATUSES`, how many requests were answered so.
    answers: Vec<AtomicU64>,
    /// The rounds over HTTP that had jobs and stand, the connections that there are, and those for which there was no place.
    rounds: AtomicU64,
    connections: AtomicU64,
    turned_away: AtomicU64,
    /// The version of a replica's newest report, its reports, and the queries that these answer.
    applied: AtomicU64,
    batches: AtomicU64,
    queries: AtomicU64,
}

impl Figures {
    /// Of a node with so many replicas, of which nothing was counted. Fails only if out of memory.
    pub fn new(alloc: Global, replicas: u8) -> Result<Figures, AllocError> {
        let mut figures = Figures::without_replicas(alloc);
        for _ in 0..replicas {
            figures.replicas.push(ReplicaFigures::new())?;
        }
        for _ in STATUSES {
            figures.answers.push(AtomicU64::new(0))?;
        }
        Ok(figures)
    }

    /// Of a node that notes neither its replicas nor statuses. Takes no memory.
    pub fn without_replicas(alloc: Global) -> Figures {
        Figures {
            tickets: AtomicU64::new(0),
            conflicts: AtomicU64::new(0),
            refusals: AtomicU64::new(0),
            received: AtomicU64::new(0),
            ignored: AtomicU64::new(0),
            sent: AtomicU64::new(0),
            lost: AtomicU64::new(0),
            now: AtomicU64::new(0),
            date: AtomicU64::new(0),
            replicas: Vec::new(alloc),
            answers: Vec::new(alloc),
            rounds: AtomicU64::new(0),
            connections: AtomicU64::new(0),
            turned_away: AtomicU64::new(0),
            applied: AtomicU64::new(0),
            batches: AtomicU64::new(0),
            queries: AtomicU64::new(0),
        }
    }

    /// Counts what jobs were answered.
    pub fn note_jobs(&self, answers: &[JobAnswer]) {
        for answer in answers {
            let counter = match answer {
                JobAnswer::Ticket(_) => &self.tickets,
                JobAnswer::Conflict(_) => &self.conflicts,
                JobAnswer::Refused(_) => &self.refusals,
            };
            counter.fetch_add(1, Ordering::SeqCst);
        }
    }

    /// Counts a job that is refused because a line of it does not read.
    pub fn note_unread(&self) {
        self.refusals.fetch_add(1, Ordering::SeqCst);
    }

    /// How many jobs were answered, and how.
    pub fn jobs(&self) -> JobCounts {
        JobCounts {
            ticket: self.tickets.load(Ordering::SeqCst),
            conflict: self.conflicts.load(Ordering::SeqCst),
            refused: self.refusals.load(Ordering::SeqCst),
        }
    }

    /// Notes what went through the node's port so far.
    pub fn note_traffic(&self, traffic: Traffic) {
        self.received.store(traffic.received, Ordering::SeqCst);
        self.ignored.store(traffic.ignored, Ordering::SeqCst);
        self.sent.store(traffic.sent, Ordering::SeqCst);
        self.lost.store(traffic.lost, Ordering::SeqCst);
    }

    /// How many datagrams went through the node's port.
    pub fn datagrams(&self) -> Datagrams {
        Datagrams {
            received: self.received.load(Ordering::SeqCst),
            ignored: self.ignored.load(Ordering::SeqCst),
            sent: self.sent.load(Ordering::SeqCst),
            lost: self.lost.load(Ordering::SeqCst),
        }
    }

    /// Notes how many milliseconds the node has served.
    pub fn note_time(&self, millis: u64) {
        self.now.store(millis, Ordering::SeqCst);
    }

    /// Notes how many seconds there are since 1970.
    pub fn note_date(&self, seconds: u64) {
        self.date.store(seconds, Ordering::SeqCst);
    }

    /// How many seconds there were since 1970 when that was noted last; 0 before.
    pub fn date(&self) -> u64 {
        self.date.load(Ordering::SeqCst)
    }

    /// Notes that a replica was told a version just now. Without such a replica it does nothing.
    pub fn note_told(&self, replica: u8, version: u64) {
        if let Some(figures) = self.replicas.get(replica as usize) {
            figures.note(version, self.now.load(Ordering::SeqCst));
        }
    }

    /// How many replicas there are.
    pub fn replicas(&self) -> usize {
        self.replicas.len()
    }

    /// What a replica was told last, if it has asked.
    pub fn last_told(&self, replica: usize) -> Option<LastTold> {
        match self.replicas.get(replica) {
            Some(figures) => figures.last_told(self.now.load(Ordering::SeqCst)),
            None => None,
        }
    }

    /// Counts a request over HTTP that is answered with this status, if it is one of `STATUSES`.
    pub fn note_status(&self, status: u16) {
        for (index, counter) in self.answers.iter().enumerate() {
            if STATUSES.get(index) == Some(&status) {
                counter.fetch_add(1, Ordering::SeqCst);
            }
        }
    }

    /// How many requests were answered with the status at this place of `STATUSES`.
    pub fn answered(&self, index: usize) -> u64 {
        match self.answers.get(index) {
            Some(counter) => counter.load(Ordering::SeqCst),
            None => 0,
        }
    }

    /// Counts a round over HTTP that had jobs and stands.
    pub fn note_round(&self) {
        self.rounds.fetch_add(1, Ordering::SeqCst);
    }

    /// How many rounds over HTTP had jobs and stand.
    pub fn rounds(&self) -> u64 {
        self.rounds.load(Ordering::SeqCst)
    }

    /// Notes how many connections there are, and for how many there was no place so far.
    pub fn note_connections(&self, connections: u64, turned_away: u64) {
        self.connections.store(connections, Ordering::SeqCst);
        self.turned_away.store(turned_away, Ordering::SeqCst);
    }

    /// How many connections there were when that was noted last.
    pub fn connections(&self) -> u64 {
        self.connections.load(Ordering::SeqCst)
    }

    /// Notes a replica's report of so many queries, at this version.
    pub fn note_batch(&self, version: u64, queries: u64) {
        self.applied.store(version, Ordering::SeqCst);
        self.batches.fetch_add(1, Ordering::SeqCst);
        self.queries.fetch_add(queries, Ordering::SeqCst);
    }

    /// The version of a replica's newest report; 0 before the first.
    pub fn applied(&self) -> u64 {
        self.applied.load(Ordering::SeqCst)
    }

    /// How many reports a replica has made.
    pub fn batches(&self) -> u64 {
        self.batches.load(Ordering::SeqCst)
    }

    /// How many queries these answer.
    pub fn queries(&self) -> u64 {
        self.queries.load(Ordering::SeqCst)
    }

    /// Counts a connection that begins.
    pub fn begin_connection(&self) {
        self.connections.fetch_add(1, Ordering::SeqCst);
    }

    /// Counts a connection that ends.
    pub fn end_connection(&self) {
        self.connections.fetch_sub(1, Ordering::SeqCst);
    }

    /// Notes for how many connections there was no place so far.
    pub fn note_turned_away(&self, turned_away: u64) {
        self.turned_away.store(turned_away, Ordering::SeqCst);
    }

    /// For how many connections there was no place.
    pub fn turned_away(&self) -> u64 {
        self.turned_away.load(Ordering::SeqCst)
    }
}
