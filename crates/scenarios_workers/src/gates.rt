//! Gates of the scenarios.

use sockets::Gate;
use std::sync::atomic::{AtomicU64, Ordering};
use std::thread;

/// Turns that a worker is held, at most.
const TURNS: u32 = 1_000_000;

/// Waits for a flag in counted turns, and answers whether it came.
fn is_raised(flag: &AtomicU64) -> bool {
    for _ in 0..TURNS {
        if flag.load(Ordering::SeqCst) != 0 {
            return true;
        }
        thread::yield_now();
    }
    false
}

/// Holds one worker before its first commit until a commit of another one is answered, in counted turns.
#[derive(Drop)]
pub struct Turnstile {
    held: u8,
    answered: AtomicU64,
    used_up: AtomicU64,
    /// The sum of the places of the jobs that it was told of.
    told: AtomicU64,
}

impl Turnstile {
    /// A gate that holds this worker.
    pub fn new(held: u8) -> Turnstile {
        Turnstile {
            held,
            answered: AtomicU64::new(0),
            used_up: AtomicU64::new(0),
            told: AtomicU64::new(0),
        }
    }

    /// Whether it was told of the commits of so many jobs, of each before and after it and by its index, and
    /// the turns of none ran out.
    pub fn was_passed(&self, jobs: u64) -> bool {
        let places = jobs.wrapping_mul(jobs.wrapping_add(1));
        self.used_up.load(Ordering::SeqCst) == 0 && self.told.load(Ordering::SeqCst) == places
    }

    /// Counts that it was told of this job, by its place from 1 on.
    fn note(&self, job: usize) {
        self.told
            .fetch_add((job as u64).wrapping_add(1), Ordering::SeqCst);
    }
}

impl Gate for Turnstile {
    fn before(&self, worker: u8, job: usize) {
        self.note(job);
        if worker == self.held && !is_raised(&self.answered) {
            self.used_up.store(1, Ordering::SeqCst);
        }
    }

    fn answered(&self, worker: u8, job: usize) {
        self.note(job);
        if worker != self.held {
            self.answered.store(1, Ordering::SeqCst);
        }
    }
}

/// Has worker 0 and another one meet before their first commits, and then lets the other one go first.
#[derive(Drop)]
pub struct Meeting {
    arrived: AtomicU64,
    answered: AtomicU64,
}

impl Meeting {
    /// Nobody has come yet.
    pub fn new() -> Meeting {
        Meeting {
            arrived: AtomicU64::new(0),
            answered: AtomicU64::new(0),
        }
    }
}

impl Gate for Meeting {
    fn before(&self, worker: u8, _job: usize) {
        if worker == 0 {
            self.arrived.store(1, Ordering::SeqCst);
            let _ = is_raised(&self.answered);
        } else {
            let _ = is_raised(&self.arrived);
        }
    }

    fn answered(&self, worker: u8, _job: usize) {
        if worker != 0 {
            self.answered.store(1, Ordering::SeqCst);
        }
    }
}

/// Counts the commits.
#[derive(Drop)]
pub struct Counter {
    before: AtomicU64,
    answered: AtomicU64,
}

impl Counter {
    /// No commit was counted.
    pub fn new() -> Counter {
        Counter {
            before: AtomicU64::new(0),
            answered: AtomicU64::new(0),
        }
    }

    /// How often the gate was told, before a commit and after one.
    pub fn counts(&self) -> (u64, u64) {
        (
            self.before.load(Ordering::SeqCst),
            self.answered.load(Ordering::SeqCst),
        )
    }
}

impl Gate for Counter {
    fn before(&self, _worker: u8, _job: usize) {
        self.before.fetch_add(1, Ordering::SeqCst);
    }

    fn answered(&self, _worker: u8, _job: usize) {
        self.answered.fetch_add(1, Ordering::SeqCst);
    }
}
