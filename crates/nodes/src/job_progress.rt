//! How many jobs of an input that was read before are done, which is said once a second.

ghost use Rattle.std.specs.Prelude.{◌≡◌, ◌+◌, ◌^◌, ◌<◌, ◌≤◌, slice_index};
ghost use Rattle.rows.specs.Limits.{workers_max};

use crate::host::Host;
use crate::progress::{Progress, percent_of};
use rows::limits::WORKERS_MAX;
use sockets::Gate;
use std::io::Write;
use std::rt::Clock;
use std::sync::{Mutex, Wait};

/// How many workers there are, at most.
const WORKERS: usize = WORKERS_MAX as usize;

/// Counts the jobs whose commit was answered, and says once a second how many they are, if it is to.
///
/// A job that is done again counts once, and one that is refused before it could commit does not count.
#[derive(Drop)]
pub struct JobProgress<'a, T, E> {
    host: Host<'a, T>,
    shows: bool,
    /// How many jobs there are.
    all: u64,
    counts: Mutex<Counts<'a, T>>,
    errors: Mutex<E>,
}

/// What is known of the jobs so far, and when something was said of them.
#[derive(Drop)]
struct Counts<'a, T> {
    progress: Progress<'a, T>,
    answered: Answered,
}

/// How many jobs were answered, and up to which each worker came: the index behind its last one.
#[derive(Drop)]
struct Answered {
    count: u64,
    reached: [usize; WORKERS],
}

impl<'a, T: Clock, E> JobProgress<'a, T, E> {
    /// Of so many jobs, of which none is done.
    pub fn begin(host: Host<'a, T>, shows: bool, all: usize, errors: E) -> JobProgress<'a, T, E> {
        JobProgress {
            host,
            shows,
            all: all as u64,
            counts: Mutex::new(Counts {
                progress: Progress::begin(host, shows),
                answered: Answered {
                    count: 0,
                    reached: [0; WORKERS],
                },
            }),
            errors: Mutex::new(errors),
        }
    }
}

impl Answered {
    /// Counts the job of that index, which is of this worker, unless it was counted: a worker does its jobs in their order.
    fn count(&mut self, worker: u8, job: usize)
        ensures first { worker < workers_max → slice_index self.old.reached worker ≤ job → self.old.count + 1 < 2 ^ 64
            → self.new.count ≡ self.old.count + 1 }
        ensures again { worker < workers_max → job < slice_index self.old.reached worker → self.new ≡ self.old }
        ensures reached { worker < workers_max → job + 1 < 2 ^ 64 → job < slice_index self.new.reached worker }
    {
        let worker = worker as usize;
        if worker < WORKERS && self.reached[worker] <= job {
            self.reached[worker] = job.saturating_add(1);
            self.count = self.count.saturating_add(1);
        }
    }
}

impl<'a, T: Clock + Wait, E: Write> JobProgress<'a, T, E> {
    /// Counts a job. How many were answered, and how many a second, if that is to be said now.
    fn counted(&self, worker: u8, job: usize) -> Option<(u64, u64)> {
        let mut guard = self.counts.lock(self.host.rt);
        let counts = &mut *guard;
        counts.answered.count(worker, job);
        if !counts.progress.is_due() {
            return None;
        }
        let count = counts.answered.count;
        Some((count, counts.progress.rate(count)))
    }
}

impl<'a, T: Clock + Wait, E: Write> Gate for JobProgress<'a, T, E> {
    fn before(&self, _worker: u8, _job: usize) {}

    fn answered(&self, worker: u8, job: usize) {
        if !self.shows {
            return;
        }
        if let Some((answered, rate)) = self.counted(worker, job) {
            let all = self.all;
            let percent = percent_of(answered, all);
            let mut errors = self.errors.lock(self.host.rt);
            let _ = writeln!(
                &mut *errors,
                "did {answered} of {all} jobs ({percent} %), {rate} a second"
            );
        }
    }
}
