//! A worker at its seat.

ghost use Rattle.std.specs.Prelude.{◌≡◌, ◌<◌, [], None};
ghost use Rattle.rows.specs.Shape.{shape_of};
ghost use Rattle.sockets.specs.Inner.Jobs.{HasMet};
ghost use Rattle.sockets.specs.Inner.JobSeats.{fault_of};
ghost use Rattle.sockets.specs.Work.{HasWorked};

use crate::faults::WorkersFault;
use crate::gate::Gate;
use crate::job::Job;
use crate::job_answer::JobAnswer;
use crate::job_seat::JobSeat;
use journal::JournalStore;
use shared::{Line, Origin, Seat};
use std::alloc::Global;
use std::marker::Model;
use std::sync::Wait;

/// A worker: its seat, and how many of its jobs it has done.
///
/// Contracts see the seat, the answers of its first jobs, in their order, and why it ended before
/// its last one, if it did.
#[derive(Drop)]
pub struct Worker<L: Origin> {
    job_seat: JobSeat<L>,
    fault: Option<WorkersFault>,
}

impl<L: Origin> Model for Worker<L> {
    ghost use Rattle.sockets.specs.Worker.{WorkerState};

    ghost Value = { WorkerState };

    ghost view = { λ w. record { seat = w.job_seat.seat; answers = w.job_seat.answers; fault = w.fault } };
}

impl<L: Origin> Worker<L> {
    /// A worker at this seat, which has done no job. Takes no memory.
    pub fn new(alloc: Global, seat: Seat<L>) -> Worker<L>
        ensures { result ≡ record { seat = seat; answers = []; fault = None } }
    {
        Worker {
            job_seat: JobSeat::new(alloc, seat),
            fault: None,
        }
    }

    /// The answers of its first jobs, in their order, lent: of all jobs, unless a fault ended it.
    pub fn answers(&self) -> &[JobAnswer]
        ensures { result.now ≡ self.now.answers }
    {
        self.job_seat.answers()
    }

    /// Why it ended before its last job, if it did.
    pub fn fault(&self) -> Option<WorkersFault>
        ensures { result ≡ self.now.fault }
    {
        self.fault
    }

    /// Its seat; its answers are dropped. Takes no memory.
    pub fn into_seat(self) -> Seat<L>
        ensures { result ≡ self.seat }
    {
        let Worker { job_seat, .. } = self;
        job_seat.into_seat()
    }

    /// Does the jobs of the worker of that number, in their order, up to the first one that ends by
    /// a fault. Earlier answers are forgotten. It may wait.
    ///
    /// It commits several jobs, at most `SHARED_JOBS_MAX`, before it makes their commits durable with one
    /// flush and settles their tickets, where nothing tells them apart from jobs that are done one after
    /// the other: a job with a condition begins after the commits before it are settled, and a job that
    /// is refused or in conflict before that is done again after it. At the end all tickets are settled,
    /// also after a fault, as far as they can be.
    pub fn works<J: JournalStore + Drop, R: Wait + Drop, W: Wait, G: Gate>(
        &mut self,
        rt: &W,
        alloc: Global,
        line: &Line<L, J, R>,
        number: usize,
        jobs: &[Job],
        gate: &G,
    )
        requires { number < L.workers }
        ensures { HasWorked L.workers (shape_of L.schema) number jobs.now self.old self.new }
    {
        self.job_seat.clear();
        let ended = self.job_seat.takes_all(rt, alloc, line, number, jobs, gate);
        let settled = self.job_seat.settles(rt, line);
        self.fault = fault_of(ended, settled);
    }

    /// Lets its seat meet another worker's: both take the longer of their lists. Takes no memory.
    pub(crate) fn meets(&mut self, other: &mut Worker<L>)
        ensures one { self.new.seat.list ≡ other.new.seat.list }
        ensures mine { HasMet L.workers (shape_of L.schema) self.old self.new }
        ensures theirs { HasMet L.workers (shape_of L.schema) other.old other.new }
    {
        self.job_seat.meets(&mut other.job_seat);
    }
}

/// The fault by which a worker ended that took its jobs and settled what was pending, if it did.
fn fault_of(
    ended: Result<(), WorkersFault>,
    settled: Result<(), WorkersFault>,
) -> Option<WorkersFault>
    ensures { result ≡ fault_of ended settled }
{
    match ended {
        Ok(()) => settled.err(),
        Err(fault) => Some(fault),
    }
}
