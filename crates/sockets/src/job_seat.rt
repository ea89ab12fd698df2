//! A seat at which the jobs of one worker are done, several with one flush.

ghost use Rattle.std.specs.Prelude.{◌≡◌, ◌+◌, ◌<◌, ◌≤◌, ℕ, [], ◌∷◌, ◌++◌, length, true, is_some, IfErr, IfOk, MatchResult};
ghost use Rattle.std.specs.Prelude.{vec_capacity};
ghost use mathlib.Core.List.{IsPrefix};
ghost use Rattle.rows.specs.Shape.{shape_of};
ghost use Rattle.journal.specs.Recovery.{IsJournaled};
ghost use Rattle.sockets.specs.Inner.JobSeats.{AreSettled, told_of, taken_of};
ghost use Rattle.sockets.specs.JobSeats.{GoesOn, Ends, outcomes};
ghost use Rattle.sockets.specs.Work.{jobs_of, shared_jobs_max};

use crate::doing::{Attempt, commit_job, flushed, settled};
use crate::faults::WorkersFault;
use crate::gate::Gate;
use crate::job::Job;
use crate::job_answer::JobAnswer;
use journal::JournalStore;
use primary::Ticket;
use shared::{Line, Origin, Seat};
use std::alloc::Global;
use std::marker::Model;
use std::sync::Wait;

/// How many commits of a worker share a flush, at most.
pub const SHARED_JOBS_MAX: usize = 1024;

/// A seat with the answers of the first jobs that were done at it, and the tickets of the jobs after
/// them, whose commits are pending.
///
/// Contracts see the seat, these answers and these tickets. There is room for the answers of all.
#[derive(Drop)]
pub struct JobSeat<L: Origin> {
    seat: Seat<L>,
    answers: Vec<JobAnswer>,
    pending: Vec<Ticket>,
}

impl<L: Origin> Model for JobSeat<L> {
    ghost use Rattle.std.specs.Prelude.{◌+◌, ◌≤◌, vec_capacity, vec_len};
    ghost use Rattle.sockets.specs.JobSeats.{JobSeatState};
    ghost use Rattle.sockets.specs.Work.{shared_jobs_max};

    ghost Value = { JobSeatState };

    ghost view = { λ s. record { seat = s.seat; answers = s.answers.items; pending = s.pending.items } };

    ghost invariant = { λ s. (vec_len s.answers + vec_len s.pending ≤ vec_capacity s.answers) × (vec_len s.pending ≤ shared_jobs_max) };
}

impl<L: Origin> JobSeat<L> {
    /// A seat at which no job was done. Takes no memory.
    pub fn new(alloc: Global, seat: Seat<L>) -> JobSeat<L>
        ensures { result ≡ record { seat = seat; answers = []; pending = [] } }
    {
        JobSeat {
            seat,
            answers: Vec::new(alloc),
            pending: Vec::new(alloc),
        }
    }

    /// The answers so far, of the first jobs, lent.
    pub fn answers(&self) -> &[JobAnswer]
        ensures { result.now ≡ self.now.answers }
    {
        self.answers.as_slice()
    }

    /// How many jobs were taken: those that are answered, and those whose commits are pending. Takes no
    /// memory.
    pub fn taken(&self) -> usize
        ensures { result ≡ length (outcomes self.now) }
    {
        self.answers.len() + self.pending.len()
    }

    /// The seat; the answers are dropped. Takes no memory.
    pub fn into_seat(self) -> Seat<L>
        ensures { result ≡ self.seat }
    {
        let JobSeat { seat, .. } = self;
        seat
    }

    /// Forgets all answers and tickets.
    pub fn clear(&mut self)
        ensures legal { IsJournaled L.workers (shape_of L.schema) self.new.seat.list }
        ensures same { self.new ≡ record { seat = self.old.seat; answers = []; pending = [] } }
    {
        self.pending.clear();
        self.answers.clear();
        self.seat.keeps_legal();
    }

    /// Takes all jobs of the worker of that number, in their order, up to the first one that ends by a
    /// fault. It may wait.
    pub(crate) fn takes_all<J: JournalStore + Drop, R: Wait + Drop, W: Wait, G: Gate>(
        &mut self,
        rt: &W,
        alloc: Global,
        line: &Line<L, J, R>,
        number: usize,
        jobs: &[Job],
        gate: &G,
    ) -> Result<(), WorkersFault>
        requires { number < L.workers }
        ensures taken { MatchResult result (λ _. GoesOn L.workers (shape_of L.schema) 0 (jobs_of number jobs.now) self.old self.new)
            (λ fault. Ends L.workers (shape_of L.schema) 0 (jobs_of number jobs.now) self.old self.new) }
        ensures fault { IfErr result (λ fault. ¬ (fault ≡ WorkersFault.NoSeat)) }
    {
        for (index, job) in jobs.iter().enumerate() {
            if job.worker as usize == number {
                match self.takes(rt, alloc, line, index, job, gate) {
                    Ok(_) => {}
                    Err(fault) => return Err(fault),
                }
            }
        }
        Ok(())
    }

    /// Takes a job of its worker: it is answered, or its commit is pending. Returns what it is answered, a
    /// ticket also where the commit is pending: then only if `settles` ends well it is durable. It may
    /// wait.
    ///
    /// Jobs may share a flush where nothing tells them apart from jobs that are done one after the
    /// other. So what is pending is settled before a job that has a condition, and a job that is refused
    /// or in conflict while something is pending is done again after that is settled; only the second
    /// answer counts.
    ///
    /// The gate is notified before and after each commit; `index` is the job's number for the gate.
    ///
    /// Fails with `Journal` if the journal failed, or with `Memory` if out of memory, also for publishing
    /// what is durable; the job is then not committed. If what was pending was to be settled, some of it
    /// may then stay unanswered: fewer jobs are taken than before. Otherwise nothing is lost. `NoSeat`
    /// never occurs.
    pub fn takes<J: JournalStore + Drop, R: Wait + Drop, W: Wait, G: Gate>(
        &mut self,
        rt: &W,
        alloc: Global,
        line: &Line<L, J, R>,
        index: usize,
        job: &Job,
        gate: &G,
    ) -> Result<JobAnswer, WorkersFault>
        requires { job.now.worker < L.workers }
        ensures taken { MatchResult result (λ _. GoesOn L.workers (shape_of L.schema) 0 (job.now ∷ []) self.old self.new)
            (λ fault. Ends L.workers (shape_of L.schema) 0 [] self.old self.new) }
        ensures kept { MatchResult result (λ answer. outcomes self.new ≡ outcomes self.old ++ answer ∷ [])
            (λ _. IsPrefix (outcomes self.new) (outcomes self.old)) }
        ensures whole { IfErr result (λ _. length (outcomes self.new) ≡ length (outcomes self.old)
            → GoesOn L.workers (shape_of L.schema) 0 [] self.old self.new) }
        ensures fault { IfErr result (λ fault. ¬ (fault ≡ WorkersFault.NoSeat)) }
    {
        match self.makes_way(rt, line, job) {
            Ok(()) => {}
            Err(fault) => return Err(fault),
        }
        match self.tries(rt, alloc, line, index, job, gate) {
            Ok(Some(answer)) => Ok(answer),
            Ok(None) => self.tries_again(rt, alloc, line, index, job, gate),
            Err(fault) => Err(fault),
        }
    }

    /// Settles what is pending, if the job has a condition or no commit more may share the flush.
    fn makes_way<J: JournalStore + Drop, R: Wait + Drop, W: Wait>(
        &mut self,
        rt: &W,
        line: &Line<L, J, R>,
        job: &Job,
    ) -> Result<(), WorkersFault>
        ensures settled { MatchResult result (λ _. GoesOn L.workers (shape_of L.schema) 0 [] self.old self.new)
            (λ fault. Ends L.workers (shape_of L.schema) 0 [] self.old self.new) }
        ensures kept { MatchResult result (λ _. outcomes self.new ≡ outcomes self.old)
            (λ _. IsPrefix (outcomes self.new) (outcomes self.old)) }
        ensures whole { IfErr result (λ _. length (outcomes self.new) ≡ length (outcomes self.old)
            → GoesOn L.workers (shape_of L.schema) 0 [] self.old self.new) }
        ensures room { IfOk result (λ _. length self.new.pending < shared_jobs_max) }
        ensures fault { IfErr result (λ fault. ¬ (fault ≡ WorkersFault.NoSeat)) }
    {
        if self.pending.len() < SHARED_JOBS_MAX && !job.has_condition() {
            return Ok(());
        }
        self.settles(rt, line)
    }

    /// Does a job again after what is pending is settled.
    fn tries_again<J: JournalStore + Drop, R: Wait + Drop, W: Wait, G: Gate>(
        &mut self,
        rt: &W,
        alloc: Global,
        line: &Line<L, J, R>,
        index: usize,
        job: &Job,
        gate: &G,
    ) -> Result<JobAnswer, WorkersFault>
        requires { job.now.worker < L.workers }
        ensures taken { MatchResult result (λ _. GoesOn L.workers (shape_of L.schema) 0 (job.now ∷ []) self.old self.new)
            (λ fault. Ends L.workers (shape_of L.schema) 0 [] self.old self.new) }
        ensures kept { MatchResult result (λ answer. outcomes self.new ≡ outcomes self.old ++ answer ∷ [])
            (λ _. IsPrefix (outcomes self.new) (outcomes self.old)) }
        ensures whole { IfErr result (λ _. length (outcomes self.new) ≡ length (outcomes self.old)
            → GoesOn L.workers (shape_of L.schema) 0 [] self.old self.new) }
        ensures fault { IfErr result (λ fault. ¬ (fault ≡ WorkersFault.NoSeat)) }
    {
        match self.settles(rt, line) {
            Ok(()) => {}
            Err(fault) => return Err(fault),
        }
        match self.tries(rt, alloc, line, index, job, gate) {
            Ok(Some(answer)) => Ok(answer),
            // Nothing is pending any more.
            Ok(None) => unreachable!(),
            Err(fault) => Err(fault),
        }
    }

    /// Tries a job: its commit is then pending, or, if nothing is pending, it is answered. `None`: it was
    /// refused or in conflict while something is pending, and that answer does not count.
    ///
    /// Room for the answer and the ticket is taken first, so that no answer is lost.
    fn tries<J: JournalStore + Drop, R: Wait + Drop, W: Wait, G: Gate>(
        &mut self,
        rt: &W,
        alloc: Global,
        line: &Line<L, J, R>,
        index: usize,
        job: &Job,
        gate: &G,
    ) -> Result<Option<JobAnswer>, WorkersFault>
        requires worker { job.now.worker < L.workers }
        requires room { length self.old.pending < shared_jobs_max }
        ensures tried { MatchResult result
            (λ told. GoesOn L.workers (shape_of L.schema) 0 (taken_of job.now told) self.old self.new)
            (λ fault. GoesOn L.workers (shape_of L.schema) 0 [] self.old self.new) }
        ensures kept { MatchResult result (λ told. outcomes self.new ≡ outcomes self.old ++ told_of told)
            (λ _. outcomes self.new ≡ outcomes self.old) }
        ensures taken { self.old.pending ≡ [] → IfOk result (λ told. is_some told ≡ true) }
        ensures fault { IfErr result (λ fault. ¬ (fault ≡ WorkersFault.NoSeat)) }
    {
        let JobSeat {
            seat,
            answers,
            pending,
        } = self;
        if answers.reserve(pending.len() + 1).is_err() {
            return Err(WorkersFault::Memory);
        }
        if pending.reserve(1).is_err() {
            return Err(WorkersFault::Memory);
        }
        let answer = match commit_job(rt, alloc, line, seat, index, job, gate) {
            Ok(Attempt::Pending(ticket)) => {
                let answer = JobAnswer::Ticket(ticket.number);
                pending.push_reserved(ticket);
                return Ok(Some(answer));
            }
            Ok(Attempt::Answered(answer)) => answer,
            Err(fault) => return Err(fault),
        };
        if !pending.is_empty() {
            return Ok(None);
        }
        answers.push_reserved(answer);
        Ok(Some(answer))
    }

    /// Makes everything pending durable, and answers the jobs whose commits were pending, in their order.
    /// It may wait.
    ///
    /// Fails with `Journal` if the journal failed, or with `Memory` if memory was refused; the jobs that
    /// were not answered then stay so, though their commits may be durable.
    pub fn settles<J: JournalStore + Drop, R: Wait + Drop, W: Wait>(
        &mut self,
        rt: &W,
        line: &Line<L, J, R>,
    ) -> Result<(), WorkersFault>
        ensures none { self.new.pending ≡ [] }
        ensures settled { (lost : ℕ) → MatchResult result (λ _. GoesOn L.workers (shape_of L.schema) lost [] self.old self.new)
            (λ fault. Ends L.workers (shape_of L.schema) lost [] self.old self.new) }
        ensures kept { MatchResult result (λ _. outcomes self.new ≡ outcomes self.old)
            (λ _. IsPrefix (outcomes self.new) (outcomes self.old)) }
        ensures whole { IfErr result (λ _. length (outcomes self.new) ≡ length (outcomes self.old)
            → GoesOn L.workers (shape_of L.schema) 0 [] self.old self.new) }
        ensures fault { IfErr result (λ fault. ¬ (fault ≡ WorkersFault.NoSeat)) }
    {
        if self.pending.is_empty() {
            return Ok(());
        }
        let JobSeat {
            seat,
            answers,
            pending,
        } = self;
        if let Err(fault) = flushed(rt, line, seat) {
            pending.clear();
            return Err(fault);
        }
        let settled = settle_each(rt, line, seat, pending.as_slice(), answers);
        pending.clear();
        settled
    }

    /// Lets the seat meet another one: both take the longer of their lists. Takes no memory.
    pub(crate) fn meets(&mut self, other: &mut JobSeat<L>)
        ensures one { self.new.seat.list ≡ other.new.seat.list }
        ensures legal { IsJournaled L.workers (shape_of L.schema) self.new.seat.list }
        ensures mine { IsPrefix self.old.seat.list self.new.seat.list }
        ensures theirs { IsPrefix other.old.seat.list other.new.seat.list }
        ensures same { (self.new ≡ record self.old { seat = record self.old.seat { list = self.new.seat.list } })
            × (other.new ≡ record other.old { seat = record other.old.seat { list = other.new.seat.list } }) }
    {
        self.seat.meet(&mut other.seat);
    }
}

/// Acknowledges these tickets in their order after a flush, up to the first that is not settled. There is
/// room for all answers. It may wait.
///
/// Fails as `settled` does.
fn settle_each<L: Origin, J: JournalStore, R: Wait + Drop, W: Wait>(
    rt: &W,
    line: &Line<L, J, R>,
    seat: &mut Seat<L>,
    tickets: &[Ticket],
    answers: &mut Vec<JobAnswer>,
) -> Result<(), WorkersFault>
    requires legal { IsJournaled L.workers (shape_of L.schema) seat.old.list }
    requires room { length answers.old.items + length tickets.now ≤ vec_capacity answers.old }
    ensures legal { IsJournaled L.workers (shape_of L.schema) seat.new.list }
    ensures later { IsPrefix seat.old.list seat.new.list }
    ensures same { seat.new ≡ record seat.old { list = seat.new.list } }
    ensures settled { MatchResult result
        (λ _. AreSettled (length tickets.now) tickets.now seat.new.list answers.old.items answers.new.items)
        (λ fault. (count : ℕ) × AreSettled count tickets.now seat.new.list answers.old.items answers.new.items) }
    ensures capacity { vec_capacity answers.new ≡ vec_capacity answers.old }
    ensures fault { IfErr result (λ fault. ¬ (fault ≡ WorkersFault.NoSeat)) }
{
    for ticket in tickets {
        match settled(rt, line, seat, ticket) {
            Ok(answer) => answers.push_reserved(answer),
            Err(fault) => return Err(fault),
        }
    }
    Ok(())
}
