//! One job at a seat: its commit, the flush that makes that durable, and its ticket.

ghost use Rattle.std.specs.Prelude.{◌≡◌, ◌<◌, length, IfOk, IfErr, MatchResult};
ghost use mathlib.Core.List.{IsPrefix};
ghost use Rattle.rows.specs.Shape.{shape_of};
ghost use Rattle.journal.specs.Recovery.{IsJournaled};
ghost use Rattle.desk.specs.Answers.{Stands};
ghost use Rattle.sockets.specs.Inner.Jobs.{IsAttempt, IsSeatTried};

use crate::drafting::{Stop, drafted};
use crate::faults::WorkersFault;
use crate::gate::Gate;
use crate::job::Job;
use crate::job_answer::JobAnswer;
use crate::refusal::Refusal;
use journal::JournalStore;
use primary::{CommitFault, FlushFault, Ticket};
use shared::{Line, Origin, Seat, Settled};
use std::alloc::Global;
use std::sync::Wait;

/// What became of a job before it is durable.
#[derive(Drop)]
pub(crate) enum Attempt {
    /// It is committed, and pending.
    Pending(Ticket),
    /// It is not committed, and this is its answer: a conflict or a refusal.
    Answered(JobAnswer),
}

/// Drafts a job at a seat, and commits the draft for the job's worker: the commit is then pending. The
/// gate is notified before and after the commit. It may wait.
///
/// Fails with `Journal` if the journal failed before, or with `Memory`; nothing is committed then.
pub(crate) fn commit_job<L: Origin, J: JournalStore + Drop, R: Wait + Drop, W: Wait, G: Gate>(
    rt: &W,
    alloc: Global,
    line: &Line<L, J, R>,
    seat: &mut Seat<L>,
    index: usize,
    job: &Job,
    gate: &G,
) -> Result<Attempt, WorkersFault>
    requires { job.now.worker < L.workers }
    ensures legal { IsJournaled L.workers (shape_of L.schema) seat.new.list }
    ensures later { IsPrefix seat.old.list seat.new.list }
    ensures answer { IfOk result (IsAttempt (shape_of L.schema) (length seat.old.list) seat.new.list job.now) }
    ensures seat { MatchResult result (IsSeatTried seat.old seat.new) (λ fault. seat.new ≡ record seat.old { list = seat.new.list }) }
    ensures fault { IfErr result (λ fault. ¬ (fault ≡ WorkersFault.NoSeat)) }
{
    let transaction = match drafted(alloc, seat, &job.steps) {
        Ok(transaction) => transaction,
        Err(Stop::Refused(refusal)) => return Ok(refused(refusal)),
        Err(Stop::Memory) => return Err(WorkersFault::Memory),
    };
    gate.before(job.worker, index);
    let committed = line.commit(rt, seat, transaction, job.worker);
    gate.answered(job.worker, index);
    match committed {
        Ok(ticket) => Ok(Attempt::Pending(ticket)),
        Err((_, CommitFault::Conflict(number))) => Ok(Attempt::Answered(JobAnswer::Conflict(
            number,
        ))),
        Err((_, CommitFault::ReadOnly)) => Ok(refused(Refusal::NoChange)),
        Err((_, CommitFault::Foreign)) => Ok(refused(Refusal::Foreign)),
        Err((_, CommitFault::NumbersUsedUp)) => Ok(refused(Refusal::NumbersUsedUp)),
        Err((_, CommitFault::Failed)) => Err(WorkersFault::Journal),
        Err((_, CommitFault::Memory)) => Err(WorkersFault::Memory),
    }
}

/// A job that is refused for this reason.
fn refused(refusal: Refusal) -> Attempt
    ensures { result ≡ Attempt.Answered (JobAnswer.Refused refusal) }
{
    Attempt::Answered(JobAnswer::Refused(refusal))
}

/// Makes everything pending durable. It may wait.
///
/// Fails with `Journal` if the journal failed, or with `Memory` if memory was refused; what is pending
/// may then be durable. `NoSeat` is never returned.
pub(crate) fn flushed<L: Origin, J: JournalStore + Drop, R: Wait + Drop, W: Wait>(
    rt: &W,
    line: &Line<L, J, R>,
    seat: &mut Seat<L>,
) -> Result<(), WorkersFault>
    ensures legal { IsJournaled L.workers (shape_of L.schema) seat.new.list }
    ensures later { IsPrefix seat.old.list seat.new.list }
    ensures same { seat.new ≡ record seat.old { list = seat.new.list } }
    ensures fault { IfErr result (λ fault. ¬ (fault ≡ WorkersFault.NoSeat)) }
{
    match line.flush(rt, seat, usize::MAX) {
        Ok(_) => Ok(()),
        Err(FlushFault::Memory) => Err(WorkersFault::Memory),
        Err(_) => Err(WorkersFault::Journal),
    }
}

/// Acknowledges the ticket of a commit after a flush, if the commit is settled: it is then durable, and
/// the seat has seen it under its number. It may wait.
///
/// Fails with `Memory` if memory was refused to publish what is durable; the commit may then be
/// durable. `NoSeat` is never returned.
///
/// A commit that is `Lost`, or `NotYet` durable, after a flush of everything pending is one that
/// the journal did not take as it should have. This never happens, whatever the schedule, and is
/// reported as `Journal`.
pub(crate) fn settled<L: Origin, J: JournalStore, R: Wait + Drop, W: Wait>(
    rt: &W,
    line: &Line<L, J, R>,
    seat: &mut Seat<L>,
    ticket: &Ticket,
) -> Result<JobAnswer, WorkersFault>
    ensures legal { IsJournaled L.workers (shape_of L.schema) seat.new.list }
    ensures later { IsPrefix seat.old.list seat.new.list }
    ensures same { seat.new ≡ record seat.old { list = seat.new.list } }
    ensures answer { IfOk result (λ answer. (answer ≡ JobAnswer.Ticket ticket.now.number) × Stands seat.new.list ticket.now) }
    ensures fault { IfErr result (λ fault. ¬ (fault ≡ WorkersFault.NoSeat)) }
{
    match line.settle(rt, seat, ticket) {
        Settled::Settled(number) => Ok(JobAnswer::Ticket(number)),
        Settled::Unpublished => Err(WorkersFault::Memory),
        Settled::Lost => Err(WorkersFault::Journal),
        Settled::NotYet => Err(WorkersFault::Journal),
    }
}
