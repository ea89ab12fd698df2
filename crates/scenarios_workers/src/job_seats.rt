//! Jobs that one seat takes: what each is answered at once, and how many are answered for good by then.

ghost use Rattle.std.specs.Prelude.{◌≡◌, ◌<◌};

use crate::cores::{core_on, some};
use crate::listed_jobs::{Wish, job_of};
use journal::MemJournal;
use mvcc::TxFault;
use primary::PrimaryCore;
use shared::{Line, Origin, Start};
use sockets::{JobAnswer, JobSeat, OpenGate, Refusal};
use std::alloc::Global;
use std::marker::Brand;
use std::sync::Wait;
use std::test::Fail;

/// The steps of a job of worker 0, what it is answered, and how many jobs are answered for good then.
type Taking = (&'static [Wish], JobAnswer, usize);

/// Why a row cannot be put in.
const EXISTS: Refusal = Refusal::Change {
    step: 0,
    fault: TxFault::Exists,
};

/// The second job and the fifth are refused while a commit is pending, and are done again after a flush; the
/// fourth has a condition, so it is done after one.
const TAKINGS: [Taking; 6] = [
    (&[Wish::Insert(7, 1, 2)], JobAnswer::Ticket(1), 0),
    (&[Wish::Set(7, 0, 3)], JobAnswer::Ticket(2), 1),
    (&[Wish::Insert(8, 1, 1)], JobAnswer::Ticket(3), 1),
    (
        &[Wish::Expect(7, 0, 3), Wish::Delete(7)],
        JobAnswer::Ticket(4),
        3,
    ),
    (&[Wish::Insert(8, 5, 5)], JobAnswer::Refused(EXISTS), 5),
    (&[Wish::Insert(9, 5, 5)], JobAnswer::Ticket(5), 5),
];

/// Whether a seat takes a job so.
fn takes_so<L: Origin, R: Wait>(
    rt: &R,
    alloc: Global,
    line: &Line<L, MemJournal, &R>,
    job_seat: &mut JobSeat<L>,
    taking: &Taking,
) -> Option<bool>
    requires { 0 < L.workers }
{
    let Ok(job) = job_of(alloc, 0, taking.0) else {
        return None;
    };
    if job.worker > 0 {
        return None;
    }
    match job_seat.takes(rt, alloc, line, 0, &job, &OpenGate) {
        Ok(answer) => Some(answer == taking.1 && job_seat.answers().len() == taking.2),
        Err(_) => None,
    }
}

/// Whether these are the answers of all jobs.
fn are_all(answers: &[JobAnswer]) -> bool {
    if answers.len() != TAKINGS.len() {
        return false;
    }
    for k in 0..answers.len() {
        if answers[k] != TAKINGS[k].1 {
            return false;
        }
    }
    true
}

/// Whether a seat takes each job so, and answers all of them once what is pending is settled.
fn takes_each<L: Origin, R: Wait>(
    rt: &R,
    alloc: Global,
    line: &Line<L, MemJournal, &R>,
    job_seat: &mut JobSeat<L>,
) -> Option<bool>
    requires { 0 < L.workers }
{
    let mut count: usize = 0;
    for taking in &TAKINGS {
        count = count.saturating_add(1);
        if !takes_so(rt, alloc, line, job_seat, taking)? || job_seat.taken() != count {
            return Some(false);
        }
    }
    match job_seat.settles(rt, line) {
        Ok(()) => Some(are_all(job_seat.answers())),
        Err(_) => None,
    }
}

/// Whether a seat of a line of this primary does.
fn takes_on_line<L: Origin, R: Wait>(
    rt: &R,
    alloc: Global,
    core: PrimaryCore<MemJournal>,
    start: Start,
) -> Option<bool>
    requires book { start.opened.seen.book ≡ L.book }
    requires schema { core.primary.schema ≡ L.schema }
    requires workers { core.primary.workers ≡ L.workers }
    requires first { core.primary ≡ L.first }
    requires name { start.blank.name ≡ L.name }
    requires parts { start.blank.parts ≡ L.parts }
    requires seats { start.seats ≡ L.seats }
{
    core.keeps_legal();
    let Some(line) = some(Line::<L, MemJournal, &R>::new(alloc, rt, core, start)) else {
        return None;
    };
    let taken = takes_at_seat(rt, alloc, &line);
    drop(line);
    taken
}

/// Whether a seat of this line does.
fn takes_at_seat<L: Origin, R: Wait>(
    rt: &R,
    alloc: Global,
    line: &Line<L, MemJournal, &R>,
) -> Option<bool>
    requires { 0 < L.workers }
{
    let Some(seat) = line.seat(rt) else {
        return None;
    };
    let mut job_seat = JobSeat::new(alloc, seat);
    takes_each(rt, alloc, line, &mut job_seat)
}

/// Whether a seat of a new line does.
fn takes_on_new<R: Wait>(rt: &R, alloc: Global, core: PrimaryCore<MemJournal>) -> Option<bool> {
    match Start::new(1) {
        Ok(start) => takes_on_line::<Brand, R>(rt, alloc, core, start),
        Err(_) => None,
    }
}

#[test]
fn a_seat_answers_jobs_before_they_are_settled(rt: HostRuntime) -> Result<(), Fail> {
    let core = core_on(rt.alloc(), MemJournal::new(rt.alloc()))?;
    let taken = takes_on_new(&rt, rt.alloc(), core);
    assert_eq!(rt; taken, Some(true));
    Ok(())
}
