//! Jobs of one worker with conditions, and why jobs are refused.

use crate::alone::answered_alone;
use crate::listed_jobs::{Wish, jobs_of};
use mvcc::TxFault;
use sockets::{JobAnswer, Refusal};
use std::alloc::Global;
use std::sync::Wait;
use std::test::Fail;
use std::thread::Threads;

/// Jobs with conditions on what they did themselves, on what the jobs before them did, and on what nobody
/// did.
const JOBS: [(u8, &[Wish]); 18] = [
    (
        0,
        &[
            Wish::Absent(1),
            Wish::Insert(1, 10, 20),
            Wish::Expect(1, 0, 10),
        ],
    ),
    (
        0,
        &[
            Wish::Expect(1, 1, 20),
            Wish::Set(1, 1, 21),
            Wish::Expect(1, 1, 21),
        ],
    ),
    (0, &[Wish::Expect(1, 1, 20), Wish::Set(1, 0, 5)]),
    (0, &[Wish::Set(1, 0, 5), Wish::Expect(1, 0, 10)]),
    (0, &[Wish::Insert(2, 0, 0), Wish::Absent(2)]),
    (
        0,
        &[
            Wish::Insert(2, 0, 0),
            Wish::Delete(2),
            Wish::Absent(2),
            Wish::Insert(2, 3, 4),
        ],
    ),
    (0, &[Wish::Absent(1), Wish::Delete(1)]),
    (0, &[Wish::Expect(3, 0, 0), Wish::Insert(3, 0, 0)]),
    (0, &[Wish::Set(2, 0, 1), Wish::Expect(2, 2, 4)]),
    (0, &[Wish::Set(2, 0, 1), Wish::Insert(1, 0, 0)]),
    (0, &[Wish::Set(2, 2, 1)]),
    (0, &[Wish::Expect(2, 1, 4), Wish::Absent(4)]),
    (0, &[Wish::Insert(5, 1, 1)]),
    (0, &[Wish::Set(1, 0, 9)]),
    (0, &[Wish::Expect(1, 0, 10), Wish::Set(5, 0, 2)]),
    (0, &[Wish::Insert(6, 0, 0)]),
    (0, &[Wish::Absent(6), Wish::Set(5, 0, 2)]),
    (0, &[Wish::Expect(6, 0, 0), Wish::Set(5, 0, 2)]),
];

/// What they are answered, in their order.
const TOLD: [JobAnswer; 18] = [
    JobAnswer::Ticket(1),
    JobAnswer::Ticket(2),
    JobAnswer::Refused(Refusal::Condition { step: 0 }),
    JobAnswer::Refused(Refusal::Condition { step: 1 }),
    JobAnswer::Refused(Refusal::Condition { step: 1 }),
    JobAnswer::Ticket(3),
    JobAnswer::Refused(Refusal::Condition { step: 0 }),
    JobAnswer::Refused(Refusal::Condition { step: 0 }),
    JobAnswer::Refused(Refusal::Condition { step: 1 }),
    JobAnswer::Refused(Refusal::Change {
        step: 1,
        fault: TxFault::Exists,
    }),
    JobAnswer::Refused(Refusal::Change {
        step: 0,
        fault: TxFault::Unfit,
    }),
    JobAnswer::Refused(Refusal::NoChange),
    JobAnswer::Ticket(4),
    JobAnswer::Ticket(5),
    JobAnswer::Refused(Refusal::Condition { step: 0 }),
    JobAnswer::Ticket(6),
    JobAnswer::Refused(Refusal::Condition { step: 0 }),
    JobAnswer::Ticket(7),
];

/// Whether they are answered as it is told.
fn are_told<R: Threads + Wait + Sync>(rt: &R, alloc: Global) -> Result<bool, Fail> {
    let jobs = jobs_of(alloc, &JOBS)?;
    let answers = answered_alone(rt, alloc, &jobs)?;
    Ok(answers.as_slice() == TOLD.as_slice())
}

#[test]
fn conditions_are_looked_at_where_they_stand(rt: HostRuntime) -> Result<(), Fail> {
    assert!(rt; are_told(&rt, rt.alloc())?);
    Ok(())
}
