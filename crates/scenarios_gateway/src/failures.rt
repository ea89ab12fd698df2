//! Whichever request for memory is refused: what is told of jobs is true.

ghost use Rattle.std.specs.Prelude.{◌≡◌};

use crate::desks::{Exchange, WORKERS, answer_of, desk_at, made, setup, started};
use gateway::{JobDesk, WorkerCount};
use journal::{JournalStore, MemJournal};
use primary::PrimaryCore;
use script::Setup;
use shared::{Line, Origin, Start};
use std::alloc::Global;
use std::marker::Brand;
use std::sync::Wait;
use std::test::Fail;

/// Three jobs, the last of which needs the first.
const JOBS: Exchange = (
    "POST",
    "/jobs",
    b"job 0\ninsert acct 1 1 1\nend\njob 1\ninsert acct 2 1 1\nend\njob 0\nset acct 1 0 9\nend\n",
    200,
    b"job 0 ticket 1\njob 1 ticket 2\njob 2 ticket 3\n",
);

/// A job that needs all of them.
const AFTER: Exchange = (
    "POST",
    "/jobs",
    b"job 0\nexpect acct 1 0 9\nexpect acct 2 0 1\nset acct 1 1 1\nend\n",
    200,
    b"job 0 ticket 4\n",
);

/// Whether a desk tells the truth: if it answers 200 and the round stands, all jobs are done, so that the
/// job that needs them is not refused.
fn is_true<L: Origin, J: JournalStore + Drop, R: Wait>(
    alloc: Global,
    desk: &mut JobDesk<'_, L, J, &R, R>,
) -> Option<bool> {
    let told = answer_of(alloc, desk, &JOBS)?;
    if told != (200, true) {
        return Some(told.0 == 503);
    }
    if !desk.settle_round() {
        return Some(true);
    }
    let after = answer_of(alloc, desk, &AFTER)?;
    Some(after == (200, true) || after.0 == 503)
}

/// Whether a desk tells the truth on a line of this primary.
fn is_true_on_line<L: Origin, J: JournalStore + Drop, R: Wait>(
    rt: &R,
    alloc: Global,
    core: PrimaryCore<J>,
    start: Start,
    setup: &Setup,
) -> Option<bool>
    requires book { start.opened.seen.book ≡ L.book }
    requires schema { core.primary.schema ≡ L.schema }
    requires workers { core.primary.workers ≡ L.workers }
    requires first { core.primary ≡ L.first }
    requires name { start.blank.name ≡ L.name }
    requires parts { start.blank.parts ≡ L.parts }
    requires seats { start.seats ≡ L.seats }
{
    let count = core.workers();
    let Some(line) = made(Line::<L, J, &R>::new(alloc, rt, core, start)) else {
        return None;
    };
    is_true_at_seats(rt, alloc, &line, setup, WorkerCount::new(count))
}

/// The same at the seats of this line.
fn is_true_at_seats<'a, 'b, L: Origin, J: JournalStore + Drop, R: Wait>(
    rt: &'a R,
    alloc: Global,
    line: &'a Line<L, J, &'b R>,
    setup: &'a Setup,
    workers: WorkerCount<L>,
) -> Option<bool> {
    let Some(mut desk) = desk_at(rt, alloc, line, setup, workers) else {
        return None;
    };
    let is_true = is_true(alloc, &mut desk);
    drop(desk);
    is_true
}

/// The same of a primary that is started with this setup.
fn is_true_with<R: Wait>(rt: &R, alloc: Global, setup: &Setup) -> Result<bool, Fail> {
    let journal = MemJournal::new(alloc);
    let core = started(PrimaryCore::start(alloc, journal, &setup.schema, WORKERS))?;
    is_true_after(rt, alloc, core, setup)
}

/// The same of this primary, on a line of its own.
fn is_true_after<R: Wait>(
    rt: &R,
    alloc: Global,
    core: PrimaryCore<MemJournal>,
    setup: &Setup,
) -> Result<bool, Fail> {
    let Some(start) = made(Start::new(2)) else {
        drop(core);
        return Err("out of memory".into());
    };
    match is_true_on_line::<Brand, MemJournal, R>(rt, alloc, core, start, setup) {
        Some(is_true) => Ok(is_true),
        None => Err("out of memory".into()),
    }
}

/// The same of a primary that is started.
fn is_true_after_start<R: Wait>(rt: &R, alloc: Global) -> Result<bool, Fail> {
    let setup = setup(alloc)?;
    let is_true = is_true_with(rt, alloc, &setup);
    drop(setup);
    is_true
}

#[test]
fn jobs_without_memory_are_told_the_truth(rt: HostRuntime) -> Result<(), Fail> {
    assert!(rt; is_true_after_start(&rt, rt.alloc())?);
    Ok(())
}
