//! Clerks in threads of their own, who move amounts between rows of one primary: none is lost, and none
//! counts twice; also where the journal fails.

ghost use Rattle.std.specs.Prelude.{◌≡◌, ◌<◌};

use crate::clerks::{Clerk, sum_of_all};
use crate::cores::{WORKERS, core_on};
use crate::outcomes::{is_added, made};
use journal::{JournalStore, MemJournal, Recovered, recover};
use primary::{PrimaryCore, Ticket};
use rows::{Commit, Schema};
use scenarios_common::wanted::NUMBERS;
use scenarios_journal_common::failing_journal::{Failing, FailingJournal, Failure};
use shared::{Line, Origin, Seat, Start};
use std::alloc::Global;
use std::marker::Brand;
use std::sync::Wait;
use std::sync::atomic::{AtomicU64, Ordering};
use std::test::Fail;
use std::thread;
use std::thread::Threads;

/// What is left once all clerks have ended.
#[derive(Drop)]
struct Outcome<J: JournalStore + Drop> {
    core: PrimaryCore<J>,
    /// Of the commits that were settled.
    tickets: Vec<Ticket>,
    came: Came,
}

/// A clerk with a seat of its own, and that number.
fn clerk_of<L: Origin>(alloc: Global, seat: Option<Seat<L>>, number: u8) -> Option<Clerk<L>> {
    match seat {
        Some(seat) => Some(Clerk {
            seat,
            number,
            state: number as u64,
            tickets: Vec::new(alloc),
            has_failed: false,
        }),
        None => None,
    }
}

/// Adds so many clerks, each with a seat of its own, and its number. Whether there are seats and memory.
fn add_clerks<L: Origin, J: JournalStore, R: Wait + Drop, W: Wait>(
    rt: &W,
    alloc: Global,
    line: &Line<L, J, R>,
    count: u8,
    clerks: &mut Vec<Clerk<L>>,
) -> bool {
    for number in 0..count {
        if !is_added(clerks, clerk_of(alloc, line.seat(rt), number)) {
            return false;
        }
    }
    true
}

/// So many clerks, each with a seat of its own, and its number.
fn clerks_of<L: Origin, J: JournalStore, R: Wait + Drop, W: Wait>(
    rt: &W,
    alloc: Global,
    line: &Line<L, J, R>,
    count: u8,
) -> Option<Vec<Clerk<L>>> {
    let mut clerks = Vec::new(alloc);
    if !add_clerks(rt, alloc, line, count, &mut clerks) {
        return None;
    }
    Some(clerks)
}

/// How many clerks found that the journal failed. `None` if one of them is not refused from then on.
fn failed<L: Origin, J: JournalStore + Drop, R: Wait + Drop, W: Wait>(
    rt: &W,
    alloc: Global,
    line: &Line<L, J, R>,
    clerks: &mut [Clerk<L>],
) -> Option<usize>
    requires { 1 < L.workers }
{
    let mut failed: usize = 0;
    for clerk in clerks {
        if clerk.has_failed {
            if !clerk.is_refused(rt, alloc, line) {
                return None;
            }
            failed = failed.saturating_add(1);
        }
    }
    Some(failed)
}

/// Adds all of a list to another one. Whether there is memory for it.
fn is_joined<T: Drop>(all: &mut Vec<T>, mut more: Vec<T>) -> bool {
    all.append(&mut more).is_ok()
}

/// Adds the seat of a clerk, and its tickets. Whether there is memory for it.
fn is_parted<L: Origin>(clerk: Clerk<L>, seats: &mut Vec<Seat<L>>, all: &mut Vec<Ticket>) -> bool {
    let Clerk { seat, tickets, .. } = clerk;
    if !is_added(seats, Some(seat)) {
        return false;
    }
    is_joined(all, tickets)
}

/// Adds the seats of the clerks, and all their tickets. Whether there is memory for it.
fn part_all<L: Origin>(
    clerks: Vec<Clerk<L>>,
    seats: &mut Vec<Seat<L>>,
    all: &mut Vec<Ticket>,
) -> bool {
    for clerk in clerks {
        if !is_parted(clerk, seats, all) {
            return false;
        }
    }
    true
}

/// The seats of the clerks, and all their tickets.
fn parted<L: Origin>(alloc: Global, clerks: Vec<Clerk<L>>) -> Option<(Vec<Seat<L>>, Vec<Ticket>)> {
    let mut seats = Vec::new(alloc);
    let mut all = Vec::new(alloc);
    if !part_all(clerks, &mut seats, &mut all) {
        return None;
    }
    Some((seats, all))
}

/// Opens the rows, and has each clerk work in a thread of its own. Whether each answer was one that may
/// be.
fn work_all<L: Origin + Send + Sync, J: JournalStore + Drop + Send, R: Threads + Wait + Sync>(
    rt: &R,
    alloc: Global,
    line: &Line<L, J, &R>,
    clerks: &mut [Clerk<L>],
    each: u32,
) -> bool
    requires { 1 < L.workers }
{
    let Some(first) = clerks.get_mut(0) else {
        return false;
    };
    if !first.opens(rt, alloc, line) {
        return false;
    }
    let threads = clerks.len();
    let wrong = AtomicU64::new(0);
    thread::for_each_mut(
        rt,
        clerks,
        threads,
        &|_, clerk: &mut Clerk<L>|
            requires { 1 < L.workers }
        {
            if !clerk.works(rt, alloc, line, each) {
                wrong.store(1, Ordering::SeqCst);
            }
        },
    );
    wrong.load(Ordering::SeqCst) == 0
}

/// What the clerks of a line came to.
#[derive(Clone, Copy)]
struct Came {
    /// The sum of all rows.
    sum: i64,
    /// How many clerks found that the journal failed, and were refused from then on.
    failed: usize,
}

/// Has the clerks make their transfers. `None` if an answer was one that may not be.
fn worked<L: Origin + Send + Sync, J: JournalStore + Drop + Send, R: Threads + Wait + Sync>(
    rt: &R,
    alloc: Global,
    line: &Line<L, J, &R>,
    clerks: &mut [Clerk<L>],
    each: u32,
) -> Option<Came>
    requires { 1 < L.workers }
{
    if !work_all(rt, alloc, line, clerks, each) {
        return None;
    }
    let failed = failed(rt, alloc, line, clerks)?;
    let sum = sum_of_all(alloc, &mut clerks.get_mut(0)?.seat)?;
    Some(Came { sum, failed })
}

/// Ends a line with the seats of its clerks.
fn ended<L: Origin, J: JournalStore + Drop, R: Wait + Drop>(
    alloc: Global,
    line: Line<L, J, R>,
    clerks: Vec<Clerk<L>>,
    came: Came,
) -> Option<Outcome<J>>
    requires { L.parts ≡ L.seats }
{
    let Some((seats, tickets)) = parted(alloc, clerks) else {
        return None;
    };
    outcome_of(made(line.end(seats)), tickets, came)
}

/// The outcome, if there is a primary left.
fn outcome_of<J: JournalStore + Drop>(
    core: Option<PrimaryCore<J>>,
    tickets: Vec<Ticket>,
    came: Came,
) -> Option<Outcome<J>> {
    match core {
        Some(core) => Some(Outcome {
            core,
            tickets,
            came,
        }),
        None => None,
    }
}

/// What is left once so many clerks have made their transfers on this line.
fn left_of<L: Origin + Send + Sync, J: JournalStore + Drop + Send, R: Threads + Wait + Sync>(
    rt: &R,
    alloc: Global,
    line: Line<L, J, &R>,
    count: u8,
    each: u32,
) -> Option<Outcome<J>>
    requires some { 1 < L.workers }
    requires whole { L.parts ≡ L.seats }
{
    let Some(mut clerks) = clerks_of(rt, alloc, &line, count) else {
        return None;
    };
    match worked(rt, alloc, &line, &mut clerks, each) {
        Some(came) => ended(alloc, line, clerks, came),
        None => None,
    }
}

/// What is left once so many clerks have made their transfers on a line of this primary. `None` if an
/// answer was one that may not be.
fn left<L: Origin + Send + Sync, J: JournalStore + Drop + Send, R: Threads + Wait + Sync>(
    rt: &R,
    alloc: Global,
    core: PrimaryCore<J>,
    start: Start,
    each: u32,
) -> Option<Outcome<J>>
    requires book { start.opened.seen.book ≡ L.book }
    requires schema { core.primary.schema ≡ L.schema }
    requires workers { core.primary.workers ≡ L.workers }
    requires first { core.primary ≡ L.first }
    requires name { start.blank.name ≡ L.name }
    requires parts { start.blank.parts ≡ L.parts }
    requires seats { start.seats ≡ L.seats }
    requires whole { L.parts ≡ L.seats }
{
    if core.workers() < 2 {
        return None;
    }
    let count = start.seats;
    match made(Line::<L, J, &R>::new(alloc, rt, core, start)) {
        Some(line) => left_of(rt, alloc, line, count, each),
        None => None,
    }
}

/// The sum of the numbers of tickets.
fn sum_of_numbers(tickets: &[Ticket]) -> u64 {
    let mut sum: u64 = 0;
    for ticket in tickets {
        sum = sum.wrapping_add(ticket.number);
    }
    sum
}

/// Whether all rows sum up to 0, and there are so many tickets, which have the numbers from 1 up to what
/// is durable.
fn are_kept(outcome: &Outcome<MemJournal>, count: u64) -> bool {
    let numbers = count.wrapping_mul(count.wrapping_add(1)) / 2;
    outcome.came.sum == 0
        && outcome.came.failed == 0
        && outcome.core.durable() == count
        && outcome.tickets.len() as u64 == count
        && sum_of_numbers(&outcome.tickets) == numbers
}

/// Whether the commit of each ticket is among these, under its number.
fn are_among(tickets: &[Ticket], commits: &[Commit]) -> bool {
    for ticket in tickets {
        match commits.get((ticket.number as usize).wrapping_sub(1)) {
            Some(commit) => {
                if commit.worker != ticket.worker || commit.entries != ticket.entries {
                    return false;
                }
            }
            None => return false,
        }
    }
    true
}

/// Whether all clerks found that the journal failed, and it keeps the commit of each ticket.
fn are_recovered(
    alloc: Global,
    outcome: &Outcome<FailingJournal>,
    count: usize,
) -> Result<bool, Fail> {
    if outcome.core.lent() || outcome.came.failed != count {
        return Ok(false);
    }
    let schema = Schema::new(alloc, &NUMBERS)?;
    match recovered(alloc, outcome.core.journal().content(), &schema) {
        Some(commits) => Ok(outcome.came.sum == 0 && are_among(&outcome.tickets, &commits)),
        None => Err("the journal is refused".into()),
    }
}

/// The commits that the bytes of a journal keep; `None` if it is refused.
fn recovered(alloc: Global, content: &[u8], schema: &Schema) -> Option<Vec<Commit>> {
    match made(recover(alloc, content, schema, WORKERS)) {
        Some(Recovered { commits, .. }) => Some(commits),
        None => None,
    }
}

/// How many clerks there are where the journal does not fail.
const CLERKS: u8 = 16;

/// How many transfers each of them makes.
const EACH: u32 = 1000;

/// Whether clerks in threads keep the sum on this primary.
fn keep_the_sum<R: Threads + Wait + Sync>(
    rt: &R,
    alloc: Global,
    core: PrimaryCore<MemJournal>,
) -> bool {
    let Ok(start) = Start::new(CLERKS) else {
        return false;
    };
    match left::<Brand, MemJournal, R>(rt, alloc, core, start, EACH) {
        Some(outcome) => {
            let are_kept = are_kept(&outcome, 1 + CLERKS as u64 * EACH as u64);
            drop(outcome);
            are_kept
        }
        None => false,
    }
}

#[test]
fn clerks_in_threads_keep_the_sum(rt: HostRuntime) -> Result<(), Fail> {
    let core = core_on(rt.alloc(), MemJournal::new(rt.alloc()))?;
    let is_kept = keep_the_sum(&rt, rt.alloc(), core);
    assert!(rt; is_kept);
    Ok(())
}

/// An append in the middle, of which so many bytes are written.
const IN_THE_MIDDLE: Failure = Failure {
    call: Failing::Append,
    calls_before: 50,
    bytes_left: 30,
};

/// A primary on a journal that fails in the middle.
fn failing_core(alloc: Global) -> Result<PrimaryCore<FailingJournal>, Fail> {
    let journal = FailingJournal::of(Vec::new(alloc), IN_THE_MIDDLE);
    if journal.faults() == u64::MAX {
        return Err("too many faults".into());
    }
    core_on(alloc, journal)
}

/// Whether four clerks on this primary keep what was settled.
fn keep_what_was_settled<R: Threads + Wait + Sync>(
    rt: &R,
    alloc: Global,
    core: PrimaryCore<FailingJournal>,
) -> Result<bool, Fail> {
    let Ok(start) = Start::new(4) else {
        return Ok(false);
    };
    match left::<Brand, FailingJournal, R>(rt, alloc, core, start, EACH) {
        Some(outcome) => {
            let are_recovered = are_recovered(alloc, &outcome, 4);
            drop(outcome);
            are_recovered
        }
        None => Ok(false),
    }
}

#[test]
fn a_journal_that_fails_keeps_what_was_settled(rt: HostRuntime) -> Result<(), Fail> {
    let core = failing_core(rt.alloc())?;
    let is_kept = keep_what_was_settled(&rt, rt.alloc(), core)?;
    assert!(rt; is_kept);
    Ok(())
}
