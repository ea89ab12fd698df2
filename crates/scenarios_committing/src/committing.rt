//! What it takes to commit durably: one insert a commit, on a journal in a real file, by one thread, by
//! four and by sixteen, and by sixteen while four seats are read. A test prints what it measured, which
//! `bench/commits` reads; what passes is that each ticket was settled under its number, and that the
//! primary has a commit for each.

ghost use Rattle.std.specs.Prelude.{◌≡◌, ◌<◌};

use crate::tellers::{Teller, WORKERS};
use journal::{FileJournal, JournalStore};
use primary::{PrimaryCore, StartFault};
use rows::Schema;
use scenarios_common::files::fresh_path;
use scenarios_common::wanted::NUMBERS;
use shared::limits::SEATS_MAX;
use shared::{Line, Origin, Seat, Start};
use std::alloc::Global;
use std::marker::Brand;
use std::rt::Clock;
use std::sync::Wait;
use std::sync::atomic::AtomicU64;
use std::test::Fail;
use std::thread::Threads;
use std::time::Instant;
use std::{fs, thread};

/// Who works at once.
#[derive(Clone, Copy)]
struct Crew {
    /// Threads that commit.
    committers: u8,
    /// Threads that read meanwhile.
    readers: u8,
    /// Commits of each that commits.
    each: u64,
}

/// What was measured.
#[derive(Clone, Copy)]
struct Measurement {
    /// How long all commits took, in microseconds.
    taken: u128,
    /// Transactions that were read meanwhile.
    reads: u64,
    /// Commits that are durable at the end.
    durable: u64,
}

/// A primary on a journal in a new file.
fn core_at(rt: &HostRuntime, path: &str) -> Result<PrimaryCore<FileJournal>, Fail> {
    let journal = FileJournal::open(rt, path)?;
    if journal.faults() == u64::MAX {
        return Err("too many faults".into());
    }
    let schema = Schema::new(rt.alloc(), &NUMBERS)?;
    match PrimaryCore::start(rt.alloc(), journal, &schema, WORKERS) {
        Ok(core) => Ok(core),
        Err((_, StartFault::Memory)) => Err("out of memory".into()),
        Err(_) => Err("not started".into()),
    }
}

/// A teller for each of a crew, at a seat of its own.
fn tellers_of<L: Origin, J: JournalStore, R: Wait + Drop, W: Wait>(
    rt: &W,
    alloc: Global,
    line: &Line<L, J, R>,
    crew: Crew,
) -> Option<Vec<Teller<L>>> {
    let mut tellers = Vec::new(alloc);
    let all = crew.committers.saturating_add(crew.readers);
    for number in 0..all {
        let commits = if number < crew.committers {
            crew.each
        } else {
            0
        };
        let teller = Teller {
            seat: line.seat(rt)?,
            number: number as u64,
            commits,
            reads: 0,
            is_right: false,
        };
        if tellers.push(teller).is_err() {
            return None;
        }
    }
    Some(tellers)
}

/// Has each teller work in a thread of its own: how long that took, in microseconds. `None` if the clock
/// fails.
fn work_timed<
    L: Origin + Send + Sync,
    J: JournalStore + Drop + Send,
    R: Threads + Wait + Clock + Sync,
>(
    rt: &R,
    alloc: Global,
    line: &Line<L, J, &R>,
    tellers: &mut [Teller<L>],
    committers: u8,
) -> Option<u128>
    requires { 15 < L.workers }
{
    let threads = tellers.len().max(1);
    let left = AtomicU64::new(committers as u64);
    let start = Instant::now(rt);
    thread::for_each_mut(
        rt,
        tellers,
        threads,
        &|_, teller: &mut Teller<L>|
            requires { 15 < L.workers }
        {
            teller.works(rt, alloc, line, &left);
        },
    );
    let end = Instant::now(rt);
    Some(end.ok()?.duration_since(start.ok()?).as_micros())
}

/// The seats of tellers, and how many transactions they read. `None` if one was answered what may not be.
fn parted<L: Origin>(alloc: Global, tellers: Vec<Teller<L>>) -> Option<(Vec<Seat<L>>, u64)> {
    let mut seats = Vec::new(alloc);
    let mut reads: u64 = 0;
    for teller in tellers {
        let Teller {
            seat,
            reads: more,
            is_right,
            ..
        } = teller;
        if !is_right {
            return None;
        }
        if seats.push(seat).is_err() {
            return None;
        }
        reads = reads.saturating_add(more);
    }
    Some((seats, reads))
}

/// Has a crew work on a line of this primary. `None` if it is out of memory, the clock fails, or a teller
/// was answered what may not be.
fn measured<
    L: Origin + Send + Sync,
    J: JournalStore + Drop + Send,
    R: Threads + Wait + Clock + Sync,
>(rt: &R, alloc: Global, core: PrimaryCore<J>, start: Start, crew: Crew) -> Option<Measurement>
    requires book { start.opened.seen.book ≡ L.book }
    requires schema { core.primary.schema ≡ L.schema }
    requires workers { core.primary.workers ≡ L.workers }
    requires first { core.primary ≡ L.first }
    requires name { start.blank.name ≡ L.name }
    requires parts { start.blank.parts ≡ L.parts }
    requires seats { start.seats ≡ L.seats }
    requires whole { L.parts ≡ L.seats }
{
    if core.workers() < WORKERS {
        return None;
    }
    let Ok(line) = Line::<L, J, &R>::new(alloc, rt, core, start) else {
        return None;
    };
    let mut tellers = tellers_of(rt, alloc, &line, crew)?;
    let taken = work_timed(rt, alloc, &line, &mut tellers, crew.committers)?;
    let (seats, reads) = parted(alloc, tellers)?;
    let Ok(core) = line.end(seats) else {
        return None;
    };
    Some(Measurement {
        taken,
        reads,
        durable: core.durable(),
    })
}

/// Has a crew work on a new line of this primary.
fn measured_with<J: JournalStore + Drop + Send, R: Threads + Wait + Clock + Sync>(
    rt: &R,
    alloc: Global,
    core: PrimaryCore<J>,
    crew: Crew,
) -> Result<Measurement, Fail> {
    let seats = crew.committers.saturating_add(crew.readers);
    if seats == 0 || seats > SEATS_MAX {
        return Err("no line has so many seats".into());
    }
    let start = Start::new(seats).ok().ok_or("history")?;
    Ok(measured::<Brand, J, R>(rt, alloc, core, start, crew).ok_or(
        "out of memory, or an answer that may not be",
    )?)
}

/// Prints how long a crew's commits took, in microseconds, how many there were, and how many transactions
/// were read meanwhile. Whether the primary has them all.
fn is_told(rt: &HostRuntime, crew: Crew, measurement: Measurement) -> Result<bool, Fail> {
    let Measurement {
        taken,
        reads,
        durable,
    } = measurement;
    println!(rt; "{taken} {durable} {reads}")?;
    Ok(durable == crew.each.wrapping_mul(crew.committers as u64))
}

/// One thread.
const ONE: Crew = Crew {
    committers: 1,
    readers: 0,
    each: 400,
};

#[test]
fn one_thread_commits(rt: HostRuntime) -> Result<(), Fail> {
    let path = fresh_path(&rt, "one")?;
    let core = core_at(&rt, path.as_str())?;
    let measurement = measured_with(&rt, rt.alloc(), core, ONE)?;
    fs::remove_file(&rt, path.as_str())?;
    assert!(rt; is_told(&rt, ONE, measurement)?);
    Ok(())
}

/// Four threads.
const FOUR: Crew = Crew {
    committers: 4,
    readers: 0,
    each: 400,
};

#[test]
fn four_threads_commit(rt: HostRuntime) -> Result<(), Fail> {
    let path = fresh_path(&rt, "four")?;
    let core = core_at(&rt, path.as_str())?;
    let measurement = measured_with(&rt, rt.alloc(), core, FOUR)?;
    fs::remove_file(&rt, path.as_str())?;
    assert!(rt; is_told(&rt, FOUR, measurement)?);
    Ok(())
}

/// Sixteen threads.
const SIXTEEN: Crew = Crew {
    committers: 16,
    readers: 0,
    each: 400,
};

#[test]
fn sixteen_threads_commit(rt: HostRuntime) -> Result<(), Fail> {
    let path = fresh_path(&rt, "sixteen")?;
    let core = core_at(&rt, path.as_str())?;
    let measurement = measured_with(&rt, rt.alloc(), core, SIXTEEN)?;
    fs::remove_file(&rt, path.as_str())?;
    assert!(rt; is_told(&rt, SIXTEEN, measurement)?);
    Ok(())
}

/// Sixteen threads, and four that read.
const SIXTEEN_AND_READERS: Crew = Crew {
    committers: 16,
    readers: 4,
    each: 400,
};

#[test]
fn sixteen_threads_commit_beside_readers(rt: HostRuntime) -> Result<(), Fail> {
    let path = fresh_path(&rt, "sixteen_and_readers")?;
    let core = core_at(&rt, path.as_str())?;
    let measurement = measured_with(&rt, rt.alloc(), core, SIXTEEN_AND_READERS)?;
    fs::remove_file(&rt, path.as_str())?;
    assert!(rt; is_told(&rt, SIXTEEN_AND_READERS, measurement)?);
    Ok(())
}
