//! What it takes to publish commits, each by itself, while nobody reads, and while one seat is read, or
//! three, or four, each in a thread of its own. A test prints what it measured, which `bench/publish`
//! reads; what passes is that each read was of a version. A seat that is read alone, of a line to which
//! nobody publishes meanwhile, tells `bench/publish` what only the use of a processor costs.

ghost use Rattle.std.specs.Prelude.{◌≡◌};
ghost use Rattle.rows.specs.Shape.{shape_of};
ghost use Rattle.journal.specs.Recovery.{IsJournaled};

use crate::kept_sums::version_read;
use crate::many_seats::seats_of;
use crate::telling::Telling;
use crate::transfers::{accounts, transfers};
use history::Opened;
use published::{Line, Seat};
use rows::{Commit, Schema};
use std::alloc::Global;
use std::marker::Brand;
use std::rt::Clock;
use std::sync::Wait;
use std::sync::atomic::{AtomicU64, Ordering};
use std::test::Fail;
use std::thread;
use std::thread::{Threads, join};
use std::time::Instant;

/// Commits that are published.
const COMMITS: u64 = 20_000;

/// Transactions that a seat reads alone.
const READS: u64 = 1_000_000;

/// Seats that there may be at once.
const SEATS: usize = 4;

/// What was measured.
struct Measurement {
    /// How long the publisher took, in microseconds.
    taken: u128,
    /// How many transactions were read meanwhile.
    reads: u64,
}

/// Publishes so many commits, and tells when it has ended: how long it took, in microseconds. The
/// publisher is handed back, since no read enters once it is dropped. `None` if it is out of memory, or
/// the clock fails.
fn publish_timed<L: Line, R: Wait + Drop, C: Clock>(
    clock: &C,
    telling: Telling<L, R>,
    count: u64,
    ended: &AtomicU64,
) -> Option<(Telling<L, R>, u128)> {
    let start = Instant::now(clock);
    let telling = telling.published_each(count);
    let end = Instant::now(clock);
    ended.store(1, Ordering::SeqCst);
    let taken = end.ok()?.duration_since(start.ok()?).as_micros();
    Some((telling?, taken))
}

/// Reads a transaction after the other until the publisher has ended: how many. `None` if one is of
/// no version. A reader gives up its processor between two reads, so that it seldom loses it inside one.
fn read_until<R: Wait, L: Line>(
    rt: &R,
    alloc: Global,
    seat: &mut Seat<L>,
    ended: &AtomicU64,
) -> Option<u64> {
    let mut reads: u64 = 0;
    for _ in rt.forever() {
        if ended.load(Ordering::SeqCst) > 0 {
            return Some(reads);
        }
        version_read(seat, alloc)?;
        reads = reads.saturating_add(1);
        thread::yield_now();
    }
    unreachable!()
}

/// Reads each seat in a thread of its own until the publisher has ended: how many transactions all of
/// them read. `None` if one is of no version, or if it is out of memory.
fn read_by_all<R: Threads + Wait + Sync, L: Line + Send + Sync>(
    rt: &R,
    alloc: Global,
    seats: Vec<Seat<L>>,
    ended: &AtomicU64,
) -> Option<u64> {
    let counts = thread::map_vec(
        rt,
        seats,
        &|mut seat: Seat<L>| -> Option<u64> { read_until(rt, alloc, &mut seat, ended) },
    )
    .ok()?;
    let mut reads: u64 = 0;
    for count in counts {
        reads = reads.saturating_add(count?);
    }
    Some(reads)
}

/// Publishes all commits while so many seats are read. `None` if it is out of memory, the clock fails,
/// or a read is of no version.
fn measured<L: Line + Send + Sync, R: Threads + Wait + Clock + Sync>(
    rt: &R,
    alloc: Global,
    opened: Opened,
    schema: &Schema,
    commits: Vec<Commit>,
    workers: u8,
    readers: usize,
) -> Option<Measurement>
    requires book { opened.seen.book ≡ L.book }
    requires schema { schema.now ≡ L.schema }
    requires workers { workers ≡ L.workers }
    requires legal { IsJournaled workers (shape_of schema.now) commits.items }
{
    let count = commits.len() as u64;
    let telling = Telling::<L, &R>::new(alloc, rt, opened, schema, commits, SEATS)?;
    let seats = seats_of(alloc, &telling, readers)?;
    let ended = AtomicU64::new(0);
    let (published, reads) = join(
        rt,
        || publish_timed(rt, telling, count, &ended),
        || read_by_all(rt, alloc, seats, &ended),
    );
    let (_telling, taken) = published?;
    Some(Measurement {
        taken,
        reads: reads?,
    })
}

/// Publishes so many commits while so many seats are read.
fn measured_with<R: Threads + Wait + Clock + Sync>(
    rt: &R,
    alloc: Global,
    count: u64,
    readers: usize,
) -> Result<Measurement, Fail> {
    let schema = accounts(alloc)?;
    let commits = transfers(alloc, &schema, count)?;
    let opened = Opened::new().ok_or("history")?;
    Ok(measured::<Brand, R>(rt, alloc, opened, &schema, commits, 1, readers).ok_or(
        "out of memory, or a read of no version",
    )?)
}

/// Publishes one commit, and then reads so many transactions of it. Whether each is of a version.
fn reads_alone<L: Line, R: Wait>(
    rt: &R,
    alloc: Global,
    opened: Opened,
    schema: &Schema,
    commits: Vec<Commit>,
    workers: u8,
    count: u64,
) -> Option<bool>
    requires book { opened.seen.book ≡ L.book }
    requires schema { schema.now ≡ L.schema }
    requires workers { workers ≡ L.workers }
    requires legal { IsJournaled workers (shape_of schema.now) commits.items }
{
    let telling = Telling::<L, &R>::new(
        alloc, rt, opened, schema, commits, SEATS,
    )?.published_next()?;
    let mut seat = telling.seat()?;
    for _ in 0..count {
        if version_read(&mut seat, alloc) != Some(1) {
            return Some(false);
        }
        thread::yield_now();
    }
    Some(true)
}

/// Reads so many transactions of a line with one commit.
fn reads_alone_with<R: Wait>(rt: &R, alloc: Global, count: u64) -> Result<bool, Fail> {
    let schema = accounts(alloc)?;
    let commits = transfers(alloc, &schema, 1)?;
    let opened = Opened::new().ok_or("history")?;
    Ok(reads_alone::<Brand, R>(rt, alloc, opened, &schema, commits, 1, count).ok_or(
        "out of memory",
    )?)
}

#[test]
fn commits_are_made(rt: HostRuntime) -> Result<(), Fail> {
    let schema = accounts(rt.alloc())?;
    let commits = transfers(rt.alloc(), &schema, COMMITS)?;
    assert_eq!(rt; commits.len() as u64, COMMITS);
    Ok(())
}

#[test]
fn commits_are_published_to_nobody(rt: HostRuntime) -> Result<(), Fail> {
    let Measurement { taken, reads } = measured_with(&rt, rt.alloc(), COMMITS, 0)?;
    println!(rt; "{taken} {reads}")?;
    assert_eq!(rt; reads, 0);
    Ok(())
}

#[test]
fn commits_are_published_to_one_seat(rt: HostRuntime) -> Result<(), Fail> {
    let Measurement { taken, reads } = measured_with(&rt, rt.alloc(), COMMITS, 1)?;
    println!(rt; "{taken} {reads}")?;
    Ok(())
}

#[test]
fn commits_are_published_to_three_seats(rt: HostRuntime) -> Result<(), Fail> {
    let Measurement { taken, reads } = measured_with(&rt, rt.alloc(), COMMITS, 3)?;
    println!(rt; "{taken} {reads}")?;
    Ok(())
}

#[test]
fn a_seat_is_read_alone(rt: HostRuntime) -> Result<(), Fail> {
    assert!(rt; reads_alone_with(&rt, rt.alloc(), READS)?);
    Ok(())
}

#[test]
fn commits_are_published_to_four_seats(rt: HostRuntime) -> Result<(), Fail> {
    let Measurement { taken, reads } = measured_with(&rt, rt.alloc(), COMMITS, 4)?;
    println!(rt; "{taken} {reads}")?;
    Ok(())
}
