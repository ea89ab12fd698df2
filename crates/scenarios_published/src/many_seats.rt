//! 32 seats read in two threads while a third publishes, and hold one list when they have met.

ghost use Rattle.std.specs.Prelude.{◌≡◌, ◌<◌, ◌^◌};
ghost use Rattle.rows.specs.Shape.{shape_of};
ghost use Rattle.journal.specs.Recovery.{IsJournaled};

use crate::kept_sums::version_read;
use crate::telling::Telling;
use crate::transfers::{accounts, transfers};
use history::Opened;
use published::{Line, Seat};
use rows::{Commit, Schema};
use std::alloc::Global;
use std::marker::Brand;
use std::sync::Wait;
use std::test::Fail;
use std::thread::{Threads, join};

/// Seats of each of the two threads that read.
const SEATS: usize = 16;

/// Commits that are published.
const COMMITS: u64 = 200;

/// So many seats. `None` if there is no room for them.
pub fn seats_of<L: Line, R: Wait + Drop>(
    alloc: Global,
    telling: &Telling<L, R>,
    count: usize,
) -> Option<Vec<Seat<L>>> {
    let mut seats = Vec::new(alloc);
    for _ in 0..count {
        if seats.push(telling.seat()?).is_err() {
            return None;
        }
    }
    Some(seats)
}

/// Whether each of some seats reads a version, so many times.
fn read_versions<L: Line>(alloc: Global, seats: &mut Vec<Seat<L>>, rounds: u64) -> bool {
    for _ in 0..rounds {
        for seat in seats.iter_mut() {
            if version_read(seat, alloc).is_none() {
                return false;
            }
        }
    }
    true
}

/// The version that the first of some seats reads in the end; what each of the others holds once it
/// met the first is that, too.
fn met<L: Line>(alloc: Global, first: &mut Seat<L>, others: &mut Vec<Seat<L>>) -> Option<u64> {
    let version = version_read(first, alloc)?;
    for seat in others.iter_mut() {
        seat.meet(first);
        if seat.front().len() != version || first.front().len() != version {
            return None;
        }
    }
    Some(version)
}

/// What two threads with 16 seats each read while a third publishes; `None` if that is no version.
fn last_met<L: Line + Send + Sync, R: Threads + Wait + Sync>(
    rt: &R,
    alloc: Global,
    opened: Opened,
    schema: &Schema,
    commits: Vec<Commit>,
    workers: u8,
) -> Option<u64>
    requires book { opened.seen.book ≡ L.book }
    requires schema { schema.now ≡ L.schema }
    requires workers { workers ≡ L.workers }
    requires legal { IsJournaled workers (shape_of schema.now) commits.items }
{
    let telling = Telling::<L, &R>::new(alloc, rt, opened, schema, commits, 2 * SEATS + 1)?;
    let mut first = telling.seat()?;
    let mut left = seats_of(alloc, &telling, SEATS)?;
    let mut right = seats_of(alloc, &telling, SEATS)?;
    if telling.seat().is_some() {
        return None;
    }
    let (telling, are_read) = join(
        rt,
        || telling.published_each(COMMITS),
        || read_by_two(rt, alloc, &mut left, &mut right),
    );
    let _telling = telling?;
    if !are_read {
        return None;
    }
    met(alloc, &mut first, &mut left)?;
    met(alloc, &mut first, &mut right)
}

/// Whether two threads with some seats each read versions.
fn read_by_two<L: Line + Send + Sync, R: Threads + Wait + Sync>(
    rt: &R,
    alloc: Global,
    left: &mut Vec<Seat<L>>,
    right: &mut Vec<Seat<L>>,
) -> bool {
    let (is_left, is_right) = join(
        rt,
        || read_versions(alloc, left, COMMITS),
        || read_versions(alloc, right, COMMITS),
    );
    is_left && is_right
}

#[test]
fn many_seats_read_versions_and_meet(rt: HostRuntime) -> Result<(), Fail> {
    let schema = accounts(rt.alloc())?;
    let commits = transfers(rt.alloc(), &schema, COMMITS)?;
    let opened = Opened::new().ok_or("history")?;
    let version = last_met::<Brand, _>(&rt, rt.alloc(), opened, &schema, commits, 1);
    assert_eq!(rt; version, Some(COMMITS));
    Ok(())
}
