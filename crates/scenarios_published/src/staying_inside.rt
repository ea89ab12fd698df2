//! A reader stays inside a read while another thread publishes: what it reads does not change, and the
//! publication after the next waits until it has left.

ghost use Rattle.std.specs.Prelude.{◌≡◌, ◌<◌, ◌^◌};
ghost use Rattle.rows.specs.Shape.{shape_of};
ghost use Rattle.journal.specs.Recovery.{IsJournaled};

use crate::telling::Telling;
use crate::transfers::{accounts, transfers};
use history::Opened;
use left_right::reader::Reader;
use published::{Line, Published, Sees, Shown};
use rows::{Commit, Schema};
use std::alloc::Global;
use std::marker::Brand;
use std::sync::Wait;
use std::sync::atomic::{AtomicU64, Ordering};
use std::test::Fail;
use std::thread;
use std::thread::{Threads, join};

/// Waits until a number has come that far.
fn wait_for<R: Wait>(rt: &R, reached: &AtomicU64, number: u64) {
    for _ in rt.forever() {
        if reached.load(Ordering::SeqCst) >= number {
            return;
        }
        thread::yield_now();
    }
    unreachable!()
}

/// How many commits a reader finds when it enters, and before it leaves, which it does once the
/// publication that follows has ended.
fn found_inside<L: Line, R: Wait>(
    rt: &R,
    reader: Reader<Shown, (), Published<L>>,
    reached: &AtomicU64,
) -> Option<(u64, u64)> {
    let Ok(reading) = reader.enter_as::<Sees<L>>() else {
        reached.store(1, Ordering::SeqCst);
        return None;
    };
    let first = reading.get().versions.len();
    reached.store(1, Ordering::SeqCst);
    wait_for(rt, reached, 2);
    let last = reading.get().versions.len();
    reading.leave();
    Some((first, last))
}

/// Publishes a commit while the reader is inside, and then another one.
fn publish_two<L: Line, R: Wait + Drop, W: Wait>(
    rt: &W,
    telling: Telling<L, R>,
    reached: &AtomicU64,
) -> Option<Telling<L, R>> {
    wait_for(rt, reached, 1);
    let telling = telling.published_next();
    reached.store(2, Ordering::SeqCst);
    telling?.published_next()
}

/// What the reader finds while it stays inside, and what is published in the end.
fn found<L: Line + Send + Sync, R: Threads + Wait + Sync>(
    rt: &R,
    alloc: Global,
    opened: Opened,
    schema: &Schema,
    commits: Vec<Commit>,
    workers: u8,
) -> Option<(u64, u64, u64)>
    requires book { opened.seen.book ≡ L.book }
    requires schema { schema.now ≡ L.schema }
    requires workers { workers ≡ L.workers }
    requires legal { IsJournaled workers (shape_of schema.now) commits.items }
{
    let telling = Telling::<L, &R>::new(alloc, rt, opened, schema, commits, 1)?;
    let telling = telling.published_next()?;
    let reader = telling.reader()?;
    let reached = AtomicU64::new(0);
    let (telling, inside) = join(
        rt,
        || publish_two(rt, telling, &reached),
        || found_inside(rt, reader, &reached),
    );
    let (first, last) = inside?;
    let telling = telling?;
    let mut seat = telling.seat()?;
    let Ok(transaction) = seat.begin(alloc) else {
        return None;
    };
    Some((first, last, transaction.snapshot()))
}

#[test]
fn a_reader_that_stays_inside_finds_what_it_entered(rt: HostRuntime) -> Result<(), Fail> {
    let schema = accounts(rt.alloc())?;
    let commits = transfers(rt.alloc(), &schema, 3)?;
    let opened = Opened::new().ok_or("history")?;
    let numbers = found::<Brand, _>(&rt, rt.alloc(), opened, &schema, commits, 1);
    assert_eq!(rt; numbers, Some((1, 1, 3)));
    Ok(())
}
