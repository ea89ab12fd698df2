//! A thread reads while another publishes 10,000 commits: each read is of one version.

ghost use Rattle.std.specs.Prelude.{◌≡◌, ◌<◌, ◌^◌};
ghost use Rattle.rows.specs.Shape.{shape_of};
ghost use Rattle.journal.specs.Recovery.{IsJournaled};

use crate::telling::Telling;
use crate::transfers::{accounts, transfers};
use history::Opened;
use mvcc::TxFault;
use published::{Line, LineFault, Seat};
use rows::{Commit, RowId, Schema, Value};
use std::alloc::Global;
use std::marker::Brand;
use std::sync::Wait;
use std::sync::atomic::{AtomicU64, Ordering};
use std::test::Fail;
use std::thread;
use std::thread::{Threads, join};

/// Commits that are published.
const COMMITS: u64 = 10_000;

/// Whether one less than the version was moved from the first account to the second.
fn are_moved(version: u64, first: i64, second: i64) -> bool {
    match u64::try_from(second) {
        Ok(moved) => first.wrapping_add(second) == 0 && moved.wrapping_add(1) == version,
        Err(_) => false,
    }
}

/// Whether the accounts are those of a version: none at 0, and from 1 on a sum of 0, of which one less
/// than the version was moved.
fn are_of_version(
    version: u64,
    first: Result<Value, LineFault>,
    second: Result<Value, LineFault>,
) -> bool {
    match (first, second) {
        (Ok(Value::Int(first)), Ok(Value::Int(second))) => are_moved(version, first, second),
        (Err(LineFault::Tx(TxFault::Missing)), Err(LineFault::Tx(TxFault::Missing))) => {
            version == 0
        }
        _ => false,
    }
}

/// The version that a transaction reads which begins now; `None` if what it reads is of no version.
pub fn version_read<L: Line>(seat: &mut Seat<L>, alloc: Global) -> Option<u64> {
    let Ok(transaction) = seat.begin(alloc) else {
        return None;
    };
    let first = seat.value(&transaction, 0, RowId(0), 0);
    let second = seat.value(&transaction, 0, RowId(1), 0);
    let version = transaction.snapshot();
    if are_of_version(version, first, second) {
        Some(version)
    } else {
        None
    }
}

/// Publishes each commit by itself, and tells when it has ended. `None` if it is out of memory.
fn publish_all<L: Line, R: Wait + Drop>(
    telling: Telling<L, R>,
    ended: &AtomicU64,
) -> Option<Telling<L, R>> {
    let telling = telling.published_each(COMMITS);
    ended.store(1, Ordering::SeqCst);
    telling
}

/// Reads until what is read is of no version, or has gone back, or the publisher has ended: the last
/// version read, that one aside.
fn read_all<R: Wait, L: Line>(
    rt: &R,
    seat: &mut Seat<L>,
    alloc: Global,
    ended: &AtomicU64,
) -> Option<u64> {
    let mut last = 0;
    for _ in rt.forever() {
        let is_last = ended.load(Ordering::SeqCst) > 0;
        let version = version_read(seat, alloc)?;
        if version < last {
            return None;
        }
        if is_last {
            return Some(version);
        }
        last = version;
        thread::yield_now();
    }
    unreachable!()
}

/// Whether each read is of a version while all commits are published, and the last one is of the last.
fn are_of_versions<L: Line + Send + Sync, R: Threads + Wait + Sync>(
    rt: &R,
    alloc: Global,
    opened: Opened,
    schema: &Schema,
    commits: Vec<Commit>,
    workers: u8,
) -> bool
    requires book { opened.seen.book ≡ L.book }
    requires schema { schema.now ≡ L.schema }
    requires workers { workers ≡ L.workers }
    requires legal { IsJournaled workers (shape_of schema.now) commits.items }
{
    let Some(telling) = Telling::<L, &R>::new(alloc, rt, opened, schema, commits, 1) else {
        return false;
    };
    let Some(mut seat) = telling.seat() else {
        return false;
    };
    let ended = AtomicU64::new(0);
    let (telling, last) = join(
        rt,
        || publish_all(telling, &ended),
        || read_all(rt, &mut seat, alloc, &ended),
    );
    telling.is_some() && last == Some(COMMITS)
}

#[test]
fn each_read_is_of_a_version(rt: HostRuntime) -> Result<(), Fail> {
    let schema = accounts(rt.alloc())?;
    let commits = transfers(rt.alloc(), &schema, COMMITS)?;
    let opened = Opened::new().ok_or("history")?;
    assert!(rt; are_of_versions::<Brand, _>(&rt, rt.alloc(), opened, &schema, commits, 1));
    Ok(())
}
