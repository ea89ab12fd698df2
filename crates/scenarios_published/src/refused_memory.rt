//! Whichever request for memory is refused: what was published stays, and a step that comes back is
//! published when it is pushed again.

ghost use Rattle.std.specs.Prelude.{◌≡◌, ◌<◌, ◌^◌};
ghost use Rattle.rows.specs.Shape.{shape_of};
ghost use Rattle.journal.specs.Recovery.{IsJournaled};

use crate::kept_sums::version_read;
use crate::telling::Telling;
use crate::transfers::{accounts, transfers};
use history::Opened;
use published::{Line, Seat};
use rows::{Commit, Schema};
use std::alloc::Global;
use std::marker::Brand;
use std::sync::Wait;
use std::test::Fail;

/// Commits that are published.
const COMMITS: u64 = 3;

/// Publishes what is told, once more if memory was refused, and answers whether the seat then reads
/// this version, and the one before until then.
fn shows<L: Line, R: Wait + Drop>(
    alloc: Global,
    telling: &mut Telling<L, R>,
    seat: &mut Seat<L>,
    version: u64,
) -> bool {
    if version_read(seat, alloc).map(|read| read.wrapping_add(1)) != Some(version) {
        return false;
    }
    if !telling.publish() {
        if version_read(seat, alloc).map(|read| read.wrapping_add(1)) != Some(version) {
            return false;
        }
        if !telling.publish() {
            return false;
        }
    }
    version_read(seat, alloc) == Some(version)
}

/// Whether each publication shows all or nothing. `None` if it is out of memory before.
fn are_shown<L: Line, R: Wait>(
    rt: &R,
    alloc: Global,
    opened: Opened,
    schema: &Schema,
    commits: Vec<Commit>,
    workers: u8,
) -> Option<bool>
    requires book { opened.seen.book ≡ L.book }
    requires schema { schema.now ≡ L.schema }
    requires workers { workers ≡ L.workers }
    requires legal { IsJournaled workers (shape_of schema.now) commits.items }
{
    let mut telling = Telling::<L, &R>::new(alloc, rt, opened, schema, commits, 1)?;
    let mut seat = telling.seat()?;
    for version in 1..=COMMITS {
        telling = telling.told_next()?;
        if !shows(alloc, &mut telling, &mut seat, version) {
            return Some(false);
        }
    }
    Some(true)
}

#[test]
fn a_publication_without_memory_shows_what_it_showed(rt: HostRuntime) -> Result<(), Fail> {
    let schema = accounts(rt.alloc())?;
    let commits = transfers(rt.alloc(), &schema, COMMITS)?;
    let opened = Opened::new().ok_or("history")?;
    let are_shown = are_shown::<Brand, _>(&rt, rt.alloc(), opened, &schema, commits, 1);
    assert!(rt; are_shown.ok_or("out of memory")?);
    Ok(())
}
