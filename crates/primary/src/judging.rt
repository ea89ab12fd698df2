//! Whether a transaction may be committed.

ghost use Rattle.std.specs.Prelude.{◌≡◌, ◌+◌, ◌^◌, ◌<◌, ◌≤◌, ◌&&◌, length, true, nat_lt, IfNone, OnOk, if◌then◌else◌};
ghost use Rattle.std.specs.List.{AllByRecursion};
ghost use Rattle.rows.specs.Commits.{last_touching};
ghost use Rattle.rows.specs.Spelling.{HasSpelling};
ghost use Rattle.mvcc.specs.VersionList.{defined_at};
ghost use Rattle.update_log.specs.Parts.{parts_of};
ghost use Rattle.update_log.specs.Streams.{stream_of};
ghost use Rattle.primary.specs.Journaling.{AreNumbered};
ghost use Rattle.primary.specs.Steps.{commit_answer};
ghost use Rattle.primary.specs.Inner.Parts.{primary_of};
ghost use Rattle.primary.specs.Inner.Tail.{IsTailOf};

use crate::faults::CommitFault;
use crate::tail::Tail;
use mvcc::{Transaction, Versions};
use rows::Entry;
use update_log::part_count;

/// The number that the transaction's commit would get, or the first refusal; the first `durable` of
/// the versions are durable and the others pending.
pub fn judge(
    versions: &Versions,
    tail: &Tail,
    durable: usize,
    workers: u8,
    failed: bool,
    worker: u8,
    transaction: &Transaction,
) -> Result<u64, CommitFault>
    requires within { durable ≤ length versions.now.commits }
    requires tail { IsTailOf tail.now versions.now.commits }
    requires numbered { AreNumbered versions.now.commits }
    ensures answer { result ≡ commit_answer (primary_of versions.now durable workers failed tail.now.base) worker transaction.now }
    ensures some { OnOk result (0 < length transaction.now.entries) }
    ensures spelled { OnOk result (AllByRecursion HasSpelling transaction.now.entries) }
    ensures defined { OnOk result (defined_at versions.now (length versions.now.commits) transaction.now.entries ≡ true) }
    ensures numbered { OnOk result (length versions.now.commits + 1 < 2 ^ 64) }
    ensures countable { OnOk result
        (length (stream_of versions.now.commits worker) + length (parts_of transaction.now.entries) < 2 ^ 64) }
{
    if failed {
        return Err(CommitFault::Failed);
    }
    if transaction.entries().is_empty() {
        return Err(CommitFault::ReadOnly);
    }
    if transaction.snapshot() > durable as u64
        || !versions.are_defined(transaction.snapshot(), transaction.entries())
    {
        return Err(CommitFault::Foreign);
    }
    if let Some(number) = conflict(versions, transaction.snapshot(), transaction.entries()) {
        return Err(CommitFault::Conflict(number));
    }
    next_number(versions, tail, worker, transaction.entries()).ok_or(CommitFault::NumbersUsedUp)
}

/// The number of the next commit, of a worker and of these entries; `None` if that number, or a seq
/// or count of the commit's frames, would pass 64 bits.
fn next_number(versions: &Versions, tail: &Tail, worker: u8, entries: &[Entry]) -> Option<u64>
    requires tail { IsTailOf tail.now versions.now.commits }
    requires numbered { AreNumbered versions.now.commits }
    requires spelled { AllByRecursion HasSpelling entries.now }
    ensures { result ≡ (if nat_lt (length versions.now.commits + 1) (2 ^ 64)
        && nat_lt (length (stream_of versions.now.commits worker) + length (parts_of entries.now)) (2 ^ 64)
        then Some (length versions.now.commits + 1) else None) }
{
    let number = versions.len().checked_add(1)?;
    let _ = tail
        .next_seq(worker)
        .checked_add(part_count(entries) as u64)?;
    Some(number)
}

/// The last commit, durable or pending, that touches the entries, if it is after that snapshot: one
/// that writes one of their rows, or adds a column to one of their tables, or has an entry of a
/// table to which one of them adds a column.
fn conflict(versions: &Versions, snapshot: u64, entries: &[Entry]) -> Option<u64>
    ensures last { result ≡ (if nat_lt snapshot (last_touching entries.now 0 versions.now.commits)
        then Some (last_touching entries.now 0 versions.now.commits) else None) }
    ensures stay_defined { IfNone result (defined_at versions.now snapshot entries.now ≡ true
        → defined_at versions.now (length versions.now.commits) entries.now ≡ true) }
{
    let last = versions.last_touching(entries);
    if last > snapshot { Some(last) } else { None }
}
