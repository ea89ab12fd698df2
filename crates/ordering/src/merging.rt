//! The merge of all workers' frames.

ghost use Rattle.std.specs.Prelude.{◌≡◌, ℕ, ◌+◌, ◌<◌, ◌≤◌, ◌^◌, List, [], ◌∷◌, length, true, false, slice_index, vec_capacity};
ghost use Rattle.std.specs.Prelude.{IfOk, IfErr, OnOk, MatchOption};
ghost use Rattle.rows.specs.declared.commit.Commit.{Commit as CommitOf};
ghost use Rattle.rows.specs.Limits.{workers_max};
ghost use Rattle.intake.specs.Kept.{AreKept, AreAllKept, frames_between};
ghost use Rattle.ordering.specs.Merging.{HoldFirst, IsMerge, frames_in};
ghost use Rattle.ordering.specs.Inner.Progress.{is_first_numbered, IsStuck};

use crate::faults::OrderFault;
use crate::gathering::{gather, kept_frame};
use intake::Intake;
use rows::Commit;
use std::alloc::Global;

/// Takes the commits `from` + 1, `from` + 2 and so on of those up to `to` that are held together by
/// each worker's frames from its seq in `at` to before its seq in `high`, into an empty list, until
/// that has no more room or `to` is reached. It moves `at` behind their frames. `at` and `high` have
/// one seq for each worker, and these frames are kept. So all commits up to `to` can be taken part by
/// part: a call goes on from the `at` that the one before left, and the version that it reached. For
/// each commit it looks at the next frame of each worker, of at most 16, never goes back to a frame,
/// and copies each entry once. It takes memory for the entries alone.
///
/// Fails with `Inconsistent` only if the frames hold no list of the commits up to `to`; so it does if
/// `to` is reached and a frame is left. Fails with `Memory` only if out of memory. After either, `at`
/// is at frames that are kept, and the list still has its room; nothing else is known of them.
pub fn next_commits(
    alloc: Global,
    intake: &Intake,
    at: &mut [u64],
    high: &[u64],
    from: u64,
    to: u64,
    part: &mut Vec<Commit>,
) -> Result<(), OrderFault>
    requires each { length at.old ≡ length high.now }
    requires workers { length at.old ≤ workers_max }
    requires kept { AreAllKept intake.now at.old high.now }
    requires versions { from ≤ to }
    requires empty { part.old.items ≡ [] }
    ensures held { OnOk result (HoldFirst from part.new.items (frames_in intake.now at.old high.now)
        (frames_in intake.now at.new high.now)) }
    ensures within { OnOk result (from + length part.new.items ≤ to) }
    ensures full { OnOk result (from + length part.new.items < to → length part.new.items ≡ vec_capacity part.old) }
    ensures end { OnOk result (from + length part.new.items ≡ to → IsMerge (frames_in intake.now at.new high.now) to to []) }
    ensures inconsistent { IfErr result (λ fault. fault ≡ OrderFault.Inconsistent
        → (commits : List CommitOf) → IsMerge (frames_in intake.now at.old high.now) from to commits → ⊥) }
    ensures kept { AreAllKept intake.now at.new high.now }
    ensures capacity { vec_capacity part.new ≡ vec_capacity part.old }
{
    let end = part_end(from, to, part.capacity() as u64);
    for before in from..end {
        match next_commit(alloc, intake, at, high, before) {
            Err(fault) => return Err(fault),
            Ok(commit) => part.push_reserved(commit),
        }
    }
    if end < to {
        return Ok(());
    }
    if is_used_up(at, high) {
        Ok(())
    } else {
        Err(OrderFault::Inconsistent)
    }
}

/// The version that a part with so much room reaches.
fn part_end(from: u64, to: u64, room: u64) -> u64
    requires { from ≤ to }
    ensures above { from ≤ result }
    ensures within { result ≤ to }
    ensures room { result ≤ from + room }
    ensures full { result < to → result ≡ from + room }
{
    if room < to - from { from + room } else { to }
}

/// The next commit after `before` others, and each worker's next seq after it. After a fault the
/// seqs are unchanged.
fn next_commit(
    alloc: Global,
    intake: &Intake,
    at: &mut [u64],
    high: &[u64],
    before: u64,
) -> Result<Commit, OrderFault>
    requires each { length at.old ≡ length high.now }
    requires workers { length at.old ≤ workers_max }
    requires kept { AreAllKept intake.now at.old high.now }
    requires number { before + 1 < 2 ^ 64 }
    ensures kept { AreAllKept intake.now at.new high.now }
    ensures step { IfOk result (λ commit.
        HoldFirst before (commit ∷ []) (frames_in intake.now at.old high.now) (frames_in intake.now at.new high.now)) }
    ensures stuck { IfErr result (λ fault. fault ≡ OrderFault.Inconsistent
        → IsStuck before (frames_in intake.now at.old high.now)) }
{
    let number = before + 1;
    let worker = match worker_of(intake, at, high, number) {
        None => return Err(OrderFault::Inconsistent),
        Some(worker) => worker,
    };
    match gather(
        alloc,
        intake,
        worker as u8,
        at[worker],
        high[worker],
        number,
    ) {
        Err(fault) => Err(fault),
        Ok(commit) => {
            at[worker] = commit.next;
            Ok(Commit {
                worker: worker as u8,
                entries: commit.entries,
            })
        }
    }
}

/// The least worker whose next frame belongs to the commit of that number.
fn worker_of(intake: &Intake, at: &[u64], high: &[u64], number: u64) -> Option<usize>
    requires each { length at.now ≡ length high.now }
    requires workers { length at.now ≤ workers_max }
    requires kept { AreAllKept intake.now at.now high.now }
    ensures { MatchOption result
        ((worker : ℕ) → worker < length at.now → is_first_numbered number (frames_in intake.now at.now high.now worker) ≡ false)
        (λ worker. (worker < length at.now) × (is_first_numbered number (frames_in intake.now at.now high.now worker) ≡ true)) }
{
    for (worker, next) in at.iter().enumerate() {
        if is_next(intake, worker as u8, *next, high[worker], number) {
            return Some(worker);
        }
    }
    None
}

/// Whether the first of a worker's frames from `next` to before `end` belongs to the commit of that
/// number.
fn is_next(intake: &Intake, worker: u8, next: u64, end: u64, number: u64) -> bool
    requires { AreKept intake.now worker next end }
    ensures { result ≡ is_first_numbered number (frames_between intake.now worker next end) }
{
    next < end && kept_frame(intake, worker, next).commit == number
}

/// Whether no worker has a frame left.
fn is_used_up(at: &[u64], high: &[u64]) -> bool
    requires { length at.now ≡ length high.now }
    ensures none { result ≡ true → (worker : ℕ) → slice_index high.now worker ≤ slice_index at.now worker }
    ensures some { result ≡ false → (worker : ℕ) × (slice_index at.now worker < slice_index high.now worker) }
{
    for (worker, next) in at.iter().enumerate() {
        if *next < high[worker] {
            return false;
        }
    }
    true
}
