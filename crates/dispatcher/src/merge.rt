//! The merge of the frames that a batch goes by: its commits are taken and applied part by part.

ghost use Rattle.std.specs.Prelude.{◌≡◌, ◌+◌, ◌<◌, ◌≤◌, List, [], length, true, false, vec_capacity, IfOk, IfErr, OnOk, OnErr};
ghost use Rattle.rows.specs.Limits.{workers_max};
ghost use Rattle.rows.specs.declared.commit.Commit.{Commit as CommitOf};
ghost use Rattle.intake.specs.Kept.{AreAllKept};
ghost use Rattle.ordering.specs.Merging.{HoldFirst, IsMerge, frames_in};
ghost use Rattle.dispatcher.specs.Inner.Merging.{CanGoOn, IsBegun, GoesOnFrom, MergeApplies, merging_of};

use crate::batch::Fetched;
use crate::faults::{CatchUpFault, catch_up_fault};
use intake::Intake;
use ordering::{OrderFault, next_commits, parts_make_the_merge};
use rows::Commit;
use std::alloc::Global;
use std::marker::Sync;
use std::thread::Threads;
use store::ApplyStore;

/// How many commits are merged and applied at once. They are copies beside the frames that hold them,
/// and no more of them are held, however far a replica lags. Each has an entry, so a full part has the
/// 4,096 entries from which on a `ColumnStore` applies a list in threads.
const PART_COMMITS: usize = 4096;

/// How far a merge has come.
#[derive(Drop)]
pub struct Merge {
    /// The seq of each worker's next frame.
    at: Vec<u64>,

    /// The version of the commits that were taken.
    version: u64,

    /// Those that were taken last.
    part: Vec<Commit>,
}

/// Begins the merge of each worker's frames from its low to before its count, which hold the commits
/// behind a version: takes all the room that the merge needs for itself, and the first part.
///
/// Fails with `Inconsistent` only if the frames hold no such commits, and with `Memory` only if out of
/// memory.
pub fn begun_merge(
    alloc: Global,
    intake: &Intake,
    low: &[u64],
    from: u64,
    fetched: &Fetched,
) -> Result<Merge, OrderFault>
    requires each { length low.now ≡ length fetched.now.counts }
    requires workers { length low.now ≤ workers_max }
    requires kept { AreAllKept intake.now low.now fetched.now.counts }
    requires versions { from ≤ fetched.now.version }
    ensures goes_on { IfOk result (λ merge. CanGoOn intake.now fetched.now.counts fetched.now.version merge) }
    ensures begun { IfOk result (λ merge. IsBegun (frames_in intake.now low.now fetched.now.counts) from
        (merging_of intake.now fetched.now.counts merge)) }
    ensures inconsistent { IfErr result (λ fault. fault ≡ OrderFault.Inconsistent → (commits : List CommitOf)
        → IsMerge (frames_in intake.now low.now fetched.now.counts) from fetched.now.version commits → ⊥) }
{
    let Ok(at) = Vec::from_slice(alloc, low) else {
        return Err(OrderFault::Memory);
    };
    let Ok(part) = Vec::with_capacity(alloc, PART_COMMITS) else {
        return Err(OrderFault::Memory);
    };
    let mut merge = Merge {
        at,
        version: from,
        part,
    };
    match take_part(alloc, intake, fetched, &mut merge) {
        Ok(()) => Ok(merge),
        Err(fault) => Err(fault),
    }
}

/// Takes the next part of a merge whose last one was emptied. Fails as `next_commits` does.
fn take_part(
    alloc: Global,
    intake: &Intake,
    fetched: &Fetched,
    merge: &mut Merge,
) -> Result<(), OrderFault>
    requires each { length merge.old.at.items ≡ length fetched.now.counts }
    requires workers { length merge.old.at.items ≤ workers_max }
    requires kept { AreAllKept intake.now merge.old.at.items fetched.now.counts }
    requires versions { merge.old.version ≤ fetched.now.version }
    requires empty { merge.old.part.items ≡ [] }
    requires room { 0 < vec_capacity merge.old.part }
    ensures goes_on { OnOk result (CanGoOn intake.now fetched.now.counts fetched.now.version merge.new) }
    ensures begun { OnOk result (IsBegun (frames_in intake.now merge.old.at.items fetched.now.counts) merge.old.version
        (merging_of intake.now fetched.now.counts merge.new)) }
    ensures on { OnOk result (merge.old.version < fetched.now.version → merge.old.version < merge.new.version) }
    ensures inconsistent { IfErr result (λ fault. fault ≡ OrderFault.Inconsistent → (commits : List CommitOf)
        → IsMerge (frames_in intake.now merge.old.at.items fetched.now.counts) merge.old.version fetched.now.version commits → ⊥) }
{
    match next_commits(
        alloc,
        intake,
        merge.at.as_mut_slice(),
        fetched.counts.as_slice(),
        merge.version,
        fetched.version,
        &mut merge.part,
    ) {
        Ok(()) => {
            merge.version += merge.part.len() as u64;
            Ok(())
        }
        Err(fault) => Err(fault),
    }
}

/// Applies to a store the part that was taken last, and then each part behind it, up to the version that
/// was fetched.
///
/// Fails with `Inconsistent` only if the frames that are left hold no commits up to there, or one of
/// these is refused; with `Broken` only if out of memory, and if there was something to apply; with
/// `Memory` never. After any failure the store has made some of the changes.
pub fn apply_merge<S: ApplyStore, R: Threads + Sync>(
    alloc: Global,
    rt: &R,
    intake: &Intake,
    fetched: &Fetched,
    merge: &mut Merge,
    store: &mut S,
) -> Result<(), CatchUpFault>
    requires goes_on { CanGoOn intake.now fetched.now.counts fetched.now.version merge.old }
    requires whole { S.is_whole store.old ≡ true }
    ensures applies { MergeApplies (merging_of intake.now fetched.now.counts merge.old) fetched.now.version (S.tables store.old)
        result (S.tables store.new) }
    ensures stays_whole { OnOk result (S.is_whole store.new ≡ true) }
    ensures base { S.base_shape store.new ≡ S.base_shape store.old }
{
    parts_make_the_merge();
    'parts: loop {
        match store.apply_all(rt, &merge.part) {
            Ok(()) => {}
            Err(fault) => return Err(catch_up_fault(fault)),
        }
        if merge.version == fetched.version {
            return Ok(());
        }
        merge.part.clear();
        match take_part(alloc, intake, fetched, merge) {
            Ok(()) => {}
            Err(OrderFault::Inconsistent) => return Err(CatchUpFault::Inconsistent),
            Err(OrderFault::Memory) => return Err(CatchUpFault::Broken),
        }
    }
}
