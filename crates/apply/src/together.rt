//! Applying lists of commits to all partitions, each by itself, in threads.

ghost use Rattle.std.specs.Prelude.{◌≡◌, ℕ, ◌<◌, length, true, Ok, None, Some, OnOk, IfErr, IfSome, IsNone, nat_le};
ghost use Rattle.std.specs.Prelude.{slice_index_or};
ghost use Rattle.rows.specs.Tables.{apply_entries};
ghost use Rattle.rows.specs.Commits.{apply_commits};
ghost use Rattle.store.specs.Faults.{FailsAs, have_entries};
ghost use Rattle.apply.specs.Limits.{together_min};
ghost use Rattle.apply.specs.Inner.Ends.{EndsAs};
ghost use Rattle.apply.specs.Partitions.{tables_in};
ghost use Rattle.apply.specs.Inner.Gathered.{ArePartitions, entries_in, entries_of};
ghost use Rattle.apply.specs.Inner.Views.{views};

use crate::laws::entries_make_tables;
use crate::own::apply_own;
use crate::partition::Partition;
use rayon::current_num_threads;
use rayon::prelude::*;
use rows::Commit;
use std::alloc::Global;
use std::thread::Threads;
use store::ApplyFault;

/// The number of entries from which each partition works by itself.
const TOGETHER_MIN: usize = 4096;

/// Whether these commits have at least 4,096 entries.
pub fn are_many(commits: &[Commit]) -> bool
    ensures { result ≡ nat_le together_min (length (entries_of commits.now)) }
{
    let mut left = TOGETHER_MIN;
    for commit in commits {
        let entries = commit.entries.as_slice().len();
        if left <= entries {
            return true;
        }
        left -= entries;
    }
    false
}

/// Makes the changes of these commits, each partition its own, and keeps the outcome.
/// Each thread goes over the entries once for each of its partitions.
fn change_each<R: Threads + Sync>(
    rt: &R,
    alloc: Global,
    partitions: &mut [Partition],
    commits: &[Commit],
)
    ensures { (k : ℕ) (d : _) → k < length partitions.old → EndsAs (have_entries commits.now)
        (apply_entries (slice_index_or partitions.old k d).tables.items (entries_in (length partitions.old) k (entries_of commits.now)))
        (slice_index_or partitions.new k d).tables.items (slice_index_or partitions.new k d).fault }
{
    let count = partitions.len();
    let share = count.div_ceil(current_num_threads(rt)).max(1);
    par_chunks_mut_for_each(rt, partitions, share, |first, chunk| {
        apply_own(alloc, chunk, commits, first, count);
    });
}

/// The first fault of the partitions.
fn first_fault(partitions: &[Partition]) -> Option<ApplyFault>
    ensures none { IsNone result → ((k : ℕ) (d : _) → k < length partitions.now → (slice_index_or partitions.now k d).fault ≡ None) }
    ensures some { IfSome result (λ fault. (k : ℕ) × (k < length partitions.now)
        × ((d : _) → (slice_index_or partitions.now k d).fault ≡ Some fault)) }
{
    for partition in partitions {
        if let Some(fault) = partition.fault {
            return Some(fault);
        }
    }
    None
}

/// Makes the changes of these commits, each partition by itself.
pub fn apply_in_threads<R: Threads + Sync>(
    rt: &R,
    alloc: Global,
    partitions: &mut [Partition],
    commits: &[Commit],
) -> Result<(), ApplyFault>
    requires some { 0 < length partitions.old }
    requires partitions { ArePartitions (views partitions.old) }
    ensures ok { OnOk result (apply_commits (tables_in (views partitions.old)) commits.now ≡ Ok (tables_in (views partitions.new))) }
    ensures partitions { OnOk result (ArePartitions (views partitions.new)) }
    ensures err { IfErr result (FailsAs true (have_entries commits.now) (apply_commits (tables_in (views partitions.old)) commits.now)) }
    ensures len { length partitions.new ≡ length partitions.old }
{
    entries_make_tables();
    change_each(rt, alloc, partitions, commits);
    match first_fault(partitions) {
        None => Ok(()),
        Some(fault) => Err(fault),
    }
}
