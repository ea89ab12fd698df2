//! Changes of neighbouring partitions, one partition after the other: each goes over all entries and
//! makes its own. So a processor's cache holds one partition at a time.

ghost use Rattle.std.specs.Prelude.{◌≡◌, ℕ, ◌+◌, ◌<◌, [], ◌∷◌, length, slice_index_or};
ghost use Rattle.rows.specs.Tables.{apply_entries};
ghost use Rattle.store.specs.Faults.{have_entries};
ghost use Rattle.apply.specs.Inner.Ends.{EndsAs, GoesOn};
ghost use Rattle.apply.specs.Inner.Gathered.{is_in, entries_in, entries_of};

use crate::partition::Partition;
use crate::partitions::home_of;
use rows::{Commit, Entry};
use std::alloc::Global;

/// Whether an entry is one of a partition's: it is of one of its rows, or adds a column, which each
/// partition adds. Of `count` partitions this is number `first + index`.
fn takes(entry: &Entry, first: usize, index: usize, count: usize) -> bool
    requires { 0 < count }
    ensures { result ≡ is_in count (first + index) entry.now }
{
    let Some(row) = entry.row() else {
        return true;
    };
    let home = home_of(row.0, count);
    first <= home && home - first == index
}

/// Gives an entry to a partition, if it is one of its own: of `count` partitions this is number
/// `first + index`.
fn give(
    alloc: Global,
    partition: &mut Partition,
    entry: &Entry,
    first: usize,
    index: usize,
    count: usize,
)
    requires { 0 < count }
    ensures { GoesOn (entries_in count (first + index) (entry.now ∷ [])) partition.old partition.new }
{
    if !takes(entry, first, index, count) {
        return;
    }
    partition.go_on(alloc, entry);
}

/// Gives entries in their order to a partition, its own alone: of `count` partitions this is number
/// `first + index`.
fn give_all(
    alloc: Global,
    partition: &mut Partition,
    entries: &[Entry],
    first: usize,
    index: usize,
    count: usize,
)
    requires { 0 < count }
    ensures { GoesOn (entries_in count (first + index) entries.now) partition.old partition.new }
{
    for entry in entries {
        give(alloc, partition, entry, first, index, count);
    }
}

/// Gives the entries of commits in their order to a partition, its own alone: of `count` partitions
/// this is number `first + index`.
fn give_commits(
    alloc: Global,
    partition: &mut Partition,
    commits: &[Commit],
    first: usize,
    index: usize,
    count: usize,
)
    requires { 0 < count }
    ensures { GoesOn (entries_in count (first + index) (entries_of commits.now)) partition.old partition.new }
{
    for commit in commits {
        give_all(
            alloc,
            partition,
            commit.entries.as_slice(),
            first,
            index,
            count,
        );
    }
}

/// Makes the changes of commits that are a partition's own, in their order, up to the first that is
/// refused, and keeps how that ended: of `count` partitions this is number `first + index`.
fn apply_partition(
    alloc: Global,
    partition: &mut Partition,
    commits: &[Commit],
    first: usize,
    index: usize,
    count: usize,
)
    requires { 0 < count }
    ensures { EndsAs (have_entries commits.now)
        (apply_entries partition.old.tables.items (entries_in count (first + index) (entries_of commits.now)))
        partition.new.tables.items partition.new.fault }
{
    partition.fault = None;
    give_commits(alloc, partition, commits, first, index, count);
}

/// Makes the changes of commits, each of these partitions its own in their order, up to the first
/// that is refused; each keeps how that ended. These are, of `count` partitions, those from number
/// `first` on.
pub fn apply_own(
    alloc: Global,
    partitions: &mut [Partition],
    commits: &[Commit],
    first: usize,
    count: usize,
)
    requires { 0 < count }
    ensures { (k : ℕ) (d : _) → k < length partitions.old → EndsAs (have_entries commits.now)
        (apply_entries (slice_index_or partitions.old k d).tables.items (entries_in count (first + k) (entries_of commits.now)))
        (slice_index_or partitions.new k d).tables.items (slice_index_or partitions.new k d).fault }
{
    for index in 0..partitions.len() {
        apply_partition(alloc, &mut partitions[index], commits, first, index, count);
    }
}
