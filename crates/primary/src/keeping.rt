//! Keeping commits: in the versions, and in the streams of their frames.

ghost use Rattle.std.specs.Prelude.{◌≡◌, ◌+◌, ◌^◌, ◌<◌, ◌≤◌, ◌∷◌, [], ◌++◌, length, true, IfOk, OnOk, OnErr};
ghost use Rattle.std.specs.List.{AllByRecursion};
ghost use Rattle.rows.specs.Commits.{IsCommit};
ghost use Rattle.rows.specs.Limits.{commit_entries_max, workers_max};
ghost use Rattle.rows.specs.Shape.{shape_of};
ghost use Rattle.rows.specs.Spelling.{HasSpelling};
ghost use Rattle.mvcc.specs.VersionList.{defined_at};
ghost use Rattle.update_log.specs.Parts.{parts_of};
ghost use Rattle.update_log.specs.Streams.{AreStreamsOf, stream_of};
ghost use Rattle.journal.specs.Recovery.{HasRecord, IsJournaled};
ghost use Rattle.primary.specs.Journaling.{AreNumbered};
ghost use Rattle.primary.specs.Inner.Tail.{IsTailOf};

use crate::tail::Tail;
use mvcc::Versions;
use rows::{Commit, Entry, Schema};
use std::alloc::{AllocError, Global};
use update_log::{Streams, streams_go_on};

/// The versions of a list of commits. Fails only if out of memory.
pub fn versions_of(
    alloc: Global,
    schema: &Schema,
    workers: u8,
    commits: &[Commit],
) -> Result<Versions, AllocError>
    requires few { workers ≤ workers_max }
    requires journaled { IsJournaled workers (shape_of schema.now) commits.now }
    requires numbered { AreNumbered commits.now }
    ensures { IfOk result (λ versions. versions ≡ record { schema = schema.now; commits = commits.now }) }
{
    rows::laws::commits_are_defined_one_by_one();
    let mut versions = Versions::new(alloc, schema)?;
    for commit in commits {
        versions.absorb(commit.worker, commit.entries.as_slice())?;
    }
    Ok(versions)
}

/// The streams of a list of commits. Fails only if out of memory.
pub fn streams_of(alloc: Global, commits: &[Commit]) -> Result<Streams, AllocError>
    requires each { AllByRecursion (IsCommit workers_max) commits.now }
    requires records { AllByRecursion HasRecord commits.now }
    requires numbered { AreNumbered commits.now }
    ensures { IfOk result (λ streams. AreStreamsOf streams.streams commits.now) }
{
    let mut streams = Streams::new(alloc)?;
    for (index, commit) in commits.iter().enumerate() {
        streams.extend(commit, index as u64 + 1)?;
    }
    Ok(streams)
}

/// Adds the next commit, of these entries, to the versions and to its worker's stream. All memory
/// is taken before anything changes. Fails only if out of memory, and then no commit has been
/// added.
pub fn keep(
    versions: &mut Versions,
    tail: &mut Tail,
    worker: u8,
    entries: &[Entry],
) -> Result<(), AllocError>
    requires defined { defined_at versions.old (length versions.old.commits) entries.now ≡ true }
    requires spelled { AllByRecursion HasSpelling entries.now }
    requires few { length entries.now ≤ commit_entries_max }
    requires numbered { length versions.old.commits + 1 < 2 ^ 64 }
    requires tail { IsTailOf tail.old versions.old.commits }
    requires there { worker < workers_max }
    requires countable { length (stream_of versions.old.commits worker) + length (parts_of entries.now) < 2 ^ 64 }
    ensures tail { IsTailOf tail.new versions.new.commits }
    ensures base { tail.new.base ≡ tail.old.base }
    ensures ok { OnOk result
        (versions.new ≡ record versions.old { commits = versions.old.commits ++ record { worker = worker; entries = entries.now } ∷ [] }) }
    ensures err { OnErr result (versions.new ≡ versions.old) }
{
    streams_go_on();
    let number = versions.len() - tail.base as u64 + 1;
    let next = tail.streams.reserve(worker, entries, number)?;
    versions.absorb(worker, entries)?;
    tail.streams.add(next);
    Ok(())
}
