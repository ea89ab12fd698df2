//! Putting the frames of one commit together.

ghost use Rattle.std.specs.Prelude.{◌≡◌, ◌<◌, ◌≤◌, ◌++◌, Some, IsSome, IfOk, IfErr, OnOk};
ghost use Rattle.intake.specs.State.{frame_of};
ghost use Rattle.intake.specs.Kept.{AreKept, frames_between};
ghost use Rattle.ordering.specs.Merging.{HoldCommit};
ghost use Rattle.ordering.specs.Inner.Progress.{HoldNone};

use crate::faults::OrderFault;
use intake::Intake;
use rows::limits::COMMIT_ENTRIES_MAX;
use rows::{Entry, EntryList};
use std::alloc::{AllocError, Global};
use update_log::Frame;

/// The entries of a commit, and the seq after its last frame.
#[derive(Drop)]
pub struct Gathered {
    pub entries: EntryList,
    pub next: u64,
}

/// The commit of that number whose frames are first among a worker's frames from `first` to before
/// `end`. `Inconsistent` if there is none of that number.
pub fn gather(
    alloc: Global,
    intake: &Intake,
    worker: u8,
    first: u64,
    end: u64,
    number: u64,
) -> Result<Gathered, OrderFault>
    requires { AreKept intake.now worker first end }
    ensures next { IfOk result (λ gathered. (first < gathered.next) × (gathered.next ≤ end)) }
    ensures held { IfOk result (λ gathered.
        HoldCommit number gathered.entries (frames_between intake.now worker first gathered.next)) }
    ensures none { IfErr result (λ fault. fault ≡ OrderFault.Inconsistent
        → HoldNone number (frames_between intake.now worker first end)) }
{
    let mut entries = EntryList::new(alloc);
    for seq in first..end {
        let frame = kept_frame(intake, worker, seq);
        if frame.commit != number {
            return Err(OrderFault::Inconsistent);
        }
        if frame.entries.len() > COMMIT_ENTRIES_MAX - entries.len() {
            return Err(OrderFault::Inconsistent);
        }
        if append(&mut entries, frame.entries.as_slice()).is_err() {
            return Err(OrderFault::Memory);
        }
        if frame.last {
            if entries.is_empty() {
                return Err(OrderFault::Inconsistent);
            }
            return Ok(Gathered {
                entries,
                next: seq + 1,
            });
        }
    }
    Err(OrderFault::Inconsistent)
}

/// The frame of that seq of a worker, which is kept.
pub fn kept_frame(intake: &Intake, worker: u8, seq: u64) -> &Frame
    requires { IsSome (frame_of intake.now worker seq) }
    ensures { frame_of intake.now worker seq ≡ Some result.now }
{
    match intake.frame(worker, seq) {
        None => unreachable!(),
        Some(frame) => frame,
    }
}

/// Adds copies of more entries. The first get room for exactly them, since most commits are one
/// frame's; with those of further frames the list grows by doubling. Fails only if out of memory;
/// nothing is then known of the list.
fn append(entries: &mut EntryList, more: &[Entry]) -> Result<(), AllocError>
    ensures { OnOk result (entries.new ≡ entries.old ++ more.now) }
{
    let are_first = entries.is_empty();
    if are_first {
        entries.reserve_exact(more.len())?;
    }
    for entry in more {
        entries.push(copy_of(entry)?)?;
    }
    Ok(())
}

/// A copy of the entry. Fails only if out of memory.
fn copy_of(entry: &Entry) -> Result<Entry, AllocError>
    ensures { IfOk result (λ copy. copy ≡ entry.now) }
{
    entry.clone()
}
