//! The arrivals of all workers.

ghost use Rattle.std.specs.Prelude.{◌≡◌, ◌<◌, ◌^◌, [], length, slice_index, IfOk, ◌⊎◌};
ghost use Rattle.std.specs.Option.{option_map};
ghost use Rattle.update_log.specs.declared.frame.Frame.{Frame as FrameOf};
ghost use Rattle.intake.specs.Known.{first_missing, first_missing_from};
ghost use Rattle.intake.specs.State.{known_of, frame_of};
ghost use Rattle.intake.specs.Steps.{no_arrivals, taken, lacking, dropped, gained, released};

use crate::collector::Collector;
use crate::taken::Taken;
use std::alloc::{AllocError, Global};
use std::marker::Model;
use update_log::Frame;

/// The known frames of each worker, and which of them are kept.
///
/// Contracts see, by worker, the seqs that are known and the frames that are kept.
#[derive(Drop)]
pub struct Intake {
    workers: Vec<Collector>,
}

impl Model for Intake {
    ghost use Rattle.std.specs.Prelude.{List, length, ◌<◌, ◌^◌};
    ghost use Rattle.intake.specs.State.{Arrivals};

    ghost Value = { List Arrivals };

    ghost view = { λ s. s.workers.items };

    ghost invariant = { λ s. length s.workers.items < 2 ^ 8 };
}

impl Intake {
    /// An intake for this many workers, from whom nothing has arrived. Fails only if out of memory.
    pub fn new(alloc: Global, workers: u8) -> Result<Intake, AllocError>
        ensures { IfOk result (λ intake. intake ≡ no_arrivals workers) }
    {
        let mut collectors = Vec::new(alloc);
        for _ in 0..workers {
            collectors.push(Collector::new(alloc))?;
        }
        Ok(Intake {
            workers: collectors,
        })
    }

    /// How many workers there are.
    pub fn workers(&self) -> u8
        ensures { result ≡ length self.now }
    {
        self.workers.len() as u8
    }

    /// Takes a frame that arrived from an existing worker: keeps a copy of it if it is not known
    /// and not too far ahead. It costs a look-up, and a step for each known seq that the first
    /// missing one passes; each seq is passed once. `Memory` is answered only if the frame would be
    /// stored. Only `Stored` changes anything.
    pub fn take(&mut self, frame: &Frame) -> Taken
        requires { frame.now.worker < length self.old }
        ensures { ((result ≡ Taken.Memory) × (self.new ≡ self.old) × ((taken self.old [] frame.now).0 ≡ Taken.Stored))
            ⊎ (taken self.old [] frame.now ≡ (result, self.new)) }
    {
        self.workers[frame.worker as usize].take(0, frame)
    }

    /// Takes a frame as `take` does, but keeps the frame itself, not a copy, and counts from the
    /// first seq that is missing at or above its worker's base how far ahead it is. The bases are by
    /// worker, 0 for a worker without one. If `aim` was not last called with them, it also costs a
    /// step for each known seq from the base to that seq.
    pub fn take_owned(&mut self, bases: &[u64], frame: Frame) -> Taken
        requires { frame.worker < length self.old }
        ensures { ((result ≡ Taken.Memory) × (self.new ≡ self.old) × ((taken self.old bases.now frame).0 ≡ Taken.Stored))
            ⊎ (taken self.old bases.now frame ≡ (result, self.new)) }
    {
        let base = base_of(bases, frame.worker);
        self.workers[frame.worker as usize].take_owned(base, frame)
    }

    /// What `take_owned` answers, with these bases, to a frame of that seq of an existing worker, if
    /// there is memory; it does not depend on the frame's entries. Takes no memory.
    pub fn would_take(&self, bases: &[u64], worker: u8, seq: u64) -> Taken
        requires { worker < length self.now }
        ensures { (frame : FrameOf) → frame.worker ≡ worker → frame.seq ≡ seq → result ≡ (taken self.now bases.now frame).0 }
    {
        let base = base_of(bases, worker);
        self.workers[worker as usize].would_take(base, seq)
    }

    /// Lets calls with these bases find each worker's first missing seq in one step from now on. No
    /// answer depends on it, so a caller that leaves it out is only slower. The bases are by worker;
    /// it costs a step for each known seq from there to the first missing one. Takes no memory.
    pub fn aim(&mut self, bases: &[u64])
        ensures { self.new ≡ self.old }
    {
        aim_each(&mut self.workers, bases);
    }

    /// Makes every frame below its worker's base known, also those that never came; which are kept
    /// stays as it is. The bases are by worker, any numbers; nothing changes for a worker without
    /// one. It costs a step for each worker, and one for each known seq above the first missing one
    /// that is below the base or passed then. Takes no memory.
    pub fn gain(&mut self, bases: &[u64])
        ensures { self.new ≡ gained self.old bases.now }
    {
        gain_each(&mut self.workers, bases);
    }

    /// The first missing seq of a worker: all before it are known. It is 0 if there is no such
    /// worker. Takes no memory.
    pub fn contiguous(&self, worker: u8) -> u64
        ensures { result ≡ first_missing (known_of self.now worker) }
    {
        match self.workers.as_slice().get(worker as usize) {
            None => 0,
            Some(collector) => collector.first_missing(),
        }
    }

    /// The first seq of a worker that is missing at or above its base: all from the base to before it
    /// are known. The bases are by worker, 0 for a worker without one. It is the base if there is no
    /// such worker. Takes no memory.
    pub fn contiguous_from(&self, bases: &[u64], worker: u8) -> u64
        ensures { result ≡ first_missing_from (known_of self.now worker) (slice_index bases.now worker) }
    {
        let base = base_of(bases, worker);
        match self.workers.as_slice().get(worker as usize) {
            None => base,
            Some(collector) => collector.first_missing_from(base),
        }
    }

    /// The least worker whose first missing seq is below its count, with that seq. The counts are
    /// by worker; a worker without a count lacks nothing. Takes no memory.
    pub fn first_missing(&self, counts: &[u64]) -> Option<(u8, u64)>
        ensures { result ≡ lacking self.now [] counts.now }
    {
        lacking_worker(&self.workers, &[], counts)
    }

    /// The least worker whose first missing seq at or above its base is below its count, with that
    /// seq: as `first_missing`, but no frame below the bases is looked for. The bases are by worker,
    /// 0 for a worker without one. Takes no memory.
    pub fn first_missing_from(&self, bases: &[u64], counts: &[u64]) -> Option<(u8, u64)>
        ensures { result ≡ lacking self.now bases.now counts.now }
    {
        lacking_worker(&self.workers, bases, counts)
    }

    /// The frame of that seq of a worker, if it is kept; `None` also if there is no such worker.
    /// Takes no memory.
    pub fn frame(&self, worker: u8, seq: u64) -> Option<&Frame>
        ensures { option_map (λ frame. frame.now) result ≡ frame_of self.now worker seq }
    {
        match self.workers.as_slice().get(worker as usize) {
            None => None,
            Some(collector) => collector.frame(seq),
        }
    }

    /// Drops each worker's frames below its count, and releases their memory; they stay known. The
    /// counts are by worker; for a worker without a count nothing is dropped. Takes no memory.
    pub fn drop_below(&mut self, counts: &[u64])
        ensures { self.new ≡ dropped self.old counts.now }
    {
        drop_each(&mut self.workers, counts);
    }

    /// Hands out the frame of that seq of an existing worker, if it is kept; it stays known. Takes no
    /// memory.
    pub fn release(&mut self, worker: u8, seq: u64) -> Option<Frame>
        requires { worker < length self.old }
        ensures frame { result ≡ frame_of self.old worker seq }
        ensures left { self.new ≡ released self.old worker seq }
    {
        self.workers[worker as usize].release(seq)
    }

    /// Forgets all that arrived, and releases its memory. Takes no memory.
    pub fn forget(&mut self)
        ensures { self.new ≡ no_arrivals (length self.old) }
    {
        forget_each(&mut self.workers);
    }
}

/// The base of a worker; 0 if it has none.
fn base_of(bases: &[u64], worker: u8) -> u64
    ensures { result ≡ slice_index bases.now worker }
{
    match bases.get(worker as usize) {
        Some(base) => *base,
        None => 0,
    }
}

/// The least worker whose first missing seq at or above its base is below its count, with that seq.
fn lacking_worker(workers: &[Collector], bases: &[u64], counts: &[u64]) -> Option<(u8, u64)>
    requires { length workers.now < 2 ^ 8 }
    ensures { result ≡ lacking workers.now bases.now counts.now }
{
    for (worker, count) in counts.iter().enumerate() {
        if worker >= workers.len() {
            return None;
        }
        let base = base_of(bases, worker as u8);
        let missing = workers[worker].first_missing_from(base);
        if missing < *count {
            return Some((worker as u8, missing));
        }
    }
    None
}

/// Aims each worker that has a base at it.
fn aim_each(workers: &mut [Collector], bases: &[u64])
    ensures { workers.new ≡ workers.old }
{
    for (worker, base) in bases.iter().enumerate() {
        if worker >= workers.len() {
            return;
        }
        workers[worker].aim(*base);
    }
}

/// Makes every seq below each worker's base known.
fn gain_each(workers: &mut [Collector], bases: &[u64])
    ensures { workers.new ≡ gained workers.old bases.now }
{
    for (worker, base) in bases.iter().enumerate() {
        if worker >= workers.len() {
            return;
        }
        workers[worker].gain(*base);
    }
}

/// Drops each worker's frames below its count.
fn drop_each(workers: &mut [Collector], counts: &[u64])
    ensures { workers.new ≡ dropped workers.old counts.now }
{
    for (worker, count) in counts.iter().enumerate() {
        if worker >= workers.len() {
            return;
        }
        workers[worker].drop_below(*count);
    }
}

/// Forgets what arrived from each worker.
fn forget_each(workers: &mut [Collector])
    ensures { workers.new ≡ no_arrivals (length workers.old) }
{
    for worker in 0..workers.len() {
        workers[worker].forget();
    }
}
