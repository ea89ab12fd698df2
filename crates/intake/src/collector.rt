//! The arrivals of one worker.

ghost use Rattle.std.specs.Prelude.{◌≡◌, ◌-◌, ◌<◌, ◌^◌, false, true, IfOk, OnOk, OnErr, ◌⊎◌};
ghost use Rattle.std.specs.Option.{option_map};
ghost use Rattle.update_log.specs.declared.frame.Frame.{Frame as FrameOf};
ghost use Rattle.intake.specs.Known.{is_known, first_missing, first_missing_from};
ghost use Rattle.intake.specs.State.{nothing, frame_in};
ghost use Rattle.intake.specs.Steps.{with_frame, without_below, without_frame, known_below};
ghost use Rattle.intake.specs.Inner.Collecting.{taken_by, begins_below, NoneBelow};

use crate::known_seqs::KnownSeqs;
use crate::taken::Taken;
use std::alloc::{AllocError, Global};
use std::collections::BTreeMap;
use std::marker::Model;
use update_log::Frame;

/// What has arrived from one worker: the known seqs, and the frames that are kept.
#[derive(Drop)]
pub struct Collector {
    known: KnownSeqs,
    kept: BTreeMap<u64, Frame>,
}

impl Model for Collector {
    ghost use Rattle.intake.specs.State.{Arrivals};
    ghost use Rattle.intake.specs.Inner.Collecting.{arrivals_in, AreKnown};

    ghost Value = { Arrivals };

    ghost view = { λ s. arrivals_in s.known s.kept.entries };

    ghost invariant = { λ s. AreKnown s.known s.kept.entries };
}

impl Collector {
    /// Nothing has come.
    pub fn new(alloc: Global) -> Collector
        ensures { result ≡ nothing }
    {
        Collector {
            known: KnownSeqs::new(alloc),
            kept: BTreeMap::new(alloc),
        }
    }

    /// The first seq that is missing.
    pub fn first_missing(&self) -> u64
        ensures { result ≡ first_missing self.now.known }
    {
        self.known.first_missing()
    }

    /// The first seq from the base on that is missing.
    pub fn first_missing_from(&self, base: u64) -> u64
        ensures { result ≡ first_missing_from self.now.known base }
    {
        self.known.first_missing_from(base)
    }

    /// Lets the first missing seq from this base on be found in one step from now on.
    pub fn aim(&mut self, base: u64)
        ensures { self.new ≡ self.old }
    {
        self.known.aim(base);
    }

    /// Makes every seq below the base known.
    pub fn gain(&mut self, base: u64)
        ensures { self.new ≡ known_below self.old base }
    {
        self.known.gain(base);
    }

    /// The frame of that seq, if it is kept.
    pub fn frame(&self, seq: u64) -> Option<&Frame>
        ensures { option_map (λ frame. frame.now) result ≡ frame_in self.now.kept seq }
    {
        self.kept.get(&seq)
    }

    /// Takes a copy of a frame of this worker, with the window from the base on.
    pub fn take(&mut self, base: u64, frame: &Frame) -> Taken
        ensures { ((result ≡ Taken.Memory) × (self.new ≡ self.old) × ((taken_by self.old base frame.now).0 ≡ Taken.Stored))
            ⊎ (taken_by self.old base frame.now ≡ (result, self.new)) }
    {
        match self.would_take(base, frame.seq) {
            Taken::Stored => {}
            other => return other,
        }
        match copy_of(frame) {
            Ok(copy) => self.take_owned(base, copy),
            Err(_) => Taken::Memory,
        }
    }

    /// Takes a frame of this worker, with the window from the base on.
    pub fn take_owned(&mut self, base: u64, frame: Frame) -> Taken
        ensures { ((result ≡ Taken.Memory) × (self.new ≡ self.old) × ((taken_by self.old base frame).0 ≡ Taken.Stored))
            ⊎ (taken_by self.old base frame ≡ (result, self.new)) }
    {
        if self.known.contains(frame.seq) {
            return Taken::Repeat;
        }
        if self.known.is_ahead(base, frame.seq) {
            return Taken::Ahead;
        }
        match self.store(frame) {
            Ok(()) => Taken::Stored,
            Err(_) => Taken::Memory,
        }
    }

    /// The answer to a frame of that seq, if there is memory.
    pub fn would_take(&self, base: u64, seq: u64) -> Taken
        ensures { (frame : FrameOf) → frame.seq ≡ seq → result ≡ (taken_by self.now base frame).0 }
    {
        if self.known.contains(seq) {
            return Taken::Repeat;
        }
        if self.known.is_ahead(base, seq) {
            return Taken::Ahead;
        }
        Taken::Stored
    }

    /// Keeps a frame that is not known yet. Fails only if out of memory.
    fn store(&mut self, frame: Frame) -> Result<(), AllocError>
        requires unknown { is_known self.old.known frame.seq ≡ false }
        requires seq { frame.seq < 2 ^ 64 - 1 }
        ensures ok { OnOk result (self.new ≡ with_frame self.old frame) }
        ensures err { OnErr result (self.new ≡ self.old) }
    {
        let seq = frame.seq;
        self.kept.insert(seq, frame)?;
        match self.known.insert(seq) {
            Ok(()) => Ok(()),
            Err(error) => {
                self.kept.remove(&seq);
                Err(error)
            }
        }
    }

    /// Drops the frames below a seq. They stay known.
    pub fn drop_below(&mut self, count: u64)
        ensures { self.new ≡ without_below self.old count }
    {
        while first_is_below(&self.kept, count) {
            self.kept.pop_first();
        }
    }

    /// Hands out the frame of that seq, if it is kept. It stays known.
    pub fn release(&mut self, seq: u64) -> Option<Frame>
        ensures frame { result ≡ frame_in self.old.kept seq }
        ensures left { self.new ≡ without_frame self.old seq }
    {
        self.kept.remove(&seq)
    }

    /// Forgets all that came.
    pub fn forget(&mut self)
        ensures { self.new ≡ nothing }
    {
        self.known.forget();
        self.kept.clear();
    }
}

/// Whether there is a frame below that seq; the least seq decides it.
fn first_is_below(kept: &BTreeMap<u64, Frame>, count: u64) -> bool
    ensures begins { result ≡ begins_below kept.now.entries count }
    ensures none { result ≡ false → NoneBelow count kept.now.entries }
{
    match kept.first_key_value() {
        None => false,
        Some((first, _)) => *first < count,
    }
}

/// A copy of the frame. Fails only if out of memory.
fn copy_of(frame: &Frame) -> Result<Frame, AllocError>
    ensures { IfOk result (λ copy. copy ≡ frame.now) }
{
    frame.clone()
}
