//! The known seqs of one worker.

ghost use Rattle.std.specs.Prelude.{◌≡◌, ◌+◌, ◌-◌, ◌<◌, ◌≤◌, ◌^◌, ℕ, [], true, false, OnOk, OnErr};
ghost use Rattle.intake.specs.Known.{is_known, with_seq, with_below, first_missing, first_missing_from, is_ahead};
ghost use Rattle.intake.specs.Inner.Held.{seqs_in, begins_at, begins_under, seqs_from, AreAtLeast, AreBelow, IsHeld};

use rows::limits::FRAME_WINDOW;
use std::alloc::{AllocError, Global};
use std::collections::BTreeSet;
use std::marker::Model;

/// The known seqs of one worker: all below the first missing one, and some above it. The former
/// take no memory. Of the latter there are at most 4095, since none further ahead is taken; only if
/// frames are taken with a base, there may be more below and behind it.
///
/// If an image stands for the frames below a base, the first missing seq from there on is asked for
/// with each frame. So that it is found in one step, `next` is kept for one base: all seqs from
/// `base` to before `next` are known.
///
/// Contracts see the seqs in rising order.
#[derive(Drop)]
pub struct KnownSeqs {
    missing: u64,
    above: BTreeSet<u64>,
    base: u64,
    next: u64,
}

impl Model for KnownSeqs {
    ghost use Rattle.std.specs.Prelude.{List, ℕ};
    ghost use Rattle.intake.specs.Inner.Held.{seqs_in, IsKeptAbove};

    ghost Value = { List ℕ };

    ghost view = { λ s. seqs_in s.missing s.above.keys };

    ghost invariant = { λ s. IsKeptAbove s.missing s.above.keys s.base s.next };
}

impl KnownSeqs {
    /// No seq.
    pub fn new(alloc: Global) -> KnownSeqs
        ensures { result ≡ [] }
    {
        KnownSeqs {
            missing: 0,
            above: BTreeSet::new(alloc),
            base: 0,
            next: 0,
        }
    }

    /// Whether that seq is known.
    pub fn contains(&self, seq: u64) -> bool
        ensures { result ≡ is_known self.now seq }
    {
        seq < self.missing || self.above.contains(&seq)
    }

    /// The least seq that is not known.
    pub fn first_missing(&self) -> u64
        ensures { result ≡ first_missing self.now }
    {
        self.missing
    }

    /// The least seq from `base` on that is not known. It is found in one step if `aim` was last
    /// called with this base, and otherwise by a look-up for each known seq that it passes.
    pub fn first_missing_from(&self, base: u64) -> u64
        ensures { result ≡ first_missing_from self.now base }
    {
        if base <= self.missing {
            return self.missing;
        }
        let from = if base == self.base { self.next } else { base };
        pass_above(&self.above, from)
    }

    /// Lets the first missing seq from this base on be found in one step from now on. It costs a
    /// look-up for each known seq that it passes.
    pub fn aim(&mut self, base: u64)
        ensures { self.new ≡ self.old }
    {
        self.next = pass_above(&self.above, base);
        self.base = base;
    }

    /// Whether the seq is too far ahead to be kept: it is the greatest number, or 4096 or more past
    /// the first missing one from the base on.
    pub fn is_ahead(&self, base: u64, seq: u64) -> bool
        ensures { result ≡ is_ahead self.now base seq }
    {
        seq == u64::MAX || seq.saturating_sub(self.first_missing_from(base)) >= FRAME_WINDOW
    }

    /// Adds a seq that is not known yet. Fails only if out of memory.
    pub fn insert(&mut self, seq: u64) -> Result<(), AllocError>
        requires unknown { is_known self.old seq ≡ false }
        requires seq { seq < 2 ^ 64 - 1 }
        ensures ok { OnOk result (self.new ≡ with_seq self.old seq) }
        ensures err { OnErr result (self.new ≡ self.old) }
    {
        if seq == self.missing {
            self.missing = pass_known(seq + 1, &mut self.above);
            return Ok(());
        }
        self.above.insert(seq)?;
        self.advance();
        Ok(())
    }

    /// Moves `next` past what has become known.
    fn advance(&mut self)
        ensures { self.new ≡ self.old }
    {
        self.next = pass_above(&self.above, self.next);
    }

    /// Makes every seq below the base known. It costs a step for each seq that is held above the
    /// first missing one and is below the base or passed then, and none for all others.
    pub fn gain(&mut self, base: u64)
        ensures { self.new ≡ with_below self.old base }
    {
        if base > self.missing {
            drop_under(&mut self.above, base);
            self.missing = pass_known(base, &mut self.above);
        }
    }

    /// No seq is known any more.
    pub fn forget(&mut self)
        ensures { self.new ≡ [] }
    {
        self.missing = 0;
        self.above.clear();
        self.base = 0;
        self.next = 0;
    }
}

/// The first missing seq, given that all before `from` are known and these are the known ones from
/// it on. Those that it passes are removed; each is passed once.
fn pass_known(from: u64, above: &mut BTreeSet<u64>) -> u64
    requires from { AreAtLeast from above.old.keys }
    requires below { AreBelow (2 ^ 64 - 1) above.old.keys }
    ensures same { seqs_in result above.new.keys ≡ seqs_in from above.old.keys }
    ensures held { IsHeld result above.new.keys }
{
    let mut missing = from;
    while first_is_at(above, missing) {
        above.pop_first();
        missing += 1;
    }
    missing
}

/// Whether that seq is there, given that none is below it.
fn first_is_at(above: &BTreeSet<u64>, seq: u64) -> bool
    ensures begins { result ≡ begins_at above.now.keys seq }
    ensures none { result ≡ false → AreAtLeast seq above.now.keys → AreAtLeast (seq + 1) above.now.keys }
{
    match above.first() {
        None => false,
        Some(first) => *first == seq,
    }
}

/// The first seq from `from` on that is not among these.
fn pass_above(above: &BTreeSet<u64>, from: u64) -> u64
    requires { AreBelow (2 ^ 64 - 1) above.now.keys }
    ensures up { from ≤ result }
    ensures unknown { is_known above.now.keys result ≡ false }
    ensures passed { (seq : ℕ) → from ≤ seq → seq < result → is_known above.now.keys seq ≡ true }
{
    let mut next = from;
    while above.contains(&next) {
        next += 1;
    }
    next
}

/// Removes the seqs below the base, one by one.
fn drop_under(above: &mut BTreeSet<u64>, base: u64)
    ensures { above.new.keys ≡ seqs_from base above.old.keys }
{
    while first_is_under(above, base) {
        above.pop_first();
    }
}

/// Whether there is a seq below the base; the least decides it.
fn first_is_under(above: &BTreeSet<u64>, base: u64) -> bool
    ensures begins { result ≡ begins_under above.now.keys base }
    ensures none { result ≡ false → AreAtLeast base above.now.keys }
{
    match above.first() {
        None => false,
        Some(first) => *first < base,
    }
}
