//! The frame counts of a Head.

ghost use Rattle.std.specs.Prelude.{◌≡◌, ◌<◌, ◌≤◌, ◌∷◌, [], ◌++◌, length, replicate, nat_le};
ghost use Rattle.std.specs.Cmp.Lexicographic.{pointwise};
ghost use Rattle.rows.specs.Limits.{workers_max};

use arrayvec::ArrayVec;
use rows::limits::WORKERS_MAX;
use std::marker::Model;

/// How many counts there are, at most.
const COUNTS_MAX: usize = WORKERS_MAX as usize;

/// How many frames each worker has, in the order of the workers: at most 16 numbers, kept
/// inline.
#[derive(Drop)]
pub struct Counts {
    items: ArrayVec<u64, COUNTS_MAX>,
}

impl Model for Counts {
    ghost use Rattle.std.specs.Prelude.{List, ℕ};

    ghost Value = { List ℕ };

    ghost view = { λ c. c.items.items };
}

impl Counts {
    /// No counts yet.
    pub fn new() -> Counts
        ensures { result ≡ [] }
    {
        Counts {
            items: ArrayVec::new(),
        }
    }

    /// The count 0 for each of this many workers.
    pub fn zeros(workers: u8) -> Counts
        requires { workers ≤ workers_max }
        ensures { result ≡ replicate workers 0 }
    {
        let mut counts = Counts::new();
        for _ in 0..workers {
            counts.push(0);
        }
        counts
    }

    /// Adds the next worker's count.
    pub fn push(&mut self, count: u64)
        requires { length self.old < workers_max }
        ensures { self.new ≡ self.old ++ count ∷ [] }
    {
        self.items.push(count);
    }

    /// The counts, lent.
    pub fn as_slice(&self) -> &[u64]
        ensures counts { result.now ≡ self.now }
        ensures few { length result.now ≤ workers_max }
    {
        self.items.as_slice()
    }

    /// Whether these are as many as the others, and none is above the other of its worker.
    pub fn are_within(&self, others: &Counts) -> bool
        ensures { result ≡ pointwise nat_le self.now others.now }
    {
        none_above(self.as_slice(), others.as_slice())
    }
}

fn none_above(lows: &[u64], counts: &[u64]) -> bool
    ensures { result ≡ pointwise nat_le lows.now counts.now }
{
    if lows.len() != counts.len() {
        return false;
    }
    for (worker, low) in lows.iter().enumerate() {
        if counts[worker] < *low {
            return false;
        }
    }
    true
}
