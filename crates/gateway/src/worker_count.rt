//! How many workers a line has.

ghost use Rattle.std.specs.Prelude.{◌≡◌, ◌≤◌};

use shared::Origin;
use std::marker::{Model, PhantomData};

/// How many of a line's workers there are for jobs.
#[derive(Drop)]
pub struct WorkerCount<L: Origin> {
    count: u8,
    of: PhantomData<L>,
}

impl<L: Origin> Model for WorkerCount<L> {
    ghost use Rattle.std.specs.Prelude.{ℕ, ◌≤◌};

    ghost Value = { ℕ };

    ghost view = { λ w. w.count };

    ghost invariant = { λ w. w.count ≤ L.workers };
}

impl<L: Origin> WorkerCount<L> {
    /// So many workers. Takes no memory.
    pub fn new(count: u8) -> WorkerCount<L>
        requires { count ≤ L.workers }
        ensures { result ≡ count }
    {
        WorkerCount {
            count,
            of: PhantomData,
        }
    }

    /// How many.
    pub fn count(&self) -> u8
        ensures value { result ≡ self.now }
        ensures within { self.now ≤ L.workers }
    {
        self.count
    }
}
