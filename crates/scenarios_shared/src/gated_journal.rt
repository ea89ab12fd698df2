//! A journal in memory of which an append waits for another thread.

ghost use Rattle.std.specs.Prelude.{◌≡◌};

use journal::{JournalStore, MemJournal};
use std::alloc::{AllocError, Global};
use std::convert::Infallible;
use std::sync::Arc;
use std::sync::atomic::{AtomicU64, Ordering};
use std::thread;

/// Turns that an append waits, at most.
const TURNS: u32 = 1_000_000;

/// An append does not wait.
pub const OPEN: u64 = 0;
/// The next append waits.
pub const CLOSED: u64 = 1;
/// An append waits.
pub const WAITING: u64 = 2;
/// The other thread was done while an append waited. No append waits any more.
pub const PASSED: u64 = 3;
/// The turns of an append ran out.
pub const RAN_OUT: u64 = 4;

/// A journal in memory of which an append waits, in counted turns, until another thread is done. An
/// append has no handle with which it could wait otherwise.
#[derive(Drop)]
pub struct GatedJournal {
    inner: MemJournal,
    gate: Arc<AtomicU64, Global>,
}

impl GatedJournal {
    /// A journal without bytes, behind this gate. Takes no memory.
    pub fn new(alloc: Global, gate: Arc<AtomicU64, Global>) -> GatedJournal {
        GatedJournal {
            inner: MemJournal::new(alloc),
            gate,
        }
    }
}

/// Waits at a closed gate until it is passed, or the turns run out.
fn wait_at(gate: &AtomicU64) {
    if gate.load(Ordering::SeqCst) != CLOSED {
        return;
    }
    gate.store(WAITING, Ordering::SeqCst);
    for _ in 0..TURNS {
        if gate.load(Ordering::SeqCst) == PASSED {
            return;
        }
        thread::yield_now();
    }
    gate.store(RAN_OUT, Ordering::SeqCst);
}

/// Waits until an append waits at the gate, and answers whether one does.
pub fn is_waited_for(gate: &AtomicU64) -> bool {
    for _ in 0..TURNS {
        if gate.load(Ordering::SeqCst) == WAITING {
            return true;
        }
        thread::yield_now();
    }
    false
}

/// Lets the append pass that waits at the gate, and answers whether one did still wait.
pub fn is_let_pass(gate: &AtomicU64) -> bool {
    gate.compare_exchange(WAITING, PASSED, Ordering::SeqCst, Ordering::SeqCst)
        .is_ok()
}

impl JournalStore for GatedJournal {
    ghost use Rattle.std.specs.Prelude.{[], true};

    type Fault = Infallible;

    ghost standing = { λ j. j.inner.bytes };

    ghost left_behind = { λ _. [] };

    ghost room = { λ j. j.inner.room };

    ghost fault_count = { λ _. 0 };

    ghost is_honest = { λ _. true };

    fn reserve(&mut self, count: usize) -> Result<(), AllocError> {
        self.inner.reserve(count)
    }

    fn append(&mut self, bytes: &[u8]) -> Result<(), Infallible> {
        wait_at(&self.gate);
        self.inner.append(bytes)
    }

    fn cut_to(&mut self, len: u64) -> Result<(), Infallible> {
        self.inner.cut_to(len)
    }

    fn read_all(&mut self, list: &mut Vec<u8>) -> Result<(), Option<Infallible>> {
        self.inner.read_all(list)
    }

    fn faults(&self) -> u64 {
        0
    }
}
