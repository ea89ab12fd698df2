//! What a replica was told last.

ghost use Rattle.std.specs.Prelude.{◌≡◌, ◌-◌, ◌<◌, None, Some};

use std::sync::atomic::{AtomicU64, Ordering};

/// Stands for a moment that has not come.
const NEVER: u64 = u64::MAX;

/// The version that a replica was told last, and how many milliseconds ago.
#[derive(Clone, Copy, PartialEq, Eq)]
pub struct LastTold {
    pub version: u64,
    pub millis: u64,
}

/// What a replica was told last, shared by threads.
#[derive(Drop)]
pub(crate) struct ReplicaFigures {
    version: AtomicU64,
    /// When, in milliseconds of the node.
    told_at: AtomicU64,
}

impl ReplicaFigures {
    /// Of a replica that has never asked.
    pub fn new() -> ReplicaFigures {
        ReplicaFigures {
            version: AtomicU64::new(0),
            told_at: AtomicU64::new(NEVER),
        }
    }

    /// Notes that it was told a version at a moment.
    pub fn note(&self, version: u64, now: u64) {
        self.version.store(version, Ordering::SeqCst);
        self.told_at.store(now, Ordering::SeqCst);
    }

    /// What it was told last, if it was; seen from a moment.
    pub fn last_told(&self, now: u64) -> Option<LastTold> {
        let told_at = self.told_at.load(Ordering::SeqCst);
        told(self.version.load(Ordering::SeqCst), told_at, now)
    }
}

/// A version that was told at a moment, seen from another; `None` if that moment has not come.
fn told(version: u64, told_at: u64, now: u64) -> Option<LastTold>
    ensures never { told_at ≡ u64.MAX → result ≡ None }
    ensures told { told_at < u64.MAX → result ≡ Some (record { version = version; millis = now - told_at }) }
{
    if told_at == NEVER {
        return None;
    }
    Some(LastTold {
        version,
        millis: now.saturating_sub(told_at),
    })
}
