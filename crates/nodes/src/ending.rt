//! How the threads of a node end together.

use crate::faults::NodeFault;
use std::sync::atomic::{AtomicBool, AtomicU64, Ordering};
use std::sync::{Mutex, Wait};

/// What the threads of a node tell each other of its end.
#[derive(Drop)]
pub struct Ending {
    /// Why the node ends; the first that was told.
    fault: Mutex<Option<NodeFault>>,
    /// Whether all threads are to end at once.
    is_stopped: AtomicBool,
    /// How many threads still do what came.
    working: AtomicU64,
    /// Whether a line of the input did not read, and was passed over.
    has_slipped: AtomicBool,
}

impl Ending {
    /// Of a node that goes on, in which so many threads do what comes.
    pub fn of(working: u64) -> Ending {
        Ending {
            fault: Mutex::new(None),
            is_stopped: AtomicBool::new(false),
            working: AtomicU64::new(working),
            has_slipped: AtomicBool::new(false),
        }
    }

    /// Ends the node at once, for this reason if there was none before.
    pub fn stop<R: Wait>(&self, rt: &R, fault: NodeFault) {
        self.note(rt, fault);
        self.is_stopped.store(true, Ordering::SeqCst);
    }

    /// Has the node end for this reason, if there was none before, once what came before is done.
    pub fn note<R: Wait>(&self, rt: &R, fault: NodeFault) {
        let mut first = self.fault.lock(rt);
        if first.is_none() {
            *first = Some(fault);
        }
    }

    /// Whether all threads are to end at once.
    pub fn is_stopped(&self) -> bool {
        self.is_stopped.load(Ordering::SeqCst)
    }

    /// Says that a thread has done all that came to it, and that no more does.
    pub fn finish(&self) {
        self.working.fetch_sub(1, Ordering::SeqCst);
    }

    /// Whether all that came is done, and no more comes.
    pub fn is_done(&self) -> bool {
        self.working.load(Ordering::SeqCst) == 0
    }

    /// Says that a line of the input did not read, and was passed over.
    pub fn slip(&self) {
        self.has_slipped.store(true, Ordering::SeqCst);
    }

    /// Whether the node ends for a fault.
    pub fn has_failed<R: Wait>(&self, rt: &R) -> bool {
        self.fault.lock(rt).is_some()
    }

    /// Why the node ended, if it was for a fault, or whether a line was passed over.
    pub fn into_result(self) -> Result<(), NodeFault> {
        let has_slipped = self.has_slipped.load(Ordering::SeqCst);
        match self.fault.into_inner() {
            Some(fault) => Err(fault),
            None if has_slipped => Err(NodeFault::Slipped),
            None => Ok(()),
        }
    }
}
