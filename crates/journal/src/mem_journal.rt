//! A journal in memory.

ghost use Rattle.std.specs.Prelude.{◌≡◌, []};

use crate::journal_store::JournalStore;
use std::alloc::{AllocError, Global};
use std::convert::Infallible;
use std::marker::Model;

/// A journal in memory. It is honest, and never has a fault.
///
/// Contracts see its bytes, and how many more it can take without memory.
#[derive(Drop)]
pub struct MemJournal {
    content: Vec<u8>,
}

impl Model for MemJournal {
    ghost use Rattle.std.specs.Prelude.{◌-◌, vec_len, vec_capacity};
    ghost use Rattle.journal.specs.State.{JournalState};

    ghost Value = { JournalState };

    ghost view = { λ j. record { bytes = j.content.items; room = vec_capacity j.content - vec_len j.content } };
}

impl MemJournal {
    /// A journal without bytes. Takes no memory.
    pub fn new(alloc: Global) -> MemJournal
        ensures { result.bytes ≡ [] }
    {
        MemJournal {
            content: Vec::new(alloc),
        }
    }

    /// A journal of these bytes. Takes no memory.
    pub fn of(content: Vec<u8>) -> MemJournal
        ensures { result.bytes ≡ content.items }
    {
        MemJournal { content }
    }

    /// The bytes, lent. Takes no memory.
    pub fn content(&self) -> &[u8]
        ensures { result.now ≡ self.now.bytes }
    {
        self.content.as_slice()
    }
}

impl JournalStore for MemJournal {
    ghost use Rattle.std.specs.Prelude.{[], true};

    type Fault = Infallible;

    ghost standing = { λ j. j.bytes };

    ghost left_behind = { λ _. [] };

    ghost room = { λ j. j.room };

    ghost fault_count = { λ _. 0 };

    ghost is_honest = { λ _. true };

    fn reserve(&mut self, count: usize) -> Result<(), AllocError> {
        self.content.reserve(count)
    }

    fn append(&mut self, bytes: &[u8]) -> Result<(), Infallible> {
        // Into the room that is reserved: `extend_from_slice` could take memory.
        for byte in bytes {
            self.content.push_reserved(*byte);
        }
        Ok(())
    }

    fn cut_to(&mut self, len: u64) -> Result<(), Infallible> {
        self.content.truncate(len as usize);
        Ok(())
    }

    fn read_all(&mut self, list: &mut Vec<u8>) -> Result<(), Option<Infallible>> {
        list.clear();
        match list.extend_from_slice(&self.content) {
            Ok(()) => Ok(()),
            Err(_) => Err(None),
        }
    }

    fn faults(&self) -> u64 {
        0
    }
}
