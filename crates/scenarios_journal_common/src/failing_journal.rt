//! A journal in memory of which one call fails.

ghost use Rattle.std.specs.Prelude.{◌≡◌, ◌+◌, ◌≤◌, ◌++◌, length, vec_len, vec_capacity};

use journal::JournalStore;
use std::alloc::{AllocError, Global};

/// The calls that may fail.
#[derive(Clone, Copy, PartialEq)]
pub enum Failing {
    /// Each of them.
    Any,
    Append,
    CutTo,
    ReadAll,
}

/// Which call fails: behind so many of its kind, and what it leaves: so many bytes of what was to be
/// appended, or more than a cut was to keep.
#[derive(Clone, Copy)]
pub struct Failure {
    pub call: Failing,
    pub calls_before: u64,
    pub bytes_left: usize,
}

/// A journal in memory of which one call fails, and no other. It is honest in what it leaves.
#[derive(Drop)]
pub struct FailingJournal {
    content: Vec<u8>,
    failure: Failure,
    faults: u64,
}

/// The call that is to fail.
#[derive(Drop)]
pub struct Refused;

impl FailingJournal {
    /// A journal of these bytes, which has that failure. Takes no memory.
    pub fn of(content: Vec<u8>, failure: Failure) -> FailingJournal {
        FailingJournal {
            content,
            failure,
            faults: 0,
        }
    }

    /// The bytes that stand.
    pub fn content(&self) -> &[u8] {
        self.content.as_slice()
    }

    /// Whether this call is to fail.
    fn is_turn(&mut self, call: Failing) -> bool
        ensures content { self.new.content ≡ self.old.content }
        ensures faults { self.new.faults ≡ self.old.faults }
    {
        if self.failure.call != Failing::Any && self.failure.call != call {
            return false;
        }
        if self.failure.calls_before == 0 && self.faults == 0 {
            return true;
        }
        self.failure.calls_before = self.failure.calls_before.saturating_sub(1);
        false
    }
}

/// Puts bytes at the end, where there is room for them.
fn put(content: &mut Vec<u8>, bytes: &[u8])
    requires { vec_len content.old + length bytes.now ≤ vec_capacity content.old }
    ensures { content.new.items ≡ content.old.items ++ bytes.now }
{
    match content.extend_from_slice(bytes) {
        Ok(()) => {}
        Err(_) => unreachable!(),
    }
}

impl JournalStore for FailingJournal {
    ghost use Rattle.std.specs.Prelude.{[], true, ◌-◌, vec_len, vec_capacity};

    type Fault = Refused;

    ghost standing = { λ j. j.content.items };

    ghost left_behind = { λ _. [] };

    ghost room = { λ j. vec_capacity j.content - vec_len j.content };

    ghost fault_count = { λ j. j.faults };

    ghost is_honest = { λ _. true };

    fn reserve(&mut self, count: usize) -> Result<(), AllocError> {
        self.content.reserve(count)
    }

    fn append(&mut self, bytes: &[u8]) -> Result<(), Refused> {
        if self.is_turn(Failing::Append) {
            let (front, _) = bytes.split_at(self.failure.bytes_left.min(bytes.len()));
            put(&mut self.content, front);
            self.faults += 1;
            return Err(Refused);
        }
        put(&mut self.content, bytes);
        Ok(())
    }

    fn cut_to(&mut self, len: u64) -> Result<(), Refused> {
        if self.is_turn(Failing::CutTo) {
            self.content
                .truncate((len as usize).saturating_add(self.failure.bytes_left));
            self.faults += 1;
            return Err(Refused);
        }
        self.content.truncate(len as usize);
        Ok(())
    }

    fn read_all(&mut self, list: &mut Vec<u8>) -> Result<(), Option<Refused>> {
        list.clear();
        if self.is_turn(Failing::ReadAll) {
            self.faults += 1;
            return Err(Some(Refused));
        }
        match list.extend_from_slice(&self.content) {
            Ok(()) => Ok(()),
            Err(_) => Err(None),
        }
    }

    fn faults(&self) -> u64 {
        self.faults
    }
}
