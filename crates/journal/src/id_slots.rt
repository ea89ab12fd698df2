//! A hash table of identifiers, in which each may be in one bucket only.

ghost use Rattle.std.specs.Prelude.{◌≡◌, ◌≢◌, ℕ, ◌+◌, ◌*◌, ◌/◌, ◌<◌, ◌≤◌, ◌==◌, ◌||◌, ◌&&◌, [], false, length};
ghost use Rattle.std.specs.Prelude.{slice_index, IfOk, MatchOption, if◌then◌else◌};
ghost use Rattle.journal.specs.Inner.Presence.{has_id};
ghost use Rattle.journal.specs.Inner.Slots.{bucket_in, IsInBucket, IsCleared, ids_of};

use std::alloc::{AllocError, Global};
use std::marker::Model;

/// How many slots a bucket has: two or three lines of a processor's cache.
const BUCKET: usize = 16;

/// An odd number whose bits have no pattern: 2^64 divided by the golden ratio.
const SPREAD: u64 = 0x9e37_79b9_7f4a_7c15;

/// A hash table of identifiers: slots, sixteen of which are a bucket. An identifier may be in one
/// bucket only, which its bits decide, so a search looks at sixteen slots. A bucket may be full. A
/// slot with 0 is empty, so 0 is never in the table.
///
/// Contracts see the slots.
#[derive(Drop)]
pub struct IdSlots {
    slots: Vec<u64>,
}

impl Model for IdSlots {
    ghost use Rattle.std.specs.Prelude.{List, ℕ};
    ghost use Rattle.journal.specs.Inner.Slots.{AreInBuckets};

    ghost Value = { List ℕ };

    ghost view = { λ s. s.slots.items };

    ghost invariant = { λ s. AreInBuckets s.slots.items };
}

impl IdSlots {
    /// No slots. Takes no memory.
    pub fn new(alloc: Global) -> IdSlots
        ensures { result ≡ [] }
    {
        IdSlots {
            slots: Vec::new(alloc),
        }
    }

    /// Twice as many slots as these, all empty; one bucket if there are none. Fails only if out of
    /// memory.
    pub fn twice_as_many(&self, alloc: Global) -> Result<IdSlots, AllocError>
        ensures { IfOk result (λ slots. (id : ℕ) → has_id (ids_of slots) id ≡ false) }
    {
        let count = if self.slots.is_empty() {
            BUCKET
        } else {
            2 * self.slots.len()
        };
        Ok(IdSlots {
            slots: vec![in alloc; 0; count]?,
        })
    }

    /// How many slots there are.
    pub fn len(&self) -> usize
        ensures { result ≡ length self.now }
    {
        self.slots.len()
    }

    /// What is in a slot: an identifier, or 0 if it is empty.
    pub fn get(&self, at: usize) -> u64
        requires { at < length self.now }
        ensures { result ≡ slice_index self.now at }
    {
        self.slots[at]
    }

    /// Whether an identifier is in the table.
    pub fn contains(&self, id: u64) -> bool
        ensures { result ≡ has_id (ids_of self.now) id }
    {
        if id == 0 {
            return false;
        }
        slot_with(self.slots.as_slice(), id, id).is_some()
    }

    /// Puts an identifier into the first empty slot of its bucket, and answers whether there was one.
    /// If there was none, or the identifier is 0, nothing changes.
    pub fn put(&mut self, id: u64) -> bool
        ensures { (r : ℕ) → has_id (ids_of self.new) r ≡ ((result && (id == r)) || has_id (ids_of self.old) r) }
    {
        if id == 0 {
            return false;
        }
        match slot_with(self.slots.as_slice(), id, 0) {
            Some(at) => {
                self.slots[at] = id;
                true
            }
            None => false,
        }
    }

    /// Takes an identifier out, if it is in the table.
    pub fn remove(&mut self, id: u64)
        ensures { (r : ℕ) → has_id (ids_of self.new) r ≡ (if id == r then false else has_id (ids_of self.old) r) }
    {
        if id == 0 {
            return;
        }
        if self.slots.len() < BUCKET {
            return;
        }
        let first = first_of(self.slots.len(), id);
        clear(&mut self.slots, id, first);
    }
}

/// Empties the slots that have an identifier, in the bucket that begins at a slot.
fn clear(slots: &mut Vec<u64>, id: u64, first: usize)
    requires some { 0 < id }
    requires within { first + 16 ≤ length slots.old.items }
    ensures { IsCleared slots.old.items slots.new.items id first (first + 16) }
{
    for at in first..first + BUCKET {
        if slots[at] == id {
            slots[at] = 0;
        }
    }
}

/// The first slot in the bucket of an identifier that has a value; `None` if no slot there has it.
fn slot_with(slots: &[u64], id: u64, value: u64) -> Option<usize>
    ensures { MatchOption result
        ((at : ℕ) → at < length slots.now → IsInBucket slots.now id at → slice_index slots.now at ≢ value)
        (λ at. (at < length slots.now) × (slice_index slots.now at ≡ value) × IsInBucket slots.now id at) }
{
    if slots.len() < BUCKET {
        return None;
    }
    let first = first_of(slots.len(), id);
    for at in first..first + BUCKET {
        if slots[at] == value {
            return Some(at);
        }
    }
    None
}

/// The first slot of the bucket of an identifier, in a table of so many slots.
///
/// Identifiers that rise fill one bucket after the other, eight each, so their steps stay in a
/// processor's cache. The bits above the lowest 24 decide at which bucket they begin, so identifiers
/// that differ in these bits alone are spread, too.
fn first_of(slots: usize, id: u64) -> usize
    requires { 16 ≤ slots }
    ensures value { result ≡ 16 * bucket_in slots id }
    ensures within { result + 16 ≤ slots }
{
    let start = (id >> 24).wrapping_mul(SPREAD) >> 32;
    let bucket = (id / 8 + start) as usize % (slots / BUCKET);
    BUCKET * bucket
}
