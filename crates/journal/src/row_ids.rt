//! The identifiers of one table's rows.

ghost use Rattle.std.specs.Prelude.{◌≡◌, ℕ, ◌==◌, ◌||◌, [], true, false, OnOk, if◌then◌else◌};
ghost use Rattle.journal.specs.Inner.Presence.{has_id};
ghost use Rattle.journal.specs.Inner.Slots.{ids_of, ids_in};

use crate::id_slots::IdSlots;
use rows::RowId;
use std::alloc::{AllocError, Global};
use std::collections::BTreeSet;
use std::marker::Model;

/// The identifiers of the rows of one table.
///
/// They are in a hash table, of which at least half stays empty, so that a step mostly looks at one
/// place in memory; an ordered set would be looked through from place to place. An identifier whose
/// bucket is full is in an ordered set, and so is 0. So whichever identifiers are chosen, a step
/// takes at most the logarithm of their number, apart from the steps that double the table.
#[derive(Drop)]
pub struct RowIds {
    alloc: Global,
    slots: IdSlots,
    overflow: BTreeSet<u64>,
    /// How many more identifiers may be put in before the table doubles.
    room: usize,
}

impl Model for RowIds {
    ghost use Rattle.std.specs.Prelude.{List, ℕ};
    ghost use Rattle.journal.specs.Inner.Slots.{ids_in};

    ghost Value = { List ℕ };

    ghost view = { λ r. ids_in r.slots r.overflow.keys };
}

impl RowIds {
    /// None. Takes no memory.
    pub fn new(alloc: Global) -> RowIds
        ensures { result ≡ [] }
    {
        RowIds {
            alloc,
            slots: IdSlots::new(alloc),
            overflow: BTreeSet::new(alloc),
            room: 0,
        }
    }

    /// Whether the row is among them.
    pub fn contains(&self, row: RowId) -> bool
        ensures { result ≡ has_id self.now row.0 }
    {
        self.slots.contains(row.0) || self.overflow.contains(&row.0)
    }

    /// Puts the row among them, or takes it out. Fails only if out of memory.
    pub fn set(&mut self, row: RowId, there: bool) -> Result<(), AllocError>
        ensures { OnOk result ((r : ℕ) → has_id self.new r ≡ (if row.0 == r then there else has_id self.old r)) }
    {
        if there {
            self.insert(row.0)
        } else {
            self.remove(row.0);
            Ok(())
        }
    }

    /// Puts an identifier among them. Fails only if out of memory.
    fn insert(&mut self, id: u64) -> Result<(), AllocError>
        ensures { OnOk result ((r : ℕ) → has_id self.new r ≡ (if id == r then true else has_id self.old r)) }
    {
        if self.room == 0 {
            self.double()?;
        }
        self.room = self.room.saturating_sub(1);
        put(&mut self.slots, &mut self.overflow, id)
    }

    /// Takes an identifier out, if it is among them.
    fn remove(&mut self, id: u64)
        ensures { (r : ℕ) → has_id self.new r ≡ (if id == r then false else has_id self.old r) }
    {
        self.slots.remove(id);
        self.overflow.remove(&id);
        self.room = self.room.saturating_add(1);
    }

    /// Moves the identifiers into a table of twice the size. Fails only if out of memory.
    fn double(&mut self) -> Result<(), AllocError>
        ensures { OnOk result ((r : ℕ) → has_id self.new r ≡ has_id self.old r) }
    {
        let mut slots = self.slots.twice_as_many(self.alloc)?;
        put_all(&self.slots, &mut slots, &mut self.overflow)?;
        self.room = slots.len() / 4;
        self.slots = slots;
        Ok(())
    }
}

/// Puts an identifier into a table, or if its bucket is full into the overflow. Fails only if out of
/// memory.
fn put(slots: &mut IdSlots, overflow: &mut BTreeSet<u64>, id: u64) -> Result<(), AllocError>
    ensures { OnOk result ((r : ℕ) → has_id (ids_in slots.new overflow.new.keys) r
        ≡ (if id == r then true else has_id (ids_in slots.old overflow.old.keys) r)) }
{
    if !slots.put(id) {
        overflow.insert(id)?;
    }
    Ok(())
}

/// Puts all identifiers of one table into another and its overflow. Fails only if out of memory.
fn put_all(
    from: &IdSlots,
    slots: &mut IdSlots,
    overflow: &mut BTreeSet<u64>,
) -> Result<(), AllocError>
    ensures { OnOk result ((r : ℕ) → has_id (ids_in slots.new overflow.new.keys) r
        ≡ (has_id (ids_of from.now) r || has_id (ids_in slots.old overflow.old.keys) r)) }
{
    for at in 0..from.len() {
        let id = from.get(at);
        if id != 0 {
            put(slots, overflow, id)?;
        }
    }
    Ok(())
}
