//! The entries of a commit, which contracts see as a list.

ghost use Rattle.std.specs.Prelude.{◌≡◌, ◌==◌, ◌∷◌, [], ◌++◌, length, IfOk, OnOk, OnErr, IsOk};
ghost use Rattle.std.specs.Cmp.{partial_equiv_from_equiv};
ghost use Rattle.std.specs.Cmp.Lexicographic.{pointwise, lists_equiv};
ghost use Rattle.rows.specs.Equality.{is_same_entry};
ghost use Rattle.rows.specs.Inner.Equivalence.{same_entry_equiv};

use crate::entry::Entry;
use std::alloc::{AllocError, Global};
use std::marker::Model;

/// An owned list of entries, in the order in which they take effect.
///
/// Contracts see the list itself, so two commits with the same entries are equal wherever their
/// memory is. It is made from a `Vec` and converted back without taking memory.
#[derive(Clone, Drop)]
pub struct EntryList {
    items: Vec<Entry>,
}

impl Model for EntryList {
    ghost use Rattle.std.specs.Prelude.{List};
    ghost use Rattle.rows.specs.declared.entry.Entry.{Entry};

    ghost Value = { List Entry };

    ghost view = { λ e. e.items.items };
}

impl EntryList {
    /// The list without entries. Takes no memory.
    pub fn new(alloc: Global) -> EntryList
        ensures { result ≡ [] }
    {
        EntryList {
            items: Vec::new(alloc),
        }
    }

    /// The list of these entries. Takes no memory.
    pub fn from_vec(items: Vec<Entry>) -> EntryList
        ensures { result ≡ items.items }
    {
        EntryList { items }
    }

    /// A copy of these entries, with room for exactly them: a copy of none takes no memory. Fails
    /// only if out of memory.
    pub fn from_slice(alloc: Global, entries: &[Entry]) -> Result<EntryList, AllocError>
        ensures ok { IfOk result (λ list. list ≡ entries.now) }
        ensures none { length entries.now ≡ 0 → IsOk result }
    {
        let mut items = Vec::with_capacity(alloc, entries.len())?;
        for entry in entries {
            items.push_reserved(copy_of(entry)?);
        }
        Ok(EntryList { items })
    }

    /// The entries as a `Vec`. Takes no memory.
    pub fn into_vec(self) -> Vec<Entry>
        ensures { result.items ≡ self }
    {
        self.items
    }

    /// Makes room for exactly this many more entries, if there is less; contracts do not see room.
    /// Fails only if out of memory.
    pub fn reserve_exact(&mut self, more: usize) -> Result<(), AllocError>
        ensures { self.new ≡ self.old }
    {
        self.items.reserve_exact(more)?;
        Ok(())
    }

    /// Adds an entry at the end. Fails only if out of memory.
    pub fn push(&mut self, entry: Entry) -> Result<(), AllocError>
        ensures ok { OnOk result (self.new ≡ self.old ++ entry ∷ []) }
        ensures err { OnErr result (self.new ≡ self.old) }
    {
        self.items.push(entry)?;
        Ok(())
    }

    /// The entries, lent.
    pub fn as_slice(&self) -> &[Entry]
        ensures { result.now ≡ self.now }
    {
        self.items.as_slice()
    }

    /// How many entries there are.
    pub fn len(&self) -> usize
        ensures { result ≡ length self.now }
    {
        self.items.len()
    }

    /// Whether there is no entry.
    pub fn is_empty(&self) -> bool
        ensures { result ≡ (length self.now == 0) }
    {
        self.items.is_empty()
    }
}

impl PartialEq for EntryList {
    ghost eq = { λ list other. pointwise is_same_entry list other };

    ghost laws = { partial_equiv_from_equiv (lists_equiv same_entry_equiv) };

    fn eq(&self, other: &EntryList) -> bool {
        self.as_slice() == other.as_slice()
    }
}

impl Eq for EntryList {
    ghost laws = { lists_equiv same_entry_equiv };
}

/// A copy of the entry. Fails only if out of memory.
fn copy_of(entry: &Entry) -> Result<Entry, AllocError>
    ensures { IfOk result (λ copy. copy ≡ entry.now) }
{
    entry.clone()
}
