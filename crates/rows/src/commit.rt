//! A commit: the entries of one transaction.

ghost use Rattle.std.specs.Cmp.{partial_equiv_from_equiv};
ghost use Rattle.rows.specs.Equality.{is_same_commit};
ghost use Rattle.rows.specs.Inner.Equivalence.{same_commit_equiv};

use crate::entry_list::EntryList;

/// What one transaction changes: the worker that commits it, and its entries in order.
#[derive(Clone, Drop)]
pub struct Commit {
    pub worker: u8,
    pub entries: EntryList,
}

impl PartialEq for Commit {
    ghost eq = { is_same_commit };

    ghost laws = { partial_equiv_from_equiv same_commit_equiv };

    fn eq(&self, other: &Commit) -> bool {
        self.worker == other.worker && self.entries == other.entries
    }
}

impl Eq for Commit {
    ghost laws = { same_commit_equiv };
}
