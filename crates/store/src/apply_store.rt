//! The interface to a store to which a replica applies commits.

ghost use Rattle.std.specs.Prelude.{◌≡◌, true, false, Ok, OnOk, OnErr, IfErr};
ghost use Rattle.rows.specs.Commits.{apply_commits};
ghost use Rattle.rows.specs.Tables.{opening};
ghost use Rattle.store.specs.Faults.{FailsAs, have_entries};

use crate::faults::ApplyFault;
use crate::store::Store;
use rows::Commit;
use std::marker::Sync;
use std::thread::Threads;

/// A store to which lists of commits can be applied, and which can begin anew.
pub trait ApplyStore: Store {
    /// Makes all changes of these commits, in their order. It may use threads.
    ///
    /// Fails with `Broken` if the store is not whole, with `Inconsistent` if one of the changes is
    /// refused, or with `Memory`, only if there is an entry to apply. After any failure the store
    /// is never whole again.
    fn apply_all<R: Threads + Sync>(&mut self, rt: &R, commits: &[Commit]) -> Result<(), ApplyFault>
        ensures ok { OnOk result (apply_commits (Self.tables self.old) commits.now ≡ Ok (Self.tables self.new)) }
        ensures only_whole { OnOk result (Self.is_whole self.old ≡ true) }
        ensures stays_whole { OnOk result (Self.is_whole self.new ≡ true) }
        ensures err { IfErr result
            (FailsAs (Self.is_whole self.old) (have_entries commits.now) (apply_commits (Self.tables self.old) commits.now)) }
        ensures broken { OnErr result (Self.is_whole self.new ≡ false) }
        ensures base { Self.base_shape self.new ≡ Self.base_shape self.old };

    /// Deletes all rows, and all columns that were added, so that a whole store is as it was when it
    /// was made. Takes no memory. A store that is not whole stays so.
    fn clear(&mut self)
        ensures cleared { Self.is_whole self.old ≡ true → Self.tables self.new ≡ opening (Self.base_shape self.old) }
        ensures whole { Self.is_whole self.new ≡ Self.is_whole self.old }
        ensures base { Self.base_shape self.new ≡ Self.base_shape self.old };
}
