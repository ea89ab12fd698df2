//! A flush that was written.

ghost use Rattle.std.specs.Prelude.{◌≡◌, ◌<◌, true};
ghost use Rattle.journal.specs.Storing.{faults_max};

use journal::JournalStore;
use std::marker::Model;

/// A flush that was written: the journal, and whether it took what it was offered.
///
/// It is never dropped: it is handed to `PrimaryCore::end_flush`, which takes the journal back.
pub struct Done<J: JournalStore> {
    journal: J,
    count: usize,
    taken: bool,
}

impl<J: JournalStore> Model for Done<J> {
    ghost use Rattle.std.specs.Prelude.{◌≡◌, ◌<◌, true};
    ghost use Rattle.journal.specs.Storing.{faults_max};
    ghost use Rattle.primary.specs.Lending.{Returned};

    ghost Value = { Returned J };

    ghost view = { λ d. record { journal = d.journal; count = d.count; taken = d.taken } };

    ghost invariant = { λ d. d.taken ≡ true → J.fault_count d.journal < faults_max };
}

impl<J: JournalStore> Done<J> {
    /// The result of writing this many commits to this journal.
    pub(crate) fn new(journal: J, count: usize, taken: bool) -> Done<J>
        requires { taken ≡ true → J.fault_count journal < faults_max }
        ensures { result ≡ record { journal = journal; count = count; taken = taken } }
    {
        Done {
            journal,
            count,
            taken,
        }
    }

    /// The journal, how many commits were offered to it, and whether it took them. Takes no memory.
    pub(crate) fn into_parts(self) -> (J, usize, bool)
        ensures parts { (result.0 ≡ self.journal) × (result.1 ≡ self.count) × (result.2 ≡ self.taken) }
        ensures countable { result.2 ≡ true → J.fault_count result.0 < faults_max }
    {
        let Done {
            journal,
            count,
            taken,
        } = self;
        (journal, count, taken)
    }
}
