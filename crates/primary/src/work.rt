//! A flush that has begun.

ghost use Rattle.std.specs.Prelude.{◌≡◌};
ghost use Rattle.primary.specs.Lending.{IsWriteOf, StopsAreAllowed};
ghost use Rattle.primary.specs.Inner.Invariant.{CanBeWritten};

use crate::done::Done;
use journal::JournalStore;
use std::marker::Model;

/// A flush that has begun: the journal, lent out, and the records that are offered to it.
///
/// Writing it does not need the primary, so a thread that shares one releases it meanwhile. It is
/// never dropped: it is written, and the result of the write ends the flush.
pub struct Work<J: JournalStore> {
    journal: J,
    count: usize,
    records: Vec<u8>,
}

impl<J: JournalStore> Model for Work<J> {
    ghost use Rattle.primary.specs.Lending.{Lent};
    ghost use Rattle.primary.specs.Inner.Invariant.{CanBeWritten};

    ghost Value = { Lent J };

    ghost view = { λ w. record { journal = w.journal; count = w.count; records = w.records.items } };

    ghost invariant = { λ w. CanBeWritten J.room J.fault_count
        (record { journal = w.journal; count = w.count; records = w.records.items }) };
}

impl<J: JournalStore> Work<J> {
    /// A flush of this many commits, with these records, on this journal.
    pub(crate) fn new(journal: J, count: usize, records: Vec<u8>) -> Work<J>
        requires { CanBeWritten J.room J.fault_count (record { journal = journal; count = count; records = records.items }) }
        ensures { result ≡ record { journal = journal; count = count; records = records.items } }
    {
        Work {
            journal,
            count,
            records,
        }
    }

    /// Offers the records to the journal in one append, or nothing if no commit is offered. A crash
    /// before the write, within it or after it leaves what a stop of the primary may leave. Takes no
    /// memory.
    pub fn write(self) -> Done<J>
        ensures left { IsWriteOf J.is_honest J.standing J.fault_count self result }
        ensures stops { StopsAreAllowed J.is_honest J.standing J.fault_count self result }
    {
        self.offer()
    }

    fn offer(self) -> Done<J>
        ensures { IsWriteOf J.is_honest J.standing J.fault_count self result }
    {
        let Work {
            mut journal,
            count,
            records,
        } = self;
        if count == 0 {
            return Done::new(journal, count, true);
        }
        let taken = journal.append(&records).is_ok();
        Done::new(journal, count, taken)
    }
}
