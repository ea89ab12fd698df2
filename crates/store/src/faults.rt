use thiserror::Error;

/// Why a plain store refuses a change.
///
/// The first that applies is reported: the store is broken; the entry does not fit; its row is
/// there and should not be, or the reverse; out of memory.
#[derive(Clone, Copy, Debug, PartialEq, Eq, Error)]
pub enum StoreFault {
    /// It inserts a row that is there.
    #[error("the row is there")]
    Exists,
    /// It changes a row that is not there.
    #[error("the row is not there")]
    Missing,
    /// The entry does not fit the tables.
    #[error("the entry does not fit the tables")]
    Unfit,
    #[error("out of memory")]
    Memory,
    /// The store is not whole: a list of commits could not be applied.
    #[error("the store is broken")]
    Broken,
}

impl StoreFault {
    ghost use Rattle.std.specs.Prelude.{◌≡◌};
    ghost use Rattle.store.specs.Faults.{number_of};

    /// Its number: 1 Exists, 2 Missing, 3 Unfit, 4 Memory, 5 Broken.
    pub fn number(self) -> u8
        ensures { result ≡ number_of self }
    {
        match self {
            StoreFault::Exists => 1,
            StoreFault::Missing => 2,
            StoreFault::Unfit => 3,
            StoreFault::Memory => 4,
            StoreFault::Broken => 5,
        }
    }
}

/// Why a list of commits was not applied. The store is then not whole.
#[derive(Clone, Copy, Debug, PartialEq, Eq, Error)]
pub enum ApplyFault {
    /// A change is refused: its entry does not fit, or its row is there and should not be, or the
    /// reverse.
    #[error("a change is refused")]
    Inconsistent,
    #[error("out of memory")]
    Memory,
    /// The store was not whole before.
    #[error("the store is broken")]
    Broken,
}
