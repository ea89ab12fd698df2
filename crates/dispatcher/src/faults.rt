ghost use Rattle.std.specs.Prelude.{◌≡◌};
ghost use Rattle.dispatcher.specs.Inner.Parts.{fault_of};

use queries::PlanFault;
use store::ApplyFault;
use thiserror::Error;

/// Why a query is not taken: the first that applies, in the order `Broken`, `BatchFull`, `BadPlan`,
/// `Memory`.
#[derive(Clone, Copy, Debug, PartialEq, Eq, Error)]
pub enum OpenFault {
    /// As many queries wait as are allowed.
    #[error("too many queries wait")]
    BatchFull,
    #[error("a bad plan: {0}")]
    BadPlan(PlanFault),
    /// The replica is broken; it has to be restarted.
    #[error("the replica is broken")]
    Broken,
    #[error("out of memory")]
    Memory,
}

/// Why no version is asked for: the first that applies, in the order `Broken`, `Busy`, `Empty` where a
/// version is asked for, and `Broken`, `Empty`, `NoHead` where one is given up for another.
#[derive(Clone, Copy, Debug, PartialEq, Eq, Error)]
pub enum AskFault {
    /// The batch has its version already.
    #[error("the batch has its version")]
    Busy,
    /// There is no batch, and no query waits.
    #[error("no query waits")]
    Empty,
    /// The replica is broken; it has to be restarted.
    #[error("the replica is broken")]
    Broken,
    /// The batch has no version that could be given up.
    #[error("the batch has no version")]
    NoHead,
}

/// Why a dump fails: the first that applies, in the order `Broken`, `Memory`.
#[derive(Clone, Copy, Debug, PartialEq, Eq, Error)]
pub enum DumpFault {
    /// The replica is broken; it has to be restarted.
    #[error("the replica is broken")]
    Broken,
    #[error("out of memory")]
    Memory,
}

/// Why a replica did not catch up to the fetched version.
#[derive(Clone, Copy, PartialEq, Eq)]
pub enum CatchUpFault {
    /// The frames are not those of one list of commits; the replica is broken.
    Inconsistent,
    /// Out of memory before the first change; nothing has changed.
    Memory,
    /// The store did not make all changes; the replica is broken.
    Broken,
}

/// Why a replica did not catch up, where changes were not made.
pub fn catch_up_fault(fault: ApplyFault) -> CatchUpFault
    ensures { result ≡ fault_of fault }
{
    match fault {
        ApplyFault::Inconsistent => CatchUpFault::Inconsistent,
        ApplyFault::Memory => CatchUpFault::Broken,
        ApplyFault::Broken => CatchUpFault::Broken,
    }
}
