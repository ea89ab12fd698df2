//! One step of a job.

use crate::change::Change;
use rows::{RowId, Value};

/// One step of a job: a change, or what has to hold where it stands, as the job's own transaction
/// sees it.
#[derive(Drop)]
pub enum Step {
    Change(Change),
    /// The row is there, and its column has this value.
    Expect {
        table: u8,
        row: RowId,
        column: usize,
        value: Value,
    },
    /// The table is there, and the row is not.
    Absent {
        table: u8,
        row: RowId,
    },
}

impl Step {
    ghost use Rattle.std.specs.Prelude.{◌≡◌};
    ghost use Rattle.sockets.specs.Changes.{is_condition};

    /// Whether it is a condition. Takes no memory.
    pub fn is_condition(&self) -> bool
        ensures { result ≡ is_condition self.now }
    {
        !matches!(self, Step::Change(_))
    }
}
