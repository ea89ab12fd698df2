//! Primaries of accounts, each two numbers, with two workers.

ghost use Rattle.std.specs.Prelude.{◌<◌};
ghost use Rattle.journal.specs.Storing.{faults_max};

use journal::JournalStore;
use primary::{PrimaryCore, StartFault};
use rows::Schema;
use scenarios_common::wanted::NUMBERS;
use std::alloc::Global;
use std::test::Fail;

/// Workers of each primary.
pub const WORKERS: u8 = 2;

/// A primary on a journal.
pub fn core_on<J: JournalStore + Drop>(alloc: Global, journal: J) -> Result<PrimaryCore<J>, Fail>
    requires { J.fault_count journal < faults_max }
{
    let schema = Schema::new(alloc, &NUMBERS)?;
    started(PrimaryCore::start(alloc, journal, &schema, WORKERS))
}

/// What is answered, where it is no fault.
pub fn some<T: Drop, F: Drop>(answer: Result<T, F>) -> Option<T> {
    match answer {
        Ok(value) => Some(value),
        Err(_) => None,
    }
}

/// Whether the answer is no fault.
pub fn is_done<F: Drop>(answer: Result<(), F>) -> bool {
    match answer {
        Ok(()) => true,
        Err(_) => false,
    }
}

/// What was started, or why it was not.
fn started<C: Drop, J: Drop, F: Drop>(answer: Result<C, (J, StartFault<F>)>) -> Result<C, Fail> {
    match answer {
        Ok(core) => Ok(core),
        Err((_, StartFault::Memory)) => Err("out of memory".into()),
        Err(_) => Err("not started".into()),
    }
}
