//! Primaries of accounts, each two numbers, with two workers.

ghost use Rattle.std.specs.Prelude.{◌<◌};
ghost use Rattle.journal.specs.Storing.{faults_max};

use journal::JournalStore;
use primary::{PrimaryCore, StartFault};
use rows::Schema;
use scenarios_common::wanted::NUMBERS;
use std::alloc::Global;
use std::test::Fail;

/// Workers of each primary.
pub const WORKERS: u8 = 2;

/// What was started, or why it was not; the journal that is handed back then is dropped.
fn started<C: Drop, J: Drop, F: Drop>(outcome: Result<C, (J, StartFault<F>)>) -> Result<C, Fail> {
    match outcome {
        Ok(core) => Ok(core),
        Err((_, StartFault::Memory)) => Err("out of memory".into()),
        Err(_) => Err("not started".into()),
    }
}

/// A primary of these tables on a journal.
fn core_of<J: JournalStore + Drop>(
    alloc: Global,
    journal: J,
    schema: &Schema,
) -> Result<PrimaryCore<J>, Fail>
    requires { J.fault_count journal < faults_max }
{
    started(PrimaryCore::start(alloc, journal, schema, WORKERS))
}

/// A primary on a journal.
pub fn core_on<J: JournalStore + Drop>(alloc: Global, journal: J) -> Result<PrimaryCore<J>, Fail>
    requires { J.fault_count journal < faults_max }
{
    match Schema::new(alloc, &NUMBERS) {
        Ok(schema) => core_of(alloc, journal, &schema),
        Err(fault) => Err(fault.into()),
    }
}
