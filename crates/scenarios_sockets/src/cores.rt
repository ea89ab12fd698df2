//! Cores of accounts, each two numbers, with two workers.

ghost use Rattle.std.specs.Prelude.{◌≡◌, IfOk, Ok};

use dispatcher::ReplicaCore;
use journal::MemJournal;
use primary::{PrimaryCore, StartFault};
use rows::Schema;
use scenarios_common::wanted::NUMBERS;
use std::alloc::Global;
use std::test::Fail;
use store::PlainStore;

/// Workers of the primary.
pub const WORKERS: u8 = 2;

/// A primary on a journal in memory.
pub fn core_of(alloc: Global) -> Result<PrimaryCore<MemJournal>, Fail>
    ensures { IfOk result (λ core. core.primary.workers ≡ 2) }
{
    let schema = Schema::new(alloc, &NUMBERS)?;
    core_on(alloc, &schema)
}

/// The same, of this schema.
fn core_on(alloc: Global, schema: &Schema) -> Result<PrimaryCore<MemJournal>, Fail>
    ensures { IfOk result (λ core. core.primary.workers ≡ 2) }
{
    started(PrimaryCore::start(alloc, MemJournal::new(alloc), schema, WORKERS))
}

/// What was started, or why it was not.
fn started<C: Drop, J: Drop, F: Drop>(answer: Result<C, (J, StartFault<F>)>) -> Result<C, Fail>
    ensures { IfOk result (λ core. answer ≡ Ok core) }
{
    match answer {
        Ok(core) => Ok(core),
        Err((_, StartFault::Memory)) => Err("out of memory".into()),
        Err(_) => Err("not started".into()),
    }
}

/// What is answered, where it is no fault.
pub fn some<T: Drop, F: Drop>(answer: Result<T, F>) -> Option<T> {
    match answer {
        Ok(value) => Some(value),
        Err(_) => None,
    }
}

/// A replica that is started for the first time. `None` when out of memory, and where there is no such
/// number.
pub fn replica_of(alloc: Global, number: u8) -> Option<ReplicaCore<PlainStore>> {
    let Ok(schema) = Schema::new(alloc, &NUMBERS) else {
        return None;
    };
    replica_on(alloc, &schema, number)
}

/// The same, of this schema.
fn replica_on(alloc: Global, schema: &Schema, number: u8) -> Option<ReplicaCore<PlainStore>> {
    if number > 15 {
        return None;
    }
    let Ok(store) = PlainStore::new(alloc, schema) else {
        return None;
    };
    some(ReplicaCore::start(alloc, store, schema, WORKERS, number, 1))
}
