//! Runs of a list of events on a world from its beginning on.

ghost use Rattle.std.specs.Prelude.{◌≡◌, ◌^◌, ◌<◌, ◌≤◌, [], length, IfOk, IfErr, OnOk};
ghost use Rattle.std.specs.List.{AllByRecursion};
ghost use Rattle.rows.specs.Shape.{shape_of};
ghost use Rattle.journal.specs.Recovery.{IsRefusal};
ghost use Rattle.script.specs.Events.{IsPossible};
ghost use Rattle.world.specs.Cores.{Opening, new_opening, IsOpeningOn, cores_started};
ghost use Rattle.world.specs.Database.{IsPromised};
ghost use Rattle.world.specs.Renewals.{IsPromisedWithRenewals, RenewsNothing};
ghost use Rattle.world.specs.Theorem.{AreOfOneRun, HasOneDumpOfVersion, IsFaultless, KeepsPromises};
ghost use Rattle.rows.specs.Limits.{workers_max, replicas_max};

use crate::laws::steps_are_told;
use crate::world::World;
use apply::PARTITIONS;
use journal::JournalFault;
use script::{Event, Output, Setup};
use std::alloc::{AllocError, Global};
use std::marker::Sync;
use std::thread::Threads;

/// The outputs of the events, one for each, in order, starting from a primary without commits and
/// replicas without frames: the main theorem. The workers and replicas that an event names are the
/// setup's, and there are 1 to 16 workers. Fails only if out of memory, when the world cannot be
/// made or the outputs cannot be kept.
///
/// The promise: the outputs are those of a run of the database, as one page defines it. A report
/// has the plain answers on the rows after exactly the commits of one list up to the version
/// fetched for its batch, which is at least what was durable when the batch asked. If an event
/// renews a version, so is that page with renewals (`renewed`): what was fetched for a batch is given
/// up, and what was durable when the batch asked stays.
///
/// Behind it is one run of the cores with these outputs, each step of which the world allows. Of
/// this run is proved (`AreOfOneRun`): reports and dumps are exact by the one legal list of commits
/// that is durable at its end. What is durable only grows, also across crashes, and is on the
/// primary's journal. What was acknowledged stands under its number. Every replica is fed from that
/// list, and replicas at one version hold the same tables, at whatever two moments. No output
/// reports damage.
pub fn run<R: Threads + Sync>(
    rt: &R,
    alloc: Global,
    setup: &Setup,
    events: &[Event],
) -> Result<Vec<Output>, AllocError>
    requires some { 0 < setup.now.workers }
    requires workers { setup.now.workers ≤ workers_max }
    requires replicas { setup.now.replicas ≤ replicas_max }
    requires possible { AllByRecursion (IsPossible setup.now.workers setup.now.replicas) events.now }
    ensures promise { IfOk result (λ outputs. AllByRecursion RenewsNothing events.now
        → IsPromised setup.now.schema [] setup.now.replicas outputs.items) }
    ensures renewed { IfOk result (λ outputs. IsPromisedWithRenewals setup.now.schema [] setup.now.replicas events.now outputs.items) }
    ensures each { IfOk result (λ outputs. length outputs.items ≡ length events.now) }
    ensures run { IfOk result (λ outputs. AreOfOneRun (new_opening setup.now) events.now outputs.items) }
    ensures dumps { IfOk result (λ outputs. HasOneDumpOfVersion outputs.items) }
    ensures faultless { IfOk result (λ outputs. AllByRecursion IsFaultless outputs.items) }
{
    run_on(rt, alloc, PARTITIONS, setup, events)
}

/// The same on replicas whose stores have this many partitions. What is promised is the same for
/// each number, which is taken as 1 if it is less, and as 64 if it is more.
pub fn run_on<R: Threads + Sync>(
    rt: &R,
    alloc: Global,
    partitions: usize,
    setup: &Setup,
    events: &[Event],
) -> Result<Vec<Output>, AllocError>
    requires some { 0 < setup.now.workers }
    requires workers { setup.now.workers ≤ workers_max }
    requires replicas { setup.now.replicas ≤ replicas_max }
    requires possible { AllByRecursion (IsPossible setup.now.workers setup.now.replicas) events.now }
    ensures { IfOk result (λ outputs. KeepsPromises (new_opening setup.now) events.now outputs.items) }
{
    let world = World::with_partitions(alloc, setup, partitions)?;
    run_through(rt, alloc, world, events)
}

/// The same on a primary that is stopped, and whose journal has these bytes; they may be of version
/// 1, as an earlier program wrote them. What they keep is durable at the beginning, and a `start`
/// goes on from there: the list of commits of which all is promised begins with it.
///
/// Fails with why the bytes are refused, or with `Memory`.
pub fn run_on_journal<R: Threads + Sync>(
    rt: &R,
    alloc: Global,
    setup: &Setup,
    journal: Vec<u8>,
    events: &[Event],
) -> Result<Vec<Output>, JournalFault>
    requires some { 0 < setup.now.workers }
    requires workers { setup.now.workers ≤ workers_max }
    requires replicas { setup.now.replicas ≤ replicas_max }
    requires possible { AllByRecursion (IsPossible setup.now.workers setup.now.replicas) events.now }
    ensures ok { IfOk result (λ outputs. (opening : Opening) × IsOpeningOn setup.now journal.items opening
        × KeepsPromises opening events.now outputs.items) }
    ensures refused { IfErr result (λ fault. ¬ (fault ≡ JournalFault.Memory)
        → IsRefusal setup.now.workers (shape_of setup.now.schema) journal.items fault) }
{
    let world = World::open_on(alloc, setup, journal)?;
    match run_through(rt, alloc, world, events) {
        Ok(outputs) => Ok(outputs),
        Err(_) => Err(JournalFault::Memory),
    }
}

/// The outputs of the events, one for each, in order, on a world at its beginning. Fails only if out
/// of memory.
fn run_through<R: Threads + Sync>(
    rt: &R,
    alloc: Global,
    opened: World,
    events: &[Event],
) -> Result<Vec<Output>, AllocError>
    requires replicas { length opened.replicas ≤ replicas_max }
    requires possible { AllByRecursion (IsPossible opened.primary.workers (length opened.replicas)) events.now }
    ensures { IfOk result (λ outputs. (opening : Opening) → opened ≡ cores_started opening → length opening.durable < 2 ^ 64
        → KeepsPromises opening events.now outputs.items) }
{
    let mut world = opened;
    outputs_of(rt, alloc, &mut world, events)
}

/// The same on a world that is lent.
fn outputs_of<R: Threads + Sync>(
    rt: &R,
    alloc: Global,
    world: &mut World,
    events: &[Event],
) -> Result<Vec<Output>, AllocError>
    requires replicas { length world.old.replicas ≤ replicas_max }
    requires possible { AllByRecursion (IsPossible world.old.primary.workers (length world.old.replicas)) events.now }
    ensures { IfOk result (λ outputs. (opening : Opening) → world.old ≡ cores_started opening → length opening.durable < 2 ^ 64
        → KeepsPromises opening events.now outputs.items) }
{
    let mut outputs = Vec::new(alloc);
    step_through(rt, world, events, &mut outputs)?;
    Ok(outputs)
}

/// Lets the events happen one after the other, and notes their outputs in a list that is empty.
/// Fails only if out of memory.
fn step_through<R: Threads + Sync>(
    rt: &R,
    world: &mut World,
    events: &[Event],
    outputs: &mut Vec<Output>,
) -> Result<(), AllocError>
    requires replicas { length world.old.replicas ≤ replicas_max }
    requires possible { AllByRecursion (IsPossible world.old.primary.workers (length world.old.replicas)) events.now }
    requires none { outputs.old.items ≡ [] }
    ensures { OnOk result ((opening : Opening) → world.old ≡ cores_started opening → length opening.durable < 2 ^ 64
        → KeepsPromises opening events.now outputs.new.items) }
{
    for event in events {
        let output = world.step(rt, event);
        outputs.push(output)?;
    }
    world.keeps_legal();
    steps_are_told();
    Ok(())
}
