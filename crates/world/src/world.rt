//! The world: the cores and all that was ever sent, stepped by events.

ghost use Rattle.std.specs.Prelude.{◌≡◌, ◌<◌, ◌≤◌, length, IfOk, IfErr};
ghost use Rattle.rows.specs.Shape.{shape_of};
ghost use Rattle.rows.specs.Commits.{IsLegal};
ghost use Rattle.journal.specs.Recovery.{IsBeginning, IsRefusal};
ghost use Rattle.script.specs.Events.{IsPossible};
ghost use Rattle.world.specs.Cores.{Opening, new_opening, IsOpeningOn, cores_started};
ghost use Rattle.world.specs.Allowed.{MayHappen};
ghost use Rattle.world.specs.Standing.{world_of, AreFed, JournalStands, LeavesOnJournal};
ghost use Rattle.world.specs.Theorem.{SaysRows, IsFaultless};
ghost use Rattle.rows.specs.Limits.{workers_max, replicas_max};

use crate::cores::{Cores, new_replicas};
use crate::laws::steps_are_told;
use crate::stopping::stopped_on;
use apply::PARTITIONS;
use dispatcher::fed_replicas_stay_fed;
use journal::JournalFault;
use script::{Event, Output, Setup};
use std::alloc::{AllocError, Global};
use std::marker::{Model, Sync};
use std::thread::Threads;

/// One primary on a journal in memory, its replicas, the open transactions, and every datagram that
/// was ever sent. While the primary is stopped, only its journal is left of it.
///
/// Contracts see each core as its callers do. `world_of` defines the world that they make.
#[derive(Drop)]
pub struct World {
    cores: Cores,
}

impl Model for World {
    ghost use Rattle.world.specs.Cores.{Cores as CoresOf};
    ghost use Rattle.world.specs.Inner.Invariant.{CoresAreKept};

    ghost Value = { CoresOf };

    ghost view = { λ w. w.cores };

    ghost invariant = { λ w. CoresAreKept w.cores };
}

impl World {
    /// A primary without commits, on an empty journal, and replicas without frames, each with boot
    /// 1 and on a store of columns with 8 partitions. There are 1 to 16 workers. Fails only if out
    /// of memory.
    pub fn new(alloc: Global, setup: &Setup) -> Result<World, AllocError>
        requires some { 0 < setup.now.workers }
        requires workers { setup.now.workers ≤ workers_max }
        requires replicas { setup.now.replicas ≤ replicas_max }
        ensures { IfOk result (λ world. world ≡ cores_started (new_opening setup.now)) }
    {
        World::with_partitions(alloc, setup, PARTITIONS)
    }

    /// The same with another number of partitions. What a world may answer is the same for each. The
    /// number is taken as 1 if it is less, and as 64 if it is more.
    pub fn with_partitions(
        alloc: Global,
        setup: &Setup,
        partitions: usize,
    ) -> Result<World, AllocError>
        requires some { 0 < setup.now.workers }
        requires workers { setup.now.workers ≤ workers_max }
        requires replicas { setup.now.replicas ≤ replicas_max }
        ensures { IfOk result (λ world. world ≡ cores_started (new_opening setup.now)) }
    {
        fed_replicas_stay_fed();
        steps_are_told();
        setup.schema.keeps_limits();
        let cores = Cores::start(alloc, setup, partitions)?;
        Ok(World { cores })
    }

    /// A primary that is stopped, on a journal of these bytes, which may be of version 1, and
    /// replicas as at the start. What the journal keeps is durable.
    ///
    /// Fails as `recover` does: with why the bytes are refused, or with `Memory`.
    pub fn open_on(alloc: Global, setup: &Setup, journal: Vec<u8>) -> Result<World, JournalFault>
        requires some { 0 < setup.now.workers }
        requires workers { setup.now.workers ≤ workers_max }
        requires replicas { setup.now.replicas ≤ replicas_max }
        ensures ok { IfOk result (λ world.
            (opening : Opening) × IsOpeningOn setup.now journal.items opening × (world ≡ cores_started opening)) }
        ensures refused { IfErr result (λ fault. ¬ (fault ≡ JournalFault.Memory)
            → IsRefusal setup.now.workers (shape_of setup.now.schema) journal.items fault) }
    {
        fed_replicas_stay_fed();
        steps_are_told();
        setup.schema.keeps_limits();
        let Ok(replicas) = new_replicas(alloc, setup, PARTITIONS) else {
            return Err(JournalFault::Memory);
        };
        let primary = stopped_on(alloc, journal, setup)?;
        let cores = Cores::around(alloc, primary, replicas);
        Ok(World { cores })
    }

    /// Lets an event happen, and answers its output. The worker and the replica that it names
    /// exist. A replica's run may use threads. It answers `memory` only if the event takes memory,
    /// and the world is then unchanged, except after a run that was cut short. A stop leaves on the
    /// journal what that acknowledged, and then as many bytes of the pending commits' records as it
    /// names.
    pub fn step<R: Threads + Sync>(&mut self, rt: &R, event: &Event) -> Output
        requires possible { IsPossible self.old.primary.workers (length self.old.replicas) event.now }
        ensures happens { MayHappen (world_of self.old) event.now result (world_of self.new) }
        ensures rows { SaysRows self.old.primary.durable (world_of self.old) event.now result }
        ensures durable { IsBeginning self.old.primary.durable self.new.primary.durable }
        ensures fed { AreFed self.new }
        ensures journal { JournalStands self.new }
        ensures leaves { LeavesOnJournal self.old event.now self.new }
        ensures faultless { IsFaultless result }
        ensures schema { self.new.primary.schema ≡ self.old.primary.schema }
        ensures workers { self.new.primary.workers ≡ self.old.primary.workers }
        ensures replicas { length self.new.replicas ≡ length self.old.replicas }
    {
        fed_replicas_stay_fed();
        steps_are_told();
        self.cores.keeps_core();
        let output = self.cores.happen(rt, event);
        self.cores.keeps_core();
        output
    }

    /// What is durable is a legal list for its workers.
    pub fn keeps_legal(&self)
        ensures { IsLegal (shape_of self.now.primary.schema) self.now.primary.workers self.now.primary.durable }
    {
        self.cores.keeps_legal();
    }
}
