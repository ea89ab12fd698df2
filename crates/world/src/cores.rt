//! The cores of a world, with what is around them: the primary and the replicas, the open transactions, and what was sent.

ghost use Rattle.std.specs.Prelude.{◌≡◌, ◌<◌, ◌≤◌, [], true, false, IfOk, OnOk};
ghost use Rattle.apply.specs.Partitions.{tables_in};
ghost use Rattle.rows.specs.Commits.{IsLegal};
ghost use Rattle.rows.specs.Limits.{workers_max, replicas_max};
ghost use Rattle.rows.specs.Shape.{shape_of};
ghost use Rattle.rows.specs.Tables.{opening};
ghost use Rattle.journal.specs.Text.{journal_text};
ghost use Rattle.primary.specs.Journaling.{IsFormOf};
ghost use Rattle.primary.specs.Steps.{started_primary};
ghost use Rattle.dispatcher.specs.Steps.{started_replica};
ghost use Rattle.world.specs.Cores.{Cores, new_opening, cores_started};
ghost use Rattle.world.specs.Inner.Nodes.{primary_in, durable_in, opening_of, AreNewReplicas};
ghost use Rattle.world.specs.Inner.CoreSteps.{KeepsStopped};
ghost use Rattle.world.specs.Inner.Sound.{PrimaryListsAreLegal};

use crate::boot_list::BootList;
use crate::primary_node::PrimaryNode;
use crate::stopping::start_on;
use apply::{ColumnStore, PARTITIONS_MAX};
use dispatcher::ReplicaCore;
use journal::MemJournal;
use mvcc::Transaction;
use rows::{ByteList, Schema};
use script::Setup;
use std::alloc::{AllocError, Global};
use std::marker::Model;
/// What the world was made for, the primary, each replica on a store of its own, the transactions
/// in the order of their `begin` (none for one that is no longer open), every datagram that was
/// ever sent, at its own length, and, for each replica, the boots that it has had and how many
/// commits were durable when its newest batch asked.
#[derive(Drop)]
pub struct Cores {
    pub alloc: Global,
    pub setup: Setup,
    pub primary: PrimaryNode,
    pub transactions: Vec<Option<Transaction>>,
    pub sent: Vec<ByteList>,
    pub replicas: Vec<ReplicaCore<ColumnStore>>,
    /// How many partitions the store of each replica has.
    pub partitions: usize,
    pub boots: Vec<BootList>,
    pub asked_at: Vec<u64>,
}

impl Model for Cores {
    ghost use Rattle.world.specs.Cores.{Cores as CoresOf};
    ghost use Rattle.world.specs.Inner.Nodes.{primary_in, is_stopped, journal_bytes_in, form_in};

    ghost Value = { CoresOf };

    ghost view = { λ c. record {
      setup = c.setup;
      primary = primary_in c.setup c.primary;
      stopped = is_stopped c.primary;
      journal = journal_bytes_in c.primary;
      form = form_in c.primary;
      transactions = c.transactions.items;
      sent = c.sent.items;
      replicas = c.replicas.items;
      boots = c.boots.items;
      asked_at = c.asked_at.items;
    } };
}

impl Cores {
    /// A primary without commits, on a new journal, and replicas without frames, each with boot 1,
    /// whose stores have so many partitions. Fails only if out of memory.
    pub fn start(alloc: Global, setup: &Setup, partitions: usize) -> Result<Cores, AllocError>
        requires some { 0 < setup.now.workers }
        requires workers { setup.now.workers ≤ workers_max }
        requires replicas { setup.now.replicas ≤ replicas_max }
        ensures { IfOk result (λ cores. cores ≡ cores_started (new_opening setup.now)) }
    {
        let replicas = new_replicas(alloc, setup, partitions)?;
        let journal = MemJournal::new(alloc);
        let Ok(primary) = start_on(alloc, journal, &setup.schema, setup.workers) else {
            return Err(AllocError);
        };
        Ok(Cores::around(alloc, PrimaryNode::Running(primary), replicas))
    }

    /// This primary, of which nothing is pending, with new replicas. Takes no memory.
    pub fn around(alloc: Global, primary: PrimaryNode, replicas: NewReplicas) -> Cores
        requires new { AreNewReplicas replicas.setup replicas.cores.items replicas.boots.items replicas.asked_at.items }
        requires still { primary_in replicas.setup primary
            ≡ started_primary replicas.setup.schema replicas.setup.workers (durable_in primary) }
        ensures { result ≡ cores_started (opening_of replicas.setup primary) }
    {
        let NewReplicas {
            setup,
            cores,
            partitions,
            boots,
            asked_at,
        } = replicas;
        Cores {
            alloc,
            setup,
            primary,
            transactions: Vec::new(alloc),
            sent: Vec::new(alloc),
            replicas: cores,
            partitions,
            boots,
            asked_at,
        }
    }

    /// What is durable is a legal list. It does nothing: its contract is the law.
    pub fn keeps_legal(&self)
        requires { KeepsStopped self.now }
        ensures { IsLegal (shape_of self.now.primary.schema) self.now.primary.workers self.now.primary.durable }
    {
        if let PrimaryNode::Running(primary) = &self.primary {
            primary.keeps_legal();
        }
    }

    /// What a running primary guarantees about its commits, and about its journal unless that has
    /// failed. It does nothing: its contract is the law.
    pub fn keeps_core(&self)
        ensures lists { self.now.stopped ≡ false → PrimaryListsAreLegal self.now.primary }
        ensures form { self.now.stopped ≡ false → IsFormOf self.now.form self.now.primary.durable }
        ensures text { self.now.stopped ≡ false → self.now.primary.failed ≡ false
            → self.now.journal ≡ journal_text self.now.form self.now.primary.workers (shape_of self.now.primary.schema)
            self.now.primary.durable }
    {
        if let PrimaryNode::Running(primary) = &self.primary {
            primary.keeps_legal();
        }
    }
}

/// The replicas of a world at its beginning, with what is noted of them, and its setup.
#[derive(Drop)]
pub struct NewReplicas {
    pub setup: Setup,
    pub cores: Vec<ReplicaCore<ColumnStore>>,
    pub partitions: usize,
    pub boots: Vec<BootList>,
    pub asked_at: Vec<u64>,
}

/// Replicas without frames, each with boot 1, whose stores have so many partitions. Fails only if
/// out of memory.
pub fn new_replicas(
    alloc: Global,
    setup: &Setup,
    partitions: usize,
) -> Result<NewReplicas, AllocError>
    requires some { 0 < setup.now.workers }
    requires workers { setup.now.workers ≤ workers_max }
    requires replicas { setup.now.replicas ≤ replicas_max }
    ensures setup { IfOk result (λ made. made.setup ≡ setup.now) }
    ensures new { IfOk result (λ made. AreNewReplicas setup.now made.cores.items made.boots.items made.asked_at.items) }
{
    let mut cores = Vec::new(alloc);
    let mut boots = Vec::new(alloc);
    let mut asked_at = Vec::new(alloc);
    add_replicas(
        alloc,
        setup,
        partitions,
        &mut cores,
        &mut boots,
        &mut asked_at,
    )?;
    Ok(NewReplicas {
        setup: copy_of(setup)?,
        cores,
        partitions,
        boots,
        asked_at,
    })
}

/// Adds all replicas to lists that are empty: the replicas, their boots, and what is noted of their
/// batches. Fails only if out of memory.
fn add_replicas(
    alloc: Global,
    setup: &Setup,
    partitions: usize,
    cores: &mut Vec<ReplicaCore<ColumnStore>>,
    boots: &mut Vec<BootList>,
    asked_at: &mut Vec<u64>,
) -> Result<(), AllocError>
    requires some { 0 < setup.now.workers }
    requires workers { setup.now.workers ≤ workers_max }
    requires replicas { setup.now.replicas ≤ replicas_max }
    requires none { (cores.old.items ≡ []) × (boots.old.items ≡ []) × (asked_at.old.items ≡ []) }
    ensures { OnOk result (AreNewReplicas setup.now cores.new.items boots.new.items asked_at.new.items) }
{
    for number in 0..setup.replicas {
        cores.push(new_replica(alloc, setup, partitions, number, 1)?)?;
        asked_at.push(0)?;
        boots.push(BootList::of_one(alloc, 1)?)?;
    }
    Ok(())
}

/// A replica without frames, in this boot, whose store has so many partitions. Fails only if out of
/// memory.
pub fn new_replica(
    alloc: Global,
    setup: &Setup,
    partitions: usize,
    number: u8,
    boot: u64,
) -> Result<ReplicaCore<ColumnStore>, AllocError>
    requires some { 0 < setup.now.workers }
    requires workers { setup.now.workers ≤ workers_max }
    requires number { number < replicas_max }
    ensures { IfOk result (λ replica. replica ≡ started_replica setup.now.schema setup.now.workers number boot) }
{
    let schema = &setup.schema;
    let store = store_of(alloc, schema, partitions)?;
    ReplicaCore::start(alloc, store, schema, setup.workers, number, boot)
}

/// Puts a value in the place of another.
pub fn put<T: Drop>(place: &mut T, new: T)
    ensures { place.new ≡ new }
{
    *place = new;
}

/// A copy of the setup. Fails only if out of memory.
fn copy_of(setup: &Setup) -> Result<Setup, AllocError>
    ensures { IfOk result (λ copy. copy ≡ setup.now) }
{
    Ok(Setup {
        schema: setup.schema.clone()?,
        workers: setup.workers,
        replicas: setup.replicas,
    })
}

/// A store for a replica, without rows. Fails only if out of memory.
fn store_of(alloc: Global, schema: &Schema, partitions: usize) -> Result<ColumnStore, AllocError>
    ensures tables { IfOk result (λ store. tables_in store.partitions ≡ opening (shape_of schema.now)) }
    ensures whole { IfOk result (λ store. store.whole ≡ true) }
    ensures base { IfOk result (λ store. store.base_shape ≡ shape_of schema.now) }
{
    let partitions = if partitions == 0 {
        1
    } else if partitions > PARTITIONS_MAX {
        PARTITIONS_MAX
    } else {
        partitions
    };
    ColumnStore::new(alloc, schema, partitions)
}
