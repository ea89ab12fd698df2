//! Stops and starts of the primary.

ghost use Rattle.std.specs.Prelude.{◌≡◌, ◌<◌, ◌≤◌, [], ◌++◌, ℕ, List, length, take, false, IfOk, IfErr};
ghost use Rattle.rows.specs.declared.commit.Commit.{Commit as CommitOf};
ghost use Rattle.journal.specs.declared.form.Form.{Form as FormOf};
ghost use Rattle.rows.specs.Limits.{workers_max};
ghost use Rattle.rows.specs.Shape.{shape_of};
ghost use Rattle.journal.specs.Recovery.{IsRecovered, IsRefusal};
ghost use Rattle.journal.specs.Text.{journal_text, records_from, started};
ghost use Rattle.primary.specs.Steps.{started_primary};
ghost use Rattle.world.specs.Inner.CoreSteps.{MayStep};
ghost use Rattle.world.specs.Inner.Invariant.{IsReady};
ghost use Rattle.world.specs.Inner.Nodes.{IsStoppedOn};
ghost use Rattle.world.specs.Stops.{closed};

use crate::cores::{Cores, put};
use crate::primary_node::PrimaryNode;
use crate::running_primary::RunningPrimary;
use journal::laws::{stops_are_recovered, texts_grow};
use journal::{JournalFault, MemJournal, Recovered, recover};
use mvcc::Transaction;
use primary::{PrimaryCore, StartFault};
use rows::Schema;
use script::{Event, Output, Setup};
use std::alloc::{AllocError, Global};

impl Cores {
    /// Stops the primary: its core ends, and its journal keeps this many more bytes of what was not
    /// acknowledged. All memory is taken first; if there is none, nothing has changed.
    pub fn stop(&mut self, bytes: u64) -> Output
        requires { IsReady self.old }
        ensures { MayStep self.old (Event.Stop bytes) result self.new }
    {
        let PrimaryNode::Running(primary) = &self.primary else {
            return Output::Stopped;
        };
        let Ok(content) = bytes_left(self.alloc, primary, bytes) else {
            return Output::Memory;
        };
        primary.keeps_legal();
        stops_are_recovered();
        texts_grow();
        let setup = &self.setup;
        let Ok(kept) = commits_kept(self.alloc, content.as_slice(), &setup.schema, setup.workers)
        else {
            return Output::Memory;
        };
        let stopped = PrimaryNode::Stopped {
            journal: MemJournal::of(content),
            kept: kept.commits,
            form: kept.form,
        };
        put(&mut self.primary, stopped);
        close_all(self.transactions.as_mut_slice());
        Output::Stopped
    }

    /// Starts the primary again, on what its journal keeps; a journal of version 1 is marked. If out
    /// of memory, it stays stopped.
    pub fn start_again(&mut self) -> Output
        requires { IsReady self.old }
        ensures { MayStep self.old Event.Start result self.new }
    {
        let PrimaryNode::Stopped { journal, .. } = &mut self.primary else {
            return Output::Running;
        };
        let old = std::mem::replace(journal, MemJournal::new(self.alloc));
        let setup = &self.setup;
        match start_on(self.alloc, old, &setup.schema, setup.workers) {
            Ok(primary) => {
                let durable = primary.durable();
                put(&mut self.primary, PrimaryNode::Running(primary));
                Output::Durable(durable)
            }
            Err(back) => {
                put(journal, back);
                Output::Memory
            }
        }
    }
}

/// The bytes on the journal after a stop: those that it acknowledged, and then this many of the
/// pending commits' records. Fails only if out of memory.
fn bytes_left(alloc: Global, primary: &RunningPrimary, bytes: u64) -> Result<Vec<u8>, AllocError>
    ensures { IfOk result (λ content. content.items ≡ primary.now.journal.bytes
        ++ take bytes (records_from (length primary.now.primary.durable) primary.now.primary.pending)) }
{
    let records = primary.pending_text()?;
    let count = records.len().min(bytes as usize);
    let (torn, _) = records.as_slice().split_at(count);
    let mut content = Vec::from_slice(alloc, primary.journal().content())?;
    content.extend_from_slice(torn)?;
    Ok(content)
}

/// What a journal keeps, whose bytes are not refused. Fails only if out of memory.
fn commits_kept(
    alloc: Global,
    content: &[u8],
    schema: &Schema,
    workers: u8,
) -> Result<Recovered, AllocError>
    requires { (form : FormOf) × (commits : List CommitOf) × (bytes_kept : ℕ)
        × IsRecovered workers (shape_of schema.now) content.now form commits bytes_kept }
    ensures { IfOk result (λ kept. (bytes_kept : ℕ)
        × IsRecovered workers (shape_of schema.now) content.now kept.form kept.commits.items bytes_kept) }
{
    stops_are_recovered();
    match recover(alloc, content, schema, workers) {
        Ok(recovered) => Ok(recovered),
        Err(JournalFault::Memory) => Err(AllocError),
        Err(JournalFault::OtherHeader) => unreachable!(),
        Err(JournalFault::Damaged(_)) => unreachable!(),
        Err(JournalFault::OutOfOrder(_)) => unreachable!(),
        Err(JournalFault::Illegal(_)) => unreachable!(),
    }
}

/// Gives up every transaction.
fn close_all(transactions: &mut [Option<Transaction>])
    ensures { transactions.new ≡ closed transactions.old }
{
    for index in 0..transactions.len() {
        transactions[index] = None;
    }
}

/// Starts a primary on a journal whose bytes are not refused. If out of memory, it hands back the
/// journal, which has the same bytes.
pub fn start_on(
    alloc: Global,
    journal: MemJournal,
    schema: &Schema,
    workers: u8,
) -> Result<RunningPrimary, MemJournal>
    requires some { 0 < workers }
    requires few { workers ≤ workers_max }
    requires kept { (form : FormOf) × (commits : List CommitOf) × (bytes_kept : ℕ)
        × IsRecovered workers (shape_of schema.now) journal.bytes form commits bytes_kept }
    ensures ok { IfOk result (λ core. (form : FormOf) (commits : List CommitOf) (bytes_kept : ℕ)
        → IsRecovered workers (shape_of schema.now) journal.bytes form commits bytes_kept
        → (core.primary ≡ started_primary schema.now workers commits) × (core.form ≡ started form (length commits))) }
    ensures written { IfOk result (λ core.
        core.journal.bytes ≡ journal_text core.form workers (shape_of schema.now) core.primary.durable) }
    ensures err { IfErr result (λ back. back.bytes ≡ journal.bytes) }
{
    stops_are_recovered();
    match PrimaryCore::start(alloc, journal, schema, workers) {
        Ok(primary) => Ok(RunningPrimary::of(primary)),
        Err((back, StartFault::Memory)) => Err(back),
        Err((_, StartFault::Store(_))) => unreachable!(),
        Err((_, StartFault::Journal(_))) => unreachable!(),
    }
}

/// A stopped primary whose journal has these bytes. Fails as `recover` does.
pub fn stopped_on(
    alloc: Global,
    content: Vec<u8>,
    setup: &Setup,
) -> Result<PrimaryNode, JournalFault>
    ensures ok { IfOk result (IsStoppedOn setup.now content.items) }
    ensures refused { IfErr result (IsRefusal setup.now.workers (shape_of setup.now.schema) content.items) }
{
    let kept = recover(alloc, &content, &setup.schema, setup.workers)?;
    Ok(PrimaryNode::Stopped {
        journal: MemJournal::of(content),
        kept: kept.commits,
        form: kept.form,
    })
}
