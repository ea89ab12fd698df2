//! The primary's core: bytes and values in, bytes and values out.

ghost use Rattle.std.specs.Prelude.{◌≡◌, ◌<◌, ◌≤◌, ◌^◌, ℕ, length, map, take, [], ◌++◌, true, false, Ok, IfOk, IfErr, OnOk, OnErr};
ghost use Rattle.std.specs.Prelude.{is_some, is_none};
ghost use Rattle.std.specs.List.{AllByRecursion};
ghost use Rattle.rows.specs.Faults.{IsFaultOf};
ghost use Rattle.rows.specs.Limits.{workers_max};
ghost use Rattle.rows.specs.Shape.{shape_of};
ghost use Rattle.update_log.specs.Frames.{IsSendable};
ghost use Rattle.update_log.specs.Streams.{stream_of};
ghost use Rattle.journal.specs.Recovery.{IsJournaled};
ghost use Rattle.journal.specs.Storing.{faults_max};
ghost use Rattle.journal.specs.Text.{records_from};
ghost use Rattle.primary.specs.Journaling.{IsWritten, IsFormOf, IsUnchanged, offered, IsFlushRefusal, StandsAfterFlush, CountsFlushFault};
ghost use Rattle.primary.specs.Journaling.{IsKeptOf, KeepsSame, IsStartRefusal, TellsRefusal, LeavesBytes, CountsStartFault, AreNumbered};
ghost use Rattle.primary.specs.Lending.{IsLentBy, EndsWritten, ended, end_answer};
ghost use Rattle.wire.specs.Spelling.{HasDatagramSpelling, spelling};
ghost use Rattle.primary.specs.Sending.{low_of, pushed, pieces_of_base, answers};
ghost use Rattle.primary.specs.State.{is_honest_in, standing_in, faults_in};
ghost use Rattle.primary.specs.Steps.{started_primary, commit_answer, committed, flushed, based, based_at};

use crate::done::Done;
use crate::faults::{CommitFault, FlushFault, StartFault};
use crate::lists::Lists;
use crate::starting::open;
use crate::ticket::Ticket;
use crate::work::Work;
use journal::{Form, JournalStore};
use mvcc::{Transaction, Versions};
use rows::Schema;
use std::alloc::{AllocError, Global};
use std::marker::Model;
use wire::{Out, Packet};

/// A primary: its durable list of commits, its pending list, whether it has failed, its base, and
/// its journal.
///
/// Contracts see these lists with the schema and the number of workers, and the journal, unless it
/// is lent out for a write. A journal that is honest and has not failed contains the text of the
/// durable list after a start, and each call preserves that. Only what is durable is ever pushed or
/// counted.
#[derive(Drop)]
pub struct PrimaryCore<J: JournalStore> {
    lists: Lists,
    journal: Option<J>,
    form: Form,
}

impl<J: JournalStore> Model for PrimaryCore<J> {
    ghost use Rattle.primary.specs.State.{Core};
    ghost use Rattle.primary.specs.Inner.Invariant.{KeepsJournal};

    ghost Value = { Core J };

    ghost view = { λ p. record { primary = p.lists; journal = p.journal; form = p.form } };

    ghost invariant = { λ p. KeepsJournal J.fault_count (record { primary = p.lists; journal = p.journal; form = p.form }) };
}

impl<J: JournalStore> PrimaryCore<J> {
    /// A primary for a schema and 1 to 16 workers, on a journal: the commits that the journal keeps
    /// are durable, and all their frames are kept. Before anything else, what a crash left behind them is truncated; then a header
    /// is written where nothing is kept, and the mark behind a journal of version 1, which goes on
    /// as version 2 from there.
    ///
    /// Fails with `Store` if the journal could not be read, truncated or written, which it has
    /// counted as a fault; with `Journal` if its bytes are refused, and then with their fault; with
    /// `Memory`. The journal is handed back, and keeps the same commits; its bytes are changed only
    /// if `Store` is answered.
    pub fn start(
        alloc: Global,
        journal: J,
        schema: &Schema,
        workers: u8,
    ) -> Result<PrimaryCore<J>, (J, StartFault<J::Fault>)>
        requires some { 0 < workers }
        requires few { workers ≤ workers_max }
        requires countable { J.fault_count journal < faults_max }
        ensures ok { IfOk result (λ core. core.primary ≡ started_primary schema.now workers core.primary.durable) }
        ensures kept { J.is_honest journal ≡ true
            → IfOk result (λ core. IsKeptOf workers (shape_of schema.now) (J.standing journal) core.primary.durable core.form) }
        ensures written { IfOk result (IsWritten J.is_honest J.standing) }
        ensures journal { IfOk result (λ core. (is_some core.journal ≡ true)
            × (is_honest_in J.is_honest core.journal ≡ J.is_honest journal)
            × (faults_in J.fault_count core.journal ≡ J.fault_count journal)) }
        ensures refused { IfErr result (λ refusal.
            IsStartRefusal workers (shape_of schema.now) (J.is_honest journal) (J.standing journal) refusal.1) }
        ensures told { J.is_honest journal ≡ true → TellsRefusal workers (shape_of schema.now) (J.standing journal) result }
        ensures same { J.is_honest journal ≡ true
            → IfErr result (λ refusal. KeepsSame workers (shape_of schema.now) (J.standing journal) (J.standing refusal.0)) }
        ensures leaves { J.is_honest journal ≡ true
            → IfErr result (λ refusal. LeavesBytes refusal.1 (J.standing journal) (J.standing refusal.0)) }
        ensures faults { IfErr result (λ refusal. (J.is_honest refusal.0 ≡ J.is_honest journal)
            × CountsStartFault refusal.1 (J.fault_count journal) (J.fault_count refusal.0)) }
    {
        journal::laws::stops_are_recovered();
        let mut journal = journal;
        match open(alloc, &mut journal, schema, workers) {
            Ok(opened) => Ok(PrimaryCore {
                lists: opened.lists,
                journal: Some(journal),
                form: opened.form,
            }),
            Err(fault) => Err((journal, fault)),
        }
    }

    /// The durable list followed by the pending one is legal for the primary's schema and workers,
    /// and a journal may be of it, and also of the durable list alone. A datagram spells each frame
    /// of the durable list. The journal's form is one that the text of the durable list may have,
    /// and of version 2 at its end. The base is within the durable list, and a datagram spells each of
    /// its pieces. It does nothing: its contract is the law.
    pub fn keeps_legal(&self)
        ensures all { IsJournaled self.now.primary.workers (shape_of self.now.primary.schema)
            (self.now.primary.durable ++ self.now.primary.pending) }
        ensures durable { IsJournaled self.now.primary.workers (shape_of self.now.primary.schema) self.now.primary.durable }
        ensures numbered { AreNumbered (self.now.primary.durable ++ self.now.primary.pending) }
        ensures sendable { (worker : ℕ) → AllByRecursion IsSendable (stream_of self.now.primary.durable worker) }
        ensures some_workers { 0 < self.now.primary.workers }
        ensures few_workers { self.now.primary.workers ≤ workers_max }
        ensures based { self.now.primary.base ≤ length self.now.primary.durable }
        ensures pieces { length
            (pieces_of_base (shape_of self.now.primary.schema) self.now.primary.durable self.now.primary.base) < 2 ^ 64 }
        ensures pieces_spelled { AllByRecursion HasDatagramSpelling
            (pieces_of_base (shape_of self.now.primary.schema) self.now.primary.durable self.now.primary.base) }
        ensures form { IsFormOf self.now.form self.now.primary.durable }
    {
        self.lists.keeps_legal();
    }

    /// How many commits are durable, which is the version on which a transaction begins.
    pub fn durable(&self) -> u64
        ensures { result ≡ length self.now.primary.durable }
    {
        self.lists.durable()
    }

    /// How many commits are pending.
    pub fn pending(&self) -> usize
        ensures { result ≡ length self.now.primary.pending }
    {
        self.lists.pending()
    }

    /// How many workers there are, 1 to 16: a transaction is committed for a worker below this
    /// number.
    pub fn workers(&self) -> u8
        ensures count { result ≡ self.now.primary.workers }
        ensures some { 0 < result }
        ensures few { result ≤ workers_max }
    {
        self.lists.workers()
    }

    /// The versions of the durable list followed by the pending one.
    pub fn versions(&self) -> &Versions
        ensures { result.now ≡ record {
          schema = self.now.primary.schema;
          commits = self.now.primary.durable ++ self.now.primary.pending;
        } }
    {
        self.lists.versions()
    }

    /// Whether the journal is lent out: a flush has begun and not ended. Takes no memory.
    pub fn lent(&self) -> bool
        ensures { result ≡ is_none self.now.journal }
    {
        self.journal.is_none()
    }

    /// The journal, for reading. Takes no memory.
    pub fn journal(&self) -> &J
        requires { is_some self.now.journal ≡ true }
        ensures { self.now.journal ≡ Some result.now }
    {
        match &self.journal {
            Some(journal) => journal,
            None => unreachable!(),
        }
    }

    /// The journal; the lists are gone. Takes no memory.
    pub fn into_journal(self) -> J
        requires { is_some self.journal ≡ true }
        ensures { self.journal ≡ Some result }
    {
        let PrimaryCore {
            lists: _,
            journal,
            form: _,
        } = self;
        match journal {
            Some(journal) => journal,
            None => unreachable!(),
        }
    }

    /// The records of the pending commits, as a flush of all would write them. Fails only if out of
    /// memory.
    pub fn pending_text(&self) -> Result<Vec<u8>, AllocError>
        ensures { IfOk result (λ bytes. bytes.items ≡ records_from (length self.now.primary.durable) self.now.primary.pending) }
    {
        self.lists.records(self.lists.pending())
    }

    /// Commits a transaction for a worker: the commit goes to the end of the pending list, and
    /// the ticket has its number, worker and entries.
    ///
    /// Fails with the first of these, hands the transaction back and leaves the primary as it
    /// was: `Failed`; `ReadOnly`, no entries; `Foreign`, its snapshot is above what is durable or
    /// an entry is not defined where it stands on the rows at the snapshot; `Conflict` with the
    /// number of the last commit after its snapshot, durable or pending, that touches one of its
    /// rows, or where one of the two adds a column to a table in which the other has an entry;
    /// `NumbersUsedUp`, the commit's number or a seq or count of its frames would pass 64 bits;
    /// `Memory`.
    pub fn commit(
        &mut self,
        transaction: Transaction,
        worker: u8,
    ) -> Result<Ticket, (Transaction, CommitFault)>
        requires { worker < self.old.primary.workers }
        ensures ok { IfOk result (λ ticket. (commit_answer self.old.primary worker transaction ≡ Ok ticket.number)
            × (ticket.worker ≡ worker) × (ticket.entries ≡ transaction.entries)
            × (self.new.primary ≡ committed self.old.primary worker transaction.entries)) }
        ensures refused { IfErr result (λ refusal. (refusal.0 ≡ transaction) × (self.new.primary ≡ self.old.primary)
            × IsFaultOf (commit_answer self.old.primary worker transaction) CommitFault.Memory refusal.1) }
        ensures journal { self.new.journal ≡ self.old.journal }
        ensures form { self.new.form ≡ self.old.form }
        ensures written { IsWritten J.is_honest J.standing self.old → IsWritten J.is_honest J.standing self.new }
    {
        self.lists.commit(transaction, worker)
    }

    /// Begins a flush of the first `count` pending commits (all, if there are fewer): takes all
    /// memory, and lends the journal out with their records. The lists do not change; commits,
    /// pushes and answers continue while the records are written.
    ///
    /// Fails with `Failed` if the journal failed before, with `Busy` if it is lent out, or with
    /// `Memory`; the lists and the journal's bytes are then unchanged.
    pub fn begin_flush(&mut self, count: usize) -> Result<Work<J>, FlushFault>
        ensures ok { IfOk result (IsLentBy J.is_honest J.standing J.fault_count self.old count) }
        ensures lent { OnOk result (self.new ≡ record self.old { journal = None }) }
        ensures refused { IfErr result (λ fault. IsFlushRefusal self.old count fault self.new.primary × ¬ (fault ≡ FlushFault.Journal)) }
        ensures form { self.new.form ≡ self.old.form }
        ensures same { OnErr result (IsUnchanged J.is_honest J.standing J.fault_count self.old.journal self.new.journal) }
        ensures nothing { OnErr result (take count self.old.primary.pending ≡ [] → self.new ≡ self.old) }
    {
        if self.lists.has_failed() {
            return Err(FlushFault::Failed);
        }
        let Some(journal) = &mut self.journal else {
            return Err(FlushFault::Busy);
        };
        let Ok(records) = self.lists.records(count) else {
            return Err(FlushFault::Memory);
        };
        let offered = count.min(self.lists.pending());
        if offered > 0 && journal.reserve(records.len()).is_err() {
            return Err(FlushFault::Memory);
        }
        match self.journal.take() {
            Some(journal) => Ok(Work::new(journal, offered, records)),
            None => unreachable!(),
        }
    }

    /// Makes what is durable the base: the tables after those commits are kept in pieces, and the
    /// frames of those commits are not kept any more, so what their streams took is free again. Answers the base,
    /// which is how many commits are durable, and how many pieces it has. At the base that the
    /// primary has already nothing is done. A base may be taken while commits are pending, while the
    /// journal is lent out, and after it has failed.
    ///
    /// It costs the image (`mvcc::Versions::image`) and a look at each commit that is pending. Fails
    /// only if out of memory, and then nothing has changed.
    pub fn take_base(&mut self) -> Result<(u64, u64), AllocError>
        ensures ok { IfOk result (λ taken. (self.new.primary ≡ based self.old.primary) × (taken.0 ≡ self.new.primary.base)
            × (taken.1 ≡ length (pieces_of_base (shape_of self.new.primary.schema) self.new.primary.durable self.new.primary.base))) }
        ensures err { OnErr result ((self.new.primary ≡ self.old.primary)
            × (self.old.primary.base < length self.old.primary.durable)) }
        ensures journal { self.new.journal ≡ self.old.journal }
        ensures form { self.new.form ≡ self.old.form }
        ensures written { IsWritten J.is_honest J.standing self.old → IsWritten J.is_honest J.standing self.new }
    {
        self.lists.take_base()
    }

    /// Puts a base in place whose pieces were made apart from the primary, from the image of the tables
    /// after the first `base` durable commits (`piece_packets`): these pieces are kept, and the frames of
    /// those commits are not kept any more. If the base is not behind the one that the primary has,
    /// nothing is done. A base may be put in place whenever one may be taken.
    ///
    /// It costs a look at each commit behind the base. Fails only if out of memory, and then nothing has
    /// changed.
    pub fn put_base(&mut self, base: u64, pieces: Vec<Packet>) -> Result<(), AllocError>
        requires within { base ≤ length self.old.primary.durable }
        requires pieces { pieces.items
            ≡ map spelling (pieces_of_base (shape_of self.old.primary.schema) self.old.primary.durable base) }
        ensures ok { OnOk result (self.new.primary ≡ based_at self.old.primary base) }
        ensures err { OnErr result ((self.new.primary ≡ self.old.primary) × (self.old.primary.base < base)) }
        ensures journal { self.new.journal ≡ self.old.journal }
        ensures form { self.new.form ≡ self.old.form }
        ensures written { IsWritten J.is_honest J.standing self.old → IsWritten J.is_honest J.standing self.new }
    {
        self.lists.put_base(base, pieces)
    }

    /// The base, 0 before one is taken, and how many pieces it has. Takes no memory.
    pub fn base(&self) -> (u64, u64)
        ensures base { result.0 ≡ self.now.primary.base }
        ensures pieces { result.1 ≡ length
            (pieces_of_base (shape_of self.now.primary.schema) self.now.primary.durable self.now.primary.base) }
    {
        self.lists.base()
    }

    /// How many frames of the worker are not kept: those of the commits up to the base. Takes no
    /// memory.
    pub fn low(&self, worker: u8) -> u64
        ensures { result ≡ low_of self.now.primary worker }
    {
        self.lists.low(worker)
    }

    /// The packet of that `seq` of the worker's stream of the durable list, if the stream has it and
    /// it is kept. Takes no memory.
    pub fn push(&self, worker: u8, seq: u64) -> Option<Packet>
        ensures { result ≡ pushed self.now.primary worker seq }
    {
        self.lists.push(worker, seq)
    }

    /// What the primary sends for bytes that arrived: to an Ask, one Head with what is durable, the
    /// base, how many pieces it has, and each worker's frame counts at both; to a Want, the durable
    /// frames of the worker from the one that it names on, at most 16, without those that are not
    /// kept, and none if there is no such worker; to a Pull of the base that it has, the pieces from
    /// the one that it names on, at most 16; to anything else nothing. Each goes to the replica that
    /// asked. Fails only if out of memory, and only if something is to be sent.
    pub fn on_bytes(&self, bytes: &[u8]) -> Result<Vec<Out>, AllocError>
        ensures ok { IfOk result (λ outs. outs.items ≡ answers self.now.primary bytes.now) }
        ensures err { OnErr result (0 < length (answers self.now.primary bytes.now)) }
    {
        self.lists.on_bytes(bytes)
    }
}

impl<J: JournalStore + Drop> PrimaryCore<J> {
    /// Ends the flush that this primary began: takes the journal back, and answers how many commits
    /// are durable. If the journal took the records, as many pending commits are now durable as
    /// were offered, whatever was committed meanwhile. Takes no memory.
    ///
    /// Fails with `NotLent` if the journal is not lent out, and then nothing changes; or with
    /// `Journal` if the journal did not take the records: the lists are then unchanged, the journal
    /// may contain some beginning of the records, and each commit and flush answers `Failed` until
    /// the primary is restarted.
    pub fn end_flush(&mut self, done: Done<J>) -> Result<u64, FlushFault>
        ensures not_lent { is_some self.old.journal ≡ true → (result ≡ Err FlushFault.NotLent) × (self.new ≡ self.old) }
        ensures ended { self.old.journal ≡ None → self.new ≡ ended self.old done }
        ensures answer { self.old.journal ≡ None → result ≡ end_answer self.old.primary done }
        ensures written { self.old.journal ≡ None → EndsWritten J.is_honest J.standing J.fault_count self.old done self.new }
    {
        journal::laws::texts_grow();
        let (journal, count, taken) = done.into_parts();
        if self.journal.is_some() {
            return Err(FlushFault::NotLent);
        }
        self.journal = Some(journal);
        if taken {
            self.lists.acknowledge(count);
            Ok(self.lists.durable())
        } else {
            self.lists.fail();
            Err(FlushFault::Journal)
        }
    }

    /// Moves the first `count` pending commits (all, if there are fewer) to the durable list, and
    /// answers how many are then durable. Their records go to the journal in one append, for which
    /// all memory is taken first; if there is nothing to move, nothing is written. This begins a
    /// flush, writes it and ends it.
    ///
    /// Fails with `Failed` if the journal failed before; with `Busy` if it is lent out; with
    /// `Memory`; or with `Journal` if the journal did not take the records and has counted a fault.
    /// The lists are then unchanged; after `Journal` the journal may contain some beginning of the
    /// records, and each commit and flush answers `Failed` until the primary is restarted.
    pub fn flush(&mut self, count: usize) -> Result<u64, FlushFault>
        ensures ok { IfOk result (λ durable. (self.old.primary.failed ≡ false) × (self.new.primary ≡ flushed self.old.primary count)
            × (durable ≡ length self.new.primary.durable)) }
        ensures refused { IfErr result (λ fault. IsFlushRefusal self.old count fault self.new.primary) }
        ensures form { self.new.form ≡ self.old.form }
        ensures written { IsWritten J.is_honest J.standing self.old → IsWritten J.is_honest J.standing self.new }
        ensures left { is_honest_in J.is_honest self.old.journal ≡ true → IfErr result (λ fault.
            StandsAfterFlush fault (offered self.old.primary count)
            (standing_in J.standing self.old.journal) (standing_in J.standing self.new.journal)) }
        ensures nothing { take count self.old.primary.pending ≡ [] → self.new.journal ≡ self.old.journal }
        ensures faults { CountsFlushFault result (faults_in J.fault_count self.old.journal) (faults_in J.fault_count self.new.journal) }
        ensures honest { is_honest_in J.is_honest self.new.journal ≡ is_honest_in J.is_honest self.old.journal }
        ensures there { is_some self.new.journal ≡ is_some self.old.journal }
    {
        match self.begin_flush(count) {
            Ok(work) => self.end_flush(work.write()),
            Err(fault) => Err(fault),
        }
    }
}
