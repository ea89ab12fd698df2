//! A primary of accounts, each two numbers, and steps that it takes.

ghost use Rattle.std.specs.Prelude.{◌<◌, ◌≤◌};
ghost use Rattle.rows.specs.Limits.{workers_max};

use crate::accounts::versions_of;
use journal::{JournalStore, MemJournal};
use mvcc::{Transaction, Versions};
use primary::{CommitFault, FlushFault, PrimaryCore, StartFault, Ticket};
use rows::{RowId, Schema, Value};
use scenarios_common::wanted::{NUMBERS, Wanted};
use scenarios_common::worker_datagrams::{pull_of, want_of};
use std::alloc::{AllocError, Global};
use std::process::Abort;
use std::test::Fail;
use wire::{Datagram, Out, To, read};

/// A change of the row of that identifier in table 0.
pub enum Change {
    /// It is put in with the values 5 and -1.
    Insert(u64),
    /// Its second column gets the value 0.
    Set(u64),
    /// It is taken out.
    Delete(u64),
    /// So many rows are put in with the values 5 and -1, from that of identifier 0 on.
    InsertAll(u64),
}

/// The commits of another database.
type Elsewhere = &'static [&'static [Wanted<'static>]];

/// A step of a primary, and what it answers.
pub enum Step {
    /// For that worker, a transaction on that version with these changes is committed. The ticket
    /// has that number, and the worker and the entries; or the transaction is handed back.
    Commit(u8, u64, &'static [Change], Result<u64, CommitFault>),
    /// For worker 0, a transaction on the newest version of another database is refused as foreign.
    CommitOf(Elsewhere, &'static [Change]),
    /// So many commits are made durable; so many are durable then.
    Flush(usize, u64),
    /// So many are to be made durable, and none is.
    FlushRefused(usize, FlushFault),
    /// The records of the pending commits are these.
    PendingText(&'static [u8]),
    /// The frame of a seq of that worker's stream is sent, where there is one.
    Push(u8, u64, Option<&'static [u8]>),
    /// These bytes come, and replica 0 is sent those, or nothing is sent.
    Receive(&'static [u8], Option<&'static [u8]>),
    /// A replica wants a worker's frames from a seq on. It is sent as many datagrams as there are
    /// lengths, each of its length, and each with the next frame.
    Want(u8, u8, u64, &'static [usize]),
    /// Replica 0 wants worker 0's frames from a seq on, of which those before the second seq are not
    /// kept. It is sent those from there on, as above.
    WantAcross(u64, u64, &'static [usize]),
    /// A base is taken: it is that version, in so many pieces.
    Base(u64, u64),
    /// A replica wants the pieces of a base from a number on. It is sent as many datagrams as there
    /// are lengths, each of its length, and each with the next piece.
    Pull(u8, u64, u64, &'static [usize]),
}

/// A line of a story: a step, and how many commits are then to be durable and how many pending.
pub type Line = (Step, u64, usize);

/// The first of these stories that goes otherwise, and the index of its step; each begins at a
/// primary with so many workers and no commits.
pub fn other_story(
    alloc: Global,
    stories: &[(u8, &[Line])],
) -> Result<Option<(usize, usize)>, Fail> {
    for (number, (workers, story)) in stories.iter().enumerate() {
        if let Some(index) = other_step(alloc, *workers, story)? {
            return Ok(Some((number, index)));
        }
    }
    Ok(None)
}

/// Stops the test where something goes otherwise, and tells what does.
pub fn expect_none<R: Abort>(rt: &R, other: Option<(usize, usize)>) {
    assert_eq!(rt; other, None);
}

/// The index of the first step that a fresh primary answers otherwise.
fn other_step(alloc: Global, workers: u8, story: &[Line]) -> Result<Option<usize>, Fail> {
    if workers == 0 || workers > 16 {
        return Err("no such number of workers".into());
    }
    let mut primary = start(alloc, workers)?;
    other_step_of(alloc, workers, &mut primary, story)
}

/// A primary without commits, whose journal is in memory.
pub fn start(alloc: Global, workers: u8) -> Result<PrimaryCore<MemJournal>, Fail>
    requires some { 0 < workers }
    requires few { workers ≤ workers_max }
{
    let schema = Schema::new(alloc, &NUMBERS)?;
    start_with(alloc, &schema, workers)
}

/// The same of a schema.
fn start_with(alloc: Global, schema: &Schema, workers: u8) -> Result<PrimaryCore<MemJournal>, Fail>
    requires some { 0 < workers }
    requires few { workers ≤ workers_max }
{
    started(PrimaryCore::start(alloc, MemJournal::new(alloc), schema, workers))
}

/// What was started, or why nothing was.
fn started<C: Drop, J: Drop, F: Drop>(outcome: Result<C, (J, StartFault<F>)>) -> Result<C, Fail> {
    match outcome {
        Ok(primary) => Ok(primary),
        Err((_, StartFault::Memory)) => Err("out of memory".into()),
        Err(_) => Err("not started".into()),
    }
}

/// The index of the first step that a primary of so many workers answers otherwise.
pub fn other_step_of<J: JournalStore + Drop>(
    alloc: Global,
    workers: u8,
    primary: &mut PrimaryCore<J>,
    story: &[Line],
) -> Result<Option<usize>, Fail> {
    if primary.workers() != workers {
        return Err("no such number of workers".into());
    }
    for (index, (step, durable, pending)) in story.iter().enumerate() {
        if !is_answered(alloc, primary, step)? || counts(primary) != (*durable, *pending) {
            return Ok(Some(index));
        }
    }
    Ok(None)
}

/// How many commits are durable, and how many pending. Takes no memory.
fn counts<J: JournalStore>(primary: &PrimaryCore<J>) -> (u64, usize) {
    (primary.durable(), primary.pending())
}

/// Whether this step answers as it should.
fn is_answered<J: JournalStore + Drop>(
    alloc: Global,
    primary: &mut PrimaryCore<J>,
    step: &Step,
) -> Result<bool, Fail> {
    match step {
        Step::Commit(worker, version, changes, expected) => {
            are_committed(alloc, primary, *worker, *version, changes, *expected)
        }
        Step::CommitOf(commits, changes) => are_foreign(alloc, primary, commits, changes),
        Step::Flush(count, durable) => is_flushed(primary, *count, Ok(*durable)),
        Step::FlushRefused(count, fault) => is_flushed(primary, *count, Err(*fault)),
        Step::PendingText(expected) => is_pending_text(primary, expected),
        Step::Push(worker, seq, expected) => Ok(is_pushed(primary, *worker, *seq, *expected)),
        Step::Receive(bytes, expected) => is_received(primary, bytes, *expected),
        Step::Want(replica, worker, from, lens) => {
            are_frames_sent(primary, *replica, *worker, *from, *from, lens)
        }
        Step::WantAcross(from, kept, lens) => are_frames_sent(primary, 0, 0, *from, *kept, lens),
        Step::Base(base, pieces) => is_based(primary, (*base, *pieces)),
        Step::Pull(replica, base, from, lens) => {
            are_pieces_sent(primary, *replica, *base, *from, lens)
        }
    }
}

/// Whether the commit for a worker of a transaction on that version with these changes is answered
/// so.
fn are_committed<J: JournalStore>(
    alloc: Global,
    primary: &mut PrimaryCore<J>,
    worker: u8,
    version: u64,
    changes: &[Change],
    expected: Result<u64, CommitFault>,
) -> Result<bool, Fail> {
    let transaction = transaction(alloc, primary.versions(), version, changes)?;
    is_committed(primary, transaction, worker, expected)
}

/// Whether these changes are refused as foreign, in a transaction of worker 0 on the newest version
/// of a database that has those commits.
fn are_foreign<J: JournalStore>(
    alloc: Global,
    primary: &mut PrimaryCore<J>,
    commits: &[&[Wanted<'_>]],
    changes: &[Change],
) -> Result<bool, Fail> {
    let transaction = transaction_elsewhere(alloc, commits, changes)?;
    is_committed(primary, transaction, 0, Err(CommitFault::Foreign))
}

/// Whether a replica that wants a worker's frames from a seq on is sent those that are kept, from
/// the second seq on, of these lengths.
fn are_frames_sent<J: JournalStore>(
    primary: &PrimaryCore<J>,
    replica: u8,
    worker: u8,
    from: u64,
    kept: u64,
    lens: &[usize],
) -> Result<bool, Fail> {
    let outs = sent(primary, &want_of(replica, worker, from))?;
    Ok(are_frames(outs.as_slice(), replica, worker, kept, lens))
}

/// Whether a replica that wants the pieces of a base from a number on is sent those, of these
/// lengths.
fn are_pieces_sent<J: JournalStore>(
    primary: &PrimaryCore<J>,
    replica: u8,
    base: u64,
    from: u64,
    lens: &[usize],
) -> Result<bool, Fail> {
    let outs = sent(primary, &pull_of(replica, base, from))?;
    Ok(are_pieces(outs.as_slice(), replica, base, from, lens))
}

/// A transaction on that version with these changes.
fn transaction(
    alloc: Global,
    versions: &Versions,
    version: u64,
    changes: &[Change],
) -> Result<Transaction, Fail> {
    let mut transaction = Transaction::begin(alloc, version);
    for change in changes {
        make(versions, &mut transaction, change)?;
    }
    Ok(transaction)
}

/// Makes this change.
fn make(versions: &Versions, transaction: &mut Transaction, change: &Change) -> Result<(), Fail> {
    if transaction.snapshot() > versions.len() {
        return Err("no such version".into());
    }
    match change {
        Change::Insert(row) => {
            let values = [Value::Int(5), Value::Int(-1)];
            transaction.insert(versions, 0, RowId(*row), &values)?;
        }
        Change::Set(row) => transaction.set(versions, 0, RowId(*row), 1, Value::Int(0))?,
        Change::Delete(row) => transaction.delete(versions, 0, RowId(*row))?,
        Change::InsertAll(count) => insert_all(versions, transaction, *count)?,
    }
    Ok(())
}

/// Puts in so many rows, from that of identifier 0 on.
fn insert_all(versions: &Versions, transaction: &mut Transaction, count: u64) -> Result<(), Fail> {
    let values = [Value::Int(5), Value::Int(-1)];
    for row in 0..count {
        if transaction.snapshot() > versions.len() {
            return Err("no such version".into());
        }
        transaction.insert(versions, 0, RowId(row), &values)?;
    }
    Ok(())
}

/// A transaction with these changes on the newest version of a database that has those commits.
fn transaction_elsewhere(
    alloc: Global,
    commits: &[&[Wanted<'_>]],
    changes: &[Change],
) -> Result<Transaction, Fail> {
    let versions = versions_of(alloc, &NUMBERS, commits)?;
    transaction(alloc, &versions, versions.len(), changes)
}

/// Whether the answer to the commit of a transaction for a worker is the expected one. Where memory
/// is refused, that has changed nothing, and it is asked for once more.
fn is_committed<J: JournalStore>(
    primary: &mut PrimaryCore<J>,
    transaction: Transaction,
    worker: u8,
    expected: Result<u64, CommitFault>,
) -> Result<bool, Fail> {
    if worker >= primary.workers() {
        return Err("no such worker".into());
    }
    let given = (worker, transaction.snapshot(), transaction.entries().len());
    let before = counts(primary);
    Ok(match primary.commit(transaction, worker) {
        Err((transaction, CommitFault::Memory)) => {
            let kept = counts(primary) == before;
            let committed = is_expected(primary.commit(transaction, worker), given, expected);
            kept && committed
        }
        outcome => is_expected(outcome, given, expected),
    })
}

/// The worker for which a transaction is committed, its snapshot, and how many entries it has.
type Given = (u8, u64, usize);

/// Whether a commit was answered so: the ticket has the number, the worker and the entries, or the
/// transaction is handed back as it was.
fn is_expected(
    outcome: Result<Ticket, (Transaction, CommitFault)>,
    given: Given,
    expected: Result<u64, CommitFault>,
) -> bool {
    let (worker, snapshot, count) = given;
    match outcome {
        Ok(ticket) => {
            expected == Ok(ticket.number)
                && ticket.worker == worker
                && ticket.entries.len() == count
        }
        Err((transaction, fault)) => {
            expected == Err(fault)
                && transaction.snapshot() == snapshot
                && transaction.entries().len() == count
        }
    }
}

/// Whether a flush of so many commits is answered so. Where memory is refused, that has moved
/// nothing, and it is asked for once more.
fn is_flushed<J: JournalStore + Drop>(
    primary: &mut PrimaryCore<J>,
    count: usize,
    expected: Result<u64, FlushFault>,
) -> Result<bool, Fail> {
    let before = counts(primary);
    let flushed = primary.flush(count);
    if flushed == Err(FlushFault::Memory) {
        return Ok(counts(primary) == before && primary.flush(count) == expected);
    }
    Ok(flushed == expected)
}

/// Whether the records of the pending commits are these, at once or where that was refused for
/// memory and is asked for again.
fn is_pending_text<J: JournalStore>(
    primary: &PrimaryCore<J>,
    expected: &[u8],
) -> Result<bool, Fail> {
    match primary.pending_text() {
        Ok(text) => Ok(text.as_slice() == expected),
        Err(_) => Ok(primary.pending_text()?.as_slice() == expected),
    }
}

/// Whether the frame of that seq is the expected one.
fn is_pushed<J: JournalStore>(
    primary: &PrimaryCore<J>,
    worker: u8,
    seq: u64,
    expected: Option<&[u8]>,
) -> bool {
    match primary.push(worker, seq) {
        Some(packet) => expected == Some(packet.bytes()),
        None => expected.is_none(),
    }
}

/// What is sent for these bytes, once more where that was refused for memory.
fn sent<J: JournalStore>(primary: &PrimaryCore<J>, bytes: &[u8]) -> Result<Vec<Out>, AllocError> {
    match primary.on_bytes(bytes) {
        Ok(outs) => Ok(outs),
        Err(_) => primary.on_bytes(bytes),
    }
}

/// Whether these bytes are answered by the expected ones, to replica 0.
fn is_received<J: JournalStore>(
    primary: &PrimaryCore<J>,
    bytes: &[u8],
    expected: Option<&[u8]>,
) -> Result<bool, Fail> {
    let outs = sent(primary, bytes)?;
    match outs.as_slice() {
        [] => Ok(expected.is_none()),
        [out] => Ok(out.to == To::Replica(0) && expected == Some(out.packet.bytes())),
        _ => Ok(false),
    }
}

/// Whether a base is taken and answered so. Where memory is refused, the base is the one before, and
/// it is taken once more.
fn is_based<J: JournalStore>(
    primary: &mut PrimaryCore<J>,
    expected: (u64, u64),
) -> Result<bool, Fail> {
    let before = (counts(primary), primary.low(0));
    match primary.take_base() {
        Ok(taken) => Ok(taken == expected),
        Err(_) => {
            let after = (counts(primary), primary.low(0));
            Ok(after == before && primary.take_base()? == expected)
        }
    }
}

/// Whether these are as many datagrams to a replica as there are lengths, each of its length, and
/// with the frames of a worker from a seq on.
fn are_frames(outs: &[Out], replica: u8, worker: u8, from: u64, lens: &[usize]) -> bool {
    if outs.len() != lens.len() {
        return false;
    }
    for (index, len) in lens.iter().enumerate() {
        let out = &outs[index];
        let seq = from.wrapping_add(index as u64);
        if out.to != To::Replica(replica) || !is_frame(out.packet.bytes(), worker, seq, *len) {
            return false;
        }
    }
    true
}

/// Whether these are so many bytes, and the frame of that seq of a worker's stream.
fn is_frame(bytes: &[u8], worker: u8, seq: u64, len: usize) -> bool {
    match read(bytes) {
        Ok(
            Datagram::Frame {
                worker: found,
                seq: at,
                ..
            },
        ) => found == worker && at == seq && bytes.len() == len,
        _ => false,
    }
}

/// Whether these are as many datagrams to a replica as there are lengths, each of its length, and
/// with the pieces of a base from a number on.
fn are_pieces(outs: &[Out], replica: u8, base: u64, from: u64, lens: &[usize]) -> bool {
    if outs.len() != lens.len() {
        return false;
    }
    for (index, len) in lens.iter().enumerate() {
        let out = &outs[index];
        let number = from.wrapping_add(index as u64);
        if out.to != To::Replica(replica) || !is_piece(out.packet.bytes(), base, number, *len) {
            return false;
        }
    }
    true
}

/// Whether these are so many bytes, and the piece of that number of a base.
fn is_piece(bytes: &[u8], base: u64, number: u64, len: usize) -> bool {
    match read(bytes) {
        Ok(
            Datagram::Piece {
                base: found,
                number: at,
                ..
            },
        ) => found == base && at == number && bytes.len() == len,
        _ => false,
    }
}
