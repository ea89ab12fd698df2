//! While one thread flushes, and its append to the journal has begun and not ended, another one reads,
//! commits or takes a base.

ghost use Rattle.std.specs.Prelude.{◌≡◌, ◌<◌};

use crate::cores::core_on;
use crate::gated_journal::{CLOSED, GatedJournal, OPEN, PASSED, is_let_pass, is_waited_for};
use crate::outcomes::{made, there};
use mvcc::{Transaction, TxFault};
use primary::PrimaryCore;
use published::LineFault;
use rows::{RowId, Value};
use shared::{Flushed, Line, Origin, Seat, Start};
use std::alloc::Global;
use std::marker::Brand;
use std::sync::atomic::{AtomicU64, Ordering};
use std::sync::{Arc, Wait};
use std::test::Fail;
use std::thread::{Threads, join};

/// What another thread does while the journal is written.
#[derive(Clone, Copy)]
enum Meanwhile {
    /// It reads row 0, which is not there yet.
    Read,
    /// It puts in row 1 by commit 2.
    Commit,
    /// It takes a base of nothing, since nothing is durable yet.
    Base,
}

/// Whether a transaction puts in a row.
fn inserts<L: Origin>(seat: &mut Seat<L>, transaction: &mut Transaction, row: u64) -> bool {
    let values = [Value::Int(5), Value::Int(-1)];
    seat.insert(transaction, 0, RowId(row), &values).is_ok()
}

/// The number of a commit that puts in a row.
fn inserted<L: Origin, R: Wait + Drop, W: Wait>(
    rt: &W,
    alloc: Global,
    line: &Line<L, GatedJournal, R>,
    seat: &mut Seat<L>,
    row: u64,
) -> Option<u64>
    requires { 0 < L.workers }
{
    let Some(mut transaction) = made(seat.begin(alloc)) else {
        return None;
    };
    if !inserts(seat, &mut transaction, row) {
        return None;
    }
    match made(line.commit(rt, seat, transaction, 0)) {
        Some(ticket) => Some(ticket.number),
        None => None,
    }
}

/// Whether a transaction that begins now is on nothing, and finds no row 0.
fn finds_nothing<L: Origin>(alloc: Global, seat: &mut Seat<L>) -> bool {
    let Some(transaction) = made(seat.begin(alloc)) else {
        return false;
    };
    transaction.snapshot() == 0
        && seat.value(&transaction, 0, RowId(0), 0) == Err(LineFault::Tx(TxFault::Missing))
}

/// Whether a base is taken, with so many pieces.
fn is_based<L: Origin, R: Wait + Drop, W: Wait>(
    rt: &W,
    line: &Line<L, GatedJournal, R>,
    seat: &mut Seat<L>,
    wanted: u64,
    wanted_pieces: u64,
) -> bool {
    match line.take_base(rt, seat) {
        Ok((base, pieces)) => base == wanted && pieces == wanted_pieces,
        Err(_) => false,
    }
}

/// Whether this is done while an append waits at the gate.
fn is_done<L: Origin, R: Wait + Drop, W: Wait>(
    rt: &W,
    alloc: Global,
    line: &Line<L, GatedJournal, R>,
    seat: &mut Seat<L>,
    gate: &AtomicU64,
    meanwhile: Meanwhile,
) -> bool
    requires { 0 < L.workers }
{
    if !is_waited_for(gate) {
        return false;
    }
    let is_done = match meanwhile {
        Meanwhile::Read => finds_nothing(alloc, seat),
        Meanwhile::Commit => inserted(rt, alloc, line, seat, 1) == Some(2),
        Meanwhile::Base => is_based(rt, line, seat, 0, 0),
    };
    is_let_pass(gate) && is_done
}

/// Whether a flush makes so many commits durable.
fn is_flushed<L: Origin, R: Wait + Drop, W: Wait>(
    rt: &W,
    line: &Line<L, GatedJournal, R>,
    seat: &mut Seat<L>,
    durable: u64,
) -> bool {
    line.flush(rt, seat, usize::MAX) == Ok(Flushed::Published(durable))
}

/// Whether a flush of one commit waits in its append until the other thread is done. What was committed
/// meanwhile goes with the next flush.
fn is_passed<L: Origin + Send + Sync, R: Threads + Wait + Sync>(
    rt: &R,
    alloc: Global,
    line: &Line<L, GatedJournal, &R>,
    writer: &mut Seat<L>,
    other: &mut Seat<L>,
    gate: &AtomicU64,
    meanwhile: Meanwhile,
) -> bool
    requires { 0 < L.workers }
{
    if inserted(rt, alloc, line, writer, 0) != Some(1) {
        return false;
    }
    gate.store(CLOSED, Ordering::SeqCst);
    let (is_written, is_done) = join(
        rt,
        || is_flushed(rt, line, writer, 1),
        || -> bool
            requires { 0 < L.workers }
        { is_done(rt, alloc, line, other, gate, meanwhile) },
    );
    let durable = match meanwhile {
        Meanwhile::Read | Meanwhile::Base => 1,
        Meanwhile::Commit => 2,
    };
    is_written
        && is_done
        && is_flushed(rt, line, other, durable)
        && is_based(rt, line, writer, durable, 1)
}

/// Whether the other thread is done while a thread with this seat writes the journal.
fn is_let_in_beside<L: Origin + Send + Sync, R: Threads + Wait + Sync>(
    rt: &R,
    alloc: Global,
    line: &Line<L, GatedJournal, &R>,
    writer: &mut Seat<L>,
    gate: &AtomicU64,
    meanwhile: Meanwhile,
) -> bool
    requires { 0 < L.workers }
{
    match line.seat(rt) {
        Some(mut other) => is_passed(rt, alloc, line, writer, &mut other, gate, meanwhile),
        None => false,
    }
}

/// Whether the other thread is done while the journal of this line is written.
fn is_let_in_on<L: Origin + Send + Sync, R: Threads + Wait + Sync>(
    rt: &R,
    alloc: Global,
    line: &Line<L, GatedJournal, &R>,
    gate: &AtomicU64,
    meanwhile: Meanwhile,
) -> bool
    requires { 0 < L.workers }
{
    match line.seat(rt) {
        Some(mut writer) => is_let_in_beside(rt, alloc, line, &mut writer, gate, meanwhile),
        None => false,
    }
}

/// Whether the other thread is done while the journal of this primary is written.
fn is_let_in<L: Origin + Send + Sync, R: Threads + Wait + Sync>(
    rt: &R,
    alloc: Global,
    core: PrimaryCore<GatedJournal>,
    start: Start,
    gate: &AtomicU64,
    meanwhile: Meanwhile,
) -> bool
    requires book { start.opened.seen.book ≡ L.book }
    requires schema { core.primary.schema ≡ L.schema }
    requires workers { core.primary.workers ≡ L.workers }
    requires first { core.primary ≡ L.first }
    requires name { start.blank.name ≡ L.name }
    requires parts { start.blank.parts ≡ L.parts }
    requires seats { start.seats ≡ L.seats }
{
    core.keeps_legal();
    match made(Line::<L, GatedJournal, &R>::new(alloc, rt, core, start)) {
        Some(line) => {
            let is_let_in = is_let_in_on(rt, alloc, &line, gate, meanwhile);
            drop(line);
            is_let_in && gate.load(Ordering::SeqCst) == PASSED
        }
        None => false,
    }
}

/// A primary on a journal behind this gate.
fn core_behind(
    alloc: Global,
    gate: &Arc<AtomicU64, Global>,
) -> Result<PrimaryCore<GatedJournal>, Fail> {
    match Arc::try_clone(gate) {
        Ok(theirs) => core_on(alloc, GatedJournal::new(alloc, theirs)),
        Err(fault) => Err(fault.into()),
    }
}

/// The same of a new primary behind this gate.
fn is_let_through<R: Threads + Wait + Sync>(
    rt: &R,
    alloc: Global,
    gate: &Arc<AtomicU64, Global>,
    meanwhile: Meanwhile,
) -> Result<bool, Fail> {
    let start = there(made(Start::new(2)), "start")?;
    match core_behind(alloc, gate) {
        Ok(core) => Ok(is_let_in::<Brand, R>(rt, alloc, core, start, gate, meanwhile)),
        Err(fail) => Err(fail),
    }
}

/// The same of a new primary.
fn is_let_into_new<R: Threads + Wait + Sync>(
    rt: &R,
    alloc: Global,
    meanwhile: Meanwhile,
) -> Result<bool, Fail> {
    match Arc::new(alloc, AtomicU64::new(OPEN)) {
        Ok(gate) => is_let_through(rt, alloc, &gate, meanwhile),
        Err(fault) => Err(fault.into()),
    }
}

#[test]
fn a_read_ends_while_the_journal_is_written(rt: HostRuntime) -> Result<(), Fail> {
    assert!(rt; is_let_into_new(&rt, rt.alloc(), Meanwhile::Read)?);
    Ok(())
}

#[test]
fn a_commit_is_answered_while_the_journal_is_written(rt: HostRuntime) -> Result<(), Fail> {
    assert!(rt; is_let_into_new(&rt, rt.alloc(), Meanwhile::Commit)?);
    Ok(())
}

#[test]
fn a_base_is_taken_while_the_journal_is_written(rt: HostRuntime) -> Result<(), Fail> {
    assert!(rt; is_let_into_new(&rt, rt.alloc(), Meanwhile::Base)?);
    Ok(())
}
