//! Whichever request for memory is refused: what was asked for is asked again, and answered then.

ghost use Rattle.std.specs.Prelude.{◌≡◌, ◌<◌};

use crate::cores::core_on;
use crate::outcomes::{made, there};
use journal::MemJournal;
use mvcc::Transaction;
use primary::{CommitFault, FlushFault, PrimaryCore, Ticket};
use rows::{RowId, Value};
use scenarios_common::worker_datagrams::{FRAME, WANT};
use shared::{Flushed, Line, NewFault, Origin, Seat, Settled, Start};
use std::alloc::Global;
use std::marker::Brand;
use std::sync::Wait;
use std::test::Fail;

/// A transaction that begins now, once more if memory was refused.
fn begun<L: Origin>(alloc: Global, seat: &mut Seat<L>) -> Option<Transaction> {
    match made(seat.begin(alloc)) {
        Some(transaction) => Some(transaction),
        None => made(seat.begin(alloc)),
    }
}

/// Whether row 7 is put in with the values 5 and -1, once more if memory was refused.
fn is_inserted<L: Origin>(seat: &mut Seat<L>, transaction: &mut Transaction) -> bool {
    let values = [Value::Int(5), Value::Int(-1)];
    seat.insert(transaction, 0, RowId(7), &values).is_ok()
        || seat.insert(transaction, 0, RowId(7), &values).is_ok()
}

/// A transaction that puts in row 7 with the values 5 and -1; each call is made once more if memory was
/// refused to it.
fn insertion<L: Origin>(alloc: Global, seat: &mut Seat<L>) -> Option<Transaction> {
    let Some(mut transaction) = begun(alloc, seat) else {
        return None;
    };
    if !is_inserted(seat, &mut transaction) {
        return None;
    }
    Some(transaction)
}

/// The transaction that was handed back, if that was for want of memory.
fn lacked_memory<T: Drop>((transaction, fault): (T, CommitFault)) -> Option<T> {
    match fault {
        CommitFault::Memory => Some(transaction),
        _ => None,
    }
}

/// The ticket of a transaction's commit, which is asked for once more.
fn committed_again<L: Origin, R: Wait + Drop, W: Wait>(
    rt: &W,
    line: &Line<L, MemJournal, R>,
    seat: &mut Seat<L>,
    refusal: (Transaction, CommitFault),
) -> Option<Ticket>
    requires { 0 < L.workers }
{
    match lacked_memory(refusal) {
        Some(transaction) => made(line.commit(rt, seat, transaction, 0)),
        None => None,
    }
}

/// The ticket of the row's commit, which is asked for once more if memory was refused.
fn committed<L: Origin, R: Wait + Drop, W: Wait>(
    rt: &W,
    alloc: Global,
    line: &Line<L, MemJournal, R>,
    seat: &mut Seat<L>,
) -> Option<Ticket>
    requires { 0 < L.workers }
{
    let Some(transaction) = insertion(alloc, seat) else {
        return None;
    };
    match line.commit(rt, seat, transaction, 0) {
        Ok(ticket) => Some(ticket),
        Err(refusal) => committed_again(rt, line, seat, refusal),
    }
}

/// Whether a flush makes the commit durable: at once, or nothing has changed and it does the next time.
fn is_flushed<L: Origin, R: Wait + Drop, W: Wait>(
    rt: &W,
    line: &Line<L, MemJournal, R>,
    seat: &mut Seat<L>,
    ticket: &Ticket,
) -> bool {
    match line.flush(rt, seat, usize::MAX) {
        Ok(flushed) => flushed == Flushed::Published(1) || flushed == Flushed::Unpublished(1),
        Err(FlushFault::Memory) => {
            line.settle(rt, seat, ticket) == Settled::NotYet
                && line.flush(rt, seat, usize::MAX) == Ok(Flushed::Published(1))
        }
        Err(_) => false,
    }
}

/// Whether the commit is settled: at once, or the next time if there was no memory to publish it.
fn is_settled<L: Origin, R: Wait + Drop, W: Wait>(
    rt: &W,
    line: &Line<L, MemJournal, R>,
    seat: &mut Seat<L>,
    ticket: &Ticket,
) -> bool {
    match line.settle(rt, seat, ticket) {
        Settled::Settled(number) => number == 1,
        Settled::Unpublished => line.settle(rt, seat, ticket) == Settled::Settled(1),
        _ => false,
    }
}

/// Whether row 7 has this number in its first column, as the transaction sees it.
fn has<L: Origin>(seat: &mut Seat<L>, transaction: &Transaction, number: i64) -> bool {
    match seat.value(transaction, 0, RowId(7), 0) {
        Ok(value) => value == Value::Int(number),
        Err(_) => false,
    }
}

/// Whether a column of the row is set to 6, once more if memory was refused, which has changed nothing.
fn is_set<L: Origin>(seat: &mut Seat<L>, transaction: &mut Transaction) -> bool {
    if seat.set(transaction, 0, RowId(7), 0, Value::Int(6)).is_ok() {
        return true;
    }
    has(seat, transaction, 5) && seat.set(transaction, 0, RowId(7), 0, Value::Int(6)).is_ok()
}

/// Whether the row is deleted, once more if memory was refused, which has changed nothing.
fn is_deleted<L: Origin>(seat: &mut Seat<L>, transaction: &mut Transaction) -> bool {
    if seat.delete(transaction, 0, RowId(7)).is_ok() {
        return true;
    }
    has(seat, transaction, 6) && seat.delete(transaction, 0, RowId(7)).is_ok()
}

/// Whether the transaction has no row 7.
fn lacks_row<L: Origin>(seat: &mut Seat<L>, transaction: &Transaction) -> bool {
    seat.value(transaction, 0, RowId(7), 0).is_err()
}

/// Whether a later transaction sets a column of the row, and then deletes the row. Each call is made once
/// more if memory was refused to it, and has changed nothing until then.
fn is_changed<L: Origin>(alloc: Global, seat: &mut Seat<L>) -> bool {
    let Some(mut transaction) = begun(alloc, seat) else {
        return false;
    };
    is_set(seat, &mut transaction)
        && has(seat, &transaction, 6)
        && is_deleted(seat, &mut transaction)
        && lacks_row(seat, &transaction)
}

/// Whether the row's frame is pushed; asked once more if memory was refused.
fn is_pushed<L: Origin, R: Wait + Drop, W: Wait>(
    rt: &W,
    line: &Line<L, MemJournal, R>,
    seat: &mut Seat<L>,
) -> bool {
    for _ in 0..2 {
        if let Ok(Some(packet)) = line.push(rt, seat, 0, 0) {
            return packet.bytes() == FRAME.as_slice();
        }
    }
    false
}

/// Whether a Want of worker 0's frames is answered with the row's; asked once more if memory was refused.
fn is_answered<L: Origin, R: Wait + Drop, W: Wait>(
    rt: &W,
    line: &Line<L, MemJournal, R>,
    seat: &mut Seat<L>,
) -> bool {
    for _ in 0..2 {
        if let Ok(outs) = line.on_bytes(rt, seat, &WANT) {
            return outs.len() == 1 && outs[0].packet.bytes() == FRAME.as_slice();
        }
    }
    false
}

/// Whether a base of one piece is taken, and then no frame is pushed: at once, or nothing has changed and it is
/// the next time.
fn is_based<L: Origin, R: Wait + Drop, W: Wait>(
    rt: &W,
    line: &Line<L, MemJournal, R>,
    seat: &mut Seat<L>,
) -> bool {
    let taken = match line.take_base(rt, seat) {
        Ok(taken) => Ok(taken),
        Err(error) => {
            if is_pushed(rt, line, seat) {
                line.take_base(rt, seat)
            } else {
                Err(error)
            }
        }
    };
    match taken {
        Ok((base, pieces)) => base == 1 && pieces == 1 && !is_pushed(rt, line, seat),
        Err(_) => false,
    }
}

/// Whether the row is committed, made durable and settled.
fn is_kept<L: Origin, R: Wait + Drop, W: Wait>(
    rt: &W,
    alloc: Global,
    line: &Line<L, MemJournal, R>,
    seat: &mut Seat<L>,
) -> bool
    requires { 0 < L.workers }
{
    match committed(rt, alloc, line, seat) {
        Some(ticket) => is_flushed(rt, line, seat, &ticket) && is_settled(rt, line, seat, &ticket),
        None => false,
    }
}

/// Whether a row is committed, made durable, settled, changed and sent at this seat, and becomes a base.
fn is_served_at<L: Origin, R: Wait + Drop, W: Wait>(
    rt: &W,
    alloc: Global,
    line: &Line<L, MemJournal, R>,
    seat: &mut Seat<L>,
) -> bool
    requires { 0 < L.workers }
{
    is_kept(rt, alloc, line, seat)
        && is_changed(alloc, seat)
        && is_pushed(rt, line, seat)
        && is_answered(rt, line, seat)
        && is_based(rt, line, seat)
}

/// The same at a seat of this line.
fn is_served_on<L: Origin, R: Wait + Drop, W: Wait>(
    rt: &W,
    alloc: Global,
    line: &Line<L, MemJournal, R>,
) -> bool
    requires { 0 < L.workers }
{
    match line.seat(rt) {
        Some(mut seat) => is_served_at(rt, alloc, line, &mut seat),
        None => false,
    }
}

/// Whether a row is committed, made durable, settled, changed and sent, and becomes a base, whichever request is
/// refused. A line that is not made for want of memory hands its primary back.
fn is_served<L: Origin, R: Wait>(
    rt: &R,
    alloc: Global,
    core: PrimaryCore<MemJournal>,
    start: Start,
) -> bool
    requires book { start.opened.seen.book ≡ L.book }
    requires schema { core.primary.schema ≡ L.schema }
    requires workers { core.primary.workers ≡ L.workers }
    requires first { core.primary ≡ L.first }
    requires name { start.blank.name ≡ L.name }
    requires parts { start.blank.parts ≡ L.parts }
    requires seats { start.seats ≡ L.seats }
{
    core.keeps_legal();
    match Line::<L, MemJournal, &R>::new(alloc, rt, core, start) {
        Ok(line) => is_served_on(rt, alloc, &line),
        Err((core, fault)) => fault == NewFault::Memory && core.durable() == 0,
    }
}

/// The same of a new primary.
fn is_new_served<R: Wait>(rt: &R, alloc: Global) -> Result<bool, Fail> {
    let start = there(made(Start::new(1)), "start")?;
    match core_on(alloc, MemJournal::new(alloc)) {
        Ok(core) => Ok(is_served::<Brand, R>(rt, alloc, core, start)),
        Err(fail) => Err(fail),
    }
}

#[test]
fn a_line_without_memory_serves_when_asked_again(rt: HostRuntime) -> Result<(), Fail> {
    assert!(rt; is_new_served(&rt, rt.alloc())?);
    Ok(())
}
