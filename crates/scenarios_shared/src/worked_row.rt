//! One row that is put in at one seat and read at another.

ghost use Rattle.std.specs.Prelude.{◌≡◌, ◌<◌};

use crate::cores::core_on;
use crate::outcomes::{made, there};
use journal::MemJournal;
use mvcc::{Transaction, TxFault};
use primary::{PrimaryCore, Ticket};
use published::LineFault;
use rows::{RowId, Value};
use scenarios_common::worker_datagrams::FRAME;
use shared::{Flushed, Line, Origin, Seat, Settled, Start};
use std::alloc::Global;
use std::marker::Brand;
use std::sync::Wait;
use std::test::Fail;

/// Whether a transaction puts in row 7 with the values 5 and -1.
fn inserts<L: Origin>(seat: &mut Seat<L>, transaction: &mut Transaction) -> bool {
    let values = [Value::Int(5), Value::Int(-1)];
    seat.insert(transaction, 0, RowId(7), &values).is_ok()
}

/// The ticket of a commit that puts in row 7 with the values 5 and -1, for worker 0.
fn inserted<L: Origin, R: Wait + Drop, W: Wait>(
    rt: &W,
    alloc: Global,
    line: &Line<L, MemJournal, R>,
    seat: &mut Seat<L>,
) -> Option<Ticket>
    requires { 0 < L.workers }
{
    let Some(mut transaction) = made(seat.begin(alloc)) else {
        return None;
    };
    if !inserts(seat, &mut transaction) {
        return None;
    }
    made(line.commit(rt, seat, transaction, 0))
}

/// Whether the first packet of worker 0's stream has these bytes, or there is none.
fn is_pushed<L: Origin, R: Wait + Drop, W: Wait>(
    rt: &W,
    line: &Line<L, MemJournal, R>,
    seat: &mut Seat<L>,
    expected: Option<&[u8]>,
) -> bool {
    match line.push(rt, seat, 0, 0) {
        Ok(Some(packet)) => expected == Some(packet.bytes()),
        Ok(None) => expected.is_none(),
        Err(_) => false,
    }
}

/// Whether a transaction that begins now has a snapshot with the row, and finds 5 in its first column.
fn reads_five<L: Origin>(alloc: Global, seat: &mut Seat<L>) -> bool {
    let Some(transaction) = made(seat.begin(alloc)) else {
        return false;
    };
    transaction.snapshot() >= 1 && seat.value(&transaction, 0, RowId(7), 0) == Ok(Value::Int(5))
}

/// Whether a transaction that begins now adds a column to the table, and finds its value in the row.
fn adds_column<L: Origin>(alloc: Global, seat: &mut Seat<L>) -> bool {
    let Some(mut transaction) = made(seat.begin(alloc)) else {
        return false;
    };
    seat.add_column(&mut transaction, 0, Value::Int(3)) == Ok(())
        && seat.value(&transaction, 0, RowId(7), 2) == Ok(Value::Int(3))
}

/// Whether the row is pending and nothing of it is sent, and after a flush is durable and sent.
fn is_flushed<L: Origin, R: Wait + Drop, W: Wait>(
    rt: &W,
    line: &Line<L, MemJournal, R>,
    reader: &mut Seat<L>,
    writer: &mut Seat<L>,
    ticket: &Ticket,
) -> bool {
    ticket.number == 1
        && line.settle(rt, writer, ticket) == Settled::NotYet
        && is_pushed(rt, line, reader, None)
        && line.flush(rt, writer, usize::MAX) == Ok(Flushed::Published(1))
        && line.settle(rt, writer, ticket) == Settled::Settled(1)
        && is_pushed(rt, line, reader, Some(&FRAME))
}

/// Whether the row becomes a base of one piece, also when it is taken again, and its frame is dropped.
fn is_based<L: Origin, R: Wait + Drop, W: Wait>(
    rt: &W,
    line: &Line<L, MemJournal, R>,
    seat: &mut Seat<L>,
) -> bool {
    for _ in 0..2 {
        let Ok((base, pieces)) = line.take_base(rt, seat) else {
            return false;
        };
        if base != 1 || pieces != 1 || !is_pushed(rt, line, seat, None) {
            return false;
        }
    }
    true
}

/// Whether a transaction that began on nothing finds no row once the reader met the writer, and one that
/// begins then finds the row, also in a base.
fn is_read<L: Origin, R: Wait + Drop, W: Wait>(
    rt: &W,
    alloc: Global,
    line: &Line<L, MemJournal, R>,
    reader: &mut Seat<L>,
    writer: &mut Seat<L>,
    old: &Transaction,
) -> bool {
    reader.meet(writer);
    reader.value(old, 0, RowId(7), 0) == Err(LineFault::Tx(TxFault::Missing))
        && reads_five(alloc, reader)
        && adds_column(alloc, reader)
        && is_based(rt, line, reader)
}

/// Whether the row is committed, and made durable.
fn is_written<L: Origin, R: Wait + Drop, W: Wait>(
    rt: &W,
    alloc: Global,
    line: &Line<L, MemJournal, R>,
    reader: &mut Seat<L>,
    writer: &mut Seat<L>,
) -> bool
    requires { 0 < L.workers }
{
    match inserted(rt, alloc, line, writer) {
        Some(ticket) => is_flushed(rt, line, reader, writer, &ticket),
        None => false,
    }
}

/// Whether each answer of the two seats is the one that is written here.
fn is_told<L: Origin, R: Wait + Drop, W: Wait>(
    rt: &W,
    alloc: Global,
    line: &Line<L, MemJournal, R>,
    reader: &mut Seat<L>,
    writer: &mut Seat<L>,
) -> bool
    requires { 0 < L.workers }
{
    let Some(old) = made(reader.begin(alloc)) else {
        return false;
    };
    is_written(rt, alloc, line, reader, writer)
        && old.snapshot() == 0
        && is_read(rt, alloc, line, reader, writer, &old)
}

/// The seats, and one more; `None` if there is no memory for it.
fn with<T: Drop>(mut seats: Vec<T>, seat: T) -> Option<Vec<T>> {
    if seats.push(seat).is_err() {
        return None;
    }
    Some(seats)
}

/// What is handed back, if something is.
fn back<T: Drop, B: Drop>(outcome: Result<T, B>) -> Option<B> {
    match outcome {
        Ok(_) => None,
        Err(back) => Some(back),
    }
}

/// The line and its seats, which are handed back if it is to end with these.
fn handed_back<L: Origin, R: Wait + Drop>(
    line: Line<L, MemJournal, R>,
    seats: Option<Vec<Seat<L>>>,
) -> Option<(Line<L, MemJournal, R>, Vec<Seat<L>>)>
    requires { L.parts ≡ L.seats }
{
    match seats {
        Some(seats) => back(line.end(seats)),
        None => None,
    }
}

/// Whether the line ends with these seats, and its primary then has one durable commit.
fn ends<L: Origin, R: Wait + Drop>(
    line: Line<L, MemJournal, R>,
    seats: Option<Vec<Seat<L>>>,
) -> bool
    requires { L.parts ≡ L.seats }
{
    let Some(seats) = seats else {
        return false;
    };
    match made(line.end(seats)) {
        Some(core) => core.durable() == 1,
        None => false,
    }
}

/// Whether the line is handed back while a seat is missing, and ends with both.
fn is_ended<L: Origin, R: Wait + Drop>(
    alloc: Global,
    line: Line<L, MemJournal, R>,
    reader: Seat<L>,
    writer: Seat<L>,
) -> bool
    requires { L.parts ≡ L.seats }
{
    match handed_back(line, with(Vec::new(alloc), reader)) {
        Some((line, seats)) => seats.len() == 1 && ends(line, with(seats, writer)),
        None => false,
    }
}

/// Two seats of a line.
fn two_seats<L: Origin, R: Wait + Drop, W: Wait>(
    rt: &W,
    line: &Line<L, MemJournal, R>,
) -> Option<(Seat<L>, Seat<L>)> {
    both(line.seat(rt), line.seat(rt))
}

/// Both, if they are there.
fn both<T: Drop>(first: Option<T>, second: Option<T>) -> Option<(T, T)> {
    match (first, second) {
        (Some(first), Some(second)) => Some((first, second)),
        _ => None,
    }
}

/// Whether all goes so on this line.
fn is_worked_on<L: Origin, R: Wait + Drop, W: Wait>(
    rt: &W,
    alloc: Global,
    line: Line<L, MemJournal, R>,
) -> bool
    requires some { 0 < L.workers }
    requires whole { L.parts ≡ L.seats }
{
    let Some((mut reader, mut writer)) = two_seats(rt, &line) else {
        return false;
    };
    is_told(rt, alloc, &line, &mut reader, &mut writer) && is_ended(alloc, line, reader, writer)
}

/// Whether all goes so on a line of this primary.
fn is_worked<L: Origin, R: Wait>(
    rt: &R,
    alloc: Global,
    core: PrimaryCore<MemJournal>,
    start: Start,
) -> bool
    requires book { start.opened.seen.book ≡ L.book }
    requires schema { core.primary.schema ≡ L.schema }
    requires workers { core.primary.workers ≡ L.workers }
    requires first { core.primary ≡ L.first }
    requires name { start.blank.name ≡ L.name }
    requires parts { start.blank.parts ≡ L.parts }
    requires seats { start.seats ≡ L.seats }
    requires whole { L.parts ≡ L.seats }
{
    core.keeps_legal();
    match made(Line::<L, MemJournal, &R>::new(alloc, rt, core, start)) {
        Some(line) => is_worked_on(rt, alloc, line),
        None => false,
    }
}

/// The same of a new primary.
fn is_new_worked<R: Wait>(rt: &R, alloc: Global) -> Result<bool, Fail> {
    let start = there(made(Start::new(2)), "start")?;
    match core_on(alloc, MemJournal::new(alloc)) {
        Ok(core) => Ok(is_worked::<Brand, R>(rt, alloc, core, start)),
        Err(fail) => Err(fail),
    }
}

#[test]
fn a_row_goes_from_seat_to_seat(rt: HostRuntime) -> Result<(), Fail> {
    assert!(rt; is_new_worked(&rt, rt.alloc())?);
    Ok(())
}
