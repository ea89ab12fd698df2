//! Rows of packets that are pushed at a seat, each as its packets are when they are pushed one by one,
//! before a base is taken and behind it.

ghost use Rattle.std.specs.Prelude.{◌≡◌, ◌<◌};

use crate::cores::core_on;
use crate::outcomes::{made, there};
use journal::MemJournal;
use primary::PrimaryCore;
use rows::{RowId, Value};
use shared::{Flushed, Line, Origin, Seat, Start};
use std::alloc::Global;
use std::marker::Brand;
use std::sync::Wait;
use std::test::Fail;
use wire::Packet;

/// Commits of worker 0, each of one frame.
const FRAMES: u64 = 3;

/// Rows of worker 0: where each begins, how many packets it is to have at most, and how many it has.
const ROWS: [(u64, usize, usize); 9] = [
    (0, 3, 3),
    (0, 2, 2),
    (0, 9, 3),
    (1, 1, 1),
    (1, 0, 0),
    (2, 4, 1),
    (3, 4, 0),
    (7, 4, 0),
    (u64::MAX, 4, 0),
];

/// Rows of worker 0 once these frames are dropped and as many have come behind them: where each is asked for,
/// how many packets it is to have at most, where it begins, and how many it has.
const ROWS_BEHIND: [(u64, usize, u64, usize); 6] = [
    (0, 9, 3, 3),
    (0, 2, 3, 2),
    (2, 0, 3, 0),
    (3, 9, 3, 3),
    (5, 9, 5, 1),
    (6, 9, 6, 0),
];

/// Whether a row is put in by one commit of worker 0.
fn commits<L: Origin, R: Wait + Drop, W: Wait>(
    rt: &W,
    alloc: Global,
    line: &Line<L, MemJournal, R>,
    seat: &mut Seat<L>,
    id: u64,
) -> bool
    requires { 0 < L.workers }
{
    let Some(mut transaction) = made(seat.begin(alloc)) else {
        return false;
    };
    let values = [Value::Int(5), Value::Int(-1)];
    seat.insert(&mut transaction, 0, RowId(id), &values).is_ok()
        && made(line.commit(rt, seat, transaction, 0)).is_some()
}

/// Whether the commits of worker 0 with these rows are made, and with those before them are durable.
fn is_filled<L: Origin, R: Wait + Drop, W: Wait>(
    rt: &W,
    alloc: Global,
    line: &Line<L, MemJournal, R>,
    seat: &mut Seat<L>,
    first: u64,
    end: u64,
) -> bool
    requires { 0 < L.workers }
{
    for id in first..end {
        if !commits(rt, alloc, line, seat, id) {
            return false;
        }
    }
    line.flush(rt, seat, usize::MAX) == Ok(Flushed::Published(end))
}

/// Whether this packet is the one that is pushed for that seq; for none, whether none is pushed.
fn is_pushed<L: Origin, R: Wait + Drop, W: Wait>(
    rt: &W,
    line: &Line<L, MemJournal, R>,
    seat: &mut Seat<L>,
    worker: u8,
    seq: u64,
    packet: Option<&Packet>,
) -> bool {
    match line.push(rt, seat, worker, seq) {
        Ok(Some(pushed)) => match packet {
            Some(packet) => pushed.bytes() == packet.bytes(),
            None => false,
        },
        Ok(None) => packet.is_none(),
        Err(_) => false,
    }
}

/// Whether a row that begins at that seq has its packets as each is pushed alone, and after a row with fewer
/// than `most` none is pushed.
fn is_row<L: Origin, R: Wait + Drop, W: Wait>(
    rt: &W,
    line: &Line<L, MemJournal, R>,
    seat: &mut Seat<L>,
    row: &[Packet],
    worker: u8,
    start: u64,
    most: usize,
) -> bool {
    for index in 0..most.min(row.len().saturating_add(1)) {
        let seq = start.saturating_add(index as u64);
        if !is_pushed(rt, line, seat, worker, seq, row.get(index)) {
            return false;
        }
    }
    row.len() <= most
}

/// Where the row that is pushed begins, and its length, if each packet is as it is pushed alone.
fn pushed_row<L: Origin, R: Wait + Drop, W: Wait>(
    rt: &W,
    line: &Line<L, MemJournal, R>,
    seat: &mut Seat<L>,
    row: &mut Vec<Packet>,
    worker: u8,
    from: u64,
    most: usize,
) -> Option<(u64, usize)> {
    match line.push_row(rt, seat, worker, from, most, row) {
        Ok(start) if is_row(rt, line, seat, row, worker, start, most) => Some((start, row.len())),
        _ => None,
    }
}

/// Whether each row has as many packets as are written here, one after the other in the same room, and a
/// worker without commits has none.
fn are_rows<L: Origin, R: Wait + Drop, W: Wait>(
    rt: &W,
    alloc: Global,
    line: &Line<L, MemJournal, R>,
    seat: &mut Seat<L>,
) -> bool {
    let mut row = Vec::new(alloc);
    for (from, most, len) in ROWS {
        if pushed_row(rt, line, seat, &mut row, 0, from, most) != Some((from, len)) {
            return false;
        }
    }
    pushed_row(rt, line, seat, &mut row, 0, 0, 3) == Some((0, 3))
        && pushed_row(rt, line, seat, &mut row, 1, 0, 3) == Some((0, 0))
}

/// Whether each row behind the base is as it is written here, no dropped frame is pushed, and a worker without
/// commits has no row.
fn are_rows_behind<L: Origin, R: Wait + Drop, W: Wait>(
    rt: &W,
    alloc: Global,
    line: &Line<L, MemJournal, R>,
    seat: &mut Seat<L>,
) -> bool {
    let mut row = Vec::new(alloc);
    for (from, most, start, len) in ROWS_BEHIND {
        if pushed_row(rt, line, seat, &mut row, 0, from, most) != Some((start, len)) {
            return false;
        }
    }
    is_pushed(rt, line, seat, 0, FRAMES - 1, None)
        && pushed_row(rt, line, seat, &mut row, 1, 0, 3) == Some((0, 0))
}

/// Whether a base is taken of all frames.
fn is_based<L: Origin, R: Wait + Drop, W: Wait>(
    rt: &W,
    line: &Line<L, MemJournal, R>,
    seat: &mut Seat<L>,
) -> bool {
    match line.take_base(rt, seat) {
        Ok((base, pieces)) => base == FRAMES && pieces == 1,
        Err(_) => false,
    }
}

/// Whether a row has no packet, before anything is durable.
fn is_nothing_pushed<L: Origin, R: Wait + Drop, W: Wait>(
    rt: &W,
    alloc: Global,
    line: &Line<L, MemJournal, R>,
    seat: &mut Seat<L>,
) -> bool {
    let mut row = Vec::new(alloc);
    pushed_row(rt, line, seat, &mut row, 0, 0, 3) == Some((0, 0))
}

/// Whether rows are pushed so at this seat: before anything is durable none, then those of three frames,
/// and once these are dropped those of the next three.
fn is_pushed_at<L: Origin, R: Wait + Drop, W: Wait>(
    rt: &W,
    alloc: Global,
    line: &Line<L, MemJournal, R>,
    seat: &mut Seat<L>,
) -> bool
    requires { 0 < L.workers }
{
    is_nothing_pushed(rt, alloc, line, seat)
        && is_filled(rt, alloc, line, seat, 0, FRAMES)
        && are_rows(rt, alloc, line, seat)
        && is_based(rt, line, seat)
        && is_filled(rt, alloc, line, seat, FRAMES, 2 * FRAMES)
        && are_rows_behind(rt, alloc, line, seat)
}

/// Whether rows are pushed so at a seat of this line.
fn is_pushed_on<L: Origin, R: Wait + Drop, W: Wait>(
    rt: &W,
    alloc: Global,
    line: &Line<L, MemJournal, R>,
) -> bool
    requires { 0 < L.workers }
{
    match line.seat(rt) {
        Some(mut seat) => is_pushed_at(rt, alloc, line, &mut seat),
        None => false,
    }
}

/// Whether rows are pushed so on a line of this primary.
fn is_pushed_in_rows<L: Origin, R: Wait>(
    rt: &R,
    alloc: Global,
    core: PrimaryCore<MemJournal>,
    start: Start,
) -> bool
    requires book { start.opened.seen.book ≡ L.book }
    requires schema { core.primary.schema ≡ L.schema }
    requires workers { core.primary.workers ≡ L.workers }
    requires first { core.primary ≡ L.first }
    requires name { start.blank.name ≡ L.name }
    requires parts { start.blank.parts ≡ L.parts }
    requires seats { start.seats ≡ L.seats }
{
    core.keeps_legal();
    match made(Line::<L, MemJournal, &R>::new(alloc, rt, core, start)) {
        Some(line) => {
            let is_pushed = is_pushed_on(rt, alloc, &line);
            drop(line);
            is_pushed
        }
        None => false,
    }
}

/// The same of a new primary.
fn is_new_pushed_in_rows<R: Wait>(rt: &R, alloc: Global) -> Result<bool, Fail> {
    let start = there(made(Start::new(1)), "start")?;
    match core_on(alloc, MemJournal::new(alloc)) {
        Ok(core) => Ok(is_pushed_in_rows::<Brand, R>(rt, alloc, core, start)),
        Err(fail) => Err(fail),
    }
}

#[test]
fn a_row_has_the_packets_that_are_pushed_one_by_one(rt: HostRuntime) -> Result<(), Fail> {
    assert!(rt; is_new_pushed_in_rows(&rt, rt.alloc())?);
    Ok(())
}
