//! A primary's node that serves while bases are taken: frames that were dropped before they were pushed are
//! skipped, and each other one is pushed once.

ghost use Rattle.std.specs.Prelude.{◌≡◌, ◌<◌};

use crate::cores::{core_of, some};
use journal::MemJournal;
use mvcc::Transaction;
use primary::PrimaryCore;
use rows::{RowId, Value};
use shared::{Line, Origin, Seat, Start};
use sockets::{MemPort, PrimaryNode};
use std::alloc::Global;
use std::marker::Brand;
use std::sync::Wait;
use std::test::Fail;

/// What is done at the line, or by its node.
#[derive(Clone, Copy)]
enum Step {
    /// Worker 0 puts in a row, by a commit of one frame that is made durable.
    Commit,
    /// What is durable becomes the base.
    Base,
    /// The node takes a turn.
    Turn,
}

/// Frames 0 and 2 are dropped before the node takes a turn, frame 1 after it was pushed.
const STEPS: [Step; 12] = [
    Step::Turn,
    Step::Commit,
    Step::Base,
    Step::Commit,
    Step::Turn,
    Step::Base,
    Step::Turn,
    Step::Commit,
    Step::Base,
    Step::Turn,
    Step::Commit,
    Step::Turn,
];

/// The seqs of the frames that are pushed.
const PUSHED: [u8; 2] = [1, 3];

/// Makes a row with 5 and -1 durable, by worker 0.
pub fn inserts<L: Origin, R: Wait>(
    rt: &R,
    alloc: Global,
    line: &Line<L, MemJournal, &R>,
    seat: &mut Seat<L>,
    row: u64,
) -> Option<()>
    requires { 0 < L.workers }
{
    let transaction = row_of(alloc, seat, row)?;
    some(line.commit(rt, seat, transaction, 0))?;
    some(line.flush(rt, seat, usize::MAX))?;
    Some(())
}

/// A transaction that puts in a row with 5 and -1.
pub fn row_of<L: Origin>(alloc: Global, seat: &mut Seat<L>, row: u64) -> Option<Transaction> {
    let Ok(mut transaction) = seat.begin(alloc) else {
        return None;
    };
    if is_put(seat, &mut transaction, row) {
        Some(transaction)
    } else {
        None
    }
}

/// Whether the row is put in.
fn is_put<L: Origin>(seat: &mut Seat<L>, transaction: &mut Transaction, row: u64) -> bool {
    let values = [Value::Int(5), Value::Int(-1)];
    seat.insert(transaction, 0, RowId(row), &values).is_ok()
}

/// Takes a step.
fn takes<L: Origin, R: Wait>(
    rt: &R,
    alloc: Global,
    line: &Line<L, MemJournal, &R>,
    seat: &mut Seat<L>,
    node: &mut PrimaryNode<L, MemPort>,
    step: Step,
    row: u64,
) -> Option<()>
    requires { 0 < L.workers }
{
    match step {
        Step::Commit => inserts(rt, alloc, line, seat, row),
        Step::Base => match line.take_base(rt, seat) {
            Ok(_) => Some(()),
            Err(_) => None,
        },
        Step::Turn => node.turn(rt, line).ok(),
    }
}

/// Whether the node has sent frames of these seqs, and nothing else.
fn has_pushed<L: Origin>(node: &PrimaryNode<L, MemPort>, seqs: &[u8]) -> bool {
    let sent = node.port().sent();
    if sent.len() != seqs.len() {
        return false;
    }
    for k in 0..sent.len() {
        // The kind of a frame, and the last byte of its seq.
        let bytes = sent[k].packet.bytes();
        if bytes.get(3) != Some(&1) || bytes.get(14) != Some(&seqs[k]) {
            return false;
        }
    }
    true
}

/// Whether a node that takes the steps pushes just these frames.
fn pushes_these<L: Origin, R: Wait>(
    rt: &R,
    alloc: Global,
    line: &Line<L, MemJournal, &R>,
    seat: &mut Seat<L>,
    node: &mut PrimaryNode<L, MemPort>,
) -> Option<bool>
    requires { 0 < L.workers }
{
    let mut row: u64 = 0;
    for step in &STEPS {
        takes(rt, alloc, line, seat, node, *step, row)?;
        row = row.saturating_add(1);
    }
    Some(has_pushed(node, &PUSHED))
}

/// Whether a node of a line pushes so, beside a seat that commits.
fn pushes_on<L: Origin, R: Wait>(
    rt: &R,
    alloc: Global,
    line: &Line<L, MemJournal, &R>,
) -> Option<bool>
    requires { 0 < L.workers }
{
    let Some(mut seat) = line.seat(rt) else {
        return None;
    };
    let Some(of_node) = line.seat(rt) else {
        return None;
    };
    pushes_beside(rt, alloc, line, &mut seat, of_node)
}

/// The same of a node at a seat of its own.
fn pushes_beside<L: Origin, R: Wait>(
    rt: &R,
    alloc: Global,
    line: &Line<L, MemJournal, &R>,
    seat: &mut Seat<L>,
    of_node: Seat<L>,
) -> Option<bool>
    requires { 0 < L.workers }
{
    let Ok(mut node) = PrimaryNode::new(alloc, of_node, MemPort::new(alloc), 2) else {
        return None;
    };
    let pushed = pushes_these(rt, alloc, line, seat, &mut node);
    drop(node);
    pushed
}

/// Whether a node pushes so, on a line of this primary.
fn pushes_so<L: Origin, R: Wait>(
    rt: &R,
    alloc: Global,
    core: PrimaryCore<MemJournal>,
    start: Start,
) -> Option<bool>
    requires book { start.opened.seen.book ≡ L.book }
    requires schema { core.primary.schema ≡ L.schema }
    requires workers { core.primary.workers ≡ L.workers }
    requires first { core.primary ≡ L.first }
    requires name { start.blank.name ≡ L.name }
    requires parts { start.blank.parts ≡ L.parts }
    requires seats { start.seats ≡ L.seats }
{
    core.keeps_legal();
    let Some(line) = some(Line::<L, MemJournal, &R>::new(alloc, rt, core, start)) else {
        return None;
    };
    let pushed = pushes_on(rt, alloc, &line);
    drop(line);
    pushed
}

/// The same on a new line of two seats.
fn pushes_on_new<R: Wait>(rt: &R, alloc: Global, core: PrimaryCore<MemJournal>) -> Option<bool>
    requires { core.primary.workers ≡ 2 }
{
    match Start::new(2) {
        Ok(start) => pushes_so::<Brand, R>(rt, alloc, core, start),
        Err(_) => None,
    }
}

#[test]
fn frames_below_a_base_are_skipped(rt: HostRuntime) -> Result<(), Fail> {
    let core = core_of(rt.alloc())?;
    let pushed = pushes_on_new(&rt, rt.alloc(), core);
    assert_eq!(rt; pushed, Some(true));
    Ok(())
}
