//! Drawn calls of three seats that never meet, on one thread: each is answered as by a primary of its
//! own that takes the same calls.

ghost use Rattle.std.specs.Prelude.{◌≡◌, ◌<◌, ◌≤◌};

use crate::cores::core_on;
use crate::outcomes::{is_added, made, put, there};
use journal::MemJournal;
use mvcc::{Transaction, TxFault};
use primary::{CommitFault, FlushFault, PrimaryCore, Ticket};
use published::LineFault;
use rows::{RowId, Value};
use scenarios_common::drawn_numbers::draw;
use scenarios_common::worker_datagrams::{ask_of, pull_of, want_of};
use shared::{Flushed, Line, Origin, Seat, Settled, Start};
use std::alloc::{AllocError, Global};
use std::marker::Brand;
use std::mem;
use std::sync::Wait;
use std::test::Fail;
use wire::{Out, Packet};

/// Calls that are drawn.
const CALLS: usize = 10_000;

/// The seeds from which the calls are drawn.
const SEEDS: [u64; 2] = [7, 2024];

/// A seat, a transaction that it began, and the same transaction on the other primary.
#[derive(Drop)]
struct Player<L: Origin> {
    seat: Seat<L>,
    transaction: Transaction,
    plain: Transaction,
    number: u8,
}

/// What a transaction's refusal is called at a seat.
fn at_seat<T>(answer: Result<T, TxFault>) -> Result<T, LineFault> {
    answer.map_err(LineFault::Tx)
}

/// What a commit was answered: the ticket, or the fault with how many entries were handed back.
fn told(
    answer: Result<Ticket, (Transaction, CommitFault)>,
) -> Result<Ticket, (usize, CommitFault)> {
    match answer {
        Ok(ticket) => Ok(ticket),
        Err((transaction, fault)) => Err((transaction.entries().len(), fault)),
    }
}

/// Whether two commits were answered the same.
fn is_same(
    answer: &Result<Ticket, (usize, CommitFault)>,
    other: &Result<Ticket, (usize, CommitFault)>,
) -> bool {
    match (answer, other) {
        (Ok(ticket), Ok(other)) => ticket.number == other.number
            && ticket.worker == other.worker
            && ticket.entries == other.entries,
        (Err(refusal), Err(other)) => refusal == other,
        _ => false,
    }
}

/// Keeps the ticket, if there is one. Whether there is memory for it.
fn is_kept(answer: Result<Ticket, (usize, CommitFault)>, tickets: &mut Vec<Ticket>) -> bool {
    match answer {
        Ok(ticket) => tickets.push(ticket).is_ok(),
        Err(_) => true,
    }
}

/// Whether a flush was answered the same, and all was published.
fn is_flushed_same(answer: Result<Flushed, FlushFault>, other: Result<u64, FlushFault>) -> bool {
    match (answer, other) {
        (Ok(Flushed::Published(durable)), Ok(other)) => durable == other,
        (Err(fault), Err(other)) => fault == other,
        _ => false,
    }
}

/// What has become of a ticket's commit at a primary.
fn settled_at(core: &PrimaryCore<MemJournal>, ticket: &Ticket) -> Settled {
    if ticket.number > core.durable() {
        return Settled::NotYet;
    }
    match core.versions().commit_at(ticket.number) {
        Some(commit) if commit.worker == ticket.worker && commit.entries == ticket.entries => {
            Settled::Settled(ticket.number)
        }
        _ => Settled::Lost,
    }
}

/// Whether a packet has the same bytes, or there is none in either.
fn is_pushed_same(answer: &Result<Option<Packet>, AllocError>, other: &Option<Packet>) -> bool {
    match (answer, other) {
        (Ok(Some(packet)), Some(other)) => packet.bytes() == other.bytes(),
        (Ok(None), None) => true,
        _ => false,
    }
}

/// Whether the same is sent.
fn is_sent_same(outs: &[Out], others: &[Out]) -> bool {
    outs.len() == others.len()
        && outs.iter().zip(others.iter()).all(|(out, other)| out.to == other.to
            && out.packet.bytes() == other.packet.bytes())
}

/// Whether a primary sends this for these bytes.
fn is_sent_by(core: &PrimaryCore<MemJournal>, bytes: &[u8], outs: &[Out]) -> bool {
    match core.on_bytes(bytes) {
        Ok(others) => is_sent_same(outs, &others),
        Err(_) => false,
    }
}

impl<L: Origin> Player<L> {
    /// The worker, by the player's number.
    fn worker(&self) -> u8
        ensures { result ≤ 1 }
    {
        self.number % 2
    }

    /// Begins anew, and answers whether that is at what is durable.
    fn begins(&mut self, alloc: Global, core: &PrimaryCore<MemJournal>) -> bool {
        let Some(transaction) = made(self.seat.begin(alloc)) else {
            return false;
        };
        put(&mut self.transaction, transaction);
        put(&mut self.plain, Transaction::begin(alloc, core.durable()));
        self.transaction.snapshot() == core.durable()
    }

    /// Whether the transactions answer the same value of a row, and have as many entries.
    fn reads(&mut self, core: &PrimaryCore<MemJournal>, row: u64, column: usize) -> bool {
        let Player {
            seat,
            transaction,
            plain,
            ..
        } = self;
        if plain.snapshot() > core.versions().len() {
            return false;
        }
        let answer = seat.value(transaction, 0, RowId(row), column);
        answer == at_seat(plain.get(core.versions(), 0, RowId(row), column))
            && transaction.entries() == plain.entries()
    }

    /// Whether an insert is answered the same.
    fn inserts(&mut self, core: &PrimaryCore<MemJournal>, row: u64, value: i64) -> bool {
        let Player {
            seat,
            transaction,
            plain,
            ..
        } = self;
        if plain.snapshot() > core.versions().len() {
            return false;
        }
        let values = [Value::Int(value), Value::Int(-1)];
        let answer = seat.insert(transaction, 0, RowId(row), &values);
        answer == at_seat(plain.insert(core.versions(), 0, RowId(row), &values))
    }

    /// Whether a change of a row is answered the same.
    fn sets(
        &mut self,
        core: &PrimaryCore<MemJournal>,
        row: u64,
        column: usize,
        value: i64,
    ) -> bool {
        let Player {
            seat,
            transaction,
            plain,
            ..
        } = self;
        if plain.snapshot() > core.versions().len() {
            return false;
        }
        let answer = seat.set(transaction, 0, RowId(row), column, Value::Int(value));
        answer == at_seat(plain.set(core.versions(), 0, RowId(row), column, Value::Int(value)))
    }

    /// Whether a delete is answered the same.
    fn deletes(&mut self, core: &PrimaryCore<MemJournal>, row: u64) -> bool {
        let Player {
            seat,
            transaction,
            plain,
            ..
        } = self;
        if plain.snapshot() > core.versions().len() {
            return false;
        }
        let answer = seat.delete(transaction, 0, RowId(row));
        answer == at_seat(plain.delete(core.versions(), 0, RowId(row)))
    }

    /// Whether a call of the transaction that is drawn is answered the same.
    fn changes(&mut self, core: &PrimaryCore<MemJournal>, state: &mut u64) -> bool {
        let row = draw(state, 8) as u64;
        let column = draw(state, 3);
        let value = draw(state, 9) as i64;
        match draw(state, 7) {
            0 | 1 => self.inserts(core, row, value),
            2 | 3 => self.sets(core, row, column, value),
            4 => self.deletes(core, row),
            _ => self.reads(core, row, column),
        }
    }

    /// Commits the seat's transaction.
    fn committed<R: Wait + Drop, W: Wait>(
        &mut self,
        rt: &W,
        alloc: Global,
        line: &Line<L, MemJournal, R>,
    ) -> Result<Ticket, (usize, CommitFault)>
        requires { 1 < L.workers }
    {
        let worker = self.worker();
        let mine = mem::replace(&mut self.transaction, Transaction::begin(alloc, 0));
        told(line.commit(rt, &mut self.seat, mine, worker))
    }

    /// Commits the same transaction on the other primary. One that lacks a worker answers as no line does.
    fn committed_plain(
        &mut self,
        alloc: Global,
        core: &mut PrimaryCore<MemJournal>,
    ) -> Result<Ticket, (usize, CommitFault)> {
        if core.workers() < 2 {
            return Err((usize::MAX, CommitFault::Failed));
        }
        let worker = self.worker();
        let plain = mem::replace(&mut self.plain, Transaction::begin(alloc, 0));
        told(core.commit(plain, worker))
    }

    /// Whether the commit of the transactions is answered the same. The player begins anew then.
    fn commits<R: Wait + Drop, W: Wait>(
        &mut self,
        rt: &W,
        alloc: Global,
        line: &Line<L, MemJournal, R>,
        core: &mut PrimaryCore<MemJournal>,
        tickets: &mut Vec<Ticket>,
    ) -> bool
        requires { 1 < L.workers }
    {
        let answer = self.committed(rt, alloc, line);
        if !is_same(&answer, &self.committed_plain(alloc, core)) {
            return false;
        }
        is_kept(answer, tickets) && self.begins(alloc, core)
    }

    /// Whether a flush is answered the same.
    fn flushes<R: Wait + Drop, W: Wait>(
        &mut self,
        rt: &W,
        line: &Line<L, MemJournal, R>,
        core: &mut PrimaryCore<MemJournal>,
        count: usize,
    ) -> bool {
        let answer = line.flush(rt, &mut self.seat, count);
        is_flushed_same(answer, core.flush(count))
    }

    /// Whether the same has become of one of the last tickets.
    fn settles<R: Wait + Drop, W: Wait>(
        &mut self,
        rt: &W,
        line: &Line<L, MemJournal, R>,
        core: &PrimaryCore<MemJournal>,
        tickets: &[Ticket],
        state: &mut u64,
    ) -> bool {
        let back = draw(state, 12).wrapping_add(1);
        match tickets.get(tickets.len().wrapping_sub(back)) {
            Some(ticket) => line.settle(rt, &mut self.seat, ticket) == settled_at(core, ticket),
            None => true,
        }
    }

    /// Whether a packet that is drawn is the same.
    fn pushes<R: Wait + Drop, W: Wait>(
        &mut self,
        rt: &W,
        line: &Line<L, MemJournal, R>,
        core: &PrimaryCore<MemJournal>,
        state: &mut u64,
    ) -> bool {
        let worker = draw(state, 3) as u8;
        let seq = draw(state, core.durable() as usize % 4096 + 2) as u64;
        let answer = line.push(rt, &mut self.seat, worker, seq);
        is_pushed_same(&answer, &core.push(worker, seq))
    }

    /// Whether the same is sent for these bytes.
    fn answers<R: Wait + Drop, W: Wait>(
        &mut self,
        rt: &W,
        line: &Line<L, MemJournal, R>,
        core: &PrimaryCore<MemJournal>,
        bytes: &[u8],
    ) -> bool {
        match line.on_bytes(rt, &mut self.seat, bytes) {
            Ok(outs) => is_sent_by(core, bytes, &outs),
            Err(_) => false,
        }
    }

    /// Whether the same is sent for an Ask, or a Want, that is drawn.
    fn answers_drawn<R: Wait + Drop, W: Wait>(
        &mut self,
        rt: &W,
        line: &Line<L, MemJournal, R>,
        core: &PrimaryCore<MemJournal>,
        state: &mut u64,
    ) -> bool {
        if draw(state, 2) == 0 {
            return self.answers(rt, line, core, &ask_of(draw(state, 1000) as u64));
        }
        let replica = draw(state, 4) as u8;
        let worker = draw(state, 3) as u8;
        let seq = draw(state, core.durable() as usize % 4096 + 2) as u64;
        self.answers(rt, line, core, &want_of(replica, worker, seq))
    }

    /// Whether the same base is taken, with the same pieces; one of sixteen times, and else nothing is done.
    fn takes_base<R: Wait + Drop, W: Wait>(
        &mut self,
        rt: &W,
        line: &Line<L, MemJournal, R>,
        core: &mut PrimaryCore<MemJournal>,
        state: &mut u64,
    ) -> bool {
        if draw(state, 16) != 0 {
            return true;
        }
        match (line.take_base(rt, &mut self.seat), core.take_base()) {
            (Ok((base, pieces)), Ok((other, others))) => {
                base == other
                    && pieces == others
                    && self.answers(rt, line, core, &pull_of(0, base, 0))
            }
            _ => false,
        }
    }

    /// Whether a call that is drawn is answered the same.
    fn plays<R: Wait + Drop, W: Wait>(
        &mut self,
        rt: &W,
        alloc: Global,
        line: &Line<L, MemJournal, R>,
        core: &mut PrimaryCore<MemJournal>,
        tickets: &mut Vec<Ticket>,
        state: &mut u64,
    ) -> bool
        requires { 1 < L.workers }
    {
        match draw(state, 15) {
            0 => self.begins(alloc, core),
            1 | 2 => self.commits(rt, alloc, line, core, tickets),
            3 => self.flushes(rt, line, core, draw(state, 4)),
            4 => self.settles(rt, line, core, tickets, state),
            5 => self.pushes(rt, line, core, state),
            6 => self.answers_drawn(rt, line, core, state),
            7 => self.takes_base(rt, line, core, state),
            _ => self.changes(core, state),
        }
    }
}

/// A player with that number, and with a transaction that began on nothing.
fn player_of<L: Origin>(alloc: Global, seat: Option<Seat<L>>, number: u8) -> Option<Player<L>> {
    match seat {
        Some(seat) => Some(Player {
            seat,
            transaction: Transaction::begin(alloc, 0),
            plain: Transaction::begin(alloc, 0),
            number,
        }),
        None => None,
    }
}

/// Adds three players. Whether there are seats and memory for them.
fn add_players<L: Origin, R: Wait + Drop, W: Wait>(
    rt: &W,
    alloc: Global,
    line: &Line<L, MemJournal, R>,
    players: &mut Vec<Player<L>>,
) -> bool {
    for number in 0..3 {
        if !is_added(players, player_of(alloc, line.seat(rt), number)) {
            return false;
        }
    }
    true
}

/// Three players, each with a transaction that began on nothing. `None` if it is out of memory.
fn players_of<L: Origin, R: Wait + Drop, W: Wait>(
    rt: &W,
    alloc: Global,
    line: &Line<L, MemJournal, R>,
) -> Option<Vec<Player<L>>> {
    let mut players = Vec::new(alloc);
    if !add_players(rt, alloc, line, &mut players) {
        return None;
    }
    Some(players)
}

/// The number of the first drawn call that is answered otherwise than by the other primary.
fn other_played<L: Origin, R: Wait + Drop, W: Wait>(
    rt: &W,
    alloc: Global,
    line: &Line<L, MemJournal, R>,
    core: &mut PrimaryCore<MemJournal>,
    players: &mut [Player<L>],
    seed: u64,
) -> usize
    requires { 1 < L.workers }
{
    let mut tickets = Vec::new(alloc);
    other_call(rt, alloc, line, core, players, &mut tickets, seed)
}

/// The same, where the tickets go into this list.
fn other_call<L: Origin, R: Wait + Drop, W: Wait>(
    rt: &W,
    alloc: Global,
    line: &Line<L, MemJournal, R>,
    core: &mut PrimaryCore<MemJournal>,
    players: &mut [Player<L>],
    tickets: &mut Vec<Ticket>,
    seed: u64,
) -> usize
    requires { 1 < L.workers }
{
    let mut state = seed;
    for number in 0..CALLS {
        let Some(player) = players.get_mut(draw(&mut state, 3)) else {
            return number;
        };
        if !player.plays(rt, alloc, line, core, tickets, &mut state) {
            return number;
        }
    }
    CALLS
}

/// The same of another primary that is new.
fn other_on_new<L: Origin, R: Wait + Drop, W: Wait>(
    rt: &W,
    alloc: Global,
    line: &Line<L, MemJournal, R>,
    players: &mut [Player<L>],
    seed: u64,
) -> Result<usize, Fail>
    requires { 1 < L.workers }
{
    match core_on(alloc, MemJournal::new(alloc)) {
        Ok(mut core) => {
            let other = other_played(rt, alloc, line, &mut core, players, seed);
            drop(core);
            Ok(other)
        }
        Err(fail) => Err(fail),
    }
}

/// The same on this line.
fn other_on_line<L: Origin, R: Wait + Drop, W: Wait>(
    rt: &W,
    alloc: Global,
    line: &Line<L, MemJournal, R>,
    seed: u64,
) -> Result<usize, Fail>
    requires { 1 < L.workers }
{
    match players_of(rt, alloc, line) {
        Some(mut players) => {
            let other = other_on_new(rt, alloc, line, &mut players, seed);
            drop(players);
            other
        }
        None => Err("players".into()),
    }
}

/// The same of a line of this primary.
fn other_answered<L: Origin, R: Wait>(
    rt: &R,
    alloc: Global,
    core: PrimaryCore<MemJournal>,
    start: Start,
    seed: u64,
) -> Result<usize, Fail>
    requires book { start.opened.seen.book ≡ L.book }
    requires schema { core.primary.schema ≡ L.schema }
    requires workers { core.primary.workers ≡ L.workers }
    requires first { core.primary ≡ L.first }
    requires name { start.blank.name ≡ L.name }
    requires parts { start.blank.parts ≡ L.parts }
    requires seats { start.seats ≡ L.seats }
{
    if core.workers() < 2 {
        return Err("workers".into());
    }
    match made(Line::<L, MemJournal, &R>::new(alloc, rt, core, start)) {
        Some(line) => {
            let other = other_on_line(rt, alloc, &line, seed);
            drop(line);
            other
        }
        None => Err("line".into()),
    }
}

/// The same of a new primary.
fn other_of_new<R: Wait>(rt: &R, alloc: Global, seed: u64) -> Result<usize, Fail> {
    let start = there(made(Start::new(3)), "start")?;
    match core_on(alloc, MemJournal::new(alloc)) {
        Ok(core) => other_answered::<Brand, R>(rt, alloc, core, start, seed),
        Err(fail) => Err(fail),
    }
}

#[test]
fn drawn_calls_are_answered_as_by_a_primary_alone(rt: HostRuntime) -> Result<(), Fail> {
    for seed in SEEDS {
        assert_eq!(rt; other_of_new(&rt, rt.alloc(), seed)?, CALLS);
    }
    Ok(())
}
