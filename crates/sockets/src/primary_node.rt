//! A primary's node: it pushes what is durable to its replicas, and answers what arrives.

ghost use Rattle.std.specs.Prelude.{◌≡◌, ◌+◌, ◌-◌, ◌*◌, ◌<◌, ◌≤◌, ◌⊎◌, length, replicate, sum, min};
ghost use Rattle.std.specs.Prelude.{IfOk, IfErr, OnOk, OnErr, slice_index_or};
ghost use mathlib.Core.List.{IsPrefix};
ghost use Rattle.rows.specs.Limits.{workers_max};
ghost use Rattle.sockets.specs.Traffic.{no_traffic};
ghost use Rattle.sockets.specs.Asking.{nothing_asked, nothing_asked_yet, news_of, without_news};
ghost use Rattle.primary.specs.Sending.{counts_of};
ghost use Rattle.wire.specs.Reading.{reading};
ghost use Rattle.sockets.specs.Primaries.{DoesPrimary, counted_as, passed, counts_in, counts_at};
ghost use Rattle.sockets.specs.Replicas.{failures};
ghost use Rattle.sockets.specs.Inner.Deeds.{looked_if, looked_by};
ghost use Rattle.sockets.specs.declared.faults.ServeFault.TheVariants.{Socket};

use crate::asked::{Asked, note, take_news};
use crate::faults::ServeFault;
use crate::port::{Patience, Port};
use crate::sending::{send_all, send_row};
use crate::sums::sum_of;
use crate::traffic::{Counted, Traffic};
use crate::turns::{BUFFER_LEN, ROUND_DATAGRAMS};
use journal::JournalStore;
use rows::limits::{REPLICAS_MAX, WORKERS_MAX};
use shared::{Line, Origin, Seat};
use std::alloc::{AllocError, Global};
use std::marker::Model;
use std::sync::Wait;
use wire::{Counts, Datagram, Head, Out, Packet, one_spelling, read};

/// How many frames are pushed in a turn, at most, over all workers.
const TURN_PUSHES: usize = 1024;

/// How many frames of one worker are pushed in a turn, at most.
const WORKER_PUSHES: usize = 256;

/// How many frames of one worker are pushed in a row, at most, before the next worker's are. A row takes the
/// line's lock once, for which it waits as long as each worker that commits.
const ROW_PUSHES: usize = 64;

/// How many datagrams are received in a turn, at most.
const TURN_DATAGRAMS: usize = 4 * ROUND_DATAGRAMS;

/// A primary's seat and its port, with how far it has pushed, what went through the port, and what its
/// replicas asked for last.
///
/// Contracts see all of these.
#[derive(Drop)]
pub struct PrimaryNode<L: Origin, P: Port> {
    seat: Seat<L>,
    port: P,
    /// For each worker the seq of the first frame that was not pushed yet.
    counters: Vec<u64>,
    buffer: [u8; BUFFER_LEN],
    row: Vec<Packet>,
    traffic: Traffic,
    /// For each replica.
    asked: [Asked; REPLICAS_MAX as usize],
}

impl<L: Origin, P: Port> Model for PrimaryNode<L, P> {
    ghost use Rattle.std.specs.Prelude.{◌≤◌, length};
    ghost use Rattle.rows.specs.Limits.{workers_max};
    ghost use Rattle.sockets.specs.State.{PrimaryState};

    ghost Value = { PrimaryState P };

    ghost view = { λ n. record {
      seat = n.seat;
      port = n.port;
      counters = n.counters.items;
      traffic = n.traffic;
      asked = n.asked;
    } };

    ghost invariant = { λ n. length n.counters.items ≤ workers_max };
}

impl<L: Origin, P: Port> PrimaryNode<L, P> {
    /// The node of a primary with this many workers, at a seat of its line and a port, which has pushed
    /// nothing. All memory that its own turns need is taken here. Fails only if out of memory; the seat
    /// and the port are then dropped.
    pub fn new(
        alloc: Global,
        seat: Seat<L>,
        port: P,
        workers: u8,
    ) -> Result<PrimaryNode<L, P>, AllocError>
    where
        P: Drop,
        requires { workers ≤ workers_max }
        ensures { IfOk result (λ node. node ≡ record {
          seat = seat;
          port = port;
          counters = replicate workers 0;
          traffic = no_traffic;
          asked = nothing_asked_yet;
        }) }
    {
        let counters = Vec::from_elem(alloc, 0u64, workers as usize)?;
        let row = Vec::with_capacity(alloc, ROW_PUSHES)?;
        Ok(PrimaryNode {
            seat,
            port,
            counters,
            buffer: [0u8; BUFFER_LEN],
            row,
            traffic: Traffic::none(),
            asked: [Asked::none(); REPLICAS_MAX as usize],
        })
    }

    /// The seat, lent. Takes no memory.
    pub fn seat(&self) -> &Seat<L>
        ensures { result.now ≡ self.now.seat }
    {
        &self.seat
    }

    /// The seat; the port is dropped. Takes no memory.
    pub fn into_seat(self) -> Seat<L>
    where
        P: Drop,
        ensures { result ≡ self.seat }
    {
        let PrimaryNode { seat, .. } = self;
        seat
    }

    /// How many durable commits the node has seen. Takes no memory.
    pub fn durable(&self) -> u64
        ensures { result ≡ length self.now.seat.list }
    {
        self.seat.len()
    }

    /// How many frames of all workers the node has pushed or passed over, also those that it skipped since
    /// they were dropped when a base was taken; 2^64 - 1 if it is more. Takes no memory.
    pub fn passed(&self) -> u64
        ensures { result ≡ min u64.MAX (sum self.now.counters) }
    {
        sum_of(self.counters.as_slice())
    }

    /// The port, lent. Takes no memory.
    pub fn port(&self) -> &P
        ensures { result.now ≡ self.now.port }
    {
        &self.port
    }

    /// The port, lent to be changed. Takes no memory.
    pub fn port_mut(&mut self) -> &mut P
        ensures { result.now ≡ self.old.port }
    {
        &mut self.port
    }

    /// What went through the port. Takes no memory.
    pub fn traffic(&self) -> Traffic
        ensures { result ≡ self.now.traffic }
    {
        self.traffic
    }

    /// Passes over what is durable: only frames of what becomes durable later are pushed from now on. Those of
    /// before are sent to who asks for them. Fails only if out of memory, and then passes over none.
    pub fn pass_durable<J: JournalStore, H: Wait + Drop, R: Wait>(
        &mut self,
        rt: &R,
        line: &Line<L, J, H>,
    ) -> Result<(), AllocError>
        ensures ok { OnOk result (self.new ≡ record self.old {
          seat = self.new.seat;
          counters = passed self.old.counters
              (counts_of self.new.seat.list (length self.new.seat.list) L.workers);
        }) }
        ensures err { OnErr result (self.new ≡ record self.old { seat = self.new.seat }) }
        ensures later { IsPrefix self.old.seat.list self.new.seat.list }
        ensures seat { self.new.seat ≡ record self.old.seat { list = self.new.seat.list } }
    {
        one_spelling();
        // What is durable it asks as a replica would.
        let ask = Packet::of(&Datagram::Ask {
            replica: 0,
            boot: 0,
            request: 0,
        });
        match line.on_bytes(rt, &mut self.seat, ask.bytes()) {
            Ok(outs) => {
                pass_told(&mut self.counters, &outs);
                Ok(())
            }
            Err(error) => Err(error),
        }
    }

    /// The version that a replica was told last, if it has asked for a batch anew since this was called
    /// last: with another boot or another request. `None` also where there is no such replica. Takes no
    /// memory.
    pub fn take_asked(&mut self, replica: u8) -> Option<u64>
        ensures news { result ≡ news_of (slice_index_or self.old.asked replica nothing_asked) }
        ensures asked { self.new ≡ record self.old { asked = without_news self.old.asked replica } }
    {
        take_news(&mut self.asked, replica)
    }

    /// One turn: it pushes the next durable frames of each worker, 1024 at most, to all replicas, each
    /// once, and skips those that were dropped when a base was taken; then it answers what arrives,
    /// and waits while nothing does, at most 10 ms, or 1 ms if it has pushed a frame, since the next
    /// ones would soon be more than a replica's socket holds. A datagram for which there is no memory
    /// counts as lost, and so does one that cannot be sent.
    ///
    /// Fails with `Socket` if a receive failed; it may be called again.
    pub fn turn<J: JournalStore, H: Wait + Drop, R: Wait>(
        &mut self,
        rt: &R,
        line: &Line<L, J, H>,
    ) -> Result<(), ServeFault>
        ensures does { DoesPrimary L.schema L.workers P.is_honest P.came P.sent P.fault_count self.old self.new
            (failures result) (λ _. 1) }
        ensures failed { IfErr result (λ fault. fault ≡ Socket) }
    {
        let patience = self.push_all(rt, line);
        self.hear_all(rt, line, patience)
    }

    /// Pushes the next frames of each worker to all replicas, and answers how long to wait for what arrives.
    fn push_all<J: JournalStore, H: Wait + Drop, R: Wait>(
        &mut self,
        rt: &R,
        line: &Line<L, J, H>,
    ) -> Patience
        ensures { DoesPrimary L.schema L.workers P.is_honest P.came P.sent P.fault_count self.old self.new 0 (λ _. 1) }
    {
        let mut left = [pushes_of_each(self.counters.len()); WORKERS_MAX as usize];
        let mut patience = Patience::Waits;
        for _ in 0..WORKER_PUSHES / ROW_PUSHES {
            if !self.push_rows(rt, line, &mut left) {
                return patience;
            }
            patience = Patience::Pauses;
        }
        patience
    }

    /// Pushes the next frames of each worker to all replicas, a row of each, and answers whether there were
    /// any. `left` has how many of each worker may still be pushed in this turn.
    fn push_rows<J: JournalStore, H: Wait + Drop, R: Wait>(
        &mut self,
        rt: &R,
        line: &Line<L, J, H>,
        left: &mut [usize; WORKERS_MAX as usize],
    ) -> bool
        ensures { DoesPrimary L.schema L.workers P.is_honest P.came P.sent P.fault_count self.old self.new 0 (looked_if left.old) }
    {
        let mut has_pushed = false;
        for worker in 0..self.counters.len() {
            let most = left[worker].min(ROW_PUSHES);
            let pushed = self.push_row(rt, line, worker, most);
            has_pushed = has_pushed || pushed != 0;
            left[worker] = left_after(left[worker], most, pushed);
        }
        has_pushed
    }

    /// Pushes at most this many of the next frames of a worker that are kept, and answers how many there
    /// were.
    fn push_row<J: JournalStore, H: Wait + Drop, R: Wait>(
        &mut self,
        rt: &R,
        line: &Line<L, J, H>,
        worker: usize,
        most: usize,
    ) -> usize
        requires { worker < length self.old.counters }
        ensures does { DoesPrimary L.schema L.workers P.is_honest P.came P.sent P.fault_count self.old self.new 0
            (looked_by worker most) }
        ensures few { result ≤ most }
    {
        if most == 0 {
            return 0;
        }
        let from = self.counters[worker];
        // Frames that were dropped meanwhile are skipped. If there is no memory for the row it has no
        // packet, and the next turn tries again.
        let start = line
            .push_row(rt, &mut self.seat, worker as u8, from, most, &mut self.row)
            .unwrap_or(from);
        let pushed = self.row.len();
        send_row(&mut self.port, &mut self.traffic, &mut self.row);
        self.counters[worker] = start + pushed as u64;
        pushed
    }

    /// Receives and answers what arrives: with this patience the first datagram, and then what is there.
    fn hear_all<J: JournalStore, H: Wait + Drop, R: Wait>(
        &mut self,
        rt: &R,
        line: &Line<L, J, H>,
        first: Patience,
    ) -> Result<(), ServeFault>
        ensures does { DoesPrimary L.schema L.workers P.is_honest P.came P.sent P.fault_count self.old self.new
            (failures result) (λ _. 0) }
        ensures failed { IfErr result (λ fault. fault ≡ Socket) }
    {
        let mut patience = first;
        for _ in 0..TURN_DATAGRAMS {
            match self.hear(rt, line, patience) {
                Ok(true) => {}
                Ok(false) => return Ok(()),
                Err(fault) => return Err(fault),
            }
            patience = Patience::Takes;
        }
        Ok(())
    }

    /// Receives one datagram and answers it; answers whether one arrived.
    fn hear<J: JournalStore, H: Wait + Drop, R: Wait>(
        &mut self,
        rt: &R,
        line: &Line<L, J, H>,
        patience: Patience,
    ) -> Result<bool, ServeFault>
        ensures does { DoesPrimary L.schema L.workers P.is_honest P.came P.sent P.fault_count self.old self.new
            (failures result) (λ _. 0) }
        ensures failed { IfErr result (λ fault. fault ≡ Socket) }
    {
        if self.port.faults() == u64::MAX {
            return Ok(false);
        }
        match self.port.recv(&mut self.buffer, patience) {
            Ok(Some(len)) => {
                let bytes = &self.buffer[..len];
                match line.on_bytes(rt, &mut self.seat, bytes) {
                    Ok(outs) => {
                        self.traffic.note_heard(counted_of(&outs));
                        note(&mut self.asked, bytes, &outs);
                        send_all(&mut self.port, &mut self.traffic, outs);
                    }
                    Err(_) => self.traffic.note_heard(Counted::Other),
                }
                Ok(true)
            }
            Ok(None) => Ok(false),
            Err(_) => Err(ServeFault::Socket),
        }
    }
}

/// Passes over the frames that a Head tells of, if that is what was answered.
fn pass_told(counters: &mut [u64], outs: &[Out])
    ensures { counters.new ≡ passed counters.old (counts_in outs.now) }
{
    if outs.len() != 1 {
        return;
    }
    let counts = counts_told(outs[0].packet.bytes());
    pass(counters, counts.as_slice());
}

/// The frame counts that a Head tells; none if the bytes are no Head.
fn counts_told(bytes: &[u8]) -> Counts
    ensures { result ≡ counts_at (reading bytes.now) }
{
    match read(bytes) {
        Ok(Datagram::Head(head)) => {
            let Head { counts, .. } = head;
            counts
        }
        _ => Counts::new(),
    }
}

/// Passes over so many frames of each worker.
fn pass(counters: &mut [u64], counts: &[u64])
    ensures { counters.new ≡ passed counters.old counts.now }
{
    let both = counters.len().min(counts.len());
    let (front, _) = counters.split_at_mut(both);
    let (told, _) = counts.split_at(both);
    front.copy_from_slice(told);
}

/// How a datagram is counted, by what it was answered.
fn counted_of(outs: &[Out]) -> Counted
    ensures { result ≡ counted_as outs.now }
{
    if outs.is_empty() {
        Counted::Ignored
    } else {
        Counted::Other
    }
}

/// How many frames of a worker may still be pushed in a turn after `pushed` of at most `most` were; none once
/// there were fewer.
fn left_after(left: usize, most: usize, pushed: usize) -> usize
    ensures fewer { pushed < most → result ≡ 0 }
    ensures all { most ≤ pushed → result ≡ left - most }
{
    if pushed < most {
        0
    } else {
        left.saturating_sub(most)
    }
}

/// How many frames of each worker are pushed in a turn, at most, with this many workers: as many as
/// both limits allow.
fn pushes_of_each(workers: usize) -> usize
    ensures within { (result ≤ WORKER_PUSHES) × (result * workers ≤ TURN_PUSHES) }
    ensures most { (result ≡ WORKER_PUSHES) ⊎ (TURN_PUSHES < (result + 1) * workers) }
{
    if workers <= TURN_PUSHES / WORKER_PUSHES {
        WORKER_PUSHES
    } else {
        TURN_PUSHES / workers
    }
}
