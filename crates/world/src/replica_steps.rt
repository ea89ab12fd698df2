//! The steps of replicas: each event is one call on one of them.

ghost use Rattle.std.specs.Prelude.{◌≡◌, ◌<◌, ◌≤◌, [], ◌⊎◌, length, vec_capacity, IfOk, Some, None, is_ok};
ghost use Rattle.dispatcher.specs.Steps.{renewed};
ghost use Rattle.world.specs.Inner.CoreSteps.{MayStep, waiting_for, waiting_for_piece, with_sent};
ghost use Rattle.world.specs.Inner.Invariant.{IsReady};

use crate::cores::Cores;
use crate::naming::{ask_output, dump_output, got_output, open_output};
use crate::sending::is_forged;
use apply::ColumnStore;
use dispatcher::{AskFault, ReplicaCore, Run};
use queries::Plan;
use rows::ByteList;
use script::{Event, Node, Output, Sent, SentList};
use std::alloc::AllocError;
use std::marker::Sync;
use std::thread::Threads;
use wire::Packet;

/// Bytes of an Ask.
const ASK_LEN: usize = 23;

impl Cores {
    /// Has a datagram that was sent arrive at a replica.
    pub fn deliver_to_replica(&mut self, index: u64, number: u8) -> Output
        requires { number < length self.old.replicas }
        ensures { MayStep self.old (Event.Deliver index (Node.Replica number)) result self.new }
    {
        let Some(bytes) = self.sent.get(index as usize) else {
            return Output::NeverSent;
        };
        let replica = &mut self.replicas[number as usize];
        got_output(replica.on_bytes(bytes.as_slice()))
    }

    /// Hands bytes to a replica unchanged, unless they are a datagram that was never sent.
    pub fn raw_to_replica(&mut self, bytes: &[u8], number: u8) -> Output
        requires { number < length self.old.replicas }
        ensures { MayStep self.old (Event.Raw (Node.Replica number) bytes.now) result self.new }
    {
        if is_forged(self.sent.as_slice(), bytes) {
            return Output::Forged;
        }
        let replica = &mut self.replicas[number as usize];
        got_output(replica.on_bytes(bytes))
    }

    /// Opens a query.
    pub fn open(&mut self, number: u8, plan: &Plan) -> Output
        requires { number < length self.old.replicas }
        ensures { MayStep self.old (Event.Open number plan.now) result self.new }
    {
        if let Err(fault) = self.replicas[number as usize].may_open(plan) {
            return open_output(fault);
        }
        let Ok(plan) = copy_of(plan) else {
            return Output::Memory;
        };
        let replica = &mut self.replicas[number as usize];
        match replica.open(plan) {
            Ok(count) => Output::Opened(count),
            Err(fault) => open_output(fault),
        }
    }

    /// Asks for the version of a batch. All memory is taken first.
    pub fn ask(&mut self, number: u8) -> Output
        requires ready { IsReady self.old }
        requires there { number < length self.old.replicas }
        ensures { MayStep self.old (Event.Ask number) result self.new }
    {
        if let Err(fault) = self.replicas[number as usize].may_ask() {
            return ask_output(fault);
        }
        let Ok(mut list) = Vec::with_capacity(self.alloc, 1) else {
            return Output::Memory;
        };
        if self.sent.reserve(1).is_err() {
            return Output::Memory;
        }
        let Ok(room) = Vec::with_capacity(self.alloc, ASK_LEN) else {
            return Output::Memory;
        };
        let durable = self.primary.durable();
        let replica = &mut self.replicas[number as usize];
        let before = replica.request();
        match replica.ask() {
            Ok(out) => {
                if replica.request() != before {
                    self.asked_at[number as usize] = durable;
                }
                list.push_reserved(Sent {
                    index: self.sent.len() as u64,
                    len: out.packet.bytes().len(),
                });
                self.sent.push_reserved(copied(room, out.packet.bytes()));
                Output::Sent(SentList::from_vec(list))
            }
            Err(fault) => ask_output(fault),
        }
    }

    /// Gives up the version that was fetched for a batch, and asks for the newest one. All memory is
    /// taken first.
    pub fn renew(&mut self, number: u8) -> Output
        requires ready { IsReady self.old }
        requires there { number < length self.old.replicas }
        ensures { MayStep self.old (Event.Renew number) result self.new }
    {
        if !may_renew(&self.replicas[number as usize]) {
            return match self.replicas[number as usize].renew() {
                Ok(_) => unreachable!(),
                Err(fault) => ask_output(fault),
            };
        }
        let Ok(mut list) = Vec::with_capacity(self.alloc, 1) else {
            return Output::Memory;
        };
        if self.sent.reserve(1).is_err() {
            return Output::Memory;
        }
        let Ok(room) = Vec::with_capacity(self.alloc, ASK_LEN) else {
            return Output::Memory;
        };
        let replica = &mut self.replicas[number as usize];
        match replica.renew() {
            Ok(out) => {
                list.push_reserved(Sent {
                    index: self.sent.len() as u64,
                    len: out.packet.bytes().len(),
                });
                self.sent.push_reserved(copied(room, out.packet.bytes()));
                Output::Sent(SentList::from_vec(list))
            }
            Err(fault) => ask_output(fault),
        }
    }

    /// Runs a batch. A run that waits has changed nothing at its replica, so room for its Pull or its
    /// Want is taken afterwards.
    pub fn run<R: Threads + Sync>(&mut self, rt: &R, number: u8) -> Output
        requires { number < length self.old.replicas }
        ensures { MayStep self.old (Event.Run number) result self.new }
    {
        let replica = &mut self.replicas[number as usize];
        match replica.run(rt) {
            Run::NoBatch => Output::NoBatch,
            Run::WaitingHead => Output::WaitingHead,
            Run::WaitingPiece {
                number: piece,
                pull,
            } => self.wait_for_piece(piece, &pull.packet),
            Run::Waiting { worker, seq, want } => self.wait(worker, seq, &want.packet),
            Run::Answered(report) => Output::Report(report),
            Run::Inconsistent => Output::Inconsistent,
            Run::Broken => Output::Broken,
            Run::Memory => Output::Memory,
        }
    }

    /// Sends the Pull of a run that waits for a piece; if out of memory, nothing is sent.
    fn wait_for_piece(&mut self, number: u64, pull: &Packet) -> Output
        ensures { ((result ≡ waiting_for_piece self.old number pull.now) × (self.new ≡ with_sent self.old pull.now))
            ⊎ ((result ≡ Output.Memory) × (self.new ≡ self.old)) }
    {
        match self.request(pull) {
            Some(pull) => Output::WaitingPiece { number, pull },
            None => Output::Memory,
        }
    }

    /// Sends the Want of a run that waits for a frame; if out of memory, nothing is sent.
    fn wait(&mut self, worker: u8, seq: u64, want: &Packet) -> Output
        ensures { ((result ≡ waiting_for self.old worker seq want.now) × (self.new ≡ with_sent self.old want.now))
            ⊎ ((result ≡ Output.Memory) × (self.new ≡ self.old)) }
    {
        match self.request(want) {
            Some(want) => Output::Waiting { worker, seq, want },
            None => Output::Memory,
        }
    }

    /// Sends a datagram of a run that waits; `None` if out of memory, and then nothing is sent.
    fn request(&mut self, packet: &Packet) -> Option<Sent>
        ensures { ((result ≡ Some (record { index = length self.old.sent; len = length packet.now }))
            × (self.new ≡ with_sent self.old packet.now)) ⊎ ((result ≡ None) × (self.new ≡ self.old)) }
    {
        let sent = Sent {
            index: self.sent.len() as u64,
            len: packet.bytes().len(),
        };
        let Ok(bytes) = Vec::from_slice(self.alloc, packet.bytes()) else {
            return None;
        };
        match self.sent.push(ByteList::from_vec(bytes)) {
            Ok(()) => Some(sent),
            Err(_) => None,
        }
    }

    /// Reports a replica's version; for a broken one the last at which it was whole.
    pub fn version(&self, number: u8) -> Output
        requires { number < length self.now.replicas }
        ensures { MayStep self.now (Event.Version number) result self.now }
    {
        Output::Version(self.replicas[number as usize].version())
    }

    /// The text of a replica's tables.
    pub fn dump(&self, number: u8) -> Output
        requires { number < length self.now.replicas }
        ensures { MayStep self.now (Event.Dump number) result self.now }
    {
        match self.replicas[number as usize].dump() {
            Ok(text) => Output::Dump(ByteList::from_vec(text)),
            Err(fault) => dump_output(fault),
        }
    }
}

/// Whether a renewal would be taken: a version is fetched for the batch, so that an `ask` would be
/// refused as busy.
fn may_renew(replica: &ReplicaCore<ColumnStore>) -> bool
    ensures { result ≡ is_ok (renewed replica.now) }
{
    matches!(replica.may_ask(), Err(AskFault::Busy))
}

/// A copy of the plan. Fails only if out of memory.
fn copy_of(plan: &Plan) -> Result<Plan, AllocError>
    ensures { IfOk result (λ copy. copy ≡ plan.now) }
{
    plan.clone()
}

/// A datagram's bytes, copied into room that was taken for them.
fn copied(room: Vec<u8>, bytes: &[u8]) -> ByteList
    requires empty { room.items ≡ [] }
    requires room { length bytes.now ≤ vec_capacity room }
    ensures { result ≡ bytes.now }
{
    let mut copy = room;
    match copy.extend_from_slice(bytes) {
        Ok(()) => ByteList::from_vec(copy),
        Err(_) => unreachable!(),
    }
}
