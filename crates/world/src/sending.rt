//! What is sent: frames that are pushed, and what the primary answers to bytes that arrive.

ghost use Rattle.std.specs.Prelude.{◌≡◌, ◌<◌, ◌++◌, ◌⊎◌, length, IfOk, OnErr};
ghost use Rattle.world.specs.Outputs.{sent_from, packets_of};
ghost use Rattle.world.specs.Inner.CoreSteps.{HappensBeside, MaySendAnswers, sent_one, with_sent};
ghost use Rattle.world.specs.Steps.{is_forged as are_forged};

use crate::cores::Cores;
use crate::primary_node::PrimaryNode;
use rows::ByteList;
use script::{Event, Node, Output, Sent, SentList};
use std::alloc::{AllocError, Global};
use wire::{Out, Packet, read};

impl Cores {
    /// Sends a frame of the durable list, if the stream has it and it is kept.
    pub fn push(&mut self, worker: u8, seq: u64) -> Output
        requires { worker < self.old.primary.workers }
        ensures { HappensBeside self.old (Event.Push worker seq) result self.new }
    {
        let PrimaryNode::Running(primary) = &self.primary else {
            return Output::Stopped;
        };
        match primary.push(worker, seq) {
            None => Output::NoFrame,
            Some(packet) => self.send(&packet),
        }
    }

    /// Sends a datagram; if out of memory, nothing is sent.
    fn send(&mut self, packet: &Packet) -> Output
        ensures { ((result ≡ sent_one self.old packet.now) × (self.new ≡ with_sent self.old packet.now))
            ⊎ ((result ≡ Output.Memory) × (self.new ≡ self.old)) }
    {
        let sent = Sent {
            index: self.sent.len() as u64,
            len: packet.bytes().len(),
        };
        let Ok(list) = SentList::of_one(self.alloc, sent) else {
            return Output::Memory;
        };
        let Ok(bytes) = Vec::from_slice(self.alloc, packet.bytes()) else {
            return Output::Memory;
        };
        match self.sent.push(ByteList::from_vec(bytes)) {
            Ok(()) => Output::Sent(list),
            Err(_) => Output::Memory,
        }
    }

    /// Has a datagram that was sent arrive at the primary.
    pub fn deliver_to_primary(&mut self, index: u64) -> Output
        ensures { HappensBeside self.old (Event.Deliver index Node.Primary) result self.new }
    {
        let PrimaryNode::Running(primary) = &self.primary else {
            return Output::Stopped;
        };
        let Some(bytes) = self.sent.get(index as usize) else {
            return Output::NeverSent;
        };
        let Ok(outs) = primary.on_bytes(bytes.as_slice()) else {
            return Output::Memory;
        };
        self.send_answers(outs.as_slice())
    }

    /// Hands bytes to the primary unchanged, unless they are a datagram that was never sent.
    pub fn raw_to_primary(&mut self, bytes: &[u8]) -> Output
        ensures { HappensBeside self.old (Event.Raw Node.Primary bytes.now) result self.new }
    {
        let PrimaryNode::Running(primary) = &self.primary else {
            return Output::Stopped;
        };
        if is_forged(self.sent.as_slice(), bytes) {
            return Output::Forged;
        }
        let Ok(outs) = primary.on_bytes(bytes) else {
            return Output::Memory;
        };
        self.send_answers(outs.as_slice())
    }

    /// Sends what the primary answers; if out of memory, nothing is sent.
    fn send_answers(&mut self, outs: &[Out]) -> Output
        ensures { MaySendAnswers self.old outs.now result self.new }
    {
        if outs.is_empty() {
            return Output::Ignored;
        }
        match send_all(self.alloc, &mut self.sent, outs) {
            Ok(list) => Output::Sent(list),
            Err(_) => Output::Memory,
        }
    }

    /// Shows the bytes of a datagram.
    pub fn show(&self, index: u64) -> Output
        ensures { HappensBeside self.now (Event.Show index) result self.now }
    {
        let Some(bytes) = self.sent.get(index as usize) else {
            return Output::NeverSent;
        };
        match Vec::from_slice(self.alloc, bytes.as_slice()) {
            Ok(bytes) => Output::Shown(ByteList::from_vec(bytes)),
            Err(_) => Output::Memory,
        }
    }
}

/// Whether bytes are a datagram that was never sent.
pub fn is_forged(sent: &[ByteList], bytes: &[u8]) -> bool
    ensures { result ≡ are_forged sent.now bytes.now }
{
    read(bytes).is_ok() && !sent.iter().any(|other| other.as_slice() == bytes)
}

/// Sends datagrams one after the other, and answers their indices and lengths. Fails only if out of
/// memory, and then nothing is sent.
fn send_all(alloc: Global, sent: &mut Vec<ByteList>, outs: &[Out]) -> Result<SentList, AllocError>
    ensures ok { IfOk result (λ list. (list ≡ sent_from (length sent.old.items) outs.now)
        × (sent.new.items ≡ sent.old.items ++ packets_of outs.now)) }
    ensures err { OnErr result (sent.new.items ≡ sent.old.items) }
{
    let list = sent_behind(alloc, sent.as_slice(), outs)?;
    let mut packets = packets_in(alloc, outs)?;
    sent.append(&mut packets)?;
    Ok(SentList::from_vec(list))
}

/// The indices and lengths of datagrams that are sent after these.
fn sent_behind(alloc: Global, sent: &[ByteList], outs: &[Out]) -> Result<Vec<Sent>, AllocError>
    ensures { IfOk result (λ list. list.items ≡ sent_from (length sent.now) outs.now) }
{
    let mut list = Vec::new(alloc);
    for (index, out) in outs.iter().enumerate() {
        list.push(Sent {
            index: (sent.len() + index) as u64,
            len: out.packet.bytes().len(),
        })?;
    }
    Ok(list)
}

/// The datagrams' bytes, without their destinations.
fn packets_in(alloc: Global, outs: &[Out]) -> Result<Vec<ByteList>, AllocError>
    ensures { IfOk result (λ packets. packets.items ≡ packets_of outs.now) }
{
    let mut packets = Vec::new(alloc);
    for out in outs {
        let bytes = Vec::from_slice(alloc, out.packet.bytes())?;
        packets.push(ByteList::from_vec(bytes))?;
    }
    Ok(packets)
}
