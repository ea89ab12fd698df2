//! A port in memory.

ghost use Rattle.std.specs.Prelude.{◌≡◌, ◌≤◌, ◌+◌, [], ◌∷◌, ◌++◌, length, OnOk, OnErr};
ghost use Rattle.rows.specs.Limits.{datagram_max};

use crate::faults::PortFault;
use crate::port::{Patience, Port};
use rows::ByteList;
use std::alloc::{AllocError, Global};
use std::marker::Model;
use wire::Out;

/// A port in memory: it hands out the datagrams that it was given, in order, and keeps what it is
/// to send. It never waits. One of its calls can be made to fail. It is honest.
///
/// Contracts see the datagrams that it has handed out, those that it has still to hand out, what
/// was sent, and its faults.
#[derive(Drop)]
pub struct MemPort {
    datagrams: Vec<ByteList>,
    handed_out: usize,
    sent: Vec<Out>,
    /// How many calls still succeed before one fails; the greatest number if none is to fail.
    calls_before_fault: u64,
    faults: u64,
}

impl Model for MemPort {
    ghost use Rattle.std.specs.Prelude.{take, drop, length, vec_len, All, ◌≤◌};
    ghost use Rattle.sockets.specs.State.{MemState};

    ghost Value = { MemState };

    ghost view = { λ p. record {
      came = take p.handed_out p.datagrams.items;
      coming = drop p.handed_out p.datagrams.items;
      sent = p.sent.items;
      faults = p.faults;
    } };

    ghost invariant = { λ p. (p.handed_out ≤ vec_len p.datagrams) × All (λ b. length b ≤ 1201) p.datagrams.items };
}

impl MemPort {
    /// A port without arrived datagrams, none of whose calls fails. Takes no memory.
    pub fn new(alloc: Global) -> MemPort
        ensures { result ≡ record { came = []; coming = []; sent = []; faults = 0 } }
    {
        MemPort {
            datagrams: Vec::new(alloc),
            handed_out: 0,
            sent: Vec::new(alloc),
            calls_before_fault: u64::MAX,
            faults: 0,
        }
    }

    /// Makes one receive or send fail: the one after this many others. Takes no memory.
    pub fn fail_after(&mut self, calls: u64)
        ensures { self.new ≡ self.old }
    {
        self.calls_before_fault = calls;
    }

    /// Adds a datagram to those that are still to be handed out; one of 1,201 bytes represents all
    /// that are too long. Fails only if out of memory.
    pub fn deliver(&mut self, datagram: ByteList) -> Result<(), AllocError>
        requires { length datagram ≤ datagram_max + 1 }
        ensures ok { OnOk result (self.new ≡ record self.old { coming = self.old.coming ++ datagram ∷ [] }) }
        ensures err { OnErr result (self.new ≡ self.old) }
    {
        Ok(self.datagrams.push(datagram)?)
    }

    /// What was sent, in order, lent. Takes no memory.
    pub fn sent(&self) -> &[Out]
        ensures { result.now ≡ self.now.sent }
    {
        self.sent.as_slice()
    }

    /// Whether this call has to fail.
    fn is_to_fail(&mut self) -> bool
        ensures { self.new ≡ self.old }
    {
        let is_to_fail = self.calls_before_fault == 0;
        self.calls_before_fault = self.calls_before_fault.checked_sub(1).unwrap_or(u64::MAX);
        is_to_fail
    }
}

impl Port for MemPort {
    ghost use Rattle.std.specs.Prelude.{true};

    ghost came = { λ p. p.came };

    ghost sent = { λ p. p.sent };

    ghost fault_count = { λ p. p.faults };

    ghost is_honest = { true };

    fn recv(&mut self, buffer: &mut [u8], _patience: Patience) -> Result<Option<usize>, PortFault> {
        if self.is_to_fail() {
            self.faults += 1;
            return Err(PortFault::Receive);
        }
        if self.handed_out == self.datagrams.len() {
            return Ok(None);
        }
        let datagram = self.datagrams[self.handed_out].as_slice();
        let len = datagram.len();
        buffer[..len].copy_from_slice(datagram);
        self.handed_out += 1;
        Ok(Some(len))
    }

    /// Keeps the datagram. It also fails if out of memory for that.
    fn send(&mut self, out: Out) -> Result<(), PortFault> {
        if self.is_to_fail() || self.sent.push(out).is_err() {
            self.faults += 1;
            return Err(PortFault::Send);
        }
        Ok(())
    }

    fn faults(&self) -> u64 {
        self.faults
    }
}
