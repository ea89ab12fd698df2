//! The interface to what carries datagrams.

ghost use Rattle.std.specs.Prelude.{◌≡◌, ℕ, ◌<◌, List, ◌++◌, ◌∷◌, [], length, Bool, true, IfOk, IfErr, OnOk, OnErr};
ghost use Rattle.wire.specs.declared.out.Out.{Out};
ghost use Rattle.rows.specs.Limits.{datagram_max};
ghost use Rattle.journal.specs.Storing.{CountsFault, faults_max};
ghost use Rattle.sockets.specs.Ports.{IsWithin, came_of};
ghost use Rattle.sockets.specs.declared.faults.PortFault.TheVariants.{Receive, Send};

use crate::faults::PortFault;
use wire::Out;

/// Whether a receive may wait for a datagram that has not arrived yet.
#[derive(Clone, Copy, PartialEq, Eq)]
pub enum Patience {
    /// It waits at most 10 ms.
    Waits,
    /// It waits at most 1 ms.
    Pauses,
    /// It takes what is there.
    Takes,
}

/// The interface to a device that receives and sends datagrams.
///
/// Contracts see the datagrams that it has handed out, those that it has sent, how many faults
/// there were, and whether ports of its type are honest: whether these lists are what its calls
/// say. No contract can know that of a socket, so none counts as honest. Each fault is counted: a
/// call fails with one only if the count grew. No call is made after as many faults are counted as
/// 64 bits can count.
pub trait Port {
    ghost use Rattle.std.specs.Prelude.{ℕ, List, Bool};
    ghost use Rattle.wire.specs.declared.out.Out.{Out};

    /// The datagrams that it has handed out, in order.
    ghost came: { Self → List (List ℕ) };

    /// What it has sent, in order.
    ghost sent: { Self → List Out };

    /// How many faults there were.
    ghost fault_count: { Self → ℕ };

    /// Whether the two lists are what the calls say.
    ghost is_honest: { Bool };

    /// Receives one datagram, if one arrived: puts its bytes at the front of the buffer, and
    /// answers their number, which may be 0. Of a datagram that is longer than the buffer, the
    /// front is taken, so the buffer has to be one byte longer than any good datagram. `None`: none
    /// arrived.
    ///
    /// Fails with `Receive`, and then no datagram was handed out.
    fn recv(&mut self, buffer: &mut [u8], patience: Patience) -> Result<Option<usize>, PortFault>
        requires room { datagram_max < length buffer.old }
        requires countable { fault_count self.old < faults_max }
        ensures within { IfOk result (IsWithin (length buffer.new)) }
        ensures came { is_honest ≡ true → IfOk result (λ len. came self.new ≡ came self.old ++ came_of buffer.new len) }
        ensures none_came { is_honest ≡ true → OnErr result (came self.new ≡ came self.old) }
        ensures sent { is_honest ≡ true → sent self.new ≡ sent self.old }
        ensures fault { IfErr result (λ fault. fault ≡ Receive) }
        ensures faults { CountsFault result (fault_count self.old) (fault_count self.new) };

    /// Sends a datagram.
    ///
    /// Fails with `Send`, and then the datagram is lost, as it may be on its way.
    fn send(&mut self, out: Out) -> Result<(), PortFault>
        requires countable { fault_count self.old < faults_max }
        ensures sent { is_honest ≡ true → OnOk result (sent self.new ≡ sent self.old ++ out ∷ []) }
        ensures lost { is_honest ≡ true → OnErr result (sent self.new ≡ sent self.old) }
        ensures came { is_honest ≡ true → came self.new ≡ came self.old }
        ensures fault { IfErr result (λ fault. fault ≡ Send) }
        ensures faults { CountsFault result (fault_count self.old) (fault_count self.new) };

    /// How many faults there were. Takes no memory.
    fn faults(&self) -> u64
        ensures { result ≡ fault_count self.now };
}
