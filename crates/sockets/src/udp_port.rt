//! A port on a UDP socket.

ghost use Rattle.std.specs.Prelude.{◌≡◌, ◌<◌, ◌+◌, length, is_some, nat_lt, IfOk};
ghost use Rattle.journal.specs.Storing.{faults_max};
ghost use Rattle.sockets.specs.Ports.{IsWithin};

use crate::drain::{Backlog, Drain, drain_of};
use crate::faults::PortFault;
use crate::port::{Patience, Port};
use mio::net::UdpSocket;
use mio::{Events, Interest, Poll, Token};
use std::alloc::Global;
use std::io::{self, ErrorKind};
use std::marker::Model;
use std::net::{self, Net, SocketAddr};
use std::os::fd::AsFd;
use std::time::Duration;
use wire::{Out, To};

/// How long a receive that waits does so, at most, in milliseconds.
const WAIT_MILLIS: u64 = 10;

/// How long a receive that pauses waits, at most, in milliseconds.
const PAUSE_MILLIS: u64 = 1;

/// A UDP socket, the addresses to which datagrams go, and what waits for the socket.
///
/// Contracts see how many faults there were. No contract states which datagrams arrive or are sent,
/// nor to which addresses.
#[derive(Drop)]
pub struct UdpPort {
    socket: UdpSocket,
    poll: Poll,
    events: Events,
    primary: Option<SocketAddr>,
    replicas: Vec<SocketAddr>,
    /// What its drain has taken, if it has one.
    backlog: Option<Backlog>,
    faults: u64,
    /// The newest fault, in the system's words.
    last_fault: Option<io::Error>,
}

impl Model for UdpPort {
    ghost use Rattle.std.specs.Prelude.{◌≡◌, ℕ, is_some, nat_lt};

    ghost Value = { ℕ };

    ghost view = { λ p. p.faults };

    ghost invariant = { λ p. is_some p.last_fault ≡ nat_lt 0 p.faults };
}

impl UdpPort {
    /// A socket on an address, with the address of the primary and those of the replicas, in the
    /// order of their numbers; a datagram to an unknown address is dropped. With port 0 the system
    /// chooses one.
    ///
    /// Fails if the system refuses the socket, or if out of memory.
    pub fn bind<N: Net>(
        net: &N,
        alloc: Global,
        listen: SocketAddr,
        primary: Option<SocketAddr>,
        replicas: Vec<SocketAddr>,
    ) -> io::Result<UdpPort>
        ensures { IfOk result (λ port. port ≡ 0) }
    {
        // The socket is never connected to an address: a connected one would fail at a receive if
        // nobody listens at the other end.
        let mut socket = UdpSocket::bind(net, listen)?;
        let poll = Poll::new(net)?;
        let events = Events::with_capacity(alloc, 1)?;
        poll.registry()
            .register(&mut socket, Token(0), Interest::READABLE)?;
        Ok(UdpPort {
            socket,
            poll,
            events,
            primary,
            replicas,
            backlog: None,
            faults: 0,
            last_fault: None,
        })
    }

    /// The address to which the socket is bound: if port 0 was asked for, its port is known only
    /// now. Fails if the system does not report it.
    pub fn local_addr(&self) -> io::Result<SocketAddr> {
        self.socket.local_addr()
    }

    /// Replaces the addresses of the replicas, in the order of their numbers. Takes no memory.
    pub fn set_replicas(&mut self, replicas: Vec<SocketAddr>)
        ensures { self.new ≡ self.old }
    {
        self.replicas = replicas;
    }

    /// A drain for this port's socket, which another thread has look every few milliseconds: what it has taken is received
    /// first, also once it is dropped. It has the place of the one before; what that took and was not received is lost.
    ///
    /// Fails if the system refuses another descriptor of the socket, or if out of memory; the port then keeps the drain
    /// that it had.
    pub fn drain(&mut self, alloc: Global) -> io::Result<Drain>
        ensures { self.new ≡ self.old }
    {
        let socket = self.socket.as_fd().try_clone_to_owned()?;
        let (drain, backlog) = drain_of(alloc, net::UdpSocket::from(socket))?;
        self.backlog = Some(backlog);
        Ok(drain)
    }

    /// Why the newest failed call failed, in the system's words; `None` exactly while none has
    /// failed. Takes no memory.
    pub fn last_fault(&self) -> Option<io::Error>
        ensures { is_some result ≡ nat_lt 0 self.now }
    {
        self.last_fault
    }

    /// Counts a fault, and keeps it.
    fn count(&mut self, error: io::Error)
        requires { self.old < faults_max }
        ensures { self.new ≡ self.old + 1 }
    {
        self.faults += 1;
        self.last_fault = Some(error);
    }

    /// Takes a datagram of the backlog, or one of the socket, for which it may wait.
    fn receive(&mut self, buffer: &mut [u8], patience: Patience) -> io::Result<Option<usize>>
        ensures port { self.new ≡ self.old }
        ensures within { IfOk result (IsWithin (length buffer.new)) }
    {
        let UdpPort {
            socket,
            poll,
            events,
            backlog,
            ..
        } = self;
        let Some(backlog) = backlog else {
            return take_or_wait(socket, poll, events, buffer, patience);
        };
        backlog.note_receive();
        let taken = take_held_or_wait(backlog, socket, poll, events, buffer, patience);
        backlog.note_receive();
        taken
    }

    /// Sends bytes to each address that a datagram is for; to none if none is known. A failure at
    /// one address does not keep it from the others; the last error is reported.
    fn send_to_all(&self, out: &Out) -> io::Result<()> {
        let bytes = out.packet.bytes();
        match out.to {
            To::Primary => match self.primary {
                Some(address) => send_to(&self.socket, bytes, address),
                None => Ok(()),
            },
            To::Replica(number) => match self.replicas.get(number as usize) {
                Some(address) => send_to(&self.socket, bytes, *address),
                None => Ok(()),
            },
            To::Replicas => send_to_each(&self.socket, bytes, self.replicas.as_slice()),
        }
    }
}

/// Sends bytes to an address.
fn send_to(socket: &UdpSocket, bytes: &[u8], address: SocketAddr) -> io::Result<()> {
    socket.send_to(bytes, address)?;
    Ok(())
}

/// Sends bytes to all of these addresses, and reports the last error.
fn send_to_each(socket: &UdpSocket, bytes: &[u8], addresses: &[SocketAddr]) -> io::Result<()> {
    let mut ended = Ok(());
    for address in addresses {
        if let Err(error) = send_to(socket, bytes, *address) {
            ended = Err(error);
        }
    }
    ended
}

/// Takes a datagram that is there. An error that reports an earlier datagram as refused on its way
/// is not a fault of a receive, and is ignored.
fn take(socket: &UdpSocket, buffer: &mut [u8]) -> io::Result<Option<usize>>
    ensures { IfOk result (IsWithin (length buffer.new)) }
{
    match socket.recv_from(buffer) {
        Ok((len, _)) => Ok(Some(len)),
        Err(error) => match error.kind() {
            ErrorKind::WouldBlock | ErrorKind::Interrupted | ErrorKind::ConnectionRefused => Ok(
                None,
            ),
            _ => Err(error),
        },
    }
}

/// Takes a datagram, for which it may wait. It waits only if none is there, since the wait is
/// notified only of changes.
fn take_or_wait(
    socket: &UdpSocket,
    poll: &mut Poll,
    events: &mut Events,
    buffer: &mut [u8],
    patience: Patience,
) -> io::Result<Option<usize>>
    ensures { IfOk result (IsWithin (length buffer.new)) }
{
    let len = take(socket, buffer)?;
    if len.is_some() {
        return Ok(len);
    }
    let millis = match patience {
        Patience::Waits => WAIT_MILLIS,
        Patience::Pauses => PAUSE_MILLIS,
        Patience::Takes => return Ok(None),
    };
    poll.poll(events, Some(Duration::from_millis(millis)))?;
    take(socket, buffer)
}

/// Takes a datagram of the backlog, or one of the socket, for which it may wait.
fn take_held_or_wait(
    backlog: &mut Backlog,
    socket: &UdpSocket,
    poll: &mut Poll,
    events: &mut Events,
    buffer: &mut [u8],
    patience: Patience,
) -> io::Result<Option<usize>>
    ensures { IfOk result (IsWithin (length buffer.new)) }
{
    let len = backlog.take(buffer);
    if len.is_some() {
        return Ok(len);
    }
    if backlog.has_run_out() {
        // A wait would end at once, notified of what the drain took.
        poll.poll(events, Some(Duration::from_millis(0)))?;
    }
    take_or_wait(socket, poll, events, buffer, patience)
}

impl Port for UdpPort {
    ghost use Rattle.std.specs.Prelude.{[], false};

    ghost came = { λ _. [] };

    ghost sent = { λ _. [] };

    ghost fault_count = { λ p. p };

    ghost is_honest = { false };

    /// Receives a datagram from any address; first those that its drain has taken.
    fn recv(&mut self, buffer: &mut [u8], patience: Patience) -> Result<Option<usize>, PortFault> {
        match self.receive(buffer, patience) {
            Ok(len) => Ok(len),
            Err(error) => {
                self.count(error);
                Err(PortFault::Receive)
            }
        }
    }

    /// Sends a datagram to each address that it is for. One that has no address is dropped, which
    /// is not a fault.
    fn send(&mut self, out: Out) -> Result<(), PortFault> {
        match self.send_to_all(&out) {
            Ok(()) => Ok(()),
            Err(error) => {
                self.count(error);
                Err(PortFault::Send)
            }
        }
    }

    fn faults(&self) -> u64 {
        self.faults
    }
}
