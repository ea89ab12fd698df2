//! A port's drain, which takes what comes while the port's node is at work.

use mio::net::UdpSocket;
use sockets::{Drain, Patience, Port, UdpPort};
use std::alloc::Global;
use std::io;
use std::net::{Ipv4Addr, Net, SocketAddr};
use std::test::Fail;

/// How often it is looked for what was sent, at most. Mostly it is there at once.
const TRIES: usize = 100_000;

/// How many datagrams are sent in a row: fewer than a socket holds.
const ROW: u32 = 100;

/// How many datagrams a drain holds.
const HELD: usize = 16_384;

/// A port, its drain, and a socket that sends to it datagrams with rising numbers.
#[derive(Drop)]
struct Line {
    port: UdpPort,
    drain: Drain,
    stranger: UdpSocket,
    here: SocketAddr,
    sent: u32,
    received: u32,
}

impl Line {
    fn new<N: Net>(net: &N, alloc: Global) -> io::Result<Line> {
        let any = SocketAddr::from((Ipv4Addr::LOCALHOST, 0));
        let stranger = UdpSocket::bind(net, any)?;
        let port = UdpPort::bind(net, alloc, any, None, Vec::new(alloc))?;
        Line::at(alloc, port, stranger)
    }

    /// Of this port and this socket.
    fn at(alloc: Global, mut port: UdpPort, stranger: UdpSocket) -> io::Result<Line> {
        let here = port.local_addr()?;
        let drain = port.drain(alloc)?;
        Ok(Line {
            port,
            drain,
            stranger,
            here,
            sent: 0,
            received: 0,
        })
    }

    /// Sends so many datagrams more.
    fn send(&mut self, count: u32) -> io::Result<()> {
        for _ in 0..count {
            self.stranger.send_to(&self.sent.to_be_bytes(), self.here)?;
            self.sent = self.sent.saturating_add(1);
        }
        Ok(())
    }

    /// How many the drain takes, up to so many.
    fn look(&mut self, most: usize) -> usize {
        let mut taken: usize = 0;
        for _ in 0..TRIES {
            if taken >= most {
                break;
            }
            taken = taken.saturating_add(self.drain.look());
        }
        taken
    }

    /// Receives what was sent, and answers how many came in all. Those behind one that is not the next do not count.
    fn receive(&mut self) -> u32 {
        let mut buffer = [0u8; 1201];
        for _ in 0..TRIES {
            if self.received == self.sent || self.port.faults() == u64::MAX {
                break;
            }
            if let Ok(Some(len)) = self.port.recv(&mut buffer, Patience::Takes) {
                if &buffer[..len] != self.received.to_be_bytes().as_slice() {
                    break;
                }
                self.received = self.received.saturating_add(1);
            }
        }
        self.received
    }
}

/// How many of ten rows the drain takes, and how many come in their order with half a row behind them.
fn rows_at_work<N: Net>(net: &N, alloc: Global) -> io::Result<(usize, u32)> {
    let mut line = Line::new(net, alloc)?;
    rows_over(&mut line)
}

/// The same over this line.
fn rows_over(line: &mut Line) -> io::Result<(usize, u32)> {
    let mut taken: usize = 0;
    for _ in 0..10 {
        line.send(ROW)?;
        taken = taken.saturating_add(line.look(ROW as usize));
    }
    line.send(ROW / 2)?;
    Ok((taken, line.receive()))
}

/// More than a socket holds comes while a node is at work, and none of it is lost.
#[test]
fn what_comes_at_work_is_received_in_its_order(rt: HostRuntime) -> Result<(), Fail> {
    assert_eq!(rt; rows_at_work(&rt, rt.alloc()).ok(), Some((1000, 1050)));
    Ok(())
}

/// What the drain takes of five datagrams: at its first look, at the first one after they were received and five more sent,
/// and at those after that.
fn looks_beside_receives<N: Net>(net: &N, alloc: Global) -> io::Result<[usize; 3]> {
    let mut line = Line::new(net, alloc)?;
    looks_over(&mut line)
}

/// The same over this line.
fn looks_over(line: &mut Line) -> io::Result<[usize; 3]> {
    line.send(5)?;
    let first = line.look(5);
    line.receive();
    line.send(5)?;
    let second = line.drain.look();
    Ok([first, second, line.look(5)])
}

/// A drain takes nothing at the first look after a receive: the node may receive the next one itself.
#[test]
fn a_drain_takes_nothing_beside_receives(rt: HostRuntime) -> Result<(), Fail> {
    assert_eq!(rt;
        looks_beside_receives(&rt, rt.alloc()).ok(),
        Some([5, 0, 5])
    );
    Ok(())
}

/// How many the drain takes of more than it holds, and how many come.
fn more_than_it_holds<N: Net>(net: &N, alloc: Global) -> io::Result<(usize, u32)> {
    let mut line = Line::new(net, alloc)?;
    more_than_held(&mut line)
}

/// The same over this line.
fn more_than_held(line: &mut Line) -> io::Result<(usize, u32)> {
    let mut taken: usize = 0;
    for _ in 0..164 {
        line.send(ROW)?;
        taken = taken.saturating_add(line.look((ROW as usize).min(HELD - taken.min(HELD))));
    }
    let more = line.drain.look();
    Ok((taken.saturating_add(more), line.receive()))
}

/// A drain that is full takes no more; what is left in the socket comes behind the rest.
#[test]
fn a_full_drain_takes_no_more(rt: HostRuntime) -> Result<(), Fail> {
    assert_eq!(rt;
        more_than_it_holds(&rt, rt.alloc()).ok(),
        Some((HELD, 16_400))
    );
    Ok(())
}

/// How many come where the drain has taken a row, and another has its place before the second one.
fn two_drains<N: Net>(net: &N, alloc: Global) -> io::Result<u32> {
    let mut line = Line::new(net, alloc)?;
    drained_twice(alloc, &mut line)
}

/// The same over this line.
fn drained_twice(alloc: Global, line: &mut Line) -> io::Result<u32> {
    line.send(ROW)?;
    line.look(ROW as usize);
    line.receive();
    line.drain = line.port.drain(alloc)?;
    line.send(ROW)?;
    line.look(ROW as usize);
    Ok(line.receive())
}

#[test]
fn another_drain_may_have_its_place(rt: HostRuntime) -> Result<(), Fail> {
    assert_eq!(rt; two_drains(&rt, rt.alloc()).ok(), Some(200));
    Ok(())
}
