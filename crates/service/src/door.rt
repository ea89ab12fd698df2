//! A listener whose connections are handed to threads.

use crate::hall::Hall;
use crate::readiness::Readiness;
use crate::refused::refuse;
use mio::net::TcpListener;
use std::alloc::Global;
use std::io;
use std::net::{Net, SocketAddr, TcpStream};
use std::sync::Wait;
use std::time::Duration;

/// The longest wait of a turn, and of a call of a connection, in milliseconds.
const WAIT_MILLIS: u64 = 100;

/// How many connections are taken in a turn, at most.
const ACCEPTS_MAX: u32 = 64;

/// A listener.
#[derive(Drop)]
pub struct Door {
    listener: TcpListener,
    readiness: Readiness,
    /// Whether a turn ended with connections left, of which the listener does not tell again.
    may_have_more: bool,
    /// Connections for which no thread was free, up to the greatest number.
    refused: u64,
}

impl Door {
    /// Listens at an address; with port 0 the system chooses one. Fails if the system refuses a call, or
    /// out of memory.
    pub fn open<N: Net>(net: &N, alloc: Global, address: SocketAddr) -> io::Result<Door> {
        let mut listener = TcpListener::bind(net, address)?;
        let readiness = Readiness::new(net, alloc, &mut listener)?;
        Ok(Door {
            listener,
            readiness,
            may_have_more: false,
            refused: 0,
        })
    }

    /// The address at which it listens.
    pub fn local_addr(&self) -> io::Result<SocketAddr> {
        self.listener.local_addr()
    }

    /// How many connections found no thread free, up to the greatest number.
    pub fn refused(&self) -> u64 {
        self.refused
    }

    /// Waits for a connection, 100 ms at most, and hands each that has come, 64 at most, to a thread that
    /// is free. If none is, it is answered 503 and closed. The calls of a connection that is handed on
    /// wait for 100 ms at most.
    ///
    /// Fails if the system refuses to wait. A connection that fails at once is dropped.
    pub fn turn<R: Wait>(&mut self, rt: &R, hall: &Hall<TcpStream>) -> io::Result<()> {
        let wait = if self.may_have_more { 0 } else { WAIT_MILLIS };
        self.readiness.wait(wait)?;
        for _ in 0..ACCEPTS_MAX {
            match self.listener.accept() {
                Ok((stream, _)) => self.hand_on(rt, hall, TcpStream::from(stream)),
                Err(_) => {
                    // None waits, or the system refuses for now: the next turn tries again, after its wait.
                    self.may_have_more = false;
                    return Ok(());
                }
            }
        }
        self.may_have_more = true;
        Ok(())
    }

    /// Hands a connection to a thread that is free, or says that none is.
    fn hand_on<R: Wait>(&mut self, rt: &R, hall: &Hall<TcpStream>, stream: TcpStream) {
        if prepare(&stream).is_err() {
            return;
        }
        if let Err(mut stream) = hall.put(rt, stream) {
            self.refused = self.refused.saturating_add(1);
            let _ = stream.set_nonblocking(true);
            refuse(&mut stream);
        }
    }
}

/// Has the calls of a connection wait, for 100 ms at most.
fn prepare(stream: &TcpStream) -> io::Result<()> {
    let wait = Some(Duration::from_millis(WAIT_MILLIS));
    stream.set_nonblocking(false)?;
    stream.set_nodelay(true)?;
    stream.set_read_timeout(wait)?;
    stream.set_write_timeout(wait)
}
