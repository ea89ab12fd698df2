//! What takes datagrams from the socket of a port whose node is at work.

ghost use Rattle.std.specs.Prelude.{◌≤◌, length};
ghost use Rattle.sockets.specs.Ports.{IsWithin};

use crate::turns::BUFFER_LEN;
use rtrb::{Consumer, Producer, RingBuffer};
use std::alloc::{AllocError, Global};
use std::mem;
use std::net::UdpSocket;
use std::sync::Arc;
use std::sync::atomic::{AtomicU64, Ordering};

/// How many datagrams are held, at most: at 50,000 a second those of 300 ms.
const BACKLOG_MAX: usize = 16_384;

/// How many datagrams are taken in one look, at most.
const LOOK_DATAGRAMS: usize = 1024;

/// A second receiver of a port's socket, for another thread: it takes what comes while the port's node is at work, since
/// the socket would hold no more than some hundred datagrams until then. The port hands them out first.
#[derive(Drop)]
pub struct Drain {
    alloc: Global,
    socket: UdpSocket,
    taken: Producer<Vec<u8>, Global>,
    receives: Arc<AtomicU64, Global>,
    /// How many receives had begun or ended at the last look.
    seen: u64,
    buffer: [u8; BUFFER_LEN],
}

/// What a port has of its drain.
#[derive(Drop)]
pub struct Backlog {
    datagrams: Consumer<Vec<u8>, Global>,
    /// How many receives of the port have begun or ended: an odd number while it is in one.
    receives: Arc<AtomicU64, Global>,
    /// Whether a datagram was taken from here since it ran out last.
    is_used: bool,
}

/// A drain for a socket, and what its port has of it. Fails only if out of memory.
pub fn drain_of(alloc: Global, socket: UdpSocket) -> Result<(Drain, Backlog), AllocError> {
    let (taken, datagrams) = RingBuffer::new(alloc, BACKLOG_MAX)?;
    let receives = Arc::new(alloc, AtomicU64::new(0))?;
    let theirs = Arc::try_clone(&receives)?;
    let drain = Drain {
        alloc,
        socket,
        taken,
        receives,
        seen: 0,
        buffer: [0u8; BUFFER_LEN],
    };
    let backlog = Backlog {
        datagrams,
        receives: theirs,
        is_used: false,
    };
    Ok((drain, backlog))
}

impl Drain {
    /// Takes what has come, 1024 datagrams at most, if the port's node has been at work since the last look: if no receive
    /// of the port was under way then, nor has been since. It stops once one begins, and where 16,384 datagrams are held.
    /// Answers how many it took. One for which there is no memory is then lost.
    pub fn look(&mut self) -> usize
        ensures { result ≤ 1024 }
    {
        let receives = self.receives.load(Ordering::SeqCst);
        let is_at_work = receives % 2 == 0 && receives == self.seen;
        self.seen = receives;
        if !is_at_work {
            return 0;
        }
        for count in 0..LOOK_DATAGRAMS {
            let has_begun = self.receives.load(Ordering::SeqCst) != receives;
            if has_begun || self.taken.is_full() || !self.take() {
                return count;
            }
        }
        LOOK_DATAGRAMS
    }

    /// Takes one datagram, and answers whether there was one.
    fn take(&mut self) -> bool {
        let Ok((len, _)) = self.socket.recv_from(&mut self.buffer) else {
            return false;
        };
        if let Ok(mut bytes) = Vec::with_capacity(self.alloc, len) {
            if bytes.extend_from_slice(&self.buffer[..len]).is_ok() {
                let _ = self.taken.push(bytes);
            }
        }
        true
    }
}

impl Backlog {
    /// Notes that a receive begins or ends.
    pub fn note_receive(&self) {
        self.receives.fetch_add(1, Ordering::SeqCst);
    }

    /// The first of the datagrams that are held, as `recv` of a port hands it out; `None` if none is.
    pub fn take(&mut self, buffer: &mut [u8]) -> Option<usize>
        ensures { IsWithin (length buffer.new) result }
    {
        let Ok(bytes) = self.datagrams.pop() else {
            return None;
        };
        self.is_used = true;
        let len = bytes.len().min(buffer.len());
        buffer[..len].copy_from_slice(&bytes[..len]);
        Some(len)
    }

    /// Whether it has run out: whether datagrams were taken from here since this was asked last.
    pub fn has_run_out(&mut self) -> bool {
        mem::replace(&mut self.is_used, false)
    }
}
