//! Standard input that is read without waiting for long, and closed where it ends.

use mio::unix::SourceFd;
use mio::{Events, Interest, Poll, Token};
use std::alloc::Global;
use std::io::{self, ErrorKind, Read};
use std::net::Net;
use std::os::fd::RawFd;
use std::time::Duration;

/// The descriptor of standard input.
const STDIN: RawFd = 0;

/// How long a read waits, at most, in milliseconds.
const WAIT_MILLIS: u64 = 10;

/// A reader of standard input whose reads wait for a moment at most: where nothing came they fail with
/// `WouldBlock`, so that the thread that reads can see whether it is to end. Where the input ends it is closed.
#[derive(Drop)]
pub struct PolledInput<R: Read + Drop> {
    input: R,
    /// `None` for what cannot be waited for, as a regular file, which never makes a reader wait.
    poll: Option<Poll>,
    events: Events,
    has_ended: bool,
}

impl<R: Read + Drop> PolledInput<R> {
    /// A reader of standard input, which `input` reads.
    pub fn new<N: Net>(net: &N, alloc: Global, input: R) -> io::Result<PolledInput<R>> {
        let poll = Poll::new(net)?;
        let events = Events::with_capacity(alloc, 1)?;
        let registered = poll
            .registry()
            .register(&mut SourceFd(&STDIN), Token(0), Interest::READABLE);
        let poll = match registered {
            Ok(()) => Some(poll),
            Err(_) => None,
        };
        Ok(PolledInput {
            input,
            poll,
            events,
            has_ended: false,
        })
    }

    /// Whether a read need not wait: something came, or the end.
    fn is_ready(&mut self) -> io::Result<bool> {
        let Some(poll) = &mut self.poll else {
            return Ok(true);
        };
        // It is registered anew for each wait, since a wait is told of changes alone, and what an earlier
        // read left is none.
        poll.registry()
            .reregister(&mut SourceFd(&STDIN), Token(0), Interest::READABLE)?;
        poll.poll(&mut self.events, Some(Duration::from_millis(WAIT_MILLIS)))?;
        Ok(!self.events.is_empty())
    }

    /// Closes standard input: a FIFO then has one reader less, so that nobody writes into it what is not read. An empty set of
    /// events, from which nothing can be read, takes its descriptor, or else a file that is opened later would.
    fn close(&mut self) {
        self.has_ended = true;
        self.poll = None;
        let _ = libc::close(STDIN);
        let _ = libc::net::epoll_create1(libc::net::EPOLL_CLOEXEC);
    }
}

impl<R: Read + Drop> Read for PolledInput<R> {
    fn read(&mut self, buf: &mut [u8]) -> io::Result<usize> {
        if self.has_ended {
            return Ok(0);
        }
        if !self.is_ready()? {
            return Err(io::Error::from(ErrorKind::WouldBlock));
        }
        let len = self.input.read(buf)?;
        if len == 0 && !buf.is_empty() {
            self.close();
        }
        Ok(len)
    }
}
