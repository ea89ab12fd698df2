//! A socket in memory.

use service::Socket;
use std::alloc::Global;
use std::io::{self, ErrorKind, Read, Write};

/// What a call that goes wrong says.
#[derive(Clone, Copy, PartialEq, Eq, Debug)]
pub enum Trouble {
    None,
    /// The call would have to wait.
    Waits,
    /// The socket fails.
    Fails,
}

/// How a socket gives and takes bytes.
#[derive(Clone, Copy, PartialEq, Eq, Debug)]
pub struct Habits {
    /// How many bytes a read gives at most, and a write takes at most.
    pub piece: usize,
    /// What goes wrong, once, after so many calls.
    pub trouble: Trouble,
    pub calls_before: u64,
    /// Whether the input ends after its bytes; otherwise more may come.
    pub ends: bool,
}

/// With all bytes at once, and no trouble.
pub const PLAIN: Habits = Habits {
    piece: usize::MAX,
    trouble: Trouble::None,
    calls_before: 0,
    ends: false,
};

/// The side of a connection that serves, with what its client sends and has been sent.
#[derive(Drop)]
pub struct MemorySocket<'a> {
    rest: &'a [u8],
    sent: Vec<u8>,
    habits: Habits,
    calls: u64,
    /// Whether the writing has ended.
    pub has_ended: bool,
}

impl<'a> MemorySocket<'a> {
    /// Whose client sends these bytes.
    pub fn new(alloc: Global, input: &'a [u8], habits: Habits) -> MemorySocket<'a> {
        MemorySocket {
            rest: input,
            sent: Vec::new(alloc),
            habits,
            calls: 0,
            has_ended: false,
        }
    }

    /// What was sent.
    pub fn sent(&self) -> &[u8] {
        self.sent.as_slice()
    }

    /// How many bytes were not read.
    pub fn left(&self) -> usize {
        self.rest.len()
    }

    /// Counts a call, and fails it if it is the one that goes wrong.
    fn call(&mut self) -> io::Result<()> {
        let is_next = self.calls == self.habits.calls_before;
        self.calls = self.calls.saturating_add(1);
        match self.habits.trouble {
            Trouble::Waits if is_next => Err(ErrorKind::WouldBlock.into()),
            Trouble::Fails if is_next => Err(ErrorKind::BrokenPipe.into()),
            _ => Ok(()),
        }
    }
}

impl Read for MemorySocket<'_> {
    fn read(&mut self, buf: &mut [u8]) -> io::Result<usize> {
        self.call()?;
        if self.rest.is_empty() && !self.habits.ends {
            return Err(ErrorKind::WouldBlock.into());
        }
        let count = self.habits.piece.min(buf.len()).min(self.rest.len());
        let (front, rest) = self.rest.split_at(count);
        buf[..count].copy_from_slice(front);
        self.rest = rest;
        Ok(count)
    }
}

impl Write for MemorySocket<'_> {
    fn write(&mut self, buf: &[u8]) -> io::Result<usize> {
        self.call()?;
        let count = self.habits.piece.min(buf.len());
        self.sent.extend_from_slice(&buf[..count])?;
        Ok(count)
    }

    fn flush(&mut self) -> io::Result<()> {
        Ok(())
    }
}

impl Socket for MemorySocket<'_> {
    fn end_writing(&mut self) -> io::Result<()> {
        self.has_ended = true;
        Ok(())
    }
}
