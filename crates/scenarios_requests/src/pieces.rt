//! Input that arrives in pieces.

use std::io::{self, ErrorKind, Read};

/// A reader of bytes that gives a few at a time, and may make each read wait once.
#[derive(Drop)]
pub struct Pieces<'a> {
    rest: &'a [u8],
    /// Bytes that one read gives, at most.
    size: usize,
    /// Whether a read fails with `WouldBlock` before each one that gives bytes.
    waits: bool,
    has_waited: bool,
}

impl<'a> Pieces<'a> {
    /// All at once.
    pub fn whole(bytes: &'a [u8]) -> Pieces<'a> {
        Pieces {
            rest: bytes,
            size: usize::MAX,
            waits: false,
            has_waited: false,
        }
    }

    /// One byte at a time, each after a read that would have to wait.
    pub fn slow(bytes: &'a [u8]) -> Pieces<'a> {
        Pieces {
            rest: bytes,
            size: 1,
            waits: true,
            has_waited: false,
        }
    }
}

impl Read for Pieces<'_> {
    fn read(&mut self, buf: &mut [u8]) -> io::Result<usize> {
        if self.waits && !self.has_waited {
            self.has_waited = true;
            return Err(ErrorKind::WouldBlock.into());
        }
        self.has_waited = false;
        let count = self.size.min(buf.len()).min(self.rest.len());
        let (front, rest) = self.rest.split_at(count);
        buf[..count].copy_from_slice(front);
        self.rest = rest;
        Ok(count)
    }
}
