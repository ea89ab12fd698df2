//! A file in memory of which one call fails.

ghost use Rattle.std.specs.Prelude.{◌≡◌, ◌++◌, [], OnOk, OnErr};

use journal::Disk;
use std::alloc::Global;
use std::io::{self, ErrorKind};

/// A file in memory whose call of some number fails, counted from 0 among those that change or sync
/// it. It is honest in what it leaves: so many bytes of what was to be appended, or more than a cut
/// was to keep; and what was synced before.
#[derive(Drop)]
pub struct FailingDisk {
    content: Vec<u8>,
    synced: Vec<u8>,
    calls_before: u64,
    bytes_left: usize,
    has_failed: bool,
}

impl FailingDisk {
    /// A file without bytes, whose call of that number fails and leaves so many bytes.
    pub fn new(alloc: Global, calls_before: u64, bytes_left: usize) -> FailingDisk
        ensures { (result.content.items ≡ []) × (result.synced.items ≡ []) }
    {
        FailingDisk {
            content: Vec::new(alloc),
            synced: Vec::new(alloc),
            calls_before,
            bytes_left,
            has_failed: false,
        }
    }

    /// Whether this call is to fail.
    fn is_turn(&mut self) -> bool
        ensures content { self.new.content ≡ self.old.content }
        ensures synced { self.new.synced ≡ self.old.synced }
    {
        if self.calls_before == 0 && !self.has_failed {
            self.has_failed = true;
            return true;
        }
        self.calls_before = self.calls_before.saturating_sub(1);
        false
    }
}

/// Puts bytes at the end.
fn put(content: &mut Vec<u8>, bytes: &[u8]) -> io::Result<()>
    ensures ok { OnOk result (content.new.items ≡ content.old.items ++ bytes.now) }
    ensures err { OnErr result (content.new.items ≡ content.old.items) }
{
    match content.extend_from_slice(bytes) {
        Ok(()) => Ok(()),
        Err(_) => Err(io::Error::from(ErrorKind::OutOfMemory)),
    }
}

impl Disk for FailingDisk {
    ghost use Rattle.std.specs.Prelude.{true};

    ghost content = { λ d. d.content.items };

    ghost synced = { λ d. d.synced.items };

    ghost is_honest = { true };

    fn append(&mut self, _len: u64, bytes: &[u8]) -> io::Result<()> {
        if self.is_turn() {
            let (front, _) = bytes.split_at(self.bytes_left.min(bytes.len()));
            put(&mut self.content, front)?;
            return Err(io::Error::from(ErrorKind::Other));
        }
        put(&mut self.content, bytes)
    }

    fn cut_to(&mut self, len: u64) -> io::Result<()> {
        if self.is_turn() {
            let kept = (len as usize).saturating_add(self.bytes_left);
            self.content.truncate(kept);
            return Err(io::Error::from(ErrorKind::Other));
        }
        self.content.truncate(len as usize);
        Ok(())
    }

    fn sync(&mut self) -> io::Result<()> {
        if self.is_turn() {
            return Err(io::Error::from(ErrorKind::Other));
        }
        match self.content.clone() {
            Ok(synced) => {
                self.synced = synced;
                Ok(())
            }
            Err(_) => Err(io::Error::from(ErrorKind::OutOfMemory)),
        }
    }

    fn read(&self, list: &mut [u8]) -> io::Result<()> {
        let (front, _) = self.content.split_at(list.len());
        list.copy_from_slice(front);
        Ok(())
    }
}
