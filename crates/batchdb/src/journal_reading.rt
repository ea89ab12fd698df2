//! A journal's file, read in blocks, of which is said once a second how much was read.

use crate::failure::Failure;
use crate::files::{len_of, refused};
use nodes::{Host, Progress, percent_of};
use requests::shown;
use std::alloc::Global;
use std::fs::File;
use std::io::{self, Read, Write};
use std::rt::{Clock, Files};

/// How many bytes are read at once.
const BLOCK: u64 = 1 << 20;

/// A journal that is read: its name as it is shown, its length, and how much was read.
#[derive(Drop)]
pub struct Reading<'a, T> {
    progress: Progress<'a, T>,
    name: String,
    len: u64,
    read: u64,
}

impl<'a, T: Clock> Reading<'a, T> {
    /// Of a journal of this name and length, of which nothing was read.
    fn begin(host: Host<'a, T>, shows: bool, path: &str, len: u64) -> Reading<'a, T> {
        Reading {
            progress: Progress::begin(host, shows),
            name: name_of(host.alloc, path),
            len,
            read: 0,
        }
    }

    /// Counts bytes that were read, and says how far it is, if it is to.
    fn count<E: Write>(&mut self, bytes: usize, errors: &mut E) {
        self.read = self.read.saturating_add(bytes as u64);
        if self.progress.is_due() {
            // Who writes to it meanwhile makes it longer.
            let len = self.len.max(self.read);
            let percent = percent_of(self.read, len);
            let rate = self.progress.rate(self.read);
            let _ = writeln!(
                errors,
                "journal {}: read {} of {len} bytes ({percent} %), {rate} a second",
                self.name, self.read
            );
        }
    }
}

/// The name of a journal as it is shown. Without memory for it there is none.
pub fn name_of(alloc: Global, path: &str) -> String {
    shown(alloc, path).unwrap_or(String::new(alloc))
}

/// The bytes of a journal's file. If it is to, it says once a second how much was read.
pub fn journal_bytes<T: Files<File = File> + Clock, E: Write>(
    host: Host<'_, T>,
    path: &str,
    shows: bool,
    errors: &mut E,
) -> Result<Vec<u8>, Failure> {
    let mut bytes = Vec::new(host.alloc);
    let mut file = match File::open(host.rt, path) {
        Ok(file) => file,
        Err(error) => return Err(refused(host.alloc, path, "open", error)),
    };
    let mut reading = Reading::begin(host, shows, path, len_of(host.rt, path));
    for _ in 0..u64::MAX {
        match read_block(&mut file, &mut bytes) {
            Ok(0) => return Ok(bytes),
            Ok(count) => reading.count(count, errors),
            Err(error) => return Err(refused(host.alloc, path, "read", error)),
        }
    }
    Ok(bytes)
}

/// Reads a journal's file ahead, so that the system has its bytes at hand when they are read at once, and says once a second
/// how much was read. What cannot be read is told by who reads it then.
pub fn read_ahead<T: Files<File = File> + Clock, E: Write>(
    host: Host<'_, T>,
    path: &str,
    len: u64,
    errors: &mut E,
) {
    let Ok(mut file) = File::open(host.rt, path) else {
        return;
    };
    let mut reading = Reading::begin(host, true, path, len);
    let mut block = Vec::new(host.alloc);
    for _ in 0..u64::MAX {
        block.clear();
        match read_block(&mut file, &mut block) {
            Ok(0) | Err(_) => return,
            Ok(count) => reading.count(count, errors),
        }
    }
}

/// Reads the next block of a file behind these bytes. How many there were; 0 at its end.
fn read_block<R: Read>(file: &mut R, bytes: &mut Vec<u8>) -> io::Result<usize> {
    file.take(BLOCK).read_to_end(bytes)
}
