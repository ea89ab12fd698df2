//! Files of the programs, and what is said where the system refuses one.

ghost use Rattle.std.specs.Prelude.{◌<◌, ◌≤◌, IfOk};
ghost use Rattle.rows.specs.Limits.{workers_max, replicas_max};

use crate::failure::{Failure, Status};
use requests::{Misread, misread_settings, shown};
use rows::limits::{REPLICAS_MAX, WORKERS_MAX};
use script::{ScriptFault, Setup, read_settings};
use std::alloc::Global;
use std::fs::{File, metadata};
use std::io::{self, Read};
use std::os::fd::{AsRawFd, RawFd};
use std::rt::Files;

/// How many standard streams there are, which have the first descriptors: input, output, errors.
const STREAMS: RawFd = 3;

/// A device that stands for a stream which is missing.
const NULL_DEVICE: &str = "/dev/null";

/// Opens the null device for each standard stream that the program was started without. The files are to be
/// kept as long as it runs: a file that is opened later would get such a stream's descriptor, and be read as
/// the input, or have written into it what is printed.
pub fn fill_standard_streams<H: Files<File = File>>(
    rt: &H,
    alloc: Global,
) -> Result<Vec<File>, Failure> {
    let mut held = Vec::new(alloc);
    for _ in 0..STREAMS {
        let null = match File::options().read(true).write(true).open(rt, NULL_DEVICE) {
            Ok(null) => null,
            Err(error) => return Err(refused(alloc, NULL_DEVICE, "open", error)),
        };
        if null.as_raw_fd() >= STREAMS {
            return Ok(held);
        }
        if held.push(null).is_err() {
            return Err(Failure::Memory);
        }
    }
    Ok(held)
}

/// The bytes of a file.
pub fn file_bytes<H: Files<File = File>>(
    rt: &H,
    alloc: Global,
    path: &str,
) -> Result<Vec<u8>, Failure> {
    let mut file = match File::open(rt, path) {
        Ok(file) => file,
        Err(error) => return Err(refused(alloc, path, "open", error)),
    };
    let mut bytes = Vec::new(alloc);
    match file.read_to_end(&mut bytes) {
        Ok(_) => Ok(bytes),
        Err(error) => Err(refused(alloc, path, "read", error)),
    }
}

/// How many bytes a file has; 0 where the system does not tell.
pub fn len_of<H: Files<File = File>>(rt: &H, path: &str) -> u64 {
    match metadata(rt, path) {
        Ok(found) => found.len(),
        Err(_) => 0,
    }
}

/// The settings of a schema file.
pub fn setup_at<H: Files<File = File>>(rt: &H, alloc: Global, path: &str) -> Result<Setup, Failure>
    ensures { IfOk result (λ setup. (0 < setup.workers) × (setup.workers ≤ workers_max) × (setup.replicas ≤ replicas_max)) }
{
    let bytes = file_bytes(rt, alloc, path)?;
    setup_in(alloc, bytes.as_slice(), path)
}

/// The settings of a schema file that has these bytes.
pub fn setup_in(alloc: Global, bytes: &[u8], path: &str) -> Result<Setup, Failure>
    ensures { IfOk result (λ setup. (0 < setup.workers) × (setup.workers ≤ workers_max) × (setup.replicas ≤ replicas_max)) }
{
    match read_settings(alloc, bytes) {
        Ok(setup) => limited(alloc, setup, path),
        Err(ScriptFault::Memory) => Err(Failure::Memory),
        Err(fault @ ScriptFault::At { line, .. }) => {
            let misread = misread_settings(alloc, bytes, line);
            Err(unread(alloc, path, fault, &misread))
        }
    }
}

/// The same settings. What reads has these limits; a look brings them to the proof.
fn limited(alloc: Global, setup: Setup, path: &str) -> Result<Setup, Failure>
    ensures { IfOk result (λ setup. (0 < setup.workers) × (setup.workers ≤ workers_max) × (setup.replicas ≤ replicas_max)) }
{
    if setup.workers == 0 || setup.workers > WORKERS_MAX || setup.replicas > REPLICAS_MAX {
        return Err(failed(alloc, path, format!(in alloc; "beyond a limit").ok()));
    }
    Ok(setup)
}

/// What is said of a schema file that does not read: the line and the reason, as of a script, then the file and the word.
fn unread(alloc: Global, path: &str, fault: ScriptFault, misread: &Misread) -> Failure {
    let Some(path) = shown(alloc, path) else {
        return Failure::Memory;
    };
    Failure::new(
        Status::NotRead,
        format!(in alloc; "{fault} (SCHEMA {path}){misread}").ok(),
    )
}

/// A call that the system refused at a path or an address, in its words.
pub fn refused(alloc: Global, what: &str, call: &str, error: io::Error) -> Failure {
    failed(alloc, what, format!(in alloc; "{call}: {error}").ok())
}

/// What failed at a path or an address, and why.
pub fn failed(alloc: Global, what: &str, why: Option<String>) -> Failure {
    let Some(what) = shown(alloc, what) else {
        return Failure::Memory;
    };
    let Some(why) = why else {
        return Failure::Memory;
    };
    Failure::new(
        Status::Failed,
        format!(in alloc; "batchdb: {what}: {why}").ok(),
    )
}
