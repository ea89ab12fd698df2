//! What is read of a text, arriving all at once and byte by byte.

use crate::pieces::Pieces;
use crate::transcripts::{write_batches, write_jobs};
use requests::Dialect;
use script::{Setup, read_settings};
use std::alloc::Global;
use std::test::Fail;

/// Two workers, accounts of two numbers, and sites of two bytes.
const SETTINGS: &str = "workers 2\nreplicas 1\ntable acct int int\ntable site bytes2\n";

/// The setup of these scenarios.
pub fn setup(alloc: Global) -> Result<Setup, Fail> {
    Ok(read_settings(alloc, SETTINGS.as_bytes())?)
}

/// What is read of lines of jobs, if it is the same all at once and byte by byte.
pub fn jobs_of(alloc: Global, dialect: Dialect, lines: &[u8]) -> Result<String, Fail> {
    let setup = setup(alloc)?;
    let mut whole = String::new(alloc);
    write_jobs(
        &mut whole,
        alloc,
        &setup,
        dialect,
        &mut Pieces::whole(lines),
    )?;
    let mut slow = String::new(alloc);
    write_jobs(&mut slow, alloc, &setup, dialect, &mut Pieces::slow(lines))?;
    either(whole, slow)
}

/// What is read of lines of batches, if it is the same all at once and byte by byte.
pub fn batches_of(alloc: Global, lines: &[u8]) -> Result<String, Fail> {
    let setup = setup(alloc)?;
    let mut whole = String::new(alloc);
    write_batches(&mut whole, alloc, &setup, &mut Pieces::whole(lines))?;
    let mut slow = String::new(alloc);
    write_batches(&mut slow, alloc, &setup, &mut Pieces::slow(lines))?;
    either(whole, slow)
}

/// One of two texts that are to be equal.
fn either(one: String, other: String) -> Result<String, Fail> {
    if one.as_str() == other.as_str() {
        Ok(one)
    } else {
        Err(Fail::new("read in another way byte by byte"))
    }
}
