//! A list of commits that keep a sum: the first inserts two accounts that hold 0, and each of the
//! others moves 1 from the first account to the second.

ghost use Rattle.std.specs.Prelude.{IfOk};
ghost use Rattle.rows.specs.Shape.{shape_of};
ghost use Rattle.journal.specs.Recovery.{IsJournaled};

use byteorder::{BigEndian, ByteOrder};
use journal::laws::beginnings_are_journaled;
use journal::{JournalFault, Recovered, header_bytes, recover};
use rows::{Commit, Kind, Schema, SchemaFault};
use std::alloc::{AllocError, Global};
use std::test::Fail;

/// Accounts of one number.
pub fn accounts(alloc: Global) -> Result<Schema, SchemaFault> {
    Schema::new(alloc, &[("accounts", &[Kind::Int])])
}

/// The record of the first commit, of worker 0: it inserts the rows 0 and 1 with the value 0.
const INSERTS: [u8; 55] = *b"\0\0\0\x33\0\0\0\0\0\0\0\0\x01\0\x02\
    \x01\0\0\0\0\0\0\0\0\0\0\x08\0\0\0\0\0\0\0\0\
    \x01\0\0\0\0\0\0\0\0\x01\0\x08\0\0\0\0\0\0\0\0";

/// The record of a commit of worker 0 that patches the column of the rows 0 and 1. Its number and the
/// values are put in at 5, 29 and 51.
const PATCHES: [u8; 59] = *b"\0\0\0\x37\0\0\0\0\0\0\0\0\0\0\x02\
    \x02\0\0\0\0\0\0\0\0\0\0\0\0\x08\0\0\0\0\0\0\0\0\
    \x02\0\0\0\0\0\0\0\0\x01\0\0\0\x08\0\0\0\0\0\0\0\0";

/// The record of the commit of a number above 1.
fn transfer(number: u64) -> [u8; 59] {
    let moved = number.wrapping_sub(1);
    let mut record = PATCHES;
    BigEndian::write_u64(&mut record[5..], number);
    BigEndian::write_u64(&mut record[29..], moved.wrapping_neg());
    BigEndian::write_u64(&mut record[51..], moved);
    record
}

/// The journal of so many commits.
fn journal_of(alloc: Global, schema: &Schema, count: u64) -> Result<Vec<u8>, AllocError> {
    let mut text = header_bytes(alloc, 1, schema)?;
    text.extend_from_slice(&INSERTS)?;
    for number in 2..=count {
        text.extend_from_slice(&transfer(number))?;
    }
    Ok(text)
}

/// So many commits, as a journal keeps them.
pub fn transfers(alloc: Global, schema: &Schema, count: u64) -> Result<Vec<Commit>, Fail>
    ensures { IfOk result (λ commits. IsJournaled 1 (shape_of schema.now) commits.items) }
{
    let text = journal_of(alloc, schema, count)?;
    match kept(alloc, text.as_slice(), schema) {
        Ok(commits) if commits.len() as u64 == count => Ok(commits),
        Err(JournalFault::Memory) => Err("out of memory".into()),
        _ => Err("the journal is read otherwise".into()),
    }
}

/// The commits that the bytes of a journal keep.
#[tactic(auto, using(crate::proofs::Kept::recovered_journaled))]
fn kept(alloc: Global, text: &[u8], schema: &Schema) -> Result<Vec<Commit>, JournalFault>
    ensures { IfOk result (λ commits. IsJournaled 1 (shape_of schema.now) commits.items) }
{
    beginnings_are_journaled();
    let Recovered {
        commits,
        form: _,
        bytes_kept: _,
    } = recover(alloc, text, schema, 1)?;
    Ok(commits)
}
