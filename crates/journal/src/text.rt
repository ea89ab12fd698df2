//! The records of commits.

ghost use Rattle.std.specs.Prelude.{◌≡◌, ◌+◌, ◌-◌, ◌^◌, ◌<◌, ◌≤◌, ◌∷◌, [], ◌++◌, length, IfOk, OnOk};
ghost use Rattle.std.specs.List.{AllByRecursion, flat_map};
ghost use Rattle.byteorder.specs.Endian.{big_bytes};
ghost use Rattle.rows.specs.Spelling.{HasSpelling, entry_spelling};
ghost use Rattle.journal.specs.Recovery.{HasRecord};
ghost use Rattle.journal.specs.Text.{record_of, records_from};

use byteorder::{BigEndian, ByteOrder};
use rows::limits::{COMMIT_ENTRIES_MAX, ROW_WIDTH_MAX};
use rows::{Commit, Entry, entry_len, write_entry};
use std::alloc::{AllocError, Global};

/// Bytes of a record between its length and its entries: worker, number, how many entries.
pub const RECORD_FRONT_LEN: usize = 1 + 8 + 2;

/// Bytes of an entry, at most: those of an insert of the widest row.
pub const ENTRY_LEN_MAX: usize = 1 + 1 + 8 + 2 + ROW_WIDTH_MAX;

/// The mark behind which a journal of version 1 goes on as version 2: a length of 0.
pub const MARK: [u8; 4] = [0; 4];

/// The records of commits, numbered from `first`, which is at least 1. Each commit has 1 to 4096
/// entries, each with a spelling. Fails only if out of memory.
pub fn records(alloc: Global, commits: &[Commit], first: u64) -> Result<Vec<u8>, AllocError>
    requires held { AllByRecursion HasRecord commits.now }
    requires numbered { 0 < first }
    requires countable { first + length commits.now ≤ 2 ^ 64 }
    ensures { IfOk result (λ bytes. bytes.items ≡ records_from (first - 1) commits.now) }
{
    let mut bytes = Vec::new(alloc);
    let mut number = first - 1;
    for commit in commits {
        number += 1;
        push_record(&mut bytes, number, commit)?;
    }
    Ok(bytes)
}

/// Adds the record of a commit.
fn push_record(bytes: &mut Vec<u8>, number: u64, commit: &Commit) -> Result<(), AllocError>
    requires { HasRecord commit.now }
    ensures { OnOk result (bytes.new.items ≡ bytes.old.items ++ record_of number commit.now) }
{
    let entries = commit.entries.as_slice();
    let front = record_front(
        body_len(entries),
        commit.worker,
        number,
        entries.len() as u16,
    );
    bytes.extend_from_slice(&front)?;
    for entry in entries {
        push_entry(bytes, entry)?;
    }
    Ok(())
}

/// How many bytes of a record follow its length.
fn body_len(entries: &[Entry]) -> u32
    requires few { length entries.now ≤ COMMIT_ENTRIES_MAX }
    requires spelled { AllByRecursion HasSpelling entries.now }
    ensures { result ≡ RECORD_FRONT_LEN + length (flat_map entry_spelling entries.now) }
{
    let mut len = RECORD_FRONT_LEN as u32;
    for entry in entries {
        len += entry_len(entry) as u32;
    }
    len
}

/// The bytes of a record before its entries.
fn record_front(len: u32, worker: u8, number: u64, count: u16) -> [u8; 15]
    ensures { result ≡ big_bytes 4 len ++ (worker ∷ []) ++ big_bytes 8 number ++ big_bytes 2 count }
{
    let mut front = [0; 15];
    BigEndian::write_u32(&mut front, len);
    front[4] = worker;
    BigEndian::write_u64(&mut front[5..], number);
    BigEndian::write_u16(&mut front[13..], count);
    front
}

/// Adds the spelling of an entry.
fn push_entry(bytes: &mut Vec<u8>, entry: &Entry) -> Result<(), AllocError>
    requires { HasSpelling entry.now }
    ensures { OnOk result (bytes.new.items ≡ bytes.old.items ++ entry_spelling entry.now) }
{
    let mut buffer = [0u8; ENTRY_LEN_MAX];
    let len = write_entry(entry, &mut buffer);
    bytes.extend_from_slice(&buffer[..len])
}
