//! What the bytes of a journal keep, and how they are refused.

ghost use Rattle.std.specs.Prelude.{IfOk};
ghost use Rattle.journal.specs.Recovery.{HasRecord};

use journal::{
    Form, JournalFault, Recovered, header_bytes, laws, records, recover, worked_journal,
};
use rows::{Commit, Entry, EntryList, RowId, Schema, fits};
use scenarios_common::wanted::{FIVE, NUMBERS, Wanted, made};
use scenarios_journal_common::journal_cases::{
    ADD_BYTE, CASES, Case, JOURNAL, JOURNAL_HEADER, JOURNAL_RECORD, Outcome, bytes_of, front,
};
use scenarios_journal_common::old_journal_cases::Formed;
use std::alloc::Global;
use std::slice::from_ref;
use std::test::Fail;

/// What is recovered of bytes, of two workers and of accounts, and the form of their text.
pub fn formed(alloc: Global, bytes: &[u8]) -> Result<Formed, Fail> {
    let schema = Schema::new(alloc, &NUMBERS)?;
    Ok(formed_of(recover(alloc, bytes, &schema, 2)))
}

/// What was recovered, and its form.
fn formed_of(recovered: Result<Recovered, JournalFault>) -> Formed {
    match recovered {
        Ok(recovered) => Ok((
            recovered.commits.len(),
            recovered.bytes_kept,
            recovered.form,
        )),
        Err(fault) => Err(fault),
    }
}

/// The same of a text that is of version 2 from the beginning.
pub fn outcome(alloc: Global, bytes: &[u8]) -> Result<Outcome, Fail> {
    match formed(alloc, bytes)? {
        Ok((count, kept, Form::New)) => Ok(Ok((count, kept))),
        Ok(_) => Err("a text of another form".into()),
        Err(fault) => Ok(Err(fault)),
    }
}

/// Whether that is recovered of a case.
fn is_recovered(alloc: Global, case: &Case) -> Result<bool, Fail> {
    let (len, changes, behind, recovered) = case;
    let bytes = bytes_of(alloc, &(*len, *changes, *behind))?;
    Ok(outcome(alloc, &bytes)? == *recovered)
}

/// The index of the first case of which something else is recovered.
fn other_case(alloc: Global) -> Result<Option<usize>, Fail> {
    for (index, case) in CASES.iter().enumerate() {
        if !is_recovered(alloc, case)? {
            return Ok(Some(index));
        }
    }
    Ok(None)
}

#[test]
fn bytes_keep_what_is_whole_and_legal(rt: HostRuntime) -> Result<(), Fail> {
    assert_eq!(rt; other_case(rt.alloc())?, None);
    Ok(())
}

/// The record of a commit of that number: worker 0 adds a column of each of these kinds to table 0.
fn push_columns(bytes: &mut Vec<u8>, number: u8, kinds: &[u8]) -> Result<(), Fail> {
    let mut len: u32 = 11;
    for kind in kinds {
        len = len.saturating_add(width_of(*kind)).saturating_add(3);
    }
    bytes.extend_from_slice(&len.to_be_bytes())?;
    bytes.extend_from_slice(&[0, 0, 0, 0, 0, 0, 0, 0, number])?;
    bytes.extend_from_slice(&(kinds.len().min(4096) as u16).to_be_bytes())?;
    for kind in kinds {
        bytes.extend_from_slice(&[4, 0, *kind])?;
        for _ in 0..width_of(*kind) {
            bytes.push(0x61)?;
        }
    }
    Ok(())
}

/// How many bytes a value takes whose kind is this byte.
fn width_of(kind: u8) -> u32 {
    if kind == 0 { 8 } else { u32::from(kind) }
}

/// The journal, and commits behind its own, each with a column of each of these kinds.
fn with_columns(alloc: Global, commits: &[&[u8]]) -> Result<Vec<u8>, Fail> {
    let mut bytes = Vec::from_slice(alloc, &JOURNAL)?;
    let mut number: u8 = 1;
    for kinds in commits {
        number = number.saturating_add(1);
        push_columns(&mut bytes, number, kinds)?;
    }
    Ok(bytes)
}

/// What is recovered of them.
fn outcome_with_columns(alloc: Global, commits: &[&[u8]]) -> Result<Outcome, Fail> {
    let bytes = with_columns(alloc, commits)?;
    outcome(alloc, &bytes)
}

/// The kinds of the columns that each commit adds, and what is recovered.
type Wider = (&'static [&'static [u8]], Outcome);

/// Columns that are added to accounts, which have two of 8 bytes: up to 16 of them, and up to 512
/// bytes, each of 1 to 64.
const WIDER: [Wider; 15] = [
    (&[&[1]], Ok((2, 71))),
    (&[&[0]], Ok((2, 78))),
    (&[&[64]], Ok((2, 134))),
    (&[&[65]], Err(JournalFault::Damaged(52))),
    (&[&[1], &[65]], Err(JournalFault::Damaged(71))),
    (&[&[255]], Err(JournalFault::Damaged(52))),
    (&[&[1, 0, 2]], Ok((2, 87))),
    // The 16th column, and the 17th: in one commit, and in one of its own.
    (&[&[1; 14]], Ok((2, 123))),
    (&[&[1; 15]], Err(JournalFault::Illegal(52))),
    (&[&[1; 14], &[1]], Err(JournalFault::Illegal(123))),
    (&[&[1; 13], &[1], &[0]], Err(JournalFault::Illegal(138))),
    // Rows of 512 bytes, and of 513.
    (&[&[64; 7]], Ok((2, 536))),
    (&[&[64; 8]], Err(JournalFault::Illegal(52))),
    (&[&[64; 7], &[48]], Ok((3, 602))),
    (&[&[64; 7], &[49]], Err(JournalFault::Illegal(536))),
];

/// The index of the first of these of which something else is recovered.
fn other_width(alloc: Global) -> Result<Option<usize>, Fail> {
    for (index, (commits, recovered)) in WIDER.iter().enumerate() {
        if outcome_with_columns(alloc, commits)? != *recovered {
            return Ok(Some(index));
        }
    }
    Ok(None)
}

#[test]
fn columns_are_added_up_to_the_limits(rt: HostRuntime) -> Result<(), Fail> {
    assert_eq!(rt; other_width(rt.alloc())?, None);
    Ok(())
}

/// The first number of bytes of the record of an added column behind the journal of which something
/// else is recovered than a torn end.
fn other_torn_column(alloc: Global) -> Result<Option<usize>, Fail> {
    for len in 0..19 {
        if outcome_of_column(alloc, len)? != Ok((1, 52)) {
            return Ok(Some(len));
        }
    }
    Ok(None)
}

/// What is recovered of the journal and so many bytes of the record of an added column behind it.
fn outcome_of_column(alloc: Global, len: usize) -> Result<Outcome, Fail> {
    let mut bytes = Vec::from_slice(alloc, &JOURNAL)?;
    bytes.extend_from_slice(front(&ADD_BYTE, len))?;
    outcome(alloc, &bytes)
}

#[test]
fn an_added_column_is_torn_at_each_byte(rt: HostRuntime) -> Result<(), Fail> {
    assert_eq!(rt; other_torn_column(rt.alloc())?, None);
    Ok(())
}

/// Whether one commit is kept, and it is that of the journal.
fn is_of_journal(recovered: &Recovered) -> bool {
    match recovered.commits.as_slice() {
        [commit] => commit.worker == 0 && is_insert(commit.entries.as_slice()),
        _ => false,
    }
}

/// Whether there is one entry, and it is that of the journal.
fn is_insert(entries: &[Entry]) -> bool {
    match entries {
        [Entry::Insert { table, row, bytes }] => {
            *table == 0 && *row == RowId(7) && bytes.as_slice() == FIVE.as_slice()
        }
        _ => false,
    }
}

/// Whether the commit of the journal is recovered as it was.
fn is_recovered_as_it_was(alloc: Global, schema: &Schema) -> Result<bool, Fail> {
    let recovered = recover(alloc, &JOURNAL, schema, 2)?;
    Ok(is_of_journal(&recovered))
}

/// The commit of the journal.
fn commit(alloc: Global, schema: &Schema) -> Result<Commit, Fail>
    ensures { IfOk result HasRecord }
{
    let insert = made(alloc, &Wanted::Insert(0, 7, &FIVE))?;
    fits(schema, &insert)?;
    let mut entries = EntryList::new(alloc);
    entries.push(insert)?;
    Ok(Commit { worker: 0, entries })
}

/// The record of that commit.
fn record(alloc: Global, schema: &Schema) -> Result<Vec<u8>, Fail> {
    let commit = commit(alloc, schema)?;
    Ok(records(alloc, from_ref(&commit), 1)?)
}

/// Whether the header and that record are the bytes of the journal.
fn is_written(alloc: Global, schema: &Schema) -> Result<bool, Fail> {
    Ok(is_header_written(alloc, schema)? && is_record_written(alloc, schema)?)
}

/// Whether the header is.
fn is_header_written(alloc: Global, schema: &Schema) -> Result<bool, Fail> {
    let header = header_bytes(alloc, 2, schema)?;
    Ok(header.as_slice() == JOURNAL_HEADER.as_slice())
}

/// Whether the record is.
fn is_record_written(alloc: Global, schema: &Schema) -> Result<bool, Fail> {
    let record = record(alloc, schema)?;
    Ok(record.as_slice() == JOURNAL_RECORD.as_slice())
}

#[test]
fn a_commit_is_written_and_recovered(rt: HostRuntime) -> Result<(), Fail> {
    worked_journal();
    laws::texts_determine_commits();
    let schema = Schema::new(rt.alloc(), &NUMBERS)?;
    assert!(rt; is_written(rt.alloc(), &schema)?);
    assert!(rt; is_recovered_as_it_was(rt.alloc(), &schema)?);
    Ok(())
}

/// Whether all is recovered, at once or where it was refused for memory and is asked for again.
fn is_recovered_again(alloc: Global) -> Result<bool, Fail> {
    let whole = Ok((1, 52));
    match outcome(alloc, &JOURNAL)? {
        Err(JournalFault::Memory) => Ok(outcome(alloc, &JOURNAL)? == whole),
        found => Ok(found == whole),
    }
}

/// Whichever allocation is refused: recovery says so, or has recovered all.
#[test]
fn recovery_without_memory_says_so(rt: HostRuntime) -> Result<(), Fail> {
    assert!(rt; is_recovered_again(rt.alloc())?);
    Ok(())
}
