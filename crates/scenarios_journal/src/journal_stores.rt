//! What stands in a journal after each call, and after each that fails.

ghost use Rattle.std.specs.Prelude.{◌<◌};
ghost use Rattle.journal.specs.Storing.{faults_max};

use crate::journal_bytes::outcome;
use journal::{JournalStore, MemJournal};
use scenarios_journal_common::failing_journal::{Failing, FailingJournal, Failure};
use scenarios_journal_common::journal_cases::{JOURNAL, JOURNAL_HEADER, JOURNAL_RECORD, Outcome};
use std::alloc::Global;
use std::test::Fail;

/// A call on a journal.
#[derive(Clone, Copy)]
enum Call {
    /// Room is made, and these bytes are appended.
    Append(&'static [u8]),
    /// It is read, and where it has so many bytes it is cut to them.
    CutTo(u64),
    /// It is read.
    ReadAll,
}

/// The header is written and a record, which is cut away and written again.
static CALLS: [Call; 5] = [
    Call::Append(&JOURNAL_HEADER),
    Call::Append(&JOURNAL_RECORD),
    Call::CutTo(9),
    Call::ReadAll,
    Call::Append(&JOURNAL_RECORD),
];

/// Makes a call, and answers whether it was done. The list is left with what was read.
fn make<J: JournalStore>(journal: &mut J, call: Call, list: &mut Vec<u8>) -> Result<bool, Fail> {
    if journal.faults() == u64::MAX {
        return Err("too many faults".into());
    }
    match call {
        Call::Append(bytes) => {
            journal.reserve(bytes.len())?;
            Ok(journal.append(bytes).is_ok())
        }
        Call::CutTo(len) => cut(journal, len, list),
        Call::ReadAll => Ok(journal.read_all(list).is_ok()),
    }
}

/// Reads the journal, and cuts it where it has so many bytes.
fn cut<J: JournalStore>(journal: &mut J, len: u64, list: &mut Vec<u8>) -> Result<bool, Fail>
    requires { J.fault_count journal.old < faults_max }
{
    if journal.read_all(list).is_err() {
        return Ok(false);
    }
    if len > list.len() as u64 {
        return Err("too few bytes".into());
    }
    Ok(journal.cut_to(len).is_ok())
}

/// Makes these calls up to the first that fails.
fn make_all<J: JournalStore>(
    journal: &mut J,
    calls: &[Call],
    list: &mut Vec<u8>,
) -> Result<bool, Fail> {
    for call in calls {
        if !make(journal, *call, list)? {
            return Ok(false);
        }
    }
    Ok(true)
}

/// The number of the call that fails and leaves two bytes; and then how many bytes stand, how many
/// faults there were, and what is recovered.
static LEFT: [(u64, usize, u64, Outcome); 7] = [
    (0, 2, 1, Ok((0, 0))),
    (1, 11, 1, Ok((0, 9))),
    (2, 52, 1, Ok((1, 52))),
    (3, 11, 1, Ok((0, 9))),
    (4, 9, 1, Ok((0, 9))),
    (5, 11, 1, Ok((0, 9))),
    (6, 52, 0, Ok((1, 52))),
];

/// What a journal whose call of that number fails has after the calls: the bytes, which are a
/// beginning of the journal's, and the faults.
fn left_by(alloc: Global, calls_before: u64) -> Result<(usize, u64, Outcome), Fail> {
    let failure = Failure {
        call: Failing::Any,
        calls_before,
        bytes_left: 2,
    };
    let mut journal = FailingJournal::of(Vec::new(alloc), failure);
    left_in(alloc, &mut journal)
}

/// The same of a journal.
fn left_in(alloc: Global, journal: &mut FailingJournal) -> Result<(usize, u64, Outcome), Fail> {
    let mut list = Vec::new(alloc);
    let done = make_all(journal, &CALLS, &mut list)?;
    let faults = journal.faults();
    if done != (faults == 0) || !is_beginning(journal.content()) {
        return Err("other bytes".into());
    }
    let bytes = journal.content();
    Ok((bytes.len(), faults, outcome(alloc, bytes)?))
}

/// Whether these bytes are a beginning of the journal's.
fn is_beginning(bytes: &[u8]) -> bool {
    JOURNAL.starts_with(bytes)
}

/// The index of the first call of which something else is left.
fn other_left(alloc: Global) -> Result<Option<usize>, Fail> {
    for (index, (calls_before, len, faults, recovered)) in LEFT.iter().enumerate() {
        if left_by(alloc, *calls_before)? != (*len, *faults, *recovered) {
            return Ok(Some(index));
        }
    }
    Ok(None)
}

/// Whether a journal in memory does each call.
fn does_each_call(alloc: Global) -> Result<bool, Fail> {
    let mut journal = MemJournal::new(alloc);
    let mut list = Vec::new(alloc);
    is_done(&mut journal, &mut list)
}

/// Whether a journal in memory and a list are left as they should be by each call.
fn is_done(journal: &mut MemJournal, list: &mut Vec<u8>) -> Result<bool, Fail> {
    Ok(
        make_all(journal, &CALLS, list)?
            && journal.faults() == 0
            && journal.content() == JOURNAL.as_slice()
            && list.as_slice() == JOURNAL_HEADER.as_slice(),
    )
}

/// Whether a journal in memory is made of bytes, and a list of others is left with what is read.
fn is_made_of_bytes(alloc: Global) -> Result<bool, Fail> {
    let mut journal = MemJournal::of(Vec::from_slice(alloc, &JOURNAL)?);
    is_cut(alloc, &mut journal)
}

/// Whether it is read into that list, and cut.
fn is_cut(alloc: Global, journal: &mut MemJournal) -> Result<bool, Fail> {
    let mut list = Vec::from_slice(alloc, &[1, 2, 3])?;
    Ok(
        make(journal, Call::CutTo(9), &mut list)?
            && list.as_slice() == JOURNAL.as_slice()
            && journal.content() == JOURNAL_HEADER.as_slice(),
    )
}

/// A call that fails leaves a beginning.
#[test]
fn a_journal_stands_after_each_call(rt: HostRuntime) -> Result<(), Fail> {
    assert_eq!(rt; other_left(rt.alloc())?, None);
    assert!(rt; does_each_call(rt.alloc())?);
    assert!(rt; is_made_of_bytes(rt.alloc())?);
    Ok(())
}

/// Whether the record is appended to a journal in memory, where room was made for it; and where
/// that was refused, nothing was appended, and it is asked for once more.
fn keeps_its_bytes(alloc: Global) -> Result<bool, Fail> {
    let mut journal = MemJournal::of(Vec::from_slice(alloc, &JOURNAL_HEADER)?);
    is_appended(&mut journal)
}

/// The same of a journal with the header.
fn is_appended(journal: &mut MemJournal) -> Result<bool, Fail> {
    if journal.reserve(JOURNAL_RECORD.len()).is_err() {
        if journal.content() != JOURNAL_HEADER.as_slice() {
            return Ok(false);
        }
        journal.reserve(JOURNAL_RECORD.len())?;
    }
    Ok(journal.append(&JOURNAL_RECORD).is_ok() && journal.content() == JOURNAL.as_slice())
}

/// Whichever allocation is refused: what was to be made room for is not appended, and what stands
/// stays.
#[test]
fn a_journal_without_memory_keeps_its_bytes(rt: HostRuntime) -> Result<(), Fail> {
    assert!(rt; keeps_its_bytes(rt.alloc())?);
    Ok(())
}
