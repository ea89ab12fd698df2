//! Runs on the bytes of a journal of version 1.

use journal::JournalFault;
use script::write_text_of;
use std::alloc::Global;
use std::test::Fail;
use std::thread::Threads;
use world::{read_script, run_on_journal};

/// Commit 1 of worker 0, which inserts row 7 with the values 5 and -1, in a journal of version 1.
const OLD_JOURNAL: [u8; 52] = [
    0x42, 0x44, 0x4a, 0x31, 2, 1, 2, 0, 0, 0, 0, 0, 0x27, 0, 0, 0, 0, 0, 0, 0, 0, 1, 0, 1, 1, 0, 0,
    0, 0, 0, 0, 0, 0, 7, 0, 0x10, 0, 0, 0, 0, 0, 0, 0, 5, 0xff, 0xff, 0xff, 0xff, 0xff, 0xff, 0xff,
    0xff,
];

/// The primary is stopped at first. Its start marks the journal; a stop leaves all but a byte of the
/// record of an added column, and the next start cuts that off. Then the column is added again.
const SCRIPT: &str = "workers 2
replicas 1
table acct int int
begin
start
begin
get 0 acct 7 0
column 0 acct 3
get 0 acct 7 2
commit 0 1
stop 25
start
begin
column 1 acct 3
commit 1 1
flush 1
stop 0
start
push 0 0
push 1 0
deliver 0 r0
deliver 1 r0
open 0 query acct get count
ask 0
deliver 2 p
deliver 3 r0
run 0
dump 0
";

const PRINTED: &str = "stopped
durable 1
tx 0 at 1
value 5
ok
value 3
ticket 2
stopped
durable 1
tx 1 at 1
ok
ticket 2
durable 2
stopped
durable 2
sent 0 54
sent 1 37
stored
stored
opened 1
sent 2 23
sent 3 80
head 2
version 2 queries 1
query 0 rows 1
1
version 2 rows 1
acct 7 5 -1 3
";

/// What the events of the script print on these bytes, or why the bytes are refused.
fn printed_on<R: Threads + Sync>(
    rt: &R,
    alloc: Global,
    journal: &[u8],
) -> Result<Result<Vec<u8>, JournalFault>, Fail> {
    let (setup, events) = read_script(alloc, SCRIPT.as_bytes())?;
    let bytes = Vec::from_slice(alloc, journal)?;
    match run_on_journal(rt, alloc, &setup, bytes, events.as_slice()) {
        Ok(outputs) => {
            let mut text = Vec::new(alloc);
            write_text_of(alloc, &mut text, outputs.as_slice())?;
            Ok(Ok(text))
        }
        Err(fault) => Ok(Err(fault)),
    }
}

/// Whether the script prints what it should on these bytes.
fn prints<R: Threads + Sync>(rt: &R, alloc: Global, journal: &[u8]) -> Result<bool, Fail> {
    match printed_on(rt, alloc, journal)? {
        Ok(text) => Ok(text.as_slice() == PRINTED.as_bytes()),
        Err(_) => Ok(false),
    }
}

/// Whether these bytes are refused for that.
fn is_refused<R: Threads + Sync>(
    rt: &R,
    alloc: Global,
    journal: &[u8],
    fault: JournalFault,
) -> Result<bool, Fail> {
    match printed_on(rt, alloc, journal)? {
        Ok(_) => Ok(false),
        Err(told) => Ok(told == fault),
    }
}

/// The old journal, and these bytes after it.
fn followed_by(alloc: Global, more: &[u8]) -> Result<Vec<u8>, Fail> {
    let mut journal = Vec::from_slice(alloc, &OLD_JOURNAL)?;
    journal.extend_from_slice(more)?;
    Ok(journal)
}

#[test]
fn an_old_journal_goes_on(rt: HostRuntime) -> Result<(), Fail> {
    for zeros in 0..5 {
        let journal = followed_by(rt.alloc(), &[0; 4][..zeros])?;
        assert!(rt;
            prints(&rt, rt.alloc(), &journal)?,
            "with {zeros} bytes of the mark"
        );
    }
    Ok(())
}

#[test]
fn other_bytes_are_refused(rt: HostRuntime) -> Result<(), Fail> {
    let twice = followed_by(rt.alloc(), &[0; 8])?;
    assert!(rt; is_refused(&rt, rt.alloc(), &twice, JournalFault::Damaged(56))?);
    assert!(rt; is_refused(&rt, rt.alloc(), b"BDJ3", JournalFault::OtherHeader)?);
    Ok(())
}
