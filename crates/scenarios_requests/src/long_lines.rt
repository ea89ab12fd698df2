//! Lines that are as long as a line may be, and longer ones.

use crate::pieces::Pieces;
use crate::readers::setup;
use crate::transcripts::{write_batches, write_jobs};
use requests::{Dialect, LINE_LEN_MAX};
use std::alloc::{AllocError, Global};
use std::test::Fail;

/// A line that begins with these bytes and has so many, filled up with `x`, between others.
fn with_line(
    alloc: Global,
    before: &[u8],
    front: &[u8],
    len: usize,
    after: &[u8],
) -> Result<Vec<u8>, AllocError> {
    let mut text = Vec::new(alloc);
    text.extend_from_slice(before)?;
    text.extend_from_slice(front)?;
    for _ in front.len()..len {
        text.push(b'x')?;
    }
    text.extend_from_slice(after)?;
    Ok(text)
}

/// What is read of jobs among which such a line stands, all at once.
fn jobs_around(
    alloc: Global,
    before: &[u8],
    front: &[u8],
    len: usize,
    after: &[u8],
) -> Result<String, Fail> {
    let setup = setup(alloc)?;
    let lines = with_line(alloc, before, front, len, after)?;
    let mut input = Pieces::whole(lines.as_slice());
    let mut text = String::new(alloc);
    write_jobs(&mut text, alloc, &setup, Dialect::Jobs, &mut input)?;
    Ok(text)
}

/// What is read of batches among which such a line stands, all at once.
fn batches_around(
    alloc: Global,
    before: &[u8],
    front: &[u8],
    len: usize,
    after: &[u8],
) -> Result<String, Fail> {
    let setup = setup(alloc)?;
    let lines = with_line(alloc, before, front, len, after)?;
    let mut input = Pieces::whole(lines.as_slice());
    let mut text = String::new(alloc);
    write_batches(&mut text, alloc, &setup, &mut input)?;
    Ok(text)
}

/// A comment of 65,536 bytes reads, with and without its end; with one byte more it is too long.
#[test]
fn a_line_has_65536_bytes(rt: HostRuntime) -> Result<(), Fail> {
    for end in [b"".as_slice(), b"\n"] {
        let read = jobs_around(rt.alloc(), b"", b"#", 65_536, end)?;
        assert_eq!(rt; read.as_str(), "end\n");
        let read = jobs_around(rt.alloc(), b"", b"#", 65_537, end)?;
        assert_eq!(rt; read.as_str(), "line 1: too long (line)\nend\n");
    }
    assert_eq!(rt; LINE_LEN_MAX, 65_536);
    Ok(())
}

/// What comes after a line that is much too long is read.
#[test]
fn a_long_line_is_skipped(rt: HostRuntime) -> Result<(), Fail> {
    let read = jobs_around(rt.alloc(), b"\n", b"get", 300_000, b"\njob 1\nend\n")?;
    assert_eq!(rt; read.as_str(), "line 2: too long (line)\n3: job 1\nend\n");
    Ok(())
}

/// What stands before and in a line of 65,537 bytes, behind which a job ends and another one stands, and what is read.
const LONG: [(&[u8], &[u8], &str); 5] = [
    // Inside a job it skips the job, and so does one that begins a job.
    (
        b"job 0\n",
        b"set",
        "line 2: too long (job)\n5: job 1\nend\n",
    ),
    (b"", b"job 0 ", "line 1: too long (job)\n4: job 1\nend\n"),
    // In a job that is skipped it is no further fault.
    (
        b"job 0\nslip\n",
        b"set",
        "line 2: no line of a job (job)\n6: job 1\nend\n",
    ),
    // If it begins a job, it breaks off the job before it, and is a fault of its own job; it also ends what is
    // skipped of a job.
    (
        b"job 0\n",
        b"job 0 ",
        "line 2: a line that stands in the wrong place (job)\nline 2: too long (job)\n5: job 1\nend\n",
    ),
    (
        b"job 0\nslip\n",
        b"job 0 ",
        "line 2: no line of a job (job)\nline 3: too long (job)\n6: job 1\nend\n",
    ),
];

#[test]
fn a_long_line_is_one_fault_of_its_job(rt: HostRuntime) -> Result<(), Fail> {
    let after = b"\ndelete acct 1\nend\njob 1\nend\n";
    for (before, front, wanted) in LONG {
        let read = jobs_around(rt.alloc(), before, front, 65_537, after)?;
        assert_eq!(rt; read.as_str(), wanted);
    }
    Ok(())
}

/// A long line skips its batch.
#[test]
fn a_long_line_skips_its_batch(rt: HostRuntime) -> Result<(), Fail> {
    let read = batches_around(
        rt.alloc(),
        b"query acct get count\n",
        b"query",
        70_000,
        b"\nquery acct get count\n\nquery site get count\n",
    )?;
    assert_eq!(rt; read.as_str(), "line 2: too long (batch)\nbatch 5:1\nend\n");
    Ok(())
}
