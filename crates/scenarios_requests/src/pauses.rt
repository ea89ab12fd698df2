//! Input whose lines give nothing for long: readers answer meanwhile.

use crate::pieces::Pieces;
use crate::readers::{batches_of, jobs_of, setup};
use requests::{BatchReader, Batched, Dialect, JobReader, Requested};
use script::Setup;
use std::alloc::{AllocError, Global};
use std::test::Fail;

/// This first line, so many comments, and this last line.
fn with_comments(
    alloc: Global,
    first: &str,
    count: usize,
    last: &str,
) -> Result<String, AllocError> {
    let mut lines = String::new(alloc);
    lines.push_str(first)?;
    for _ in 0..count {
        lines.push_str("#\n")?;
    }
    lines.push_str(last)?;
    Ok(lines)
}

/// How often a reader of jobs that reads all at once answers `NotYet`, up to the first other answer.
fn pauses_of_jobs(alloc: Global, setup: &Setup, lines: &str) -> usize {
    let mut reader = JobReader::new(alloc, Dialect::Jobs);
    let mut input = Pieces::whole(lines.as_bytes());
    let mut count: usize = 0;
    for _ in 0..100 {
        match reader.next(setup, &mut input) {
            Ok(Requested::NotYet) => count = count.saturating_add(1),
            _ => return count,
        }
    }
    count
}

/// The same of a reader of batches.
fn pauses_of_batches(alloc: Global, setup: &Setup, lines: &str) -> usize {
    let mut reader = BatchReader::new(alloc);
    let mut input = Pieces::whole(lines.as_bytes());
    let mut count: usize = 0;
    for _ in 0..100 {
        match reader.next(setup, &mut input) {
            Ok(Batched::NotYet) => count = count.saturating_add(1),
            _ => return count,
        }
    }
    count
}

/// Lines of which so many give nothing, and how often a reader answers `NotYet` meanwhile.
const CASES: [(usize, usize); 5] = [(0, 0), (998, 0), (999, 1), (1999, 2), (3500, 3)];

/// `NotYet` comes after each 1,000 lines, and the job that has begun goes on.
#[test]
fn a_reader_of_jobs_answers_after_1000_lines(rt: HostRuntime) -> Result<(), Fail> {
    let setup = setup(rt.alloc())?;
    for (count, wanted) in CASES {
        let lines = with_comments(rt.alloc(), "job 0\n", count, "end\n")?;
        assert_eq!(rt; pauses_of_jobs(rt.alloc(), &setup, lines.as_str()), wanted);
    }
    Ok(())
}

#[test]
fn a_reader_of_batches_answers_after_1000_lines(rt: HostRuntime) -> Result<(), Fail> {
    let setup = setup(rt.alloc())?;
    for (count, wanted) in CASES {
        let lines = with_comments(rt.alloc(), "query acct get count\n", count, "\n")?;
        assert_eq!(rt;
            pauses_of_batches(rt.alloc(), &setup, lines.as_str()),
            wanted
        );
    }
    Ok(())
}

/// What such lines come to is not changed by the answers between them.
#[test]
fn a_job_goes_on_after_1000_lines(rt: HostRuntime) -> Result<(), Fail> {
    let lines = with_comments(rt.alloc(), "job 1\n", 2500, "delete acct 4\nend\n")?;
    let read = jobs_of(rt.alloc(), Dialect::Jobs, lines.as_bytes())?;
    assert_eq!(rt; read.as_str(), "1: job 1\n2502: delete 0 4\nend\n");
    let lines = with_comments(
        rt.alloc(),
        "query acct get count\n",
        2500,
        "query site get count\n",
    )?;
    let read = batches_of(rt.alloc(), lines.as_bytes())?;
    assert_eq!(rt; read.as_str(), "batch 1:0 2502:1\nend\n");
    Ok(())
}
