//! Readers that fail, and the words of each fault.

use crate::pieces::Pieces;
use crate::readers::setup;
use queries::PlanFault;
use requests::{Dialect, JobReader, LineFault, Misread, Request, RequestFault, Requested, Skipped};
use script::Setup;
use std::alloc::Global;
use std::io::{self, ErrorKind, Read};
use std::test::Fail;

/// A reader that gives a byte at a time, and fails once before each third one.
#[derive(Drop)]
struct Failing<'a> {
    rest: &'a [u8],
    count: u64,
}

impl Read for Failing<'_> {
    fn read(&mut self, buf: &mut [u8]) -> io::Result<usize> {
        self.count = self.count.saturating_add(1);
        if self.count % 3 == 0 {
            return Err(ErrorKind::BrokenPipe.into());
        }
        let count = self.rest.len().min(buf.len()).min(1);
        let (front, rest) = self.rest.split_at(count);
        buf[..count].copy_from_slice(front);
        self.rest = rest;
        Ok(count)
    }
}

/// What was read until the input had ended.
#[derive(Clone, Copy, Debug, PartialEq, Eq)]
struct Tally {
    jobs: usize,
    /// Jobs of two steps.
    pairs: usize,
    steps: usize,
    /// Reads that failed, memory that was refused, and lines that do not read.
    failed: usize,
    refused: usize,
    slipped: usize,
}

impl Tally {
    /// Counts a job of so many steps.
    fn add(&mut self, steps: usize) {
        self.jobs = self.jobs.saturating_add(1);
        self.steps = self.steps.saturating_add(steps);
        if steps == 2 {
            self.pairs = self.pairs.saturating_add(1);
        }
    }

    /// Counts a fault.
    fn miss(&mut self, fault: RequestFault) {
        let count = match fault {
            RequestFault::Read(_error) => &mut self.failed,
            RequestFault::Memory => &mut self.refused,
            RequestFault::Line { .. } => &mut self.slipped,
        };
        *count = count.saturating_add(1);
    }

    /// How many jobs and faults there are.
    fn len(&self) -> usize {
        self.jobs
            .saturating_add(self.failed)
            .saturating_add(self.refused)
            .saturating_add(self.slipped)
    }
}

/// What is read of jobs until the input has ended.
fn tally_of<R: Read>(alloc: Global, setup: &Setup, input: &mut R) -> Tally {
    let mut reader = JobReader::new(alloc, Dialect::Jobs);
    let mut tally = Tally {
        jobs: 0,
        pairs: 0,
        steps: 0,
        failed: 0,
        refused: 0,
        slipped: 0,
    };
    for _ in 0..1000 {
        match reader.next(setup, input) {
            Ok(
                Requested::Request(
                    Request::Job {
                        job,
                        step_lines: _step_lines,
                        ..
                    },
                ),
            ) => tally.add(job.steps.len()),
            Ok(Requested::End) => return tally,
            Ok(_) => {}
            Err(fault) => tally.miss(fault),
        }
    }
    tally
}

/// A reader that fails loses nothing: 54 bytes and the end take 55 reads, with 27 failures among them.
#[test]
fn a_failed_read_loses_nothing(rt: HostRuntime) -> Result<(), Fail> {
    let setup = setup(rt.alloc())?;
    let mut input = Failing {
        rest: b"job 0\ndelete acct 1\nset acct 2 1 30\ndelete acct 4\nend\n".as_slice(),
        count: 0,
    };
    let wanted = Tally {
        jobs: 1,
        pairs: 0,
        steps: 3,
        failed: 27,
        refused: 0,
        slipped: 0,
    };
    assert_eq!(rt; tally_of(rt.alloc(), &setup, &mut input), wanted);
    Ok(())
}

/// Three jobs of two steps.
const JOBS: &[u8] =
    b"job 0\ndelete acct 1\nset acct 2 1 30\nend\njob 1\ninsert acct 7 5 -1\ndelete acct 9\nend\n\
    job 0\ninsert site 1 x4e45\ndelete site 2\nend\n";

/// Whichever allocation is refused: a job is read whole, or skipped as a whole.
#[test]
fn a_job_without_memory_is_skipped(rt: HostRuntime) -> Result<(), Fail> {
    let setup = setup(rt.alloc())?;
    let found = tally_of(rt.alloc(), &setup, &mut Pieces::slow(JOBS));
    assert_eq!(rt; found.pairs, found.jobs);
    assert!(rt; found.jobs <= 3);
    assert_eq!(rt; found.slipped, 0);
    // Jobs are missing only if memory was refused for them.
    assert!(rt; found.len() >= 3);
    Ok(())
}

/// Whichever allocation is refused: each of two jobs, of which the second breaks off the first, is read or has
/// a fault of its own.
#[test]
fn jobs_without_memory_have_a_fault_each(rt: HostRuntime) -> Result<(), Fail> {
    let setup = setup(rt.alloc())?;
    let mut input = Pieces::slow(b"job 0\ndelete acct 1\njob 1\nend\n".as_slice());
    let found = tally_of(rt.alloc(), &setup, &mut input);
    assert!(rt; found.jobs <= 1);
    assert!(rt; found.len() >= 2);
    Ok(())
}

/// Each fault of a line, in the words of docs/FORMATS.md.
const TEXTS: [(LineFault, &str); 11] = [
    (LineFault::NotText, "line 7: not text"),
    (LineFault::NoJobLine, "line 7: no line of a job"),
    (LineFault::BadWords, "line 7: bad words"),
    (LineFault::NoTable, "line 7: no table"),
    (LineFault::NoEnd, "line 7: a job without its end"),
    (
        LineFault::WrongPlace,
        "line 7: a line that stands in the wrong place",
    ),
    (LineFault::TooLong, "line 7: too long"),
    (LineFault::TooManyQueries, "line 7: more than 64 queries"),
    (LineFault::NoPlan, "line 7: no plan"),
    (
        LineFault::BadPlan(PlanFault::NoColumn),
        "line 7: no such column",
    ),
    (
        LineFault::BadPlan(PlanFault::WrongKind),
        "line 7: wrong kind of a column",
    ),
];

/// The first fault with other words.
fn first_wrong(alloc: Global) -> Result<Option<usize>, Fail> {
    for (index, (why, text)) in TEXTS.iter().enumerate() {
        let fault = RequestFault::Line {
            line: 7,
            why: *why,
            misread: Misread::Unknown,
            skipped: Skipped::Line,
        };
        if format!(in alloc; "{fault}")?.as_str() != *text {
            return Ok(Some(index));
        }
    }
    Ok(None)
}

#[test]
fn faults_have_the_words_of_the_formats(rt: HostRuntime) -> Result<(), Fail> {
    assert_eq!(rt; first_wrong(rt.alloc())?, None);
    Ok(())
}
