//! Lines of jobs that do not read: the fault of each, what is skipped with it, and what comes next.

use crate::readers::jobs_of;
use requests::Dialect;
use std::alloc::Global;
use std::test::Fail;

/// Lines, and what is read of them.
type Case = (&'static str, &'static str);

/// Faults in the dialect of changes alone.
const OF_JOBS: [Case; 11] = [
    // A line outside of a job is skipped alone.
    (
        "jobs 0\njob 0\nend\n",
        "line 1: no line of a job (line)\n2: job 0\nend\n",
    ),
    (
        "end\njob 0\nend\n",
        "line 1: a line that stands in the wrong place (line)\n2: job 0\nend\n",
    ),
    (
        "delete acct 1\nend\n",
        "line 1: a line that stands in the wrong place (line)\nline 2: a line that stands in the wrong place (line)\nend\n",
    ),
    ("end \n", "line 1: no line of a job (line)\nend\n"),
    // A fault inside a job skips its other lines, whether they read or not.
    (
        "job 0\nset acct 1 0\nnothing\nset acct 1 0 5\nend\njob 1\nend\n",
        "line 2: bad words (job)\n6: job 1\nend\n",
    ),
    (
        "job 0\ndelete other 1\nend\njob 1\nend\n",
        "line 2: no table (job)\n4: job 1\nend\n",
    ),
    (
        "job 0\nexpect acct 1 0 5\nend\nget acct 1 0\n",
        "line 2: no line of a job (job)\nline 4: no line of a job (line)\nend\n",
    ),
    (
        "job 0\nend 0\nend\njob 1\nend\n",
        "line 2: no line of a job (job)\n4: job 1\nend\n",
    ),
    // So does a first line of a job that does not read.
    (
        "# two workers\njob 2\ndelete acct 1\nend\njob 1\nend\n",
        "line 2: bad words (job)\n5: job 1\nend\n",
    ),
    ("job\ndelete acct 1\n", "line 1: bad words (job)\nend\n"),
    // The end of the input ends a job that is skipped, and is a fault in any other.
    (
        "job 0\ndelete acct 1\n",
        "line 3: a job without its end (job)\nend\n",
    ),
];

/// Jobs that lack their end: a line whose first word is `job` begins the next job, whether it reads or not.
const WITHOUT_END: [Case; 12] = [
    (
        "job 0\ndelete acct 1\njob 1\ndelete acct 2\nend\njob 0\nend\n",
        "line 3: a line that stands in the wrong place (job)\n3: job 1\n4: delete 0 2\n6: job 0\nend\n",
    ),
    // Several in a row, each of them broken off by the next.
    (
        "job 0\njob 0\ndelete acct 1\njob 1\nend\n",
        "line 2: a line that stands in the wrong place (job)\nline 4: a line that stands in the wrong place (job)\n\
        4: job 1\nend\n",
    ),
    // The next job's own line may not read. Then both are lost, each with a fault.
    (
        "job 0\ndelete acct 1\njob 99\ndelete acct 2\nend\njob 1\nend\n",
        "line 3: a line that stands in the wrong place (job)\nline 3: bad words (job)\n6: job 1\nend\n",
    ),
    (
        "job 0\njob 99\njob\njob 1\nend\n",
        "line 2: a line that stands in the wrong place (job)\nline 2: bad words (job)\nline 3: bad words (job)\n\
        4: job 1\nend\n",
    ),
    // What is skipped of a job ends before the next one.
    (
        "job 0\nend \njob 1\ndelete acct 2\nend\n",
        "line 2: no line of a job (job)\n3: job 1\n4: delete 0 2\nend\n",
    ),
    (
        "job 0\ndelete acct 1\nend\r\ndelete acct 2\njob 1\nend\n",
        "line 3: no line of a job (job)\n5: job 1\nend\n",
    ),
    (
        "job 0\nslip\njob 2\ndelete acct 2\njob 1\nend\n",
        "line 2: no line of a job (job)\nline 3: bad words (job)\n5: job 1\nend\n",
    ),
    // Another word that begins like it, or a comment, ends no job.
    (
        "job 0\nslip\njobs 1\n# job 1\nend\njob 1\nend\n",
        "line 2: no line of a job (job)\n6: job 1\nend\n",
    ),
    (
        "job 0\njobs 1\nend\njob 1\n# job 1\nend\n",
        "line 2: no line of a job (job)\n4: job 1\nend\n",
    ),
    // After the end of a job that was skipped, another `end` is a slip of its own.
    (
        "job 0\nslip\nend\nend\njob 1\nend\n",
        "line 2: no line of a job (job)\nline 4: a line that stands in the wrong place (line)\n5: job 1\nend\n",
    ),
    // The input ends in the job that was begun, or in one that is skipped.
    (
        "job 0\njob 1",
        "line 2: a line that stands in the wrong place (job)\nline 3: a job without its end (job)\nend\n",
    ),
    (
        "job 0\njob 2",
        "line 2: a line that stands in the wrong place (job)\nline 2: bad words (job)\nend\n",
    ),
];

/// Faults in the dialect of live jobs.
const OF_LIVE: [Case; 9] = [
    (
        "get acct 1\nget acct 1 0\n",
        "line 1: bad words (line)\n2: get 0 1 0\nend\n",
    ),
    ("get other 1 0\n", "line 1: no table (line)\nend\n"),
    (
        "job 0\nget acct 1 0\nend\nget acct 1 0\n",
        "line 2: a line that stands in the wrong place (job)\n4: get 0 1 0\nend\n",
    ),
    (
        "expect acct 1 0 5\nabsent acct 1\n",
        "line 1: a line that stands in the wrong place (line)\nline 2: a line that stands in the wrong place (line)\nend\n",
    ),
    (
        "job 1\nabsent acct 1 0\nend",
        "line 2: bad words (job)\nend\n",
    ),
    ("job 1\n\n", "line 3: a job without its end (job)\nend\n"),
    (
        "job 0\nget acct 1 0\nget acct 1 0\njob 1\nend\nget acct 1 0\n",
        "line 2: a line that stands in the wrong place (job)\n4: job 1\n6: get 0 1 0\nend\n",
    ),
    (
        "base 1\nbase \nbase\n",
        "line 1: no line of a job (line)\nline 2: no line of a job (line)\n3: base\nend\n",
    ),
    (
        "job 0\nbase\nbase\nend\nbase\n",
        "line 2: a line that stands in the wrong place (job)\n5: base\nend\n",
    ),
];

/// The first case whose lines read as something else.
fn first_wrong(alloc: Global, dialect: Dialect, cases: &[Case]) -> Result<Option<usize>, Fail> {
    for (index, (lines, wanted)) in cases.iter().enumerate() {
        let read = jobs_of(alloc, dialect, lines.as_bytes())?;
        if read.as_str() != *wanted {
            return Ok(Some(index));
        }
    }
    Ok(None)
}

#[test]
fn a_slip_in_a_job_skips_that_job(rt: HostRuntime) -> Result<(), Fail> {
    assert_eq!(rt; first_wrong(rt.alloc(), Dialect::Jobs, &OF_JOBS)?, None);
    Ok(())
}

#[test]
fn a_job_line_begins_the_next_job(rt: HostRuntime) -> Result<(), Fail> {
    for dialect in [Dialect::Jobs, Dialect::Live] {
        assert_eq!(rt; first_wrong(rt.alloc(), dialect, &WITHOUT_END)?, None);
    }
    Ok(())
}

#[test]
fn a_slip_between_live_jobs_skips_a_line(rt: HostRuntime) -> Result<(), Fail> {
    assert_eq!(rt; first_wrong(rt.alloc(), Dialect::Live, &OF_LIVE)?, None);
    Ok(())
}

/// A byte that is not allowed is a fault of the words, and CR LF ends no line.
#[test]
fn bytes_that_are_no_text_are_bad_words(rt: HostRuntime) -> Result<(), Fail> {
    let lines = b"job 0\r\ndelete acct 1\r\nend\r\nend\njob 0\ndelete acct\t1\nend\n";
    let read = jobs_of(rt.alloc(), Dialect::Jobs, lines)?;
    assert_eq!(rt;
        read.as_str(),
        "line 1: bad words (job)\nline 6: bad words (job)\nend\n"
    );
    Ok(())
}
