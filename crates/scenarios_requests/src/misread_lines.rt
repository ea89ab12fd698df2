//! Lines of jobs and batches that do not read, and the word at which they do not.

use crate::pieces::Pieces;
use crate::readers::setup;
use requests::{BatchReader, Batched, Dialect, JobReader, RequestFault, Requested};
use std::alloc::{AllocError, Global};
use std::test::Fail;

/// Lines, and their first fault.
type Case = (&'static str, &'static str);

/// Lines of jobs, in both dialects. Two workers, and the tables `acct int int` and `site bytes2` are there.
const OF_JOBS: [Case; 34] = [
    ("jobs 0", "line 1: no line of a job: 'jobs': begins no line"),
    (
        "Job 0",
        "line 1: no line of a job: 'Job': has a capital letter",
    ),
    (
        " job 0",
        "line 1: no line of a job: '': one space separates words",
    ),
    ("end 0", "line 1: no line of a job: '0': a word too many"),
    (
        "end ",
        "line 1: no line of a job: '': one space separates words",
    ),
    (
        "end # it",
        "line 1: no line of a job: '#': a comment is a line of its own",
    ),
    (
        "end\r",
        "line 1: no line of a job: 'end\\u{d}': lines end with LF alone",
    ),
    (
        "job\t0",
        "line 1: no line of a job: 'job\\u{9}0': has a byte that is not allowed",
    ),
    (
        "job",
        "line 1: bad words: 'job': a word is missing after it",
    ),
    ("job ", "line 1: bad words: '': one space separates words"),
    ("job 2", "line 1: bad words: '2': no worker"),
    ("job x", "line 1: bad words: 'x': no worker"),
    ("job 00", "line 1: bad words: '00': no worker"),
    ("job 1 0", "line 1: bad words: '0': a word too many"),
    ("job  1", "line 1: bad words: '': one space separates words"),
    (
        "job 0\ninsert acct 7",
        "line 2: bad words: '7': a word is missing after it",
    ),
    (
        "job 0\ninsert acct -7 0 0",
        "line 2: bad words: '-7': no number",
    ),
    (
        "job 0\ninsert acct 18446744073709551616 0 0",
        "line 2: bad words: '18446744073709551616': no number",
    ),
    (
        "job 0\ninsert acct 7 0 05",
        "line 2: bad words: '05': no value",
    ),
    (
        "job 0\ninsert acct 7 0 0 xAB",
        "line 2: bad words: 'xAB': has a capital letter",
    ),
    (
        "job 0\ninsert 9a 7 0 0",
        "line 2: bad words: '9a': no name of a table",
    ),
    (
        "job 0\ninsert accts 7 0 0",
        "line 2: no table: 'accts': no such table",
    ),
    // A table that is not there is the last thing that is looked for.
    (
        "job 0\ninsert accts 7 0 x",
        "line 2: bad words: 'x': no value",
    ),
    (
        "job 0\nset acct 7 256 0",
        "line 2: bad words: '256': no number of a column, 0 to 255",
    ),
    (
        "job 0\nset acct 7 0",
        "line 2: bad words: '0': a word is missing after it",
    ),
    (
        "job 0\nset acct 7 0 5 5",
        "line 2: bad words: '5': a word too many",
    ),
    (
        "job 0\ndelete acct",
        "line 2: bad words: 'acct': a word is missing after it",
    ),
    (
        "job 0\ndelete acct 7 0",
        "line 2: bad words: '0': a word too many",
    ),
    (
        "job 0\ncolumn acct",
        "line 2: bad words: 'acct': a word is missing after it",
    ),
    (
        "job 0\ncolumn acct 5 5",
        "line 2: bad words: '5': a word too many",
    ),
    (
        "delete acct 7",
        "line 1: a line that stands in the wrong place: 'delete': outside of a job",
    ),
    (
        "end",
        "line 1: a line that stands in the wrong place: 'end': outside of a job",
    ),
    (
        "job 0\njob 1\nend",
        "line 2: a line that stands in the wrong place: 'job': the job before it has no end",
    ),
    ("job 0\ndelete acct 7", "line 3: a job without its end"),
];

/// Lines that one dialect has.
const OF_CHANGES: [Case; 5] = [
    (
        "get acct 1 0",
        "line 1: no line of a job: 'get': with --live only",
    ),
    ("base", "line 1: no line of a job: 'base': with --live only"),
    (
        "base 1",
        "line 1: no line of a job: 'base': with --live only",
    ),
    (
        "job 0\nexpect acct 1 0 5",
        "line 2: no line of a job: 'expect': with --live only",
    ),
    (
        "job 0\nabsent acct 1",
        "line 2: no line of a job: 'absent': with --live only",
    ),
];

const OF_LIVE: [Case; 9] = [
    (
        "get acct 1",
        "line 1: bad words: '1': a word is missing after it",
    ),
    (
        "get acct 1 256",
        "line 1: bad words: '256': no number of a column, 0 to 255",
    ),
    ("get tab 1 0", "line 1: no table: 'tab': no such table"),
    (
        "job 0\nexpect acct 1 0 -0",
        "line 2: bad words: '-0': no value",
    ),
    (
        "job 0\nabsent acct 1 0",
        "line 2: bad words: '0': a word too many",
    ),
    (
        "job 0\nget acct 1 0",
        "line 2: a line that stands in the wrong place: 'get': inside a job",
    ),
    ("base 1", "line 1: no line of a job: '1': a word too many"),
    (
        "job 0\nbase",
        "line 2: a line that stands in the wrong place: 'base': inside a job",
    ),
    ("bases", "line 1: no line of a job: 'bases': begins no line"),
];

/// Lines of batches that are no plan.
const OF_WORDS: [Case; 31] = [
    (
        "frobnicate",
        "line 1: no plan: 'frobnicate': a plan begins with `query`",
    ),
    (
        "Query acct get count",
        "line 1: no plan: 'Query': has a capital letter",
    ),
    (
        " query acct get count",
        "line 1: no plan: '': one space separates words",
    ),
    (
        "query",
        "line 1: no plan: 'query': a word is missing after it",
    ),
    (
        "query accts get count",
        "line 1: no plan: 'accts': no such table",
    ),
    (
        "query Acct get count",
        "line 1: no plan: 'Acct': has a capital letter",
    ),
    (
        "query 1 get count",
        "line 1: no plan: '1': no name of a table",
    ),
    (
        "query acct",
        "line 1: no plan: 'acct': a word is missing after it",
    ),
    (
        "query acct sum 0",
        "line 1: no plan: 'sum': begins no part of a plan",
    ),
    (
        "query acct get",
        "line 1: no plan: 'get': a word is missing after it",
    ),
    (
        "query acct get avg 1",
        "line 1: no plan: 'avg': no aggregate",
    ),
    (
        "query acct get count sum",
        "line 1: no plan: 'sum': a word is missing after it",
    ),
    (
        "query acct get sum balance",
        "line 1: no plan: 'balance': no number of a column, 0 to 255",
    ),
    (
        "query acct get max 256",
        "line 1: no plan: '256': no number of a column, 0 to 255",
    ),
    (
        "query acct get min j",
        "line 1: no plan: 'j': no number of a column, 0 to 255",
    ),
    (
        "query acct get count ",
        "line 1: no plan: '': one space separates words",
    ),
    (
        "query acct get count\r",
        "line 1: no plan: 'count\\u{d}': lines end with LF alone",
    ),
    (
        "query acct get count # all",
        "line 1: no plan: '#': a comment is a line of its own",
    ),
    (
        "query acct get count where 0 > 1",
        "line 1: no plan: 'where': stands too late",
    ),
    (
        "query acct get count get count",
        "line 1: no plan: 'get': stands there twice",
    ),
    (
        "query acct by 0 where 0 > 1 get count",
        "line 1: no plan: 'where': stands too late",
    ),
    (
        "query acct where 0 > 1 join 0 site get count",
        "line 1: no plan: 'join': stands too late",
    ),
    (
        "query acct where 0 > 1 where 1 > 0 get count",
        "line 1: no plan: 'where': stands there twice",
    ),
    (
        "query acct where 0 == 1 get count",
        "line 1: no plan: '==': no comparison",
    ),
    (
        "query acct where 0 = one get count",
        "line 1: no plan: 'one': no value",
    ),
    (
        "query acct where 0 > 1 and",
        "line 1: no plan: 'and': a word is missing after it",
    ),
    (
        "query acct where 0 > 1 sum 0",
        "line 1: no plan: 'sum': begins no part of a plan",
    ),
    (
        "query acct by get count",
        "line 1: no plan: 'get': no number of a column, 0 to 255",
    ),
    (
        "query acct by 0 city get count",
        "line 1: no plan: 'city': no number of a column, 0 to 255",
    ),
    (
        "query acct join j0 site get count",
        "line 1: no plan: 'j0': no number of a column, 0 to 255",
    ),
    (
        "query acct join 0 sites get count",
        "line 1: no plan: 'sites': no such table",
    ),
];

/// Plans that do not fit the tables.
const OF_PLANS: [Case; 8] = [
    (
        "query acct where 0 = x00 get count",
        "line 1: wrong kind of a column: 'x00': its column is of another kind",
    ),
    (
        "query site where 0 = x4e45 and 0 < 5 get count",
        "line 1: wrong kind of a column: '5': its column is of another kind",
    ),
    (
        "query site join 0 acct get count",
        "line 1: wrong kind of a column: '0': a join is by a column of numbers",
    ),
    (
        "query site get sum 0",
        "line 1: wrong kind of a column: '0': only numbers are summed",
    ),
    (
        "query acct join 0 site get count max j0 sum j0",
        "line 1: wrong kind of a column: 'j0': only numbers are summed",
    ),
    (
        "query acct by 0 1 j3 get count",
        "line 1: too many conditions, columns to group by or aggregates: 'j3': the third column to group by",
    ),
    (
        "query acct get min 0 min 0 min 0 min 0 min 0 min 0 min 0 min 0 max 1",
        "line 1: too many conditions, columns to group by or aggregates: 'max': the ninth aggregate",
    ),
    (
        "query acct where 0 > 1 and 0 > 1 and 0 > 1 and 0 > 1 and 0 > 1 and 0 > 1 and 0 > 1 and 0 > 1 and 1 > 1 get count",
        "line 1: too many conditions, columns to group by or aggregates: '1': the ninth condition",
    ),
];

/// The first fault of lines of jobs, as a text.
fn fault_of_jobs(alloc: Global, dialect: Dialect, lines: &[u8]) -> Result<String, Fail> {
    let setup = setup(alloc)?;
    let mut input = Pieces::whole(lines);
    let mut reader = JobReader::new(alloc, dialect);
    for _ in 0..lines.len() {
        match reader.next(&setup, &mut input) {
            Ok(Requested::End) => return Err(Fail::new("no fault")),
            Ok(_) => {}
            Err(fault) => return Ok(text_of(alloc, &fault)?),
        }
    }
    Err(Fail::new("no end"))
}

/// The first fault of lines of batches, as a text.
fn fault_of_batches(alloc: Global, lines: &[u8]) -> Result<String, Fail> {
    let setup = setup(alloc)?;
    let mut input = Pieces::whole(lines);
    let mut reader = BatchReader::new(alloc);
    for _ in 0..lines.len() {
        match reader.next(&setup, &mut input) {
            Ok(Batched::End) => return Err(Fail::new("no fault")),
            Ok(_) => {}
            Err(fault) => return Ok(text_of(alloc, &fault)?),
        }
    }
    Err(Fail::new("no end"))
}

fn text_of(alloc: Global, fault: &RequestFault) -> Result<String, AllocError> {
    format!(in alloc; "{fault}")
}

/// The first case of jobs with another fault.
fn first_wrong_jobs(
    alloc: Global,
    dialect: Dialect,
    cases: &[Case],
) -> Result<Option<usize>, Fail> {
    for (index, (lines, wanted)) in cases.iter().enumerate() {
        let found = fault_of_jobs(alloc, dialect, lines.as_bytes())?;
        if found.as_str() != *wanted {
            return Ok(Some(index));
        }
    }
    Ok(None)
}

/// The first case of batches with another fault.
fn first_wrong_batches(alloc: Global, cases: &[Case]) -> Result<Option<usize>, Fail> {
    for (index, (lines, wanted)) in cases.iter().enumerate() {
        let found = fault_of_batches(alloc, lines.as_bytes())?;
        if found.as_str() != *wanted {
            return Ok(Some(index));
        }
    }
    Ok(None)
}

#[test]
fn a_line_of_jobs_has_its_word(rt: HostRuntime) -> Result<(), Fail> {
    for dialect in [Dialect::Jobs, Dialect::Live] {
        assert_eq!(rt; first_wrong_jobs(rt.alloc(), dialect, &OF_JOBS)?, None);
    }
    Ok(())
}

#[test]
fn a_line_of_one_dialect_has_its_word(rt: HostRuntime) -> Result<(), Fail> {
    assert_eq!(rt;
        first_wrong_jobs(rt.alloc(), Dialect::Jobs, &OF_CHANGES)?,
        None
    );
    assert_eq!(rt;
        first_wrong_jobs(rt.alloc(), Dialect::Live, &OF_LIVE)?,
        None
    );
    Ok(())
}

#[test]
fn a_line_that_is_no_plan_has_its_word(rt: HostRuntime) -> Result<(), Fail> {
    assert_eq!(rt; first_wrong_batches(rt.alloc(), &OF_WORDS)?, None);
    Ok(())
}

#[test]
fn a_plan_that_does_not_fit_has_its_word(rt: HostRuntime) -> Result<(), Fail> {
    assert_eq!(rt; first_wrong_batches(rt.alloc(), &OF_PLANS)?, None);
    Ok(())
}

/// So many times this letter, between two texts.
fn repeated(
    alloc: Global,
    before: &str,
    letter: &str,
    count: usize,
    after: &str,
) -> Result<String, AllocError> {
    let mut text = String::new(alloc);
    text.push_str(before)?;
    for _ in 0..count {
        text.push_str(letter)?;
    }
    text.push_str(after)?;
    Ok(text)
}

/// A word of 80 bytes is shown whole, and a longer one is cut.
#[test]
fn a_long_word_is_cut(rt: HostRuntime) -> Result<(), Fail> {
    let alloc = rt.alloc();
    for (count, shown, end) in [
        (80, 80, "': no aggregate"),
        (81, 78, "..': no aggregate"),
        (60_000, 78, "..': no aggregate"),
    ] {
        let line = repeated(alloc, "query acct get ", "v", count, "")?;
        let wanted = repeated(alloc, "line 1: no plan: '", "v", shown, end)?;
        assert_eq!(rt;
            fault_of_batches(alloc, line.as_bytes())?.as_str(),
            wanted.as_str()
        );
    }
    Ok(())
}

/// A word may have any bytes: what is no text is shown as U+FFFD.
#[test]
fn a_word_that_is_no_text_is_shown(rt: HostRuntime) -> Result<(), Fail> {
    let alloc = rt.alloc();
    for (line, wanted) in [
        (
            b"job 0\xff".as_slice(),
            "line 1: bad words: '0\u{fffd}': has a byte that is not allowed",
        ),
        (
            b"job \xc3\xa9",
            "line 1: bad words: '\u{e9}': has a byte that is not allowed",
        ),
        (
            b"job 0\0",
            "line 1: bad words: '0\\u{0}': has a byte that is not allowed",
        ),
        (
            b"\xef\xbb\xbfjob 0",
            "line 1: no line of a job: '\u{feff}job': begins with a byte order mark",
        ),
        (
            b"\r",
            "line 1: no line of a job: '\\u{d}': lines end with LF alone",
        ),
    ] {
        let found = fault_of_jobs(alloc, Dialect::Jobs, line)?;
        assert_eq!(rt; found.as_str(), wanted);
    }
    Ok(())
}

/// Whichever allocation is refused: a fault of a line has its word, or lacks it as a whole.
#[test]
fn without_memory_a_fault_lacks_its_word(rt: HostRuntime) -> Result<(), Fail> {
    let alloc = rt.alloc();
    let found = fault_of_batches(alloc, b"query site get sum 0")?;
    assert!(rt;
        matches!(
            found.as_str(),
            "out of memory"
                | "line 1: wrong kind of a column"
                | "line 1: wrong kind of a column: '0': only numbers are summed"
        )
    );
    let found = fault_of_batches(alloc, b"query acct get avg 1")?;
    assert!(rt;
        matches!(
            found.as_str(),
            "out of memory" | "line 1: no plan" | "line 1: no plan: 'avg': no aggregate"
        )
    );
    let found = fault_of_jobs(alloc, Dialect::Jobs, b"job 7")?;
    assert!(rt;
        matches!(
            found.as_str(),
            "out of memory" | "line 1: bad words" | "line 1: bad words: '7': no worker"
        )
    );
    Ok(())
}
