//! Batches of queries.

use crate::readers::batches_of;
use std::alloc::{AllocError, Global};
use std::test::Fail;

/// Lines, and what is read of them: the line of each query of a batch, and its table.
type Case = (&'static str, &'static str);

const CASES: [Case; 12] = [
    // An empty line ends a batch, and so does the end of the input.
    (
        "query acct get count\n\nquery site get count\n",
        "batch 1:0\nbatch 3:1\nend\n",
    ),
    (
        "\n\n# one\nquery acct get count\n# two\nquery acct join 0 site get sum 1\n\n\n",
        "batch 4:0 6:0\nend\n",
    ),
    ("query acct get count", "batch 1:0\nend\n"),
    ("", "end\n"),
    ("\n#\n\n", "end\n"),
    // A column that the tables do not have may have been added.
    ("query acct get sum 200\n", "batch 1:0\nend\n"),
    // A line that does not read skips its batch, also if it is the last.
    (
        "query acct get count\nquery acct\nquery acct get count\n\nquery site get count\n",
        "line 2: no plan (batch)\nbatch 5:1\nend\n",
    ),
    (
        "query other get count\n\nquery site get count\n",
        "line 1: no plan (batch)\nbatch 3:1\nend\n",
    ),
    (
        "query site get sum 0\nnothing\n",
        "line 1: wrong kind of a column (batch)\nend\n",
    ),
    (
        "query acct by 0 0 0 get count\n",
        "line 1: too many conditions, columns to group by or aggregates (batch)\nend\n",
    ),
    (
        "query acct get count\n\nslip",
        "batch 1:0\nline 3: no plan (batch)\nend\n",
    ),
    (
        "slip\n# one\n\n\nslip\n\n",
        "line 1: no plan (batch)\nline 5: no plan (batch)\nend\n",
    ),
];

#[test]
fn batches_have_the_queries_of_their_lines(rt: HostRuntime) -> Result<(), Fail> {
    assert_eq!(rt; first_wrong(rt.alloc(), &CASES)?, None);
    Ok(())
}

/// The first case whose lines read as something else.
fn first_wrong(alloc: Global, cases: &[Case]) -> Result<Option<usize>, Fail> {
    for (index, (lines, wanted)) in cases.iter().enumerate() {
        let read = batches_of(alloc, lines.as_bytes())?;
        if read.as_str() != *wanted {
            return Ok(Some(index));
        }
    }
    Ok(None)
}

/// So many queries, and then a batch of one.
fn many_queries(alloc: Global, count: usize) -> Result<String, AllocError> {
    let mut lines = String::new(alloc);
    for _ in 0..count {
        lines.push_str("query acct get count\n")?;
    }
    lines.push_str("\nquery site get count\n")?;
    Ok(lines)
}

/// The 65th query of a batch is a fault, for which all of them are skipped.
#[test]
fn a_batch_has_64_queries(rt: HostRuntime) -> Result<(), Fail> {
    let read = batches_of(rt.alloc(), many_queries(rt.alloc(), 64)?.as_bytes())?;
    assert!(rt; read.as_str().starts_with("batch 1:0 2:0 3:0 "));
    assert!(rt; read.as_str().ends_with(" 63:0 64:0\nbatch 66:1\nend\n"));
    let read = batches_of(rt.alloc(), many_queries(rt.alloc(), 65)?.as_bytes())?;
    assert_eq!(rt;
        read.as_str(),
        "line 65: more than 64 queries (batch)\nbatch 67:1\nend\n"
    );
    Ok(())
}
