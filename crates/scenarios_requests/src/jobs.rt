//! Jobs that read, and looks and bases between them.

use crate::readers::jobs_of;
use requests::Dialect;
use std::test::Fail;

/// Two jobs of changes, with comments and empty lines, one of them of bytes that are no text.
const CHANGES: &[u8] =
    b"# \xff\n\njob 1\ninsert acct 7 5 -1\n# one\nset acct 7 1 6\n\ndelete acct 8\n\
    column acct 9\nend\njob 0\ninsert site 1 x4e45\nend\n";

const CHANGES_READ: &str =
    "3: job 1\n4: insert 0 7 5 -1\n6: set 0 7 1 6\n8: delete 0 8\n9: column 0 9\n\
    11: job 0\n12: insert 1 1 x4e45\nend\n";

/// Jobs with conditions, and looks and a base between them; the last line has no end.
const LIVE: &[u8] = b"get acct 7 0\njob 0\nexpect acct 7 0 5\nset acct 7 0 4\nabsent site 2\nend\n\
    get site 18446744073709551615 255\nbase\njob 1\nend";

const LIVE_READ: &str = "1: get 0 7 0\n2: job 0\n3: expect 0 7 0 5\n4: set 0 7 0 4\n5: absent 1 2\n\
    7: get 1 18446744073709551615 255\n8: base\n9: job 1\nend\n";

#[test]
fn jobs_have_the_changes_of_their_lines(rt: HostRuntime) -> Result<(), Fail> {
    for dialect in [Dialect::Jobs, Dialect::Live] {
        let read = jobs_of(rt.alloc(), dialect, CHANGES)?;
        assert_eq!(rt; read.as_str(), CHANGES_READ);
    }
    Ok(())
}

#[test]
fn live_jobs_have_conditions_and_looks_and_bases_between_them(rt: HostRuntime) -> Result<(), Fail> {
    let read = jobs_of(rt.alloc(), Dialect::Live, LIVE)?;
    assert_eq!(rt; read.as_str(), LIVE_READ);
    Ok(())
}

/// Input without a job.
#[test]
fn nothing_has_no_job(rt: HostRuntime) -> Result<(), Fail> {
    for lines in [b"".as_slice(), b"\n", b"#", b"\n\n# end\n"] {
        let read = jobs_of(rt.alloc(), Dialect::Jobs, lines)?;
        assert_eq!(rt; read.as_str(), "end\n");
    }
    Ok(())
}
