//! Jobs in bodies: what they are answered, and what later ones find.

use crate::desks::{Round, WORKERS, go_so_after, setup, started};
use journal::MemJournal;
use primary::PrimaryCore;
use script::Setup;
use std::alloc::Global;
use std::sync::Wait;
use std::test::Fail;

/// Requests of a client that waits for each answer.
const ONE_BY_ONE: [Round; 12] = [
    (
        &[(
            "POST",
            "/jobs",
            b"job 0\ninsert acct 1 100 0\ninsert acct 2 5 0\nend\n",
            200,
            b"job 0 ticket 1\n",
        )],
        true,
    ),
    // The same again: both rows are there.
    (
        &[(
            "POST",
            "/jobs",
            b"job 0\ninsert acct 1 100 0\ninsert acct 2 5 0\nend\n",
            409,
            b"job 0 refused\n",
        )],
        true,
    ),
    // The second job needs what the first one did.
    (
        &[(
            "POST",
            "/jobs",
            b"job 0\nexpect acct 1 0 100\nset acct 1 0 70\nend\njob 1\nexpect acct 1 0 70\nset acct 2 0 35\nend\n",
            200,
            b"job 0 ticket 2\njob 1 ticket 3\n",
        )],
        true,
    ),
    // The condition of the second does not hold.
    (
        &[(
            "POST",
            "/jobs",
            b"job 0\nset acct 1 1 1\nend\njob 0\nexpect acct 2 0 36\nset acct 2 1 1\nend\njob 1\nset acct 2 1 2\nend\n",
            409,
            b"job 0 ticket 4\njob 1 refused\njob 2 ticket 5\n",
        )],
        true,
    ),
    // The second job does not read, so neither is done: the next ticket is 6.
    (
        &[(
            "POST",
            "/jobs",
            b"job 0\nset acct 1 1 5\nend\njob 0\nset acct 1 one 5\nend\n",
            400,
            b"line 5: bad words: 'one': no number of a column, 0 to 255\n",
        )],
        true,
    ),
    (
        &[(
            "POST",
            "/jobs",
            b"job 0\nset acct 1 1 5\n",
            400,
            b"line 3: a job without its end\n",
        )],
        true,
    ),
    (
        &[
            ("POST", "/jobs", b"", 400, b"line 1: no job\n"),
            ("POST", "/jobs", b"# none\n", 400, b"line 1: no job\n"),
            (
                "POST",
                "/jobs",
                b"get acct 1 0\n",
                400,
                b"line 1: no line of a job\n",
            ),
            (
                "POST",
                "/jobs",
                b"base\n",
                400,
                b"line 1: no line of a job\n",
            ),
        ],
        true,
    ),
    (
        &[
            ("GET", "/jobs", b"", 405, b"use POST\n"),
            (
                "GET",
                "/tables/acct/1",
                b"",
                200,
                b"version 5\nacct 1 70 1\n",
            ),
            (
                "HEAD",
                "/tables/acct/2",
                b"",
                200,
                b"version 5\nacct 2 35 2\n",
            ),
            ("POST", "/tables/acct/1", b"", 405, b"use GET\n"),
            ("GET", "/tables/acct/9", b"", 404, b"missing\n"),
            (
                "GET",
                "/tables/acct/18446744073709551615",
                b"",
                404,
                b"missing\n",
            ),
            (
                "GET",
                "/tables/acct/18446744073709551616",
                b"",
                404,
                b"no such path\n",
            ),
            ("GET", "/tables/acct/01", b"", 404, b"no such path\n"),
            ("GET", "/tables/acct/", b"", 404, b"no such path\n"),
            ("GET", "/tables/acct/1/2", b"", 404, b"no such path\n"),
            ("GET", "/tables/none/1", b"", 404, b"no such table\n"),
            ("GET", "/tables", b"", 404, b"no such path\n"),
            ("GET", "/job", b"", 404, b"no such path\n"),
            ("POST", "/jobs/", b"", 404, b"no such path\n"),
        ],
        true,
    ),
    // Nothing was done since.
    (
        &[(
            "POST",
            "/jobs",
            b"job 1\nset acct 2 1 7\nend\n",
            200,
            b"job 0 ticket 6\n",
        )],
        true,
    ),
    // A row that a job of the same body deletes, and then puts in and sets.
    (
        &[(
            "POST",
            "/jobs",
            b"job 0\ninsert acct 50 1 1\nend\njob 0\nset acct 50 0 2\nend\n",
            200,
            b"job 0 ticket 7\njob 1 ticket 8\n",
        )],
        true,
    ),
    (
        &[(
            "POST",
            "/jobs",
            b"job 0\ndelete acct 50\nend\njob 0\nabsent acct 50\ninsert acct 50 3 3\nend\njob 1\nset acct 50 0 4\nend\n",
            200,
            b"job 0 ticket 9\njob 1 ticket 10\njob 2 ticket 11\n",
        )],
        true,
    ),
    // A round without a request.
    (&[], true),
];

/// Requests of several clients in one round, each of which needs what the one before did; and those of
/// the next round.
const TOGETHER: [Round; 2] = [
    (
        &[
            (
                "POST",
                "/jobs",
                b"job 0\ninsert acct 1 1 1\nend\n",
                200,
                b"job 0 ticket 1\n",
            ),
            (
                "POST",
                "/jobs",
                b"job 1\nset acct 1 0 2\nend\n",
                200,
                b"job 0 ticket 2\n",
            ),
            (
                "POST",
                "/jobs",
                b"job 0\nexpect acct 1 0 2\nset acct 1 0 3\nend\n",
                200,
                b"job 0 ticket 3\n",
            ),
            (
                "POST",
                "/jobs",
                b"job 0\nexpect acct 1 0 2\nset acct 1 0 4\nend\n",
                409,
                b"job 0 refused\n",
            ),
        ],
        true,
    ),
    (
        &[(
            "POST",
            "/jobs",
            b"job 0\nexpect acct 1 0 3\ndelete acct 1\nend\n",
            200,
            b"job 0 ticket 4\n",
        )],
        true,
    ),
];

/// Whether rounds go so on a new primary.
fn go_so<R: Wait>(rt: &R, alloc: Global, rounds: &[Round]) -> Result<bool, Fail> {
    let setup = setup(alloc)?;
    let are_so = go_so_with(rt, alloc, &setup, rounds);
    drop(setup);
    are_so
}

/// The same with this setup.
fn go_so_with<R: Wait>(
    rt: &R,
    alloc: Global,
    setup: &Setup,
    rounds: &[Round],
) -> Result<bool, Fail> {
    let journal = MemJournal::new(alloc);
    let core = started(PrimaryCore::start(alloc, journal, &setup.schema, WORKERS))?;
    go_so_after(rt, alloc, core, setup, rounds)
}

#[test]
fn jobs_of_a_body_are_done_one_after_the_other(rt: HostRuntime) -> Result<(), Fail> {
    assert!(rt; go_so(&rt, rt.alloc(), &ONE_BY_ONE)?);
    Ok(())
}

#[test]
fn requests_of_a_round_see_each_other(rt: HostRuntime) -> Result<(), Fail> {
    assert!(rt; go_so(&rt, rt.alloc(), &TOGETHER)?);
    Ok(())
}
