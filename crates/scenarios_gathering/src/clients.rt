//! Two clients whose requests are answered as one batch.

use crate::counting::counting;
use gathering::{Answer, Gathering};
use std::alloc::Global;
use std::sync::Wait;
use std::test::Fail;
use std::thread::{Threads, join, yield_now};

/// What a batch of three queries is answered.
const REPORT: &[u8] =
    b"version 7 queries 3\nquery 0 rows 1\n10\nquery 1 rows 0\nquery 2 rows 2\n20 x41\n-1 x42\n";

/// The part of its first query, and that of the two others.
const FIRST: &[u8] = b"version 7 queries 1\nquery 0 rows 1\n10\n";

const OTHERS: &[u8] = b"version 7 queries 2\nquery 0 rows 0\nquery 1 rows 2\n20 x41\n-1 x42\n";

/// Waits until so many requests wait.
fn await_requests<R: Wait>(rt: &R, gathering: &Gathering, count: usize) {
    for _ in rt.forever() {
        if gathering.len(rt) == count {
            return;
        }
        yield_now();
    }
}

/// Asks so many queries at a place once so many requests wait. Whether they are answered by this text.
fn is_answered<R: Wait>(
    rt: &R,
    alloc: Global,
    gathering: &Gathering,
    place: usize,
    count: u64,
    text: &[u8],
) -> bool {
    await_requests(rt, gathering, place);
    let Ok(queries) = counting(alloc, count) else {
        return false;
    };
    match gathering.ask(rt, place, queries) {
        Answer::Report(report) => report.as_slice() == text,
        _ => false,
    }
}

/// Takes a request of so many queries at most. How many it has.
fn taken<R: Wait>(rt: &R, gathering: &Gathering, room: usize) -> Option<usize> {
    match gathering.take(rt, room) {
        Ok(Some(request)) => Some(request.queries.len()),
        _ => None,
    }
}

/// Takes a request, and puts it back. Whether it could.
fn is_put_back<R: Wait>(rt: &R, gathering: &Gathering) -> bool {
    match gathering.take(rt, 64) {
        Ok(Some(request)) => gathering.put_back(rt, request).is_ok(),
        _ => false,
    }
}

/// Takes the requests of both clients once these wait, and answers them.
fn answer_both<R: Wait>(rt: &R, gathering: &Gathering) -> [Option<usize>; 3] {
    await_requests(rt, gathering, 2);
    let is_back = is_put_back(rt, gathering);
    let first = taken(rt, gathering, 64);
    let none = taken(rt, gathering, 1);
    let second = if is_back {
        taken(rt, gathering, 2)
    } else {
        None
    };
    gathering.answer(rt, REPORT);
    [first, none, second]
}

/// Two clients, each in a thread of its own. Whether each is answered by its part.
fn are_answered<R: Threads + Wait + Sync>(rt: &R, alloc: Global, gathering: &Gathering) -> bool {
    let (is_first, are_others) = join(
        rt,
        || is_answered(rt, alloc, gathering, 0, 1, FIRST),
        || is_answered(rt, alloc, gathering, 1, 2, OTHERS),
    );
    is_first && are_others
}

/// Two clients, and what answers them.
fn both<R: Threads + Wait + Sync>(rt: &R, alloc: Global) -> Option<(bool, [Option<usize>; 3])> {
    let gathering = Gathering::new(alloc, 2).ok()?;
    let gathering = &gathering;
    Some(join(
        rt,
        || are_answered(rt, alloc, gathering),
        || answer_both(rt, gathering),
    ))
}

#[test]
fn each_client_reads_the_report_of_its_own_queries(rt: HostRuntime) -> Result<(), Fail> {
    assert_eq!(rt;
        both(&rt, rt.alloc()),
        Some((true, [Some(1), None, Some(2)]))
    );
    Ok(())
}
