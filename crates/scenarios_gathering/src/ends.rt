//! Requests that are not answered.

use crate::counting::counting;
use gathering::{Answer, Gathering};
use std::alloc::Global;
use std::sync::Wait;
use std::test::Fail;
use std::thread::{Threads, join, yield_now};

/// A name of an answer.
fn name_of(answer: &Answer) -> &'static str {
    match answer {
        Answer::Report(_) => "report",
        Answer::Unfit(why) if why.as_str() == "line 1: no such column\n" => "unfit",
        Answer::Unfit(_) => "another text",
        Answer::Late => "late",
        Answer::Broken => "broken",
        Answer::Memory => "memory",
    }
}

/// What a query is answered at this place.
fn asked<R: Wait>(rt: &R, alloc: Global, gathering: &Gathering, place: usize) -> &'static str {
    match counting(alloc, 1) {
        Ok(queries) => name_of(&gathering.ask(rt, place, queries)),
        Err(_) => "memory",
    }
}

/// What becomes of a request that waits.
#[derive(Clone, Copy)]
enum End {
    TurnedAway,
    /// It was taken before.
    TurnedAwayLater,
    Unfit,
    Broken,
    Done,
}

/// Does this to a request once it waits.
fn finish<R: Wait>(rt: &R, gathering: &Gathering, end: End) {
    for _ in rt.forever() {
        if gathering.len(rt) == 1 {
            break;
        }
        yield_now();
    }
    match end {
        End::TurnedAway => gathering.turn_away(rt),
        End::TurnedAwayLater => {
            let _ = gathering.take(rt, 64);
            gathering.turn_away(rt);
            // Nobody is under way any more.
            gathering.answer(rt, b"version 0 queries 0\n");
        }
        End::Unfit => {
            let _ = gathering.take(rt, 64);
            gathering.refuse(rt, "line 1: no such column\n");
        }
        End::Broken => gathering.end(rt, true),
        End::Done => gathering.end(rt, false),
    }
}

/// What a request is answered that so ends, and what the next one is, if that need not wait.
fn ended<R: Threads + Wait + Sync>(
    rt: &R,
    alloc: Global,
    how: End,
) -> Option<(&'static str, &'static str)> {
    let gathering = Gathering::new(alloc, 1).ok()?;
    let gathering = &gathering;
    let (first, _) = join(
        rt,
        || asked(rt, alloc, gathering, 0),
        || finish(rt, gathering, how),
    );
    let next = if matches!(how, End::Broken | End::Done) {
        asked(rt, alloc, gathering, 0)
    } else {
        asked(rt, alloc, gathering, 1)
    };
    Some((first, next))
}

#[test]
fn a_request_that_is_not_answered_is_told_why(rt: HostRuntime) -> Result<(), Fail> {
    let alloc = rt.alloc();
    assert_eq!(rt; ended(&rt, alloc, End::TurnedAway), Some(("late", "late")));
    assert_eq!(rt;
        ended(&rt, alloc, End::TurnedAwayLater),
        Some(("late", "late"))
    );
    assert_eq!(rt; ended(&rt, alloc, End::Unfit), Some(("unfit", "late")));
    assert_eq!(rt; ended(&rt, alloc, End::Broken), Some(("broken", "broken")));
    assert_eq!(rt; ended(&rt, alloc, End::Done), Some(("late", "late")));
    Ok(())
}
