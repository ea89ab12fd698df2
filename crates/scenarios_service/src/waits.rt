//! Connections that take too long, each at its limit and one millisecond past it.

use crate::echo::Echo;
use crate::memory_socket::{Habits, MemorySocket, PLAIN, Trouble};
use service::{Limits, NoArrivals, Rounds};
use std::alloc::{AllocError, Global};
use std::hash::RandomState;
use std::test::Fail;

/// What a client sends, and after how many milliseconds its connection is still there.
pub const WAITS: &[(&str, u64)] = &[
    // Nothing.
    ("", 30_000),
    // A part of a request.
    ("GET / HT", 10_000),
    // A request; its answer is sent at once, and then it sends nothing.
    ("GET / HTTP/1.1\r\nHost: localhost\r\n\r\n", 30_000),
    // A request that asks to close, and its client does not.
    (
        "GET / HTTP/1.1\r\nHost: localhost\r\nConnection: close\r\n\r\n",
        1_000,
    ),
];

#[test]
fn connections_end_one_millisecond_past_their_limit(rt: HostRuntime) -> Result<(), Fail> {
    let keys = RandomState::new(&rt)?;
    for (input, limit) in WAITS {
        let left = connections_after(rt.alloc(), keys, input.as_bytes(), PLAIN, *limit)?;
        assert_eq!(rt; left, 1, "at {limit}");
        let past = limit.saturating_add(1);
        let left = connections_after(rt.alloc(), keys, input.as_bytes(), PLAIN, past)?;
        assert_eq!(rt; left, 0, "at {past}");
    }
    Ok(())
}

/// How many connections are left of one that is heard at 0 and then at no time.
fn connections_after(
    alloc: Global,
    keys: RandomState,
    input: &[u8],
    habits: Habits,
    now: u64,
) -> Result<usize, Fail> {
    let mut rounds = Rounds::new(alloc, keys, Limits::of(1), Echo::new());
    let _ = rounds.free_place()?;
    rounds.seat(0, MemorySocket::new(alloc, input, habits), 0);
    let _ = rounds.round(0, &mut NoArrivals);
    let _ = rounds.round(0, &mut NoArrivals);
    rounds.clear(now);
    Ok(rounds.connections())
}

#[test]
fn an_answer_that_nobody_reads_is_awaited_for_its_time(rt: HostRuntime) -> Result<(), Fail> {
    let keys = RandomState::new(&rt)?;
    let input = b"GET / HTTP/1.1\r\nHost: localhost\r\n\r\n";
    // The request takes one read; the first write would wait.
    let habits = Habits {
        piece: usize::MAX,
        trouble: Trouble::Waits,
        calls_before: 1,
        ends: false,
    };
    let left = connections_after(rt.alloc(), keys, input, habits, 30_000)?;
    assert_eq!(rt; left, 1);
    let left = connections_after(rt.alloc(), keys, input, habits, 30_001)?;
    assert_eq!(rt; left, 0);
    Ok(())
}

/// A round may take longer than a connection may wait: that begins with the next one.
#[test]
fn connections_wait_from_when_a_round_has_ended(rt: HostRuntime) -> Result<(), Fail> {
    let keys = RandomState::new(&rt)?;
    for (now, expected) in AFTER_LONG_ROUND {
        let (at_once, left) = connections_after_long_round(rt.alloc(), keys, *now)?;
        assert_eq!(rt; at_once, 1, "at 40_000");
        assert_eq!(rt; left, *expected, "at {now}");
    }
    Ok(())
}

/// After how many milliseconds how many connections are left, the long round's time included.
const AFTER_LONG_ROUND: &[(u64, usize)] = &[(70_000, 1), (70_001, 0)];

/// How many connections are left of one, right after a round of 40,000 ms, and later.
fn connections_after_long_round(
    alloc: Global,
    keys: RandomState,
    now: u64,
) -> Result<(usize, usize), Fail> {
    let input = b"GET / HTTP/1.1\r\nHost: localhost\r\n\r\n";
    let mut rounds = Rounds::new(alloc, keys, Limits::of(1), Echo::new());
    let _ = rounds.free_place()?;
    rounds.seat(0, MemorySocket::new(alloc, input, PLAIN), 0);
    let _ = rounds.round(0, &mut NoArrivals);
    let _ = rounds.round(40_000, &mut NoArrivals);
    rounds.clear(40_000);
    let at_once = rounds.connections();
    rounds.clear(now);
    Ok((at_once, rounds.connections()))
}

#[test]
fn there_are_no_more_connections_than_places(rt: HostRuntime) -> Result<(), Fail> {
    let keys = RandomState::new(&rt)?;
    let (first, second, third, cleared) = places_of_two(rt.alloc(), keys)?;
    assert_eq!(rt; first, Some(0));
    assert_eq!(rt; second, Some(1));
    assert_eq!(rt; third, None);
    assert_eq!(rt; cleared, Some(0));
    Ok(())
}

/// A place, if one is free.
type Free = Option<usize>;

/// The places of three clients where there are two, and of one more when these have waited for too long.
fn places_of_two(alloc: Global, keys: RandomState) -> Result<(Free, Free, Free, Free), Fail> {
    let mut rounds = Rounds::new(alloc, keys, Limits::of(2), Echo::new());
    let first = seat_silent(alloc, &mut rounds)?;
    let second = seat_silent(alloc, &mut rounds)?;
    let third = seat_silent(alloc, &mut rounds)?;
    rounds.clear(30_001);
    let cleared = rounds.free_place()?;
    Ok((first, second, third, cleared))
}

/// The place of a client that sends nothing.
fn seat_silent(
    alloc: Global,
    rounds: &mut Rounds<Echo, MemorySocket<'static>>,
) -> Result<Free, AllocError> {
    let free = rounds.free_place()?;
    if let Some(place) = free {
        rounds.seat(place, MemorySocket::new(alloc, b"", PLAIN), 0);
    }
    Ok(free)
}
