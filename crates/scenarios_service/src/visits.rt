//! Connections that one thread serves, step by step.

use crate::cuts::{ANSWERED, ANSWERS, PIECES, REQUESTS, troubled, whole_before};
use crate::driving::{Outcome, Sent, sent_of};
use crate::echo::Echo;
use crate::memory_socket::{Habits, MemorySocket, PLAIN, Trouble};
use crate::waits::WAITS;
use service::{Guest, Limits, Visits};
use std::alloc::Global;
use std::hash::RandomState;
use std::test::Fail;

/// The times of as many steps as a connection needs.
const STEPS: &[u64] = &[0; 600];

/// The requests of one client, served to their end, and the answers that are expected.
pub fn outcome_of(
    alloc: Global,
    keys: RandomState,
    input: &[u8],
    habits: Habits,
    answers: &[u8],
) -> Outcome {
    let mut visits = Visits::new(alloc, keys, Limits::of(1), Echo::new());
    let mut socket = MemorySocket::new(alloc, input, habits);
    let steps = steps_until_end(&mut visits, &mut socket, STEPS);
    Outcome {
        sent: sent_of(socket.sent(), answers),
        answered: visits.service().answered,
        has_ended: socket.has_ended,
        is_gone: steps.is_some(),
    }
}

#[test]
fn visits_answer_in_order_however_requests_come(rt: HostRuntime) -> Result<(), Fail> {
    let keys = RandomState::new(&rt)?;
    for piece in PIECES {
        let habits = Habits {
            piece: *piece,
            ..PLAIN
        };
        let outcome = outcome_of(rt.alloc(), keys, REQUESTS, habits, ANSWERS);
        assert_eq!(rt; outcome, ANSWERED, "in pieces of {piece}");
    }
    Ok(())
}

#[test]
fn visits_answer_the_whole_requests_of_a_client_that_stops(rt: HostRuntime) -> Result<(), Fail> {
    let keys = RandomState::new(&rt)?;
    for cut in 0..REQUESTS.len() {
        let outcome = outcome_of(rt.alloc(), keys, &REQUESTS[..cut], PLAIN, ANSWERS);
        assert!(rt; outcome.sent != Sent::Other, "cut at {cut}");
        assert_eq!(rt; outcome.answered, whole_before(cut), "cut at {cut}");
    }
    Ok(())
}

#[test]
fn visits_make_a_call_again_that_would_wait_and_end_where_one_fails(
    rt: HostRuntime,
) -> Result<(), Fail> {
    let keys = RandomState::new(&rt)?;
    for calls_before in 0..24 {
        let waits = troubled(Trouble::Waits, calls_before);
        let outcome = outcome_of(rt.alloc(), keys, REQUESTS, waits, ANSWERS);
        assert_eq!(rt; outcome.sent, Sent::All, "waits at call {calls_before}");
        let fails = troubled(Trouble::Fails, calls_before);
        let outcome = outcome_of(rt.alloc(), keys, REQUESTS, fails, ANSWERS);
        assert!(rt; outcome.is_gone, "fails at call {calls_before}");
        assert!(rt; outcome.sent != Sent::Other, "fails at call {calls_before}");
    }
    Ok(())
}

#[test]
fn visits_end_one_millisecond_past_their_limit(rt: HostRuntime) -> Result<(), Fail> {
    let keys = RandomState::new(&rt)?;
    for (input, limit) in WAITS {
        let steps = steps_at(
            rt.alloc(),
            keys,
            input.as_bytes(),
            PLAIN,
            &[0, 0, 0, 0, *limit],
        );
        assert_eq!(rt; steps, None, "at {limit}");
        let past = limit.saturating_add(1);
        let steps = steps_at(
            rt.alloc(),
            keys,
            input.as_bytes(),
            PLAIN,
            &[0, 0, 0, 0, past],
        );
        assert_eq!(rt; steps, Some(5), "at {past}");
    }
    Ok(())
}

/// The times of the steps of a connection, the last of which ends it. The first one reads a request, whose answer takes longer
/// than a connection may wait.
const LONG_CALLS: &[(Trouble, &[u64])] = &[
    // The answer is sent, and then no request comes.
    (Trouble::None, &[0, 40_000, 70_000, 70_001]),
    // The socket does not take it at once, and then none comes.
    (Trouble::Waits, &[0, 40_000, 70_000, 100_000, 100_001]),
    // The socket fails.
    (Trouble::Fails, &[0, 40_000]),
];

/// A service may take longer than a connection may wait: that begins once it has answered.
#[test]
fn visits_wait_from_when_a_request_was_answered(rt: HostRuntime) -> Result<(), Fail> {
    let keys = RandomState::new(&rt)?;
    let request = b"GET / HTTP/1.1\r\nHost: localhost\r\n\r\n";
    for (trouble, times) in LONG_CALLS {
        let habits = Habits {
            trouble: *trouble,
            calls_before: 1,
            ..PLAIN
        };
        let steps = steps_at(rt.alloc(), keys, request, habits, *times);
        assert_eq!(rt; steps, Some(times.len()), "{trouble:?} {times:?}");
    }
    Ok(())
}

/// How many steps a connection is given at these times, up to the one that ends it; `None` if none does.
fn steps_at(
    alloc: Global,
    keys: RandomState,
    input: &[u8],
    habits: Habits,
    times: &[u64],
) -> Option<usize> {
    let mut visits = Visits::new(alloc, keys, Limits::of(1), Echo::new());
    let mut socket = MemorySocket::new(alloc, input, habits);
    steps_until_end(&mut visits, &mut socket, times)
}

/// The same of a socket.
fn steps_until_end(
    visits: &mut Visits<Echo>,
    socket: &mut MemorySocket<'_>,
    times: &[u64],
) -> Option<usize> {
    let mut guest = visits.begin(0);
    steps_of_guest(visits, &mut guest, socket, times)
}

/// The same of a connection.
fn steps_of_guest(
    visits: &mut Visits<Echo>,
    guest: &mut Guest,
    socket: &mut MemorySocket<'_>,
    times: &[u64],
) -> Option<usize> {
    let mut steps: usize = 0;
    for time in times {
        steps = steps.saturating_add(1);
        if !visits.step(guest, socket, *time) {
            return Some(steps);
        }
    }
    None
}

/// Requests that come one behind the other, each of which takes longer to be answered than a connection may wait.
#[test]
fn visits_answer_what_came_behind_a_long_call(rt: HostRuntime) -> Result<(), Fail> {
    let keys = RandomState::new(&rt)?;
    let (steps, sent, answered) = two_long_calls(rt.alloc(), keys);
    assert_eq!(rt; steps, None);
    assert_eq!(rt; answered, 2);
    assert_eq!(rt; sent, Sent::All);
    Ok(())
}

/// At how many steps the connection of two such requests ends, what is sent beside their answers, and how many are answered.
fn two_long_calls(alloc: Global, keys: RandomState) -> (Option<usize>, Sent, u64) {
    let input =
        b"GET /a HTTP/1.1\r\nHost: localhost\r\n\r\nGET /b HTTP/1.1\r\nHost: localhost\r\n\r\n";
    let answers = b"HTTP/1.1 200 OK\r\ncontent-length: 0\r\n\r\n\
HTTP/1.1 200 OK\r\ncontent-length: 0\r\n\r\n";
    let habits = Habits {
        piece: input.len() / 2,
        ..PLAIN
    };
    let mut visits = Visits::new(alloc, keys, Limits::of(1), Echo::new());
    let mut socket = MemorySocket::new(alloc, input, habits);
    let steps = steps_until_end(&mut visits, &mut socket, &[0, 40_000, 80_000]);
    (
        steps,
        sent_of(socket.sent(), answers),
        visits.service().answered,
    )
}

/// A denied request, and one that asks to close.
#[test]
fn visits_deny_and_close(rt: HostRuntime) -> Result<(), Fail> {
    let keys = RandomState::new(&rt)?;
    let input = b"GET /a HTTP/1.1\r\nHost: evil.example\r\n\r\n\
GET /b HTTP/1.1\r\nHost: localhost\r\nConnection: close\r\n\r\n";
    let answers = b"HTTP/1.1 421 Misdirected Request\r\ncache-control: no-store\r\n\
content-type: text/plain; charset=us-ascii\r\ncontent-length: 5\r\n\r\nhost\n\
HTTP/1.1 200 OK\r\ncontent-length: 0\r\nconnection: close\r\n\r\n";
    let expected = Outcome {
        sent: Sent::All,
        answered: 1,
        has_ended: true,
        // Its client has not closed yet.
        is_gone: false,
    };
    let outcome = outcome_of(rt.alloc(), keys, input, PLAIN, answers);
    assert_eq!(rt; outcome, expected);
    Ok(())
}
