//! Requests that come in pieces, and one after the other at once.

use crate::driving::{Outcome, Sent, outcome_of};
use crate::memory_socket::{Habits, PLAIN, Trouble};
use std::hash::RandomState;
use std::test::Fail;

/// Three requests: with a body of a known length, in chunks, and without one.
pub const REQUESTS: &[u8] = b"POST /a HTTP/1.1\r\nHost: localhost\r\nContent-Length: 5\r\n\r\nfirst\
POST /b HTTP/1.1\r\nHost: localhost\r\nTransfer-Encoding: chunked\r\n\r\n3\r\nsec\r\n3\r\nond\r\n0\r\n\r\n\
GET /c HTTP/1.1\r\nHost: localhost\r\n\r\n";

/// Their answers.
pub const ANSWERS: &[u8] = b"HTTP/1.1 200 OK\r\ncontent-length: 5\r\n\r\nfirst\
HTTP/1.1 200 OK\r\ncontent-length: 6\r\n\r\nsecond\
HTTP/1.1 200 OK\r\ncontent-length: 0\r\n\r\n";

/// In pieces of so many bytes.
pub const PIECES: &[usize] = &[1, 2, 3, 7, 64, usize::MAX];

/// What they come to.
pub const ANSWERED: Outcome = Outcome {
    sent: Sent::All,
    answered: 3,
    has_ended: false,
    is_gone: false,
};

#[test]
fn requests_are_answered_in_order_however_they_come(rt: HostRuntime) -> Result<(), Fail> {
    let keys = RandomState::new(&rt)?;
    for piece in PIECES {
        let habits = Habits {
            piece: *piece,
            ..PLAIN
        };
        let outcome = outcome_of(rt.alloc(), keys, REQUESTS, habits, ANSWERS)?;
        assert_eq!(rt; outcome, ANSWERED, "in pieces of {piece}");
    }
    Ok(())
}

#[test]
fn a_client_that_stops_at_any_byte_gets_the_answers_to_its_whole_requests(
    rt: HostRuntime,
) -> Result<(), Fail> {
    let keys = RandomState::new(&rt)?;
    for cut in 0..REQUESTS.len() {
        let outcome = outcome_of(rt.alloc(), keys, &REQUESTS[..cut], PLAIN, ANSWERS)?;
        assert!(rt; outcome.sent != Sent::Other, "cut at {cut}");
        assert!(rt; !outcome.is_gone, "cut at {cut}");
        assert_eq!(rt; outcome.answered, whole_before(cut), "cut at {cut}");
    }
    Ok(())
}

/// How many requests are whole in so many bytes: the first has 61 bytes, the second 86.
pub fn whole_before(cut: usize) -> u64 {
    if cut < 61 {
        0
    } else if cut < 147 {
        1
    } else {
        2
    }
}

/// A socket whose calls take few bytes, and one of which goes wrong.
pub fn troubled(trouble: Trouble, calls_before: u64) -> Habits {
    Habits {
        piece: 16,
        trouble,
        calls_before,
        ends: false,
    }
}

#[test]
fn each_call_that_would_wait_is_made_again(rt: HostRuntime) -> Result<(), Fail> {
    let keys = RandomState::new(&rt)?;
    for calls_before in 0..60 {
        let habits = troubled(Trouble::Waits, calls_before);
        let outcome = outcome_of(rt.alloc(), keys, REQUESTS, habits, ANSWERS)?;
        assert_eq!(rt; outcome.sent, Sent::All, "at call {calls_before}");
    }
    Ok(())
}

#[test]
fn a_socket_that_fails_at_any_call_ends_its_connection(rt: HostRuntime) -> Result<(), Fail> {
    let keys = RandomState::new(&rt)?;
    for calls_before in 0..24 {
        let habits = troubled(Trouble::Fails, calls_before);
        let outcome = outcome_of(rt.alloc(), keys, REQUESTS, habits, ANSWERS)?;
        assert!(rt; outcome.sent != Sent::Other, "at call {calls_before}");
        assert!(rt; outcome.is_gone, "at call {calls_before}");
    }
    Ok(())
}
