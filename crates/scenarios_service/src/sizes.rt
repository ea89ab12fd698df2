//! Requests at the ends of their limits, and one past them.

use crate::driving::{Outcome, Sent, outcome_of};
use crate::echo::Echo;
use crate::memory_socket::{MemorySocket, PLAIN};
use service::{Limits, NoArrivals, Rounds};
use std::alloc::{AllocError, Global};
use std::hash::RandomState;
use std::test::Fail;

const TOO_LARGE: &[u8] =
    b"HTTP/1.1 413 Payload Too Large\r\nconnection: close\r\ncontent-length: 0\r\n\r\n";

const URI_TOO_LONG: &[u8] =
    b"HTTP/1.1 414 URI Too Long\r\nconnection: close\r\ncontent-length: 0\r\n\r\n";

const TOO_MANY_FIELDS: &[u8] =
    b"HTTP/1.1 431 Request Header Fields Too Large\r\nconnection: close\r\ncontent-length: 0\r\n\r\n";

const ANSWER: &[u8] = b"HTTP/1.1 200 OK\r\ncontent-length: 0\r\n\r\n";

/// A text in three parts, the second repeated.
fn repeated(
    alloc: Global,
    front: &[u8],
    part: &[u8],
    count: usize,
    end: &[u8],
) -> Result<Vec<u8>, Fail> {
    let mut text = Vec::new(alloc);
    text.extend_from_slice(front)?;
    for _ in 0..count {
        text.extend_from_slice(part)?;
    }
    text.extend_from_slice(end)?;
    Ok(text)
}

#[test]
fn a_body_may_have_5242880_bytes(rt: HostRuntime) -> Result<(), Fail> {
    let keys = RandomState::new(&rt)?;
    let outcome = outcome_of_longest(rt.alloc(), keys)?;
    assert_eq!(rt; outcome.answered, 1);
    assert_eq!(rt; outcome.sent, Sent::All);
    Ok(())
}

/// What comes of a body of 5,242,880 bytes.
fn outcome_of_longest(alloc: Global, keys: RandomState) -> Result<Outcome, Fail> {
    let front = b"POST / HTTP/1.1\r\nHost: localhost\r\nContent-Length: 5242880\r\n\r\n";
    let request = repeated(alloc, front, &[b'x'; 1024], 5120, b"")?;
    let front = b"HTTP/1.1 200 OK\r\ncontent-length: 5242880\r\n\r\n";
    let answer = repeated(alloc, front, &[b'x'; 1024], 5120, b"")?;
    outcome_of(alloc, keys, request.as_slice(), PLAIN, answer.as_slice())
}

#[test]
fn a_body_of_one_byte_more_is_refused_at_its_head(rt: HostRuntime) -> Result<(), Fail> {
    let keys = RandomState::new(&rt)?;
    let request = b"POST / HTTP/1.1\r\nHost: localhost\r\nContent-Length: 5242881\r\n\r\nx";
    let outcome = outcome_of(rt.alloc(), keys, request, PLAIN, TOO_LARGE)?;
    assert_eq!(rt; outcome.sent, Sent::All);
    assert_eq!(rt; outcome.answered, 0);
    assert!(rt; outcome.has_ended);
    Ok(())
}

#[test]
fn a_target_that_does_not_end_within_the_limit_is_refused(rt: HostRuntime) -> Result<(), Fail> {
    let keys = RandomState::new(&rt)?;
    let end = b" HTTP/1.1\r\nHost: localhost\r\n\r\n";
    let sent = sent_to(rt.alloc(), keys, b"GET /", b"a", 20_000, end, URI_TOO_LONG)?;
    assert_eq!(rt; sent, Sent::All);
    Ok(())
}

#[test]
fn a_request_may_have_64_fields(rt: HostRuntime) -> Result<(), Fail> {
    let keys = RandomState::new(&rt)?;
    let front = b"GET / HTTP/1.1\r\nHost: localhost\r\n";
    let sent = sent_to(rt.alloc(), keys, front, b"a: b\r\n", 63, b"\r\n", ANSWER)?;
    assert_eq!(rt; sent, Sent::All);
    let sent = sent_to(
        rt.alloc(),
        keys,
        front,
        b"a: b\r\n",
        64,
        b"\r\n",
        TOO_MANY_FIELDS,
    )?;
    assert_eq!(rt; sent, Sent::All);
    Ok(())
}

/// What is sent to a client of such a request, beside these answers.
fn sent_to(
    alloc: Global,
    keys: RandomState,
    front: &[u8],
    part: &[u8],
    count: usize,
    end: &[u8],
    answers: &[u8],
) -> Result<Sent, Fail> {
    let request = repeated(alloc, front, part, count, end)?;
    let outcome = outcome_of(alloc, keys, request.as_slice(), PLAIN, answers)?;
    Ok(outcome.sent)
}

/// What is seen of two clients that send a request each.
#[derive(Clone, Copy)]
struct Seen {
    held_bytes: usize,
    /// How many bytes of the second one were not read.
    left: usize,
    is_any_ready: bool,
    answered: u64,
}

#[test]
fn where_all_hold_too_many_bytes_the_first_is_read(rt: HostRuntime) -> Result<(), Fail> {
    let keys = RandomState::new(&rt)?;
    let (full, cleared) = seen_of_two(rt.alloc(), keys)?;
    // Each request has a head of 58 bytes, and the first one lacks its last byte.
    assert_eq!(rt; full.held_bytes, 4057);
    assert_eq!(rt; full.left, 4058);
    assert!(rt; !full.is_any_ready);
    assert_eq!(rt; cleared.left, 0);
    assert_eq!(rt; cleared.answered, 1);
    Ok(())
}

const HEAD: &[u8] = b"POST / HTTP/1.1\r\nHost: localhost\r\nContent-Length: 4000\r\n\r\n";

/// What is seen while both hold too many bytes, and once the first is given up.
fn seen_of_two(alloc: Global, keys: RandomState) -> Result<(Seen, Seen), Fail> {
    let first = repeated(alloc, HEAD, b"x", 3999, b"")?;
    let second = repeated(alloc, HEAD, b"y", 4000, b"")?;
    seen_of(alloc, keys, first.as_slice(), second.as_slice())
}

fn seen_of(
    alloc: Global,
    keys: RandomState,
    first: &[u8],
    second: &[u8],
) -> Result<(Seen, Seen), Fail> {
    let mut rounds = Rounds::new(alloc, keys, limits(), Echo::new());
    hear_at(&mut rounds, 0, MemorySocket::new(alloc, first, PLAIN))?;
    hear_at(&mut rounds, 1, MemorySocket::new(alloc, second, PLAIN))?;
    let full = seen_in(&rounds);
    // The first is given up at the end of its time, and then the second is read.
    rounds.clear(10_001);
    let _ = rounds.round(10_001, &mut NoArrivals);
    Ok((full, seen_in(&rounds)))
}

fn limits() -> Limits {
    let mut limits = Limits::of(2);
    limits.held_bytes = 4000;
    limits
}

/// Seats a client, and plays a round.
fn hear_at<'a>(
    rounds: &mut Rounds<Echo, MemorySocket<'a>>,
    place: usize,
    socket: MemorySocket<'a>,
) -> Result<(), AllocError> {
    let _ = rounds.free_place()?;
    rounds.seat(place, socket, 0);
    let _ = rounds.round(0, &mut NoArrivals);
    Ok(())
}

fn seen_in(rounds: &Rounds<Echo, MemorySocket<'_>>) -> Seen {
    Seen {
        held_bytes: rounds.held_bytes(),
        left: left_at(rounds, 1),
        is_any_ready: rounds.is_any_ready(),
        answered: rounds.service().answered,
    }
}

/// How many bytes of a client were not read.
fn left_at(rounds: &Rounds<Echo, MemorySocket<'_>>, place: usize) -> usize {
    match rounds.socket(place) {
        Some(socket) => socket.left(),
        None => 0,
    }
}
