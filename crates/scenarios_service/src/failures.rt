//! Connections that are refused memory.

use crate::driving::{Sent, outcome_of};
use crate::memory_socket::{Habits, PLAIN};
use crate::visits;
use std::hash::RandomState;
use std::test::Fail;

const REQUESTS: &[u8] = b"POST /a HTTP/1.1\r\nHost: localhost\r\nContent-Length: 5\r\n\r\nfirst\
POST /b HTTP/1.1\r\nHost: evil.example\r\nTransfer-Encoding: chunked\r\n\r\n3\r\nsec\r\n3\r\nond\r\n0\r\n\r\n";

const ANSWERS: &[u8] = b"HTTP/1.1 200 OK\r\ncontent-length: 5\r\n\r\nfirst\
HTTP/1.1 421 Misdirected Request\r\ncache-control: no-store\r\ncontent-type: text/plain; charset=us-ascii\r\n\
content-length: 5\r\n\r\nhost\n";

/// In pieces.
const HABITS: Habits = Habits { piece: 20, ..PLAIN };

/// Whatever request for memory is refused, what was sent is whole, or a first part and the connection has ended.
#[test]
fn requests_without_memory_get_no_wrong_answer(rt: HostRuntime) -> Result<(), Fail> {
    let keys = RandomState::new(&rt)?;
    let outcome = outcome_of(rt.alloc(), keys, REQUESTS, HABITS, ANSWERS)?;
    assert!(rt; outcome.sent != Sent::Other);
    assert!(rt; outcome.sent == Sent::All || outcome.is_gone);
    Ok(())
}

#[test]
fn visits_without_memory_give_no_wrong_answer(rt: HostRuntime) -> Result<(), Fail> {
    let keys = RandomState::new(&rt)?;
    let outcome = visits::outcome_of(rt.alloc(), keys, REQUESTS, HABITS, ANSWERS);
    assert!(rt; outcome.sent != Sent::Other);
    assert!(rt; outcome.sent == Sent::All || outcome.is_gone);
    Ok(())
}
