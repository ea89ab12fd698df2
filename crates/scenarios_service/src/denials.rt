//! Requests that are denied before the service sees them.

use crate::driving::{Sent, outcome_of};
use crate::memory_socket::PLAIN;
use std::alloc::Global;
use std::hash::RandomState;
use std::test::Fail;

const BAD: &str =
    "HTTP/1.1 400 Bad Request\r\ncache-control: no-store\r\nconnection: close\r\ncontent-length: 0\r\n\r\n";

const MISDIRECTED: &str = "HTTP/1.1 421 Misdirected Request\r\ncache-control: no-store\r\n\
     content-type: text/plain; charset=us-ascii\r\ncontent-length: 5\r\n\r\nhost\n";

const FORBIDDEN: &str =
    "HTTP/1.1 403 Forbidden\r\ncache-control: no-store\r\ncontent-type: text/plain; charset=us-ascii\r\ncontent-length: 7\r\n\r\norigin\n";

/// Requests that name a host, or ask for a tunnel to one.
const OTHER_TARGETS: &[&str] = &[
    "GET http://evil/status HTTP/1.1\r\nHost: localhost\r\n\r\n",
    "CONNECT x:1 HTTP/1.1\r\nHost: localhost\r\n\r\n",
];

/// Requests to a host of another name.
const OTHER_HOSTS: &[&str] = &[
    "GET / HTTP/1.1\r\nHost: evil.example\r\n\r\n",
    "GET / HTTP/1.1\r\nHost: localhost.evil\r\n\r\n",
    "GET / HTTP/1.1\r\nHost: 127.0.0.1.evil\r\n\r\n",
    "GET / HTTP/1.1\r\nHost: 127x\r\n\r\n",
    "GET / HTTP/1.1\r\nHost: localhos\r\n\r\n",
    "GET / HTTP/1.1\r\nHost:\r\n\r\n",
];

/// Requests of pages of other places, and of what may be one.
const OTHER_PAGES: &[&str] = &[
    "GET / HTTP/1.1\r\nHost: localhost\r\nOrigin: http://evil.example\r\n\r\n",
    "GET / HTTP/1.1\r\nHost: localhost\r\nOrigin: null\r\n\r\n",
    "GET / HTTP/1.1\r\nHost: localhost:80\r\nOrigin: http://localhost\r\n\r\n",
    "GET / HTTP/1.1\r\nHost: localhost\r\nOrigin: https://localhost\r\n\r\n",
    "GET / HTTP/1.1\r\nHost: localhost\r\nSec-Fetch-Site: cross-site\r\n\r\n",
    "GET / HTTP/1.1\r\nHost: localhost\r\nSec-Fetch-Site: same-site\r\n\r\n",
    "GET / HTTP/1.1\r\nHost: localhost\r\nOrigin: http://localhost\r\nOrigin: http://evil.example\r\n\r\n",
    "GET / HTTP/1.1\r\nHost: localhost\r\nSec-Fetch-Site: none\r\nSec-Fetch-Site: cross-site\r\n\r\n",
];

/// Requests that are not denied.
const ADMITTED: &[&str] = &[
    "GET / HTTP/1.1\r\nHost: localhost\r\n\r\n",
    "GET / HTTP/1.1\r\nHost: LocalHost:8080\r\n\r\n",
    "GET / HTTP/1.1\r\nHost: 127.0.0.1\r\n\r\n",
    "GET / HTTP/1.1\r\nHost: 127.0.0.1:8080\r\n\r\n",
    "GET / HTTP/1.1\r\nHost: [::1]:8080\r\n\r\n",
    "GET / HTTP/1.1\r\nHost: 127.0.0.1:8080\r\nOrigin: http://127.0.0.1:8080\r\n\r\n",
    "GET / HTTP/1.1\r\nHost: localhost\r\nSec-Fetch-Site: same-origin\r\n\r\n",
    "GET / HTTP/1.1\r\nHost: localhost\r\nSec-Fetch-Site: none\r\n\r\n",
];

const ANSWER: &str = "HTTP/1.1 200 OK\r\ncontent-length: 0\r\n\r\n";

#[test]
fn pages_of_other_places_and_other_hosts_are_denied(rt: HostRuntime) -> Result<(), Fail> {
    let keys = RandomState::new(&rt)?;
    let other = first_other(rt.alloc(), keys, OTHER_TARGETS, BAD, 0)?;
    assert_eq!(rt; other, None);
    let other = first_other(rt.alloc(), keys, OTHER_HOSTS, MISDIRECTED, 0)?;
    assert_eq!(rt; other, None);
    let other = first_other(rt.alloc(), keys, OTHER_PAGES, FORBIDDEN, 0)?;
    assert_eq!(rt; other, None);
    Ok(())
}

#[test]
fn programs_and_the_own_page_are_answered(rt: HostRuntime) -> Result<(), Fail> {
    let keys = RandomState::new(&rt)?;
    let other = first_other(rt.alloc(), keys, ADMITTED, ANSWER, 1)?;
    assert_eq!(rt; other, None);
    Ok(())
}

/// The first of these requests that, sent alone, is answered otherwise, or by which the service answers another number of requests.
fn first_other<'a>(
    alloc: Global,
    keys: RandomState,
    requests: &[&'a str],
    answer: &str,
    answered: u64,
) -> Result<Option<&'a str>, Fail> {
    for request in requests {
        let outcome = outcome_of(alloc, keys, request.as_bytes(), PLAIN, answer.as_bytes())?;
        if outcome.sent != Sent::All || outcome.answered != answered {
            return Ok(Some(*request));
        }
    }
    Ok(None)
}
