//! What clients may ask for.

ghost use Rattle.std.specs.Prelude.{◌≡◌};

use http_server::Config;

/// The longest body of a request, in bytes.
const BODY_LEN_MAX: usize = 5_242_880;

/// The limits of a listener and its connections. Times are in milliseconds.
#[derive(Clone, Copy, PartialEq, Eq)]
pub struct Limits {
    /// How many connections there are at once, at most.
    pub connections: usize,
    /// The time of a request, from its first byte to its last.
    pub request_millis: u64,
    /// The time that a connection may be without a request.
    pub idle_millis: u64,
    /// The time that an answer may wait while its client reads nothing of it.
    pub answer_millis: u64,
    /// The time that a connection is still read after the last answer was sent.
    pub leaving_millis: u64,
    /// From this many bytes on that all connections hold of requests, only the one whose request
    /// began first is read.
    pub held_bytes: usize,
    /// The limits of one connection: of a request's head and body, and of answers that wait.
    pub config: Config,
}

impl Limits {
    /// For so many connections: 10 s for a request, 30 s without one, 30 s for an answer that is not
    /// read, and 1 s after the last answer; 256 MiB in all; bodies of 5,242,880 bytes, and 16,384
    /// bytes before a body.
    pub fn of(connections: usize) -> Limits
        ensures { result.connections ≡ connections }
    {
        let config = Config {
            max_body_len: BODY_LEN_MAX,
            ..Config::default()
        };
        Limits {
            connections,
            request_millis: 10_000,
            idle_millis: 30_000,
            answer_millis: 30_000,
            leaving_millis: 1_000,
            held_bytes: 256 * 1024 * 1024,
            config,
        }
    }
}
