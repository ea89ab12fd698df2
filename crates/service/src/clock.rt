//! The time since a moment.

use std::rt::Clock;
use std::time::Instant;

/// How many milliseconds have passed since then; 0 if the clock cannot tell.
pub(crate) fn millis_since<R: Clock>(rt: &R, then: &Instant) -> u64 {
    match then.elapsed(rt) {
        Ok(elapsed) => u64::try_from(elapsed.as_millis()).unwrap_or(u64::MAX),
        Err(_) => 0,
    }
}
