//! How far long work has come, which is said once a second.

ghost use Rattle.std.specs.Prelude.{◌≡◌, ◌<◌, ◌≤◌, ◌*◌, ◌/◌};

use crate::host::Host;
use crate::saying::was_just_now;
use std::rt::Clock;
use std::time::{Duration, Instant};

/// Work that began, of which something is said once a second, if it is to be.
#[derive(Drop)]
pub struct Progress<'a, T> {
    host: Host<'a, T>,
    /// Whether anything is said of it.
    shows: bool,
    begun_at: Option<Instant>,
    told_at: Option<Instant>,
}

impl<'a, T: Clock> Progress<'a, T> {
    /// Of work that begins now. If the clock cannot tell, nothing is said of it; if nothing is to be said, the clock is not
    /// looked at.
    pub fn begin(host: Host<'a, T>, shows: bool) -> Progress<'a, T> {
        let begun_at = if shows {
            Instant::now(host.rt).ok()
        } else {
            None
        };
        Progress {
            host,
            shows,
            begun_at,
            told_at: begun_at,
        }
    }

    /// Whether something is to be said of it: a second has passed since something was, or since it began. It then counts as
    /// said.
    pub fn is_due(&mut self) -> bool {
        if !self.shows || self.told_at.is_none() || was_just_now(self.host, &self.told_at) {
            return false;
        }
        self.told_at = Instant::now(self.host.rt).ok();
        true
    }

    /// How many are done in a second, if so many were done since it began; 0 if the clock cannot tell.
    pub fn rate(&self, done: u64) -> u64 {
        match &self.begun_at {
            Some(instant) => match instant.elapsed(self.host.rt) {
                Ok(elapsed) => each_second(done, elapsed),
                Err(_) => 0,
            },
            None => 0,
        }
    }
}

/// How many hundredths of all are done, rounded down; 100 if no more is to be done.
pub fn percent_of(done: u64, all: u64) -> u64
    ensures part { done < all → result ≡ done * 100 / all }
    ensures whole { all ≤ done → result ≡ 100 }
{
    if done >= all {
        return 100;
    }
    (u128::from(done) * 100 / u128::from(all)) as u64
}

/// How many are done in a second, if so many took this long; a time below a millisecond counts as one.
fn each_second(done: u64, elapsed: Duration) -> u64 {
    let millis = elapsed.as_millis().max(1);
    u64::try_from(u128::from(done) * 1000 / millis).unwrap_or(u64::MAX)
}
