//! Connections that are driven to their end.

use crate::echo::Echo;
use crate::memory_socket::{Habits, MemorySocket};
use service::{Limits, NoArrivals, Rounds};
use std::alloc::Global;
use std::hash::RandomState;
use std::io::{self, Read};
use std::test::Fail;

/// How many rounds a connection is given.
const ROUNDS: u64 = 300;

/// How often a client reads, at most.
const READS: u64 = 1000;

/// What was sent, beside the answers that are expected.
#[derive(Clone, Copy, PartialEq, Eq, Debug)]
pub enum Sent {
    /// Just these.
    All,
    /// Nothing, where some are expected.
    Nothing,
    /// A first part of them.
    Part,
    /// Something else.
    Other,
}

/// What a connection came to. It owns nothing, so that what asserts of it has nothing to drop.
#[derive(Clone, Copy, PartialEq, Eq, Debug)]
pub struct Outcome {
    pub sent: Sent,
    /// How many requests the service answered.
    pub answered: u64,
    /// Whether the writing was ended, and whether the connection was.
    pub has_ended: bool,
    pub is_gone: bool,
}

/// What was sent, beside these answers.
pub fn sent_of(sent: &[u8], answers: &[u8]) -> Sent {
    if sent == answers {
        return Sent::All;
    }
    if sent.is_empty() {
        return Sent::Nothing;
    }
    if answers.starts_with(sent) {
        return Sent::Part;
    }
    Sent::Other
}

/// Plays so many rounds, all at one time, each after an event of the only connection.
pub fn play(rounds: &mut Rounds<Echo, MemorySocket<'_>>, count: u64, now: u64) {
    for _ in 0..count {
        rounds.note_ready(0);
        let _ = rounds.round(now, &mut NoArrivals);
    }
}

/// The requests of one client, played to their end, and the answers that are expected.
pub fn outcome_of(
    alloc: Global,
    keys: RandomState,
    input: &[u8],
    habits: Habits,
    answers: &[u8],
) -> Result<Outcome, Fail> {
    let mut rounds = Rounds::new(alloc, keys, Limits::of(1), Echo::new());
    let _ = rounds.free_place()?;
    rounds.seat(0, MemorySocket::new(alloc, input, habits), 0);
    play(&mut rounds, ROUNDS, 0);
    Ok(ended(&mut rounds, answers))
}

/// What the only connection came to.
fn ended(rounds: &mut Rounds<Echo, MemorySocket<'_>>, answers: &[u8]) -> Outcome {
    let (sent, has_ended) = match rounds.socket(0) {
        Some(socket) => (sent_of(socket.sent(), answers), socket.has_ended),
        None => (Sent::Nothing, false),
    };
    rounds.clear(0);
    Outcome {
        sent,
        answered: rounds.service().answered,
        has_ended,
        is_gone: rounds.connections() == 0,
    }
}

/// Whether a client is sent just these answers until its connection ends. What it reads is compared as it comes, and not kept.
pub fn is_sent<T: Read>(stream: &mut T, answers: &[u8]) -> io::Result<bool> {
    let mut sent: usize = 0;
    let mut buffer = [0u8; 256];
    for _ in 0..READS {
        let count = stream.read(&mut buffer)?;
        if count == 0 {
            return Ok(sent == answers.len());
        }
        if !goes_on_with(answers, sent, &buffer[..count]) {
            return Ok(false);
        }
        sent = sent.saturating_add(count);
    }
    Ok(false)
}

/// Whether a text goes on with a part, behind so many bytes.
fn goes_on_with(text: &[u8], from: usize, part: &[u8]) -> bool {
    from <= text.len() && text[from..].starts_with(part)
}
