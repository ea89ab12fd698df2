//! Rounds that do not settle.

use crate::driving::{Sent, sent_of};
use crate::echo::Echo;
use crate::memory_socket::{Habits, MemorySocket, PLAIN, Trouble};
use service::{Arrivals, Guest, Limits, NoArrivals, Rounds, Unsettled, note_ready};
use std::alloc::Global;
use std::hash::RandomState;
use std::test::Fail;

const REQUEST: &[u8] = b"POST /a HTTP/1.1\r\nHost: localhost\r\nContent-Length: 2\r\n\r\nhi";

const ANSWER: &[u8] = b"HTTP/1.1 200 OK\r\ncontent-length: 2\r\n\r\nhi";

/// What is seen after a round.
#[derive(Clone, Copy)]
struct Seen {
    heard: Result<bool, Unsettled>,
    /// How many requests were answered, how many of these had been at the last settling, and how many rounds settled.
    answered: u64,
    settled: u64,
    rounds: u64,
    /// What the two clients were sent, beside the answer to their request.
    first: Sent,
    second: Sent,
}

#[test]
fn two_connections_share_a_settling(rt: HostRuntime) -> Result<(), Fail> {
    let keys = RandomState::new(&rt)?;
    let seen = seen_after(rt.alloc(), keys, u64::MAX, 1)?;
    assert_eq!(rt; seen.heard, Ok(true));
    assert_eq!(rt; seen.settled, 2);
    assert_eq!(rt; seen.rounds, 1);
    assert!(rt; seen.first == Sent::All && seen.second == Sent::All);
    // No event has come since, so there is no second round.
    let seen = seen_after(rt.alloc(), keys, u64::MAX, 2)?;
    assert_eq!(rt; seen.heard, Ok(false));
    assert_eq!(rt; seen.rounds, 1);
    Ok(())
}

#[test]
fn nothing_is_sent_of_a_round_that_does_not_stand(rt: HostRuntime) -> Result<(), Fail> {
    let keys = RandomState::new(&rt)?;
    let seen = seen_after(rt.alloc(), keys, 0, 1)?;
    assert_eq!(rt; seen.heard, Err(Unsettled));
    assert_eq!(rt; seen.answered, 2);
    assert!(rt; seen.first == Sent::Nothing && seen.second == Sent::Nothing);
    Ok(())
}

/// What is seen of two clients that send a request each, after so many rounds at a service of which so many settlings succeed.
fn seen_after(
    alloc: Global,
    keys: RandomState,
    settlings_left: u64,
    count: u64,
) -> Result<Seen, Fail> {
    let service = Echo {
        answered: 0,
        settled: 0,
        settlings_left,
    };
    let mut rounds = Rounds::new(alloc, keys, Limits::of(2), service);
    seat(alloc, &mut rounds, 0, PLAIN)?;
    seat(alloc, &mut rounds, 1, PLAIN)?;
    for _ in 1..count {
        let _ = rounds.round(0, &mut NoArrivals);
    }
    Ok(seen_in(&mut rounds, &mut NoArrivals))
}

/// Plays a round, and looks.
fn seen_in<A: Arrivals>(
    rounds: &mut Rounds<Echo, MemorySocket<'static>>,
    arrivals: &mut A,
) -> Seen {
    let heard = rounds.round(0, arrivals);
    Seen {
        heard,
        answered: rounds.service().answered,
        settled: rounds.service().settled,
        rounds: rounds.counts().rounds,
        first: sent_at(rounds, 0),
        second: sent_at(rounds, 1),
    }
}

/// Tells of the second connection at the first look.
#[derive(Drop)]
struct SecondLater {
    looks: u64,
}

impl Arrivals for SecondLater {
    fn look(&mut self) {
        self.looks = self.looks.saturating_add(1);
    }

    fn note(&self, guests: &mut [Option<Guest>]) {
        if self.looks == 1 {
            note_ready(guests, 1);
        }
    }
}

#[test]
fn a_request_that_comes_while_others_are_heard_shares_their_settling(
    rt: HostRuntime,
) -> Result<(), Fail> {
    let keys = RandomState::new(&rt)?;
    let (before, seen) = seen_of_later(rt.alloc(), keys)?;
    assert!(rt; before.first == Sent::All && before.second == Sent::Nothing);
    assert_eq!(rt; seen.heard, Ok(true));
    assert!(rt; seen.first == Sent::All && seen.second == Sent::All);
    assert_eq!(rt; seen.rounds, 2);
    Ok(())
}

/// Two rounds, the second with a new first client. Its other client has sent nothing yet when it is read for the first time.
fn seen_of_later(alloc: Global, keys: RandomState) -> Result<(Seen, Seen), Fail> {
    let later = Habits {
        trouble: Trouble::Waits,
        ..PLAIN
    };
    let mut rounds = Rounds::new(alloc, keys, Limits::of(2), Echo::new());
    seat(alloc, &mut rounds, 0, PLAIN)?;
    seat(alloc, &mut rounds, 1, later)?;
    let before = seen_in(&mut rounds, &mut NoArrivals);
    seat(alloc, &mut rounds, 0, PLAIN)?;
    let seen = seen_in(&mut rounds, &mut SecondLater { looks: 0 });
    Ok((before, seen))
}

/// Seats a client that sends a request, in place of one that is there.
fn seat(
    alloc: Global,
    rounds: &mut Rounds<Echo, MemorySocket<'static>>,
    place: usize,
    habits: Habits,
) -> Result<(), Fail> {
    let _ = rounds.free_place()?;
    rounds.seat(place, MemorySocket::new(alloc, REQUEST, habits), 0);
    Ok(())
}

/// What the client at a place was sent, beside the answer to its request.
fn sent_at(rounds: &Rounds<Echo, MemorySocket<'static>>, place: usize) -> Sent {
    match rounds.socket(place) {
        Some(socket) => sent_of(socket.sent(), ANSWER),
        None => Sent::Other,
    }
}
