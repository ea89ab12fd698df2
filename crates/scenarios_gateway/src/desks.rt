//! What a primary's desk answers, on a line of its own.

ghost use Rattle.std.specs.Prelude.{◌≡◌};

use bytes::{Buf, Bytes};
use gateway::{JobDesk, WorkerCount};
use http::Request;
use http_server::{Response, Rope};
use journal::JournalStore;
use primary::{PrimaryCore, StartFault};
use script::{Setup, read_settings};
use shared::{Line, Origin, Start};
use std::alloc::Global;
use std::marker::Brand;
use std::sync::Wait;
use std::test::Fail;

/// Workers of each primary.
pub const WORKERS: u8 = 2;

/// Two workers, and accounts of two numbers.
const SETTINGS: &str = "workers 2\nreplicas 1\ntable acct int int\n";

/// A request: its method, its target and its body; and the status and the text of its answer.
pub type Exchange = (
    &'static str,
    &'static str,
    &'static [u8],
    u16,
    &'static [u8],
);

/// The requests of a round, and whether they stand at its end.
pub type Round = (&'static [Exchange], bool);

/// The setup of these scenarios.
pub fn setup(alloc: Global) -> Result<Setup, Fail> {
    Ok(read_settings(alloc, SETTINGS.as_bytes())?)
}

/// Whether an answer has this text.
fn is_text(body: &mut Rope, text: &[u8]) -> bool {
    if body.remaining() != text.len() {
        return false;
    }
    for byte in text {
        if !body.has_remaining() || body.get_u8() != *byte {
            return false;
        }
    }
    true
}

/// The status with which a desk answers a request, and whether the answer has the text that is wanted.
pub fn answer_of<L: Origin, J: JournalStore + Drop, R: Wait>(
    alloc: Global,
    desk: &mut JobDesk<'_, L, J, &R, R>,
    exchange: &Exchange,
) -> Option<(u16, bool)> {
    let Some(request) = made(request_of(alloc, exchange)) else {
        return None;
    };
    let answer = answer_to(alloc, desk, &request, exchange.4);
    drop(request);
    Some(answer)
}

/// The request of an exchange.
fn request_of(alloc: Global, exchange: &Exchange) -> Result<Request<Bytes>, http::Error> {
    let (method, target, body, _, _) = *exchange;
    Request::builder(alloc)
        .method(method)
        .uri(target)
        .body(Bytes::from_static(body))
}

/// The same of a request that has been made.
fn answer_to<L: Origin, J: JournalStore + Drop, R: Wait>(
    alloc: Global,
    desk: &mut JobDesk<'_, L, J, &R, R>,
    request: &Request<Bytes>,
    text: &[u8],
) -> (u16, bool) {
    let mut response = Response::new(alloc);
    desk.take(request, &mut response);
    let status = response.status.as_u16();
    let is_so = is_text(&mut response.body, text);
    drop(response);
    (status, is_so)
}

/// What was made, if it was.
pub fn made<T: Drop, E: Drop>(outcome: Result<T, E>) -> Option<T> {
    match outcome {
        Ok(value) => Some(value),
        Err(_) => None,
    }
}

/// The primary that was started, or why none was.
pub fn started<C: Drop, J: Drop, F: Drop>(
    outcome: Result<C, (J, StartFault<F>)>,
) -> Result<C, Fail> {
    match outcome {
        Ok(core) => Ok(core),
        Err((_, StartFault::Memory)) => Err("out of memory".into()),
        Err(_) => Err("not started".into()),
    }
}

/// A desk at the first two seats of a line.
pub fn desk_at<'a, 'b, L: Origin, J: JournalStore + Drop, R: Wait>(
    rt: &'a R,
    alloc: Global,
    line: &'a Line<L, J, &'b R>,
    setup: &'a Setup,
    workers: WorkerCount<L>,
) -> Option<JobDesk<'a, L, J, &'b R, R>> {
    let Some(seat) = line.seat(rt) else {
        return None;
    };
    let Some(looking) = line.seat(rt) else {
        drop(seat);
        return None;
    };
    Some(JobDesk::new(rt, alloc, line, setup, workers, seat, looking))
}

/// Whether a desk answers the requests of a round so, and then settles so.
fn goes_so<L: Origin, J: JournalStore + Drop, R: Wait>(
    alloc: Global,
    desk: &mut JobDesk<'_, L, J, &R, R>,
    round: &Round,
) -> Option<bool> {
    for exchange in round.0 {
        if answer_of(alloc, desk, exchange)? != (exchange.3, true) {
            return Some(false);
        }
    }
    Some(desk.settle_round() == round.1)
}

/// Whether a desk goes so round by round, on a line of this primary.
fn all_go_so<L: Origin, J: JournalStore + Drop, R: Wait>(
    rt: &R,
    alloc: Global,
    core: PrimaryCore<J>,
    start: Start,
    setup: &Setup,
    rounds: &[Round],
) -> Option<bool>
    requires book { start.opened.seen.book ≡ L.book }
    requires schema { core.primary.schema ≡ L.schema }
    requires workers { core.primary.workers ≡ L.workers }
    requires first { core.primary ≡ L.first }
    requires name { start.blank.name ≡ L.name }
    requires parts { start.blank.parts ≡ L.parts }
    requires seats { start.seats ≡ L.seats }
{
    let count = core.workers();
    let Some(line) = made(Line::<L, J, &R>::new(alloc, rt, core, start)) else {
        return None;
    };
    all_go_so_on(rt, alloc, &line, setup, WorkerCount::new(count), rounds)
}

/// The same on this line.
fn all_go_so_on<'a, 'b, L: Origin, J: JournalStore + Drop, R: Wait>(
    rt: &'a R,
    alloc: Global,
    line: &'a Line<L, J, &'b R>,
    setup: &'a Setup,
    workers: WorkerCount<L>,
    rounds: &[Round],
) -> Option<bool> {
    let Some(mut desk) = desk_at(rt, alloc, line, setup, workers) else {
        return None;
    };
    let are_so = rounds_go_so(alloc, &mut desk, rounds);
    drop(desk);
    are_so
}

/// The same at this desk.
pub fn rounds_go_so<L: Origin, J: JournalStore + Drop, R: Wait>(
    alloc: Global,
    desk: &mut JobDesk<'_, L, J, &R, R>,
    rounds: &[Round],
) -> Option<bool> {
    for round in rounds {
        if !goes_so(alloc, desk, round)? {
            return Some(false);
        }
    }
    Some(true)
}

/// The same on a line of its own, whose primary is this one.
pub fn go_so_after<J: JournalStore + Drop, R: Wait>(
    rt: &R,
    alloc: Global,
    core: PrimaryCore<J>,
    setup: &Setup,
    rounds: &[Round],
) -> Result<bool, Fail> {
    let Some(start) = made(Start::new(2)) else {
        drop(core);
        return Err("start".into());
    };
    match all_go_so::<Brand, J, R>(rt, alloc, core, start, setup, rounds) {
        Some(are_so) => Ok(are_so),
        None => Err("no desk".into()),
    }
}
