//! Connections of the loopback that a door hands to threads.

use crate::driving::is_sent;
use crate::echo::Echo;
use service::{Door, FULL, Hall, Limits, Visits};
use std::alloc::Global;
use std::hash::RandomState;
use std::io::{self, Read, Write};
use std::net::{Ipv4Addr, Net, SocketAddr, TcpStream};
use std::rt::Clock;
use std::sync::Wait;
use std::sync::atomic::AtomicBool;
use std::test::Fail;
use std::thread::join;

const REQUEST: &[u8] =
    b"POST / HTTP/1.1\r\nHost: 127.0.0.1\r\nContent-Length: 3\r\nConnection: close\r\n\r\nabc";

const ANSWER: &[u8] = b"HTTP/1.1 200 OK\r\ncontent-length: 3\r\nconnection: close\r\n\r\nabc";

/// What is done at a hall, and what comes of it.
#[derive(Clone, Copy)]
enum Step {
    /// Is put in.
    Put(u32),
    /// Is put in and given back.
    Refused(u32),
    /// Is what is next; `None` if no more come.
    Next(Option<u32>),
    Leave,
    End,
}

/// A hall with one thread, from which one has been taken.
const OF_ONE: &[Step] = &[
    Step::Refused(2),
    Step::Leave,
    Step::Put(3),
    Step::End,
    Step::Next(None),
    Step::Refused(4),
];

/// A hall with three threads.
const OF_THREE: &[Step] = &[
    Step::Put(0),
    Step::Put(1),
    Step::Put(2),
    Step::Refused(3),
    Step::Next(Some(0)),
    Step::Refused(4),
    Step::Next(Some(1)),
    Step::Refused(4),
    Step::Next(Some(2)),
    Step::Refused(4),
    Step::Leave,
    Step::Put(5),
    Step::Refused(6),
    Step::Next(Some(5)),
];

#[test]
fn a_connection_is_handed_to_a_thread_that_is_free(rt: HostRuntime) -> Result<(), Fail> {
    let hall: Hall<u32> = Hall::new(rt.alloc(), 1);
    let (put, taken) = join(&rt, || hall.put(&rt, 1), || hall.next(&rt));
    assert_eq!(rt; put, Ok(()));
    assert_eq!(rt; taken, Some(1));
    assert_eq!(rt; first_other(&rt, &hall, OF_ONE), None);
    Ok(())
}

/// A thread is free before it waits, and as often as it has served: so many are taken as there are threads, and no more.
#[test]
fn as_many_are_taken_as_there_are_threads(rt: HostRuntime) -> Result<(), Fail> {
    let hall: Hall<u32> = Hall::new(rt.alloc(), 3);
    assert_eq!(rt; first_other(&rt, &hall, OF_THREE), None);
    Ok(())
}

/// The index of the first step of which something else comes.
fn first_other<R: Wait>(rt: &R, hall: &Hall<u32>, steps: &[Step]) -> Option<usize> {
    let mut index: usize = 0;
    for step in steps {
        if !comes_so(rt, hall, *step) {
            return Some(index);
        }
        index = index.saturating_add(1);
    }
    None
}

/// Takes a step. Whether that comes of it.
fn comes_so<R: Wait>(rt: &R, hall: &Hall<u32>, step: Step) -> bool {
    match step {
        Step::Put(number) => hall.put(rt, number) == Ok(()),
        Step::Refused(number) => hall.put(rt, number) == Err(number),
        Step::Next(number) => hall.next(rt) == number,
        Step::Leave => {
            hall.leave(rt);
            true
        }
        Step::End => {
            hall.end(rt);
            true
        }
    }
}

#[test]
fn a_door_refuses_while_no_thread_is_free_and_else_hands_on(rt: HostRuntime) -> Result<(), Fail> {
    let keys = RandomState::new(&rt)?;
    let mut door = Door::open(&rt, rt.alloc(), SocketAddr::from((Ipv4Addr::LOCALHOST, 0)))?;
    let is_refused = is_refused(&rt, rt.alloc(), &mut door)?;
    assert!(rt; is_refused);
    assert_eq!(rt; door.refused(), 1);
    let hall = Hall::new(rt.alloc(), 1);
    let over = AtomicBool::new(false);
    let (is_answered, answered) = join(
        &rt,
        || is_answered_last(&rt, &mut door, &hall, ANSWER),
        || serve_next(&rt, rt.alloc(), keys, &hall, &over),
    );
    let is_answered = is_answered?;
    assert!(rt; is_answered);
    assert_eq!(rt; answered, 1);
    Ok(())
}

/// Whether a client of a door is refused while no thread is free.
fn is_refused<R: Net + Wait>(rt: &R, alloc: Global, door: &mut Door) -> io::Result<bool> {
    let nobody = Hall::new(alloc, 0);
    is_answered(rt, door, &nobody, FULL)
}

/// Whether a client that connects to a door and sends its request is sent just this answer.
fn is_answered<R: Net + Wait>(
    rt: &R,
    door: &mut Door,
    hall: &Hall<TcpStream>,
    answer: &[u8],
) -> io::Result<bool> {
    let mut client = TcpStream::connect(rt, door.local_addr()?)?;
    is_client_answered(rt, door, hall, &mut client, answer)
}

/// The same of a client that has connected.
fn is_client_answered<R: Net + Wait, T: Read + Write>(
    rt: &R,
    door: &mut Door,
    hall: &Hall<TcpStream>,
    client: &mut T,
    answer: &[u8],
) -> io::Result<bool> {
    client.write_all(REQUEST)?;
    door.turn(rt, hall)?;
    is_sent(client, answer)
}

/// The same, and then no more come.
fn is_answered_last<R: Net + Wait>(
    rt: &R,
    door: &mut Door,
    hall: &Hall<TcpStream>,
    answer: &[u8],
) -> io::Result<bool> {
    let is_answered = is_answered(rt, door, hall, answer);
    hall.end(rt);
    is_answered
}

/// Serves the next connection to its end. How many requests were answered.
fn serve_next<R: Wait + Clock>(
    rt: &R,
    alloc: Global,
    keys: RandomState,
    hall: &Hall<TcpStream>,
    over: &AtomicBool,
) -> u64 {
    let mut visits = Visits::new(alloc, keys, Limits::of(1), Echo::new());
    if let Some(mut stream) = hall.next(rt) {
        visits.serve(rt, &mut stream, over);
    }
    visits.service().answered
}
