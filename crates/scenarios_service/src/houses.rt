//! Houses of the loopback whose rounds take longer than a connection may wait.

use crate::driving::is_sent;
use crate::echo::Echo;
use bytes::Bytes;
use http::Request;
use http_server::{Response, Settle};
use service::{House, HouseFault, Limits};
use std::alloc::{AllocError, Global};
use std::hash::RandomState;
use std::io::{self, Write};
use std::net::{Ipv4Addr, Net, SocketAddr, TcpStream};
use std::rt::Clock;
use std::test::Fail;
use std::thread::sleep;
use std::time::Duration;

/// How long a settling takes, and how long a connection may wait for what. A turn counts 250 ms of that at most.
const SETTLING_MILLIS: u64 = 2400;

const LIMIT_MILLIS: u64 = 2000;

/// How many turns there are, at most, until a client is answered, or gone.
const TURNS: u32 = 50;

const REQUEST: &[u8] =
    b"POST / HTTP/1.1\r\nHost: 127.0.0.1\r\nContent-Length: 3\r\nConnection: close\r\n\r\nabc";

const ANSWER: &[u8] = b"HTTP/1.1 200 OK\r\ncontent-length: 3\r\nconnection: close\r\n\r\nabc";

/// An echo that takes long to settle what it answered.
#[derive(Drop)]
struct SlowEcho<'a, R: Clock> {
    rt: &'a R,
    echo: Echo,
}

impl<'a, R: Clock> Settle for SlowEcho<'a, R> {
    ghost answers = { λ _ _ _ _. Unit {0} };

    ghost settles = { λ _ _ _. Unit {0} };

    fn call(
        &mut self,
        request: &Request<Bytes>,
        response: &mut Response,
    ) -> Result<(), AllocError> {
        Settle::call(&mut self.echo, request, response)
    }

    fn settle(&mut self) -> bool {
        if self.echo.settled < self.echo.answered {
            sleep(self.rt, Duration::from_millis(SETTLING_MILLIS));
        }
        self.echo.settle()
    }
}

/// A client that sends its request in three parts, and another that is answered between them for longer than a request may take.
#[test]
fn a_request_is_answered_though_others_are_for_long(rt: HostRuntime) -> Result<(), Fail> {
    let mut house = open(&rt, rt.alloc(), RandomState::new(&rt)?)?;
    let are_answered = are_two_answered(&rt, &mut house)?;
    assert!(rt; are_answered);
    Ok(())
}

/// Whether both of these clients are answered.
fn are_two_answered<R: Net + Clock>(
    rt: &R,
    house: &mut House<SlowEcho<'_, R>>,
) -> Result<bool, Fail> {
    let mut client = TcpStream::connect(rt, house.local_addr()?)?;
    let mut other = TcpStream::connect(rt, house.local_addr()?)?;
    send_in_parts(rt, house, &mut client, &mut other)?;
    Ok(is_sent(&mut client, ANSWER)? && is_sent(&mut other, ANSWER)?)
}

fn send_in_parts<R: Clock, T: Write>(
    rt: &R,
    house: &mut House<SlowEcho<'_, R>>,
    client: &mut T,
    other: &mut T,
) -> Result<(), Fail> {
    let (front, rest) = REQUEST.split_at(REQUEST.len() - 2);
    let (middle, end) = rest.split_at(1);
    client.write_all(front)?;
    house.turn(rt)?;
    other.write_all(REQUEST)?;
    turn_until(rt, house, 1)?;
    client.write_all(middle)?;
    house.turn(rt)?;
    client.write_all(end)?;
    turn_until(rt, house, 2)?;
    Ok(())
}

/// A client that has its last answer and does not close: it is still read while another is answered.
#[test]
fn a_connection_leaves_though_others_are_answered_for_long(rt: HostRuntime) -> Result<(), Fail> {
    let mut house = open(&rt, rt.alloc(), RandomState::new(&rt)?)?;
    let (ended, later) = ended_of_two(&rt, &mut house)?;
    assert_eq!(rt; ended, 0);
    assert_eq!(rt; later, 2);
    Ok(())
}

/// How many of these two connections are ended once both are answered, and how many later.
fn ended_of_two<R: Net + Clock>(
    rt: &R,
    house: &mut House<SlowEcho<'_, R>>,
) -> Result<(u64, u64), Fail> {
    let mut client = TcpStream::connect(rt, house.local_addr()?)?;
    let mut other = TcpStream::connect(rt, house.local_addr()?)?;
    answer_both(rt, house, &mut client, &mut other)?;
    let ended = house.counts().ended;
    turn_until_ended(rt, house)?;
    Ok((ended, house.counts().ended))
}

/// Has the one answered, and then the other.
fn answer_both<R: Clock, T: Write>(
    rt: &R,
    house: &mut House<SlowEcho<'_, R>>,
    client: &mut T,
    other: &mut T,
) -> Result<(), Fail> {
    client.write_all(REQUEST)?;
    turn_until(rt, house, 1)?;
    other.write_all(REQUEST)?;
    turn_until(rt, house, 2)?;
    house.turn(rt)?;
    Ok(())
}

/// Turns until both connections are ended.
fn turn_until_ended<R: Clock>(
    rt: &R,
    house: &mut House<SlowEcho<'_, R>>,
) -> Result<(), HouseFault> {
    for _ in 0..TURNS {
        if house.counts().ended < 2 {
            house.turn(rt)?;
        }
    }
    Ok(())
}

/// A house whose connections may wait for little.
fn open<R: Net + Clock>(
    rt: &R,
    alloc: Global,
    keys: RandomState,
) -> io::Result<House<SlowEcho<'_, R>>> {
    let service = SlowEcho {
        rt,
        echo: Echo::new(),
    };
    let address = SocketAddr::from((Ipv4Addr::LOCALHOST, 0));
    House::open(rt, alloc, keys, address, limits(), service)
}

fn limits() -> Limits {
    let mut limits = Limits::of(2);
    limits.request_millis = LIMIT_MILLIS;
    limits.leaving_millis = LIMIT_MILLIS;
    limits
}

/// Turns until so many requests are answered and settled.
fn turn_until<R: Clock>(
    rt: &R,
    house: &mut House<SlowEcho<'_, R>>,
    settled: u64,
) -> Result<(), HouseFault> {
    for _ in 0..TURNS {
        if house.service().echo.settled < settled {
            house.turn(rt)?;
        }
    }
    Ok(())
}
