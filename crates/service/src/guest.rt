//! A connection whose answers wait for the end of the round.

ghost use Rattle.std.specs.Prelude.{◌≡◌, Some, length, nat_lt, unwrap_or};
ghost use Rattle.http_server.specs.Connection.{history};
ghost use Rattle.http_server.specs.Exchange.{Calls};
ghost use Rattle.service.specs.Denials.{WithDenials};
ghost use Rattle.service.specs.Waits.{is_late, has_passed, since_answered, IsTold};

use crate::held::Held;
use crate::limits::Limits;
use crate::socket::Socket;
use http_server::{Config, Connection, Reason, Settle, State};
use std::alloc::Global;
use std::hash::RandomState;
use std::io::{self, ErrorKind, Read, Write};

/// How often a connection is read in a round, at most.
const READS_MAX: u32 = 4;

/// How often a connection is written to in a round, at most.
const WRITES_MAX: u32 = 64;

/// How many bytes are read of a client after the last answer, at most.
const LEAVING_BYTES: usize = 65_536;

/// What came of reading a connection.
#[derive(Clone, Copy, PartialEq, Eq)]
pub(crate) enum Heard {
    /// All that had come was read.
    All,
    /// More may have come.
    More,
    /// The socket failed.
    Failed,
}

/// What came of writing to a connection.
#[derive(Clone, Copy, PartialEq, Eq)]
pub(crate) enum Told {
    /// All that waited was sent.
    All,
    /// The socket takes no more now.
    Blocked,
    /// It may take more.
    More,
    /// The socket failed.
    Failed,
}

/// A connection that has been answered for the last time: its writing has ended, and what its
/// client still sends is read and dropped, since a socket that is closed with unread bytes is reset
/// and may lose the answer.
#[derive(Clone, Copy, PartialEq, Eq)]
pub(crate) struct Leaving {
    /// When its last answer was sent; `None` until that time is noted.
    pub(crate) since: Option<u64>,
    /// How many bytes are still read, at most.
    pub(crate) left: usize,
}

/// A connection, and how long it waits for what. Times are milliseconds since any one moment.
///
/// Answering may take longer than a connection may wait. So what begins once requests are answered has no time until
/// `note_time` gives it one.
#[derive(Drop)]
pub struct Guest {
    pub(crate) connection: Connection,
    /// When it came, an answer began to wait, or its socket last took bytes of one: whichever was last. `None` until
    /// that time is noted.
    pub(crate) since: Option<u64>,
    /// When the first byte of a request came that is not whole yet.
    pub(crate) begun: Option<u64>,
    /// How many bytes came since its last whole request, and how many these were at most.
    pub(crate) unanswered: usize,
    pub(crate) most: usize,
    pub(crate) leaving: Option<Leaving>,
    /// Whether its socket may have something to read, or take something.
    pub(crate) is_ready: bool,
    /// Whether its client sends no more than what has come: it is read to its end.
    is_ending: bool,
    /// Bytes for which a read has room, at least.
    room: usize,
    /// Whether it was heard in this round.
    pub(crate) is_heard: bool,
    /// Whether it is done, or its socket has failed.
    pub(crate) is_gone: bool,
}

impl Guest {
    /// A connection of which nothing was read. Takes no memory.
    pub fn new(alloc: Global, keys: RandomState, config: Config, now: u64) -> Guest {
        Guest {
            connection: Connection::new(alloc, keys, config),
            since: Some(now),
            begun: None,
            unanswered: 0,
            most: 0,
            leaving: None,
            is_ready: true,
            is_ending: false,
            room: config.read_size,
            is_heard: false,
            is_gone: false,
        }
    }

    /// Notes that its socket may have something to read, or take something.
    pub(crate) fn note_ready(&mut self)
        ensures { (history self.new.connection) ≡ (history self.old.connection) }
    {
        self.is_ready = true;
    }

    /// Notes that its client sends no more than what has come.
    pub(crate) fn note_ending(&mut self)
        ensures { (history self.new.connection) ≡ (history self.old.connection) }
    {
        self.is_ready = true;
        self.is_ending = true;
    }

    /// Has what came before answered, then reads what has come and has it answered, unless it may
    /// not be read now. Nothing is sent.
    pub(crate) fn hear<S: Settle + Drop, R: Read>(
        &mut self,
        reader: &mut R,
        service: &mut Held<S>,
        now: u64,
        may_read: bool,
    ) -> Heard
        ensures unsent { (history self.new.connection).sent ≡ (history self.old.connection).sent }
        ensures calls { Calls (WithDenials S.answers) service.old.inner service.new.inner
            (history self.old.connection).calls (history self.new.connection).calls }
    {
        self.advance(service, now, 0);
        if !may_read {
            return Heard::More;
        }
        for _ in 0..READS_MAX {
            if let Some(heard) = self.hear_once(reader, service, now) {
                return heard;
            }
        }
        Heard::More
    }

    /// Reads once, and has it answered; what came of it, unless more may have come.
    pub(crate) fn hear_once<S: Settle + Drop, R: Read>(
        &mut self,
        reader: &mut R,
        service: &mut Held<S>,
        now: u64,
    ) -> Option<Heard>
        ensures unsent { (history self.new.connection).sent ≡ (history self.old.connection).sent }
        ensures calls { Calls (WithDenials S.answers) service.old.inner service.new.inner
            (history self.old.connection).calls (history self.new.connection).calls }
    {
        if !self.connection.wants_read() {
            return Some(Heard::More);
        }
        let count = match self.connection.read_from(reader) {
            Ok(count) => count,
            Err(error) => return Some(heard_of(&error)),
        };
        self.advance(service, now, count);
        if self.has_taken_all(count) {
            Some(Heard::All)
        } else {
            None
        }
    }

    /// Whether a read that gave so many bytes took all that had come: there was room for more. At the
    /// end of the input one more read is to find it.
    fn has_taken_all(&self, count: usize) -> bool {
        count > 0 && count < self.room && !self.is_ending && self.connection.wants_read()
    }

    /// Has the whole requests answered that have come, now that so many bytes more came.
    pub(crate) fn advance<S: Settle + Drop>(&mut self, service: &mut Held<S>, now: u64, came: usize)
        ensures unsent { (history self.new.connection).sent ≡ (history self.old.connection).sent }
        ensures calls { Calls (WithDenials S.answers) service.old.inner service.new.inner
            (history self.old.connection).calls (history self.new.connection).calls }
        ensures since { self.new.since ≡ since_answered (nat_lt 0 (length (history self.old.connection).pending))
            (history self.new.connection).pending self.old.since }
    {
        let calls = service.calls;
        let waited = self.connection.wants_write();
        self.note_read(came, now);
        self.connection.advance(service);
        self.note_answered(service.calls.saturating_sub(calls), waited);
    }

    /// Notes that so many bytes came.
    fn note_read(&mut self, came: usize, now: u64)
        ensures connection { (history self.new.connection) ≡ (history self.old.connection) }
        ensures since { self.new.since ≡ self.old.since }
    {
        if came > 0 {
            self.begun = Some(self.begun.unwrap_or(now));
            self.unanswered = self.unanswered.saturating_add(came);
            self.most = self.most.max(self.unanswered);
        }
    }

    /// Notes how many requests were answered, and whether answers waited before.
    fn note_answered(&mut self, answered: u64, waited: bool)
        ensures connection { (history self.new.connection) ≡ (history self.old.connection) }
        ensures since { self.new.since ≡ since_answered waited (history self.new.connection).pending self.old.since }
    {
        if !waited && self.connection.wants_write() {
            self.since = None;
        }
        if answered > 0 {
            self.begun = None;
            self.unanswered = 0;
        }
    }

    /// Notes the time of what was answered or sent since a time was last noted.
    pub(crate) fn note_time(&mut self, now: u64)
        ensures connection { self.new.connection ≡ self.old.connection }
        ensures since { self.new.since ≡ Some (unwrap_or self.old.since now) }
        ensures begun { self.new.begun ≡ self.old.begun }
    {
        self.since = Some(self.since.unwrap_or(now));
        if let Some(leaving) = &mut self.leaving {
            leaving.since = Some(leaving.since.unwrap_or(now));
        }
    }

    /// Sends what waits, as far as it is taken.
    pub(crate) fn tell<W: Write>(&mut self, writer: &mut W, now: u64) -> Told
        ensures calls { (history self.new.connection).calls ≡ (history self.old.connection).calls }
        ensures since { IsTold self.old self.new }
    {
        let could_read = self.connection.wants_read();
        let told = self.write(writer);
        // The time of a request does not run while its connection is not read.
        if !could_read && self.begun.is_some() {
            self.begun = Some(now);
        }
        told
    }

    fn write<W: Write>(&mut self, writer: &mut W) -> Told
        ensures calls { (history self.new.connection).calls ≡ (history self.old.connection).calls }
        ensures since { IsTold self.old self.new }
    {
        for _ in 0..WRITES_MAX {
            if !self.connection.wants_write() {
                return Told::All;
            }
            match self.connection.write_to(writer) {
                Ok(count) => {
                    self.since = None;
                    if count == 0 {
                        return Told::Failed;
                    }
                }
                Err(error) => return told_of(&error),
            }
        }
        Told::More
    }

    /// Ends the writing, once all was sent, unless nothing more can come of this client.
    pub(crate) fn leave<T: Socket>(&mut self, socket: &mut T)
        ensures { (history self.new.connection) ≡ (history self.old.connection) }
    {
        let is_answered = match self.connection.state() {
            State::Closing(reason) => !matches!(reason, Reason::EndOfInput),
            _ => false,
        };
        if !is_answered || socket.end_writing().is_err() {
            self.is_gone = true;
            return;
        }
        self.leaving = Some(Leaving {
            since: None,
            left: LEAVING_BYTES,
        });
        self.is_ready = true;
    }

    /// Ends the writing, if the last answer was sent.
    pub(crate) fn leave_if_done<T: Socket>(&mut self, socket: &mut T)
        ensures { (history self.new.connection) ≡ (history self.old.connection) }
    {
        if self.connection.is_done() {
            self.leave(socket);
        }
    }

    /// Notes what came of reading it.
    pub(crate) fn note_heard(&mut self, heard: Heard)
        ensures { (history self.new.connection) ≡ (history self.old.connection) }
    {
        match heard {
            Heard::All => self.is_ready = false,
            Heard::More => {}
            Heard::Failed => self.is_gone = true,
        }
    }

    /// Reads and drops what a client still sends.
    pub(crate) fn drain<R: Read>(&mut self, reader: &mut R)
        ensures { (history self.new.connection) ≡ (history self.old.connection) }
    {
        let mut buffer = [0u8; 4096];
        for _ in 0..READS_MAX {
            let count = match reader.read(&mut buffer) {
                Ok(count) => count,
                Err(error) => {
                    let heard = heard_of(&error);
                    self.is_ready = matches!(heard, Heard::More);
                    self.is_gone = matches!(heard, Heard::Failed);
                    return;
                }
            };
            if count == 0 || !self.may_drain(count) {
                self.is_gone = true;
                return;
            }
        }
    }

    /// Takes so many bytes from those that are still read. Whether some are left.
    fn may_drain(&mut self, count: usize) -> bool
        ensures { (history self.new.connection) ≡ (history self.old.connection) }
    {
        let Some(leaving) = &mut self.leaving else {
            return false;
        };
        leaving.left = leaving.left.saturating_sub(count);
        leaving.left > 0
    }

    /// Whether the connection has waited for longer than it may.
    pub(crate) fn is_late(&self, limits: &Limits, now: u64) -> bool
        ensures { result ≡ is_late limits.now now self.now }
    {
        if let Some(leaving) = &self.leaving {
            return has_passed(limits.leaving_millis, leaving.since, now);
        }
        if self.connection.wants_write() {
            return has_passed(limits.answer_millis, self.since, now);
        }
        match self.begun {
            Some(begun) => has_passed(limits.request_millis, Some(begun), now),
            None => has_passed(limits.idle_millis, self.since, now),
        }
    }
}

/// Whether more than so much time has passed. It has not if no time is noted yet.
fn has_passed(limit: u64, since: Option<u64>, now: u64) -> bool
    ensures { result ≡ has_passed limit since now }
{
    match since {
        Some(since) => now.saturating_sub(since) > limit,
        None => false,
    }
}

/// What an error of a read says.
fn heard_of(error: &io::Error) -> Heard {
    match error.kind() {
        ErrorKind::WouldBlock => Heard::All,
        ErrorKind::Interrupted => Heard::More,
        _ => Heard::Failed,
    }
}

/// What an error of a write says.
fn told_of(error: &io::Error) -> Told {
    match error.kind() {
        ErrorKind::WouldBlock => Told::Blocked,
        ErrorKind::Interrupted => Told::More,
        _ => Told::Failed,
    }
}
