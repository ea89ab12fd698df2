//! Input, cut into lines.

ghost use Rattle.std.specs.Prelude.{◌≡◌, ◌+◌, ◌<◌, ◌≤◌, ◌==◌, ◌∷◌, length, take, drop, true, position, MatchOption, OnOk};
ghost use Rattle.std.specs.List.{list_all};
ghost use Rattle.requests.specs.Bytes.{is_inside};

use bytes::{Bytes, BytesMut};
use std::alloc::{AllocError, Global};
use std::io::{self, ErrorKind, Read};

/// Bytes of a line without its end, at most.
pub const LINE_LEN_MAX: usize = 65_536;

/// Lines that one call of a reader of jobs or batches takes, at most.
pub const LINES_MAX: u64 = 1000;

/// Bytes for which room is made at first: room is cleared when it is made, and most bodies of requests are short.
const ROOM_MIN: usize = 256;

/// Bytes for which room is made at most: it grows with what comes.
const ROOM_MAX: usize = 4096;

/// What came of the input.
#[derive(Drop)]
pub enum Input {
    /// A line, without its end.
    Line(Bytes),
    /// There is none yet.
    NotYet,
    /// The input has ended.
    End,
}

/// Why no line could be had.
#[derive(Drop)]
pub enum InputFault {
    /// The reader failed, as it says.
    Read(io::Error),
    /// A line is too long. These are its first `LINE_LEN_MAX` bytes; the others are skipped.
    TooLong(Bytes),
    Memory,
}

/// Input that is cut into lines, each ended by the byte 0a; the last one may lack it.
#[derive(Drop)]
pub struct Lines {
    /// What was read and not handed out.
    rest: BytesMut,
    /// Bytes at its front that have no end of a line among them.
    looked_at: usize,
    /// Whether it begins inside a line that is too long.
    is_cut: bool,
    has_ended: bool,
    /// Bytes for which room is made next.
    room: usize,
    ghost some: { 0 < room },
    ghost most: { room ≤ 4096 },
    ghost within: { looked_at ≤ length rest.items },
    ghost inside: { list_all is_inside (take looked_at rest.items) ≡ true },
}

impl Lines {
    ghost use Rattle.std.specs.Prelude.{ℕ, List, Option, [], false, MatchResult};
    ghost use Rattle.std.specs.Io.KnownBytes.{prepend_known, Consumes};
    ghost use Rattle.requests.specs.Limits.{line_len_max};
    ghost use Rattle.requests.specs.Lines.{IsInput, IsInputFault, IsOfReading, IsEnd, Takes, Skips, Hands, EndsOnlyAtEnd, IsAll};
    ghost use Rattle.requests.specs.Lines.{read_ahead, input_left, is_cut, has_ended};

    /// Input of which nothing was read.
    pub fn new(alloc: Global) -> Lines
        ensures ahead { read_ahead result ≡ [] }
        ensures whole { is_cut result ≡ false }
        ensures open { has_ended result ≡ false }
    {
        Lines {
            rest: BytesMut::new(alloc),
            looked_at: 0,
            is_cut: false,
            has_ended: false,
            room: ROOM_MIN,
        }
    }

    /// The next line. `NotYet` if the reader says that a read would have to wait.
    ///
    /// Fails with `TooLong` if the line is too long; the next call continues with the line after it. Fails
    /// with `Read` if the reader failed, and with `Memory`. Nothing of the input is lost in these two
    /// cases, and the next call tries again.
    pub fn next<R: Read>(&mut self, reader: &mut R) -> Result<Input, InputFault>
        ensures form { MatchResult result IsInput IsInputFault }
        ensures hands { Hands (has_ended self.new) (is_cut self.old) (input_left self.old (R.remaining reader.old)) (is_cut self.new)
            (input_left self.new (R.remaining reader.new)) result }
        ensures ended { EndsOnlyAtEnd (has_ended self.old) (has_ended self.new) (R.remaining reader.new) }
        ensures all { IsAll (has_ended self.new) (read_ahead self.new) result }
    {
        for _ in 0..u64::MAX {
            self.skip_cut();
            if let Some(len) = self.len_of_first() {
                return self.hand_out(len, 1);
            }
            if self.has_ended || self.rest.len() > LINE_LEN_MAX {
                return self.last();
            }
            match self.fill(reader) {
                Ok(true) => {}
                Ok(false) => return Ok(Input::NotYet),
                Err(fault) => return Err(fault),
            }
        }
        Ok(Input::NotYet)
    }

    /// Drops what is left of a line that was too long, as far as it was read.
    fn skip_cut(&mut self)
        ensures skips { (remaining : Option (List ℕ)) → Skips self.old.is_cut (prepend_known self.old.rest.items remaining)
            self.new.is_cut (prepend_known self.new.rest.items remaining) }
        ensures all { self.new.is_cut ≡ true → self.new.rest.items ≡ [] }
        ensures ended { self.new.has_ended ≡ self.old.has_ended }
    {
        if !self.is_cut {
            return;
        }
        if let Some(len) = self.len_of_first() {
            self.skip_to(len);
            return;
        }
        self.rest.clear();
        self.looked_at = 0;
    }

    /// Drops what is left of a line that was too long, with its end.
    fn skip_to(&mut self, len: usize)
        requires { len < length self.old.rest.items }
        ensures rest { self.new.rest.items ≡ drop 1 (drop len self.old.rest.items) }
        ensures cut { self.new.is_cut ≡ false }
        ensures ended { self.new.has_ended ≡ self.old.has_ended }
    {
        self.rest.advance(len);
        self.rest.advance(1);
        self.looked_at = 0;
        self.is_cut = false;
    }

    /// Bytes of the first line, if its end was read.
    fn len_of_first(&mut self) -> Option<usize>
        ensures found { MatchOption result (list_all is_inside self.new.rest.items ≡ true)
            (λ len. (len < length self.new.rest.items) × (list_all is_inside (take len self.new.rest.items) ≡ true)
            × (drop len self.new.rest.items ≡ 10 ∷ drop (len + 1) self.new.rest.items)) }
        ensures rest { self.new.rest.items ≡ self.old.rest.items }
        ensures cut { self.new.is_cut ≡ self.old.is_cut }
        ensures ended { self.new.has_ended ≡ self.old.has_ended }
    {
        let len = end_behind(self.rest.as_slice(), self.looked_at);
        if len.is_none() {
            self.looked_at = self.rest.len();
        }
        len
    }

    /// What has no end of a line: the last line, or a line that is too long.
    fn last(&mut self) -> Result<Input, InputFault>
        requires inside { list_all is_inside self.old.rest.items ≡ true }
        requires cut { self.old.is_cut ≡ true → self.old.rest.items ≡ [] }
        requires ended { length self.old.rest.items ≤ line_len_max → self.old.has_ended ≡ true }
        ensures form { MatchResult result IsInput IsInputFault }
        ensures takes { (remaining : Option (List ℕ)) → Takes self.new.has_ended self.old.is_cut
            (prepend_known self.old.rest.items remaining) self.new.is_cut (prepend_known self.new.rest.items remaining) result }
        ensures ended { self.new.has_ended ≡ self.old.has_ended }
        ensures all { IsAll self.new.has_ended self.new.rest.items result }
    {
        if self.rest.is_empty() {
            return Ok(Input::End);
        }
        let len = self.rest.len();
        self.hand_out(len, 0)
    }

    /// Hands out a line of so many bytes, whose end has so many; or the front of one that is too long.
    fn hand_out(&mut self, len: usize, end_len: usize) -> Result<Input, InputFault>
        requires within { len + end_len ≤ length self.old.rest.items }
        requires inside { list_all is_inside (take len self.old.rest.items) ≡ true }
        requires cut { self.old.is_cut ≡ false }
        requires end { len ≤ line_len_max → IsEnd self.old.has_ended (take end_len (drop len self.old.rest.items)) }
        ensures form { MatchResult result IsInput IsInputFault }
        ensures takes { (remaining : Option (List ℕ)) → Takes self.new.has_ended self.old.is_cut
            (prepend_known self.old.rest.items remaining) self.new.is_cut (prepend_known self.new.rest.items remaining) result }
        ensures ended { self.new.has_ended ≡ self.old.has_ended }
        ensures all { IsAll self.new.has_ended self.new.rest.items result }
    {
        if len > LINE_LEN_MAX {
            return self.cut_first();
        }
        let Ok(line) = self.rest.freeze_to(len) else {
            return Err(InputFault::Memory);
        };
        self.looked_at = 0;
        self.rest.advance(end_len);
        Ok(Input::Line(line))
    }

    /// Hands out the front of a line that is too long.
    fn cut_first(&mut self) -> Result<Input, InputFault>
        requires long { line_len_max < length self.old.rest.items }
        requires cut { self.old.is_cut ≡ false }
        ensures form { MatchResult result IsInput IsInputFault }
        ensures takes { (remaining : Option (List ℕ)) → Takes self.new.has_ended self.old.is_cut
            (prepend_known self.old.rest.items remaining) self.new.is_cut (prepend_known self.new.rest.items remaining) result }
        ensures ended { self.new.has_ended ≡ self.old.has_ended }
        ensures all { IsAll self.new.has_ended self.new.rest.items result }
    {
        let Ok(front) = self.rest.freeze_to(LINE_LEN_MAX) else {
            return Err(InputFault::Memory);
        };
        self.looked_at = 0;
        self.is_cut = true;
        Err(InputFault::TooLong(front))
    }

    /// Reads more, and answers whether anything came, or the end.
    fn fill<R: Read>(&mut self, reader: &mut R) -> Result<bool, InputFault>
        ensures fault { MatchResult result (λ _. Unit {0}) IsOfReading }
        ensures left { Consumes (prepend_known self.old.rest.items (R.remaining reader.old))
            (prepend_known self.new.rest.items (R.remaining reader.new)) [] }
        ensures cut { self.new.is_cut ≡ self.old.is_cut }
        ensures ended { EndsOnlyAtEnd self.old.has_ended self.new.has_ended (R.remaining reader.new) }
    {
        // Room comes first, so that nothing that is read is lost.
        if self.make_room().is_err() {
            return Err(InputFault::Memory);
        }
        match self.rest.read_from(reader) {
            Ok(count) => {
                self.has_ended = count == 0;
                if count > self.room / 2 {
                    self.room = ROOM_MAX.min(self.room * 2);
                }
                Ok(true)
            }
            Err(error) => match error.kind() {
                ErrorKind::WouldBlock | ErrorKind::Interrupted => Ok(false),
                _ => Err(InputFault::Read(error)),
            },
        }
    }

    /// Makes room for a read, where less than a quarter of it is left.
    fn make_room(&mut self) -> Result<(), AllocError>
        ensures room { OnOk result (0 < self.new.rest.spare) }
        ensures rest { self.new.rest.items ≡ self.old.rest.items }
        ensures cut { self.new.is_cut ≡ self.old.is_cut }
        ensures ended { self.new.has_ended ≡ self.old.has_ended }
    {
        if self.rest.capacity() - self.rest.len() > self.room / 4 {
            return Ok(());
        }
        self.rest.reserve(self.room)
    }
}

/// The index of the first end of a line, if there is none among the first `looked_at` bytes.
fn end_behind(bytes: &[u8], looked_at: usize) -> Option<usize>
    requires within { looked_at ≤ length bytes.now }
    requires inside { list_all is_inside (take looked_at bytes.now) ≡ true }
    ensures { MatchOption result (list_all is_inside bytes.now ≡ true)
        (λ end. (end < length bytes.now) × (list_all is_inside (take end bytes.now) ≡ true)
        × (drop end bytes.now ≡ 10 ∷ drop (end + 1) bytes.now)) }
{
    let (_, unseen) = bytes.split_at(looked_at);
    match end_of(unseen) {
        Some(more) => Some(looked_at + more),
        None => None,
    }
}

/// The index of the first end of a line.
fn end_of(bytes: &[u8]) -> Option<usize>
    ensures { result ≡ position (λ byte. byte == 10) bytes.now }
{
    bytes.iter().position(|byte| *byte == b'\n')
}
