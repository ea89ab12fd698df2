//! A spelled datagram on its way.

ghost use Rattle.std.specs.Prelude.{◌≡◌, ◌≤◌, length, Ok};
ghost use Rattle.wire.specs.Reading.{reading};
ghost use Rattle.wire.specs.Spelling.{spelling, HasDatagramSpelling, datagram_of_frame, frame_spelling, FrameHasSpelling, IsPiece};

use crate::datagram::Datagram;
use crate::faults::TooSmall;
use crate::writing::{write, write_frame, write_piece};
use rows::limits::DATAGRAM_MAX;
use rows::{Entry, laws};
use std::marker::Model;
use update_log::FrameRef;

/// The bytes of a datagram, at most 1200, kept inline.
#[derive(Drop)]
pub struct Packet {
    buffer: [u8; DATAGRAM_MAX],
    len: usize,
}

impl Model for Packet {
    ghost use Rattle.std.specs.Prelude.{List, ℕ, ◌≤◌, take};
    ghost use Rattle.rows.specs.Limits.{datagram_max};

    ghost Value = { List ℕ };

    ghost view = { λ p. take p.len p.buffer };

    ghost invariant = { λ p. p.len ≤ datagram_max };
}

impl Packet {
    /// The spelling of a datagram. Takes no memory.
    pub fn of(datagram: &Datagram<'_>) -> Packet
        requires { HasDatagramSpelling datagram.now }
        ensures spelled { result ≡ spelling datagram.now }
        ensures reads_back { reading result ≡ Ok datagram.now }
    {
        laws::entries_are_read_as_spelled();
        let mut buffer = [0u8; DATAGRAM_MAX];
        match write(datagram, &mut buffer) {
            Ok(len) => Packet { buffer, len },
            Err(TooSmall) => unreachable!(),
        }
    }

    /// The spelling of a frame. Takes no memory.
    pub fn of_frame(frame: &FrameRef<'_>) -> Packet
        requires { FrameHasSpelling frame.now }
        ensures spelled { result ≡ frame_spelling frame.now }
        ensures reads_back { reading result ≡ Ok (datagram_of_frame frame.now) }
    {
        laws::entries_are_read_as_spelled();
        let mut buffer = [0u8; DATAGRAM_MAX];
        match write_frame(frame, &mut buffer) {
            Ok(len) => Packet { buffer, len },
            Err(TooSmall) => unreachable!(),
        }
    }

    /// The spelling of a Piece. Takes no memory.
    pub fn of_piece(base: u64, number: u64, last: bool, entries: &[Entry]) -> Packet
        requires { IsPiece base number last entries.now }
        ensures spelled { result ≡ spelling (Datagram.Piece base number last entries.now) }
        ensures reads_back { reading result ≡ Ok (Datagram.Piece base number last entries.now) }
    {
        laws::entries_are_read_as_spelled();
        let mut buffer = [0u8; DATAGRAM_MAX];
        match write_piece(base, number, last, entries, &mut buffer) {
            Ok(len) => Packet { buffer, len },
            Err(TooSmall) => unreachable!(),
        }
    }

    /// A copy. Takes no memory.
    pub fn copy(&self) -> Packet
        ensures { result ≡ self.now }
    {
        Packet {
            buffer: self.buffer,
            len: self.len,
        }
    }

    /// The bytes, lent. Takes no memory.
    pub fn bytes(&self) -> &[u8]
        ensures bytes { result.now ≡ self.now }
        ensures few { length result.now ≤ DATAGRAM_MAX }
    {
        &self.buffer[..self.len]
    }
}
