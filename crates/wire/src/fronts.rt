//! The bytes of a datagram before its entries or counts.

ghost use Rattle.std.specs.Prelude.{◌≡◌, ◌≤◌, ◌+◌, ◌*◌, ◌++◌, length, drop};
ghost use Rattle.wire.specs.Spelling.{datagram_front, frame_head, ask_body, head_head, want_body, piece_head};
ghost use Rattle.wire.specs.Spelling.{frame_kind, head_kind, want_kind, piece_kind};

use crate::head::Head;
use crate::kinds::{FRAME_KIND, HEAD_KIND, PIECE_KIND, WANT_KIND};
use crate::lengths::{ASK_LEN, HEAD_FRONT_LEN, HEAD_WORKER_LEN, WANT_LEN};
use crate::reading::{DATAGRAM_MAGIC, DATAGRAM_VERSION};
use byteorder::{BigEndian, ByteOrder};
use rows::limits::DATAGRAM_MAX;
use update_log::limits::{FRAME_FRONT_LEN, PIECE_FRONT_LEN};

/// The bytes of a Frame before its entries: so many, whose spellings take `len` bytes.
pub fn frame_front(
    worker: u8,
    seq: u64,
    commit: u64,
    last: bool,
    count: usize,
    len: usize,
) -> [u8; FRAME_FRONT_LEN]
    requires many { count ≤ len }
    requires few { FRAME_FRONT_LEN + len ≤ DATAGRAM_MAX }
    ensures { result ≡ datagram_front frame_kind (FRAME_FRONT_LEN + len) ++ frame_head worker seq commit last count }
{
    let mut bytes = [0u8; FRAME_FRONT_LEN];
    start(FRAME_KIND, (FRAME_FRONT_LEN + len) as u16, &mut bytes);
    bytes[6] = worker;
    BigEndian::write_u64(&mut bytes[7..], seq);
    BigEndian::write_u64(&mut bytes[15..], commit);
    bytes[23] = u8::from(last);
    BigEndian::write_u16(&mut bytes[24..], count as u16);
    bytes
}

/// The bytes of an Ask or a Pull, by its kind: a replica and two numbers.
pub fn question_bytes(kind: u8, replica: u8, first: u64, second: u64) -> [u8; ASK_LEN]
    ensures { result ≡ datagram_front kind ASK_LEN ++ ask_body replica first second }
{
    let mut bytes = [0u8; ASK_LEN];
    start(kind, ASK_LEN as u16, &mut bytes);
    bytes[6] = replica;
    BigEndian::write_u64(&mut bytes[7..], first);
    BigEndian::write_u64(&mut bytes[15..], second);
    bytes
}

/// The bytes of a Head before its counts.
pub fn head_front(head: &Head) -> [u8; HEAD_FRONT_LEN]
    ensures { result ≡ datagram_front head_kind (HEAD_FRONT_LEN + HEAD_WORKER_LEN * length head.now.counts) ++ head_head head.now }
{
    let workers = head.counts.as_slice().len();
    let total = HEAD_FRONT_LEN + HEAD_WORKER_LEN * workers;
    let mut bytes = [0u8; HEAD_FRONT_LEN];
    start(HEAD_KIND, total as u16, &mut bytes);
    bytes[6] = head.replica;
    BigEndian::write_u64(&mut bytes[7..], head.boot);
    BigEndian::write_u64(&mut bytes[15..], head.request);
    BigEndian::write_u64(&mut bytes[23..], head.version);
    BigEndian::write_u64(&mut bytes[31..], head.base);
    BigEndian::write_u64(&mut bytes[39..], head.pieces);
    bytes[47] = workers as u8;
    bytes
}

/// The bytes of a Want.
pub fn want_bytes(replica: u8, worker: u8, from: u64) -> [u8; WANT_LEN]
    ensures { result ≡ datagram_front want_kind WANT_LEN ++ want_body replica worker from }
{
    let mut bytes = [0u8; WANT_LEN];
    start(WANT_KIND, WANT_LEN as u16, &mut bytes);
    bytes[6] = replica;
    bytes[7] = worker;
    BigEndian::write_u64(&mut bytes[8..], from);
    bytes
}

/// The bytes of a Piece before its entries: so many, whose spellings take `len` bytes.
pub fn piece_front(
    base: u64,
    number: u64,
    last: bool,
    count: usize,
    len: usize,
) -> [u8; PIECE_FRONT_LEN]
    requires many { count ≤ len }
    requires few { PIECE_FRONT_LEN + len ≤ DATAGRAM_MAX }
    ensures { result ≡ datagram_front piece_kind (PIECE_FRONT_LEN + len) ++ piece_head base number last count }
{
    let mut bytes = [0u8; PIECE_FRONT_LEN];
    start(PIECE_KIND, (PIECE_FRONT_LEN + len) as u16, &mut bytes);
    BigEndian::write_u64(&mut bytes[6..], base);
    BigEndian::write_u64(&mut bytes[14..], number);
    bytes[22] = u8::from(last);
    BigEndian::write_u16(&mut bytes[23..], count as u16);
    bytes
}

/// Writes the six bytes that begin every datagram: the magic, the version, the kind and the total
/// length.
fn start(kind: u8, total: u16, bytes: &mut [u8])
    requires { 6 ≤ length bytes.old }
    ensures { bytes.new ≡ datagram_front kind total ++ drop 6 bytes.old }
{
    BigEndian::write_u16(bytes, DATAGRAM_MAGIC);
    bytes[2] = DATAGRAM_VERSION;
    bytes[3] = kind;
    BigEndian::write_u16(&mut bytes[4..], total);
}
