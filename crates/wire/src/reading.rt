//! Reading a datagram from bytes, with the first fault.

ghost use Rattle.std.specs.Prelude.{◌≡◌, ◌≤◌, ◌*◌, ◌==◌, length, drop, Ok, IfOk};
ghost use Rattle.std.specs.List.{list_all};
ghost use Rattle.wire.specs.declared.datagram.Datagram.{Datagram};
ghost use Rattle.wire.specs.Reading.{reading, body_at, frame_at, ask_at, head_at, want_at, piece_at, pull_at};
ghost use Rattle.wire.specs.Reading.{is_unknown, has_base, counts_at, may_count};
ghost use Rattle.wire.specs.Spelling.{HasDatagramSpelling, spelling};

use crate::counts::Counts;
use crate::datagram::Datagram;
use crate::faults::WireFault;
use crate::head::Head;
use crate::kinds::{ASK_KIND, FRAME_KIND, HEAD_KIND, PIECE_KIND, PULL_KIND, WANT_KIND};
use crate::lent_entries::LentEntries;
use byteorder::{BigEndian, ByteOrder};
use rows::laws;
use rows::limits::{DATAGRAM_MAX, REPLICAS_MAX, WORKERS_MAX};

/// The first bytes of every datagram.
pub const DATAGRAM_MAGIC: u16 = 0x4244;

/// The version of the format.
pub const DATAGRAM_VERSION: u8 = 3;

/// The datagram that the bytes spell, with parts lent by them. Otherwise the first of these faults:
/// `Short`, there are fewer than 6 bytes; `Magic`, the first bytes are not 42 44; `Version`, the
/// third byte is not 03; `Kind`, the fourth byte is not 01 (Frame), 02 (Ask), 03 (Head), 04 (Want),
/// 05 (Piece) or 06 (Pull); `Length`, the total length in bytes 5 and 6 is not the number of the
/// bytes, or is above 1200; `Body`, the rest does not have the form of its kind. Takes no memory.
pub fn read(bytes: &[u8]) -> Result<Datagram<'_>, WireFault>
    ensures exact { result ≡ reading bytes.now }

    // Exactly what is spelled is read.
    ensures found { IfOk result (λ datagram. HasDatagramSpelling datagram × (bytes.now ≡ spelling datagram)) }
    ensures only { (datagram : Datagram) → HasDatagramSpelling datagram → bytes.now ≡ spelling datagram → result ≡ Ok datagram }
{
    laws::entries_are_read_as_spelled();
    laws::numbers_are_read_as_spelled();
    read_datagram(bytes)
}

/// What the bytes read as, test by test.
fn read_datagram(bytes: &[u8]) -> Result<Datagram<'_>, WireFault>
    ensures { result ≡ reading bytes.now }
{
    if bytes.len() < 6 {
        return Err(WireFault::Short);
    }
    let (head, body) = bytes.split_at(6);
    if BigEndian::read_u16(head) != DATAGRAM_MAGIC {
        return Err(WireFault::Magic);
    }
    if head[2] != DATAGRAM_VERSION {
        return Err(WireFault::Version);
    }
    let kind = head[3];
    if is_unknown(kind) {
        return Err(WireFault::Kind);
    }
    let total = BigEndian::read_u16(&head[4..]) as usize;
    if total != bytes.len() || total > DATAGRAM_MAX {
        return Err(WireFault::Length);
    }
    read_body(kind, body).ok_or(WireFault::Body)
}

/// Whether there is no datagram of this kind.
fn is_unknown(kind: u8) -> bool
    ensures { result ≡ is_unknown kind }
{
    kind < FRAME_KIND || kind > PULL_KIND
}

/// The datagram of this kind that the body spells.
fn read_body(kind: u8, body: &[u8]) -> Option<Datagram<'_>>
    ensures { result ≡ body_at kind body.now }
{
    match kind {
        FRAME_KIND => read_frame(body),
        ASK_KIND => read_ask(body),
        HEAD_KIND => read_head(body),
        WANT_KIND => read_want(body),
        PIECE_KIND => read_piece(body),
        _ => read_pull(body),
    }
}

fn read_frame(body: &[u8]) -> Option<Datagram<'_>>
    ensures { result ≡ frame_at body.now }
{
    if body.len() < 20 {
        return None;
    }
    let (head, rest) = body.split_at(20);
    let worker = head[0];
    let seq = BigEndian::read_u64(&head[1..]);
    let commit = BigEndian::read_u64(&head[9..]);
    let flag = head[17];
    let count = BigEndian::read_u16(&head[18..]);
    if worker >= WORKERS_MAX || commit == 0 || flag > 1 || count == 0 {
        return None;
    }
    let entries = LentEntries::filling(count, rest)?;
    let last = flag == 1;
    Some(Datagram::Frame {
        worker,
        seq,
        commit,
        last,
        entries,
    })
}

fn read_ask(body: &[u8]) -> Option<Datagram<'_>>
    ensures { result ≡ ask_at body.now }
{
    if body.len() != 17 || body[0] >= REPLICAS_MAX {
        return None;
    }
    Some(Datagram::Ask {
        replica: body[0],
        boot: BigEndian::read_u64(&body[1..]),
        request: BigEndian::read_u64(&body[9..]),
    })
}

fn read_head(body: &[u8]) -> Option<Datagram<'_>>
    ensures { result ≡ head_at body.now }
{
    if body.len() < 42 {
        return None;
    }
    let workers = body[41];
    let rest = body.split_at(42).1;
    if body[0] >= REPLICAS_MAX
        || workers == 0
        || workers > WORKERS_MAX
        || rest.len() != 16 * workers as usize
    {
        return None;
    }
    let (lows, counts) = read_counts(workers, rest);
    let head = Head {
        replica: body[0],
        boot: BigEndian::read_u64(&body[1..]),
        request: BigEndian::read_u64(&body[9..]),
        version: BigEndian::read_u64(&body[17..]),
        base: BigEndian::read_u64(&body[25..]),
        pieces: BigEndian::read_u64(&body[33..]),
        lows,
        counts,
    };
    if !may_have_base(&head) {
        return None;
    }
    Some(Datagram::Head(head))
}

/// Whether a Head may have its base.
fn may_have_base(head: &Head) -> bool
    ensures { result ≡ has_base head.now }
{
    if head.base > head.version || !head.lows.are_within(&head.counts) {
        return false;
    }
    if head.base == 0 {
        head.pieces == 0 && are_zero(head.lows.as_slice())
    } else {
        head.pieces != 0
    }
}

fn are_zero(counts: &[u64]) -> bool
    ensures { result ≡ list_all (λ count. count == 0) counts.now }
{
    counts.iter().all(|count| *count == 0)
}

fn read_want(body: &[u8]) -> Option<Datagram<'_>>
    ensures { result ≡ want_at body.now }
{
    if body.len() != 10 || body[0] >= REPLICAS_MAX || body[1] >= WORKERS_MAX {
        return None;
    }
    Some(Datagram::Want {
        replica: body[0],
        worker: body[1],
        from: BigEndian::read_u64(&body[2..]),
    })
}

fn read_piece(body: &[u8]) -> Option<Datagram<'_>>
    ensures { result ≡ piece_at body.now }
{
    if body.len() < 19 {
        return None;
    }
    let base = BigEndian::read_u64(body);
    let number = BigEndian::read_u64(&body[8..]);
    let flag = body[16];
    let count = BigEndian::read_u16(&body[17..]);
    if base == 0 || flag > 1 || !may_count(number, flag, count) {
        return None;
    }
    let entries = LentEntries::filling(count, body.split_at(19).1)?;
    let last = flag == 1;
    Some(Datagram::Piece {
        base,
        number,
        last,
        entries,
    })
}

/// Whether a Piece of this number and flag may have so many entries.
fn may_count(number: u64, flag: u8, count: u16) -> bool
    ensures { result ≡ may_count number flag count }
{
    count != 0 || (number == 0 && flag == 1)
}

fn read_pull(body: &[u8]) -> Option<Datagram<'_>>
    ensures { result ≡ pull_at body.now }
{
    if body.len() != 17 || body[0] >= REPLICAS_MAX {
        return None;
    }
    Some(Datagram::Pull {
        replica: body[0],
        base: BigEndian::read_u64(&body[1..]),
        from: BigEndian::read_u64(&body[9..]),
    })
}

/// The base counts of this many workers, and their counts.
fn read_counts(workers: u8, bytes: &[u8]) -> (Counts, Counts)
    requires few { workers ≤ WORKERS_MAX }
    requires whole { length bytes.now ≡ 16 * workers }
    ensures lows { result.0 ≡ counts_at workers bytes.now }
    ensures counts { result.1 ≡ counts_at workers (drop 8 bytes.now) }
{
    let mut lows = Counts::new();
    let mut counts = Counts::new();
    let mut rest = bytes;
    for _ in 0..workers {
        lows.push(BigEndian::read_u64(rest));
        counts.push(BigEndian::read_u64(&rest[8..]));
        rest = rest.split_at(16).1;
    }
    (lows, counts)
}
