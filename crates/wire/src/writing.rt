//! Writing the one spelling of a datagram.

ghost use Rattle.std.specs.Prelude.{◌≡◌, ◌<◌, ◌≤◌, ◌+◌, ◌++◌, ◌↔◌, length, drop, IfOk, OnErr, IsErr};
ghost use Rattle.rows.specs.Spelling.{HasSpelling as EntryHasSpelling, entry_spelling};
ghost use Rattle.std.specs.List.{flat_map, AllByRecursion};
ghost use Rattle.wire.specs.Spelling.{spelling, frame_spelling, HasDatagramSpelling, FrameHasSpelling, IsPiece, in_turn};
ghost use Rattle.update_log.specs.Frames.{IsFrame};
ghost use Rattle.rows.specs.Limits.{workers_max};

use crate::datagram::Datagram;
use crate::faults::TooSmall;
use crate::fronts::{frame_front, head_front, piece_front, question_bytes, want_bytes};
use crate::head::Head;
use crate::kinds::{ASK_KIND, PULL_KIND};
use arrayvec::ArrayVec;
use byteorder::{BigEndian, ByteOrder};
use rows::limits::{DATAGRAM_MAX, WORKERS_MAX};
use rows::{Entry, entry_len, write_entry};
use update_log::FrameRef;

/// Numbers after the front of a Head, at most: two for each worker.
const HEAD_NUMBERS_MAX: usize = 2 * WORKERS_MAX as usize;

/// Bytes of these numbers, at most.
const HEAD_NUMBERS_LEN_MAX: usize = 8 * HEAD_NUMBERS_MAX;

/// Writes the spelling of a datagram to the front of the buffer, and answers its length; the bytes
/// after it do not change. `TooSmall` exactly if the buffer is shorter than the spelling, and then
/// the buffer is unchanged. Takes no memory.
pub fn write(datagram: &Datagram<'_>, buffer: &mut [u8]) -> Result<usize, TooSmall>
    requires { HasDatagramSpelling datagram.now }
    ensures ok { IfOk result (λ len. (len ≡ length (spelling datagram.now)) × (buffer.new ≡ spelling datagram.now ++ drop len buffer.old)) }
    ensures small { IsErr result ↔ (length buffer.old < length (spelling datagram.now)) }
    ensures err { OnErr result (buffer.new ≡ buffer.old) }
{
    match datagram {
        Datagram::Frame {
            worker,
            seq,
            commit,
            last,
            entries,
        } => {
            let bytes = entries.as_bytes();
            let count = entries.len();
            let front = frame_front(*worker, *seq, *commit, *last, count, bytes.len());
            put_two(&front, bytes, buffer)
        }
        Datagram::Ask {
            replica,
            boot,
            request,
        } => put_two(
            &question_bytes(ASK_KIND, *replica, *boot, *request),
            &[],
            buffer,
        ),
        Datagram::Head(head) => write_head(head, buffer),
        Datagram::Want {
            replica,
            worker,
            from,
        } => put_two(&want_bytes(*replica, *worker, *from), &[], buffer),
        Datagram::Piece {
            base,
            number,
            last,
            entries,
        } => {
            let bytes = entries.as_bytes();
            let front = piece_front(*base, *number, *last, entries.len(), bytes.len());
            put_two(&front, bytes, buffer)
        }
        Datagram::Pull {
            replica,
            base,
            from,
        } => put_two(
            &question_bytes(PULL_KIND, *replica, *base, *from),
            &[],
            buffer,
        ),
    }
}

/// Writes the spelling of a frame to the front of the buffer, and answers its length; the bytes
/// after it do not change. `TooSmall` exactly if the buffer is shorter than the spelling, and then
/// the buffer is unchanged. Takes no memory.
pub fn write_frame(frame: &FrameRef<'_>, buffer: &mut [u8]) -> Result<usize, TooSmall>
    requires { FrameHasSpelling frame.now }
    ensures ok { IfOk result (λ len. (len ≡ length (frame_spelling frame.now))
        × (buffer.new ≡ frame_spelling frame.now ++ drop len buffer.old)) }
    ensures small { IsErr result ↔ (length buffer.old < length (frame_spelling frame.now)) }
    ensures err { OnErr result (buffer.new ≡ buffer.old) }
{
    write_frame_of(
        frame.worker,
        frame.seq,
        frame.commit,
        frame.last,
        frame.entries,
        buffer,
    )
}

/// Writes the spelling of a frame, given by its parts, as `write_frame` does.
fn write_frame_of(
    worker: u8,
    seq: u64,
    commit: u64,
    last: bool,
    entries: &[Entry],
    buffer: &mut [u8],
) -> Result<usize, TooSmall>
    requires { IsFrame worker seq commit entries.now }
    ensures ok { IfOk result (λ len. (len ≡ length (spelling (Datagram.Frame worker seq commit last entries.now)))
        × (buffer.new ≡ spelling (Datagram.Frame worker seq commit last entries.now) ++ drop len buffer.old)) }
    ensures small { IsErr result ↔ (length buffer.old < length (spelling (Datagram.Frame worker seq commit last entries.now))) }
    ensures err { OnErr result (buffer.new ≡ buffer.old) }
{
    let len = entries_len(entries);
    let front = frame_front(worker, seq, commit, last, entries.len(), len);
    put_entries(&front, entries, len, buffer)
}

/// Writes the spelling of a Piece, whose parts are given, to the front of the buffer, and answers
/// its length; the bytes after it do not change. `TooSmall` exactly if the buffer is shorter than the
/// spelling, and then the buffer is unchanged. Takes no memory.
pub fn write_piece(
    base: u64,
    number: u64,
    last: bool,
    entries: &[Entry],
    buffer: &mut [u8],
) -> Result<usize, TooSmall>
    requires { IsPiece base number last entries.now }
    ensures ok { IfOk result (λ len. (len ≡ length (spelling (Datagram.Piece base number last entries.now)))
        × (buffer.new ≡ spelling (Datagram.Piece base number last entries.now) ++ drop len buffer.old)) }
    ensures small { IsErr result ↔ (length buffer.old < length (spelling (Datagram.Piece base number last entries.now))) }
    ensures err { OnErr result (buffer.new ≡ buffer.old) }
{
    let len = entries_len(entries);
    let front = piece_front(base, number, last, entries.len(), len);
    put_entries(&front, entries, len, buffer)
}

/// Writes the spelling of a Head, as `write` does.
fn write_head(head: &Head, buffer: &mut [u8]) -> Result<usize, TooSmall>
    requires { HasDatagramSpelling (Datagram.Head head.now) }
    ensures ok { IfOk result (λ len. (len ≡ length (spelling (Datagram.Head head.now)))
        × (buffer.new ≡ spelling (Datagram.Head head.now) ++ drop len buffer.old)) }
    ensures small { IsErr result ↔ (length buffer.old < length (spelling (Datagram.Head head.now))) }
    ensures err { OnErr result (buffer.new ≡ buffer.old) }
{
    let front = head_front(head);
    let numbers = in_turn(head.lows.as_slice(), head.counts.as_slice());
    let numbers = numbers.as_slice();
    let mut bytes = [0u8; HEAD_NUMBERS_LEN_MAX];
    let bytes = &mut bytes[..8 * numbers.len()];
    BigEndian::write_u64_into(numbers, bytes);
    put_two(&front, bytes, buffer)
}

/// For each worker its base count, and after that its count.
fn in_turn(lows: &[u64], counts: &[u64]) -> ArrayVec<u64, HEAD_NUMBERS_MAX>
    requires many { length lows.now ≡ length counts.now }
    requires few { length counts.now ≤ workers_max }
    ensures { result.items ≡ in_turn lows.now counts.now }
{
    let mut numbers = ArrayVec::new();
    for (worker, low) in lows.iter().enumerate() {
        numbers.push(*low);
        numbers.push(counts[worker]);
    }
    numbers
}

/// Writes the front of a datagram, and after it these entries, whose spellings take `len` bytes, to
/// the front of the buffer, if it is long enough for both.
fn put_entries(
    front: &[u8],
    entries: &[Entry],
    len: usize,
    buffer: &mut [u8],
) -> Result<usize, TooSmall>
    requires spelled { AllByRecursion EntryHasSpelling entries.now }
    requires sized { len ≡ length (flat_map entry_spelling entries.now) }
    requires few { length front.now + len ≤ DATAGRAM_MAX }
    ensures ok { IfOk result (λ total. (total ≡ length front.now + length (flat_map entry_spelling entries.now))
        × (buffer.new ≡ (front.now ++ flat_map entry_spelling entries.now) ++ drop total buffer.old)) }
    ensures small { IsErr result ↔ (length buffer.old < length front.now + length (flat_map entry_spelling entries.now)) }
    ensures err { OnErr result (buffer.new ≡ buffer.old) }
{
    let total = front.len() + len;
    if buffer.len() < total {
        return Err(TooSmall);
    }
    let (head, rest) = buffer.split_at_mut(front.len());
    head.copy_from_slice(front);
    write_entries(entries, rest);
    Ok(total)
}

/// How many bytes the entries' spellings take together.
fn entries_len(entries: &[Entry]) -> usize
    requires spelled { AllByRecursion EntryHasSpelling entries.now }
    requires few { length (flat_map entry_spelling entries.now) ≤ DATAGRAM_MAX }
    ensures { result ≡ length (flat_map entry_spelling entries.now) }
{
    let mut total = 0;
    for entry in entries {
        total += entry_len(entry);
    }
    total
}

/// Writes the entries one after the other to the front of the buffer; the bytes after them do not
/// change.
fn write_entries(entries: &[Entry], buffer: &mut [u8])
    requires spelled { AllByRecursion EntryHasSpelling entries.now }
    requires room { length (flat_map entry_spelling entries.now) ≤ length buffer.old }
    ensures { buffer.new ≡ flat_map entry_spelling entries.now ++ drop (length (flat_map entry_spelling entries.now)) buffer.old }
{
    let mut at = 0;
    for entry in entries {
        at += write_entry(entry, &mut buffer[at..]);
    }
}

/// Copies two runs of bytes one after the other to the front of the buffer, if it is long enough
/// for both.
fn put_two(front: &[u8], back: &[u8], buffer: &mut [u8]) -> Result<usize, TooSmall>
    requires { length front.now + length back.now ≤ DATAGRAM_MAX }
    ensures ok { IfOk result (λ len. (len ≡ length front.now + length back.now)
        × (buffer.new ≡ (front.now ++ back.now) ++ drop len buffer.old)) }
    ensures small { IsErr result ↔ (length buffer.old < length front.now + length back.now) }
    ensures err { OnErr result (buffer.new ≡ buffer.old) }
{
    let len = front.len() + back.len();
    if buffer.len() < len {
        return Err(TooSmall);
    }
    buffer[..front.len()].copy_from_slice(front);
    buffer[front.len()..len].copy_from_slice(back);
    Ok(len)
}
