//! The datagrams to the byte, and each fault.

ghost use Rattle.std.specs.Prelude.{◌<◌, ◌≤◌, IfOk};
ghost use Rattle.std.specs.List.{AllByRecursion};
ghost use Rattle.rows.specs.Limits.{workers_max};
ghost use Rattle.rows.specs.Spelling.{HasSpelling as EntryHasSpelling};
ghost use Rattle.wire.specs.Spelling.{HasDatagramSpelling, FrameHasSpelling};

use rows::{Commit, Entry, RowId, Value};
use scenarios_common::worker_datagrams::{ASK, FRAME, HEAD, HEAD_OF_TWO, WANT, changed, want_from};
use std::alloc::Global;
use std::test::Fail;
use update_log::{Frame, cut, one_cut};
use wire::{
    Counts, Datagram, Head, LentEntries, Packet, TooSmall, WireFault, one_spelling, read, write,
    write_frame,
};

/// The seq and commit of `FRAME` with three entries, all of row 7 of table 0: its insert, a
/// patch of the second column to 6, and a delete.
const THREE: [u8; 86] = [
    0x42, 0x44, 0x03, 0x01, 0x00, 0x56, 0x00, 0x00, 0x00, 0x00, 0x00, 0x00, 0x00, 0x00, 0x00, 0x00,
    0x00, 0x00, 0x00, 0x00, 0x00, 0x00, 0x01, 0x01, 0x00, 0x03, 0x01, 0x00, 0x00, 0x00, 0x00, 0x00,
    0x00, 0x00, 0x00, 0x07, 0x00, 0x10, 0x00, 0x00, 0x00, 0x00, 0x00, 0x00, 0x00, 0x05, 0xff, 0xff,
    0xff, 0xff, 0xff, 0xff, 0xff, 0xff, 0x02, 0x00, 0x00, 0x00, 0x00, 0x00, 0x00, 0x00, 0x00, 0x07,
    0x00, 0x08, 0x00, 0x08, 0x00, 0x00, 0x00, 0x00, 0x00, 0x00, 0x00, 0x06, 0x03, 0x00, 0x00, 0x00,
    0x00, 0x00, 0x00, 0x00, 0x00, 0x07,
];

/// The seq and commit of `FRAME` with one entry, which adds a column of the number 3 to table 0.
const ADDED: [u8; 37] = [
    0x42, 0x44, 0x03, 0x01, 0x00, 0x25, 0x00, 0x00, 0x00, 0x00, 0x00, 0x00, 0x00, 0x00, 0x00, 0x00,
    0x00, 0x00, 0x00, 0x00, 0x00, 0x00, 0x01, 0x01, 0x00, 0x01, 0x04, 0x00, 0x00, 0x00, 0x00, 0x00,
    0x00, 0x00, 0x00, 0x00, 0x03,
];

/// Whether the bytes read as the frame of commit 1 that has so many entries, of these bytes.
fn is_frame(bytes: &[u8], count: usize, expected: &[u8]) -> bool {
    match read(bytes) {
        Ok(
            Datagram::Frame {
                worker: 0,
                seq: 0,
                commit: 1,
                last: true,
                entries,
            },
        ) => entries.len() == count && entries.as_bytes() == expected,
        _ => false,
    }
}

/// Whether the bytes read as the Head at version 1 that answers request 1, with these counts and no
/// base.
fn is_head(bytes: &[u8], lows: &[u64], counts: &[u64]) -> bool {
    match read(bytes) {
        Ok(Datagram::Head(head)) => {
            head.replica == 0
                && (head.boot, head.request, head.version) == (1, 1, 1)
                && (head.base, head.pieces) == (0, 0)
                && head.lows.as_slice() == lows
                && head.counts.as_slice() == counts
        }
        _ => false,
    }
}

/// Whether the bytes read as the Ask of replica 0, in its boot 1, by request 1.
fn is_ask(bytes: &[u8]) -> bool {
    matches!(
        read(bytes),
        Ok(Datagram::Ask {
            replica: 0,
            boot: 1,
            request: 1
        })
    )
}

/// Whether the bytes read as the Want of replica 0, of the frames of worker 0 from this seq on.
fn is_want(bytes: &[u8], expected: u64) -> bool {
    match read(bytes) {
        Ok(
            Datagram::Want {
                replica: 0,
                worker: 0,
                from,
            },
        ) => from == expected,
        _ => false,
    }
}

/// Whether each kind of datagram is read.
fn are_read() -> bool {
    is_frame(&FRAME, 1, &FRAME[26..])
        && is_frame(&THREE, 3, &THREE[26..])
        && is_frame(&ADDED, 1, &ADDED[26..])
        && is_ask(&ASK)
        && is_head(&HEAD, &[0], &[1])
        && is_head(&HEAD_OF_TWO, &[0, 0], &[1, 0])
        && is_want(&WANT, 0)
        && is_want(&want_from(260), 260)
}

/// The frame that these bytes spell, owned.
fn frame_in(alloc: Global, bytes: &[u8]) -> Result<Frame, Fail>
    ensures { IfOk result FrameHasSpelling }
{
    let Datagram::Frame {
        worker,
        seq,
        commit,
        last,
        entries,
    } = read(bytes)?
    else {
        return Err("another kind".into());
    };
    Ok(Frame {
        worker,
        seq,
        commit,
        last,
        entries: entries.to_list(alloc)?,
    })
}

/// Whether the entry is the insert, the patch or the delete of `THREE`, or the column of `ADDED`.
fn is_of_frames(entry: &Entry) -> bool {
    match entry {
        Entry::Insert { table, row, bytes } => {
            *table == 0 && *row == RowId(7) && bytes.as_slice() == &FRAME[38..]
        }
        Entry::Patch {
            table,
            row,
            offset,
            bytes,
        } => {
            let six = [0, 0, 0, 0, 0, 0, 0, 6];
            *table == 0 && *row == RowId(7) && *offset == 8 && bytes.as_slice() == six.as_slice()
        }
        Entry::Delete { table, row } => *table == 0 && *row == RowId(7),
        Entry::AddColumn { table, default } => *table == 0 && *default == Value::Int(3),
    }
}

/// Whether these are the entries of `FRAME`, of `THREE` or of `ADDED`.
fn are_entries(entries: &[Entry]) -> bool {
    matches!(
        entries,
        [Entry::Insert { .. }]
            | [Entry::AddColumn { .. }]
            | [
                Entry::Insert { .. },
                Entry::Patch { .. },
                Entry::Delete { .. }
            ]
    ) && entries.iter().all(|entry| is_of_frames(entry))
}

/// Whether the frame that these bytes spell has so many entries, and those; and it is written as
/// they are.
fn is_frame_of(alloc: Global, bytes: &[u8], count: usize) -> Result<bool, Fail> {
    let frame = frame_in(alloc, bytes)?;
    let entries = frame.entries.as_slice();
    Ok(entries.len() == count && are_entries(entries) && is_frame_written(&frame, bytes))
}

/// Whether the frame is written as these bytes, at the front of a buffer that keeps the rest of what
/// it had; and not into one that is too small, which stays as it was.
fn is_frame_written(frame: &Frame, bytes: &[u8]) -> bool
    requires { FrameHasSpelling frame.now }
{
    if bytes.len() == 0 || bytes.len() > 99 {
        return false;
    }
    let lent = frame.lent();
    let mut room = [0xee; 99];
    let (small, _) = room.split_at_mut(bytes.len() - 1);
    if write_frame(&lent, small) != Err(TooSmall) || !is_empty(&room) {
        return false;
    }
    let written = write_frame(&lent, &mut room);
    let (front, rest) = room.split_at(bytes.len());
    written == Ok(bytes.len()) && front == bytes && is_empty(rest)
}

/// Whether nothing was written here.
fn is_empty(room: &[u8]) -> bool {
    room.iter().all(|byte| *byte == 0xee)
}

/// The fault of a frame whose one entry is of this form, for row 7 of this table, and goes on with
/// these four bytes and then with zeros, so many bytes in all.
fn fault_of(form: u8, table: u8, next: [u8; 4], len: u16) -> Option<WireFault> {
    let mut bytes = [0u8; 1200];
    let total = (26 + usize::from(len)).min(1200);
    bytes[..26].copy_from_slice(&FRAME[..26]);
    bytes[4..6].copy_from_slice(&(total as u16).to_be_bytes());
    bytes[26] = form;
    bytes[27] = table;
    bytes[35] = 7;
    bytes[36..40].copy_from_slice(&next);
    read(&bytes[..total]).err()
}

const BODY: Option<WireFault> = Some(WireFault::Body);

/// An entry's form and table, what goes on, how long it is, and the fault of its frame.
const ENTRIES: [(u8, u8, [u8; 4], u16, Option<WireFault>); 19] = [
    // An insert: its size, and 1 to 512 bytes.
    (1, 0, [0, 0, 0, 0], 12, BODY),
    (1, 0, [2, 0, 0, 0], 524, None),
    (1, 0, [2, 1, 0, 0], 525, BODY),
    // A patch: its offset, its size, and 1 to 64 bytes.
    (2, 0, [0, 8, 0, 0], 14, BODY),
    (2, 0, [0, 8, 0, 64], 78, None),
    (2, 0, [0, 8, 0, 65], 79, BODY),
    // It ends within 512 bytes.
    (2, 0, [1, 0xf8, 0, 8], 22, None),
    (2, 0, [1, 0xf9, 0, 8], 22, BODY),
    // A delete, of one of 16 tables; and two forms that are none.
    (3, 0, [0; 4], 10, None),
    (3, 15, [0; 4], 10, None),
    (3, 16, [0; 4], 10, BODY),
    (0, 0, [0; 4], 10, BODY),
    (5, 0, [0; 4], 10, BODY),
    // An added column, whose kind stands where a row begins: an int, in eight bytes.
    (4, 0, [0; 4], 11, None),
    (4, 15, [0; 4], 11, None),
    (4, 16, [0; 4], 11, BODY),
    (4, 0, [0; 4], 10, BODY),
    // A byte behind it, and one too few.
    (3, 0, [0; 4], 11, BODY),
    (3, 0, [0; 4], 9, BODY),
];

/// The index of the first of these that has another fault.
fn other_entry() -> Option<usize> {
    for (index, (form, table, next, len, fault)) in ENTRIES.iter().enumerate() {
        if fault_of(*form, *table, *next, *len) != *fault {
            return Some(index);
        }
    }
    None
}

/// The fault of a frame that says that it has so many entries, and has one, which adds a column of this
/// kind to table 0, with so many bytes behind the kind.
fn fault_of_column(count: u16, kind: u8, len: u16) -> Option<WireFault> {
    let mut bytes = [0u8; 1200];
    let total = (29 + usize::from(len)).min(1200);
    bytes[..26].copy_from_slice(&FRAME[..26]);
    bytes[4..6].copy_from_slice(&(total as u16).to_be_bytes());
    bytes[24..26].copy_from_slice(&count.to_be_bytes());
    bytes[26] = 4;
    bytes[28] = kind;
    read(&bytes[..total]).err()
}

/// A count of entries, the kind of an added column, how many bytes its value has, and the fault.
const ADDED_COLUMNS: [(u16, u8, u16, Option<WireFault>); 14] = [
    // A number, and 1 to 64 bytes.
    (1, 0, 8, None),
    (1, 1, 1, None),
    (1, 64, 64, None),
    (1, 65, 8, BODY),
    (1, 65, 65, BODY),
    (1, 255, 8, BODY),
    (1, 255, 255, BODY),
    // A value that is cut short, one of no bytes, and a byte behind it.
    (1, 0, 7, BODY),
    (1, 64, 63, BODY),
    (1, 1, 0, BODY),
    (1, 0, 9, BODY),
    (1, 1, 2, BODY),
    // A count of one too many, and of none.
    (2, 0, 8, BODY),
    (0, 0, 8, BODY),
];

/// The index of the first of these that has another fault.
fn other_column() -> Option<usize> {
    for (index, (count, kind, len, fault)) in ADDED_COLUMNS.iter().enumerate() {
        if fault_of_column(*count, *kind, *len) != *fault {
            return Some(index);
        }
    }
    None
}

/// The Head of replica 0, its boot 1 and request 1, at version 1: the first worker has one frame,
/// and so many others have none.
fn head_of(others: u8) -> Datagram<'static>
    requires { others ≤ 1 }
    ensures { HasDatagramSpelling result }
{
    let mut lows = Counts::new();
    let mut counts = Counts::new();
    lows.push(0);
    counts.push(1);
    if others == 1 {
        lows.push(0);
        counts.push(0);
    }
    Datagram::Head(Head {
        replica: 0,
        boot: 1,
        request: 1,
        version: 1,
        base: 0,
        pieces: 0,
        lows,
        counts,
    })
}

/// Whether a buffer that it fills, and `Packet`, have these bytes.
fn is_written(datagram: &Datagram<'_>, bytes: &[u8]) -> bool
    requires { HasDatagramSpelling datagram.now }
{
    let mut room = [0xee; 99];
    let (front, rest) = room.split_at_mut(bytes.len().min(99));
    let written = write(datagram, front);
    written == Ok(bytes.len())
        && &*front == bytes
        && is_empty(rest)
        && Packet::of(datagram).bytes() == bytes
}

/// Whether an Ask, a Want and two Heads are written as they should be.
fn are_written() -> bool {
    let ask = Datagram::Ask {
        replica: 0,
        boot: 1,
        request: 1,
    };
    let want = Datagram::Want {
        replica: 0,
        worker: 0,
        from: 0,
    };
    is_written(&ask, &ASK)
        && is_written(&want, &WANT)
        && is_written(&head_of(0), &HEAD)
        && is_written(&head_of(1), &HEAD_OF_TWO)
}

/// Whether the frame that these bytes spell is a packet of them, and so is the one frame into which
/// its commit is cut.
fn is_packet(alloc: Global, bytes: &[u8]) -> Result<bool, Fail> {
    let frame = frame_in(alloc, bytes)?;
    if Packet::of_frame(&frame.lent()).bytes() != bytes {
        return Ok(false);
    }
    let Frame { entries, .. } = frame;
    is_cut_into(alloc, &Commit { worker: 0, entries }, bytes)
}

/// Whether a commit is cut, as commit 1, into one frame of these bytes.
fn is_cut_into(alloc: Global, commit: &Commit, bytes: &[u8]) -> Result<bool, Fail>
    requires worker { commit.now.worker < workers_max }
    requires spelled { AllByRecursion EntryHasSpelling commit.now.entries }
{
    one_cut();
    if commit.entries.len() > 4096 {
        return Err("too many entries".into());
    }
    let frames = cut(alloc, commit, 1, 0)?;
    match frames.as_slice() {
        [frame] => Ok(Packet::of_frame(&frame.lent()).bytes() == bytes),
        _ => Ok(false),
    }
}

/// Whether what is read of the frame is a packet of its bytes.
fn is_packet_of_read(bytes: &[u8]) -> bool {
    match read(bytes) {
        Ok(datagram) => Packet::of(&datagram).bytes() == bytes,
        Err(_) => false,
    }
}

#[test]
fn datagrams_are_read_and_written(rt: HostRuntime) -> Result<(), Fail> {
    one_spelling();
    assert!(rt; are_read());
    assert!(rt; are_written());
    assert!(rt; is_packet_of_read(&FRAME));
    assert!(rt; is_frame_of(rt.alloc(), &FRAME, 1)? && is_packet(rt.alloc(), &FRAME)?);
    assert!(rt; is_frame_of(rt.alloc(), &THREE, 3)? && is_packet(rt.alloc(), &THREE)?);
    assert!(rt; is_frame_of(rt.alloc(), &ADDED, 1)? && is_packet(rt.alloc(), &ADDED)?);
    Ok(())
}

/// An index of the frame, another byte there, and the first fault.
static FAULTS: [(usize, u8, WireFault); 12] = [
    (1, 0x45, WireFault::Magic),
    (2, 2, WireFault::Version),
    (2, 4, WireFault::Version),
    (3, 7, WireFault::Kind),
    (3, 0, WireFault::Kind),
    (3, 4, WireFault::Body),
    (3, 5, WireFault::Body),
    (3, 6, WireFault::Body),
    (6, 16, WireFault::Body),
    (22, 0, WireFault::Body),
    (23, 2, WireFault::Body),
    (25, 2, WireFault::Body),
];

/// The index of the first of these that has another fault.
fn other_fault() -> Option<usize> {
    for (index, (at, byte, fault)) in FAULTS.iter().enumerate() {
        if read(&changed(FRAME, *at, *byte)).err() != Some(*fault) {
            return Some(index);
        }
    }
    None
}

/// Whether a frame is refused that has too few bytes, or one too many, or more than there may be.
fn are_lengths_refused() -> bool {
    let mut longer = [0; 55];
    longer[..54].copy_from_slice(&FRAME);
    let mut above = [0; 1201];
    above[..54].copy_from_slice(&FRAME);
    above[4] = 0x04;
    above[5] = 0xb1;
    read(&FRAME[..5]).err() == Some(WireFault::Short)
        && read(&FRAME[..53]).err() == Some(WireFault::Length)
        && read(&longer).err() == Some(WireFault::Length)
        && read(&above).err() == Some(WireFault::Length)
}

/// A number of entries, how many bytes behind the front of the frame are to be theirs, and how many
/// entries those then have; `None` where so many do not fill them.
static FILLINGS: [(u16, usize, Option<usize>); 5] = [
    (1, 28, Some(1)),
    (0, 0, Some(0)),
    (0, 28, None),
    (2, 28, None),
    (1, 27, None),
];

/// The index of the first of these that goes otherwise.
fn other_filling() -> Option<usize> {
    for (index, (count, len, expected)) in FILLINGS.iter().enumerate() {
        let (bytes, _) = FRAME[26..].split_at((*len).min(28));
        if filled(*count, bytes) != *expected {
            return Some(index);
        }
    }
    None
}

/// Whether a Want of replica 16, of worker 16, and with a byte behind it is refused.
fn are_wants_refused() -> bool {
    let mut longer = [0; 17];
    longer[..16].copy_from_slice(&WANT);
    let mut told = longer;
    told[5] = 17;
    read(&changed(WANT, 6, 16)).err() == Some(WireFault::Body)
        && read(&changed(WANT, 7, 16)).err() == Some(WireFault::Body)
        && read(&longer).err() == Some(WireFault::Length)
        && read(&told).err() == Some(WireFault::Body)
}

/// How many entries fill the bytes, where so many do.
fn filled(count: u16, bytes: &[u8]) -> Option<usize> {
    Some(LentEntries::filling(count, bytes)?.len())
}

/// A frame holds whole entries, and they fill their bytes.
#[test]
fn the_first_fault_is_named(rt: HostRuntime) {
    assert_eq!(rt; other_entry(), None);
    assert_eq!(rt; other_column(), None);
    assert_eq!(rt; other_fault(), None);
    assert!(rt; are_lengths_refused());
    assert!(rt; are_wants_refused());
    assert_eq!(rt; other_filling(), None);
}
