//! Heads with a base, Pieces and Pulls to the byte, and which of them are refused.

ghost use Rattle.std.specs.Prelude.{◌≡◌};
ghost use Rattle.wire.specs.Spelling.{HasDatagramSpelling, IsPiece};

use rows::{Entry, RowId};
use scenarios_common::worker_datagrams::{FRAME, HEAD_OF_BASE, HEAD_OF_TWO, PIECE, PULL, changed};
use std::alloc::Global;
use std::test::Fail;
use wire::{Datagram, Packet, TooSmall, WireFault, one_spelling, read, write, write_piece};

/// The one piece of an image at version 1 that has no row.
const EMPTY_PIECE: [u8; 25] = [
    0x42, 0x44, 0x03, 0x05, 0x00, 0x19, 0x00, 0x00, 0x00, 0x00, 0x00, 0x00, 0x00, 0x01, 0x00, 0x00,
    0x00, 0x00, 0x00, 0x00, 0x00, 0x00, 0x01, 0x00, 0x00,
];

/// Whether the Head is read as what it is.
fn is_head_read() -> bool {
    match read(&HEAD_OF_BASE) {
        Ok(Datagram::Head(head)) => {
            head.replica == 0
                && (head.boot, head.request, head.version) == (1, 1, 2)
                && (head.base, head.pieces) == (1, 1)
                && head.lows.as_slice() == [1, 0].as_slice()
                && head.counts.as_slice() == [1, 1].as_slice()
        }
        _ => false,
    }
}

/// Whether the bytes read as the first and last Piece of base 1, with so many entries, of these bytes.
fn is_piece(bytes: &[u8], count: usize, expected: &[u8]) -> bool {
    match read(bytes) {
        Ok(
            Datagram::Piece {
                base: 1,
                number: 0,
                last: true,
                entries,
            },
        ) => entries.len() == count && entries.as_bytes() == expected,
        _ => false,
    }
}

/// Whether the Pull is read as what it is.
fn is_pull_read() -> bool {
    matches!(
        read(&PULL),
        Ok(Datagram::Pull {
            replica: 3,
            base: 1,
            from: 258
        })
    )
}

/// Whether what is read of these bytes is written as they are, and is a packet of them.
fn is_written(bytes: &[u8]) -> bool {
    let Ok(datagram) = read(bytes) else {
        return false;
    };
    let mut room = [0xee; 99];
    let (front, rest) = room.split_at_mut(bytes.len().min(99));
    write(&datagram, front) == Ok(bytes.len())
        && &*front == bytes
        && is_empty(rest)
        && Packet::of(&datagram).bytes() == bytes
}

/// Whether nothing was written here.
fn is_empty(room: &[u8]) -> bool {
    room.iter().all(|byte| *byte == 0xee)
}

/// Whether the Piece that these bytes spell is written of its parts as they are, also at another
/// number, and is a packet of them; and whether a buffer that is too small for it stays as it is.
fn is_piece_written(alloc: Global, bytes: &[u8]) -> Result<bool, Fail> {
    let Datagram::Piece {
        base,
        number,
        last,
        entries,
    } = read(bytes)?
    else {
        return Err("another kind".into());
    };
    let entries = entries.to_list(alloc)?;
    Ok(are_parts_written(base, number, last, entries.as_slice(), bytes))
}

fn are_parts_written(base: u64, number: u64, last: bool, entries: &[Entry], bytes: &[u8]) -> bool
    requires { IsPiece base number last entries.now }
{
    if bytes.len() == 0 || bytes.len() > 99 {
        return false;
    }
    let mut room = [0xee; 99];
    let (small, _) = room.split_at_mut(bytes.len() - 1);
    if write_piece(base, number, last, entries, small) != Err(TooSmall) || !is_empty(&room) {
        return false;
    }
    let written = write_piece(base, number, last, entries, &mut room);
    let (front, rest) = room.split_at(bytes.len());
    written == Ok(bytes.len())
        && front == bytes
        && is_empty(rest)
        && Packet::of_piece(base, number, last, entries).bytes() == bytes
}

/// Whether the one entry of the Piece inserts row 7.
fn has_row(alloc: Global) -> Result<bool, Fail> {
    let Datagram::Piece { entries, .. } = read(&PIECE)? else {
        return Err("another kind".into());
    };
    let entries = entries.to_list(alloc)?;
    match entries.as_slice() {
        [Entry::Insert { table, row, bytes }] => {
            Ok(*table == 0 && *row == RowId(7) && bytes.as_slice() == &FRAME[38..])
        }
        _ => Ok(false),
    }
}

#[test]
fn pieces_and_pulls_are_read_and_written(rt: HostRuntime) -> Result<(), Fail> {
    one_spelling();
    assert!(rt; is_head_read() && is_written(&HEAD_OF_BASE));
    assert!(rt; is_piece(&PIECE, 1, &FRAME[26..]) && is_written(&PIECE));
    assert!(rt; is_piece(&EMPTY_PIECE, 0, &[]) && is_written(&EMPTY_PIECE));
    assert!(rt; is_pull_read() && is_written(&PULL));
    assert!(rt; is_piece_written(rt.alloc(), &PIECE)? && has_row(rt.alloc())?);
    assert!(rt; is_piece_written(rt.alloc(), &EMPTY_PIECE)?);
    Ok(())
}

const BODY: Option<WireFault> = Some(WireFault::Body);

/// Which datagram a byte is changed in.
#[derive(Clone, Copy)]
enum Changed {
    Head,
    HeadWithoutBase,
    Piece,
    EmptyPiece,
    Pull,
}

/// A datagram, the index of one of its bytes, what stands there instead, and the fault.
static CHANGES: [(Changed, usize, u8, Option<WireFault>); 35] = [
    // The replica, and how many workers there are.
    (Changed::Head, 6, 15, None),
    (Changed::Head, 6, 16, BODY),
    (Changed::Head, 47, 0, BODY),
    (Changed::Head, 47, 1, BODY),
    (Changed::Head, 47, 3, BODY),
    // The base is the version, and above it.
    (Changed::Head, 30, 1, None),
    (Changed::Head, 30, 0, BODY),
    (Changed::Head, 38, 2, None),
    (Changed::Head, 38, 3, BODY),
    // A base without pieces, and pieces without a base.
    (Changed::Head, 46, 2, None),
    (Changed::Head, 46, 0, BODY),
    (Changed::Head, 38, 0, BODY),
    // The base count of either worker is below its count, is its count, and is above it.
    (Changed::Head, 55, 0, None),
    (Changed::Head, 55, 2, BODY),
    (Changed::Head, 71, 1, None),
    (Changed::Head, 71, 2, BODY),
    (Changed::Head, 63, 0, BODY),
    (Changed::Head, 79, 0, None),
    // Without a base there are no pieces, and no base count is above 0.
    (Changed::HeadWithoutBase, 63, 1, None),
    (Changed::HeadWithoutBase, 38, 1, BODY),
    (Changed::HeadWithoutBase, 46, 1, BODY),
    (Changed::HeadWithoutBase, 55, 1, BODY),
    // A Piece has a base, any number, and says whether it is the last.
    (Changed::Piece, 13, 0, BODY),
    (Changed::Piece, 13, 255, None),
    (Changed::Piece, 21, 255, None),
    (Changed::Piece, 22, 0, None),
    (Changed::Piece, 22, 2, BODY),
    // It has as many entries as fill it.
    (Changed::Piece, 24, 0, BODY),
    (Changed::Piece, 24, 2, BODY),
    // One without entries is the first and the last.
    (Changed::EmptyPiece, 21, 1, BODY),
    (Changed::EmptyPiece, 22, 0, BODY),
    (Changed::EmptyPiece, 13, 0, BODY),
    // A Pull may name no base.
    (Changed::Pull, 6, 15, None),
    (Changed::Pull, 6, 16, BODY),
    (Changed::Pull, 14, 0, None),
];

/// What is wrong with a datagram in which a byte is changed.
fn fault_of(datagram: Changed, index: usize, byte: u8) -> Option<WireFault> {
    match datagram {
        Changed::Head => read(&changed(HEAD_OF_BASE, index, byte)).err(),
        Changed::HeadWithoutBase => read(&changed(HEAD_OF_TWO, index, byte)).err(),
        Changed::Piece => read(&changed(PIECE, index, byte)).err(),
        Changed::EmptyPiece => read(&changed(EMPTY_PIECE, index, byte)).err(),
        Changed::Pull => read(&changed(PULL, index, byte)).err(),
    }
}

/// The index of the first of these that has another fault.
fn other_change() -> Option<usize> {
    for (index, (datagram, at, byte, fault)) in CHANGES.iter().enumerate() {
        if fault_of(*datagram, *at, *byte) != *fault {
            return Some(index);
        }
    }
    None
}

/// Whether a Pull is refused that has a byte behind it, whether or not its length says so.
fn are_longer_pulls_refused() -> bool {
    let mut longer = [0; 24];
    longer[..23].copy_from_slice(&PULL);
    let mut told = longer;
    told[5] = 24;
    read(&longer).err() == Some(WireFault::Length) && read(&told).err() == BODY
}

#[test]
fn what_goes_together_is_tested(rt: HostRuntime) {
    assert_eq!(rt; other_change(), None);
    assert!(rt; are_longer_pulls_refused());
}
