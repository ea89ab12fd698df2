//! The pieces of a base.

ghost use Rattle.std.specs.Prelude.{◌≡◌, ◌<◌, ◌≤◌, ℕ, length, map, take, drop, IfOk, OnErr};
ghost use Rattle.std.specs.List.{AllByRecursion};
ghost use Rattle.rows.specs.Spelling.{HasSpelling};
ghost use Rattle.update_log.specs.Limits.{want_frames_max};
ghost use Rattle.update_log.specs.Parts.{pieces_of};
ghost use Rattle.wire.specs.Spelling.{spelling};
ghost use Rattle.primary.specs.Sending.{pieces_from};
ghost use Rattle.primary.specs.Inner.Tail.{packet_to};

use rows::Entry;
use std::alloc::{AllocError, Global};
use update_log::limits::WANT_FRAMES_MAX;
use update_log::{piece_len, pieces_are_cut};
use wire::{Out, Packet, To};

/// The pieces into which the image at a base is cut, spelled, in room for exactly these. Fails only
/// if out of memory.
pub fn piece_packets(alloc: Global, base: u64, image: &[Entry]) -> Result<Vec<Packet>, AllocError>
    requires based { 0 < base }
    requires spelled { AllByRecursion HasSpelling image.now }
    ensures { IfOk result (λ packets. packets.items ≡ map spelling (pieces_from base 0 (pieces_of image.now))) }
{
    pieces_are_cut();
    let mut packets = Vec::with_capacity(alloc, piece_count(image))?;
    if image.is_empty() {
        packets.push(Packet::of_piece(base, 0, true, &[]))?;
        return Ok(packets);
    }
    let mut number = 0;
    let mut rest = image;
    while !rest.is_empty() {
        let (piece, behind) = rest.split_at(piece_len(rest));
        packets.push(Packet::of_piece(base, number, behind.is_empty(), piece))?;
        number += 1;
        rest = behind;
    }
    Ok(packets)
}

/// How many pieces an image is cut into.
fn piece_count(image: &[Entry]) -> usize
    requires { AllByRecursion HasSpelling image.now }
{
    let mut count = 0;
    let mut rest = image;
    while !rest.is_empty() {
        rest = rest.split_at(piece_len(rest)).1;
        count += 1;
    }
    count.max(1)
}

/// The pieces from that number on, at most 16, each addressed to the replica. Fails only if out of
/// memory, and only if there is one.
pub fn pulled_outs(
    alloc: Global,
    pieces: &[Packet],
    replica: u8,
    from: u64,
) -> Result<Vec<Out>, AllocError>
    ensures ok { IfOk result (λ outs. outs.items ≡ map (packet_to replica) (take want_frames_max (drop from pieces.now))) }
    ensures err { OnErr result (0 < length (take want_frames_max (drop from pieces.now))) }
{
    let mut outs = Vec::new(alloc);
    let start = from.min(pieces.len() as u64);
    let (_, behind) = pieces.split_at(start as usize);
    let few = behind.len().min(WANT_FRAMES_MAX as usize);
    for packet in behind.split_at(few).0 {
        outs.push(Out {
            to: To::Replica(replica),
            packet: packet.copy(),
        })?;
    }
    Ok(outs)
}
