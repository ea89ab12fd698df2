//! What is sent of a durable list: the frames behind its base.

ghost use Rattle.std.specs.Prelude.{◌≡◌, ◌-◌, ◌<◌, ◌≤◌, None, length, map, slice_get, take, drop, nat_lt, IfOk, OnErr, if◌then◌else◌};
ghost use Rattle.std.specs.Option.{option_map};
ghost use Rattle.update_log.specs.Limits.{want_frames_max};
ghost use Rattle.update_log.specs.Streams.{stream_of, frame_count};
ghost use Rattle.wire.specs.Spelling.{frame_spelling};
ghost use Rattle.primary.specs.Journaling.{AreNumbered};
ghost use Rattle.primary.specs.Sending.{frame_to};
ghost use Rattle.primary.specs.Inner.Tail.{IsTailOf};

use crate::tail::Tail;
use rows::Commit;
use std::alloc::{AllocError, Global};
use update_log::limits::WANT_FRAMES_MAX;
use wire::{Out, Packet, To};

/// The packet of that `seq` of a worker's stream of the first `durable` of the commits, if the
/// stream has it and it is kept. Takes no memory.
pub fn frame_packet(
    tail: &Tail,
    commits: &[Commit],
    durable: u64,
    worker: u8,
    seq: u64,
) -> Option<Packet>
    requires tail { IsTailOf tail.now commits.now }
    requires numbered { AreNumbered commits.now }
    requires behind { tail.now.base ≤ durable }
    ensures { result ≡ (if nat_lt seq (frame_count commits.now worker tail.now.base) then None
        else option_map frame_spelling (slice_get (stream_of (take durable commits.now) worker) seq)) }
{
    if seq >= tail.count(worker, durable) {
        return None;
    }
    let frame = tail.frame(commits, worker, seq)?;
    Some(Packet::of_frame(&frame))
}

/// The frames of a worker from that seq on, at most 16, without those that are not kept, each
/// addressed to the replica: those of the first `durable` of the commits. Fails only if out of
/// memory, and only if there is one.
pub fn wanted_outs(
    alloc: Global,
    tail: &Tail,
    commits: &[Commit],
    durable: u64,
    replica: u8,
    worker: u8,
    from: u64,
) -> Result<Vec<Out>, AllocError>
    requires tail { IsTailOf tail.now commits.now }
    requires numbered { AreNumbered commits.now }
    requires behind { tail.now.base ≤ durable }
    ensures ok { IfOk result (λ outs. outs.items ≡ map (frame_to replica)
        (drop (frame_count commits.now worker tail.now.base - from)
        (take want_frames_max (drop from (stream_of (take durable commits.now) worker))))) }
    ensures err { OnErr result (0 < length (map (frame_to replica)
        (drop (frame_count commits.now worker tail.now.base - from)
        (take want_frames_max (drop from (stream_of (take durable commits.now) worker)))))) }
{
    let mut outs = Vec::new(alloc);
    let start = tail.low(worker).max(from);
    let end = tail
        .count(worker, durable)
        .min(from.saturating_add(WANT_FRAMES_MAX))
        .max(start);
    for seq in start..end {
        if let Some(frame) = tail.frame(commits, worker, seq) {
            outs.push(Out {
                to: To::Replica(replica),
                packet: Packet::of_frame(&frame),
            })?;
        }
    }
    Ok(outs)
}
