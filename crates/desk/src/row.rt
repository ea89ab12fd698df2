//! A row of packets of a worker's stream.

ghost use Rattle.std.specs.Prelude.{◌≡◌, ◌+◌, ◌≤◌, [], length, vec_capacity};
ghost use Rattle.primary.specs.Sending.{low_of};
ghost use Rattle.desk.specs.Answers.{row_of};

use journal::JournalStore;
use primary::PrimaryCore;
use wire::Packet;

/// Puts the packets of the worker's stream of the durable list from the seq `from` on, which are all
/// kept, into an empty row, in order: as many as the stream has, and at most `most`, for which it
/// has room. Takes no memory.
pub(crate) fn fill_row<J: JournalStore>(
    core: &PrimaryCore<J>,
    worker: u8,
    from: u64,
    most: usize,
    row: &mut Vec<Packet>,
)
    requires empty { row.old.items ≡ [] }
    requires room { most ≤ vec_capacity row.old }
    requires kept { low_of core.now.primary worker ≤ from }
    ensures row { row.new.items ≡ row_of core.now.primary.durable worker from most }
    ensures below { from + length row.new.items ≤ u64.MAX }
{
    core.keeps_legal();
    let mut seq = from;
    for _ in 0..most {
        let Some(packet) = core.push(worker, seq) else {
            return;
        };
        row.push_reserved(packet);
        // No stream has a frame whose seq is the greatest 64-bit number.
        seq += 1;
    }
}
