use crate::head::Head;
use crate::lent_entries::LentEntries;

/// A datagram, its entries lent by the bytes that it was read from.
#[derive(Drop)]
pub enum Datagram<'a> {
    /// From the primary: entries of the commit numbered `commit`, as number `seq` of `worker`'s
    /// stream; `last` is set on the last frame of a commit.
    Frame {
        worker: u8,
        seq: u64,
        commit: u64,
        last: bool,
        entries: LentEntries<'a>,
    },
    /// From a replica: it asks for the newest durable version.
    Ask {
        replica: u8,
        boot: u64,
        request: u64,
    },
    /// From the primary, in answer to an Ask.
    Head(Head),
    /// From a replica: it lacks the worker's frames from that number on.
    Want {
        replica: u8,
        worker: u8,
        from: u64,
    },
    /// From the primary: entries of the image of the tables at version `base`, as its piece
    /// `number`; `last` is set on the last piece of an image.
    Piece {
        base: u64,
        number: u64,
        last: bool,
        entries: LentEntries<'a>,
    },
    /// From a replica: it lacks the pieces of that image from that number on.
    Pull {
        replica: u8,
        base: u64,
        from: u64,
    },
}
