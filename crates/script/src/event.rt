use queries::Plan;
use rows::{ByteList, Row, RowId, Value};

/// A node that a datagram is delivered to.
#[derive(Clone, Copy, PartialEq, Eq)]
pub enum Node {
    Primary,
    Replica(u8),
}

/// What happens next: one step of a client, of the primary, of the network, or of a replica.
#[derive(Drop)]
pub enum Event {
    /// A transaction begins, on what is durable.
    Begin,
    /// A transaction inserts a row.
    Insert {
        transaction: u64,
        table: u8,
        row: RowId,
        values: Row,
    },
    /// A transaction gives one column of a row another value.
    Set {
        transaction: u64,
        table: u8,
        row: RowId,
        column: u8,
        value: Value,
    },
    /// A transaction deletes a row.
    Delete {
        transaction: u64,
        table: u8,
        row: RowId,
    },
    /// A transaction adds a column to a table, behind its others, with this value in every row.
    AddColumn {
        transaction: u64,
        table: u8,
        default: Value,
    },
    /// A transaction looks at one column of a row.
    Get {
        transaction: u64,
        table: u8,
        row: RowId,
        column: u8,
    },
    /// A transaction is committed for a worker.
    Commit {
        transaction: u64,
        worker: u8,
    },
    /// A transaction is given up.
    Abort {
        transaction: u64,
    },
    /// The first pending commits become durable, at most this many.
    Flush {
        count: u32,
    },
    /// The primary takes what is durable as its base: it keeps the tables there in pieces, and drops
    /// the frames of the commits up to there.
    Base,
    /// The primary stops, and its journal keeps this many bytes beyond what it acknowledged: the
    /// first of the pending commits' records, or all of them if there are fewer.
    Stop {
        bytes: u64,
    },
    /// A stopped primary starts on what its journal keeps.
    Start,
    /// The primary sends the frame of a worker's stream that has this `seq`.
    Push {
        worker: u8,
        seq: u64,
    },
    /// The network delivers a datagram that was sent, by its index, to a node.
    Deliver {
        index: u64,
        node: Node,
    },
    /// The bytes of the datagram at that index are shown.
    Show {
        index: u64,
    },
    /// A query is opened at a replica.
    Open {
        replica: u8,
        plan: Plan,
    },
    /// A replica asks for the newest durable version.
    Ask {
        replica: u8,
    },
    /// A replica gives up the version that was fetched for its batch, and asks for the newest one.
    Renew {
        replica: u8,
    },
    /// A replica runs its batch.
    Run {
        replica: u8,
    },
    /// A replica reports the version of its tables.
    Version {
        replica: u8,
    },
    /// A replica reports its tables, as text.
    Dump {
        replica: u8,
    },
    /// A replica is restarted, in the boot of that number.
    Restart {
        replica: u8,
        boot: u64,
    },
    /// Bytes are handed to a node as a datagram, whether they are one or not.
    Raw {
        node: Node,
        bytes: ByteList,
    },
}
