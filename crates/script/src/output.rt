use crate::sent::{Sent, SentList};
use queries::PlanFault;
use rows::{ByteList, Value};

/// What an event answers.
#[derive(Drop)]
pub enum Output {
    /// The transaction of that number has begun, and reads that version.
    Tx { number: u64, snapshot: u64 },
    /// The change was taken.
    Accepted,
    /// The row to insert is already there.
    Exists,
    /// The row to change or to look at is not there.
    Missing,
    /// The values do not fit the table, or it has no such column.
    Unfit,
    /// The transaction has as many entries as it may have.
    TooManyEntries,
    /// No transaction of that number is open.
    NoTx,
    /// The value of the column, as the transaction sees it.
    Value(Value),
    /// The transaction was committed under that number.
    Ticket(u64),
    /// The commit of that number touches a row of the transaction, or one of the two adds a column to
    /// a table in which the other has an entry.
    Conflict(u64),
    /// The transaction changes nothing.
    ReadOnly,
    /// A number would pass 64 bits.
    NumbersUsedUp,
    /// The transaction is not of this primary. No run answers this.
    Foreign,
    /// The journal has failed. No run answers this.
    Failed,
    /// This many commits are durable.
    Durable(u64),
    /// The primary's base is this number of commits, and the tables after these are in that many
    /// pieces.
    Based { base: u64, pieces: u64 },
    /// The primary has stopped, or it was stopped already and nothing was done.
    Stopped,
    /// The primary runs, so it was not started.
    Running,
    /// These datagrams were sent.
    Sent(SentList),
    /// The stream has no frame of that `seq`.
    NoFrame,
    /// No datagram was sent at that index.
    NeverSent,
    /// A frame or a piece that was not known was kept.
    Stored,
    /// The frame or the piece was known.
    Repeat,
    /// The frame or the piece is too far ahead of the first missing one.
    Ahead,
    /// The version of that number was fetched for the batch.
    Head(u64),
    /// The datagram changed nothing.
    Ignored,
    /// The bytes of a datagram.
    Shown(ByteList),
    /// This many queries wait now.
    Opened(usize),
    /// As many queries wait as are allowed.
    BatchFull,
    /// The query's plan does not fit the tables.
    BadPlan(PlanFault),
    /// The batch has its version already.
    Busy,
    /// No query waits.
    Empty,
    /// The batch has no version that could be given up.
    NoHead,
    /// There is no batch.
    NoBatch,
    /// The batch has no version yet.
    WaitingHead,
    /// The piece of that number is missing of the image, and was asked for.
    WaitingPiece { number: u64, pull: Sent },
    /// The worker's frame `seq` is missing, and was asked for.
    Waiting { worker: u8, seq: u64, want: Sent },
    /// The report of a batch, with its ends of lines.
    Report(ByteList),
    /// The replica's tables are at the version of that number.
    Version(u64),
    /// The text of a replica's tables, with its ends of lines.
    Dump(ByteList),
    /// The replica was restarted in the boot of that number.
    Boot(u64),
    /// The replica has had the boot of that number before.
    BootUsed,
    /// The bytes are a datagram that was never sent.
    Forged,
    /// The frames are not those of one list of commits. No run answers this.
    Inconsistent,
    /// The replica is broken.
    Broken,
    /// Out of memory.
    Memory,
}
