ghost use Rattle.std.specs.Prelude.{◌≡◌};
ghost use Rattle.dispatcher.specs.Steps.{got_of as got_of_taken};

use intake::Taken;
use rows::ByteList;
use wire::Out;

/// What was done with bytes that arrived.
#[derive(Clone, Copy, PartialEq, Eq)]
pub enum Got {
    /// A frame or a piece that was not known; it is now.
    Stored,
    /// One that was known.
    Repeat,
    /// One too far ahead of its worker's first missing frame, or of the first missing piece; it was not
    /// kept.
    Ahead,
    /// The Head that the batch waits for, with its version.
    Head(u64),
    /// Anything else; nothing changed.
    Ignored,
    /// Out of memory; nothing changed.
    Memory,
    /// The replica is broken; nothing changed.
    Broken,
}

/// What a run of the batch did.
#[derive(Drop)]
pub enum Run {
    /// There is no batch.
    NoBatch,
    /// The batch has no version yet.
    WaitingHead,
    /// The piece of that number is missing of the image that it goes by; `pull` asks for it.
    WaitingPiece { number: u64, pull: Out },
    /// The worker's frame of that seq is missing; `want` asks for it.
    Waiting { worker: u8, seq: u64, want: Out },
    /// The report; the batch has ended.
    Answered(ByteList),
    /// What came is not of one list of commits; the replica is now broken.
    Inconsistent,
    /// The replica is broken.
    Broken,
    /// Out of memory; the batch is still there and may be run again.
    Memory,
}

/// The outcome of bytes that hold a frame, by the answer of the intake.
pub fn got_of(taken: Taken) -> Got
    ensures { result ≡ got_of_taken taken }
{
    match taken {
        Taken::Repeat => Got::Repeat,
        Taken::Ahead => Got::Ahead,
        Taken::Memory => Got::Memory,
        Taken::Stored => Got::Stored,
    }
}
