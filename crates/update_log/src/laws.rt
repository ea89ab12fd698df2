//! Laws of cutting and of streams.

ghost use Rattle.update_log.specs.Laws.{EntriesAreCut, CutIsUnique, CutIsShort, FramesAreSendable};
ghost use Rattle.update_log.specs.Laws.{PiecesAreCut, PiecesAreUnique, PiecesAreSome, StreamGoesOn};

/// Entries that have spellings are cut into the parts that `parts_of` gives, no other list of parts
/// is a cut of them, and there are no more parts than entries; the frames of a commit that can be
/// cut can be sent. It does nothing: its contract is the law.
pub fn one_cut()
    ensures cut { EntriesAreCut }
    ensures only { CutIsUnique }
    ensures short { CutIsShort }
    ensures sendable { FramesAreSendable }
{}

/// An image's entries are cut into the pieces that `pieces_of` gives, no other list of pieces is a
/// cut of them, and there is at least one piece. It does nothing: its contract is the law.
pub fn pieces_are_cut()
    ensures cut { PiecesAreCut }
    ensures only { PiecesAreUnique }
    ensures some { PiecesAreSome }
{}

/// A stream goes on with the frames that later commits have alone, each with its seq and its
/// commit's number shifted: by the frames of the worker and by the commits before them. It does
/// nothing: its contract is the law.
pub fn streams_go_on()
    ensures { StreamGoesOn }
{}
