//! Lengths and numbers of frames and pieces, each defined once.

ghost use Rattle.std.specs.Prelude.{◌≡◌};
ghost use Rattle.update_log.specs.Limits.{want_frames_max};
ghost use Rattle.update_log.specs.Parts.{frame_front_len, piece_front_len};

/// Bytes of a frame before its entries.
pub const FRAME_FRONT_LEN: usize = 26;

/// Bytes of a piece of an image before its entries.
pub const PIECE_FRONT_LEN: usize = 25;

/// Frames that answer one Want, or pieces that answer one Pull, at most.
pub const WANT_FRAMES_MAX: u64 = 16;

/// The limits are the numbers that the definitions name. It does nothing: its contract states this,
/// so that a limit that is changed only here is refused.
pub fn are_as_defined()
    ensures frame_front { FRAME_FRONT_LEN ≡ frame_front_len }
    ensures piece_front { PIECE_FRONT_LEN ≡ piece_front_len }
    ensures want_frames { WANT_FRAMES_MAX ≡ want_frames_max }
{}
