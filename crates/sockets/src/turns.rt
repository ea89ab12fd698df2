//! The turns of a serve call, and the work of one turn.

ghost use Rattle.std.specs.Prelude.{◌≡◌};
ghost use Rattle.sockets.specs.Serving.{has_turn, after_turn};

use rows::limits::DATAGRAM_MAX;

/// One byte more than the longest datagram, so that a longer one is not mistaken for its front.
pub const BUFFER_LEN: usize = DATAGRAM_MAX + 1;

/// How many datagrams are received in a row, at most, before a node does something else.
pub const ROUND_DATAGRAMS: usize = 16;

/// Uses up one turn, and answers whether one was left; `None` is no limit.
pub fn take_turn(turns: &mut Option<u64>) -> bool
    ensures taken { result ≡ has_turn turns.old }
    ensures left { turns.new ≡ after_turn turns.old }
{
    match turns {
        None => true,
        Some(0) => false,
        Some(left) => {
            *left -= 1;
            true
        }
    }
}
