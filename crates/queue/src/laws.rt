//! Laws of the definitions.

ghost use Rattle.queue.specs.Laws.{MovesRise, PutIsListed, TakenOnce};

/// What was put and taken with a pass is in rising position, each plan is at its position in the
/// list of all that were put, and no other pass put or took it. It does nothing: its contract is
/// the laws.
pub fn moves_are_listed()
    ensures rise { MovesRise }
    ensures put { PutIsListed }
    ensures taken { TakenOnce }
{}
