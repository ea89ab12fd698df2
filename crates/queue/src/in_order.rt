//! The rule that every step of the queue keeps, and what its steps show.

use crate::moves::Moves;
use crossbeam_queue::protocol::{Join, Lesson, Outcome, Protocol, Split};
use queries::Plan;
use std::collections::LinkedList;

/// What a seat of the ring holds: the moves of one pass, but for the time in which two are compared.
pub(crate) type Held = LinkedList<Moves>;

/// The rule: first in, first out.
pub(crate) struct InOrder;

impl Protocol<Plan, Held> for InOrder {
    ghost use Rattle.std.specs.Prelude.{[], ◌∷◌};
    ghost use Rattle.queue.specs.Rule.{IsInOrder, no_moves};

    ghost holds = { λ items seats. IsInOrder items seats };

    ghost first = { no_moves ∷ [] };
}

/// A plan is put.
pub(crate) struct Put;

impl Outcome<Plan, Held> for Put {
    ghost use Rattle.std.specs.Prelude.{◌≡◌, [], ◌∷◌};
    ghost use Rattle.queue.specs.Rule.{first_of, Puts};

    ghost then = { λ old plan new. (new ≡ first_of new ∷ []) × Puts (first_of old) plan (first_of new) };
}

impl Lesson<Plan, Held> for Put {
    ghost use Rattle.queue.specs.Rule.{first_of, AreMovesOfMoment};

    ghost fact = { λ held items. AreMovesOfMoment (first_of held) };
}

/// A plan is taken.
pub(crate) struct Take;

impl Outcome<Plan, Held> for Take {
    ghost use Rattle.std.specs.Prelude.{◌≡◌, [], ◌∷◌};
    ghost use Rattle.queue.specs.Rule.{first_of, Takes};

    ghost then = { λ old plan new. (new ≡ first_of new ∷ []) × Takes (first_of old) plan (first_of new) };
}

impl Lesson<Plan, Held> for Take {
    ghost use Rattle.queue.specs.Rule.{first_of, AreMovesOfMoment};

    ghost fact = { λ held items. AreMovesOfMoment (first_of held) };
}

/// Two passes are at one seat, and compared.
pub(crate) struct Meet;

impl Join<Held> for Meet {
    ghost use Rattle.std.specs.Prelude.{[], ◌++◌};

    ghost both = { λ mine theirs. mine ++ theirs };

    ghost spent = { [] };
}

impl Split<Held> for Meet {
    ghost use Rattle.queue.specs.Inner.Seats.{without_more, without_first};

    ghost left = { λ held. without_more held };

    ghost right = { λ held. without_first held };
}

impl Lesson<Plan, Held> for Meet {
    ghost use Rattle.queue.specs.Inner.Seats.{AreApartAt};

    ghost fact = { λ held items. AreApartAt held };
}
