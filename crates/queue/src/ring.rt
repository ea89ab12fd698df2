//! The queue of `crossbeam_queue` under the rule, and its two steps.

ghost use Rattle.std.specs.Prelude.{◌≡◌, [], ◌∷◌, MatchOption, MatchResult};
ghost use Rattle.crossbeam_queue.specs.Passes.{view, IsPassOf};
ghost use Rattle.queue.specs.Apart.{AreApart};
ghost use Rattle.queue.specs.Rule.{first_of, AreMovesOfMoment, Puts, Takes};

use crate::in_order::{Held, InOrder, Meet, Put, Take};
use crossbeam_queue::{Pass, RuledArrayQueue};
use queries::Plan;
use std::sync::Wait;

pub(crate) type Ring = RuledArrayQueue<Plan, Held, InOrder>;

pub(crate) type Seat = Pass<Plan, Held>;

/// Puts a plan at the end, in one step, or returns it.
pub(crate) fn push<R: Wait>(rt: &R, ring: &Ring, seat: &mut Seat, plan: Plan) -> Result<(), Plan>
    requires seat { IsPassOf ring.now seat.old }
    requires one { view seat.old ≡ first_of (view seat.old) ∷ [] }
    ensures seat { IsPassOf ring.now seat.new }
    ensures one { view seat.new ≡ first_of (view seat.new) ∷ [] }
    ensures pushed { MatchResult result
        (λ _. Puts (first_of (view seat.old)) plan (first_of (view seat.new)))
        (λ back. (back ≡ plan) × (view seat.new ≡ view seat.old)) }
{
    ring.push_as::<Put, R>(rt, seat, plan)
}

/// Takes the first plan, in one step, or nothing.
pub(crate) fn pop<R: Wait>(rt: &R, ring: &Ring, seat: &mut Seat) -> Option<Plan>
    requires seat { IsPassOf ring.now seat.old }
    requires one { view seat.old ≡ first_of (view seat.old) ∷ [] }
    ensures seat { IsPassOf ring.now seat.new }
    ensures one { view seat.new ≡ first_of (view seat.new) ∷ [] }
    ensures popped { MatchOption result
        ((view seat.new ≡ view seat.old) × AreMovesOfMoment (first_of (view seat.old)))
        (λ plan. Takes (first_of (view seat.old)) plan (first_of (view seat.new))) }
{
    ring.pop_as::<Take, R>(rt, seat)
}

/// Brings what another seat holds to this one, so that both are known at one moment, and hands it out
/// again at a seat of its own.
pub(crate) fn compare(ring: &Ring, seat: &mut Seat, other: Seat) -> Seat
    requires seats { IsPassOf ring.now seat.old × IsPassOf ring.now other }
    requires one { view seat.old ≡ first_of (view seat.old) ∷ [] }
    requires other { view other ≡ first_of (view other) ∷ [] }
    ensures seats { IsPassOf ring.now seat.new × IsPassOf ring.now result }
    ensures same { (view seat.new ≡ view seat.old) × (view result ≡ view other) }
    ensures apart { AreApart (first_of (view seat.old)) (first_of (view other)) }
{
    ring.absorb::<Meet>(seat, other);
    ring.learn_as::<Meet>(seat);
    ring.another::<Meet>(seat)
}
