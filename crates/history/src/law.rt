//! The rule of the log, and what its callers get from it.

use crate::stamp::Stamp;
use logbook::{Gain, Offer, Rule, Seen, Word};

/// The rule: whoever has the pen that the last stamp names adds the next one.
pub struct Law;

impl Rule<Stamp, u64> for Law {
    ghost use Rattle.std.specs.Prelude.{[]};
    ghost use base.Fml.{ftrue};
    ghost use Rattle.history.specs.Inner.Rule.{IsHistory};

    ghost holds = { λ cells log. IsHistory cells log };

    ghost first = { [] };

    ghost hinted = { λ n log. Unit {0} };

    ghost shows = { λ log. [] };

    ghost keeps = { λ names log. ftrue };

    ghost moves = { λ asked before after answer. Unit {0} };
}

/// What was seen of a history: a token without bytes, which any thread may copy (`again`).
/// Contracts see its `book` and the `log` that was reached, whose commits are `told log`.
pub type SeenHistory = Seen<Stamp, u64, Law>;

/// The first word of a history, on which every step is made.
pub(crate) type Head = Word<Stamp, u64, Law>;

/// What a step asks for.
pub(crate) type Asked = Offer<Stamp, u64, Law, NoTrade>;

/// A step hands out nothing besides what its contract states.
pub(crate) struct NoTrade;

impl Gain<Stamp, u64> for NoTrade {
    ghost use base.Fml.{ftrue};

    ghost after = { λ names about answer. ftrue };
}
