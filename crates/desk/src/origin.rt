//! What a line was made with.

use published::Line;
use std::marker::Brand;
use std::sync::ledger::Ledger;

/// What a line was made with: the primary, and the number of seats. Each call of a program
/// determines it.
pub trait Origin: Line + Ledger {
    ghost use Rattle.std.specs.Prelude.{ℕ};
    ghost use Rattle.primary.specs.State.{Primary};

    ghost first: { Primary };

    ghost seats: { ℕ };
}

impl Origin for Brand {
    ghost use Rattle.std.specs.Prelude.{[], false};

    ghost first = { record { schema = []; workers = 0; durable = []; pending = []; failed = false; base = 0 } };

    ghost seats = { 0 };
}
