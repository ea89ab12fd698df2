//! The steps on the first word: what each asks for, and what it shows.

use crate::stamp::Stamp;
use logbook::{Pen, Plain, Play};
use rows::Commit;
use std::snapshot::Snapshot;

/// What to add: this commit, in a stamp that names this pen.
#[derive(Drop)]
pub(crate) struct Addition {
    pub(crate) commit: Snapshot<Commit>,
    pub(crate) pen: Snapshot<Pen>,
}

/// A step that makes a pen.
pub(crate) struct MakePen;

impl Play<Stamp, u64> for MakePen {
    ghost use Rattle.history.specs.Inner.Steps.{MakesPen};

    ghost then = { MakesPen };
}

impl Plain<(), Stamp, u64> for MakePen {
    ghost use Rattle.std.specs.Prelude.{[], None};

    ghost ask = { λ nothing. record { commit = record { worker = 0; entries = [] }; next = 0 } };

    ghost state = { λ nothing. None };
}

/// A step that adds the first stamp, whose commit does not count.
pub(crate) struct Begin;

impl Play<Stamp, u64> for Begin {
    ghost use Rattle.history.specs.Inner.Steps.{Begins};

    ghost then = { Begins };
}

impl Plain<Snapshot<Pen>, Stamp, u64> for Begin {
    ghost use Rattle.std.specs.Prelude.{[], None};

    ghost ask = { λ pen. record { commit = record { worker = 0; entries = [] }; next = pen.value.nib.key } };

    ghost state = { λ pen. None };
}

/// A step that adds a commit.
pub(crate) struct Add;

impl Play<Stamp, u64> for Add {
    ghost use Rattle.history.specs.Inner.Steps.{Adds};

    ghost then = { Adds };
}

impl Plain<Addition, Stamp, u64> for Add {
    ghost use Rattle.std.specs.Prelude.{None};

    ghost ask = { λ addition. record { commit = addition.commit.value; next = addition.pen.value.nib.key } };

    ghost state = { λ addition. None };
}

/// A step that changes nothing, and shows that the keeper has seen everything.
pub(crate) struct Check;

impl Play<Stamp, u64> for Check {
    ghost use Rattle.history.specs.Inner.Steps.{Checks};

    ghost then = { Checks };
}
