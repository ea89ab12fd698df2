//! Which line a seat is of, and the rule of what the line publishes.

use crate::shown::Shown;
use crossbeam_utils::rule::{Outcome, Protocol};
use history::Naming;
use std::marker::{Brand, PhantomData};

/// Which line it is: its history, its schema and its number of workers. Each call of a program
/// determines it.
pub trait Line: Naming {
    ghost use Rattle.std.specs.Prelude.{List, ℕ};
    ghost use Rattle.rows.specs.declared.kind.Kind.{Kind};

    ghost schema: { List (List ℕ × List Kind) };

    ghost workers: { ℕ };
}

impl Line for Brand {
    ghost use Rattle.std.specs.Prelude.{[]};

    ghost schema = { [] };

    ghost workers = { 0 };
}

/// The rule of what is published: it belongs to this line.
pub struct Published<L: Line> {
    line: PhantomData<L>,
}

impl<L: Line> Protocol<Shown, ()> for Published<L> {
    ghost use Rattle.published.specs.Publishing.{IsOfLine};

    ghost holds = { λ shown views. IsOfLine L.book L.schema L.workers shown };

    ghost first = { tt };
}

/// What a reader finds, or a publication leaves: what is then published belongs to this line.
pub struct Sees<L: Line> {
    line: PhantomData<L>,
}

impl<L: Line> Outcome<Shown, ()> for Sees<L> {
    ghost use Rattle.published.specs.Publishing.{IsOfLine};

    ghost then = { λ before old new after. IsOfLine L.book L.schema L.workers new };
}
