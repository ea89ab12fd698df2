//! A new history.

ghost use Rattle.std.specs.Prelude.{◌≡◌, [], length, IfSome};
ghost use Rattle.logbook.specs.Pages.{may_write};
ghost use Rattle.history.specs.Told.{told};
ghost use Rattle.history.specs.Inner.Rule.{head_of, last_key};

use crate::keeper::Keeper;
use crate::law::{Asked, Head, NoTrade, SeenHistory};
use crate::naming::Naming;
use crate::pens::new_pen;
use crate::steps::Begin;
use logbook::{Pen, Seen, Start, Word};
use std::marker::PhantomData;
use std::snapshot::Snapshot;

/// A history without commits, which has no name yet. Contracts know it by `seen.book`.
#[derive(Drop)]
pub struct Opened {
    head: Head,
    pub seen: SeenHistory,
    pen: Pen,
    ghost head_is: { head ≡ head_of seen.book },
    ghost pen_is: { (pen.book ≡ seen.book) × (pen.nib.right ≡ may_write) × (pen.nib.key ≡ last_key seen.log) },
    ghost begun: { length seen.log ≡ 1 },
}

impl Opened {
    /// A history without commits. It is always `Some`: for `None`, another thread would have to
    /// begin the same history at the same moment, and no other thread knows of it. No contract
    /// states this.
    pub fn new() -> Option<Opened>
        ensures { IfSome result (λ opened. told opened.seen.log ≡ []) }
    {
        let (mut seen, mut first, _second) = Seen::open(Start::alone(), 0, 0);
        let head = Word::tracked(0, &mut first);
        let pen = new_pen(&head, &seen);
        let mut asked: Asked = seen.plain::<NoTrade, Snapshot<Pen>, Begin>(&Snapshot::of(&pen));
        let mut no_pen = seen.no_pen();
        let found = head.compare_exchange::<Begin, NoTrade>(
            0,
            1,
            &mut seen,
            &mut asked,
            &mut no_pen,
        );
        if found != 0 {
            return None;
        }
        Some(Opened { head, seen, pen })
    }

    /// The one keeper of the history, under its name.
    pub fn named<J: Naming>(self) -> Keeper<J>
        requires { self.seen.book ≡ J.book }
        ensures { result ≡ [] }
    {
        let Opened { head, seen, pen } = self;
        Keeper {
            head,
            seen,
            pen,
            of: PhantomData,
        }
    }
}
