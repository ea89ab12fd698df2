//! The one who adds to a history.

use crate::front::Front;
use crate::law::{Asked, Head, Law, NoTrade, SeenHistory};
use crate::naming::Naming;
use crate::pens::new_pen;
use crate::stamp::Stamp;
use crate::steps::{Add, Addition, Check, MakePen};
use logbook::Pen;
use rows::Commit;
use std::marker::{Model, PhantomData};
use std::snapshot::Snapshot;

/// The one who adds to the history. Contracts see all commits of the history as a list.
#[derive(Drop)]
pub struct Keeper<J: Naming> {
    pub(crate) head: Head,
    pub(crate) seen: SeenHistory,
    pub(crate) pen: Pen,
    pub(crate) of: PhantomData<J>,
}

impl<J: Naming> Model for Keeper<J> {
    ghost use Rattle.std.specs.Prelude.{◌≡◌, ◌<◌, List, length};
    ghost use Rattle.rows.specs.declared.commit.Commit.{Commit};
    ghost use Rattle.logbook.specs.Pages.{may_write};
    ghost use Rattle.history.specs.Told.{told};
    ghost use Rattle.history.specs.Inner.Rule.{head_of, last_key};

    ghost Value = { List Commit };

    ghost view = { λ k. told k.seen.log };

    ghost invariant = { λ k. (k.head ≡ head_of J.book) × (k.seen.book ≡ J.book) × (k.pen.book ≡ J.book)
        × (k.pen.nib.right ≡ may_write) × (k.pen.nib.key ≡ last_key k.seen.log) × (0 < length k.seen.log) };
}

impl<J: Naming> Keeper<J> {
    ghost use Rattle.std.specs.Prelude.{◌≡◌, ◌∷◌, [], ◌++◌, ◌<◌, length};
    ghost use mathlib.Core.List.{IsPrefix};
    ghost use Rattle.history.specs.Told.{told};

    /// Adds a commit. It cannot fail, since nobody else adds.
    pub fn add(&mut self, commit: &Commit)
        ensures { self.new ≡ self.old ++ commit.now ∷ [] }
    {
        let next = new_pen(&self.head, &self.seen);
        let addition = Addition {
            commit: Snapshot::of(commit),
            pen: Snapshot::of(&next),
        };
        let Keeper {
            head,
            seen,
            pen,
            ..
        } = self;
        let mut asked: Asked = seen.plain::<NoTrade, Addition, Add>(&addition);
        let _ = head.compare_exchange::<Add, NoTrade>(1, 1, seen, &mut asked, pen);
        *pen = next;
    }

    /// A token of all of the history: it is published with the history's last commit.
    pub fn seen(&self) -> SeenHistory
        ensures book { result.book ≡ J.book }
        ensures commits { told result.log ≡ self.now }
        ensures begun { 0 < length result.log }
    {
        self.seen.again()
    }

    /// All of the history, as a front, by the number of its commits.
    #[tactic(auto, using(crate::proofs::Stamps::told_length))]
    pub fn front(&self, len: u64) -> Front<J>
        requires { len ≡ length self.now }
        ensures { result ≡ self.now }
    {
        Front::of(&self.seen, len)
    }

    /// Confirms that a front is a beginning of the keeper's list. Nothing changes.
    pub fn confirm(&mut self, front: &Front<J>)
        ensures same { self.new ≡ self.old }
        ensures begins { IsPrefix front.now self.new }
    {
        let mut all = self.seen.again();
        all.learn(&front.seen);
        let mut asked: Asked = all.plain::<NoTrade, (), MakePen>(&());
        let Keeper { head, pen, .. } = self;
        let _ = head.compare_exchange::<Check, NoTrade>(1, 1, &mut all, &mut asked, pen);
    }
}
