//! The part of the durable list that a line has told: the history that seats know beginnings of,
//! and what is published.

ghost use Rattle.std.specs.Prelude.{◌≡◌, ◌+◌, ◌<◌, ◌^◌, [], ◌∷◌, ◌++◌, length, IfOk, IfSome, MatchBool};
ghost use mathlib.Core.List.{IsPrefix};
ghost use Rattle.rows.specs.Shape.{shape_of};
ghost use Rattle.journal.specs.Recovery.{IsJournaled};

use history::{Keeper, Opened};
use published::{Line, Publication, Publisher};
use rows::{Commit, Schema};
use std::alloc::{AllocError, Global};
use std::marker::Model;
use std::sync::Wait;

/// It tells the durable commits one after the other: adds each to the history, and then to what
/// will be published. A commit that is in the history, but for which there was no memory in what
/// will be published, waits, and is the first of the next publication.
#[derive(Drop)]
pub(crate) struct Telling<L: Line, R: Wait + Drop> {
    keeper: Keeper<L>,
    told: u64,
    publisher: Publisher<L, R>,
    shown: u64,
    waiting: Option<Publication>,
}

impl<L: Line, R: Wait + Drop> Model for Telling<L, R> {
    ghost use Rattle.std.specs.Prelude.{◌≡◌, length};
    ghost use mathlib.Core.List.{IsPrefix};
    ghost use Rattle.rows.specs.Shape.{shape_of};
    ghost use Rattle.journal.specs.Recovery.{IsJournaled};
    ghost use Rattle.desk.specs.Inner.Told.{Told, Waits};

    ghost Value = { Told };

    ghost view = { λ t. record { all = t.keeper; queued = t.publisher.queued; shown = t.publisher.shown } };

    ghost invariant = { λ t. (t.told ≡ length t.keeper) × (t.shown ≡ length t.publisher.shown)
        × IsJournaled L.workers (shape_of L.schema) t.keeper × IsPrefix t.publisher.shown t.keeper
        × Waits L.book t.publisher.queued t.keeper t.waiting };
}

impl<L: Line, R: Wait + Drop> Telling<L, R> {
    /// Nothing is told yet. Fails only if out of memory.
    pub fn new(
        alloc: Global,
        rt: R,
        opened: Opened,
        schema: &Schema,
        readers: usize,
    ) -> Result<Telling<L, R>, AllocError>
        requires book { opened.seen.book ≡ L.book }
        requires schema { schema.now ≡ L.schema }
        requires readers { (0 < readers) × (readers < 2 ^ 32) }
        ensures { IfOk result (λ t. (t.all ≡ []) × (t.queued ≡ []) × (t.shown ≡ [])) }
    {
        journal::laws::beginnings_are_journaled();
        let keeper = opened.named::<L>();
        let publisher = Publisher::new(alloc, rt, schema, &keeper.seen(), readers)?;
        Ok(Telling {
            keeper,
            told: 0,
            publisher,
            shown: 0,
            waiting: None,
        })
    }

    /// A seat that has seen everything that is told; `None` if each place of a reader is in use, or
    /// if out of memory.
    pub fn seat(&self) -> Option<published::Seat<L>>
        ensures { IfSome result (λ seat. seat ≡ self.now.all) }
    {
        let reader = self.publisher.reader().ok()?;
        Some(published::Seat::new(reader, self.keeper.front(self.told)))
    }

    /// Publishes these commits, which are all durable ones, as far as they are not published yet,
    /// and answers whether there was memory for it.
    pub fn publish(&mut self, durable: &[Commit]) -> bool
        requires begins { IsPrefix self.old.all durable.now }
        requires legal { IsJournaled L.workers (shape_of L.schema) durable.now }
        requires numbered { length durable.now < 2 ^ 64 }
        requires shown { IsPrefix self.old.shown self.old.all }
        ensures later { IsPrefix self.old.all self.new.all }
        ensures begins { IsPrefix self.new.all durable.now }
        ensures all { MatchBool result ((self.new.all ≡ durable.now) × (self.new.shown ≡ durable.now)) (Unit {0}) }
        ensures shown { IsPrefix self.new.shown self.new.all }
    {
        if !self.tell_all(durable) {
            return false;
        }
        self.show()
    }

    /// Publishes everything that is told, if no commit waits; answers whether there was memory for
    /// it.
    fn show(&mut self) -> bool
        requires { self.old.queued ≡ self.old.all }
        ensures same { (self.new.all ≡ self.old.all) × (self.new.queued ≡ self.old.queued) }
        ensures shown { MatchBool result (self.new.shown ≡ self.new.all) (self.new.shown ≡ self.old.shown) }
    {
        if self.shown == self.told {
            return true;
        }
        if !self.publisher.publish() {
            return false;
        }
        self.shown = self.told;
        true
    }

    /// Tells all of these commits; answers whether there was memory for it.
    fn tell_all(&mut self, durable: &[Commit]) -> bool
        requires begins { IsPrefix self.old.all durable.now }
        requires legal { IsJournaled L.workers (shape_of L.schema) durable.now }
        requires numbered { length durable.now < 2 ^ 64 }
        ensures later { IsPrefix self.old.all self.new.all }
        ensures begins { IsPrefix self.new.all durable.now }
        ensures all { MatchBool result ((self.new.all ≡ durable.now) × (self.new.queued ≡ self.new.all)) (Unit {0}) }
        ensures shown { self.new.shown ≡ self.old.shown }
    {
        if !self.push_waiting() {
            return false;
        }
        journal::laws::beginnings_are_journaled();
        for index in self.told as usize..durable.len() {
            let Some(commit) = copied(&durable[index]) else {
                return false;
            };
            if !self.tell(commit) {
                return false;
            }
        }
        true
    }

    /// Adds the waiting commit to what will be published; answers whether there was memory for it.
    fn push_waiting(&mut self) -> bool
        ensures same { (self.new.all ≡ self.old.all) × (self.new.shown ≡ self.old.shown) }
        ensures none { MatchBool result (self.new.queued ≡ self.new.all) (Unit {0}) }
    {
        let Some(publication) = self.waiting.take() else {
            return true;
        };
        match self.publisher.push(publication) {
            Ok(()) => true,
            Err(publication) => {
                self.waiting = Some(publication);
                false
            }
        }
    }

    /// Tells the next commit; answers whether there was memory for it.
    fn tell(&mut self, commit: Commit) -> bool
        requires none { self.old.queued ≡ self.old.all }
        requires legal { IsJournaled L.workers (shape_of L.schema) (self.old.all ++ commit ∷ []) }
        requires numbered { length self.old.all + 1 < 2 ^ 64 }
        ensures all { self.new.all ≡ self.old.all ++ commit ∷ [] }
        ensures none { MatchBool result (self.new.queued ≡ self.new.all) (Unit {0}) }
        ensures shown { self.new.shown ≡ self.old.shown }
    {
        self.keeper.add(&commit);
        self.told += 1;
        let publication = Publication {
            commit,
            seen: self.keeper.seen(),
        };
        match self.publisher.push(publication) {
            Ok(()) => true,
            Err(publication) => {
                self.waiting = Some(publication);
                false
            }
        }
    }

    /// Confirms that a seat's list is a beginning of what is told. Nothing changes.
    pub fn confirm(&mut self, seat: &published::Seat<L>)
        ensures same { self.new ≡ self.old }
        ensures begins { IsPrefix seat.now self.new.all }
    {
        self.keeper.confirm(seat.front());
    }

    /// Shows a seat everything that is told.
    pub fn teach(&self, seat: &mut published::Seat<L>)
        requires { IsPrefix seat.old self.now.all }
        ensures { seat.new ≡ self.now.all }
    {
        seat.learn(self.keeper.front(self.told));
    }
}

/// A copy of a commit; `None` if out of memory.
fn copied(commit: &Commit) -> Option<Commit>
    ensures { IfSome result (λ copy. copy ≡ commit.now) }
{
    match commit.clone() {
        Ok(copy) => Some(copy),
        Err(_) => None,
    }
}
