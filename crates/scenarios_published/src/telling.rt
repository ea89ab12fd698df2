//! Who tells a list of commits, one by one: the history's keeper and the publisher.

ghost use Rattle.std.specs.Prelude.{◌≡◌, ◌+◌, ◌<◌, ◌^◌, [], ◌∷◌, ◌++◌, length, take, IfSome};
ghost use Rattle.rows.specs.Shape.{shape_of};
ghost use Rattle.journal.specs.Recovery.{IsJournaled};

use history::{Keeper, Opened};
use journal::laws::beginnings_are_journaled;
use left_right::reader::Reader;
use published::{Line, Publication, Published, Publisher, Seat, Shown};
use rows::{Commit, Schema};
use std::alloc::Global;
use std::marker::Model;
use std::sync::Wait;

/// A list of commits, of which the history and the publisher have the first so many.
#[derive(Drop)]
pub struct Telling<L: Line, R: Wait + Drop> {
    commits: Vec<Commit>,
    told: usize,
    keeper: Keeper<L>,
    publisher: Publisher<L, R>,
}

impl<L: Line, R: Wait + Drop> Model for Telling<L, R> {
    ghost use Rattle.std.specs.Prelude.{◌≡◌, ◌≤◌, List, take, length};
    ghost use Rattle.rows.specs.Shape.{shape_of};
    ghost use Rattle.rows.specs.declared.commit.Commit.{Commit};
    ghost use Rattle.journal.specs.Recovery.{IsJournaled};

    ghost Value = { List Commit };

    ghost view = { λ t. t.commits.items };

    ghost invariant = { λ t. IsJournaled L.workers (shape_of L.schema) t.commits.items
        × (t.told ≤ length t.commits.items)
        × (t.keeper ≡ take t.told t.commits.items)
        × (t.publisher.queued ≡ take t.told t.commits.items) };
}

impl<L: Line, R: Wait + Drop> Telling<L, R> {
    /// Nothing is told yet. `None` if it is out of memory.
    pub fn new(
        alloc: Global,
        rt: R,
        opened: Opened,
        schema: &Schema,
        commits: Vec<Commit>,
        readers: usize,
    ) -> Option<Telling<L, R>>
        requires book { opened.seen.book ≡ L.book }
        requires schema { schema.now ≡ L.schema }
        requires legal { IsJournaled L.workers (shape_of L.schema) commits.items }
        requires readers { (0 < readers) × (readers < 2 ^ 32) }
    {
        let keeper = opened.named::<L>();
        let Ok(publisher) = Publisher::new(alloc, rt, schema, &keeper.seen(), readers) else {
            return None;
        };
        Some(Telling {
            commits,
            told: 0,
            keeper,
            publisher,
        })
    }

    /// A reader of what is published; `None` if each place is in use, or out of memory.
    pub fn reader(&self) -> Option<Reader<Shown, (), Published<L>>> {
        self.publisher.reader().ok()
    }

    /// A seat that has seen what is told; `None` if each place is in use, or out of memory.
    pub fn seat(&self) -> Option<Seat<L>> {
        beginnings_are_journaled();
        let reader = self.reader()?;
        Some(Seat::new(reader, self.keeper.front(self.told as u64)))
    }

    /// All commits, told or not.
    pub fn commits(&self) -> &[Commit] {
        self.commits.as_slice()
    }

    /// How many commits are told.
    pub fn told(&self) -> usize {
        self.told
    }

    /// Tells the next commit, if there is one left. A request for memory that is refused is made once
    /// more; `None` if it is refused again.
    pub fn told_next(self) -> Option<Telling<L, R>> {
        let Telling {
            commits,
            told,
            mut keeper,
            mut publisher,
        } = self;
        if told >= commits.len() {
            return Some(Telling {
                commits,
                told,
                keeper,
                publisher,
            });
        }
        let commit = next_of::<L>(commits.as_slice(), told)?;
        keeper.add(&commit);
        let publication = Publication {
            commit,
            seen: keeper.seen(),
        };
        if let Err(back) = publisher.push(publication) {
            if publisher.push(back).is_err() {
                return None;
            }
        }
        Some(Telling {
            commits,
            told: told + 1,
            keeper,
            publisher,
        })
    }

    /// Publishes what is told, and answers whether there was memory for it.
    pub fn publish(&mut self) -> bool {
        self.publisher.publish()
    }

    /// Tells and publishes the next commit. `None` if it is out of memory.
    pub fn published_next(self) -> Option<Telling<L, R>> {
        let mut telling = self.told_next()?;
        if !telling.publish() {
            return None;
        }
        Some(telling)
    }

    /// Publishes so many commits, each by itself. `None` if it is out of memory.
    pub fn published_each(self, count: u64) -> Option<Telling<L, R>> {
        let mut telling = self;
        for _ in 0..count {
            telling = telling.published_next()?;
        }
        Some(telling)
    }
}

/// A copy of the commit behind so many; `None` if memory is refused twice.
fn next_of<L: Line>(commits: &[Commit], told: usize) -> Option<Commit>
    requires legal { IsJournaled L.workers (shape_of L.schema) commits.now }
    requires more { told < length commits.now }
    ensures next { IfSome result (λ commit. take (told + 1) commits.now ≡ take told commits.now ++ commit ∷ []) }
    ensures legal { IfSome result (λ commit. IsJournaled L.workers (shape_of L.schema) (take told commits.now ++ commit ∷ [])) }
{
    beginnings_are_journaled();
    copy_of(&commits[told])
}

/// A copy of a commit, asked for once more if memory is refused; `None` if it is refused again.
fn copy_of(commit: &Commit) -> Option<Commit>
    ensures { IfSome result (λ copy. copy ≡ commit.now) }
{
    match copied(commit) {
        Some(copy) => Some(copy),
        None => copied(commit),
    }
}

/// A copy of a commit; `None` if memory is refused.
fn copied(commit: &Commit) -> Option<Commit>
    ensures { IfSome result (λ copy. copy ≡ commit.now) }
{
    match commit.clone() {
        Ok(copy) => Some(copy),
        Err(_) => None,
    }
}
