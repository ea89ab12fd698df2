//! What a thread has seen of a history.

use crate::law::SeenHistory;
use crate::naming::Naming;
use std::marker::{Model, PhantomData};

/// A beginning of the history. Contracts see it as the list of its commits; at run time it is their
/// number.
#[derive(Drop)]
pub struct Front<J: Naming> {
    pub(crate) seen: SeenHistory,
    len: u64,
    of: PhantomData<J>,
}

impl<J: Naming> Model for Front<J> {
    ghost use Rattle.std.specs.Prelude.{◌≡◌, ◌+◌, List, length};
    ghost use Rattle.rows.specs.declared.commit.Commit.{Commit};
    ghost use Rattle.history.specs.Told.{told};

    ghost Value = { List Commit };

    ghost view = { λ f. told f.seen.log };

    ghost invariant = { λ f. (f.seen.book ≡ J.book) × (length f.seen.log ≡ f.len + 1) };
}

impl<J: Naming> Front<J> {
    ghost use Rattle.std.specs.Prelude.{◌≡◌, ◌==◌, ◌+◌, ◌<◌, ◌⊎◌, length, MatchBool};
    ghost use mathlib.Core.List.{IsPrefix};
    ghost use Rattle.history.specs.Told.{told};

    /// A front from a token of the history, by the number of its commits (its log has one stamp
    /// more).
    pub fn of(seen: &SeenHistory, len: u64) -> Front<J>
        requires book { seen.now.book ≡ J.book }
        requires len { length seen.now.log ≡ len + 1 }
        ensures { result ≡ told seen.now.log }
    {
        Front {
            seen: seen.again(),
            len,
            of: PhantomData,
        }
    }

    /// How many commits it has.
    pub fn len(&self) -> u64
        ensures { result ≡ length self.now }
    {
        self.len
    }

    /// Whether it has no commit.
    pub fn is_empty(&self) -> bool
        ensures { result ≡ (length self.now == 0) }
    {
        self.len == 0
    }

    /// A copy of the front.
    pub fn again(&self) -> Front<J>
        ensures { result ≡ self.now }
    {
        Front {
            seen: self.seen.again(),
            len: self.len,
            of: PhantomData,
        }
    }

    /// Becomes the other front if that is no shorter, and answers whether it did.
    pub fn follow(&mut self, other: Front<J>) -> bool
        ensures { MatchBool result
            ((self.new ≡ other) × IsPrefix self.old self.new)
            ((self.new ≡ self.old) × (length other < length self.old)) }
    {
        let mut both = self.seen.again();
        both.learn(&other.seen);
        if other.len < self.len {
            return false;
        }
        *self = other;
        true
    }

    /// Both become the longer of the two.
    pub fn meet(&mut self, other: &mut Front<J>)
        ensures one { self.new ≡ other.new }
        ensures either { (self.new ≡ self.old) ⊎ (self.new ≡ other.old) }
        ensures mine { IsPrefix self.old self.new }
        ensures theirs { IsPrefix other.old self.new }
    {
        if !self.follow(other.again()) {
            let _ = other.follow(self.again());
        }
    }
}
