//! Drawn calls on a keeper and four fronts, against a plain list of how many commits each has.

ghost use Rattle.std.specs.Prelude.{◌≡◌, ◌<◌, ◌^◌, length};

use history::{Front, Keeper, Naming, Opened};
use rows::{Commit, EntryList};
use scenarios_common::drawn_numbers::draw;
use std::alloc::Global;
use std::marker::Brand;
use std::test::Fail;

/// Fronts.
const FRONTS: usize = 4;

/// A keeper, and how many commits it has added.
#[derive(Drop)]
struct Counted<J: Naming> {
    keeper: Keeper<J>,
    len: u64,
    ghost counted: { len ≡ length keeper },
}

impl<J: Naming> Counted<J> {
    /// Adds a commit, unless there are too many.
    fn add(&mut self, commit: &Commit) {
        if self.len < u64::MAX {
            self.keeper.add(commit);
            self.len += 1;
        }
    }

    fn front(&self) -> Front<J> {
        self.keeper.front(self.len)
    }
}

/// A front follows another; whether it does so exactly where that one is no shorter.
fn follows<J: Naming>(
    fronts: &mut [Front<J>; FRONTS],
    plain: &mut [u64; FRONTS],
    i: usize,
    j: usize,
) -> bool
    requires { (i < 4) × (j < 4) }
{
    let other = fronts[j].again();
    let is_due = plain[j] >= plain[i];
    if is_due {
        plain[i] = plain[j];
    }
    fronts[i].follow(other) == is_due
}

/// Two fronts meet.
fn meets<J: Naming>(fronts: &mut [Front<J>; FRONTS], plain: &mut [u64; FRONTS], i: usize, j: usize)
    requires { (i < 4) × (j < 4) }
{
    let mut other = fronts[j].again();
    fronts[i].meet(&mut other);
    fronts[j] = other;
    let longer = plain[i].max(plain[j]);
    plain[i] = longer;
    plain[j] = longer;
}

/// One drawn call; whether it answers what it has to.
fn step<J: Naming>(
    seed: &mut u64,
    counted: &mut Counted<J>,
    fronts: &mut [Front<J>; FRONTS],
    plain: &mut [u64; FRONTS],
    commit: &Commit,
) -> bool {
    let i = draw(seed, FRONTS);
    let j = draw(seed, FRONTS);
    match draw(seed, 5) {
        0 => {
            counted.add(commit);
            true
        }
        1 => {
            plain[i] = counted.len;
            fronts[i].follow(counted.front())
        }
        2 => follows(fronts, plain, i, j),
        3 => {
            meets(fronts, plain, i, j);
            true
        }
        _ => {
            counted.keeper.confirm(&fronts[i]);
            true
        }
    }
}

/// Whether each front has as many commits as the plain list says.
fn are_as_plain<J: Naming>(fronts: &[Front<J>; FRONTS], plain: &[u64; FRONTS]) -> bool {
    for i in 0..FRONTS {
        if fronts[i].len() != plain[i] || fronts[i].is_empty() != (plain[i] == 0) {
            return false;
        }
    }
    true
}

/// The first of so many drawn calls after which something is not as it has to be.
fn first_wrong<J: Naming>(
    counted: &mut Counted<J>,
    fronts: &mut [Front<J>; FRONTS],
    commit: &Commit,
    mut seed: u64,
    steps: usize,
) -> Option<usize> {
    let mut plain = [0; FRONTS];
    for number in 0..steps {
        if !step(&mut seed, counted, fronts, &mut plain, commit) {
            return Some(number);
        }
        if !are_as_plain(fronts, &plain) {
            return Some(number);
        }
    }
    None
}

/// Drawn calls on a new history; how many commits it has at the end.
fn played<J: Naming>(
    alloc: Global,
    opened: Opened,
    seed: u64,
    steps: usize,
) -> Result<u64, Option<usize>>
    requires { opened.seen.book ≡ J.book }
{
    let commit = Commit {
        worker: 0,
        entries: EntryList::new(alloc),
    };
    let mut counted: Counted<J> = Counted {
        keeper: opened.named::<J>(),
        len: 0,
    };
    let mut fronts = [
        counted.front(),
        counted.front(),
        counted.front(),
        counted.front(),
    ];
    match first_wrong(&mut counted, &mut fronts, &commit, seed, steps) {
        Some(number) => Err(Some(number)),
        None => Ok(counted.len),
    }
}

/// Drawn calls on a new history, which is always there.
fn played_on_new(alloc: Global, seed: u64, steps: usize) -> Result<u64, Option<usize>> {
    match Opened::new() {
        Some(opened) => played::<Brand>(alloc, opened, seed, steps),
        None => Err(None),
    }
}

#[test]
fn drawn_calls_are_as_on_plain_lists(rt: HostRuntime) -> Result<(), Fail> {
    for seed in 0..100 {
        let found = played_on_new(rt.alloc(), seed, 1000);
        assert!(rt; matches!(found, Ok(len) if len > 100));
    }
    Ok(())
}
