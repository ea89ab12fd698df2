//! A keeper that adds 10,000 commits while two threads read how far it is, by the front that lies
//! under a lock.

ghost use Rattle.std.specs.Prelude.{◌≡◌, [], length};

use history::{Front, Keeper, Naming, Opened};
use rows::{Commit, EntryList};
use std::alloc::Global;
use std::marker::Brand;
use std::sync::{Mutex, Wait};
use std::test::Fail;
use std::thread;
use std::thread::{Threads, join};

/// Commits that are added.
const COMMITS: u64 = 10_000;

/// Adds all commits, and shows each as soon as it is added. Whether what is shown was never longer.
fn add_all<J: Naming, R: Wait>(
    rt: &R,
    keeper: &mut Keeper<J>,
    shown: &Mutex<Front<J>>,
    commit: &Commit,
) -> bool
    requires { keeper.old ≡ [] }
{
    for number in 0..COMMITS {
        keeper.add(commit);
        if !shown.lock(rt).follow(keeper.front(number + 1)) {
            return false;
        }
    }
    true
}

/// Reads what is shown until it is all. Whether it was never shorter than what had been seen.
fn read_all<J: Naming, R: Wait>(rt: &R, shown: &Mutex<Front<J>>, mine: &mut Front<J>) -> bool {
    for _ in rt.forever() {
        let now = shown.lock(rt).again();
        if !mine.follow(now) {
            return false;
        }
        if mine.len() >= COMMITS {
            return true;
        }
        thread::yield_now();
    }
    unreachable!()
}

/// Two readers in threads of their own.
fn read_by_two<J: Naming + Send + Sync, R: Threads + Wait + Sync>(
    rt: &R,
    shown: &Mutex<Front<J>>,
    one: &mut Front<J>,
    other: &mut Front<J>,
) -> bool {
    let (is_read, is_too) = join(
        rt,
        || read_all(rt, shown, one),
        || read_all(rt, shown, other),
    );
    is_read && is_too
}

/// A keeper adds while two readers read, and then all meet. Whether each saw all, and none went back.
fn is_seen_by_all<J: Naming + Send + Sync, R: Threads + Wait + Sync>(
    rt: &R,
    alloc: Global,
    opened: Opened,
) -> bool
    requires { opened.seen.book ≡ J.book }
{
    let commit = Commit {
        worker: 0,
        entries: EntryList::new(alloc),
    };
    let mut keeper = opened.named::<J>();
    let mut one = keeper.front(0);
    let mut other = one.again();
    let shown = Mutex::new(one.again());
    let (is_added, are_read) = join(
        rt,
        || -> bool
            requires { keeper ≡ [] }
        { add_all(rt, &mut keeper, &shown, &commit) },
        || read_by_two(rt, &shown, &mut one, &mut other),
    );
    one.meet(&mut other);
    keeper.confirm(&one);
    is_added && are_read && one.len() == COMMITS && other.len() == COMMITS
}

/// The same on a new history, which is always there.
fn is_new_seen_by_all<R: Threads + Wait + Sync>(rt: &R, alloc: Global) -> bool {
    match Opened::new() {
        Some(opened) => is_seen_by_all::<Brand, R>(rt, alloc, opened),
        None => false,
    }
}

#[test]
fn readers_see_a_history_grow(rt: HostRuntime) -> Result<(), Fail> {
    assert!(rt; is_new_seen_by_all(&rt, rt.alloc()));
    Ok(())
}
