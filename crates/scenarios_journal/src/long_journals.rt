//! What it takes to recover long journals, of commits of one insert each. A test recovers a short one with
//! rising identifiers and one with mixed ones, and prints the microseconds of each; `bench/recovery` names one
//! run, which it then does with many commits. What passes is that all commits are recovered.

use crate::journal_bytes::outcome;
use scenarios_journal_common::journal_cases::{JOURNAL_HEADER, JOURNAL_RECORD};
use std::alloc::Global;
use std::env;
use std::rt::{Clock, Env};
use std::test::Fail;
use std::time::Instant;

/// In which order the identifiers come.
#[derive(Clone, Copy, PartialEq)]
enum Order {
    Rising,
    /// In no order, and over all numbers of 64 bits.
    Mixed,
}

/// A run: the word for it, the order of its identifiers, how many commits its journal has, and whether that is
/// recovered; `bench/recovery` subtracts the memory of one that is only made.
#[derive(Clone, Copy)]
struct Run {
    word: &'static str,
    order: Order,
    commits: u32,
    recovers: bool,
}

/// All runs that can be named.
static RUNS: [Run; 5] = [
    Run {
        word: "rising 500000",
        order: Order::Rising,
        commits: 500_000,
        recovers: true,
    },
    Run {
        word: "rising 1000000",
        order: Order::Rising,
        commits: 1_000_000,
        recovers: true,
    },
    Run {
        word: "mixed 500000",
        order: Order::Mixed,
        commits: 500_000,
        recovers: true,
    },
    Run {
        word: "mixed 1000000",
        order: Order::Mixed,
        commits: 1_000_000,
        recovers: true,
    },
    Run {
        word: "made 1000000",
        order: Order::Mixed,
        commits: 1_000_000,
        recovers: false,
    },
];

/// The runs where none is named.
static SHORT: [Run; 2] = [
    Run {
        word: "",
        order: Order::Rising,
        commits: 1_000,
        recovers: true,
    },
    Run {
        word: "",
        order: Order::Mixed,
        commits: 1_000,
        recovers: true,
    },
];

/// A number for another one, so that different ones stay different, and neighbours are far apart.
fn mixed(number: u64) -> u64 {
    let number = (number ^ (number >> 30)).wrapping_mul(0xbf58_476d_1ce4_e5b9);
    let number = (number ^ (number >> 27)).wrapping_mul(0x94d0_49bb_1331_11eb);
    number ^ (number >> 31)
}

/// A journal of so many commits, each of which inserts one row.
fn journal_of(alloc: Global, order: Order, commits: u32) -> Result<Vec<u8>, Fail> {
    let mut bytes = Vec::from_slice(alloc, &JOURNAL_HEADER)?;
    for commit in 0..commits {
        push_commit(&mut bytes, order, u64::from(commit) + 1)?;
    }
    Ok(bytes)
}

/// Adds the record of the commit of that number.
fn push_commit(bytes: &mut Vec<u8>, order: Order, number: u64) -> Result<(), Fail> {
    let row = if order == Order::Mixed {
        mixed(number)
    } else {
        number
    };
    let mut record = JOURNAL_RECORD;
    record[5..13].copy_from_slice(&number.to_be_bytes());
    record[17..25].copy_from_slice(&row.to_be_bytes());
    bytes.extend_from_slice(&record)?;
    Ok(())
}

/// How many microseconds it takes to recover a journal of so many commits, each of whose records has 43 bytes
/// behind the 9 of the header. `None` if something else is recovered, or the clock fails.
fn recovered_timed<R: Clock>(
    rt: &R,
    alloc: Global,
    bytes: &[u8],
    commits: u32,
) -> Result<Option<u128>, Fail> {
    let start = Instant::now(rt);
    let recovered = outcome(alloc, bytes)?;
    let end = Instant::now(rt);
    if recovered != Ok((commits as usize, u64::from(commits) * 43 + 9)) {
        return Ok(None);
    }
    let (Ok(start), Ok(end)) = (start, end) else {
        return Ok(None);
    };
    Ok(Some(end.duration_since(start).as_micros()))
}

/// How many microseconds a run takes; none if its journal is only made.
fn timed<R: Clock>(rt: &R, alloc: Global, run: Run) -> Result<Option<u128>, Fail> {
    let bytes = journal_of(alloc, run.order, run.commits)?;
    if !run.recovers {
        return Ok(Some(0));
    }
    recovered_timed(rt, alloc, bytes.as_slice(), run.commits)
}

/// Whether the environment names the run.
fn is_named<R: Env + Alloc>(rt: &R, run: Run) -> bool {
    match env::var(rt, "RUN") {
        Ok(word) => word.as_str() == run.word,
        Err(_) => false,
    }
}

/// The run that the environment names.
fn named<R: Env + Alloc>(rt: &R) -> Option<Run> {
    for run in RUNS {
        if is_named(rt, run) {
            return Some(run);
        }
    }
    None
}

#[test]
fn long_journals_in_each_order(rt: HostRuntime) -> Result<(), Fail> {
    if let Some(run) = named(&rt) {
        let taken = timed(&rt, rt.alloc(), run)?.ok_or("not recovered")?;
        println!(rt; "{taken}")?;
        return Ok(());
    }
    for run in SHORT {
        let taken = timed(&rt, rt.alloc(), run)?.ok_or("not recovered")?;
        println!(rt; "{taken}")?;
    }
    Ok(())
}
