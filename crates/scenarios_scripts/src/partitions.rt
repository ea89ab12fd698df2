//! The same scripts on replicas whose stores have other numbers of partitions.

use crate::long_scripts::SCRIPTS;
use crate::scripts::printed;
use script::write_text_of;
use std::alloc::Global;
use std::test::Fail;
use std::thread::Threads;
use world::{Output, read_script, run_on};

/// Numbers of partitions, beside the 8 of a script that is run.
const PARTITIONS: [usize; 4] = [1, 2, 7, 64];

/// What the events of a script answer if its replicas' stores have so many partitions.
fn outputs_on<R: Threads + Sync>(
    rt: &R,
    alloc: Global,
    script: &[u8],
    partitions: usize,
) -> Result<Vec<Output>, Fail> {
    let (setup, events) = read_script(alloc, script)?;
    Ok(run_on(rt, alloc, partitions, &setup, events.as_slice())?)
}

/// Whether these answers are printed as this text.
fn are_printed_as(alloc: Global, outputs: &[Output], text: &[u8]) -> Result<bool, Fail> {
    let mut other = Vec::new(alloc);
    write_text_of(alloc, &mut other, outputs)?;
    Ok(other.as_slice() == text)
}

/// Whether a script prints this text on so many partitions.
fn prints_on<R: Threads + Sync>(
    rt: &R,
    alloc: Global,
    script: &[u8],
    partitions: usize,
    text: &[u8],
) -> Result<bool, Fail> {
    let outputs = outputs_on(rt, alloc, script, partitions)?;
    Ok(are_printed_as(alloc, outputs.as_slice(), text)?)
}

/// Whether a script prints this text on each of these numbers of partitions.
fn prints_on_each<R: Threads + Sync>(
    rt: &R,
    alloc: Global,
    script: &[u8],
    text: &[u8],
) -> Result<bool, Fail> {
    for partitions in PARTITIONS {
        if !prints_on(rt, alloc, script, partitions, text)? {
            return Ok(false);
        }
    }
    Ok(true)
}

/// Whether a script prints the same on each of these numbers of partitions.
fn prints_the_same<R: Threads + Sync>(rt: &R, alloc: Global, script: &str) -> Result<bool, Fail> {
    let text = printed(rt, alloc, script.as_bytes())?;
    prints_on_each(rt, alloc, script.as_bytes(), text.as_slice())
}

#[test]
fn scripts_print_the_same_on_any_number_of_partitions(rt: HostRuntime) -> Result<(), Fail> {
    for (index, script) in SCRIPTS.iter().enumerate() {
        assert!(rt; prints_the_same(&rt, rt.alloc(), script)?, "script {index}");
    }
    Ok(())
}
