//! `batchdb`: a replicated engine for transactions and analytics.
//!
//! `batchdb sim` reads a script from standard input, runs its events on one primary and its
//! replicas, and prints what each event answers: that is the crate `world`. `batchdb primary` does jobs
//! and serves replicas, `batchdb replica` answers batches of queries, both over UDP and live if they are
//! told to: that is the crate `nodes`. `batchdb demo` has a primary and two replicas in one process, and
//! `batchdb journal` looks at a journal. What is here is words, files, addresses, messages and exit
//! statuses.
#![tactic(auto)]

mod addresses;
mod clients;
mod commands;
mod demo;
mod failure;
mod files;
mod journal_file;
mod journal_reading;
mod listening;
mod polled_input;
mod primary_program;
mod printing;
mod program;
mod replica_program;
mod words;

pub use program::{ErrorStream, answer, run_words, without_words};
use std::env;
use std::io::IsTerminal;
use std::process::ExitCode;

/// Runs the words that the program was called with, and ends with their status.
fn main(rt: HostRuntime) -> ExitCode {
    let _held = match files::fill_standard_streams(&rt, rt.alloc()) {
        Ok(held) => held,
        Err(failure) => return ExitCode::from(failure.tell(&mut rt.stderr())),
    };
    let error_stream = if rt.stderr().is_terminal() {
        ErrorStream::Terminal
    } else {
        ErrorStream::Other
    };
    let status = match env::args(&rt) {
        Ok(words) => answer(
            &rt,
            rt.alloc(),
            words,
            rt.stdin(),
            &mut rt.stdout(),
            &mut rt.stderr(),
            error_stream,
        ),
        Err(fault) => without_words(fault.kind(), &mut rt.stderr()),
    };
    ExitCode::from(status)
}
