//! What the program answers.

ghost use Rattle.std.specs.Prelude.{◌≡◌, ◌<◌, ◌≤◌, ◌++◌, ◌∷◌, ℕ, List, [], length, OnOk, map};
ghost use Rattle.std.specs.Io.KnownBytes.{Appends, Keeps};
ghost use Rattle.batchdb.specs.Words.{asked_for};
ghost use Rattle.batchdb.specs.Status.{fault_line, fault_status, status_max, HasAnswered, HasRun, IsUnwritten};

use crate::commands::{Asking, JournalWords, PrimaryWords, ReplicaWords, Unasked, read_words};
use crate::demo::run_demo;
use crate::failure::Failure;
use crate::journal_file::run_journal;
use crate::polled_input::PolledInput;
use crate::primary_program::run_primary;
use crate::replica_program::run_replica;
use crate::words::{Asked, asked_for};
use clap::Error;
use clap::error::ErrorKind;
use nodes::{Host, Streams};
use requests::shown;
use std::alloc::{AllocError, Global};
use std::env::Args;
use std::fs::File;
use std::io;
use std::io::{Read, Write};
use std::net::Net;
use std::random::RandomSource;
use std::rt::{Clock, Files};
use std::sync::Wait;
use std::thread::Threads;
use world::{Echo, RunFault, run_script};

/// The work was done.
const DONE: u8 = 0;

/// A read, a write or being out of memory.
const FAILED: u8 = 1;

/// Words or a script that do not read.
const NOT_READ: u8 = 2;

/// What `--version` prints after the program's name.
pub const VERSION: &str = "0.3.0";

/// How the option is named whose letter is a backslash.
const BACKSLASH_OPTION: &str = "'-\\'";

/// What `--help` prints.
const HELP: &str = "\
batchdb: a replicated engine for transactions and analytics

Usage:
  batchdb sim [--echo] < SCRIPT   runs a script, and prints the answers to its events;
                                  with --echo each event is printed before its answers, after \"> \"
  batchdb primary SCHEMA JOURNAL LISTEN [REPLICA]... [--turns N] [--base N] [--live [--http ADDRESS]] [--say] < JOBS
                                  does the jobs, prints a line for each, and then serves N turns
  batchdb replica SCHEMA NUMBER BOOT LISTEN PRIMARY [--turns N] [--wait S] [--live [--http ADDRESS]] [--say] < BATCHES
                                  prints the report of each batch of queries, and ends
  batchdb demo                    a primary and two replicas in one process
  batchdb journal SCHEMA JOURNAL [--dump [--from N] | --cut BYTES [--yes]] [--say]
                                  prints what a journal keeps, prints its commits as jobs, or cuts it
  batchdb --help, batchdb help    prints this
  batchdb --version               prints the version

  SCHEMA   a file of settings: workers N, replicas N, and a line for each table as it is opened.
           It stays the same when columns are added
  JOURNAL  a file; a primary creates it if it does not exist
  LISTEN, REPLICA, PRIMARY
           an address: a dotted IPv4 address or localhost, a colon, a port; LISTEN may have port 0
  NUMBER   the replica's number; the n-th REPLICA of the primary, counted from 0, is replica n
  BOOT     a number with which this replica has never been started before, such as \"$(date +%s)\"
  --turns  how many turns to serve: 1000 by default, 0 for no limit. An idle turn takes 10 ms.
           A live primary counts them from the end of its input on, a live replica for each batch
  --base   how many frames a primary keeps, at least, before it takes a base: 65536 by default, 0 for no
           base. Frames below a base are dropped, and a replica that lags behind it fetches its rows
  --wait   how many seconds a replica waits for the answer to a batch; turns then have no limit,
           if --turns does not give one
  --live   takes jobs or batches as they come, while the node serves
  --http   where a live node also takes jobs or batches over HTTP: an address as for LISTEN. Whoever
           reaches it may do everything that the node does
  --say    reports on standard error what the node does, and once a second how far long work has
           come. If standard error is a terminal, the latter is reported anyway

A job without an answer may or may not be committed, for example after Ctrl-C. Only its ticket confirms it.

Examples:
  batchdb sim --echo < examples/first-commit.script
  batchdb demo

Exit status:
  0  all was done
  1  a file, a socket, the journal or memory failed, or the replica is broken
  2  there is a mistake in the words, the script, the schema or the input
  3  the turns or the time are used up, and a batch is not answered
";

/// What the program's errors are written to.
#[derive(Clone, Copy)]
pub enum ErrorStream {
    /// A terminal: who sees it is told how far long work has come.
    Terminal,
    /// A file, a pipe or another device.
    Other,
}

/// Runs the program with these words, the first of which is its own name, and answers its exit
/// status: 0, all was done; 1, a file, a socket, a read or a write failed, the system makes too few threads, or it is out of
/// memory, or the replica is broken; 2, the words, the script, the schema or the input do not read, and nothing was done but
/// for what a live node took besides the lines at fault, and for batches before one that names a column which the
/// schema lacks; 3, a node's turns or its time are used up, and a batch is not answered. But for 0 one line on `errors`
/// says why; a live node writes one for each line at fault. What a node is told to say, and at a terminal how far long work
/// has come, is said there too.
pub fn run_words<
    T: Threads + Wait + Net + Files<File = File> + Clock + RandomSource + Sync,
    R: Read + Send,
    W: Write + Send,
    E: Write + Send,
>(
    rt: &T,
    alloc: Global,
    words: &[&str],
    reader: &mut R,
    writer: &mut W,
    errors: &mut E,
    error_stream: ErrorStream,
) -> u8
    ensures status { result ≤ status_max (asked_for (map (λ word. word.now) words.now)) }
    ensures done { result ≡ 0 → HasAnswered (asked_for (map (λ word. word.now) words.now))
        (R.remaining reader.old) (R.remaining reader.new) (W.contents writer.old) (W.contents writer.new) }
    ensures unwritten { result ≡ 2 → IsUnwritten (asked_for (map (λ word. word.now) words.now))
        (W.contents writer.old) (W.contents writer.new) }
{
    match asked_for(words) {
        Asked::Node => run_node(rt, alloc, words, reader, writer, errors, error_stream),
        Asked::Simulator(echo) => simulate(rt, alloc, echo, reader, writer, errors),
        Asked::Help => print(HELP, writer, errors),
        Asked::Version => print_version(alloc, writer, errors),
        Asked::Longer => answer_longer(alloc, words, writer, errors),
        Asked::Other => refuse(alloc, words, errors),
    }
}

/// Runs the program with these words. A node's input is waited for only for a moment at a time, so that a live
/// node can end while nothing comes, and none is busy while its input would have to be waited for.
pub fn answer<
    T: Threads + Wait + Net + Files<File = File> + Clock + RandomSource + Sync,
    R: Read + Drop + Send,
    W: Write + Send,
    E: Write + Send,
>(
    rt: &T,
    alloc: Global,
    words: Args,
    input: R,
    writer: &mut W,
    errors: &mut E,
    error_stream: ErrorStream,
) -> u8 {
    let Ok(words) = listed(alloc, words) else {
        say(errors, "batchdb: out of memory");
        return FAILED;
    };
    let Ok(words) = texts_of(alloc, &words) else {
        say(errors, "batchdb: out of memory");
        return FAILED;
    };
    let words = words.as_slice();
    let mut input = input;
    if !is_fed(words) {
        return run_words(rt, alloc, words, &mut input, writer, errors, error_stream);
    }
    match PolledInput::new(rt, alloc, input) {
        Ok(mut input) => run_words(rt, alloc, words, &mut input, writer, errors, error_stream),
        Err(fault) => {
            let _ = writeln!(errors, "batchdb: standard input: {fault}");
            FAILED
        }
    }
}

/// Whether the word of the command is that of a node that takes jobs or batches.
fn is_fed(words: &[&str]) -> bool {
    match words {
        [_, word, ..] => *word == "primary" || *word == "replica",
        _ => false,
    }
}

/// The words, as a list.
fn listed(alloc: Global, words: Args) -> Result<Vec<String>, AllocError> {
    let mut all = Vec::new(alloc);
    for word in words {
        all.push(word)?;
    }
    Ok(all)
}

/// The texts of words.
fn texts_of(alloc: Global, words: &[String]) -> Result<Vec<&str>, AllocError> {
    let mut texts = Vec::new(alloc);
    for word in words {
        texts.push(word.as_str())?;
    }
    Ok(texts)
}

/// Prints the version.
fn print_version<W: Write, E: Write>(alloc: Global, writer: &mut W, errors: &mut E) -> u8
    ensures status { result ≤ 1 }
    ensures done { result ≡ 0 → (text : List ℕ) × (0 < length text) × Appends (W.contents writer.old) (W.contents writer.new) text }
{
    let Ok(text) = format!(in alloc; "batchdb {VERSION}\n") else {
        say(errors, "batchdb: out of memory");
        return FAILED;
    };
    print(text.as_str(), writer, errors)
}

/// Prints a text.
fn print<W: Write, E: Write>(text: &str, writer: &mut W, errors: &mut E) -> u8
    ensures status { result ≤ 1 }
    ensures done { result ≡ 0 → Appends (W.contents writer.old) (W.contents writer.new) text.now }
{
    let written = match writer.write_all(text.as_bytes()) {
        Ok(()) => writer.flush(),
        Err(error) => Err(error),
    };
    match written {
        Ok(()) => DONE,
        Err(error) => {
            let _ = writeln!(errors, "batchdb: the output could not be written: {error}");
            FAILED
        }
    }
}

/// Prints the help or the version, if longer forms of known words ask for that, as `sim --help --echo`;
/// else says what is wrong with them.
fn answer_longer<W: Write, E: Write>(
    alloc: Global,
    words: &[&str],
    writer: &mut W,
    errors: &mut E,
) -> u8
    ensures status { result ≤ 2 }
    ensures done { result ≡ 0 → (text : List ℕ) × (0 < length text) × Appends (W.contents writer.old) (W.contents writer.new) text }
    ensures unwritten { result ≡ 2 → Keeps (W.contents writer.old) (W.contents writer.new) }
{
    match parse(alloc, words) {
        Err(Unasked::Told(answer)) => tell(alloc, words, answer, writer, errors),
        Ok(_) | Err(Unasked::Wrong(_)) => refuse(alloc, words, errors),
    }
}

/// Says what is wrong with words that the program does not know.
fn refuse<E: Write>(alloc: Global, words: &[&str], errors: &mut E) -> u8
    ensures some { 0 < result }
    ensures most { result ≤ 2 }
{
    match parse(alloc, words) {
        Ok(_) => {
            say(
                errors,
                "batchdb: a word is missing: `sim`, `primary`, `replica`, `demo` or `journal`; see `batchdb --help`",
            );
            NOT_READ
        }
        Err(Unasked::Told(_)) => refuse_told(alloc, words, errors),
        Err(Unasked::Wrong(failure)) => failure.tell(errors).min(NOT_READ),
    }
}

/// Runs a node.
fn run_node<
    T: Threads + Wait + Net + Files<File = File> + Clock + RandomSource + Sync,
    R: Read + Send,
    W: Write + Send,
    E: Write + Send,
>(
    rt: &T,
    alloc: Global,
    words: &[&str],
    reader: &mut R,
    writer: &mut W,
    errors: &mut E,
    error_stream: ErrorStream,
) -> u8
    ensures { result ≤ 3 }
{
    let asking = match parse(alloc, words) {
        Ok(asking) => asking,
        Err(Unasked::Told(answer)) => return tell(alloc, words, answer, writer, errors),
        Err(Unasked::Wrong(failure)) => return failure.tell(errors),
    };
    let asking = match error_stream {
        ErrorStream::Terminal => asking.watched(),
        ErrorStream::Other => asking,
    };
    let ended = match asking {
        Asking::Primary(words) => primary_with(rt, alloc, words, reader, writer, errors),
        Asking::Replica(words) => replica_with(rt, alloc, &words, reader, writer, errors),
        Asking::Demo => demo_with(rt, alloc, writer),
        Asking::Journal(words) => journal_with(rt, alloc, &words, writer, errors),
        Asking::Nothing => Ok(()),
    };
    match ended {
        Ok(()) => DONE,
        Err(failure) => failure.tell(errors),
    }
}

/// Runs a primary with the standard streams.
fn primary_with<
    T: Threads + Wait + Net + Files<File = File> + Clock + RandomSource + Sync,
    R: Read + Send,
    W: Write + Send,
    E: Write + Send,
>(
    rt: &T,
    alloc: Global,
    words: PrimaryWords<'_>,
    reader: &mut R,
    writer: &mut W,
    errors: &mut E,
) -> Result<(), Failure> {
    let mut streams = Streams {
        reader: &mut *reader,
        writer: &mut *writer,
        errors: &mut *errors,
    };
    run_primary(Host { rt: &*rt, alloc }, words, &mut streams)
}

/// Runs a replica with the standard streams.
fn replica_with<
    T: Threads + Wait + Net + Files<File = File> + Clock + RandomSource + Sync,
    R: Read + Send,
    W: Write + Send,
    E: Write + Send,
>(
    rt: &T,
    alloc: Global,
    words: &ReplicaWords<'_>,
    reader: &mut R,
    writer: &mut W,
    errors: &mut E,
) -> Result<(), Failure> {
    let mut streams = Streams {
        reader: &mut *reader,
        writer: &mut *writer,
        errors: &mut *errors,
    };
    run_replica(Host { rt: &*rt, alloc }, words, &mut streams)
}

/// Runs the demonstration.
fn demo_with<T: Threads + Wait + Net + Clock + Sync, W: Write>(
    rt: &T,
    alloc: Global,
    writer: &mut W,
) -> Result<(), Failure> {
    run_demo(Host { rt: &*rt, alloc }, writer)
}

/// Looks at a journal with the standard streams.
fn journal_with<T: Threads + Wait + Files<File = File> + Clock + Sync, W: Write, E: Write + Send>(
    rt: &T,
    alloc: Global,
    words: &JournalWords<'_>,
    writer: &mut W,
    errors: &mut E,
) -> Result<(), Failure> {
    run_journal(Host { rt: &*rt, alloc }, words, writer, errors)
}

/// What the words ask for, as far as they are parsed.
fn parse<'a>(alloc: Global, words: &'a [&'a str]) -> Result<Asking<'a>, Unasked> {
    read_words(alloc, HELP, VERSION, words)
}

/// Prints what the words ask for, the help or the version; or says what is wrong with them in one line on
/// the errors.
fn tell<W: Write, E: Write>(
    alloc: Global,
    words: &[&str],
    answer: Error,
    writer: &mut W,
    errors: &mut E,
) -> u8
    ensures status { result ≤ 2 }
    ensures done { result ≡ 0 → (text : List ℕ) × (0 < length text)
        × Appends (W.contents writer.old) (W.contents writer.new) text }
    ensures unwritten { result ≡ 2 → Keeps (W.contents writer.old) (W.contents writer.new) }
{
    match answer.kind() {
        ErrorKind::DisplayHelp => print(HELP, writer, errors),
        ErrorKind::DisplayVersion => print_version(alloc, writer, errors),
        _ => refuse_told(alloc, words, errors),
    }
}

/// Says what is wrong with words that do not parse, in one line.
fn refuse_told<E: Write>(alloc: Global, words: &[&str], errors: &mut E) -> u8
    ensures some { 0 < result }
    ensures most { result ≤ 2 }
{
    let Some(text) = wrong_text(alloc, words) else {
        say(errors, "batchdb: out of memory");
        return FAILED;
    };
    say_wrong(errors, text.as_str(), hint_of(words));
    NOT_READ
}

/// What is wrong with words, in which each of them is as a fault line shows it. `None` when out of memory.
fn wrong_text(alloc: Global, words: &[&str]) -> Option<String> {
    let text = text_of_shown(alloc, words)?;
    match unnamed_letter(words) {
        Some(letter) => with_letter(alloc, text.as_str(), letter),
        None => Some(text),
    }
}

/// What is wrong with words as a fault line shows them. `None` when out of memory.
fn text_of_shown(alloc: Global, words: &[&str]) -> Option<String> {
    let mut all = Vec::new(alloc);
    for word in words {
        // An empty one stands between the quotes of the text.
        let word = if word.is_empty() {
            String::new(alloc)
        } else {
            shown(alloc, word)?
        };
        all.push(word).ok()?;
    }
    let texts = texts_of(alloc, &all).ok()?;
    match parse(alloc, texts.as_slice()) {
        Err(Unasked::Told(answer)) => text_of(alloc, &answer),
        _ => None,
    }
}

/// The letter of the first option of one letter that is named by a backslash, if that stands for a control character. The first
/// word is the program's own name, and words behind `--` are no options.
fn unnamed_letter(words: &[&str]) -> Option<char> {
    for word in words.iter().skip(1) {
        if *word == "--" {
            return None;
        }
        match first_option(word) {
            Some('\\') => return None,
            Some(letter) if letter.is_control() => return Some(letter),
            _ => {}
        }
    }
    None
}

/// The first letter behind the hyphen of a word.
fn first_option(word: &str) -> Option<char> {
    word.strip_prefix("-")?.chars().next()
}

/// A text in which an option of one letter is named as a fault line shows that letter: of the number that stands for a control
/// character it names the backslash alone. `None` when out of memory.
fn with_letter(alloc: Global, text: &str, letter: char) -> Option<String> {
    let mut word = String::new(alloc);
    word.push('-').ok()?;
    word.push(letter).ok()?;
    let word = shown(alloc, word.as_str())?;
    let named = format!(in alloc; "'{word}'").ok()?;
    text.replace(alloc, BACKSLASH_OPTION, named.as_str()).ok()
}

/// Writes what is wrong with words, in one line: the first paragraph of a text; what follows that is advice.
fn say_wrong<E: Write>(errors: &mut E, text: &str, hint: &str) {
    let front = text.split_once("\n\n").map_or(text, |(front, _)| front);
    let front = front.strip_prefix("error: ").unwrap_or(front);
    let _ = write!(errors, "batchdb:");
    for word in front.split_whitespace() {
        let _ = write!(errors, " {word}");
    }
    let _ = writeln!(errors, "{hint}; see `batchdb --help`");
}

/// What is said besides of wrong words of the simulator, which is often given a file's name.
fn hint_of(words: &[&str]) -> &'static str {
    match words {
        [_, word, ..] if *word == "sim" => "; a script is read from standard input",
        _ => "",
    }
}

/// What words are answered with, as text; `None` when out of memory, then or now.
fn text_of(alloc: Global, answer: &Error) -> Option<String> {
    match answer.kind() {
        ErrorKind::OutOfMemory => None,
        _ => format!(in alloc; "{answer}").ok(),
    }
}

/// The exit status where the words could not be had, of which one line on `errors` says why.
pub fn without_words<E: Write>(fault: io::ErrorKind, errors: &mut E) -> u8
    ensures { result ≤ 2 }
{
    match fault {
        io::ErrorKind::InvalidData => {
            say(errors, "batchdb: a word is no text; see `batchdb --help`");
            NOT_READ
        }
        _ => {
            say(errors, "batchdb: out of memory");
            FAILED
        }
    }
}

/// Runs the script.
fn simulate<T: Threads + Sync, R: Read, W: Write, E: Write>(
    rt: &T,
    alloc: Global,
    echo: Echo,
    reader: &mut R,
    writer: &mut W,
    errors: &mut E,
) -> u8
    ensures status { result ≤ 2 }
    ensures done { result ≡ 0 → HasRun echo (R.remaining reader.old) (R.remaining reader.new)
        (W.contents writer.old) (W.contents writer.new) }
    ensures unwritten { result ≡ 2 → Keeps (W.contents writer.old) (W.contents writer.new) }
{
    match run_script(rt, alloc, echo, reader, writer) {
        Ok(()) => DONE,
        Err(fault) => {
            // The line is lost where it cannot be written; the status still tells.
            let _ = say_fault(errors, fault);
            status_of(fault)
        }
    }
}

/// Writes the line of a fault: of a script that does not read its own line, else what failed, behind the
/// program's name.
fn say_fault<E: Write>(errors: &mut E, fault: RunFault) -> io::Result<()>
    ensures { OnOk result (Appends (E.contents errors.old) (E.contents errors.new) (fault_line fault ++ 10 ∷ [])) }
{
    match fault {
        RunFault::Script { .. } => writeln!(errors, "{fault}"),
        RunFault::Read | RunFault::Write | RunFault::Memory => writeln!(errors, "batchdb: {fault}"),
    }
}

/// The exit status of a script that was not run to its end.
fn status_of(fault: RunFault) -> u8
    ensures { result ≡ fault_status fault }
{
    match fault {
        RunFault::Script { .. } => NOT_READ,
        RunFault::Read | RunFault::Write | RunFault::Memory => FAILED,
    }
}

/// Writes one line, which is lost where it cannot be written.
fn say<E: Write>(errors: &mut E, line: &str) {
    let _ = writeln!(errors, "{line}");
}
