//! The words of the nodes, read.

use crate::addresses::{read_address, read_number};
use crate::failure::{Failure, Status};
use clap::{Arg, ArgAction, ArgMatches, Command, Error};
use nodes::Pace;
use requests::shown;
use std::alloc::{AllocError, Global};
use std::net::SocketAddr;
use std::time::Duration;

/// How many turns a node serves, if the words do not say.
const TURNS: u64 = 1000;

/// How many frames are kept, at least, when a base is taken, if the words do not say.
const BASE: u64 = 65_536;

/// The most turns, or seconds, that may be asked for.
const TURNS_MAX: u64 = 4_294_967_295;

/// The words of a primary.
#[derive(Drop)]
pub struct PrimaryWords<'a> {
    pub schema: &'a str,
    pub journal: &'a str,
    pub listen: SocketAddr,
    pub replicas: Vec<SocketAddr>,
    /// Whether jobs are taken while it serves.
    pub is_live: bool,
    /// Where clients are served over HTTP.
    pub http: Option<SocketAddr>,
    /// How many frames are kept, at least, when a base is taken; 0: none is.
    pub base: u64,
    pub pace: Pace,
}

/// The words of a replica.
#[derive(Drop)]
pub struct ReplicaWords<'a> {
    pub schema: &'a str,
    pub number: u64,
    pub boot: u64,
    pub listen: SocketAddr,
    pub primary: SocketAddr,
    /// Whether batches are taken while it serves.
    pub is_live: bool,
    /// Where clients are served over HTTP.
    pub http: Option<SocketAddr>,
    pub pace: Pace,
}

/// The words that have a journal looked at.
#[derive(Drop)]
pub struct JournalWords<'a> {
    pub schema: &'a str,
    pub journal: &'a str,
    /// Whether its commits are printed.
    pub dumps: bool,
    /// The first commit that is printed.
    pub from: u64,
    /// How many bytes it is to be cut to.
    pub cut: Option<u64>,
    /// Whether it is really cut.
    pub is_sure: bool,
    /// Whether it says how far it has come.
    pub shows: bool,
}

/// What the words of a node ask for.
#[derive(Drop)]
pub enum Asking<'a> {
    Primary(PrimaryWords<'a>),
    Replica(ReplicaWords<'a>),
    Demo,
    Journal(JournalWords<'a>),
    /// Nothing: the word of a command is missing, or it is that of the simulator.
    Nothing,
}

impl<'a> Asking<'a> {
    /// The same, for who sees the errors: what it does then says how far long work has come.
    pub fn watched(self) -> Asking<'a> {
        match self {
            Asking::Primary(words) => {
                let pace = watched(words.pace);
                Asking::Primary(PrimaryWords { pace, ..words })
            }
            Asking::Replica(words) => {
                let pace = watched(words.pace);
                Asking::Replica(ReplicaWords { pace, ..words })
            }
            Asking::Journal(words) => Asking::Journal(JournalWords {
                shows: true,
                ..words
            }),
            Asking::Demo => Asking::Demo,
            Asking::Nothing => Asking::Nothing,
        }
    }
}

/// The same pace of a node that says how far long work has come.
fn watched(pace: Pace) -> Pace {
    Pace {
        shows: true,
        ..pace
    }
}

/// Why words ask for nothing that the program does.
#[derive(Drop)]
pub enum Unasked {
    /// What is to be said of them: help, the version, or what is wrong with them.
    Told(Error),
    /// A word that does not read.
    Wrong(Failure),
}

/// What these words ask for, the first of which is the program's own name.
pub fn read_words<'a>(
    alloc: Global,
    help: &'a str,
    version: &'a str,
    words: &'a [&'a str],
) -> Result<Asking<'a>, Unasked> {
    let command = match command_of(alloc, help, version) {
        Ok(command) => command,
        Err(_) => return Err(Unasked::Wrong(Failure::Memory)),
    };
    let matches = match command.try_get_matches_from(words) {
        Ok(matches) => matches,
        Err(error) => return Err(Unasked::Told(error)),
    };
    match asked_by(alloc, &matches) {
        Ok(asking) => Ok(asking),
        Err(failure) => Err(Unasked::Wrong(failure)),
    }
}

/// How an argument is given.
#[derive(Clone, Copy)]
enum Form {
    /// A word that has to be there.
    Word,
    /// Any number of words behind those.
    Words,
    /// A word behind an option.
    Option,
    /// An option by itself.
    Flag,
}

/// The arguments of each command.
const COMMANDS: &[(&str, &[(&str, Form)])] = &[
    ("sim", &[("echo", Form::Flag)]),
    (
        "primary",
        &[
            ("SCHEMA", Form::Word),
            ("JOURNAL", Form::Word),
            ("LISTEN", Form::Word),
            ("REPLICA", Form::Words),
            ("turns", Form::Option),
            ("base", Form::Option),
            ("live", Form::Flag),
            ("http", Form::Option),
            ("say", Form::Flag),
        ],
    ),
    (
        "replica",
        &[
            ("SCHEMA", Form::Word),
            ("NUMBER", Form::Word),
            ("BOOT", Form::Word),
            ("LISTEN", Form::Word),
            ("PRIMARY", Form::Word),
            ("turns", Form::Option),
            ("wait", Form::Option),
            ("live", Form::Flag),
            ("http", Form::Option),
            ("say", Form::Flag),
        ],
    ),
    ("demo", &[]),
    (
        "journal",
        &[
            ("SCHEMA", Form::Word),
            ("JOURNAL", Form::Word),
            ("dump", Form::Flag),
            ("from", Form::Option),
            ("cut", Form::Option),
            ("yes", Form::Flag),
            ("say", Form::Flag),
        ],
    ),
];

/// All commands.
fn command_of<'a>(
    alloc: Global,
    help: &'a str,
    version: &'a str,
) -> Result<Command<'a>, AllocError> {
    let mut command = Command::new(alloc, "batchdb")
        .version(version)
        .override_help(help);
    for (name, arguments) in COMMANDS {
        command = command.subcommand(command_with(alloc, name, help, arguments)?)?;
    }
    Ok(command)
}

/// The command of this name, with these arguments.
fn command_with<'a>(
    alloc: Global,
    name: &'a str,
    help: &'a str,
    arguments: &[(&'a str, Form)],
) -> Result<Command<'a>, AllocError> {
    let mut command = Command::new(alloc, name).override_help(help);
    for (name, form) in arguments {
        command = command.arg(argument_of(alloc, name, *form))?;
    }
    Ok(command)
}

/// The argument of this name and form.
fn argument_of<'a>(alloc: Global, name: &'a str, form: Form) -> Arg<'a> {
    let argument = Arg::new(alloc, name);
    match form {
        Form::Word => argument.required(true),
        Form::Words => argument.num_args(0..),
        Form::Option => argument.long(name).action(ArgAction::Set),
        Form::Flag => argument.long(name).action(ArgAction::SetTrue),
    }
}

/// What words that were parsed ask for.
fn asked_by<'a>(alloc: Global, matches: &ArgMatches<'a>) -> Result<Asking<'a>, Failure> {
    let Some((name, words)) = matches.subcommand() else {
        return Ok(Asking::Nothing);
    };
    if name == "primary" {
        return Ok(Asking::Primary(primary_words(alloc, words)?));
    }
    if name == "replica" {
        return Ok(Asking::Replica(replica_words(alloc, words)?));
    }
    if name == "journal" {
        return Ok(Asking::Journal(journal_words(alloc, words)?));
    }
    if name == "demo" {
        return Ok(Asking::Demo);
    }
    Ok(Asking::Nothing)
}

fn primary_words<'a>(alloc: Global, words: &ArgMatches<'a>) -> Result<PrimaryWords<'a>, Failure> {
    let is_live = words.get_flag("live");
    let base = match words.get_str("base") {
        Some(word) => number(alloc, "--base", word)?,
        None => BASE,
    };
    Ok(PrimaryWords {
        schema: given(alloc, words, "SCHEMA")?,
        journal: given(alloc, words, "JOURNAL")?,
        listen: address(alloc, words, "LISTEN")?,
        replicas: addresses(alloc, words)?,
        is_live,
        http: http(alloc, words, is_live)?,
        base,
        pace: Pace {
            turns: turns(alloc, words, Some(TURNS))?,
            wait: None,
            says: words.get_flag("say"),
            shows: words.get_flag("say"),
        },
    })
}

fn replica_words<'a>(alloc: Global, words: &ArgMatches<'a>) -> Result<ReplicaWords<'a>, Failure> {
    let wait = wait(alloc, words)?;
    // With a limit of time alone the turns have no end.
    let turns = turns(
        alloc,
        words,
        if wait.is_some() { None } else { Some(TURNS) },
    )?;
    let is_live = words.get_flag("live");
    Ok(ReplicaWords {
        schema: given(alloc, words, "SCHEMA")?,
        number: number(alloc, "NUMBER", given(alloc, words, "NUMBER")?)?,
        boot: number(alloc, "BOOT", given(alloc, words, "BOOT")?)?,
        listen: address(alloc, words, "LISTEN")?,
        primary: address(alloc, words, "PRIMARY")?,
        is_live,
        http: http(alloc, words, is_live)?,
        pace: Pace {
            turns,
            wait,
            says: words.get_flag("say"),
            shows: words.get_flag("say"),
        },
    })
}

fn journal_words<'a>(alloc: Global, words: &ArgMatches<'a>) -> Result<JournalWords<'a>, Failure> {
    let cut = match words.get_str("cut") {
        Some(word) => Some(number(alloc, "--cut", word)?),
        None => None,
    };
    let dumps = words.get_flag("dump");
    let from = match words.get_str("from") {
        Some(word) => Some(number(alloc, "--from", word)?),
        None => None,
    };
    let is_sure = words.get_flag("yes");
    if dumps && cut.is_some() {
        return Err(wrong(alloc, "--dump", "not with --cut"));
    }
    if from.is_some() && !dumps {
        return Err(wrong(alloc, "--from", "not without --dump"));
    }
    if is_sure && cut.is_none() {
        return Err(wrong(alloc, "--yes", "not without --cut"));
    }
    Ok(JournalWords {
        schema: given(alloc, words, "SCHEMA")?,
        journal: given(alloc, words, "JOURNAL")?,
        dumps,
        from: from.unwrap_or(1),
        cut,
        is_sure,
        shows: words.get_flag("say"),
    })
}

/// The word of that name.
fn given<'a>(alloc: Global, words: &ArgMatches<'a>, name: &str) -> Result<&'a str, Failure> {
    match words.get_str(name) {
        Some(word) => Ok(word),
        None => Err(wrong(alloc, name, "")),
    }
}

/// The address of that name.
fn address(alloc: Global, words: &ArgMatches<'_>, name: &str) -> Result<SocketAddr, Failure> {
    let word = given(alloc, words, name)?;
    match read_address(word) {
        Some(address) => Ok(address),
        None => Err(wrong(alloc, name, word)),
    }
}

/// The addresses of the replicas, in their order.
fn addresses(alloc: Global, words: &ArgMatches<'_>) -> Result<Vec<SocketAddr>, Failure> {
    let mut list = Vec::new(alloc);
    let Some(replicas) = words.get_strs("REPLICA") else {
        return Ok(list);
    };
    for word in replicas {
        let Some(address) = read_address(word) else {
            return Err(wrong(alloc, "REPLICA", word));
        };
        if list.push(address).is_err() {
            return Err(Failure::Memory);
        }
    }
    Ok(list)
}

/// Where clients are served over HTTP, if the words say so; only a live node serves any.
fn http(
    alloc: Global,
    words: &ArgMatches<'_>,
    is_live: bool,
) -> Result<Option<SocketAddr>, Failure> {
    let Some(word) = words.get_str("http") else {
        return Ok(None);
    };
    if !is_live {
        return Err(wrong(alloc, "--http", "not without --live"));
    }
    match read_address(word) {
        Some(address) => Ok(Some(address)),
        None => Err(wrong(alloc, "--http", word)),
    }
}

/// The number that the word of that name is.
fn number(alloc: Global, name: &str, word: &str) -> Result<u64, Failure> {
    match read_number(word) {
        Some(number) => Ok(number),
        None => Err(wrong(alloc, name, word)),
    }
}

/// How many turns a node serves, if the words say so; 0 turns stand for turns without an end.
fn turns(
    alloc: Global,
    words: &ArgMatches<'_>,
    unsaid: Option<u64>,
) -> Result<Option<u64>, Failure> {
    let Some(word) = words.get_str("turns") else {
        return Ok(unsaid);
    };
    match read_number(word) {
        Some(0) => Ok(None),
        Some(turns) if turns <= TURNS_MAX => Ok(Some(turns)),
        _ => Err(wrong(alloc, "--turns", word)),
    }
}

/// How long a replica waits for the answer to a batch, if the words say so.
fn wait(alloc: Global, words: &ArgMatches<'_>) -> Result<Option<Duration>, Failure> {
    let Some(word) = words.get_str("wait") else {
        return Ok(None);
    };
    match read_number(word) {
        Some(seconds) if 0 < seconds && seconds <= TURNS_MAX => {
            Ok(Some(Duration::from_secs(seconds)))
        }
        _ => Err(wrong(alloc, "--wait", word)),
    }
}

/// What is wrong with a word.
pub fn wrong(alloc: Global, name: &str, word: &str) -> Failure {
    let Some(word) = shown(alloc, word) else {
        return Failure::Memory;
    };
    Failure::new(
        Status::NotRead,
        format!(in alloc; "batchdb: bad {name}: {word}; see `batchdb --help`").ok(),
    )
}
