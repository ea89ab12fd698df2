//! What the program's words ask for.

ghost use Rattle.std.specs.Prelude.{◌≡◌, map};
ghost use Rattle.batchdb.specs.Words.{asked_for, asked_besides, is_of_node, asked_by_one, asked_by_two, asked_by_three, asked_of_sim};
ghost use Rattle.std.specs.List.{list_any};
ghost use Rattle.batchdb.specs.Words.{is_help, is_version, is_request, has_request};

use world::Echo;

/// What words ask for.
#[derive(Clone, Copy)]
pub enum Asked {
    /// To run a script.
    Simulator(Echo),
    /// To print the help.
    Help,
    /// To print the version.
    Version,
    /// What is a node's, whatever the other words are.
    Node,
    /// To print the help or the version, if the words are a longer form of that.
    Longer,
    /// Nothing that the program knows.
    Other,
}

/// What these words ask for, the first of which is the program's own name.
pub fn asked_for(words: &[&str]) -> Asked
    ensures { result ≡ asked_for (map (λ word. word.now) words.now) }
{
    if is_of_node(words) {
        return Asked::Node;
    }
    match asked_besides(words) {
        Asked::Other if has_request(words) => Asked::Longer,
        asked => asked,
    }
}

/// What these words ask for, which are no node's, but for longer forms.
fn asked_besides(words: &[&str]) -> Asked
    ensures { result ≡ asked_besides (map (λ word. word.now) words.now) }
{
    match words {
        [_, word] => asked_by_one(word),
        [_, word, next] => asked_by_two(word, next),
        [_, word, next, last] => asked_by_three(word, next, last),
        _ => Asked::Other,
    }
}

/// Whether the word behind the program's own name is that of a node.
fn is_of_node(words: &[&str]) -> bool
    ensures { result ≡ is_of_node (map (λ word. word.now) words.now) }
{
    match words {
        [_, word, ..] => {
            *word == "primary" || *word == "replica" || *word == "demo" || *word == "journal"
        }
        _ => false,
    }
}

/// What one word asks for.
fn asked_by_one(word: &str) -> Asked
    ensures { result ≡ asked_by_one word.now }
{
    if word == "sim" {
        Asked::Simulator(Echo::No)
    } else if word == "help" || is_help(word) {
        Asked::Help
    } else if is_version(word) {
        Asked::Version
    } else {
        Asked::Other
    }
}

/// What two words ask for.
fn asked_by_two(word: &str, next: &str) -> Asked
    ensures { result ≡ asked_by_two word.now next.now }
{
    if word == "sim" {
        asked_of_sim(next)
    } else if word == "help" && next == "sim" {
        Asked::Help
    } else {
        Asked::Other
    }
}

/// What three words ask for.
fn asked_by_three(word: &str, next: &str, last: &str) -> Asked
    ensures { result ≡ asked_by_three word.now next.now last.now }
{
    if word == "sim" && next == "--echo" && last == "--" {
        Asked::Simulator(Echo::Events)
    } else {
        Asked::Other
    }
}

/// What a word behind `sim` asks for; `--` ends the words.
fn asked_of_sim(word: &str) -> Asked
    ensures { result ≡ asked_of_sim word.now }
{
    if word == "--echo" {
        Asked::Simulator(Echo::Events)
    } else if word == "--" {
        Asked::Simulator(Echo::No)
    } else if is_help(word) {
        Asked::Help
    } else {
        Asked::Other
    }
}

/// Whether a word asks for the help, wherever it stands.
fn is_help(word: &str) -> bool
    ensures { result ≡ is_help word.now }
{
    word == "--help" || word == "-h"
}

/// Whether a word asks for the version.
fn is_version(word: &str) -> bool
    ensures { result ≡ is_version word.now }
{
    word == "--version" || word == "-V"
}

/// Whether a word may ask for the help or the version, wherever it stands.
fn is_request(word: &str) -> bool
    ensures { result ≡ is_request word.now }
{
    word == "help"
        || is_help(word)
        || is_version(word)
        || word.as_bytes().starts_with(b"-h")
        || word.as_bytes().starts_with(b"-V")
}

/// Whether one of the words behind the program's own name may.
fn has_request(words: &[&str]) -> bool
    ensures { result ≡ has_request (map (λ word. word.now) words.now) }
{
    match words {
        [_, behind @ ..] => is_any_request(behind),
        [] => false,
    }
}

/// Whether one of these words may.
fn is_any_request(words: &[&str]) -> bool
    ensures { result ≡ list_any is_request (map (λ word. word.now) words.now) }
{
    words.iter().any(|word| is_request(word))
}
