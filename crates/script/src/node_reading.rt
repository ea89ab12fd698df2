//! Reading the events of nodes and of the network between them, from the words after the first.

ghost use Rattle.std.specs.Prelude.{◌≡◌, ◌^◌, map};
ghost use Rattle.script.specs.Inner.LineFaults.{Gives};
ghost use Rattle.script.specs.Inner.WordReading.{below_of};
ghost use Rattle.script.specs.Inner.Reading.{flush_of, base_of, stop_of, start_of, pair_of, deliver_of, show_of, raw_of, replica_of};
ghost use Rattle.script.specs.Inner.Reading.{open_of, node_of, or_bad_words};

use crate::event::{Event, Node};
use crate::faults::{LineFault, Reason};
use crate::line_forms::{one_word, two_words};
use crate::plan_reading::read_plan_words;
use crate::setup::Setup;
use crate::value_reading::read_bytes;
use crate::word_reading::{number, number_below};
use rows::ByteList;
use std::alloc::Global;

/// Reads `flush K`.
#[tactic(auto, unfolding(crate::specs::Inner::Reading::flush_of))]
pub fn read_flush(words: &[&[u8]]) -> Option<Event>
    ensures { result ≡ flush_of (map (λ word. word.now) words.now) }
{
    let count = one_word(words)?;
    Some(Event::Flush {
        count: count_of(count)?,
    })
}

/// Reads `base`.
#[tactic(auto, unfolding(crate::specs::Inner::Reading::base_of))]
pub fn read_base(words: &[&[u8]]) -> Option<Event>
    ensures { result ≡ base_of (map (λ word. word.now) words.now) }
{
    match words {
        [] => Some(Event::Base),
        _ => None,
    }
}

/// Reads `stop B`.
#[tactic(auto, unfolding(crate::specs::Inner::Reading::stop_of))]
pub fn read_stop(words: &[&[u8]]) -> Option<Event>
    ensures { result ≡ stop_of (map (λ word. word.now) words.now) }
{
    let bytes = one_word(words)?;
    Some(Event::Stop {
        bytes: number(bytes)?,
    })
}

/// Reads `start`.
#[tactic(auto, unfolding(crate::specs::Inner::Reading::start_of))]
pub fn read_start(words: &[&[u8]]) -> Option<Event>
    ensures { result ≡ start_of (map (λ word. word.now) words.now) }
{
    match words {
        [] => Some(Event::Start),
        _ => None,
    }
}

/// A number of a worker or of a replica, and another number: reads `W S` of `push`, `R B` of
/// `restart`.
#[tactic(auto, unfolding(crate::specs::Inner::Reading::pair_of))]
pub fn read_pair(limit: u8, words: &[&[u8]]) -> Option<(u8, u64)>
    ensures { result ≡ pair_of limit (map (λ word. word.now) words.now) }
{
    let (one, other) = two_words(words)?;
    Some((number_below(one, limit)?, number(other)?))
}

/// Reads `deliver I NODE`.
#[tactic(auto, unfolding(crate::specs::Inner::Reading::deliver_of))]
pub fn read_deliver(setup: &Setup, words: &[&[u8]]) -> Option<Event>
    ensures { result ≡ deliver_of setup.now.replicas (map (λ word. word.now) words.now) }
{
    let (index, node) = two_words(words)?;
    Some(Event::Deliver {
        index: number(index)?,
        node: read_node(setup, node)?,
    })
}

/// Reads `show I`.
#[tactic(auto, unfolding(crate::specs::Inner::Reading::show_of))]
pub fn read_show(words: &[&[u8]]) -> Option<Event>
    ensures { result ≡ show_of (map (λ word. word.now) words.now) }
{
    let word = one_word(words)?;
    Some(Event::Show {
        index: number(word)?,
    })
}

/// Reads `raw NODE HEX`.
#[tactic(auto, unfolding(crate::specs::Inner::Reading::raw_of))]
pub fn read_raw(alloc: Global, setup: &Setup, words: &[&[u8]]) -> Result<Event, LineFault>
    ensures { Gives (or_bad_words (raw_of setup.now.replicas (map (λ word. word.now) words.now))) result }
{
    let Some((node, digits)) = two_words(words) else {
        return Err(LineFault::Because(Reason::BadWords));
    };
    let Some(node) = read_node(setup, node) else {
        return Err(LineFault::Because(Reason::BadWords));
    };
    let bytes = read_bytes(alloc, digits)?;
    Ok(Event::Raw {
        node,
        bytes: ByteList::from_vec(bytes),
    })
}

/// A replica's number alone: reads `R` of `ask`, `renew`, `run`, `version` and `dump`.
#[tactic(auto, unfolding(crate::specs::Inner::Reading::replica_of))]
pub fn read_replica(setup: &Setup, words: &[&[u8]]) -> Option<u8>
    ensures { result ≡ replica_of setup.now.replicas (map (λ word. word.now) words.now) }
{
    let replica = one_word(words)?;
    number_below(replica, setup.replicas)
}

/// Reads `open R PLAN`.
#[tactic(auto, unfolding(crate::specs::Inner::Reading::open_of))]
pub fn read_open(alloc: Global, setup: &Setup, words: &[&[u8]]) -> Result<Event, LineFault>
    ensures { Gives (open_of setup.now.schema setup.now.replicas (map (λ word. word.now) words.now)) result }
{
    let Some((replica, plan)) = words.split_first() else {
        return Err(LineFault::Because(Reason::BadWords));
    };
    let Some(replica) = number_below(replica, setup.replicas) else {
        return Err(LineFault::Because(Reason::BadWords));
    };
    let plan = read_plan_words(alloc, &setup.schema, plan)?;
    Ok(Event::Open { replica, plan })
}

/// A decimal number of 32 bits.
#[tactic(auto, unfolding(crate::specs::Inner::WordReading::below_of))]
fn count_of(word: &[u8]) -> Option<u32>
    ensures { result ≡ below_of (2 ^ 32) word.now }
{
    u32::try_from(number(word)?).ok()
}

/// A node: `p`, or `r` and a replica's number.
#[tactic(auto, unfolding(crate::specs::Inner::Reading::node_of))]
fn read_node(setup: &Setup, word: &[u8]) -> Option<Node>
    ensures { result ≡ node_of setup.now.replicas word.now }
{
    if word == b"p".as_slice() {
        return Some(Node::Primary);
    }
    match word {
        [b'r', replica @ ..] => Some(Node::Replica(number_below(replica, setup.replicas)?)),
        _ => None,
    }
}
