//! Reading the line of an event.

ghost use Rattle.std.specs.Prelude.{◌≡◌, map, MatchResult};
ghost use Rattle.script.specs.Inner.LineFaults.{Gives, OrMemory, because};
ghost use Rattle.script.specs.EventLines.{IsEventLine, IsEventFault};
ghost use Rattle.script.specs.Inner.Reading.{is_setting, or_bad_words, replica_event, network_event, primary_event, event_of};

use crate::event::Event;
use crate::faults::{LineFault, Reason};
use crate::node_reading::{
    read_base, read_deliver, read_flush, read_open, read_pair, read_raw, read_replica, read_show,
    read_start, read_stop,
};
use crate::setup::Setup;
use crate::transaction_reading::{
    read_abort, read_add_column, read_begin, read_commit, read_delete, read_get, read_insert,
    read_set,
};
use crate::word_reading::words_of;
use std::alloc::Global;

/// Reads the line of an event.
pub fn read_event(alloc: Global, setup: &Setup, line: &[u8]) -> Result<Event, LineFault>
    ensures { MatchResult result (IsEventLine setup.now line.now) (OrMemory (IsEventFault setup.now line.now)) }
{
    // A look at the numbers brings their ranges to the proof.
    let _workers = setup.workers;
    let _replicas = setup.replicas;
    let Ok(words) = words_of(alloc, line) else {
        return Err(LineFault::Memory);
    };
    let Some((first, rest)) = words.as_slice().split_first() else {
        return Err(LineFault::Because(Reason::UnknownEvent));
    };
    read_table_event(alloc, setup, first, rest)
}

/// The event of a line whose first word is this one, and whose other words are these: an event on a
/// table or of bytes, or another one.
#[tactic(auto, unfolding(crate::specs::Inner::Reading::event_of))]
fn read_table_event(
    alloc: Global,
    setup: &Setup,
    first: &[u8],
    words: &[&[u8]],
) -> Result<Event, LineFault>
    ensures { Gives (event_of setup.now first.now (map (λ word. word.now) words.now)) result }
{
    if first == b"insert".as_slice() {
        read_insert(alloc, &setup.schema, words)
    } else if first == b"set".as_slice() {
        read_set(&setup.schema, words)
    } else if first == b"delete".as_slice() {
        read_delete(&setup.schema, words)
    } else if first == b"column".as_slice() {
        read_add_column(&setup.schema, words)
    } else if first == b"get".as_slice() {
        read_get(&setup.schema, words)
    } else if first == b"open".as_slice() {
        read_open(alloc, setup, words)
    } else if first == b"raw".as_slice() {
        read_raw(alloc, setup, words)
    } else {
        read_primary_event(setup, first, words)
    }
}

/// An event of the primary that names no table, or another one.
#[tactic(auto, unfolding(crate::specs::Inner::Reading::primary_event))]
fn read_primary_event(setup: &Setup, first: &[u8], words: &[&[u8]]) -> Result<Event, LineFault>
    ensures { result ≡ because (primary_event setup.now first.now (map (λ word. word.now) words.now)) }
{
    if first == b"begin".as_slice() {
        or_bad_words(read_begin(words))
    } else if first == b"commit".as_slice() {
        or_bad_words(read_commit(setup, words))
    } else if first == b"abort".as_slice() {
        or_bad_words(read_abort(words))
    } else if first == b"flush".as_slice() {
        or_bad_words(read_flush(words))
    } else if first == b"base".as_slice() {
        or_bad_words(read_base(words))
    } else if first == b"stop".as_slice() {
        or_bad_words(read_stop(words))
    } else if first == b"start".as_slice() {
        or_bad_words(read_start(words))
    } else {
        read_network_event(setup, first, words)
    }
}

/// An event of the network, or another one.
#[tactic(auto, unfolding(crate::specs::Inner::Reading::network_event))]
fn read_network_event(setup: &Setup, first: &[u8], words: &[&[u8]]) -> Result<Event, LineFault>
    ensures { result ≡ because (network_event setup.now first.now (map (λ word. word.now) words.now)) }
{
    if first == b"push".as_slice() {
        match read_pair(setup.workers, words) {
            Some((worker, seq)) => Ok(Event::Push { worker, seq }),
            None => Err(LineFault::Because(Reason::BadWords)),
        }
    } else if first == b"deliver".as_slice() {
        or_bad_words(read_deliver(setup, words))
    } else if first == b"show".as_slice() {
        or_bad_words(read_show(words))
    } else {
        read_replica_event(setup, first, words)
    }
}

/// An event of a replica that names no table; or why the first word names no event.
#[tactic(auto, unfolding(crate::specs::Inner::Reading::replica_event))]
fn read_replica_event(setup: &Setup, first: &[u8], words: &[&[u8]]) -> Result<Event, LineFault>
    ensures { result ≡ because (replica_event setup.now.replicas first.now (map (λ word. word.now) words.now)) }
{
    if first == b"ask".as_slice() {
        match read_replica(setup, words) {
            Some(replica) => Ok(Event::Ask { replica }),
            None => Err(LineFault::Because(Reason::BadWords)),
        }
    } else if first == b"renew".as_slice() {
        match read_replica(setup, words) {
            Some(replica) => Ok(Event::Renew { replica }),
            None => Err(LineFault::Because(Reason::BadWords)),
        }
    } else if first == b"run".as_slice() {
        match read_replica(setup, words) {
            Some(replica) => Ok(Event::Run { replica }),
            None => Err(LineFault::Because(Reason::BadWords)),
        }
    } else if first == b"version".as_slice() {
        match read_replica(setup, words) {
            Some(replica) => Ok(Event::Version { replica }),
            None => Err(LineFault::Because(Reason::BadWords)),
        }
    } else if first == b"dump".as_slice() {
        match read_replica(setup, words) {
            Some(replica) => Ok(Event::Dump { replica }),
            None => Err(LineFault::Because(Reason::BadWords)),
        }
    } else if first == b"restart".as_slice() {
        match read_pair(setup.replicas, words) {
            Some((replica, boot)) => Ok(Event::Restart { replica, boot }),
            None => Err(LineFault::Because(Reason::BadWords)),
        }
    } else if is_setting(first) {
        Err(LineFault::Because(Reason::BadSetting))
    } else {
        Err(LineFault::Because(Reason::UnknownEvent))
    }
}

/// Whether the word begins a setting.
fn is_setting(word: &[u8]) -> bool
    ensures { result ≡ is_setting word.now }
{
    word == b"workers".as_slice() || word == b"replicas".as_slice() || word == b"table".as_slice()
}

/// The event of a line; `BadWords` if its words give none.
fn or_bad_words(event: Option<Event>) -> Result<Event, LineFault>
    ensures { result ≡ because (or_bad_words event) }
{
    event.ok_or(LineFault::Because(Reason::BadWords))
}
