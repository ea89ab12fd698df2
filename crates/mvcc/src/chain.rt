//! The versions that wrote one row.

ghost use Rattle.std.specs.Prelude.{◌≡◌, ◌+◌, ◌≤◌, [], length, take, OnOk, OnErr, vec_len, vec_capacity};
ghost use Rattle.std.specs.List.Sorted.{IsNonDecreasingBy};
ghost use Rattle.std.specs.Option.{option_map};
ghost use Rattle.mvcc.specs.Inner.Chains.{newest_link, latest_in, bytes_at, taken_back_at, linked};

use crate::bytes_after::bytes_after_one;
use crate::kept_bytes::KeptBytes;
use crate::link::Link;
use rows::Entry;
use std::alloc::{AllocError, Global};
use std::marker::Model;

/// The versions that wrote one row, in order, each with the row's bytes after it.
#[derive(Drop)]
pub struct Chain {
    links: Vec<Link>,
}

impl Model for Chain {
    ghost use Rattle.std.specs.Prelude.{List};
    ghost use Rattle.mvcc.specs.declared.link.Link.{Link as LinkOf};

    ghost Value = { List LinkOf };

    ghost view = { λ c. c.links.items };
}

impl Chain {
    /// The chain without links. Takes no memory.
    pub fn new(alloc: Global) -> Chain
        ensures { result ≡ [] }
    {
        Chain {
            links: Vec::new(alloc),
        }
    }

    /// The version of the last link; 0 if there is none.
    pub fn newest(&self) -> u64
        ensures { result ≡ newest_link self.now }
    {
        newest_of(self.links.as_slice())
    }

    /// The row's bytes after the last link; `None` if the row is not there.
    pub fn latest(&self) -> Option<&[u8]>
        ensures { option_map (λ b. b.now) result ≡ latest_in self.now }
    {
        match self.links.last() {
            None => None,
            Some(link) => link.bytes.lend(),
        }
    }

    /// The row's bytes at a version; `None` if the row is not there. The versions of the links do
    /// not fall.
    pub fn bytes_at(&self, version: u64) -> Option<&[u8]>
        requires { IsNonDecreasingBy (λ link. link.version) self.now }
        ensures { option_map (λ b. b.now) result ≡ bytes_at version self.now }
    {
        let end = end_of(self.links.as_slice(), version);
        if end == 0 {
            return None;
        }
        self.links[end - 1].bytes.lend()
    }

    /// Removes the last link, if it is of this number.
    pub fn take_back(&mut self, number: u64)
        ensures { self.new ≡ taken_back_at number self.old }
    {
        take_back_links(&mut self.links, number);
    }

    /// Adds a link for an entry of the commit of this number, whose table has this blank row. Fails
    /// only if out of memory.
    pub fn link(
        &mut self,
        alloc: Global,
        number: u64,
        blank: &[u8],
        entry: &Entry,
    ) -> Result<(), AllocError>
        ensures ok { OnOk result (self.new ≡ linked number blank.now entry.now self.old) }
        ensures err { OnErr result (self.new ≡ self.old) }
    {
        let bytes = bytes_after_one(alloc, blank, entry, self.latest())?;
        reserve_link(&mut self.links)?;
        take_back_links(&mut self.links, number);
        self.links.push_reserved(Link {
            version: number,
            bytes: KeptBytes::of(bytes),
        });
        Ok(())
    }
}

/// The version of the last of these links; 0 if there is none.
fn newest_of(links: &[Link]) -> u64
    ensures { result ≡ newest_link links.now }
{
    match links.last() {
        None => 0,
        Some(link) => link.version,
    }
}

/// How many of these links, whose versions do not fall, are of this version or an earlier one.
fn end_of(links: &[Link], version: u64) -> usize
    requires { IsNonDecreasingBy (λ link. link.version) links.now }
    ensures within { result ≤ length links.now }
    ensures before { bytes_at version links.now ≡ latest_in (take result links.now) }
{
    links.partition_point(|link| link.version <= version)
}

/// Makes room for one more link. The first link gets room for itself alone, since most rows are
/// written once.
fn reserve_link(links: &mut Vec<Link>) -> Result<(), AllocError>
    ensures items { links.new.items ≡ links.old.items }
    ensures len { vec_len links.new ≡ vec_len links.old }
    ensures room { OnOk result (vec_len links.new + 1 ≤ vec_capacity links.new) }
{
    if links.is_empty() {
        links.reserve_exact(1)
    } else {
        links.reserve(1)
    }
}

/// Removes the last link, if it is of this number. The memory is kept.
fn take_back_links(links: &mut Vec<Link>, number: u64)
    ensures items { links.new.items ≡ taken_back_at number links.old.items }
    ensures len { vec_len links.new ≤ vec_len links.old }
    ensures capacity { vec_capacity links.new ≡ vec_capacity links.old }
{
    if newest_of(links.as_slice()) == number {
        links.pop();
    }
}
