//! The chains of all tables' rows.

ghost use Rattle.std.specs.Prelude.{◌≡◌, ℕ, ◌+◌, ◌<◌, ◌++◌, [], false, length, IfOk, IfSome, OnOk, OnErr};
ghost use Rattle.std.specs.List.{list_any, AllByRecursion};
ghost use Rattle.std.specs.List.Sorted.{IsNonDecreasingBy, IsStrictlySortedBy};
ghost use Rattle.std.specs.Map.{keys_of};
ghost use Rattle.std.specs.Option.{option_map};
ghost use Rattle.mvcc.specs.Inner.Chains.{newest_link, bytes_at, linked, taken_back_at, links_at, all_taken_back, and_entries, Turns};
ghost use Rattle.mvcc.specs.Inner.Chains.{AreChains, AreChainsTakenBack, AreLinkable};
ghost use Rattle.mvcc.specs.Inner.Columns.{columns_after};
ghost use Rattle.mvcc.specs.Inner.Images.{found_at, chains_within, inserts_of};
ghost use Rattle.mvcc.specs.Inner.Keys.{adds_column, key_cmp};
ghost use Rattle.mvcc.specs.Inner.RowBytes.{HasValue};
ghost use Rattle.rows.specs.Shape.{Shape};
ghost use Rattle.rows.specs.Spelling.{AreBytes};

use crate::chain::Chain;
use crate::columns::Columns;
use crate::image::push_row;
use crate::image_place::ImagePlace;
use rows::limits::TABLES_MAX;
use rows::{Commit, Entry, RowId};
use std::alloc::{AllocError, Global};
use std::collections::BTreeMap;
use std::marker::Model;

/// For each row the chain of the versions that wrote it. Contracts see them by table and row.
#[derive(Drop)]
pub struct Chains {
    chains: BTreeMap<(u8, u64), Chain>,
}

impl Model for Chains {
    ghost use Rattle.mvcc.specs.Inner.Chains.{Chains as ChainsOf};

    ghost Value = { ChainsOf };

    ghost view = { λ c. c.chains.entries };
}

impl Chains {
    /// No chains. Takes no memory.
    pub fn new(alloc: Global) -> Chains
        ensures { result ≡ [] }
    {
        Chains {
            chains: BTreeMap::new(alloc),
        }
    }

    /// The last version that wrote a row; 0 if there is none.
    pub fn newest(&self, table: u8, row: RowId) -> u64
        ensures { result ≡ newest_link (links_at self.now table row.0) }
    {
        match self.chains.get(&(table, row.0)) {
            None => 0,
            Some(chain) => chain.newest(),
        }
    }

    /// A row's bytes at a version; `None` if the row is not there.
    pub fn bytes_at(&self, version: u64, table: u8, row: RowId) -> Option<&[u8]>
        requires { IsNonDecreasingBy (λ link. link.version) (links_at self.now table row.0) }
        ensures { option_map (λ b. b.now) result ≡ bytes_at version (links_at self.now table row.0) }
    {
        match self.chains.get(&(table, row.0)) {
            None => None,
            Some(chain) => chain.bytes_at(version),
        }
    }

    /// How many rows were ever written.
    pub fn len(&self) -> usize
        ensures { result ≡ length self.now }
    {
        self.chains.len()
    }

    /// Adds to an image an insert for each row of a place's table from that place on that is there at a
    /// version, in rising identifier, with the bytes of this blank row behind its own. After this many
    /// rows that were ever written, which is at least 1, it stops at the next one and answers that
    /// one's identifier; `None` if none is left. Fails only if out of memory.
    pub fn push_rows(
        &self,
        alloc: Global,
        version: u64,
        place: ImagePlace,
        most: usize,
        blank: &[u8],
        image: &mut Vec<Entry>,
    ) -> Result<Option<u64>, AllocError>
        requires table { place.table < TABLES_MAX }
        requires some { 0 < most }
        requires sorted { (table row : ℕ) → IsNonDecreasingBy (λ link. link.version) (links_at self.now table row) }
        ensures inserts { IfOk result (λ next. image.new.items ≡ image.old.items
            ++ inserts_of place.table (found_at version blank.now (chains_within place.table place.row next self.now))) }
        ensures bytes { IfOk result (λ next. AllByRecursion (λ row. AreBytes row.1)
            (found_at version blank.now (chains_within place.table place.row next self.now))) }
        ensures later { IfOk result (λ next. IfSome next (λ row. place.row < row)) }
        ensures ordered { IsStrictlySortedBy key_cmp (keys_of self.now) }
    {
        let from = (place.table, place.row);
        let mut left = most;
        for (key, chain) in self.chains.range(from..(place.table + 1, 0)) {
            if left == 0 {
                return Ok(Some(key.1));
            }
            left -= 1;
            let bytes = chain.bytes_at(version);
            push_row(alloc, image, place.table, RowId(key.1), blank, bytes)?;
        }
        Ok(None)
    }

    /// Adds links for the entries of the next commit, all of them or none, and the columns that they
    /// add to those of the tables. Fails only if out of memory. The chains are then those of the
    /// commits before it; of the columns nothing is known, unless none is added.
    pub fn link_commit(
        &mut self,
        alloc: Global,
        columns: &mut Columns,
        commits: &[Commit],
        entries: &[Entry],
    ) -> Result<(), AllocError>
        ensures linked { OnOk result ((shape : Shape) → AreLinkable shape commits.now entries.now columns.old self.old
            → AreChains shape (and_entries commits.now entries.now) self.new) }
        ensures columns { OnOk result (columns.new ≡ columns_after (length commits.now + 1) entries.now columns.old) }
        ensures valued { OnOk result (AllByRecursion HasValue entries.now) }
        ensures err { OnErr result ((shape : Shape) → AreLinkable shape commits.now entries.now columns.old self.old
            → AreChains shape commits.now self.new) }
        ensures stay { OnErr result (list_any adds_column entries.now ≡ false → columns.new ≡ columns.old) }
    {
        let linked = self.link_entries(alloc, columns, commits, entries);
        if linked.is_err() {
            self.take_back_entries(commits.len() as u64 + 1, entries);
        }
        linked
    }

    /// Adds links for the entries of the next commit, and their columns, in order, up to the first
    /// for which there is no memory; once its links are removed again, the chains are those of the
    /// commits before it.
    fn link_entries(
        &mut self,
        alloc: Global,
        columns: &mut Columns,
        commits: &[Commit],
        entries: &[Entry],
    ) -> Result<(), AllocError>
        ensures linked { OnOk result ((shape : Shape) → AreLinkable shape commits.now entries.now columns.old self.old
            → AreChains shape (and_entries commits.now entries.now) self.new) }
        ensures columns { OnOk result (columns.new ≡ columns_after (length commits.now + 1) entries.now columns.old) }
        ensures valued { OnOk result (AllByRecursion HasValue entries.now) }
        ensures err { OnErr result ((shape : Shape) → AreLinkable shape commits.now entries.now columns.old self.old
            → AreChainsTakenBack shape commits.now entries.now self.new) }
        ensures stay { OnErr result (list_any adds_column entries.now ≡ false → columns.new ≡ columns.old) }
    {
        let number = commits.len() as u64 + 1;
        for entry in entries {
            self.link(alloc, number, columns.blank(entry.table()), entry)?;
            columns.add_of(alloc, number, entry)?;
        }
        Ok(())
    }

    /// Adds a link for an entry of the commit of this number, whose table has this blank row, if it
    /// is of one row. Fails only if out of memory.
    fn link(
        &mut self,
        alloc: Global,
        number: u64,
        blank: &[u8],
        entry: &Entry,
    ) -> Result<(), AllocError>
        ensures ok { OnOk result (Turns entry.now (linked number blank.now entry.now) self.old self.new) }
        ensures err { OnErr result (self.new ≡ self.old) }
    {
        let Some(row) = entry.row() else {
            return Ok(());
        };
        let key = (entry.table(), row.0);
        if let Some(chain) = self.chains.get_mut(&key) {
            return chain.link(alloc, number, blank, entry);
        }
        let mut chain = Chain::new(alloc);
        chain.link(alloc, number, blank, entry)?;
        self.chains.insert(key, chain)?;
        Ok(())
    }

    /// Removes the links of the commit of this number from the chains of the entries' rows.
    fn take_back_entries(&mut self, number: u64, entries: &[Entry])
        ensures { (table row : ℕ) → links_at self.new table row ≡ all_taken_back number table row entries.now
            (links_at self.old table row) }
    {
        for entry in entries {
            self.take_back(number, entry);
        }
    }

    /// Removes the link of the commit of this number from the chain of the entry's row, if it is of
    /// one row.
    fn take_back(&mut self, number: u64, entry: &Entry)
        ensures { Turns entry.now (taken_back_at number) self.old self.new }
    {
        let Some(row) = entry.row() else {
            return;
        };
        let key = (entry.table(), row.0);
        let Some(chain) = self.chains.get_mut(&key) else {
            return;
        };
        chain.take_back(number);
    }
}
