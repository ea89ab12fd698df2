//! Every version of the database: the list of its commits.

ghost use Rattle.std.specs.Prelude.{◌≡◌, ◌<◌, ◌≤◌, ◌-◌, ◌∷◌, [], ◌++◌, ℕ, length, true, slice_get, take, drop};
ghost use Rattle.std.specs.Prelude.{None, Some, IfOk, IfErr, OnOk, OnErr};
ghost use Rattle.std.specs.Prelude.{IsOk, IfSome};
ghost use Rattle.std.specs.Prelude.{if◌then◌else◌, ◌==◌};
ghost use Rattle.std.specs.Bool.{OnTrue};
ghost use Rattle.std.specs.List.{AllByRecursion, list_all};
ghost use Rattle.std.specs.Option.{option_map};
ghost use Rattle.rows.specs.Image.{image_of};
ghost use Rattle.rows.specs.Shape.{shape_of, kinds_in, is_good, AreColumns};
ghost use Rattle.rows.specs.Tables.{opening, shape_in, is_row_at};
ghost use Rattle.rows.specs.Commits.{apply_commits, last_touching};
ghost use Rattle.rows.specs.Spelling.{HasSpelling};
ghost use Rattle.mvcc.specs.VersionList.{absorbed, defined_at, tables_at};
ghost use Rattle.mvcc.specs.Newest.{newest_of, newest_in, newest_added};
ghost use Rattle.mvcc.specs.ImageParts.{image_rest, IsLaterPlace};
ghost use Rattle.mvcc.specs.Inner.Images.{table_part};
ghost use Rattle.mvcc.specs.Inner.Newest.{newest_for};
ghost use Rattle.mvcc.specs.Values.{value_in};

use crate::cells::value_in_wide;
use crate::chains::Chains;
use crate::columns::Columns;
use crate::defining::are_defined;
use crate::image::push_columns;
use crate::image_place::ImagePlace;
use crate::last_commits::LastCommits;
use crate::laws::rows_have_their_bytes;
use rows::laws::{
    changes_tell_kinds, columns_are_of_their_width, commits_are_defined_one_by_one,
    entries_are_defined_one_by_one, images_rebuild_tables,
};
use rows::limits::TABLES_MAX;
use rows::{Commit, Entry, EntryList, Kind, RowId, Schema, Value, width_of_row};
use std::alloc::{AllocError, Global};
use std::marker::Model;

/// The versions of a database: version `n` is the rows after the first `n` commits.
///
/// Contracts see the schema and the list of commits. Each commit's entries are defined where they
/// stand.
#[derive(Drop)]
pub struct Versions {
    alloc: Global,
    schema: Schema,
    commits: Vec<Commit>,
    chains: Chains,
    columns: Columns,
    last: LastCommits,
}

impl Model for Versions {
    ghost use Rattle.rows.specs.Shape.{shape_of};
    ghost use Rattle.mvcc.specs.VersionList.{VersionList};
    ghost use Rattle.mvcc.specs.Inner.Chains.{AreVersions};

    ghost Value = { VersionList };

    ghost view = { λ v. record { schema = v.schema; commits = v.commits.items } };

    ghost invariant = { λ v. AreVersions (shape_of v.schema) v.commits.items v.chains v.columns v.last };
}

impl Versions {
    /// The versions of a database without commits. Fails only if out of memory.
    pub fn new(alloc: Global, schema: &Schema) -> Result<Versions, AllocError>
        ensures { IfOk result (λ versions. versions ≡ record { schema = schema.now; commits = [] }) }
    {
        let schema = schema.clone()?;
        let columns = Columns::new(alloc, &schema)?;
        let last = LastCommits::new(alloc, schema.len())?;
        Ok(Versions {
            alloc,
            schema,
            commits: Vec::new(alloc),
            chains: Chains::new(alloc),
            columns,
            last,
        })
    }

    /// Each entry of the commits is defined where it stands, in the whole list and in each
    /// beginning of it. It does nothing: its contract is the law.
    pub fn keeps_defined(&self)
        ensures all { IsOk (apply_commits (opening (shape_of self.now.schema)) self.now.commits) }
        ensures first { (version : ℕ)
            → IsOk (apply_commits (opening (shape_of self.now.schema)) (take version self.now.commits)) }
    {
        commits_are_defined_one_by_one();
        // A look at a field makes the invariant known to the proof.
        let _ = &self.chains;
    }

    /// How many commits there are, which is the newest version.
    pub fn len(&self) -> u64
        ensures { result ≡ length self.now.commits }
    {
        self.commits.len() as u64
    }

    /// Whether there is no commit.
    pub fn is_empty(&self) -> bool
        ensures { result ≡ (length self.now.commits == 0) }
    {
        self.commits.is_empty()
    }

    /// The names of the tables, with the kinds of the columns that they were opened with.
    pub fn schema(&self) -> &Schema
        ensures { result.now ≡ self.now.schema }
    {
        &self.schema
    }

    /// The commits, lent.
    pub fn commits(&self) -> &[Commit]
        ensures { result.now ≡ self.now.commits }
    {
        &self.commits
    }

    /// The `number`-th commit, counted from 1.
    pub fn commit_at(&self, number: u64) -> Option<&Commit>
        ensures { option_map (λ c. c.now) result ≡ (if number == 0 then None else slice_get self.now.commits (number - 1)) }
    {
        let index = number.checked_sub(1)?;
        self.commits.as_slice().get(index as usize)
    }

    /// Adds a commit of a worker at the end, with a copy of these entries. Fails only if out of
    /// memory.
    pub fn absorb(&mut self, worker: u8, entries: &[Entry]) -> Result<(), AllocError>
        requires { defined_at self.old (length self.old.commits) entries.now ≡ true }
        ensures ok { OnOk result
            (self.new ≡ record self.old { commits = self.old.commits ++ record { worker = worker; entries = entries.now } ∷ [] }) }
        ensures err { OnErr result (self.new ≡ self.old) }
    {
        let commit = Commit {
            worker,
            entries: EntryList::from_slice(self.alloc, entries)?,
        };
        self.add(commit).map_err(|_| AllocError)
    }

    /// Adds a commit at the end, with a copy of its entries, if each of them is defined where it
    /// stands on the newest rows, and otherwise changes nothing; answers whether it was added.
    /// Fails only if out of memory.
    pub fn apply(&mut self, commit: &Commit) -> Result<bool, AllocError>
        ensures ok { IfOk result (λ added. (added ≡ defined_at self.old (length self.old.commits) commit.now.entries)
            × (self.new ≡ absorbed self.old commit.now)) }
        ensures err { OnErr result (self.new ≡ self.old) }
    {
        let entries = commit.entries.as_slice();
        if !self.are_defined(self.len(), entries) {
            return Ok(false);
        }
        self.absorb(commit.worker, entries)?;
        Ok(true)
    }

    /// The same as `apply`, but takes the commit over and does not copy its list. If it fails, it
    /// hands the commit back.
    pub fn apply_owned(&mut self, commit: Commit) -> Result<bool, Commit>
        ensures ok { IfOk result (λ added. (added ≡ defined_at self.old (length self.old.commits) commit.entries)
            × (self.new ≡ absorbed self.old commit)) }
        ensures err { IfErr result (λ back. (back ≡ commit) × (self.new ≡ self.old)) }
    {
        if !self.are_defined(self.len(), commit.entries.as_slice()) {
            return Ok(false);
        }
        self.add(commit)?;
        Ok(true)
    }

    /// Adds a commit at the end. Fails only if out of memory, and then hands the commit back.
    fn add(&mut self, commit: Commit) -> Result<(), Commit>
        requires { defined_at self.old (length self.old.commits) commit.entries ≡ true }
        ensures ok { OnOk result (self.new ≡ record self.old { commits = self.old.commits ++ commit ∷ [] }) }
        ensures err { IfErr result (λ back. (back ≡ commit) × (self.new ≡ self.old)) }
    {
        commits_are_defined_one_by_one();
        let Ok(()) = self.commits.reserve(1) else {
            return Err(commit);
        };
        let commits = self.commits.as_slice();
        let entries = commit.entries.as_slice();
        let number = commits.len() as u64 + 1;
        let Ok(before) = self.columns.copy_for(entries) else {
            return Err(commit);
        };
        let Ok(()) = self
            .chains
            .link_commit(self.alloc, &mut self.columns, commits, entries)
        else {
            self.columns.replace_by(before);
            return Err(commit);
        };
        self.last.note(number, entries);
        self.commits.push_reserved(commit);
        Ok(())
    }

    /// Whether each of the entries is defined where it stands on the rows at that version. Each
    /// entry that is defined has a spelling. It costs one or two look-ups for each entry, while
    /// there is memory to record the rows that the entries before it wrote; without memory it goes
    /// over the earlier entries for each one.
    pub fn are_defined(&self, version: u64, entries: &[Entry]) -> bool
        requires { version ≤ length self.now.commits }
        ensures answer { result ≡ defined_at self.now version entries.now }
        ensures spelled { OnTrue result (AllByRecursion HasSpelling entries.now) }
    {
        are_defined(self.alloc, self, version, entries)
    }

    /// The kinds of a table's columns at that version; `None` if there is no table of that number.
    /// Takes no memory.
    pub fn kinds_at(&self, version: u64, table: u8) -> Option<&[Kind]>
        ensures value { option_map (λ k. k.now) result ≡ slice_get (shape_in (tables_at self.now version)) table }
        ensures bounds { IfSome result (λ k. (table < TABLES_MAX) × AreColumns k.now) }
    {
        commits_are_defined_one_by_one();
        changes_tell_kinds();
        self.schema.keeps_limits();
        let columns = self.columns.of(table)?;
        Some(columns.kinds_at(version))
    }

    /// Whether the row is there at that version.
    pub fn is_present(&self, version: u64, table: u8, row: RowId) -> bool
        requires { version ≤ length self.now.commits }
        ensures { result ≡ is_row_at (tables_at self.now version) table row.0 }
    {
        rows_have_their_bytes();
        self.chains.bytes_at(version, table, row).is_some()
    }

    /// The value of a column of a row at that version; `None` if the row is not there, or has no
    /// such column.
    pub fn value_at(&self, version: u64, table: u8, row: RowId, column: usize) -> Option<Value>
        requires { version ≤ length self.now.commits }
        ensures { result ≡ value_in (tables_at self.now version) table row.0 column }
    {
        rows_have_their_bytes();
        commits_are_defined_one_by_one();
        changes_tell_kinds();
        columns_are_of_their_width();
        self.schema.keeps_limits();
        let bytes = self.chains.bytes_at(version, table, row)?;
        let kinds = self.kinds_at(version, table)?;
        value_in_wide(kinds, self.columns.blank(table), bytes, column)
    }

    /// The image of the tables at that version: entries that rebuild them from those that the schema
    /// opens. Table by table it has an added column, with zeros, for each column that commits added,
    /// and then an insert for each row, in rising identifier. It costs a search for each row that was
    /// ever written, and copies each row's bytes. Fails only if out of memory.
    pub fn image(&self, version: u64) -> Result<Vec<Entry>, AllocError>
        ensures { IfOk result
            (λ entries. entries.items ≡ image_of (shape_of self.now.schema) (tables_at self.now version)) }
    {
        let mut image = Vec::with_capacity(self.alloc, self.image_len_max(version))?;
        let mut place = Some(ImagePlace::first());
        while let Some(begin) = place {
            place = self.push_image_part(version, begin, usize::MAX, &mut image)?;
        }
        Ok(image)
    }

    /// Adds a part of the image of the tables at that version, from a place on: rows of one table, as
    /// many as go over this many rows that were ever written, and one at least, and before the first
    /// of them the table's added columns. Answers the place where the image goes on; `None` if this
    /// was its last part. Who makes an image part by part reads the versions for a short time each,
    /// and later commits may be added meanwhile. Fails only if out of memory.
    pub fn push_image_part(
        &self,
        version: u64,
        place: ImagePlace,
        most: usize,
        image: &mut Vec<Entry>,
    ) -> Result<Option<ImagePlace>, AllocError>
        ensures part { IfOk result (λ next.
            image.new.items ++ image_rest (shape_of self.now.schema) (tables_at self.now version) next
            ≡ image.old.items ++ image_rest (shape_of self.now.schema) (tables_at self.now version) (Some place)) }
        ensures later { IfOk result (λ next. IfSome next (IsLaterPlace place)) }
    {
        changes_tell_kinds();
        images_rebuild_tables();
        self.schema.keeps_limits();
        let table = place.table;
        if table as usize >= TABLES_MAX {
            return Ok(None);
        }
        if let Some(row) = self.push_table_part(version, place, most.max(1), image)? {
            return Ok(Some(ImagePlace { table, row }));
        }
        let table = table + 1;
        if table as usize >= TABLES_MAX {
            return Ok(None);
        }
        Ok(Some(ImagePlace { table, row: 0 }))
    }

    /// How many entries the image of the tables at that version has at most: one for each column that
    /// was added, and one for each row that was ever written.
    fn image_len_max(&self, version: u64) -> usize {
        let mut count = self.chains.len();
        for table in 0..TABLES_MAX as u8 {
            count = count.saturating_add(self.added_at(version, table).len());
        }
        count
    }

    /// The kinds of the columns that a table has at that version behind those that it was opened
    /// with; none if there is no table of that number.
    fn added_at(&self, version: u64, table: u8) -> &[Kind]
        ensures value { result.now ≡ drop (length (kinds_in (shape_of self.now.schema) table))
            (kinds_in (shape_in (tables_at self.now version)) table) }
        ensures good { list_all is_good result.now ≡ true }
    {
        commits_are_defined_one_by_one();
        changes_tell_kinds();
        let Some(opened) = self.schema.kinds(table as usize) else {
            return &[];
        };
        let Some(kinds) = self.kinds_at(version, table) else {
            return &[];
        };
        let (_, added) = kinds.split_at(opened.len());
        added
    }

    /// Adds the image of a place's table at that version from that place on, if there is a table of that
    /// number: from row 0 on with its added columns. It goes over this many rows that were ever written,
    /// and answers the identifier of the next one; `None` if none is left. Fails only if out of memory.
    fn push_table_part(
        &self,
        version: u64,
        place: ImagePlace,
        most: usize,
        image: &mut Vec<Entry>,
    ) -> Result<Option<u64>, AllocError>
        requires table { place.table < TABLES_MAX }
        requires some { 0 < most }
        ensures part { IfOk result (λ next. image.new.items ≡ image.old.items
            ++ table_part (shape_of self.now.schema) (tables_at self.now version) place.table place.row next) }
        ensures later { IfOk result (λ next. IfSome next (λ row. place.row < row)) }
    {
        rows_have_their_bytes();
        images_rebuild_tables();
        commits_are_defined_one_by_one();
        changes_tell_kinds();
        let table = place.table;
        let Some(kinds) = self.kinds_at(version, table) else {
            return Ok(None);
        };
        if place.row == 0 {
            push_columns(image, table, self.added_at(version, table))?;
        }
        let (blank, _) = self.columns.blank(table).split_at(width_of_row(kinds));
        self.chains
            .push_rows(self.alloc, version, place, most, blank, image)
    }

    /// The number of the last commit with an entry of that row; 0 if there is none. A commit that
    /// adds a column has an entry of every row of the table, whether the row is there or not.
    pub fn newest(&self, table: u8, row: RowId) -> u64
        ensures { result ≡ newest_of table row.0 self.now.commits }
    {
        self.chains.newest(table, row).max(self.newest_added(table))
    }

    /// The number of the last commit with an entry of that table, whether of a row or of an added
    /// column; 0 if there is none, or no table of that number.
    pub fn newest_in(&self, table: u8) -> u64
        ensures { result ≡ newest_in table self.now.commits }
    {
        commits_are_defined_one_by_one();
        self.last.of(table)
    }

    /// The number of the last commit that adds a column to that table; 0 if there is none, or no
    /// table of that number.
    pub fn newest_added(&self, table: u8) -> u64
        ensures { result ≡ newest_added table self.now.commits }
    {
        commits_are_defined_one_by_one();
        self.columns.last_added(table)
    }

    /// The number of the last commit that touches these entries: that has an entry of a row of
    /// theirs, adds a column to a table of theirs, or has an entry of a table to which one of them
    /// adds a column; 0 if none does. Entries that are defined at the version of that number, or at
    /// a later one, are also defined at the newest.
    pub fn last_touching(&self, entries: &[Entry]) -> u64
        ensures last { result ≡ last_touching entries.now 0 self.now.commits }
        ensures stay_defined { (version : ℕ) → result ≤ version → defined_at self.now version entries.now ≡ true
            → defined_at self.now (length self.now.commits) entries.now ≡ true }
    {
        entries_are_defined_one_by_one();
        // A look at a field makes the invariant known to the proof.
        let _ = &self.chains;
        let mut last = 0;
        for entry in entries {
            let newest = self.newest_for(entry);
            if last < newest {
                last = newest;
            }
        }
        last
    }

    /// The number of the last commit that touches the entry; 0 if none does.
    fn newest_for(&self, entry: &Entry) -> u64
        ensures { result ≡ newest_for entry.now self.now.commits }
    {
        match entry.row() {
            Some(row) => self.newest(entry.table(), row),
            None => self.newest_in(entry.table()),
        }
    }
}
