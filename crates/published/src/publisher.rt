//! The publisher: two copies of what readers see, and the commits that one of them lacks.

ghost use Rattle.std.specs.Prelude.{◌≡◌, ◌<◌, ◌^◌, [], ◌∷◌, ◌++◌, length, drop, IfOk, MatchBool, MatchResult};
ghost use Rattle.rows.specs.Shape.{shape_of};
ghost use Rattle.journal.specs.Recovery.{IsJournaled};
ghost use Rattle.history.specs.Told.{told};
ghost use Rattle.published.specs.Publishing.{IsOfLine};
ghost use Rattle.published.specs.Inner.Queue.{IsShown, with_publications};

use crate::line::{Line, Published, Sees};
use crate::shown::{Publication, Shown};
use core::mem::replace_with;
use history::SeenHistory;
use left_right::reader::Reader;
use left_right::writer::Writer;
use mvcc::Versions;
use rows::Schema;
use std::alloc::{AllocError, Global};
use std::marker::Model;
use std::sync::Wait;

/// The publisher of a line. It keeps the handle with which it waits for readers, also while it is
/// dropped.
///
/// Contracts see the published list, and the list that the next `publish` will publish.
pub struct Publisher<L: Line, R: Wait + Drop> {
    writer: Writer<Shown, Publication, (), Published<L>>,
    rt: R,
}

impl<L: Line, R: Wait + Drop> Model for Publisher<L, R> {
    ghost use Rattle.std.specs.Prelude.{drop};
    ghost use Rattle.published.specs.Publishing.{IsOfLine, Lists};
    ghost use Rattle.published.specs.Inner.Queue.{with_publications};

    ghost Value = { Lists };

    ghost view = { λ p. record {
      shown = p.writer.desk.shown.value.versions.commits;
      queued = (with_publications p.writer.desk.shown.value (drop p.writer.behind p.writer.log.items)).versions.commits;
    } };

    ghost invariant = { λ p. IsOfLine L.book L.schema L.workers p.writer.desk.shown.value
        × IsOfLine L.book L.schema L.workers (with_publications p.writer.desk.shown.value (drop p.writer.behind p.writer.log.items)) };
}

impl<L: Line, R: Wait + Drop> Drop for Publisher<L, R> {
    fn drop(self) {
        let Publisher { writer, rt } = self;
        writer.take(&rt);
    }
}

impl<L: Line, R: Wait + Drop> Publisher<L, R> {
    /// A publisher that has published no commit, with room for this many readers. `seen` is a token
    /// of a history without commits. Fails only if out of memory.
    pub fn new(
        alloc: Global,
        rt: R,
        schema: &Schema,
        seen: &SeenHistory,
        readers: usize,
    ) -> Result<Publisher<L, R>, AllocError>
        requires schema { schema.now ≡ L.schema }
        requires book { seen.now.book ≡ L.book }
        requires empty { (told seen.now.log ≡ []) × (0 < length seen.now.log) }
        requires readers { (0 < readers) × (readers < 2 ^ 32) }
        ensures { IfOk result (λ p. (p.shown ≡ []) × (p.queued ≡ [])) }
    {
        journal::laws::beginnings_are_journaled();
        let first = Shown {
            versions: Versions::new(alloc, schema)?,
            seen: seen.again(),
        };
        let second = Shown {
            versions: Versions::new(alloc, schema)?,
            seen: seen.again(),
        };
        Ok(Publisher {
            writer: Writer::new(alloc, first, second, readers)?,
            rt,
        })
    }

    /// A reader of what is published. Fails if every reader that there is room for is in use, or if
    /// out of memory.
    pub fn reader(&self) -> Result<Reader<Shown, (), Published<L>>, AllocError> {
        self.writer.factory().reader()
    }

    /// Adds the next commit to what will be published. If out of memory, it hands the publication back.
    pub fn push(&mut self, publication: Publication) -> Result<(), Publication>
        requires book { publication.seen.book ≡ L.book }
        requires history { told publication.seen.log ≡ self.old.queued ++ publication.commit ∷ [] }
        requires some { 0 < length publication.seen.log }
        requires legal { IsJournaled L.workers (shape_of L.schema) (self.old.queued ++ publication.commit ∷ []) }
        ensures shown { self.new.shown ≡ self.old.shown }
        ensures queued { MatchResult result (λ _. self.new.queued ≡ self.old.queued ++ publication.commit ∷ [])
            (λ back. (back ≡ publication) × (self.new.queued ≡ self.old.queued)) }
    {
        rows::laws::commits_are_defined_one_by_one();
        self.writer.append(publication)
    }

    /// Publishes everything that was added, and answers whether there was memory for it. It waits
    /// for readers that entered before the previous publication and have not left.
    pub fn publish(&mut self) -> bool
        ensures queued { self.new.queued ≡ self.old.queued }
        ensures shown { MatchBool result (self.new.shown ≡ self.new.queued) (self.new.shown ≡ self.old.shown) }
    {
        replace_with(
            &mut self.writer,
            &self.rt,
            |writer: Writer<Shown, Publication, (), Published<L>>, rt: &R| -> (
                Writer<Shown, Publication, (), Published<L>>,
                bool,
            )
                requires { IsOfLine L.book L.schema L.workers
                    (with_publications writer.desk.shown.value (drop writer.behind writer.log.items)) }
                ensures { IsShown (with_publications writer.desk.shown.value (drop writer.behind writer.log.items)) writer.desk.shown.value
                    (with_publications result.0.desk.shown.value (drop result.0.behind result.0.log.items))
                    result.0.desk.shown.value result.1 }
            { show::<L, R>(rt, writer) },
        )
    }
}

/// Publishes everything that was added, and answers whether there was memory for it.
fn show<L: Line, R: Wait + Drop>(
    rt: &R,
    writer: Writer<Shown, Publication, (), Published<L>>,
) -> (Writer<Shown, Publication, (), Published<L>>, bool)
    requires { IsOfLine L.book L.schema L.workers (with_publications writer.desk.shown.value (drop writer.behind writer.log.items)) }
    ensures { IsShown (with_publications writer.desk.shown.value (drop writer.behind writer.log.items)) writer.desk.shown.value
        (with_publications result.0.desk.shown.value (drop result.0.behind result.0.log.items)) result.0.desk.shown.value result.1 }
{
    match writer.publish_as::<Sees<L>, R>(rt) {
        (writer, Ok(())) => (writer, true),
        (writer, Err(_)) => (writer, false),
    }
}
