//! The laws of `rows` on which a change of partitions rests, in one.

ghost use Rattle.apply.specs.Inner.EntryLaws.{AreEntryLaws};

use rows::laws;

/// What an entry needs, and what it makes of tables. It does nothing: its contract is the law.
pub fn entries_make_tables()
    ensures { AreEntryLaws }
{
    laws::changes_tell_kinds();
    laws::entries_are_made_where_they_fit();
}
