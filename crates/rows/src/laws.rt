//! Laws of the definitions.

ghost use Rattle.rows.specs.Laws.{EntryTellsKinds, EntriesTellKinds, AppliedTellKinds, CommitsTellKinds, VersionsTellKinds};
ghost use Rattle.rows.specs.Laws.{TablesStay, ColumnsStay, RoomKeepsLimits, LimitsStay, EntryKeepsRows, CommitsKeepRows};
ghost use Rattle.rows.specs.Laws.{VersionsAreOfKinds, FoundAreSpelled, SpelledAreFound, IsSymmetric};
ghost use Rattle.rows.specs.Laws.{BytesEqual, EntryEquals, EntriesEqual, CommitEquals};
ghost use Rattle.rows.specs.Laws.{NumbersAreSpelled, NumbersAreBelow, FoundColumnsFit, WidthTellsValue};
ghost use Rattle.rows.specs.ListLaws.{BeginningsAreDefined, EachIsDefined, EachFits, EachHasTable, OneMoreIsDefined};
ghost use Rattle.rows.specs.ListLaws.{UndefinedStayUndefined, OneMoreEntryIsDefined, UntouchedStayDefined, PresenceIsTold};
ghost use Rattle.rows.specs.ListLaws.{RowsAreLeft, RowsAreSeen};
ghost use Rattle.rows.specs.EntryLaws.{EntryIsMade, FitsWithin, EntryLeavesRows, RowIsPut, ReplacedTable, OtherTables};
ghost use Rattle.rows.specs.ImageLaws.{ImageRebuilds, VersionsRise, VersionsHaveImages, ImagesAreSpelled, BytesAreBack, ImagesReplace};

/// The kinds of the tables' columns after entries and commits follow from these alone; entries add
/// columns behind those that are there, within the limits. It does nothing: its contract is the law.
pub fn changes_tell_kinds()
    ensures entry { EntryTellsKinds }
    ensures entries { EntriesTellKinds }
    ensures applied { AppliedTellKinds }
    ensures commits { CommitsTellKinds }
    ensures versions { VersionsTellKinds }
    ensures tables { TablesStay }
    ensures columns { ColumnsStay }
    ensures room { RoomKeepsLimits }
    ensures limits { LimitsStay }
{}

/// What an entry needs, and what it makes of the tables, of each row, and of the rows of one table.
/// It does nothing: its contract is the law.
pub fn entries_are_made_where_they_fit()
    ensures made { EntryIsMade }
    ensures within { FitsWithin }
    ensures rows { EntryLeavesRows }
    ensures put { RowIsPut }
    ensures replaced { ReplacedTable }
    ensures others { OtherTables }
{}

/// Each row has a value for each of its table's columns, of the column's kind, and entries and
/// commits preserve that. It does nothing: its contract is the law.
pub fn rows_are_of_kinds()
    ensures entry { EntryKeepsRows }
    ensures commits { CommitsKeepRows }
    ensures versions { VersionsAreOfKinds }
{}

/// A list of commits that is defined is also defined up to each version, commit by commit, and with
/// one more commit that is defined after it; its entries fit. It does nothing: its contract is the
/// law.
pub fn commits_are_defined_one_by_one()
    ensures beginnings { BeginningsAreDefined }
    ensures each { EachIsDefined }
    ensures fits { EachFits }
    ensures tables { EachHasTable }
    ensures longer { OneMoreIsDefined }
{}

/// Entries that are defined are defined one by one, and stay defined if no later commit touches
/// their rows; the entries alone determine which rows are there after them. It does nothing: its
/// contract is the law.
pub fn entries_are_defined_one_by_one()
    ensures undefined { UndefinedStayUndefined }
    ensures longer { OneMoreEntryIsDefined }
    ensures untouched { UntouchedStayDefined }
    ensures presence { PresenceIsTold }
{}

/// A row's values after commits, and after entries that fit, depend on these alone. It does
/// nothing: its contract is the law.
pub fn rows_are_as_entries_leave_them()
    ensures left { RowsAreLeft }
    ensures seen { RowsAreSeen }
{}

/// The image of tables rebuilds them from those of an opening. The tables at each version have one,
/// whose entries have spellings, and which stands for all commits up to that version. It does
/// nothing: its contract is the law.
pub fn images_rebuild_tables()
    ensures rebuilds { ImageRebuilds }
    ensures rise { VersionsRise }
    ensures versions { VersionsHaveImages }
    ensures spelled { ImagesAreSpelled }
    ensures back { BytesAreBack }
    ensures replace { ImagesReplace }
{}

/// A column is as wide as its bytes, and the bytes determine its value. It does nothing: its
/// contract is the law.
pub fn columns_are_of_their_width()
    ensures column { FoundColumnsFit }
    ensures value { WidthTellsValue }
{}

/// Numbers that are read from bytes are spelled there. It does nothing: its contract is the law.
pub fn numbers_are_read_as_spelled()
    ensures spelled { NumbersAreSpelled }
    ensures below { NumbersAreBelow }
{}

/// Entries that are read from bytes, and fill them, are spelled there, and entries that are spelled
/// there are read. It does nothing: its contract is the law.
pub fn entries_are_read_as_spelled()
    ensures found { FoundAreSpelled }
    ensures spelled { SpelledAreFound }
{}

/// Whether two entries conflict does not depend on their order. It does nothing: its contract is
/// the law.
pub fn overlap_is_symmetric()
    ensures { IsSymmetric }
{}

/// `==` is true exactly if both sides are equal. It does nothing: its contract is the law.
pub fn equal_is_same()
    ensures bytes { BytesEqual }
    ensures entry { EntryEquals }
    ensures entries { EntriesEqual }
    ensures commit { CommitEquals }
{}
