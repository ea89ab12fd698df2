//! Laws of the journal's text, and of recovery.

ghost use Rattle.journal.specs.Laws.{TextsAreOneToOne, IsNested, TextGrows, StartMarks, StartedGoesOn};
ghost use Rattle.journal.specs.Laws.{EmptyIsJournaled, BeginningIsJournaled};
ghost use Rattle.journal.specs.Laws.{StartsAgain, HeaderStartsAgain};
ghost use Rattle.journal.specs.Laws.{StopsAreRecovered, FormStays, IsRecoveredOnce, IsNotRefused, IsRefusedOnce};

/// The text of a list of commits determines the list and the form; if the texts of two lists begin
/// the same bytes, one list is a beginning of the other. It does nothing: its contract is the law.
pub fn texts_determine_commits()
    ensures one_to_one { TextsAreOneToOne }
    ensures nested { IsNested }
{
    rows::laws::entries_are_read_as_spelled();
}

/// A text grows by the records of more commits. What a start writes behind a text makes it one that
/// goes on as version 2, with whatever commits. It does nothing: its contract is the law.
pub fn texts_grow()
    ensures grows { TextGrows }
    ensures marks { StartMarks }
    ensures goes_on { StartedGoesOn }
{}

/// A journal may be of no commits, and of each beginning of a list that it may be of. It does
/// nothing: its contract is the law.
pub fn beginnings_are_journaled()
    ensures empty { EmptyIsJournaled }
    ensures beginning { BeginningIsJournaled }
{}

/// If a start is cut short while it writes behind a text, or while it writes a header, the same
/// commits are recovered, and the next start leaves the same form. It does nothing: its contract is
/// the law.
pub fn starts_go_on()
    ensures again { StartsAgain }
    ensures header { HeaderStartsAgain }
{
    rows::laws::entries_are_read_as_spelled();
}

/// Whatever a crash leaves of the text of a list that a journal may be of, the first commits of the
/// list are recovered; if it leaves a text of version 2, this is recovered as of the same form.
/// Recovery of bytes has one result: either one list of commits or one refusal. It does nothing:
/// its contract is the law.
pub fn stops_are_recovered()
    ensures stops { StopsAreRecovered }
    ensures form { FormStays }
    ensures once { IsRecoveredOnce }
    ensures not_refused { IsNotRefused }
    ensures refused_once { IsRefusedOnce }
{
    rows::laws::entries_are_read_as_spelled();
}
