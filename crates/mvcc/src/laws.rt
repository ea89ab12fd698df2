//! What holds for every list of commits.

ghost use Rattle.mvcc.specs.Inner.RowBytes.{RowsHaveBytes};

/// The values of a row at a version are those of its bytes. It does nothing: its contract is the law.
pub fn rows_have_their_bytes()
    ensures { RowsHaveBytes }
{
    rows::laws::changes_tell_kinds();
    rows::laws::columns_are_of_their_width();
    rows::laws::commits_are_defined_one_by_one();
    rows::laws::rows_are_as_entries_leave_them();
}
