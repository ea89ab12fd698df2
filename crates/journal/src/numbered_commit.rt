use rows::Commit;

/// A commit, and the number that its record has in a journal.
#[derive(Drop)]
pub struct NumberedCommit {
    pub number: u64,
    pub commit: Commit,
}
