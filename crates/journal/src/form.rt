/// Which form the text of a journal has. A text of version 1 has no commit that adds a column; a
/// mark ends its part of a journal that then goes on as version 2.
#[derive(Clone, Copy, PartialEq, Eq)]
pub enum Form {
    /// Of version 2 from the beginning.
    New,
    /// Of version 1.
    Old,
    /// Of version 1 for so many commits, then the mark, then of version 2.
    Marked(u64),
}

impl Form {
    ghost use Rattle.std.specs.Prelude.{◌≡◌};
    ghost use Rattle.journal.specs.Text.{version_of, started};

    /// The version of what may be appended to such a text: 1 or 2.
    pub fn version(&self) -> u8
        ensures { result ≡ version_of self.now }
    {
        match self {
            Form::New | Form::Marked(_) => 2,
            Form::Old => 1,
        }
    }
    /// The form that a start leaves of a text of this form and of so many commits.
    pub fn started(self, commits: u64) -> Form
        ensures { result ≡ started self commits }
    {
        match self {
            Form::Old => Form::Marked(commits),
            Form::New | Form::Marked(_) => self,
        }
    }
}
