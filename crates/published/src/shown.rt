//! What readers see: the versions of a list of commits, and a token of the history that the list is
//! a beginning of.

ghost use Rattle.std.specs.Prelude.{◌≡◌};

use history::SeenHistory;
use left_right::Absorb;
use mvcc::Versions;
use rows::Commit;
use std::alloc::AllocError;

/// Versions, and a token of the beginning of the history that they contain.
#[derive(Drop)]
pub struct Shown {
    pub versions: Versions,
    pub seen: SeenHistory,
}

/// The next commit, and a token of the history up to it.
#[derive(Drop)]
pub struct Publication {
    pub commit: Commit,
    pub seen: SeenHistory,
}

impl Absorb<Publication> for Shown {
    ghost use Rattle.published.specs.Publishing.{with_publication};

    type State = Shown;

    ghost state = { λ shown. shown };

    ghost applied = { with_publication };

    /// The first copy keeps a copy of the commit.
    fn absorb_first(
        &mut self,
        publication: &Publication,
        _other: &Shown,
    ) -> Result<(), AllocError> {
        self.versions.apply(&publication.commit)?;
        self.seen = publication.seen.again();
        Ok(())
    }

    /// The second copy takes the commit over.
    fn absorb_second(
        &mut self,
        publication: Publication,
        _other: &Shown,
    ) -> Result<(), Publication> {
        let Publication { commit, seen } = publication;
        match self.versions.apply_owned(commit) {
            Ok(_) => {
                self.seen = seen;
                Ok(())
            }
            Err(commit) => Err(Publication { commit, seen }),
        }
    }
}
