//! Pens, each with the right to write a word of its own that the log does not hold yet.

ghost use Rattle.std.specs.Prelude.{◌≡◌};
ghost use Rattle.logbook.specs.Pages.{may_write};
ghost use Rattle.history.specs.Inner.Rule.{head_of};

use crate::law::{Asked, Head, NoTrade, SeenHistory};
use crate::steps::MakePen;
use logbook::{Pen, Word};

/// A new pen of the history.
pub(crate) fn new_pen(head: &Head, seen: &SeenHistory) -> Pen
    requires { head.now ≡ head_of seen.now.book }
    ensures { (result.book ≡ seen.now.book) × (result.nib.right ≡ may_write) }
{
    let mut seen = seen.again();
    let mut pen = seen.no_pen();
    let mut asked: Asked = seen.plain::<NoTrade, (), MakePen>(&());
    let _ = head.compare_exchange::<MakePen, NoTrade>(1, 1, &mut seen, &mut asked, &mut pen);
    // The pen may make a word; once that is made, the pen may write it. The word itself is not
    // used.
    let _word: Head = Word::tracked(0, &mut pen);
    pen
}
