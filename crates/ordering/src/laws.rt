//! Laws of merging.

ghost use Rattle.ordering.specs.Laws.{MergeIsUnique, CutFramesMerge, KeptFramesMerge};
ghost use Rattle.ordering.specs.Laws.{PartsJoin, PartBeginsMerge, MergeBeginsWithPart};

use intake::arrivals_stay_of_streams;

/// Frames hold at most one list of commits, and the frames that were cut from a list of commits
/// hold that list. So do the frames that an intake keeps, if everything that arrived at it belongs
/// to the streams of these commits. So they are never inconsistent. It does nothing: its contract
/// is the law.
pub fn one_merge()
    ensures only { MergeIsUnique }
    ensures cut { CutFramesMerge }
    ensures kept { KeptFramesMerge }
{
    arrivals_stay_of_streams();
}

/// The commits that frames hold first, part by part, are together those that they hold first. With a
/// merge of the rest behind them they are a merge of all, and each merge of all is such a one. So the
/// merge of frames can be taken part by part, and is refused in a later part only if there is none.
/// It does nothing: its contract is the law.
pub fn parts_make_the_merge()
    ensures join { PartsJoin }
    ensures begin { PartBeginsMerge }
    ensures only { MergeBeginsWithPart }
{}
