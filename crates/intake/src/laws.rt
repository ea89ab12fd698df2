//! Laws of what has arrived.

ghost use Rattle.intake.specs.Laws.{NothingIsFrom, CommitsKeepFrom, FramesKeepFrom, DropsKeepFrom, GainsKeepFrom, KeptAreOfStream};
ghost use Rattle.intake.specs.Laws.{FramesLeaveWorkers, DropsLeaveWorkers, FramesStayKnown, DropsLeaveKnown};
ghost use Rattle.intake.specs.Laws.{FramesStayKept, DropsStayKept, NoneLackingIsComplete, LackingIsOfWorker};
ghost use Rattle.intake.specs.Laws.{FirstMissingIsLeast, LackingIsLeast};
ghost use Rattle.intake.specs.Laws.{GainsLeaveWorkers, GainsAreKnown, GainsLeaveKept};
ghost use Rattle.intake.specs.Laws.{NothingIsOf, FramesKeepOf, KeptAreOf, ReleasesLeaveOthers, ReleasesLeaveWorkers};

/// If only frames of a list of commits arrive at an intake, it has frames of that list's streams,
/// also as the list grows, as frames are dropped, and as frames of these streams are gained; and a
/// run of frames that it keeps is that run of the stream. It does nothing: its contract is the laws.
pub fn arrivals_stay_of_streams()
    ensures nothing { NothingIsFrom }
    ensures commits { CommitsKeepFrom }
    ensures frames { FramesKeepFrom }
    ensures drops { DropsKeepFrom }
    ensures gains { GainsKeepFrom }
    ensures kept { KeptAreOfStream }
{}

/// What is known stays known as frames arrive and are dropped, and what is known and was not
/// dropped stays kept. `Intake::first_missing_from` names no frame exactly if each frame from the
/// bases to before the counts is known. It does nothing: its contract is the laws.
pub fn known_frames_stay_kept()
    ensures frames_leave { FramesLeaveWorkers }
    ensures drops_leave { DropsLeaveWorkers }
    ensures known { FramesStayKnown }
    ensures drops_known { DropsLeaveKnown }
    ensures kept { FramesStayKept }
    ensures drops_kept { DropsStayKept }
    ensures complete { NoneLackingIsComplete }
    ensures lacking { LackingIsOfWorker }
{}

/// The first missing seq from a base on is the least there that is not known.
/// `Intake::first_missing_from` names the least worker that lacks a frame from its base to before
/// its count, with the least such seq, and `Intake::first_missing` does so from 0 on. It does
/// nothing: its contract is the laws.
pub fn first_missing_is_least()
    ensures first { FirstMissingIsLeast }
    ensures lacking { LackingIsLeast }
{}

/// `Intake::gain` makes exactly the frames below the bases known, beside those that were, and leaves
/// which frames are kept and how many workers there are. It does nothing: its contract is the laws.
pub fn frames_are_gained()
    ensures workers { GainsLeaveWorkers }
    ensures known { GainsAreKnown }
    ensures kept { GainsLeaveKept }
{}

/// A worker's frames may be any list: if only frames of it arrive, what is known and kept is of that
/// list, and a run of frames that is kept is that run of it. `Intake::release` leaves all other
/// frames of the worker. It does nothing: its contract is the laws.
pub fn arrivals_stay_of_a_list()
    ensures nothing { NothingIsOf }
    ensures frames { FramesKeepOf }
    ensures kept { KeptAreOf }
    ensures released { ReleasesLeaveOthers }
    ensures workers { ReleasesLeaveWorkers }
{}
