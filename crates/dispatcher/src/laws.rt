//! Laws of a replica's steps.

ghost use Rattle.dispatcher.specs.Feeding.{FreshIsFed, CommitsKeepFed, BytesKeepFed, OpenKeepsFed, AskKeepsFed, RenewKeepsFed, RunKeepsFed};
ghost use Rattle.dispatcher.specs.Feeding.{RunIsConsistent, AnswerIsReport, ReadyIsAnswered, VersionTellsTables};
ghost use Rattle.dispatcher.specs.Feeding.{TruthStays, TrueHeadGoesOn, TrueFrameIsTaken, TruePieceIsTaken, DumpIsTables};
ghost use Rattle.dispatcher.specs.Feeding.{StepsKeepIdentity};

use intake::{
    arrivals_stay_of_a_list, arrivals_stay_of_streams, frames_are_gained, known_frames_stay_kept,
};
use ordering::one_merge;
use queries::laws::plans_still_fit;
use rows::laws::{changes_tell_kinds, commits_are_defined_one_by_one, images_rebuild_tables};

/// A replica is fed from a legal list of commits if everything that it knows belongs to that list:
/// its frames, its pieces, its tables, and the version that it fetched. A fresh replica is fed; each
/// step keeps it fed if what arrives is true of the list; and its runs report on rows of the list.
/// While the replica is not broken, it never ignores a frame of the list, nor a piece of the image
/// that its batch goes by: the intake takes it. Two fed replicas at one version hold the same tables.
/// While a replica is not broken, its dump is the text of the tables after exactly the commits up to
/// its version. No step changes the names of the tables, the number of workers, or the replica's
/// number and boot. It does nothing: its contract is the laws.
pub fn fed_replicas_stay_fed()
    ensures fresh { FreshIsFed }
    ensures commits { CommitsKeepFed }
    ensures truth { TruthStays }
    ensures bytes { BytesKeepFed }
    ensures head { TrueHeadGoesOn }
    ensures frame { TrueFrameIsTaken }
    ensures piece { TruePieceIsTaken }
    ensures open { OpenKeepsFed }
    ensures ask { AskKeepsFed }
    ensures renew { RenewKeepsFed }
    ensures run { RunKeepsFed }
    ensures consistent { RunIsConsistent }
    ensures report { AnswerIsReport }
    ensures ready { ReadyIsAnswered }
    ensures tables { VersionTellsTables }
    ensures dump { DumpIsTables }
    ensures identity { StepsKeepIdentity }
{
    arrivals_stay_of_streams();
    arrivals_stay_of_a_list();
    known_frames_stay_kept();
    frames_are_gained();
    one_merge();
    changes_tell_kinds();
    commits_are_defined_one_by_one();
    images_rebuild_tables();
    plans_still_fit();
}
