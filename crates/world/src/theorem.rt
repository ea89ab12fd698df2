//! What follows of every run that the world allows, whoever makes it, and of every stop.

ghost use Rattle.world.specs.Theorem.{AllowedRunsAreExact, RunsAreOfDatabase};
ghost use Rattle.world.specs.Stops.{StopIsRecovered, StopKeepsDurable, StopEndsTransactions};

use crate::laws::steps_are_told;
use journal::laws::{stops_are_recovered, texts_grow};

/// What is durable after a stop is what the journal keeps of its bytes at that moment: what was
/// durable, possibly with more after it. No transaction is open then. No code takes part.
pub fn stops_keep_what_stands()
    ensures recovered { StopIsRecovered }
    ensures durable { StopKeepsDurable }
    ensures transactions { StopEndsTransactions }
{
    stops_are_recovered();
    texts_grow();
}

/// Any outputs that the world allows for possible events, whatever produced them, keep what is
/// durable, report no damage, and report by the one list that is durable at the end. No code takes
/// part.
pub fn allowed_runs_are_exact()
    ensures { AllowedRunsAreExact }
{
    steps_are_told();
}

/// Whatever the world allows for possible events is, as users see it, a run of the database, in which
/// replicas may renew a version that was fetched: a list of commits that only grows; replicas that are
/// each at a version of it, and go back to an older version only when they are restarted; and batches
/// that are each answered at the version fetched for them last, which is at least as new as the list
/// was when they asked first. No code takes part.
pub fn runs_are_of_database()
    ensures { RunsAreOfDatabase }
{
    steps_are_told();
}
