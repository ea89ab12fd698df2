//! What follows for clients.

ghost use Rattle.gateway.specs.Jobs.{WhatIsToldStands};

/// What a round told of jobs stands once it has settled: for each line that was sent with status 200 or
/// 409 there is a job, and if it has a ticket, a commit of the job's worker with the entries that its steps make. This
/// joins what `Settle::call` and `settle` say of a `JobDesk` (`AnswersJobs`, `SettlesJobs`) with what a
/// round of `service` says of its calls (`HasEnded`). It does nothing: its contract is the law.
pub fn what_is_told_stands()
    ensures { WhatIsToldStands }
{}
