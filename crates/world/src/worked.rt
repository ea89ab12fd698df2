//! Events that are worked out on the definitions alone.

ghost use Rattle.std.specs.Prelude.{◌≡◌};
ghost use Rattle.world.specs.Worked.{first_commit, first_commit_outputs, lost_frame, lost_frame_outputs, conflict, conflict_outputs};
ghost use Rattle.world.specs.Worked.{write_skew, write_skew_outputs, refusals, refusals_outputs, worked_world};
ghost use Rattle.world.specs.Worked.{stops, stops_outputs, bases, bases_outputs, two_queries, two_queries_outputs};
ghost use Rattle.world.specs.Worked.{added_column, added_column_outputs, two_workers, two_workers_outputs, wide_world};
ghost use Rattle.world.specs.Worked.{image, image_outputs, renewal, renewal_outputs};
ghost use Rattle.world.specs.Steps.{outputs_of};

/// What the definitions of the world state for twelve lists of events: a first commit that is
/// reported, the same with its frame lost at first, two transactions that change one row, two that
/// each set the row that the other one looked at, the refusals of a transaction's calls in their
/// order, stops inside a journal write and outside of one, bases, what they leave of frames and
/// what a replica makes of their Heads, two queries of one batch of which one joins and groups, a
/// column that is added beside a transaction and reports, two workers whose frames arrive in the
/// other order, a batch that goes by image, and one that renews. No code takes part.
pub fn worked_scripts()
    ensures first_commit { outputs_of worked_world first_commit ≡ first_commit_outputs }
    ensures lost_frame { outputs_of worked_world lost_frame ≡ lost_frame_outputs }
    ensures conflict { outputs_of worked_world conflict ≡ conflict_outputs }
    ensures write_skew { outputs_of worked_world write_skew ≡ write_skew_outputs }
    ensures refusals { outputs_of worked_world refusals ≡ refusals_outputs }
    ensures stops { outputs_of worked_world stops ≡ stops_outputs }
    ensures bases { outputs_of worked_world bases ≡ bases_outputs }
    ensures two_queries { outputs_of worked_world two_queries ≡ two_queries_outputs }
    ensures added_column { outputs_of worked_world added_column ≡ added_column_outputs }
    ensures two_workers { outputs_of wide_world two_workers ≡ two_workers_outputs }
    ensures image { outputs_of wide_world image ≡ image_outputs }
    ensures renewal { outputs_of wide_world renewal ≡ renewal_outputs }
{}
