//! Restarts, and the jobs that are handed out.
ghost use Rattle.std.specs.Prelude.{◌≡◌, ◌+◌, [], ◌∷◌, codes, map, Some, None};
ghost use Rattle.trigger_rules.specs.declared.states.State.TheVariants as state;
ghost use Rattle.instance_machine.specs.declared.tries.Outcome.TheVariants as outcome;
ghost use Rattle.sched_state.specs.declared.runs.RunPhase.TheVariants as phase;
ghost use Rattle.sched_model.specs.Changes.{restart};
ghost use Rattle.sched_model.specs.Jobs.{handed};
ghost use Rattle.sched_model.specs.States.{in_flight, occupied};
ghost use Rattle.sched_rows.specs.Days.{job_seen};
ghost use Rattle.sched_model.specs.Rows.{all_states, once_more, phases, starts, tick, told_between, with_lanes, two_due, one_lane, three_wanting, three_handed};

/// A restart ends each try that is in flight as lost: it is tried again, under a new serial, after its delay, where tries are left, and else
/// has failed. It sets the lanes.
pub fn a_restart_loses_what_is_in_flight()
    ensures before { in_flight once_more ≡ 1 }
    ensures again { all_states (with_lanes 4 once_more) ≡ (state.UpForRetry ∷ []) ∷ [] }
    ensures none { in_flight (with_lanes 4 once_more) ≡ 0 }
    ensures early { told_between (with_lanes 4 once_more) (tick [] (1704153600 + 299) (with_lanes 4 once_more)) ≡ [] }
    ensures retried { told_between (with_lanes 4 once_more) (tick [] (1704153600 + 300) (with_lanes 4 once_more))
        ≡ (2, codes "g", 1704067200, codes "t") ∷ [] }
    ensures without_lanes { told_between (with_lanes 0 once_more) (tick [] (1704153600 + 300) (with_lanes 0 once_more)) ≡ [] }
    ensures failed { all_states (with_lanes 1 (starts 1 two_due)) ≡ (state.Failed ∷ []) ∷ (state.Queued ∷ []) ∷ [] }
    ensures runs { phases (with_lanes 1 two_due) ≡ phase.Failed ∷ phase.Running ∷ [] }
    ensures lanes { (restart 3 two_due).lanes ≡ 3 }
{}

/// A job says its task's pool and slots, and which try it is of all that its task had.
pub fn a_job_says_what_it_takes()
    ensures slots { map job_seen (handed three_wanting three_handed)
        ≡ (1, codes "p", 2, 1) ∷ (2, codes "p", 1, 1) ∷ [] }
    ensures second { map job_seen
        (handed (with_lanes 4 once_more) (tick [] (1704153600 + 300) (with_lanes 4 once_more)))
        ≡ (2, codes "default_pool", 1, 2) ∷ [] }
{}
