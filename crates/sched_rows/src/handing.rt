//! What is handed out, and what is not.
ghost use Rattle.std.specs.Prelude.{◌≡◌, ◌+◌, ◌^◌, [], ◌∷◌, codes, true, false, Some, None};
ghost use Rattle.trigger_rules.specs.declared.states.State.TheVariants as state;
ghost use Rattle.instance_machine.specs.declared.tries.Outcome.TheVariants as outcome;
ghost use Rattle.sched_model.specs.Handout.{has_come, is_scheduled};
ghost use Rattle.sched_model.specs.Rows.{a_day, all_states, does, pause, told_between};
ghost use Rattle.sched_rows.specs.Days.{chain, one_lane_from, two_days_from};

/// Nothing of a paused graph is handed out, and what waited is once it goes on.
pub fn a_paused_graph_hands_out_nothing()
    ensures states { all_states (does 1 outcome.Success (pause true chain))
        ≡ (state.Success ∷ state.Scheduled ∷ state.None ∷ state.Queued ∷ []) ∷ [] }
    ensures paused { told_between (pause true chain) (does 1 outcome.Success (pause true chain)) ≡ [] }
    ensures goes_on { told_between (does 1 outcome.Success (pause true chain)) (pause false (does 1 outcome.Success (pause true chain)))
        ≡ (3, codes "g", 0, codes "b") ∷ [] }
    ensures not_paused { told_between chain (does 1 outcome.Success chain) ≡ (3, codes "g", 0, codes "b") ∷ [] }
{}

/// Serials go up to 2^62. After the last one nothing is handed out.
pub fn serials_end()
    ensures last { told_between (one_lane_from (2 ^ 62)) (two_days_from (2 ^ 62)) ≡ (2 ^ 62, codes "one", 0, codes "t") ∷ [] }
    ensures past { told_between (one_lane_from (2 ^ 62 + 1)) (two_days_from (2 ^ 62 + 1)) ≡ [] }
{}

/// A retry is ready from its moment on; without a moment there is none.
pub fn a_retry_has_its_moment()
    ensures before { has_come 9 (Some 10) ≡ false }
    ensures then { has_come 10 (Some 10) ≡ true }
    ensures never { has_come 10 None ≡ false }
    ensures scheduled { is_scheduled state.Scheduled ≡ true }
    ensures queued { is_scheduled state.Queued ≡ false }
{}
