//! Clearing, by days and by tasks.
ghost use Rattle.std.specs.Prelude.{◌≡◌, ◌+◌, [], ◌∷◌, codes, true, false, Some, None};
ghost use Rattle.trigger_rules.specs.declared.states.State.TheVariants as state;
ghost use Rattle.instance_machine.specs.declared.tries.Outcome.TheVariants as outcome;
ghost use Rattle.sched_state.specs.declared.runs.RunPhase.TheVariants as phase;
ghost use Rattle.sched_model.specs.Rows.{a_day, all_states, clears, does, phases, told_between};
ghost use Rattle.sched_rows.specs.Days.{two_days_on, three_days_done, days, cleared_days, reset_days, count_of, chain_done, chain_failed, from_task, around_b, half_done, one_and_one_queued};

/// A clear names the runs of its graph from its first date to its last one, both of them too, and no other graph's.
pub fn a_clear_names_the_days_of_a_graph()
    ensures first { told_between three_days_done (cleared_days 0 0) ≡ (7, codes "g", 0, codes "t") ∷ [] }
    ensures second { told_between three_days_done (cleared_days a_day a_day) ≡ (7, codes "g", a_day, codes "t") ∷ [] }
    ensures last { told_between three_days_done (cleared_days two_days_on two_days_on)
        ≡ (7, codes "g", two_days_on, codes "t") ∷ [] }
    ensures to_the_second { told_between three_days_done (cleared_days 0 a_day)
        ≡ (7, codes "g", 0, codes "t") ∷ (8, codes "g", a_day, codes "t") ∷ [] }
    ensures from_the_second { told_between three_days_done (cleared_days a_day two_days_on)
        ≡ (7, codes "g", a_day, codes "t") ∷ (8, codes "g", two_days_on, codes "t") ∷ [] }
    ensures between { told_between three_days_done (cleared_days 1 (a_day + 1)) ≡ (7, codes "g", a_day, codes "t") ∷ [] }
    ensures backwards { told_between three_days_done (cleared_days two_days_on 0) ≡ [] }
    ensures phases { phases (cleared_days a_day a_day)
        ≡ phase.Success ∷ phase.Running ∷ phase.Success ∷ phase.Success ∷ phase.Success ∷ phase.Success ∷ [] }
    ensures reset { phases (reset_days (a_day ∷ 5 ∷ []))
        ≡ phase.Success ∷ phase.Running ∷ phase.Success ∷ phase.Success ∷ phase.Success ∷ phase.Success ∷ [] }
    ensures count { count_of three_days_done (days a_day two_days_on) ≡ 2 }
{}

/// A clear names a task, what it reaches in the directions asked for, or all tasks; of these all, or those that failed or are upstream_failed.
pub fn a_clear_follows_the_edges()
    ensures alone { all_states (clears (around_b false false) chain_done)
        ≡ (state.Success ∷ state.Queued ∷ state.Success ∷ state.Success ∷ []) ∷ [] }
    ensures upstream { all_states (clears (around_b true false) chain_done)
        ≡ (state.Queued ∷ state.None ∷ state.Success ∷ state.Success ∷ []) ∷ [] }
    ensures downstream { all_states (clears (around_b false true) chain_done)
        ≡ (state.Success ∷ state.Queued ∷ state.None ∷ state.Success ∷ []) ∷ [] }
    ensures both { all_states (clears (around_b true true) chain_done)
        ≡ (state.Queued ∷ state.None ∷ state.None ∷ state.Success ∷ []) ∷ [] }
    ensures all { all_states (clears (from_task None false false false) chain_done)
        ≡ (state.Queued ∷ state.None ∷ state.None ∷ state.Queued ∷ []) ∷ [] }
    ensures count_alone { count_of chain_done (around_b false false) ≡ 1 }
    ensures count_both { count_of chain_done (around_b true true) ≡ 3 }
    ensures unknown { count_of chain_done (from_task (Some (codes "x")) true true false) ≡ 0 }
    ensures failed { all_states chain_failed
        ≡ (state.Failed ∷ state.UpstreamFailed ∷ state.UpstreamFailed ∷ state.Success ∷ []) ∷ [] }
    ensures only_failed { all_states (clears (from_task None false false true) chain_failed)
        ≡ (state.Queued ∷ state.None ∷ state.None ∷ state.Success ∷ []) ∷ [] }
    ensures only_failed_count { count_of chain_failed (from_task None false false true) ≡ 3 }
{}

/// An ended run goes on after a clear, and one that is queued or running stays so. What was none is not counted.
pub fn a_clear_queues_what_had_ended()
    ensures was_failed { phases chain_failed ≡ phase.Failed ∷ [] }
    ensures failed { phases (clears (from_task None false false true) chain_failed) ≡ phase.Running ∷ [] }
    ensures was { phases one_and_one_queued ≡ phase.Running ∷ phase.Queued ∷ [] }
    ensures queued { phases (clears (days a_day a_day) one_and_one_queued) ≡ phase.Running ∷ phase.Queued ∷ [] }
    ensures running { phases (clears (from_task (Some (codes "a")) false false false) half_done) ≡ phase.Running ∷ [] }
    ensures not_counted { count_of one_and_one_queued (days 0 two_days_on) ≡ 1 }
    ensures after_the_other { phases (clears (days 0 0) (does 2 outcome.Success (does 1 outcome.Success one_and_one_queued)))
        ≡ phase.Running ∷ phase.Success ∷ [] }
{}
